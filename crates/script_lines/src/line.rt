ghost use Rattle.std.specs.Prelude.{◌≡◌, ◌∷◌, ◌++◌, [], ℕ, List, None, Some, Ok, OnOk, IfErr, IfSome, MatchOption};
ghost use Rattle.scsi_cdb.specs.declared.profile.Profile.{Profile};
ghost use denote.Ref.{Bor};
ghost use Rattle.std.specs.Option.{option_map};
ghost use Rattle.script_lines.specs.declared.line.LineError.TheVariants.{NoMemory, Fault};
ghost use Rattle.script_input.specs.declared.line_fault.LineFault.TheVariants.{WordCount};
ghost use Rattle.script_lines.specs.Limits.{line_limit};
ghost use Rattle.script_lines.specs.Words.{Gives, Fails};
ghost use Rattle.script_lines.specs.Text.{pieces, pieces_after};
ghost use Rattle.script_lines.specs.Lines.{Command, event_in, said, some_said, words_seen, words_cut, words_in, bytes_in, command_in, loss_in, sole_unit_in, other_in, line_in};
ghost use Rattle.script_lines.specs.Script.{TakesLine, saids};

use crate::cutting::{cut, is_end};
use crate::events::Events;
use crate::words::{bytes_of, cdb_of, nexus_of, unit_of};
use arrayvec::ArrayVec;
use frames::most_command_data;
use script_input::LineFault;
use scsi_cdb::Profile;
use scsi_nexus::Nexus;
use std::alloc::{AllocError, Global};
use target_core::{Event, MAX_CDB};

/// The longest line of a script for a library of the default profile, without its line feed.
const MAX_LINE: usize = 270_000;

/// The same in the hosts' profile.
const HOSTS_MAX_LINE: usize = 2_240_000;

/// The longest line of a script for a library of a profile, without its line feed.
pub fn most_line(profile: Profile) -> usize
    ensures { result ≡ line_limit profile }
{
    match profile {
        Profile::Spec => MAX_LINE,
        Profile::Hosts => HOSTS_MAX_LINE,
    }
}

/// Why a line gave no event.
#[derive(Clone, Copy)]
pub enum LineError {
    NoMemory,
    Fault(LineFault),
}

impl From<LineFault> for LineError {
    ghost use Rattle.std.specs.Prelude.{◌≡◌};
    ghost use Rattle.script_lines.specs.declared.line.LineError.TheVariants.{Fault};

    ghost from_gives = { λ fault error. error ≡ Fault fault };

    fn from(fault: LineFault) -> LineError {
        LineError::Fault(fault)
    }
}

impl From<AllocError> for LineError {
    ghost use Rattle.std.specs.Prelude.{◌≡◌};
    ghost use Rattle.script_lines.specs.declared.line.LineError.TheVariants.{NoMemory};

    ghost from_gives = { λ _ error. error ≡ NoMemory };

    fn from(_: AllocError) -> LineError {
        LineError::NoMemory
    }
}

/// The words of a command's line, of which `data` is all that stands behind the third: the fourth word, if it has no space in it.
#[derive(Clone, Copy)]
pub struct Words<'a> {
    pub nexus: &'a [u8],
    pub lun: &'a [u8],
    pub cdb: &'a [u8],
    pub data: Option<&'a [u8]>,
}

/// A command without data.
#[derive(Drop)]
struct ShortCommand {
    nexus: Nexus,
    lun: u8,
    cdb: ArrayVec<u8, MAX_CDB>,
}

/// The command of a line without data whose unit has one digit, as most have: its words stand where they are looked for.
#[inline(always)]
fn short_command(line: &[u8]) -> Option<ShortCommand>
    ensures { IfSome result (λ command. (profile : Profile)
        → event_in profile (pieces 32 line.now) ≡ Ok (Command command.nexus command.lun command.cdb.items [])) }
{
    if line.len() < 22 || line.len() > 53 || line[18] != b' ' || line[20] != b' ' {
        return None;
    }
    let Ok(nexus) = nexus_of(&line[..18]) else {
        return None;
    };
    let Ok(lun) = unit_of(&line[19..20]) else {
        return None;
    };
    let Ok(cdb) = cdb_of(&line[21..]) else {
        return None;
    };
    Some(ShortCommand { nexus, lun, cdb })
}

/// Adds the event of a line: none for an empty one and for a comment. An event is added where it is made, since what
/// holds it in between would be copied.
#[tactic(auto, unfolding(crate::specs::Lines::line_in))]
pub fn take_event(
    alloc: Global,
    profile: Profile,
    events: &mut Events,
    line: &[u8],
) -> Result<(), LineError>
    ensures ok { OnOk result (TakesLine (saids events.old) (saids events.new) (line_in profile line.now)) }
    ensures err { IfErr result (λ error. Fails error (line_in profile line.now)) }
{
    if line.len() > most_line(profile) {
        return Err(LineError::Fault(LineFault::TooLong));
    }
    if line.is_empty() || line[0] == b'#' {
        return Ok(());
    }
    if let Some(command) = short_command(line) {
        return take_short(alloc, events, command);
    }
    let (first, rest) = cut(line, b' ');
    if first == b"loss".as_slice() || first == b"reset".as_slice() {
        return take_other(alloc, events, first, rest);
    }
    take_command(alloc, profile, events, first, rest)
}

/// Adds a command without data.
#[inline(always)]
fn take_short(alloc: Global, events: &mut Events, command: ShortCommand) -> Result<(), LineError>
    ensures ok { OnOk result (saids events.new ≡ saids events.old ++ Command command.nexus command.lun command.cdb.items [] ∷ []) }
    ensures err { IfErr result (λ error. error ≡ NoMemory) }
{
    let ShortCommand { nexus, lun, cdb } = command;
    let bytes = Vec::new(alloc);
    let event = Event::Command {
        nexus,
        lun,
        cdb,
        bytes,
    };
    events.push(alloc, event)?;
    Ok(())
}

/// Adds the event of a line whose first word is `loss`, or `reset` where it is another, from the words behind it.
fn take_other(
    alloc: Global,
    events: &mut Events,
    first: &[u8],
    others: Option<&[u8]>,
) -> Result<(), LineError>
    ensures ok { OnOk result (TakesLine (saids events.old) (saids events.new)
        (some_said (other_in first.now (pieces_after 32 others.entry)))) }
    ensures err { IfErr result (λ error. Fails error (other_in first.now (pieces_after 32 others.entry))) }
{
    let event = if first == b"loss".as_slice() {
        loss_of(others)?
    } else {
        let lun = sole_unit_of(others)?;
        Event::Reset { lun }
    };
    events.push(alloc, event)?;
    Ok(())
}

/// The loss of a line `loss SAS.PORT LUN`, from the words behind the first.
fn loss_of(words: Option<&[u8]>) -> Result<Event, LineError>
    ensures { Gives said result (loss_in (pieces_after 32 words.entry)) }
{
    let Some(rest) = words else {
        return Err(LineError::Fault(LineFault::WordCount));
    };
    let (nexus, rest) = cut(rest, b' ');
    let Some(rest) = rest else {
        return Err(LineError::Fault(LineFault::WordCount));
    };
    let (lun, rest) = cut(rest, b' ');
    if !is_end(rest) {
        return Err(LineError::Fault(LineFault::WordCount));
    }
    let nexus = nexus_of(nexus)?;
    let lun = unit_of(lun)?;
    Ok(Event::Loss { nexus, lun })
}

/// The unit of a line `reset LUN`, from the words behind the first.
pub fn sole_unit_of(words: Option<&[u8]>) -> Result<u8, LineError>
    ensures { Gives (λ lun. lun) result (sole_unit_in (pieces_after 32 words.entry)) }
{
    let Some(rest) = words else {
        return Err(LineError::Fault(LineFault::WordCount));
    };
    let (lun, rest) = cut(rest, b' ');
    if !is_end(rest) {
        return Err(LineError::Fault(LineFault::WordCount));
    }
    let lun = unit_of(lun)?;
    Ok(lun)
}

/// Adds the command of a line `SAS.PORT LUN CDB [DATA]`, from its first word and those behind it.
fn take_command(
    alloc: Global,
    profile: Profile,
    events: &mut Events,
    first: &[u8],
    others: Option<&[u8]>,
) -> Result<(), LineError>
    ensures ok { OnOk result (TakesLine (saids events.old) (saids events.new)
        (some_said (command_in profile (words_in (first.now ∷ pieces_after 32 others.entry))))) }
    ensures err { IfErr result (λ error. Fails error
        (command_in profile (words_in (first.now ∷ pieces_after 32 others.entry)))) }
{
    let Some(words) = words_of(first, others) else {
        return Err(LineError::Fault(LineFault::WordCount));
    };
    match take_words(alloc, profile, events, words) {
        Ok(()) => Ok(()),
        Err(error) => Err(fault_of(words, error)),
    }
}

/// Adds the command of words, with their data taken as one word.
fn take_words(
    alloc: Global,
    profile: Profile,
    events: &mut Events,
    words: Words,
) -> Result<(), LineError>
    ensures ok { OnOk result (TakesLine (saids events.old) (saids events.new)
        (some_said (command_in profile (Some (words_seen words.entry))))) }
    ensures err { IfErr result (λ error. Fails error (command_in profile (Some (words_seen words.entry)))) }
{
    let nexus = nexus_of(words.nexus)?;
    let lun = unit_of(words.lun)?;
    let cdb = cdb_of(words.cdb)?;
    let bytes = data_of(alloc, profile, words.data)?;
    let command = Event::Command {
        nexus,
        lun,
        cdb,
        bytes,
    };
    events.push(alloc, command)?;
    Ok(())
}

/// The three words of a line, the first of them its nexus, and what stands behind them. That is long where it is data, and is not
/// searched for a space here: data in hexadecimal has none.
pub fn words_of<'a>(nexus: &'a [u8], others: Option<&'a [u8]>) -> Option<Words<'a>>
    ensures { MatchOption result (words_in (nexus.now ∷ pieces_after 32 others.entry) ≡ None)
        (λ words. words_in (nexus.now ∷ pieces_after 32 others.entry) ≡ words_cut words) }
{
    let (lun, rest) = cut(others?, b' ');
    let (cdb, data) = cut(rest?, b' ');
    Some(Words {
        nexus,
        lun,
        cdb,
        data,
    })
}

/// The error of a line whose words fail with one, their data taken as one word: a fifth word comes before all other faults (profile).
#[cold]
#[inline(never)]
pub fn fault_of(words: Words, error: LineError) -> LineError
    ensures { MatchOption (words_cut words.entry) (result ≡ Fault WordCount) (λ _. result ≡ error) }
{
    let Some(data) = words.data else {
        return error;
    };
    let (_, rest) = cut(data, b' ');
    if is_end(rest) {
        error
    } else {
        LineError::Fault(LineFault::WordCount)
    }
}

/// The bytes of the fourth word, none where there is no such word.
pub fn data_of(alloc: Global, profile: Profile, word: Option<&[u8]>) -> Result<Vec<u8>, LineError>
    ensures { Gives (λ bytes. bytes.items) result
        (bytes_in profile (option_map (λ (b : Bor (List ℕ)). b.now) word.entry)) }
{
    match word {
        None => Ok(Vec::new(alloc)),
        Some(word) => bytes_of(alloc, word, most_command_data(profile) as usize),
    }
}
