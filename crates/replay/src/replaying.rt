ghost use Rattle.std.specs.Prelude.{◌≡◌, ◌⊎◌, ◌++◌, ℕ, List, Err, IfErr, IsOk, OnOk};
ghost use Rattle.std.specs.Io.KnownBytes.{Appends, Keeps};
ghost use Rattle.replay.specs.Replay.{HasRun, IsBeforeOutput, IsBeforeRun, Refuses, Replays};
ghost use Rattle.target_core.specs.Faults.{profile_in};
ghost use Rattle.target_core.specs.Run.{Runs};
ghost use Rattle.judgement.specs.declared.reply.Reply.{Reply};
ghost use Rattle.logical_unit.specs.UnitView.{units_of};
ghost use Rattle.script_input.specs.declared.line_fault.LineFault.{LineFault};
ghost use Rattle.replay.specs.Texts.{cdb_of, event_text, lun_of, run_text};

use device_server::DeviceServer;
use logical_unit::Reply;
use output_lines::{Audit, Explanations, audit_text, write_explained, write_out};
use script_input::{ReplayFault, read_all};
use script_lines::{Events, events_of};
use scsi_cdb::Profile;
use std::alloc::{AllocError, Global};
use std::io;
use std::io::{Read, Write};
use target_core::{Event, TargetCore};

/// Reads a script to its end, by at most `turns` reads of at most 65,536 bytes, runs its events and
/// writes a line for each reply, with one behind it that says it in words, by the profile of its library, where those are wanted, and then,
/// where they are wanted, the lines of the records that the units have after the run. The whole script is checked before the run, and the whole output is
/// made before its first byte is written.
///
/// `Line`: the first line with a fault. `Read`: a read failed, or one more was needed than `turns`.
/// After these two the core is unchanged. `NoMemory` may come before the run or after it. Until
/// `Write` nothing was written; of how much `Write` leaves written nothing is said.
pub fn replay<D: DeviceServer, R: Read, W: Write>(
    alloc: Global,
    core: &mut TargetCore<D>,
    reader: &mut R,
    writer: &mut W,
    explanations: Explanations,
    audit: Audit,
    turns: u64,
) -> Result<(), ReplayFault>
    ensures ok { OnOk result
        (Replays turns (R.remaining reader.old) (R.remaining reader.new) (units_of core.old) (units_of core.new)
        explanations audit (W.contents writer.old) (W.contents writer.new)) }
    ensures line { (n : ℕ) (f : LineFault) → result ≡ Err (ReplayFault.Line n f) →
        Refuses (profile_in (units_of core.old)) turns (R.remaining reader.old) (R.remaining reader.new) n f }
    ensures write { result ≡ Err ReplayFault.Write →
        HasRun turns (R.remaining reader.old) (R.remaining reader.new) (units_of core.old) (units_of core.new) }

    // What a fault leaves.
    ensures core { IfErr result (λ fault. IsBeforeRun fault → core.new ≡ core.old) }
    ensures memory { result ≡ Err ReplayFault.NoMemory → (core.new ≡ core.old)
        ⊎ HasRun turns (R.remaining reader.old) (R.remaining reader.new) (units_of core.old) (units_of core.new) }
    ensures output { IfErr result (λ fault.
        IsBeforeOutput fault → Keeps (W.contents writer.old) (W.contents writer.new)) }
{
    let input = read_all(alloc, reader, turns)?;
    let profile = core.profile();
    let events = events_of(alloc, profile, &input)?;
    // The events hold all that is wanted of it.
    drop(input);
    let mut text = Vec::new(alloc);
    run(alloc, core, events, explanations, profile, &mut text)?;
    let records = audit_text(alloc, audit, core.all())?;
    match write_both(writer, &text, records.as_bytes()) {
        Ok(()) => Ok(()),
        Err(_) => Err(ReplayFault::Write),
    }
}

/// Runs events one after another, and adds what is written of each reply as it comes. A piece of them is let go once
/// it has run. All events are run, also where a line finds no memory.
fn run<D: DeviceServer>(
    alloc: Global,
    core: &mut TargetCore<D>,
    events: Events,
    explanations: Explanations,
    profile: Profile,
    text: &mut Vec<u8>,
) -> Result<(), AllocError>
    ensures { (replies : List Reply) × Runs (units_of core.old) events replies (units_of core.new)
        × OnOk result (text.new.items ≡ text.old.items ++ run_text profile explanations events replies) }
{
    let mut written = Ok(());
    for piece in events.into_pieces() {
        written = run_piece(alloc, core, &piece, explanations, profile, text, written);
    }
    written
}

/// Runs the events of a piece, and adds what is written of each reply unless an earlier line found no memory.
fn run_piece<D: DeviceServer>(
    alloc: Global,
    core: &mut TargetCore<D>,
    events: &[Event],
    explanations: Explanations,
    profile: Profile,
    text: &mut Vec<u8>,
    before: Result<(), AllocError>,
) -> Result<(), AllocError>
    ensures { (replies : List Reply) × Runs (units_of core.old) events.now replies (units_of core.new)
        × OnOk result (IsOk before × (text.new.items ≡ text.old.items ++ run_text profile explanations events.now replies)) }
{
    let mut written = before;
    for event in events {
        let reply = core.step(alloc, event);
        if written.is_ok() {
            written = write_event(text, explanations, profile, event, &reply);
        }
    }
    written
}

/// Adds what is written of the reply to an event.
fn write_event(
    text: &mut Vec<u8>,
    explanations: Explanations,
    profile: Profile,
    event: &Event,
    reply: &Reply,
) -> Result<(), AllocError>
    ensures { OnOk result (text.new.items ≡ text.old.items ++ event_text profile explanations event.now reply.now) }
{
    write_explained(
        text,
        explanations,
        profile,
        lun_of(event),
        cdb_of(event),
        reply.status,
        &reply.sense,
        reply.payload.bytes(),
    )
}

/// The logical unit of an event.
fn lun_of(event: &Event) -> u8
    ensures { result ≡ lun_of event.now }
{
    match event {
        Event::Command { lun, .. } | Event::Loss { lun, .. } | Event::Reset { lun } => *lun,
    }
}

/// The CDB of an event; a loss and a reset have none.
fn cdb_of(event: &Event) -> &[u8]
    ensures { result.now ≡ cdb_of event.now }
{
    match event {
        Event::Command { cdb, .. } => cdb.as_slice(),
        Event::Loss { .. } | Event::Reset { .. } => b"",
    }
}

/// Writes all of two texts, and what the writer may still hold back of them.
fn write_both<W: Write>(writer: &mut W, text: &[u8], more: &[u8]) -> io::Result<()>
    ensures { OnOk result
        (Appends (W.contents writer.old) (W.contents writer.new) (text.now ++ more.now)) }
{
    writer.write_all(text)?;
    write_out(writer, more)
}
