ghost use Rattle.std.specs.Prelude.{◌≡◌, ◌==◌, ◌<◌, length, OnOk, IfErr, IfSome};
ghost use Rattle.std.specs.List.{position, list_any};
ghost use Rattle.std.specs.Option.{option_map};
ghost use Rattle.iscsi_chap.specs.Entries.{is_entry_of};
ghost use Rattle.iscsi_chap.specs.Secrets.{GivesSecrets, TakesLine, FailsAt, numbered_entries, credentials_fields_value, said_value, line_behind, first_line, is_shared, secrets_in, line_of, rest_of, rest_value};

use crate::entry::{ChapEntry, ChapSecrets};
use crate::fields::{CredentialsFields, Fields, entry_of, fields_in, is_shared};
use crate::secrets_fault::{LineFault, SecretsFault};
use std::alloc::Global;

impl ChapSecrets {
    /// The entries of a secrets file, in the order of its lines, or its first line with a fault. A line is
    /// `NAME USER SECRET` or `NAME USER SECRET TARGET-USER TARGET-SECRET`, its words parted by spaces or tabs; a word that
    /// begins with `#` begins a comment; a line without a word says nothing, and no two lines have one
    /// host and one user (profile). No secret of the target is a host's, of whichever lines: else one host could answer the target's
    /// challenge by what the target answers to another. `NoMemory` may come in place of any answer.
    pub fn parse(alloc: Global, text: &[u8]) -> Result<ChapSecrets, SecretsFault>
        ensures { GivesSecrets result (secrets_in text.now) }
    {
        let mut entries = Vec::new(alloc);
        let mut rest = Some(text);
        'lines: for place in 0..text.len() + 1 {
            let Some(lines) = rest else {
                return Ok(ChapSecrets { entries });
            };
            let (line, others) = first_line(lines);
            match take_line(&mut entries, place + 1, line) {
                Ok(()) => rest = others,
                Err(fault) => return Err(fault),
            }
        }
        Ok(ChapSecrets { entries })
    }
}

/// The first line, without its line feed, and what is behind that.
fn first_line(text: &[u8]) -> (&[u8], Option<&[u8]>)
    ensures line { result.0.now ≡ line_of text.now }
    ensures rest { rest_value result.1 ≡ rest_of text.now }
{
    match line_end(text) {
        None => (text, None),
        Some(place) => (&text[..place], Some(&text[place + 1..])),
    }
}

/// Where the first line feed stands.
fn line_end(text: &[u8]) -> Option<usize>
    ensures place { result ≡ position (λ b. b == 10) text.now }
    ensures within { IfSome result (λ place. place < length text.now) }
{
    text.iter().position(|byte| *byte == b'\n')
}

/// Adds the entry of a line, where it has one that may stand behind those so far.
fn take_line(entries: &mut Vec<ChapEntry>, number: usize, line: &[u8]) -> Result<(), SecretsFault>
    ensures ok { OnOk result (TakesLine number (numbered_entries entries.old.items) (numbered_entries entries.new.items) (line_behind (numbered_entries entries.old.items) line.now)) }
    ensures err { IfErr result (λ fault. FailsAt number fault (line_behind (numbered_entries entries.old.items) line.now)) }
{
    let fields = match fields_behind(entries.as_slice(), line) {
        Err(what) => return Err(SecretsFault::Line { number, what }),
        Ok(None) => return Ok(()),
        Ok(Some(fields)) => fields,
    };
    let Ok(entry) = entry_of(*entries.allocator(), number, fields) else {
        return Err(SecretsFault::NoMemory);
    };
    match entries.push(entry) {
        Ok(()) => Ok(()),
        Err(_) => Err(SecretsFault::NoMemory),
    }
}

/// What a line says behind the entries: nothing, or an entry of a host and a user that none of them has, and with no secret of theirs the
/// other way round.
#[tactic(auto, using(crate::proofs::Users::any_of_values))]
fn fields_behind<'a>(entries: &[ChapEntry], line: &'a [u8]) -> Result<Option<Fields<'a>>, LineFault>
    ensures { said_value result ≡ line_behind (numbered_entries entries.now) line.now }
{
    let Some(fields) = fields_in(line)? else {
        return Ok(None);
    };
    if has_user(entries, fields.host, fields.own.user) {
        return Err(LineFault::UserTwice);
    }
    if let Some(line) = line_of_host(entries, fields.target) {
        return Err(LineFault::SecretOfHost { line });
    }
    if let Some(line) = line_of_target(entries, fields.own) {
        return Err(LineFault::SecretOfTarget { line });
    }
    Ok(Some(fields))
}

/// The first line by which a host has the secret of the target.
fn line_of_host(entries: &[ChapEntry], target: Option<CredentialsFields<'_>>) -> Option<usize>
    ensures { result ≡ first_line (λ e. is_shared e.own (option_map credentials_fields_value target.entry)) (numbered_entries entries.now) }
{
    for entry in entries {
        if is_shared(entry.own.fields(), target) {
            return Some(entry.line);
        }
    }
    None
}

/// The first line by which the target has the secret of the host.
fn line_of_target(entries: &[ChapEntry], own: CredentialsFields<'_>) -> Option<usize>
    ensures { result ≡ first_line (λ e. is_shared (credentials_fields_value own.entry) e.target) (numbered_entries entries.now) }
{
    for entry in entries {
        if is_shared(own, entry.target_fields()) {
            return Some(entry.line);
        }
    }
    None
}

/// Whether one of the entries is of the host and the user.
fn has_user(entries: &[ChapEntry], host: &[u8], user: &[u8]) -> bool
    ensures { result ≡ list_any (λ e. is_entry_of e host.now user.now) entries.now }
{
    entries.iter().any(|entry| entry.is_of(host, user))
}
