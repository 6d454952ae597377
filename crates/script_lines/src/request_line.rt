ghost use Rattle.std.specs.Prelude.{◌≡◌, Some};
ghost use Rattle.script_lines.specs.Lines.{words_seen, words_in};
ghost use Rattle.script_lines.specs.Requests.{request_value, request_value_by, command_request_in, request_line_in};
ghost use Rattle.script_lines.specs.Text.{pieces};
ghost use Rattle.script_lines.specs.Words.{Gives};
ghost use Rattle.std.specs.Prelude.{◌∷◌, []};

use crate::client_request::ClientRequest;
use crate::cutting::cut;
use crate::line::{LineError, Words, data_of, fault_of, most_line, sole_unit_of, words_of};
use crate::words::{bytes_of, unit_of};
use script_input::LineFault;
use scsi_cdb::Profile;
use std::alloc::Global;
use target_core::MAX_CDB;

/// The request of a line of a host's script for a library of a profile: nothing for an empty one and for a comment.
#[tactic(auto, unfolding(crate::specs::Requests::request_line_in))]
pub fn request_of(
    alloc: Global,
    profile: Profile,
    line: &[u8],
) -> Result<Option<ClientRequest>, LineError>
    ensures { Gives request_value_by result (request_line_in profile line.now) }
{
    if line.len() > most_line(profile) {
        return Err(LineError::Fault(LineFault::TooLong));
    }
    if line.is_empty() || line[0] == b'#' {
        return Ok(None);
    }
    let (first, rest) = cut(line, b' ');
    if first == b"reset".as_slice() {
        let lun = sole_unit_of(rest)?;
        return Ok(Some(ClientRequest::Reset { lun }));
    }
    Ok(Some(command_of(alloc, profile, line)?))
}

/// The command of a line `LUN CDB [DATA]`.
fn command_of(alloc: Global, profile: Profile, line: &[u8]) -> Result<ClientRequest, LineError>
    ensures { Gives request_value result (command_request_in profile (words_in ([] ∷ pieces 32 line.now))) }
{
    // The words of a replay's line, with nothing for its nexus.
    let Some(words) = words_of(b"", Some(line)) else {
        return Err(LineError::Fault(LineFault::WordCount));
    };
    match command_by(alloc, profile, words) {
        Ok(command) => Ok(command),
        Err(error) => Err(fault_of(words, error)),
    }
}

/// The command of words, with their data taken as one word.
fn command_by(alloc: Global, profile: Profile, words: Words) -> Result<ClientRequest, LineError>
    ensures { Gives request_value result (command_request_in profile (Some (words_seen words.entry))) }
{
    let lun = unit_of(words.lun)?;
    let cdb = bytes_of(alloc, words.cdb, MAX_CDB)?;
    let bytes = data_of(alloc, profile, words.data)?;
    Ok(ClientRequest::Command { lun, cdb, bytes })
}
