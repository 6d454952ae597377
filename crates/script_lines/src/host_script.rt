ghost use Rattle.std.specs.Prelude.{◌≡◌, All, OnOk, IfOk, IfErr};
ghost use Rattle.script_lines.specs.Requests.{IsWithinLimits, request_line_in};
ghost use Rattle.script_lines.specs.Script.{GivesRequests, TakesLine, FailsAt, request_values, requests_in};

use crate::client_request::ClientRequest;
use crate::cutting::cut;
use crate::line::LineError;
use crate::request_line::request_of;
use script_input::ScriptFault;
use scsi_cdb::Profile;
use std::alloc::Global;

/// The requests of a host's script for a library of a profile, in the order of its lines, or its first line with a fault. Its lines are
/// those of [`events_of`]'s scripts without the nexus, which is the host's: `LUN CDB [DATA]` and `reset LUN` (profile).
///
/// `Line`: the number of the first line with a fault, all lines counted from 1, and the first of its faults. `NoMemory` may come in place
/// of any answer.
pub fn requests_of(
    alloc: Global,
    profile: Profile,
    text: &[u8],
) -> Result<Vec<ClientRequest>, ScriptFault>
    ensures requests { GivesRequests result (requests_in profile text.now) }
    ensures within { IfOk result (λ requests. All (IsWithinLimits profile) (request_values requests.items)) }
{
    let mut requests = Vec::new(alloc);
    let mut number = 0u64;
    let mut rest = Some(text);
    'lines: while let Some(bytes) = rest {
        number += 1;
        let (line, after) = cut(bytes, b'\n');
        match take_request(alloc, profile, &mut requests, number, line) {
            Ok(()) => rest = after,
            Err(fault) => return Err(fault),
        }
    }
    Ok(requests)
}

/// Adds the request of a line, where it has one.
fn take_request(
    alloc: Global,
    profile: Profile,
    requests: &mut Vec<ClientRequest>,
    number: u64,
    line: &[u8],
) -> Result<(), ScriptFault>
    ensures ok { OnOk result
        (TakesLine (request_values requests.old.items) (request_values requests.new.items) (request_line_in profile line.now)) }
    ensures err { IfErr result (λ fault. FailsAt number fault (request_line_in profile line.now)) }
{
    match request_of(alloc, profile, line) {
        Ok(None) => Ok(()),
        Ok(Some(request)) => match requests.push(request) {
            Ok(()) => Ok(()),
            Err(_) => Err(ScriptFault::NoMemory),
        },
        Err(LineError::NoMemory) => Err(ScriptFault::NoMemory),
        Err(LineError::Fault(what)) => Err(ScriptFault::Line { number, what }),
    }
}
