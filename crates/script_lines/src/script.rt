ghost use Rattle.std.specs.Prelude.{◌≡◌, OnOk, IfErr};
ghost use Rattle.script_lines.specs.Lines.{line_in};
ghost use Rattle.script_lines.specs.Script.{GivesScript, TakesLine, FailsAt, saids, script_in};

use crate::cutting::cut;
use crate::events::Events;
use crate::line::{LineError, take_event};
use script_input::ScriptFault;
use scsi_cdb::Profile;
use std::alloc::Global;

/// The events of a script for a library of a profile, in the order of its lines, or its first line with a fault. A line ends at
/// a line feed, which the last one may lack; empty lines and lines that begin with `#` have no event;
/// each other line is `SAS.PORT LUN CDB [DATA]`, `loss SAS.PORT LUN` or `reset LUN` (profile).
///
/// `Line`: the number of the first line with a fault, all lines counted from 1, and the first of its
/// faults. `NoMemory` may come in place of any answer.
pub fn events_of(alloc: Global, profile: Profile, text: &[u8]) -> Result<Events, ScriptFault>
    ensures { GivesScript result (script_in profile text.now) }
{
    let mut events = Events::new(alloc);
    let mut number = 0u64;
    let mut rest = Some(text);
    'lines: while let Some(bytes) = rest {
        number += 1;
        let (line, after) = cut(bytes, b'\n');
        match take_line(alloc, profile, &mut events, number, line) {
            Ok(()) => rest = after,
            Err(fault) => return Err(fault),
        }
    }
    Ok(events)
}

/// Adds the event of a line, where it has one.
fn take_line(
    alloc: Global,
    profile: Profile,
    events: &mut Events,
    number: u64,
    line: &[u8],
) -> Result<(), ScriptFault>
    ensures ok { OnOk result
        (TakesLine (saids events.old) (saids events.new) (line_in profile line.now)) }
    ensures err { IfErr result (λ fault. FailsAt number fault (line_in profile line.now)) }
{
    match take_event(alloc, profile, events, line) {
        Ok(()) => Ok(()),
        Err(LineError::NoMemory) => Err(ScriptFault::NoMemory),
        Err(LineError::Fault(what)) => Err(ScriptFault::Line { number, what }),
    }
}
