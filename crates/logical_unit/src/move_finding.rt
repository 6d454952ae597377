//! What judgement finds of a MOVE MEDIUM or an EXCHANGE MEDIUM at a changer, some of which its drives decide.

ghost use Rattle.std.specs.Prelude.{◌≡◌, true, IfOk, OnErr};
ghost use Rattle.scsi_cdb.specs.declared.kind.Kind.TheVariants.{Changer};
ghost use Rattle.device_server.specs.View.{kind_of};
ghost use Rattle.judgement.specs.Judge.{takes_memory};
ghost use Rattle.judgement.specs.Standing.{met};
ghost use Rattle.judgement.specs.UnitState.{has_room};
ghost use Rattle.logical_unit.specs.MoveFinding.{FindsMove, leaves, spells_move};

use device_server::DeviceServer;
use judgement::{Command, Decision, Reply, Standing, UnitState, judge, stands_before};
use scsi_nexus::Nexus;
use scsi_sense::Condition;
use std::alloc::{AllocError, Global};

/// What judgement finds of a MOVE MEDIUM at a changer.
#[derive(Drop)]
pub(crate) enum MoveFinding {
    /// The answer, with what its record says.
    Ended(Decision, Reply),
    /// The drives decide: what the record will say.
    Left(Decision),
}

/// Whether a changer leaves a command to its drives.
fn leaves<D: DeviceServer>(device: &Box<D>, command: &Command) -> bool
    ensures { result ≡ leaves (D.shown device.now.value) command.now }
{
    match command {
        Command::Device(request) => device.leaves_to_drives(request),
        _ => false,
    }
}

/// A MOVE MEDIUM (SMC-3, "MOVE MEDIUM command") at a changer by the stages in their order, with what its record says. Where nothing stands
/// before one that the changer leaves to its drives, its sender has made contact and the drives decide: the device isn't asked to carry
/// it out. Want of memory changes nothing.
pub(crate) fn judge_move<D: DeviceServer>(
    alloc: Global,
    device: &mut Box<D>,
    state: &mut UnitState,
    nexus: Nexus,
    decoded: &Result<Command, Condition>,
    bytes: &[u8],
) -> Result<MoveFinding, AllocError>
    requires changer { kind_of (D.shown device.old.value) ≡ Changer }
    requires moves { spells_move decoded.now ≡ true }
    requires room { has_room state.old nexus ≡ true }
    ensures ok { IfOk result (FindsMove (D.shown device.old.value) (D.shown device.new.value) state.old state.new nexus decoded.now bytes.now) }
    ensures err { OnErr result ((D.shown device.new.value ≡ D.shown device.old.value) × (state.new ≡ state.old)) }
    ensures want { OnErr result (takes_memory (met (D.shown device.old.value) state.old nexus) nexus decoded.now ≡ true) }
{
    let command = match decoded {
        Ok(command) if leaves(device, command) => command,
        _ => {
            let (decision, reply) = judge(alloc, device, state, nexus, decoded, bytes)?;
            return Ok(MoveFinding::Ended(decision, reply));
        }
    };
    match stands_before(alloc, state, nexus, command) {
        Standing::Ended(decision, reply) => Ok(MoveFinding::Ended(decision, reply)),
        Standing::LetThrough(cell) => {
            state.make_contact(nexus);
            Ok(MoveFinding::Left(Decision::at_device(None).in_cell(cell)))
        }
    }
}
