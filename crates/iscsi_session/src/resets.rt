//! Units that other sessions reset.
ghost use Rattle.std.specs.Prelude.{◌≡◌, ℕ, List, All};
ghost use Rattle.iscsi_session.specs.Saying.{without_units};

use crate::register::SessionRegister;
use iscsi_tasks::Tasks;

/// Lets those commands go unexecuted that wait at a unit which another session has reset, and drops the replies that are held for it: LOGICAL
/// UNIT RESET and TARGET WARM RESET end the tasks of all sessions (RFC 7143, "Task Management Function Request"). The last of them are known,
/// so that ABORT TASK finds them ended.
pub(crate) fn drop_reset<G: SessionRegister>(register: &G, count: u8, tasks: &mut Tasks)
    ensures { (units : List ℕ) × All (G.resets register.now) units × (tasks.new ≡ without_units tasks.old units) }
{
    'units: for unit in 0..count {
        if register.was_reset(unit) {
            tasks.reset_unit(unit);
        }
    }
}
