//! Which reservation there was before a record that its unit no longer has.
ghost use Rattle.std.specs.Prelude.{◌≡◌};
ghost use Rattle.record_lines.specs.Standing.{applied_by, state_after};
ghost use Rattle.pr_core.specs.Judge.{verdict};

use audit_log::{Act, Record};
use permit_tables::OutParams;
use pr_core::{PrState, Verdict};
use scsi_nexus::Nexus;
use scsi_sense::Status;
use unit_attention::Queues;

/// Carries out again what a record says that its unit accepted. No nexus has a slot in these queues, so what an act raises costs nothing.
pub fn follow(reservations: &mut PrState, nobody: &mut Queues, entry: &Record)
    ensures { reservations.new ≡ state_after reservations.old entry.now }
{
    let Some(nexus) = entry.nexus else {
        return;
    };
    match (&entry.act, entry.status) {
        (Act::ReserveOut(params), Status::Good) => {
            carry_out(reservations, nobody, nexus, params.params());
        }
        _ => {}
    }
}

/// Carries out a command, where it is allowed and not refused.
fn carry_out(reservations: &mut PrState, nobody: &mut Queues, nexus: Nexus, params: &OutParams)
    ensures { reservations.new ≡ applied_by reservations.old nexus params.now (verdict reservations.old nexus params.now) }
{
    match reservations.judge(nexus, params) {
        // A refused command changes nothing.
        Verdict::Allowed => {
            let _ = reservations.apply(nexus, params, nobody);
        }
        Verdict::Denied(_) | Verdict::Rule(_) => {}
    }
}
