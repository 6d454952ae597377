ghost use Rattle.std.specs.Prelude.{◌≡◌, true, [], ◌∷◌, ◌++◌};
ghost use Rattle.pr_core.specs.Targets.{at_all_ports, targets, is_among};

use arrayvec::ArrayVec;
use permit_tables::{OutParams, TARGETS};
use scsi_nexus::{Nexus, TARGET_PORTS};

/// Room for the sender, and for its SAS address and each listed one at every port.
pub const TARGET_ROOM: usize = 1 + TARGET_PORTS as usize * (1 + TARGETS);

/// Whether a nexus is one of these.
pub(crate) fn is_among(nexus: Nexus, targets: &[Nexus]) -> bool
    ensures { result ≡ is_among nexus targets.now }
{
    targets.iter().any(|target| nexus == *target)
}

/// Whether a REGISTER names no nexus but its sender.
pub(crate) fn names_its_sender_alone(params: &OutParams) -> bool
    ensures { result ≡ true → (sender : Nexus) → targets sender params.now ≡ sender ∷ [] }
{
    params.defect.is_some() || (!params.all_ports && params.targets.is_empty())
}

/// Lists the nexuses that a REGISTER names. The list is large, so it is made where it lies.
pub fn list_targets(list: &mut ArrayVec<Nexus, TARGET_ROOM>, sender: Nexus, params: &OutParams)
    requires { list.old.items ≡ [] }
    ensures { list.new.items ≡ targets sender params.now }
{
    list.push(sender);
    if params.defect.is_some() {
        return;
    }
    if params.all_ports {
        push_all_ports(list, sender.sas);
    }
    for sas in params.targets.as_slice() {
        if params.all_ports {
            push_all_ports(list, *sas);
        } else {
            list.push(Nexus {
                sas: *sas,
                port: sender.port,
            });
        }
    }
}

ghost use Rattle.std.specs.Prelude.{◌≤◌, ◌+◌, length};
ghost use Rattle.pr_core.specs.declared.targets.TheConstants.{TARGET_ROOM};

/// Adds a SAS address at every port.
fn push_all_ports(list: &mut ArrayVec<Nexus, TARGET_ROOM>, sas: u64)
    requires { length list.old.items + 4 ≤ TARGET_ROOM }
    ensures { list.new.items ≡ list.old.items ++ at_all_ports sas }
{
    list.push(Nexus { sas, port: 1 });
    list.push(Nexus { sas, port: 2 });
    list.push(Nexus { sas, port: 3 });
    list.push(Nexus { sas, port: 4 });
}
