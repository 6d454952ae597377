ghost use Rattle.std.specs.Prelude.{◌≡◌, T, map};
ghost use Rattle.std.specs.List.{list_any};
ghost use Rattle.std.specs.FinMap.{is_sorted};
ghost use Rattle.scsi_nexus.specs.Order.{nexus_cmp, same_nexus};
ghost use Rattle.unit_attention.specs.Queues.{is_excepted, for_others, all_raised};

use crate::kind::Kind;
use crate::pending::Pending;
use scsi_nexus::{Nexus, order_of};
use std::cmp::Ordering;

/// Raises a condition in the slots of the nexuses of the entries, all but a sender and some that are named. Slots and entries
/// ascend by nexus, so one walk over both finds them all.
pub(crate) fn raise_in<V>(
    slots: &mut [(Nexus, Pending)],
    entries: &[(Nexus, V)],
    sender: Nexus,
    named: &[Nexus],
    kind: Kind,
)
    requires slots { T (is_sorted nexus_cmp slots.old) }
    requires entries { T (is_sorted nexus_cmp entries.now) }
    ensures { slots.new ≡ all_raised slots.old (for_others sender named.now kind (map (λ e. e.0) entries.now)) }
{
    let mut place = 0;
    let mut at = 0;
    'walk: while at < entries.len() && place < slots.len() {
        let nexus = entries[at].0;
        match order_of(slots[place].0, nexus) {
            Ordering::Less => place += 1,
            Ordering::Equal => {
                if !is_excepted(nexus, sender, named) {
                    slots[place].1.raise(kind);
                }
                place += 1;
                at += 1;
            }
            Ordering::Greater => at += 1,
        }
    }
}

/// Whether a nexus is the sender, or one of those that are named.
fn is_excepted(nexus: Nexus, sender: Nexus, named: &[Nexus]) -> bool
    ensures { result ≡ is_excepted sender named.now nexus }
{
    nexus == sender || is_named(nexus, named)
}

/// Whether a nexus is one of these.
fn is_named(nexus: Nexus, named: &[Nexus]) -> bool
    ensures { result ≡ list_any (same_nexus nexus) named.now }
{
    named.iter().any(|other| nexus == *other)
}
