ghost use Rattle.std.specs.Prelude.{◌≡◌, ◌≤◌, T, IsTrue, length};
ghost use Rattle.std.specs.FinMap.{is_sorted};
ghost use Rattle.scsi_nexus.specs.Order.{nexus_cmp};
ghost use Rattle.scsi_nexus.specs.Place.{IsAbove, IsPlaceOf};

use crate::nexus::Nexus;
use std::cmp::Ordering;

/// Where a nexus stands among entries that ascend by nexus, or where it would stand. The cost grows
/// with the logarithm of their number. (The standard library's search goes on after it has found the nexus.)
pub fn place_of<V>(entries: &[(Nexus, V)], nexus: Nexus) -> Result<usize, usize>
    requires { T (is_sorted nexus_cmp entries.now) }
    ensures { IsPlaceOf nexus entries.now result }
{
    let mut low = 0;
    let mut high = entries.len();
    'halves: while low < high {
        let middle = low + (high - low) / 2;
        match order_of(entries[middle].0, nexus) {
            Ordering::Less => low = middle + 1,
            Ordering::Equal => return Ok(middle),
            Ordering::Greater => high = middle,
        }
    }
    Err(low)
}

/// The order of two nexuses. A command looks up several, and a walk over two lists compares many: tests in turn take fewer
/// instructions there than the derived order, which compares the ports in any case.
pub fn order_of(a: Nexus, b: Nexus) -> Ordering
    ensures { result ≡ nexus_cmp a b }
{
    if a.sas < b.sas {
        Ordering::Less
    } else if a.sas > b.sas {
        Ordering::Greater
    } else if a.port < b.port {
        Ordering::Less
    } else if a.port > b.port {
        Ordering::Greater
    } else {
        Ordering::Equal
    }
}

/// The same, where a place is tried first: if the nexus stands there, or would, the cost doesn't grow with the number of entries.
pub fn place_near<V>(entries: &[(Nexus, V)], guess: usize, nexus: Nexus) -> Result<usize, usize>
    requires { T (is_sorted nexus_cmp entries.now) }
    ensures { IsPlaceOf nexus entries.now result }
{
    if guess < entries.len() {
        match order_of(entries[guess].0, nexus) {
            Ordering::Less => return place_of(entries, nexus),
            Ordering::Equal => return Ok(guess),
            Ordering::Greater => {}
        }
    }
    if is_above(entries, guess, nexus) {
        Err(guess)
    } else {
        place_of(entries, nexus)
    }
}

/// Whether there is such a place, and a nexus is above each entry before it.
fn is_above<V>(entries: &[(Nexus, V)], place: usize, nexus: Nexus) -> bool
    requires { T (is_sorted nexus_cmp entries.now) }
    ensures { IsTrue result → (place ≤ length entries.now) × IsAbove nexus entries.now place }
{
    if place == 0 {
        return true;
    }
    if place > entries.len() {
        return false;
    }
    match order_of(entries[place - 1].0, nexus) {
        Ordering::Less => true,
        Ordering::Equal | Ordering::Greater => false,
    }
}
