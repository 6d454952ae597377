ghost use Rattle.std.specs.Prelude.{◌≡◌, ◌++◌, [], IfOk, OnOk};
ghost use Rattle.kept_unit.specs.Listing.{listed_at};
ghost use Rattle.kept_unit.specs.Ranges.{numbers_in_ranges};
ghost use Rattle.lun_router.specs.Settling.{ranges_of, HasRoom};
ghost use Rattle.lun_router.specs.Seats.{untold};

use crate::handing_over::UnitRanges;
use kept_unit::{add_ranges, listed_ranges, make_room};
use logical_unit::Entry;
use std::alloc::{AllocError, Global};

/// No range of any unit.
pub(crate) fn no_ranges(alloc: Global) -> UnitRanges
    ensures { ranges_of result ≡ untold }
{
    UnitRanges {
        zero: Vec::new(alloc),
        one: Vec::new(alloc),
        two: Vec::new(alloc),
        three: Vec::new(alloc),
        four: Vec::new(alloc),
    }
}

/// The numbers of each unit that entries have.
pub(crate) fn ranges_in(alloc: Global, entries: &[Entry]) -> Result<UnitRanges, AllocError>
    ensures zero { IfOk result (λ r. numbers_in_ranges r.zero.items ≡ listed_at 0 entries.now) }
    ensures one { IfOk result (λ r. numbers_in_ranges r.one.items ≡ listed_at 1 entries.now) }
    ensures two { IfOk result (λ r. numbers_in_ranges r.two.items ≡ listed_at 2 entries.now) }
    ensures three { IfOk result (λ r. numbers_in_ranges r.three.items ≡ listed_at 3 entries.now) }
    ensures four { IfOk result (λ r. numbers_in_ranges r.four.items ≡ listed_at 4 entries.now) }
{
    let zero = listed_ranges(alloc, 0, entries)?;
    let one = listed_ranges(alloc, 1, entries)?;
    let two = listed_ranges(alloc, 2, entries)?;
    let three = listed_ranges(alloc, 3, entries)?;
    let four = listed_ranges(alloc, 4, entries)?;
    Ok(UnitRanges {
        zero,
        one,
        two,
        three,
        four,
    })
}

/// Makes room for further ranges of each unit. Those that are there stay as they are.
pub(crate) fn make_room_for(ranges: &mut UnitRanges, more: &UnitRanges) -> Result<(), AllocError>
    ensures same { ranges_of ranges.new ≡ ranges_of ranges.old }
    ensures room { OnOk result (HasRoom ranges.new more.now) }
{
    make_room(&mut ranges.zero, more.zero.len())?;
    make_room(&mut ranges.one, more.one.len())?;
    make_room(&mut ranges.two, more.two.len())?;
    make_room(&mut ranges.three, more.three.len())?;
    make_room(&mut ranges.four, more.four.len())?;
    Ok(())
}

/// Adds ranges of each unit behind those that are there. Takes no memory.
pub(crate) fn add_all(ranges: &mut UnitRanges, more: &UnitRanges)
    requires { HasRoom ranges.old more.now }
    ensures zero { numbers_in_ranges ranges.new.zero.items ≡ numbers_in_ranges ranges.old.zero.items ++ numbers_in_ranges more.now.zero.items }
    ensures one { numbers_in_ranges ranges.new.one.items ≡ numbers_in_ranges ranges.old.one.items ++ numbers_in_ranges more.now.one.items }
    ensures two { numbers_in_ranges ranges.new.two.items ≡ numbers_in_ranges ranges.old.two.items ++ numbers_in_ranges more.now.two.items }
    ensures three { numbers_in_ranges ranges.new.three.items ≡ numbers_in_ranges ranges.old.three.items ++ numbers_in_ranges more.now.three.items }
    ensures four { numbers_in_ranges ranges.new.four.items ≡ numbers_in_ranges ranges.old.four.items ++ numbers_in_ranges more.now.four.items }
{
    add_ranges(&mut ranges.zero, &more.zero);
    add_ranges(&mut ranges.one, &more.one);
    add_ranges(&mut ranges.two, &more.two);
    add_ranges(&mut ranges.three, &more.three);
    add_ranges(&mut ranges.four, &more.four);
}
