//! Summaries of the units of a library that threads share.

ghost use Rattle.std.specs.Prelude.{◌≡◌, ◌<◌, IfOk};
ghost use Rattle.status_reader.specs.Summaries.{AreShown, IsShownAt, IsSummaryOf};

use crate::copying::summary_of;
use kept_unit::Ledgers;
use library_start::Device;
use library_status::{LibrarySummary, UnitSummary};
use logical_unit::LogicalUnit;
use lun_router::{Gate, Library, UnitObserver};
use std::alloc::{AllocError, Global};
use std::sync::Wait;

/// Who copies a summary of a unit.
#[derive(Drop)]
struct UnitReader {
    alloc: Global,
    /// Of the unit that it was let at.
    read: Result<UnitSummary, AllocError>,
}

impl UnitObserver<Device> for UnitReader {
    ghost sees = { λ before unit after. IfOk after.read (IsSummaryOf unit) };

    fn look(&mut self, unit: &LogicalUnit<Device>) {
        self.read = summary_of(self.alloc, unit);
    }
}

/// A summary of each unit of a library, each copied while the unit's lock is held, once. May wait for calls at units.
pub fn read_library<B: Ledgers, G: Gate, R: Wait>(
    rt: &R,
    alloc: Global,
    library: &Library<B, Device, G>,
) -> Result<LibrarySummary, AllocError>
    ensures profile { IfOk result (λ library. library.profile ≡ B.profile) }
    ensures units { IfOk result (λ summary. AreShown B.profile library.now.units summary.units.items) }
{
    let mut units = Vec::new(alloc);
    'units: for lun in 0..library.units() {
        let unit = read_unit(rt, alloc, library, lun)?;
        units.push(unit)?;
    }
    Ok(LibrarySummary {
        profile: library.profile(),
        units,
    })
}

/// A summary of a unit.
fn read_unit<B: Ledgers, G: Gate, R: Wait>(
    rt: &R,
    alloc: Global,
    library: &Library<B, Device, G>,
    lun: u8,
) -> Result<UnitSummary, AllocError>
    requires { lun < library.now.units }
    ensures { IfOk result (IsShownAt B.profile lun) }
{
    let mut reader = UnitReader {
        alloc,
        read: Err(AllocError),
    };
    library.look(rt, lun, &mut reader);
    reader.read
}
