ghost use Rattle.lun_router.specs.ServedSteps.{CallsAreSteps};
ghost use Rattle.lun_router.specs.SettlingRows.{SettlingRows};

/// Worked rows: which entries of a seat are settled, and the seat before and after.
pub fn settling_rows()
    ensures { SettlingRows }
{}

/// What a call does at the units under the locks that it takes is one step of a target that has these units at their logical unit
/// numbers, whatever its other units are: a run of one event. What `target_laws`, `unit_laws` and `protected_span` say of each command of
/// a run is so said of each call at a library.
pub fn calls_are_steps()
    ensures { CallsAreSteps }
{}
