ghost use Rattle.kept_unit.specs.RangeRows.{RangeRows};

/// Worked rows: the numbers of ranges, and what the tests of them say.
pub fn range_rows()
    ensures { RangeRows }
{}

ghost use Rattle.kept_unit.specs.AgreementRows.{AgreementRows};

/// Worked rows: what seats have noted that agrees with a trail, and what doesn't.
pub fn agreement_rows()
    ensures { AgreementRows }
{}
