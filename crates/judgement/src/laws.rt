//! Worked rows that the definitions compute to. Each function has an empty body: its clause is the row.

ghost use Rattle.judgement.specs.Rows.{AbsentUnit, DataOfUnits, InquiryByIdentity};

/// What a unit that doesn't exist answers to INQUIRY, REQUEST SENSE and all else.
pub fn absent_unit()
    ensures { AbsentUnit }
{}

/// INQUIRY data and REPORT LUNS data, by their bytes.
pub fn data_of_units()
    ensures { DataOfUnits }
{}

/// INQUIRY data of the hosts' profile by their bytes, and of a unit without an identity as ever.
pub fn inquiry_by_identity()
    ensures { InquiryByIdentity }
{}
