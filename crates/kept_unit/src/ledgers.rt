ghost use Rattle.std.specs.Prelude.{ℕ};
ghost use Rattle.scsi_cdb.specs.declared.profile.Profile.{Profile};
ghost use Rattle.scsi_cdb.specs.declared.profile.Profile.TheVariants.{Spec};

use std::marker::{Brand, PhantomData};
use std::sync::ledger::Ledger;

/// The ledger of one unit since it was kept.
pub trait UnitLedger: Ledger {
    /// The last record number that the unit had used then.
    ghost since: { ℕ };

    /// The profile that the unit is of.
    ghost profile: { Profile };
}

impl UnitLedger for Brand {
    ghost since = { 0 };

    ghost profile = { Spec };
}

/// The ledgers of a library's units. A function that is generic over them is called with `Brand`, for which its caller picks
/// them.
pub trait Ledgers {
    /// The name of a unit's ledger, by its logical unit number.
    ghost names: { ℕ → ℕ };

    /// Into how many parts each is cut.
    ghost all_parts: { ℕ };

    /// The last record number that a unit had used, by its logical unit number.
    ghost since_of: { ℕ → ℕ };

    /// The profile that all units are of.
    ghost profile: { Profile };
}

impl Ledgers for Brand {
    ghost names = { λ _. 0 };

    ghost all_parts = { 0 };

    ghost since_of = { λ _. 0 };

    ghost profile = { Spec };
}

/// The ledger of the unit of a logical unit number.
pub struct At<const LUN: u8, B: Ledgers> {
    of: PhantomData<B>,
}

impl<const LUN: u8, B: Ledgers> Ledger for At<LUN, B> {
    ghost name = { B.names LUN };

    ghost parts = { B.all_parts };
}

impl<const LUN: u8, B: Ledgers> UnitLedger for At<LUN, B> {
    ghost since = { B.since_of LUN };

    ghost profile = { B.profile };
}
