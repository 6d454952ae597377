ghost use Rattle.std.specs.Prelude.{◌≡◌, ◌≢◌, ◌≤◌, ◌<◌, ◌+◌, ◌||◌, ◌↔◌, ℕ, [], OnOk, OnErr, IfErr};
ghost use Rattle.settled_numbers.specs.Numbers.{has, is_in, size, count, Meets};

use crate::number_range::NumberRange;
use crate::placing::{fill, fit};
use std::alloc::Global;
use std::marker::Model;
use std::sync::ledger::{Book, Ledger, Share};
use thiserror::Error;

/// Why numbers aren't taken over. Nothing has changed then.
#[derive(Clone, Copy, Debug, PartialEq, Eq, Error)]
pub enum SettleFault {
    /// One of them is here already.
    #[error("a record number is settled already")]
    Taken,
    /// The record of one of them wasn't handed out, or was made before the unit was kept.
    #[error("the record of a number was not handed out")]
    NotHandedOut,
    /// Memory was refused.
    #[error("out of memory")]
    NoMemory,
}

/// The settled numbers of one unit, as ranges that ascend with a gap between any two, beside a part of the unit's ledger, whose
/// amount is how many there are. Contracts see the ranges.
#[derive(Drop)]
pub struct SettledNumbers<L: Ledger> {
    ranges: Vec<NumberRange>,
    share: Share<L>,
}

impl<L: Ledger> Model for SettledNumbers<L> {
    ghost use Rattle.std.specs.Prelude.{List};
    ghost use Rattle.settled_numbers.specs.declared.number_range.NumberRange.{NumberRange};
    ghost use Rattle.settled_numbers.specs.Settled.{IsSettled};

    ghost Value = { List NumberRange };

    ghost view = { λ a. a.ranges.items };

    ghost invariant = { λ a. IsSettled a.ranges.items a.share.amount a.share.parts };
}

impl<L: Ledger> SettledNumbers<L> {
    /// No numbers.
    pub fn new(alloc: Global, share: Share<L>) -> SettledNumbers<L>
        requires { (share.parts ≡ 1) × (share.amount ≡ 0) }
        ensures { result ≡ [] }
    {
        SettledNumbers {
            ranges: Vec::new(alloc),
            share,
        }
    }

    /// The ranges, in order.
    pub fn ranges(&self) -> &[NumberRange]
        ensures { result.now ≡ self.now }
    {
        self.ranges.as_slice()
    }

    /// Takes a range of numbers over, with as much of the ledger. A range that touches another becomes one with it, so that
    /// numbers without a gap take the memory of one range. It is refused exactly if one of them is here already, or for want of
    /// memory; then nothing changes.
    pub fn take_over(&mut self, range: NumberRange, part: &mut Share<L>) -> Result<(), SettleFault>
        requires part { 0 < part.old.parts }
        requires counted { size range ≤ part.old.amount }
        ensures numbers { OnOk result ((n : ℕ) → has self.new n ≡ (has self.old n || is_in n range)) }
        ensures count { OnOk result (count self.new ≡ count self.old + size range) }
        ensures given { OnOk result (part.new.amount + size range ≡ part.old.amount) }
        ensures taken { IfErr result (λ e. (e ≡ SettleFault.Taken) ↔ Meets self.old range) }
        ensures handed_out { IfErr result (λ e. e ≢ SettleFault.NotHandedOut) }
        ensures apart { OnOk result (Meets self.old range → ⊥) }
        ensures same { OnErr result (self.new ≡ self.old) }
        ensures kept { OnErr result (part.new.amount ≡ part.old.amount) }
        ensures parts { part.new.parts ≡ part.old.parts }
    {
        let SettledNumbers { ranges, share } = self;
        let Some(gap) = fit(ranges, range) else {
            return Err(SettleFault::Taken);
        };
        if fill(ranges, gap).is_err() {
            return Err(SettleFault::NoMemory);
        }
        part.transfer(share, range.last - range.first);
        part.transfer(share, 1);
        Ok(())
    }

    /// Ends, once all other parts of the ledger are here: with what those hold, the numbers are all that the book has counted.
    pub fn close(self, book: &mut Book<L>, rest: Share<L>)
        requires { rest.parts + 1 ≡ L.parts }
        ensures total { book.old.total ≡ count self + rest.amount }
        ensures book { book.new.total ≡ book.old.total }
    {
        let SettledNumbers {
            ranges: _,
            mut share,
        } = self;
        share.merge(rest);
        book.audit(&mut share);
    }
}
