ghost use Rattle.std.specs.Prelude.{◌≡◌, ◌<◌, ◌+◌};
ghost use Rattle.lun_router.specs.Shares.{nothing};

use kept_unit::{At, Ledgers};
use std::marker::Model;
use std::sync::ledger::Share;

/// One part of each unit's ledger, with the count of the numbers that it was told. Contracts see the counts.
#[derive(Drop)]
pub struct SeatShares<B: Ledgers> {
    pub(crate) zero: Share<At<0, B>>,
    pub(crate) one: Share<At<1, B>>,
    pub(crate) two: Share<At<2, B>>,
    pub(crate) three: Share<At<3, B>>,
    pub(crate) four: Share<At<4, B>>,
}

impl<B: Ledgers> Model for SeatShares<B> {
    ghost use Rattle.std.specs.Prelude.{◌≡◌};
    ghost use Rattle.lun_router.specs.Shares.{Amounts};

    ghost Value = { Amounts };

    ghost view = { λ p. record { zero = p.zero.amount; one = p.one.amount; two = p.two.amount; three = p.three.amount; four = p.four.amount } };

    ghost invariant = { λ p. (p.zero.parts ≡ 1) × (p.one.parts ≡ 1) × (p.two.parts ≡ 1) × (p.three.parts ≡ 1) × (p.four.parts ≡ 1) };
}

/// The shares of all ledgers: before they are cut for seats, and once they are gathered from them.
#[derive(Drop)]
pub struct AllShares<B: Ledgers> {
    pub zero: Share<At<0, B>>,
    pub one: Share<At<1, B>>,
    pub two: Share<At<2, B>>,
    pub three: Share<At<3, B>>,
    pub four: Share<At<4, B>>,
}

impl<B: Ledgers> AllShares<B> {
    /// Those of one seat.
    pub fn of_seat(shares: SeatShares<B>) -> AllShares<B>
        ensures amounts { (result.zero.amount ≡ shares.zero) × (result.one.amount ≡ shares.one) × (result.two.amount ≡ shares.two) × (result.three.amount ≡ shares.three) × (result.four.amount ≡ shares.four) }
        ensures parts { (result.zero.parts ≡ 1) × (result.one.parts ≡ 1) × (result.two.parts ≡ 1) × (result.three.parts ≡ 1) × (result.four.parts ≡ 1) }
    {
        let SeatShares {
            zero,
            one,
            two,
            three,
            four,
        } = shares;
        AllShares {
            zero,
            one,
            two,
            three,
            four,
        }
    }

    /// Adds those of one seat.
    pub fn merge(&mut self, shares: SeatShares<B>)
        ensures amounts { (self.new.zero.amount ≡ self.old.zero.amount + shares.zero) × (self.new.one.amount ≡ self.old.one.amount + shares.one) × (self.new.two.amount ≡ self.old.two.amount + shares.two) × (self.new.three.amount ≡ self.old.three.amount + shares.three) × (self.new.four.amount ≡ self.old.four.amount + shares.four) }
        ensures parts { (self.new.zero.parts ≡ self.old.zero.parts + 1) × (self.new.one.parts ≡ self.old.one.parts + 1) × (self.new.two.parts ≡ self.old.two.parts + 1) × (self.new.three.parts ≡ self.old.three.parts + 1) × (self.new.four.parts ≡ self.old.four.parts + 1) }
    {
        let SeatShares {
            zero,
            one,
            two,
            three,
            four,
        } = shares;
        self.zero.merge(zero);
        self.one.merge(one);
        self.two.merge(two);
        self.three.merge(three);
        self.four.merge(four);
    }

    /// A part of each, which was told nothing.
    pub fn cut(&mut self) -> SeatShares<B>
        requires parts { (0 < self.old.zero.parts) × (0 < self.old.one.parts) × (0 < self.old.two.parts) × (0 < self.old.three.parts) × (0 < self.old.four.parts) }
        requires amounts { (self.old.zero.amount ≡ 0) × (self.old.one.amount ≡ 0) × (self.old.two.amount ≡ 0) × (self.old.three.amount ≡ 0) × (self.old.four.amount ≡ 0) }
        ensures nothing { result ≡ nothing }
        ensures amounts { (self.new.zero.amount ≡ 0) × (self.new.one.amount ≡ 0) × (self.new.two.amount ≡ 0) × (self.new.three.amount ≡ 0) × (self.new.four.amount ≡ 0) }
        ensures parts { (self.new.zero.parts + 1 ≡ self.old.zero.parts) × (self.new.one.parts + 1 ≡ self.old.one.parts) × (self.new.two.parts + 1 ≡ self.old.two.parts) × (self.new.three.parts + 1 ≡ self.old.three.parts) × (self.new.four.parts + 1 ≡ self.old.four.parts) }
    {
        let AllShares {
            zero,
            one,
            two,
            three,
            four,
        } = self;
        SeatShares {
            zero: zero.split_off(1, 0),
            one: one.split_off(1, 0),
            two: two.split_off(1, 0),
            three: three.split_off(1, 0),
            four: four.split_off(1, 0),
        }
    }
}
