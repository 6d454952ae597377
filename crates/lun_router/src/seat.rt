use crate::entry_queue::EntryQueue;
use crate::handing_over::{UnitNumbers, UnitRanges};
use crate::locked::CachePadding;
use crate::seat_shares::SeatShares;
use crate::settling::settle;
use crate::unit_ranges::no_ranges;
use kept_unit::{Ledgers, NumberRange};
use logical_unit::Entry;
use std::alloc::{AllocError, Global};
use std::marker::Model;

/// What one worker holds of a library, session after session: a part of each ledger, and what it was told: the last record number of
/// each unit that it handed over, ranges of such that were settled, and then entries. Each part counts the numbers of its unit that the
/// ranges and the entries have.
/// Seats lie side by side and each is written by a thread of its own, so a cache line of nothing lies on each side.
#[repr(C)]
#[derive(Drop)]
pub struct Seat<B: Ledgers> {
    _before: CachePadding,
    pub(crate) parts: SeatShares<B>,
    pub(crate) entries: EntryQueue,
    pub(crate) ranges: UnitRanges,
    pub(crate) handed_over: UnitNumbers,
    _behind: CachePadding,
}

impl<B: Ledgers> Model for Seat<B> {
    ghost use Rattle.lun_router.specs.Seats.{SeatValue, IsCounted};
    ghost use Rattle.lun_router.specs.Settling.{ranges_of};

    ghost Value = { SeatValue };

    ghost view = { λ s. record { handed_over = s.handed_over; settled = ranges_of s.ranges; entries = s.entries.entries; amounts = s.parts } };

    ghost invariant = { λ s. IsCounted (ranges_of s.ranges) s.entries.entries s.parts };
}

impl<B: Ledgers> Seat<B> {
    ghost use Rattle.std.specs.Prelude.{◌≡◌, [], OnOk, OnErr};
    ghost use Rattle.lun_router.specs.Seats.{IsCounted, IsUntold, SettlesEntries, handed_over_at, settled_at, untold};

    /// A seat that was told nothing.
    pub(crate) fn new(alloc: Global, parts: SeatShares<B>) -> Seat<B>
        requires { IsCounted untold [] parts }
        ensures untold { IsUntold result }
        ensures amounts { result.amounts ≡ parts }
    {
        Seat {
            _before: [0; 8],
            parts,
            entries: EntryQueue::new(alloc),
            ranges: no_ranges(alloc),
            handed_over: UnitNumbers {
                zero: 0,
                one: 0,
                two: 0,
                three: 0,
                four: 0,
            },
            _behind: [0; 8],
        }
    }

    /// An entry for each call that was made with the seat and isn't settled, in order; a BUSY for want of the seat's own room
    /// has none.
    pub fn entries(&self) -> &[Entry]
        ensures { result.now ≡ self.now.entries }
    {
        self.entries.as_slice()
    }

    /// The last record number of a unit that the seat handed over, 0 where none was.
    pub fn handed_over(&self, lun: u8) -> u64
        ensures { result ≡ handed_over_at lun self.now.handed_over }
    {
        match lun {
            0 => self.handed_over.zero,
            1 => self.handed_over.one,
            2 => self.handed_over.two,
            3 => self.handed_over.three,
            4 => self.handed_over.four,
            _ => 0,
        }
    }

    /// The record numbers of a unit that were settled and not handed over, in the order in which the seat was told them. How they are
    /// cut into ranges says nothing.
    pub fn settled(&self, lun: u8) -> &[NumberRange]
        ensures { result.now ≡ settled_at lun self.now.settled }
    {
        match lun {
            0 => self.ranges.zero.as_slice(),
            1 => self.ranges.one.as_slice(),
            2 => self.ranges.two.as_slice(),
            3 => self.ranges.three.as_slice(),
            4 => self.ranges.four.as_slice(),
            _ => &[],
        }
    }

    /// Settles the longest beginning of the entries whose records were handed out: only their numbers are kept, as ranges,
    /// and an entry without a number goes. On an error no number has moved; room that was got stays. Takes time for as many entries
    /// as are settled, on the whole.
    pub(crate) fn settle_entries(&mut self, drained: &[u64; 5]) -> Result<(), AllocError>
        ensures ok { OnOk result (SettlesEntries drained.now self.old self.new) }
        ensures err { OnErr result (self.new ≡ self.old) }
    {
        let Seat {
            entries,
            ranges,
            ..
        } = self;
        settle(entries, ranges, drained)
    }

    /// Its shares, with which the library is closed.
    pub(crate) fn into_shares(self) -> SeatShares<B>
        ensures { result ≡ self.amounts }
    {
        let Seat { parts, .. } = self;
        parts
    }
}
