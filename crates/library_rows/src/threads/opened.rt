//! An open library as scenes see it: by what comes back alone. The contracts of its calls, which no row needs, stay behind the trait.

use super::gates::TestGate;
use kept_unit::{Ledgers, NumberRange};
use library_service::{ClosingFault, close_and_write};
use library_start::Device;
use logical_unit::{Done, EventKind};
use lun_router::{CloseFault, Histories, Library, Seat};
use output_lines::{Audit, UnwrittenListener};
use scsi_nexus::Nexus;
use std::alloc::{AllocError, Global};
use std::sync::Wait;

/// What a library ends as: its histories, or itself and its seats again.
pub(super) type Closed<T, S> = Result<Histories<Device>, (CloseFault, T, Vec<S>)>;

/// A library that was opened, with its seats.
pub(super) trait Opened: Sized + Drop {
    type Seat: Drop;

    fn units(&self) -> u8;

    fn ask<R: Wait>(
        &self,
        rt: &R,
        alloc: Global,
        seat: &mut Self::Seat,
        nexus: Nexus,
        lun: u8,
        event: EventKind<'static>,
    ) -> Done<'static>;

    /// How many records a unit hands out, if it is there.
    fn drained<R: Wait>(&self, rt: &R, alloc: Global, lun: u8) -> Option<usize>;

    fn close(self, alloc: Global, seats: Vec<Self::Seat>) -> Closed<Self, Self::Seat>;

    /// Closes it by none of its seats, and writes the lines of its records or tells which have none.
    fn close_by_no_seat<R: Wait, H: UnwrittenListener>(
        self,
        rt: &R,
        alloc: Global,
        lines: &mut Vec<u8>,
        listener: &H,
    ) -> Result<(), ClosingFault>;

    /// How many entries a seat has.
    fn entries(seat: &Self::Seat) -> usize;

    /// The last number of a unit that a seat handed over.
    fn handed_over(seat: &Self::Seat, lun: u8) -> u64;

    fn settled(seat: &Self::Seat, lun: u8) -> &[NumberRange];

    fn settle<R: Wait>(
        &self,
        rt: &R,
        seat: &mut Self::Seat,
        drained: &[u64; 5],
    ) -> Result<(), AllocError>;
}

impl<'a, B: Ledgers> Opened for Library<B, Device, TestGate<'a>> {
    type Seat = Seat<B>;

    fn units(&self) -> u8 {
        Library::units(self)
    }

    fn ask<R: Wait>(
        &self,
        rt: &R,
        alloc: Global,
        seat: &mut Seat<B>,
        nexus: Nexus,
        lun: u8,
        event: EventKind<'static>,
    ) -> Done<'static> {
        match event {
            EventKind::Loss => self.lose(rt, alloc, seat, nexus, lun),
            EventKind::Reset => self.reset(rt, alloc, seat, lun),
            EventKind::Command { cdb, bytes } => self.submit(
                rt, alloc, seat, nexus, lun, cdb, bytes,
            ),
        }
    }

    fn drained<R: Wait>(&self, rt: &R, alloc: Global, lun: u8) -> Option<usize> {
        match self.drain(rt, alloc, lun) {
            Some(records) => Some(records.len()),
            None => None,
        }
    }

    fn close(
        self,
        alloc: Global,
        seats: Vec<Seat<B>>,
    ) -> Closed<Library<B, Device, TestGate<'a>>, Seat<B>> {
        Library::close(self, alloc, seats)
    }

    fn close_by_no_seat<R: Wait, H: UnwrittenListener>(
        self,
        rt: &R,
        alloc: Global,
        lines: &mut Vec<u8>,
        listener: &H,
    ) -> Result<(), ClosingFault> {
        let seats = Vec::new(alloc);
        close_and_write(rt, alloc, self, seats, Audit::Lines, lines, listener)
    }

    fn entries(seat: &Seat<B>) -> usize {
        seat.entries().len()
    }

    fn handed_over(seat: &Seat<B>, lun: u8) -> u64 {
        seat.handed_over(lun)
    }

    fn settled(seat: &Seat<B>, lun: u8) -> &[NumberRange] {
        seat.settled(lun)
    }

    fn settle<R: Wait>(
        &self,
        rt: &R,
        seat: &mut Seat<B>,
        drained: &[u64; 5],
    ) -> Result<(), AllocError> {
        Library::settle(self, rt, seat, drained)
    }
}
