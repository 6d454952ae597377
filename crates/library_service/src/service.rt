use kept_unit::Ledgers;
use library_start::Device;
use logical_unit::Done;
use lun_router::{Library, Pass, Seat};
use scsi_nexus::Nexus;
use session::{Directory, SeatService, Service, SessionFault};
use std::alloc::{AllocError, Global};
use std::marker::Model;
use std::sync::{Mutex, Wait};

/// A seat at a library, and the directory of its sessions beside it. Contracts see what the seat holds, and how many
/// units the library has.
#[derive(Drop)]
pub struct LibraryService<'a, B: Ledgers, R: Wait> {
    rt: &'a R,
    library: &'a Library<B, Device, Pass>,
    directory: &'a Mutex<Directory>,
    seat: Seat<B>,
}

impl<'a, B: Ledgers, R: Wait> Model for LibraryService<'a, B, R> {
    ghost use Rattle.library_service.specs.LibraryService.{LibraryServiceValue};

    ghost Value = { LibraryServiceValue };

    ghost view = { λ p. record { seat = p.seat; units = p.library.now.units } };
}

impl<'a, B: Ledgers, R: Wait> LibraryService<'a, B, R> {
    ghost use Rattle.std.specs.Prelude.{◌≡◌, OnOk, OnErr};
    ghost use Rattle.library_service.specs.LibraryService.{SettlesService};

    /// A service of one session after another.
    pub fn new(
        rt: &'a R,
        library: &'a Library<B, Device, Pass>,
        directory: &'a Mutex<Directory>,
        seat: Seat<B>,
    ) -> LibraryService<'a, B, R>
        ensures { result ≡ record { seat = seat; units = library.now.units } }
    {
        LibraryService {
            rt,
            library,
            directory,
            seat,
        }
    }

    /// Settles what the seat has noted of records that were handed out, up to these numbers by LUN, 0 where none was. On an
    /// error nothing has changed, and it may be tried again.
    pub fn settle_seat(&mut self, drained: &[u64; 5]) -> Result<(), AllocError>
        ensures ok { OnOk result (SettlesService drained.now self.old self.new) }
        ensures err { OnErr result (self.new ≡ self.old) }
    {
        self.library.settle(self.rt, &mut self.seat, drained)
    }

    /// The seat, with which the library is closed.
    pub fn into_seat(self) -> Seat<B>
        ensures { result ≡ self.entry.seat }
    {
        let LibraryService {
            rt: _,
            library: _,
            directory: _,
            seat,
        } = self;
        seat
    }
}

impl<'a, B: Ledgers, R: Wait> Service for LibraryService<'a, B, R> {
    ghost use Rattle.library_service.specs.LibraryService.{DoesToService};

    ghost notes = { DoesToService };

    ghost count = { λ p. p.units };

    fn submit<'b>(
        &mut self,
        alloc: Global,
        nexus: Nexus,
        lun: u8,
        cdb: &'b [u8],
        bytes: &'b [u8],
    ) -> Done<'b> {
        self.library
            .submit(self.rt, alloc, &mut self.seat, nexus, lun, cdb, bytes)
    }

    fn reset(&mut self, alloc: Global, lun: u8) -> Done<'static> {
        self.library.reset(self.rt, alloc, &mut self.seat, lun)
    }

    fn lose(&mut self, alloc: Global, nexus: Nexus, lun: u8) -> Done<'static> {
        self.library
            .lose(self.rt, alloc, &mut self.seat, nexus, lun)
    }

    fn units(&self) -> u8 {
        self.library.units()
    }

    fn login(&mut self, nexus: Nexus) -> Result<usize, SessionFault> {
        self.directory.lock(self.rt).login(nexus)
    }

    fn logout(&mut self, key: usize) {
        self.directory.lock(self.rt).logout(key)
    }
}

impl<'a, B: Ledgers, R: Wait> SeatService for LibraryService<'a, B, R> {
    ghost use Rattle.library_service.specs.LibraryService.{SettlesService};

    ghost settles = { SettlesService };

    fn has_room(&self, nexus: Nexus, lun: u8) -> bool {
        self.library.has_room(self.rt, nexus, lun)
    }

    fn noted(&self) -> usize {
        self.seat.entries().len()
    }

    fn settle(&mut self, drained: &[u64; 5]) -> Result<(), AllocError> {
        self.settle_seat(drained)
    }
}
