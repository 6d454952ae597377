ghost use Rattle.std.specs.Prelude.{◌≡◌, ◌⊎◌, Some, None, IfErr};
ghost use Rattle.session.specs.declared.fault.SessionFault.TheVariants.{AlreadyConnected, NoMemory};
ghost use Rattle.logical_unit.specs.Answers as event;
ghost use Rattle.logical_unit.specs.Answers.{IsAnswer};

use crate::fault::SessionFault;
use logical_unit::Done;
use scsi_nexus::Nexus;
use std::alloc::{AllocError, Global};

/// Where a session stands: a seat in a library, and a directory of the nexuses that have a session.
pub trait Service {
    ghost use Rattle.std.specs.Prelude.{ℕ};
    ghost use Rattle.logical_unit.specs.Answers.{DoneValue};

    /// What a call with this answer does to the service.
    ghost notes: { Self → DoneValue → Self → Type 0 };

    /// How many logical units there are.
    ghost count: { Self → ℕ };

    /// A command to a logical unit, by its CDB and the data sent with it.
    fn submit<'a>(
        &mut self,
        alloc: Global,
        nexus: Nexus,
        lun: u8,
        cdb: &'a [u8],
        bytes: &'a [u8],
    ) -> Done<'a>
        ensures answer { IsAnswer result (Some nexus) lun (event.Command cdb.now bytes.now) }
        ensures notes { notes self.old result self.new };

    /// A reset of a logical unit.
    fn reset(&mut self, alloc: Global, lun: u8) -> Done<'static>
        ensures answer { IsAnswer result None lun event.Reset }
        ensures notes { notes self.old result self.new };

    /// The loss of a nexus at a logical unit.
    fn lose(&mut self, alloc: Global, nexus: Nexus, lun: u8) -> Done<'static>
        ensures answer { IsAnswer result (Some nexus) lun event.Loss }
        ensures notes { notes self.old result self.new };

    /// How many logical units there are.
    fn units(&self) -> u8
        ensures { result ≡ count self.now };

    /// Notes that a nexus has a session, and gives its key. The library isn't concerned. `AlreadyConnected` where it has one already,
    /// `NoMemory` where memory is refused. What the directory has afterwards `Directory::login` says; where sessions share one, others
    /// come and go there at any time.
    fn login(&mut self, nexus: Nexus) -> Result<usize, SessionFault>
        ensures library { self.new ≡ self.old }
        ensures faults { IfErr result (λ fault. (fault ≡ AlreadyConnected) ⊎ (fault ≡ NoMemory)) };

    /// Forgets a nexus, by its key.
    fn logout(&mut self, key: usize)
        ensures { self.new ≡ self.old };
}

/// What a worker has of a library, whichever ledgers that has: a seat, with the directory of its sessions beside it.
pub trait SeatService: Service + Drop {
    ghost use Rattle.std.specs.Prelude.{◌≡◌, ℕ, List, OnOk, OnErr};

    /// What settling the seat by these numbers does.
    ghost settles: { List ℕ → Self → Self → Type 0 };

    /// Whether a nexus has a slot at a unit, or finds one.
    fn has_room(&self, nexus: Nexus, lun: u8) -> bool;

    /// How many calls the seat has noted since they were settled.
    fn noted(&self) -> usize;

    /// Settles what the seat has noted of records that were handed out, up to these numbers by LUN, 0 where none was.
    fn settle(&mut self, drained: &[u64; 5]) -> Result<(), AllocError>
        ensures ok { OnOk result (settles drained.now self.old self.new) }
        ensures err { OnErr result (self.new ≡ self.old) };
}
