use crate::all_locks::UnitLocks;
use crate::gate::Gate;
use device_server::DeviceServer;
use kept_unit::Ledgers;
use scsi_cdb::Profile;
use std::marker::Model;

/// The units of a library, each under a lock of its own: a changer as logical unit 0 and one to four drives. Contracts see
/// how many seats were made, and how many units there are.
///
/// ```text
/// let (library, mut seats) = Library::new(alloc, core, 8, blanks, Pass)?;
/// // A thread each, with a seat of its own:
/// let done = library.submit(rt, alloc, &mut seats[0], nexus, 1, cdb, bytes);
/// let reply = &done.receipt().reply;
/// // Once they have ended:
/// let histories = library.close(alloc, seats)?;
/// ```
#[derive(Drop)]
pub struct Library<B: Ledgers, D: DeviceServer, G: Gate> {
    pub(crate) seats: usize,
    pub(crate) profile: Profile,
    pub(crate) locks: UnitLocks<B, D, G>,
}

impl<B: Ledgers, D: DeviceServer, G: Gate> Model for Library<B, D, G> {
    ghost use Rattle.std.specs.Prelude.{◌≡◌, ◌<◌, ◌+◌};
    ghost use Rattle.lun_router.specs.Opening.{LibraryValue};

    ghost Value = { LibraryValue };

    ghost view = { λ l. record { seats = l.seats; units = l.locks.units } };

    ghost invariant = { λ l. (0 < l.seats) × (B.all_parts ≡ l.seats + 1) × (l.profile ≡ B.profile) };
}

impl<B: Ledgers, D: DeviceServer, G: Gate> Library<B, D, G> {
    ghost use Rattle.std.specs.Prelude.{◌≡◌};

    /// How many units there are.
    pub fn units(&self) -> u8
        ensures { result ≡ self.now.units }
    {
        self.locks.units()
    }

    /// The profile that all units are of.
    pub fn profile(&self) -> Profile
        ensures { result ≡ B.profile }
    {
        self.profile
    }
}
