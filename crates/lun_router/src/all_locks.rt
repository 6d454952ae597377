use crate::gate::Gate;
use crate::locked::Locked;
use device_server::DeviceServer;
use kept_unit::{At, Ledgers};
use std::marker::Model;

/// The units of a library, each under a lock of its own: a changer as logical unit 0 and one to four drives. Contracts see
/// how many units there are.
#[derive(Drop)]
pub struct UnitLocks<B: Ledgers, D: DeviceServer, G: Gate> {
    pub(crate) count: u8,
    pub(crate) changer: Locked<0, At<0, B>, D>,
    pub(crate) first: Locked<1, At<1, B>, D>,
    pub(crate) second: Option<Locked<2, At<2, B>, D>>,
    pub(crate) third: Option<Locked<3, At<3, B>, D>>,
    pub(crate) fourth: Option<Locked<4, At<4, B>, D>>,
    pub(crate) gate: G,
}

impl<B: Ledgers, D: DeviceServer, G: Gate> Model for UnitLocks<B, D, G> {
    ghost use Rattle.lun_router.specs.Units.{LocksValue, HasUnits};

    ghost Value = { LocksValue };

    ghost view = { λ l. record { units = l.count } };

    ghost invariant = { λ l. HasUnits l.count l.second l.third l.fourth };
}

impl<B: Ledgers, D: DeviceServer, G: Gate> UnitLocks<B, D, G> {
    ghost use Rattle.std.specs.Prelude.{◌≡◌};

    /// How many units there are.
    pub fn units(&self) -> u8
        ensures { result ≡ self.now.units }
    {
        self.count
    }
}
