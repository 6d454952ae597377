/// A unit attention condition, by its additional sense code and qualifier (SPC-4, "Unit attention
/// condition").
#[derive(Clone, Copy, Default)]
pub enum Kind {
    /// 29h/00h POWER ON, RESET, OR BUS DEVICE RESET OCCURRED: the first contact of a nexus.
    #[default]
    PowerOn,
    /// 29h/03h BUS DEVICE RESET FUNCTION OCCURRED.
    BusDeviceReset,
    /// 29h/07h I_T NEXUS LOSS OCCURRED.
    NexusLoss,
    /// 28h/00h NOT READY TO READY CHANGE, MEDIUM MAY HAVE CHANGED.
    MediumChanged,
    /// 2Ah/01h MODE PARAMETERS CHANGED.
    ModeParametersChanged,
    /// 2Ah/02h LOG PARAMETERS CHANGED.
    LogParametersChanged,
    /// 2Ah/03h RESERVATIONS PREEMPTED.
    ReservationsPreempted,
    /// 2Ah/04h RESERVATIONS RELEASED.
    ReservationsReleased,
    /// 2Ah/05h REGISTRATIONS PREEMPTED.
    RegistrationsPreempted,
}

impl Kind {
    ghost use Rattle.std.specs.Prelude.{◌≡◌};
    ghost use Rattle.unit_attention.specs.Pending.{is_reset};

    /// Whether the ADDITIONAL SENSE CODE is 29h: a power on, a reset or a nexus loss.
    pub fn is_reset(self) -> bool
        ensures { result ≡ is_reset self }
    {
        match self {
            Kind::PowerOn | Kind::BusDeviceReset | Kind::NexusLoss => true,
            Kind::MediumChanged
            | Kind::ModeParametersChanged
            | Kind::LogParametersChanged
            | Kind::ReservationsPreempted
            | Kind::ReservationsReleased
            | Kind::RegistrationsPreempted => false,
        }
    }
}
