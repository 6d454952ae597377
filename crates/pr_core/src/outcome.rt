ghost use Rattle.std.specs.Prelude.{◌≡◌, option_map};
ghost use Rattle.std.specs.List.{list_any};
ghost use Rattle.pr_core.specs.Acts.{act_shown};
ghost use Rattle.pr_core.specs.Targets.{targets as targets_of};
ghost use Rattle.pr_core.specs.State.{is_registered};
ghost use Rattle.pr_core.specs.Outcome.{refusal, register_refusal, reserve_refusal, release_refusal, preempt_refusal, move_refusal, is_full, register_act, act_of};

use crate::act::ReservationAct;
use crate::key_table::REGISTRATIONS;
use crate::state::{PrState, type_in};
use permit_tables::{OutParams, PrFault, ResType};
use scsi_cdb::OutServiceAction;
use scsi_nexus::Nexus;

impl PrState {
    /// Why an allowed command is refused, if it is; a defect of its list comes first.
    pub(crate) fn refusal(
        &self,
        nexus: Nexus,
        params: &OutParams,
        targets: &[Nexus],
    ) -> Option<PrFault>
        requires { targets.now ≡ targets_of nexus params.now }
        ensures { result ≡ refusal self.now nexus params.now }
    {
        if params.defect.is_some() {
            return Some(PrFault::InvalidParam);
        }
        match params.act {
            OutServiceAction::Register | OutServiceAction::RegisterAndIgnoreExistingKey => {
                self.register_refusal(nexus, params, targets)
            }
            OutServiceAction::Reserve => self.reserve_refusal(params),
            OutServiceAction::Release => self.release_refusal(nexus, params),
            OutServiceAction::Clear => None,
            OutServiceAction::Preempt | OutServiceAction::PreemptAndAbort => {
                self.preempt_refusal(params)
            }
            OutServiceAction::RegisterAndMove => self.move_refusal(nexus, params),
        }
    }

    /// Whether there is no room for one more registration.
    fn is_full(&self) -> bool
        ensures { result ≡ is_full self.now }
    {
        self.registrations().len() >= REGISTRATIONS
    }

    fn register_refusal(
        &self,
        nexus: Nexus,
        params: &OutParams,
        targets: &[Nexus],
    ) -> Option<PrFault>
        requires { targets.now ≡ targets_of nexus params.now }
        ensures { result ≡ register_refusal self.now nexus params.now }
    {
        if params.listed && self.key_of(nexus) != 0 {
            Some(PrFault::InvalidParam)
        } else if self.has_room_for(nexus, targets, params.sark) {
            None
        } else {
            Some(PrFault::NoRegistrationRoom)
        }
    }

    fn reserve_refusal(&self, params: &OutParams) -> Option<PrFault>
        ensures { result ≡ reserve_refusal self.now params.now }
    {
        if self.reservation().is_none() && ResType::from_code(params.scope_type).is_none() {
            Some(PrFault::InvalidField)
        } else {
            None
        }
    }

    fn release_refusal(&self, nexus: Nexus, params: &OutParams) -> Option<PrFault>
        ensures { result ≡ release_refusal self.now nexus params.now }
    {
        if self.holds(nexus) && params.scope_type != self.res_type().code() {
            Some(PrFault::InvalidRelease)
        } else {
            None
        }
    }

    fn preempt_refusal(&self, params: &OutParams) -> Option<PrFault>
        ensures { result ≡ preempt_refusal self.now params.now }
    {
        if self.takes(params.sark) {
            if ResType::from_code(params.scope_type).is_some() {
                None
            } else {
                Some(PrFault::InvalidField)
            }
        } else if params.sark == 0 {
            Some(PrFault::InvalidParam)
        } else {
            None
        }
    }

    fn move_refusal(&self, nexus: Nexus, params: &OutParams) -> Option<PrFault>
        ensures { result ≡ move_refusal self.now nexus params.now }
    {
        if self.reservation().is_none() {
            return Some(PrFault::InvalidField);
        }
        if params.sark == 0 {
            return Some(PrFault::InvalidParam);
        }
        let Some(destination) = params.dest else {
            return Some(PrFault::InvalidParam);
        };
        if destination == nexus || !destination.has_target_port() {
            Some(PrFault::InvalidParam)
        } else if self.key_of(destination) == 0 && !params.unreg && self.is_full() {
            Some(PrFault::NoRegistrationRoom)
        } else {
            None
        }
    }
}

impl PrState {
    /// The act that a command is; none where keys are taken away from nexuses that have none.
    pub fn act_of<'a>(
        &self,
        nexus: Nexus,
        params: &OutParams,
        targets: &'a [Nexus],
    ) -> Option<ReservationAct<'a>>
        requires { targets.now ≡ targets_of nexus params.now }
        ensures { option_map act_shown result ≡ act_of self.now nexus params.now }
    {
        match params.act {
            OutServiceAction::Register | OutServiceAction::RegisterAndIgnoreExistingKey => {
                self.register_act(nexus, params, targets)
            }
            OutServiceAction::Reserve => Some(ReservationAct::Reserve(type_in(params.scope_type))),
            OutServiceAction::Release => Some(ReservationAct::Release(params.scope_type)),
            OutServiceAction::Clear => Some(ReservationAct::Clear),
            OutServiceAction::Preempt | OutServiceAction::PreemptAndAbort => {
                Some(ReservationAct::Preempt(params.sark, params.scope_type))
            }
            OutServiceAction::RegisterAndMove => match params.dest {
                None => None,
                Some(destination) => {
                    Some(ReservationAct::Move(params.sark, destination, params.unreg))
                }
            },
        }
    }

    fn register_act<'a>(
        &self,
        nexus: Nexus,
        params: &OutParams,
        targets: &'a [Nexus],
    ) -> Option<ReservationAct<'a>>
        requires { targets.now ≡ targets_of nexus params.now }
        ensures { option_map act_shown result ≡ register_act self.now nexus params.now }
    {
        if params.sark == 0 && !self.has_registered(targets) {
            None
        } else {
            Some(ReservationAct::Register(params.sark, targets))
        }
    }

    /// Whether one of these nexuses is registered.
    fn has_registered(&self, targets: &[Nexus]) -> bool
        ensures { result ≡ list_any (is_registered self.now) targets.now }
    {
        targets.iter().any(|nexus| self.key_of(*nexus) != 0)
    }
}
