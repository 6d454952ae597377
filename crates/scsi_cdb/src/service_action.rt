ghost use Rattle.std.specs.Prelude.{◌≡◌};

use crate::classes::Class;
use crate::layout::*;

/// The service actions of PERSISTENT RESERVE OUT, in the order of their codes (SPC-4, "PERSISTENT
/// RESERVE OUT command").
#[derive(Clone, Copy, PartialEq, Eq)]
pub enum OutServiceAction {
    Register,
    Reserve,
    Release,
    Clear,
    Preempt,
    PreemptAndAbort,
    RegisterAndIgnoreExistingKey,
    RegisterAndMove,
}

impl OutServiceAction {
    ghost use Rattle.scsi_cdb.specs.Classes.{class_of_action};
    ghost use Rattle.scsi_cdb.specs.ServiceActions.{out_service_action};
    ghost use Rattle.scsi_cdb.specs.ServiceActions.{out_code};

    /// The service action of a code, where there is one.
    pub fn of(code: u8) -> Option<OutServiceAction>
        ensures { result ≡ out_service_action code }
    {
        match code {
            REGISTER => Some(OutServiceAction::Register),
            RESERVE => Some(OutServiceAction::Reserve),
            RELEASE => Some(OutServiceAction::Release),
            CLEAR => Some(OutServiceAction::Clear),
            PREEMPT => Some(OutServiceAction::Preempt),
            PREEMPT_AND_ABORT => Some(OutServiceAction::PreemptAndAbort),
            REGISTER_AND_IGNORE_EXISTING_KEY => {
                Some(OutServiceAction::RegisterAndIgnoreExistingKey)
            }
            REGISTER_AND_MOVE => Some(OutServiceAction::RegisterAndMove),
            _ => None,
        }
    }

    /// The SERVICE ACTION code.
    pub fn code(self) -> u8
        ensures { result ≡ out_code self }
    {
        match self {
            OutServiceAction::Register => REGISTER,
            OutServiceAction::Reserve => RESERVE,
            OutServiceAction::Release => RELEASE,
            OutServiceAction::Clear => CLEAR,
            OutServiceAction::Preempt => PREEMPT,
            OutServiceAction::PreemptAndAbort => PREEMPT_AND_ABORT,
            OutServiceAction::RegisterAndIgnoreExistingKey => REGISTER_AND_IGNORE_EXISTING_KEY,
            OutServiceAction::RegisterAndMove => REGISTER_AND_MOVE,
        }
    }

    /// The class of the command: each service action is a row of its own.
    pub fn class(self) -> Class
        ensures { result ≡ class_of_action self }
    {
        match self {
            OutServiceAction::Register => Class::Register,
            OutServiceAction::Reserve => Class::Reserve,
            OutServiceAction::Release => Class::Release,
            OutServiceAction::Clear => Class::Clear,
            OutServiceAction::Preempt => Class::Preempt,
            OutServiceAction::PreemptAndAbort => Class::PreemptAndAbort,
            OutServiceAction::RegisterAndIgnoreExistingKey => Class::RegisterAndIgnoreExistingKey,
            OutServiceAction::RegisterAndMove => Class::RegisterAndMove,
        }
    }
}
