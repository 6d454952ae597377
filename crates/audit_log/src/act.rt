ghost use Rattle.std.specs.Prelude.{◌≡◌};

use permit_tables::{KeptParams, class_text};
use scsi_cdb::Class;

/// What was asked of the unit, without the parameter list.
#[derive(Clone, Copy)]
pub enum Asked {
    Command(Class),
    /// Bytes that decode to no command of the unit, or a parameter list of a wrong length.
    Invalid,
    /// An I_T nexus loss.
    Loss,
    /// A reset of the unit.
    Reset,
    /// A volume came in.
    MediumIn,
    /// A volume was taken out.
    MediumOut,
}

impl Asked {
    ghost use Rattle.audit_log.specs.Acts.{act_of};
    ghost use Rattle.audit_log.specs.Lines.{act_text};

    /// The name of the command's class, or of what isn't a command.
    pub fn text(self) -> &'static str
        ensures { result.now ≡ act_text (act_of self) }
    {
        match self {
            Asked::Command(class) => class_text(class),
            Asked::Invalid => "INVALID",
            Asked::Loss => "LOSS",
            Asked::Reset => "RESET",
            Asked::MediumIn => "MEDIUM-IN",
            Asked::MediumOut => "MEDIUM-OUT",
        }
    }
}

/// What a record says was asked of the unit.
#[derive(Drop)]
pub enum Act {
    /// A command other than PERSISTENT RESERVE OUT.
    Command(Class),
    /// PERSISTENT RESERVE OUT with its parameter list.
    ReserveOut(KeptParams),
    /// Bytes that decode to no command of the unit, or a parameter list of a wrong length.
    Invalid,
    /// An I_T nexus loss.
    Loss,
    /// A reset of the unit.
    Reset,
    /// A volume came in.
    MediumIn,
    /// A volume was taken out.
    MediumOut,
}

impl Act {
    ghost use Rattle.audit_log.specs.Acts.{act_of, class_of_act};
    ghost use Rattle.audit_log.specs.Lines.{act_text};

    /// What was asked, without the parameter list.
    pub fn asked(&self) -> Asked
        ensures { act_text (act_of result) ≡ act_text self.now }
    {
        match self {
            Act::Command(class) => Asked::Command(*class),
            Act::ReserveOut(params) => Asked::Command(params.act().class()),
            Act::Invalid => Asked::Invalid,
            Act::Loss => Asked::Loss,
            Act::Reset => Asked::Reset,
            Act::MediumIn => Asked::MediumIn,
            Act::MediumOut => Asked::MediumOut,
        }
    }

    /// The class of the command. What isn't a command has none.
    pub fn class(&self) -> Option<Class>
        ensures { result ≡ class_of_act self.now }
    {
        match self {
            Act::Command(class) => Some(*class),
            Act::ReserveOut(params) => Some(params.act().class()),
            Act::Invalid | Act::Loss | Act::Reset | Act::MediumIn | Act::MediumOut => None,
        }
    }
}
