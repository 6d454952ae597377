ghost use Rattle.std.specs.Prelude.{◌≡◌};
ghost use Rattle.supported_commands.specs.Options.{options_at};

/// Which commands REPORT SUPPORTED OPERATION CODES asks for (SPC-4, "REPORT SUPPORTED OPERATION CODES command", REPORTING OPTIONS).
#[derive(Clone, Copy)]
pub enum ReportingOptions {
    /// 000b: all commands of the unit.
    All,
    /// 001b: the command of an operation code that has no service actions.
    OneWithoutServiceActions,
    /// 010b: the command of an operation code and a service action.
    OneWithServiceAction,
    /// 011b: the command of an operation code and, where that has them, a service action.
    Either,
}

impl ReportingOptions {
    /// The options by the three bits of their field; none for a reserved value, which is refused with INVALID FIELD IN CDB.
    pub fn of(bits: u8) -> Option<ReportingOptions>
        ensures { result ≡ options_at bits }
    {
        match bits {
            0 => Some(ReportingOptions::All),
            1 => Some(ReportingOptions::OneWithoutServiceActions),
            2 => Some(ReportingOptions::OneWithServiceAction),
            3 => Some(ReportingOptions::Either),
            _ => None,
        }
    }
}
