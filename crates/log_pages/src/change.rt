/// What a LOG SELECT resets: nothing, or the parameters of log pages, whose counters become 0.
#[derive(Clone, Copy)]
pub enum LogChange {
    /// No parameter.
    Unchanged,
    /// Those of every page.
    AllPages,
    /// Those of the Write Error Counter page.
    WriteErrorCounters,
    /// Those of the Read Error Counter page.
    ReadErrorCounters,
    /// Those of the Sequential-Access Device page.
    SequentialAccessDevice,
    /// Those of a page that has no counters.
    PageWithoutCounters,
}

impl LogChange {
    ghost use Rattle.std.specs.Prelude.{◌≡◌};
    ghost use Rattle.log_pages.specs.Counters.{is_reset};

    /// Whether parameters were reset, for which a unit attention is established for every other I_T nexus: LOG PARAMETERS CHANGED,
    /// 2Ah/02h (SPC-4, "LOG SELECT command").
    pub fn is_reset(self) -> bool
        ensures { result ≡ is_reset self }
    {
        match self {
            LogChange::Unchanged => false,
            LogChange::AllPages
            | LogChange::WriteErrorCounters
            | LogChange::ReadErrorCounters
            | LogChange::SequentialAccessDevice
            | LogChange::PageWithoutCounters => true,
        }
    }
}
