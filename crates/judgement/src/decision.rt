use audit_log::Stage;
use permit_tables::{Cell, KeyRule};
use unit_attention::Kind;

/// What a record says of how an event was judged, beside its status and sense data.
#[derive(Clone, Copy)]
pub struct Decision {
    /// The stage that decided the answer.
    pub stage: Stage,
    /// The cell of the permission table, of a command that came to the reservation check.
    pub cell: Option<Cell>,
    /// The rule on keys that the reservation check found broken.
    pub rule: Option<KeyRule>,
    /// What the command told every other nexus.
    pub told: Option<Kind>,
}

impl Decision {
    ghost use Rattle.std.specs.Prelude.{◌≡◌};
    ghost use Rattle.judgement.specs.Decisions.{at_stage, at_device, in_cell, let_in, in_conflict};

    /// A stage alone: before the reservation check, and of what isn't a command.
    pub fn at_stage(stage: Stage) -> Decision
        ensures { result ≡ at_stage stage }
    {
        Decision {
            stage,
            cell: None,
            rule: None,
            told: None,
        }
    }

    /// The device's stage, of a command that told the others something, or nothing.
    pub fn at_device(told: Option<Kind>) -> Decision
        ensures { result ≡ at_device told }
    {
        Decision {
            told,
            ..Decision::at_stage(Stage::Device)
        }
    }

    /// Of a command that came to the reservation check.
    pub fn in_cell(self, cell: Cell) -> Decision
        ensures { result ≡ in_cell cell self }
    {
        Decision {
            cell: Some(cell),
            ..self
        }
    }

    /// Behind the reservation check.
    pub fn let_in(cell: Cell, stage: Stage) -> Decision
        ensures { result ≡ let_in cell stage }
    {
        Decision::at_stage(stage).in_cell(cell)
    }

    /// A conflict: by the cell, or by a rule on keys.
    pub fn in_conflict(cell: Cell, rule: Option<KeyRule>) -> Decision
        ensures { result ≡ in_conflict cell rule }
    {
        Decision {
            stage: Stage::ReservationCheck,
            cell: Some(cell),
            rule,
            told: None,
        }
    }
}
