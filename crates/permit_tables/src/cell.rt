ghost use Rattle.std.specs.Prelude.{◌≡◌, ℕ, Some, IfOk, string_bytes};

use crate::class_names::class_text;
use crate::res_type::ResType;
use crate::role::Role;
use crate::words::bit;
use scsi_cdb::Class;
use std::alloc::{AllocError, Global};
use std::fmt;

/// A cell of the permission table.
#[derive(Clone, Copy)]
pub struct Cell {
    /// The class of the command.
    pub class: Class,
    /// The type of the reservation.
    pub res_type: ResType,
    /// The role of the sender.
    pub role: Role,
}

impl Cell {
    ghost use Rattle.permit_tables.specs.Text.{cell_text};

    /// The cell as `CLASS/TYPE/ROLE`.
    pub fn text(self, alloc: Global) -> Result<String, AllocError>
        ensures { IfOk result (λ text. string_bytes text ≡ cell_text self) }
    {
        format!(in alloc; "{self}")
    }
}

impl fmt::Display for Cell {
    ghost use Rattle.permit_tables.specs.Text.{cell_text};

    ghost output = { λ cell. Some (cell_text cell) };

    fn fmt<W: fmt::Write>(&self, f: &mut fmt::Formatter<W>) -> fmt::Result {
        let class = class_text(self.class);
        let res_type = self.res_type;
        let role = self.role;
        write!(f, "{class}/{res_type}/{role}")
    }
}

ghost use Rattle.permit_tables.specs.Permission.{is_allowed};

/// Whether the permission table lets the cell's class through.
#[tactic(auto, using(crate::proofs::WordLaws::bit_is_allowed))]
pub fn allowed(cell: Cell) -> bool
    ensures { result ≡ is_allowed cell.class cell.res_type cell.role }
{
    bit(cell.class, cell.res_type, cell.role)
}
