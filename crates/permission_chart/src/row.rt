ghost use Rattle.std.specs.Prelude.{◌≡◌, ℕ, Some};
ghost use Rattle.permission_chart.specs.Chart.{class_line, columns, in_column, letter, occurs};

use permit_tables::{Cell, ResType, Role, allowed, class_text};
use scsi_cdb::Class;
use std::fmt;

/// The types, from the left.
const TYPES: [ResType; 7] = [
    ResType::None,
    ResType::We,
    ResType::Ea,
    ResType::Wero,
    ResType::Earo,
    ResType::Wear,
    ResType::Eaar,
];

/// The line of a class, with its line feed.
#[derive(Clone, Copy)]
pub(crate) struct Row {
    pub class: Class,
}

impl fmt::Display for Row {
    ghost output = { λ row. Some (class_line row.class) };

    fn fmt<W: fmt::Write>(&self, f: &mut fmt::Formatter<W>) -> fmt::Result {
        let name = class_text(self.class);
        write!(f, "{name:<27}")?;
        for res_type in TYPES {
            let columns = Columns {
                class: self.class,
                res_type,
            };
            write!(f, "{columns}")?;
        }
        f.write_str("\n")
    }
}

/// The cells of a class under a type.
#[derive(Clone, Copy)]
struct Columns {
    class: Class,
    res_type: ResType,
}

impl fmt::Display for Columns {
    ghost output = { λ it. Some (columns it.res_type (letter it.class it.res_type)) };

    fn fmt<W: fmt::Write>(&self, f: &mut fmt::Formatter<W>) -> fmt::Result {
        let holder = self.mark(Role::Holder);
        let registered = self.mark(Role::Registered);
        let other = self.mark(Role::Other);
        write!(f, "  {holder} {registered} {other}")
    }
}

impl Columns {
    /// The letter of a cell, or a blank where the role doesn't occur under the type.
    fn mark(self, role: Role) -> &'static str
        ensures { result.now ≡ in_column self.res_type role (letter self.class self.res_type role) }
    {
        let cell = Cell {
            class: self.class,
            res_type: self.res_type,
            role,
        };
        if !can_occur(self.res_type, role) {
            " "
        } else if allowed(cell) {
            "A"
        } else {
            "C"
        }
    }
}

/// Whether a nexus can have a role under a type: nobody holds where nothing is reserved, and under a type
/// of all registrants each registered nexus holds.
fn can_occur(res_type: ResType, role: Role) -> bool
    ensures { result ≡ occurs res_type role }
{
    match role {
        Role::Holder => !matches!(res_type, ResType::None),
        Role::Registered => !res_type.is_all_registrants(),
        Role::Other => true,
    }
}
