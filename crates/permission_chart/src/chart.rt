ghost use Rattle.std.specs.Prelude.{◌≡◌, ℕ, Some, IfOk, string_bytes};
ghost use Rattle.permission_chart.specs.Chart.{chart};
ghost use Rattle.permission_chart.specs.Classes.{every_class};

use crate::classes::classes_of;
use crate::row::Row;
use scsi_cdb::{Class, Profile};
use std::alloc::{AllocError, Global};
use std::fmt;

/// The types of reservation, and what the letters of the cells mean.
const TYPES_LINE: &str =
    "A allowed, C conflict         NONE     WE     EA   WERO   EARO   WEAR   EAAR\n";

/// The roles, by their first letters.
const ROLES_LINE: &str =
    "HOLDER REGISTERED OTHER        R O  H R O  H R O  H R O  H R O  H   O  H   O\n";

/// The permission table of persistent reservations as people read it: a line for each class of command,
/// and in it, for each role under each type of reservation, `A` where the table allows the class and `C`
/// where it meets RESERVATION CONFLICT (the form of SPC-4, "Persistent reservations interactions with
/// commands"). Two lines above name the types and the roles. A role stands where it can occur: nobody holds
/// where nothing is reserved, and under a type of all registrants each registered nexus holds.
#[derive(Clone, Copy)]
pub struct Chart<'a> {
    /// The classes, from the top.
    pub classes: &'a [Class],
}

impl Chart<'static> {
    /// The chart of all classes of a profile, in the order of [`Class`].
    pub fn whole(profile: Profile) -> Chart<'static>
        ensures { result.classes.now ≡ every_class profile }
    {
        Chart {
            classes: classes_of(profile),
        }
    }
}

impl Chart<'_> {
    /// The chart, a line feed after each line.
    pub fn text(self, alloc: Global) -> Result<String, AllocError>
        ensures { IfOk result (λ text. string_bytes text ≡ chart self.entry.classes.now) }
    {
        format!(in alloc; "{self}")
    }
}

impl fmt::Display for Chart<'_> {
    ghost output = { λ it. Some (chart it.classes.now) };

    fn fmt<W: fmt::Write>(&self, f: &mut fmt::Formatter<W>) -> fmt::Result {
        f.write_str(TYPES_LINE)?;
        f.write_str(ROLES_LINE)?;
        for &class in self.classes {
            let row = Row { class };
            write!(f, "{row}")?;
        }
        Ok(())
    }
}
