ghost use Rattle.std.specs.Prelude.{OnOk};
ghost use Rattle.std.specs.Io.KnownBytes.{Appends};
ghost use Rattle.permission_chart.specs.Cells.{cells_text};

use crate::chart::Chart;
use scsi_cdb::{Class, Profile};
use std::io::{self, Write};

/// Writes the permission table of persistent reservations as a chart, of all classes of command that a
/// profile has, or of one.
pub fn write_cells<W: Write>(
    writer: &mut W,
    profile: Profile,
    class: Option<Class>,
) -> io::Result<()>
    ensures { OnOk result (Appends (W.contents writer.old) (W.contents writer.new) (cells_text profile class)) }
{
    match class {
        None => {
            let chart = Chart::whole(profile);
            write!(writer, "{chart}")
        }
        Some(class) => {
            let chart = Chart { classes: &[class] };
            write!(writer, "{chart}")
        }
    }
}
