ghost use Rattle.std.specs.Prelude.{◌≡◌, ◌∷◌, ◌++◌, [], OnOk};
ghost use Rattle.std.specs.Io.KnownBytes.{Appends};
ghost use Rattle.library_server.specs.Notices.{at_each, notice_text, plural};

use std::fmt;
use std::io::{self, Write};

/// What is told where serving begins.
#[derive(Clone, Copy)]
pub(crate) enum Notice<'a> {
    /// The file at this path was taken away.
    TookAway(&'a str),
    /// Hosts can connect at so many places, to a library of so many units, by so many workers at each.
    Serving {
        places: &'a str,
        count: usize,
        units: usize,
        workers: u8,
    },
    /// The volumes may hold so many bytes of blocks together, and take so many bytes of memory at most.
    LargerThanMemory {
        size: u64,
        memory: u64,
    },
}

/// Tells a notice. Where its line can't be written there is nobody to tell.
pub(crate) fn tell<E: Write>(errors: &mut E, notice: &Notice<'_>) {
    let _ = write_notice(errors, notice);
}

/// Writes a notice's line.
fn write_notice<E: Write>(errors: &mut E, notice: &Notice<'_>) -> io::Result<()>
    ensures { OnOk result (Appends (E.contents errors.old) (E.contents errors.new) (notice_text notice.now ++ 10 ∷ [])) }
{
    writeln!(errors, "{notice}")
}

impl<'a> fmt::Display for Notice<'a> {
    ghost use Rattle.std.specs.Prelude.{Some};

    ghost output = { λ notice. Some (notice_text notice) };

    fn fmt<W: fmt::Write>(&self, f: &mut fmt::Formatter<W>) -> fmt::Result {
        match self {
            Notice::TookAway(path) => write!(f, "vtl: removed {path}: nobody listened there"),
            Notice::Serving {
                places,
                count,
                units,
                workers,
            } => {
                let more = plural(*workers);
                let at_each = at_each(*count);
                write!(
                    f,
                    "vtl: serving at {places}: {units} units, {workers} worker{more}{at_each}"
                )
            }
            Notice::LargerThanMemory { size, memory } => write!(
                f,
                "vtl: the volumes may hold {size} bytes of blocks together, and --memory is {memory} bytes: writes end in BUSY once it is used up"
            ),
        }
    }
}

/// What a word ends with, of so many.
pub(crate) fn plural(count: u8) -> &'static str
    ensures { result.now ≡ plural count }
{
    if count == 1 { "" } else { "s" }
}

/// What stands behind a number that holds at each of so many places.
pub(crate) fn at_each(count: usize) -> &'static str
    ensures { result.now ≡ at_each count }
{
    if count == 1 { "" } else { " at each" }
}
