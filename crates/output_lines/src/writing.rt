ghost use Rattle.std.specs.Prelude.{◌≤◌, length, OnOk};
ghost use Rattle.std.specs.Io.KnownBytes.{Appends};
ghost use Rattle.output_lines.specs.LeftLines.{WritesSome};

use std::io::{self, Write};

/// Writes bytes, and what the writer may still hold back of them. Of how much an error leaves written nothing is said.
pub fn write_out<W: Write>(writer: &mut W, bytes: &[u8]) -> io::Result<()>
    ensures { OnOk result (Appends (W.contents writer.old) (W.contents writer.new) bytes.now) }
{
    writer.write_all(bytes)?;
    writer.flush()
}

/// Writes as many bytes as can be written, and says how many these are.
pub(crate) fn write_some<W: Write>(writer: &mut W, bytes: &[u8]) -> usize
    ensures most { result ≤ length bytes.now }
    ensures written { WritesSome (W.contents writer.old) (W.contents writer.new) bytes.now result }
{
    let mut rest = bytes;
    'writes: while !rest.is_empty() {
        match writer.write(rest) {
            Ok(0) | Err(_) => return bytes.len() - rest.len(),
            Ok(count) => rest = rest.split_at(count).1,
        }
    }
    bytes.len()
}
