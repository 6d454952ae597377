ghost use Rattle.std.specs.Prelude.{◌≡◌, [], IsTrue, string_bytes, take};
ghost use Rattle.output_lines.specs.LeftLines.{GoesOn, IsBegunAgain, left_of, line_ends, whole_of};

use crate::writing::write_some;
use std::io::Write;

/// How many lines end in bytes.
pub(crate) fn whole_lines(bytes: &[u8]) -> usize
    ensures { result ≡ line_ends bytes.now }
{
    bytes.iter().filter(|byte| **byte == b'\n').count()
}

/// Where the line begins in which bytes end: after the last line feed.
fn start_of_line(bytes: &[u8]) -> usize
    ensures { IsBegunAgain bytes.now result }
{
    let mut start = bytes.len();
    'bytes: while start > 0 && bytes[start - 1] != b'\n' {
        start -= 1;
    }
    start
}

/// Lines of which the first bytes are written.
#[derive(Drop)]
pub struct Lines {
    text: String,
    written: usize,
}

impl Lines {
    /// Lines of which nothing is written yet.
    pub fn new(text: String) -> Lines
        ensures { left_of result ≡ string_bytes text }
    {
        Lines { text, written: 0 }
    }

    /// Writes what is left, and what the writer may still hold back. Whether neither is left.
    pub fn write_left<W: Write>(&mut self, writer: &mut W) -> bool
        ensures left { GoesOn (W.contents writer.old) (W.contents writer.new) (left_of self.old) (left_of self.new) }
        ensures all { IsTrue result → left_of self.new ≡ [] }
    {
        let bytes = self.text.as_bytes();
        let Some(rest) = bytes.get(self.written..) else {
            return true;
        };
        let count = write_some(writer, rest);
        let is_all = count == rest.len();
        self.written += count;
        is_all && writer.flush().is_ok()
    }

    /// Has a line of which a part is written begin again, as in a file that has nothing of it. No whole line does.
    pub fn begin_line_again(&mut self)
        ensures text { self.new.text ≡ self.old.text }
        ensures begun { IsBegunAgain (take self.old.written (string_bytes self.old.text)) self.new.written }
    {
        let bytes = self.text.as_bytes();
        let said = match bytes.get(..self.written) {
            Some(said) => said,
            None => bytes,
        };
        self.written = start_of_line(said);
    }

    /// How many of them are written whole.
    pub fn whole(&self) -> usize
        ensures { result ≡ whole_of self.now }
    {
        let bytes = self.text.as_bytes();
        bytes
            .iter()
            .take(self.written)
            .filter(|byte| **byte == b'\n')
            .count()
    }
}
