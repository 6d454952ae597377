//! Lines of an input, whatever it is.

use std::io::{self, BufRead, Read};

/// More bytes than the line of any record has (profile).
const MOST_BYTES: u64 = 65_536;

/// What comes next in an input.
#[derive(Clone, Copy, PartialEq, Eq)]
pub(crate) enum NextLine {
    /// A line, which is in the buffer without its line feed.
    Whole,
    /// What ends the input without a line feed.
    CutOff,
    /// A line with more bytes than that of any record, which was passed over.
    TooLong,
    /// The input has ended.
    End,
}

/// Reads the next line into a buffer, up to the most bytes that a record's has.
pub(crate) fn next_line<R: BufRead>(reader: &mut R, line: &mut Vec<u8>) -> io::Result<NextLine> {
    line.clear();
    let count = read_piece(reader, line)?;
    if line.last() == Some(&b'\n') {
        line.pop();
        return Ok(NextLine::Whole);
    }
    if count == 0 {
        return Ok(NextLine::End);
    }
    if (count as u64) < MOST_BYTES {
        return Ok(NextLine::CutOff);
    }
    pass_over(reader, line)?;
    Ok(NextLine::TooLong)
}

/// Reads up to a line feed, and not more than the most bytes of a line.
fn read_piece<R: BufRead>(reader: &mut R, line: &mut Vec<u8>) -> io::Result<usize> {
    Read::take(&mut *reader, MOST_BYTES).read_until(b'\n', line)
}

/// Passes over the rest of a line.
fn pass_over<R: BufRead>(reader: &mut R, line: &mut Vec<u8>) -> io::Result<()> {
    for _piece in 0..u64::MAX {
        line.clear();
        let count = read_piece(reader, line)?;
        if count == 0 || line.last() == Some(&b'\n') {
            return Ok(());
        }
    }
    Ok(())
}
