use crate::case::Case;
use std::io::{self, BufRead, BufReader, ErrorKind};

/// What a heading begins with.
const HEAD: &[u8] = b"== ";

/// Tells each case of standard input, in their order. A line before the first heading, and a heading that is no text, are invalid data.
pub(crate) fn tell_all(rt: &(impl AllocGlobal + Input + Print)) -> io::Result<()> {
    let mut case = None;
    for line in BufReader::new(rt.alloc(), rt.reader())?.split(rt.alloc(), b'\n') {
        take_line(rt, &mut case, line?)?;
    }
    tell(rt, &case)
}

/// Takes a line of the case, or the heading of the next, where this one is told.
fn take_line(
    rt: &(impl AllocGlobal + Print),
    case: &mut Option<Case>,
    line: Vec<u8>,
) -> io::Result<()> {
    if line.starts_with(HEAD) {
        tell(rt, case)?;
        *case = Some(Case::new(rt.alloc(), line).ok_or(ErrorKind::InvalidData)?);
        return Ok(());
    }
    match case {
        Some(case) => Ok(case.push_line(&line)?),
        None => Err(ErrorKind::InvalidData.into()),
    }
}

/// Tells a case that has ended, if there is one.
fn tell(rt: &(impl AllocGlobal + Print), case: &Option<Case>) -> io::Result<()> {
    match case {
        Some(case) => case.tell(rt),
        None => Ok(()),
    }
}
