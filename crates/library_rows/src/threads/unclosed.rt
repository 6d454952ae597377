//! A library that can't be closed: a listener is told which records have no line.

use super::opened::Opened;
use crate::comparing::{assert_list, assert_same};
use library_service::ClosingFault;
use lun_router::CloseFault;
use output_lines::{UnwrittenListener, UnwrittenRecords};
use std::alloc::Global;
use std::io::Write;
use std::process::Abort;
use std::sync::{Mutex, Wait};

/// Writes a line of what it is told.
#[derive(Drop)]
struct LineListener<'a, R: Wait> {
    rt: &'a R,
    told: Mutex<Vec<u8>>,
}

impl<'a, R: Wait> UnwrittenListener for LineListener<'a, R> {
    fn tell(&self, records: &UnwrittenRecords) {
        let mut told = self.told.lock(self.rt);
        let _ = writeln!(&mut *told, "{records}");
    }
}

const SEAT_MISSING: Result<(), ClosingFault> = Err(ClosingFault::Close(CloseFault::SeatMissing));

const TWO_UNWRITTEN: &[u8] = b"2 records of logical unit 0 were not written, numbers 1 to 2\n";

/// Closes a library whose changer alone has records, two of them, by none of its seats: no line is written, and which are missing is told.
pub(super) fn assert_unclosed<T: Opened, R: Abort + Wait>(rt: &R, alloc: Global, library: T) {
    let mut lines = Vec::new(alloc);
    let listener = LineListener {
        rt,
        told: Mutex::new(Vec::new(alloc)),
    };
    let closed = library.close_by_no_seat(rt, alloc, &mut lines, &listener);
    assert_same(rt, closed, SEAT_MISSING, "how closing ends");
    assert_list(rt, &lines, b"", "the lines of the records");
    let told = listener.told.lock(rt);
    assert_list(rt, &told, TWO_UNWRITTEN, "what is told");
}
