use output_lines::{UnwrittenListener, UnwrittenRecords};
use server::{Event, Teller};
use std::io::Write;
use std::sync::Wait;

/// Tells which records have no line as a server tells what happens.
#[derive(Drop)]
pub(crate) struct UnwrittenTeller<'a, R: Wait, E: Write> {
    pub rt: &'a R,
    pub teller: &'a Teller<E>,
}

impl<'a, R: Wait, E: Write> UnwrittenListener for UnwrittenTeller<'a, R, E> {
    fn tell(&self, records: &UnwrittenRecords) {
        self.teller.tell(self.rt, &Event::Unwritten(*records));
    }
}
