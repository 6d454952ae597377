//! A reader that gives its bytes one by one, and fails where it is to.

use std::io::{self, Read};

#[derive(Drop)]
pub(crate) struct Trickle<'a> {
    /// What is left of the bytes.
    pub(crate) bytes: &'a [u8],
    /// How often it was read.
    pub(crate) reads: u64,
    /// Which read fails, counted from 1; 0 where none does.
    pub(crate) fails_at: u64,
    /// Whether each third read is interrupted.
    pub(crate) is_interrupted: bool,
}

impl Trickle<'_> {
    fn fault(&self) -> Option<io::ErrorKind> {
        if self.reads == self.fails_at {
            return Some(io::ErrorKind::BrokenPipe);
        }
        if self.is_interrupted && self.reads % 3 == 0 {
            return Some(io::ErrorKind::Interrupted);
        }
        None
    }
}

impl Read for Trickle<'_> {
    fn read(&mut self, buffer: &mut [u8]) -> io::Result<usize> {
        self.reads = self.reads.saturating_add(1);
        if let Some(kind) = self.fault() {
            return Err(io::Error::from(kind));
        }
        match (self.bytes.split_first(), buffer.first_mut()) {
            (Some((next, rest)), Some(first)) => {
                *first = *next;
                self.bytes = rest;
                Ok(1)
            }
            _ => Ok(0),
        }
    }
}
