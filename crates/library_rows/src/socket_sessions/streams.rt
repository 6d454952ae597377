//! A stream that takes what is written, or nothing.

use std::io::{self, Write};

/// Takes all that is written, or fails at each write.
#[derive(Drop)]
pub(super) struct Sink {
    pub(super) fails: bool,
}

impl Write for Sink {
    fn write(&mut self, buffer: &[u8]) -> io::Result<usize> {
        if self.fails {
            Err(io::Error::from(io::ErrorKind::BrokenPipe))
        } else {
            Ok(buffer.len())
        }
    }

    fn flush(&mut self) -> io::Result<()> {
        Ok(())
    }
}
