use std::io::{self, ErrorKind, Read, Write};
use std::net::TcpStream;
use std::time::{Clock, Duration, Instant};

/// How many milliseconds a connection may take in all.
const MOST_TIME: u64 = 2_000;

/// A connection that is read and written for a limited time.
#[derive(Drop)]
pub(crate) struct TimedStream<'a, R: Clock> {
    pub rt: &'a R,
    pub stream: &'a TcpStream,
    /// When it came.
    pub begun: Instant,
}

impl<'a, R: Clock> TimedStream<'a, R> {
    /// How much time is left.
    fn left(&self) -> io::Result<Option<Duration>> {
        let most = Duration::from_millis(MOST_TIME);
        match most.checked_sub(self.begun.elapsed(self.rt)?) {
            Some(left) if !left.is_zero() => Ok(Some(left)),
            _ => Err(io::Error::from(ErrorKind::TimedOut)),
        }
    }
}

impl<'a, R: Clock> Read for TimedStream<'a, R> {
    fn read(&mut self, buffer: &mut [u8]) -> io::Result<usize> {
        self.stream.set_read_timeout(self.left()?)?;
        let mut stream = self.stream;
        stream.read(buffer)
    }
}

impl<'a, R: Clock> Write for TimedStream<'a, R> {
    fn write(&mut self, bytes: &[u8]) -> io::Result<usize> {
        self.stream.set_write_timeout(self.left()?)?;
        let mut stream = self.stream;
        stream.write(bytes)
    }

    fn flush(&mut self) -> io::Result<()> {
        Ok(())
    }
}
