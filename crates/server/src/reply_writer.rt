use crate::session_flags::SessionFlags;
use std::io::{self, ErrorKind, Write};
use std::os::unix::net::UnixStream;

/// Writes what a session answers, as long as all of it is true: once something couldn't be kept that a reply would say to be kept,
/// each write fails, so that the session ends without it.
#[derive(Drop)]
pub(crate) struct ReplyWriter<'a> {
    pub stream: &'a UnixStream,
    pub flags: &'a SessionFlags,
}

impl<'a> Write for ReplyWriter<'a> {
    fn write(&mut self, buffer: &[u8]) -> io::Result<usize> {
        if !self.flags.is_kept() {
            return Err(io::Error::from(ErrorKind::ConnectionAborted));
        }
        let mut stream = self.stream;
        let sent = stream.write(buffer)?;
        self.flags.counts().note_sent(sent);
        Ok(sent)
    }

    fn flush(&mut self) -> io::Result<()> {
        let mut stream = self.stream;
        stream.flush()
    }
}
