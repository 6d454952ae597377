ghost use Rattle.std.specs.Io.{ReadsAtMost};

use crate::session_flags::SessionFlags;
use crate::waiting::{PollSource, Waiting};
use std::alloc::Global;
use std::io::{self, ErrorKind, Read};
use std::os::fd::AsRawFd;
use std::os::unix::net::UnixStream;
use std::sync::Wait;
use std::time::{Clock, Duration, Instant};

/// How often one read may be cut short by a signal. It is tried again, and its time begins again.
const MOST_SIGNALS: u32 = 1000;

/// After how many milliseconds at most a session looks around that holds replies and isn't woken.
const GLANCE: u64 = 20;

/// How long a connection is waited for. `None`: for ever.
#[derive(Clone, Copy)]
pub(crate) struct Patience {
    /// Until its host is logged in.
    pub login: Option<Duration>,
    /// From then on, as long as nothing comes.
    pub idle: Option<Duration>,
    /// The same, before a read is given up for once.
    pub ping: Option<Duration>,
    /// The longest that a read waits at once, before its session may look around.
    pub look: Option<Duration>,
}

/// How a wait has ended of a session that holds replies.
#[derive(Clone, Copy)]
enum WaitEnd {
    /// Something is there to be read.
    HasInput,
    /// The session is to look around: it was woken, or the time is up.
    HasNone,
    /// There was no wait, since the session can't be woken.
    NotWakeable,
}

/// Reads what a host sends, which has to log in by a time, and may later on be silent for so long. A read by which it is late
/// fails, and so do all that follow. One by which nothing has come for as long as until a ping fails by `TimedOut`, which no other
/// does, and one that is given up before, so that its session may look around, by `Interrupted`.
///
/// While the session holds replies a read is given up too once it is woken, since something is settled.
#[derive(Drop)]
pub(crate) struct TimedReader<'a, R: Clock + PollSource + Wait> {
    rt: &'a R,
    alloc: Global,
    stream: &'a UnixStream,
    /// Say whether the host is logged in, and whether the session holds replies.
    flags: &'a SessionFlags,
    patience: Patience,
    /// `None`: its login may take for ever.
    login_by: Option<Instant>,
    /// How long nothing has come since the host is logged in, while no reply to it was held.
    silence: Duration,
    /// How long of that since a read was given up for a ping.
    unasked: Duration,
    /// How long a read waits of a host that is logged in and was heard just now.
    usual: Option<Duration>,
    /// Whether the last read gave something and waited for as long as that, of a host that is logged in. Then nothing is silent, the next read
    /// waits as long, and the stream knows that already.
    is_usual: bool,
    /// How long a read of the stream waits now. `None`: nothing was said.
    wait: Option<Option<Duration>>,
    /// What the session waits by that holds replies. `None`: it has held none yet, or there was no descriptor for it.
    waiting: Option<Waiting>,
    is_late: bool,
}

impl<'a, R: Clock + PollSource + Wait> TimedReader<'a, R> {
    /// Nothing has been read yet; the time for the login begins now.
    pub fn new(
        rt: &'a R,
        alloc: Global,
        stream: &'a UnixStream,
        flags: &'a SessionFlags,
        patience: Patience,
    ) -> io::Result<TimedReader<'a, R>> {
        let login_by = match patience.login {
            Some(time) => Instant::now(rt)?.checked_add(time),
            None => None,
        };
        Ok(TimedReader {
            rt,
            alloc,
            stream,
            flags,
            patience,
            login_by,
            silence: Duration::ZERO,
            unasked: Duration::ZERO,
            usual: shorter(shorter(patience.idle, patience.ping), patience.look),
            is_usual: false,
            wait: None,
            waiting: None,
            is_late: false,
        })
    }

    /// Whether a read failed since nothing came in time.
    pub fn is_late(&self) -> bool {
        self.is_late
    }

    /// How long the next read may wait. `None`: for ever.
    fn next_wait(&self) -> io::Result<Option<Duration>> {
        if self.flags.is_in() {
            let left = shorter(
                left_of(self.patience.idle, self.silence),
                left_of(self.patience.ping, self.unasked),
            );
            return Ok(shorter(left, self.patience.look));
        }
        match self.login_by {
            Some(by) => Ok(Some(by.saturating_duration_since(Instant::now(self.rt)?))),
            None => Ok(None),
        }
    }

    /// Says how long the next read may wait, where that isn't said already.
    fn limit_wait(&mut self, wait: Option<Duration>) -> io::Result<()> {
        if self.wait != Some(wait) {
            self.stream.set_read_timeout(wait)?;
            self.wait = Some(wait);
        }
        Ok(())
    }

    /// Why a read failed for which nothing came in so long.
    fn kind_behind(&mut self, waited: Duration) -> ErrorKind {
        self.is_usual = false;
        if self.flags.is_in() {
            // A host that waits for a reply has nothing to say.
            if !self.flags.holds() {
                self.silence = self.silence.saturating_add(waited);
            }
            self.unasked = self.unasked.saturating_add(waited);
            if !is_over(self.patience.idle, self.silence) {
                return self.kind_within();
            }
        }
        self.is_late = true;
        ErrorKind::ConnectionAborted
    }

    /// The same of a host that may be silent for longer: it is to be pinged now, or its session looks around.
    fn kind_within(&mut self) -> ErrorKind {
        if is_over(self.patience.ping, self.unasked) {
            self.unasked = Duration::ZERO;
            ErrorKind::TimedOut
        } else {
            ErrorKind::Interrupted
        }
    }

    /// How long the next read may wait. Fails where the host is late already.
    fn due_wait(&mut self) -> io::Result<Option<Duration>> {
        let wait = self.next_wait()?;
        if self.is_late || wait == Some(Duration::ZERO) {
            self.is_late = true;
            return Err(io::Error::from(ErrorKind::ConnectionAborted));
        }
        Ok(wait)
    }

    /// Reads what comes within a time.
    fn read_within(&mut self, buffer: &mut [u8], wait: Option<Duration>) -> io::Result<usize>
        ensures { ReadsAtMost result buffer.new }
    {
        self.limit_wait(wait)?;
        let count = self.read_limited(buffer, wait)?;
        self.silence = Duration::ZERO;
        self.unasked = Duration::ZERO;
        self.is_usual = wait == self.usual && self.flags.is_in();
        Ok(count)
    }

    /// Reads what comes within the time for which the stream waits.
    fn read_limited(&mut self, buffer: &mut [u8], wait: Option<Duration>) -> io::Result<usize>
        ensures { ReadsAtMost result buffer.new }
    {
        let mut stream = self.stream;
        'tries: for _cut_short in 0..MOST_SIGNALS {
            match stream.read(buffer) {
                Ok(count) => return Ok(count),
                Err(error) => match error.kind() {
                    // A read that waits for a time is cut short where the program was stopped and goes on.
                    ErrorKind::Interrupted => {}
                    // Which of the two a read gives whose time is up depends on the system.
                    ErrorKind::WouldBlock | ErrorKind::TimedOut => {
                        let waited = wait.unwrap_or(Duration::ZERO);
                        return Err(io::Error::from(self.kind_behind(waited)));
                    }
                    _ => return Err(error),
                },
            }
        }
        Err(io::Error::from(ErrorKind::Interrupted))
    }

    /// Reads what comes until the session is woken, which holds replies.
    fn read_while_holding(&mut self, buffer: &mut [u8]) -> io::Result<usize>
        ensures { ReadsAtMost result buffer.new }
    {
        // A reply may be settled already that was held a moment ago: its session has to ask once after that, before it waits.
        if self.flags.take_new() {
            self.become_wakeable();
            return Err(io::Error::from(ErrorKind::Interrupted));
        }
        let wait = self.due_wait()?;
        let begun = Instant::now(self.rt)?;
        match self.wait_for(shorter(wait, self.glance())) {
            // The stream's own limit holds too: what is reported may be gone once it is read.
            WaitEnd::HasInput => self.read_within(buffer, wait),
            // A wake ends a wait early, so that the whole of it isn't what has gone by.
            WaitEnd::HasNone => {
                let waited = begun.elapsed(self.rt)?;
                Err(io::Error::from(self.kind_behind(waited)))
            }
            WaitEnd::NotWakeable => {
                let glance = Some(Duration::from_millis(GLANCE));
                self.read_within(buffer, shorter(wait, glance))
            }
        }
    }

    /// After how long a session looks around that waits for records to be handed out: no thread wakes it for that, since the thread
    /// that writes them knows no sessions. `None`: it needn't.
    fn glance(&self) -> Option<Duration> {
        if self.flags.unpaced() > 0 {
            Some(Duration::from_millis(GLANCE))
        } else {
            None
        }
    }

    /// Waits until something is there to be read, or the session is woken, or the time is up.
    fn wait_for(&mut self, time: Option<Duration>) -> WaitEnd {
        let Some(waiting) = &mut self.waiting else {
            return WaitEnd::NotWakeable;
        };
        match waiting.wait(time) {
            Ok(waited) if waited.has_input && !waited.is_woken => WaitEnd::HasInput,
            Ok(_) => WaitEnd::HasNone,
            Err(_) => {
                self.waiting = None;
                WaitEnd::NotWakeable
            }
        }
    }

    /// Sees to it that the session can be woken, where there are descriptors and memory for that.
    fn become_wakeable(&mut self) {
        if self.waiting.is_none() {
            self.waiting = self.new_waiting().ok();
        }
    }

    /// What the session waits by, whose waker is known from now on.
    fn new_waiting(&self) -> io::Result<Waiting> {
        let waiting = Waiting::new(self.rt, self.alloc, self.stream.as_raw_fd())?;
        self.flags.wake_by(self.rt, waiting.waker()?);
        Ok(waiting)
    }
}

/// What is left of a time, after so much of it. `None`: it is for ever.
fn left_of(time: Option<Duration>, gone: Duration) -> Option<Duration> {
    match time {
        Some(time) => Some(time.saturating_sub(gone)),
        None => None,
    }
}

/// Whether a time is over, after so much of it.
fn is_over(time: Option<Duration>, gone: Duration) -> bool {
    match time {
        Some(time) => gone >= time,
        None => false,
    }
}

/// The shorter of two times, of which either may be for ever.
fn shorter(one: Option<Duration>, other: Option<Duration>) -> Option<Duration> {
    match (one, other) {
        (Some(one), Some(other)) => Some(one.min(other)),
        (Some(time), None) | (None, Some(time)) => Some(time),
        (None, None) => None,
    }
}

impl<'a, R: Clock + PollSource + Wait> TimedReader<'a, R> {
    /// Reads some bytes, for no longer than the host may be silent now.
    fn read_some(&mut self, buffer: &mut [u8]) -> io::Result<usize>
        ensures { ReadsAtMost result buffer.new }
    {
        if self.flags.holds() {
            self.read_while_holding(buffer)
        } else if self.is_usual {
            self.read_limited(buffer, self.usual)
        } else {
            let wait = self.due_wait()?;
            self.read_within(buffer, wait)
        }
    }
}

impl<'a, R: Clock + PollSource + Wait> Read for TimedReader<'a, R> {
    fn read(&mut self, buffer: &mut [u8]) -> io::Result<usize> {
        let received = self.read_some(buffer)?;
        self.flags.counts().note_received(received);
        Ok(received)
    }
}
