ghost use Rattle.std.specs.Prelude.{◌≡◌};
ghost use Rattle.server.specs.Faults.{cause_words, first_accepted, first_by, is_accepted_before, session_words, silent};

use crate::iscsi_words::iscsi_words;
use iscsi_session::IscsiFault;
use scsi_nexus::Nexus;
use session::SessionFault;
use std::fmt;

/// Why a session ended early.
#[derive(Clone, Copy, Debug)]
pub enum Cause {
    Fault(SessionFault),
    /// The fault of a session of iSCSI.
    Iscsi(IscsiFault),
    /// A read failed since nothing came in time.
    Silence,
}

impl Cause {
    /// The cause, where what was waited for last didn't come in time: a read that failed is silence.
    pub fn silent(self) -> Cause
        ensures { result ≡ silent self }
    {
        match self {
            Cause::Fault(SessionFault::Read) | Cause::Iscsi(IscsiFault::Read) => Cause::Silence,
            _ => self,
        }
    }

    /// By which words it is reported.
    pub(crate) fn words(self) -> &'static str
        ensures { result.now ≡ cause_words self }
    {
        match self {
            Cause::Fault(fault) => session_words(fault),
            Cause::Iscsi(fault) => iscsi_words(fault),
            Cause::Silence => "nothing came in time",
        }
    }
}

/// A session that had a fault.
#[derive(Clone, Copy, Debug)]
pub struct FaultySession {
    /// Its place in the order of accepting, from 1 on.
    pub number: u64,
    /// Whose it was, or was to be. `None` where it ended before its LOGIN.
    pub nexus: Option<Nexus>,
    pub cause: Cause,
}

/// What is in an order, by which one of several is reported.
pub trait InOrder: Copy {
    ghost use Rattle.std.specs.Prelude.{◌≡◌, Bool};

    ghost comes_before: { Self → Self → Bool };

    /// Whether it is reported in place of another.
    fn is_before(&self, other: &Self) -> bool
        ensures { result ≡ comes_before self.now other.now };
}

impl InOrder for FaultySession {
    ghost comes_before = { is_accepted_before };

    fn is_before(&self, other: &FaultySession) -> bool {
        self.number < other.number
    }
}

/// The one of two that is reported, where either may have happened.
pub fn first_by<T: InOrder>(one: Option<T>, other: Option<T>) -> Option<T>
    ensures { result ≡ first_by T.comes_before one other }
{
    match (one, other) {
        (None, _) => other,
        (_, None) => one,
        (Some(this), Some(that)) => { if that.is_before(&this) { other } else { one } }
    }
}

/// The fault of the session that was accepted first, of two that may have had one.
pub(crate) fn first_accepted(
    one: Option<FaultySession>,
    other: Option<FaultySession>,
) -> Option<FaultySession>
    ensures { result ≡ first_accepted one other }
{
    first_by(one, other)
}

impl fmt::Display for FaultySession {
    ghost use Rattle.std.specs.Prelude.{Some};
    ghost use Rattle.server.specs.Faults.{faulty_session_text};

    ghost output = { λ session. Some (faulty_session_text session) };

    fn fmt<W: fmt::Write>(&self, f: &mut fmt::Formatter<W>) -> fmt::Result {
        let number = self.number;
        let words = self.cause.words();
        match self.nexus {
            None => write!(f, "{number} before its LOGIN: {words}"),
            Some(nexus) => write!(f, "{number} of {nexus}: {words}"),
        }
    }
}

fn session_words(fault: SessionFault) -> &'static str
    ensures { result.now ≡ session_words fault }
{
    match fault {
        SessionFault::BadFrame => "bad frame",
        SessionFault::TooLong => "frame too long",
        SessionFault::AlreadyConnected => "already connected",
        SessionFault::Read => "a read failed",
        SessionFault::Write => "a write failed",
        SessionFault::NoMemory => "want of memory",
    }
}
