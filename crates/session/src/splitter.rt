ghost use Rattle.std.specs.Prelude.{◌≡◌, ◌≢◌, ◌≤◌, false, [], length, drop, Err, IfOk, OnErr, vec_len};
ghost use Rattle.frames.specs.Stream.{Reads, Waiting};
ghost use Rattle.session.specs.declared.fault.SessionFault.TheVariants.{NoMemory};
ghost use Rattle.session.specs.Splitting.{values_of_frames, stopped, answer, Fed, Given};

use crate::fault::SessionFault;
use crate::frame::{Frame, copy_of};
use frames::{FrameFault, ParsedFrame, parse_frame};
use scsi_cdb::Profile;
use std::alloc::{AllocError, Global};
use std::marker::Model;

/// Cuts a stream of a session of a library of a profile into frames, as its pieces come. Contracts see where it stands: at bytes that are
/// no whole frame yet, after a LOGIN or before, or at a fault for good.
///
/// ```text
/// let mut splitter = Splitter::new(alloc);
/// for piece in pieces {
///     splitter.feed(profile, piece, &mut frames)?;
/// }
/// ```
#[derive(Drop)]
pub struct Splitter {
    pending: Vec<u8>,
    logged_in: bool,
    fault: Option<FrameFault>,
}

impl Model for Splitter {
    ghost use Rattle.frames.specs.Stream.{Stop};
    ghost use Rattle.session.specs.Splitting.{stopped};

    ghost Value = { Stop };

    ghost view = { λ s. stopped s.fault s.logged_in s.pending.items };
}

/// The frames that bytes begin with, how many bytes they take, and why no other follows.
#[derive(Drop)]
struct Cut {
    frames: Vec<Frame>,
    taken: usize,
    logged_in: bool,
    fault: Option<FrameFault>,
}

/// Cuts all whole frames off the front.
fn frames_of(
    alloc: Global,
    profile: Profile,
    logged_in: bool,
    bytes: &[u8],
) -> Result<Cut, AllocError>
    ensures read { IfOk result (λ cut. Reads profile logged_in bytes.now (values_of_frames cut.frames.items) (stopped cut.fault cut.logged_in (drop cut.taken bytes.now))) }
    ensures within { IfOk result (λ cut. cut.taken ≤ length bytes.now) }
{
    let mut frames = Vec::new(alloc);
    let mut logged = logged_in;
    let mut rest = bytes;
    'frames: loop {
        match parse_frame(profile, logged, rest) {
            ParsedFrame::Partial => {
                return Ok(Cut {
                    frames,
                    taken: bytes.len() - rest.len(),
                    logged_in: logged,
                    fault: None,
                });
            }
            ParsedFrame::Invalid(fault) => {
                return Ok(Cut {
                    frames,
                    taken: bytes.len() - rest.len(),
                    logged_in: logged,
                    fault: Some(fault),
                });
            }
            ParsedFrame::Complete(frame, count) => {
                frames.push(copy_of(alloc, frame)?)?;
                rest = rest.split_at(count).1;
                logged = true;
            }
        }
    }
}

/// Takes bytes off the front, in place.
fn pass(bytes: &mut Vec<u8>, count: usize)
    requires { count ≤ vec_len bytes.old }
    ensures { bytes.new.items ≡ drop count bytes.old.items }
{
    let left = bytes.len() - count;
    bytes.as_mut_slice().copy_within(count.., 0);
    bytes.truncate(left);
}

/// Adds the frames that are whole, and takes their bytes off what is pending: whether a LOGIN has come, and the fault
/// behind them, if there is one.
fn give(
    profile: Profile,
    logged_in: bool,
    pending: &mut Vec<u8>,
    out: &mut Vec<Frame>,
) -> Result<(bool, Option<FrameFault>), AllocError>
    ensures ok { IfOk result (λ left. Given profile logged_in pending.old.items (values_of_frames out.old.items) (values_of_frames out.new.items) (stopped left.1 left.0 pending.new.items)) }
    ensures err { OnErr result ((pending.new.items ≡ pending.old.items) × (out.new.items ≡ out.old.items)) }
{
    let Cut {
        mut frames,
        taken,
        logged_in,
        fault,
    } = frames_of(*pending.allocator(), profile, logged_in, pending.as_slice())?;
    out.append(&mut frames)?;
    pass(pending, taken);
    Ok((logged_in, fault))
}

impl Splitter {
    /// Before the first byte of a stream.
    pub fn new(alloc: Global) -> Splitter
        ensures { result ≡ Waiting false [] }
    {
        Splitter {
            pending: Vec::new(alloc),
            logged_in: false,
            fault: None,
        }
    }

    /// Takes the next piece of the stream, of any length, and adds each frame that is whole now. `BadFrame` and `TooLong`
    /// come behind the frames before the fault, and each later piece is answered the same. `NoMemory` changes nothing, so
    /// the piece may be handed in again.
    pub fn feed(
        &mut self,
        profile: Profile,
        piece: &[u8],
        out: &mut Vec<Frame>,
    ) -> Result<(), SessionFault>
        ensures fed { result ≢ Err NoMemory → Fed profile self.old piece.now (values_of_frames out.old.items) (values_of_frames out.new.items) self.new }
        ensures told { result ≢ Err NoMemory → result ≡ answer self.new }
        ensures memory { result ≡ Err NoMemory → (self.new ≡ self.old) × (out.new.items ≡ out.old.items) }
    {
        if let Some(fault) = self.fault {
            return Err(fault.into());
        }
        let before = self.pending.len();
        self.pending.extend_from_slice(piece)?;
        match give(profile, self.logged_in, &mut self.pending, out) {
            Ok((logged_in, fault)) => {
                self.logged_in = logged_in;
                self.fault = fault;
                match fault {
                    None => Ok(()),
                    Some(fault) => Err(fault.into()),
                }
            }
            Err(_) => {
                self.pending.truncate(before);
                Err(SessionFault::NoMemory)
            }
        }
    }
}
