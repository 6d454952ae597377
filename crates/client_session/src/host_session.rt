ghost use Rattle.std.specs.Prelude.{◌≡◌, ◌≤◌, ℕ, List, [], All, Err, IfErr, OnOk};
ghost use Rattle.std.specs.Io.KnownBytes.{Keeps};
ghost use Rattle.frames.specs.Limits.{reply_size_limit};
ghost use Rattle.frames.specs.Sending.{IsSendable};
ghost use Rattle.frames.specs.Views.{frame_value};
ghost use Rattle.script_input.specs.declared.line_fault.LineFault.{LineFault};
ghost use Rattle.scsi_cdb.specs.declared.profile.Profile.{Profile};
ghost use Rattle.script_lines.specs.Requests.{IsWithinLimits, request_value};
ghost use Rattle.script_lines.specs.Script.{request_values, requests_in};
ghost use Rattle.client_session.specs.Talking.{Converses, frame_of, frames_of, streams, Talks};
ghost use Rattle.client_session.specs.Waiting.{Breaks, BreaksWithin, Exchanges, IsOfSession, Stops};

use crate::awaiting::expect_reply;
use crate::client_session_fault::ClientSessionFault;
use crate::exchanging::{send, take_reply};
use frames::{FRAME_BUFFER, FrameRef, HOSTS_FRAME_BUFFER};
use output_lines::{Explanations, write_out};
use read_buffer::ReadBuffer;
use script_lines::{ClientRequest, requests_of};
use scsi_cdb::Profile;
use scsi_nexus::Nexus;
use std::alloc::Global;
use std::io::{Read, Write};

/// The frame of a request. A library of a profile may be sent it where the request is within the limits of that profile.
fn frame_of(request: &ClientRequest) -> FrameRef<'_>
    ensures frame { frame_value result ≡ frame_of (request_value request.now) }
    ensures sendable { (p : Profile) → IsWithinLimits p (request_value request.now) → IsSendable p (frame_value result) }
{
    match request {
        ClientRequest::Command { lun, cdb, bytes } => FrameRef::Command {
            lun: *lun,
            cdb: cdb.as_slice(),
            bytes: bytes.as_slice(),
        },
        ClientRequest::Reset { lun } => FrameRef::Reset { lun: *lun },
    }
}

/// Who a host is, and how its session is held.
#[derive(Clone, Copy)]
pub struct HostSettings {
    pub nexus: Nexus,
    /// That of the library.
    pub profile: Profile,
    /// Whether a line is written behind each reply's that says it in words.
    pub explanations: Explanations,
    /// How many reads there may be.
    pub turns: u64,
}

/// A session as it is held with a server.
#[derive(Drop)]
struct HostSession<const ROOM: usize> {
    nexus: Nexus,
    /// That of the library.
    profile: Profile,
    explanations: Explanations,
    /// What came of replies and isn't taken yet.
    read_buffer: ReadBuffer<ROOM>,
    /// The frame that is sent, or the lines that are written.
    buffer: Vec<u8>,
    /// How many reads there may be yet.
    turns: u64,
}

impl<const ROOM: usize> HostSession<ROOM> {
    /// Sends a frame, waits for its reply and writes what is written of it.
    fn exchange_frame<R: Read, W: Write, O: Write>(
        &mut self,
        frame: &FrameRef<'_>,
        reader: &mut R,
        writer: &mut W,
        out: &mut O,
    ) -> Result<(), ClientSessionFault>
        requires frame { IsSendable self.old.profile (frame_value frame.now) }
        requires room { reply_size_limit self.old.profile ≤ ROOM }
        ensures profile { self.new.profile ≡ self.old.profile }
        ensures explanations { self.new.explanations ≡ self.old.explanations }
        ensures ok { OnOk result (Exchanges self.old.profile self.old.explanations (frame_value frame.now) self.old.read_buffer self.new.read_buffer
            (streams (R.remaining reader.old) (W.contents writer.old) (O.contents out.old))
            (streams (R.remaining reader.new) (W.contents writer.new) (O.contents out.new))) }
        ensures err { IfErr result (λ fault. Stops self.old.profile fault (frame_value frame.now) self.old.read_buffer
            (streams (R.remaining reader.old) (W.contents writer.old) (O.contents out.old))
            (streams (R.remaining reader.new) (W.contents writer.new) (O.contents out.new))) }
    {
        send(self.profile, frame, &mut self.buffer, writer)?;
        expect_reply(self.profile, &mut self.read_buffer, reader, &mut self.turns)?;
        self.buffer.clear();
        let pending = self.read_buffer.pending();
        let count = take_reply(
            self.profile,
            self.explanations,
            frame,
            pending,
            &mut self.buffer,
        )?;
        self.read_buffer.consume(count);
        match write_out(out, self.buffer.as_slice()) {
            Ok(()) => Ok(()),
            Err(_) => Err(ClientSessionFault::Write),
        }
    }

    /// LOGIN, the requests in their order and LOGOUT, each behind the reply to the one before.
    fn exchange_frames<R: Read, W: Write, O: Write>(
        &mut self,
        requests: &[ClientRequest],
        reader: &mut R,
        writer: &mut W,
        out: &mut O,
    ) -> Result<(), ClientSessionFault>
        requires first_port { 1 ≤ self.old.nexus.port }
        requires last_port { self.old.nexus.port ≤ 4 }
        requires within { All (λ request. IsWithinLimits self.old.profile (request_value request)) requests.now }
        requires nothing_pending { self.old.read_buffer ≡ [] }
        requires room { reply_size_limit self.old.profile ≤ ROOM }
        ensures ok { OnOk result (Talks self.old.profile self.old.explanations (frames_of self.old.nexus (request_values requests.now))
            (streams (R.remaining reader.old) (W.contents writer.old) (O.contents out.old))
            (streams (R.remaining reader.new) (W.contents writer.new) (O.contents out.new)) self.new.read_buffer) }
        ensures err { IfErr result (λ fault. Breaks self.old.profile self.old.explanations self.old.nexus (request_values requests.now) fault
            (streams (R.remaining reader.old) (W.contents writer.old) (O.contents out.old))
            (streams (R.remaining reader.new) (W.contents writer.new) (O.contents out.new))) }
    {
        let login = FrameRef::Login { nexus: self.nexus };
        match self.exchange_frame(&login, reader, writer, out) {
            Ok(()) => {}
            Err(fault) => return Err(fault),
        }
        for request in requests {
            let frame = frame_of(request);
            match self.exchange_frame(&frame, reader, writer, out) {
                Ok(()) => {}
                Err(fault) => return Err(fault),
            }
        }
        let logout = FrameRef::Logout;
        self.exchange_frame(&logout, reader, writer, out)
    }
}

/// The session of requests that are within the limits, with a buffer of that size for what comes of replies.
fn send_requests<const ROOM: usize, R: Read, W: Write, O: Write>(
    alloc: Global,
    settings: HostSettings,
    read_buffer: ReadBuffer<ROOM>,
    requests: &[ClientRequest],
    reader: &mut R,
    writer: &mut W,
    out: &mut O,
) -> Result<(), ClientSessionFault>
    requires first_port { 1 ≤ settings.nexus.port }
    requires last_port { settings.nexus.port ≤ 4 }
    requires within { All (λ request. IsWithinLimits settings.profile (request_value request)) requests.now }
    requires empty { read_buffer ≡ [] }
    requires room { reply_size_limit settings.profile ≤ ROOM }
    ensures ok { OnOk result ((rest : List ℕ) × Talks settings.profile settings.explanations (frames_of settings.nexus (request_values requests.now))
        (streams (R.remaining reader.old) (W.contents writer.old) (O.contents out.old))
        (streams (R.remaining reader.new) (W.contents writer.new) (O.contents out.new)) rest) }
    ensures err { IfErr result (λ fault. Breaks settings.profile settings.explanations settings.nexus (request_values requests.now) fault
        (streams (R.remaining reader.old) (W.contents writer.old) (O.contents out.old))
        (streams (R.remaining reader.new) (W.contents writer.new) (O.contents out.new))) }
{
    let mut session = HostSession {
        nexus: settings.nexus,
        profile: settings.profile,
        explanations: settings.explanations,
        read_buffer,
        buffer: Vec::new(alloc),
        turns: settings.turns,
    };
    session.exchange_frames(requests, reader, writer, out)
}

/// A host's session: logs in as a nexus, sends the frames of a host's script one after another, each behind the reply to
/// the one before, writes a line for each reply, with one behind it that says it in words where those are wanted, and logs
/// out. A line is written and flushed as its reply comes, and is just what a replay writes for such a reply; a RESET's has a
/// status alone. The whole script is checked first, and the reader is read at most `settings.turns` times. The nexus has one of the
/// target ports 1 to 4.
///
/// `Line`: the first line with a fault; nothing was written or read. `Refused`: the nexus has a session already.
/// `BadReply`: what came is no reply, or one of another kind than what was sent has, or the stream ended before it.
/// `Read`: a read failed, or one more was needed than `settings.turns`. After these three just the frames up to the one without
/// its reply were sent, and just the lines of the replies before it were written. `Write`: a write failed, or a flush;
/// of how much it leaves written nothing is said. `NoMemory` may come at any time.
pub fn run_session<R: Read, W: Write, O: Write>(
    alloc: Global,
    settings: HostSettings,
    script: &[u8],
    reader: &mut R,
    writer: &mut W,
    out: &mut O,
) -> Result<(), ClientSessionFault>
    requires first_port { 1 ≤ settings.nexus.port }
    requires last_port { settings.nexus.port ≤ 4 }
    ensures ok { OnOk result (Converses settings.profile settings.explanations settings.nexus script.now
        (streams (R.remaining reader.old) (W.contents writer.old) (O.contents out.old))
        (streams (R.remaining reader.new) (W.contents writer.new) (O.contents out.new))) }
    ensures line { (n : ℕ) (f : LineFault) → result ≡ Err (ClientSessionFault.Line n f) → requests_in settings.profile script.now ≡ Err (n, f) }
    ensures before { (n : ℕ) (f : LineFault) → result ≡ Err (ClientSessionFault.Line n f) → Keeps (R.remaining reader.old) (R.remaining reader.new)
        × Keeps (W.contents writer.old) (W.contents writer.new) × Keeps (O.contents out.old) (O.contents out.new) }
    ensures session { IfErr result (λ fault. IsOfSession fault → BreaksWithin settings.profile settings.explanations settings.nexus script.now fault
        (streams (R.remaining reader.old) (W.contents writer.old) (O.contents out.old))
        (streams (R.remaining reader.new) (W.contents writer.new) (O.contents out.new))) }
{
    let requests = requests_of(alloc, settings.profile, script)?;
    let asked = requests.as_slice();
    match settings.profile {
        Profile::Spec => {
            let read_buffer: ReadBuffer<FRAME_BUFFER> = ReadBuffer::new(alloc)?;
            send_requests(alloc, settings, read_buffer, asked, reader, writer, out)
        }
        Profile::Hosts => {
            let read_buffer: ReadBuffer<HOSTS_FRAME_BUFFER> = ReadBuffer::new(alloc)?;
            send_requests(alloc, settings, read_buffer, asked, reader, writer, out)
        }
    }
}
