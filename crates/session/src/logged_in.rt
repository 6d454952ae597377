ghost use Rattle.std.specs.Prelude.{◌≡◌, ◌<◌, ◌≤◌, ◌⊎◌, ◌+◌, ◌*◌, Ok, OnOk, IfOk, IfErr, IsOkUnless, [], length, vec_len, vec_capacity, true, false};
ghost use Rattle.std.specs.Io.KnownBytes.{Appends};
ghost use Rattle.frames.specs.Limits.{frame_size_limit, reply_size_limit, longest_reply, frame_buffer_size};
ghost use Rattle.frames.specs.Frames.{parsed_frame, Partial};
ghost use Rattle.session.specs.Limits.{out_room};
ghost use Rattle.session.specs.Answering.{Answers, AnswersAll, AnswersOut, AnswersAllOut, ComesByCalls, HasRoom, state_of};
ghost use Rattle.session.specs.Faults.{IsOfStream};
ghost use Rattle.session.specs.Login.{ReadsAtMost};
ghost use Rattle.session.specs.Serving.{Writes, WritesAll, Converses, greeted};

use crate::answering::{AfterFrame, answer_frame};
use crate::fault::{End, SessionFault};
use crate::login::end_of;
use crate::service::Service;
use frames::{
    LENGTH_FIELD, LoginAnswer, ParsedFrame, ReplyFrame, most_reply, parse_frame, write_reply,
};
use read_buffer::ReadBuffer;
use scsi_cdb::Profile;
use scsi_nexus::Nexus;
use std::alloc::Global;
use std::io::{Read, Write};

/// How many bytes the largest reply frame has in a session of a library of a profile: past this the replies are written.
fn batch_size(profile: Profile) -> usize
    ensures value { result ≡ reply_size_limit profile }
    ensures within { result ≤ 4 + longest_reply }
{
    LENGTH_FIELD + most_reply(profile)
}

/// Room for what waits to be written and for the largest reply behind it, so that no reply takes memory.
pub(crate) fn room_for_replies(profile: Profile) -> usize
    ensures { result ≡ out_room profile }
{
    2 * batch_size(profile)
}

/// A session that is logged in.
#[derive(Drop)]
pub(crate) struct Session<const ROOM: usize> {
    pub(crate) nexus: Nexus,
    /// What has come and isn't answered yet.
    pub(crate) read_buffer: ReadBuffer<ROOM>,
    /// The replies that wait to be written.
    pub(crate) out: Vec<u8>,
}

/// Writes what was answered.
pub(crate) fn flush<W: Write>(out: &mut Vec<u8>, writer: &mut W) -> Result<(), SessionFault>
    ensures written { OnOk result (Appends (W.contents writer.old) (W.contents writer.new) out.old.items) }
    ensures empty { (out.new.items ≡ []) × (vec_len out.new ≡ 0) }
    ensures capacity { vec_capacity out.new ≡ vec_capacity out.old }
    ensures fault { IsOkUnless result SessionFault.Write }
{
    let written = writer.write_all(out.as_slice());
    out.clear();
    match written {
        Ok(()) => Ok(()),
        Err(_) => Err(SessionFault::Write),
    }
}

/// Why answering paused.
#[derive(Clone, Copy)]
enum Pause {
    /// No whole frame is left.
    NeedsInput,
    /// There are enough replies to be written.
    FlushDue,
    /// LOGOUT was answered.
    LoggedOut,
}

impl<const ROOM: usize> Session<ROOM> {
    /// Answers the frames that have come whole, in order, until there are enough replies to be written.
    fn answer_some<S: Service>(
        &mut self,
        alloc: Global,
        profile: Profile,
        service: &mut S,
    ) -> Result<Pause, SessionFault>
        requires { HasRoom profile (vec_len self.old.out) (vec_capacity self.old.out) }
        ensures capacity { vec_capacity self.old.out ≤ vec_capacity self.new.out }
        ensures waits { result ≡ Ok Pause.NeedsInput → vec_len self.new.out ≤ reply_size_limit profile }
        ensures fault { IfErr result IsOfStream }
        ensures calls { ComesByCalls S.notes self.old.nexus service.old service.new }
        ensures goes_on { (result ≡ Ok Pause.NeedsInput) ⊎ (result ≡ Ok Pause.FlushDue)
            → Answers profile S.notes service.old (state_of self.old) (state_of self.new) service.new }
        ensures dry { result ≡ Ok Pause.NeedsInput → (parsed_frame profile true self.new.read_buffer ≡ Partial) × (length self.new.read_buffer < frame_size_limit profile) }
        ensures full { result ≡ Ok Pause.FlushDue → length self.new.read_buffer < length self.old.read_buffer }
        ensures leaves { result ≡ Ok Pause.LoggedOut → AnswersAll profile S.notes service.old (state_of self.old) (state_of self.new) service.new }
    {
        let batch = batch_size(profile);
        'frames: loop {
            match parse_frame(profile, true, self.read_buffer.pending()) {
                ParsedFrame::Partial => return Ok(Pause::NeedsInput),
                ParsedFrame::Invalid(fault) => return Err(fault.into()),
                ParsedFrame::Complete(frame, count) => {
                    let next = answer_frame(
                        alloc,
                        profile,
                        service,
                        self.nexus,
                        frame,
                        &mut self.out,
                    )?;
                    self.read_buffer.consume(count);
                    match next {
                        AfterFrame::Frames => {}
                        AfterFrame::Nothing => return Ok(Pause::LoggedOut),
                        AfterFrame::Again => return Err(SessionFault::BadFrame),
                    }
                    if self.out.len() >= batch {
                        return Ok(Pause::FlushDue);
                    }
                }
            }
        }
    }

    /// Answers all frames that have come whole, and says whether the session goes on. Replies are written
    /// as soon as there are enough of them; others are left.
    fn answer_all<S: Service, W: Write>(
        &mut self,
        alloc: Global,
        profile: Profile,
        service: &mut S,
        writer: &mut W,
    ) -> Result<bool, SessionFault>
        requires { HasRoom profile (vec_len self.old.out) (vec_capacity self.old.out) }
        ensures capacity { vec_capacity self.old.out ≤ vec_capacity self.new.out }
        ensures fault { IfErr result IsOfStream }
        ensures calls { ComesByCalls S.notes self.old.nexus service.old service.new }
        ensures goes_on { result ≡ Ok true → AnswersOut profile S.notes service.old (state_of self.old)
            (W.contents writer.old) (W.contents writer.new) (state_of self.new) service.new }
        ensures dry { result ≡ Ok true → (parsed_frame profile true self.new.read_buffer ≡ Partial) × (length self.new.read_buffer < frame_size_limit profile) }
        ensures leaves { result ≡ Ok false → AnswersAllOut profile S.notes service.old (state_of self.old)
            (W.contents writer.old) (W.contents writer.new) (state_of self.new) service.new }
    {
        'batches: loop {
            match self.answer_some(alloc, profile, service)? {
                Pause::NeedsInput => return Ok(true),
                Pause::LoggedOut => return Ok(false),
                Pause::FlushDue => flush(&mut self.out, writer)?,
            }
        }
    }

    /// Answers all frames that have come whole, writes the replies, and says whether the session goes on. Replies to
    /// frames before a faulty one are written too.
    fn answer_and_write<S: Service, W: Write>(
        &mut self,
        alloc: Global,
        profile: Profile,
        service: &mut S,
        writer: &mut W,
    ) -> Result<bool, SessionFault>
        requires { HasRoom profile (vec_len self.old.out) (vec_capacity self.old.out) }
        ensures goes_on { result ≡ Ok true → Writes profile S.notes service.old (state_of self.old)
            (W.contents writer.old) (W.contents writer.new) (state_of self.new) service.new }
        ensures leaves { result ≡ Ok false → WritesAll profile S.notes service.old (state_of self.old)
            (W.contents writer.old) (W.contents writer.new) (state_of self.new) service.new }
        ensures written { self.new.out.items ≡ [] }
        ensures room { HasRoom profile (vec_len self.new.out) (vec_capacity self.new.out) }
        ensures fault { IfErr result IsOfStream }
        ensures calls { ComesByCalls S.notes self.old.nexus service.old service.new }
    {
        let came = self.answer_all(alloc, profile, service, writer);
        flush(&mut self.out, writer)?;
        came
    }

    /// Answers what is pending and what comes, until the session ends, by at most `turns` reads.
    fn serve_frames<S: Service, R: Read, W: Write>(
        &mut self,
        alloc: Global,
        profile: Profile,
        service: &mut S,
        reader: &mut R,
        writer: &mut W,
        turns: u64,
    ) -> Result<End, SessionFault>
        requires room { HasRoom profile (vec_len self.old.out) (vec_capacity self.old.out) }
        requires buffer { ROOM ≡ frame_buffer_size profile }
        ensures fault { IfErr result IsOfStream }
        ensures calls { ComesByCalls S.notes self.old.nexus service.old service.new }
        ensures reads { ReadsAtMost (turns * frame_buffer_size profile) (R.remaining reader.old) (R.remaining reader.new) }
        ensures talk { IfOk result (λ end. Converses profile S.notes service.old (state_of self.old) (R.remaining reader.old) (R.remaining reader.new)
            (W.contents writer.old) (W.contents writer.new) end self.new.read_buffer service.new) }
    {
        if !self.answer_and_write(alloc, profile, service, writer)? {
            return Ok(End::Logout);
        }
        'reads: for turn in 0..turns {
            match self.read_buffer.fill(reader) {
                Ok(0) => return Ok(end_of(self.read_buffer.pending())),
                Ok(_) => {}
                Err(_) => return Err(SessionFault::Read),
            }
            if !self.answer_and_write(alloc, profile, service, writer)? {
                return Ok(End::Logout);
            }
        }
        Err(SessionFault::Read)
    }

    /// Answers the LOGIN, and then what comes behind it.
    pub(crate) fn greet_and_serve<S: Service, R: Read, W: Write>(
        &mut self,
        alloc: Global,
        profile: Profile,
        service: &mut S,
        reader: &mut R,
        writer: &mut W,
        turns: u64,
    ) -> Result<End, SessionFault>
        requires empty { (self.old.out.items ≡ []) × (vec_len self.old.out ≡ 0) }
        requires room { out_room profile ≤ vec_capacity self.old.out }
        requires buffer { ROOM ≡ frame_buffer_size profile }
        ensures fault { IfErr result IsOfStream }
        ensures calls { ComesByCalls S.notes self.old.nexus service.old service.new }
        ensures reads { ReadsAtMost (turns * frame_buffer_size profile) (R.remaining reader.old) (R.remaining reader.new) }
        ensures talk { IfOk result (λ end. Converses profile S.notes service.old (greeted (state_of self.old)) (R.remaining reader.old) (R.remaining reader.new)
            (W.contents writer.old) (W.contents writer.new) end self.new.read_buffer service.new) }
    {
        write_reply(
            profile,
            &mut self.out,
            &ReplyFrame::Login(LoginAnswer::Accepted),
        )?;
        self.serve_frames(alloc, profile, service, reader, writer, turns)
    }
}
