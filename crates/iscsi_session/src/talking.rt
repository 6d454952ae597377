//! A connection in full feature, from what is pending behind its login to its end.
ghost use Rattle.std.specs.Prelude.{◌≡◌, ◌⊎◌, ◌<◌, ℕ, [], List, true, false, length, IfErr, IfSome, Ok, OnErr, OnOk};
ghost use Rattle.std.specs.Io.KnownBytes.{IsAtEnd};
ghost use Rattle.iscsi_keys.specs.Limits.{segment_limit};
ghost use Rattle.iscsi_pdu.specs.Pdus.{TargetPduValue, parsed_initiator};
ghost use Rattle.iscsi_tasks.specs.Next.{next_of};
ghost use Rattle.iscsi_tasks.specs.declared.next_task.NextTask.TheVariants.{Idle};
ghost use Rattle.iscsi_session.specs.Ends.{EndIs};
ghost use Rattle.iscsi_session.specs.Faults.{IsInside, IsLater, IsOfReading};
ghost use Rattle.iscsi_session.specs.Limits.{pdu_buffer_size};
ghost use Rattle.iscsi_session.specs.Talking.{IsPinged, MayAsk};
ghost use Rattle.read_buffer.specs.Reading.{Added};

use crate::answering::answer;
use crate::connection::{Connection, flush};
use crate::fault::{IscsiEnd, IscsiFault};
use crate::kinds::SessionKind;
use crate::login::{end_of, read_fault};
use crate::pdu_buffer::{BATCH, PduBuffer};
use crate::register::SessionRegister;
use crate::releasing::release;
use crate::requests::{basic_header, must_wait};
use iscsi_answers::{seconds_to_leave, write_leave_request, write_ping};
use iscsi_keys::TARGET_MAX_RECV_DATA_SEGMENT_LENGTH;
use iscsi_pdu::{ParsedInitiatorPdu, parse_initiator_pdu};
use std::alloc::Global;
use std::io::{self, Read, Write};

/// Room for what waits to be written and for the data of a command behind it, in PDUs.
pub(crate) const ROOM: usize = 3 * BATCH;

/// The target transfer tag of pings.
const PING_TAG: u32 = 0;

/// Why answering paused.
#[derive(Clone, Copy)]
enum Pause {
    /// No whole PDU is left, or the first of them is a logout that waits for replies that are held.
    NeedsInput,
    /// There are enough answers to be written.
    FlushDue,
    /// A logout was answered.
    LoggedOut,
}

/// Within how many seconds all sessions are to end, where a logout is to be asked for: once.
fn time_to_leave<G: SessionRegister>(register: &G, is_asked: bool) -> Option<u16>
    ensures { IfSome result (λ seconds. (is_asked ≡ false) × G.ends register.now seconds) }
{
    seconds_to_leave(register.ends_within(), is_asked)
}

/// Asks for a logout where all sessions are to end, unless it was asked for before.
fn ask_to_leave<G: SessionRegister>(
    register: &G,
    connection: &mut Connection<'_>,
    is_asked: &mut bool,
) -> Result<(), IscsiFault>
    ensures fault { IfErr result IsInside }
    ensures tasks { connection.new.tasks ≡ connection.old.tasks }
    ensures asks { OnOk result (MayAsk (G.ends register.now) connection.old.tasks is_asked.old is_asked.new
        connection.old.out.items connection.new.out.items) }
{
    match time_to_leave(register, *is_asked) {
        Some(seconds) => {
            let numbers = connection.numbers();
            write_leave_request(&mut connection.out, numbers, seconds)?;
            connection.has_answered();
            *is_asked = true;
            Ok(())
        }
        None => Ok(()),
    }
}

/// How the end of input ends a connection in full feature: between PDUs too where a whole one, a logout, still waits.
fn end_behind(pending: &[u8]) -> IscsiEnd
    ensures { EndIs result pending.now (parsed_initiator segment_limit pending.now) }
{
    match parse_initiator_pdu(TARGET_MAX_RECV_DATA_SEGMENT_LENGTH, pending) {
        ParsedInitiatorPdu::Complete(_, _) => IscsiEnd::Closed,
        ParsedInitiatorPdu::Partial(_) | ParsedInitiatorPdu::Invalid(_) => end_of(pending),
    }
}

/// A session in full feature, of the type `K`.
#[derive(Drop)]
pub(crate) struct Session<'p, K> {
    pub(crate) kind: K,
    pub(crate) connection: Connection<'p>,
    /// The bytes of which no PDU was made yet.
    pub(crate) read_buffer: PduBuffer,
}

impl<'p, K> Session<'p, K> {
    ghost use Rattle.iscsi_session.specs.Moments.{Advances, moment};
    ghost use Rattle.iscsi_session.specs.Ends.{BranchFits, EndFits};
    ghost use Rattle.iscsi_session.specs.Talking.{Answers, Converses, Writes, pdus_of};
    ghost use Rattle.iscsi_session.specs.Worlds.{world};

    /// Answers the PDUs that have come whole, in order, until there are enough answers to be written.
    fn answer_pending<S, G: SessionRegister>(
        &mut self,
        alloc: Global,
        service: &mut S,
        register: &G,
    ) -> Result<Pause, IscsiFault>
    where
        K: SessionKind<S>,
        requires { next_of self.old.connection.tasks ≡ Idle }
        ensures kind { self.new.kind ≡ self.old.kind }
        ensures fault { IfErr result IsLater }
        ensures full { result ≡ Ok Pause.FlushDue → length self.new.read_buffer < length self.old.read_buffer }
        ensures talks { Advances (world (K.works self.old.kind) (K.takes_resets self.old.kind) (G.resets register.now) (G.ends register.now) (G.settles register.now))
            result (moment self.old service.old) (moment self.new service.new) }
        ensures idle { OnOk result (next_of self.new.connection.tasks ≡ Idle) }
    {
        'pdus: loop {
            let pending = self.read_buffer.pending();
            match parse_initiator_pdu(TARGET_MAX_RECV_DATA_SEGMENT_LENGTH, pending) {
                ParsedInitiatorPdu::Partial(_) => return Ok(Pause::NeedsInput),
                ParsedInitiatorPdu::Invalid(fault) => return Err(fault.into()),
                ParsedInitiatorPdu::Complete(pdu, count) => {
                    if must_wait(&self.connection.tasks, &pdu.header) {
                        return Ok(Pause::NeedsInput);
                    }
                    let kind = self.kind;
                    let header = basic_header(pending);
                    let connection = &mut self.connection;
                    let ends = answer(kind, alloc, service, register, connection, &pdu, &header)?;
                    self.read_buffer.consume(count);
                    if ends {
                        return Ok(Pause::LoggedOut);
                    }
                    if self.connection.out.len() >= BATCH {
                        return Ok(Pause::FlushDue);
                    }
                }
            }
        }
    }

    /// Takes the resets by other sessions, sends the replies that are held no longer, and answers the PDUs that have come whole until there are
    /// enough answers.
    fn answer_batch<S, G: SessionRegister>(
        &mut self,
        alloc: Global,
        service: &mut S,
        register: &G,
    ) -> Result<Pause, IscsiFault>
    where
        K: SessionKind<S>,
        requires { next_of self.old.connection.tasks ≡ Idle }
        ensures kind { self.new.kind ≡ self.old.kind }
        ensures fault { IfErr result IsLater }
        ensures full { result ≡ Ok Pause.FlushDue → length self.new.read_buffer < length self.old.read_buffer }
        ensures talks { Advances (world (K.works self.old.kind) (K.takes_resets self.old.kind) (G.resets register.now) (G.ends register.now) (G.settles register.now))
            result (moment self.old service.old) (moment self.new service.new) }
        ensures idle { OnOk result (next_of self.new.connection.tasks ≡ Idle) }
    {
        self.kind
            .take_resets(alloc, service, register, &mut self.connection)?;
        release(register, &mut self.connection)?;
        self.answer_pending(alloc, service, register)
    }

    /// Answers all PDUs that have come whole, writes the answers, and says whether the connection goes on.
    fn answer_all<S, G: SessionRegister, W: Write>(
        &mut self,
        alloc: Global,
        service: &mut S,
        register: &G,
        writer: &mut W,
    ) -> Result<bool, IscsiFault>
    where
        K: SessionKind<S>,
        requires { next_of self.old.connection.tasks ≡ Idle }
        ensures kind { self.new.kind ≡ self.old.kind }
        ensures fault { IfErr result IsLater }
        ensures talks { (said : List TargetPduValue) × (rest : List ℕ) × (answers : Answers
            (world (K.works self.old.kind) (K.takes_resets self.old.kind) (G.resets register.now) (G.ends register.now) (G.settles register.now))
            0 (moment self.old service.old) said (moment self.new service.new) rest)
            × OnOk result ((rest ≡ self.new.read_buffer) × Writes (W.contents writer.old) (W.contents writer.new)
            self.old.connection.out.items self.new.connection.out.items said)
            × BranchFits result (pdus_of answers.events) self.new.connection.tasks rest }
        ensures idle { OnOk result (next_of self.new.connection.tasks ≡ Idle) }
        ensures empty { self.new.connection.out.items ≡ [] }
    {
        'batches: loop {
            let pause = self.answer_batch(alloc, service, register);
            flush(&mut self.connection.out, writer)?;
            match pause? {
                Pause::NeedsInput => return Ok(true),
                Pause::LoggedOut => return Ok(false),
                Pause::FlushDue => {}
            }
        }
    }

    /// Reads once, and says whether that shows the end of input. Where nothing came for a while it adds a ping, once; where nothing came
    /// for another the connection ends. A read that was interrupted shows nothing, but for a command number
    /// that hasn't come while others behind it have.
    fn read_on<G: SessionRegister, R: Read>(
        &mut self,
        register: &G,
        reader: &mut R,
        is_pinged: &mut bool,
    ) -> Result<bool, IscsiFault>
        ensures kind { self.new.kind ≡ self.old.kind }
        ensures fault { IfErr result IsLater }
        ensures broke { IfErr result IsOfReading }
        ensures nothing { OnErr result (self.new.read_buffer ≡ self.old.read_buffer) }
        ensures ended { result ≡ Ok true → (self.new.read_buffer ≡ self.old.read_buffer)
            × (length self.old.read_buffer < pdu_buffer_size → IsAtEnd (R.remaining reader.new)) }
        ensures tasks { self.new.connection.tasks ≡ self.old.connection.tasks }
        ensures reads { Added self.old.read_buffer self.new.read_buffer (R.remaining reader.old) (R.remaining reader.new) }
        ensures pings { OnOk result ((self.new.connection.out.items ≡ self.old.connection.out.items)
            ⊎ IsPinged self.old.connection.tasks self.old.connection.out.items self.new.connection.out.items) }
    {
        match self.read_buffer.fill(reader) {
            Ok(count) => {
                *is_pinged = false;
                Ok(count == 0)
            }
            Err(error) => {
                if matches!(error.kind(), io::ErrorKind::Interrupted) {
                    register.note_missing(self.connection.tasks.missing_number());
                    return Ok(false);
                }
                if read_fault(&error) != IscsiFault::Silent || *is_pinged {
                    return Err(read_fault(&error));
                }
                let numbers = self.connection.numbers();
                write_ping(&mut self.connection.out, numbers, PING_TAG)?;
                *is_pinged = true;
                Ok(false)
            }
        }
    }

    /// Answers what is pending and what comes, until the connection ends, by at most `turns` reads. Once all sessions are to end a logout
    /// is asked for, and what comes is answered as before.
    pub(crate) fn serve_requests<S, G: SessionRegister, R: Read, W: Write>(
        &mut self,
        alloc: Global,
        service: &mut S,
        register: &G,
        reader: &mut R,
        writer: &mut W,
        turns: u64,
    ) -> Result<IscsiEnd, IscsiFault>
    where
        K: SessionKind<S>,
        requires { next_of self.old.connection.tasks ≡ Idle }
        ensures kind { self.new.kind ≡ self.old.kind }
        ensures fault { IfErr result IsLater }
        ensures talks { (said : List TargetPduValue) × (rest : List ℕ) × (all : Converses
            (world (K.works self.old.kind) (K.takes_resets self.old.kind) (G.resets register.now) (G.ends register.now) (G.settles register.now))
            1 (moment self.old service.old) (R.remaining reader.old) (R.remaining reader.new)
            said (moment self.new service.new) rest)
            × OnOk result (Writes (W.contents writer.old) (W.contents writer.new) self.old.connection.out.items [] said)
            × EndFits result (pdus_of all.2.events) self.new.connection.tasks rest (R.remaining reader.new) }
        ensures idle { OnOk result (next_of self.new.connection.tasks ≡ Idle) }
    {
        let mut is_pinged = false;
        let mut is_asked = false;
        let mut left = turns;
        'turns: loop {
            if !self.answer_all(alloc, service, register, writer)? {
                return Ok(IscsiEnd::Logout);
            }
            if left == 0 {
                return Err(IscsiFault::Read);
            }
            left -= 1;
            if self.read_on(register, reader, &mut is_pinged)? {
                return Ok(end_behind(self.read_buffer.pending()));
            }
            ask_to_leave(register, &mut self.connection, &mut is_asked)?;
        }
    }
}
