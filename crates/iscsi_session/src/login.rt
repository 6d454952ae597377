//! The login of a connection.
ghost use Rattle.std.specs.Prelude.{◌≡◌, List, [], ℕ, IfOk};
ghost use Rattle.std.specs.Io.KnownBytes.{Appends};
ghost use Rattle.iscsi_pdu.specs.declared.login_request.LoginRequest.{LoginRequest};
ghost use Rattle.iscsi_pdu.specs.declared.initiator_header.InitiatorHeader.TheVariants as sent;
ghost use Rattle.iscsi_login.specs.Exchanges.{taken};
ghost use Rattle.iscsi_session.specs.Ends.{end_of};
ghost use Rattle.iscsi_session.specs.Faults.{IsLater, IsOfReading};
ghost use Rattle.iscsi_session.specs.LoggingIn.{Exchanges, HasReached, LogsIn, UnlessRefused, WhereBegins, WhereBegun};

use crate::connection::flush;
use crate::fault::{IscsiEnd, IscsiFault};
use crate::pdu_buffer::PduBuffer;
use iscsi_keys::TARGET_MAX_RECV_DATA_SEGMENT_LENGTH;
use iscsi_login::{FullFeature, LoginExchange, LoginProgress, LoginTarget};
use iscsi_pdu::{
    InitiatorHeader, InitiatorPdu, LoginStatus, ParsedInitiatorPdu, parse_initiator_pdu,
};
use std::alloc::AllocError;
use std::io::{self, Read, Write};

/// What came of waiting for a login.
#[derive(Clone, Copy)]
pub(crate) enum LoginWait {
    /// A request asks for the last response. So many reads may follow.
    Begins { begun: FullFeature, turns: u64 },
    /// The end of input before that.
    Ended(IscsiEnd),
}

/// Takes one PDU of a login, and adds its answer.
fn take_pdu(
    target: &LoginTarget,
    exchange: &mut LoginExchange,
    pdu: &InitiatorPdu<'_>,
    out: &mut Vec<u8>,
) -> Result<LoginProgress, AllocError>
    ensures taken { IfOk result (λ progress. UnlessRefused progress ((request : LoginRequest)
        × (pdu.now.header ≡ sent.LoginRequest request)
        × (exchange.new ≡ taken exchange.old target.now request pdu.now.payload.now))) }
    ensures begins { IfOk result (λ progress. WhereBegins progress (HasReached exchange.new)) }
{
    match &pdu.header {
        InitiatorHeader::LoginRequest(request) => {
            exchange.take(target, request, pdu.payload, out)
        }
        _ => {
            exchange.refuse(LoginStatus::InvalidDuringLogin, out)?;
            Ok(LoginProgress::Refused(LoginStatus::InvalidDuringLogin))
        }
    }
}

/// Takes the PDUs that have come whole, up to one by which the login ends.
fn take_pdus(
    target: &LoginTarget,
    exchange: &mut LoginExchange,
    read_buffer: &mut PduBuffer,
    out: &mut Vec<u8>,
) -> Result<LoginProgress, IscsiFault>
    ensures taken { IfOk result (λ progress. UnlessRefused progress (Exchanges target.now exchange.old exchange.new read_buffer.old read_buffer.new)) }
    ensures begins { IfOk result (λ progress. WhereBegins progress (HasReached exchange.new)) }
{
    'pdus: loop {
        let pending = read_buffer.pending();
        match parse_initiator_pdu(TARGET_MAX_RECV_DATA_SEGMENT_LENGTH, pending) {
            ParsedInitiatorPdu::Partial(_) => return Ok(LoginProgress::Answered),
            ParsedInitiatorPdu::Invalid(fault) => return Err(fault.into()),
            ParsedInitiatorPdu::Complete(pdu, count) => {
                let progress = take_pdu(target, exchange, &pdu, out)?;
                read_buffer.consume(count);
                match progress {
                    LoginProgress::Answered => {}
                    LoginProgress::Begins(_) => return Ok(progress),
                    LoginProgress::Refused(_) => return Ok(progress),
                }
            }
        }
    }
}

/// Reads and answers requests until one asks for the last response, which is left to the caller, by at most `turns` reads. A login in
/// which nothing came for a while ends.
pub(crate) fn await_login<R: Read, W: Write>(
    target: &LoginTarget,
    exchange: &mut LoginExchange,
    read_buffer: &mut PduBuffer,
    out: &mut Vec<u8>,
    reader: &mut R,
    writer: &mut W,
    turns: u64,
) -> Result<LoginWait, IscsiFault>
    requires { read_buffer.old ≡ [] }
    ensures came { IfOk result (λ wait. WhereBegun wait (λ begun.
        LogsIn target.now exchange.old exchange.new (R.remaining reader.old) (R.remaining reader.new) read_buffer.new)) }
    ensures begins { IfOk result (λ wait. WhereBegun wait (HasReached exchange.new)) }
    ensures written { IfOk result (λ wait. WhereBegun wait (λ begun. (told : List ℕ) × Appends (W.contents writer.old) (W.contents writer.new) told)) }
{
    'reads: for turn in 0..turns {
        match read_buffer.fill(reader) {
            Ok(0) => return Ok(LoginWait::Ended(end_of(read_buffer.pending()))),
            Ok(_) => {}
            Err(error) => return Err(read_fault(&error)),
        }
        match take_pdus(target, exchange, read_buffer, out)? {
            LoginProgress::Answered => flush(out, writer)?,
            LoginProgress::Begins(begun) => {
                let turns = turns - turn - 1;
                return Ok(LoginWait::Begins { begun, turns });
            }
            LoginProgress::Refused(status) => {
                flush(out, writer)?;
                return Err(IscsiFault::Refused(status));
            }
        }
    }
    Err(IscsiFault::Read)
}

/// What a read that failed says of its connection.
pub(crate) fn read_fault(error: &io::Error) -> IscsiFault
    ensures later { IsLater result }
    ensures reading { IsOfReading result }
{
    match error.kind() {
        io::ErrorKind::WouldBlock | io::ErrorKind::TimedOut => IscsiFault::Silent,
        _ => IscsiFault::Read,
    }
}

/// How the end of input ends a connection: between PDUs, or within one.
pub(crate) fn end_of(pending: &[u8]) -> IscsiEnd
    ensures { result ≡ end_of pending.now }
{
    if pending.is_empty() {
        IscsiEnd::Closed
    } else {
        IscsiEnd::Cut
    }
}
