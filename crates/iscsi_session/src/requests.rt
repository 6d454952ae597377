//! NOP-Out and logout, which concern no unit, and what is rejected.
ghost use Rattle.std.specs.Prelude.{◌≡◌, ◌≤◌, ◌++◌, true, false, List, length, take, IfErr, IfOk, OnOk};
ghost use Rattle.iscsi_answers.specs.Written.{bytes_of_all};
ghost use Rattle.iscsi_session.specs.Ends.{closes};
ghost use Rattle.iscsi_session.specs.Executing.{refusal};
ghost use Rattle.iscsi_session.specs.Saying.{AddsPlain, numbered};
ghost use Rattle.iscsi_session.specs.Talking.{must_wait};
ghost use Rattle.iscsi_session.specs.Faults.{IsInside};

use crate::connection::Connection;
use crate::fault::IscsiFault;
use iscsi_answers::{write_logout_response, write_nop_in, write_reject};
use iscsi_pdu::{
    BASIC_HEADER_SEGMENT, InitiatorHeader, LogoutReason, LogoutRequest, LogoutResult, NopOut,
    RESERVED_TAG, RejectReason, SerialNumber,
};
use iscsi_tasks::Tasks;

/// The bytes of a basic header segment (RFC 7143, "Basic Header Segment (BHS)").
pub(crate) type BasicHeader = [u8; BASIC_HEADER_SEGMENT];

/// Adds a Reject, with the header of the PDU that it is for.
pub(crate) fn reject(
    connection: &mut Connection<'_>,
    reason: RejectReason,
    header: &BasicHeader,
) -> Result<(), IscsiFault>
    ensures fault { IfErr result IsInside }
    ensures tasks { connection.new.tasks ≡ connection.old.tasks }
    ensures rejected { OnOk result (connection.new.out.items ≡ connection.old.out.items
        ++ bytes_of_all (refusal connection.old.tasks connection.old.stat_sn reason header.now)) }
{
    let numbers = connection.numbers();
    write_reject(&mut connection.out, numbers, reason, header)?;
    connection.has_answered();
    Ok(())
}

/// The basic header segment of a PDU, in its bytes.
pub(crate) fn basic_header(pdu: &[u8]) -> BasicHeader
    requires { 48 ≤ length pdu.now }
    ensures { result ≡ take 48 pdu.now }
{
    let mut header = [0; BASIC_HEADER_SEGMENT];
    header.copy_from_slice(&pdu[..BASIC_HEADER_SEGMENT]);
    header
}

/// Rejects a PDU by which the connection doesn't end.
pub(crate) fn turn_down(
    connection: &mut Connection<'_>,
    reason: RejectReason,
    header: &BasicHeader,
) -> Result<bool, IscsiFault>
    ensures stays { IfOk result (λ ends. ends ≡ false) }
    ensures fault { IfErr result IsInside }
    ensures tasks { connection.new.tasks ≡ connection.old.tasks }
    ensures said { OnOk result (AddsPlain connection.old.out.items connection.new.out.items) }
{
    reject(connection, reason, header)?;
    Ok(false)
}

/// Takes a PDU that has a number, and is for what there isn't here.
pub(crate) fn take_unsupported(
    connection: &mut Connection<'_>,
    immediate: bool,
    cmd_sn: SerialNumber,
    header: &BasicHeader,
) -> Result<bool, IscsiFault>
    ensures stays { IfOk result (λ ends. ends ≡ false) }
    ensures fault { IfErr result IsInside }
    ensures tasks { connection.new.tasks ≡ numbered connection.old.tasks immediate cmd_sn }
    ensures said { OnOk result (AddsPlain connection.old.out.items connection.new.out.items) }
{
    if !connection.tasks.take_number(immediate, cmd_sn) {
        return Ok(false);
    }
    turn_down(connection, RejectReason::CommandNotSupported, header)
}

/// Takes a NOP-Out: an answer to a ping of the target's own is not answered.
pub(crate) fn take_nop_out(
    connection: &mut Connection<'_>,
    nop_out: &NopOut,
    payload: &[u8],
) -> Result<bool, IscsiFault>
    ensures stays { IfOk result (λ ends. ends ≡ false) }
    ensures fault { IfErr result IsInside }
    ensures tasks { connection.new.tasks ≡ numbered connection.old.tasks nop_out.now.immediate nop_out.now.cmd_sn }
    ensures said { OnOk result (AddsPlain connection.old.out.items connection.new.out.items) }
{
    let is_taken = connection
        .tasks
        .take_number(nop_out.immediate, nop_out.cmd_sn);
    if !is_taken || nop_out.initiator_task_tag == RESERVED_TAG {
        return Ok(false);
    }
    let numbers = connection.numbers();
    let tag = nop_out.initiator_task_tag;
    write_nop_in(
        &mut connection.out,
        connection.limits,
        numbers,
        tag,
        payload,
    )?;
    connection.has_answered();
    Ok(false)
}

/// Whether a PDU waits until no reply is held: a logout does, so that the replies are sent before its answer.
pub(crate) fn must_wait(tasks: &Tasks, header: &InitiatorHeader) -> bool
    ensures { result ≡ must_wait tasks.now header.now }
{
    match header {
        InitiatorHeader::LogoutRequest(_) => !tasks.holds_none(),
        InitiatorHeader::ScsiCommand(_)
        | InitiatorHeader::DataOut(_)
        | InitiatorHeader::TaskManagementRequest(_)
        | InitiatorHeader::NopOut(_)
        | InitiatorHeader::TextRequest(_)
        | InitiatorHeader::LoginRequest(_)
        | InitiatorHeader::SnackRequest(_)
        | InitiatorHeader::Unknown(_) => false,
    }
}

/// Takes a logout, and says whether the connection ends.
pub(crate) fn take_logout(
    connection: &mut Connection<'_>,
    request: &LogoutRequest,
    header: &BasicHeader,
) -> Result<bool, IscsiFault>
    ensures ends { IfOk result (λ ends. ends ≡ true → closes request.now.reason ≡ true) }
    ensures fault { IfErr result IsInside }
    ensures tasks { connection.new.tasks ≡ numbered connection.old.tasks request.now.immediate request.now.cmd_sn }
    ensures said { OnOk result (AddsPlain connection.old.out.items connection.new.out.items) }
{
    if !connection
        .tasks
        .take_number(request.immediate, request.cmd_sn)
    {
        return Ok(false);
    }
    let result = match request.reason {
        LogoutReason::CloseTheSession => LogoutResult::Closed,
        LogoutReason::CloseTheConnection if request.cid == connection.cid => LogoutResult::Closed,
        LogoutReason::CloseTheConnection => LogoutResult::CidNotFound,
        LogoutReason::RemoveTheConnectionForRecovery => {
            LogoutResult::ConnectionRecoveryNotSupported
        }
        LogoutReason::Reserved => {
            return turn_down(connection, RejectReason::ProtocolError, header);
        }
    };
    let numbers = connection.numbers();
    write_logout_response(
        &mut connection.out,
        numbers,
        request.initiator_task_tag,
        result,
    )?;
    connection.has_answered();
    Ok(result == LogoutResult::Closed)
}
