//! One PDU of a connection in full feature, answered.
ghost use Rattle.std.specs.Prelude.{◌≡◌, true, List, IfErr, IfOk, OnOk};
ghost use Rattle.iscsi_session.specs.Ends.{is_closing};
ghost use Rattle.iscsi_pdu.specs.Pdus.{TargetPduValue};
ghost use Rattle.iscsi_pdu.specs.Views.{initiator_value};
ghost use Rattle.iscsi_tasks.specs.Next.{next_of};
ghost use Rattle.iscsi_tasks.specs.declared.next_task.NextTask.TheVariants.{Idle};
ghost use Rattle.iscsi_session.specs.Faults.{IsInside};
ghost use Rattle.iscsi_session.specs.Executing.{Adds, OrElse};
ghost use Rattle.iscsi_session.specs.Saying.{Says};

use crate::connection::Connection;
use crate::fault::IscsiFault;
use crate::kinds::SessionKind;
use crate::register::SessionRegister;
use crate::requests::{BasicHeader, take_logout, take_nop_out, take_unsupported, turn_down};
use crate::texts::take_text;
use iscsi_pdu::RejectReason::{ProtocolError, SnackReject};
use iscsi_pdu::{InitiatorHeader, InitiatorPdu};
use std::alloc::Global;

/// Answers one PDU, whose basic header segment is handed in too, and says whether the connection ends by it.
pub(crate) fn answer<S, K: SessionKind<S>, G: SessionRegister>(
    kind: K,
    alloc: Global,
    service: &mut S,
    register: &G,
    connection: &mut Connection<'_>,
    pdu: &InitiatorPdu<'_>,
    header: &BasicHeader,
) -> Result<bool, IscsiFault>
    ensures fault { IfErr result IsInside }
    ensures ends { IfOk result (λ ends. ends ≡ true → is_closing pdu.now.header ≡ true) }
    ensures said { OrElse result ((connection.new.tasks ≡ connection.old.tasks) × (service.new ≡ service.old))
        ((said : List TargetPduValue)
        × Says (K.works kind) (initiator_value pdu.now) connection.old.tasks service.old said connection.new.tasks service.new
        × Adds result connection.old.out.items connection.new.out.items said) }
    ensures idle { next_of connection.old.tasks ≡ Idle → OnOk result (next_of connection.new.tasks ≡ Idle) }
{
    let payload = pdu.payload;
    match &pdu.header {
        InitiatorHeader::ScsiCommand(command) => {
            kind.take_command(alloc, service, connection, command, header, payload)
        }
        InitiatorHeader::DataOut(data_out) => {
            kind.take_data(alloc, service, connection, data_out, header, payload)
        }
        InitiatorHeader::TaskManagementRequest(request) => {
            kind.take_management(alloc, service, register, connection, request, header)
        }
        InitiatorHeader::NopOut(nop_out) => take_nop_out(connection, nop_out, payload),
        InitiatorHeader::TextRequest(request) => {
            take_text(connection, K::SESSION_TYPE, request, header, payload)
        }
        InitiatorHeader::LogoutRequest(request) => take_logout(connection, request, header),
        InitiatorHeader::Unknown(request) => {
            take_unsupported(connection, request.immediate, request.cmd_sn, header)
        }
        InitiatorHeader::LoginRequest(_) => turn_down(connection, ProtocolError, header),
        InitiatorHeader::SnackRequest(_) => turn_down(connection, SnackReject, header),
    }
}
