ghost use Rattle.std.specs.Prelude.{◌≡◌, List, [], ◌∷◌, true, replicate, Some, None};
ghost use Rattle.logical_unit.specs.Answers as event;
ghost use Rattle.iscsi_pdu.specs.Luns.{unit_of};
ghost use Rattle.iscsi_pdu.specs.declared.reject_reason.RejectReason.TheVariants.{InvalidPduField};
ghost use Rattle.iscsi_tasks.specs.Rows.{data_out, tagged, write};
ghost use Rattle.iscsi_tasks.specs.Runs.{AskedNext, Commanded, DataCame, executed, run};
ghost use Rattle.iscsi_session.specs.Executing.{Execute, Nothing, Reject, outcome};
ghost use Rattle.iscsi_session.specs.Handing.{brought, brought_in, handed};
ghost use Rattle.iscsi_session.specs.Limits.{pdu_buffer_size, out_room};
ghost use Rattle.iscsi_session.specs.Managing.{unit_below};
ghost use Rattle.iscsi_session.specs.Rows.{command_pdu, data_pdu, expecting, halves, waiting};
ghost use Rattle.iscsi_session.specs.Talking.{Came, Silence};

use crate::pdu_buffer::PDU_BUFFER;
use crate::talking::ROOM;

/// Worked rows: how much room a connection makes, for PDUs and for its answers.
pub fn room_rows() -> (usize, usize)
    ensures made { result ≡ (pdu_buffer_size, out_room) }
    ensures pdus { pdu_buffer_size ≡ 327680 }
    ensures answers { out_room ≡ 196608 }
{
    (PDU_BUFFER, ROOM)
}

/// Worked rows: what comes of a write that is expected, with its data or before they are there, of one that isn't, or that comes
/// while 32 wait and the window is closed, and of data for no task.
pub fn outcome_rows()
    ensures at_once { outcome (expecting 1) (Commanded (write 2 true) (7 ∷ 8 ∷ [])) ≡ Execute (write 2 true) (7 ∷ 8 ∷ []) }
    ensures waits { outcome (expecting 1) (Commanded (write 4 true) (7 ∷ 8 ∷ [])) ≡ Nothing }
    ensures passed_over { outcome (expecting 2) (Commanded (write 2 true) (7 ∷ 8 ∷ [])) ≡ Nothing }
    ensures closed { outcome (waiting 32) (Commanded (tagged 2 (write 2 true)) (7 ∷ 8 ∷ [])) ≡ Nothing }
    ensures no_task { outcome (expecting 1) (DataCame (data_out 0 0 2 true) (9 ∷ 10 ∷ [])) ≡ Reject InvalidPduField }
    ensures last { outcome
        (run (expecting 1) (Commanded (write 4 true) (7 ∷ 8 ∷ []) ∷ (AskedNext ∷ (DataCame (data_out 0 0 2 true) (9 ∷ 10 ∷ []) ∷ []))))
        AskedNext ≡ Execute (write 4 true) (7 ∷ (8 ∷ (9 ∷ (10 ∷ [])))) }
{}

ghost use Rattle.iscsi_session.specs.Handing.{call_for};

/// Worked rows: a write whose data come in two halves is handed over once, to the unit of its LUN, with both. A command whose LUN has another
/// form than a unit's number, as that of the logical unit addressing method, is handed to none.
pub fn handing_rows()
    ensures brought { brought halves ≡ brought_in (Came command_pdu ∷ (Silence ∷ (Came data_pdu ∷ []))) }
    ensures handed { handed (executed (expecting 1) halves) ≡ (0, event.Command (replicate 16 0) (7 ∷ (8 ∷ (9 ∷ (10 ∷ []))))) ∷ [] }
    ensures other_form { call_for (unit_of 0x8002000000000000) (replicate 16 0) [] ≡ [] }
    ensures unit { unit_below 3 (unit_of 0x0002000000000000) ≡ Some 2 }
    ensures no_unit { unit_below 3 (unit_of 0x0003000000000000) ≡ None }
{}

ghost use Rattle.std.specs.Prelude.{false};
ghost use Rattle.iscsi_pdu.specs.declared.task_management_result.TaskManagementResult.TheVariants.{FunctionComplete, FunctionRejected, LunDoesNotExist};
ghost use Rattle.iscsi_session.specs.Ends.{end_of, ends_by_logout};
ghost use Rattle.iscsi_session.specs.Managing.{told_of_all};
ghost use Rattle.iscsi_session.specs.Rows.{logout_pdu};
ghost use Rattle.iscsi_session.specs.declared.fault.IscsiEnd.TheVariants.{Closed, Cut};

/// Worked rows: how a reset of all units is told, by how those before the last one were and how that one ended.
pub fn reset_rows()
    ensures each { told_of_all FunctionComplete FunctionComplete ≡ FunctionComplete }
    ensures last { told_of_all FunctionComplete FunctionRejected ≡ FunctionRejected }
    ensures before { told_of_all FunctionRejected FunctionComplete ≡ FunctionRejected }
    ensures both { told_of_all FunctionRejected LunDoesNotExist ≡ LunDoesNotExist }
{}

/// Worked rows: by which logouts a session ends, those of the session, 0, and of the connection, 1, where they are the last PDU; and what the end of
/// input is by what is left.
pub fn ending_rows()
    ensures session { ends_by_logout (command_pdu ∷ (logout_pdu 0 ∷ [])) ≡ true }
    ensures connection { ends_by_logout (command_pdu ∷ (logout_pdu 1 ∷ [])) ≡ true }
    ensures for_recovery { ends_by_logout (command_pdu ∷ (logout_pdu 2 ∷ [])) ≡ false }
    ensures not_last { ends_by_logout (logout_pdu 0 ∷ (command_pdu ∷ [])) ≡ false }
    ensures none { ends_by_logout [] ≡ false }
    ensures between { end_of [] ≡ Closed }
    ensures within { end_of (0x01 ∷ []) ≡ Cut }
{}
