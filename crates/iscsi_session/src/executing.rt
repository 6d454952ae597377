//! Commands: handed to their units, and answered.
ghost use Rattle.std.specs.Prelude.{◌≡◌, ◌<◌, ◌^◌, ◌++◌, ℕ, true, List, length, min, is_some, IfErr, OnOk};
ghost use Rattle.iscsi_pdu.specs.Pdus.{TargetPduValue};
ghost use Rattle.iscsi_answers.specs.Written.{bytes_of_all};
ghost use Rattle.iscsi_tasks.specs.Next.{next_of};
ghost use Rattle.iscsi_tasks.specs.Runs.{Answered, Commanded, DataCame, Held, stepped};
ghost use Rattle.iscsi_tasks.specs.declared.next_task.NextTask.TheVariants.{Idle};
ghost use Rattle.iscsi_session.specs.Faults.{IsInside};
ghost use Rattle.iscsi_session.specs.Executing.{Acts, Adds, Does, Executes, GoesOn, HasInHand, OrElse, Tells};
ghost use Rattle.iscsi_session.specs.Executing.{answer_to, data_of, demand, failure, held_reply, is_idle, next_outcome, outcome};

use crate::connection::Connection;
use crate::fault::IscsiFault;
use crate::keeping::KeepingService;
use crate::requests::{BasicHeader, reject};
use iscsi_answers::{
    AnsweredCommand, UnitAnswer, count_data_before, write_command_answer, write_data_before,
    write_ready_to_transfer,
};
use iscsi_pdu::{DataOut, ScsiCommand, unit_of};
use iscsi_tasks::{NextTask, TakenCommand, TakenData, TaskFault, TransferRequest, UnitReply};
use judgement::{Reply, absent};
use scsi_nexus::Nexus;
use scsi_sense::{Sense, Status};
use std::alloc::Global;
use tickets::ReplyTicket;

/// The sense key of a command that ends unexecuted since its data aren't right (SPC-4, "Sense key and additional sense code definitions").
const ABORTED_COMMAND: u8 = 0x0B;

/// Hands the command in hand to its unit with its data, and adds what answers it, or holds the reply until what it waits for is settled. A
/// command whose LUN is no unit's number is answered as a unit that doesn't exist answers it.
fn execute<S: KeepingService>(
    alloc: Global,
    service: &mut S,
    nexus: Nexus,
    connection: &mut Connection<'_>,
    command: &ScsiCommand,
    bytes: &[u8],
) -> Result<(), IscsiFault>
    requires { is_some connection.old.tasks.in_hand ≡ true }
    ensures fault { IfErr result IsInside }
    ensures executed { (said : List TargetPduValue)
        × Executes S.notes S.waits nexus service.old connection.old.tasks command.now bytes.now said connection.new.tasks service.new
        × Adds result connection.old.out.items connection.new.out.items said }
{
    match unit_of(command.lun) {
        Some(lun) => {
            let done = service.submit(alloc, nexus, lun, &command.cdb, bytes);
            let reply = &done.receipt().reply;
            match service.ticket_for(&done, bytes.len()) {
                Some(ticket) => {
                    hold_reply(connection, command, handed_over(bytes), reply, ticket)
                }
                None => answer_executed(connection, command, bytes, reply),
            }
        }
        None => {
            let reply = absent(alloc, &command.cdb);
            answer_executed(connection, command, bytes, &reply)
        }
    }
}

/// How many bytes of data a unit got, as answers tell it.
fn handed_over(bytes: &[u8]) -> u32
    ensures { result ≡ min (length bytes.now) 0xFFFFFFFF }
{
    bytes.len().min(u32::MAX as usize) as u32
}

/// Holds the reply to the command in hand, of whose data so many bytes were handed over, and adds the data that it has for the initiator: they
/// wait for nothing.
fn hold_reply(
    connection: &mut Connection<'_>,
    command: &ScsiCommand,
    handed_over: u32,
    reply: &Reply,
    ticket: ReplyTicket,
) -> Result<(), IscsiFault>
    requires { is_some connection.old.tasks.in_hand ≡ true }
    ensures fault { IfErr result IsInside }
    ensures tasks { connection.new.tasks ≡ stepped connection.old.tasks (Held (held_reply reply.now handed_over (length
        (data_of connection.old.tasks connection.old.limits connection.old.stat_sn command.now handed_over reply.now.payload))) ticket) }
    ensures said { OnOk result (connection.new.out.items ≡ connection.old.out.items
        ++ bytes_of_all (data_of connection.old.tasks connection.old.limits connection.old.stat_sn command.now handed_over reply.now.payload)) }
{
    let answered = AnsweredCommand::of(command, handed_over);
    let bytes = reply.payload.bytes();
    let (limits, numbers) = (connection.limits, connection.numbers());
    let data_ins = count_data_before(limits, numbers, answered, bytes);
    let held = reply_to_hold(reply, handed_over, data_ins);
    connection.tasks.hold(held, ticket);
    write_data_before(&mut connection.out, limits, numbers, answered, bytes)?;
    Ok(())
}

/// A reply behind its data, which go out in so many Data-In, as it is held.
fn reply_to_hold(reply: &Reply, handed_over: u32, data_ins: u32) -> UnitReply
    ensures { result ≡ held_reply reply.now handed_over data_ins }
{
    UnitReply {
        handed_over,
        status: reply.status,
        sense: reply.sense,
        data_length: reply.payload.bytes().len() as u32,
        data_ins,
    }
}

/// Adds what answers a command to which a unit that got these data has replied.
fn answer_executed(
    connection: &mut Connection<'_>,
    command: &ScsiCommand,
    bytes: &[u8],
    reply: &Reply,
) -> Result<(), IscsiFault>
    ensures fault { IfErr result IsInside }
    ensures tasks { connection.new.tasks ≡ stepped connection.old.tasks Answered }
    ensures answered { OnOk result (connection.new.out.items ≡ connection.old.out.items
        ++ bytes_of_all (answer_to connection.new.tasks connection.old.limits connection.old.stat_sn command.now
        (min (length bytes.now) 0xFFFFFFFF) reply.now.status reply.now.sense reply.now.payload)) }
{
    let answer = UnitAnswer {
        status: reply.status,
        sense: reply.sense,
        data: reply.payload.bytes(),
    };
    answer_command(connection, command, handed_over(bytes), &answer)
}

/// Adds what answers the command in hand, of whose data so many bytes were handed over. The answer has the numbers of the tasks without
/// it: it counts in the window no longer.
fn answer_command(
    connection: &mut Connection<'_>,
    command: &ScsiCommand,
    handed_over: u32,
    answer: &UnitAnswer<'_>,
) -> Result<(), IscsiFault>
    requires { length answer.now.data.now < 2 ^ 32 }
    ensures fault { IfErr result IsInside }
    ensures tasks { connection.new.tasks ≡ stepped connection.old.tasks Answered }
    ensures answered { OnOk result (connection.new.out.items ≡ connection.old.out.items
        ++ bytes_of_all (answer_to connection.new.tasks connection.old.limits connection.old.stat_sn command.now handed_over
        answer.now.status answer.now.sense answer.now.data.now)) }
{
    connection.tasks.answered();
    let answered = AnsweredCommand::of(command, handed_over);
    let numbers = connection.numbers();
    write_command_answer(
        &mut connection.out,
        connection.limits,
        numbers,
        answered,
        answer,
    )?;
    connection.has_answered();
    Ok(())
}

/// Answers a command that isn't executed, since its data aren't right.
fn fail(
    connection: &mut Connection<'_>,
    command: &ScsiCommand,
    fault: TaskFault,
) -> Result<(), IscsiFault>
    ensures fault { IfErr result IsInside }
    ensures tasks { connection.new.tasks ≡ stepped connection.old.tasks Answered }
    ensures failed { OnOk result (connection.new.out.items ≡ connection.old.out.items
        ++ bytes_of_all (failure connection.new.tasks connection.old.limits connection.old.stat_sn command.now fault)) }
{
    let (asc, ascq) = fault.additional_sense();
    let sense = Sense {
        key: ABORTED_COMMAND,
        asc,
        ascq,
        ..Sense::none()
    };
    let answer = UnitAnswer {
        status: Status::CheckCondition,
        sense: Some(sense),
        data: &[],
    };
    answer_command(connection, command, 0, &answer)
}

/// Asks for data.
fn ask(connection: &mut Connection<'_>, request: TransferRequest) -> Result<(), IscsiFault>
    ensures fault { IfErr result IsInside }
    ensures tasks { connection.new.tasks ≡ connection.old.tasks }
    ensures asked { OnOk result (connection.new.out.items ≡ connection.old.out.items
        ++ bytes_of_all (demand connection.old.tasks connection.old.stat_sn request)) }
{
    let numbers = connection.numbers();
    let ready = request.ready_to_transfer(numbers.stat_sn, numbers.exp_cmd_sn, numbers.max_cmd_sn);
    write_ready_to_transfer(&mut connection.out, ready)?;
    Ok(())
}

/// Does what is to be done next. What is handed out for that is in hand.
fn do_next<S: KeepingService>(
    alloc: Global,
    service: &mut S,
    nexus: Nexus,
    connection: &mut Connection<'_>,
    next: NextTask,
) -> Result<(), IscsiFault>
    requires { HasInHand (next_outcome next) connection.old.tasks }
    ensures fault { IfErr result IsInside }
    ensures done { (said : List TargetPduValue)
        × Does S.notes S.waits nexus service.old connection.old.tasks (next_outcome next) said connection.new.tasks service.new
        × Adds result connection.old.out.items connection.new.out.items said }
{
    match next {
        NextTask::Idle => Ok(()),
        NextTask::Execute(task) => {
            let command = task.command();
            execute(alloc, service, nexus, connection, &command, task.data())
        }
        NextTask::Ask(request) => ask(connection, request),
        NextTask::Fail(task, fault) => fail(connection, &task.command(), fault),
    }
}

/// Whether nothing is to be done next.
fn is_idle(next: &NextTask) -> bool
    ensures { result ≡ is_idle next.now }
{
    matches!(next, NextTask::Idle)
}

/// Goes on with the commands that wait, until they wait for PDUs.
pub(crate) fn go_on<S: KeepingService>(
    alloc: Global,
    service: &mut S,
    nexus: Nexus,
    connection: &mut Connection<'_>,
) -> Result<(), IscsiFault>
    ensures fault { IfErr result IsInside }
    ensures gone { (times : ℕ) × (said : List TargetPduValue)
        × GoesOn S.notes S.waits nexus times connection.old.tasks service.old said connection.new.tasks service.new
        × Adds result connection.old.out.items connection.new.out.items said }
    ensures idle { OnOk result (next_of connection.new.tasks ≡ Idle) }
{
    'steps: loop {
        let next = connection.tasks.next();
        if is_idle(&next) {
            return Ok(());
        }
        do_next(alloc, service, nexus, connection, next)?;
    }
}

/// Takes a SCSI Command: executes it at once, or once its turn has come and its data are there.
pub(crate) fn take_command<S: KeepingService>(
    alloc: Global,
    service: &mut S,
    nexus: Nexus,
    connection: &mut Connection<'_>,
    command: &ScsiCommand,
    header: &BasicHeader,
    payload: &[u8],
) -> Result<(), IscsiFault>
    ensures fault { IfErr result IsInside }
    ensures taken { OrElse result ((connection.new.tasks ≡ connection.old.tasks) × (service.new ≡ service.old))
        ((said : List TargetPduValue)
        × Acts S.notes S.waits nexus connection.old.tasks service.old (Commanded command.now payload.now) said connection.new.tasks service.new
        × Adds result connection.old.out.items connection.new.out.items said) }
{
    match connection.tasks.take_command(command, payload)? {
        TakenCommand::PassedOver => Ok(()),
        TakenCommand::Waits => Ok(()),
        TakenCommand::Rejected(reason) => reject(connection, reason, header),
        TakenCommand::Execute(count) => execute(
            alloc,
            service,
            nexus,
            connection,
            command,
            &payload[..count],
        ),
    }
}

/// Takes a Data-Out.
pub(crate) fn take_data(
    connection: &mut Connection<'_>,
    data_out: &DataOut,
    header: &BasicHeader,
    payload: &[u8],
) -> Result<(), IscsiFault>
    ensures fault { IfErr result IsInside }
    ensures taken { OrElse result (connection.new.tasks ≡ connection.old.tasks)
        ((said : List TargetPduValue) × (connection.new.tasks ≡ stepped connection.old.tasks (DataCame data_out.now payload.now))
        × Tells connection.new.tasks (outcome connection.old.tasks (DataCame data_out.now payload.now)) said
        × Adds result connection.old.out.items connection.new.out.items said) }
{
    match connection.tasks.take_data(data_out, payload)? {
        TakenData::Taken => Ok(()),
        TakenData::PassedOver => Ok(()),
        TakenData::Rejected(reason) => reject(connection, reason, header),
    }
}
