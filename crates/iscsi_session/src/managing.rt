//! Task management (RFC 7143, "Task Management Function Request").
ghost use Rattle.std.specs.Prelude.{◌≡◌, List, IfErr, Some};
ghost use Rattle.iscsi_pdu.specs.Pdus.{TargetPduValue};
ghost use Rattle.iscsi_pdu.specs.Luns as luns;
ghost use Rattle.iscsi_tasks.specs.Aborts.{without_task};
ghost use Rattle.iscsi_session.specs.Faults.{IsInside};
ghost use Rattle.iscsi_session.specs.Executing.{Adds};
ghost use Rattle.iscsi_session.specs.Managing.{AbortsTask, AbortsTaskSet, Manages, ManagesTasks, Resets, ResetsBelow, ResetsUnit};
ghost use Rattle.iscsi_session.specs.Managing.{abort_result, reset_result, unit_below};

use crate::connection::Connection;
use crate::fault::IscsiFault;
use crate::register::SessionRegister;
use iscsi_answers::write_task_management_response;
use iscsi_pdu::{TaskManagementFunction, TaskManagementRequest, TaskManagementResult, unit_of};
use iscsi_tasks::Tasks;
use scsi_sense::Status;
use session::Service;
use std::alloc::Global;

/// Takes a task management request, and adds its answer.
pub(crate) fn manage<S: Service, G: SessionRegister>(
    alloc: Global,
    service: &mut S,
    register: &G,
    connection: &mut Connection<'_>,
    request: &TaskManagementRequest,
) -> Result<(), IscsiFault>
    ensures fault { IfErr result IsInside }
    ensures managed { (said : List TargetPduValue)
        × ManagesTasks S.notes S.count request.now connection.old.tasks service.old said connection.new.tasks service.new
        × Adds result connection.old.out.items connection.new.out.items said }
{
    if !connection
        .tasks
        .take_number(request.immediate, request.cmd_sn)
    {
        return Ok(());
    }
    let result = result_of(alloc, service, register, &mut connection.tasks, request);
    let numbers = connection.numbers();
    write_task_management_response(
        &mut connection.out,
        numbers,
        request.initiator_task_tag,
        result,
    )?;
    connection.has_answered();
    Ok(())
}

/// Does what a task management function asks for, and says how that ended.
fn result_of<S: Service, G: SessionRegister>(
    alloc: Global,
    service: &mut S,
    register: &G,
    tasks: &mut Tasks,
    request: &TaskManagementRequest,
) -> TaskManagementResult
    ensures managed { Manages S.notes (S.count service.old) request.now tasks.old service.old request.now.function
        tasks.new service.new result }
{
    let unit = unit_below(service.units(), unit_of(request.lun));
    match request.function {
        TaskManagementFunction::AbortTask => abort_task(tasks, request.referenced_task_tag, unit),
        TaskManagementFunction::AbortTaskSet => abort_task_set(tasks, unit),
        TaskManagementFunction::LogicalUnitReset => {
            reset_unit(alloc, service, register, tasks, unit)
        }
        TaskManagementFunction::TargetWarmReset => reset_all(alloc, service, register, tasks),
        TaskManagementFunction::TaskReassign => {
            TaskManagementResult::TaskAllegianceReassignmentNotSupported
        }
        TaskManagementFunction::ClearAca => TaskManagementResult::FunctionNotSupported,
        TaskManagementFunction::ClearTaskSet => TaskManagementResult::FunctionNotSupported,
        TaskManagementFunction::TargetColdReset => TaskManagementResult::FunctionNotSupported,
        TaskManagementFunction::Reserved => TaskManagementResult::FunctionNotSupported,
    }
}

/// The unit that a LUN names, where it is one of so many.
fn unit_below(units: u8, named: Option<u8>) -> Option<u8>
    ensures { result ≡ unit_below units named }
{
    match named {
        Some(unit) if unit < units => Some(unit),
        _ => None,
    }
}

fn abort_task(tasks: &mut Tasks, tag: u32, unit: Option<u8>) -> TaskManagementResult
    ensures { AbortsTask tasks.old tag unit tasks.new result }
{
    match unit {
        Some(unit) => abort_task_at(tasks, tag, unit),
        None => TaskManagementResult::LunDoesNotExist,
    }
}

/// Ends a task, and says whether it was there. One that a reset by another session has dropped has ended already.
fn abort_task_at(tasks: &mut Tasks, tag: u32, unit: u8) -> TaskManagementResult
    ensures tasks { tasks.new ≡ without_task tasks.old unit tag }
    ensures result { result ≡ abort_result tasks.old unit tag }
{
    let was_reset = tasks.was_reset(unit, tag);
    if tasks.abort_task(unit, tag) || was_reset {
        TaskManagementResult::FunctionComplete
    } else {
        TaskManagementResult::TaskDoesNotExist
    }
}

fn abort_task_set(tasks: &mut Tasks, unit: Option<u8>) -> TaskManagementResult
    ensures { AbortsTaskSet tasks.old unit tasks.new result }
{
    match unit {
        Some(unit) => {
            tasks.drop_unit(unit);
            TaskManagementResult::FunctionComplete
        }
        None => TaskManagementResult::LunDoesNotExist,
    }
}

fn reset_unit<S: Service, G: SessionRegister>(
    alloc: Global,
    service: &mut S,
    register: &G,
    tasks: &mut Tasks,
    unit: Option<u8>,
) -> TaskManagementResult
    ensures { ResetsUnit S.notes tasks.old service.old unit tasks.new service.new result }
{
    match unit {
        Some(unit) => {
            tasks.drop_unit(unit);
            reset(alloc, service, register, unit)
        }
        None => TaskManagementResult::LunDoesNotExist,
    }
}

/// Resets every unit in ascending order.
fn reset_all<S: Service, G: SessionRegister>(
    alloc: Global,
    service: &mut S,
    register: &G,
    tasks: &mut Tasks,
) -> TaskManagementResult
    ensures reset { ResetsBelow S.notes (S.count service.old) tasks.old service.old tasks.new service.new result }
{
    let mut result = TaskManagementResult::FunctionComplete;
    'units: for unit in 0..service.units() {
        tasks.drop_unit(unit);
        let ended = reset(alloc, service, register, unit);
        if ended != TaskManagementResult::FunctionComplete {
            result = ended;
        }
    }
    result
}

/// Resets a unit, notes that as the session's own if it was, and says how that ended.
fn reset<S: Service, G: SessionRegister>(
    alloc: Global,
    service: &mut S,
    register: &G,
    unit: u8,
) -> TaskManagementResult
    ensures reset { Resets S.notes unit service.old service.new result }
{
    let result = reset_result(service.reset(alloc, unit).receipt().reply.status);
    if result == TaskManagementResult::FunctionComplete {
        register.note_reset(unit);
    }
    result
}

/// How a reset is told whose unit has answered so. It is rejected where the unit has no room for it, which changes nothing there.
fn reset_result(status: Status) -> TaskManagementResult
    ensures { result ≡ reset_result status }
{
    match status {
        Status::Good => TaskManagementResult::FunctionComplete,
        Status::CheckCondition => TaskManagementResult::LunDoesNotExist,
        Status::Busy | Status::ReservationConflict => TaskManagementResult::FunctionRejected,
    }
}
