//! The tasks that wait, as a list.
ghost use Rattle.std.specs.Prelude.{◌≡◌, ◌≢◌, ◌≤◌, ◌+◌, ◌++◌, ◌∷◌, [], nat_le, not, is_some, filter, length, position, Some, Err, IfOk};
ghost use Rattle.std.specs.Prelude.{OnOk, OnErr};
ghost use Rattle.std.specs.List.{list_any};
ghost use Rattle.iscsi_tasks.specs.declared.fault.TasksFault.TheVariants.{NoMemory};
ghost use Rattle.iscsi_tasks.specs.Limits.{most_waiting, most_held};
ghost use Rattle.iscsi_tasks.specs.Values.{held};
ghost use Rattle.iscsi_tasks.specs.Windows.{is_of, waiting_of};
ghost use Rattle.iscsi_tasks.specs.Commands.{has_tag, room_for};
ghost use Rattle.iscsi_tasks.specs.DataOuts.{answer_among, tasks_after};
ghost use Rattle.iscsi_tasks.specs.Aborts.{is_at, is_named, remembered_at};

use crate::fault::TasksFault;
use crate::passed_over::PassedOver;
use crate::taken::TakenData;
use crate::task::Task;
use crate::tasks::MOST_HELD;
use iscsi_pdu::{DataOut, ScsiCommand};
use std::alloc::AllocError;

/// Whether a command is one for immediate delivery, or one that has used a number up.
pub(crate) fn is_of(command: &ScsiCommand, immediate: bool) -> bool
    ensures { result ≡ is_of immediate command.now }
{
    if immediate {
        command.immediate
    } else {
        !command.immediate
    }
}

/// How many are for immediate delivery, or have used a number up.
pub(crate) fn waiting_of(waiting: &[Task], immediate: bool) -> u32
    requires { length waiting.now ≤ most_waiting }
    ensures count { result ≡ waiting_of immediate waiting.now }
    ensures most { result ≤ most_waiting }
{
    let mut count = 0;
    for task in waiting {
        if is_of(&task.command(), immediate) {
            count += 1;
        }
    }
    count
}

/// Whether one has the tag.
pub(crate) fn is_waiting(waiting: &[Task], tag: u32) -> bool
    ensures { result ≡ is_some (position (has_tag tag) waiting.now) }
{
    place_of(waiting, tag).is_some()
}

/// Where the task with the tag stands.
pub(crate) fn place_of(waiting: &[Task], tag: u32) -> Option<usize>
    ensures { result ≡ position (has_tag tag) waiting.now }
{
    waiting
        .iter()
        .position(|task| task.command().initiator_task_tag == tag)
}

/// Whether they may hold so many bytes of data more.
pub(crate) fn has_room(waiting: &[Task], count: usize) -> bool
    ensures { result ≡ nat_le (held waiting.now + count) most_held }
{
    let mut room = MOST_HELD;
    for task in waiting {
        if task.data().len() > room {
            return false;
        }
        room -= task.data().len();
    }
    count <= room
}

/// Lets a task wait behind the others.
pub(crate) fn add(waiting: &mut Vec<Task>, task: Task) -> Result<(), TasksFault>
    ensures answer { result ≢ Err NoMemory → result ≡ room_for waiting.old.items (length task.bytes) }
    ensures ok { OnOk result (waiting.new.items ≡ waiting.old.items ++ task ∷ []) }
    ensures err { OnErr result (waiting.new.items ≡ waiting.old.items) }
{
    if !has_room(waiting.as_slice(), task.data().len()) {
        return Err(TasksFault::TooMuchData);
    }
    waiting.push(task)?;
    Ok(())
}

/// Hands a Data-Out to the task that has its tag.
pub(crate) fn take_at(
    waiting: &mut Vec<Task>,
    place: usize,
    data_out: &DataOut,
    payload: &[u8],
) -> Result<TakenData, AllocError>
    requires { position (has_tag data_out.now.initiator_task_tag) waiting.old.items ≡ Some place }
    ensures answer { IfOk result (λ taken. taken ≡ answer_among waiting.old.items data_out.now (length payload.now)) }
    ensures ok { OnOk result (waiting.new.items ≡ tasks_after waiting.old.items data_out.now payload.now) }
    ensures err { OnErr result (waiting.new.items ≡ waiting.old.items) }
{
    let task = &mut waiting[place];
    task.take(data_out, payload)
}

/// Whether one at the unit has the tag.
pub(crate) fn is_waiting_at(waiting: &[Task], unit: u8, tag: u32) -> bool
    ensures { result ≡ list_any (is_named unit tag) waiting.now }
{
    waiting.iter().any(|task| task.is_named(unit, tag))
}

/// Drops the task at a unit that has the tag.
pub(crate) fn drop_named(waiting: &mut Vec<Task>, unit: u8, tag: u32)
    ensures { waiting.new.items ≡ filter (λ t. not (is_named unit tag t)) waiting.old.items }
{
    waiting.retain(|task| !task.is_named(unit, tag));
}

/// Drops the tasks at a unit.
pub(crate) fn drop_at(waiting: &mut Vec<Task>, unit: u8)
    ensures { waiting.new.items ≡ filter (λ t. not (is_at unit t)) waiting.old.items }
{
    waiting.retain(|task| !task.is_at(unit));
}

/// Notes the tags of the tasks at a unit.
pub(crate) fn remember_at(passed_over: &mut PassedOver, waiting: &[Task], unit: u8)
    ensures { passed_over.new ≡ remembered_at unit passed_over.old waiting.now }
{
    for task in waiting {
        if task.is_at(unit) {
            passed_over.remember(task.command().initiator_task_tag);
        }
    }
}
