use arrayvec::ArrayVec;
use std::marker::Model;

/// How many of these tasks are known.
const RESET_TASKS: usize = 32;

/// A task by its unit and its initiator task tag.
#[derive(Clone, Copy, Default)]
pub(crate) struct ResetTask {
    pub(crate) unit: u8,
    pub(crate) initiator_task_tag: u32,
}

/// The last tasks that resets by other sessions have dropped. It takes no memory.
#[derive(Drop)]
pub(crate) struct ResetTasks {
    tasks: ArrayVec<ResetTask, RESET_TASKS>,
}

impl Model for ResetTasks {
    ghost use Rattle.std.specs.Prelude.{List};
    ghost use Rattle.iscsi_tasks.specs.declared.reset_tasks.ResetTask.{ResetTask};

    ghost Value = { List ResetTask };

    ghost view = { λ r. r.tasks.items };
}

impl ResetTasks {
    ghost use Rattle.std.specs.Prelude.{◌≡◌, []};
    ghost use Rattle.std.specs.List.{list_any};
    ghost use Rattle.iscsi_tasks.specs.Aborts.{is_task, noted, reset_task};

    pub(crate) fn new() -> ResetTasks
        ensures { result ≡ [] }
    {
        ResetTasks {
            tasks: ArrayVec::new(),
        }
    }

    /// Notes a task; of so many the first is forgotten.
    pub(crate) fn note(&mut self, unit: u8, initiator_task_tag: u32)
        ensures { self.new ≡ noted self.old (reset_task unit initiator_task_tag) }
    {
        if self.tasks.is_full() {
            self.tasks.remove(0);
        }
        self.tasks.push(ResetTask {
            unit,
            initiator_task_tag,
        });
    }

    pub(crate) fn has(&self, unit: u8, initiator_task_tag: u32) -> bool
        ensures { result ≡ list_any (is_task unit initiator_task_tag) self.now }
    {
        self.tasks.as_slice().iter().any(|task| task.unit == unit
            && task.initiator_task_tag == initiator_task_tag)
    }
}

ghost use Rattle.std.specs.Prelude.{◌≡◌};
ghost use Rattle.iscsi_tasks.specs.Aborts.{noted_replies, noted_waiting};

use crate::held_reply::HeldReply;
use crate::task::Task;

/// Notes the commands at a unit whose replies are held.
pub(crate) fn note_replies_at(tasks: &mut ResetTasks, replies: &[HeldReply], unit: u8)
    ensures { tasks.new ≡ noted_replies unit tasks.old replies.now }
{
    for reply in replies {
        if reply.is_at(unit) {
            tasks.note(unit, reply.command.initiator_task_tag);
        }
    }
}

/// Notes the tasks at a unit that wait.
pub(crate) fn note_waiting_at(tasks: &mut ResetTasks, waiting: &[Task], unit: u8)
    ensures { tasks.new ≡ noted_waiting unit tasks.old waiting.now }
{
    for task in waiting {
        if task.is_at(unit) {
            tasks.note(unit, task.command().initiator_task_tag);
        }
    }
}
