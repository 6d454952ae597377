use crate::awaiting::Awaiting;
use crate::fault::TasksFault;
use crate::held_reply::{DueAnswer, HeldReply, UnitReply};
use crate::holding::*;
use crate::next_task::NextTask;
use crate::passed_over::PassedOver;
use crate::reset_tasks::{ResetTasks, note_replies_at, note_waiting_at};
use crate::taken::{TakenCommand, TakenData};
use crate::task::{Task, wanted};
use crate::waiting::*;
use arrayvec::ArrayVec;
use iscsi_keys::{SessionParameters, TARGET_MAX_RECV_DATA_SEGMENT_LENGTH};
use iscsi_pdu::{DataOut, RESERVED_TAG, RejectReason, ScsiCommand, SerialNumber};
use std::alloc::Global;
use std::marker::Model;
use tickets::{Outcome, ReplyTicket};

/// How many commands that have used a number up wait, are in hand or have their replies held at most, and how many for immediate delivery;
/// and how many an initiator may send ahead while there is none.
pub const WINDOW: u32 = 32;

/// The most bytes of data that a session holds, in its buffers and its commands: 4 MiB.
const SESSION_DATA: usize = 4_194_304;

/// The most bytes of data that the commands that wait hold in all: what is left of a session's beside three data segments, for the
/// buffer of PDUs, the answers that wait to be written, and text.
pub const MOST_HELD: usize = SESSION_DATA - 3 * TARGET_MAX_RECV_DATA_SEGMENT_LENGTH as usize;

/// How many serial numbers there are.
const NUMBERS: u64 = 0x1_0000_0000;

/// How far MaxCmdSN is ahead of ExpCmdSN while nothing is pending, once round the circle.
const AHEAD: u64 = NUMBERS + WINDOW as u64 - 1;

/// The tasks of a session in full feature, and the numbers by which commands are ordered. It takes PDUs and says what is to be
/// done next; its caller reads, executes and answers.
#[derive(Drop)]
pub struct Tasks {
    parameters: SessionParameters,
    limit: u32,
    exp_cmd_sn: SerialNumber,
    waiting: Vec<Task>,
    passed_over: PassedOver,
    next_tag: u32,
    /// The command that is handed out and isn't answered yet.
    in_hand: Option<ScsiCommand>,
    replies: ArrayVec<HeldReply, MOST_REPLIES>,
    reset_tasks: ResetTasks,
    /// How many numbers, from the one that is expected on, lead to the furthest that was passed over since those before it hadn't come.
    ahead: u32,
}

impl Model for Tasks {
    ghost use Rattle.iscsi_tasks.specs.Values.{TasksValue, held};
    ghost use Rattle.iscsi_tasks.specs.Windows.{IsInWindow};

    ghost Value = { TasksValue };

    ghost view = { λ t. record {
      parameters = t.parameters;
      limit = t.limit;
      exp_cmd_sn = t.exp_cmd_sn;
      waiting = t.waiting.items;
      passed_over = t.passed_over;
      next_tag = t.next_tag;
      in_hand = t.in_hand;
      replies = t.replies.items;
      reset_tasks = t.reset_tasks;
      ahead = t.ahead;
    } };

    ghost invariant = { λ t. IsInWindow (record {
      parameters = t.parameters;
      limit = t.limit;
      exp_cmd_sn = t.exp_cmd_sn;
      waiting = t.waiting.items;
      passed_over = t.passed_over;
      next_tag = t.next_tag;
      in_hand = t.in_hand;
      replies = t.replies.items;
      reset_tasks = t.reset_tasks;
      ahead = t.ahead;
    }) };
}

impl Tasks {
    ghost use Rattle.std.specs.Prelude.{◌≡◌, ◌≢◌, ◌≤◌, [], true, is_some, length, map, Ok, Err, IfOk, if◌then◌else◌};
    ghost use Rattle.iscsi_tasks.specs.declared.fault.TasksFault.TheVariants.{NoMemory};
    ghost use Rattle.iscsi_tasks.specs.declared.taken.TakenCommand.TheVariants as taken;
    ghost use Rattle.iscsi_tasks.specs.Values.{begun_tasks};
    ghost use Rattle.iscsi_tasks.specs.Limits.{most_under_way};
    ghost use Rattle.iscsi_tasks.specs.Windows.{max_cmd_sn, under_way};
    ghost use Rattle.iscsi_tasks.specs.Holding.{answers_due, holds_none};
    ghost use Rattle.iscsi_tasks.specs.Runs.{Answered, Held, Settled, stepped};
    ghost use Rattle.iscsi_tasks.specs.Commands.{is_taken, is_in_use, is_crowded, counted, is_at_once, command_answer, after_command, missing_number, numbers_to};
    ghost use Rattle.iscsi_tasks.specs.Commands.{IsWithin};
    ghost use Rattle.iscsi_tasks.specs.DataOuts.{data_answer, after_data};
    ghost use Rattle.iscsi_tasks.specs.Next.{next_of, after_next};
    ghost use Rattle.iscsi_tasks.specs.Aborts.{is_waiting_at, reset_by_another, was_reset, without_task, without_unit};

    /// Of a session that begins, whose units take so many bytes of data of a command at most.
    pub fn new(
        alloc: Global,
        parameters: SessionParameters,
        limit: u32,
        exp_cmd_sn: SerialNumber,
    ) -> Tasks
        ensures { result ≡ begun_tasks parameters limit exp_cmd_sn }
    {
        Tasks {
            parameters,
            limit,
            exp_cmd_sn,
            waiting: Vec::new(alloc),
            passed_over: PassedOver::new(),
            next_tag: 0,
            in_hand: None,
            replies: ArrayVec::new(),
            reset_tasks: ResetTasks::new(),
            ahead: 0,
        }
    }

    /// The number of the command that is expected next.
    pub fn exp_cmd_sn(&self) -> SerialNumber
        ensures { result ≡ self.now.exp_cmd_sn }
    {
        self.exp_cmd_sn
    }

    /// The greatest number that an initiator may send: 31 above ExpCmdSN, less the commands that have used a number up and aren't
    /// answered yet.
    pub fn max_cmd_sn(&self) -> SerialNumber
        ensures { result ≡ max_cmd_sn self.now }
    {
        let number = u64::from(self.exp_cmd_sn.number) + AHEAD - u64::from(self.under_way(false));
        SerialNumber {
            number: (number % NUMBERS) as u32,
        }
    }

    /// How many commands for immediate delivery wait, are in hand or have their replies held, or how many that have used a number up.
    fn under_way(&self, immediate: bool) -> u32
        ensures count { result ≡ under_way immediate self.now }
        ensures most { result ≤ most_under_way }
    {
        let in_hand = match self.in_hand {
            Some(command) => u32::from(is_of(&command, immediate)),
            None => 0,
        };
        waiting_of(self.waiting.as_slice(), immediate)
            + in_hand
            + held_of(self.replies.as_slice(), immediate)
    }

    /// Whether a PDU that has a CmdSN is taken, or passed over. A SCSI Command goes through `take_command`.
    pub fn take_number(&mut self, immediate: bool, cmd_sn: SerialNumber) -> bool
        ensures taken { result ≡ is_taken self.old immediate cmd_sn }
        ensures state { self.new ≡ (if result then counted self.old immediate else self.old) }
    {
        if !self.is_taken(immediate, cmd_sn) {
            return false;
        }
        self.count(immediate);
        true
    }

    /// Whether a PDU with the number is the one that is expected while the window is open, or is for immediate delivery.
    fn is_taken(&self, immediate: bool, cmd_sn: SerialNumber) -> bool
        ensures { result ≡ is_taken self.now immediate cmd_sn }
    {
        if immediate {
            return true;
        }
        if cmd_sn.number != self.exp_cmd_sn.number {
            return false;
        }
        self.under_way(false) < WINDOW
    }

    /// Uses a number up, but for immediate delivery.
    fn count(&mut self, immediate: bool)
        ensures { self.new ≡ counted self.old immediate }
    {
        if !immediate {
            self.exp_cmd_sn = self.exp_cmd_sn.next();
            self.ahead = self.ahead.saturating_sub(1);
        }
    }

    /// Takes a SCSI Command with what came with it. An error changes nothing.
    pub fn take_command(
        &mut self,
        command: &ScsiCommand,
        payload: &[u8],
    ) -> Result<TakenCommand, TasksFault>
        ensures answer { result ≢ Err NoMemory → result ≡ command_answer self.old command.now payload.now }
        ensures state { self.new ≡ after_command self.old command.now payload.now result }
        ensures within { IfOk result (IsWithin (length payload.now)) }
    {
        if !self.is_taken(command.immediate, command.cmd_sn) {
            self.pass_over(command);
            return Ok(TakenCommand::PassedOver);
        }
        if self.is_in_use(command.initiator_task_tag) {
            self.count(command.immediate);
            return Ok(TakenCommand::Rejected(RejectReason::TaskInProgress));
        }
        if self.is_crowded(command.immediate) {
            self.count(command.immediate);
            return Ok(TakenCommand::Rejected(RejectReason::TooManyImmediateCommands));
        }
        if self.is_at_once(command, payload.len()) {
            self.count(command.immediate);
            self.in_hand = Some(*command);
            let count = wanted(command, self.limit) as usize;
            return Ok(TakenCommand::Execute(count));
        }
        let task = Task::begin(*self.waiting.allocator(), self.parameters, command, payload)?;
        add(&mut self.waiting, task)?;
        self.count(command.immediate);
        Ok(TakenCommand::Waits)
    }

    /// Notes a command that is passed over, and how far it is ahead if the window is open for it.
    fn pass_over(&mut self, command: &ScsiCommand)
        ensures { self.new ≡ after_command self.old command.now [] (Ok taken.PassedOver) }
    {
        self.ahead = self.ahead.max(self.numbers_to(command.cmd_sn));
        self.passed_over.remember(command.initiator_task_tag);
    }

    /// How many numbers, from the one that is expected on, lead to one in the window.
    fn numbers_to(&self, cmd_sn: SerialNumber) -> u32
        ensures { result ≡ numbers_to self.now cmd_sn }
    {
        let distance = self.exp_cmd_sn.distance_to(cmd_sn);
        if distance < WINDOW - self.under_way(false) {
            distance + 1
        } else {
            0
        }
    }

    /// The number that is awaited, ExpCmdSN, where a SCSI Command whose number is behind it and in the window has come, and was passed over
    /// for that; `None` once the numbers up to that command's have been taken (RFC 7143, "Command Numbering and Acknowledging").
    pub fn missing_number(&self) -> Option<SerialNumber>
        ensures { result ≡ missing_number self.now }
    {
        if self.ahead > 0 {
            Some(self.exp_cmd_sn)
        } else {
            None
        }
    }

    /// Whether a command with the tag waits, or its reply is held.
    fn is_in_use(&self, tag: u32) -> bool
        ensures { result ≡ is_in_use self.now tag }
    {
        is_waiting(self.waiting.as_slice(), tag) || is_held(self.replies.as_slice(), tag)
    }

    /// Whether a command is for immediate delivery, and as many of those are under way as may.
    fn is_crowded(&self, immediate: bool) -> bool
        ensures { result ≡ is_crowded self.now immediate }
    {
        immediate && self.under_way(true) >= WINDOW
    }

    /// Whether nothing waits before the command, and all of its data came with it.
    fn is_at_once(&self, command: &ScsiCommand, count: usize) -> bool
        ensures { result ≡ is_at_once self.now command.now count }
    {
        self.waiting.is_empty()
            && match Awaiting::behind_command(self.parameters, command, count) {
                Awaiting::Turn => count >= wanted(command, self.limit) as usize,
                _ => false,
            }
    }

    /// Takes a Data-Out. An error changes nothing.
    pub fn take_data(&mut self, data_out: &DataOut, payload: &[u8]) -> Result<TakenData, TasksFault>
        ensures answer { result ≢ Err NoMemory → result ≡ data_answer self.old data_out.now (length payload.now) }
        ensures state { self.new ≡ after_data self.old data_out.now payload.now result }
    {
        match place_of(self.waiting.as_slice(), data_out.initiator_task_tag) {
            Some(place) => {
                if !has_room(self.waiting.as_slice(), payload.len()) {
                    return Err(TasksFault::TooMuchData);
                }
                Ok(take_at(&mut self.waiting, place, data_out, payload)?)
            }
            None => {
                if self.passed_over.has(data_out.initiator_task_tag) {
                    Ok(TakenData::PassedOver)
                } else {
                    Ok(TakenData::Rejected(RejectReason::InvalidPduField))
                }
            }
        }
    }

    /// What is to be done next: it is asked for until nothing is.
    pub fn next(&mut self) -> NextTask
        ensures next { result ≡ next_of self.old }
        ensures state { self.new ≡ after_next self.old }
    {
        let Some(task) = self.waiting.first() else {
            return NextTask::Idle;
        };
        match task.awaiting() {
            Awaiting::Turn => {
                if task.is_whole(self.limit) {
                    let mut task = self.waiting.remove(0);
                    self.in_hand = Some(task.command());
                    task.hand(self.limit);
                    NextTask::Execute(task)
                } else {
                    let task = &mut self.waiting[0];
                    let request = task.ask(self.parameters, self.limit, self.next_tag);
                    self.next_tag = tag_after(self.next_tag);
                    NextTask::Ask(request)
                }
            }
            Awaiting::Data(_) | Awaiting::Failing(_) => NextTask::Idle,
            Awaiting::Failed(fault) => {
                let task = self.waiting.remove(0);
                self.in_hand = Some(task.command());
                NextTask::Fail(task, fault)
            }
        }
    }

    /// The command in hand is answered.
    pub fn answered(&mut self)
        ensures { self.new ≡ stepped self.old Answered }
    {
        self.in_hand = None;
    }

    /// Holds the reply to the command in hand, behind the others.
    pub fn hold(&mut self, reply: UnitReply, ticket: ReplyTicket)
        requires { is_some self.old.in_hand ≡ true }
        ensures { self.new ≡ stepped self.old (Held reply ticket) }
    {
        if let Some(command) = self.in_hand {
            self.replies.push(HeldReply {
                command,
                reply,
                ticket,
            });
        }
        self.in_hand = None;
    }

    /// Whether no reply is held.
    pub fn holds_none(&self) -> bool
        ensures { result ≡ holds_none self.now }
    {
        self.replies.is_empty()
    }

    /// What the replies that are held wait for, in the order in which their commands were executed.
    pub fn tickets(&self) -> ArrayVec<ReplyTicket, MOST_REPLIES>
        ensures { result.items ≡ map (λ r. r.ticket) self.now.replies }
    {
        tickets_of(self.replies.as_slice())
    }

    /// Removes the replies that wait for the ticket that is settled, and says how their commands are answered, in the order in which
    /// they were executed.
    pub fn settle(
        &mut self,
        settled: ReplyTicket,
        outcome: Outcome,
    ) -> ArrayVec<DueAnswer, MOST_REPLIES>
        ensures answers { result.items ≡ answers_due settled outcome self.old.replies }
        ensures state { self.new ≡ stepped self.old (Settled settled outcome) }
    {
        let answers = answers_due(self.replies.as_slice(), settled, outcome);
        drop_due(&mut self.replies, settled);
        answers
    }

    /// Lets the command with the tag at a unit go unexecuted, if it waits, and unanswered, if its reply is held. Its Data-Out that are
    /// under way are passed over.
    pub fn abort_task(&mut self, unit: u8, initiator_task_tag: u32) -> bool
        ensures found { result ≡ is_waiting_at self.old unit initiator_task_tag }
        ensures state { self.new ≡ without_task self.old unit initiator_task_tag }
    {
        if !is_waiting_at(self.waiting.as_slice(), unit, initiator_task_tag)
            && !is_held_at(self.replies.as_slice(), unit, initiator_task_tag)
        {
            return false;
        }
        self.passed_over.remember(initiator_task_tag);
        drop_named(&mut self.waiting, unit, initiator_task_tag);
        drop_reply_named(&mut self.replies, unit, initiator_task_tag);
        true
    }

    /// Lets the commands at a unit go unexecuted, and those whose replies are held unanswered. Their Data-Out that are under way are
    /// passed over.
    pub fn drop_unit(&mut self, unit: u8)
        ensures { self.new ≡ without_unit self.old unit }
    {
        remember_at(&mut self.passed_over, self.waiting.as_slice(), unit);
        drop_at(&mut self.waiting, unit);
        drop_replies_at(&mut self.replies, unit);
    }

    /// Does the same for a unit that another session has reset, and notes these commands: the last 32 of them are known.
    pub fn reset_unit(&mut self, unit: u8)
        ensures { self.new ≡ reset_by_another self.old unit }
    {
        note_replies_at(&mut self.reset_tasks, self.replies.as_slice(), unit);
        note_waiting_at(&mut self.reset_tasks, self.waiting.as_slice(), unit);
        self.drop_unit(unit);
    }

    /// Whether the command with the tag at a unit is one of the last that resets by other sessions have dropped.
    pub fn was_reset(&self, unit: u8, initiator_task_tag: u32) -> bool
        ensures { result ≡ was_reset self.now unit initiator_task_tag }
    {
        self.reset_tasks.has(unit, initiator_task_tag)
    }
}

ghost use Rattle.std.specs.Prelude.{◌≡◌};
ghost use Rattle.iscsi_tasks.specs.Next.{tag_after};

/// The target transfer tag after another: FFFFFFFFh is none.
fn tag_after(tag: u32) -> u32
    ensures { result ≡ tag_after tag }
{
    if tag < RESERVED_TAG - 1 { tag + 1 } else { 0 }
}
