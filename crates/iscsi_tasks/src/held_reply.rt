ghost use Rattle.std.specs.Prelude.{◌≡◌};
ghost use Rattle.iscsi_tasks.specs.Holding.{is_same, is_same_record};

use iscsi_pdu::{ScsiCommand, SerialNumber, TaskAttribute, unit_of};
use scsi_sense::{Sense, Status};
use tickets::{Outcome, RecordTicket, ReplyTicket, Ticket};

/// What a unit has replied to a command that it has carried out, but for the data, which were sent already.
#[derive(Clone, Copy)]
pub struct UnitReply {
    /// How many bytes of the command's data the unit got.
    pub handed_over: u32,
    pub status: Status,
    /// With CHECK CONDITION alone.
    pub sense: Option<Sense>,
    /// How many bytes of data the unit gave.
    pub data_length: u32,
    /// In how many Data-In they were sent.
    pub data_ins: u32,
}

/// The reply to a command, which is held until what its ticket names is settled.
#[derive(Clone, Copy)]
pub struct HeldReply {
    pub command: ScsiCommand,
    pub reply: UnitReply,
    pub ticket: ReplyTicket,
}

/// How a command is answered whose reply was held.
#[derive(Clone, Copy)]
pub enum Response {
    /// By what its unit has replied.
    Replied(UnitReply),
    /// It was carried out, and what it left can't be kept (RFC 7143, "SCSI Response": target failure).
    TargetFailure,
}

/// The answer that is due to a command whose reply was held.
#[derive(Clone, Copy)]
pub struct DueAnswer {
    pub command: ScsiCommand,
    pub response: Response,
}

impl HeldReply {
    ghost use Rattle.std.specs.Prelude.{◌≡◌};
    ghost use Rattle.iscsi_tasks.specs.Aborts.{is_reply_at, is_reply_named};
    ghost use Rattle.iscsi_tasks.specs.Holding.{answer_by, is_due};

    /// Whether the ticket that is settled is its own. Others of the same thing may have ended otherwise.
    pub(crate) fn is_due(&self, settled: ReplyTicket) -> bool
        ensures { result ≡ is_due settled self.now }
    {
        is_same(self.ticket.kept, settled.kept)
            && is_same_record(self.ticket.handed_out, settled.handed_out)
    }

    /// Whether the LUN of its command names the unit.
    pub(crate) fn is_at(&self, unit: u8) -> bool
        ensures { result ≡ is_reply_at unit self.now }
    {
        match unit_of(self.command.lun) {
            Some(own) => own == unit,
            None => false,
        }
    }

    /// Whether its command is the one at the unit that has the tag.
    pub(crate) fn is_named(&self, unit: u8, tag: u32) -> bool
        ensures { result ≡ is_reply_named unit tag self.now }
    {
        self.command.initiator_task_tag == tag && self.is_at(unit)
    }

    /// The answer by an outcome.
    pub(crate) fn answer(&self, outcome: Outcome) -> DueAnswer
        ensures { result ≡ answer_by outcome self.now }
    {
        DueAnswer {
            command: self.command,
            response: match outcome {
                Outcome::Kept => Response::Replied(self.reply),
                Outcome::Lost => Response::TargetFailure,
            },
        }
    }
}

/// Whether both are for the same thing as far as the same number, or for nothing.
fn is_same(one: Option<Ticket>, other: Option<Ticket>) -> bool
    ensures { result ≡ is_same one other }
{
    match (one, other) {
        (Some(one), Some(other)) => one.thing == other.thing && one.number == other.number,
        (None, None) => true,
        (Some(_), None) | (None, Some(_)) => false,
    }
}

/// Whether both are for the same record of the same unit, or for none.
fn is_same_record(one: Option<RecordTicket>, other: Option<RecordTicket>) -> bool
    ensures { result ≡ is_same_record one other }
{
    match (one, other) {
        (Some(one), Some(other)) => one.lun == other.lun && one.number == other.number,
        (None, None) => true,
        (Some(_), None) | (None, Some(_)) => false,
    }
}

/// A command that stands where there is none.
fn blank_command() -> ScsiCommand {
    ScsiCommand {
        immediate: false,
        is_final: false,
        reads: false,
        writes: false,
        task_attribute: TaskAttribute::Untagged,
        lun: 0,
        initiator_task_tag: 0,
        expected_data_transfer_length: 0,
        cmd_sn: SerialNumber { number: 0 },
        exp_stat_sn: SerialNumber { number: 0 },
        cdb: [0; 16],
    }
}

impl Default for HeldReply {
    fn default() -> HeldReply {
        HeldReply {
            command: blank_command(),
            reply: UnitReply {
                handed_over: 0,
                status: Status::Good,
                sense: None,
                data_length: 0,
                data_ins: 0,
            },
            ticket: ReplyTicket::default(),
        }
    }
}

impl Default for DueAnswer {
    fn default() -> DueAnswer {
        DueAnswer {
            command: blank_command(),
            response: Response::TargetFailure,
        }
    }
}
