ghost use Rattle.std.specs.Prelude.{◌≡◌, true, [], None, Some};
ghost use Rattle.scsi_sense.specs.declared.condition.Condition.TheVariants.{LogicalUnitNotSupported};
ghost use Rattle.judgement.specs.Replies.{AnswersAbsent, busy, check};
ghost use Rattle.logical_unit.specs.Answers as event;
ghost use Rattle.logical_unit.specs.Answers.{count_at, entry_of, IsAnswer, LeavesNothing};
ghost use Rattle.logical_unit.specs.EventValue.{event_value};
ghost use Rattle.logical_unit.specs.AtOnce.{asks_at_once};

use crate::act_kind::ActKind;
use crate::entry::Entry;
use crate::numbers::Numbers;
use crate::receipt::Receipt;
use arrayvec::ArrayVec;
use judgement::{ReceivedCommand, Reply, absent};
use scsi_nexus::Nexus;
use scsi_sense::Condition;
use std::alloc::Global;
use std::marker::Model;
use tape_medium::VolumeTag;

/// What was asked: a command is the very slices that were lent to the call.
#[derive(Clone, Copy)]
pub enum EventKind<'a> {
    /// That an I_T nexus is lost.
    Loss,
    /// A reset of the unit.
    Reset,
    /// A command, by its CDB and the data sent with it.
    Command { cdb: &'a [u8], bytes: &'a [u8] },
}

/// What a command asks.
pub(crate) fn asked_by<'a>(received: &ReceivedCommand<'a>) -> EventKind<'a>
    ensures { event_value result ≡ event.Command received.now.cdb received.now.bytes }
{
    EventKind::Command {
        cdb: received.cdb(),
        bytes: received.bytes(),
    }
}

/// A call with its answer. Only the calls of this crate make one: with a number, only a step of a unit does.
#[derive(Drop)]
pub struct Done<'a> {
    nexus: Option<Nexus>,
    lun: u8,
    asked: EventKind<'a>,
    act: Option<ActKind>,
    volume: Option<VolumeTag>,
    is_immediate: bool,
    receipt: Receipt,
}

impl<'a> Model for Done<'a> {
    ghost use Rattle.std.specs.Prelude.{◌≡◌, true};
    ghost use Rattle.logical_unit.specs.Answers.{DoneValue};
    ghost use Rattle.logical_unit.specs.AtOnce.{asks_at_once};

    ghost Value = { DoneValue };

    ghost use Rattle.logical_unit.specs.EventValue.{event_value};

    ghost view = { λ d. record { nexus = d.nexus; lun = d.lun; asked = event_value d.asked; act = d.act; volume = d.volume; reply = d.receipt.reply; numbers = d.receipt.numbers.items } };

    ghost invariant = { λ d. d.is_immediate ≡ true → asks_at_once (event_value d.asked) ≡ true };
}

/// The answer to a call, with its receipt.
pub(crate) fn done_with<'a>(
    nexus: Option<Nexus>,
    lun: u8,
    asked: EventKind<'a>,
    act: Option<ActKind>,
    volume: Option<VolumeTag>,
    is_immediate: bool,
    receipt: Receipt,
) -> Done<'a>
    requires immediate { is_immediate ≡ true → asks_at_once (event_value asked) ≡ true }
    ensures answer { IsAnswer result nexus lun (event_value asked.entry) }
    ensures reply { result.reply ≡ receipt.reply }
    ensures numbers { result.numbers ≡ receipt.numbers.items }
    ensures act { result.act ≡ act }
    ensures volume { result.volume ≡ volume }
{
    Done {
        nexus,
        lun,
        asked,
        act,
        volume,
        is_immediate,
        receipt,
    }
}

/// An answer that leaves no record, and was carried out on no volume.
fn plain<'a>(nexus: Option<Nexus>, lun: u8, asked: EventKind<'a>, reply: Reply) -> Done<'a>
    ensures answer { IsAnswer result nexus lun (event_value asked.entry) }
    ensures reply { result.reply ≡ reply }
    ensures none { LeavesNothing result }
    ensures volume { result.volume ≡ None }
{
    let numbers = ArrayVec::new();
    done_with(
        nexus,
        lun,
        asked,
        None,
        None,
        false,
        Receipt { reply, numbers },
    )
}

impl<'a> Done<'a> {
    /// The answer to a command at a logical unit that doesn't exist, or BUSY for want of memory.
    pub fn absent(alloc: Global, lun: u8, received: &ReceivedCommand<'a>) -> Done<'a>
        ensures answer { IsAnswer result (Some received.now.nexus) lun (event.Command received.now.cdb received.now.bytes) }
        ensures reply { AnswersAbsent received.now.cdb result.reply }
        ensures none { LeavesNothing result }
        ensures volume { result.volume ≡ None }
    {
        let reply = absent(alloc, received.cdb());
        plain(Some(received.nexus()), lun, asked_by(received), reply)
    }

    /// The answer to the loss of a nexus at a logical unit that doesn't exist.
    pub fn absent_loss(alloc: Global, nexus: Nexus, lun: u8) -> Done<'a>
        ensures answer { IsAnswer result (Some nexus) lun event.Loss }
        ensures reply { result.reply ≡ check LogicalUnitNotSupported }
        ensures none { LeavesNothing result }
        ensures volume { result.volume ≡ None }
    {
        let reply = Reply::check(alloc, Condition::LogicalUnitNotSupported);
        plain(Some(nexus), lun, EventKind::Loss, reply)
    }

    /// The answer to a reset of a logical unit that doesn't exist.
    pub fn absent_reset(alloc: Global, lun: u8) -> Done<'a>
        ensures answer { IsAnswer result None lun event.Reset }
        ensures reply { result.reply ≡ check LogicalUnitNotSupported }
        ensures none { LeavesNothing result }
        ensures volume { result.volume ≡ None }
    {
        let reply = Reply::check(alloc, Condition::LogicalUnitNotSupported);
        plain(None, lun, EventKind::Reset, reply)
    }

    /// BUSY: nothing has changed.
    pub fn busy(alloc: Global, nexus: Option<Nexus>, lun: u8, asked: EventKind<'a>) -> Done<'a>
        ensures answer { IsAnswer result nexus lun (event_value asked.entry) }
        ensures reply { result.reply ≡ busy }
        ensures none { LeavesNothing result }
        ensures volume { result.volume ≡ None }
    {
        plain(nexus, lun, asked, Reply::busy(alloc))
    }

    /// The nexus of the call; none for a reset.
    pub fn nexus(&self) -> Option<Nexus>
        ensures { result ≡ self.now.nexus }
    {
        self.nexus
    }

    /// The logical unit number that the call was for.
    pub fn lun(&self) -> u8
        ensures { result ≡ self.now.lun }
    {
        self.lun
    }

    /// What was asked.
    pub fn asked(&self) -> EventKind<'a>
        ensures { event_value result ≡ self.now.asked }
    {
        self.asked
    }

    /// What was asked as a seat keeps it, where the call left a record: of a command the class.
    pub fn act(&self) -> Option<ActKind>
        ensures { result ≡ self.now.act }
    {
        self.act
    }

    /// The volume that a command was carried out on, as `volume_after` says, as long as nobody else was at its unit. None of a call
    /// that is no command.
    pub fn volume(&self) -> Option<VolumeTag>
        ensures { result ≡ self.now.volume }
    {
        self.volume
    }

    /// Whether the reply needn't wait for the medium, since the host said so.
    pub fn is_immediate(&self) -> bool
        ensures { result ≡ true → asks_at_once self.now.asked ≡ true }
    {
        self.is_immediate
    }

    /// The reply, and for each record that the call left the unit that has it, and its number there.
    pub fn receipt(&self) -> &Receipt
        ensures reply { result.now.reply ≡ self.now.reply }
        ensures numbers { result.now.numbers.items ≡ self.now.numbers }
    {
        &self.receipt
    }

    /// How many records of a unit the call left.
    pub fn count_at(&self, lun: u8) -> u64
        ensures { result ≡ count_at lun self.now.numbers }
    {
        let numbers = self.receipt.numbers.as_slice();
        numbers.iter().filter(|pair| pair.0 == lun).count() as u64
    }

    /// What a seat keeps of the call. Takes no memory.
    pub fn entry(&self) -> Entry
        ensures { result ≡ entry_of self.now }
    {
        Entry {
            nexus: self.nexus,
            lun: self.lun,
            act: self.act,
            status: self.receipt.reply.status,
            sense: self.receipt.reply.sense,
            numbers: Numbers::of(&self.receipt.numbers),
        }
    }
}
