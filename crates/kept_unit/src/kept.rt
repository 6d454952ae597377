ghost use Rattle.std.specs.Prelude.{◌≡◌, ◌⊎◌, ◌+◌, ◌<◌, ◌≤◌, ◌^◌, ◌||◌, [], ℕ, Some, None, IfOk, IfErr, OnOk, OnErr, IsTrue, ◌↔◌};
ghost use Rattle.device_server.specs.View.{kind_of, profile_of, drives_of};
ghost use Rattle.device_server.specs.Settled.{SameButSettled};
ghost use Rattle.judgement.specs.Replies.{busy};
ghost use Rattle.judgement.specs.Commands.{act_of_decoded};
ghost use Rattle.judgement.specs.Received.{command_in};
ghost use Rattle.judgement.specs.UnitState.{has_room};
ghost use Rattle.logical_unit.specs.Legal.{IsTrail};
ghost use Rattle.logical_unit.specs.Step.{Executes, IsLost, IsReset, drained};
ghost use Rattle.logical_unit.specs.UnitView.{last_number};
ghost use Rattle.kept_unit.specs.Agreeing.{Agrees};
ghost use Rattle.logical_unit.specs.Answers as event;
ghost use Rattle.logical_unit.specs.Answers.{IsAnswer, count_at, own_number, OnlyAt};
ghost use Rattle.logical_unit.specs.declared.act_kind.ActKind.TheVariants as kind;
ghost use Rattle.logical_unit.specs.ActKinds.{act_kind_of, act_kind_if};
ghost use Rattle.scsi_cdb.specs.Kinds.{kind_at, commands_at};
ghost use Rattle.kept_unit.specs.SeatNotes.{notes_value};
ghost use Rattle.settled_numbers.specs.Numbers.{has, is_in, size, count, Meets};

use crate::agree::agree;
use crate::ledgers::UnitLedger;
use crate::seat_notes::SeatNotes;
use audit_log::Record;
use device_server::{Attendant, DeviceServer};
use judgement::ReceivedCommand;
use logical_unit::{Done, LogicalUnit};
use scsi_nexus::Nexus;
use settled_numbers::{NumberRange, SettleFault, SettledNumbers};
use std::alloc::{AllocError, Global};
use std::marker::Model;
use std::sync::ledger::{Book, Share};

/// The unit of a logical unit number, of which 0 is the changer's, with the book of its ledger, the numbers that seats have handed
/// over, and the last record number that it had used when it was kept. The book's total is the count of the numbers that it has
/// used since. The book is lent to nobody: who had it could compare nothing, since totals and shares exist in proofs alone.
#[derive(Drop)]
pub struct Kept<const LUN: u8, L: UnitLedger, D: DeviceServer> {
    pub(crate) unit: LogicalUnit<D>,
    pub(crate) book: Book<L>,
    handed_over: SettledNumbers<L>,
    first: u64,
}

impl<const LUN: u8, L: UnitLedger, D: DeviceServer> Model for Kept<LUN, L, D> {
    ghost use Rattle.kept_unit.specs.Keeping.{KeptValue, IsKept};

    ghost Value = { KeptValue };

    ghost view = { λ k. record { unit = k.unit.unit; total = k.book.total; handed_over = k.handed_over } };

    ghost invariant = { λ k. IsKept L.profile LUN k.unit.unit k.book.total k.first L.since };
}

impl<const LUN: u8, L: UnitLedger, D: DeviceServer> Kept<LUN, L, D> {
    /// Keeps a unit, with a book that counts nothing yet, and a part of its ledger for the numbers that will be handed over.
    pub fn new(
        alloc: Global,
        unit: LogicalUnit<D>,
        book: Book<L>,
        part: Share<L>,
    ) -> Kept<LUN, L, D>
        requires kind { kind_of unit.unit.device ≡ kind_at LUN }
        requires profile { profile_of unit.unit.device ≡ L.profile }
        requires lun { unit.unit.state.lun ≡ LUN }
        requires few { drives_of unit.unit.device < 2 ^ 8 }
        requires since { last_number unit.unit ≡ L.since }
        requires unused { book.total ≡ 0 }
        requires part { (part.parts ≡ 1) × (part.amount ≡ 0) }
        ensures unit { result.unit ≡ unit.unit }
        ensures total { result.total ≡ 0 }
        ensures handed_over { result.handed_over ≡ [] }
    {
        let first = unit.last();
        Kept {
            unit,
            book,
            handed_over: SettledNumbers::new(alloc, part),
            first,
        }
    }

    /// The unit, to be read.
    pub fn unit(&self) -> &LogicalUnit<D>
        ensures unit { result.now.unit ≡ self.now.unit }
        ensures kind { kind_of self.now.unit.device ≡ kind_at LUN }
        ensures profile { profile_of self.now.unit.device ≡ L.profile }
        ensures lun { self.now.unit.state.lun ≡ LUN }
        ensures few { drives_of self.now.unit.device < 2 ^ 8 }
    {
        &self.unit
    }

    /// How many data transfer elements a changer has; 0 for a drive.
    pub fn drives(&self) -> u8
        ensures { result ≡ drives_of self.now.unit.device }
    {
        self.unit.drives() as u8
    }

    /// Whether a nexus has a slot at the unit, or finds one. Nothing changes.
    pub fn has_room(&mut self, nexus: Nexus) -> bool
        ensures room { result ≡ has_room self.old.unit.state nexus }
        ensures same { self.new ≡ self.old }
    {
        self.unit.has_room(nexus)
    }

    /// Takes numbers over that a seat has settled, with as much of the ledger. They are refused exactly if the record of one of
    /// them wasn't handed out, or was made before the unit was kept, if one of them was handed over already, or for want of
    /// memory; then nothing changes.
    pub fn take_over(&mut self, range: NumberRange, part: &mut Share<L>) -> Result<(), SettleFault>
        requires part { 0 < part.old.parts }
        requires counted { size range ≤ part.old.amount }
        ensures numbers { OnOk result ((n : ℕ) → has self.new.handed_over n ≡ (has self.old.handed_over n || is_in n range)) }
        ensures given { OnOk result (part.new.amount + size range ≡ part.old.amount) }
        ensures handed_out { OnOk result ((L.since < range.first) × (range.last ≤ self.old.unit.base.last)) }
        ensures apart { OnOk result (Meets self.old.handed_over range → ⊥) }
        ensures early { IfErr result (λ e. (e ≡ SettleFault.NotHandedOut) ↔ ((range.first ≤ L.since) ⊎ (self.old.unit.base.last < range.last))) }
        ensures taken { IfErr result (λ e. e ≡ SettleFault.Taken → Meets self.old.handed_over range) }
        ensures same { OnErr result (self.new ≡ self.old) }
        ensures kept { OnErr result (part.new.amount ≡ part.old.amount) }
        ensures rest { (self.new.unit ≡ self.old.unit) × (self.new.total ≡ self.old.total) }
        ensures parts { part.new.parts ≡ part.old.parts }
    {
        let base = self.unit.last() - self.unit.records().len() as u64;
        if range.first <= self.first || base < range.last {
            return Err(SettleFault::NotHandedOut);
        }
        self.handed_over.take_over(range, part)
    }

    /// Whether what all seats have noted, and what they handed over, agrees with the trail. Takes memory for each range and for each
    /// run of numbers in the entries of a seat, and the time to sort them.
    pub fn agree(&self, alloc: Global, seats: &[SeatNotes<'_>]) -> Result<bool, AllocError>
        ensures { IfOk result (λ b. IsTrue b ↔ Agrees notes_value LUN L.since self.now.unit.base.last self.now.unit.records self.now.handed_over seats.now) }
    {
        let records = self.unit.records();
        let base = self.unit.last() - records.len() as u64;
        agree(
            alloc,
            LUN,
            self.first,
            base,
            records,
            self.handed_over.ranges(),
            seats,
        )
    }

    /// The unit, once all other parts of its ledger are here: the numbers that it has used since it was kept are as many as were
    /// handed over and as those parts count.
    pub fn close(self, rest: Share<L>) -> LogicalUnit<D>
        requires { rest.parts + 1 ≡ L.parts }
        ensures unit { result.unit ≡ self.unit }
        ensures kind { kind_of result.unit.device ≡ kind_at LUN }
        ensures profile { profile_of result.unit.device ≡ L.profile }
        ensures lun { result.unit.state.lun ≡ LUN }
        ensures sum { last_number result.unit ≡ L.since + (count self.handed_over + rest.amount) }
    {
        let Kept {
            unit,
            mut book,
            handed_over,
            first: _,
        } = self;
        handed_over.close(&mut book, rest);
        unit
    }

    /// Hands out the records, a legal trail that gives what the unit keeps now, and keeps none. The numbers go on. Takes no
    /// memory.
    pub fn drain(&mut self, alloc: Global) -> Vec<Record>
        ensures records { result.items ≡ self.old.unit.records }
        ensures trail { IsTrail self.old.unit.base self.old.unit.records self.old.unit.state }
        ensures unit { self.new.unit ≡ drained self.old.unit }
        ensures book { self.new.total ≡ self.old.total }
        ensures handed_over { self.new.handed_over ≡ self.old.handed_over }
    {
        let mut records = Vec::new(alloc);
        self.drain_into(&mut records);
        records
    }

    /// The same into a vector without records, whose room the next records have from now on. Takes no memory.
    pub fn drain_into(&mut self, records: &mut Vec<Record>)
        requires { records.old.items ≡ [] }
        ensures records { records.new.items ≡ self.old.unit.records }
        ensures trail { IsTrail self.old.unit.base self.old.unit.records self.old.unit.state }
        ensures unit { self.new.unit ≡ drained self.old.unit }
        ensures book { self.new.total ≡ self.old.total }
        ensures handed_over { self.new.handed_over ≡ self.old.handed_over }
    {
        self.unit.drain_into(records);
    }

    /// Lets an attendant look after the volumes of the unit's device: nothing changes but how many objects of a tape count as
    /// unchanged.
    pub fn attend<A: Attendant<D>>(&mut self, attendant: &mut A)
        ensures asked { A.looks_after attendant.old LUN self.old.unit.device self.new.unit.device attendant.new }
        ensures kind { kind_of self.old.unit.device ≡ kind_at LUN }
        ensures same { SameButSettled self.old.unit.device self.new.unit.device }
        ensures rest { self.new ≡ record self.old { unit = record self.old.unit { device = self.new.unit.device } } }
    {
        self.unit.attend(attendant);
    }

    /// One command at the unit, its record counted in the book and in the part. Without a number it is BUSY, and nothing
    /// has changed.
    #[tactic(auto, using(crate::proofs::Counting::only_own))]
    pub fn step<'a>(
        &mut self,
        alloc: Global,
        part: &mut Share<L>,
        received: &ReceivedCommand<'a>,
    ) -> Done<'a>
        requires parts { 0 < part.old.parts }
        requires commands { received.now.commands ≡ commands_at L.profile LUN }
        ensures answer { IsAnswer result (Some received.now.nexus) LUN (event.Command received.now.cdb received.now.bytes) }
        ensures step { Executes self.old.unit received.now.nexus received.now.cdb received.now.bytes (self.new.unit, result.reply) }
        ensures numbers { result.numbers ≡ own_number LUN result.reply.number }
        ensures only { OnlyAt LUN result.numbers }
        ensures act { result.act ≡ act_kind_if result.numbers (act_kind_of (act_of_decoded (command_in received.now))) }
        ensures unnumbered { result.numbers ≡ [] → result.reply ≡ busy }
        ensures book { self.new.total ≡ self.old.total + count_at LUN result.numbers }
        ensures handed_over { self.new.handed_over ≡ self.old.handed_over }
        ensures part { part.new.amount ≡ part.old.amount + count_at LUN result.numbers }
        ensures parts { part.new.parts ≡ part.old.parts }
    {
        let done = self.unit.carry_out(alloc, received);
        self.book.add(part, done.count_at(LUN));
        done
    }

    /// An I_T nexus loss at the unit, its record counted in the book and in the part. Without a number it is BUSY with
    /// nothing changed, or the nexus has no slot.
    #[tactic(auto, using(crate::proofs::Counting::only_own))]
    pub fn lose(&mut self, alloc: Global, part: &mut Share<L>, nexus: Nexus) -> Done<'static>
        requires { 0 < part.old.parts }
        ensures answer { IsAnswer result (Some nexus) LUN event.Loss }
        ensures step { IsLost self.old.unit nexus (self.new.unit, result.reply) }
        ensures numbers { result.numbers ≡ own_number LUN result.reply.number }
        ensures only { OnlyAt LUN result.numbers }
        ensures act { result.act ≡ act_kind_if result.numbers kind.Loss }
        ensures book { self.new.total ≡ self.old.total + count_at LUN result.numbers }
        ensures handed_over { self.new.handed_over ≡ self.old.handed_over }
        ensures part { part.new.amount ≡ part.old.amount + count_at LUN result.numbers }
        ensures parts { part.new.parts ≡ part.old.parts }
    {
        let done = self.unit.carry_out_loss(alloc, nexus);
        self.book.add(part, done.count_at(LUN));
        done
    }

    /// A reset of the unit, its record counted in the book and in the part. Without a number it is BUSY, and nothing has
    /// changed.
    #[tactic(auto, using(crate::proofs::Counting::only_own))]
    pub fn reset(&mut self, alloc: Global, part: &mut Share<L>) -> Done<'static>
        requires { 0 < part.old.parts }
        ensures answer { IsAnswer result None LUN event.Reset }
        ensures step { IsReset self.old.unit (self.new.unit, result.reply) }
        ensures numbers { result.numbers ≡ own_number LUN result.reply.number }
        ensures only { OnlyAt LUN result.numbers }
        ensures act { result.act ≡ act_kind_if result.numbers kind.Reset }
        ensures unnumbered { result.numbers ≡ [] → result.reply ≡ busy }
        ensures book { self.new.total ≡ self.old.total + count_at LUN result.numbers }
        ensures handed_over { self.new.handed_over ≡ self.old.handed_over }
        ensures part { part.new.amount ≡ part.old.amount + count_at LUN result.numbers }
        ensures parts { part.new.parts ≡ part.old.parts }
    {
        let done = self.unit.carry_out_reset(alloc);
        self.book.add(part, done.count_at(LUN));
        done
    }
}
