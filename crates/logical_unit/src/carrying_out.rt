ghost use Rattle.std.specs.Prelude.{◌≡◌, true, [], ◌∷◌, ◌++◌, Some, None};
ghost use Rattle.device_server.specs.View.{commands_of, drives_of};
ghost use Rattle.judgement.specs.Replies.{busy};
ghost use Rattle.judgement.specs.Commands.{act_of_decoded};
ghost use Rattle.judgement.specs.Received.{IsFor, command_in};
ghost use Rattle.logical_unit.specs.ActKinds.{act_kind_of, act_kind_if};
ghost use Rattle.logical_unit.specs.Answers as event;
ghost use Rattle.logical_unit.specs.AtOnce.{asks_at_once};
ghost use Rattle.logical_unit.specs.Answers.{IsAnswer, own_number};
ghost use Rattle.logical_unit.specs.Move.{MovesOne, MovesTwo, numbers_of};
ghost use Rattle.logical_unit.specs.Route.{named};
ghost use Rattle.logical_unit.specs.Step.{Executes, IsLost, IsReset};
ghost use Rattle.logical_unit.specs.VolumeAfter.{at_end, volume_after};

use crate::act_kind::ActKind;
use crate::done::{Done, EventKind, asked_by, done_with};
use crate::moves::{errand_in, move_one_for, move_two_for, route_in};
use crate::receipt::Receipt;
use crate::route::{Errand, errand_of};
use crate::unit::LogicalUnit;
use device_server::DeviceServer;
use judgement::ReceivedCommand;
use scsi_cdb::{Kind, is_immediate};
use scsi_nexus::Nexus;
use std::alloc::Global;
use tape_medium::VolumeTag;

/// The kind of an act, where the call left a record.
fn recorded_kind(act: ActKind, numbers: &[(u8, u64)]) -> Option<ActKind>
    ensures { result ≡ act_kind_if numbers.now act }
{
    if numbers.is_empty() { None } else { Some(act) }
}

/// The volume that a command was carried out on which was sent to a unit: at a drive the one in its bay, at a changer the one where
/// a MOVE MEDIUM ends, in a drive by its mark, or the one that a drive gave in an EXCHANGE MEDIUM: the other was in no drive since it was kept.
fn volume_after<D: DeviceServer>(
    unit: &LogicalUnit<D>,
    received: &ReceivedCommand<'_>,
) -> Option<VolumeTag>
    requires { IsFor unit.now.unit.device received.now }
    ensures { result ≡ volume_after unit.now.unit.device received.now.cdb }
{
    match unit.kind() {
        Kind::Drive => unit.held(0),
        Kind::Changer => match errand_of(unit.drives(), received) {
            Some(errand) => volume_at_end(unit, errand),
            None => None,
        },
    }
}

/// The one of an errand at a changer that carried it out.
fn volume_at_end<D: DeviceServer>(changer: &LogicalUnit<D>, errand: Errand) -> Option<VolumeTag>
    ensures { result ≡ at_end changer.now.unit.device (Some errand) }
{
    match errand {
        Errand::Move(route) => changer.held(route.destination),
        Errand::Exchange(route) => changer.held(route.given_end()),
    }
}

/// Whether the reply to a command that was sent to a unit needn't wait for the medium.
#[tactic(auto, using(crate::proofs::AtOnce::at_once))]
fn is_at_once<D: DeviceServer>(unit: &LogicalUnit<D>, received: &ReceivedCommand<'_>) -> bool
    requires { IsFor unit.now.unit.device received.now }
    ensures { result ≡ true → asks_at_once (event.Command received.now.cdb received.now.bytes) ≡ true }
{
    match unit.kind() {
        Kind::Drive => match received.request() {
            Ok(request) => is_immediate(&request),
            Err(_) => false,
        },
        Kind::Changer => false,
    }
}

impl<D: DeviceServer> LogicalUnit<D> {
    /// One command, as `execute` does it, with its answer. Without a number it is BUSY, and nothing has changed.
    pub fn carry_out<'a>(&mut self, alloc: Global, received: &ReceivedCommand<'a>) -> Done<'a>
        requires { IsFor self.old.unit.device received.now }
        ensures answer { IsAnswer result (Some received.now.nexus) self.old.unit.state.lun (event.Command received.now.cdb received.now.bytes) }
        ensures step { Executes self.old.unit received.now.nexus received.now.cdb received.now.bytes (self.new.unit, result.reply) }
        ensures numbers { result.numbers ≡ own_number self.old.unit.state.lun result.reply.number }
        ensures act { result.act ≡ act_kind_if result.numbers (act_kind_of (act_of_decoded (command_in received.now))) }
        ensures volume { result.volume ≡ volume_after self.new.unit.device received.now.cdb }
        ensures unnumbered { result.numbers ≡ [] → result.reply ≡ busy }
    {
        let lun = self.lun();
        let is_immediate = is_at_once(self, received);
        let (reply, act) = self.answer(alloc, received);
        let receipt = Receipt::of(lun, reply);
        let volume = volume_after(self, received);
        done_with(
            Some(received.nexus()),
            lun,
            asked_by(received),
            act,
            volume,
            is_immediate,
            receipt,
        )
    }

    /// An I_T nexus loss, as `lose` does it, with its answer. Without a number it is BUSY with nothing changed, or the nexus
    /// has no slot.
    pub fn carry_out_loss(&mut self, alloc: Global, nexus: Nexus) -> Done<'static>
        ensures answer { IsAnswer result (Some nexus) self.old.unit.state.lun event.Loss }
        ensures step { IsLost self.old.unit nexus (self.new.unit, result.reply) }
        ensures numbers { result.numbers ≡ own_number self.old.unit.state.lun result.reply.number }
        ensures act { result.act ≡ act_kind_if result.numbers ActKind.Loss }
        ensures volume { result.volume ≡ None }
    {
        let lun = self.lun();
        let reply = self.lose_reply(alloc, nexus);
        let receipt = Receipt::of(lun, reply);
        let act = recorded_kind(ActKind::Loss, receipt.numbers.as_slice());
        done_with(Some(nexus), lun, EventKind::Loss, act, None, false, receipt)
    }

    /// A reset of the unit, as `reset` does it, with its answer. Without a number it is BUSY, and nothing has changed.
    pub fn carry_out_reset(&mut self, alloc: Global) -> Done<'static>
        ensures answer { IsAnswer result None self.old.unit.state.lun event.Reset }
        ensures step { IsReset self.old.unit (self.new.unit, result.reply) }
        ensures numbers { result.numbers ≡ own_number self.old.unit.state.lun result.reply.number }
        ensures act { result.act ≡ act_kind_if result.numbers ActKind.Reset }
        ensures volume { result.volume ≡ None }
        ensures unnumbered { result.numbers ≡ [] → result.reply ≡ busy }
    {
        let lun = self.lun();
        let reply = self.reset_reply(alloc);
        let receipt = Receipt::of(lun, reply);
        let act = recorded_kind(ActKind::Reset, receipt.numbers.as_slice());
        done_with(None, lun, EventKind::Reset, act, None, false, receipt)
    }
}

/// A MOVE MEDIUM or an EXCHANGE MEDIUM that names one drive, as `move_one` does it, with its answer. Without a number it is BUSY, and nothing has
/// changed.
pub fn carry_out_move_one<'a, D: DeviceServer>(
    alloc: Global,
    changer: &mut LogicalUnit<D>,
    drive: &mut LogicalUnit<D>,
    received: &ReceivedCommand<'a>,
) -> Done<'a>
    requires kind { IsFor changer.old.unit.device received.now }
    requires named { named (commands_of changer.old.unit.device) (drives_of changer.old.unit.device) received.now.cdb ≡ drive.old.unit.state.lun ∷ [] }
    ensures answer { IsAnswer result (Some received.now.nexus) changer.old.unit.state.lun (event.Command received.now.cdb received.now.bytes) }
    ensures step { MovesOne changer.old.unit drive.old.unit received.now.nexus received.now.cdb received.now.bytes ((changer.new.unit, result.reply), drive.new.unit) }
    ensures numbers { result.numbers ≡ numbers_of changer.old.unit changer.new.unit ++ numbers_of drive.old.unit drive.new.unit }
    ensures act { result.act ≡ act_kind_if result.numbers (act_kind_of (act_of_decoded (command_in received.now))) }
    ensures volume { result.volume ≡ volume_after changer.new.unit.device received.now.cdb }
    ensures unnumbered { result.numbers ≡ [] → result.reply ≡ busy }
{
    let lun = changer.lun();
    let errand = errand_in(changer, received);
    let receipt = move_one_for(alloc, changer, drive, received, errand);
    let asked = ActKind::Command(errand.class());
    let act = recorded_kind(asked, receipt.numbers.as_slice());
    let volume = volume_at_end(changer, errand);
    done_with(
        Some(received.nexus()),
        lun,
        asked_by(received),
        act,
        volume,
        false,
        receipt,
    )
}

/// The same for a MOVE MEDIUM that names two drives, the lower first.
pub fn carry_out_move_two<'a, D: DeviceServer>(
    alloc: Global,
    changer: &mut LogicalUnit<D>,
    low: &mut LogicalUnit<D>,
    high: &mut LogicalUnit<D>,
    received: &ReceivedCommand<'a>,
) -> Done<'a>
    requires kind { IsFor changer.old.unit.device received.now }
    requires named { named (commands_of changer.old.unit.device) (drives_of changer.old.unit.device) received.now.cdb ≡ low.old.unit.state.lun ∷ high.old.unit.state.lun ∷ [] }
    ensures answer { IsAnswer result (Some received.now.nexus) changer.old.unit.state.lun (event.Command received.now.cdb received.now.bytes) }
    ensures step { MovesTwo changer.old.unit (record { low = low.old.unit; high = high.old.unit }) received.now.nexus received.now.cdb received.now.bytes ((changer.new.unit, result.reply), record { low = low.new.unit; high = high.new.unit }) }
    ensures numbers { result.numbers ≡ numbers_of changer.old.unit changer.new.unit ++ numbers_of low.old.unit low.new.unit ++ numbers_of high.old.unit high.new.unit }
    ensures act { result.act ≡ act_kind_if result.numbers (act_kind_of (act_of_decoded (command_in received.now))) }
    ensures volume { result.volume ≡ volume_after changer.new.unit.device received.now.cdb }
    ensures unnumbered { result.numbers ≡ [] → result.reply ≡ busy }
{
    let lun = changer.lun();
    let route = route_in(changer, received);
    let receipt = move_two_for(alloc, changer, low, high, received, route);
    let errand = Errand::Move(route);
    let asked = ActKind::Command(errand.class());
    let act = recorded_kind(asked, receipt.numbers.as_slice());
    let volume = volume_at_end(changer, errand);
    done_with(
        Some(received.nexus()),
        lun,
        asked_by(received),
        act,
        volume,
        false,
        receipt,
    )
}
