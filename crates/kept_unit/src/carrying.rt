ghost use Rattle.std.specs.Prelude.{◌≡◌, ◌≢◌, ◌+◌, ◌<◌, ◌++◌, [], ◌∷◌, ℕ, Some};
ghost use Rattle.scsi_cdb.specs.Kinds.{commands_at};
ghost use Rattle.device_server.specs.View.{drives_of};
ghost use Rattle.judgement.specs.Replies.{busy};
ghost use Rattle.judgement.specs.Commands.{act_of_decoded};
ghost use Rattle.judgement.specs.Received.{command_in};
ghost use Rattle.logical_unit.specs.Move.{MovesOne, MovesTwo, numbers_of};
ghost use Rattle.logical_unit.specs.Route.{named};
ghost use Rattle.logical_unit.specs.Answers as event;
ghost use Rattle.logical_unit.specs.Answers.{IsAnswer, count_at};
ghost use Rattle.logical_unit.specs.ActKinds.{act_kind_of, act_kind_if};

use crate::kept::Kept;
use crate::ledgers::UnitLedger;
use device_server::DeviceServer;
use judgement::ReceivedCommand;
use logical_unit::{Done, carry_out_move_one, carry_out_move_two};
use std::alloc::Global;
use std::sync::ledger::Share;

/// A MOVE MEDIUM at the changer (SMC-3, "MOVE MEDIUM command"), which names the drive of this logical unit number, as
/// `named` says. Each record that it leaves is counted in its unit's book and in the part of that ledger. Without a number
/// it is BUSY, and nothing has changed.
pub fn move_kept_one<'a, const LUN: u8, C: UnitLedger, L: UnitLedger, D: DeviceServer>(
    alloc: Global,
    changer: &mut Kept<0, C, D>,
    drive: &mut Kept<LUN, L, D>,
    part: &mut Share<C>,
    drive_part: &mut Share<L>,
    received: &ReceivedCommand<'a>,
) -> Done<'a>
    requires commands { received.now.commands ≡ commands_at C.profile 0 }
    requires part { 0 < part.old.parts }
    requires drive_part { 0 < drive_part.old.parts }
    requires drive { 0 < LUN }
    requires named { named received.now.commands (drives_of changer.old.unit.device) received.now.cdb ≡ LUN ∷ [] }
    ensures answer { IsAnswer result (Some received.now.nexus) 0 (event.Command received.now.cdb received.now.bytes) }
    ensures step { MovesOne changer.old.unit drive.old.unit received.now.nexus received.now.cdb received.now.bytes ((changer.new.unit, result.reply), drive.new.unit) }
    ensures numbers { result.numbers ≡ numbers_of changer.old.unit changer.new.unit ++ numbers_of drive.old.unit drive.new.unit }
    ensures only { (k : ℕ) → k ≢ 0 → k ≢ LUN → count_at k result.numbers ≡ 0 }
    ensures act { result.act ≡ act_kind_if result.numbers (act_kind_of (act_of_decoded (command_in received.now))) }
    ensures unnumbered { result.numbers ≡ [] → result.reply ≡ busy }
    ensures book { changer.new.total ≡ changer.old.total + count_at 0 result.numbers }
    ensures handed_over { changer.new.handed_over ≡ changer.old.handed_over }
    ensures drive_handed_over { drive.new.handed_over ≡ drive.old.handed_over }
    ensures drive_book { drive.new.total ≡ drive.old.total + count_at LUN result.numbers }
    ensures part { part.new.amount ≡ part.old.amount + count_at 0 result.numbers }
    ensures drive_part { drive_part.new.amount ≡ drive_part.old.amount + count_at LUN result.numbers }
    ensures parts { (part.new.parts ≡ part.old.parts) × (drive_part.new.parts ≡ drive_part.old.parts) }
{
    let done = carry_out_move_one(alloc, &mut changer.unit, &mut drive.unit, received);
    changer.book.add(part, done.count_at(0));
    drive.book.add(drive_part, done.count_at(LUN));
    done
}

/// The same for one that names two drives, the lower first.
pub fn move_kept_two<
    'a,
    const LOW: u8,
    const HIGH: u8,
    C: UnitLedger,
    L: UnitLedger,
    H: UnitLedger,
    D: DeviceServer,
>(
    alloc: Global,
    changer: &mut Kept<0, C, D>,
    low: &mut Kept<LOW, L, D>,
    high: &mut Kept<HIGH, H, D>,
    part: &mut Share<C>,
    low_part: &mut Share<L>,
    high_part: &mut Share<H>,
    received: &ReceivedCommand<'a>,
) -> Done<'a>
    requires commands { received.now.commands ≡ commands_at C.profile 0 }
    requires part { 0 < part.old.parts }
    requires low_part { 0 < low_part.old.parts }
    requires high_part { 0 < high_part.old.parts }
    requires drives { (0 < LOW) × (LOW < HIGH) }
    requires named { named received.now.commands (drives_of changer.old.unit.device) received.now.cdb ≡ LOW ∷ HIGH ∷ [] }
    ensures answer { IsAnswer result (Some received.now.nexus) 0 (event.Command received.now.cdb received.now.bytes) }
    ensures step { MovesTwo changer.old.unit (record { low = low.old.unit; high = high.old.unit }) received.now.nexus received.now.cdb received.now.bytes ((changer.new.unit, result.reply), record { low = low.new.unit; high = high.new.unit }) }
    ensures numbers { result.numbers ≡ numbers_of changer.old.unit changer.new.unit ++ numbers_of low.old.unit low.new.unit ++ numbers_of high.old.unit high.new.unit }
    ensures only { (k : ℕ) → k ≢ 0 → k ≢ LOW → k ≢ HIGH → count_at k result.numbers ≡ 0 }
    ensures act { result.act ≡ act_kind_if result.numbers (act_kind_of (act_of_decoded (command_in received.now))) }
    ensures unnumbered { result.numbers ≡ [] → result.reply ≡ busy }
    ensures book { changer.new.total ≡ changer.old.total + count_at 0 result.numbers }
    ensures handed_over { changer.new.handed_over ≡ changer.old.handed_over }
    ensures low_handed_over { low.new.handed_over ≡ low.old.handed_over }
    ensures low_book { low.new.total ≡ low.old.total + count_at LOW result.numbers }
    ensures high_handed_over { high.new.handed_over ≡ high.old.handed_over }
    ensures high_book { high.new.total ≡ high.old.total + count_at HIGH result.numbers }
    ensures part { part.new.amount ≡ part.old.amount + count_at 0 result.numbers }
    ensures low_part { low_part.new.amount ≡ low_part.old.amount + count_at LOW result.numbers }
    ensures high_part { high_part.new.amount ≡ high_part.old.amount + count_at HIGH result.numbers }
    ensures parts { (part.new.parts ≡ part.old.parts) × (low_part.new.parts ≡ low_part.old.parts) × (high_part.new.parts ≡ high_part.old.parts) }
{
    let done = carry_out_move_two(
        alloc,
        &mut changer.unit,
        &mut low.unit,
        &mut high.unit,
        received,
    );
    changer.book.add(part, done.count_at(0));
    low.book.add(low_part, done.count_at(LOW));
    high.book.add(high_part, done.count_at(HIGH));
    done
}
