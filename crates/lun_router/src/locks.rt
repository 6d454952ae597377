//! One call at the unit under a lock, or at the units under several: the changer's lock is taken first, then those of the
//! drives by rising number.
ghost use Rattle.std.specs.Prelude.{◌≡◌, ◌≢◌, ◌⊎◌, ◌<◌, ◌+◌, [], ◌∷◌, ℕ, true, false, Some, None, IsTrue, IsSome, IsNone, ◌↔◌};
ghost use Rattle.scsi_sense.specs.declared.condition.Condition.TheVariants.{LogicalUnitNotSupported};
ghost use Rattle.device_server.specs.Attending.{WasAsked};
ghost use Rattle.device_server.specs.View.{drives_of};
ghost use Rattle.judgement.specs.Replies.{AnswersAbsent, busy, check};
ghost use Rattle.judgement.specs.Commands.{act_of_decoded};
ghost use Rattle.judgement.specs.Received.{command_in};
ghost use Rattle.logical_unit.specs.Route.{named};
ghost use Rattle.logical_unit.specs.Step.{event_reply};
ghost use Rattle.logical_unit.specs.declared.act_kind.ActKind.TheVariants as kind;
ghost use Rattle.logical_unit.specs.Answers as event;
ghost use Rattle.logical_unit.specs.Answers.{IsAnswer, count_at, OnlyAt};
ghost use Rattle.logical_unit.specs.ActKinds.{act_kind_of, act_kind_if};
ghost use Rattle.scsi_cdb.specs.Kinds.{kind_at, commands_at};
ghost use Rattle.lun_router.specs.Answering.{IsSomeTrail};

use crate::gate::Gate;
use crate::locked::Locked;
use audit_log::Record;
use device_server::{Attendant, DeviceServer};
use judgement::ReceivedCommand;
use kept_unit::{Kept, UnitLedger, move_kept_one, move_kept_two};
use logical_unit::Done;
use scsi_nexus::Nexus;
use std::alloc::Global;
use std::sync::Wait;
use std::sync::ledger::Share;

/// A command at the unit under this lock.
pub(crate) fn step_at<'a, const LUN: u8, L: UnitLedger, D: DeviceServer, G: Gate, R: Wait>(
    rt: &R,
    alloc: Global,
    gate: &G,
    lock: &Locked<LUN, L, D>,
    part: &mut Share<L>,
    received: &ReceivedCommand<'a>,
) -> Done<'a>
    requires commands { received.now.commands ≡ commands_at L.profile LUN }
    requires parts { part.old.parts ≡ 1 }
    ensures answer { IsAnswer result (Some received.now.nexus) LUN (event.Command received.now.cdb received.now.bytes) }
    ensures act { result.act ≡ act_kind_if result.numbers (act_kind_of (act_of_decoded (command_in received.now))) }
    ensures only { OnlyAt LUN result.numbers }
    ensures unnumbered { result.numbers ≡ [] → result.reply ≡ busy }
    ensures part { part.new.amount ≡ part.old.amount + count_at LUN result.numbers }
    ensures parts { part.new.parts ≡ 1 }
{
    let mut kept = lock.mutex().lock(rt);
    gate.inside(LUN, received.nexus());
    kept.step(alloc, part, received)
}

/// The same where the unit may be absent.
pub(crate) fn step_if_there<'a, const LUN: u8, L: UnitLedger, D: DeviceServer, G: Gate, R: Wait>(
    rt: &R,
    alloc: Global,
    gate: &G,
    lock: &Option<Locked<LUN, L, D>>,
    part: &mut Share<L>,
    received: &ReceivedCommand<'a>,
) -> Done<'a>
    requires commands { received.now.commands ≡ commands_at L.profile LUN }
    requires parts { part.old.parts ≡ 1 }
    ensures answer { IsAnswer result (Some received.now.nexus) LUN (event.Command received.now.cdb received.now.bytes) }
    ensures act { result.act ≡ act_kind_if result.numbers (act_kind_of (act_of_decoded (command_in received.now))) }
    ensures only { OnlyAt LUN result.numbers }
    ensures there { IsSome lock.now → result.numbers ≡ [] → result.reply ≡ busy }
    ensures absent { IsNone lock.now → AnswersAbsent received.now.cdb result.reply }
    ensures part { part.new.amount ≡ part.old.amount + count_at LUN result.numbers }
    ensures parts { part.new.parts ≡ 1 }
{
    match lock {
        Some(lock) => step_at(rt, alloc, gate, lock, part, received),
        None => Done::absent(alloc, LUN, received),
    }
}

/// The loss of a nexus at the unit under this lock.
pub(crate) fn lose_at<const LUN: u8, L: UnitLedger, D: DeviceServer, R: Wait>(
    rt: &R,
    alloc: Global,
    lock: &Locked<LUN, L, D>,
    part: &mut Share<L>,
    nexus: Nexus,
) -> Done<'static>
    requires { part.old.parts ≡ 1 }
    ensures answer { IsAnswer result (Some nexus) LUN event.Loss }
    ensures act { result.act ≡ act_kind_if result.numbers kind.Loss }
    ensures only { OnlyAt LUN result.numbers }
    ensures unnumbered { result.numbers ≡ [] → (result.reply ≡ busy) ⊎ (result.reply ≡ event_reply 0) }
    ensures part { part.new.amount ≡ part.old.amount + count_at LUN result.numbers }
    ensures parts { part.new.parts ≡ 1 }
{
    let mut kept = lock.mutex().lock(rt);
    kept.lose(alloc, part, nexus)
}

/// The same where the unit may be absent.
pub(crate) fn lose_if_there<const LUN: u8, L: UnitLedger, D: DeviceServer, R: Wait>(
    rt: &R,
    alloc: Global,
    lock: &Option<Locked<LUN, L, D>>,
    part: &mut Share<L>,
    nexus: Nexus,
) -> Done<'static>
    requires { part.old.parts ≡ 1 }
    ensures answer { IsAnswer result (Some nexus) LUN event.Loss }
    ensures act { result.act ≡ act_kind_if result.numbers kind.Loss }
    ensures only { OnlyAt LUN result.numbers }
    ensures there { IsSome lock.now → result.numbers ≡ [] → (result.reply ≡ busy) ⊎ (result.reply ≡ event_reply 0) }
    ensures absent { IsNone lock.now → result.reply ≡ check LogicalUnitNotSupported }
    ensures part { part.new.amount ≡ part.old.amount + count_at LUN result.numbers }
    ensures parts { part.new.parts ≡ 1 }
{
    match lock {
        Some(lock) => lose_at(rt, alloc, lock, part, nexus),
        None => Done::absent_loss(alloc, nexus, LUN),
    }
}

/// A reset of the unit under this lock.
pub(crate) fn reset_at<const LUN: u8, L: UnitLedger, D: DeviceServer, R: Wait>(
    rt: &R,
    alloc: Global,
    lock: &Locked<LUN, L, D>,
    part: &mut Share<L>,
) -> Done<'static>
    requires { part.old.parts ≡ 1 }
    ensures answer { IsAnswer result None LUN event.Reset }
    ensures act { result.act ≡ act_kind_if result.numbers kind.Reset }
    ensures only { OnlyAt LUN result.numbers }
    ensures unnumbered { result.numbers ≡ [] → result.reply ≡ busy }
    ensures part { part.new.amount ≡ part.old.amount + count_at LUN result.numbers }
    ensures parts { part.new.parts ≡ 1 }
{
    let mut kept = lock.mutex().lock(rt);
    kept.reset(alloc, part)
}

/// The same where the unit may be absent.
pub(crate) fn reset_if_there<const LUN: u8, L: UnitLedger, D: DeviceServer, R: Wait>(
    rt: &R,
    alloc: Global,
    lock: &Option<Locked<LUN, L, D>>,
    part: &mut Share<L>,
) -> Done<'static>
    requires { part.old.parts ≡ 1 }
    ensures answer { IsAnswer result None LUN event.Reset }
    ensures act { result.act ≡ act_kind_if result.numbers kind.Reset }
    ensures only { OnlyAt LUN result.numbers }
    ensures there { IsSome lock.now → result.numbers ≡ [] → result.reply ≡ busy }
    ensures absent { IsNone lock.now → result.reply ≡ check LogicalUnitNotSupported }
    ensures part { part.new.amount ≡ part.old.amount + count_at LUN result.numbers }
    ensures parts { part.new.parts ≡ 1 }
{
    match lock {
        Some(lock) => reset_at(rt, alloc, lock, part),
        None => Done::absent_reset(alloc, LUN),
    }
}

/// The records of the unit under this lock, handed out. True, since the unit is there.
pub(crate) fn drain_at<const LUN: u8, L: UnitLedger, D: DeviceServer, R: Wait>(
    rt: &R,
    lock: &Locked<LUN, L, D>,
    records: &mut Vec<Record>,
) -> bool
    requires { records.old.items ≡ [] }
    ensures there { result ≡ true }
    ensures trail { IsSomeTrail records.new.items }
{
    let mut kept = lock.mutex().lock(rt);
    kept.drain_into(records);
    true
}

/// The same where the unit may be absent.
pub(crate) fn drain_if_there<const LUN: u8, L: UnitLedger, D: DeviceServer, R: Wait>(
    rt: &R,
    lock: &Option<Locked<LUN, L, D>>,
    records: &mut Vec<Record>,
) -> bool
    requires { records.old.items ≡ [] }
    ensures there { IsTrue result ↔ IsSome lock.now }
    ensures trail { IsTrue result → IsSomeTrail records.new.items }
    ensures absent { result ≡ false → records.new ≡ records.old }
{
    match lock {
        Some(lock) => drain_at(rt, lock, records),
        None => false,
    }
}

/// Lets an attendant look after the volumes of the unit under this lock, of whose device nothing else is known outside the lock. True,
/// since the unit is there.
pub(crate) fn attend_at<const LUN: u8, L: UnitLedger, D: DeviceServer, A: Attendant<D>, R: Wait>(
    rt: &R,
    lock: &Locked<LUN, L, D>,
    attendant: &mut A,
) -> bool
    ensures there { result ≡ true }
    ensures asked { WasAsked A.looks_after LUN (kind_at LUN) attendant.old attendant.new }
{
    let mut kept = lock.mutex().lock(rt);
    kept.attend(attendant);
    true
}

/// The same where the unit may be absent.
pub(crate) fn attend_if_there<
    const LUN: u8,
    L: UnitLedger,
    D: DeviceServer,
    A: Attendant<D>,
    R: Wait,
>(rt: &R, lock: &Option<Locked<LUN, L, D>>, attendant: &mut A) -> bool
    ensures there { IsTrue result ↔ IsSome lock.now }
    ensures asked { IsTrue result → WasAsked A.looks_after LUN (kind_at LUN) attendant.old attendant.new }
    ensures absent { result ≡ false → attendant.new ≡ attendant.old }
{
    match lock {
        Some(lock) => attend_at(rt, lock, attendant),
        None => false,
    }
}

/// Whether a nexus has a slot at the unit under this lock, or finds one.
pub(crate) fn has_room_at<const LUN: u8, L: UnitLedger, D: DeviceServer, R: Wait>(
    rt: &R,
    lock: &Locked<LUN, L, D>,
    nexus: Nexus,
) -> bool {
    let mut kept = lock.mutex().lock(rt);
    kept.has_room(nexus)
}

/// The same where the unit may be absent: one that isn't there gives no slots.
pub(crate) fn has_room_if_there<const LUN: u8, L: UnitLedger, D: DeviceServer, R: Wait>(
    rt: &R,
    lock: &Option<Locked<LUN, L, D>>,
    nexus: Nexus,
) -> bool
    ensures { IsNone lock.now → result ≡ true }
{
    match lock {
        Some(lock) => has_room_at(rt, lock, nexus),
        None => true,
    }
}

/// A MOVE MEDIUM or EXCHANGE MEDIUM over the changer and the drive under this lock. Where the drive is absent, the changer alone answers.
pub(crate) fn move_with_one<
    'a,
    const LUN: u8,
    C: UnitLedger,
    L: UnitLedger,
    D: DeviceServer,
    R: Wait,
>(
    rt: &R,
    alloc: Global,
    changer: &mut Kept<0, C, D>,
    lock: Option<&Locked<LUN, L, D>>,
    part: &mut Share<C>,
    drive_part: &mut Share<L>,
    received: &ReceivedCommand<'a>,
) -> Done<'a>
    requires commands { received.now.commands ≡ commands_at C.profile 0 }
    requires part { part.old.parts ≡ 1 }
    requires drive_part { drive_part.old.parts ≡ 1 }
    requires drive { 0 < LUN }
    requires named { named received.now.commands (drives_of changer.old.unit.device) received.now.cdb ≡ LUN ∷ [] }
    ensures answer { IsAnswer result (Some received.now.nexus) 0 (event.Command received.now.cdb received.now.bytes) }
    ensures act { result.act ≡ act_kind_if result.numbers (act_kind_of (act_of_decoded (command_in received.now))) }
    ensures only { (k : ℕ) → k ≢ 0 → k ≢ LUN → count_at k result.numbers ≡ 0 }
    ensures unnumbered { result.numbers ≡ [] → result.reply ≡ busy }
    ensures part { part.new.amount ≡ part.old.amount + count_at 0 result.numbers }
    ensures drive_part { drive_part.new.amount ≡ drive_part.old.amount + count_at LUN result.numbers }
    ensures parts { (part.new.parts ≡ 1) × (drive_part.new.parts ≡ 1) }
{
    match lock {
        Some(lock) => {
            let mut drive = lock.mutex().lock(rt);
            move_kept_one(alloc, changer, &mut *drive, part, drive_part, received)
        }
        None => changer.step(alloc, part, received),
    }
}

/// The same over the drives under two locks, the lower first.
pub(crate) fn move_with_two<
    'a,
    const LOW: u8,
    const HIGH: u8,
    C: UnitLedger,
    L: UnitLedger,
    H: UnitLedger,
    D: DeviceServer,
    R: Wait,
>(
    rt: &R,
    alloc: Global,
    changer: &mut Kept<0, C, D>,
    low: Option<&Locked<LOW, L, D>>,
    high: Option<&Locked<HIGH, H, D>>,
    part: &mut Share<C>,
    low_part: &mut Share<L>,
    high_part: &mut Share<H>,
    received: &ReceivedCommand<'a>,
) -> Done<'a>
    requires commands { received.now.commands ≡ commands_at C.profile 0 }
    requires part { part.old.parts ≡ 1 }
    requires low_part { low_part.old.parts ≡ 1 }
    requires high_part { high_part.old.parts ≡ 1 }
    requires drives { (0 < LOW) × (LOW < HIGH) }
    requires named { named received.now.commands (drives_of changer.old.unit.device) received.now.cdb ≡ LOW ∷ HIGH ∷ [] }
    ensures answer { IsAnswer result (Some received.now.nexus) 0 (event.Command received.now.cdb received.now.bytes) }
    ensures act { result.act ≡ act_kind_if result.numbers (act_kind_of (act_of_decoded (command_in received.now))) }
    ensures only { (k : ℕ) → k ≢ 0 → k ≢ LOW → k ≢ HIGH → count_at k result.numbers ≡ 0 }
    ensures unnumbered { result.numbers ≡ [] → result.reply ≡ busy }
    ensures part { part.new.amount ≡ part.old.amount + count_at 0 result.numbers }
    ensures low_part { low_part.new.amount ≡ low_part.old.amount + count_at LOW result.numbers }
    ensures high_part { high_part.new.amount ≡ high_part.old.amount + count_at HIGH result.numbers }
    ensures parts { (part.new.parts ≡ 1) × (low_part.new.parts ≡ 1) × (high_part.new.parts ≡ 1) }
{
    let (Some(low), Some(high)) = (low, high) else {
        return changer.step(alloc, part, received);
    };
    let mut low = low.mutex().lock(rt);
    let mut high = high.mutex().lock(rt);
    move_kept_two(
        alloc, changer, &mut *low, &mut *high, part, low_part, high_part, received,
    )
}
