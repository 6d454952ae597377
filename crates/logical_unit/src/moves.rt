ghost use Rattle.std.specs.Prelude.{◌≡◌, ◌≢◌, ◌⊎◌, ◌<◌, ◌≤◌, ◌+◌, [], ◌∷◌, ◌++◌, length, true, Ok, Err, IsOk, Some, None, IfOk, OnOk, IfErr, OnErr};
ghost use Rattle.scsi_cdb.specs.declared.kind.Kind.TheVariants.{Changer};
ghost use Rattle.device_server.specs.View.{kind_of, commands_of, drives_of, held_in};
ghost use Rattle.judgement.specs.Received.{IsFor};
ghost use Rattle.logical_unit.specs.MoveJudgement.{DecodesTo, HasRouteWays, HasWays, StopsMove, AwaitsEnd, Finishes};
ghost use Rattle.logical_unit.specs.Contents.{SameContents, MayNotChange};
ghost use Rattle.logical_unit.specs.Medium.{taken_out, put_in};
ghost use Rattle.logical_unit.specs.Move.{TwoDrives, given, unloaded, loaded, passed, carried_by_one, carried_with_one, carried_one, carried_by_two, carried_two, MovesOne, MovesTwo, OneIsBusyOnlyFor, TwoAreBusyOnlyFor, numbers_of};
ghost use Rattle.logical_unit.specs.Route.{named, errand_of, records_for};
ghost use Rattle.logical_unit.specs.declared.route.Errand.TheVariants.{Move};
ghost use Rattle.logical_unit.specs.Step.{HasNumber, HasNumbers, LacksRecord, LacksRecords};
ghost use Rattle.logical_unit.specs.UnitView.{last_number, with_device};

use crate::exchanges::exchange;
use crate::move_judgement::{MoveJudgement, MoveStop};
use crate::receipt::Receipt;
use crate::route::{Errand, Route, errand_of};
use crate::unit::LogicalUnit;
use audit_log::Act;
use device_server::{DeviceServer, Payload};
use judgement::{Decision, ReceivedCommand, Reply};
use scsi_sense::Condition;
use std::alloc::Global;
use tape_medium::Volume;

/// Takes out the volume of a drive that gives it, with the number of its record.
pub(crate) fn take_out<D: DeviceServer>(drive: &mut LogicalUnit<D>) -> (Volume, u64)
    requires gives { IsOk (taken_out drive.old.unit) }
    requires room { 0 < drive.old.room }
    requires number { HasNumber drive.old.unit }
    ensures unit { taken_out drive.old.unit ≡ Ok (result.0, drive.new.unit) }
    ensures last { last_number drive.new.unit ≡ last_number drive.old.unit + 1 }
    ensures number { result.1 ≡ last_number drive.old.unit + 1 }
    ensures room { drive.old.room ≤ drive.new.room + 1 }
{
    match drive.medium_out() {
        Ok(taken) => taken,
        Err(_) => unreachable!(),
    }
}

/// Puts a volume into a drive that takes it, and answers the number of its record.
pub(crate) fn take_in<D: DeviceServer>(drive: &mut LogicalUnit<D>, volume: Volume) -> u64
    requires takes { IsOk (put_in drive.old.unit volume) }
    requires room { 0 < drive.old.room }
    requires number { HasNumber drive.old.unit }
    ensures unit { put_in drive.old.unit volume ≡ Ok drive.new.unit }
    ensures last { last_number drive.new.unit ≡ last_number drive.old.unit + 1 }
    ensures number { result ≡ last_number drive.old.unit + 1 }
{
    match drive.medium_in(volume) {
        Ok(number) => number,
        Err(_) => unreachable!(),
    }
}

/// Carries the volume of a drive into an element of the changer, and answers the number of the drive's record.
/// All is tested, and all room made, before anything changes.
fn unload<D: DeviceServer>(
    changer: &mut LogicalUnit<D>,
    drive: &mut LogicalUnit<D>,
    route: Route,
) -> Result<u64, MoveStop>
    requires ways { HasRouteWays changer.old.unit.device route }
    requires to { route.to ≡ None }
    ensures ok { OnOk result (unloaded changer.old.unit.device drive.old.unit route ≡ Ok (changer.new.unit.device, drive.new.unit)) }
    ensures number { IfOk result (λ number. HasNumber drive.old.unit × (number ≡ last_number drive.old.unit + 1)) }
    ensures last { OnOk result (last_number drive.new.unit ≡ last_number drive.old.unit + 1) }
    ensures changer { changer.new ≡ with_device changer.old changer.new.unit.device }
    ensures err { IfErr result (StopsMove (unloaded changer.old.unit.device drive.old.unit route) (LacksRecord drive.old)) }
    ensures same { OnErr result ((changer.new ≡ changer.old) × (drive.new.unit ≡ drive.old.unit)) }
{
    let mark = changer.held(route.source);
    if let Err(condition) = drive.gives(mark) {
        return Err(MoveStop::Refused(condition));
    }
    if !drive.reserve() {
        return Err(MoveStop::Busy);
    }
    let (volume, number) = take_out(drive);
    changer.put_at(route.destination, volume);
    changer.note_at(route.source, None);
    Ok(number)
}

/// Carries the volume of an element of the changer into a drive, and answers the number of the drive's record.
fn load<D: DeviceServer>(
    changer: &mut LogicalUnit<D>,
    drive: &mut LogicalUnit<D>,
    route: Route,
) -> Result<u64, MoveStop>
    requires ways { HasRouteWays changer.old.unit.device route }
    requires from { route.from ≡ None }
    ensures ok { OnOk result (loaded changer.old.unit.device drive.old.unit route ≡ Ok (changer.new.unit.device, drive.new.unit)) }
    ensures number { IfOk result (λ number. HasNumber drive.old.unit × (number ≡ last_number drive.old.unit + 1)) }
    ensures last { OnOk result (last_number drive.new.unit ≡ last_number drive.old.unit + 1) }
    ensures changer { changer.new ≡ with_device changer.old changer.new.unit.device }
    ensures err { IfErr result (StopsMove (loaded changer.old.unit.device drive.old.unit route) (LacksRecord drive.old)) }
    ensures same { OnErr result ((changer.new ≡ changer.old) × (drive.new.unit ≡ drive.old.unit)) }
{
    if !drive.takes() {
        return Err(MoveStop::Refused(Condition::InternalTargetFailure));
    }
    if !drive.reserve() {
        return Err(MoveStop::Busy);
    }
    let volume = changer.take_at(route.source);
    let tag = volume.tag;
    let number = take_in(drive, volume);
    changer.note_at(route.destination, Some(tag));
    Ok(number)
}

/// Carries the volume of a drive into another, and answers the numbers of their records.
fn pass<D: DeviceServer>(
    changer: &mut LogicalUnit<D>,
    giver: &mut LogicalUnit<D>,
    taker: &mut LogicalUnit<D>,
    route: Route,
) -> Result<(u64, u64), MoveStop>
    ensures ok { OnOk result (passed changer.old.unit.device giver.old.unit taker.old.unit route ≡ Ok (changer.new.unit.device, giver.new.unit, taker.new.unit)) }
    ensures giver { IfOk result (λ it. HasNumber giver.old.unit × (it.0 ≡ last_number giver.old.unit + 1)) }
    ensures last_giver { OnOk result (last_number giver.new.unit ≡ last_number giver.old.unit + 1) }
    ensures taker { IfOk result (λ it. HasNumber taker.old.unit × (it.1 ≡ last_number taker.old.unit + 1)) }
    ensures last_taker { OnOk result (last_number taker.new.unit ≡ last_number taker.old.unit + 1) }
    ensures changer { changer.new ≡ with_device changer.old changer.new.unit.device }
    ensures err { IfErr result (StopsMove (passed changer.old.unit.device giver.old.unit taker.old.unit route) (LacksRecord giver.old ⊎ LacksRecord taker.old)) }
    ensures same { OnErr result ((changer.new ≡ changer.old) × (giver.new.unit ≡ giver.old.unit) × (taker.new.unit ≡ taker.old.unit)) }
{
    let mark = changer.held(route.source);
    if let Err(condition) = giver.gives(mark) {
        return Err(MoveStop::Refused(condition));
    }
    if !taker.takes() {
        return Err(MoveStop::Refused(Condition::InternalTargetFailure));
    }
    if !giver.reserve() {
        return Err(MoveStop::Busy);
    }
    if !taker.reserve() {
        return Err(MoveStop::Busy);
    }
    let (volume, given) = take_out(giver);
    let tag = volume.tag;
    let taken = take_in(taker, volume);
    changer.note_at(route.source, None);
    changer.note_at(route.destination, Some(tag));
    Ok((given, taken))
}

/// Carries the volume of a move that names one drive, by which of its ends the drive is, and answers the number of the
/// drive's record.
fn carry_by_one<D: DeviceServer>(
    changer: &mut LogicalUnit<D>,
    drive: &mut LogicalUnit<D>,
    route: Route,
) -> Result<u64, MoveStop>
    requires ways { HasRouteWays changer.old.unit.device route }
    ensures ok { OnOk result (carried_by_one changer.old.unit.device drive.old.unit route route.from route.to ≡ Ok (changer.new.unit.device, drive.new.unit)) }
    ensures number { IfOk result (λ number. HasNumber drive.old.unit × (number ≡ last_number drive.old.unit + 1)) }
    ensures last { OnOk result (last_number drive.new.unit ≡ last_number drive.old.unit + 1) }
    ensures changer { changer.new ≡ with_device changer.old changer.new.unit.device }
    ensures err { IfErr result (StopsMove (carried_by_one changer.old.unit.device drive.old.unit route route.from route.to) (LacksRecord drive.old)) }
    ensures same { OnErr result ((changer.new ≡ changer.old) × (drive.new.unit ≡ drive.old.unit)) }
{
    match (route.from, route.to) {
        (Some(_), None) => unload(changer, drive, route),
        (None, Some(_)) => load(changer, drive, route),
        (None, None) | (Some(_), Some(_)) => {
            Err(MoveStop::Refused(Condition::InternalTargetFailure))
        }
    }
}

/// Carries the volumes of an errand that names one drive, and answers the number of the first of the drive's records.
fn carry_with_one<D: DeviceServer>(
    changer: &mut LogicalUnit<D>,
    drive: &mut LogicalUnit<D>,
    errand: Errand,
) -> Result<u64, MoveStop>
    requires ways { HasWays changer.old.unit.device errand }
    ensures ok { OnOk result (carried_with_one changer.old.unit.device drive.old.unit errand ≡ Ok (changer.new.unit.device, drive.new.unit)) }
    ensures number { IfOk result (λ number. HasNumbers drive.old.unit (records_for errand) × (number ≡ last_number drive.old.unit + 1)) }
    ensures last { OnOk result (last_number drive.new.unit ≡ last_number drive.old.unit + records_for errand) }
    ensures changer { changer.new ≡ with_device changer.old changer.new.unit.device }
    ensures err { IfErr result (StopsMove (carried_with_one changer.old.unit.device drive.old.unit errand) (LacksRecords drive.old (records_for errand))) }
    ensures same { OnErr result ((changer.new ≡ changer.old) × (drive.new.unit ≡ drive.old.unit)) }
{
    match errand {
        Errand::Move(route) => carry_by_one(changer, drive, route),
        Errand::Exchange(route) => exchange(changer, drive, route),
    }
}

/// The same, which the changer notes.
fn carry_one<D: DeviceServer>(
    changer: &mut LogicalUnit<D>,
    drive: &mut LogicalUnit<D>,
    errand: Errand,
) -> Result<u64, MoveStop>
    requires ways { HasWays changer.old.unit.device errand }
    ensures ok { OnOk result (carried_one changer.old.unit.device drive.old.unit (Some errand) ≡ Ok (changer.new.unit.device, drive.new.unit)) }
    ensures number { IfOk result (λ number. HasNumbers drive.old.unit (records_for errand) × (number ≡ last_number drive.old.unit + 1)) }
    ensures last { OnOk result (last_number drive.new.unit ≡ last_number drive.old.unit + records_for errand) }
    ensures changer { changer.new ≡ with_device changer.old changer.new.unit.device }
    ensures err { IfErr result (StopsMove (carried_one changer.old.unit.device drive.old.unit (Some errand)) (LacksRecords drive.old (records_for errand))) }
    ensures same { OnErr result ((changer.new ≡ changer.old) × (drive.new.unit ≡ drive.old.unit)) }
{
    let number = carry_with_one(changer, drive, errand)?;
    changer.note_errand(errand);
    Ok(number)
}

/// Carries the volume of a move that names two drives, up or down, and answers the numbers of their records in their
/// order.
fn carry_by_two<D: DeviceServer>(
    changer: &mut LogicalUnit<D>,
    low: &mut LogicalUnit<D>,
    high: &mut LogicalUnit<D>,
    route: Route,
) -> Result<(u64, u64), MoveStop>
    ensures ok { OnOk result (carried_by_two changer.old.unit.device (record { low = low.old.unit; high = high.old.unit }) route ≡ Ok (changer.new.unit.device, record { low = low.new.unit; high = high.new.unit })) }
    ensures low { IfOk result (λ it. HasNumber low.old.unit × (it.0 ≡ last_number low.old.unit + 1)) }
    ensures last_low { OnOk result (last_number low.new.unit ≡ last_number low.old.unit + 1) }
    ensures high { IfOk result (λ it. HasNumber high.old.unit × (it.1 ≡ last_number high.old.unit + 1)) }
    ensures last_high { OnOk result (last_number high.new.unit ≡ last_number high.old.unit + 1) }
    ensures changer { changer.new ≡ with_device changer.old changer.new.unit.device }
    ensures err { IfErr result (StopsMove (carried_by_two changer.old.unit.device (record { low = low.old.unit; high = high.old.unit }) route) (LacksRecord low.old ⊎ LacksRecord high.old)) }
    ensures same { OnErr result ((changer.new ≡ changer.old) × (low.new.unit ≡ low.old.unit) × (high.new.unit ≡ high.old.unit)) }
{
    if route.is_upward() {
        return pass(changer, low, high, route);
    }
    match pass(changer, high, low, route) {
        Ok((high, low)) => Ok((low, high)),
        Err(stop) => Err(stop),
    }
}

/// The same, which the changer notes.
fn carry_two<D: DeviceServer>(
    changer: &mut LogicalUnit<D>,
    low: &mut LogicalUnit<D>,
    high: &mut LogicalUnit<D>,
    route: Route,
) -> Result<(u64, u64), MoveStop>
    ensures ok { OnOk result (carried_two changer.old.unit.device (record { low = low.old.unit; high = high.old.unit }) (Some (Move route)) ≡ Ok (changer.new.unit.device, record { low = low.new.unit; high = high.new.unit })) }
    ensures low { IfOk result (λ it. HasNumber low.old.unit × (it.0 ≡ last_number low.old.unit + 1)) }
    ensures last_low { OnOk result (last_number low.new.unit ≡ last_number low.old.unit + 1) }
    ensures high { IfOk result (λ it. HasNumber high.old.unit × (it.1 ≡ last_number high.old.unit + 1)) }
    ensures last_high { OnOk result (last_number high.new.unit ≡ last_number high.old.unit + 1) }
    ensures changer { changer.new ≡ with_device changer.old changer.new.unit.device }
    ensures err { IfErr result (StopsMove (carried_two changer.old.unit.device (record { low = low.old.unit; high = high.old.unit }) (Some (Move route))) (LacksRecord low.old ⊎ LacksRecord high.old)) }
    ensures same { OnErr result ((changer.new ≡ changer.old) × (low.new.unit ≡ low.old.unit) × (high.new.unit ≡ high.old.unit)) }
{
    let numbers = carry_by_two(changer, low, high, route)?;
    changer.note_errand(Errand::Move(route));
    Ok(numbers)
}

/// Ends a command that judgement left to the drives, by what became of the volumes.
fn finish<D: DeviceServer>(
    alloc: Global,
    changer: &mut LogicalUnit<D>,
    received: &ReceivedCommand<'_>,
    act: Act,
    decision: Decision,
    stop: Option<MoveStop>,
) -> Reply
    requires awaits { AwaitsEnd changer.old.unit.state received.now.nexus act decision }
    requires room { 0 < changer.old.room }
    requires number { HasNumber changer.old.unit }
    ensures { Finishes changer.old changer.new received.now.nexus act decision stop result }
{
    let nexus = received.nexus();
    match stop {
        None => changer.end(nexus, act, decision, Reply::good(Payload::none(alloc))),
        Some(MoveStop::Refused(condition)) => {
            changer.end(nexus, act, decision, Reply::check(alloc, condition))
        }
        Some(MoveStop::Busy) => Reply::busy(alloc),
    }
}

/// A MOVE MEDIUM or an EXCHANGE MEDIUM (SMC-3, "MOVE MEDIUM command", "EXCHANGE MEDIUM command") at the changer, which names one drive, as
/// `named` says. It is judged at the changer as every command is. Where its map and marks refuse nothing, 53h/02h is reported for a drive
/// that gives its volume while removal is prevented there, then 44h/00h for one whose bay isn't as the map says; else the volumes go, the
/// changer's record says GOOD and the drive has a record of its own of the volume that it gave, and then one of the volume that it took. A
/// drive's reservation isn't asked. BUSY changes nothing; it comes only where there is no slot for the sender, or no room or no number for
/// the record at the changer, or for those of the drive, of volumes that would go. A sender to whom the permission table closes the
/// changing classes at the changer leaves its elements, and the drive.
pub fn move_one<D: DeviceServer>(
    alloc: Global,
    changer: &mut LogicalUnit<D>,
    drive: &mut LogicalUnit<D>,
    received: &ReceivedCommand<'_>,
) -> Receipt
    requires kind { IsFor changer.old.unit.device received.now }
    requires named { named (commands_of changer.old.unit.device) (drives_of changer.old.unit.device) received.now.cdb ≡ drive.old.unit.state.lun ∷ [] }
    ensures units { MovesOne changer.old.unit drive.old.unit received.now.nexus received.now.cdb received.now.bytes ((changer.new.unit, result.reply), drive.new.unit) }
    ensures busy { OneIsBusyOnlyFor changer.old drive.old received.now.nexus received.now.cdb received.now.bytes result.reply }
    ensures numbers { result.numbers.items ≡ numbers_of changer.old.unit changer.new.unit ++ numbers_of drive.old.unit drive.new.unit }
    ensures outsider { MayNotChange changer.old.unit.state.reservations received.now.nexus → SameContents changer.old.unit.device changer.new.unit.device }
    ensures stays { MayNotChange changer.old.unit.state.reservations received.now.nexus → drive.new.unit ≡ drive.old.unit }
{
    let errand = errand_in(changer, received);
    move_one_for(alloc, changer, drive, received, errand)
}

/// The same, where what the command asks of volumes is known.
pub(crate) fn move_one_for<D: DeviceServer>(
    alloc: Global,
    changer: &mut LogicalUnit<D>,
    drive: &mut LogicalUnit<D>,
    received: &ReceivedCommand<'_>,
    errand: Errand,
) -> Receipt
    requires kind { IsFor changer.old.unit.device received.now }
    requires named { named (commands_of changer.old.unit.device) (drives_of changer.old.unit.device) received.now.cdb ≡ drive.old.unit.state.lun ∷ [] }
    requires decodes { DecodesTo (commands_of changer.old.unit.device) (drives_of changer.old.unit.device) received.now.cdb errand }
    requires errand { errand_of (commands_of changer.old.unit.device) (drives_of changer.old.unit.device) received.now.cdb ≡ Some errand }
    requires changer { kind_of changer.old.unit.device ≡ Changer }
    ensures units { MovesOne changer.old.unit drive.old.unit received.now.nexus received.now.cdb received.now.bytes ((changer.new.unit, result.reply), drive.new.unit) }
    ensures busy { OneIsBusyOnlyFor changer.old drive.old received.now.nexus received.now.cdb received.now.bytes result.reply }
    ensures numbers { result.numbers.items ≡ numbers_of changer.old.unit changer.new.unit ++ numbers_of drive.old.unit drive.new.unit }
    ensures outsider { MayNotChange changer.old.unit.state.reservations received.now.nexus → SameContents changer.old.unit.device changer.new.unit.device }
    ensures stays { MayNotChange changer.old.unit.state.reservations received.now.nexus → drive.new.unit ≡ drive.old.unit }
{
    let lun = changer.lun();
    let drive_lun = drive.lun();
    let last = drive.last();
    let (act, decision) = match changer.begin(alloc, received, errand) {
        MoveJudgement::Answered(reply) => return Receipt::of(lun, reply),
        MoveJudgement::Left(act, decision) => (act, decision),
    };
    match carry_one(changer, drive, errand) {
        Ok(_) => {
            let reply = finish(alloc, changer, received, act, decision, None);
            Receipt::of(lun, reply).with_more(drive_lun, last, errand.records())
        }
        Err(stop) => {
            let reply = finish(alloc, changer, received, act, decision, Some(stop));
            Receipt::of(lun, reply)
        }
    }
}

/// The same for a MOVE MEDIUM which names two drives, the lower first: the volume goes out of one and into the other.
pub fn move_two<D: DeviceServer>(
    alloc: Global,
    changer: &mut LogicalUnit<D>,
    low: &mut LogicalUnit<D>,
    high: &mut LogicalUnit<D>,
    received: &ReceivedCommand<'_>,
) -> Receipt
    requires kind { IsFor changer.old.unit.device received.now }
    requires named { named (commands_of changer.old.unit.device) (drives_of changer.old.unit.device) received.now.cdb ≡ low.old.unit.state.lun ∷ high.old.unit.state.lun ∷ [] }
    ensures units { MovesTwo changer.old.unit (record { low = low.old.unit; high = high.old.unit }) received.now.nexus received.now.cdb received.now.bytes ((changer.new.unit, result.reply), record { low = low.new.unit; high = high.new.unit }) }
    ensures busy { TwoAreBusyOnlyFor changer.old low.old high.old received.now.nexus received.now.cdb received.now.bytes result.reply }
    ensures numbers { result.numbers.items ≡ numbers_of changer.old.unit changer.new.unit ++ numbers_of low.old.unit low.new.unit ++ numbers_of high.old.unit high.new.unit }
    ensures outsider { MayNotChange changer.old.unit.state.reservations received.now.nexus → SameContents changer.old.unit.device changer.new.unit.device }
    ensures stay { MayNotChange changer.old.unit.state.reservations received.now.nexus → (low.new.unit ≡ low.old.unit) × (high.new.unit ≡ high.old.unit) }
{
    let route = route_in(changer, received);
    move_two_for(alloc, changer, low, high, received, route)
}

/// The same, where the route is known.
pub(crate) fn move_two_for<D: DeviceServer>(
    alloc: Global,
    changer: &mut LogicalUnit<D>,
    low: &mut LogicalUnit<D>,
    high: &mut LogicalUnit<D>,
    received: &ReceivedCommand<'_>,
    route: Route,
) -> Receipt
    requires kind { IsFor changer.old.unit.device received.now }
    requires named { named (commands_of changer.old.unit.device) (drives_of changer.old.unit.device) received.now.cdb ≡ low.old.unit.state.lun ∷ high.old.unit.state.lun ∷ [] }
    requires decodes { DecodesTo (commands_of changer.old.unit.device) (drives_of changer.old.unit.device) received.now.cdb (Move route) }
    requires errand { errand_of (commands_of changer.old.unit.device) (drives_of changer.old.unit.device) received.now.cdb ≡ Some (Move route) }
    requires changer { kind_of changer.old.unit.device ≡ Changer }
    ensures units { MovesTwo changer.old.unit (record { low = low.old.unit; high = high.old.unit }) received.now.nexus received.now.cdb received.now.bytes ((changer.new.unit, result.reply), record { low = low.new.unit; high = high.new.unit }) }
    ensures busy { TwoAreBusyOnlyFor changer.old low.old high.old received.now.nexus received.now.cdb received.now.bytes result.reply }
    ensures numbers { result.numbers.items ≡ numbers_of changer.old.unit changer.new.unit ++ numbers_of low.old.unit low.new.unit ++ numbers_of high.old.unit high.new.unit }
    ensures outsider { MayNotChange changer.old.unit.state.reservations received.now.nexus → SameContents changer.old.unit.device changer.new.unit.device }
    ensures stay { MayNotChange changer.old.unit.state.reservations received.now.nexus → (low.new.unit ≡ low.old.unit) × (high.new.unit ≡ high.old.unit) }
{
    let lun = changer.lun();
    let low_lun = low.lun();
    let high_lun = high.lun();
    let (act, decision) = match changer.begin(alloc, received, Errand::Move(route)) {
        MoveJudgement::Answered(reply) => return Receipt::of(lun, reply),
        MoveJudgement::Left(act, decision) => (act, decision),
    };
    match carry_two(changer, low, high, route) {
        Ok(numbers) => {
            let reply = finish(alloc, changer, received, act, decision, None);
            let receipt = Receipt::of(lun, reply).with(low_lun, numbers.0);
            receipt.with(high_lun, numbers.1)
        }
        Err(stop) => {
            let reply = finish(alloc, changer, received, act, decision, Some(stop));
            Receipt::of(lun, reply)
        }
    }
}

/// What a command that names a drive asks of volumes.
pub(crate) fn errand_in<D: DeviceServer>(
    changer: &LogicalUnit<D>,
    received: &ReceivedCommand<'_>,
) -> Errand
    requires kind { IsFor changer.now.unit.device received.now }
    requires named { named (commands_of changer.now.unit.device) (drives_of changer.now.unit.device) received.now.cdb ≢ [] }
    ensures decodes { DecodesTo (commands_of changer.now.unit.device) (drives_of changer.now.unit.device) received.now.cdb result }
    ensures errand { errand_of (commands_of changer.now.unit.device) (drives_of changer.now.unit.device) received.now.cdb ≡ Some result }
    ensures changer { kind_of changer.now.unit.device ≡ Changer }
{
    match errand_of(changer.drives(), received) {
        Some(errand) => errand,
        None => unreachable!(),
    }
}

/// The route of a command that names two drives, which is a MOVE MEDIUM.
pub(crate) fn route_in<D: DeviceServer>(
    changer: &LogicalUnit<D>,
    received: &ReceivedCommand<'_>,
) -> Route
    requires kind { IsFor changer.now.unit.device received.now }
    requires named { 1 < length (named (commands_of changer.now.unit.device) (drives_of changer.now.unit.device) received.now.cdb) }
    ensures decodes { DecodesTo (commands_of changer.now.unit.device) (drives_of changer.now.unit.device) received.now.cdb (Move result) }
    ensures errand { errand_of (commands_of changer.now.unit.device) (drives_of changer.now.unit.device) received.now.cdb ≡ Some (Move result) }
    ensures changer { kind_of changer.now.unit.device ≡ Changer }
{
    match errand_in(changer, received) {
        Errand::Move(route) => route,
        Errand::Exchange(_) => unreachable!(),
    }
}
