//! The volumes of an EXCHANGE MEDIUM with a drive (SMC-3, "EXCHANGE MEDIUM command"). All is tested, and all room made, before anything
//! changes; the drive gives its volume before it takes the other.

ghost use Rattle.std.specs.Prelude.{◌≡◌, ◌+◌, true, false, Ok, is_some, IfOk, OnOk, IfErr, OnErr};
ghost use Rattle.logical_unit.specs.MoveJudgement.{GivesOnly, GivesAndTakes, TakesOnly, Swaps, HasExchangeWays, StopsMove};
ghost use Rattle.logical_unit.specs.Move.{exchanged_by};
ghost use Rattle.logical_unit.specs.Route.{records_for};
ghost use Rattle.logical_unit.specs.Step.{HasNumbers, LacksRecords};
ghost use Rattle.logical_unit.specs.UnitView.{last_number, with_device};
ghost use Rattle.logical_unit.specs.declared.route.Errand.TheVariants.{Exchange};

use crate::move_judgement::MoveStop;
use crate::moves::{take_in, take_out};
use crate::route::ExchangeRoute;
use crate::unit::LogicalUnit;
use device_server::DeviceServer;
use scsi_sense::Condition;

/// Carries the drive's volume from the source to the first destination, and the first destination's to the second.
fn exchange_out<D: DeviceServer>(
    changer: &mut LogicalUnit<D>,
    drive: &mut LogicalUnit<D>,
    route: ExchangeRoute,
) -> Result<u64, MoveStop>
    requires ways { GivesOnly changer.old.unit.device route }
    ensures ok { OnOk result (exchanged_by changer.old.unit.device drive.old.unit route true false false ≡ Ok (changer.new.unit.device, drive.new.unit)) }
    ensures number { IfOk result (λ number. HasNumbers drive.old.unit 1 × (number ≡ last_number drive.old.unit + 1)) }
    ensures last { OnOk result (last_number drive.new.unit ≡ last_number drive.old.unit + 1) }
    ensures changer { changer.new ≡ with_device changer.old changer.new.unit.device }
    ensures err { IfErr result (StopsMove (exchanged_by changer.old.unit.device drive.old.unit route true false false) (LacksRecords drive.old 1)) }
    ensures same { OnErr result ((changer.new ≡ changer.old) × (drive.new.unit ≡ drive.old.unit)) }
{
    let mark = changer.held(route.source);
    if let Err(condition) = drive.gives(mark) {
        return Err(MoveStop::Refused(condition));
    }
    if !drive.reserve_for(1) {
        return Err(MoveStop::Busy);
    }
    let (one, number) = take_out(drive);
    changer.note_at(route.source, None);
    let other = changer.take_at(route.first);
    changer.put_at(route.first, one);
    changer.put_at(route.second, other);
    Ok(number)
}

/// Carries the drive's volume from the first destination to the second, and the source's into the drive.
fn exchange_through<D: DeviceServer>(
    changer: &mut LogicalUnit<D>,
    drive: &mut LogicalUnit<D>,
    route: ExchangeRoute,
) -> Result<u64, MoveStop>
    requires ways { GivesAndTakes changer.old.unit.device route }
    ensures ok { OnOk result (exchanged_by changer.old.unit.device drive.old.unit route false true false ≡ Ok (changer.new.unit.device, drive.new.unit)) }
    ensures number { IfOk result (λ number. HasNumbers drive.old.unit 2 × (number ≡ last_number drive.old.unit + 1)) }
    ensures last { OnOk result (last_number drive.new.unit ≡ last_number drive.old.unit + 2) }
    ensures changer { changer.new ≡ with_device changer.old changer.new.unit.device }
    ensures err { IfErr result (StopsMove (exchanged_by changer.old.unit.device drive.old.unit route false true false) (LacksRecords drive.old 2)) }
    ensures same { OnErr result ((changer.new ≡ changer.old) × (drive.new.unit ≡ drive.old.unit)) }
{
    let mark = changer.held(route.first);
    if let Err(condition) = drive.gives(mark) {
        return Err(MoveStop::Refused(condition));
    }
    if !drive.reserve_for(2) {
        return Err(MoveStop::Busy);
    }
    let one = changer.take_at(route.source);
    let (other, number) = take_out(drive);
    changer.note_at(route.first, None);
    let tag = one.tag;
    take_in(drive, one);
    changer.note_at(route.first, Some(tag));
    changer.put_at(route.second, other);
    Ok(number)
}

/// Carries the first destination's volume into the drive, the second destination, and the source's to the first.
fn exchange_in<D: DeviceServer>(
    changer: &mut LogicalUnit<D>,
    drive: &mut LogicalUnit<D>,
    route: ExchangeRoute,
) -> Result<u64, MoveStop>
    requires ways { TakesOnly changer.old.unit.device route }
    ensures ok { OnOk result (exchanged_by changer.old.unit.device drive.old.unit route false false true ≡ Ok (changer.new.unit.device, drive.new.unit)) }
    ensures number { IfOk result (λ number. HasNumbers drive.old.unit 1 × (number ≡ last_number drive.old.unit + 1)) }
    ensures last { OnOk result (last_number drive.new.unit ≡ last_number drive.old.unit + 1) }
    ensures changer { changer.new ≡ with_device changer.old changer.new.unit.device }
    ensures err { IfErr result (StopsMove (exchanged_by changer.old.unit.device drive.old.unit route false false true) (LacksRecords drive.old 1)) }
    ensures same { OnErr result ((changer.new ≡ changer.old) × (drive.new.unit ≡ drive.old.unit)) }
{
    if !drive.takes() {
        return Err(MoveStop::Refused(Condition::InternalTargetFailure));
    }
    if !drive.reserve_for(1) {
        return Err(MoveStop::Busy);
    }
    let one = changer.take_at(route.source);
    let other = changer.take_at(route.first);
    changer.put_at(route.first, one);
    let tag = other.tag;
    let number = take_in(drive, other);
    changer.note_at(route.second, Some(tag));
    Ok(number)
}

/// Carries the drive's volume from the source to the first destination, and the first destination's into the drive.
fn exchange_both<D: DeviceServer>(
    changer: &mut LogicalUnit<D>,
    drive: &mut LogicalUnit<D>,
    route: ExchangeRoute,
) -> Result<u64, MoveStop>
    requires ways { Swaps changer.old.unit.device route }
    ensures ok { OnOk result (exchanged_by changer.old.unit.device drive.old.unit route true false true ≡ Ok (changer.new.unit.device, drive.new.unit)) }
    ensures number { IfOk result (λ number. HasNumbers drive.old.unit 2 × (number ≡ last_number drive.old.unit + 1)) }
    ensures last { OnOk result (last_number drive.new.unit ≡ last_number drive.old.unit + 2) }
    ensures changer { changer.new ≡ with_device changer.old changer.new.unit.device }
    ensures err { IfErr result (StopsMove (exchanged_by changer.old.unit.device drive.old.unit route true false true) (LacksRecords drive.old 2)) }
    ensures same { OnErr result ((changer.new ≡ changer.old) × (drive.new.unit ≡ drive.old.unit)) }
{
    let mark = changer.held(route.source);
    if let Err(condition) = drive.gives(mark) {
        return Err(MoveStop::Refused(condition));
    }
    if !drive.reserve_for(2) {
        return Err(MoveStop::Busy);
    }
    let (one, number) = take_out(drive);
    changer.note_at(route.source, None);
    let other = changer.take_at(route.first);
    changer.put_at(route.first, one);
    let tag = other.tag;
    take_in(drive, other);
    changer.note_at(route.second, Some(tag));
    Ok(number)
}

/// Carries both volumes, by which of the ends the drive is, and answers the number of the first of the drive's records.
pub(crate) fn exchange<D: DeviceServer>(
    changer: &mut LogicalUnit<D>,
    drive: &mut LogicalUnit<D>,
    route: ExchangeRoute,
) -> Result<u64, MoveStop>
    requires ways { HasExchangeWays changer.old.unit.device route (is_some route.from) (is_some route.between) (is_some route.to) }
    ensures ok { OnOk result (exchanged_by changer.old.unit.device drive.old.unit route (is_some route.from) (is_some route.between) (is_some route.to) ≡ Ok (changer.new.unit.device, drive.new.unit)) }
    ensures number { IfOk result (λ number. HasNumbers drive.old.unit (records_for (Exchange route)) × (number ≡ last_number drive.old.unit + 1)) }
    ensures last { OnOk result (last_number drive.new.unit ≡ last_number drive.old.unit + (records_for (Exchange route))) }
    ensures changer { changer.new ≡ with_device changer.old changer.new.unit.device }
    ensures err { IfErr result (StopsMove (exchanged_by changer.old.unit.device drive.old.unit route (is_some route.from) (is_some route.between) (is_some route.to)) (LacksRecords drive.old (records_for (Exchange route)))) }
    ensures same { OnErr result ((changer.new ≡ changer.old) × (drive.new.unit ≡ drive.old.unit)) }
{
    match (route.from, route.between, route.to) {
        (Some(_), None, None) => exchange_out(changer, drive, route),
        (None, Some(_), None) => exchange_through(changer, drive, route),
        (None, None, Some(_)) => exchange_in(changer, drive, route),
        (Some(_), None, Some(_)) => exchange_both(changer, drive, route),
        (None, None, None) | (Some(_), Some(_), _) | (None, Some(_), Some(_)) => unreachable!(),
    }
}
