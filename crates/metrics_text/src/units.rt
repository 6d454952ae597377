//! The metrics of each unit.

ghost use Rattle.std.specs.Prelude.{◌≡◌, ◌++◌, OnOk, string_bytes};
ghost use Rattle.std.specs.List.{flat_map};
ghost use Rattle.metrics_text.specs.Units.{held_metrics, record_metrics, unit_family, unit_line, unit_metrics, unit_value};

use crate::family::{Family, UnitNumber};
use crate::line::{write_heading, write_name, write_number, write_value};
use crate::word::Word;
use library_status::UnitSummary;
use std::alloc::AllocError;

/// Adds the families of units.
#[tactic(auto, unfolding(crate::specs::Units::unit_metrics))]
pub(crate) fn write_units(text: &mut String, units: &[UnitSummary]) -> Result<(), AllocError>
    ensures { OnOk result (string_bytes text.new ≡ string_bytes text.old ++ unit_metrics units.now) }
{
    write_record_families(text, units)?;
    write_held_families(text, units)
}

/// Those of records, and of slots.
#[tactic(auto, unfolding(crate::specs::Units::record_metrics))]
fn write_record_families(text: &mut String, units: &[UnitSummary]) -> Result<(), AllocError>
    ensures { OnOk result (string_bytes text.new ≡ string_bytes text.old ++ record_metrics units.now) }
{
    write_family(text, UnitNumber::Last, units)?;
    write_family(text, UnitNumber::Waiting, units)?;
    write_family(text, UnitNumber::Slots, units)
}

/// Those of who holds a unit.
#[tactic(auto, unfolding(crate::specs::Units::held_metrics))]
fn write_held_families(text: &mut String, units: &[UnitSummary]) -> Result<(), AllocError>
    ensures { OnOk result (string_bytes text.new ≡ string_bytes text.old ++ held_metrics units.now) }
{
    write_family(text, UnitNumber::Registrations, units)?;
    write_family(text, UnitNumber::Reserved, units)?;
    write_family(text, UnitNumber::Prevented, units)
}

#[tactic(auto, unfolding(crate::specs::Units::unit_family))]
fn write_family(
    text: &mut String,
    number: UnitNumber,
    units: &[UnitSummary],
) -> Result<(), AllocError>
    ensures { OnOk result (string_bytes text.new ≡ string_bytes text.old ++ unit_family number units.now) }
{
    write_heading(text, Family::Unit(number))?;
    write_lines(text, number, units)
}

fn write_lines(
    text: &mut String,
    number: UnitNumber,
    units: &[UnitSummary],
) -> Result<(), AllocError>
    ensures { OnOk result (string_bytes text.new ≡ string_bytes text.old ++ flat_map (unit_line number) units.now) }
{
    for unit in units {
        write_line(text, number, unit)?;
    }
    Ok(())
}

#[tactic(auto, unfolding(crate::specs::Units::unit_line))]
fn write_line(text: &mut String, number: UnitNumber, unit: &UnitSummary) -> Result<(), AllocError>
    ensures { OnOk result (string_bytes text.new ≡ string_bytes text.old ++ unit_line number unit.now) }
{
    write_name(text, Family::Unit(number))?;
    write_number(text, Word::Unit, u64::from(unit.lun))?;
    write_value(text, Word::EndOfLabels, unit_value(number, unit))
}

fn unit_value(number: UnitNumber, unit: &UnitSummary) -> u64
    ensures { result ≡ unit_value number unit.now }
{
    match number {
        UnitNumber::Last => unit.last,
        UnitNumber::Waiting => unit.waiting as u64,
        UnitNumber::Slots => unit.slots as u64,
        UnitNumber::Registrations => unit.registrations.len() as u64,
        UnitNumber::Reserved => u64::from(unit.reservation.is_some()),
        UnitNumber::Prevented => u64::from(unit.is_prevented),
    }
}
