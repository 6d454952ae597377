//! The metrics of each volume in a drive.

ghost use Rattle.std.specs.Prelude.{◌≡◌, ◌++◌, OnOk, string_bytes};
ghost use Rattle.std.specs.List.{flat_map};
ghost use Rattle.metrics_text.specs.Volumes.{place_of, volume_family, volume_line, volume_lines, volume_metrics, volume_value};

use crate::family::{Family, VolumeNumber};
use crate::line::{write_heading, write_label, write_name, write_number, write_value};
use crate::word::Word;
use library_status::{UnitContents, UnitSummary, VolumeSummary, without_spaces};
use std::alloc::AllocError;

/// Adds the families of volumes.
#[tactic(auto, unfolding(crate::specs::Volumes::volume_metrics))]
pub(crate) fn write_volumes(text: &mut String, units: &[UnitSummary]) -> Result<(), AllocError>
    ensures { OnOk result (string_bytes text.new ≡ string_bytes text.old ++ volume_metrics units.now) }
{
    write_family(text, VolumeNumber::Position, units)?;
    write_family(text, VolumeNumber::Objects, units)?;
    write_family(text, VolumeNumber::Unsaved, units)?;
    write_family(text, VolumeNumber::Bytes, units)
}

#[tactic(auto, unfolding(crate::specs::Volumes::volume_family))]
fn write_family(
    text: &mut String,
    number: VolumeNumber,
    units: &[UnitSummary],
) -> Result<(), AllocError>
    ensures { OnOk result (string_bytes text.new ≡ string_bytes text.old ++ volume_family number units.now) }
{
    write_heading(text, Family::Volume(number))?;
    write_lines(text, number, units)
}

fn write_lines(
    text: &mut String,
    number: VolumeNumber,
    units: &[UnitSummary],
) -> Result<(), AllocError>
    ensures { OnOk result (string_bytes text.new ≡ string_bytes text.old ++ flat_map (volume_lines number) units.now) }
{
    for unit in units {
        write_contents(text, number, unit)?;
    }
    Ok(())
}

/// The line of the volume in a drive, if there is one.
#[tactic(auto, unfolding(crate::specs::Volumes::volume_lines))]
fn write_contents(
    text: &mut String,
    number: VolumeNumber,
    unit: &UnitSummary,
) -> Result<(), AllocError>
    ensures { OnOk result (string_bytes text.new ≡ string_bytes text.old ++ volume_lines number unit.now) }
{
    match &unit.contents {
        UnitContents::Changer(_) => Ok(()),
        UnitContents::Drive(None) => Ok(()),
        UnitContents::Drive(Some(volume)) => write_line(text, number, unit.lun, volume),
    }
}

#[tactic(auto, unfolding(crate::specs::Volumes::volume_line))]
fn write_line(
    text: &mut String,
    number: VolumeNumber,
    lun: u8,
    volume: &VolumeSummary,
) -> Result<(), AllocError>
    ensures { OnOk result (string_bytes text.new ≡ string_bytes text.old ++ volume_line number lun volume.now) }
{
    write_name(text, Family::Volume(number))?;
    write_place(text, lun, volume)?;
    write_value(text, Word::EndOfLabels, volume_value(number, volume))
}

/// In which unit it is, and its tag without the spaces at its end.
#[tactic(auto, unfolding(crate::specs::Volumes::place_of))]
fn write_place(text: &mut String, lun: u8, volume: &VolumeSummary) -> Result<(), AllocError>
    ensures { OnOk result (string_bytes text.new ≡ string_bytes text.old ++ place_of lun volume.now) }
{
    write_number(text, Word::Unit, u64::from(lun))?;
    write_label(text, Word::Volume, without_spaces(&volume.tag.0))
}

fn volume_value(number: VolumeNumber, volume: &VolumeSummary) -> u64
    ensures { result ≡ volume_value number volume.now }
{
    match number {
        VolumeNumber::Position => u64::from(volume.position),
        VolumeNumber::Objects => u64::from(volume.objects),
        VolumeNumber::Unsaved => u64::from(volume.objects.saturating_sub(volume.unchanged)),
        VolumeNumber::Bytes => volume.bytes,
    }
}
