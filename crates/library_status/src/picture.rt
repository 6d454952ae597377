//! The summary of a library as a picture for a terminal: lines of at most 80 columns.

ghost use Rattle.std.specs.Prelude.{◌≡◌, ◌++◌, OnOk, length, string_bytes};
ghost use Rattle.std.specs.List.{flat_map};
ghost use Rattle.library_status.specs.Picture.{cartridge_picture, contents_picture, counts, failing_line, head, held_by, holding, inventory_line, memory_line, picture, position_picture, prevention, protection, reservation_picture, server_picture, session_picture, size_in_memory, standing, tape_picture, title, unit_picture, units_picture, volume_picture};

use crate::json::{kind_text, profile_text};
use crate::rows::{write_elements, write_glyphs, write_named};
use crate::sessions::draw_session;
use crate::summary::{
    LibrarySummary, ServerSummary, SessionSummary, UnitContents, UnitSummary, VolumeSummary,
};
use crate::word::Word;
use crate::words::{without_spaces, write_nexus, write_number, write_word, write_words};
use permit_tables::ResType;
use scsi_cdb::Profile;
use scsi_nexus::Nexus;
use std::alloc::AllocError;
use tape_medium::VolumeTag;

/// Adds the picture of a library, of its server, and of sessions that go on.
#[tactic(auto, unfolding(crate::specs::Picture::picture))]
pub(crate) fn write_picture(
    text: &mut String,
    library: &LibrarySummary,
    sessions: &[SessionSummary],
    server: &ServerSummary,
) -> Result<(), AllocError>
    ensures { OnOk result (string_bytes text.new ≡ string_bytes text.old ++ picture library.now sessions.now server.now) }
{
    write_all_units(text, library, server)?;
    write_sessions(text, sessions)?;
    write_word(text, Word::EndOfLine)
}

#[tactic(auto, unfolding(crate::specs::Picture::units_picture))]
fn write_all_units(
    text: &mut String,
    library: &LibrarySummary,
    server: &ServerSummary,
) -> Result<(), AllocError>
    ensures { OnOk result (string_bytes text.new ≡ string_bytes text.old ++ units_picture library.now server.now) }
{
    write_head(text, library.profile, server)?;
    write_units(text, &library.units)
}

#[tactic(auto, unfolding(crate::specs::Picture::head))]
fn write_head(text: &mut String, profile: Profile, server: &ServerSummary) -> Result<(), AllocError>
    ensures { OnOk result (string_bytes text.new ≡ string_bytes text.old ++ head profile server.now) }
{
    write_words(text, Word::Profile, profile_text(profile))?;
    write_server(text, server)
}

#[tactic(auto, unfolding(crate::specs::Picture::server_picture))]
fn write_server(text: &mut String, server: &ServerSummary) -> Result<(), AllocError>
    ensures { OnOk result (string_bytes text.new ≡ string_bytes text.old ++ server_picture server.now) }
{
    write_memory(text, server.memory)?;
    write_failing(text, &server.failing)?;
    write_inventory(text, server.is_inventory_failing)
}

fn write_memory(text: &mut String, memory: Option<u64>) -> Result<(), AllocError>
    ensures { OnOk result (string_bytes text.new ≡ string_bytes text.old ++ memory_line memory) }
{
    match memory {
        None => Ok(()),
        Some(bytes) => write_size(text, bytes),
    }
}

/// Adds a size in tenths of MiB, rounded down.
#[tactic(auto, unfolding(crate::specs::Picture::size_in_memory))]
fn write_size(text: &mut String, bytes: u64) -> Result<(), AllocError>
    ensures { OnOk result (string_bytes text.new ≡ string_bytes text.old ++ size_in_memory bytes) }
{
    let tenths = bytes / 1024 * 10 / 1024;
    write_number(text, Word::MemoryLine, tenths / 10)?;
    write_number(text, Word::Point, tenths % 10)?;
    write_word(text, Word::Mebibytes)
}

/// Adds a line for each volume whose image can't be written.
fn write_failing(text: &mut String, tags: &[VolumeTag]) -> Result<(), AllocError>
    ensures { OnOk result (string_bytes text.new ≡ string_bytes text.old ++ flat_map failing_line tags.now) }
{
    for tag in tags {
        write_failing_tag(text, tag)?;
    }
    Ok(())
}

#[tactic(auto, unfolding(crate::specs::Picture::failing_line))]
fn write_failing_tag(text: &mut String, tag: &VolumeTag) -> Result<(), AllocError>
    ensures { OnOk result (string_bytes text.new ≡ string_bytes text.old ++ failing_line tag.now) }
{
    write_word(text, Word::FailingLine)?;
    write_glyphs(text, without_spaces(&tag.0))
}

fn write_inventory(text: &mut String, is_failing: bool) -> Result<(), AllocError>
    ensures { OnOk result (string_bytes text.new ≡ string_bytes text.old ++ inventory_line is_failing) }
{
    if is_failing {
        write_word(text, Word::FailingInventoryLine)
    } else {
        Ok(())
    }
}

fn write_sessions(text: &mut String, sessions: &[SessionSummary]) -> Result<(), AllocError>
    ensures { OnOk result (string_bytes text.new ≡ string_bytes text.old ++ flat_map session_picture sessions.now) }
{
    for session in sessions {
        draw_session(text, session)?;
    }
    Ok(())
}

fn write_units(text: &mut String, units: &[UnitSummary]) -> Result<(), AllocError>
    ensures { OnOk result (string_bytes text.new ≡ string_bytes text.old ++ flat_map unit_picture units.now) }
{
    for unit in units {
        write_unit(text, unit)?;
    }
    Ok(())
}

#[tactic(auto, unfolding(crate::specs::Picture::unit_picture))]
fn write_unit(text: &mut String, unit: &UnitSummary) -> Result<(), AllocError>
    ensures { OnOk result (string_bytes text.new ≡ string_bytes text.old ++ unit_picture unit.now) }
{
    write_title(text, unit)?;
    write_standing(text, unit)?;
    write_contents(text, &unit.contents)
}

#[tactic(auto, unfolding(crate::specs::Picture::title))]
fn write_title(text: &mut String, unit: &UnitSummary) -> Result<(), AllocError>
    ensures { OnOk result (string_bytes text.new ≡ string_bytes text.old ++ title unit.now) }
{
    write_number(text, Word::Unit, u64::from(unit.lun))?;
    write_words(text, Word::UnitKind, kind_text(&unit.contents))
}

/// Who knows the unit and holds it.
#[tactic(auto, unfolding(crate::specs::Picture::standing))]
fn write_standing(text: &mut String, unit: &UnitSummary) -> Result<(), AllocError>
    ensures { OnOk result (string_bytes text.new ≡ string_bytes text.old ++ standing unit.now) }
{
    write_counts(text, unit)?;
    write_prevention(text, unit.is_prevented)?;
    write_holding(text, unit)
}

/// How many slots are used, how many records were made, and how many of them wait.
#[tactic(auto, unfolding(crate::specs::Picture::counts))]
fn write_counts(text: &mut String, unit: &UnitSummary) -> Result<(), AllocError>
    ensures { OnOk result (string_bytes text.new ≡ string_bytes text.old ++ counts unit.now) }
{
    write_number(text, Word::SlotsUsed, unit.slots as u64)?;
    write_number(text, Word::RecordsMade, unit.last)?;
    write_number(text, Word::NotHandedOut, unit.waiting as u64)
}

fn write_prevention(text: &mut String, is_prevented: bool) -> Result<(), AllocError>
    ensures { OnOk result (string_bytes text.new ≡ string_bytes text.old ++ prevention is_prevented) }
{
    if is_prevented {
        write_word(text, Word::RemovalPrevented)
    } else {
        Ok(())
    }
}

#[tactic(auto, unfolding(crate::specs::Picture::holding))]
fn write_holding(text: &mut String, unit: &UnitSummary) -> Result<(), AllocError>
    ensures { OnOk result (string_bytes text.new ≡ string_bytes text.old ++ holding unit.now) }
{
    write_reservation(text, unit.reservation)?;
    write_number(text, Word::Registered, unit.registrations.len() as u64)
}

fn write_reservation(text: &mut String, held: Option<(ResType, Nexus)>) -> Result<(), AllocError>
    ensures { OnOk result (string_bytes text.new ≡ string_bytes text.old ++ reservation_picture held) }
{
    match held {
        None => write_word(text, Word::NotReserved),
        Some((res_type, nexus)) => {
            write_words(text, Word::ReservedAs, res_type.text())?;
            write_holder(text, res_type, nexus)
        }
    }
}

fn write_holder(text: &mut String, res_type: ResType, nexus: Nexus) -> Result<(), AllocError>
    ensures { OnOk result (string_bytes text.new ≡ string_bytes text.old ++ held_by res_type nexus) }
{
    if res_type.is_all_registrants() {
        write_word(text, Word::ByAll)
    } else {
        write_nexus(text, Word::By, nexus)
    }
}

fn write_contents(text: &mut String, contents: &UnitContents) -> Result<(), AllocError>
    ensures { OnOk result (string_bytes text.new ≡ string_bytes text.old ++ contents_picture contents.now) }
{
    match contents {
        UnitContents::Changer(elements) => write_elements(text, elements),
        UnitContents::Drive(None) => write_word(text, Word::NoVolume),
        UnitContents::Drive(Some(volume)) => write_volume(text, volume),
    }
}

#[tactic(auto, unfolding(crate::specs::Picture::volume_picture))]
fn write_volume(text: &mut String, volume: &VolumeSummary) -> Result<(), AllocError>
    ensures { OnOk result (string_bytes text.new ≡ string_bytes text.old ++ volume_picture volume.now) }
{
    write_cartridge(text, volume)?;
    write_tape(text, volume)
}

#[tactic(auto, unfolding(crate::specs::Picture::cartridge_picture))]
fn write_cartridge(text: &mut String, volume: &VolumeSummary) -> Result<(), AllocError>
    ensures { OnOk result (string_bytes text.new ≡ string_bytes text.old ++ cartridge_picture volume.now) }
{
    write_named(text, &volume.tag)?;
    write_protection(text, volume.is_protected)
}

fn write_protection(text: &mut String, is_protected: bool) -> Result<(), AllocError>
    ensures { OnOk result (string_bytes text.new ≡ string_bytes text.old ++ protection is_protected) }
{
    if is_protected {
        write_word(text, Word::WriteProtected)
    } else {
        Ok(())
    }
}

/// Where the tape stands, what it has, and how much of that is in its image.
#[tactic(auto, unfolding(crate::specs::Picture::tape_picture))]
fn write_tape(text: &mut String, volume: &VolumeSummary) -> Result<(), AllocError>
    ensures { OnOk result (string_bytes text.new ≡ string_bytes text.old ++ tape_picture volume.now) }
{
    write_position(text, volume)?;
    write_number(text, Word::WrittenBytes, volume.bytes)?;
    write_number(text, Word::InImage, u64::from(volume.unchanged))
}

#[tactic(auto, unfolding(crate::specs::Picture::position_picture))]
fn write_position(text: &mut String, volume: &VolumeSummary) -> Result<(), AllocError>
    ensures { OnOk result (string_bytes text.new ≡ string_bytes text.old ++ position_picture volume.now) }
{
    write_number(text, Word::At, u64::from(volume.position))?;
    write_number(text, Word::Written, u64::from(volume.objects))
}
