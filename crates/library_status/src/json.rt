//! The summary of a library as a line of JSON (RFC 8259).

ghost use Rattle.std.specs.Prelude.{◌≡◌, ◌++◌, OnOk, Some, string_bytes};
ghost use Rattle.library_status.specs.Json.{address_json, cartridge_json, contents_json, element_json, element_type_text, failing_json, held_by_json, held_json, holder_json, holds_json, in_drive_json, kind_text, library_json, listed, memory_json, named_json, numbers_json, objects_json, place_json, profile_text, records_json, registration_json, registrations_json, reservation_json, reserved_json, server_json, sessions_json, state_json, tag_json, tape_json, truth, unit_json, units_json, volume_json};

use crate::sessions::write_session;
use crate::summary::{
    ElementSummary, LibrarySummary, ServerSummary, SessionSummary, UnitContents, UnitSummary,
    VolumeSummary,
};
use crate::word::Word;
use crate::words::{write_key, write_nexus, write_number, write_tag, write_word, write_words};
use element_map::ElementType;
use permit_tables::ResType;
use scsi_cdb::Profile;
use scsi_nexus::Nexus;
use std::alloc::AllocError;
use tape_medium::VolumeTag;

/// Adds the summary of a library, of its sessions and of its server in JSON, without the end of the line.
#[tactic(auto, unfolding(crate::specs::Json::library_json))]
pub(crate) fn write_library(
    text: &mut String,
    library: &LibrarySummary,
    sessions: &[SessionSummary],
    server: &ServerSummary,
) -> Result<(), AllocError>
    ensures { OnOk result (string_bytes text.new ≡ string_bytes text.old ++ library_json library.now sessions.now server.now) }
{
    write_words(text, Word::Version, profile_text(library.profile))?;
    write_units(text, &library.units)?;
    write_sessions(text, sessions)?;
    write_server(text, server)
}

#[tactic(auto, unfolding(crate::specs::Json::units_json))]
fn write_units(text: &mut String, units: &[UnitSummary]) -> Result<(), AllocError>
    ensures { OnOk result (string_bytes text.new ≡ string_bytes text.old ++ units_json units.now) }
{
    write_word(text, Word::Units)?;
    write_list(text, units)
}

#[tactic(auto, unfolding(crate::specs::Json::sessions_json))]
fn write_sessions(text: &mut String, sessions: &[SessionSummary]) -> Result<(), AllocError>
    ensures { OnOk result (string_bytes text.new ≡ string_bytes text.old ++ sessions_json sessions.now) }
{
    write_word(text, Word::Sessions)?;
    write_list(text, sessions)?;
    write_word(text, Word::EndOfList)
}

/// Adds what is told of a server, and ends the line.
#[tactic(auto, unfolding(crate::specs::Json::server_json))]
fn write_server(text: &mut String, server: &ServerSummary) -> Result<(), AllocError>
    ensures { OnOk result (string_bytes text.new ≡ string_bytes text.old ++ server_json server.now) }
{
    write_memory(text, server.memory)?;
    write_failing(text, server)?;
    write_word(text, Word::EndOfStatus)
}

fn write_memory(text: &mut String, memory: Option<u64>) -> Result<(), AllocError>
    ensures { OnOk result (string_bytes text.new ≡ string_bytes text.old ++ memory_json memory) }
{
    match memory {
        None => {
            write_word(text, Word::Memory)?;
            write_word(text, Word::Null)
        }
        Some(bytes) => write_number(text, Word::Memory, bytes),
    }
}

/// Adds what can't be written.
#[tactic(auto, unfolding(crate::specs::Json::failing_json))]
fn write_failing(text: &mut String, server: &ServerSummary) -> Result<(), AllocError>
    ensures { OnOk result (string_bytes text.new ≡ string_bytes text.old ++ failing_json server.now) }
{
    write_word(text, Word::Failing)?;
    write_list(text, &server.failing)?;
    write_words(
        text,
        Word::FailingInventory,
        truth(server.is_inventory_failing),
    )
}

pub(crate) fn profile_text(profile: Profile) -> &'static str
    ensures { result.now ≡ profile_text profile }
{
    match profile {
        Profile::Spec => "spec",
        Profile::Hosts => "hosts",
    }
}

fn truth(is_true: bool) -> &'static str
    ensures { result.now ≡ truth is_true }
{
    if is_true { "true" } else { "false" }
}

/// What an array may have.
trait Listed {
    ghost use Rattle.std.specs.Prelude.{◌≡◌, ◌++◌, ℕ, List, OnOk, string_bytes};

    ghost json: { Self → List ℕ };

    fn write_json(&self, text: &mut String) -> Result<(), AllocError>
        ensures { OnOk result (string_bytes text.new ≡ string_bytes text.old ++ json self.now) };
}

/// What is in an array, with commas between.
fn write_list<T: Listed>(text: &mut String, items: &[T]) -> Result<(), AllocError>
    ensures { OnOk result (string_bytes text.new ≡ string_bytes text.old ++ listed T.json items.now) }
{
    let Some((first, rest)) = items.split_first() else {
        return Ok(());
    };
    first.write_json(text)?;
    for item in rest {
        write_word(text, Word::Comma)?;
        item.write_json(text)?;
    }
    Ok(())
}

impl Listed for SessionSummary {
    ghost use Rattle.library_status.specs.Sessions.{session_json};

    ghost json = { session_json };

    fn write_json(&self, text: &mut String) -> Result<(), AllocError> {
        write_session(text, self)
    }
}

impl Listed for VolumeTag {
    ghost json = { named_json };

    fn write_json(&self, text: &mut String) -> Result<(), AllocError> {
        write_named(text, self)
    }
}

impl Listed for UnitSummary {
    ghost json = { unit_json };

    #[tactic(auto, unfolding(crate::specs::Json::unit_json))]
    fn write_json(&self, text: &mut String) -> Result<(), AllocError> {
        write_state(text, self)?;
        write_contents(text, &self.contents)?;
        write_word(text, Word::End)
    }
}

#[tactic(auto, unfolding(crate::specs::Json::state_json))]
fn write_state(text: &mut String, unit: &UnitSummary) -> Result<(), AllocError>
    ensures { OnOk result (string_bytes text.new ≡ string_bytes text.old ++ state_json unit.now) }
{
    write_place(text, unit)?;
    write_records(text, unit)?;
    write_held_by(text, unit)?;
    write_registrations(text, unit)
}

/// Which unit it is, and how many slots are used.
#[tactic(auto, unfolding(crate::specs::Json::place_json))]
fn write_place(text: &mut String, unit: &UnitSummary) -> Result<(), AllocError>
    ensures { OnOk result (string_bytes text.new ≡ string_bytes text.old ++ place_json unit.now) }
{
    write_number(text, Word::Lun, u64::from(unit.lun))?;
    write_words(text, Word::Kind, kind_text(&unit.contents))?;
    write_number(text, Word::Used, unit.slots as u64)
}

/// Its records, and whether removal is prevented.
#[tactic(auto, unfolding(crate::specs::Json::records_json))]
fn write_records(text: &mut String, unit: &UnitSummary) -> Result<(), AllocError>
    ensures { OnOk result (string_bytes text.new ≡ string_bytes text.old ++ records_json unit.now) }
{
    write_numbers(text, unit)?;
    write_words(text, Word::Prevented, truth(unit.is_prevented))
}

#[tactic(auto, unfolding(crate::specs::Json::numbers_json))]
fn write_numbers(text: &mut String, unit: &UnitSummary) -> Result<(), AllocError>
    ensures { OnOk result (string_bytes text.new ≡ string_bytes text.old ++ numbers_json unit.now) }
{
    write_number(text, Word::Last, unit.last)?;
    write_number(text, Word::Waiting, unit.waiting as u64)
}

pub(crate) fn kind_text(contents: &UnitContents) -> &'static str
    ensures { result.now ≡ kind_text contents.now }
{
    match contents {
        UnitContents::Changer(_) => "changer",
        UnitContents::Drive(_) => "drive",
    }
}

#[tactic(auto, unfolding(crate::specs::Json::held_by_json))]
fn write_held_by(text: &mut String, unit: &UnitSummary) -> Result<(), AllocError>
    ensures { OnOk result (string_bytes text.new ≡ string_bytes text.old ++ held_by_json unit.now) }
{
    write_number(text, Word::Generation, u64::from(unit.generation))?;
    write_reserved(text, unit.reservation)
}

#[tactic(auto, unfolding(crate::specs::Json::reserved_json))]
fn write_reserved(text: &mut String, held: Option<(ResType, Nexus)>) -> Result<(), AllocError>
    ensures { OnOk result (string_bytes text.new ≡ string_bytes text.old ++ reserved_json held) }
{
    write_word(text, Word::Reservation)?;
    write_reservation(text, held)
}

#[tactic(auto, unfolding(crate::specs::Json::registrations_json))]
fn write_registrations(text: &mut String, unit: &UnitSummary) -> Result<(), AllocError>
    ensures { OnOk result (string_bytes text.new ≡ string_bytes text.old ++ registrations_json unit.now) }
{
    write_word(text, Word::Registrations)?;
    write_list(text, &unit.registrations)?;
    write_word(text, Word::EndOfList)
}

fn write_reservation(text: &mut String, held: Option<(ResType, Nexus)>) -> Result<(), AllocError>
    ensures { OnOk result (string_bytes text.new ≡ string_bytes text.old ++ reservation_json held) }
{
    match held {
        None => write_word(text, Word::Null),
        Some((res_type, nexus)) => write_held(text, res_type, nexus),
    }
}

fn write_held(text: &mut String, res_type: ResType, nexus: Nexus) -> Result<(), AllocError>
    ensures { OnOk result (string_bytes text.new ≡ string_bytes text.old ++ held_json res_type nexus) }
{
    write_words(text, Word::Type, res_type.text())?;
    write_word(text, Word::Holder)?;
    write_holder(text, res_type, nexus)?;
    write_word(text, Word::End)
}

fn write_holder(text: &mut String, res_type: ResType, nexus: Nexus) -> Result<(), AllocError>
    ensures { OnOk result (string_bytes text.new ≡ string_bytes text.old ++ holder_json res_type nexus) }
{
    if res_type.is_all_registrants() {
        return write_word(text, Word::Null);
    }
    write_nexus(text, Word::Quote, nexus)?;
    write_word(text, Word::Quote)
}

impl Listed for (Nexus, u64) {
    ghost json = { registration_json };

    fn write_json(&self, text: &mut String) -> Result<(), AllocError> {
        let (nexus, key) = *self;
        write_nexus(text, Word::Nexus, nexus)?;
        write_key(text, Word::Key, key)?;
        write_word(text, Word::EndOfPair)
    }
}

fn write_contents(text: &mut String, contents: &UnitContents) -> Result<(), AllocError>
    ensures { OnOk result (string_bytes text.new ≡ string_bytes text.old ++ contents_json contents.now) }
{
    match contents {
        UnitContents::Changer(elements) => {
            write_word(text, Word::Elements)?;
            write_list(text, elements)?;
            write_word(text, Word::EndOfList)
        }
        UnitContents::Drive(volume) => {
            write_word(text, Word::Volume)?;
            write_volume(text, volume)
        }
    }
}

fn write_volume(text: &mut String, volume: &Option<VolumeSummary>) -> Result<(), AllocError>
    ensures { OnOk result (string_bytes text.new ≡ string_bytes text.old ++ volume_json volume.now) }
{
    match volume {
        Some(volume) => write_in_drive(text, volume),
        None => write_word(text, Word::Null),
    }
}

#[tactic(auto, unfolding(crate::specs::Json::in_drive_json))]
fn write_in_drive(text: &mut String, volume: &VolumeSummary) -> Result<(), AllocError>
    ensures { OnOk result (string_bytes text.new ≡ string_bytes text.old ++ in_drive_json volume.now) }
{
    write_cartridge(text, volume)?;
    write_tape(text, volume)?;
    write_word(text, Word::End)
}

#[tactic(auto, unfolding(crate::specs::Json::cartridge_json))]
fn write_cartridge(text: &mut String, volume: &VolumeSummary) -> Result<(), AllocError>
    ensures { OnOk result (string_bytes text.new ≡ string_bytes text.old ++ cartridge_json volume.now) }
{
    write_tag(text, Word::Tag, &volume.tag)?;
    write_words(text, Word::Protected, truth(volume.is_protected))
}

#[tactic(auto, unfolding(crate::specs::Json::tape_json))]
fn write_tape(text: &mut String, volume: &VolumeSummary) -> Result<(), AllocError>
    ensures { OnOk result (string_bytes text.new ≡ string_bytes text.old ++ tape_json volume.now) }
{
    write_objects(text, volume)?;
    write_number(text, Word::Bytes, volume.bytes)
}

#[tactic(auto, unfolding(crate::specs::Json::objects_json))]
fn write_objects(text: &mut String, volume: &VolumeSummary) -> Result<(), AllocError>
    ensures { OnOk result (string_bytes text.new ≡ string_bytes text.old ++ objects_json volume.now) }
{
    write_number(text, Word::Position, u64::from(volume.position))?;
    write_number(text, Word::Objects, u64::from(volume.objects))
}

impl Listed for ElementSummary {
    ghost json = { element_json };

    #[tactic(auto, unfolding(crate::specs::Json::element_json))]
    fn write_json(&self, text: &mut String) -> Result<(), AllocError> {
        write_address(text, self)?;
        write_holds(text, &self.tag)
    }
}

#[tactic(auto, unfolding(crate::specs::Json::holds_json))]
fn write_holds(text: &mut String, tag: &Option<VolumeTag>) -> Result<(), AllocError>
    ensures { OnOk result (string_bytes text.new ≡ string_bytes text.old ++ holds_json tag.now) }
{
    write_word(text, Word::Holds)?;
    write_held_tag(text, tag)?;
    write_word(text, Word::End)
}

#[tactic(auto, unfolding(crate::specs::Json::address_json))]
fn write_address(text: &mut String, element: &ElementSummary) -> Result<(), AllocError>
    ensures { OnOk result (string_bytes text.new ≡ string_bytes text.old ++ address_json element.now) }
{
    write_number(text, Word::Address, u64::from(element.address))?;
    write_words(
        text,
        Word::ElementType,
        element_type_text(element.element_type),
    )
}

pub(crate) fn element_type_text(element_type: ElementType) -> &'static str
    ensures { result.now ≡ element_type_text element_type }
{
    match element_type {
        ElementType::MediumTransport => "medium transport",
        ElementType::DataTransfer => "data transfer",
        ElementType::ImportExport => "import/export",
        ElementType::Storage => "storage",
    }
}

/// The tag of what is held, if something is.
fn write_held_tag(text: &mut String, tag: &Option<VolumeTag>) -> Result<(), AllocError>
    ensures { OnOk result (string_bytes text.new ≡ string_bytes text.old ++ tag_json tag.now) }
{
    match tag {
        None => write_word(text, Word::Null),
        Some(tag) => write_named(text, tag),
    }
}

fn write_named(text: &mut String, tag: &VolumeTag) -> Result<(), AllocError>
    ensures { OnOk result (string_bytes text.new ≡ string_bytes text.old ++ named_json tag.now) }
{
    write_tag(text, Word::Quote, tag)?;
    write_word(text, Word::Quote)
}
