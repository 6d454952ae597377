//! The parameter data of PERSISTENT RESERVE IN in words (SPC-4, "PERSISTENT RESERVE IN command").
ghost use Rattle.std.specs.Prelude.{◌≡◌, ◌++◌, ◌<◌, ◌^◌, OnOk};
ghost use Rattle.explanations.specs.Reservations.{generation_text, held_in, held_text, key_text, keys_in, list_in, listed, registration_text, registrations_in, reservations_text, role_text, type_text};
ghost use Rattle.permit_tables.specs.Types.{coded_type};

use crate::fields::{bit_at, byte_at, part, u16_at, u32_at};
use crate::hex_text::write_hex;
use crate::layout::*;
use crate::pieces::{Piece, write_pieces};
use crate::words::{write_code, write_cut, write_decimal, write_number, write_words};
use permit_tables::ResType;
use std::alloc::AllocError;

/// A list of PERSISTENT RESERVE IN.
#[derive(Clone, Copy)]
pub enum ReservationList {
    /// The keys of READ KEYS.
    Keys,
    /// The one reservation of READ RESERVATION, or none.
    Reservation,
    /// The registrations of READ FULL STATUS.
    Registrations,
}

/// Adds what the data say: the generation, and what stands in the list.
pub fn write_reservations(
    line: &mut Vec<u8>,
    list: ReservationList,
    bytes: &[u8],
) -> Result<(), AllocError>
    ensures { OnOk result (line.new.items ≡ line.old.items ++ reservations_text list bytes.now) }
{
    write_generation(line, bytes)?;
    write_listed(line, list, bytes)
}

/// Adds PRGENERATION, where it is whole.
#[tactic(auto, unfolding(crate::specs::Reservations::generation_text))]
fn write_generation(line: &mut Vec<u8>, bytes: &[u8]) -> Result<(), AllocError>
    ensures { OnOk result (line.new.items ≡ line.old.items ++ generation_text bytes.now) }
{
    if GENERATION_LENGTH <= bytes.len() {
        write_number(line, ", generation ", u64::from(u32_at(bytes, GENERATION)))?;
    }
    Ok(())
}

/// Adds what stands behind the generation: a length, and a list of so many bytes.
#[tactic(auto, unfolding(crate::specs::Reservations::listed))]
fn write_listed(line: &mut Vec<u8>, list: ReservationList, bytes: &[u8]) -> Result<(), AllocError>
    ensures { OnOk result (line.new.items ≡ line.old.items ++ listed list bytes.now) }
{
    if bytes.len() < HEADER_LENGTH {
        return write_words(line, ", cut");
    }
    let told = u32_at(bytes, ADDITIONAL_LENGTH);
    write_list_in(line, list, told, bytes)?;
    write_cut(line, bytes, HEADER_LENGTH as u64 + u64::from(told))
}

fn write_list_in(
    line: &mut Vec<u8>,
    list: ReservationList,
    told: u32,
    bytes: &[u8],
) -> Result<(), AllocError>
    ensures { OnOk result (line.new.items ≡ line.old.items ++ list_in list told bytes.now) }
{
    match list {
        ReservationList::Keys => write_keys_in(line, told, bytes),
        ReservationList::Reservation => write_held_in(line, told, bytes),
        ReservationList::Registrations => write_registrations_in(line, told, bytes),
    }
}

fn write_keys_in(line: &mut Vec<u8>, told: u32, bytes: &[u8]) -> Result<(), AllocError>
    ensures { OnOk result (line.new.items ≡ line.old.items ++ keys_in told bytes.now) }
{
    if told == 0 {
        return write_words(line, ", no keys");
    }
    write_words(line, ", keys")?;
    let list = part(bytes, HEADER_LENGTH, told as usize);
    write_pieces(line, Piece::Key, KEY_LENGTH, list)
}

/// Adds a key of a list.
pub fn write_key(line: &mut Vec<u8>, key: &[u8]) -> Result<(), AllocError>
    ensures { OnOk result (line.new.items ≡ line.old.items ++ key_text key.now) }
{
    write_words(line, " ")?;
    write_hex(line, key)
}

fn write_held_in(line: &mut Vec<u8>, told: u32, bytes: &[u8]) -> Result<(), AllocError>
    ensures { OnOk result (line.new.items ≡ line.old.items ++ held_in told bytes.now) }
{
    if told == 0 {
        return write_words(line, ", no reservation");
    }
    write_held(line, part(bytes, HEADER_LENGTH, told as usize))
}

/// Adds the key and the type of a reservation, each where it is whole.
fn write_held(line: &mut Vec<u8>, held: &[u8]) -> Result<(), AllocError>
    ensures { OnOk result (line.new.items ≡ line.old.items ++ held_text held.now) }
{
    if KEY_LENGTH <= held.len() {
        write_words(line, ", key ")?;
        write_hex(line, &held[..KEY_LENGTH])?;
    }
    if SCOPE_AND_TYPE < held.len() {
        write_words(line, ", type ")?;
        write_type(line, held[SCOPE_AND_TYPE])?;
    }
    Ok(())
}

/// Adds a type by its name, or the scope and type byte where it has none.
fn write_type(line: &mut Vec<u8>, code: u8) -> Result<(), AllocError>
    ensures { OnOk result (line.new.items ≡ line.old.items ++ type_text code (coded_type code)) }
{
    match ResType::from_code(code) {
        Some(res_type) => write_words(line, res_type.text()),
        None => write_code(line, code),
    }
}

fn write_registrations_in(line: &mut Vec<u8>, told: u32, bytes: &[u8]) -> Result<(), AllocError>
    ensures { OnOk result (line.new.items ≡ line.old.items ++ registrations_in told bytes.now) }
{
    if told == 0 {
        return write_words(line, ", no registrations");
    }
    let list = part(bytes, HEADER_LENGTH, told as usize);
    write_pieces(line, Piece::Registration, REGISTRATION_LENGTH, list)
}

/// Adds a registration: the nexus as `SAS.PORT`, its key, and the type that it holds, if it does.
#[tactic(auto, unfolding(crate::specs::Reservations::registration_text))]
pub fn write_registration(line: &mut Vec<u8>, descriptor: &[u8]) -> Result<(), AllocError>
    ensures { OnOk result (line.new.items ≡ line.old.items ++ registration_text descriptor.now) }
{
    let length = u32_at(descriptor, TRANSPORT_ID_LENGTH_PLACE);
    if length != TRANSPORT_ID_LENGTH || byte_at(descriptor, TRANSPORT_ID) != SAS_FORMAT {
        return write_words(line, ", registration of another form");
    }
    write_words(line, ", ")?;
    write_hex(line, part(descriptor, SAS_ADDRESS, SAS_ADDRESS_LENGTH))?;
    write_words(line, ".")?;
    write_decimal(line, u64::from(u16_at(descriptor, RELATIVE_TARGET_PORT)))?;
    write_words(line, " key ")?;
    write_hex(line, part(descriptor, 0, KEY_LENGTH))?;
    write_role(line, descriptor)
}

fn write_role(line: &mut Vec<u8>, descriptor: &[u8]) -> Result<(), AllocError>
    ensures { OnOk result (line.new.items ≡ line.old.items ++ role_text descriptor.now) }
{
    if !bit_at(descriptor, HOLDER_FLAGS, R_HOLDER_BIT) {
        return write_words(line, " registered");
    }
    write_words(line, " holder ")?;
    write_type(line, byte_at(descriptor, REGISTRATION_TYPE))
}
