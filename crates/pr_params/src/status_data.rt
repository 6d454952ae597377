ghost use Rattle.std.specs.Prelude.{◌≡◌, ◌==◌, ◌<◌, ◌≤◌, ◌+◌, ◌/◌, ◌∷◌, ◌++◌, length, take, replicate, IfOk};
ghost use Rattle.byteorder.specs.Endian.{big_bytes};
ghost use Rattle.permit_tables.specs.Types.{code_of};
ghost use Rattle.permit_tables.specs.Pairs.{key_in};
ghost use Rattle.pr_params.specs.Status.{pair_limit, header, shown_key, keys_data, reservation_data, capabilities_data};

use crate::layout::{HEADER_LENGTH, KEY_LENGTH, RESERVATION_LENGTH, RESERVATION_SCOPE_TYPE};
use byteorder::{BigEndian, ByteOrder};
use permit_tables::ResType;
use scsi_nexus::Nexus;
use std::alloc::{AllocError, Global};

/// PRGENERATION and ADDITIONAL LENGTH, with room for as many bytes as follow.
pub(crate) fn begin(
    alloc: Global,
    generation: u32,
    additional_length: u32,
    room: u32,
) -> Result<Vec<u8>, AllocError>
    ensures { IfOk result (λ bytes. bytes.items ≡ header generation additional_length) }
{
    let mut data = Vec::with_capacity(alloc, HEADER_LENGTH + room as usize)?;
    data.extend_from_slice(&generation.to_be_bytes())?;
    data.extend_from_slice(&additional_length.to_be_bytes())?;
    Ok(data)
}

/// The registrations whose descriptors of this length begin below an allocation length.
pub(crate) fn shown(
    pairs: &[(Nexus, u64)],
    descriptor_length: usize,
    allocation_length: u16,
) -> &[(Nexus, u64)]
    requires { 0 < descriptor_length }
    ensures { result.now ≡ take (allocation_length / descriptor_length + 1) pairs.now }
{
    let count = usize::from(allocation_length) / descriptor_length + 1;
    if count < pairs.len() {
        &pairs[..count]
    } else {
        pairs
    }
}

/// The data of READ KEYS over ascending registrations, cut at the allocation length (SPC-4, "READ KEYS
/// service action").
pub fn write_keys(
    alloc: Global,
    generation: u32,
    pairs: &[(Nexus, u64)],
    allocation_length: u16,
) -> Result<Vec<u8>, AllocError>
    requires { length pairs.now ≤ pair_limit }
    ensures { IfOk result (λ bytes. bytes.items ≡ take allocation_length (keys_data generation pairs.now)) }
{
    let first = shown(pairs, KEY_LENGTH, allocation_length);
    let additional_length = (KEY_LENGTH * pairs.len()) as u32;
    let mut data = begin(
        alloc,
        generation,
        additional_length,
        (KEY_LENGTH * first.len()) as u32,
    )?;
    for (_, key) in first {
        data.extend_from_slice(&key.to_be_bytes())?;
    }
    data.truncate(usize::from(allocation_length));
    Ok(data)
}

/// The data of READ RESERVATION, uncut, over ascending registrations: the holder's key, or 0 under
/// an all registrants type, and the type (SPC-4, "READ RESERVATION service action").
pub fn write_reservation(
    alloc: Global,
    generation: u32,
    pairs: &[(Nexus, u64)],
    reservation: Option<(ResType, Nexus)>,
) -> Result<Vec<u8>, AllocError>
    ensures { IfOk result (λ bytes. bytes.items ≡ reservation_data generation pairs.now reservation) }
{
    match reservation {
        None => begin(alloc, generation, 0, 0),
        Some((res_type, holder)) => {
            let key = key_shown(pairs, res_type, holder);
            let additional_length = RESERVATION_LENGTH as u32;
            let mut data = begin(alloc, generation, additional_length, additional_length)?;
            data.extend_from_slice(&reservation_descriptor(key, res_type))?;
            Ok(data)
        }
    }
}

/// The key that READ RESERVATION shows for a holder.
fn key_shown(pairs: &[(Nexus, u64)], res_type: ResType, holder: Nexus) -> u64
    ensures { result ≡ shown_key pairs.now res_type holder }
{
    if res_type.is_all_registrants() {
        0
    } else {
        key_of(pairs, holder)
    }
}

/// The reservation key of a nexus among registrations, 0 for none. It looks at each in turn.
pub fn key_of(pairs: &[(Nexus, u64)], nexus: Nexus) -> u64
    ensures { result ≡ key_in pairs.now nexus }
{
    for (registered, key) in pairs {
        if nexus == *registered {
            return *key;
        }
    }
    0
}

/// A reservation descriptor of READ RESERVATION.
fn reservation_descriptor(key: u64, res_type: ResType) -> [u8; RESERVATION_LENGTH]
    ensures { result ≡ big_bytes 8 key ++ replicate 5 0 ++ code_of res_type ∷ replicate 2 0 }
{
    let mut descriptor = [0; RESERVATION_LENGTH];
    BigEndian::write_u64(&mut descriptor, key);
    descriptor[RESERVATION_SCOPE_TYPE] = res_type.code();
    descriptor
}

/// The data of REPORT CAPABILITIES: the six types, SPEC_I_PT and ALL_TG_PT, and no persistence
/// through power loss (SPC-4, "REPORT CAPABILITIES service action"; the choice is profile).
pub fn write_capabilities(alloc: Global) -> Result<Vec<u8>, AllocError>
    ensures { IfOk result (λ bytes. bytes.items ≡ capabilities_data) }
{
    Vec::from_slice(alloc, &[0x00, 0x08, 0x0c, 0x80, 0xea, 0x01, 0x00, 0x00])
}
