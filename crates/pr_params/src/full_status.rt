ghost use Rattle.std.specs.Prelude.{◌≡◌, ◌≤◌, length, take, IfOk};
ghost use Rattle.pr_params.specs.Status.{pair_limit, full_status_of, full_status_data, holding_bytes};

use crate::layout::{
    FULL_STATUS_ADDITIONAL_LENGTH, FULL_STATUS_FLAGS, FULL_STATUS_LENGTH, FULL_STATUS_PORT,
    FULL_STATUS_SCOPE_TYPE, FULL_STATUS_TRANSPORT_ID,
};
use crate::status_data::{begin, shown};
use byteorder::{BigEndian, ByteOrder};
use permit_tables::ResType;
use scsi_nexus::{Nexus, TRANSPORT_ID_LENGTH, TransportId};
use std::alloc::{AllocError, Global};

/// The data of READ FULL STATUS over ascending registrations, cut at the allocation length: a
/// descriptor for each, with R_HOLDER for each under an all registrants type and else for the holder
/// alone (SPC-4, "READ FULL STATUS service action"). It is cut here, so that for a host that asks for a few bytes few are made.
pub fn write_full_status(
    alloc: Global,
    generation: u32,
    pairs: &[(Nexus, u64)],
    reservation: Option<(ResType, Nexus)>,
    allocation_length: u16,
) -> Result<Vec<u8>, AllocError>
    requires { length pairs.now ≤ pair_limit }
    ensures { IfOk result (λ bytes. bytes.items ≡ take allocation_length (full_status_data generation pairs.now reservation)) }
{
    let first = shown(pairs, FULL_STATUS_LENGTH, allocation_length);
    let additional_length = (FULL_STATUS_LENGTH * pairs.len()) as u32;
    let room = (FULL_STATUS_LENGTH * first.len()) as u32;
    let mut data = begin(alloc, generation, additional_length, room)?;
    for (nexus, key) in first {
        data.extend_from_slice(&full_status_descriptor(*nexus, *key, reservation))?;
    }
    data.truncate(usize::from(allocation_length));
    Ok(data)
}

/// The descriptor of a registered nexus.
fn full_status_descriptor(
    nexus: Nexus,
    key: u64,
    reservation: Option<(ResType, Nexus)>,
) -> [u8; FULL_STATUS_LENGTH]
    ensures { result ≡ full_status_of reservation (nexus, key) }
{
    let [holder, scope_type] = holding(nexus, reservation);
    let mut descriptor = [0; FULL_STATUS_LENGTH];
    BigEndian::write_u64(&mut descriptor, key);
    descriptor[FULL_STATUS_FLAGS] = holder;
    descriptor[FULL_STATUS_SCOPE_TYPE] = scope_type;
    BigEndian::write_u16(&mut descriptor[FULL_STATUS_PORT..], nexus.port);
    BigEndian::write_u32(
        &mut descriptor[FULL_STATUS_ADDITIONAL_LENGTH..],
        TRANSPORT_ID_LENGTH as u32,
    );
    descriptor[FULL_STATUS_TRANSPORT_ID..].copy_from_slice(&TransportId::write(nexus.sas));
    descriptor
}

/// R_HOLDER, and the scope and type where it is 1.
fn holding(nexus: Nexus, reservation: Option<(ResType, Nexus)>) -> [u8; 2]
    ensures { result ≡ holding_bytes reservation nexus }
{
    match reservation {
        None => [0, 0],
        Some((res_type, holder)) => {
            if res_type.is_all_registrants() || nexus == holder {
                [1, res_type.code()]
            } else {
                [0, 0]
            }
        }
    }
}
