ghost use Rattle.std.specs.Prelude.{◌≡◌, ◌≤◌, ◌+◌, ◌*◌, ◌/◌, ◌%◌, map, length, is_some, IfSome, IfOk, MatchResult, IsTrue};
ghost use Rattle.std.specs.List.{list_all};
ghost use Rattle.scsi_nexus.specs.Limits.{list_limit};
ghost use Rattle.scsi_nexus.specs.TransportId.{sas_address};
ghost use Rattle.pr_params.specs.Lists.{is_register_length, listed_length, register_defect, register_targets, register_params, may_list, listed_defect, listed_ids, ids, is_sas};

use crate::bits::is_set;
use crate::layout::{
    ALL_TG_PT, APTPL, BASIC_FLAGS, BASIC_LENGTH, LISTED_IDS, LISTED_LENGTH, LISTED_LENGTH_FIELD,
    RESERVATION_KEY, SERVICE_ACTION_RESERVATION_KEY, SPEC_I_PT,
};
use byteorder::{BigEndian, ByteOrder};
use permit_tables::{Addresses, ListDefect, OutParams};
use scsi_cdb::OutServiceAction;
use scsi_nexus::{TRANSPORT_ID_LENGTH, TransportId};
use std::alloc::{AllocError, Global};

/// Whether the bytes are as many as a list of either REGISTER says: 24, or with SPEC_I_PT 28 and
/// the TRANSPORTID PARAMETER DATA LENGTH (SPC-4, "PERSISTENT RESERVE OUT parameter list").
pub(crate) fn has_register_length(bytes: &[u8]) -> bool
    ensures { result ≡ is_register_length bytes.now }
{
    if bytes.len() < BASIC_LENGTH {
        return false;
    }
    if !is_set(bytes[BASIC_FLAGS], SPEC_I_PT) {
        return bytes.len() == BASIC_LENGTH;
    }
    if bytes.len() < LISTED_IDS {
        return false;
    }
    let listed_length = BigEndian::read_u32(&bytes[LISTED_LENGTH_FIELD..]);
    bytes.len() - LISTED_IDS == listed_length as usize
}

/// The command with a list of either REGISTER.
pub(crate) fn read_register(
    alloc: Global,
    act: OutServiceAction,
    scope_type: u8,
    bytes: &[u8],
) -> Result<OutParams, AllocError>
    requires { IsTrue (is_register_length bytes.now) }
    ensures { IfOk result (λ params. params ≡ register_params act scope_type bytes.now) }
{
    if is_set(bytes[BASIC_FLAGS], SPEC_I_PT) {
        return read_listing(alloc, act, scope_type, bytes);
    }
    Ok(OutParams {
        rk: BigEndian::read_u64(&bytes[RESERVATION_KEY..]),
        sark: BigEndian::read_u64(&bytes[SERVICE_ACTION_RESERVATION_KEY..]),
        dest: None,
        act,
        scope_type,
        unreg: false,
        defect: if is_set(bytes[BASIC_FLAGS], APTPL) {
            Some(ListDefect::Field)
        } else {
            None
        },
        all_ports: is_set(bytes[BASIC_FLAGS], ALL_TG_PT),
        listed: false,
        targets: Addresses::none(alloc),
    })
}

/// The same with SPEC_I_PT.
fn read_listing(
    alloc: Global,
    act: OutServiceAction,
    scope_type: u8,
    bytes: &[u8],
) -> Result<OutParams, AllocError>
    requires { IsTrue (is_register_length bytes.now) }
    ensures { IfOk result (λ params. params ≡ register_params act scope_type bytes.now) }
{
    let (targets, defect) = match named_addresses(alloc, act, bytes)? {
        Ok(targets) => (targets, None),
        Err(fault) => (Addresses::none(alloc), Some(fault)),
    };
    Ok(OutParams {
        rk: BigEndian::read_u64(&bytes[RESERVATION_KEY..]),
        sark: BigEndian::read_u64(&bytes[SERVICE_ACTION_RESERVATION_KEY..]),
        dest: None,
        act,
        scope_type,
        unreg: false,
        defect,
        all_ports: is_set(bytes[BASIC_FLAGS], ALL_TG_PT),
        listed: is_set(bytes[BASIC_FLAGS], SPEC_I_PT),
        targets,
    })
}

/// The SAS addresses that a list of either REGISTER names, or its defect.
fn named_addresses(
    alloc: Global,
    act: OutServiceAction,
    bytes: &[u8],
) -> Result<Result<Addresses, ListDefect>, AllocError>
    requires { IsTrue (is_register_length bytes.now) }
    ensures defect { IfOk result (λ it. MatchResult it (λ _. register_defect act bytes.now ≡ None) (λ fault. register_defect act bytes.now ≡ Some fault)) }
    ensures targets { IfOk result (λ it. IfOk it (λ targets. targets.items ≡ register_targets act bytes.now)) }
{
    let flags = bytes[BASIC_FLAGS];
    if is_set(flags, APTPL) {
        Ok(Err(ListDefect::Field))
    } else if is_set(flags, SPEC_I_PT) {
        listed_addresses(alloc, act, bytes)
    } else {
        Ok(Ok(Addresses::none(alloc)))
    }
}

/// The SAS addresses that SPEC_I_PT names behind its length field, or what is wrong with them.
fn listed_addresses(
    alloc: Global,
    act: OutServiceAction,
    bytes: &[u8],
) -> Result<Result<Addresses, ListDefect>, AllocError>
    requires { length bytes.now ≡ 28 + listed_length bytes.now }
    ensures defect { IfOk result (λ it. MatchResult it (λ _. listed_defect act bytes.now ≡ None) (λ fault. listed_defect act bytes.now ≡ Some fault)) }
    ensures targets { IfOk result (λ it. IfOk it (λ targets. targets.items ≡ map sas_address (listed_ids bytes.now))) }
{
    let ids = &bytes[LISTED_IDS..];
    if !may_list(act) || ids.len() % TRANSPORT_ID_LENGTH != 0 || ids.len() > LISTED_LENGTH {
        return Ok(Err(ListDefect::Field));
    }
    match addresses(alloc, ids)? {
        Some(targets) => Ok(Ok(targets)),
        None => Ok(Err(ListDefect::TransportId)),
    }
}

/// Whether SPEC_I_PT goes with a service action.
fn may_list(act: OutServiceAction) -> bool
    ensures { result ≡ may_list act }
{
    match act {
        OutServiceAction::RegisterAndIgnoreExistingKey => false,
        OutServiceAction::Register
        | OutServiceAction::Reserve
        | OutServiceAction::Release
        | OutServiceAction::Clear
        | OutServiceAction::Preempt
        | OutServiceAction::PreemptAndAbort
        | OutServiceAction::RegisterAndMove => true,
    }
}

/// The addresses of whole TransportIDs, in their order, if each is a SAS one.
fn addresses(alloc: Global, bytes: &[u8]) -> Result<Option<Addresses>, AllocError>
    requires whole { length bytes.now % 24 ≡ 0 }
    requires room { length bytes.now ≤ 24 * list_limit }
    ensures all { IfOk result (λ made. is_some made ≡ list_all is_sas (ids (length bytes.now / 24) bytes.now)) }
    ensures addresses { IfOk result (λ made. IfSome made (λ targets. targets.items ≡ map sas_address (ids (length bytes.now / 24) bytes.now))) }
{
    let mut targets = Addresses::with_room(alloc, bytes.len() / TRANSPORT_ID_LENGTH)?;
    let mut rest = bytes;
    while !rest.is_empty() {
        let (id, behind) = rest.split_at(TRANSPORT_ID_LENGTH);
        match TransportId::read(id) {
            Ok(address) => targets.push(address)?,
            Err(_) => return Ok(None),
        }
        rest = behind;
    }
    Ok(Some(targets))
}
