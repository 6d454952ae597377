ghost use Rattle.std.specs.Prelude.{◌≡◌, ◌≤◌, length, IsOk, IfOk, OnErr};
ghost use Rattle.pr_params.specs.Lists.{decoded_list, is_format_length, basic_params, move_params, move_defect, moved_to};

use crate::bits::is_set;
use crate::layout::{
    APTPL, BASIC_LENGTH, MOVE_FLAGS, RELATIVE_TARGET_PORT, RESERVATION_KEY,
    SERVICE_ACTION_RESERVATION_KEY, TRANSPORT_ID, TRANSPORT_ID_LENGTH_FIELD, UNREG,
};
use crate::list_fault::ListLengthFault;
use crate::register_list::{has_register_length, read_register};
use byteorder::{BigEndian, ByteOrder};
use permit_tables::{Addresses, ListDefect, OutParams};
use scsi_cdb::OutServiceAction;
use scsi_nexus::{Nexus, TransportId};
use std::alloc::{AllocError, Global};

/// A PERSISTENT RESERVE OUT command from its service action, its byte of scope and type, its
/// PARAMETER LIST LENGTH and the data sent with it, unless its length is wrong; what else is wrong
/// stands in `defect` (SPC-4, "PERSISTENT RESERVE OUT parameter list"). The addresses that a list of the right
/// length names take memory.
pub fn read_out(
    alloc: Global,
    act: OutServiceAction,
    scope_type: u8,
    list_length: u32,
    bytes: &[u8],
) -> Result<Result<OutParams, ListLengthFault>, AllocError>
    ensures ok { IfOk result (λ it. it ≡ decoded_list act scope_type list_length bytes.now) }
    ensures want { OnErr result (IsOk (decoded_list act scope_type list_length bytes.now)) }
{
    if bytes.len() != list_length as usize || !has_format_length(act, bytes) {
        return Ok(Err(ListLengthFault));
    }
    match act {
        OutServiceAction::RegisterAndMove => Ok(Ok(read_move(alloc, scope_type, bytes))),
        OutServiceAction::Register | OutServiceAction::RegisterAndIgnoreExistingKey => {
            Ok(Ok(read_register(alloc, act, scope_type, bytes)?))
        }
        OutServiceAction::Reserve
        | OutServiceAction::Release
        | OutServiceAction::Clear
        | OutServiceAction::Preempt
        | OutServiceAction::PreemptAndAbort => Ok(Ok(read_basic(alloc, act, scope_type, bytes))),
    }
}

/// Whether the bytes are as many as the act's list has.
fn has_format_length(act: OutServiceAction, bytes: &[u8]) -> bool
    ensures { result ≡ is_format_length act bytes.now }
{
    match act {
        OutServiceAction::RegisterAndMove => has_move_length(bytes),
        OutServiceAction::Register | OutServiceAction::RegisterAndIgnoreExistingKey => {
            has_register_length(bytes)
        }
        OutServiceAction::Reserve
        | OutServiceAction::Release
        | OutServiceAction::Clear
        | OutServiceAction::Preempt
        | OutServiceAction::PreemptAndAbort => bytes.len() == BASIC_LENGTH,
    }
}

/// Whether the bytes are as many as a REGISTER AND MOVE list says.
fn has_move_length(bytes: &[u8]) -> bool
    ensures { result ≡ is_format_length OutServiceAction.RegisterAndMove bytes.now }
{
    if bytes.len() < TRANSPORT_ID {
        return false;
    }
    let transport_id_length = BigEndian::read_u32(&bytes[TRANSPORT_ID_LENGTH_FIELD..]);
    bytes.len() - TRANSPORT_ID == transport_id_length as usize
}

fn read_basic(alloc: Global, act: OutServiceAction, scope_type: u8, bytes: &[u8]) -> OutParams
    requires { 24 ≤ length bytes.now }
    ensures { result ≡ basic_params act scope_type bytes.now }
{
    OutParams {
        rk: BigEndian::read_u64(&bytes[RESERVATION_KEY..]),
        sark: BigEndian::read_u64(&bytes[SERVICE_ACTION_RESERVATION_KEY..]),
        dest: None,
        act,
        scope_type,
        unreg: false,
        defect: None,
        all_ports: false,
        listed: false,
        targets: Addresses::none(alloc),
    }
}

fn read_move(alloc: Global, scope_type: u8, bytes: &[u8]) -> OutParams
    requires { 24 ≤ length bytes.now }
    ensures { result ≡ move_params scope_type bytes.now }
{
    let dest = destination(bytes);
    OutParams {
        rk: BigEndian::read_u64(&bytes[RESERVATION_KEY..]),
        sark: BigEndian::read_u64(&bytes[SERVICE_ACTION_RESERVATION_KEY..]),
        dest,
        act: OutServiceAction::RegisterAndMove,
        scope_type,
        unreg: is_set(bytes[MOVE_FLAGS], UNREG),
        defect: defect_of_move(bytes[MOVE_FLAGS], dest),
        all_ports: false,
        listed: false,
        targets: Addresses::none(alloc),
    }
}

/// The nexus that a REGISTER AND MOVE list names, if it names a SAS one.
fn destination(bytes: &[u8]) -> Option<Nexus>
    requires { 24 ≤ length bytes.now }
    ensures { result ≡ moved_to bytes.now }
{
    match TransportId::read(&bytes[TRANSPORT_ID..]) {
        Ok(sas) => Some(Nexus {
            sas,
            port: BigEndian::read_u16(&bytes[RELATIVE_TARGET_PORT..]),
        }),
        Err(_) => None,
    }
}

/// What is wrong with a REGISTER AND MOVE list that has these flags and names this nexus.
fn defect_of_move(flags: u8, dest: Option<Nexus>) -> Option<ListDefect>
    ensures { result ≡ move_defect flags dest }
{
    if is_set(flags, APTPL) {
        Some(ListDefect::Field)
    } else if dest.is_none() {
        Some(ListDefect::TransportId)
    } else {
        None
    }
}
