ghost use Rattle.std.specs.Prelude.{◌≡◌, ◌≤◌, ◌<◌, ◌+◌, ◌^◌, ◌/◌, ◌++◌, [], length, vec_len, vec_capacity, OnOk, OnErr};
ghost use Rattle.iscsi_pdu.specs.Headers.{header_bytes};
ghost use Rattle.iscsi_pdu.specs.Segments.{extended_ahs, padded, padding};
ghost use Rattle.iscsi_pdu.specs.Pdus.{pdu_bytes, initiator_bytes, target_bytes};
ghost use Rattle.iscsi_pdu.specs.Views.{initiator_value, target_value};

use crate::header::Header;
use crate::initiator_pdu::InitiatorPdu;
use crate::layout::*;
use crate::segments::padded;
use crate::target_pdu::TargetPdu;
use std::alloc::AllocError;

/// Adds a PDU as an initiator sends it. Where there is room for all of it no memory is taken; where memory is refused, nothing
/// that counts was added.
pub fn write_initiator_pdu(out: &mut Vec<u8>, pdu: &InitiatorPdu<'_>) -> Result<(), AllocError>
    requires extended_cdb { length pdu.now.extended_cdb.now ≤ 252 }
    requires payload { length pdu.now.payload.now < 2 ^ 24 }
    ensures ok { OnOk result (out.new.items ≡ out.old.items ++ initiator_bytes (initiator_value pdu.now)) }
    ensures full { OnErr result (vec_capacity out.old < vec_len out.old + length (initiator_bytes (initiator_value pdu.now))) }
{
    write_pdu(out, &pdu.header.header(), pdu.extended_cdb, pdu.payload)
}

/// Adds a PDU as a target sends it. Where there is room for all of it no memory is taken; where memory is refused, nothing
/// that counts was added.
pub fn write_target_pdu(out: &mut Vec<u8>, pdu: &TargetPdu<'_>) -> Result<(), AllocError>
    requires { length pdu.now.payload.now < 2 ^ 24 }
    ensures ok { OnOk result (out.new.items ≡ out.old.items ++ target_bytes (target_value pdu.now)) }
    ensures full { OnErr result (vec_capacity out.old < vec_len out.old + length (target_bytes (target_value pdu.now))) }
{
    write_pdu(out, &pdu.header.header(), &[], pdu.payload)
}

fn write_pdu(
    out: &mut Vec<u8>,
    header: &Header,
    extended_cdb: &[u8],
    payload: &[u8],
) -> Result<(), AllocError>
    requires extended_cdb { length extended_cdb.now ≤ 252 }
    requires payload { length payload.now < 2 ^ 24 }
    ensures ok { OnOk result (out.new.items ≡ out.old.items ++ pdu_bytes header.now extended_cdb.now payload.now) }
    ensures full { OnErr result (vec_capacity out.old < vec_len out.old + length (pdu_bytes header.now extended_cdb.now payload.now)) }
{
    let ahs_length = ahs_length_of(extended_cdb);
    out.reserve(BASIC_HEADER_SEGMENT + ahs_length + padded(payload.len()))?;
    write_header(out, header, ahs_length / WORD, payload.len())?;
    write_extended_cdb(out, extended_cdb)?;
    out.extend_from_slice(payload)?;
    write_padding(out, payload.len())
}

/// How many bytes the AHS of a CDB's further bytes has.
fn ahs_length_of(extended_cdb: &[u8]) -> usize
    requires { length extended_cdb.now ≤ 252 }
    ensures value { result ≡ length (extended_ahs extended_cdb.now) }
    ensures most { result ≤ 256 }
{
    match extended_cdb.len() {
        0 => 0,
        length => WORD + padded(length),
    }
}

fn write_header(
    out: &mut Vec<u8>,
    header: &Header,
    ahs_words: usize,
    length: usize,
) -> Result<(), AllocError>
    requires words { ahs_words ≤ 64 }
    requires length { length < 2 ^ 24 }
    ensures ok { OnOk result (out.new.items ≡ out.old.items ++ header_bytes ahs_words length header.now) }
    ensures len { OnOk result (vec_len out.new ≡ vec_len out.old + 48) }
    ensures capacity { vec_capacity out.old ≤ vec_capacity out.new }
    ensures full { OnErr result (vec_capacity out.old < vec_len out.old + 48) }
{
    let [_, n2, n1, n0] = (length as u32).to_be_bytes();
    out.extend_from_slice(&header.start)?;
    out.extend_from_slice(&[ahs_words as u8, n2, n1, n0])?;
    out.extend_from_slice(&header.lun)?;
    out.extend_from_slice(&header.middle)?;
    out.extend_from_slice(&header.tail)
}

fn write_extended_cdb(out: &mut Vec<u8>, extended_cdb: &[u8]) -> Result<(), AllocError>
    requires { length extended_cdb.now ≤ 252 }
    ensures ok { OnOk result (out.new.items ≡ out.old.items ++ extended_ahs extended_cdb.now) }
    ensures len { OnOk result (vec_len out.new ≡ vec_len out.old + length (extended_ahs extended_cdb.now)) }
    ensures capacity { vec_capacity out.old ≤ vec_capacity out.new }
    ensures full { OnErr result (vec_capacity out.old < vec_len out.old + length (extended_ahs extended_cdb.now)) }
{
    if extended_cdb.is_empty() {
        return Ok(());
    }
    let [n1, n0] = (extended_cdb.len() as u16 + 1).to_be_bytes();
    out.extend_from_slice(&[n1, n0, EXTENDED_CDB, 0])?;
    out.extend_from_slice(extended_cdb)?;
    write_padding(out, extended_cdb.len())
}

fn write_padding(out: &mut Vec<u8>, length: usize) -> Result<(), AllocError>
    requires { length < 2 ^ 32 }
    ensures ok { OnOk result (out.new.items ≡ out.old.items ++ padding length) }
    ensures len { OnOk result (vec_len out.new + length ≡ vec_len out.old + padded length) }
    ensures capacity { vec_capacity out.old ≤ vec_capacity out.new }
    ensures full { OnErr result (vec_capacity out.old + length < vec_len out.old + padded length) }
{
    out.extend_from_slice(&[0; 3][..padded(length) - length])
}
