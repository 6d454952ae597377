ghost use Rattle.std.specs.Prelude.{◌≡◌, ◌≤◌, ◌++◌, [], length, drop, unwrap_or, vec_len, OnOk, IfOk};
ghost use Rattle.iscsi_pdu.specs.Pdus.{target_bytes};
ghost use Rattle.iscsi_pdu.specs.declared.target_header.TargetHeader.TheVariants as target_headers;
ghost use Rattle.iscsi_keys.specs.declared.key.Key.TheVariants as key;
ghost use Rattle.iscsi_login.specs.Names.{declared};
ghost use Rattle.iscsi_login.specs.Exchanges.{window_end};

use crate::names::declared_value;
use iscsi_keys::Key;
use iscsi_pdu::{LoginResponse, SerialNumber, TargetHeader, TargetPdu, write_target_pdu};
use std::alloc::{AllocError, Global};

/// How many CmdSN lie between ExpCmdSN and MaxCmdSN.
const WINDOW: u32 = 31;

/// MaxCmdSN, where the CmdSN is expected next.
pub(crate) fn window_end(cmd_sn: SerialNumber) -> SerialNumber
    ensures { result ≡ window_end cmd_sn }
{
    SerialNumber {
        number: cmd_sn.number.wrapping_add(WINDOW),
    }
}

/// The name that a text gives the initiator, empty where it gives none.
pub(crate) fn name_in(alloc: Global, text: &[u8]) -> Result<Vec<u8>, AllocError>
    requires { length text.now ≤ 65536 }
    ensures { IfOk result (λ name. name.items ≡ unwrap_or (declared text.now key.InitiatorName) []) }
{
    match declared_value(text, Key::InitiatorName) {
        None => Ok(Vec::new(alloc)),
        Some(name) => Vec::from_slice(alloc, name),
    }
}

/// Adds a Login Response.
pub(crate) fn write_response(
    out: &mut Vec<u8>,
    header: LoginResponse,
    payload: &[u8],
) -> Result<(), AllocError>
    requires { length payload.now ≤ 8192 }
    ensures { OnOk result (out.new.items ≡ out.old.items ++ target_bytes (record { header = target_headers.LoginResponse header; payload = payload.now })) }
{
    let pdu = TargetPdu {
        header: TargetHeader::LoginResponse(header),
        payload,
    };
    write_target_pdu(out, &pdu)
}

/// Takes bytes off the front, in place.
pub(crate) fn pass(bytes: &mut Vec<u8>, count: usize)
    requires { count ≤ vec_len bytes.old }
    ensures { bytes.new.items ≡ drop count bytes.old.items }
{
    let left = bytes.len() - count;
    bytes.as_mut_slice().copy_within(count.., 0);
    bytes.truncate(left);
}
