//! PDUs from the side of an initiator, which the program never writes.
use super::assert_same;
use iscsi_pdu::{ParsedInitiatorPdu, parse_initiator_pdu, write_initiator_pdu};

/// A login from operational negotiation to full feature, by ISID 00023D000001h, with `A=b` and its NUL.
const LOGIN: &[u8] = b"C\x87\0\0\0\0\0\x04\0\x02=\0\0\x01\0\0\0\0\0\x01\0\x02\0\0\
    \0\0\0\x01\0\0\0\0\0\0\0\0\0\0\0\0\0\0\0\0\0\0\0\0A=b\0";

/// Adds the bytes of the PDU that a stream begins with, which is parsed and written. Says whether that was done.
fn is_rewritten(bytes: &[u8], out: &mut Vec<u8>) -> bool {
    let ParsedInitiatorPdu::Complete(pdu, _) = parse_initiator_pdu(8192, bytes) else {
        return false;
    };
    if pdu.payload.len() >= 8192 || !pdu.extended_cdb.is_empty() {
        return false;
    }
    write_initiator_pdu(out, &pdu).is_ok()
}

#[test]
fn a_login_is_parsed_and_written(rt: HostRuntime) {
    let mut out = Vec::new(rt.alloc());
    let found = (is_rewritten(LOGIN, &mut out), out.as_slice());
    assert_same(&rt, found, (true, LOGIN), "the bytes again");
}
