//! What no socket does to a host's session.

use super::assert_same;
use super::streams::Sink;
use crate::trickle::Trickle;
use client_session::{ClientSessionFault, HostSettings, run_session};
use output_lines::Explanations;
use scsi_cdb::Profile;
use scsi_nexus::Nexus;
use std::alloc::Global;

const A: Nexus = Nexus {
    sas: 0x5000_0000_0000_000A,
    port: 1,
};

/// TEST UNIT READY twice at the changer.
const SCRIPT: &str = "# TEST UNIT READY\n\n0 000000000000\n0 000000000000\n";

/// A new library's replies: LOGIN accepted, 29h/00h as record 1, GOOD as record 2, and the reply to LOGOUT.
const REPLIES: &[u8] = b"\0\0\0\x02\x81\0\
    \0\0\0\x1d\x82\x02\x12\x70\0\x06\0\0\0\0\x0a\0\0\0\0\x29\0\0\0\0\0\0\0\0\0\0\0\0\x01\
    \0\0\0\x0b\x82\0\0\0\0\0\0\0\0\0\x02\
    \0\0\0\x01\x84";

const LINES: &[u8] = b"02 700006000000000a00000000290000000000 -\n00 - -\n";

/// How a session of A by the script ends, with the replies byte by byte and so many reads at most, where each write fails or none.
fn sent_script(
    alloc: Global,
    fails: bool,
    out: &mut Vec<u8>,
    turns: u64,
) -> Option<ClientSessionFault> {
    let script = SCRIPT.as_bytes();
    let mut reader = Trickle {
        bytes: REPLIES,
        reads: 0,
        fails_at: 0,
        is_interrupted: false,
    };
    let mut writer = Sink { fails };
    let settings = HostSettings {
        nexus: A,
        profile: Profile::Spec,
        explanations: Explanations::Off,
        turns,
    };
    run_session(alloc, settings, script, &mut reader, &mut writer, out).err()
}

#[test]
fn session_ends_by_one_read_too_few_and_by_its_first_write(rt: HostRuntime) {
    let mut out = Vec::new(rt.alloc());
    let ended = sent_script(rt.alloc(), false, &mut out, 58);
    let expected = (Some(ClientSessionFault::Read), LINES);
    assert_same(&rt, (ended, out.as_slice()), expected, "one read too few");
    let ended = sent_script(rt.alloc(), true, &mut out, 99);
    assert_same(&rt, ended, Some(ClientSessionFault::Write), "a write fails");
}
