//! A stream that is cut into frames by itself, which no session here does.

use super::assert_same;
use scsi_cdb::Profile;
use session::{Frame, Splitter};
use std::alloc::Global;

/// LOGIN of A, TEST UNIT READY at the changer, LOGOUT.
const ONE_SESSION: &[u8] = b"\0\0\0\x0b\x01\x50\0\0\0\0\0\0\x0a\0\x01\
    \0\0\0\x09\x02\0\x06\0\0\0\0\0\0\
    \0\0\0\x01\x04";

/// The session in two pieces, cut within its command: whether each was taken, and how many frames there are.
fn split(alloc: Global, frames: &mut Vec<Frame>) -> (bool, bool, usize) {
    let mut splitter = Splitter::new(alloc);
    let (first, second) = ONE_SESSION.split_at(22);
    let begun = splitter.feed(Profile::Spec, first, frames).is_ok();
    let ended = splitter.feed(Profile::Spec, second, frames).is_ok();
    (begun, ended, frames.len())
}

/// The CDB of the second frame, if that is a command at the changer without data.
fn cdb_of(frames: &[Frame]) -> Option<&[u8]> {
    match frames {
        [_, Frame::Command { lun: 0, cdb, bytes }, _] if bytes.is_empty() => Some(cdb.as_slice()),
        _ => None,
    }
}

#[test]
fn splitter_gives_frames_of_its_own(rt: HostRuntime) {
    let mut frames = Vec::new(rt.alloc());
    let fed = split(rt.alloc(), &mut frames);
    assert_same(&rt, fed, (true, true, 3), "three frames in two pieces");
    let expected: Option<&[u8]> = Some(b"\0\0\0\0\0\0");
    assert_same(&rt, cdb_of(frames.as_slice()), expected, "their bytes");
}
