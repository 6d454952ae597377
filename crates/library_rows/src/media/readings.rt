use crate::comparing::assert_same;
use crate::trickle::Trickle;
use scsi_cdb::Profile;
use std::alloc::Global;
use tape_flush::{ReadTapeFault, read_tape};
use tape_medium::MemoryLimit;

/// "hi", a filemark and "odd", as SIMH keeps them.
const IMAGE: &[u8] = &[
    2, 0, 0, 0, b'h', b'i', 2, 0, 0, 0, 0, 0, 0, 0, 3, 0, 0, 0, b'o', b'd', b'd', 0, 3, 0, 0, 0,
];

/// How many objects are read where a read fails behind so many bytes of the image, for so many bytes of blocks.
fn read_until(alloc: Global, left: u64, capacity: u64) -> Result<u32, ReadTapeFault> {
    let mut reader = Trickle {
        bytes: IMAGE,
        reads: 0,
        fails_at: left.saturating_add(1),
        is_interrupted: false,
    };
    match read_tape(
        alloc,
        Profile::Spec,
        &mut reader,
        capacity.clamp(1, 1_000),
        MemoryLimit::none(),
    ) {
        Ok(read) => Ok(read.tape.object_count()),
        Err(fault) => Err(fault),
    }
}

/// What is shown, for how many bytes of blocks the image is read, and how many objects that gives.
const ROWS: [(&'static str, u64, Result<u32, ReadTapeFault>); 3] = [
    ("a tape that just takes its blocks", 5, Ok(3)),
    (
        "the second block is too much",
        4,
        Err(ReadTapeFault::TooLarge { objects: 2 }),
    ),
    (
        "the first block is",
        1,
        Err(ReadTapeFault::TooLarge { objects: 0 }),
    ),
];

#[test]
fn images_are_read_as_tapes(rt: HostRuntime) {
    for row in &ROWS {
        let (shows, capacity, expected) = *row;
        assert_same(&rt, read_until(rt.alloc(), 27, capacity), expected, shows);
    }
    for left in 0..27 {
        let found = read_until(rt.alloc(), left, 1_000);
        let shows = "a read that fails is told";
        assert_same(&rt, found, Err(ReadTapeFault::Read), shows);
    }
}

/// The beginning of a block of 65,537 bytes, behind a filemark: its length, and one of its bytes.
const LONG: &[u8] = &[0, 0, 0, 0, 1, 0, 1, 0, b'x'];

/// How many objects are read in a library of a profile.
fn read_in(alloc: Global, profile: Profile) -> Result<u32, ReadTapeFault> {
    let mut reader: &[u8] = LONG;
    match read_tape(alloc, profile, &mut reader, 200_000, MemoryLimit::none()) {
        Ok(read) => Ok(read.tape.object_count()),
        Err(fault) => Err(fault),
    }
}

/// A block that is too long is told by its first bytes, also where its rest isn't there.
#[test]
fn longer_blocks_are_read_for_hosts_alone(rt: HostRuntime) {
    let too_long = ReadTapeFault::TooLong {
        objects: 1,
        whole: 4,
    };
    let in_spec = read_in(rt.alloc(), Profile::Spec);
    assert_same(&rt, in_spec, Err(too_long), "no longer block");
    let for_hosts = read_in(rt.alloc(), Profile::Hosts);
    assert_same(&rt, for_hosts, Ok(1), "a cut tail");
}
