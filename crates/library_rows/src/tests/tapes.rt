//! A tape that blocks are written on where no host's write has as many bytes.

use super::assert_same;
use scsi_cdb::Profile;
use std::process::Abort;
use tape_medium::{Tape, TapeFault, most_block};

/// Writes blocks of the longest length. How many objects there are then, and where the tape stands, doesn't change by the second.
fn assert_written(
    rt: &impl Abort,
    tape: &mut Tape,
    profile: Profile,
    bytes: &[u8],
    expected: Result<(), TapeFault>,
    shows: &'static str,
) {
    let written = tape.write_blocks(profile, bytes, most_block(profile));
    assert_same(rt, written, expected, shows);
    assert_same(rt, (tape.object_count(), tape.position()), (2, 2), shows);
}

#[test]
fn a_tape_takes_two_of_the_longest_blocks(rt: HostRuntime) {
    let bytes = vec![in rt.alloc(); 7u8; 131_072].expect(&rt, "memory");
    let mut tape = Tape::new(rt.alloc(), 200_000);
    let profile = Profile::Spec;
    assert_written(
        &rt,
        &mut tape,
        profile,
        &bytes,
        Ok(()),
        "two of the longest",
    );
    let full = Err(TapeFault::Overflow);
    assert_written(&rt, &mut tape, profile, &bytes, full, "too many bytes");
}

#[test]
fn a_tape_takes_two_of_the_longest_blocks_of_hosts(rt: HostRuntime) {
    let bytes = vec![in rt.alloc(); 7u8; 2_097_152].expect(&rt, "memory");
    let mut tape = Tape::new(rt.alloc(), 3_000_000);
    let profile = Profile::Hosts;
    assert_written(
        &rt,
        &mut tape,
        profile,
        &bytes,
        Ok(()),
        "two of the longest",
    );
    let full = Err(TapeFault::Overflow);
    assert_written(&rt, &mut tape, profile, &bytes, full, "too many bytes");
}
