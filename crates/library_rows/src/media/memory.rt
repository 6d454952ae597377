use crate::comparing::assert_same;
use scsi_cdb::Profile;
use tape_medium::{MemoryLimit, Tape, TapeFault};

/// What a tape of the smallest capacity takes for its blocks, at its first.
const ROOM: u64 = 1_048_576;

/// More than the list of a few blocks takes, also while it grows.
const LISTS: u64 = 1_024;

fn written(tape: &mut Tape) -> Result<(), TapeFault> {
    tape.write_block(Profile::Spec, b"1")
}

#[test]
fn what_a_tape_took_is_given_back_with_it(rt: HostRuntime) {
    let memory = MemoryLimit::new(rt.alloc(), ROOM + LISTS).expect(&rt, "memory");
    let mut first = Tape::within(rt.alloc(), ROOM, memory.share().expect(&rt, "a share"));
    let mut second = Tape::within(rt.alloc(), ROOM, memory);
    assert_same(&rt, written(&mut first), Ok(()), "the first has room");
    let full = Err(TapeFault::NoMemory);
    assert_same(&rt, written(&mut second), full, "none is left");
    drop(first);
    assert_same(&rt, written(&mut second), Ok(()), "it is given back");
}
