use crate::comparing::assert_same;
use crate::trickle::Trickle;
use tape_image::{IndexFault, index_image, write_block, write_mark};
use tape_medium::MAX_BLOCK;

/// "hi", a filemark and "odd", as SIMH keeps them.
const IMAGE: &[u8] = &[
    2, 0, 0, 0, b'h', b'i', 2, 0, 0, 0, 0, 0, 0, 0, 3, 0, 0, 0, b'o', b'd', b'd', 0, 3, 0, 0, 0,
];

/// An index takes an interrupted read for one that failed.
#[test]
fn an_image_whose_read_fails_has_no_index(rt: HostRuntime) {
    let mut reader = Trickle {
        bytes: IMAGE,
        reads: 0,
        fails_at: 0,
        is_interrupted: true,
    };
    let index = index_image(rt.alloc(), MAX_BLOCK, &mut reader);
    let is_of_a_read = matches!(index.err(), Some(IndexFault::Read));
    assert_same(&rt, is_of_a_read, true, "no index");
}

/// Writes "hi", a filemark and "odd".
fn is_written(image: &mut Vec<u8>) -> bool {
    write_block(image, b"hi").is_ok()
        && write_mark(image).is_ok()
        && write_block(image, b"odd").is_ok()
}

#[test]
fn an_image_is_written_in_the_room_for_it(rt: HostRuntime) {
    let mut image = Vec::with_capacity(rt.alloc(), 26).expect(&rt, "memory");
    let room = image.capacity();
    let found = (is_written(&mut image), image.len(), image.capacity());
    assert_same(&rt, found, (true, 26, room), "in its room");
}
