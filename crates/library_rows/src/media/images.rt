use crate::comparing::{assert_list, assert_same};
use crate::media::failing_store::FailingStore;
use scsi_cdb::Profile;
use std::alloc::Global;
use std::process::Abort;
use tape_flush::{ImageStore, SavedImage, TapePart, image_ends, open_image};
use tape_image::index_image;
use tape_medium::{MAX_BLOCK, Tape};

/// "hi" and a filemark, as SIMH keeps them.
const IMAGE: &[u8] = &[2, 0, 0, 0, b'h', b'i', 2, 0, 0, 0, 0, 0, 0, 0];

/// "hi" alone.
const FIRST: &[u8] = &[2, 0, 0, 0, b'h', b'i', 2, 0, 0, 0];

/// The image in a file that has these bytes, of which all are on the disk, and of which the next call that brings it there fails.
fn image_of(rt: &impl Abort, alloc: Global, bytes: &[u8]) -> SavedImage<FailingStore> {
    let store = FailingStore {
        bytes: Vec::from_slice(alloc, bytes).expect(rt, "memory"),
        synced: bytes.len(),
        noted: bytes.len() as u64,
        fails: true,
    };
    let mut reader = bytes;
    let index = index_image(alloc, MAX_BLOCK, &mut reader).expect(rt, "an index");
    let ends = image_ends(alloc, &index).expect(rt, "ends");
    open_image(store, ends, bytes.len() as u64)
}

/// Writes what a tape has that its image hasn't.
fn is_copied<S: ImageStore>(alloc: Global, image: &mut SavedImage<S>, tape: &mut Tape) -> bool {
    let Ok(mut part) = TapePart::new(alloc) else {
        return false;
    };
    let Ok(range) = image.take_part(tape, &mut part) else {
        return false;
    };
    tape.settle(range.end);
    image.write_part(range, &part).is_ok()
}

#[test]
fn what_a_sync_that_fails_forgets_is_written_again(rt: HostRuntime) {
    let alloc = rt.alloc();
    let mut tape = Tape::new(alloc, 1_000);
    let is_written = tape.write_block(Profile::Spec, b"hi").is_ok();
    let count = tape.object_count();
    tape.settle(count);
    let is_marked = tape.write_marks(Profile::Spec, 1).is_ok();
    assert_same(&rt, (is_written, is_marked), (true, true), "a tape");
    let mut image = image_of(&rt, alloc, FIRST);
    let is_there = is_copied(alloc, &mut image, &mut tape);
    let found = (is_there, image.count(), image.sync().is_ok(), image.count());
    let expected = (false, 1, true, 1);
    assert_same(&rt, found, expected, "the image has what was on the disk");
    let again = (
        is_copied(alloc, &mut image, &mut tape),
        image.sync().is_ok(),
    );
    assert_same(&rt, again, (true, true), "it is written again");
    assert_list(
        &rt,
        image.store().bytes.as_slice(),
        IMAGE,
        "what the file has",
    );
    let told = (
        image.is_on_disk(),
        image.store().noted,
        image.store().synced,
    );
    assert_same(&rt, told, (true, 14, 14), "and the disk");
}
