ghost use Rattle.std.specs.Prelude.{◌≡◌, ◌<◌, ◌≤◌, ◌++◌, length, slice_get, Some, OnOk, OnErr};
ghost use Rattle.tape_medium.specs.Lent.{lent_object};
ghost use Rattle.tape_image.specs.Limits.{part_limit};
ghost use Rattle.tape_image.specs.Images.{object_bytes, IsKeepable};

use std::alloc::AllocError;
use tape_image::{LENGTH_FIELD, write_block, write_mark};
use tape_medium::{Tape, TapeObject};

/// The object after the first `at` of a tape.
pub(crate) fn object_at(tape: &Tape, at: u32) -> TapeObject<'_>
    requires { at < length tape.now.objects }
    ensures value { slice_get tape.now.objects at ≡ Some (lent_object result) }
    ensures keepable { IsKeepable (lent_object result) }
{
    match tape.object(at) {
        Some(object) => object,
        None => unreachable!(),
    }
}

/// How many bytes an object takes in an image.
pub(crate) fn part_length(object: TapeObject<'_>) -> usize
    requires { IsKeepable (lent_object object) }
    ensures value { result ≡ length (object_bytes (lent_object object.entry)) }
    ensures within { result ≤ part_limit }
{
    match object {
        TapeObject::Block(bytes) => {
            let size = bytes.len();
            LENGTH_FIELD + size + size % 2 + LENGTH_FIELD
        }
        TapeObject::Mark => LENGTH_FIELD,
    }
}

/// Adds the bytes of an object to a piece of an image.
pub(crate) fn write_object(object: TapeObject<'_>, piece: &mut Vec<u8>) -> Result<(), AllocError>
    requires { IsKeepable (lent_object object) }
    ensures ok { OnOk result (piece.new.items ≡ piece.old.items ++ object_bytes (lent_object object.entry)) }
    ensures err { OnErr result (piece.new.items ≡ piece.old.items) }
{
    match object {
        TapeObject::Block(bytes) => write_block(piece, bytes),
        TapeObject::Mark => write_mark(piece),
    }
}
