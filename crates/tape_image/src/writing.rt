ghost use Rattle.std.specs.Prelude.{◌≡◌, ◌≤◌, ◌<◌, ◌+◌, ◌++◌, length, vec_len, vec_capacity, OnOk, OnErr};
ghost use Rattle.tape_medium.specs.Limits.{block_limit};
ghost use Rattle.tape_medium.specs.Object.{Block, Mark};
ghost use Rattle.tape_image.specs.Images.{object_bytes};

use crate::layout::*;
use std::alloc::AllocError;

/// Adds a logical block, of at most `MAX_BLOCK` bytes, to an image. Where there is room for all of it no memory is taken; where memory is
/// refused, nothing was added.
pub fn write_block(out: &mut Vec<u8>, bytes: &[u8]) -> Result<(), AllocError>
    requires least { 1 ≤ length bytes.now }
    requires most { length bytes.now ≤ block_limit }
    ensures ok { OnOk result (out.new.items ≡ out.old.items ++ object_bytes (Block bytes.now)) }
    ensures err { OnErr result (out.new.items ≡ out.old.items) }
    ensures full { OnErr result (vec_capacity out.old < vec_len out.old + length (object_bytes (Block bytes.now))) }
{
    let size = bytes.len();
    let length = (size as u32).to_le_bytes();
    out.reserve(LENGTH_FIELD + size + size % 2 + LENGTH_FIELD)?;
    out.extend_from_slice(&length)?;
    out.extend_from_slice(bytes)?;
    out.extend_from_slice(&[0; 1][..size % 2])?;
    out.extend_from_slice(&length)
}

/// Adds a filemark to an image. Where there is room for it no memory is taken; where memory is refused, nothing was added.
pub fn write_mark(out: &mut Vec<u8>) -> Result<(), AllocError>
    ensures ok { OnOk result (out.new.items ≡ out.old.items ++ object_bytes Mark) }
    ensures err { OnErr result (out.new.items ≡ out.old.items) }
    ensures full { OnErr result (vec_capacity out.old < vec_len out.old + length (object_bytes Mark)) }
{
    out.extend_from_slice(&FILEMARK.to_le_bytes())
}
