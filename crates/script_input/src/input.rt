ghost use Rattle.std.specs.Prelude.{◌≡◌, IfOk, vec_len};
ghost use Rattle.script_input.specs.Input.{IsReadWhole};

use crate::input_fault::InputFault;
use std::alloc::{AllocError, Global};
use std::io::Read;

/// The most bytes of one read.
const READ_SIZE: usize = 65_536;

/// All that a reader has, in at most `turns` reads of at most 65,536 bytes: the last of them finds its end. A read that
/// fails, for whatever reason, is `Read`, and so is one more read than `turns`.
pub fn read_all<R: Read>(alloc: Global, reader: &mut R, turns: u64) -> Result<Vec<u8>, InputFault>
    ensures ok { IfOk result (λ input.
        IsReadWhole turns (R.remaining reader.old) (R.remaining reader.new) input.items) }
{
    let mut input = Vec::new(alloc);
    let mut buffer = zeros(alloc, READ_SIZE)?;
    'reads: for turn in 0..turns {
        match reader.read(buffer.as_mut_slice()) {
            Ok(0) => return Ok(input),
            Ok(count) => input.extend_from_slice(&buffer[..count])?,
            Err(_) => return Err(InputFault::Read),
        }
    }
    Err(InputFault::Read)
}

fn zeros(alloc: Global, count: usize) -> Result<Vec<u8>, AllocError>
    ensures { IfOk result (λ bytes. vec_len bytes ≡ count) }
{
    vec![in alloc; 0u8; count]
}
