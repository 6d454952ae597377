ghost use Rattle.std.specs.Prelude.{◌≡◌, ◌+◌, ◌≤◌, ◌<◌, [], length, take, IfOk, OnErr};
ghost use Rattle.std.specs.Io.KnownBytes.{Keeps, IsAtEnd};
ghost use Rattle.tape_image.specs.Limits.{part_limit};
ghost use Rattle.tape_image.specs.Filling.{ReadBehind, Filled};

use crate::layout::MAX_PART;
use std::alloc::{AllocError, Global};
use std::io::{self, Read};
use std::marker::Model;

/// The bytes of a part as far as they were read, in a buffer that is made once, for the longest part.
#[derive(Drop)]
pub(crate) struct PartBuffer {
    bytes: Vec<u8>,
    filled: usize,
}

impl Model for PartBuffer {
    ghost use Rattle.std.specs.Prelude.{◌≡◌, ◌≤◌, ℕ, List, take, vec_len};
    ghost use Rattle.tape_image.specs.Limits.{part_limit};

    ghost Value = { List ℕ };

    ghost view = { λ p. take p.filled p.bytes.items };

    ghost invariant = { λ p. (p.filled ≤ part_limit) × (vec_len p.bytes ≡ part_limit) };
}

impl PartBuffer {
    /// With nothing in it.
    pub(crate) fn new(alloc: Global) -> Result<PartBuffer, AllocError>
        ensures { IfOk result (λ part. part ≡ []) }
    {
        Ok(PartBuffer {
            bytes: vec![in alloc; 0u8; MAX_PART]?,
            filled: 0,
        })
    }

    /// What was read of the part.
    pub(crate) fn pending(&self) -> &[u8]
        ensures value { result.now ≡ self.now }
        ensures most { length self.now ≤ part_limit }
    {
        &self.bytes.as_slice()[..self.filled]
    }

    pub(crate) fn clear(&mut self)
        ensures { self.new ≡ [] }
    {
        self.filled = 0;
    }

    /// Adds what one read gives, up to so many bytes in all, and answers how much that is: 0 where the reader is at its end, or
    /// nothing is wanted. An error of the reader, also an interrupted read, changes nothing.
    pub(crate) fn fill<R: Read>(&mut self, reader: &mut R, wanted: usize) -> io::Result<usize>
        requires least { length self.old ≤ wanted }
        requires most { wanted ≤ part_limit }
        ensures ok { IfOk result (λ count. Filled count self.old self.new (R.remaining reader.old) (R.remaining reader.new)) }
        ensures most { IfOk result (λ count. length self.old + count ≤ wanted) }
        ensures end { IfOk result (λ count. count ≡ 0 → length self.old < wanted → IsAtEnd (R.remaining reader.new)) }
        ensures err { OnErr result ((self.new ≡ self.old) × Keeps (R.remaining reader.old) (R.remaining reader.new)) }
    {
        let filled = self.filled;
        match read_behind(reader, self.bytes.as_mut_slice(), filled, wanted) {
            Ok(count) => {
                self.filled = filled + count;
                Ok(count)
            }
            Err(error) => Err(error),
        }
    }
}

/// One read, into what is between two places of a buffer.
fn read_behind<R: Read>(
    reader: &mut R,
    buffer: &mut [u8],
    start: usize,
    end: usize,
) -> io::Result<usize>
    requires order { start ≤ end }
    requires within { end ≤ length buffer.old }
    ensures len { length buffer.new ≡ length buffer.old }
    ensures most { IfOk result (λ count. start + count ≤ end) }
    ensures ok { IfOk result (λ count. ReadBehind start count buffer.old buffer.new (R.remaining reader.old) (R.remaining reader.new)) }
    ensures end { IfOk result (λ count. count ≡ 0 → start < end → IsAtEnd (R.remaining reader.new)) }
    ensures err { OnErr result ((take start buffer.new ≡ take start buffer.old) × Keeps (R.remaining reader.old) (R.remaining reader.new)) }
{
    match reader.read(&mut buffer[start..end]) {
        Ok(count) => Ok(count),
        Err(error) => Err(error),
    }
}
