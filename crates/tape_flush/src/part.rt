ghost use Rattle.std.specs.Prelude.{◌≡◌, ◌≤◌, ◌<◌, ◌+◌, ◌++◌, [], ◌∷◌, true, length, take, drop, IfOk};
ghost use Rattle.tape_medium.specs.Lent.{lent_object};
ghost use Rattle.tape_image.specs.Images.{IsKeepable, object_bytes};
ghost use Rattle.tape_flush.specs.Images.{IsPart};

use crate::fault::FlushFault;
use crate::object::{object_at, part_length, write_object};
use std::alloc::{AllocError, Global};
use std::marker::Model;
use tape_image::MAX_PART;
use tape_medium::{Tape, TapeObject};

/// The bytes that a part has at most: as many as the longest object takes.
const PART: usize = MAX_PART;

/// Objects of a tape that follow one another, as an image has them: their bytes, and where each of them ends. One serves for part after
/// part, so that its memory is taken once.
#[derive(Drop)]
pub struct TapePart {
    bytes: Vec<u8>,
    ends: Vec<u64>,
}

impl Model for TapePart {
    ghost use Rattle.tape_flush.specs.Images.{TapePartValue};

    ghost Value = { TapePartValue };

    ghost view = { λ part. record { bytes = part.bytes.items; ends = part.ends.items } };
}

impl TapePart {
    /// Of no objects, with room for the bytes of any part.
    pub fn new(alloc: Global) -> Result<TapePart, AllocError>
        ensures { IfOk result (λ part. part ≡ record { bytes = []; ends = [] }) }
    {
        Ok(TapePart {
            bytes: Vec::with_capacity(alloc, PART)?,
            ends: Vec::new(alloc),
        })
    }

    /// Whether it has no objects.
    pub fn is_empty(&self) -> bool
        ensures { result ≡ true → self.now.ends ≡ [] }
    {
        self.ends.is_empty()
    }

    /// How many bytes it has.
    pub fn size(&self) -> usize
        ensures { result ≡ length self.now.bytes }
    {
        self.bytes.len()
    }

    pub(crate) fn bytes(&self) -> &[u8]
        ensures { result.now ≡ self.now.bytes }
    {
        &self.bytes
    }

    pub(crate) fn ends(&self) -> &[u64]
        ensures { result.now ≡ self.now.ends }
    {
        &self.ends
    }

    /// Adds an object after those that it has, which end at an offset, and answers where it ends.
    fn push(&mut self, object: TapeObject<'_>, offset: u64) -> Result<u64, FlushFault>
        requires { IsKeepable (lent_object object) }
        ensures end { IfOk result (λ end. end ≡ offset + length (object_bytes (lent_object object.entry))) }
        ensures bytes { IfOk result (λ end. self.new.bytes ≡ self.old.bytes ++ object_bytes (lent_object object.entry)) }
        ensures ends { IfOk result (λ end. self.new.ends ≡ self.old.ends ++ end ∷ []) }
    {
        let Some(end) = offset.checked_add(part_length(object) as u64) else {
            return Err(FlushFault::PastLastOffset);
        };
        write_object(object, &mut self.bytes)?;
        self.ends.push(end)?;
        Ok(end)
    }

    /// Takes a tape's objects from one on, as many as a part holds, of some at least one, for an image in which they follow what ends at
    /// an offset. How many they are.
    pub(crate) fn gather(&mut self, tape: &Tape, from: u32, offset: u64) -> Result<u32, FlushFault>
        requires { from ≤ length tape.now.objects }
        ensures within { IfOk result (λ count. from + count ≤ length tape.now.objects) }
        ensures some { IfOk result (λ count. from < length tape.now.objects → 0 < count) }
        ensures part { IfOk result (λ count. IsPart offset (take count (drop from tape.now.objects)) self.new) }
    {
        self.bytes.clear();
        self.ends.clear();
        let end = tape.object_count();
        let mut last = offset;
        'objects: for at in from..end {
            let object = object_at(tape, at);
            if at > from && PART.saturating_sub(self.bytes.len()) < part_length(object) {
                return Ok(at - from);
            }
            last = self.push(object, last)?;
        }
        Ok(end - from)
    }
}
