//! The tape.

ghost use Rattle.std.specs.Prelude.{◌≡◌, ◌<◌, ◌≤◌, ◌+◌, ◌++◌, ◌↔◌, length, OnOk, OnErr, IfOk, IfErr, IsOk, IsErrOf, IsTrue, Ok, vec_len, vec_capacity, IsOkUnless, IfSome, slice_get, option_map};
ghost use Rattle.tape_medium.specs.Limits.{block_limit, capacity_limit, object_limit};
ghost use Rattle.tape_medium.specs.Kept.{HasLength, HaveLengths};
ghost use Rattle.tape_medium.specs.Lent.{lent_object};
ghost use Rattle.tape_medium.specs.Along.{code_of};
ghost use Rattle.tape_medium.specs.Space.{spaced};
ghost use Rattle.tape_medium.specs.Tape.{blank, behind, bytes_in, settled, writes_block, writes_blocks, writes_marks, IsFaultOf, object_at, item_of, bytes_of, passed, moved_to, located, erased};

use crate::fault::TapeFault;
use crate::item::Item;
use crate::limits::{most_block, most_objects};
use crate::memory::MemoryLimit;
use crate::object::TapeObject;
use crate::passage::pass_objects;
use crate::space::{SpaceCode, SpaceEnd, Stop};
use crate::store::Store;
use scsi_cdb::Profile;
use std::alloc::Global;
use std::marker::Model;

/// A tape: logical objects, each a block of bytes or a filemark, a position, and a capacity in bytes of blocks. For a program
/// that keeps a copy, it tells how many of its first objects are as they were, and lends them.
///
/// ```text
/// for at in tape.unchanged()..tape.object_count() {
///     if let Some(object) = tape.object(at) {
///         copy(object);
///     }
/// }
/// tape.settle(tape.object_count());
/// ```
#[derive(Drop)]
pub struct Tape {
    store: Store,
    position: usize,
    capacity: usize,
    unchanged: usize,
}

impl Model for Tape {
    ghost use Rattle.std.specs.Prelude.{◌≤◌, length};
    ghost use Rattle.tape_medium.specs.TapeView.{TapeView};
    ghost use Rattle.tape_medium.specs.Kept.{IsTape, HaveLengths};

    ghost Value = { TapeView };

    ghost view = { λ a. record { objects = a.store; position = a.position; capacity = a.capacity; unchanged = a.unchanged } };

    ghost invariant = { λ a. IsTape a.store a.position a.capacity × HaveLengths a.store × (a.unchanged ≤ length a.store) };
}

impl Tape {
    /// A blank tape for `capacity` bytes of blocks, at its beginning.
    pub fn new(alloc: Global, capacity: u64) -> Tape
        requires some { 0 < capacity }
        requires within { capacity ≤ capacity_limit }
        ensures { result ≡ blank capacity }
    {
        Tape::within(alloc, capacity, MemoryLimit::none())
    }

    /// A blank tape for `capacity` bytes of blocks, at its beginning, that takes no more memory than the limit leaves.
    pub fn within(alloc: Global, capacity: u64, memory: MemoryLimit) -> Tape
        requires some { 0 < capacity }
        requires within { capacity ≤ capacity_limit }
        ensures { result ≡ blank capacity }
    {
        Tape {
            store: Store::new(alloc, memory),
            position: 0,
            capacity: capacity as usize,
            unchanged: 0,
        }
    }

    /// How many logical objects lie before the position: the logical object identifier (SSC-4, "READ POSITION command").
    pub fn position(&self) -> u32
        ensures value { result ≡ self.now.position }
        ensures within { result ≤ length self.now.objects }
    {
        self.position as u32
    }

    /// How many logical objects the tape has.
    pub fn object_count(&self) -> u32
        ensures value { result ≡ length self.now.objects }
        ensures few { result ≤ object_limit }
        ensures lengths { HaveLengths self.now.objects }
    {
        self.store.len() as u32
    }

    /// How many bytes the blocks have that lie before the position.
    pub fn bytes_before_position(&self) -> u64
        ensures { result ≡ bytes_in (behind self.now) }
    {
        self.store.bytes_before(self.position) as u64
    }

    /// How many bytes all blocks have.
    pub fn byte_count(&self) -> u64
        ensures { result ≡ bytes_in self.now.objects }
    {
        self.store.bytes_before(self.store.len()) as u64
    }

    /// How many bytes of blocks the tape takes.
    pub fn capacity(&self) -> u64
        ensures value { result ≡ self.now.capacity }
        ensures within { result ≤ capacity_limit }
    {
        self.capacity as u64
    }

    /// The object behind the first `at`, where it lies.
    pub fn object(&self, at: u32) -> Option<TapeObject<'_>>
        ensures value { option_map lent_object result ≡ slice_get self.now.objects at }
        ensures length { IfSome result (λ object. HasLength (lent_object object)) }
    {
        let at = at as usize;
        if at >= self.store.len() {
            return None;
        }
        Some(self.store.object(at))
    }

    /// How many of the first objects are those that there were when the tape was settled, none where it wasn't: a write and an
    /// erasure change what lies from the position on, whatever it was.
    pub fn unchanged(&self) -> u32
        ensures value { result ≡ self.now.unchanged }
        ensures within { result ≤ length self.now.objects }
    {
        self.unchanged as u32
    }

    /// From now on the first `count` objects count as unchanged.
    pub fn settle(&mut self, count: u32)
        requires { count ≤ length self.old.objects }
        ensures { self.new ≡ settled self.old count }
    {
        self.unchanged = count as usize;
    }

    /// Goes to the beginning.
    pub fn rewind(&mut self)
        ensures { self.new ≡ moved_to self.old 0 }
    {
        self.position = 0;
    }

    /// Goes to where `object` objects lie before the position, and says whether there are as many. If not, the
    /// position is the end of data (SSC-4, "LOCATE(10) command").
    pub fn locate(&mut self, object: u32) -> bool
        ensures after { self.new ≡ located self.old object }
        ensures there { IsTrue result ↔ (object ≤ length self.old.objects) }
    {
        let object = object as usize;
        let end = self.store.len();
        self.position = object.min(end);
        object <= end
    }

    /// Drops all objects from the position on (SSC-4, "ERASE(6) command").
    pub fn erase(&mut self)
        ensures { self.new ≡ erased self.old }
    {
        self.store.truncate(self.position);
        self.unchanged = self.unchanged.min(self.position);
    }

    /// Writes one block at the position and drops all that lay after (SSC-4, "WRITE(6) command"), in a library of a profile.
    pub fn write_block(&mut self, profile: Profile, block: &[u8]) -> Result<(), TapeFault>
        ensures ok { OnOk result (writes_block profile self.old block.now ≡ Ok self.new) }
        ensures fault { IfErr result (IsFaultOf (writes_block profile self.old block.now)) }
        ensures err { OnErr result (self.new ≡ self.old) }
    {
        if block.is_empty() || block.len() > most_block(profile) as usize {
            return Err(TapeFault::BlockLength);
        }
        if self.store.bytes_before(self.position) + block.len() > self.capacity {
            return Err(TapeFault::Overflow);
        }
        if self.position + 1 > most_objects(profile) as usize {
            return Err(TapeFault::Overflow);
        }
        if self
            .store
            .put_block(self.position, block, self.capacity)
            .is_err()
        {
            return Err(TapeFault::NoMemory);
        }
        self.unchanged = self.unchanged.min(self.position);
        self.position += 1;
        Ok(())
    }

    /// Writes whole blocks of `size` bytes at the position, all or none, and drops all that lay after, in a library of a profile. No bytes
    /// are no blocks: they change nothing, and take no memory.
    #[tactic(auto, using(crate::proofs::BlockLemmas::block_sizes))]
    pub fn write_blocks(
        &mut self,
        profile: Profile,
        bytes: &[u8],
        size: u32,
    ) -> Result<(), TapeFault>
        ensures ok { OnOk result (writes_blocks profile self.old bytes.now size ≡ Ok self.new) }
        ensures fault { IfErr result (IsFaultOf (writes_blocks profile self.old bytes.now size)) }
        ensures memory { IsErrOf result TapeFault.NoMemory → 0 < length bytes.now }
        ensures err { OnErr result (self.new ≡ self.old) }
    {
        if size == 0 || size > most_block(profile) {
            return Err(TapeFault::BlockLength);
        }
        if bytes.len() % size as usize != 0 {
            return Err(TapeFault::BlockLength);
        }
        if bytes.is_empty() {
            return Ok(());
        }
        let count = bytes.len() / size as usize;
        if self.store.bytes_before(self.position) + bytes.len() > self.capacity {
            return Err(TapeFault::Overflow);
        }
        if self.position + count > most_objects(profile) as usize {
            return Err(TapeFault::Overflow);
        }
        match self
            .store
            .put_blocks(self.position, bytes, size as usize, self.capacity)
        {
            Ok(()) => {}
            Err(_) => return Err(TapeFault::NoMemory),
        }
        self.unchanged = self.unchanged.min(self.position);
        self.position += count;
        Ok(())
    }

    /// Writes `count` filemarks at the position and drops all that lay after (SSC-4, "WRITE FILEMARKS(6) command"), in a library of a
    /// profile. A count of 0 changes nothing, and takes no memory.
    pub fn write_marks(&mut self, profile: Profile, count: u32) -> Result<(), TapeFault>
        ensures ok { OnOk result (writes_marks profile self.old count ≡ Ok self.new) }
        ensures fault { IfErr result (IsFaultOf (writes_marks profile self.old count)) }
        ensures memory { IsErrOf result TapeFault.NoMemory → 0 < count }
        ensures err { OnErr result (self.new ≡ self.old) }
    {
        if count == 0 {
            return Ok(());
        }
        let count = count as usize;
        if self.position + count > most_objects(profile) as usize {
            return Err(TapeFault::Overflow);
        }
        if self.store.put_marks(self.position, count).is_err() {
            return Err(TapeFault::NoMemory);
        }
        self.unchanged = self.unchanged.min(self.position);
        self.position += count;
        Ok(())
    }

    /// Appends the first `limit` bytes of the block at the position, or all where it has fewer, and goes past the
    /// object (SSC-4, "READ(6) command"). The answer has the whole length of the block. It takes no memory where
    /// `into` has room for what is appended.
    pub fn read(&mut self, limit: u32, into: &mut Vec<u8>) -> Result<Item, TapeFault>
        ensures item { IfOk result (λ item. item ≡ item_of (object_at self.old)) }
        ensures bytes { OnOk result (into.new.items ≡ into.old.items ++ bytes_of (object_at self.old) limit) }
        ensures short { OnOk result (length (bytes_of (object_at self.old) limit) ≤ block_limit) }
        ensures after { OnOk result (self.new ≡ passed (object_at self.old) self.old) }

        ensures only { IsOkUnless result TapeFault.NoMemory }
        ensures room { vec_len into.old + length (bytes_of (object_at self.old) limit) ≤ vec_capacity into.old → IsOk result }
        ensures err { OnErr result (self.new ≡ self.old) }
        ensures kept { OnErr result (into.new.items ≡ into.old.items) }
        ensures capacity { vec_capacity into.old ≤ vec_capacity into.new }
    {
        if self.position >= self.store.len() {
            return Ok(Item::End);
        }
        match self.store.object(self.position) {
            TapeObject::Mark => {
                self.position += 1;
                Ok(Item::Mark)
            }
            TapeObject::Block(block) => {
                let length = block.len();
                let part = &block[..length.min(limit as usize)];
                if into.extend_from_slice(part).is_err() {
                    return Err(TapeFault::NoMemory);
                }
                self.position += 1;
                Ok(Item::Block(length as u32))
            }
        }
    }

    fn space_over(&mut self, marks: bool, count: i32) -> SpaceEnd
        ensures { spaced (code_of marks) self.old count ≡ (self.new, result) }
    {
        let todo = count.unsigned_abs();
        if count < 0 {
            let way = pass_objects(&self.store, self.position, true, marks, todo);
            self.position -= way.over;
            SpaceEnd {
                moved: way.counted,
                stop: way.stop,
            }
        } else {
            let way = pass_objects(&self.store, self.position, false, marks, todo);
            self.position += way.over;
            SpaceEnd {
                moved: way.counted,
                stop: way.stop,
            }
        }
    }

    /// Moves over `count` blocks or filemarks, back where the count is negative, or to the end of data, where the
    /// count is ignored (SSC-4, "SPACE(6) command").
    pub fn space(&mut self, code: SpaceCode, count: i32) -> SpaceEnd
        ensures { spaced code self.old count ≡ (self.new, result) }
    {
        match code {
            SpaceCode::EndOfData => {
                self.position = self.store.len();
                SpaceEnd {
                    moved: 0,
                    stop: Stop::Done,
                }
            }
            SpaceCode::Blocks => self.space_over(false, count),
            SpaceCode::Marks => self.space_over(true, count),
        }
    }
}
