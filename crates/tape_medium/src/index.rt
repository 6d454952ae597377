//! Where the objects of a store lie.

ghost use Rattle.std.specs.Prelude.{◌≡◌, ◌+◌, ◌*◌, ◌<◌, ◌≤◌, ◌^◌, ◌++◌, ◌∷◌, [], vec_len, vec_capacity, take, length, replicate, slice_range, OnOk};
ghost use Rattle.tape_medium.specs.Store.{ends_of, end_after, home_after, block_places};

use crate::memory::{MemoryLease, MemoryLimit};
use std::alloc::AllocError;

/// Where an object ends, in bytes of all blocks, and in which piece of memory. A filemark ends where the object before it does; no
/// block is empty.
#[derive(Clone, Copy)]
pub(crate) struct Place {
    pub(crate) end: usize,
    pub(crate) home: usize,
}

/// Where the objects before `at` end.
pub(crate) fn end_before(places: &[Place], at: usize) -> usize
    requires { at ≤ length places.now }
    ensures { result ≡ end_after 0 (ends_of (take at places.now)) }
{
    if at == 0 { 0 } else { places[at - 1].end }
}

/// In which piece they end.
pub(crate) fn home_before(places: &[Place], at: usize) -> usize
    requires { at ≤ length places.now }
    ensures { result ≡ home_after 0 (take at places.now) }
{
    if at == 0 { 0 } else { places[at - 1].home }
}

pub(crate) fn part(bytes: &[u8], start: usize, end: usize) -> &[u8]
    requires order { start ≤ end }
    requires within { end ≤ length bytes.now }
    ensures { result.now ≡ slice_range bytes.now start end }
{
    &bytes[start..end]
}

/// Makes room for `total` items in all.
pub(crate) fn reserve_total<T>(items: &mut Vec<T>, total: usize) -> Result<(), AllocError>
    ensures items { items.new.items ≡ items.old.items }
    ensures len { vec_len items.new ≡ vec_len items.old }
    ensures ok { OnOk result (total ≤ vec_capacity items.new) }
{
    items.reserve(total.saturating_sub(items.len()))
}

/// Makes room for `total` places in all, if the limit leaves memory for it. While they move to where there is room, they take memory twice.
pub(crate) fn reserve_places(
    places: &mut Vec<Place>,
    memory: &MemoryLimit,
    held: &mut MemoryLease,
    total: usize,
) -> Result<(), AllocError>
    ensures items { places.new.items ≡ places.old.items }
    ensures len { vec_len places.new ≡ vec_len places.old }
    ensures ok { OnOk result (total ≤ vec_capacity places.new) }
{
    let room = places.capacity();
    if total <= room {
        return Ok(());
    }
    let room = total.max(room.saturating_mul(2));
    let lease = memory.lease(room.saturating_mul(size_of::<Place>()))?;
    reserve_total(places, room)?;
    *held = lease;
    Ok(())
}

/// Puts bytes behind the first `at`, within the room.
pub(crate) fn put_bytes(bytes: &mut Vec<u8>, at: usize, more: &[u8])
    requires room { at + length more.now ≤ vec_capacity bytes.old }
    ensures items { bytes.new.items ≡ take at bytes.old.items ++ more.now }
    ensures capacity { vec_capacity bytes.old ≤ vec_capacity bytes.new }
{
    bytes.truncate(at);
    let _ = bytes.extend_from_slice(more);
}

/// Puts a place behind the first `at`, within the room.
pub(crate) fn put_place(places: &mut Vec<Place>, at: usize, place: Place)
    requires room { at < vec_capacity places.old }
    ensures { places.new.items ≡ take at places.old.items ++ place ∷ [] }
{
    places.truncate(at);
    let _ = places.push(place);
}

/// Puts the places of `count` filemarks behind the first `at`, within the room: each lies where the object before it ends.
pub(crate) fn put_mark_places(places: &mut Vec<Place>, at: usize, place: Place, count: usize)
    requires within { at ≤ vec_len places.old }
    requires room { at + count ≤ vec_capacity places.old }
    ensures { places.new.items ≡ take at places.old.items ++ replicate count place }
{
    places.truncate(at);
    let _ = places.resize(at + count, place);
}

/// Puts the places of `count` blocks of `size` bytes behind the first `at`, within the room. The first block begins at `from`.
pub(crate) fn put_block_places(
    places: &mut Vec<Place>,
    at: usize,
    from: usize,
    size: usize,
    count: usize,
    home: usize,
)
    requires within { at ≤ vec_len places.old }
    requires room { at + count ≤ vec_capacity places.old }
    requires fits { from + count * size < 2 ^ 64 }
    ensures { places.new.items ≡ take at places.old.items ++ block_places size count from home }
{
    places.truncate(at);
    let mut end = from;
    for _ in 0..count {
        end += size;
        let _ = places.push(Place { end, home });
    }
}
