//! A place for one volume: a storage element or an import/export element.

ghost use Rattle.std.specs.Prelude.{◌≡◌, Some, None, Ok, OnOk, OnErr, IfOk, IfErr, replicate, IsTrue, is_some};
ghost use Rattle.std.specs.Option.{option_map};
ghost use Rattle.tape_medium.specs.Elements.{tag_of};
ghost use Rattle.tape_medium.specs.Settling.{settled_to};

use std::alloc::{AllocError, Global};
use tape_medium::{MapFault, Volume, VolumeTag};

/// So many places, all empty.
pub(crate) fn empty_places<T: Drop>(
    alloc: Global,
    count: usize,
) -> Result<Vec<Option<T>>, AllocError>
    ensures { IfOk result (λ places. places.items ≡ replicate count None) }
{
    let mut places = Vec::with_capacity(alloc, count)?;
    for _ in 0..count {
        places.push(None)?;
    }
    Ok(places)
}

/// The tag of the volume in a place.
pub(crate) fn tag_of(place: &Option<Volume>) -> Option<VolumeTag>
    ensures { result ≡ tag_of place.now }
{
    match place {
        None => None,
        Some(volume) => Some(volume.tag),
    }
}

/// Takes the volume out of a place.
pub(crate) fn take_out(place: &mut Option<Volume>) -> Result<Volume, MapFault>
    ensures ok { IfOk result (λ volume. (place.old ≡ Some volume) × (place.new ≡ None)) }
    ensures fault { IfErr result (λ fault. fault ≡ MapFault.SourceEmpty) }
    ensures err { OnErr result ((place.old ≡ None) × (place.new ≡ None)) }
{
    match place.take() {
        Some(volume) => Ok(volume),
        None => Err(MapFault::SourceEmpty),
    }
}

/// From now on the first `objects` objects of the volume in a place count as unchanged, or all where it has fewer.
pub(crate) fn settle_in(place: &mut Option<Volume>, objects: u32)
    ensures { place.new ≡ option_map (settled_to objects) place.old }
{
    if let Some(volume) = place {
        volume.settle(objects);
    }
}

/// Puts a volume into an empty place. A full one hands it back.
pub(crate) fn put_in(place: &mut Option<Volume>, volume: Volume) -> Result<(), (Volume, MapFault)>
    ensures ok { OnOk result ((place.old ≡ None) × (place.new ≡ Some volume)) }
    ensures fault { IfErr result (λ refused. refused ≡ (volume, MapFault.DestinationFull)) }
    ensures err { OnErr result (IsTrue (is_some place.old) × (place.new ≡ place.old)) }
{
    if place.is_some() {
        return Err((volume, MapFault::DestinationFull));
    }
    *place = Some(volume);
    Ok(())
}
