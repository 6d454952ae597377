ghost use Rattle.std.specs.Prelude.{◌≡◌, ◌++◌, ℕ, List, [], map, take, IsSomeAnd};
ghost use Rattle.tape_medium.specs.Object.{Object};
ghost use Rattle.tape_image.specs.Reading.{Placed, Waiting, Reads};
ghost use Rattle.tape_flush.specs.Careful.{after, Allowed, IsKnown};
ghost use Rattle.tape_flush.specs.Images.{ImageValue, IsWhole, IsHeld, HoldsFirst, object_in};
ghost use Rattle.tape_flush.specs.Saved.{Holds, ImagesFollowTapes};
ghost use Rattle.tape_flush.specs.Stores.{Does, FileValue, StoreCall, Survives};
ghost use Rattle.tape_flush.specs.Surviving.{OpensAs};
ghost use Rattle.tape_flush.specs.declared.known.Known.{Known};

use tape_medium::laws::unchanged_objects_stay_in_front;

/// Law: an image that is that of some objects is read as these, to its end.
pub fn whole_images_are_read()
    ensures { (image : ImageValue) (objects : List Object) → IsWhole image objects
        → IsSomeAnd image.contents (λ bytes. (found : List Placed) × (whole : ℕ) × Reads 0 bytes found (Waiting whole []) × (map object_in found ≡ objects)) }
{}

/// Law: an image that has some objects for sure is read as these, and perhaps the first of the others: as a beginning of both.
pub fn held_images_are_read()
    ensures { (image : ImageValue) (known others : List Object) → IsHeld image known others
        → IsSomeAnd image.contents (λ bytes. HoldsFirst 0 bytes (known ++ others)) }
{}

/// Law: whatever becomes of a tape since a part of it was taken and it was settled up to the part's end, an image of its objects up to
/// there, or of fewer where the part couldn't be written, follows it: so the next part can be taken.
pub fn images_follow_tapes()
    ensures { ImagesFollowTapes }
{
    unchanged_objects_stay_in_front();
}

/// Law: what is known of a file is so after each call that is allowed, whether it succeeds or fails: what counts as synced is on the disk.
pub fn what_is_known_is_so()
    ensures { (known : Known) (call : StoreCall) (file new : FileValue) → IsKnown known file → Allowed known call → Does call file new → IsKnown (after known call) new }
{}

/// Law: whatever a power cut leaves of the file of an image, up to what its record says it is read as a beginning of what was written, with
/// each object that its record vouched for; and so it is however it is cut.
pub fn synced_objects_survive()
    ensures found { (file : FileValue) (known : Known) (ends : List ℕ) (objects others : List Object) (found : List ℕ) (noted : ℕ) → Holds file known ends objects others
        → Survives file found noted → OpensAs known.least ends (objects ++ others) (take noted found) }
    ensures cut { (file : FileValue) (known : Known) (ends : List ℕ) (objects others : List Object) (found : List ℕ) (noted count : ℕ) → Holds file known ends objects others
        → Survives file found noted → HoldsFirst 0 (take count (take noted found)) (objects ++ others) }
{}
