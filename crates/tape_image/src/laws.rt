ghost use Rattle.std.specs.Prelude.{◌≡◌, ℕ, List, [], ◌+◌, ◌-◌, ◌≤◌, ◌++◌, length, take, drop, Some};
ghost use Rattle.tape_medium.specs.Object.{Object};
ghost use Rattle.tape_image.specs.Images.{object_bytes, image_bytes, IsKeepable, AreKeepable};
ghost use Rattle.tape_image.specs.Parts.{Complete, IsKnown, image_part};
ghost use Rattle.tape_image.specs.Reading.{Placed, Stop, Waiting, Reads, GoesOn, placed, whole_within, whole_of, image_end, cut_end, cut_stop};
ghost use Rattle.tape_image.specs.Walking.{part_count, part_objects, stop_at};

/// Law: what an image begins with, once it is more than a piece of a part, stays whatever follows.
pub fn parts_stay()
    ensures { (bytes more : List ℕ) → IsKnown (image_part bytes) → image_part (bytes ++ more) ≡ image_part bytes }
{}

/// Law: each image, whatever its bytes are, holds some objects, and reading stops somewhere.
pub fn each_image_is_read()
    ensures { (offset : ℕ) (bytes : List ℕ) → (objects : List Placed) × (stop : Stop) × Reads offset bytes objects stop }
{}

/// Law: the objects of an image, and where reading stops, are one answer.
pub fn one_reading()
    ensures { (offset : ℕ) (bytes : List ℕ) (xs ys : List Placed) (s t : Stop) → Reads offset bytes xs s → Reads offset bytes ys t → (xs ≡ ys) × (s ≡ t) }
{}

/// Law: more bytes change nothing of what was read: they are read on from where reading stopped.
pub fn readings_go_on()
    ensures { (offset : ℕ) (bytes more : List ℕ) (xs ys : List Placed) (s t : Stop) → Reads offset bytes xs s → GoesOn s more ys t → Reads offset (bytes ++ more) (xs ++ ys) t }
{}

/// Law: a beginning of an image holds a beginning of its objects, at the same offsets.
pub fn beginnings_are_read()
    ensures { (offset count : ℕ) (bytes : List ℕ) (xs ys : List Placed) (s t : Stop) → Reads offset bytes xs s → Reads offset (take count bytes) ys t
        → (others : List Placed) × (xs ≡ ys ++ others) }
{}

/// Law: objects that are written are read, each exactly and at its offset, and what is after them is read after them.
pub fn objects_are_read()
    ensures part { (x : Object) (rest : List ℕ) → IsKeepable x → image_part (object_bytes x ++ rest) ≡ Complete x (length (object_bytes x)) }
    ensures image { (offset : ℕ) (xs : List Object) → AreKeepable xs → Reads offset (image_bytes xs) (placed offset xs) (Waiting (offset + length (image_bytes xs)) []) }
    ensures rest { (offset : ℕ) (xs : List Object) (rest : List ℕ) (others : List Placed) (stop : Stop) → AreKeepable xs
        → Reads (offset + length (image_bytes xs)) rest others stop → Reads offset (image_bytes xs ++ rest) (placed offset xs ++ others) stop }
{}

/// Law: of objects that were written and then cut, at whatever byte, those are read that are whole before the cut. Reading stops where the
/// last of them ends, and what is left is a tail that holds none.
pub fn cut_images_are_read()
    ensures objects { (offset count : ℕ) (xs : List Object) → AreKeepable xs
        → Reads offset (take count (image_bytes xs)) (placed offset (whole_within count xs)) (cut_stop offset count xs) }
    ensures end { (offset count objects : ℕ) (xs : List Object) → count ≤ length (image_bytes xs)
        → image_end objects (cut_stop offset count xs) ≡ cut_end (offset + count) (offset + length (image_bytes (whole_within count xs))) }
{}

/// Law: an image that is cut back to where it is whole, before a tail that was cut, the end mark or a fault, holds the same objects,
/// and is whole.
pub fn images_are_cut_back()
    ensures whole { (offset : ℕ) (bytes : List ℕ) (xs : List Placed) (stop : Stop) → Reads offset bytes xs stop
        → (offset ≤ whole_of stop) × (whole_of stop - offset ≤ length bytes) }
    ensures reads { (offset : ℕ) (bytes : List ℕ) (xs : List Placed) (stop : Stop) → Reads offset bytes xs stop
        → Reads offset (take (whole_of stop - offset) bytes) xs (Waiting (whole_of stop) []) }
{}

/// Law: after an image that is cut back to where it is whole, more objects can be written. Whatever a crash leaves of these, at whatever
/// byte, the objects before them are still read, and then those of them that are whole before the cut.
pub fn images_are_written_on()
    ensures { (offset count : ℕ) (bytes : List ℕ) (xs : List Placed) (stop : Stop) (ys : List Object) → Reads offset bytes xs stop → AreKeepable ys
        → Reads offset (take (whole_of stop - offset) bytes ++ take count (image_bytes ys))
        (xs ++ placed (whole_of stop) (whole_within count ys)) (cut_stop (whole_of stop) count ys) }
{}

/// Law: at a reader that passes a part the image still holds that object, or none, and then what it holds from there on; and
/// where no part can be passed reading stops.
pub fn parts_are_passed()
    ensures passed { (offset : ℕ) (bytes more : List ℕ) (others : List Placed) (stop : Stop)
        → Reads (offset + part_count (image_part bytes)) (drop (part_count (image_part bytes)) bytes ++ more) others stop
        → Reads offset (bytes ++ more) (part_objects offset (image_part bytes) ++ others) stop }
    ensures stopped { (offset : ℕ) (bytes : List ℕ) (stop : Stop) → stop_at offset bytes (image_part bytes) ≡ Some stop → Reads offset bytes [] stop }
{}
