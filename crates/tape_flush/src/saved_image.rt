ghost use Rattle.std.specs.Prelude.{◌≡◌, ◌==◌, ◌↔◌, true, false, List, [], length, take, IsTrue, IfOk, IfSome, OnOk, OnErr, IfErr};
ghost use Rattle.tape_medium.specs.Object.{Object};
ghost use Rattle.tape_medium.specs.TapeView.{TapeView};
ghost use Rattle.tape_flush.specs.Careful.{GoesOn, trusted_to};
ghost use Rattle.tape_flush.specs.Stores.{IsNewFile};
ghost use Rattle.tape_flush.specs.Images.{IsHeld, IsWhole};
ghost use Rattle.tape_flush.specs.Bringing.{IsBrought, IsBroughtOrThere, HasJustThat, HasItsObjectsThere};
ghost use Rattle.tape_flush.specs.Saved.{Has, HasFirstOf, Holds, Follows, IsTaken, IsOnDisk, IsUnchanged, IsWholeImage, BeginsUnless, ends_within, image_of};

use crate::ends::{end_at, keep_within, last_end};
use crate::fault::FlushFault;
use crate::known::Known;
use crate::part::TapePart;
use crate::part_range::PartRange;
use crate::replacing::replace;
use crate::store::{ImageStore, StoreFault};
use crate::watched_file::WatchedFile;
use std::alloc::Global;
use std::marker::Model;
use tape_medium::Tape;

/// The image of a tape in a file: which of the tape's objects are in it for sure, where each ends, which takes 8 bytes an object, and what
/// is known of the file.
///
/// It is brought on part by part. A part is taken of the tape, which counts as unchanged up to the part's end from then on, and then it is
/// written, while the tape may be written on.
///
/// ```text
/// let range = image.take_part(&tape, &mut part)?;
/// tape.settle(range.end);
/// image.write_part(range, &part)?;
/// image.sync()?;
/// ```
#[derive(Drop)]
pub struct SavedImage<S: ImageStore> {
    file: WatchedFile<S>,
    ends: Vec<u64>,
    /// Whether the file has no other objects, as it was found, and nothing was written to it.
    is_untouched: bool,
}

impl<S: ImageStore> Model for SavedImage<S> {
    ghost use Rattle.tape_flush.specs.Saved.{SavedImageValue};
    ghost use Rattle.tape_flush.specs.Careful.{IsInOrder};

    ghost Value = { SavedImageValue S };

    ghost view = { λ kept. record { ends = kept.ends.items; known = kept.file.known; store = kept.file.store; file = S.file kept.file.store; untouched = kept.is_untouched } };

    ghost invariant = { λ kept. IsInOrder kept.file.known };
}

impl<S: ImageStore> SavedImage<S> {
    /// Of a file of which so many bytes are on the disk, as its record says, and whose objects end there, as far as they are within these.
    pub(crate) fn opened(store: S, trusted: u64, ends: Vec<u64>) -> SavedImage<S>
        ensures { result ≡ record { ends = ends_within trusted ends.items; known = trusted_to trusted; store = store; file = S.file store; untouched = length ends.items == length (ends_within trusted ends.items) } }
    {
        let mut ends = ends;
        let count = ends.len();
        keep_within(&mut ends, trusted);
        SavedImage {
            file: WatchedFile::new(store, Known::opened(trusted)),
            is_untouched: count == ends.len(),
            ends,
        }
    }

    /// How many objects are in the file for sure.
    pub fn count(&self) -> usize
        ensures { result ≡ length self.now.ends }
    {
        self.ends.len()
    }

    pub fn store(&self) -> &S
        ensures { result.now ≡ self.now.store }
    {
        self.file.store()
    }

    /// Whether it has its objects and nothing after them, and may be written on.
    pub fn is_whole(&self) -> bool
        ensures { IsTrue result ↔ IsWholeImage self.now }
    {
        self.file.ends_at(last_end(&self.ends))
    }

    /// Whether each of its objects is on the disk, as its record there says.
    pub fn is_on_disk(&self) -> bool
        ensures told { IsTrue result ↔ IsOnDisk self.now }
        ensures there { IsTrue result → (objects others : List Object) → Has self.now objects others → HasItsObjectsThere self.now }
    {
        last_end(&self.ends) <= self.file.known().least
    }

    /// Whether it is as it was found, and has just the objects of a tape of which a part was to be taken: then nothing is to be written,
    /// and what else the file has, as an end mark, stays there.
    pub fn is_unchanged(&self, range: PartRange) -> bool
        ensures { IsTrue result ↔ IsUnchanged self.now range }
    {
        self.is_untouched && range.stay as usize == self.ends.len() && range.count == range.stay
    }

    /// Takes a part of a tape whose first objects the image has, as many as count as unchanged: of those that it doesn't have the first,
    /// as many as a part holds. Nothing waits for the file.
    pub fn take_part(&self, tape: &Tape, part: &mut TapePart) -> Result<PartRange, FlushFault>
        ensures { IfOk result (λ range. IsTaken self.now tape.now range part.new) }
    {
        let count = tape.object_count();
        let stay = (tape.unchanged() as usize).min(self.ends.len()) as u32;
        let end = stay + part.gather(tape, stay, end_at(&self.ends, stay as usize))?;
        Ok(PartRange { stay, end, count })
    }

    /// Writes the part that was taken last, whatever became of the tape since. Then the image is that of the tape's objects up to the
    /// part's end, as they were when it was taken. Where it fails, the image has the first of those that stay, and where it wasn't a sync
    /// that failed, the file has all of these, and after them perhaps the first of those that it had, or of the part.
    pub fn write_part(&mut self, range: PartRange, part: &TapePart) -> Result<(), FlushFault>
        ensures goes { GoesOn S.did self.old.store self.old.known self.new.store self.new.known }
        ensures touched { self.new.untouched ≡ true → self.new ≡ self.old }
        ensures whole { (known others : List Object) (tape : TapeView) → Has self.old known others → Follows known tape → IsTaken self.old tape range part.now → OnOk result (IsWhole (image_of self.new) (take range.end tape.objects)) }
        ensures ready { (known others : List Object) (tape : TapeView) → Has self.old known others → Follows known tape → IsTaken self.old tape range part.now → OnOk result (Has self.new (take range.end tape.objects) [] × IsWholeImage self.new) }
        ensures held { (known others : List Object) (tape : TapeView) → Has self.old known others → Follows known tape → IsTaken self.old tape range part.now → OnErr result (HasFirstOf tape.objects self.new) }
        ensures begins { (known others : List Object) (tape : TapeView) → Has self.old known others → IsHeld (image_of self.old) known others → Follows known tape → IsTaken self.old tape range part.now → IfErr result (BeginsUnless range tape known others (image_of self.new)) }
    {
        // A part that was taken of it has no more that stay.
        let stay = (range.stay as usize).min(self.ends.len());
        if part.is_empty() && stay == self.ends.len() && self.is_whole() {
            return Ok(());
        }
        if end_at(&self.ends, stay) > self.file.known().sound {
            return Err(FlushFault::Store(StoreFault::Failed));
        }
        self.is_untouched = false;
        replace(&mut self.file, &mut self.ends, stay, part)
    }

    /// Brings all of it to the disk, where it isn't there already, and has its record say so. An image that has more after its objects, or
    /// may have, isn't brought there: a part is to be written first. Where the sync fails, the image has what an earlier one brought to the
    /// disk.
    pub fn sync(&mut self) -> Result<(), StoreFault>
        ensures goes { GoesOn S.did self.old.store self.old.known self.new.store self.new.known }
        ensures ends { OnOk result (self.new.ends ≡ self.old.ends) }
        ensures ok { OnOk result (IsOnDisk self.new) }
        ensures brought { OnOk result (IsBroughtOrThere S.did self.old self.new) }
        ensures there { (objects others : List Object) → Has self.old objects others → OnOk result (HasItsObjectsThere self.new) }
        ensures same { (objects others : List Object) → Has self.old objects others → OnOk result (Has self.new objects others) }
        ensures err { (objects others : List Object) → Has self.old objects others → OnErr result (HasFirstOf objects self.new) }
    {
        if self.is_on_disk() {
            return Ok(());
        }
        self.sync_anew()
    }

    /// The same, also where all of it is on the disk as its record says: then that is written once more, and a new file takes its place.
    pub fn sync_anew(&mut self) -> Result<(), StoreFault>
        ensures goes { GoesOn S.did self.old.store self.old.known self.new.store self.new.known }
        ensures ends { OnOk result (self.new.ends ≡ self.old.ends) }
        ensures ok { OnOk result (IsOnDisk self.new) }
        ensures brought { OnOk result (IsBrought S.did self.old self.new) }
        ensures just { (objects others : List Object) → Has self.old objects others → OnOk result (HasJustThat self.old self.new) }
        ensures there { (objects others : List Object) → Has self.old objects others → OnOk result (HasItsObjectsThere self.new) }
        ensures same { (objects others : List Object) → Has self.old objects others → OnOk result (Has self.new objects others) }
        ensures err { (objects others : List Object) → Has self.old objects others → OnErr result (HasFirstOf objects self.new) }
    {
        if !self.is_whole() {
            return Err(StoreFault::Failed);
        }
        if let Err(fault) = self.file.sync() {
            self.is_untouched = false;
            keep_within(&mut self.ends, self.file.known().sound);
            return Err(fault);
        }
        self.file.note(last_end(&self.ends))
    }

    /// The image of the same tape in a new file, which has none of its objects yet. It takes the place of this one when it is brought to
    /// the disk.
    pub fn renewed(&self, alloc: Global) -> Result<SavedImage<S>, StoreFault>
        ensures new { IfOk result (λ image. (image.ends ≡ []) × (image.known ≡ trusted_to 0) × (image.untouched ≡ false) × IsNewFile image.file) }
        ensures has { IfOk result (λ image. IfSome image.file (λ file. Holds file image.known image.ends [] [])) }
    {
        let store = self.file.store().renewed()?;
        Ok(SavedImage {
            file: WatchedFile::new(store, Known::opened(0)),
            ends: Vec::new(alloc),
            is_untouched: false,
        })
    }
}
