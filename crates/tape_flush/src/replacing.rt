ghost use Rattle.std.specs.Prelude.{◌≡◌, ◌≤◌, ◌+◌, ◌++◌, List, ℕ, take, vec_len, length, OnOk, OnErr, IfErr};
ghost use Rattle.tape_flush.specs.Stores.{contents_of};
ghost use Rattle.tape_flush.specs.Careful.{GoesOn, IsInOrder};
ghost use Rattle.tape_flush.specs.Images.{end_at};
ghost use Rattle.tape_flush.specs.Saved.{ends_within};
ghost use Rattle.tape_flush.specs.Watched.{Adds, AddsInPart, IsEmptyAt, IsStopped};
ghost use Rattle.tape_flush.specs.Replacing.{CutsBack, IsReplaced};
ghost use Rattle.tape_flush.specs.declared.known.FileTail.TheVariants.{Empty};

use crate::ends::{end_at, keep_within};
use crate::fault::FlushFault;
use crate::part::TapePart;
use crate::store::ImageStore;
use crate::watched_file::WatchedFile;

/// Cuts a file back to where its first objects end, unless it ends there already, and forgets the others.
fn cut_back<S: ImageStore>(
    file: &mut WatchedFile<S>,
    ends: &mut Vec<u64>,
    stay: usize,
) -> Result<(), FlushFault>
    requires stay { stay ≤ vec_len ends.old }
    requires order { IsInOrder file.old.known }
    requires sound { end_at ends.old.items stay ≤ file.old.known.sound }
    ensures goes { GoesOn S.did file.old.store file.old.known file.new.store file.new.known }
    ensures ok { OnOk result (CutsBack stay ends.old.items ends.new.items file.new.known (contents_of (S.file file.old.store)) (contents_of (S.file file.new.store))) }
    ensures ends { ends.new.items ≡ take stay ends.old.items }
    ensures err { (piece : List ℕ) → IfErr result (IsStopped (end_at ends.old.items stay) piece file.old.known (S.file file.old.store) file.new.known (S.file file.new.store)) }
{
    let end = end_at(ends, stay);
    ends.truncate(stay);
    if file.ends_at(end) {
        return Ok(());
    }
    file.cut_back(end)
}

/// Adds a part's bytes to a file, and notes where its objects end, where all of it was added.
fn append<S: ImageStore>(
    file: &mut WatchedFile<S>,
    ends: &mut Vec<u64>,
    part: &TapePart,
) -> Result<(), FlushFault>
    requires { file.old.known.tail ≡ Empty }
    ensures goes { GoesOn S.did file.old.store file.old.known file.new.store file.new.known }
    ensures ends_of_all { OnOk result (ends.new.items ≡ ends.old.items ++ part.now.ends) }
    ensures ends_of_none { OnErr result (ends.new.items ≡ ends.old.items) }
    ensures ok { OnOk result (IsEmptyAt (file.old.known.sound + length part.now.bytes) file.new.known) }
    ensures added { OnOk result (Adds file.old.known.sound part.now.bytes (contents_of (S.file file.old.store)) (contents_of (S.file file.new.store))) }
    ensures same { OnErr result (file.new.known.sound ≡ file.old.known.sound) }
    ensures err { OnErr result (AddsInPart part.now.bytes (contents_of (S.file file.old.store)) (contents_of (S.file file.new.store))) }
{
    let count = ends.len();
    ends.extend_from_slice(part.ends())?;
    match file.append(part.bytes()) {
        Ok(()) => Ok(()),
        Err(fault) => {
            ends.truncate(count);
            Err(fault)
        }
    }
}

/// Cuts a file back to the first objects, which stay, and adds a part after them. Where it fails none of the part's counts.
fn try_replace<S: ImageStore>(
    file: &mut WatchedFile<S>,
    ends: &mut Vec<u64>,
    stay: usize,
    part: &TapePart,
) -> Result<(), FlushFault>
    requires stay { stay ≤ vec_len ends.old }
    requires order { IsInOrder file.old.known }
    requires sound { end_at ends.old.items stay ≤ file.old.known.sound }
    ensures goes { GoesOn S.did file.old.store file.old.known file.new.store file.new.known }
    ensures ok { OnOk result (IsReplaced stay part.now ends.old.items ends.new.items file.new.known (contents_of (S.file file.old.store)) (contents_of (S.file file.new.store))) }
    ensures ends { OnErr result (ends.new.items ≡ take stay ends.old.items) }
    ensures err { IfErr result (IsStopped (end_at ends.old.items stay) part.now.bytes file.old.known (S.file file.old.store) file.new.known (S.file file.new.store)) }
{
    if let Err(fault) = cut_back(file, ends, stay) {
        return Err(fault);
    }
    append(file, ends, part)
}

/// The same. Where it fails, the objects that count are those that are in the file as they were written.
pub(crate) fn replace<S: ImageStore>(
    file: &mut WatchedFile<S>,
    ends: &mut Vec<u64>,
    stay: usize,
    part: &TapePart,
) -> Result<(), FlushFault>
    requires stay { stay ≤ vec_len ends.old }
    requires order { IsInOrder file.old.known }
    requires sound { end_at ends.old.items stay ≤ file.old.known.sound }
    ensures goes { GoesOn S.did file.old.store file.old.known file.new.store file.new.known }
    ensures ok { OnOk result (IsReplaced stay part.now ends.old.items ends.new.items file.new.known (contents_of (S.file file.old.store)) (contents_of (S.file file.new.store))) }
    ensures ends { OnErr result (ends.new.items ≡ ends_within file.new.known.sound (take stay ends.old.items)) }
    ensures err { IfErr result (IsStopped (end_at ends.old.items stay) part.now.bytes file.old.known (S.file file.old.store) file.new.known (S.file file.new.store)) }
{
    match try_replace(file, ends, stay, part) {
        Ok(()) => Ok(()),
        Err(fault) => {
            keep_within(ends, file.known().sound);
            Err(fault)
        }
    }
}
