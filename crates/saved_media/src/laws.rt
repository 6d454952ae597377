ghost use Rattle.std.specs.Prelude.{◌≡◌, ◌≢◌, ◌<◌, ◌≤◌, ℕ, true, false, None, Some};
ghost use Rattle.saved_media.specs.Backlogs.{added, backlog, is_many, is_some_behind, is_too_much, stuck, taken};
ghost use Rattle.saved_media.specs.Items.{item_at, number_of};
ghost use Rattle.saved_media.specs.declared.item.KeptItem.{KeptItem};
ghost use Rattle.saved_media.specs.declared.item.KeptItem.TheVariants.{Backlog, Inventory, Moved, Tape};

/// Law: an item has a number of its own.
pub fn items_have_numbers()
    ensures again { (images number : ℕ) (item : KeptItem) → number_of images item ≡ Some number → item_at images number ≡ Some item }
    ensures distinct { (images number : ℕ) (a b : KeptItem) → number_of images a ≡ Some number → number_of images b ≡ Some number → a ≡ b }
{}

/// Worked rows: the items of a library with three images.
pub fn item_rows()
    ensures first { number_of 3 (Tape 0) ≡ Some 0 }
    ensures first_moved { number_of 3 (Moved 0) ≡ Some 1 }
    ensures last { number_of 3 (Tape 2) ≡ Some 4 }
    ensures last_moved { number_of 3 (Moved 2) ≡ Some 5 }
    ensures inventory { number_of 3 Inventory ≡ Some 6 }
    ensures drive { number_of 3 (Backlog 1) ≡ Some 7 }
    ensures last_drive { number_of 3 (Backlog 4) ≡ Some 10 }
    ensures no_image { number_of 3 (Tape 3) ≡ None }
    ensures no_drive { number_of 3 (Backlog 0) ≡ None }
    ensures no_fifth_drive { number_of 3 (Backlog 5) ≡ None }
    ensures of_five { item_at 3 5 ≡ Some (Moved 2) }
    ensures of_eleven { item_at 3 11 ≡ None }
{}

/// Worked rows: what isn't copied yet is many from 8 MiB on, and too much from 64 MiB on; nothing is that couldn't be copied.
pub fn backlog_rows()
    ensures none { is_some_behind (backlog 0 false) ≡ false }
    ensures some { is_some_behind (backlog 1 true) ≡ true }
    ensures few { is_many (backlog 0x7FFFFF false) ≡ false }
    ensures many { is_many (backlog 0x800000 false) ≡ true }
    ensures many_stuck { is_many (backlog 0x800000 true) ≡ false }
    ensures less { is_too_much (backlog 0x3FFFFFF false) ≡ false }
    ensures too_much { is_too_much (backlog 0x4000000 false) ≡ true }
    ensures too_much_stuck { is_too_much (backlog 0x4000000 true) ≡ false }
    ensures copied { taken 2 (backlog 5 true) ≡ backlog 3 false }
    ensures copied_more { taken 7 (backlog 5 false) ≡ backlog 0 false }
    ensures written { added 3 (backlog 5 true) ≡ backlog 8 true }
    ensures failed { stuck (backlog 5 false) ≡ backlog 5 true }
{}
