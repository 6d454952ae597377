ghost use Rattle.std.specs.Prelude.{◌≡◌, ◌<◌, ℕ, true, false, None, Some};
ghost use Rattle.library_inventory.specs.Tags.{tag_of};
ghost use Rattle.scsi_cdb.specs.declared.classes.Class.TheVariants as class;
ghost use Rattle.tickets.specs.declared.ticket.Ticket.{Ticket};
ghost use Rattle.saved_media.specs.Items.{numbered};
ghost use Rattle.saved_media.specs.Saving.{IsAskedFor, is_protected_at, kept_ticket, lost_ticket, place_of, ticket};
ghost use Rattle.saved_media.specs.SavingRows.{AtOnce, Waits, four_images};
ghost use Rattle.saved_media.specs.declared.item.KeptItem.TheVariants.{Tape};

/// Worked rows: where the images of volumes are. Of two images of a volume the first counts.
pub fn image_rows()
    ensures first { place_of four_images (tag_of 1) ≡ Some 0 }
    ensures first_of_two { place_of four_images (tag_of 2) ≡ Some 1 }
    ensures last { place_of four_images (tag_of 3) ≡ Some 3 }
    ensures none { place_of four_images (tag_of 4) ≡ None }
    ensures protected { is_protected_at four_images 1 ≡ true }
    ensures unprotected { is_protected_at four_images 2 ≡ false }
    ensures nowhere { is_protected_at four_images 4 ≡ false }
    ensures last_item { IsAskedFor (numbered 1000002) (Tape 999999) (ticket 1999998 1) }
    ensures no_item { (asked : Ticket) → IsAskedFor (numbered 1000002) (Tape 1000000) asked → asked ≡ lost_ticket }
{}

/// Worked rows: the reply to a READ waits for nothing, and that to a WRITE for nothing but the backlog of its drive.
pub fn written_rows()
    ensures read { Waits class.Read (Some (tag_of 3)) None }
    ensures read_waits { (asked : Ticket) → ¬ Waits class.Read (Some (tag_of 3)) (Some asked) }
    ensures write { Waits class.Write (Some (tag_of 3)) None }
    ensures write_waits { Waits class.Write (Some (tag_of 3)) (Some (ticket 9 1)) }
    ensures another_drive { ¬ Waits class.Write (Some (tag_of 3)) (Some (ticket 10 1)) }
    ensures whole_tape { ¬ Waits class.Write (Some (tag_of 3)) (Some (ticket 6 1)) }
    ensures kept { ¬ Waits class.Write (Some (tag_of 3)) (Some kept_ticket) }
{}

/// Worked rows: the reply to a WRITE FILEMARKS, an ERASE or a LOAD UNLOAD waits until the tape of its volume is kept.
pub fn volume_rows()
    ensures filemark { Waits class.WriteFilemarks (Some (tag_of 3)) (Some (ticket 6 1)) }
    ensures later { Waits class.WriteFilemarks (Some (tag_of 3)) (Some (ticket 6 7)) }
    ensures erase { Waits class.Erase (Some (tag_of 1)) (Some (ticket 0 1)) }
    ensures unload { Waits class.LoadUnload (Some (tag_of 3)) (Some (ticket 6 1)) }
    ensures begun { ¬ Waits class.WriteFilemarks (Some (tag_of 3)) None }
    ensures at_once { ¬ Waits class.WriteFilemarks (Some (tag_of 3)) (Some kept_ticket) }
    ensures before { ¬ Waits class.WriteFilemarks (Some (tag_of 3)) (Some (ticket 6 0)) }
    ensures another { (number : ℕ) → ¬ Waits class.Erase (Some (tag_of 1)) (Some (ticket 6 number)) }
    ensures moved { ¬ Waits class.LoadUnload (Some (tag_of 3)) (Some (ticket 7 1)) }
    ensures no_volume { Waits class.LoadUnload None (Some kept_ticket) }
    ensures protected { Waits class.LoadUnload (Some (tag_of 2)) (Some kept_ticket) }
    ensures no_image { Waits class.Erase (Some (tag_of 4)) (Some lost_ticket) }
    ensures no_image_kept { ¬ Waits class.Erase (Some (tag_of 4)) (Some kept_ticket) }
    ensures immediate { AtOnce class.WriteFilemarks (Some (tag_of 3)) None }
    ensures immediate_waits { (asked : Ticket) → ¬ AtOnce class.WriteFilemarks (Some (tag_of 3)) (Some asked) }
{}

/// Worked rows: the reply to a MOVE MEDIUM waits until the volume that was moved is kept, also one that can't be written, and where the
/// volumes are.
pub fn move_rows()
    ensures moved { Waits class.MoveMedium (Some (tag_of 3)) (Some (ticket 7 1)) }
    ensures protected { Waits class.MoveMedium (Some (tag_of 2)) (Some (ticket 3 1)) }
    ensures tape { ¬ Waits class.MoveMedium (Some (tag_of 3)) (Some (ticket 6 1)) }
    ensures begun { ¬ Waits class.MoveMedium (Some (tag_of 3)) None }
    ensures none { Waits class.MoveMedium None (Some (ticket 8 1)) }
    ensures none_kept { ¬ Waits class.MoveMedium None (Some kept_ticket) }
    ensures no_image { Waits class.MoveMedium (Some (tag_of 4)) (Some lost_ticket) }
    ensures no_image_listed { ¬ Waits class.MoveMedium (Some (tag_of 4)) (Some (ticket 8 1)) }
{}
