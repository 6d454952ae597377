ghost use Rattle.std.specs.Prelude.{◌≡◌, ◌||◌, ℕ, List};
ghost use Rattle.tape_medium.specs.declared.volume.VolumeTag.{VolumeTag};
ghost use Rattle.library_inventory.specs.declared.placed.PlacedVolume.{PlacedVolume};
ghost use Rattle.library_inventory.specs.declared.placing.Start.{Start};
ghost use Rattle.library_inventory.specs.Starts.{IsStart};
ghost use Rattle.library_inventory.specs.Elements.{AddressesReadBack};
ghost use Rattle.library_inventory.specs.Profiles.{NumbersStay, OpensAsKept};
ghost use Rattle.library_inventory.specs.Tests.{has_tag, is_named};

/// Law: at a start each image that can be read and each volume that is made is in an element, and nothing else is.
pub fn starts_hold_all_images()
    ensures { (slots least : ℕ) (named missing : List PlacedVolume) (images left_out : List VolumeTag) (start : Start) (tag : VolumeTag)
        → IsStart slots least named missing images left_out start
        → is_named start.volumes.items tag ≡ (has_tag images tag || has_tag start.made.items tag) }
{}

/// Law: a start forgets no volume: each that the inventory names, or has as missing, is in an element or is missing.
pub fn starts_forget_no_volume()
    ensures { (slots least : ℕ) (named missing : List PlacedVolume) (images left_out : List VolumeTag) (start : Start) (tag : VolumeTag)
        → IsStart slots least named missing images left_out start
        → (is_named start.volumes.items tag || is_named start.missing.items tag)
        ≡ ((has_tag images tag || has_tag start.made.items tag) || (is_named named tag || is_named missing tag)) }
{}

/// Law: a library opens as it is kept where nothing is given, and one that is kept with the hosts' profile keeps its number.
pub fn profiles_stay()
    ensures opens { OpensAsKept }
    ensures numbers { NumbersStay }
{}

/// Law: an element of a library that is no drive is found by its address.
pub fn addresses_read_back()
    ensures { AddressesReadBack }
{}
