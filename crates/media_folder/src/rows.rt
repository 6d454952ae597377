ghost use Rattle.std.specs.Prelude.{◌≡◌, ℕ, List, codes};
ghost use Rattle.tape_medium.specs.declared.volume.VolumeTag.{VolumeTag};
ghost use Rattle.media_folder.specs.Names.{IsVolumePath};

/// Worked rows: where the file of a volume is.
pub fn worked_rows()
    ensures volume { IsVolumePath (codes "/var/lib/vtl") (record { 0 = codes "VOL00001                        " }) (codes "/var/lib/vtl/VOL00001.tap") }
    ensures another { ¬ IsVolumePath (codes "tapes") (record { 0 = codes "A                               " }) (codes "tapes/B.tap") }
{}

/// Law: the file at a path is that of one volume alone.
pub fn paths_name_volumes()
    ensures { (folder path : List ℕ) (one other : VolumeTag) → IsVolumePath folder one path → IsVolumePath folder other path → one ≡ other }
{}
