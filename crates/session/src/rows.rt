ghost use Rattle.std.specs.Prelude.{◌≡◌};
ghost use Rattle.scsi_cdb.specs.declared.profile.Profile.TheVariants.{Spec, Hosts};
ghost use Rattle.session.specs.Limits.{out_room};

/// Worked rows: how much room a session makes for its replies.
pub fn limit_rows()
    ensures room { out_room Spec ≡ 131138 }
    ensures room_for_hosts { out_room Hosts ≡ 2097218 }
{}
