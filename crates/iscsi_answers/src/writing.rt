ghost use Rattle.std.specs.Prelude.{◌≡◌, ◌<◌, ◌+◌, ◌^◌, ◌++◌, length, OnOk};
ghost use Rattle.iscsi_pdu.specs.Views.{target_value};
ghost use Rattle.iscsi_answers.specs.Written.{bytes_of};

use iscsi_pdu::{TargetPdu, write_target_pdu};
use std::alloc::AllocError;

/// Adds a PDU.
#[tactic(auto, unfolding(crate::specs::Written::bytes_of))]
pub(crate) fn write_pdu(out: &mut Vec<u8>, pdu: &TargetPdu<'_>) -> Result<(), AllocError>
    requires { length pdu.now.payload.now < 2 ^ 24 }
    ensures { OnOk result (out.new.items ≡ out.old.items ++ bytes_of (target_value pdu.now)) }
{
    write_target_pdu(out, pdu)
}
