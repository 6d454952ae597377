ghost use Rattle.std.specs.Prelude.{◌≡◌, ◌/◌, ◌<◌, ◌≤◌, true, length, IfSome, IfOk, is_some};
ghost use Rattle.std.specs.Option.{option_map};
ghost use Rattle.scsi_cdb.specs.Commands.{Row, command_of, fields_in, length_of_group, decoded};
ghost use Rattle.scsi_cdb.specs.Encoding.{Fits};

use crate::changer::{move_medium_at, read_element_status_at};
use crate::fault::CdbFault;
use crate::fields::bit_at;
use crate::host_decoding::{has_host_command, host_fields_of};
use crate::kind::Kind;
use crate::layout::*;
use crate::primary::{
    inquiry_at, mode_select_at, mode_sense_at, prevent_allow_medium_removal_at, report_luns_at,
    request_sense_at, reserve_in_at, reserve_out_at,
};
use crate::profile::{CommandSet, Profile};
use crate::request::Request;
use crate::tape::{
    load_unload_at, locate_at, read_at, read_position_at, space_at, write_at, write_filemarks_at,
};

/// The request that the bytes decode to for a unit with these commands. Bytes past the command's length and
/// bits that are no field are ignored. An empty CDB is `ShortCdb`; else the first of these that
/// holds is the fault: no such opcode, too few bytes for it, no such service action, NACA.
pub fn decode(commands: CommandSet, cdb: &[u8]) -> Result<Request, CdbFault>
    ensures decoded { result ≡ decoded commands cdb.now }
    ensures fits { IfOk result Fits }
{
    let CommandSet { profile, kind } = commands;
    let opcode = *cdb.first().ok_or(CdbFault::ShortCdb)?;
    let length = length_of(profile, kind, opcode).ok_or(CdbFault::Opcode)?;
    if cdb.len() < length {
        return Err(CdbFault::ShortCdb);
    }
    let request = fields_of(profile, kind, opcode, cdb).ok_or(CdbFault::ServiceAction)?;
    if bit_at(cdb, length - 1, NACA_BIT) {
        return Err(CdbFault::Naca);
    }
    Ok(request)
}

/// The length of a CDB, where units of the kind have the command.
#[tactic(auto, using(crate::proofs::GroupCodes::length_where_had, crate::proofs::GroupCodes::no_length))]
fn length_of(profile: Profile, kind: Kind, opcode: u8) -> Option<usize>
    ensures length { result ≡ option_map (λ (r : Row). r.length) (command_of profile kind opcode) }
    ensures some { IfSome result (λ n. 0 < n) }
{
    if has_command(profile, kind, opcode) {
        Some(length_by_group(opcode))
    } else {
        None
    }
}

/// Whether units of the kind have the command.
#[tactic(auto, unfolding(crate::specs::Commands::command_of))]
fn has_command(profile: Profile, kind: Kind, opcode: u8) -> bool
    ensures { result ≡ is_some (command_of profile kind opcode) }
{
    match opcode {
        TEST_UNIT_READY
        | REQUEST_SENSE
        | INQUIRY
        | MODE_SENSE_6
        | PREVENT_ALLOW_MEDIUM_REMOVAL
        | PERSISTENT_RESERVE_IN
        | PERSISTENT_RESERVE_OUT
        | REPORT_LUNS => true,
        INITIALIZE_ELEMENT_STATUS | MOVE_MEDIUM | READ_ELEMENT_STATUS => kind == Kind::Changer,
        REWIND
        | READ_BLOCK_LIMITS
        | READ_6
        | WRITE_6
        | WRITE_FILEMARKS_6
        | SPACE_6
        | MODE_SELECT_6
        | ERASE_6
        | LOAD_UNLOAD
        | READ_POSITION => kind == Kind::Drive,
        LOCATE_10 => kind == Kind::Drive || profile == Profile::Hosts,
        _ => match profile {
            Profile::Spec => false,
            Profile::Hosts => has_host_command(kind, opcode),
        },
    }
}

/// The length of a CDB by the group code of its operation code, the three high bits (SPC-4, "Operation code").
fn length_by_group(opcode: u8) -> usize
    ensures some { 0 < result }
    ensures length { result ≡ length_of_group (opcode / 32) }
{
    match opcode / GROUP_CODE {
        0 => SIX_BYTES,
        1 | 2 => TEN_BYTES,
        _ => TWELVE_BYTES,
    }
}

/// What a CDB of the command says, where its service action is one of the command's own.
#[tactic(auto, unfolding(crate::specs::Commands::command_of))]
fn fields_of(profile: Profile, kind: Kind, opcode: u8, cdb: &[u8]) -> Option<Request>
    requires had { is_some (command_of profile kind opcode) ≡ true }
    requires whole { IfSome (command_of profile kind opcode) (λ (r : Row). r.length ≤ length cdb.now) }
    ensures value { result ≡ fields_in (command_of profile kind opcode) cdb.now }
    ensures fits { IfSome result Fits }
{
    match opcode {
        TEST_UNIT_READY => Some(Request::TestUnitReady),
        REWIND => Some(Request::Rewind),
        REQUEST_SENSE => Some(request_sense_at(cdb)),
        READ_BLOCK_LIMITS => Some(Request::ReadBlockLimits),
        INITIALIZE_ELEMENT_STATUS => Some(Request::InitializeElementStatus),
        READ_6 => Some(read_at(cdb)),
        WRITE_6 => Some(write_at(cdb)),
        WRITE_FILEMARKS_6 => Some(write_filemarks_at(cdb)),
        SPACE_6 => Some(space_at(cdb)),
        INQUIRY => Some(inquiry_at(cdb)),
        MODE_SELECT_6 => Some(mode_select_at(cdb)),
        ERASE_6 => Some(Request::Erase),
        MODE_SENSE_6 => Some(mode_sense_at(cdb)),
        LOAD_UNLOAD => Some(load_unload_at(cdb)),
        PREVENT_ALLOW_MEDIUM_REMOVAL => Some(prevent_allow_medium_removal_at(cdb)),
        LOCATE_10 => match kind {
            Kind::Drive => Some(locate_at(cdb)),
            Kind::Changer => host_fields_of(kind, opcode, cdb),
        },
        READ_POSITION => read_position_at(profile, cdb),
        PERSISTENT_RESERVE_IN => reserve_in_at(cdb),
        PERSISTENT_RESERVE_OUT => reserve_out_at(cdb),
        REPORT_LUNS => Some(report_luns_at(cdb)),
        MOVE_MEDIUM => Some(move_medium_at(cdb)),
        READ_ELEMENT_STATUS => Some(read_element_status_at(cdb)),
        _ => match profile {
            Profile::Spec => None,
            Profile::Hosts => host_fields_of(kind, opcode, cdb),
        },
    }
}
