//! What the CDBs of the stream commands say: those of drives alone (SSC-4).
ghost use Rattle.std.specs.Prelude.{◌≡◌, ◌≤◌, length, IfSome};
ghost use Rattle.scsi_cdb.specs.Bits.{bit, bits, byte, three_bytes, four_bytes, signed_three_bytes};
ghost use Rattle.scsi_cdb.specs.Commands.{read_position};
ghost use Rattle.scsi_cdb.specs.Encoding.{Fits};
ghost use Rattle.scsi_cdb.specs.declared.request.Request.TheVariants.{Read, Write, WriteFilemarks, Space, LoadUnload, Locate};

use crate::fields::{bit_at, byte_at, count_at, service_action_at, u24_at, u32_at};
use crate::layout::*;
use crate::profile::Profile;
use crate::request::Request;

pub fn read_at(cdb: &[u8]) -> Request
    requires { 6 ≤ length cdb.now }
    ensures value { result ≡ Read (bit cdb.now 1 1) (bit cdb.now 1 0) (three_bytes cdb.now 2) }
    ensures fits { Fits result }
{
    Request::Read {
        suppress_incorrect_length: bit_at(cdb, FLAGS, SILI_BIT),
        fixed: bit_at(cdb, FLAGS, FIXED_BIT),
        transfer_length: u24_at(cdb, TRANSFER_LENGTH),
    }
}

pub fn write_at(cdb: &[u8]) -> Request
    requires { 6 ≤ length cdb.now }
    ensures value { result ≡ Write (bit cdb.now 1 0) (three_bytes cdb.now 2) }
    ensures fits { Fits result }
{
    Request::Write {
        fixed: bit_at(cdb, FLAGS, FIXED_BIT),
        transfer_length: u24_at(cdb, TRANSFER_LENGTH),
    }
}

pub fn write_filemarks_at(cdb: &[u8]) -> Request
    requires { 6 ≤ length cdb.now }
    ensures value { result ≡ WriteFilemarks (bit cdb.now 1 1) (bit cdb.now 1 0) (three_bytes cdb.now 2) }
    ensures fits { Fits result }
{
    Request::WriteFilemarks {
        write_setmarks: bit_at(cdb, FLAGS, WSMK_BIT),
        immediate: bit_at(cdb, FLAGS, IMMED_BIT),
        filemark_count: u24_at(cdb, FILEMARK_COUNT),
    }
}

pub fn space_at(cdb: &[u8]) -> Request
    requires { 6 ≤ length cdb.now }
    ensures value { result ≡ Space (bits cdb.now 1 3 0) (signed_three_bytes cdb.now 2) }
    ensures fits { Fits result }
{
    Request::Space {
        code: byte_at(cdb, SPACE_CODE) & SPACE_CODE_BITS,
        count: count_at(cdb, SPACE_COUNT),
    }
}

pub fn load_unload_at(cdb: &[u8]) -> Request
    ensures value { result ≡ LoadUnload (bit cdb.now 4 3) (bit cdb.now 4 2) (bit cdb.now 4 0) }
    ensures fits { Fits result }
{
    Request::LoadUnload {
        hold: bit_at(cdb, LOAD_UNLOAD_FLAGS, HOLD_BIT),
        end_of_tape: bit_at(cdb, LOAD_UNLOAD_FLAGS, EOT_BIT),
        load: bit_at(cdb, LOAD_UNLOAD_FLAGS, LOAD_BIT),
    }
}

pub fn locate_at(cdb: &[u8]) -> Request
    requires { 10 ≤ length cdb.now }
    ensures value { result ≡ Locate (bit cdb.now 1 2) (bit cdb.now 1 1) (four_bytes cdb.now 3) (byte cdb.now 8) }
    ensures fits { Fits result }
{
    Request::Locate {
        block_address_type: bit_at(cdb, FLAGS, BT_BIT),
        change_partition: bit_at(cdb, FLAGS, CP_BIT),
        logical_object_identifier: u32_at(cdb, LOGICAL_OBJECT_IDENTIFIER),
        partition: byte_at(cdb, LOCATE_PARTITION),
    }
}

/// Other service actions ask for other forms of the answer: this target has the short form, in the hosts' profile by both of its service actions
/// (profile).
pub fn read_position_at(profile: Profile, cdb: &[u8]) -> Option<Request>
    ensures value { result ≡ read_position profile (bits cdb.now 1 4 0) }
    ensures fits { IfSome result Fits }
{
    match (service_action_at(cdb), profile) {
        (SHORT_FORM_BLOCK_ID, Profile::Spec | Profile::Hosts)
        | (SHORT_FORM_VENDOR_SPECIFIC, Profile::Hosts) => Some(Request::ReadPosition),
        _ => None,
    }
}
