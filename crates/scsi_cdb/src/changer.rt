//! What the CDBs of the medium changer commands say (SMC-3).
ghost use Rattle.std.specs.Prelude.{◌≡◌, ◌≤◌, length};
ghost use Rattle.scsi_cdb.specs.Bits.{bit, bits, two_bytes, three_bytes};
ghost use Rattle.scsi_cdb.specs.Encoding.{Fits};
ghost use Rattle.scsi_cdb.specs.declared.request.Request.TheVariants.{MoveMedium, ReadElementStatus};

use crate::fields::{bit_at, byte_at, u16_at, u24_at};
use crate::layout::*;
use crate::request::Request;

pub fn move_medium_at(cdb: &[u8]) -> Request
    requires { 12 ≤ length cdb.now }
    ensures value { result ≡ MoveMedium (two_bytes cdb.now 2) (two_bytes cdb.now 4) (two_bytes cdb.now 6) (bit cdb.now 10 0) }
    ensures fits { Fits result }
{
    Request::MoveMedium {
        medium_transport_element_address: u16_at(cdb, MEDIUM_TRANSPORT_ELEMENT_ADDRESS),
        source_element_address: u16_at(cdb, SOURCE_ELEMENT_ADDRESS),
        destination_element_address: u16_at(cdb, DESTINATION_ELEMENT_ADDRESS),
        invert: bit_at(cdb, MOVE_MEDIUM_FLAGS, INVERT_BIT),
    }
}

pub fn read_element_status_at(cdb: &[u8]) -> Request
    requires { 12 ≤ length cdb.now }
    ensures value { result ≡ ReadElementStatus (bit cdb.now 1 4) (bits cdb.now 1 3 0) (two_bytes cdb.now 2)
        (two_bytes cdb.now 4) (bit cdb.now 6 1) (bit cdb.now 6 0) (three_bytes cdb.now 7) }
    ensures fits { Fits result }
{
    Request::ReadElementStatus {
        volume_tags: bit_at(cdb, FLAGS, VOLTAG_BIT),
        element_type_code: byte_at(cdb, FLAGS) & ELEMENT_TYPE_BITS,
        starting_element_address: u16_at(cdb, STARTING_ELEMENT_ADDRESS),
        number_of_elements: u16_at(cdb, NUMBER_OF_ELEMENTS),
        current_data: bit_at(cdb, ELEMENT_STATUS_FLAGS, CURDATA_BIT),
        device_identifiers: bit_at(cdb, ELEMENT_STATUS_FLAGS, DVCID_BIT),
        allocation_length: u24_at(cdb, ELEMENT_STATUS_ALLOCATION_LENGTH),
    }
}
