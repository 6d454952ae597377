//! What the CDBs of the primary commands say (SPC-4).
ghost use Rattle.std.specs.Prelude.{◌≡◌, ◌≤◌, length, IfSome};
ghost use Rattle.scsi_cdb.specs.Bits.{bit, bits, byte, two_bytes, four_bytes};
ghost use Rattle.scsi_cdb.specs.ServiceActions.{out_service_action};
ghost use Rattle.scsi_cdb.specs.Commands.{in_service_action, reserve_in, reserve_out};
ghost use Rattle.scsi_cdb.specs.Encoding.{Fits};
ghost use Rattle.scsi_cdb.specs.declared.request.Request.TheVariants.{RequestSense, Inquiry, ModeSelect, ModeSense, PreventAllowMediumRemoval, ReportLuns};

use crate::action::InServiceAction;
use crate::fields::{bit_at, byte_at, service_action_at, u16_at, u32_at};
use crate::layout::*;
use crate::request::Request;
use crate::service_action::OutServiceAction;

/// The fields of a REQUEST SENSE (SPC-4, "REQUEST SENSE command").
pub fn request_sense_at(cdb: &[u8]) -> Request
    ensures value { result ≡ RequestSense (bit cdb.now 1 0) (byte cdb.now 4) }
    ensures fits { Fits result }
{
    Request::RequestSense {
        descriptor_format: bit_at(cdb, FLAGS, DESC_BIT),
        allocation_length: byte_at(cdb, REQUEST_SENSE_ALLOCATION_LENGTH),
    }
}

/// The fields of an INQUIRY (SPC-4, "INQUIRY command").
pub fn inquiry_at(cdb: &[u8]) -> Request
    requires { 6 ≤ length cdb.now }
    ensures value { result ≡ Inquiry (bit cdb.now 1 0) (byte cdb.now 2) (two_bytes cdb.now 3) }
    ensures fits { Fits result }
{
    Request::Inquiry {
        vital_product_data: bit_at(cdb, FLAGS, EVPD_BIT),
        page_code: byte_at(cdb, INQUIRY_PAGE_CODE),
        allocation_length: u16_at(cdb, INQUIRY_ALLOCATION_LENGTH),
    }
}

pub fn mode_select_at(cdb: &[u8]) -> Request
    ensures value { result ≡ ModeSelect (bit cdb.now 1 0) (byte cdb.now 4) }
    ensures fits { Fits result }
{
    Request::ModeSelect {
        save_pages: bit_at(cdb, FLAGS, SP_BIT),
        parameter_list_length: byte_at(cdb, MODE_SELECT_PARAMETER_LIST_LENGTH),
    }
}

pub fn mode_sense_at(cdb: &[u8]) -> Request
    ensures value { result ≡ ModeSense
        (bit cdb.now 1 3) (bits cdb.now 2 7 6) (bits cdb.now 2 5 0) (byte cdb.now 3) (byte cdb.now 4) }
    ensures fits { Fits result }
{
    let page = byte_at(cdb, MODE_SENSE_PAGE);
    Request::ModeSense {
        disable_block_descriptors: bit_at(cdb, FLAGS, DBD_BIT),
        page_control: page >> PAGE_CONTROL_PLACE,
        page_code: page & PAGE_CODE_BITS,
        subpage_code: byte_at(cdb, MODE_SENSE_SUBPAGE_CODE),
        allocation_length: byte_at(cdb, MODE_SENSE_ALLOCATION_LENGTH),
    }
}

pub fn prevent_allow_medium_removal_at(cdb: &[u8]) -> Request
    ensures value { result ≡ PreventAllowMediumRemoval (bits cdb.now 4 1 0) }
    ensures fits { Fits result }
{
    Request::PreventAllowMediumRemoval {
        prevent: byte_at(cdb, PREVENT) & PREVENT_BITS,
    }
}

pub fn reserve_in_at(cdb: &[u8]) -> Option<Request>
    requires { 10 ≤ length cdb.now }
    ensures value { result ≡
        reserve_in (in_service_action (bits cdb.now 1 4 0)) (two_bytes cdb.now 7) }
    ensures fits { IfSome result Fits }
{
    Some(Request::PersistentReserveIn {
        service_action: InServiceAction::of(service_action_at(cdb))?,
        allocation_length: u16_at(cdb, RESERVE_IN_ALLOCATION_LENGTH),
    })
}

pub fn reserve_out_at(cdb: &[u8]) -> Option<Request>
    requires { 10 ≤ length cdb.now }
    ensures value { result ≡ reserve_out
        (out_service_action (bits cdb.now 1 4 0)) (byte cdb.now 2) (four_bytes cdb.now 5) }
    ensures fits { IfSome result Fits }
{
    Some(Request::PersistentReserveOut {
        service_action: OutServiceAction::of(service_action_at(cdb))?,
        scope_type: byte_at(cdb, RESERVE_OUT_SCOPE_TYPE),
        parameter_list_length: u32_at(cdb, RESERVE_OUT_PARAMETER_LIST_LENGTH),
    })
}

pub fn report_luns_at(cdb: &[u8]) -> Request
    requires { 12 ≤ length cdb.now }
    ensures value { result ≡ ReportLuns (byte cdb.now 2) (four_bytes cdb.now 6) }
    ensures fits { Fits result }
{
    Request::ReportLuns {
        select_report: byte_at(cdb, SELECT_REPORT),
        allocation_length: u32_at(cdb, REPORT_LUNS_ALLOCATION_LENGTH),
    }
}
