//! The data of the commands that every unit has.
ghost use Rattle.std.specs.Prelude.{◌≡◌, IfOk};
ghost use Rattle.judgement.specs.UnitData.{device_type, standard_inquiry, four_digits, inquiry_data, context_of, identified_inquiry, inquiry_of, luns_data, selected_luns, sense_data};

use crate::layout::{
    CHANGER_TYPE, DRIVE_TYPE, ELEMENT_OF_UNIT_0, LUN_ENTRY_LENGTH, LUN_LIST_HEADER_LENGTH,
    SELECT_ALL, SELECT_WELL_KNOWN, SUPPORTED_PAGES, UNIT_SERIAL_NUMBER,
};
use device_server::{DeviceServer, Payload};
use inquiry_data::{InquiryContext, UnitIdentity, inquiry_data};
use scsi_cdb::Kind;
use scsi_sense::{Condition, Sense};
use std::alloc::{AllocError, Global};

fn device_type(kind: Kind) -> u8
    ensures { result ≡ device_type kind }
{
    match kind {
        Kind::Drive => DRIVE_TYPE,
        Kind::Changer => CHANGER_TYPE,
    }
}

fn standard_inquiry(kind: Kind) -> &'static [u8; 36]
    ensures { result.now ≡ standard_inquiry kind }
{
    match kind {
        Kind::Drive => b"\x01\x80\x06\x02\x1f\x00\x00\x00VTLIB   TAPE DRIVE      0001",
        Kind::Changer => b"\x08\x80\x06\x02\x1f\x00\x00\x00VTLIB   MEDIUM CHANGER  0001",
    }
}

fn digits(lun: u8) -> [u8; 4]
    ensures { result ≡ four_digits lun }
{
    [
        b'0',
        b'0' + lun / 100,
        b'0' + lun / 10 % 10,
        b'0' + lun % 10,
    ]
}

/// INQUIRY data of a unit without an identity, uncut; none of a page that isn't offered.
fn numbered_inquiry(
    alloc: Global,
    kind: Kind,
    lun: u8,
    vital_product_data: bool,
    page_code: u8,
) -> Result<Option<Payload>, AllocError>
    ensures { IfOk result (λ payload. payload ≡ inquiry_data kind lun vital_product_data page_code) }
{
    match (vital_product_data, page_code) {
        (false, 0) => Ok(Some(Payload::copied(alloc, standard_inquiry(kind))?)),
        (true, SUPPORTED_PAGES) => {
            let page = [
                device_type(kind),
                SUPPORTED_PAGES,
                0,
                2,
                SUPPORTED_PAGES,
                UNIT_SERIAL_NUMBER,
            ];
            Ok(Some(Payload::copied(alloc, &page)?))
        }
        (true, UNIT_SERIAL_NUMBER) => {
            let [thousands, hundreds, tens, ones] = digits(lun);
            let page = [
                device_type(kind),
                UNIT_SERIAL_NUMBER,
                0,
                4,
                thousands,
                hundreds,
                tens,
                ones,
            ];
            Ok(Some(Payload::copied(alloc, &page)?))
        }
        _ => Ok(None),
    }
}

/// What INQUIRY tells a port of a unit with an identity.
fn context(identity: UnitIdentity, lun: u8, port: u16) -> InquiryContext
    ensures { result ≡ context_of identity lun port }
{
    InquiryContext {
        identity,
        target_port: port,
        element_address: ELEMENT_OF_UNIT_0 + u16::from(lun),
    }
}

/// INQUIRY data of a unit with an identity, uncut; none of a page that isn't offered.
fn identified_inquiry(
    alloc: Global,
    kind: Kind,
    context: &InquiryContext,
    vital_product_data: bool,
    page_code: u8,
) -> Result<Option<Payload>, AllocError>
    ensures { IfOk result (λ payload. payload ≡ identified_inquiry kind context.now vital_product_data page_code) }
{
    match inquiry_data(alloc, kind, context, vital_product_data, page_code)? {
        Some(data) => Ok(Some(Payload::of(data))),
        None => Ok(None),
    }
}

/// INQUIRY data, uncut, for a command that came by a port; none of a page that isn't offered (SPC-4, "INQUIRY command").
pub fn inquiry<D: DeviceServer>(
    alloc: Global,
    device: &D,
    lun: u8,
    port: u16,
    vital_product_data: bool,
    page_code: u8,
) -> Result<Option<Payload>, AllocError>
    ensures { IfOk result (λ payload. payload ≡ inquiry_of (D.shown device.now) lun port vital_product_data page_code) }
{
    let kind = device.kind();
    match device.identity() {
        None => numbered_inquiry(alloc, kind, lun, vital_product_data, page_code),
        Some(identity) => {
            let context = context(identity, lun, port);
            identified_inquiry(alloc, kind, &context, vital_product_data, page_code)
        }
    }
}

/// The list of the logical units below a number.
fn luns(alloc: Global, units: u8) -> Result<Payload, AllocError>
    ensures { IfOk result (λ payload. payload ≡ luns_data units) }
{
    let length = LUN_ENTRY_LENGTH * u16::from(units);
    let mut data = Vec::with_capacity(alloc, LUN_LIST_HEADER_LENGTH + usize::from(length))?;
    data.extend_from_slice(&[0, 0, (length / 256) as u8, (length % 256) as u8, 0, 0, 0, 0])?;
    for lun in 0..units {
        data.extend_from_slice(&[0, lun, 0, 0, 0, 0, 0, 0])?;
    }
    Ok(Payload::of(data))
}

/// REPORT LUNS data, uncut; none of a SELECT REPORT that isn't defined.
pub fn report_luns(
    alloc: Global,
    units: u8,
    select_report: u8,
) -> Result<Option<Payload>, AllocError>
    ensures { IfOk result (λ payload. payload ≡ selected_luns units select_report) }
{
    if select_report > SELECT_ALL {
        return Ok(None);
    }
    if select_report == SELECT_WELL_KNOWN {
        return Ok(Some(luns(alloc, 0)?));
    }
    Ok(Some(luns(alloc, units)?))
}

/// The sense of a condition as data.
pub fn sense_data(alloc: Global, condition: Condition) -> Result<Payload, AllocError>
    ensures { IfOk result (λ payload. payload ≡ sense_data condition) }
{
    Payload::copied(alloc, &Sense::of(condition).to_bytes())
}
