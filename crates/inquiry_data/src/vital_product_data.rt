//! Vital product data (SPC-4, "Vital product data parameters"; SSC-4, "Vital product data parameters").
ghost use Rattle.std.specs.Prelude.{◌≡◌, ◌≤◌, length, vec_len, IfOk, IfSome};
ghost use Rattle.std.specs.Option.{option_map};
ghost use Rattle.inquiry_data.specs.VitalProductData.{vital_product_page, with_header, page_data, supported_pages, device_identification};

use crate::designators::{naa_designation, relative_port_designation, t10_vendor_id_designation};
use crate::inquiry_context::InquiryContext;
use crate::layout::*;
use crate::page::VitalProductPage;
use crate::standard::peripheral_device_type;
use scsi_cdb::Kind;
use std::alloc::{AllocError, Global};

/// A page of vital product data, uncut, by its PAGE CODE; none where units of the kind haven't got it.
pub fn vital_product_page(
    alloc: Global,
    kind: Kind,
    context: &InquiryContext,
    page_code: u8,
) -> Result<Option<Vec<u8>>, AllocError>
    ensures answer { IfOk result (λ answer. option_map (λ bytes. bytes.items) answer ≡ vital_product_page kind context.now page_code) }
    ensures short { IfOk result (λ answer. IfSome answer (λ bytes. vec_len bytes ≤ 254)) }
{
    match VitalProductPage::at(kind, page_code) {
        Some(page) => Ok(Some(page_data(alloc, kind, context, page)?)),
        None => Ok(None),
    }
}

fn page_data(
    alloc: Global,
    kind: Kind,
    context: &InquiryContext,
    page: VitalProductPage,
) -> Result<Vec<u8>, AllocError>
    ensures bytes { IfOk result (λ bytes. bytes.items ≡ page_data kind context.now page) }
    ensures short { IfOk result (λ bytes. vec_len bytes ≤ 254) }
{
    let identity = context.identity;
    match page {
        VitalProductPage::SupportedPages => with_header(alloc, kind, page, supported_pages(kind)),
        VitalProductPage::UnitSerialNumber | VitalProductPage::ManufacturerAssignedSerialNumber => {
            with_header(alloc, kind, page, &identity.serial_number())
        }
        VitalProductPage::DeviceIdentification => {
            with_header(alloc, kind, page, &device_identification(kind, context))
        }
        VitalProductPage::ExtendedInquiryData => with_header(alloc, kind, page, SIMPLE_TASKS),
        VitalProductPage::ModePagePolicy => with_header(alloc, kind, page, ALL_MODE_PAGES_SHARED),
        VitalProductPage::SequentialAccessDeviceCapabilities => {
            with_header(alloc, kind, page, NO_WORM)
        }
        VitalProductPage::TapeAlertSupportedFlags => with_header(alloc, kind, page, NO_FLAGS),
        VitalProductPage::AutomationDeviceSerialNumber => {
            with_header(alloc, kind, page, &identity.changer().serial_number())
        }
        VitalProductPage::DataTransferDeviceElementAddress => {
            with_header(alloc, kind, page, &context.element_address.to_be_bytes())
        }
    }
}

/// A page: its header, then the content.
fn with_header(
    alloc: Global,
    kind: Kind,
    page: VitalProductPage,
    content: &[u8],
) -> Result<Vec<u8>, AllocError>
    requires { length content.now ≤ 250 }
    ensures bytes { IfOk result (λ bytes. bytes.items ≡ with_header kind page content.now) }
    ensures short { IfOk result (λ bytes. vec_len bytes ≤ 254) }
{
    let [n1, n0] = (content.len() as u16).to_be_bytes();
    let mut bytes = Vec::with_capacity(alloc, PAGE_HEADER_LENGTH + content.len())?;
    bytes.extend_from_slice(&[peripheral_device_type(kind), page.code(), n1, n0])?;
    bytes.extend_from_slice(content)?;
    Ok(bytes)
}

fn supported_pages(kind: Kind) -> &'static [u8]
    ensures page_codes { result.now ≡ supported_pages kind }
    ensures short { length result.now ≤ 250 }
{
    match kind {
        Kind::Drive => &PAGES_OF_DRIVES,
        Kind::Changer => &PAGES_OF_CHANGERS,
    }
}

#[tactic(auto, unfolding(hex::specs::Hex::encode_with))]
fn device_identification(kind: Kind, context: &InquiryContext) -> [u8; DEVICE_IDENTIFICATION_LENGTH]
    ensures { result ≡ device_identification kind context.now }
{
    let identity = context.identity;
    let mut descriptors = [0; DEVICE_IDENTIFICATION_LENGTH];
    descriptors[..T10_VENDOR_ID_PLACE].copy_from_slice(&naa_designation(identity));
    descriptors[T10_VENDOR_ID_PLACE..RELATIVE_PORT_PLACE].copy_from_slice(
        &t10_vendor_id_designation(kind, identity),
    );
    descriptors[RELATIVE_PORT_PLACE..].copy_from_slice(&relative_port_designation(
        context.target_port,
    ));
    descriptors
}
