//! The parameter data of READ ELEMENT STATUS.

ghost use Rattle.std.specs.Prelude.{◌≡◌, ◌<◌, ◌≤◌, ◌+◌, ◌*◌, ◌^◌, ◌++◌, length, vec_len, IfOk, OnOk};
ghost use Rattle.std.specs.List.{flat_map};
ghost use Rattle.tape_medium.specs.ElementStatus.{tag_information};
ghost use Rattle.element_map.specs.Runs.{code_of};
ghost use Rattle.element_sources.specs.HostStatus.{page_header, page_in, status_header, host_descriptor_length, identifier_of, identifier_length, host_descriptor, host_form, host_status};
ghost use Rattle.element_sources.specs.Reports.{as_reported, HasLimits, IsReportable, IsRun, run_elements, page_length};

use crate::layout::*;
use crate::report::chosen_report;
use crate::reported_element::{ReportedElement, element_numbered, type_code};
use crate::run::{Page, Run, host_descriptor_length};
use crate::sources::ElementSources;
use crate::status_request::StatusRequest;
use element_map::{ElementType, Elements};
use inquiry_data::{LibraryNumber, UnitIdentity, device_identifier};
use std::alloc::{AllocError, Global};
use tape_medium::VolumeTag;

/// The parameter data of READ ELEMENT STATUS, uncut: a header of 8 bytes, and for each type a page of the elements that are reported, with the
/// source of each volume where it is known, the logical unit number of each drive, and with DVCID its device identifier of 38 bytes (SMC-3,
/// "READ ELEMENT STATUS command"). Of as many elements as there may be it is 54,380 bytes, and with DVCID 34 more for each drive.
pub fn host_status(
    alloc: Global,
    elements: &Elements,
    sources: &ElementSources,
    library: LibraryNumber,
    request: &StatusRequest,
) -> Result<Vec<u8>, AllocError>
    ensures status { IfOk result (λ bytes. bytes.items ≡ host_status elements.now sources.now library request.now) }
    ensures short { IfOk result (λ bytes. vec_len bytes ≤ 54380 + 34 * length elements.now.data_transfer) }
    ensures fits { IfOk result (λ bytes. vec_len bytes < 2 ^ 16) }
{
    let report = chosen_report(elements, request);
    let length = report.length(request);
    let mut bytes = Vec::with_capacity(alloc, HEADER_LENGTH + length)?;
    put_header(&mut bytes, report.first_address(), report.number(), length)?;
    let page = Page {
        element_type: ElementType::MediumTransport,
        run: report.medium_transport,
    };
    put_page(&mut bytes, elements, sources, library, request, page)?;
    let page = Page {
        element_type: ElementType::DataTransfer,
        run: report.data_transfer,
    };
    put_page(&mut bytes, elements, sources, library, request, page)?;
    let page = Page {
        element_type: ElementType::ImportExport,
        run: report.import_export,
    };
    put_page(&mut bytes, elements, sources, library, request, page)?;
    let page = Page {
        element_type: ElementType::Storage,
        run: report.storage,
    };
    put_page(&mut bytes, elements, sources, library, request, page)?;
    Ok(bytes)
}

/// Appends a page; nothing where it shows no element.
fn put_page(
    bytes: &mut Vec<u8>,
    elements: &Elements,
    sources: &ElementSources,
    library: LibraryNumber,
    request: &StatusRequest,
    page: Page,
) -> Result<(), AllocError>
    requires limits { HasLimits elements.now }
    requires inside { IsRun elements.now page.element_type page.run }
    requires few { page.run.from + page.run.count ≤ 1024 }
    ensures items { OnOk result (bytes.new.items ≡ bytes.old.items
        ++ page_in (host_form sources.now library request.now.volume_tags request.now.device_identifiers) (code_of page.element_type) (run_elements elements.now page.element_type page.run)) }
    ensures length { OnOk result (vec_len bytes.new ≡ vec_len bytes.old + page_length request.now.volume_tags request.now.device_identifiers page.element_type page.run.count) }
{
    let Page { element_type, run } = page;
    if run.count == 0 {
        return Ok(());
    }
    put_page_header(bytes, request, element_type, run.count)?;
    put_descriptors(
        bytes,
        elements,
        sources,
        library,
        request,
        element_type,
        run,
    )
}

/// Appends the descriptors of a run.
fn put_descriptors(
    bytes: &mut Vec<u8>,
    elements: &Elements,
    sources: &ElementSources,
    library: LibraryNumber,
    request: &StatusRequest,
    element_type: ElementType,
    run: Run,
) -> Result<(), AllocError>
    requires limits { HasLimits elements.now }
    requires inside { IsRun elements.now element_type run }
    requires few { run.from + run.count ≤ 1024 }
    ensures items { OnOk result (bytes.new.items ≡ bytes.old.items
        ++ flat_map (host_descriptor sources.now library request.now.volume_tags request.now.device_identifiers) (run_elements elements.now element_type run)) }
    ensures length { OnOk result (vec_len bytes.new ≡ vec_len bytes.old
        + run.count * host_descriptor_length request.now.volume_tags request.now.device_identifiers (code_of element_type)) }
{
    for at in run.from..run.from + run.count {
        let element = element_numbered(elements, element_type, at);
        put_descriptor(bytes, sources, library, request, element)?;
    }
    Ok(())
}

/// Appends the header: the address of the first element reported, how many elements are, and the length of the pages.
fn put_header(
    bytes: &mut Vec<u8>,
    first_address: u16,
    number: u16,
    length: usize,
) -> Result<(), AllocError>
    requires fits { length < 2 ^ 24 }
    ensures items { OnOk result (bytes.new.items ≡ bytes.old.items ++ status_header first_address number length) }
    ensures length { OnOk result (vec_len bytes.new ≡ vec_len bytes.old + 8) }
{
    bytes.extend_from_slice(&[
        (first_address / 0x100 % 0x100) as u8,
        (first_address % 0x100) as u8,
        (number / 0x100 % 0x100) as u8,
        (number % 0x100) as u8,
        0,
        (length / 0x1_0000 % 0x100) as u8,
        (length / 0x100 % 0x100) as u8,
        (length % 0x100) as u8,
    ])
}

/// Appends the header of a page with `count` descriptors.
fn put_page_header(
    bytes: &mut Vec<u8>,
    request: &StatusRequest,
    element_type: ElementType,
    count: usize,
) -> Result<(), AllocError>
    requires few { count ≤ 1024 }
    ensures items { OnOk result (bytes.new.items ≡ bytes.old.items
        ++ page_header request.now.volume_tags (code_of element_type) (host_descriptor_length request.now.volume_tags request.now.device_identifiers (code_of element_type)) count) }
    ensures length { OnOk result (vec_len bytes.new ≡ vec_len bytes.old + 8) }
{
    let flags = if request.volume_tags { PVOLTAG } else { 0 };
    let one = host_descriptor_length(request, element_type);
    let all = count * one;
    bytes.extend_from_slice(&[
        type_code(element_type),
        flags,
        (one / 0x100 % 0x100) as u8,
        (one % 0x100) as u8,
        0,
        (all / 0x1_0000 % 0x100) as u8,
        (all / 0x100 % 0x100) as u8,
        (all % 0x100) as u8,
    ])
}

/// Appends the descriptor of an element.
fn put_descriptor(
    bytes: &mut Vec<u8>,
    sources: &ElementSources,
    library: LibraryNumber,
    request: &StatusRequest,
    element: ReportedElement,
) -> Result<(), AllocError>
    requires { IsReportable element }
    ensures items { OnOk result (bytes.new.items ≡ bytes.old.items
        ++ host_descriptor sources.now library request.now.volume_tags request.now.device_identifiers (as_reported element)) }
    ensures length { OnOk result (vec_len bytes.new ≡ vec_len bytes.old
        + host_descriptor_length request.now.volume_tags request.now.device_identifiers (code_of element.element_type)) }
{
    bytes.extend_from_slice(&element.information(element.source(sources)))?;
    if request.volume_tags {
        put_tag_information(bytes, element.tag)?;
    }
    put_identifier(bytes, library, request.device_identifiers, element)
}

/// Appends the primary volume tag information of an element.
fn put_tag_information(bytes: &mut Vec<u8>, tag: Option<VolumeTag>) -> Result<(), AllocError>
    ensures items { OnOk result (bytes.new.items ≡ bytes.old.items ++ tag_information tag) }
    ensures length { OnOk result (vec_len bytes.new ≡ vec_len bytes.old + 36) }
{
    match tag {
        None => bytes.extend_from_slice(&[0; TAG_INFORMATION_LENGTH]),
        Some(tag) => {
            bytes.extend_from_slice(&tag.0)?;
            bytes.extend_from_slice(&[0; RESERVED_LENGTH])
        }
    }
}

/// Appends the end of a descriptor: the device identifier of a drive where it is asked for, else four zeros.
fn put_identifier(
    bytes: &mut Vec<u8>,
    library: LibraryNumber,
    device_identifiers: bool,
    element: ReportedElement,
) -> Result<(), AllocError>
    requires { IsReportable element }
    ensures items { OnOk result (bytes.new.items ≡ bytes.old.items ++ identifier_of library device_identifiers (as_reported element)) }
    ensures length { OnOk result (vec_len bytes.new ≡ vec_len bytes.old + identifier_length device_identifiers (code_of element.element_type)) }
{
    match element.element_type {
        ElementType::DataTransfer if device_identifiers => {
            let identity = UnitIdentity {
                library_number: library,
                lun: element.drive_lun(),
            };
            bytes.extend_from_slice(&device_identifier(identity))
        }
        ElementType::MediumTransport
        | ElementType::DataTransfer
        | ElementType::ImportExport
        | ElementType::Storage => bytes.extend_from_slice(&[0; RESERVED_LENGTH]),
    }
}
