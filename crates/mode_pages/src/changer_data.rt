ghost use Rattle.std.specs.Prelude.{◌≡◌, ◌≤◌, ◌++◌, IfOk, OnOk, MatchResult, Ok, Err, [], ◌∷◌, length};
ghost use Rattle.mode_pages.specs.ChangerPages.{changer_pages, page_code, page_length, page_values, changeable_bits, address_assignment, capabilities};
ghost use Rattle.mode_pages.specs.ChangerData.{changer_answer, changer_fault, page_shown, pages_shown};
ghost use Rattle.mode_pages.specs.Asked.{those_asked};
ghost use Rattle.mode_pages.specs.Lists.{page_of};

use crate::asked::{PagesAsked, asked, sense_fault};
use crate::changer_page::ChangerPage;
use crate::elements::ElementAddresses;
use crate::layout::*;
use crate::lists::{extend_by_page, mode_data};
use crate::request::{ModeSense, PageControl};
use scsi_sense::Condition;
use std::alloc::{AllocError, Global};

/// Why a MODE SENSE of a changer is refused: SAVING PARAMETERS NOT SUPPORTED, then INVALID FIELD IN CDB for a page or a subpage that the changer
/// hasn't (SPC-4, "MODE SENSE(6) command").
pub fn changer_mode_fault(sense: &ModeSense) -> Option<Condition>
    ensures { result ≡ changer_fault sense.now }
{
    let has_page = ChangerPage::of(sense.page_code).is_some();
    sense_fault(
        sense.page_control,
        asked(sense.page_code, sense.subpage_code),
        has_page,
    )
}

/// The data of MODE SENSE of a changer, not cut at the allocation length: header and pages. Where the MODE SENSE is refused, why.
pub fn changer_mode_data(
    alloc: Global,
    sense: &ModeSense,
    elements: &ElementAddresses,
) -> Result<Result<Vec<u8>, Condition>, AllocError>
    ensures data_asked { IfOk result (λ answer. MatchResult answer (λ list. changer_answer sense.now elements.now ≡ Ok list.items) (λ fault. changer_answer sense.now elements.now ≡ Err fault)) }
    ensures short { IfOk result (λ answer. IfOk answer (λ list. length list.items ≤ 76)) }
{
    if let Some(fault) = changer_mode_fault(sense) {
        return Ok(Err(fault));
    }
    let asked = asked(sense.page_code, sense.subpage_code);
    let of_code = ChangerPage::of(sense.page_code);
    let pages = pages_asked(alloc, asked, of_code, sense.page_control, elements)?;
    let list = mode_data(alloc, sense.form, NO_MEDIUM, NOT_SPECIFIC, &[], &pages)?;
    Ok(Ok(list))
}

/// The pages that a MODE SENSE asks for, with the page of its page code.
#[tactic(auto, unfolding(crate::specs::ChangerData::pages_shown))]
fn pages_asked(
    alloc: Global,
    asked: PagesAsked,
    of_code: Option<ChangerPage>,
    control: PageControl,
    elements: &ElementAddresses,
) -> Result<Vec<u8>, AllocError>
    ensures value { IfOk result (λ list. list.items ≡ pages_shown control elements.now (those_asked asked changer_pages of_code)) }
    ensures short { IfOk result (λ list. length list.items ≤ 68) }
{
    match asked {
        PagesAsked::NoPage | PagesAsked::PageOfSubpage => Ok(Vec::new(alloc)),
        PagesAsked::AllPages => all_pages(alloc, control, elements),
        PagesAsked::PageOfCode => match of_code {
            Some(page) => one_page(alloc, page, control, elements),
            None => Ok(Vec::new(alloc)),
        },
    }
}

/// A page alone.
fn one_page(
    alloc: Global,
    page: ChangerPage,
    control: PageControl,
    elements: &ElementAddresses,
) -> Result<Vec<u8>, AllocError>
    ensures value { IfOk result (λ list. list.items ≡ pages_shown control elements.now (page ∷ [])) }
    ensures short { IfOk result (λ list. length list.items ≤ 68) }
{
    let mut list = Vec::new(alloc);
    extend_by_shown(&mut list, page, control, elements)?;
    Ok(list)
}

/// All pages, ascending by page code.
fn all_pages(
    alloc: Global,
    control: PageControl,
    elements: &ElementAddresses,
) -> Result<Vec<u8>, AllocError>
    ensures value { IfOk result (λ list. list.items ≡ pages_shown control elements.now changer_pages) }
    ensures short { IfOk result (λ list. length list.items ≤ 68) }
{
    let mut list = Vec::new(alloc);
    extend_by_shown(&mut list, ChangerPage::Control, control, elements)?;
    extend_by_shown(
        &mut list,
        ChangerPage::InformationalExceptionsControl,
        control,
        elements,
    )?;
    extend_by_shown(
        &mut list,
        ChangerPage::ElementAddressAssignment,
        control,
        elements,
    )?;
    extend_by_shown(
        &mut list,
        ChangerPage::TransportGeometryParameters,
        control,
        elements,
    )?;
    extend_by_shown(
        &mut list,
        ChangerPage::DeviceCapabilities,
        control,
        elements,
    )?;
    Ok(list)
}

/// Appends a page with the values that the page control asks for.
fn extend_by_shown(
    list: &mut Vec<u8>,
    page: ChangerPage,
    control: PageControl,
    elements: &ElementAddresses,
) -> Result<(), AllocError>
    ensures { OnOk result (list.new.items ≡ list.old.items ++ page_shown control elements.now page) }
{
    match control {
        PageControl::Current | PageControl::Default => extend_by_values(list, page, elements),
        PageControl::Changeable => extend(list, page, &[]),
        PageControl::Saved => Ok(()),
    }
}

/// Appends a page with its values (SPC-4 and SMC-3, the clauses of the pages).
fn extend_by_values(
    list: &mut Vec<u8>,
    page: ChangerPage,
    elements: &ElementAddresses,
) -> Result<(), AllocError>
    ensures { OnOk result (list.new.items ≡ list.old.items ++ page_values page elements.now) }
{
    match page {
        ChangerPage::Control => extend(list, page, &[GLOBAL_LOGGING_DISABLED]),
        ChangerPage::InformationalExceptionsControl => {
            extend(
                list,
                page,
                &[EXCEPTIONS_DISABLED, CONDITIONAL_RECOVERED_ERROR],
            )
        }
        ChangerPage::ElementAddressAssignment => extend_by_addresses(list, elements),
        ChangerPage::TransportGeometryParameters => extend(list, page, &[]),
        ChangerPage::DeviceCapabilities => {
            extend_by_capabilities(list, elements.has_import_export())
        }
    }
}

/// Appends the element address assignment page.
fn extend_by_addresses(list: &mut Vec<u8>, elements: &ElementAddresses) -> Result<(), AllocError>
    ensures { OnOk result (list.new.items ≡ list.old.items ++ address_assignment elements.now) }
{
    let [t3, t2, t1, t0] = elements.medium_transport.bytes();
    let [s3, s2, s1, s0] = elements.storage.bytes();
    let [p3, p2, p1, p0] = elements.import_export.bytes();
    let [d3, d2, d1, d0] = elements.data_transfer.bytes();
    let fields = [
        t3, t2, t1, t0, s3, s2, s1, s0, p3, p2, p1, p0, d3, d2, d1, d0,
    ];
    extend(list, ChangerPage::ElementAddressAssignment, &fields)
}

/// Appends the device capabilities page.
fn extend_by_capabilities(list: &mut Vec<u8>, import_export: bool) -> Result<(), AllocError>
    ensures { OnOk result (list.new.items ≡ list.old.items ++ capabilities import_export) }
{
    let reader = READER_AND_CAPABILITIES;
    let fields = if import_export {
        let (all, exchanged) = (DRIVES_AND_PORTS_AND_STORAGE, PORTS_AND_STORAGE);
        [
            all, reader, 0, all, all, all, 0, 0, 0, 0, 0, all, all, exchanged,
        ]
    } else {
        let (all, exchanged) = (DRIVES_AND_STORAGE, STORAGE);
        [
            all,
            reader,
            0,
            all,
            NO_ELEMENTS,
            all,
            0,
            0,
            0,
            0,
            0,
            all,
            NO_ELEMENTS,
            exchanged,
        ]
    };
    extend(list, ChangerPage::DeviceCapabilities, &fields)
}

/// Appends a page with these fields, then zeros.
fn extend(list: &mut Vec<u8>, page: ChangerPage, fields: &[u8]) -> Result<(), AllocError>
    requires { length fields.now ≤ page_length page }
    ensures { OnOk result (list.new.items ≡ list.old.items ++ page_of (page_code page) (page_length page) fields.now) }
{
    extend_by_page(list, page.code(), page.length(), fields)
}
