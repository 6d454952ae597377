ghost use Rattle.std.specs.Prelude.{◌≡◌, ◌≤◌, ◌++◌, IfOk, OnOk, IfErr, MatchResult, Ok, Err, [], ◌∷◌, length};
ghost use Rattle.mode_pages.specs.DrivePages.{drive_pages, page_code, page_length, page_values, changeable_bits};
ghost use Rattle.mode_pages.specs.Asked.{those_asked};
ghost use Rattle.mode_pages.specs.Lists.{page_of};
ghost use Rattle.mode_pages.specs.declared.drive_page.DrivePage.TheVariants.{DeviceConfiguration};
ghost use Rattle.mode_pages.specs.DriveData.{descriptors, drive_answer, drive_fault, page_shown, pages_shown, block_length_shown, medium_type, device_specific};

use crate::asked::{PagesAsked, asked, sense_fault};
use crate::drive_page::DrivePage;
use crate::layout::*;
use crate::lists::{extend_by_page, mode_data};
use crate::request::{ModeSense, PageControl};
use crate::values::{DriveState, ModeValues};
use scsi_sense::Condition;
use std::alloc::{AllocError, Global};

/// Why a MODE SENSE of a drive is refused: SAVING PARAMETERS NOT SUPPORTED, then INVALID FIELD IN CDB for a page or a subpage that the drive
/// hasn't (SPC-4, "MODE SENSE(6) command").
pub fn drive_mode_fault(sense: &ModeSense) -> Option<Condition>
    ensures { result ≡ drive_fault sense.now }
{
    let has_page = DrivePage::of(sense.page_code).is_some();
    sense_fault(
        sense.page_control,
        asked(sense.page_code, sense.subpage_code),
        has_page,
    )
}

/// The data of MODE SENSE of a drive, not cut at the allocation length: header, block descriptor, pages. Where the MODE SENSE is refused, why.
pub fn drive_mode_data(
    alloc: Global,
    sense: &ModeSense,
    state: &DriveState,
) -> Result<Result<Vec<u8>, Condition>, AllocError>
    ensures data_asked { IfOk result (λ answer. MatchResult answer (λ list. drive_answer sense.now state.now ≡ Ok list.items) (λ fault. drive_answer sense.now state.now ≡ Err fault)) }
    ensures short { IfOk result (λ answer. IfOk answer (λ list. length list.items ≤ 140)) }
{
    if let Some(fault) = drive_mode_fault(sense) {
        return Ok(Err(fault));
    }
    let medium_type = if state.has_volume {
        VOLUME_MEDIUM
    } else {
        NO_MEDIUM
    };
    let device_specific = if state.write_protected {
        BUFFERED_AND_PROTECTED
    } else {
        BUFFERED
    };
    let block_length = block_length_shown(sense.page_control, state.values);
    let descriptors = descriptors(alloc, sense.disable_block_descriptors, block_length)?;
    let asked = asked(sense.page_code, sense.subpage_code);
    let of_code = DrivePage::of(sense.page_code);
    let pages = pages_asked(alloc, asked, of_code, sense.page_control, state.values)?;
    let list = mode_data(
        alloc,
        sense.form,
        medium_type,
        device_specific,
        &descriptors,
        &pages,
    )?;
    Ok(Ok(list))
}

fn block_length_shown(control: PageControl, values: ModeValues) -> u32
    ensures { result ≡ block_length_shown control values }
{
    match control {
        PageControl::Current => values.block_length,
        PageControl::Changeable => ALL_BITS_OF_BLOCK_LENGTH,
        PageControl::Default => ModeValues::default().block_length,
        PageControl::Saved => 0,
    }
}

/// The block descriptor, unless it is disabled (SSC-4, "Mode parameters").
fn descriptors(alloc: Global, disabled: bool, block_length: u32) -> Result<Vec<u8>, AllocError>
    ensures { IfOk result (λ list. list.items ≡ descriptors disabled block_length) }
{
    if disabled {
        return Ok(Vec::new(alloc));
    }
    let [_, n2, n1, n0] = block_length.to_be_bytes();
    Vec::from_slice(alloc, &[DENSITY, 0, 0, 0, 0, n2, n1, n0])
}

/// The pages that a MODE SENSE asks for, with the page of its page code.
#[tactic(auto, unfolding(crate::specs::DriveData::pages_shown))]
fn pages_asked(
    alloc: Global,
    asked: PagesAsked,
    of_code: Option<DrivePage>,
    control: PageControl,
    values: ModeValues,
) -> Result<Vec<u8>, AllocError>
    ensures value { IfOk result (λ list. list.items ≡ pages_shown control values (those_asked asked drive_pages of_code)) }
    ensures short { IfOk result (λ list. length list.items ≤ 124) }
{
    match asked {
        PagesAsked::NoPage | PagesAsked::PageOfSubpage => Ok(Vec::new(alloc)),
        PagesAsked::AllPages => all_pages(alloc, control, values),
        PagesAsked::PageOfCode => match of_code {
            Some(page) => one_page(alloc, page, control, values),
            None => Ok(Vec::new(alloc)),
        },
    }
}

/// A page alone.
fn one_page(
    alloc: Global,
    page: DrivePage,
    control: PageControl,
    values: ModeValues,
) -> Result<Vec<u8>, AllocError>
    ensures value { IfOk result (λ list. list.items ≡ pages_shown control values (page ∷ [])) }
    ensures short { IfOk result (λ list. length list.items ≤ 124) }
{
    let mut list = Vec::new(alloc);
    extend_by_shown(&mut list, page, control, values)?;
    Ok(list)
}

/// All pages, ascending by page code.
fn all_pages(alloc: Global, control: PageControl, values: ModeValues) -> Result<Vec<u8>, AllocError>
    ensures value { IfOk result (λ list. list.items ≡ pages_shown control values drive_pages) }
    ensures short { IfOk result (λ list. length list.items ≤ 124) }
{
    let mut list = Vec::new(alloc);
    extend_by_shown(
        &mut list,
        DrivePage::ReadWriteErrorRecovery,
        control,
        values,
    )?;
    extend_by_shown(&mut list, DrivePage::DisconnectReconnect, control, values)?;
    extend_by_shown(&mut list, DrivePage::Control, control, values)?;
    extend_by_shown(&mut list, DrivePage::DataCompression, control, values)?;
    extend_by_shown(&mut list, DrivePage::DeviceConfiguration, control, values)?;
    extend_by_shown(&mut list, DrivePage::MediumPartition, control, values)?;
    extend_by_shown(
        &mut list,
        DrivePage::InformationalExceptionsControl,
        control,
        values,
    )?;
    extend_by_shown(&mut list, DrivePage::MediumConfiguration, control, values)?;
    Ok(list)
}

/// Appends a page with the values that the page control asks for.
fn extend_by_shown(
    list: &mut Vec<u8>,
    page: DrivePage,
    control: PageControl,
    values: ModeValues,
) -> Result<(), AllocError>
    ensures { OnOk result (list.new.items ≡ list.old.items ++ page_shown control values page) }
{
    match control {
        PageControl::Current => extend_by_values(list, page, values.compression),
        PageControl::Changeable => extend_by_changeable(list, page),
        PageControl::Default => extend_by_values(list, page, ModeValues::default().compression),
        PageControl::Saved => Ok(()),
    }
}

/// Appends a page with its values (SPC-4 and SSC-4, the clauses of the pages).
fn extend_by_values(
    list: &mut Vec<u8>,
    page: DrivePage,
    compression: bool,
) -> Result<(), AllocError>
    ensures { OnOk result (list.new.items ≡ list.old.items ++ page_values page compression) }
{
    match page {
        DrivePage::ReadWriteErrorRecovery => extend(list, page, &[0, RETRIES, 0, 0, 0, 0, RETRIES]),
        DrivePage::DisconnectReconnect | DrivePage::MediumConfiguration => extend(list, page, &[]),
        DrivePage::Control => extend(list, page, &[GLOBAL_LOGGING_DISABLED]),
        DrivePage::DataCompression => {
            let flags = if compression {
                COMPRESSION_ON
            } else {
                COMPRESSION_OFF
            };
            let dde = DECOMPRESSION_ENABLED;
            extend(
                list,
                page,
                &[flags, dde, 0, 0, 0, ALGORITHM, 0, 0, 0, ALGORITHM],
            )
        }
        DrivePage::DeviceConfiguration => extend_by_configuration(list, compression),
        DrivePage::MediumPartition => extend(list, page, &[0, 0, MEGABYTES, FORMAT_AND_PARTITION]),
        DrivePage::InformationalExceptionsControl => {
            extend(
                list,
                page,
                &[EXCEPTIONS_DISABLED, CONDITIONAL_RECOVERED_ERROR],
            )
        }
    }
}

/// Appends the device configuration page.
fn extend_by_configuration(list: &mut Vec<u8>, compression: bool) -> Result<(), AllocError>
    ensures { OnOk result (list.new.items ≡ list.old.items ++ page_values DeviceConfiguration compression) }
{
    let algorithm = if compression {
        SOME_ALGORITHM
    } else {
        NO_ALGORITHM
    };
    let identifiers = OBJECT_IDENTIFIERS;
    let ends = END_OF_DATA_AND_SYNCHRONIZATION;
    let fields = [
        0,
        0,
        0,
        0,
        0,
        0,
        identifiers,
        0,
        ends,
        0,
        0,
        0,
        algorithm,
        REWIND_ON_RESET,
    ];
    extend(list, DrivePage::DeviceConfiguration, &fields)
}

/// Appends a page with ones where MODE SELECT can change a bit.
fn extend_by_changeable(list: &mut Vec<u8>, page: DrivePage) -> Result<(), AllocError>
    ensures { OnOk result (list.new.items ≡ list.old.items ++ changeable_bits page) }
{
    match page {
        DrivePage::DataCompression => extend(list, page, &[COMPRESSION_ENABLED]),
        DrivePage::DeviceConfiguration => {
            extend(list, page, &[0, 0, 0, 0, 0, 0, 0, 0, 0, 0, 0, 0, ALL_BITS])
        }
        DrivePage::ReadWriteErrorRecovery
        | DrivePage::DisconnectReconnect
        | DrivePage::Control
        | DrivePage::MediumPartition
        | DrivePage::InformationalExceptionsControl
        | DrivePage::MediumConfiguration => extend(list, page, &[]),
    }
}

/// Appends a page with these fields, then zeros.
fn extend(list: &mut Vec<u8>, page: DrivePage, fields: &[u8]) -> Result<(), AllocError>
    requires { length fields.now ≤ page_length page }
    ensures { OnOk result (list.new.items ≡ list.old.items ++ page_of (page_code page) (page_length page) fields.now) }
{
    extend_by_page(list, page.code(), page.length(), fields)
}
