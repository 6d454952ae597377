//! The page at the head of a parameter list's bytes (SPC-4, "Mode page and subpage formats").
ghost use Rattle.std.specs.Prelude.{◌≡◌, ◌≤◌, ◌<◌, ◌+◌, length, Some, Ok, Err, IfOk, if◌then◌else◌};
ghost use Rattle.scsi_sense.specs.declared.condition.Condition.TheVariants.{InvalidFieldInParameterList};
ghost use Rattle.scsi_cdb.specs.Bits.{bit, byte, two_bytes, three_bytes};
ghost use Rattle.mode_pages.specs.Select.{asks_too_much, has_subpage, head_page, page_header_length, page_size, page_taken, with_page};

use crate::drive_page::DrivePage;
use crate::layout::*;
use crate::values::ModeValues;
use byteorder::{BigEndian, ByteOrder};
use scsi_sense::Condition;

/// A byte, or 0 past the end.
pub fn byte_at(bytes: &[u8], place: usize) -> u8
    ensures { result ≡ byte bytes.now place }
{
    match bytes.get(place) {
        Some(byte) => *byte,
        None => 0,
    }
}

pub fn bit_at(bytes: &[u8], place: usize, number: u8) -> bool
    requires { number < 8 }
    ensures { result ≡ bit bytes.now place number }
{
    byte_at(bytes, place) >> number & 1 == 1
}

pub fn u16_at(bytes: &[u8], place: usize) -> u16
    requires { place + 2 ≤ length bytes.now }
    ensures { result ≡ two_bytes bytes.now place }
{
    BigEndian::read_u16(&bytes[place..])
}

pub fn u24_at(bytes: &[u8], place: usize) -> u32
    requires { place + 3 ≤ length bytes.now }
    ensures { result ≡ three_bytes bytes.now place }
{
    BigEndian::read_u24(&bytes[place..])
}

/// SPF.
fn has_subpage(bytes: &[u8]) -> bool
    ensures { result ≡ has_subpage bytes.now }
{
    bit_at(bytes, PAGE_CODE, SUBPAGE_FORMAT_BIT)
}

/// The length of the page with its header, where the header is whole.
pub fn page_size(bytes: &[u8]) -> usize
    requires { page_header_length bytes.now ≤ length bytes.now }
    ensures { result ≡ page_size bytes.now }
{
    if has_subpage(bytes) {
        SUBPAGE_HEADER + usize::from(u16_at(bytes, SUBPAGE_LENGTH))
    } else {
        PAGE_HEADER + usize::from(byte_at(bytes, PAGE_LENGTH))
    }
}

/// The page, or why it is refused.
pub fn head_page(bytes: &[u8]) -> Result<DrivePage, Condition>
    ensures value { result ≡ head_page bytes.now }
    ensures whole { IfOk result (λ _. page_header_length bytes.now ≤ length bytes.now) }
    ensures within { IfOk result (λ _. page_size bytes.now ≤ length bytes.now) }
{
    let header = if has_subpage(bytes) {
        SUBPAGE_HEADER
    } else {
        PAGE_HEADER
    };
    if bytes.len() < header || bytes.len() < page_size(bytes) {
        return Err(Condition::ParameterListLengthError);
    }
    if has_subpage(bytes) {
        return Err(Condition::InvalidFieldInParameterList);
    }
    match DrivePage::of(byte_at(bytes, PAGE_CODE) & PAGE_CODE_BITS) {
        Some(page) if is_taken(page, bytes) => Ok(page),
        _ => Err(Condition::InvalidFieldInParameterList),
    }
}

/// Whether a page has the length that MODE SENSE shows, and asks for nothing that the drive can't do.
fn is_taken(page: DrivePage, bytes: &[u8]) -> bool
    ensures { page_taken (Some page) bytes.now ≡ (if result then Ok page else Err InvalidFieldInParameterList) }
{
    byte_at(bytes, PAGE_LENGTH) == page.length() && !asks_too_much(page, bytes)
}

fn asks_too_much(page: DrivePage, bytes: &[u8]) -> bool
    ensures { result ≡ asks_too_much page bytes.now }
{
    match page {
        DrivePage::DeviceConfiguration => bit_at(bytes, ACTIVE_FORMAT, CHANGE_ACTIVE_FORMAT_BIT),
        DrivePage::MediumPartition => byte_at(bytes, ADDITIONAL_PARTITIONS) != 0,
        DrivePage::ReadWriteErrorRecovery
        | DrivePage::DisconnectReconnect
        | DrivePage::Control
        | DrivePage::DataCompression
        | DrivePage::InformationalExceptionsControl
        | DrivePage::MediumConfiguration => false,
    }
}

/// What a page sets.
pub fn with_page(page: DrivePage, bytes: &[u8], before: ModeValues) -> ModeValues
    ensures { result ≡ with_page page bytes.now before }
{
    match page {
        DrivePage::DataCompression => ModeValues {
            compression: bit_at(bytes, COMPRESSION_FLAGS, COMPRESSION_ENABLED_BIT),
            ..before
        },
        DrivePage::DeviceConfiguration => ModeValues {
            compression: byte_at(bytes, SELECTED_ALGORITHM) != NO_ALGORITHM,
            ..before
        },
        DrivePage::ReadWriteErrorRecovery
        | DrivePage::DisconnectReconnect
        | DrivePage::Control
        | DrivePage::MediumPartition
        | DrivePage::InformationalExceptionsControl
        | DrivePage::MediumConfiguration => before,
    }
}
