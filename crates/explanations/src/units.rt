//! The data of INQUIRY and REPORT LUNS in words (SPC-4, "Standard INQUIRY data", "REPORT LUNS command").
ghost use Rattle.std.specs.Prelude.{◌≡◌, ◌++◌, ◌+◌, ◌<◌, ◌^◌, OnOk};
ghost use Rattle.explanations.specs.Units.{device_text, field_text, inquiry_cut, inquiry_text, lun_text, luns_in, luns_text, page_code_text, page_length_text, page_text, peripheral_text, product_text, qualifier_text};

use crate::fields::{byte_at, part, u16_at, u32_at};
use crate::hex_text::write_hex;
use crate::layout::*;
use crate::pieces::{Piece, write_pieces};
use crate::words::{
    write_coded, write_cut, write_decimal, write_number, write_quoted, write_words,
};
use std::alloc::AllocError;

/// Adds what standard INQUIRY data say: the device, and the vendor, the product and the revision where they are
/// whole.
pub fn write_inquiry(line: &mut Vec<u8>, bytes: &[u8]) -> Result<(), AllocError>
    ensures { OnOk result (line.new.items ≡ line.old.items ++ inquiry_text bytes.now) }
{
    write_peripheral(line, bytes)?;
    write_product(line, bytes)?;
    write_inquiry_cut(line, bytes)
}

fn write_product(line: &mut Vec<u8>, bytes: &[u8]) -> Result<(), AllocError>
    ensures { OnOk result (line.new.items ≡ line.old.items ++ product_text bytes.now) }
{
    write_field(line, ", vendor ", VENDOR, VENDOR_LENGTH, bytes)?;
    write_field(line, ", product ", PRODUCT, PRODUCT_LENGTH, bytes)?;
    write_field(line, ", revision ", REVISION, REVISION_LENGTH, bytes)?;
    Ok(())
}

#[tactic(auto, unfolding(crate::specs::Units::inquiry_cut))]
fn write_inquiry_cut(line: &mut Vec<u8>, bytes: &[u8]) -> Result<(), AllocError>
    ensures { OnOk result (line.new.items ≡ line.old.items ++ inquiry_cut bytes.now) }
{
    if bytes.len() < FOLLOWS_ADDITIONAL_LENGTH {
        return write_words(line, ", cut");
    }
    let follow = u64::from(bytes[INQUIRY_ADDITIONAL_LENGTH]);
    write_cut(line, bytes, FOLLOWS_ADDITIONAL_LENGTH as u64 + follow)
}

/// Adds the device type, and whether there is such a device.
#[tactic(auto, unfolding(crate::specs::Units::peripheral_text))]
fn write_peripheral(line: &mut Vec<u8>, bytes: &[u8]) -> Result<(), AllocError>
    ensures { OnOk result (line.new.items ≡ line.old.items ++ peripheral_text bytes.now) }
{
    if bytes.is_empty() {
        return Ok(());
    }
    let peripheral = bytes[PERIPHERAL];
    write_words(line, ", ")?;
    write_device(line, peripheral & DEVICE_TYPE_BITS)?;
    write_qualifier(line, peripheral >> PERIPHERAL_QUALIFIER_PLACE)
}

#[tactic(auto, unfolding(crate::specs::Units::device_text))]
fn write_device(line: &mut Vec<u8>, device_type: u8) -> Result<(), AllocError>
    ensures { OnOk result (line.new.items ≡ line.old.items ++ device_text device_type) }
{
    match device_type {
        SEQUENTIAL_ACCESS_DEVICE => write_words(line, "tape drive"),
        MEDIUM_CHANGER => write_words(line, "medium changer"),
        NO_DEVICE_TYPE => write_words(line, "no device"),
        _ => write_coded(line, "device type ", device_type),
    }
}

#[tactic(auto, unfolding(crate::specs::Units::qualifier_text))]
fn write_qualifier(line: &mut Vec<u8>, qualifier: u8) -> Result<(), AllocError>
    ensures { OnOk result (line.new.items ≡ line.old.items ++ qualifier_text qualifier) }
{
    match qualifier {
        CONNECTED => write_words(line, ", connected"),
        NOT_CONNECTED => write_words(line, ", not connected"),
        NOT_SUPPORTED => write_words(line, ", not supported"),
        _ => write_coded(line, ", peripheral qualifier ", qualifier),
    }
}

/// Adds a field of text with its name, where it is whole.
#[tactic(auto, unfolding(crate::specs::Units::field_text))]
fn write_field(
    line: &mut Vec<u8>,
    name: &str,
    place: usize,
    size: usize,
    bytes: &[u8],
) -> Result<(), AllocError>
    requires place { place < 2 ^ 16 }
    requires size { size < 2 ^ 16 }
    ensures { OnOk result (line.new.items ≡ line.old.items ++ field_text name.now place size bytes.now) }
{
    if bytes.len() < place + size {
        return Ok(());
    }
    write_words(line, name)?;
    write_quoted(line, part(bytes, place, size))
}

/// Adds what a page of vital product data is: its code and its length.
pub fn write_page(line: &mut Vec<u8>, bytes: &[u8]) -> Result<(), AllocError>
    ensures { OnOk result (line.new.items ≡ line.old.items ++ page_text bytes.now) }
{
    write_page_code(line, bytes)?;
    write_page_length(line, bytes)
}

#[tactic(auto, unfolding(crate::specs::Units::page_code_text))]
fn write_page_code(line: &mut Vec<u8>, bytes: &[u8]) -> Result<(), AllocError>
    ensures { OnOk result (line.new.items ≡ line.old.items ++ page_code_text bytes.now) }
{
    if PAGE_CODE < bytes.len() {
        write_coded(line, ", page ", bytes[PAGE_CODE])?;
    }
    Ok(())
}

/// Adds the length of a page with a header of four bytes, of vital product data or a log page.
#[tactic(auto, unfolding(crate::specs::Units::page_length_text))]
pub fn write_page_length(line: &mut Vec<u8>, bytes: &[u8]) -> Result<(), AllocError>
    ensures { OnOk result (line.new.items ≡ line.old.items ++ page_length_text bytes.now) }
{
    if bytes.len() < PAGE_HEADER_LENGTH {
        return write_words(line, ", cut");
    }
    let length = u64::from(u16_at(bytes, PAGE_LENGTH));
    write_number(line, ", length ", length)?;
    write_cut(line, bytes, PAGE_HEADER_LENGTH as u64 + length)
}

/// Adds what REPORT LUNS data say: the LUNs.
#[tactic(auto, unfolding(crate::specs::Units::luns_text))]
pub fn write_luns(line: &mut Vec<u8>, bytes: &[u8]) -> Result<(), AllocError>
    ensures { OnOk result (line.new.items ≡ line.old.items ++ luns_text bytes.now) }
{
    if bytes.len() < HEADER_LENGTH {
        return write_words(line, ", cut");
    }
    let told = u32_at(bytes, LUN_LIST_LENGTH);
    write_luns_in(line, told, bytes)?;
    write_cut(line, bytes, HEADER_LENGTH as u64 + u64::from(told))
}

fn write_luns_in(line: &mut Vec<u8>, told: u32, bytes: &[u8]) -> Result<(), AllocError>
    ensures { OnOk result (line.new.items ≡ line.old.items ++ luns_in told bytes.now) }
{
    if told == 0 {
        return write_words(line, ", no LUNs");
    }
    write_words(line, ", LUNs")?;
    let list = part(bytes, HEADER_LENGTH, told as usize);
    write_pieces(line, Piece::LogicalUnit, LUN_LENGTH, list)
}

/// Adds a LUN, as a number where it has one level and no bus (SAM-5, "Single level logical unit number
/// structure").
#[tactic(auto, unfolding(crate::specs::Units::lun_text))]
pub fn write_lun(line: &mut Vec<u8>, lun: &[u8]) -> Result<(), AllocError>
    ensures { OnOk result (line.new.items ≡ line.old.items ++ lun_text lun.now) }
{
    write_words(line, " ")?;
    if byte_at(lun, 0) == 0 && u16_at(lun, 2) == 0 && u32_at(lun, 4) == 0 {
        write_decimal(line, u64::from(byte_at(lun, 1)))
    } else {
        write_hex(line, lun)
    }
}
