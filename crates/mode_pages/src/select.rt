ghost use Rattle.std.specs.Prelude.{◌≡◌, ◌≤◌, ◌+◌, length, true};
ghost use Rattle.mode_pages.specs.Lists.{header_length};
ghost use Rattle.mode_pages.specs.Select.{descriptor_length, has_long_lba, is_descriptor_length, selected, with_descriptor, with_pages};

use crate::head_page::{bit_at, byte_at, head_page, page_size, u16_at, u24_at, with_page};
use crate::layout::*;
use crate::request::HeaderForm;
use crate::values::ModeValues;
use scsi_sense::Condition;

/// The mode parameters of a drive after MODE SELECT, or why it is refused; then they stay as before. `list_length` is the parameter list
/// length of the CDB, `list` the data sent with it, `most_block` the longest block, in bytes (SPC-4, "MODE SELECT(6) command").
pub fn selected(
    before: ModeValues,
    most_block: u32,
    form: HeaderForm,
    save_pages: bool,
    list_length: u16,
    list: &[u8],
) -> Result<ModeValues, Condition>
    ensures { result ≡ selected before most_block form save_pages list_length list.now }
{
    if save_pages {
        return Err(Condition::InvalidFieldInCdb);
    }
    if list_length == 0 {
        return Ok(before);
    }
    if list.len() != usize::from(list_length) || list.len() < form.header_length() {
        return Err(Condition::ParameterListLengthError);
    }
    let descriptor_length = descriptor_length(form, list);
    if has_long_lba(form, list) || !is_descriptor_length(descriptor_length) {
        return Err(Condition::InvalidFieldInParameterList);
    }
    let pages = form.header_length() + descriptor_length;
    if list.len() < pages {
        return Err(Condition::ParameterListLengthError);
    }
    let values = with_descriptor(before, most_block, form, list)?;
    with_pages(values, &list[pages..])
}

/// BLOCK DESCRIPTOR LENGTH.
fn descriptor_length(form: HeaderForm, list: &[u8]) -> usize
    requires { header_length form ≤ length list.now }
    ensures { result ≡ descriptor_length form list.now }
{
    match form {
        HeaderForm::Six => usize::from(byte_at(list, DESCRIPTOR_LENGTH_OF_SIX)),
        HeaderForm::Ten => usize::from(u16_at(list, DESCRIPTOR_LENGTH_OF_TEN)),
    }
}

/// No block descriptor, or one of eight bytes.
fn is_descriptor_length(length: usize) -> bool
    ensures { result ≡ is_descriptor_length length }
{
    length == 0 || length == BLOCK_DESCRIPTOR
}

/// LONGLBA.
fn has_long_lba(form: HeaderForm, list: &[u8]) -> bool
    ensures { result ≡ has_long_lba form list.now }
{
    match form {
        HeaderForm::Six => false,
        HeaderForm::Ten => bit_at(list, LONG_LBA, LONG_LBA_BIT),
    }
}

/// The values with the block length of the block descriptor, where there is one (SSC-4, "Mode parameters").
fn with_descriptor(
    before: ModeValues,
    most_block: u32,
    form: HeaderForm,
    list: &[u8],
) -> Result<ModeValues, Condition>
    requires header { header_length form ≤ length list.now }
    requires known { is_descriptor_length (descriptor_length form list.now) ≡ true }
    requires whole { header_length form + descriptor_length form list.now ≤ length list.now }
    ensures { result ≡ with_descriptor most_block form list.now before }
{
    if descriptor_length(form, list) == 0 {
        return Ok(before);
    }
    let block_length = u24_at(list, form.header_length() + BLOCK_LENGTH);
    if block_length > most_block {
        return Err(Condition::InvalidFieldInParameterList);
    }
    Ok(ModeValues {
        block_length,
        ..before
    })
}

/// The values with what the pages set, one after another (SPC-4, "Mode page and subpage formats").
fn with_pages(before: ModeValues, bytes: &[u8]) -> Result<ModeValues, Condition>
    ensures { result ≡ with_pages bytes.now before }
{
    let mut values = before;
    let mut rest = bytes;
    while !rest.is_empty() {
        let page = head_page(rest)?;
        values = with_page(page, rest, values);
        rest = &rest[page_size(rest)..];
    }
    Ok(values)
}
