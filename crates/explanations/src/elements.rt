//! The data of READ ELEMENT STATUS in words (SMC-3, "READ ELEMENT STATUS command").
ghost use Rattle.std.specs.Prelude.{◌≡◌, ◌++◌, OnOk};
ghost use Rattle.explanations.specs.ElementWords.{element_text, element_type_text, elements_in, elements_text, fullness_text, page_text, pages_in, source_text, tag_text};

use crate::fields::{behind, bit_at, byte_at, part, u16_at, u24_at};
use crate::hex_text::write_hex;
use crate::layout::*;
use crate::pieces::{Piece, write_pieces};
use crate::words::{write_coded, write_cut, write_quoted, write_words};
use std::alloc::AllocError;

/// Adds what READ ELEMENT STATUS data say: the elements.
#[tactic(auto, unfolding(crate::specs::ElementWords::elements_text))]
pub fn write_elements(line: &mut Vec<u8>, bytes: &[u8]) -> Result<(), AllocError>
    ensures { OnOk result (line.new.items ≡ line.old.items ++ elements_text bytes.now) }
{
    if bytes.len() < HEADER_LENGTH {
        return write_words(line, ", cut");
    }
    let told = u24_at(bytes, BYTES_THAT_FOLLOW);
    write_elements_in(line, told, bytes)?;
    write_cut(line, bytes, HEADER_LENGTH as u64 + u64::from(told))
}

#[tactic(auto, unfolding(crate::specs::ElementWords::elements_in))]
fn write_elements_in(line: &mut Vec<u8>, told: u32, bytes: &[u8]) -> Result<(), AllocError>
    ensures { OnOk result (line.new.items ≡ line.old.items ++ elements_in told bytes.now) }
{
    if told == 0 {
        return write_words(line, ", no elements");
    }
    write_pages(line, part(bytes, HEADER_LENGTH, told as usize))
}

/// Adds the elements of each page.
fn write_pages(line: &mut Vec<u8>, list: &[u8]) -> Result<(), AllocError>
    ensures { OnOk result (line.new.items ≡ line.old.items ++ pages_in list.now) }
{
    let mut rest = list;
    'pages: for place in 0..list.len() / HEADER_LENGTH {
        write_page(line, rest)?;
        let length = u24_at(rest, BYTES_THAT_FOLLOW);
        rest = behind(rest, HEADER_LENGTH + length as usize);
    }
    Ok(())
}

/// Adds the elements of the page that comes first, each whose descriptor is whole.
#[tactic(auto, unfolding(crate::specs::ElementWords::page_text))]
fn write_page(line: &mut Vec<u8>, list: &[u8]) -> Result<(), AllocError>
    ensures { OnOk result (line.new.items ≡ line.old.items ++ page_text list.now) }
{
    if list.len() < HEADER_LENGTH {
        return Ok(());
    }
    let size = u16_at(list, DESCRIPTOR_LENGTH) as usize;
    if size == 0 {
        return Ok(());
    }
    let element = Piece::Element {
        element_type: byte_at(list, ELEMENT_TYPE),
        tags: bit_at(list, PAGE_FLAGS, PVOLTAG_BIT),
    };
    let length = u24_at(list, BYTES_THAT_FOLLOW) as usize;
    write_pieces(line, element, size, part(list, HEADER_LENGTH, length))
}

/// Adds an element: its address, its type, and whether it is full.
#[tactic(auto, unfolding(crate::specs::ElementWords::element_text))]
pub fn write_element(
    line: &mut Vec<u8>,
    element_type: u8,
    tags: bool,
    descriptor: &[u8],
) -> Result<(), AllocError>
    ensures { OnOk result (line.new.items ≡ line.old.items ++ element_text element_type tags descriptor.now) }
{
    write_words(line, ", ")?;
    write_hex(line, part(descriptor, 0, ELEMENT_ADDRESS_LENGTH))?;
    write_words(line, "h ")?;
    write_element_type(line, element_type)?;
    write_fullness(line, tags, descriptor)
}

/// Adds whether an element is full, with the volume tag where there is one, and where the volume came from, where that is known.
#[tactic(auto, unfolding(crate::specs::ElementWords::fullness_text))]
fn write_fullness(line: &mut Vec<u8>, tags: bool, descriptor: &[u8]) -> Result<(), AllocError>
    ensures { OnOk result (line.new.items ≡ line.old.items ++ fullness_text tags descriptor.now) }
{
    if !bit_at(descriptor, ELEMENT_FLAGS, FULL_BIT) {
        return write_words(line, " empty");
    }
    write_words(line, " full")?;
    write_tag(line, tags, descriptor)?;
    write_source(line, descriptor)
}

#[tactic(auto, unfolding(crate::specs::ElementWords::source_text))]
fn write_source(line: &mut Vec<u8>, descriptor: &[u8]) -> Result<(), AllocError>
    ensures { OnOk result (line.new.items ≡ line.old.items ++ source_text descriptor.now) }
{
    if !bit_at(descriptor, SOURCE_FLAGS, SVALID_BIT) {
        return Ok(());
    }
    write_words(line, " from ")?;
    write_hex(line, part(descriptor, SOURCE, ELEMENT_ADDRESS_LENGTH))?;
    write_words(line, "h")
}

#[tactic(auto, unfolding(crate::specs::ElementWords::element_type_text))]
fn write_element_type(line: &mut Vec<u8>, element_type: u8) -> Result<(), AllocError>
    ensures { OnOk result (line.new.items ≡ line.old.items ++ element_type_text element_type) }
{
    match element_type {
        MEDIUM_TRANSPORT => write_words(line, "medium transport"),
        STORAGE => write_words(line, "storage"),
        IMPORT_EXPORT => write_words(line, "import/export"),
        DATA_TRANSFER => write_words(line, "data transfer"),
        _ => write_coded(line, "element type ", element_type),
    }
}

#[tactic(auto, unfolding(crate::specs::ElementWords::tag_text))]
fn write_tag(line: &mut Vec<u8>, tags: bool, descriptor: &[u8]) -> Result<(), AllocError>
    ensures { OnOk result (line.new.items ≡ line.old.items ++ tag_text tags descriptor.now) }
{
    if !tags {
        return Ok(());
    }
    write_words(line, " ")?;
    write_quoted(line, part(descriptor, VOLUME_TAG, VOLUME_TAG_LENGTH))
}
