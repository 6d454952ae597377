//! The elements of a changer in rows, and the tags in them.

ghost use Rattle.std.specs.Prelude.{◌≡◌, ◌-◌, ◌++◌, OnOk, length, replicate, string_bytes};
ghost use Rattle.std.specs.List.{flat_map};
ghost use Rattle.element_map.specs.Runs.{first_of};
ghost use Rattle.library_status.specs.Picture.{cell, cell_of, element_picture, first_row, glyph, glyphs, in_columns, row, row_at, volume_named};

use crate::json::element_type_text;
use crate::summary::ElementSummary;
use crate::word::Word;
use crate::words::{without_spaces, write_word, write_words};
use std::alloc::AllocError;
use std::fmt::Write;
use tape_medium::VolumeTag;

/// How many elements are in a row.
const PER_ROW: u16 = 8;

/// How many columns a tag has in a row.
const COLUMNS: usize = 8;

/// Adds elements in rows, those of a type under its name.
pub(crate) fn write_elements(
    text: &mut String,
    elements: &[ElementSummary],
) -> Result<(), AllocError>
    ensures { OnOk result (string_bytes text.new ≡ string_bytes text.old ++ flat_map element_picture elements.now) }
{
    for element in elements {
        write_element(text, element)?;
    }
    Ok(())
}

#[tactic(auto, unfolding(crate::specs::Picture::element_picture))]
fn write_element(text: &mut String, element: &ElementSummary) -> Result<(), AllocError>
    ensures { OnOk result (string_bytes text.new ≡ string_bytes text.old ++ element_picture element.now) }
{
    let number = element
        .address
        .saturating_sub(element.element_type.first_address());
    write_row_at(text, number, element)?;
    write_cell(text, &element.tag)
}

/// Begins a row, where an element of a number within its type does.
fn write_row_at(text: &mut String, number: u16, element: &ElementSummary) -> Result<(), AllocError>
    ensures { OnOk result (string_bytes text.new ≡ string_bytes text.old ++ row_at number element.now) }
{
    if number == 0 {
        write_first_row(text, element)
    } else if number % PER_ROW == 0 {
        write_row(text, element.address)
    } else {
        Ok(())
    }
}

/// Begins the first row of a type, under a line with its name.
#[tactic(auto, unfolding(crate::specs::Picture::first_row))]
fn write_first_row(text: &mut String, element: &ElementSummary) -> Result<(), AllocError>
    ensures { OnOk result (string_bytes text.new ≡ string_bytes text.old ++ first_row element.now) }
{
    write_words(
        text,
        Word::TypeOfRows,
        element_type_text(element.element_type),
    )?;
    write_row(text, element.address)
}

/// Begins a row with an address.
#[tactic(auto, unfolding(crate::specs::Picture::row))]
fn write_row(text: &mut String, address: u16) -> Result<(), AllocError>
    ensures { OnOk result (string_bytes text.new ≡ string_bytes text.old ++ row address) }
{
    write_word(text, Word::EndOfLine)?;
    write!(text, "{address:6}")
}

fn write_cell(text: &mut String, tag: &Option<VolumeTag>) -> Result<(), AllocError>
    ensures { OnOk result (string_bytes text.new ≡ string_bytes text.old ++ cell tag.now) }
{
    match tag {
        None => write_word(text, Word::EmptyCell),
        Some(tag) => write_tag(text, tag),
    }
}

#[tactic(auto, unfolding(crate::specs::Picture::cell_of))]
fn write_tag(text: &mut String, tag: &VolumeTag) -> Result<(), AllocError>
    ensures { OnOk result (string_bytes text.new ≡ string_bytes text.old ++ cell_of tag.now) }
{
    write_word(text, Word::Space)?;
    write_in_columns(text, without_spaces(&tag.0))
}

/// Adds a tag in its columns; of one that is too long the first of it and a tilde.
#[tactic(auto, unfolding(crate::specs::Picture::in_columns))]
fn write_in_columns(text: &mut String, tag: &[u8]) -> Result<(), AllocError>
    ensures { OnOk result (string_bytes text.new ≡ string_bytes text.old ++ in_columns tag.now) }
{
    if tag.len() > COLUMNS {
        write_glyphs(text, &tag[..COLUMNS - 1])?;
        text.push('~')
    } else {
        write_spaces(text, COLUMNS - tag.len())?;
        write_glyphs(text, tag)
    }
}

fn write_spaces(text: &mut String, count: usize) -> Result<(), AllocError>
    ensures { OnOk result (string_bytes text.new ≡ string_bytes text.old ++ replicate count 32) }
{
    'spaces: for _number in 0..count {
        text.push(' ')?;
    }
    Ok(())
}

/// Adds the whole of the tag of the volume in a drive.
#[tactic(auto, unfolding(crate::specs::Picture::volume_named))]
pub(crate) fn write_named(text: &mut String, tag: &VolumeTag) -> Result<(), AllocError>
    ensures { OnOk result (string_bytes text.new ≡ string_bytes text.old ++ volume_named tag.now) }
{
    write_word(text, Word::InDrive)?;
    write_glyphs(text, without_spaces(&tag.0))
}

pub(crate) fn write_glyphs(text: &mut String, bytes: &[u8]) -> Result<(), AllocError>
    ensures { OnOk result (string_bytes text.new ≡ string_bytes text.old ++ glyphs bytes.now) }
{
    for byte in bytes {
        write_glyph(text, *byte)?;
    }
    Ok(())
}

/// Adds a byte as a terminal shows it: it may be told nothing else by a tag.
fn write_glyph(text: &mut String, byte: u8) -> Result<(), AllocError>
    ensures { OnOk result (string_bytes text.new ≡ string_bytes text.old ++ glyph byte) }
{
    if byte >= 32 && byte < 127 {
        text.push(char::from(byte))
    } else {
        text.push('?')
    }
}
