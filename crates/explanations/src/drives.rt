//! The data of READ POSITION and of both lengths of MODE SENSE in words (SSC-4, "READ POSITION command"; SPC-4, "Mode parameter list
//! formats").
ghost use Rattle.std.specs.Prelude.{◌≡◌, ◌++◌, ◌<◌, ◌^◌, OnOk};
ghost use Rattle.explanations.specs.Drives.{beginning_text, block_descriptor_text, long_mode_text, medium_text, mode_text, object_text, position_text, protection_text};

use crate::fields::{bit_at, byte_at, u16_at, u24_at, u32_at};
use crate::layout::*;
use crate::words::{write_coded, write_cut, write_number, write_words};
use std::alloc::AllocError;

/// Adds what READ POSITION data say: BOP, and the number of the first logical object.
pub fn write_position(line: &mut Vec<u8>, bytes: &[u8]) -> Result<(), AllocError>
    ensures { OnOk result (line.new.items ≡ line.old.items ++ position_text bytes.now) }
{
    write_beginning(line, bytes)?;
    write_object(line, bytes)?;
    write_cut(line, bytes, POSITION_LENGTH)
}

#[tactic(auto, unfolding(crate::specs::Drives::beginning_text))]
fn write_beginning(line: &mut Vec<u8>, bytes: &[u8]) -> Result<(), AllocError>
    ensures { OnOk result (line.new.items ≡ line.old.items ++ beginning_text bytes.now) }
{
    if bit_at(bytes, POSITION_FLAGS, BOP_BIT) {
        write_words(line, ", beginning of partition")?;
    }
    Ok(())
}

#[tactic(auto, unfolding(crate::specs::Drives::object_text))]
fn write_object(line: &mut Vec<u8>, bytes: &[u8]) -> Result<(), AllocError>
    ensures { OnOk result (line.new.items ≡ line.old.items ++ object_text bytes.now) }
{
    if LOGICAL_OBJECT_NUMBER + LOGICAL_OBJECT_NUMBER_LENGTH <= bytes.len() {
        let object = u32_at(bytes, LOGICAL_OBJECT_NUMBER);
        write_number(line, ", logical object ", u64::from(object))?;
    }
    Ok(())
}

/// Adds what MODE SENSE(6) data say: the medium type, WP, and what the block descriptor says.
pub fn write_mode(line: &mut Vec<u8>, bytes: &[u8]) -> Result<(), AllocError>
    ensures { OnOk result (line.new.items ≡ line.old.items ++ mode_text bytes.now) }
{
    write_medium(line, MEDIUM_TYPE, bytes)?;
    write_protection(line, DEVICE_SPECIFIC_PARAMETER, bytes)?;
    let told = byte_at(bytes, BLOCK_DESCRIPTOR_LENGTH);
    write_block_descriptor(line, u16::from(told), MODE_HEADER_LENGTH, bytes)?;
    write_cut(line, bytes, 1 + u64::from(byte_at(bytes, MODE_DATA_LENGTH)))
}

/// Adds the same of MODE SENSE(10) data.
pub fn write_long_mode(line: &mut Vec<u8>, bytes: &[u8]) -> Result<(), AllocError>
    ensures { OnOk result (line.new.items ≡ line.old.items ++ long_mode_text bytes.now) }
{
    write_medium(line, LONG_MEDIUM_TYPE, bytes)?;
    write_protection(line, LONG_DEVICE_SPECIFIC_PARAMETER, bytes)?;
    let told = u16_at(bytes, LONG_BLOCK_DESCRIPTOR_LENGTH);
    write_block_descriptor(line, told, LONG_MODE_HEADER_LENGTH, bytes)?;
    write_cut(line, bytes, 2 + u64::from(u16_at(bytes, MODE_DATA_LENGTH)))
}

#[tactic(auto, unfolding(crate::specs::Drives::medium_text))]
fn write_medium(line: &mut Vec<u8>, place: usize, bytes: &[u8]) -> Result<(), AllocError>
    requires { place < 2 ^ 16 }
    ensures { OnOk result (line.new.items ≡ line.old.items ++ medium_text place bytes.now) }
{
    if place < bytes.len() {
        write_coded(line, ", medium type ", bytes[place])?;
    }
    Ok(())
}

#[tactic(auto, unfolding(crate::specs::Drives::protection_text))]
fn write_protection(line: &mut Vec<u8>, place: usize, bytes: &[u8]) -> Result<(), AllocError>
    ensures { OnOk result (line.new.items ≡ line.old.items ++ protection_text place bytes.now) }
{
    if bit_at(bytes, place, WP_BIT) {
        write_words(line, ", write protected")?;
    }
    Ok(())
}

/// Adds the density code and the block length, where the header says that there is a block descriptor behind it, and it is whole.
#[tactic(auto, unfolding(crate::specs::Drives::block_descriptor_text))]
fn write_block_descriptor(
    line: &mut Vec<u8>,
    told: u16,
    header: usize,
    bytes: &[u8],
) -> Result<(), AllocError>
    requires { header < 2 ^ 15 }
    ensures { OnOk result (line.new.items ≡ line.old.items ++ block_descriptor_text told header bytes.now) }
{
    if BLOCK_DESCRIPTOR <= told && header + BLOCK_DESCRIPTOR_SIZE <= bytes.len() {
        write_coded(line, ", density ", bytes[header])?;
        let block_length = u24_at(bytes, header + BLOCK_LENGTH);
        write_number(line, ", block length ", u64::from(block_length))?;
    }
    Ok(())
}
