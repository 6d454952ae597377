//! Mode parameters (SPC-4, "Mode parameter list formats"; SSC-4, "Mode parameters").

ghost use Rattle.std.specs.Prelude.{◌≡◌, None, IfOk, take};
ghost use Rattle.device_server.specs.Mode.{list_fault, block_length_after, mode_data};

use byteorder::{BigEndian, ByteOrder};
use device_server::Payload;
use device_server::mode_layout::{BLOCK_DESCRIPTOR, BLOCK_LENGTH, DESCRIPTOR_LENGTH};
use std::alloc::{AllocError, Global};

/// WP, in the device specific parameter.
const WRITE_PROTECTED: u8 = 0x80;

/// The block length after a MODE SELECT whose parameter list isn't refused.
pub(crate) fn block_length_after(before: u32, told: u8, list: &[u8]) -> u32
    requires { list_fault told list.now ≡ None }
    ensures { result ≡ block_length_after before told list.now }
{
    if told == 0 || list[DESCRIPTOR_LENGTH] != BLOCK_DESCRIPTOR {
        return before;
    }
    BigEndian::read_u24(&list[BLOCK_LENGTH..])
}

/// The data of MODE SENSE, cut at the allocation length.
pub(crate) fn mode_data(
    alloc: Global,
    protected: bool,
    disable_block_descriptors: bool,
    block_length: u32,
    allocation_length: u8,
) -> Result<Payload, AllocError>
    ensures { IfOk result (λ payload. payload ≡ take allocation_length (mode_data protected disable_block_descriptors block_length)) }
{
    let cut = usize::from(allocation_length);
    let device_specific = if protected { WRITE_PROTECTED } else { 0x00 };
    if disable_block_descriptors {
        let header = [0x03, 0x00, device_specific, 0x00];
        return Ok(Payload::copied(alloc, &header)?.cut(cut));
    }
    let [_, b2, b1, b0] = block_length.to_be_bytes();
    let list = [
        0x0B,
        0x00,
        device_specific,
        BLOCK_DESCRIPTOR,
        0x00,
        0x00,
        0x00,
        0x00,
        0x00,
        b2,
        b1,
        b0,
    ];
    Ok(Payload::copied(alloc, &list)?.cut(cut))
}
