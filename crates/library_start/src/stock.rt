//! What the elements of the program's changer hold at power on.

ghost use Rattle.std.specs.Prelude.{◌≡◌, ◌<◌, ◌≤◌, ◌^◌, IfOk};
ghost use Rattle.program_options.specs.Options.{AreInRange};
ghost use Rattle.library_start.specs.Stock.{five_digits, stocked, tag_of, volume_of};
ghost use Rattle.tape_medium.specs.Limits.{capacity_limit};

use element_map::Elements;
use program_options::LibraryOptions;
use std::alloc::{AllocError, Global};
use tape_medium::{FIRST_STORAGE, MemoryLimit, Tape, Volume, VolumeTag};

/// A number as five decimal digits.
fn five_digits(number: u16) -> [u8; 5]
    ensures { result ≡ five_digits number }
{
    [
        b'0' + (number / 10_000) as u8,
        b'0' + (number / 1_000 % 10) as u8,
        b'0' + (number / 100 % 10) as u8,
        b'0' + (number / 10 % 10) as u8,
        b'0' + (number % 10) as u8,
    ]
}

/// `VOL` and a number of five digits, padded with spaces.
fn tag_of(number: u16) -> VolumeTag
    ensures { result ≡ tag_of number }
{
    let [ten_thousands, thousands, hundreds, tens, ones] = five_digits(number);
    VolumeTag([
        b'V',
        b'O',
        b'L',
        ten_thousands,
        thousands,
        hundreds,
        tens,
        ones,
        b' ',
        b' ',
        b' ',
        b' ',
        b' ',
        b' ',
        b' ',
        b' ',
        b' ',
        b' ',
        b' ',
        b' ',
        b' ',
        b' ',
        b' ',
        b' ',
        b' ',
        b' ',
        b' ',
        b' ',
        b' ',
        b' ',
        b' ',
        b' ',
    ])
}

/// An empty volume that isn't write protected, for so many bytes of blocks.
fn volume_of(alloc: Global, memory: MemoryLimit, size: u64, number: u16) -> Volume
    requires some { 0 < size }
    requires within { size ≤ capacity_limit }
    ensures { result ≡ volume_of size number }
{
    Volume {
        tag: tag_of(number),
        protected: false,
        tape: Tape::within(alloc, size, memory),
    }
}

/// The elements of the options, with the volumes in the first storage elements,
/// numbered from 1 on, which take no more memory together than the limit says.
pub fn stocked(
    alloc: Global,
    options: &LibraryOptions,
    memory: &MemoryLimit,
) -> Result<Elements, AllocError>
    requires range { AreInRange options.now }
    requires fits { options.now.volumes ≤ options.now.slots }
    ensures { IfOk result (λ elements. elements ≡ stocked options.now) }
{
    let mut elements = Elements::new(
        alloc,
        u16::from(options.drives),
        options.slots,
        u16::from(options.import_exports),
    )?;
    'volumes: for place in 0..options.volumes {
        let volume = volume_of(alloc, memory.share()?, options.volume_size, place + 1);
        match elements.put(FIRST_STORAGE + place, volume) {
            Ok(()) => {}
            // Each storage element from this one on is there, and empty.
            Err(_) => unreachable!(),
        }
    }
    Ok(elements)
}
