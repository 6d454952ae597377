ghost use Rattle.std.specs.Prelude.{◌≡◌};

use crate::layout::{HEADER_OF_SIX, HEADER_OF_TEN, PAGE_CONTROL_BITS};

/// The two forms of a mode parameter list, by the length of the command (SPC-4, "Mode parameter list formats").
#[derive(Clone, Copy, Debug, PartialEq, Eq)]
pub enum HeaderForm {
    /// MODE SENSE(6), MODE SELECT(6).
    Six,
    /// MODE SENSE(10), MODE SELECT(10).
    Ten,
}

impl HeaderForm {
    ghost use Rattle.mode_pages.specs.Lists.{header_length};

    /// The length of the mode parameter header, in bytes.
    pub fn header_length(self) -> usize
        ensures { result ≡ header_length self }
    {
        match self {
            HeaderForm::Six => HEADER_OF_SIX,
            HeaderForm::Ten => HEADER_OF_TEN,
        }
    }
}

/// Which values MODE SENSE asks for (SPC-4, "MODE SENSE(6) command", page control).
#[derive(Clone, Copy, Debug, PartialEq, Eq)]
pub enum PageControl {
    Current,
    /// Ones where MODE SELECT can change a bit.
    Changeable,
    Default,
    Saved,
}

impl PageControl {
    ghost use Rattle.mode_pages.specs.Asked.{page_control};

    /// By the two bits of PC. Bits above them are ignored.
    pub fn of(bits: u8) -> PageControl
        ensures { result ≡ page_control bits }
    {
        match bits & PAGE_CONTROL_BITS {
            0 => PageControl::Current,
            1 => PageControl::Changeable,
            2 => PageControl::Default,
            _ => PageControl::Saved,
        }
    }
}

/// What MODE SENSE asks for. The caller cuts the answer at the allocation length.
#[derive(Clone, Copy, Debug)]
pub struct ModeSense {
    pub form: HeaderForm,
    /// DBD.
    pub disable_block_descriptors: bool,
    /// PC.
    pub page_control: PageControl,
    /// 6 bits.
    pub page_code: u8,
    pub subpage_code: u8,
}
