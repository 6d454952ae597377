ghost use Rattle.std.specs.Prelude.{◌≡◌, ℕ, Some};

use crate::layout::*;
use std::fmt;

/// The sense keys of the conditions (SPC-4, "Sense key and additional sense code definitions").
#[derive(Clone, Copy)]
pub enum SenseKey {
    NoSense,
    NotReady,
    HardwareError,
    IllegalRequest,
    UnitAttention,
    DataProtect,
    BlankCheck,
    VolumeOverflow,
}

impl SenseKey {
    ghost use Rattle.scsi_sense.specs.SenseKeys.{key_code, IsKeyOf};
    ghost use Rattle.scsi_sense.specs.Text.{key_name};

    /// SENSE KEY in sense data.
    pub fn code(self) -> u8
        ensures { result ≡ key_code self }
    {
        match self {
            SenseKey::NoSense => NO_SENSE,
            SenseKey::NotReady => NOT_READY,
            SenseKey::HardwareError => HARDWARE_ERROR,
            SenseKey::IllegalRequest => ILLEGAL_REQUEST,
            SenseKey::UnitAttention => UNIT_ATTENTION,
            SenseKey::DataProtect => DATA_PROTECT,
            SenseKey::BlankCheck => BLANK_CHECK,
            SenseKey::VolumeOverflow => VOLUME_OVERFLOW,
        }
    }

    /// The key that has this code, if one has.
    pub fn of(code: u8) -> Option<SenseKey>
        ensures { IsKeyOf code result }
    {
        match code {
            NO_SENSE => Some(SenseKey::NoSense),
            NOT_READY => Some(SenseKey::NotReady),
            HARDWARE_ERROR => Some(SenseKey::HardwareError),
            ILLEGAL_REQUEST => Some(SenseKey::IllegalRequest),
            UNIT_ATTENTION => Some(SenseKey::UnitAttention),
            DATA_PROTECT => Some(SenseKey::DataProtect),
            BLANK_CHECK => Some(SenseKey::BlankCheck),
            VOLUME_OVERFLOW => Some(SenseKey::VolumeOverflow),
            _ => None,
        }
    }

    /// The key in the standard's words.
    pub fn text(self) -> &'static str
        ensures { result.now ≡ key_name self }
    {
        match self {
            SenseKey::NoSense => "NO SENSE",
            SenseKey::NotReady => "NOT READY",
            SenseKey::HardwareError => "HARDWARE ERROR",
            SenseKey::IllegalRequest => "ILLEGAL REQUEST",
            SenseKey::UnitAttention => "UNIT ATTENTION",
            SenseKey::DataProtect => "DATA PROTECT",
            SenseKey::BlankCheck => "BLANK CHECK",
            SenseKey::VolumeOverflow => "VOLUME OVERFLOW",
        }
    }
}

impl fmt::Display for SenseKey {
    ghost use Rattle.scsi_sense.specs.Text.{key_name};

    ghost output = { λ key. Some (key_name key) };

    fn fmt<W: fmt::Write>(&self, f: &mut fmt::Formatter<W>) -> fmt::Result {
        f.write_str(self.text())
    }
}
