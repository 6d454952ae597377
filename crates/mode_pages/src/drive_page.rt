ghost use Rattle.std.specs.Prelude.{◌≡◌, ◌++◌, ◌≤◌, ◌<◌, ◌+◌, OnOk, vec_len};

use crate::layout::*;
use std::alloc::AllocError;

/// The mode pages of a drive, ascending by page code (SPC-4 and SSC-4, "Mode parameters").
#[derive(Clone, Copy, Debug, PartialEq, Eq)]
pub enum DrivePage {
    /// 01h.
    ReadWriteErrorRecovery,
    /// 02h.
    DisconnectReconnect,
    /// 0Ah.
    Control,
    /// 0Fh.
    DataCompression,
    /// 10h.
    DeviceConfiguration,
    /// 11h.
    MediumPartition,
    /// 1Ch.
    InformationalExceptionsControl,
    /// 1Dh.
    MediumConfiguration,
}

impl DrivePage {
    ghost use Rattle.mode_pages.specs.DrivePages.{page_of_code, page_code, page_length};

    /// The page of a page code, where there is one.
    pub fn of(code: u8) -> Option<DrivePage>
        ensures { result ≡ page_of_code code }
    {
        match code {
            READ_WRITE_ERROR_RECOVERY => Some(DrivePage::ReadWriteErrorRecovery),
            DISCONNECT_RECONNECT => Some(DrivePage::DisconnectReconnect),
            CONTROL => Some(DrivePage::Control),
            DATA_COMPRESSION => Some(DrivePage::DataCompression),
            DEVICE_CONFIGURATION => Some(DrivePage::DeviceConfiguration),
            MEDIUM_PARTITION => Some(DrivePage::MediumPartition),
            INFORMATIONAL_EXCEPTIONS_CONTROL => Some(DrivePage::InformationalExceptionsControl),
            MEDIUM_CONFIGURATION => Some(DrivePage::MediumConfiguration),
            _ => None,
        }
    }

    /// PAGE CODE.
    pub fn code(self) -> u8
        ensures { result ≡ page_code self }
    {
        match self {
            DrivePage::ReadWriteErrorRecovery => READ_WRITE_ERROR_RECOVERY,
            DrivePage::DisconnectReconnect => DISCONNECT_RECONNECT,
            DrivePage::Control => CONTROL,
            DrivePage::DataCompression => DATA_COMPRESSION,
            DrivePage::DeviceConfiguration => DEVICE_CONFIGURATION,
            DrivePage::MediumPartition => MEDIUM_PARTITION,
            DrivePage::InformationalExceptionsControl => INFORMATIONAL_EXCEPTIONS_CONTROL,
            DrivePage::MediumConfiguration => MEDIUM_CONFIGURATION,
        }
    }

    /// PAGE LENGTH: how many bytes follow the first two.
    pub fn length(self) -> u8
        ensures { result ≡ page_length self }
    {
        match self {
            DrivePage::ReadWriteErrorRecovery => READ_WRITE_ERROR_RECOVERY_LENGTH,
            DrivePage::DisconnectReconnect => DISCONNECT_RECONNECT_LENGTH,
            DrivePage::Control => CONTROL_LENGTH,
            DrivePage::DataCompression => DATA_COMPRESSION_LENGTH,
            DrivePage::DeviceConfiguration => DEVICE_CONFIGURATION_LENGTH,
            DrivePage::MediumPartition => MEDIUM_PARTITION_LENGTH,
            DrivePage::InformationalExceptionsControl => INFORMATIONAL_EXCEPTIONS_CONTROL_LENGTH,
            DrivePage::MediumConfiguration => MEDIUM_CONFIGURATION_LENGTH,
        }
    }
}
