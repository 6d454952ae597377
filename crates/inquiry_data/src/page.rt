use crate::layout::*;
use scsi_cdb::Kind;

/// The pages of vital product data in the order of their codes: those of every unit (SPC-4, "Vital product data parameters"), then from
/// `SequentialAccessDeviceCapabilities` on those of drives alone (SSC-4, "Vital product data parameters").
#[derive(Clone, Copy, Debug, PartialEq, Eq)]
pub enum VitalProductPage {
    SupportedPages,
    UnitSerialNumber,
    DeviceIdentification,
    ExtendedInquiryData,
    ModePagePolicy,
    SequentialAccessDeviceCapabilities,
    ManufacturerAssignedSerialNumber,
    TapeAlertSupportedFlags,
    AutomationDeviceSerialNumber,
    DataTransferDeviceElementAddress,
}

impl VitalProductPage {
    ghost use Rattle.std.specs.Prelude.{◌≡◌};
    ghost use Rattle.inquiry_data.specs.VitalProductData.{page_among, page_at, page_code, pages_of_drives};

    /// The page of a PAGE CODE, where units of the kind have it.
    pub fn at(kind: Kind, code: u8) -> Option<VitalProductPage>
        ensures { result ≡ page_at kind code }
    {
        match code {
            SUPPORTED_PAGES => Some(VitalProductPage::SupportedPages),
            UNIT_SERIAL_NUMBER => Some(VitalProductPage::UnitSerialNumber),
            DEVICE_IDENTIFICATION => Some(VitalProductPage::DeviceIdentification),
            EXTENDED_INQUIRY_DATA => Some(VitalProductPage::ExtendedInquiryData),
            MODE_PAGE_POLICY => Some(VitalProductPage::ModePagePolicy),
            _ => match kind {
                Kind::Drive => VitalProductPage::of_drives_at(code),
                Kind::Changer => None,
            },
        }
    }

    /// The page of a PAGE CODE among those that drives alone have.
    fn of_drives_at(code: u8) -> Option<VitalProductPage>
        ensures { result ≡ page_among pages_of_drives code }
    {
        match code {
            SEQUENTIAL_ACCESS_DEVICE_CAPABILITIES => {
                Some(VitalProductPage::SequentialAccessDeviceCapabilities)
            }
            MANUFACTURER_ASSIGNED_SERIAL_NUMBER => {
                Some(VitalProductPage::ManufacturerAssignedSerialNumber)
            }
            TAPE_ALERT_SUPPORTED_FLAGS => Some(VitalProductPage::TapeAlertSupportedFlags),
            AUTOMATION_DEVICE_SERIAL_NUMBER => Some(VitalProductPage::AutomationDeviceSerialNumber),
            DATA_TRANSFER_DEVICE_ELEMENT_ADDRESS => {
                Some(VitalProductPage::DataTransferDeviceElementAddress)
            }
            _ => None,
        }
    }

    /// The PAGE CODE.
    pub fn code(self) -> u8
        ensures { result ≡ page_code self }
    {
        match self {
            VitalProductPage::SupportedPages => SUPPORTED_PAGES,
            VitalProductPage::UnitSerialNumber => UNIT_SERIAL_NUMBER,
            VitalProductPage::DeviceIdentification => DEVICE_IDENTIFICATION,
            VitalProductPage::ExtendedInquiryData => EXTENDED_INQUIRY_DATA,
            VitalProductPage::ModePagePolicy => MODE_PAGE_POLICY,
            VitalProductPage::SequentialAccessDeviceCapabilities => {
                SEQUENTIAL_ACCESS_DEVICE_CAPABILITIES
            }
            VitalProductPage::ManufacturerAssignedSerialNumber => {
                MANUFACTURER_ASSIGNED_SERIAL_NUMBER
            }
            VitalProductPage::TapeAlertSupportedFlags => TAPE_ALERT_SUPPORTED_FLAGS,
            VitalProductPage::AutomationDeviceSerialNumber => AUTOMATION_DEVICE_SERIAL_NUMBER,
            VitalProductPage::DataTransferDeviceElementAddress => {
                DATA_TRANSFER_DEVICE_ELEMENT_ADDRESS
            }
        }
    }
}
