ghost use Rattle.std.specs.Prelude.{◌≡◌};

use crate::layout::*;

/// The mode pages of a medium changer, ascending by page code (SPC-4 and SMC-3, "Mode parameters").
#[derive(Clone, Copy, Debug, PartialEq, Eq)]
pub enum ChangerPage {
    /// 0Ah.
    Control,
    /// 1Ch.
    InformationalExceptionsControl,
    /// 1Dh.
    ElementAddressAssignment,
    /// 1Eh.
    TransportGeometryParameters,
    /// 1Fh.
    DeviceCapabilities,
}

impl ChangerPage {
    ghost use Rattle.mode_pages.specs.ChangerPages.{page_of_code, page_code, page_length};

    /// The page of a page code, where there is one.
    pub fn of(code: u8) -> Option<ChangerPage>
        ensures { result ≡ page_of_code code }
    {
        match code {
            CONTROL => Some(ChangerPage::Control),
            INFORMATIONAL_EXCEPTIONS_CONTROL => Some(ChangerPage::InformationalExceptionsControl),
            ELEMENT_ADDRESS_ASSIGNMENT => Some(ChangerPage::ElementAddressAssignment),
            TRANSPORT_GEOMETRY_PARAMETERS => Some(ChangerPage::TransportGeometryParameters),
            DEVICE_CAPABILITIES => Some(ChangerPage::DeviceCapabilities),
            _ => None,
        }
    }

    /// PAGE CODE.
    pub fn code(self) -> u8
        ensures { result ≡ page_code self }
    {
        match self {
            ChangerPage::Control => CONTROL,
            ChangerPage::InformationalExceptionsControl => INFORMATIONAL_EXCEPTIONS_CONTROL,
            ChangerPage::ElementAddressAssignment => ELEMENT_ADDRESS_ASSIGNMENT,
            ChangerPage::TransportGeometryParameters => TRANSPORT_GEOMETRY_PARAMETERS,
            ChangerPage::DeviceCapabilities => DEVICE_CAPABILITIES,
        }
    }

    /// PAGE LENGTH: how many bytes follow the first two.
    pub fn length(self) -> u8
        ensures { result ≡ page_length self }
    {
        match self {
            ChangerPage::Control => CONTROL_LENGTH,
            ChangerPage::InformationalExceptionsControl => INFORMATIONAL_EXCEPTIONS_CONTROL_LENGTH,
            ChangerPage::ElementAddressAssignment => ELEMENT_ADDRESS_ASSIGNMENT_LENGTH,
            ChangerPage::TransportGeometryParameters => TRANSPORT_GEOMETRY_PARAMETERS_LENGTH,
            ChangerPage::DeviceCapabilities => DEVICE_CAPABILITIES_LENGTH,
        }
    }
}
