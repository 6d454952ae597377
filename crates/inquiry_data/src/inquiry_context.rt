use crate::unit_identity::UnitIdentity;

/// What the vital product data of a unit depend on besides its kind.
#[derive(Clone, Copy, Debug, PartialEq, Eq)]
pub struct InquiryContext {
    pub identity: UnitIdentity,
    /// The relative target port that the command came by.
    pub target_port: u16,
    /// The element address of a drive in its library; of a changer it isn't read.
    pub element_address: u16,
}
