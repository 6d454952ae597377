use thiserror::Error;

/// What is wrong with a parameter list of the right length, in the order of the tests.
#[derive(Clone, Copy, Debug, Drop, Error)]
pub enum ListDefect {
    /// APTPL is set, or SPEC_I_PT with REGISTER AND IGNORE EXISTING KEY, neither of which is
    /// supported, or the TransportIDs that SPEC_I_PT names aren't whole or are above 256 (profile).
    #[error("an invalid field in the parameter list")]
    Field,
    /// A TransportID isn't that of a SAS initiator port.
    #[error("a TransportID of no SAS initiator port")]
    TransportId,
}
