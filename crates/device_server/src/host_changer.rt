use element_sources::ElementSources;
use inquiry_data::UnitIdentity;

/// What a changer of the hosts' profile keeps besides.
#[derive(Drop)]
pub struct HostChanger {
    /// Which unit it is.
    pub identity: UnitIdentity,
    /// From where the volume of each element came.
    pub sources: ElementSources,
}
