use program_options::{GivenLibrary, GivenProfile, WithoutLibrary};

/// What is asked of a library in a folder.
#[derive(Clone, Copy)]
pub struct WantedLibrary {
    /// What is done where the folder has no library.
    pub without: WithoutLibrary,
    /// What it is made of, or is to agree with.
    pub given: GivenLibrary,
    /// The same of its profile.
    pub profile: GivenProfile,
}
