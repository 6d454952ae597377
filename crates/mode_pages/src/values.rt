ghost use Rattle.std.specs.Prelude.{◌≡◌};

/// The mode parameters of a drive that MODE SELECT can change.
#[derive(Clone, Copy, Debug, PartialEq, Eq)]
pub struct ModeValues {
    /// BLOCK LENGTH of the block descriptor, in bytes, 24 bits: 0 where blocks have any length (SSC-4, "Mode parameters").
    pub block_length: u32,
    /// DCE, data compression enable (SSC-4, "Data Compression mode page").
    pub compression: bool,
}

impl Default for ModeValues {
    ghost use Rattle.mode_pages.specs.Values.{default_values};

    ghost is_default = { λ values. values ≡ default_values };

    /// The values after a reset: blocks of any length, compression on.
    fn default() -> ModeValues {
        ModeValues {
            block_length: 0,
            compression: true,
        }
    }
}

/// What MODE SENSE of a drive shows.
#[derive(Clone, Copy, Debug)]
pub struct DriveState {
    pub values: ModeValues,
    /// WP: the volume can't be written.
    pub write_protected: bool,
    /// Whether a volume is in the bay, loaded or not.
    pub has_volume: bool,
}
