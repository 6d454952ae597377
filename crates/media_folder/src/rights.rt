//! Which users may read and write files, by their modes.
ghost use Rattle.std.specs.Prelude.{◌≡◌, ◌==◌, bit_and, not};

/// The mode of new files: their owner alone may read and write them.
pub(crate) const NEW_FILE: u32 = 0o600;

/// The mode of new folders.
pub(crate) const NEW_FOLDER: u32 = 0o700;

/// Whether users other than the owner of a file or a folder may read or write it.
pub(crate) fn is_open_to_others(mode: u32) -> bool
    ensures { result ≡ not (bit_and mode 0o066 == 0) }
{
    mode & 0o066 != 0
}

/// Whether no user may write a file, not even its owner.
pub(crate) fn is_write_protected(mode: u32) -> bool
    ensures { result ≡ (bit_and mode 0o222 == 0) }
{
    mode & 0o222 == 0
}
