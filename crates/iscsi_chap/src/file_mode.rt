ghost use Rattle.std.specs.Prelude.{◌≡◌, ◌==◌, ◌%◌, not};

/// Whether a file's mode lets others than its owner do anything with it: its last two octal digits are theirs (POSIX, "File
/// Access Permissions"). A file of secrets that does isn't taken.
pub fn is_open_to_others(mode: u32) -> bool
    ensures { result ≡ not (mode % 64 == 0) }
{
    mode % 0o100 != 0
}
