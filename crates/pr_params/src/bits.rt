ghost use Rattle.std.specs.Prelude.{◌≡◌, ◌==◌, ◌<◌, ◌/◌, ◌%◌, ◌^◌};

/// Whether a bit of a byte is 1.
pub(crate) fn is_set(byte: u8, place: u32) -> bool
    requires { place < 8 }
    ensures { result ≡ (byte / 2 ^ place % 2 == 1) }
{
    byte >> place & 1 == 1
}
