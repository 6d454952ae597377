ghost use Rattle.std.specs.Prelude.{◌≡◌};
ghost use Rattle.std.specs.Str.{bytes_eq};

/// Whether both are the same bytes, in a time that depends on their lengths alone and not on where they differ.
pub fn are_same(left: &[u8], right: &[u8]) -> bool
    ensures { result ≡ bytes_eq left.now right.now }
{
    if left.len() != right.len() {
        return false;
    }
    let mut same = true;
    'bytes: for place in 0..left.len() {
        same &= left[place] == right[place];
    }
    same
}
