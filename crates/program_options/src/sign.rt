ghost use Rattle.std.specs.Prelude.{◌≡◌, ◌<◌, ◌==◌, IfSome, length, position};

/// Where a text first has a sign.
pub(crate) fn place_of(text: &[u8], sign: u8) -> Option<usize>
    ensures place { result ≡ position (λ b. b == sign) text.now }
    ensures within { IfSome result (λ place. place < length text.now) }
{
    text.iter().position(|byte| *byte == sign)
}
