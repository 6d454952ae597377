ghost use Rattle.std.specs.Prelude.{◌≤◌};

/// Record numbers of one unit that follow one another, from the first to the last.
#[derive(Clone, Copy)]
pub struct NumberRange {
    pub first: u64,
    pub last: u64,
    ghost ordered: { first ≤ last },
}
