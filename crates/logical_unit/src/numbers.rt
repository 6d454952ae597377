use arrayvec::ArrayVec;
use std::marker::Model;

/// The records that a call left, at most three: of each the logical unit number of the unit that has it, and its number
/// there. Contracts see the list.
#[derive(Drop)]
pub struct Numbers {
    pairs: ArrayVec<(u8, u64), 3>,
}

impl Model for Numbers {
    ghost use Rattle.std.specs.Prelude.{ℕ, List};

    ghost Value = { List (ℕ × ℕ) };

    ghost view = { λ n. n.pairs.items };
}

impl Numbers {
    ghost use Rattle.std.specs.Prelude.{◌≡◌};

    /// A copy of the numbers of a receipt.
    pub(crate) fn of(pairs: &ArrayVec<(u8, u64), 3>) -> Numbers
        ensures { result ≡ pairs.now.items }
    {
        let all = pairs.as_slice();
        let mut copied = ArrayVec::new();
        if let [first, ..] = all {
            copied.push(*first);
        }
        if let [_, second, ..] = all {
            copied.push(*second);
        }
        if let [_, _, third, ..] = all {
            copied.push(*third);
        }
        Numbers { pairs: copied }
    }

    /// The pairs, the changer's first, then the drives', rising.
    pub fn as_slice(&self) -> &[(u8, u64)]
        ensures { result.now ≡ self.now }
    {
        self.pairs.as_slice()
    }
}
