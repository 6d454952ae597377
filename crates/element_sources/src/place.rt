//! The elements that have a source.

ghost use Rattle.std.specs.Prelude.{◌≡◌, ◌≤◌, ◌-◌, Some, None, if◌then◌else◌};
ghost use Rattle.tape_medium.specs.Elements.{is_among};

/// An element that can hold a volume, by its number within its type, from 0.
#[derive(Clone, Copy)]
pub(crate) enum Place {
    DataTransfer(usize),
    ImportExport(usize),
    Storage(usize),
}

/// Which of `count` elements from the address `first` on has an address.
pub(crate) fn number_among(first: u16, count: usize, address: u16) -> Option<usize>
    requires { count ≤ 1024 }
    ensures { result ≡ (if is_among first count address then Some (address - first) else None) }
{
    let (first, address) = (usize::from(first), usize::from(address));
    if first <= address && address < first + count {
        Some(address - first)
    } else {
        None
    }
}
