//! What was found, compared with what is expected: each `assert!` costs the proof of the function that it stands in some ten times
//! these calls.

use std::fmt::Debug;
use std::process::Abort;

pub(crate) fn assert_same<T: Copy + PartialEq + Debug>(
    rt: &impl Abort,
    found: T,
    expected: T,
    shows: &'static str,
) {
    assert!(rt; found == expected, "{shows}: {found:?}, not {expected:?}");
}

/// The same of lists, as bytes.
pub(crate) fn assert_list<T: PartialEq + Debug>(
    rt: &impl Abort,
    found: &[T],
    expected: &[T],
    shows: &'static str,
) {
    assert!(rt; found == expected, "{shows}: {found:?}, not {expected:?}");
}
