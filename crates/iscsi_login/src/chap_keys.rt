//! The keys of CHAP by their names.

/// The algorithms that are offered, or the one that is taken.
pub(crate) const CHAP_A: &[u8] = b"CHAP_A";

/// The identifier of a challenge.
pub(crate) const CHAP_I: &[u8] = b"CHAP_I";

/// A challenge.
pub(crate) const CHAP_C: &[u8] = b"CHAP_C";

/// The user that responds.
pub(crate) const CHAP_N: &[u8] = b"CHAP_N";

/// The response.
pub(crate) const CHAP_R: &[u8] = b"CHAP_R";
