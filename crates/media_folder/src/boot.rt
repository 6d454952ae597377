//! Which run of the machine it is. Records name it for older programs, which read more of a file in the same run.
use std::fmt;
use std::fs::{self, Files};

/// Where Linux says it (random(4)).
const PATH: &str = "/proc/sys/kernel/random/boot_id";

/// How many characters it has.
const SIZE: usize = 36;

/// A run of the machine, from one boot to the next.
#[derive(Clone, Copy)]
pub(crate) enum BootId {
    Known([u8; SIZE]),
    /// The system doesn't say.
    Unknown,
}

impl BootId {
    /// This run.
    pub fn now<R: AllocGlobal + Files>(rt: &R) -> BootId {
        match fs::read_to_string(rt, PATH) {
            Ok(text) => BootId::of(text.as_str().trim_end()),
            Err(_) => BootId::Unknown,
        }
    }

    /// The run with a name.
    fn of(name: &str) -> BootId {
        let mut id = [0; SIZE];
        let bytes = name.as_bytes();
        if bytes.len() != SIZE || bytes.iter().any(|byte| !is_of_name(*byte)) {
            return BootId::Unknown;
        }
        id.copy_from_slice(bytes);
        BootId::Known(id)
    }
}

fn is_of_name(byte: u8) -> bool {
    byte.is_ascii_hexdigit() || byte == b'-'
}

impl fmt::Display for BootId {
    fn fmt<W: fmt::Write>(&self, f: &mut fmt::Formatter<W>) -> fmt::Result {
        match self {
            BootId::Known(id) => match std::str::from_utf8(id) {
                Ok(name) => f.write_str(name),
                Err(_) => f.write_str("unknown"),
            },
            BootId::Unknown => f.write_str("unknown"),
        }
    }
}
