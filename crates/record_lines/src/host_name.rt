ghost use Rattle.std.specs.Prelude.{◌≡◌, IfOk, IfSome, string_bytes};
ghost use Rattle.std.specs.List.{AllPass};
ghost use Rattle.record_lines.specs.Plain.{is_plain};

use std::alloc::{AllocError, Global};
use std::str;

/// The iSCSI name of a host that comes from a SAS address: it has nothing that a line would have to write otherwise.
#[derive(Drop)]
pub struct HostName {
    pub(crate) sas: u64,
    pub(crate) name: String,
    ghost plain: { AllPass is_plain (string_bytes name) },
}

impl HostName {
    /// A host's name, if all of it are graphic characters of ASCII, without quotation mark and reverse solidus: an iSCSI name has no
    /// others (profile).
    pub fn new(alloc: Global, sas: u64, name: &[u8]) -> Result<Option<HostName>, AllocError>
        ensures { IfOk result (λ made. IfSome made (λ host. (host.sas ≡ sas) × (string_bytes host.name ≡ name.now))) }
    {
        if !name.iter().all(|byte| is_plain(*byte)) {
            return Ok(None);
        }
        match str::from_utf8(name) {
            Ok(text) => Ok(Some(HostName {
                sas,
                name: String::from_str(alloc, text)?,
            })),
            Err(_) => Ok(None),
        }
    }
}

/// Whether a line has a byte as it is.
fn is_plain(byte: u8) -> bool
    ensures { result ≡ is_plain byte }
{
    b'!' <= byte && byte <= b'~' && byte != b'"' && byte != b'\\'
}
