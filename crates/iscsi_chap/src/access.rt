ghost use Rattle.std.specs.Prelude.{◌≡◌, ◌≤◌, length};
ghost use Rattle.iscsi_chap.specs.Accesses.{sas_of_name, sas_of_admission};

use byteorder::{BigEndian, ByteOrder};
use iscsi_keys::{LONGEST_NAME, is_same_name};
use sha2::{Digest, Sha256};

/// An initiator that is let in by its name.
#[derive(Drop)]
pub struct Host {
    /// Its iSCSI name.
    pub name: Vec<u8>,
    /// The SAS address that its commands come from.
    pub sas: u64,
}

/// Who is let in.
#[derive(Drop)]
pub struct Access {
    /// Those who are let in by name, in letters of either case; of two with one name the first counts.
    pub hosts: Vec<Host>,
    /// Whether every other name is let in too.
    pub any_host: bool,
}

/// As whom an initiator is let in.
#[derive(Clone, Copy)]
pub enum Admission {
    /// As the host of this SAS address.
    Listed(u64),
    /// As any other, with the SAS address that its name stands for.
    Other(u64),
}

impl Admission {
    /// The SAS address of the initiator's nexus.
    pub fn sas(self) -> u64
        ensures { result ≡ sas_of_admission self }
    {
        match self {
            Admission::Listed(sas) | Admission::Other(sas) => sas,
        }
    }
}

/// The SAS address that a name stands for: its first digit is 5, and the others are the first 60 bits of the SHA-256 of the name in small
/// letters.
#[tactic(auto, unfolding(crate::specs::Accesses::sas_of_name))]
fn sas_of_name(name: &[u8]) -> u64
    requires { length name.now ≤ 223 }
    ensures { result ≡ sas_of_name name.now }
{
    let mut buffer = [0; LONGEST_NAME];
    let (folded, _) = buffer.split_at_mut(name.len());
    folded.copy_from_slice(name);
    folded.make_ascii_lowercase();
    let digest = Sha256::digest(folded);
    NAA + BigEndian::read_u64(&digest) / 16
}

/// The first digit of a SAS address: 5, for an address that its maker's identifier begins.
const NAA: u64 = 0x5000_0000_0000_0000;

impl Access {
    ghost use Rattle.iscsi_chap.specs.Accesses.{admitted, admitted_among};

    /// As whom the initiator of the name is let in, if it is. None is whose name is empty or longer than an iSCSI name.
    pub fn admit(&self, name: &[u8]) -> Option<Admission>
        ensures { result ≡ admitted self.now name.now }
    {
        if name.is_empty() || name.len() > LONGEST_NAME {
            return None;
        }
        self.admit_by_list(name)
    }

    fn admit_by_list(&self, name: &[u8]) -> Option<Admission>
        requires { length name.now ≤ 223 }
        ensures { result ≡ admitted_among self.now.any_host self.now.hosts.items name.now }
    {
        for host in &self.hosts {
            if is_same_name(host.name.as_slice(), name) {
                return Some(Admission::Listed(host.sas));
            }
        }
        if self.any_host {
            Some(Admission::Other(sas_of_name(name)))
        } else {
            None
        }
    }
}
