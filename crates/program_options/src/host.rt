ghost use Rattle.std.specs.Prelude.{◌≡◌, ◌≤◌};
ghost use Rattle.program_options.specs.Hosts.{nexus_by, sas_in};

use crate::option_fault::OptionFault;
use hex::FromHex;
use scsi_nexus::Nexus;

/// The nexus of a host, by its SAS address in 16 hexadecimal digits, of either case, and one of the target ports 1 to 4
/// (profile).
pub fn nexus_of(hex: &str, port: u16) -> Result<Nexus, OptionFault>
    requires first_port { 1 ≤ port }
    requires last_port { port ≤ 4 }
    ensures { result ≡ nexus_by (sas_in hex.now) port }
{
    match sas_of(hex.as_bytes()) {
        Some(sas) => Ok(Nexus { sas, port }),
        None => Err(OptionFault::BadNexus),
    }
}

/// A SAS address, by its 16 hexadecimal digits.
pub(crate) fn sas_of(digits: &[u8]) -> Option<u64>
    ensures { result ≡ sas_in digits.now }
{
    // Eight bytes are read of 16 digits and of no other number of them.
    match <[u8; 8] as FromHex>::from_hex(digits) {
        Ok(sas) => Some(u64::from_be_bytes(sas)),
        Err(_) => None,
    }
}
