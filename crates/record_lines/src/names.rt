ghost use Rattle.std.specs.Prelude.{◌≡◌, option_map};
ghost use Rattle.record_lines.specs.Names.{name_by, name_in};

use crate::host_name::HostName;
use scsi_nexus::Nexus;

/// The name of the host that asked, if it is known.
pub fn name_of(names: &[HostName], nexus: Option<Nexus>) -> Option<&str>
    ensures { option_map (λ name. name.now) result ≡ name_in names.now nexus }
{
    match nexus {
        None => None,
        Some(nexus) => name_by(names, nexus.sas),
    }
}

fn name_by(names: &[HostName], sas: u64) -> Option<&str>
    ensures { option_map (λ name. name.now) result ≡ name_by names.now sas }
{
    'names: for host in names {
        if host.sas == sas {
            return Some(host.name.as_str());
        }
    }
    None
}
