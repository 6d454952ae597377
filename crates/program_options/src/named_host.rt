ghost use Rattle.std.specs.Prelude.{◌≡◌, ◌==◌, Err, IfErr, IfOk, Ok};
ghost use Rattle.std.specs.List.{list_any};
ghost use Rattle.program_options.specs.Hosts.{sas_in};
ghost use Rattle.program_options.specs.HostsLetIn.{has_name, host_by, host_in, judged};

use crate::host::sas_of;
use crate::option_fault::OptionFault;
use crate::sign::place_of;
use iscsi_keys::{is_iscsi_name, is_same_name};
use std::alloc::{AllocError, Global};

/// The most initiators that are let in by name (profile).
const MOST_HOSTS: usize = 64;

/// An initiator that is let in by its name.
#[derive(Drop)]
pub struct NamedHost {
    /// Its iSCSI name.
    pub name: Vec<u8>,
    /// The SAS address that its commands come from.
    pub sas: u64,
}

/// The same, with its name as a part of the text.
#[derive(Clone, Copy)]
pub struct HostText<'a> {
    pub name: &'a [u8],
    pub sas: u64,
}

impl<'a> HostText<'a> {
    /// With a copy of its name.
    pub fn to_host(self, alloc: Global) -> Result<NamedHost, AllocError>
        ensures { IfOk result (λ host. (host.name.items ≡ self.entry.name.now) × (host.sas ≡ self.entry.sas)) }
    {
        Ok(NamedHost {
            name: Vec::from_slice(alloc, self.name)?,
            sas: self.sas,
        })
    }
}

/// The initiator that a text `NAME=SAS` lets in next to others, or why it doesn't (profile).
pub fn host_beside<'a>(hosts: &[NamedHost], text: &'a [u8]) -> Result<HostText<'a>, OptionFault>
    ensures ok { IfOk result (λ host. judged hosts.now (host_in text.now) ≡ Ok (record { name = host.name.now; sas = host.sas })) }
    ensures err { IfErr result (λ fault. judged hosts.now (host_in text.now) ≡ Err fault) }
{
    let host = host_in(text)?;
    if hosts.len() >= MOST_HOSTS {
        return Err(OptionFault::ManyHosts);
    }
    if has_name(hosts, host.name) {
        return Err(OptionFault::NameTwice);
    }
    if has_sas(hosts, host.sas) {
        return Err(OptionFault::SasTwice);
    }
    Ok(host)
}

/// The initiator that a text `NAME=SAS` lets in.
fn host_in(text: &[u8]) -> Result<HostText<'_>, OptionFault>
    ensures ok { IfOk result (λ host. host_in text.now ≡ Ok (record { name = host.name.now; sas = host.sas })) }
    ensures err { IfErr result (λ fault. host_in text.now ≡ Err fault) }
{
    let Some(place) = place_of(text, b'=') else {
        return Err(OptionFault::BadHost);
    };
    host_by(&text[..place], &text[place + 1..])
}

fn host_by<'a>(name: &'a [u8], digits: &[u8]) -> Result<HostText<'a>, OptionFault>
    ensures ok { IfOk result (λ host. host_by name.now (sas_in digits.now) ≡ Ok (record { name = host.name.now; sas = host.sas })) }
    ensures err { IfErr result (λ fault. host_by name.now (sas_in digits.now) ≡ Err fault) }
{
    let Some(sas) = sas_of(digits) else {
        return Err(OptionFault::BadSas);
    };
    if is_iscsi_name(name) {
        Ok(HostText { name, sas })
    } else {
        Err(OptionFault::BadName)
    }
}

fn has_name(hosts: &[NamedHost], name: &[u8]) -> bool
    ensures { result ≡ list_any (has_name name.now) hosts.now }
{
    hosts
        .iter()
        .any(|host| is_same_name(host.name.as_slice(), name))
}

fn has_sas(hosts: &[NamedHost], sas: u64) -> bool
    ensures { result ≡ list_any (λ h. h.sas == sas) hosts.now }
{
    hosts.iter().any(|host| host.sas == sas)
}
