ghost use Rattle.std.specs.Prelude.{◌≡◌, ◌↔◌, ◌⊎◌, Err, false, true, IfErr, IfOk, IfSome, string_bytes};
ghost use Rattle.std.specs.Option.{option_copied, option_map};
ghost use Rattle.std.specs.Net.Grammar.{IsSocketText};
ghost use Rattle.std.specs.declared.net.socket_addr.SocketAddr.{SocketAddr};
ghost use Rattle.program_options.specs.Portals.{IsGuarded, IsLoopback, listened_in, told_in};
ghost use Rattle.program_options.specs.ToldAddresses.{IsToldAddress};

use crate::option_fault::OptionFault;
use crate::told_address::is_told_address;
use std::alloc::{AllocError, Global};
use std::net::SocketAddr;

/// An iSCSI portal.
#[derive(Drop)]
pub struct PortalOptions {
    /// Where the server listens.
    pub address: SocketAddr,
    /// The address that is sent to initiators for it, a host and a port. `None`: the one where the server listens.
    pub told: Option<String>,
}

/// The same, with the address for initiators as a part of the portal's text.
#[derive(Clone, Copy)]
pub struct PortalText<'a> {
    pub address: SocketAddr,
    pub told: Option<&'a str>,
}

impl<'a> PortalText<'a> {
    /// With a copy of the address for initiators.
    pub fn to_portal(self, alloc: Global) -> Result<PortalOptions, AllocError>
        ensures address { IfOk result (λ portal. portal.address ≡ self.entry.address) }
        ensures told { IfOk result (λ portal. option_map string_bytes portal.told ≡ option_copied self.entry.told) }
    {
        let told = match self.told {
            Some(text) => Some(String::from_str(alloc, text)?),
            None => None,
        };
        Ok(PortalOptions {
            address: self.address,
            told,
        })
    }
}

/// A portal by its text: an address and port, as `127.0.0.1:3260` or `[::1]:3260`, after which there may be `=` and the address that is
/// sent to initiators for it, as `127.0.0.1:3260=tapes.example:3260`. `is_said`: whether the command line says what initiators must prove,
/// or that it is nothing. Without it the portal is to be one of the loopback (profile).
pub fn portal_of(text: &str, is_said: bool) -> Result<PortalText<'_>, OptionFault>
    ensures ok { IfOk result (λ portal. IsSocketText (listened_in text.now) portal.address × IsGuarded is_said portal.address) }
    ensures told { IfOk result (λ portal. (option_copied portal.told ≡ told_in text.now) × IfSome (told_in text.now) IsToldAddress) }
    ensures bad { result ≡ Err OptionFault.BadAddress → (address : SocketAddr) → ¬ IsSocketText (listened_in text.now) address }
    ensures open { result ≡ Err OptionFault.OpenAddress → (is_said ≡ false) × ((address : SocketAddr) × IsSocketText (listened_in text.now) address × (¬ IsLoopback address)) }
    ensures untold { result ≡ Err OptionFault.BadToldAddress → ¬ IfSome (told_in text.now) IsToldAddress }
    ensures faults { IfErr result (λ fault. (fault ≡ OptionFault.BadAddress) ⊎ (fault ≡ OptionFault.OpenAddress) ⊎ (fault ≡ OptionFault.BadToldAddress)) }
{
    let (listened, told) = parts_of(text);
    let Ok(address) = listened.parse::<SocketAddr>() else {
        return Err(OptionFault::BadAddress);
    };
    if !is_said && !address.ip().is_loopback() {
        return Err(OptionFault::OpenAddress);
    }
    if can_be_told(told) {
        Ok(PortalText { address, told })
    } else {
        Err(OptionFault::BadToldAddress)
    }
}

/// The address where the server listens, and the one that is sent to initiators.
fn parts_of(text: &str) -> (&str, Option<&str>)
    ensures listened { result.0.now ≡ listened_in text.now }
    ensures told { option_copied result.1 ≡ told_in text.now }
{
    match text.split_once('=') {
        Some((listened, told)) => (listened, Some(told)),
        None => (text, None),
    }
}

/// Whether what comes after an address can be sent to initiators, if there is something.
fn can_be_told(told: Option<&str>) -> bool
    ensures { (result ≡ true) ↔ IfSome (option_copied told.entry) IsToldAddress }
{
    match told {
        Some(text) => is_told_address(text.as_bytes()),
        None => true,
    }
}
