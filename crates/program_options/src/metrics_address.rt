ghost use Rattle.std.specs.Prelude.{◌≡◌, Err, IfErr, IfOk};
ghost use Rattle.std.specs.Net.Grammar.{IsSocketText};
ghost use Rattle.std.specs.declared.net.socket_addr.SocketAddr.{SocketAddr};

use crate::option_fault::OptionFault;
use std::net::SocketAddr;

/// Where metrics are asked for, by its text: an IP address with a port, as `127.0.0.1:9100` or `[::1]:9100`.
pub fn metrics_address_of(text: &str) -> Result<SocketAddr, OptionFault>
    ensures ok { IfOk result (λ address. IsSocketText text.now address) }
    ensures bad { IfErr result (λ fault. (fault ≡ OptionFault.BadAddress) × ((address : SocketAddr) → ¬ IsSocketText text.now address)) }
{
    match text.parse::<SocketAddr>() {
        Ok(address) => Ok(address),
        Err(_) => Err(OptionFault::BadAddress),
    }
}
