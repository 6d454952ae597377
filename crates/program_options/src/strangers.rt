ghost use Rattle.std.specs.Prelude.{◌≡◌};
ghost use Rattle.program_options.specs.Strangers.{most_strangers};

use crate::option_fault::OptionFault;
use unit_attention::SLOTS;

/// How many nexuses of hosts that no name lets in may be let in: as many as a unit has slots left where each host that is let in by name
/// has one at each portal, and none where only named hosts are let in.
pub fn most_strangers(any_host: bool, hosts: usize, portals: usize) -> Result<u8, OptionFault>
    ensures { result ≡ most_strangers any_host hosts portals }
{
    if !any_host {
        return Ok(0);
    }
    match hosts.checked_mul(portals) {
        Some(named) if named < SLOTS => Ok((SLOTS - named) as u8),
        _ => Err(OptionFault::NoSlotForOthers),
    }
}
