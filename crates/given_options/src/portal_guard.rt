ghost use Rattle.std.specs.Prelude.{◌≡◌, All, false, IfNone, IfSome};
ghost use Rattle.program_options.specs.Portals.{IsGuarded, IsLoopback};

use program_options::PortalOptions;

/// The first portal that other machines can reach, where it isn't said what initiators must prove, or that it is nothing.
pub fn open_portal(portals: &[PortalOptions], is_said: bool) -> Option<&PortalOptions>
    ensures guarded { IfNone result (All (λ portal. IsGuarded is_said portal.address) portals.now) }
    ensures open { IfSome result (λ portal. (is_said ≡ false) × (¬ IsLoopback portal.now.address)) }
{
    if is_said {
        return None;
    }
    portals
        .iter()
        .find(|portal| !portal.address.ip().is_loopback())
}
