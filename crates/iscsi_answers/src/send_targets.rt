ghost use Rattle.std.specs.Prelude.{◌≡◌, ◌++◌, OnOk};
ghost use Rattle.std.specs.List.{flat_map};
ghost use Rattle.iscsi_keys.specs.Texts.{item_bytes};
ghost use Rattle.iscsi_answers.specs.Texts.{address_item, shown_address, target_items};

use itoa::Buffer;
use std::alloc::AllocError;

/// Where the target is reached, as `ADDRESS:PORT`, and the portal group that it stands for there.
#[derive(Drop)]
pub struct PortalAddress {
    pub address: String,
    pub group: u16,
}

/// What an initiator is told of the target.
#[derive(Clone, Copy)]
pub struct Portals<'a> {
    /// The target's iSCSI name.
    pub name: &'a [u8],
    /// The portal group that the initiator has come to.
    pub group: u16,
    /// The address that its connection came to.
    pub address: &'a [u8],
    pub all: &'a [PortalAddress],
}

/// Adds the target and its portals (RFC 7143, "SendTargets Operation").
#[tactic(auto, unfolding(crate::specs::Texts::target_items))]
pub(crate) fn write_target(out: &mut Vec<u8>, portals: &Portals<'_>) -> Result<(), AllocError>
    ensures { OnOk result (out.new.items ≡ out.old.items ++ target_items portals.now.name.now portals.now.group portals.now.address.now portals.now.all.now) }
{
    write_pair(out, b"TargetName", portals.name)?;
    write_addresses(out, portals)
}

fn write_addresses(out: &mut Vec<u8>, portals: &Portals<'_>) -> Result<(), AllocError>
    ensures { OnOk result (out.new.items ≡ out.old.items ++ flat_map (address_item portals.now.group portals.now.address.now) portals.now.all.now) }
{
    for portal in portals.all {
        write_address(out, portals.group, portals.address, portal)?;
    }
    Ok(())
}

fn write_address(
    out: &mut Vec<u8>,
    group: u16,
    own: &[u8],
    portal: &PortalAddress,
) -> Result<(), AllocError>
    ensures { OnOk result (out.new.items ≡ out.old.items ++ address_item group own.now portal.now) }
{
    let mut buffer = Buffer::new();
    out.extend_from_slice(b"TargetAddress=")?;
    out.extend_from_slice(shown_address(group, own, portal))?;
    out.push(b',')?;
    out.extend_from_slice(buffer.format(portal.group).as_bytes())?;
    out.push(0)?;
    Ok(())
}

/// The address of a portal, and for that of the connection the one that it came to.
fn shown_address<'a>(group: u16, own: &'a [u8], portal: &'a PortalAddress) -> &'a [u8]
    ensures { result.now ≡ shown_address group own.now portal.now }
{
    if portal.group == group {
        own
    } else {
        portal.address.as_bytes()
    }
}

/// Adds a key with its value.
pub(crate) fn write_pair(out: &mut Vec<u8>, key: &[u8], value: &[u8]) -> Result<(), AllocError>
    ensures { OnOk result (out.new.items ≡ out.old.items ++ item_bytes key.now value.now) }
{
    out.extend_from_slice(key)?;
    out.push(b'=')?;
    out.extend_from_slice(value)?;
    out.push(0)?;
    Ok(())
}
