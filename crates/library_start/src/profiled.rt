//! The devices of a library by its profile.

ghost use Rattle.std.specs.Prelude.{◌≡◌, IfOk};
ghost use Rattle.library_start.specs.Profiles.{address_in, changer_with, drive_at, hosts_with, sourced, sources_at_start};
ghost use Rattle.library_start.specs.Sizes.{IsMade};

use crate::start::StartedVolume;
use changer_server::Changer;
use device_server::HostChanger;
use element_map::Elements;
use element_sources::ElementSources;
use inquiry_data::UnitIdentity;
use library_inventory::{Element, LibrarySize};
use program_options::LibraryProfile;
use std::alloc::{AllocError, Global};
use tape_server::TapeDrive;

/// The logical unit number of a changer.
const CHANGER_LUN: u8 = 0;

/// The drive that is a logical unit, empty.
pub(crate) fn drive_at(profile: LibraryProfile, lun: u8) -> TapeDrive
    ensures { result ≡ drive_at profile lun }
{
    match profile {
        LibraryProfile::Spec => TapeDrive::new(),
        LibraryProfile::Hosts(library_number) => TapeDrive::for_hosts(UnitIdentity {
            library_number,
            lun,
        }),
    }
}

/// What the changer of a library keeps besides its elements, in which these volumes lie at the start.
pub(crate) fn hosts_at_start(
    alloc: Global,
    profile: LibraryProfile,
    size: LibrarySize,
    volumes: &[StartedVolume],
) -> Result<Option<HostChanger>, AllocError>
    requires { IsMade size }
    ensures { IfOk result (λ hosts. hosts ≡ hosts_with profile (sources_at_start size volumes.now)) }
{
    match profile {
        LibraryProfile::Spec => Ok(None),
        LibraryProfile::Hosts(library_number) => Ok(Some(HostChanger {
            identity: UnitIdentity {
                library_number,
                lun: CHANGER_LUN,
            },
            sources: sources_at_start(alloc, size, volumes)?,
        })),
    }
}

/// A changer with its elements, and with what it keeps besides.
pub(crate) fn changer_over(elements: Elements, hosts: Option<HostChanger>) -> Changer
    ensures { result ≡ record { elements = elements; hosts = hosts } }
{
    match hosts {
        Some(hosts) => Changer::for_hosts(elements, hosts),
        None => Changer::new(elements),
    }
}

/// From where volumes came before the start.
fn sources_at_start(
    alloc: Global,
    size: LibrarySize,
    volumes: &[StartedVolume],
) -> Result<ElementSources, AllocError>
    requires { IsMade size }
    ensures { IfOk result (λ sources. sources ≡ sources_at_start size volumes.now) }
{
    let mut sources = ElementSources::new(
        alloc,
        u16::from(size.drives),
        size.slots,
        u16::from(size.import_exports),
    )?;
    'volumes: for started in volumes {
        note_source(&mut sources, started);
    }
    Ok(sources)
}

/// Notes from where a volume came, if that is known.
fn note_source(sources: &mut ElementSources, started: &StartedVolume)
    ensures { sources.new ≡ sourced sources.old started.now }
{
    if let (Some(address), Some(source)) = (started.element.address(), address_in(started.source)) {
        sources.know_source(address, source);
    }
}

/// The address of a source, if there is one.
fn address_in(source: Option<Element>) -> Option<u16>
    ensures { result ≡ address_in source }
{
    source?.address()
}
