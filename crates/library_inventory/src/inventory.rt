ghost use Rattle.std.specs.Prelude.{◌≡◌, ◌++◌, ◌∷◌, [], OnOk, OnErr, IfErr};
ghost use Rattle.library_inventory.specs.Kept.{AreKept, IsAddable, IsAddFault, IsMissable, IsMissFault};

use crate::among::{is_full, is_named};
use crate::element::LibrarySize;
use crate::fault::AddFault;
use crate::placed::PlacedVolume;
use program_options::LibraryProfile;
use std::alloc::Global;
use std::marker::Model;

/// Looks whether a volume may be added after others.
fn look(
    size: LibrarySize,
    volumes: &[PlacedVolume],
    missing: &[PlacedVolume],
    volume: PlacedVolume,
) -> Result<(), AddFault>
    ensures ok { OnOk result (IsAddable size volumes.now missing.now volume) }
    ensures fault { IfErr result (IsAddFault size volumes.now missing.now volume) }
{
    if !size.has(volume.element) {
        return Err(AddFault::NoElement);
    }
    if is_full(volumes, volume.element) {
        return Err(AddFault::ElementTwice);
    }
    if is_named(volumes, volume.tag) || is_named(missing, volume.tag) {
        return Err(AddFault::TagTwice);
    }
    if !size.takes_source(volume.element, volume.source) {
        return Err(AddFault::BadSource);
    }
    Ok(())
}

/// Looks whether a volume may be added as one that is missing.
fn look_missing(
    size: LibrarySize,
    volumes: &[PlacedVolume],
    missing: &[PlacedVolume],
    volume: PlacedVolume,
) -> Result<(), AddFault>
    ensures ok { OnOk result (IsMissable size volumes.now missing.now volume) }
    ensures fault { IfErr result (IsMissFault size volumes.now missing.now volume) }
{
    if !size.has(volume.element) {
        return Err(AddFault::NoElement);
    }
    if is_named(volumes, volume.tag) || is_named(missing, volume.tag) {
        return Err(AddFault::TagTwice);
    }
    if !size.takes_source(volume.element, volume.source) {
        return Err(AddFault::BadSource);
    }
    Ok(())
}

/// What a library is made of and its profile, where its volumes are, and where those were that are missing: no two have one tag, no two are in
/// one element, and each element is one of the library.
#[derive(Drop)]
pub struct Inventory {
    profile: LibraryProfile,
    size: LibrarySize,
    volumes: Vec<PlacedVolume>,
    missing: Vec<PlacedVolume>,
}

impl Model for Inventory {
    ghost use Rattle.library_inventory.specs.Kept.{InventoryValue, AreKept};

    ghost Value = { InventoryValue };

    ghost view = { λ inventory. record { profile = inventory.profile; size = inventory.size; volumes = inventory.volumes.items; missing = inventory.missing.items } };

    ghost invariant = { λ inventory. AreKept inventory.size inventory.volumes.items inventory.missing.items };
}

impl Inventory {
    /// Of a library in which no volume is.
    pub fn new(alloc: Global, profile: LibraryProfile, size: LibrarySize) -> Inventory
        ensures { result ≡ record { profile = profile; size = size; volumes = []; missing = [] } }
    {
        Inventory {
            profile,
            size,
            volumes: Vec::new(alloc),
            missing: Vec::new(alloc),
        }
    }

    pub fn profile(&self) -> LibraryProfile
        ensures { result ≡ self.now.profile }
    {
        self.profile
    }

    pub fn size(&self) -> LibrarySize
        ensures { result ≡ self.now.size }
    {
        self.size
    }

    /// The volumes, in the order in which they were added.
    pub fn volumes(&self) -> &[PlacedVolume]
        ensures value { result.now ≡ self.now.volumes }
        ensures kept { AreKept self.now.size self.now.volumes self.now.missing }
    {
        &self.volumes
    }

    /// The volumes that are missing, each with the element in which it was, in the order in which they were added.
    pub fn missing(&self) -> &[PlacedVolume]
        ensures value { result.now ≡ self.now.missing }
        ensures kept { AreKept self.now.size self.now.volumes self.now.missing }
    {
        &self.missing
    }

    /// Adds a volume after the others; where it is refused nothing changes.
    pub fn add(&mut self, volume: PlacedVolume) -> Result<(), AddFault>
        ensures ok { OnOk result (self.new ≡ record { profile = self.old.profile; size = self.old.size; volumes = self.old.volumes ++ volume ∷ []; missing = self.old.missing }) }
        ensures fault { IfErr result (IsAddFault self.old.size self.old.volumes self.old.missing volume) }
        ensures err { OnErr result (self.new ≡ self.old) }
    {
        look(self.size, &self.volumes, &self.missing, volume)?;
        self.volumes.push(volume)?;
        Ok(())
    }

    /// Adds a volume that is missing, with the element in which it was, after the others that are; where it is refused nothing changes.
    pub fn add_missing(&mut self, volume: PlacedVolume) -> Result<(), AddFault>
        ensures ok { OnOk result (self.new ≡ record { profile = self.old.profile; size = self.old.size; volumes = self.old.volumes; missing = self.old.missing ++ volume ∷ [] }) }
        ensures fault { IfErr result (IsMissFault self.old.size self.old.volumes self.old.missing volume) }
        ensures err { OnErr result (self.new ≡ self.old) }
    {
        look_missing(self.size, &self.volumes, &self.missing, volume)?;
        self.missing.push(volume)?;
        Ok(())
    }
}
