//! The map.

ghost use Rattle.std.specs.Prelude.{◌≡◌, ◌≤◌, length, None, unwrap_or, Ok, Err, OnOk, OnErr, IfOk, IfErr};
ghost use Rattle.std.specs.Option.{option_map};
ghost use Rattle.tape_medium.specs.Elements.{empty_elements, element_at, held_in, reads, takes, puts, notes};
ghost use Rattle.tape_medium.specs.Settling.{settles};
ghost use Rattle.element_map.specs.Limits.{drive_limit, portal_limit, slot_limit, limit_of};
ghost use Rattle.element_map.specs.Runs.{count_of};

use crate::address::Element;
use crate::element_type::ElementType;
use crate::place::{empty_places, put_in, settle_in, tag_of, take_out};
use std::alloc::{AllocError, Global};
use std::marker::Model;
use tape_medium::{MapFault, Volume, VolumeTag};

/// The elements of a medium changer and what each holds (SMC-3, "MOVE MEDIUM command"). The medium transport
/// element is always empty (profile).
#[derive(Drop)]
pub struct Elements {
    /// The tag of the volume in the drive of each data transfer element.
    pub(crate) data_transfer: Vec<Option<VolumeTag>>,
    /// The volume in each import/export element.
    pub(crate) import_export: Vec<Option<Volume>>,
    /// The volume in each storage element.
    pub(crate) storage: Vec<Option<Volume>>,
}

impl Model for Elements {
    ghost use Rattle.tape_medium.specs.Elements.{Elements};
    ghost use Rattle.element_map.specs.Limits.{IsWithinLimits};

    ghost Value = { Elements };

    ghost view = { λ e. record {
      data_transfer = e.data_transfer.items;
      import_export = e.import_export.items;
      storage = e.storage.items;
    } };

    ghost invariant = { λ e. IsWithinLimits e.data_transfer.items e.import_export.items e.storage.items };
}

impl Elements {
    /// So many data transfer, storage and import/export elements, all empty.
    pub fn new(
        alloc: Global,
        drives: u16,
        slots: u16,
        import_exports: u16,
    ) -> Result<Elements, AllocError>
        requires some_drive { 1 ≤ drives }
        requires drives { drives ≤ drive_limit }
        requires some_slot { 1 ≤ slots }
        requires slots { slots ≤ slot_limit }
        requires import_exports { import_exports ≤ portal_limit }
        ensures { IfOk result (λ e. e ≡ empty_elements drives import_exports slots) }
    {
        Ok(Elements {
            data_transfer: empty_places(alloc, drives as usize)?,
            import_export: empty_places(alloc, import_exports as usize)?,
            storage: empty_places(alloc, slots as usize)?,
        })
    }

    /// How many data transfer elements there are.
    pub fn drives(&self) -> u16
        ensures { result ≡ length self.now.data_transfer }
    {
        self.data_transfer.len() as u16
    }

    /// How many elements of a type there are, from `ElementType::first_address` on. There is one medium transport element.
    pub fn count(&self, element_type: ElementType) -> u16
        ensures number { result ≡ count_of self.now element_type }
        ensures within { result ≤ limit_of element_type }
        ensures few { result ≤ slot_limit }
    {
        match element_type {
            ElementType::MediumTransport => 1,
            ElementType::DataTransfer => self.drives(),
            ElementType::ImportExport => self.import_export.len() as u16,
            ElementType::Storage => self.storage.len() as u16,
        }
    }

    /// The tag of the volume in an element. `BadAddress` where no element has the address.
    pub fn read(&self, address: u16) -> Result<Option<VolumeTag>, MapFault>
        ensures { result ≡ reads self.now address }
    {
        match self.element(address) {
            Element::Transport => Ok(None),
            Element::DataTransfer(i) => Ok(self.data_transfer[i]),
            Element::ImportExport(i) => Ok(tag_of(&self.import_export[i])),
            Element::Storage(i) => Ok(tag_of(&self.storage[i])),
            Element::Nowhere => Err(MapFault::BadAddress),
        }
    }

    /// Takes the volume out of a storage or import/export element. `BadAddress` where the address is of no such
    /// element, `SourceEmpty` where there is no volume; the map is then as it was.
    pub fn take(&mut self, address: u16) -> Result<Volume, MapFault>
        ensures ok { IfOk result (λ volume. takes self.old address ≡ Ok (self.new, volume)) }
        ensures fault { IfErr result (λ fault. takes self.old address ≡ Err fault) }
        ensures err { OnErr result (self.new ≡ self.old) }
    {
        match self.element(address) {
            Element::ImportExport(i) => take_out(&mut self.import_export[i]),
            Element::Storage(i) => take_out(&mut self.storage[i]),
            Element::Transport | Element::DataTransfer(_) | Element::Nowhere => {
                Err(MapFault::BadAddress)
            }
        }
    }

    /// Puts a volume into a storage or import/export element. `BadAddress` where the address is of no such element,
    /// `DestinationFull` where there is a volume; the volume is then handed back and the map is as it was.
    pub fn put(&mut self, address: u16, volume: Volume) -> Result<(), (Volume, MapFault)>
        ensures ok { OnOk result (puts self.old address volume ≡ Ok self.new) }
        ensures fault { IfErr result (λ refused. puts self.old address volume ≡ Err refused.1) }
        ensures volume { IfErr result (λ refused. refused.0 ≡ volume) }
        ensures err { OnErr result (self.new ≡ self.old) }
    {
        match self.element(address) {
            Element::ImportExport(i) => put_in(&mut self.import_export[i], volume),
            Element::Storage(i) => put_in(&mut self.storage[i], volume),
            Element::Transport | Element::DataTransfer(_) | Element::Nowhere => {
                Err((volume, MapFault::BadAddress))
            }
        }
    }

    /// The volume in a storage or import/export element; no other element holds one.
    pub fn volume(&self, address: u16) -> Option<&Volume>
        ensures { option_map (λ volume. volume.now) result ≡ unwrap_or (held_in self.now (element_at self.now address)) None }
    {
        match self.element(address) {
            Element::ImportExport(i) => self.import_export[i].as_ref(),
            Element::Storage(i) => self.storage[i].as_ref(),
            Element::Transport | Element::DataTransfer(_) | Element::Nowhere => None,
        }
    }

    /// From now on the first `objects` objects of the volume in a storage or import/export element count as unchanged, or all
    /// where it has fewer. Without one nothing changes.
    pub fn settle(&mut self, address: u16, objects: u32)
        ensures { self.new ≡ settles self.old address objects }
    {
        match self.element(address) {
            Element::ImportExport(i) => settle_in(&mut self.import_export[i], objects),
            Element::Storage(i) => settle_in(&mut self.storage[i], objects),
            Element::Transport | Element::DataTransfer(_) | Element::Nowhere => {}
        }
    }

    /// Notes at a data transfer element the tag of the volume in its drive, or that there is none. `BadAddress` where
    /// the address is of no such element; the map is then as it was.
    pub fn mark(&mut self, address: u16, tag: Option<VolumeTag>) -> Result<(), MapFault>
        ensures ok { OnOk result (notes self.old address tag ≡ Ok self.new) }
        ensures fault { IfErr result (λ fault. notes self.old address tag ≡ Err fault) }
        ensures err { OnErr result (self.new ≡ self.old) }
    {
        match self.element(address) {
            Element::DataTransfer(i) => {
                self.data_transfer[i] = tag;
                Ok(())
            }
            Element::Transport
            | Element::ImportExport(_)
            | Element::Storage(_)
            | Element::Nowhere => Err(MapFault::BadAddress),
        }
    }
}
