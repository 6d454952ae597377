//! Moves from element to element.

ghost use Rattle.std.specs.Prelude.{◌≡◌, is_some, option_map, Ok, Err, OnOk, OnErr, IfErr};
ghost use Rattle.tape_medium.specs.Elements.{element_at, held_in, tag_held, refusal, moves, move_refusal};

use crate::address::Element;
use crate::elements::Elements;
use crate::place::tag_of;
use tape_medium::{MapFault, TRANSPORT, VolumeTag};

impl Elements {
    /// Moves a volume from one storage or import/export element to another (SMC-3, "MOVE MEDIUM command").
    /// `BadAddress` where either address is of no such element, `SourceEmpty` where there is no volume to move,
    /// `DestinationFull` where there is one at the destination, also where it is the source itself (profile). A
    /// refusal leaves the map as it was.
    pub fn move_volume(&mut self, source: u16, destination: u16) -> Result<(), MapFault>
        ensures ok { OnOk result (moves self.old source destination ≡ Ok self.new) }
        ensures fault { IfErr result (λ fault. moves self.old source destination ≡ Err fault) }
        ensures err { OnErr result (self.new ≡ self.old) }
    {
        match (self.is_full(source), self.is_full(destination)) {
            (None, _) | (_, None) => return Err(MapFault::BadAddress),
            (Some(false), Some(_)) => return Err(MapFault::SourceEmpty),
            (Some(true), Some(true)) => return Err(MapFault::DestinationFull),
            (Some(true), Some(false)) => {}
        }
        let volume = self.take(source)?;
        match self.put(destination, volume) {
            Ok(()) => Ok(()),
            Err(_) => unreachable!(),
        }
    }

    /// Why a MOVE MEDIUM between any elements but the transport is refused, as far as the map and the tags tell:
    /// `BadAddress` where the transport isn't element 0 or either address names no element that can hold a volume,
    /// `SourceEmpty`, then `DestinationFull` (SMC-3, "MOVE MEDIUM command"; the order is profile).
    pub fn move_refusal(&self, transport: u16, source: u16, destination: u16) -> Option<MapFault>
        ensures { result ≡ move_refusal self.now transport source destination }
    {
        if transport != TRANSPORT {
            return Some(MapFault::BadAddress);
        }
        match (self.tag_held(source), self.tag_held(destination)) {
            (None, _) | (_, None) => Some(MapFault::BadAddress),
            (Some(None), Some(_)) => Some(MapFault::SourceEmpty),
            (Some(Some(_)), Some(Some(_))) => Some(MapFault::DestinationFull),
            (Some(Some(_)), Some(None)) => None,
        }
    }

    /// Whether an address is that of an element that can hold a volume: a data transfer, import/export or storage element.
    pub fn can_hold(&self, address: u16) -> bool
        ensures { result ≡ is_some (tag_held self.now (element_at self.now address)) }
    {
        self.tag_held(address).is_some()
    }

    /// Whether there is a volume in a storage or import/export element, none for any other address.
    fn is_full(&self, address: u16) -> Option<bool>
        ensures { result ≡ option_map is_some (held_in self.now (element_at self.now address)) }
    {
        match self.element(address) {
            Element::ImportExport(i) => Some(self.import_export[i].is_some()),
            Element::Storage(i) => Some(self.storage[i].is_some()),
            Element::Transport | Element::DataTransfer(_) | Element::Nowhere => None,
        }
    }

    /// The tag that an element but the transport is known to hold.
    pub(crate) fn tag_held(&self, address: u16) -> Option<Option<VolumeTag>>
        ensures { result ≡ tag_held self.now (element_at self.now address) }
    {
        match self.element(address) {
            Element::DataTransfer(i) => Some(self.data_transfer[i]),
            Element::ImportExport(i) => Some(tag_of(&self.import_export[i])),
            Element::Storage(i) => Some(tag_of(&self.storage[i])),
            Element::Transport | Element::Nowhere => None,
        }
    }
}
