//! The exchange of volumes (SMC-3, "EXCHANGE MEDIUM command").

ghost use Rattle.std.specs.Prelude.{◌≡◌, Ok, IsOk};
ghost use Rattle.element_map.specs.Exchange.{is_drives, are_two_drives, is_exchange, has_drive, fullness, exchange_refusal, exchanges};

use crate::address::place_among;
use crate::elements::Elements;
use tape_medium::{FIRST_DATA_TRANSFER, MapFault, TRANSPORT};

impl Elements {
    /// The volume at the first destination goes to the second, and the one at the source to the first, each a storage or import/export
    /// element.
    pub fn exchange_volumes(&mut self, source: u16, first: u16, second: u16)
        requires { IsOk (exchanges self.old source first second) }
        ensures { exchanges self.old source first second ≡ Ok self.new }
    {
        let (Ok(one), Ok(other)) = (self.take(source), self.take(first)) else {
            unreachable!()
        };
        let (Ok(()), Ok(())) = (self.put(first, one), self.put(second, other)) else {
            unreachable!()
        };
    }

    /// Why an EXCHANGE MEDIUM between any elements but the transport is refused, as far as the map and the tags tell: `BadAddress` where
    /// the transport isn't element 0, an address names no element that can hold a volume, two are those of different drives, or the first
    /// destination is the source or the second destination; `SourceEmpty` where there is no volume at the source or at the first
    /// destination; `DestinationFull` where there is one at the second destination, unless that is the source (SMC-3, "EXCHANGE MEDIUM
    /// command"; the order, and one drive at most: profile).
    pub fn exchange_refusal(
        &self,
        transport: u16,
        source: u16,
        first: u16,
        second: u16,
    ) -> Option<MapFault>
        ensures { result ≡ exchange_refusal self.now transport source first second }
    {
        if transport != TRANSPORT || !self.is_exchange(source, first, second) {
            return Some(MapFault::BadAddress);
        }
        let fullness = (
            self.fullness(source),
            self.fullness(first),
            self.fullness(second),
        );
        match fullness {
            (None, _, _) | (Some(_), None, _) | (Some(_), Some(_), None) => {
                Some(MapFault::BadAddress)
            }
            (Some(false), Some(_), Some(_)) | (Some(true), Some(false), Some(_)) => {
                Some(MapFault::SourceEmpty)
            }
            (Some(true), Some(true), Some(false)) => None,
            (Some(true), Some(true), Some(true)) => {
                if source == second {
                    None
                } else {
                    Some(MapFault::DestinationFull)
                }
            }
        }
    }

    /// Whether an exchange may go between these elements.
    fn is_exchange(&self, source: u16, first: u16, second: u16) -> bool
        ensures { result ≡ is_exchange self.now source first second }
    {
        source != first
            && first != second
            && !(self.are_two_drives(source, first)
                || self.are_two_drives(first, second)
                || self.are_two_drives(source, second))
    }

    /// Whether two addresses are those of different drives' elements.
    fn are_two_drives(&self, address: u16, other: u16) -> bool
        ensures { result ≡ are_two_drives self.now address other }
    {
        self.is_drives(address) && self.is_drives(other) && address != other
    }

    /// Whether one of three addresses is that of a drive's element.
    pub fn has_drive(&self, source: u16, first: u16, second: u16) -> bool
        ensures { result ≡ has_drive self.now source first second }
    {
        self.is_drives(source) || self.is_drives(first) || self.is_drives(second)
    }

    /// Whether an address is that of a drive's element.
    fn is_drives(&self, address: u16) -> bool
        ensures { result ≡ is_drives self.now address }
    {
        place_among(FIRST_DATA_TRANSFER, self.data_transfer.len(), address).is_some()
    }

    /// Whether an element is full as far as tags tell, if it can hold a volume.
    fn fullness(&self, address: u16) -> Option<bool>
        ensures { result ≡ fullness self.now address }
    {
        Some(self.tag_held(address)?.is_some())
    }
}
