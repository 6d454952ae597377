//! From where the volume of each element came.

ghost use Rattle.std.specs.Prelude.{◌≡◌, ◌≤◌, IfOk, IfSome, Some, None, replicate};
ghost use Rattle.element_map.specs.Limits.{drive_limit, portal_limit, slot_limit};
ghost use Rattle.element_sources.specs.Sources.{none_known, place_at, IsPlace, source_at, source_at_place, last_outside, source_known, source_set, source_moved, source_exchanged};

use crate::place::{Place, number_among};
use std::alloc::{AllocError, Global};
use std::marker::Model;
use tape_medium::{FIRST_DATA_TRANSFER, FIRST_IMPORT_EXPORT, FIRST_STORAGE};

/// Of each data transfer, import/export and storage element the address of the element where its volume was last outside a drive, where
/// that is known (SMC-3, "READ ELEMENT STATUS command": SOURCE STORAGE ELEMENT ADDRESS, here of import/export elements too (profile)).
#[derive(Drop)]
pub struct ElementSources {
    data_transfer: Vec<Option<u16>>,
    import_export: Vec<Option<u16>>,
    storage: Vec<Option<u16>>,
}

impl Model for ElementSources {
    ghost use Rattle.element_sources.specs.Sources.{Sources, IsWithinLimits};

    ghost Value = { Sources };

    ghost view = { λ s. record {
      data_transfer = s.data_transfer.items;
      import_export = s.import_export.items;
      storage = s.storage.items;
    } };

    ghost invariant = { λ s. IsWithinLimits s.data_transfer.items s.import_export.items s.storage.items };
}

impl ElementSources {
    /// Of so many data transfer, storage and import/export elements, no source known.
    pub fn new(
        alloc: Global,
        drives: u16,
        slots: u16,
        import_exports: u16,
    ) -> Result<ElementSources, AllocError>
        requires drives { drives ≤ drive_limit }
        requires slots { slots ≤ slot_limit }
        requires import_exports { import_exports ≤ portal_limit }
        ensures { IfOk result (λ s. s ≡ none_known drives import_exports slots) }
    {
        Ok(ElementSources {
            data_transfer: no_sources(alloc, drives)?,
            import_export: no_sources(alloc, import_exports)?,
            storage: no_sources(alloc, slots)?,
        })
    }

    /// The source of the volume in an element; none where it isn't known, or where no such element has the address.
    pub fn source(&self, address: u16) -> Option<u16>
        ensures { result ≡ source_at self.now address }
    {
        self.source_at_place(self.place(address)?)
    }

    /// Notes from where the volume in an element came before the start, as far as that is kept. Where the address names none of the elements,
    /// nothing changes.
    pub fn know_source(&mut self, address: u16, source: u16)
        ensures { self.new ≡ source_known self.old address source }
    {
        if let Some(place) = self.place(address) {
            self.set_source(place, Some(source));
        }
    }

    /// Notes a MOVE MEDIUM that was done. The source of the volume at its destination is the element that it comes from, or where that is a
    /// drive what was known there; the element that it comes from has none then. Where an address names none of the elements, nothing
    /// changes.
    pub fn note_move(&mut self, source: u16, destination: u16)
        ensures { self.new ≡ source_moved self.old source destination }
    {
        if let (Some(from), Some(to)) = (self.place(source), self.place(destination)) {
            let origin = self.last_outside(source, from);
            self.set_source(from, None);
            self.set_source(to, origin);
        }
    }

    /// Notes an EXCHANGE MEDIUM that was done, by which the volume at the first destination went to the second, and the one at the source to
    /// the first. Each has the source that `note_move` gives it, by what was known before; the source element has none then, unless it is
    /// the second destination. Where an address names none of the elements, nothing changes.
    pub fn note_exchange(&mut self, source: u16, first: u16, second: u16)
        ensures { self.new ≡ source_exchanged self.old source first second }
    {
        let (Some(from), Some(between), Some(to)) = (
            self.place(source),
            self.place(first),
            self.place(second),
        ) else {
            return;
        };
        let one = self.last_outside(source, from);
        let other = self.last_outside(first, between);
        self.set_source(from, None);
        self.set_source(between, one);
        self.set_source(to, other);
    }

    /// Where the volume at an element with an address was last outside a drive, where that is known.
    fn last_outside(&self, address: u16, place: Place) -> Option<u16>
        requires { IsPlace self.now place }
        ensures { result ≡ last_outside self.now address place }
    {
        match place {
            Place::DataTransfer(_) => self.source_at_place(place),
            Place::ImportExport(_) | Place::Storage(_) => Some(address),
        }
    }

    /// The element with an address.
    fn place(&self, address: u16) -> Option<Place>
        ensures place { result ≡ place_at self.now address }
        ensures within { IfSome result (λ place. IsPlace self.now place) }
    {
        if let Some(i) = number_among(FIRST_DATA_TRANSFER, self.data_transfer.len(), address) {
            return Some(Place::DataTransfer(i));
        }
        if let Some(i) = number_among(FIRST_IMPORT_EXPORT, self.import_export.len(), address) {
            return Some(Place::ImportExport(i));
        }
        if let Some(i) = number_among(FIRST_STORAGE, self.storage.len(), address) {
            return Some(Place::Storage(i));
        }
        None
    }

    /// The source at an element.
    fn source_at_place(&self, place: Place) -> Option<u16>
        requires { IsPlace self.now place }
        ensures { result ≡ source_at_place self.now place }
    {
        match place {
            Place::DataTransfer(i) => self.data_transfer[i],
            Place::ImportExport(i) => self.import_export[i],
            Place::Storage(i) => self.storage[i],
        }
    }

    /// Keeps a source at an element.
    fn set_source(&mut self, place: Place, source: Option<u16>)
        requires { IsPlace self.old place }
        ensures { self.new ≡ source_set self.old place source }
    {
        match place {
            Place::DataTransfer(i) => self.data_transfer[i] = source,
            Place::ImportExport(i) => self.import_export[i] = source,
            Place::Storage(i) => self.storage[i] = source,
        }
    }
}

/// No source of so many elements.
fn no_sources(alloc: Global, count: u16) -> Result<Vec<Option<u16>>, AllocError>
    ensures { IfOk result (λ sources. sources.items ≡ replicate count None) }
{
    let mut sources = Vec::with_capacity(alloc, usize::from(count))?;
    for _ in 0..count {
        sources.push(None)?;
    }
    Ok(sources)
}
