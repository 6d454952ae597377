//! One element as it is reported.

ghost use Rattle.std.specs.Prelude.{◌≡◌, ◌<◌, ◌≤◌, ◌+◌, ◌==◌, length, slice_index_or, Some, None};
ghost use Rattle.tape_medium.specs.Elements.{first_data_transfer};
ghost use Rattle.tape_medium.specs.ElementStatus.{flags_of};
ghost use Rattle.element_map.specs.Runs.{code_of, first_of, tags_of};
ghost use Rattle.element_map.specs.Pages.{reported_at};
ghost use Rattle.element_sources.specs.HostStatus.{data_transfer_code, drive_lun, logical_unit, medium_flags, element_information, reported_source};
ghost use Rattle.element_sources.specs.Reports.{as_reported, IsReportable, HasLimits};

use crate::layout::*;
use crate::sources::ElementSources;
use element_map::{ElementType, Elements};
use tape_medium::{FIRST_DATA_TRANSFER, VolumeTag};

/// An element, and the tag of the volume that it is full with.
#[derive(Clone, Copy)]
pub(crate) struct ReportedElement {
    pub element_type: ElementType,
    pub address: u16,
    pub tag: Option<VolumeTag>,
}

/// The element type code (SMC-3, "READ ELEMENT STATUS command").
pub(crate) fn type_code(element_type: ElementType) -> u8
    ensures { result ≡ code_of element_type }
{
    match element_type {
        ElementType::MediumTransport => 1,
        ElementType::DataTransfer => 4,
        ElementType::ImportExport => 3,
        ElementType::Storage => 2,
    }
}

/// Whether elements of a type have drives.
pub(crate) fn has_drives(element_type: ElementType) -> bool
    ensures { result ≡ (code_of element_type == data_transfer_code) }
{
    match element_type {
        ElementType::DataTransfer => true,
        ElementType::MediumTransport | ElementType::ImportExport | ElementType::Storage => false,
    }
}

/// An element by its number within its type.
pub(crate) fn element_numbered(
    elements: &Elements,
    element_type: ElementType,
    at: usize,
) -> ReportedElement
    requires limits { HasLimits elements.now }
    requires inside { at < length (tags_of elements.now element_type) }
    ensures element { as_reported result ≡ reported_at element_type at (slice_index_or (tags_of elements.now element_type) at None) }
    ensures element_type { result.element_type ≡ element_type }
    ensures reportable { IsReportable result }
{
    let first = element_type.first_address();
    let address = first + at as u16;
    let tag = elements.read(address).unwrap_or(None);
    ReportedElement {
        element_type,
        address,
        tag,
    }
}

impl ReportedElement {
    /// The source of its volume.
    pub(crate) fn source(self, sources: &ElementSources) -> Option<u16>
        ensures { result ≡ reported_source sources.now (as_reported self) }
    {
        match self.tag {
            Some(_) => sources.source(self.address),
            None => None,
        }
    }

    /// The logical unit number of a data transfer element's drive.
    pub(crate) fn drive_lun(self) -> u8
        requires low { first_data_transfer ≤ self.address }
        requires high { self.address < first_data_transfer + 4 }
        ensures { result ≡ drive_lun (as_reported self) }
    {
        (self.address - FIRST_DATA_TRANSFER + 1) as u8
    }

    /// FULL, ACCESS, EXENAB and INENAB.
    fn flags(self) -> u8
        ensures { result ≡ flags_of (as_reported self) }
    {
        let full = if self.tag.is_some() { FULL } else { 0 };
        match self.element_type {
            ElementType::MediumTransport => full,
            ElementType::DataTransfer | ElementType::Storage => full + ACCESS,
            ElementType::ImportExport => full + ACCESS + IMPORTS_AND_EXPORTS,
        }
    }

    /// LU_VALID and LOGICAL UNIT NUMBER.
    fn logical_unit(self) -> u8
        requires { IsReportable self }
        ensures { result ≡ logical_unit (as_reported self) }
    {
        match self.element_type {
            ElementType::DataTransfer => LU_VALID + self.drive_lun(),
            ElementType::MediumTransport | ElementType::ImportExport | ElementType::Storage => 0,
        }
    }

    /// SVALID and MEDIUM TYPE.
    fn medium_flags(self, source: Option<u16>) -> u8
        ensures { result ≡ medium_flags (as_reported self) source }
    {
        let valid = if source.is_some() { SVALID } else { 0 };
        let medium = if self.tag.is_some() { DATA_MEDIUM } else { 0 };
        valid + medium
    }

    /// Its descriptor up to the volume tag information.
    pub(crate) fn information(self, source: Option<u16>) -> [u8; INFORMATION_LENGTH]
        requires { IsReportable self }
        ensures { result ≡ element_information (as_reported self) source }
    {
        let origin = source.unwrap_or(0);
        [
            (self.address / 0x100 % 0x100) as u8,
            (self.address % 0x100) as u8,
            self.flags(),
            0,
            0,
            0,
            self.logical_unit(),
            0,
            0,
            self.medium_flags(source),
            (origin / 0x100 % 0x100) as u8,
            (origin % 0x100) as u8,
        ]
    }
}
