//! Consecutive elements of one type.

ghost use Rattle.std.specs.Prelude.{◌≡◌, ◌<◌, ◌≤◌, ◌+◌, length, slice_index_or, None};
ghost use Rattle.element_map.specs.Limits.{limit_of};
ghost use Rattle.element_map.specs.Runs.{tags_of, from_address, count_from, page_length, first_in, IsRun};
ghost use Rattle.tape_medium.specs.ElementStatus.{descriptor_length};

use crate::element_type::ElementType;
use crate::elements::Elements;
use crate::layout::{ALL_TYPES, DESCRIPTOR_LENGTH, PAGE_HEADER_LENGTH, TAG_INFORMATION_LENGTH};
use crate::place::tag_of;
use tape_medium::VolumeTag;

/// Elements of one type, by the number of the first and how many they are.
#[derive(Clone, Copy)]
pub(crate) struct Run {
    pub from: usize,
    pub count: usize,
}

/// The length of a descriptor.
pub(crate) fn descriptor_length(voltag: bool) -> usize
    ensures { result ≡ descriptor_length voltag }
{
    if voltag {
        DESCRIPTOR_LENGTH + TAG_INFORMATION_LENGTH
    } else {
        DESCRIPTOR_LENGTH
    }
}

impl Run {
    /// The length of the page with the run's descriptors, 0 where there is none.
    pub(crate) fn page_length(self, voltag: bool) -> usize
        requires { self.count ≤ 1024 }
        ensures { result ≡ page_length voltag self.count }
    {
        if self.count == 0 {
            0
        } else {
            PAGE_HEADER_LENGTH + self.count * descriptor_length(voltag)
        }
    }

    /// The address of the first element of the run, or else `other`.
    pub(crate) fn first_address(self, element_type: ElementType, other: u16) -> u16
        requires { self.from + self.count ≤ 1024 }
        ensures { result ≡ first_in element_type self other }
    {
        if self.count == 0 {
            other
        } else {
            element_type.first_address() + self.from as u16
        }
    }
}

impl Elements {
    /// How many elements of a type there are, a tag for each.
    fn number_of(&self, element_type: ElementType) -> usize
        ensures number { result ≡ length (tags_of self.now element_type) }
        ensures within { result ≤ limit_of element_type }
        ensures few { result ≤ 1024 }
    {
        usize::from(self.count(element_type))
    }

    /// The tag of the volume in an element.
    pub(crate) fn tag_at(&self, element_type: ElementType, at: usize) -> Option<VolumeTag>
        requires { at < length (tags_of self.now element_type) }
        ensures { result ≡ slice_index_or (tags_of self.now element_type) at None }
    {
        match element_type {
            ElementType::MediumTransport => None,
            ElementType::DataTransfer => self.data_transfer[at],
            ElementType::ImportExport => tag_of(&self.import_export[at]),
            ElementType::Storage => tag_of(&self.storage[at]),
        }
    }

    /// The elements of a type that are reported: those from an address on where the type is asked for, at most
    /// `count`.
    pub(crate) fn run(
        &self,
        element_type: ElementType,
        type_code: u8,
        start: u16,
        count: usize,
    ) -> Run
        ensures count { result.count ≡ count_from type_code element_type (length (tags_of self.now element_type)) start count }
        ensures from { result.from ≡ from_address element_type (length (tags_of self.now element_type)) start }
        ensures inside { IsRun self.now element_type result }
        ensures within { result.from + result.count ≤ limit_of element_type }
    {
        let number = self.number_of(element_type);
        let from = start.saturating_sub(element_type.first_address()) as usize;
        let from = from.min(number);
        if type_code == ALL_TYPES || element_type.code() == type_code {
            Run {
                from,
                count: count.min(number - from),
            }
        } else {
            Run { from, count: 0 }
        }
    }
}
