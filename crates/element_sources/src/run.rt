//! Consecutive elements of one type.

ghost use Rattle.std.specs.Prelude.{◌≡◌, ◌≤◌, ◌+◌, length};
ghost use Rattle.element_map.specs.Limits.{limit_of};
ghost use Rattle.element_map.specs.Runs.{code_of, count_of, tags_of, from_address, count_from};
ghost use Rattle.element_sources.specs.HostStatus.{host_descriptor_length};
ghost use Rattle.element_sources.specs.Reports.{IsRun, page_length, first_in};

use crate::layout::*;
use crate::reported_element::{has_drives, type_code};
use crate::status_request::StatusRequest;
use element_map::{ElementType, Elements};
use inquiry_data::DEVICE_IDENTIFIER_LENGTH;

/// Elements of one type, by the number of the first and how many they are.
#[derive(Clone, Copy)]
pub(crate) struct Run {
    pub from: usize,
    pub count: usize,
}

/// What a page shows: a run of elements of a type.
#[derive(Clone, Copy)]
pub(crate) struct Page {
    pub element_type: ElementType,
    pub run: Run,
}

/// The length of a descriptor of an element of a type.
pub(crate) fn host_descriptor_length(request: &StatusRequest, element_type: ElementType) -> usize
    ensures length { result ≡ host_descriptor_length request.now.volume_tags request.now.device_identifiers (code_of element_type) }
    ensures few { result ≤ 86 }
{
    let tag = if request.volume_tags {
        TAG_INFORMATION_LENGTH
    } else {
        0
    };
    let identifier = if request.device_identifiers && has_drives(element_type) {
        DEVICE_IDENTIFIER_LENGTH
    } else {
        RESERVED_LENGTH
    };
    INFORMATION_LENGTH + tag + identifier
}

/// The elements of a type that are reported: those from the starting address on where the type is asked for, at most `count`.
pub(crate) fn chosen_run(
    elements: &Elements,
    element_type: ElementType,
    request: &StatusRequest,
    count: usize,
) -> Run
    ensures count { result.count ≡ count_from request.now.element_type_code element_type (length (tags_of elements.now element_type)) request.now.starting_element_address count }
    ensures from { result.from ≡ from_address element_type (length (tags_of elements.now element_type)) request.now.starting_element_address }
    ensures inside { IsRun elements.now element_type result }
    ensures within { result.from + result.count ≤ count_of elements.now element_type }
    ensures limit { count_of elements.now element_type ≤ limit_of element_type }
{
    let number = usize::from(elements.count(element_type));
    let skipped = request
        .starting_element_address
        .saturating_sub(element_type.first_address());
    let from = (skipped as usize).min(number);
    let code = request.element_type_code;
    if code == ALL_TYPES || type_code(element_type) == code {
        Run {
            from,
            count: count.min(number - from),
        }
    } else {
        Run { from, count: 0 }
    }
}

impl Run {
    /// The length of the page with the run's descriptors, 0 where there is none.
    pub(crate) fn page_length(self, request: &StatusRequest, element_type: ElementType) -> usize
        requires { self.count ≤ 1024 }
        ensures { result ≡ page_length request.now.volume_tags request.now.device_identifiers element_type self.count }
    {
        if self.count == 0 {
            0
        } else {
            PAGE_HEADER_LENGTH + self.count * host_descriptor_length(request, element_type)
        }
    }

    /// The address of the first element of the run, or else `other`.
    pub(crate) fn first_address(self, element_type: ElementType, other: u16) -> u16
        requires { self.from + self.count ≤ 1024 }
        ensures { result ≡ first_in element_type self other }
    {
        if self.count == 0 {
            other
        } else {
            element_type.first_address() + self.from as u16
        }
    }
}
