//! What READ ELEMENT STATUS reports.

ghost use Rattle.std.specs.Prelude.{◌≡◌, ◌≤◌, ◌+◌, ◌*◌};
ghost use Rattle.tape_medium.specs.ElementStatus.{reported};
ghost use Rattle.element_sources.specs.Reports.{report_elements, report_number, report_length, report_first, IsReport, IsSmall};

use crate::run::{Run, chosen_run};
use crate::status_request::StatusRequest;
use element_map::{ElementType, Elements};

/// The elements that are reported, of each type.
#[derive(Clone, Copy)]
pub(crate) struct Report {
    pub medium_transport: Run,
    pub data_transfer: Run,
    pub import_export: Run,
    pub storage: Run,
}

/// The elements that are asked for: of a type or of all, from an address on, at most so many.
pub(crate) fn chosen_report(elements: &Elements, request: &StatusRequest) -> Report
    ensures report { report_elements elements.now result ≡ reported elements.now request.now.element_type_code request.now.starting_element_address request.now.number_of_elements }
    ensures inside { IsReport elements.now result }
    ensures few { IsSmall result }
{
    let count = request.number_of_elements as usize;
    let medium_transport = chosen_run(elements, ElementType::MediumTransport, request, count);
    let count = count - medium_transport.count;
    let data_transfer = chosen_run(elements, ElementType::DataTransfer, request, count);
    let count = count - data_transfer.count;
    let import_export = chosen_run(elements, ElementType::ImportExport, request, count);
    let count = count - import_export.count;
    let storage = chosen_run(elements, ElementType::Storage, request, count);
    Report {
        medium_transport,
        data_transfer,
        import_export,
        storage,
    }
}

impl Report {
    /// How many elements are reported.
    pub(crate) fn number(self) -> u16
        requires { IsSmall self }
        ensures { result ≡ report_number self }
    {
        let number = self.medium_transport.count
            + self.data_transfer.count
            + self.import_export.count
            + self.storage.count;
        number as u16
    }

    /// The length of the pages.
    pub(crate) fn length(self, request: &StatusRequest) -> usize
        requires { IsSmall self }
        ensures length { result ≡ report_length request.now.volume_tags request.now.device_identifiers self }
        ensures few { result ≤ 54372 + 34 * self.data_transfer.count }
    {
        let transports = self
            .medium_transport
            .page_length(request, ElementType::MediumTransport);
        let drives = self
            .data_transfer
            .page_length(request, ElementType::DataTransfer);
        let portals = self
            .import_export
            .page_length(request, ElementType::ImportExport);
        let slots = self.storage.page_length(request, ElementType::Storage);
        transports + drives + portals + slots
    }

    /// The address of the first element that is reported, 0 where there is none.
    pub(crate) fn first_address(self) -> u16
        requires { IsSmall self }
        ensures { result ≡ report_first self }
    {
        let first = self.storage.first_address(ElementType::Storage, 0);
        let first = self
            .import_export
            .first_address(ElementType::ImportExport, first);
        let first = self
            .data_transfer
            .first_address(ElementType::DataTransfer, first);
        self.medium_transport
            .first_address(ElementType::MediumTransport, first)
    }
}
