//! What READ ELEMENT STATUS reports.

ghost use Rattle.std.specs.Prelude.{◌≡◌, ◌≤◌};
ghost use Rattle.tape_medium.specs.ElementStatus.{reported};
ghost use Rattle.element_map.specs.Runs.{in_report, number_in, length_in, first_of_report, IsReport, IsSmall};

use crate::element_type::ElementType;
use crate::elements::Elements;
use crate::run::Run;

/// The elements that are reported, of each type.
#[derive(Clone, Copy)]
pub(crate) struct Report {
    pub medium_transport: Run,
    pub data_transfer: Run,
    pub import_export: Run,
    pub storage: Run,
}

impl Elements {
    /// The elements of the type that is asked for, all types at 0, from an address on, at most `count`.
    pub(crate) fn report(&self, type_code: u8, start: u16, count: u16) -> Report
        ensures report { in_report self.now result ≡ reported self.now type_code start count }
        ensures inside { IsReport self.now result }
        ensures few { IsSmall result }
    {
        let count = count as usize;
        let medium_transport = self.run(ElementType::MediumTransport, type_code, start, count);
        let count = count - medium_transport.count;
        let data_transfer = self.run(ElementType::DataTransfer, type_code, start, count);
        let count = count - data_transfer.count;
        let import_export = self.run(ElementType::ImportExport, type_code, start, count);
        let count = count - import_export.count;
        let storage = self.run(ElementType::Storage, type_code, start, count);
        Report {
            medium_transport,
            data_transfer,
            import_export,
            storage,
        }
    }
}

impl Report {
    /// How many elements are reported.
    pub(crate) fn number(self) -> u16
        requires { IsSmall self }
        ensures { result ≡ number_in self }
    {
        let number = self.medium_transport.count
            + self.data_transfer.count
            + self.import_export.count
            + self.storage.count;
        number as u16
    }

    /// The length of the pages.
    pub(crate) fn length(self, voltag: bool) -> usize
        requires { IsSmall self }
        ensures length { result ≡ length_in voltag self }
        ensures few { result ≤ 54372 }
    {
        self.medium_transport.page_length(voltag)
            + self.data_transfer.page_length(voltag)
            + self.import_export.page_length(voltag)
            + self.storage.page_length(voltag)
    }

    /// The address of the first element that is reported, 0 where there is none.
    pub(crate) fn first_address(self) -> u16
        requires { IsSmall self }
        ensures { result ≡ first_of_report self }
    {
        let first = self.storage.first_address(ElementType::Storage, 0);
        let first = self
            .import_export
            .first_address(ElementType::ImportExport, first);
        let first = self
            .data_transfer
            .first_address(ElementType::DataTransfer, first);
        self.medium_transport
            .first_address(ElementType::MediumTransport, first)
    }
}
