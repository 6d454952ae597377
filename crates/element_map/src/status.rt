//! The parameter data of READ ELEMENT STATUS.

ghost use Rattle.std.specs.Prelude.{◌≡◌, ◌<◌, ◌≤◌, ◌+◌, ◌*◌, ◌^◌, ◌∷◌, [], ◌++◌, length, vec_len, vec_capacity, IfOk};
ghost use Rattle.scsi_cdb.specs.declared.profile.Profile.TheVariants.{Spec};
ghost use Rattle.tape_medium.specs.Limits.{most_block};
ghost use Rattle.tape_medium.specs.ElementStatus.{two_bytes, three_bytes, descriptor_length, tag_information, descriptor, page_of, element_status};
ghost use Rattle.element_map.specs.Runs.{code_of, page_length, in_run, IsRun};
ghost use Rattle.element_map.specs.Pages.{reported_at, page_header, descriptors};

use crate::element_type::ElementType;
use crate::elements::Elements;
use crate::layout::{HEADER_LENGTH, PVOLTAG, TAG_INFORMATION_LENGTH};
use crate::run::{Run, descriptor_length};
use std::alloc::{AllocError, Global};
use tape_medium::VolumeTag;

impl Elements {
    /// The parameter data of READ ELEMENT STATUS, uncut: a header of 8 bytes, and for each type a page of the elements
    /// that are reported. Those are of the type with `type_code`, of all types at 0, from the address `start` on, at
    /// most `count`; `voltag` asks for the primary volume tag information, 36 bytes a descriptor (SMC-3, "READ
    /// ELEMENT STATUS command"). All memory is taken at once. Of as many elements as there may be it is 54,380 bytes.
    pub fn status(
        &self,
        alloc: Global,
        type_code: u8,
        start: u16,
        count: u16,
        voltag: bool,
    ) -> Result<Vec<u8>, AllocError>
        ensures status { IfOk result (λ bytes. bytes.items ≡ element_status self.now type_code start count voltag) }
        ensures short { IfOk result (λ bytes. length bytes.items ≤ most_block Spec) }
    {
        let report = self.report(type_code, start, count);
        let length = report.length(voltag);
        let mut bytes = Vec::with_capacity(alloc, HEADER_LENGTH + length)?;
        put_header(&mut bytes, report.first_address(), report.number(), length);
        let run = report.medium_transport;
        self.put_page(&mut bytes, voltag, ElementType::MediumTransport, run);
        let run = report.data_transfer;
        self.put_page(&mut bytes, voltag, ElementType::DataTransfer, run);
        let run = report.import_export;
        self.put_page(&mut bytes, voltag, ElementType::ImportExport, run);
        let run = report.storage;
        self.put_page(&mut bytes, voltag, ElementType::Storage, run);
        Ok(bytes)
    }

    /// Appends the page of a run, within the room; nothing where it has no element.
    fn put_page(&self, bytes: &mut Vec<u8>, voltag: bool, element_type: ElementType, run: Run)
        requires inside { IsRun self.now element_type run }
        requires few { run.from + run.count ≤ 1024 }
        requires room { vec_len bytes.old + page_length voltag run.count ≤ vec_capacity bytes.old }
        ensures items { bytes.new.items ≡ bytes.old.items ++ page_of voltag (code_of element_type) (in_run self.now element_type run.from run.count) }
        ensures length { vec_len bytes.new ≡ vec_len bytes.old + page_length voltag run.count }
        ensures capacity { vec_capacity bytes.old ≤ vec_capacity bytes.new }
    {
        if run.count > 0 {
            put_page_header(bytes, voltag, element_type, run.count);
            self.put_descriptors(bytes, voltag, element_type, run);
        }
    }

    /// Appends the descriptors of a run, within the room.
    fn put_descriptors(
        &self,
        bytes: &mut Vec<u8>,
        voltag: bool,
        element_type: ElementType,
        run: Run,
    )
        requires inside { IsRun self.now element_type run }
        requires few { run.from + run.count ≤ 1024 }
        requires room { vec_len bytes.old + run.count * descriptor_length voltag ≤ vec_capacity bytes.old }
        ensures items { bytes.new.items ≡ bytes.old.items ++ descriptors voltag (in_run self.now element_type run.from run.count) }
        ensures length { vec_len bytes.new ≡ vec_len bytes.old + run.count * descriptor_length voltag }
        ensures capacity { vec_capacity bytes.old ≤ vec_capacity bytes.new }
    {
        for at in run.from..run.from + run.count {
            let tag = self.tag_at(element_type, at);
            put_descriptor(bytes, voltag, element_type, at, tag);
        }
    }
}

/// Appends a number of two bytes, within the room.
fn put_two_bytes(bytes: &mut Vec<u8>, number: usize)
    requires fits { number < 2 ^ 16 }
    requires room { vec_len bytes.old + 2 ≤ vec_capacity bytes.old }
    ensures items { bytes.new.items ≡ bytes.old.items ++ two_bytes number }
    ensures length { vec_len bytes.new ≡ vec_len bytes.old + 2 }
    ensures capacity { vec_capacity bytes.old ≤ vec_capacity bytes.new }
{
    let _ = bytes.extend_from_slice(&[(number / 0x100) as u8, (number % 0x100) as u8]);
}

/// Appends a reserved byte and a number of three bytes, within the room.
fn put_byte_count(bytes: &mut Vec<u8>, number: usize)
    requires fits { number < 2 ^ 24 }
    requires room { vec_len bytes.old + 4 ≤ vec_capacity bytes.old }
    ensures items { bytes.new.items ≡ bytes.old.items ++ 0 ∷ three_bytes number }
    ensures length { vec_len bytes.new ≡ vec_len bytes.old + 4 }
    ensures capacity { vec_capacity bytes.old ≤ vec_capacity bytes.new }
{
    let _ = bytes.extend_from_slice(&[
        0,
        (number / 0x1_0000) as u8,
        (number / 0x100 % 0x100) as u8,
        (number % 0x100) as u8,
    ]);
}

/// Appends the header, within the room: the address of the first element reported, how many elements are, and the
/// length of the pages.
fn put_header(bytes: &mut Vec<u8>, first_address: u16, number: u16, length: usize)
    requires fits { length < 2 ^ 24 }
    requires room { vec_len bytes.old + 8 ≤ vec_capacity bytes.old }
    ensures items { bytes.new.items ≡ bytes.old.items ++ (two_bytes first_address ++ two_bytes number ++ 0 ∷ three_bytes length) }
    ensures length { vec_len bytes.new ≡ vec_len bytes.old + 8 }
    ensures capacity { vec_capacity bytes.old ≤ vec_capacity bytes.new }
{
    put_two_bytes(bytes, first_address as usize);
    put_two_bytes(bytes, number as usize);
    put_byte_count(bytes, length);
}

/// Appends the header of a page with `count` descriptors, within the room.
fn put_page_header(bytes: &mut Vec<u8>, voltag: bool, element_type: ElementType, count: usize)
    requires few { count ≤ 1024 }
    requires room { vec_len bytes.old + 8 ≤ vec_capacity bytes.old }
    ensures items { bytes.new.items ≡ bytes.old.items ++ page_header voltag (code_of element_type) count }
    ensures length { vec_len bytes.new ≡ vec_len bytes.old + 8 }
    ensures capacity { vec_capacity bytes.old ≤ vec_capacity bytes.new }
{
    let flags = if voltag { PVOLTAG } else { 0 };
    let _ = bytes.extend_from_slice(&[element_type.code(), flags]);
    put_two_bytes(bytes, descriptor_length(voltag));
    put_byte_count(bytes, count * descriptor_length(voltag));
}

/// Appends the descriptor of an element, by its number within its type, within the room.
fn put_descriptor(
    bytes: &mut Vec<u8>,
    voltag: bool,
    element_type: ElementType,
    at: usize,
    tag: Option<VolumeTag>,
)
    requires few { at < 1024 }
    requires room { vec_len bytes.old + descriptor_length voltag ≤ vec_capacity bytes.old }
    ensures items { bytes.new.items ≡ bytes.old.items ++ descriptor voltag (reported_at element_type at tag) }
    ensures length { vec_len bytes.new ≡ vec_len bytes.old + descriptor_length voltag }
    ensures capacity { vec_capacity bytes.old ≤ vec_capacity bytes.new }
{
    put_two_bytes(bytes, element_type.first_address() as usize + at);
    let _ = bytes.extend_from_slice(&[element_type.flags(tag.is_some())]);
    let _ = bytes.extend_from_slice(&[0; 9]);
    if voltag {
        put_tag_information(bytes, tag);
    }
    let _ = bytes.extend_from_slice(&[0; 4]);
}

/// Appends the primary volume tag information of an element, within the room.
fn put_tag_information(bytes: &mut Vec<u8>, tag: Option<VolumeTag>)
    requires room { vec_len bytes.old + 36 ≤ vec_capacity bytes.old }
    ensures items { bytes.new.items ≡ bytes.old.items ++ tag_information tag }
    ensures length { vec_len bytes.new ≡ vec_len bytes.old + 36 }
    ensures capacity { vec_capacity bytes.old ≤ vec_capacity bytes.new }
{
    match tag {
        None => {
            let _ = bytes.extend_from_slice(&[0; TAG_INFORMATION_LENGTH]);
        }
        Some(tag) => {
            let _ = bytes.extend_from_slice(&tag.0);
            let _ = bytes.extend_from_slice(&[0; 4]);
        }
    }
}
