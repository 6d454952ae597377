ghost use Rattle.std.specs.Prelude.{◌≡◌};
ghost use Rattle.device_server.specs.FieldFaults.{field_fault_of};
ghost use Rattle.device_server.specs.Fields.{spec_field_fault, invalid_where, is_space_code, is_page_of, mode_sense_fault, write_fault, mode_select_fault};
ghost use Rattle.device_server.specs.Mode.{list_fault};

use crate::host_fields::host_field_fault;
use crate::mode_layout::{
    ALL_PAGES, BLOCK_DESCRIPTOR, BLOCK_LENGTH, DESCRIPTOR_LENGTH, ELEMENT_ADDRESS_ASSIGNMENT_PAGE,
    MODE_HEADER, NO_PAGE,
};
use byteorder::{BigEndian, ByteOrder};
use scsi_cdb::{CommandSet, Kind, Profile, Request};
use scsi_sense::Condition;
use tape_medium::most_block;

/// PC of the saved values.
const SAVED_VALUES: u8 = 3;

/// The greatest element type code.
pub(crate) const LAST_ELEMENT_TYPE: u8 = 4;

/// What is refused of a device's command by the fields of its CDB and of the data sent with it alone, the first in order (SPC-4,
/// SSC-4 and SMC-3, the clauses of the commands).
pub fn field_fault(commands: CommandSet, request: &Request, bytes: &[u8]) -> Option<Condition>
    ensures { result ≡ field_fault_of commands request.now bytes.now }
{
    match commands.profile {
        Profile::Spec => spec_field_fault(commands.kind, request, bytes),
        Profile::Hosts => host_field_fault(commands.kind, request, bytes),
    }
}

/// The same in the default profile.
pub(crate) fn spec_field_fault(kind: Kind, request: &Request, bytes: &[u8]) -> Option<Condition>
    ensures { result ≡ spec_field_fault kind request.now bytes.now }
{
    match request {
        Request::Read {
            suppress_incorrect_length,
            fixed,
            transfer_length: _,
        } => invalid_where(*suppress_incorrect_length && *fixed),
        Request::Write {
            fixed,
            transfer_length,
        } => write_fault(Profile::Spec, *fixed, *transfer_length, bytes),
        Request::WriteFilemarks {
            write_setmarks,
            immediate: _,
            filemark_count: _,
        } => invalid_where(*write_setmarks),
        Request::Space { code, count: _ } => invalid_where(!is_space_code(*code)),
        Request::ModeSelect {
            save_pages,
            parameter_list_length,
        } => mode_select_fault(*save_pages, *parameter_list_length, bytes),
        Request::ModeSense {
            disable_block_descriptors: _,
            page_control,
            page_code,
            subpage_code,
            allocation_length: _,
        } => mode_sense_fault(kind, *page_control, *page_code, *subpage_code),
        Request::LoadUnload {
            hold,
            end_of_tape,
            load: _,
        } => invalid_where(*hold || *end_of_tape),
        Request::Locate {
            block_address_type,
            change_partition,
            logical_object_identifier: _,
            partition: _,
        } => invalid_where(*block_address_type || *change_partition),
        Request::MoveMedium { invert, .. } => invalid_where(*invert),
        Request::ReadElementStatus {
            element_type_code,
            device_identifiers,
            ..
        } => invalid_where(*element_type_code > LAST_ELEMENT_TYPE || *device_identifiers),
        Request::TestUnitReady
        | Request::Rewind
        | Request::RequestSense { .. }
        | Request::ReadBlockLimits
        | Request::InitializeElementStatus
        | Request::Inquiry { .. }
        | Request::Erase
        | Request::PreventAllowMediumRemoval { .. }
        | Request::ReadPosition
        | Request::PersistentReserveIn { .. }
        | Request::PersistentReserveOut { .. }
        | Request::ReportLuns { .. }
        | Request::Host(_) => None,
    }
}

pub(crate) fn invalid_where(wrong: bool) -> Option<Condition>
    ensures { result ≡ invalid_where wrong }
{
    if wrong {
        Some(Condition::InvalidFieldInCdb)
    } else {
        None
    }
}

fn is_space_code(code: u8) -> bool
    ensures { result ≡ is_space_code code }
{
    matches!(code, 0 | 1 | 3)
}

fn is_page_of(kind: Kind, page: u8) -> bool
    ensures { result ≡ is_page_of kind page }
{
    match kind {
        Kind::Drive => page == NO_PAGE || page == ALL_PAGES,
        Kind::Changer => page == ELEMENT_ADDRESS_ASSIGNMENT_PAGE || page == ALL_PAGES,
    }
}

fn mode_sense_fault(kind: Kind, page_control: u8, page: u8, subpage: u8) -> Option<Condition>
    ensures { result ≡ mode_sense_fault kind page_control page subpage }
{
    if page_control == SAVED_VALUES {
        return Some(Condition::SavingParametersNotSupported);
    }
    invalid_where(page_control != 0 || subpage != 0 || !is_page_of(kind, page))
}

/// What is refused of a WRITE in a library of a profile.
pub(crate) fn write_fault(
    profile: Profile,
    fixed: bool,
    transfer_length: u32,
    bytes: &[u8],
) -> Option<Condition>
    ensures { result ≡ write_fault profile fixed transfer_length bytes.now }
{
    if fixed {
        return None;
    }
    invalid_where(transfer_length > most_block(profile) || bytes.len() != transfer_length as usize)
}

fn mode_select_fault(save_pages: bool, list_length: u8, bytes: &[u8]) -> Option<Condition>
    ensures { result ≡ mode_select_fault save_pages list_length bytes.now }
{
    if save_pages {
        return Some(Condition::InvalidFieldInCdb);
    }
    list_fault(usize::from(list_length), bytes)
}

/// Why a mode parameter list is refused, of which the CDB says that it has `told` bytes.
fn list_fault(told: usize, list: &[u8]) -> Option<Condition>
    ensures { result ≡ list_fault told list.now }
{
    if told == 0 {
        return None;
    }
    if list.len() != told || told < MODE_HEADER {
        return Some(Condition::ParameterListLengthError);
    }
    let descriptor = list[DESCRIPTOR_LENGTH];
    if descriptor != 0 && descriptor != BLOCK_DESCRIPTOR {
        return Some(Condition::InvalidFieldInParameterList);
    }
    if told != MODE_HEADER + usize::from(descriptor) {
        return Some(Condition::ParameterListLengthError);
    }
    if descriptor == BLOCK_DESCRIPTOR
        && BigEndian::read_u24(&list[BLOCK_LENGTH..]) > most_block(Profile::Spec)
    {
        return Some(Condition::InvalidFieldInParameterList);
    }
    None
}
