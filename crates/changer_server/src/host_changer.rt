//! The commands of a changer of the hosts' profile.

ghost use Rattle.std.specs.Prelude.{◌≡◌, false, IfOk, OnErr, Some};
ghost use Rattle.tape_medium.specs.Elements.{Elements, move_refusal};
ghost use Rattle.mode_pages.specs.ChangerData.{changer_answer};
ghost use Rattle.device_server.specs.Outcomes.{answers};
ghost use Rattle.device_server.specs.HostChanger.{host_view, addresses_of, host_carried, host_changer_step};
ghost use Rattle.device_server.specs.Volumes.{is_move};

use crate::faults::move_condition;
use crate::host_answers::command_step;
use device_server::{HostChanger, Outcome, Payload, mode_query};
use element_map::{ElementType, Elements};
use element_sources::{StatusRequest, host_status};
use mode_pages::{ElementAddresses, ElementRange, HeaderForm, ModeSense, changer_mode_data};
use scsi_cdb::Request;
use scsi_sense::Condition;
use std::alloc::{AllocError, Global};

/// Carries out a command whose fields aren't refused.
pub(crate) fn host_step(
    alloc: Global,
    elements: &mut Elements,
    hosts: &mut HostChanger,
    request: &Request,
    bytes: &[u8],
) -> Result<Outcome, AllocError>
    ensures ok { IfOk result (λ outcome. host_changer_step (host_view elements.old hosts.old) hosts.old request.now bytes.now ≡ (host_view elements.new hosts.new, outcome)) }
    ensures elements { OnErr result (elements.new ≡ elements.old) }
    ensures hosts { OnErr result (hosts.new ≡ hosts.old) }
    ensures want { OnErr result (is_move request.now ≡ false) }
{
    match request {
        Request::TestUnitReady | Request::InitializeElementStatus => {
            Ok(Outcome::good(Payload::none(alloc)))
        }
        Request::ModeSense {
            disable_block_descriptors,
            page_control,
            page_code,
            subpage_code,
            allocation_length,
        } => {
            let query = mode_query(
                HeaderForm::Six,
                *disable_block_descriptors,
                *page_control,
                *page_code,
                *subpage_code,
            );
            sense_mode(alloc, elements, &query, usize::from(*allocation_length))
        }
        Request::MoveMedium {
            medium_transport_element_address,
            source_element_address,
            destination_element_address,
            ..
        } => Ok(move_medium(
            alloc,
            elements,
            hosts,
            *medium_transport_element_address,
            *source_element_address,
            *destination_element_address,
        )),
        Request::ReadElementStatus {
            volume_tags,
            element_type_code,
            starting_element_address,
            number_of_elements,
            current_data: _,
            device_identifiers,
            allocation_length,
        } => {
            let query = StatusRequest {
                element_type_code: *element_type_code,
                starting_element_address: *starting_element_address,
                number_of_elements: *number_of_elements,
                volume_tags: *volume_tags,
                device_identifiers: *device_identifiers,
            };
            let library = hosts.identity.library_number;
            let status = host_status(alloc, elements, &hosts.sources, library, &query)?;
            Ok(Outcome::good(Payload::of(status).cut(*allocation_length as usize)))
        }
        Request::Host(command) => command_step(alloc, elements, hosts, command, bytes),
        Request::Rewind
        | Request::RequestSense { .. }
        | Request::ReadBlockLimits
        | Request::Read { .. }
        | Request::Write { .. }
        | Request::WriteFilemarks { .. }
        | Request::Space { .. }
        | Request::Inquiry { .. }
        | Request::ModeSelect { .. }
        | Request::Erase
        | Request::LoadUnload { .. }
        | Request::PreventAllowMediumRemoval { .. }
        | Request::Locate { .. }
        | Request::ReadPosition
        | Request::PersistentReserveIn { .. }
        | Request::PersistentReserveOut { .. }
        | Request::ReportLuns { .. } => {
            Ok(Outcome::check(alloc, Condition::InvalidCommandOperationCode))
        }
    }
}

/// MOVE MEDIUM among the changer's own elements, after which a volume has a source.
fn move_medium(
    alloc: Global,
    elements: &mut Elements,
    hosts: &mut HostChanger,
    transport: u16,
    source: u16,
    destination: u16,
) -> Outcome
    ensures { host_carried (host_view elements.old hosts.old) hosts.old source destination (move_refusal elements.old transport source destination) ≡ (host_view elements.new hosts.new, result) }
{
    if let Some(fault) = elements.move_refusal(transport, source, destination) {
        return Outcome::check(alloc, move_condition(fault));
    }
    match elements.move_volume(source, destination) {
        Ok(()) => {
            hosts.sources.note_move(source, destination);
            Outcome::good(Payload::none(alloc))
        }
        Err(_) => Outcome::check(alloc, Condition::InternalTargetFailure),
    }
}

/// MODE SENSE.
pub(crate) fn sense_mode(
    alloc: Global,
    elements: &Elements,
    query: &ModeSense,
    allocation_length: usize,
) -> Result<Outcome, AllocError>
    ensures { IfOk result (λ outcome. outcome ≡ answers allocation_length (changer_answer query.now (addresses_of elements.now))) }
{
    let answer = changer_mode_data(alloc, query, &addresses_of(elements))?;
    Ok(Outcome::answers(alloc, allocation_length, answer))
}

/// Where the elements are.
fn addresses_of(elements: &Elements) -> ElementAddresses
    ensures { result ≡ addresses_of elements.now }
{
    ElementAddresses {
        medium_transport: range_of(elements, ElementType::MediumTransport),
        storage: range_of(elements, ElementType::Storage),
        import_export: range_of(elements, ElementType::ImportExport),
        data_transfer: range_of(elements, ElementType::DataTransfer),
    }
}

ghost use Rattle.element_map.specs.Runs.{first_of, count_of};

/// The first address and the number of the elements of a type.
fn range_of(elements: &Elements, element_type: ElementType) -> ElementRange
    ensures { result ≡ record { first = first_of element_type; count = count_of elements.now element_type } }
{
    ElementRange {
        first: element_type.first_address(),
        count: elements.count(element_type),
    }
}
