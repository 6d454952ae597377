//! The changer.

ghost use Rattle.std.specs.Prelude.{◌≡◌, ◌&&◌, ◌||◌, false, is_none, IfOk, OnErr, take};
ghost use Rattle.tape_medium.specs.Elements.{element_at, move_refusal};
ghost use Rattle.tape_medium.specs.Settling.{settles};
ghost use Rattle.device_server.specs.Changer.{carried, changer_step};
ghost use Rattle.device_server.specs.Failures.{is_data_transfer, is_exchange_for_drives};
ghost use Rattle.device_server.specs.Volumes.{is_move};

use crate::faults::{move_condition, put_fault, take_fault};
use crate::host_changer::host_step;
use crate::mode::mode_data;
use device_server::{BadPlace, DeviceServer, HostChanger, Outcome, Payload, PutFault, TakeFault};
use element_map::Elements;
use inquiry_data::UnitIdentity;
use scsi_cdb::{HostRequest, Kind, Profile, Request};
use scsi_sense::Condition;
use std::alloc::{AllocError, Global};
use std::marker::Model;
use tape_medium::{FIRST_DATA_TRANSFER, Volume, VolumeTag};

/// A medium changer. Volumes that lie in drives are the drives' own; of them it has the tags.
#[derive(Drop)]
pub struct Changer {
    pub(crate) elements: Elements,
    /// What it keeps besides, if it is of the hosts' profile.
    pub(crate) hosts: Option<HostChanger>,
}

impl Model for Changer {
    ghost use Rattle.device_server.specs.HostChanger.{ChangerView};

    ghost Value = { ChangerView };

    ghost view = { λ c. record { elements = c.elements; hosts = c.hosts } };
}

impl Changer {
    ghost use Rattle.std.specs.Option.{option_map};
    ghost use Rattle.device_server.specs.HostChanger.{spec_changer, host_view};

    /// A changer of the default profile with these elements, and with what they hold.
    pub fn new(elements: Elements) -> Changer
        ensures { result ≡ spec_changer elements }
    {
        Changer {
            elements,
            hosts: None,
        }
    }

    /// A changer of the hosts' profile, which is a unit and knows from where the volumes of these elements came.
    pub fn for_hosts(elements: Elements, hosts: HostChanger) -> Changer
        ensures { result ≡ host_view elements hosts }
    {
        Changer {
            elements,
            hosts: Some(hosts),
        }
    }

    /// The elements, and what they hold.
    pub fn elements(&self) -> &Elements
        ensures { result.now ≡ self.now.elements }
    {
        &self.elements
    }

    /// What it keeps besides, if it is of the hosts' profile.
    pub fn hosts(&self) -> Option<&HostChanger>
        ensures { option_map (λ hosts. hosts.now) result ≡ self.now.hosts }
    {
        self.hosts.as_ref()
    }

    /// From now on the first `objects` objects of the volume in a storage or import/export element count as unchanged, or all
    /// where it has fewer. Without one nothing changes.
    pub fn settle(&mut self, address: u16, objects: u32)
        ensures { self.new ≡ record self.old { elements = settles self.old.elements address objects } }
    {
        self.elements.settle(address, objects);
    }

    /// Whether an address is that of a data transfer element, which is a drive's.
    fn is_data_transfer(&self, address: u16) -> bool
        ensures { result ≡ is_data_transfer (element_at self.now.elements address) }
    {
        address >= FIRST_DATA_TRANSFER && address - FIRST_DATA_TRANSFER < self.elements.drives()
    }

    /// Whether nothing refuses a MOVE MEDIUM, and one of its ends is a drive's.
    fn leaves_move(&self, transport: u16, source: u16, destination: u16) -> bool
        ensures { result ≡ (is_none (move_refusal self.now.elements transport source destination) && (is_data_transfer (element_at self.now.elements source)
            || is_data_transfer (element_at self.now.elements destination))) }
    {
        self.elements
            .move_refusal(transport, source, destination)
            .is_none()
            && (self.is_data_transfer(source) || self.is_data_transfer(destination))
    }

    /// The same of an EXCHANGE MEDIUM, by its fields too.
    fn leaves_exchange(&self, command: &HostRequest) -> bool
        ensures { result ≡ is_exchange_for_drives self.now.elements command.now }
    {
        let HostRequest::ExchangeMedium {
            medium_transport_element_address: transport,
            source_element_address: source,
            first_destination_element_address: first,
            second_destination_element_address: second,
            invert_first: false,
            invert_second: false,
        } = command
        else {
            return false;
        };
        self.elements
            .exchange_refusal(*transport, *source, *first, *second)
            .is_none()
            && self.elements.has_drive(*source, *first, *second)
    }

    /// Carries out a command whose fields aren't refused, as a changer of the default profile.
    fn step(&mut self, alloc: Global, request: &Request) -> Result<Outcome, AllocError>
        ensures ok { IfOk result (λ outcome. changer_step self.old.elements request.now ≡ (self.new.elements, outcome)) }
        ensures hosts { self.new.hosts ≡ self.old.hosts }
        ensures err { OnErr result (self.new ≡ self.old) }
        ensures want { OnErr result (is_move request.now ≡ false) }
    {
        match request {
            Request::TestUnitReady | Request::InitializeElementStatus => {
                Ok(Outcome::good(Payload::none(alloc)))
            }
            Request::ModeSense {
                allocation_length,
                ..
            } => Ok(Outcome::good(mode_data(alloc, &self.elements, *allocation_length)?)),
            Request::MoveMedium {
                medium_transport_element_address,
                source_element_address,
                destination_element_address,
                ..
            } => Ok(self.move_medium(
                alloc,
                *medium_transport_element_address,
                *source_element_address,
                *destination_element_address,
            )),
            Request::ReadElementStatus {
                volume_tags,
                element_type_code,
                starting_element_address,
                number_of_elements,
                allocation_length,
                ..
            } => {
                let status = self.elements.status(
                    alloc,
                    *element_type_code,
                    *starting_element_address,
                    *number_of_elements,
                    *volume_tags,
                )?;
                Ok(Outcome::good(Payload::of(status).cut(*allocation_length as usize)))
            }
            Request::Rewind
            | Request::RequestSense { .. }
            | Request::ReadBlockLimits
            | Request::Read { .. }
            | Request::Write { .. }
            | Request::WriteFilemarks { .. }
            | Request::Space { .. }
            | Request::Inquiry { .. }
            | Request::ModeSelect { .. }
            | Request::Erase
            | Request::LoadUnload { .. }
            | Request::PreventAllowMediumRemoval { .. }
            | Request::Locate { .. }
            | Request::ReadPosition
            | Request::PersistentReserveIn { .. }
            | Request::PersistentReserveOut { .. }
            | Request::ReportLuns { .. }
            | Request::Host(_) => {
                Ok(Outcome::check(alloc, Condition::InvalidCommandOperationCode))
            }
        }
    }

    /// MOVE MEDIUM: by the map and the marks, and then among the changer's own elements. What names a drive isn't for the changer alone.
    fn move_medium(
        &mut self,
        alloc: Global,
        transport: u16,
        source: u16,
        destination: u16,
    ) -> Outcome
        ensures carried { carried self.old.elements source destination (move_refusal self.old.elements transport source destination) ≡ (self.new.elements, result) }
        ensures hosts { self.new.hosts ≡ self.old.hosts }
    {
        if let Some(fault) = self.elements.move_refusal(transport, source, destination) {
            return Outcome::check(alloc, move_condition(fault));
        }
        match self.elements.move_volume(source, destination) {
            Ok(()) => Outcome::good(Payload::none(alloc)),
            Err(_) => Outcome::check(alloc, Condition::InternalTargetFailure),
        }
    }
}

impl DeviceServer for Changer {
    ghost use Rattle.device_server.specs.View.{Changer};

    ghost shown = { λ c. Changer c };

    fn kind(&self) -> Kind {
        Kind::Changer
    }

    #[tactic(auto, unfolding(device_server::specs::View::profile_of))]
    fn profile(&self) -> Profile {
        match &self.hosts {
            None => Profile::Spec,
            Some(_) => Profile::Hosts,
        }
    }

    fn identity(&self) -> Option<UnitIdentity> {
        match &self.hosts {
            None => None,
            Some(hosts) => Some(hosts.identity),
        }
    }

    fn drives(&self) -> u16 {
        self.elements.drives()
    }

    fn held(&self, place: u16) -> Option<VolumeTag> {
        match self.elements.read(place) {
            Ok(tag) => tag,
            Err(_) => None,
        }
    }

    fn leaves_to_drives(&self, request: &Request) -> bool {
        if let Request::Host(command) = request {
            return self.hosts.is_some() && self.leaves_exchange(command);
        }
        let Request::MoveMedium {
            medium_transport_element_address: transport,
            source_element_address: source,
            destination_element_address: destination,
            invert: false,
        } = request
        else {
            return false;
        };
        self.leaves_move(*transport, *source, *destination)
    }

    fn perform(
        &mut self,
        alloc: Global,
        request: &Request,
        bytes: &[u8],
    ) -> Result<Outcome, AllocError> {
        match &mut self.hosts {
            None => self.step(alloc, request),
            Some(hosts) => host_step(alloc, &mut self.elements, hosts, request, bytes),
        }
    }

    fn take_volume(&mut self, place: u16) -> Result<Volume, TakeFault> {
        match self.elements.take(place) {
            Ok(volume) => Ok(volume),
            Err(fault) => Err(take_fault(fault)),
        }
    }

    fn put_volume(&mut self, place: u16, volume: Volume) -> Result<(), (Volume, PutFault)> {
        match self.elements.put(place, volume) {
            Ok(()) => Ok(()),
            Err((volume, fault)) => Err((volume, put_fault(fault))),
        }
    }

    fn mark(&mut self, place: u16, tag: Option<VolumeTag>) -> Result<(), BadPlace> {
        match self.elements.mark(place, tag) {
            Ok(()) => Ok(()),
            Err(_) => Err(BadPlace),
        }
    }

    fn note_journey(&mut self, source: u16, destination: u16) {
        if let Some(hosts) = &mut self.hosts {
            hosts.sources.note_move(source, destination);
        }
    }

    fn note_exchange(&mut self, source: u16, first: u16, second: u16) {
        if let Some(hosts) = &mut self.hosts {
            hosts.sources.note_exchange(source, first, second);
        }
    }

    /// A changer stays as it is.
    fn reset(&mut self) {}
}
