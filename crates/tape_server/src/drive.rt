//! The drive, and its commands by what they need of the bay.

ghost use Rattle.std.specs.Prelude.{◌≡◌, false, None, IfOk, OnErr};
ghost use Rattle.scsi_cdb.specs.declared.kind.Kind.TheVariants as kind;
ghost use Rattle.device_server.specs.Fields.{spec_field_fault, mode_select_fault};
ghost use Rattle.device_server.specs.Mode.{block_length_after};
ghost use Rattle.device_server.specs.Drive.{block_limits, on_tape};
ghost use Rattle.device_server.specs.Volumes.{is_move};

use crate::mode::{block_length_after, mode_data};
use crate::positioning::{locate, position_data, space};
use crate::reading::{read_block, read_blocks};
use crate::writing::{erase, write_block, write_blocks, write_filemarks};
use device_server::{BadPlace, DeviceServer, HostDrive, Outcome, Payload, PutFault, TakeFault};
use inquiry_data::UnitIdentity;
use scsi_cdb::{Kind, Profile, Request};
use scsi_sense::Condition;
use std::alloc::{AllocError, Global};
use std::marker::Model;
use tape_medium::{Tape, Volume, VolumeTag};

/// The data of READ BLOCK LIMITS: no granularity, and blocks of one byte at least (SSC-4, "READ BLOCK LIMITS command").
pub(crate) fn block_limits(profile: Profile) -> [u8; 6]
    ensures { result ≡ block_limits profile }
{
    match profile {
        Profile::Spec => [0x00, 0x01, 0x00, 0x00, 0x00, 0x01],
        Profile::Hosts => [0x00, 0x10, 0x00, 0x00, 0x00, 0x01],
    }
}

/// A tape drive with one bay. A volume in it is loaded or not; the block length of the mode is 0 for blocks of any length.
#[derive(Drop)]
pub struct TapeDrive {
    pub(crate) bay: Option<Volume>,
    pub(crate) loaded: bool,
    pub(crate) block_length: u32,
    /// What it keeps besides, if it is of the hosts' profile.
    pub(crate) hosts: Option<HostDrive>,
}

impl Model for TapeDrive {
    ghost use Rattle.device_server.specs.Drive.{DriveView};

    ghost Value = { DriveView };

    ghost view = { λ d. record { bay = d.bay; loaded = d.loaded; block_length = d.block_length; hosts = d.hosts } };
}

impl TapeDrive {
    ghost use Rattle.std.specs.Option.{option_map};
    ghost use Rattle.tape_medium.specs.Settling.{settled_to};
    ghost use Rattle.device_server.specs.Drive.{empty_drive, drive_step, in_bay, loads, selects, is_protected};
    ghost use Rattle.device_server.specs.HostDrive.{empty_host_drive};

    /// A drive of the default profile with an empty bay.
    pub fn new() -> TapeDrive
        ensures { result ≡ empty_drive }
    {
        TapeDrive {
            bay: None,
            loaded: false,
            block_length: 0,
            hosts: None,
        }
    }

    /// A drive of the hosts' profile with an empty bay, which is this unit.
    pub fn for_hosts(identity: UnitIdentity) -> TapeDrive
        ensures { result ≡ empty_host_drive identity }
    {
        TapeDrive {
            hosts: Some(HostDrive::new(identity)),
            ..TapeDrive::new()
        }
    }

    /// Carries out a command whose fields aren't refused, as a drive of the default profile.
    fn step(
        &mut self,
        alloc: Global,
        request: &Request,
        bytes: &[u8],
    ) -> Result<Outcome, AllocError>
        requires { spec_field_fault kind.Drive request.now bytes.now ≡ None }
        ensures ok { IfOk result (λ outcome. drive_step self.old request.now bytes.now ≡ (self.new, outcome)) }
        ensures err { OnErr result (self.new ≡ self.old) }
        ensures want { OnErr result (is_move request.now ≡ false) }
    {
        match request {
            Request::ReadBlockLimits => {
                Ok(Outcome::good(Payload::copied(alloc, &block_limits(Profile::Spec))?))
            }
            Request::ModeSelect {
                save_pages,
                parameter_list_length,
            } => Ok(self.select(alloc, *save_pages, *parameter_list_length, bytes)),
            Request::ModeSense {
                disable_block_descriptors,
                allocation_length,
                ..
            } => Ok(Outcome::good(mode_data(
                alloc,
                self.is_protected(),
                *disable_block_descriptors,
                self.block_length,
                *allocation_length,
            )?)),
            Request::LoadUnload { load, .. } => Ok(self.load(alloc, *load)),
            Request::TestUnitReady
            | Request::Rewind
            | Request::RequestSense { .. }
            | Request::InitializeElementStatus
            | Request::Read { .. }
            | Request::Write { .. }
            | Request::WriteFilemarks { .. }
            | Request::Space { .. }
            | Request::Inquiry { .. }
            | Request::Erase
            | Request::PreventAllowMediumRemoval { .. }
            | Request::Locate { .. }
            | Request::ReadPosition
            | Request::PersistentReserveIn { .. }
            | Request::PersistentReserveOut { .. }
            | Request::ReportLuns { .. }
            | Request::MoveMedium { .. }
            | Request::ReadElementStatus { .. }
            | Request::Host(_) => self.in_bay(alloc, request, bytes),
        }
    }

    /// MODE SELECT.
    fn select(
        &mut self,
        alloc: Global,
        save_pages: bool,
        parameter_list_length: u8,
        list: &[u8],
    ) -> Outcome
        requires { mode_select_fault save_pages parameter_list_length list.now ≡ None }
        ensures { selects self.old (block_length_after self.old.block_length parameter_list_length list.now) ≡ (self.new, result) }
    {
        let before = self.block_length;
        self.block_length = block_length_after(before, parameter_list_length, list);
        Outcome::set(alloc, self.block_length != before)
    }

    /// The volume in the bay, loaded or not.
    pub fn volume(&self) -> Option<&Volume>
        ensures { option_map (λ volume. volume.now) result ≡ self.now.bay }
    {
        self.bay.as_ref()
    }

    /// From now on the first `objects` objects of the volume in the bay count as unchanged, or all where it has fewer. Without one
    /// nothing changes.
    pub fn settle(&mut self, objects: u32)
        ensures { self.new ≡ record self.old { bay = option_map (settled_to objects) self.old.bay } }
    {
        if let Some(volume) = &mut self.bay {
            volume.settle(objects);
        }
    }

    /// Whether a protected volume is in the bay, loaded or not.
    pub(crate) fn is_protected(&self) -> bool
        ensures { result ≡ is_protected self.now.bay }
    {
        match &self.bay {
            None => false,
            Some(volume) => volume.protected,
        }
    }

    /// LOAD UNLOAD.
    fn load(&mut self, alloc: Global, load: bool) -> Outcome
        ensures { loads self.old self.old.bay load ≡ (self.new, result) }
    {
        match &mut self.bay {
            None => Outcome::check(alloc, Condition::MediumNotPresent),
            Some(volume) => {
                volume.tape.rewind();
                self.loaded = load;
                Outcome::good(Payload::none(alloc))
            }
        }
    }

    /// A command on the tape of the volume in the bay.
    fn in_bay(
        &mut self,
        alloc: Global,
        request: &Request,
        bytes: &[u8],
    ) -> Result<Outcome, AllocError>
        ensures ok { IfOk result (λ outcome. in_bay self.old self.old.bay request.now bytes.now ≡ (self.new, outcome)) }
        ensures err { OnErr result (self.new ≡ self.old) }
        ensures want { OnErr result (is_move request.now ≡ false) }
    {
        match &mut self.bay {
            None => Ok(Outcome::check(alloc, Condition::MediumNotPresent)),
            Some(volume) => {
                if !self.loaded {
                    return Ok(Outcome::check(alloc, Condition::InitializingCommandRequired));
                }
                on_tape(
                    alloc,
                    Profile::Spec,
                    &mut volume.tape,
                    volume.protected,
                    self.block_length,
                    request,
                    bytes,
                )
            }
        }
    }
}

impl Default for TapeDrive {
    ghost use Rattle.std.specs.Prelude.{◌≡◌};
    ghost use Rattle.device_server.specs.Drive.{empty_drive};

    ghost is_default = { λ d. d ≡ empty_drive };

    fn default() -> TapeDrive {
        TapeDrive::new()
    }
}

impl DeviceServer for TapeDrive {
    ghost use Rattle.device_server.specs.View.{Drive};

    ghost shown = { λ d. Drive d };

    fn kind(&self) -> Kind {
        Kind::Drive
    }

    #[tactic(auto, unfolding(device_server::specs::View::profile_of))]
    fn profile(&self) -> Profile {
        match self.hosts {
            None => Profile::Spec,
            Some(_) => Profile::Hosts,
        }
    }

    fn identity(&self) -> Option<UnitIdentity> {
        match self.hosts {
            None => None,
            Some(hosts) => Some(hosts.identity),
        }
    }

    fn drives(&self) -> u16 {
        0
    }

    fn held(&self, place: u16) -> Option<VolumeTag> {
        if place != 0 {
            return None;
        }
        match &self.bay {
            None => None,
            Some(volume) => Some(volume.tag),
        }
    }

    fn leaves_to_drives(&self, _request: &Request) -> bool {
        false
    }

    #[tactic(auto, unfolding(device_server::specs::View::profile_of))]
    fn perform(
        &mut self,
        alloc: Global,
        request: &Request,
        bytes: &[u8],
    ) -> Result<Outcome, AllocError> {
        match self.hosts {
            None => self.step(alloc, request, bytes),
            Some(hosts) => self.host_step(alloc, hosts, request, bytes),
        }
    }

    fn take_volume(&mut self, place: u16) -> Result<Volume, TakeFault> {
        if place != 0 {
            return Err(TakeFault::BadPlace);
        }
        match self.bay.take() {
            None => Err(TakeFault::Empty),
            Some(mut volume) => {
                volume.tape.rewind();
                self.loaded = false;
                Ok(volume)
            }
        }
    }

    fn put_volume(&mut self, place: u16, mut volume: Volume) -> Result<(), (Volume, PutFault)> {
        if place != 0 {
            return Err((volume, PutFault::BadPlace));
        }
        if self.bay.is_some() {
            return Err((volume, PutFault::Full));
        }
        volume.tape.rewind();
        self.bay = Some(volume);
        self.loaded = true;
        Ok(())
    }

    fn mark(&mut self, _place: u16, _tag: Option<VolumeTag>) -> Result<(), BadPlace> {
        Err(BadPlace)
    }

    /// A drive keeps no sources.
    fn note_journey(&mut self, _source: u16, _destination: u16) {}

    fn note_exchange(&mut self, _source: u16, _first: u16, _second: u16) {}

    fn reset(&mut self) {
        self.block_length = 0;
        if let Some(hosts) = &mut self.hosts {
            hosts.compression = true;
        }
        if let Some(volume) = &mut self.bay {
            volume.tape.rewind();
        }
    }
}

/// A command on the tape of a volume that is loaded, in a drive of a profile.
pub(crate) fn on_tape(
    alloc: Global,
    profile: Profile,
    tape: &mut Tape,
    protected: bool,
    block_length: u32,
    request: &Request,
    bytes: &[u8],
) -> Result<Outcome, AllocError>
    ensures ok { IfOk result (λ outcome. on_tape profile block_length protected tape.old request.now bytes.now ≡ (tape.new, outcome)) }
    ensures err { OnErr result (tape.new ≡ tape.old) }
    ensures want { OnErr result (is_move request.now ≡ false) }
{
    match request {
        Request::TestUnitReady => Ok(Outcome::good(Payload::none(alloc))),
        Request::Rewind => {
            tape.rewind();
            Ok(Outcome::good(Payload::none(alloc)))
        }
        Request::Read {
            suppress_incorrect_length,
            fixed: false,
            transfer_length,
        } => read_block(
            alloc,
            tape,
            *suppress_incorrect_length,
            block_length,
            *transfer_length,
        ),
        Request::Read {
            fixed: true,
            transfer_length,
            ..
        } => read_blocks(alloc, profile, tape, block_length, *transfer_length),
        Request::Write {
            fixed: false,
            transfer_length,
        } => write_block(alloc, profile, tape, protected, *transfer_length, bytes),
        Request::Write {
            fixed: true,
            transfer_length,
        } => write_blocks(
            alloc,
            profile,
            tape,
            protected,
            block_length,
            *transfer_length,
            bytes,
        ),
        Request::WriteFilemarks { filemark_count, .. } => write_filemarks(
            alloc,
            profile,
            tape,
            protected,
            *filemark_count,
        ),
        Request::Space { code, count } => Ok(space(alloc, tape, *code, *count)),
        Request::Erase => Ok(erase(alloc, tape, protected)),
        Request::Locate {
            logical_object_identifier,
            ..
        } => Ok(locate(alloc, tape, *logical_object_identifier)),
        Request::ReadPosition => Ok(Outcome::good(position_data(alloc, tape.position())?)),
        Request::RequestSense { .. }
        | Request::ReadBlockLimits
        | Request::InitializeElementStatus
        | Request::Inquiry { .. }
        | Request::ModeSelect { .. }
        | Request::ModeSense { .. }
        | Request::LoadUnload { .. }
        | Request::PreventAllowMediumRemoval { .. }
        | Request::PersistentReserveIn { .. }
        | Request::PersistentReserveOut { .. }
        | Request::ReportLuns { .. }
        | Request::MoveMedium { .. }
        | Request::ReadElementStatus { .. }
        | Request::Host(_) => { Ok(Outcome::check(alloc, Condition::InvalidCommandOperationCode)) }
    }
}
