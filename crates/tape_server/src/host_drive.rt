//! The commands that a drive of the hosts' profile carries out otherwise than one of the default profile, or alone.

ghost use Rattle.std.specs.Prelude.{◌≡◌, false, IfOk, OnErr, length, take};
ghost use Rattle.scsi_cdb.specs.declared.kind.Kind.TheVariants as kind;
ghost use Rattle.scsi_cdb.specs.declared.profile.Profile.TheVariants.{Hosts};
ghost use Rattle.tape_medium.specs.Limits.{most_block};
ghost use Rattle.mode_pages.specs.DriveData.{drive_answer};
ghost use Rattle.mode_pages.specs.Select as mode;
ghost use Rattle.log_pages.specs.LogSelect as log;
ghost use Rattle.log_pages.specs.LogSense.{drive_log_data};
ghost use Rattle.supported_commands.specs.Options.{options_at};
ghost use Rattle.device_server.specs.Hosts.{codes_answer};
ghost use Rattle.device_server.specs.Outcomes.{answers};
ghost use Rattle.device_server.specs.HostDrive.{mode_of, mode_state, is_other_mode, host_selects, told_of_load, host_loads, not_ready, host_in_bay, drive_log, host_log_selects, host_command_step, host_drive_step};
ghost use Rattle.device_server.specs.Volumes.{is_exchange, is_move};

use crate::drive::{TapeDrive, block_limits};
use crate::early_warning::host_on_tape;
use crate::logs::{counted, volume_log};
use device_server::{
    HostDrive, Outcome, Payload, codes_answer, log_query, mode_query, told_of_log,
};
use log_pages::{DriveLog, LogSelect, LogSense, drive_log_data};
use mode_pages::{DriveState, HeaderForm, ModeSense, ModeValues, drive_mode_data};
use scsi_cdb::{HostRequest, Kind, Profile, Request};
use scsi_sense::Condition;
use std::alloc::{AllocError, Global};
use supported_commands::supported_task_management;
use tape_medium::most_block;
use unit_attention::Kind as Attention;

impl TapeDrive {
    /// Carries out a command whose fields aren't refused.
    pub(crate) fn host_step(
        &mut self,
        alloc: Global,
        hosts: HostDrive,
        request: &Request,
        bytes: &[u8],
    ) -> Result<Outcome, AllocError>
        ensures ok { IfOk result (λ outcome. host_drive_step self.old hosts request.now bytes.now ≡ (self.new, outcome)) }
        ensures err { OnErr result (self.new ≡ self.old) }
        ensures want { OnErr result (is_move request.now ≡ false) }
    {
        match request {
            Request::ReadBlockLimits => {
                Ok(Outcome::good(Payload::copied(alloc, &block_limits(Profile::Hosts))?))
            }
            Request::ModeSelect {
                save_pages,
                parameter_list_length,
            } => {
                let told = u16::from(*parameter_list_length);
                Ok(self.select_mode(alloc, hosts, HeaderForm::Six, *save_pages, told, bytes))
            }
            Request::ModeSense {
                disable_block_descriptors,
                page_control,
                page_code,
                subpage_code,
                allocation_length,
            } => {
                let query = mode_query(
                    HeaderForm::Six,
                    *disable_block_descriptors,
                    *page_control,
                    *page_code,
                    *subpage_code,
                );
                self.sense_mode(alloc, hosts, &query, usize::from(*allocation_length))
            }
            Request::LoadUnload { hold, load, .. } => {
                Ok(self.host_load(alloc, hosts, *hold, *load))
            }
            Request::Host(command) => self.host_command(alloc, hosts, command, bytes),
            Request::TestUnitReady
            | Request::Rewind
            | Request::RequestSense { .. }
            | Request::InitializeElementStatus
            | Request::Read { .. }
            | Request::Write { .. }
            | Request::WriteFilemarks { .. }
            | Request::Space { .. }
            | Request::Inquiry { .. }
            | Request::Erase
            | Request::PreventAllowMediumRemoval { .. }
            | Request::Locate { .. }
            | Request::ReadPosition
            | Request::PersistentReserveIn { .. }
            | Request::PersistentReserveOut { .. }
            | Request::ReportLuns { .. }
            | Request::MoveMedium { .. }
            | Request::ReadElementStatus { .. } => {
                self.host_in_bay(alloc, hosts, request, bytes)
            }
        }
    }

    /// A command that only the hosts' profile has.
    fn host_command(
        &mut self,
        alloc: Global,
        hosts: HostDrive,
        command: &HostRequest,
        bytes: &[u8],
    ) -> Result<Outcome, AllocError>
        ensures ok { IfOk result (λ outcome. host_command_step self.old hosts command.now bytes.now ≡ (self.new, outcome)) }
        ensures err { OnErr result (self.new ≡ self.old) }
        ensures want { OnErr result (is_exchange command.now ≡ false) }
    {
        match command {
            HostRequest::SendDiagnostic { .. } => Ok(Outcome::good(Payload::none(alloc))),
            HostRequest::LogSelect {
                parameter_code_reset,
                save_parameters,
                page_control: _,
                page_code,
                subpage_code,
                parameter_list_length,
            } => {
                let query = LogSelect {
                    parameter_code_reset: *parameter_code_reset,
                    save_parameters: *save_parameters,
                    page_code: *page_code,
                    subpage_code: *subpage_code,
                    list_length: *parameter_list_length,
                };
                Ok(self.select_log(alloc, hosts, &query, bytes.len()))
            }
            HostRequest::LogSense {
                parameter_pointer_control,
                save_parameters,
                page_control: _,
                page_code,
                subpage_code,
                parameter_pointer,
                allocation_length,
            } => {
                let query = log_query(
                    *parameter_pointer_control,
                    *save_parameters,
                    *page_code,
                    *subpage_code,
                    *parameter_pointer,
                );
                self.sense_log(alloc, hosts, &query, usize::from(*allocation_length))
            }
            HostRequest::ModeSelect10 {
                save_pages,
                parameter_list_length,
            } => {
                let told = *parameter_list_length;
                Ok(self.select_mode(alloc, hosts, HeaderForm::Ten, *save_pages, told, bytes))
            }
            HostRequest::ModeSense10 {
                disable_block_descriptors,
                page_control,
                page_code,
                subpage_code,
                allocation_length,
            } => {
                let query = mode_query(
                    HeaderForm::Ten,
                    *disable_block_descriptors,
                    *page_control,
                    *page_code,
                    *subpage_code,
                );
                self.sense_mode(alloc, hosts, &query, usize::from(*allocation_length))
            }
            HostRequest::ReportSupportedOperationCodes {
                return_command_timeouts,
                reporting_options,
                requested_operation_code,
                requested_service_action,
                allocation_length,
            } => {
                let answer = codes_answer(
                    alloc,
                    Kind::Drive,
                    *return_command_timeouts,
                    *reporting_options,
                    *requested_operation_code,
                    *requested_service_action,
                )?;
                Ok(Outcome::answers(alloc, *allocation_length as usize, answer))
            }
            HostRequest::ReportSupportedTaskManagementFunctions {
                return_extended_data,
                allocation_length,
            } => {
                let data = supported_task_management(*return_extended_data);
                let payload = Payload::copied(alloc, data)?.cut(*allocation_length as usize);
                Ok(Outcome::good(payload))
            }
            HostRequest::PositionToElement { .. }
            | HostRequest::InitializeElementStatusWithRange { .. }
            | HostRequest::ExchangeMedium { .. } => {
                Ok(Outcome::check(alloc, Condition::InvalidCommandOperationCode))
            }
        }
    }

    /// MODE SELECT.
    fn select_mode(
        &mut self,
        alloc: Global,
        hosts: HostDrive,
        form: HeaderForm,
        save_pages: bool,
        list_length: u16,
        list: &[u8],
    ) -> Outcome
        ensures { host_selects self.old hosts (mode.selected (mode_of self.old hosts) (most_block Hosts) form save_pages list_length list.now) ≡ (self.new, result) }
    {
        let before = self.mode(hosts);
        let most = most_block(Profile::Hosts);
        match mode_pages::selected(before, most, form, save_pages, list_length, list) {
            Ok(values) => {
                self.block_length = values.block_length;
                self.hosts = Some(HostDrive {
                    compression: values.compression,
                    ..hosts
                });
                Outcome::set(alloc, is_other_mode(before, values))
            }
            Err(condition) => Outcome::check(alloc, condition),
        }
    }

    /// What MODE SELECT can change.
    fn mode(&self, hosts: HostDrive) -> ModeValues
        ensures { result ≡ mode_of self.now hosts }
    {
        ModeValues {
            block_length: self.block_length,
            compression: hosts.compression,
        }
    }

    /// MODE SENSE.
    fn sense_mode(
        &self,
        alloc: Global,
        hosts: HostDrive,
        query: &ModeSense,
        allocation_length: usize,
    ) -> Result<Outcome, AllocError>
        ensures { IfOk result (λ outcome. outcome ≡ answers allocation_length (drive_answer query.now (mode_state self.now hosts))) }
    {
        let state = DriveState {
            values: self.mode(hosts),
            write_protected: self.is_protected(),
            has_volume: self.bay.is_some(),
        };
        let answer = drive_mode_data(alloc, query, &state)?;
        Ok(Outcome::answers(alloc, allocation_length, answer))
    }

    /// LOAD UNLOAD.
    fn host_load(&mut self, alloc: Global, hosts: HostDrive, hold: bool, load: bool) -> Outcome
        ensures { host_loads self.old hosts self.old.bay hold load ≡ (self.new, result) }
    {
        match &mut self.bay {
            None => Outcome::check(alloc, Condition::MediumNotPresent),
            Some(volume) => {
                let told = told_of_load(self.loaded, load);
                volume.tape.rewind();
                self.loaded = load;
                self.hosts = Some(HostDrive {
                    held: hold,
                    ..hosts
                });
                Outcome::tells(alloc, told)
            }
        }
    }

    /// A command on the tape of the volume in the bay, which is counted.
    fn host_in_bay(
        &mut self,
        alloc: Global,
        hosts: HostDrive,
        request: &Request,
        bytes: &[u8],
    ) -> Result<Outcome, AllocError>
        ensures ok { IfOk result (λ outcome. host_in_bay self.old hosts self.old.bay request.now bytes.now ≡ (self.new, outcome)) }
        ensures err { OnErr result (self.new ≡ self.old) }
        ensures want { OnErr result (is_move request.now ≡ false) }
    {
        match &mut self.bay {
            None => Ok(Outcome::check(alloc, Condition::MediumNotPresent)),
            Some(volume) => {
                if !self.loaded {
                    return Ok(Outcome::check(alloc, not_ready(hosts.held)));
                }
                let before = volume.tape.bytes_before_position();
                let outcome = host_on_tape(
                    alloc,
                    &mut volume.tape,
                    volume.protected,
                    self.block_length,
                    request,
                    bytes,
                )?;
                let passed = volume.tape.bytes_before_position().saturating_sub(before);
                let sent = outcome.payload.bytes().len() as u64;
                self.hosts = Some(HostDrive {
                    counters: counted(hosts.counters, request, passed, sent),
                    ..hosts
                });
                Ok(outcome)
            }
        }
    }

    /// LOG SELECT.
    fn select_log(
        &mut self,
        alloc: Global,
        hosts: HostDrive,
        query: &LogSelect,
        data_length: usize,
    ) -> Outcome
        ensures { host_log_selects self.old hosts (log.selected kind.Drive query.now data_length) ≡ (self.new, result) }
    {
        match log_pages::selected(Kind::Drive, query, data_length) {
            Ok(change) => {
                self.hosts = Some(HostDrive {
                    counters: hosts.counters.after(change),
                    ..hosts
                });
                Outcome::tells(alloc, told_of_log(change))
            }
            Err(condition) => Outcome::check(alloc, condition),
        }
    }

    /// LOG SENSE.
    fn sense_log(
        &self,
        alloc: Global,
        hosts: HostDrive,
        query: &LogSense,
        allocation_length: usize,
    ) -> Result<Outcome, AllocError>
        ensures { IfOk result (λ outcome. outcome ≡ answers allocation_length (drive_log_data query.now (drive_log self.now hosts))) }
    {
        let answer = drive_log_data(alloc, query, &self.log(hosts))?;
        Ok(Outcome::answers(alloc, allocation_length, answer))
    }

    /// What its log pages are made of.
    fn log(&self, hosts: HostDrive) -> DriveLog
        ensures { result ≡ drive_log self.now hosts }
    {
        let volume = match &self.bay {
            Some(volume) if self.loaded => Some(volume_log(volume)),
            Some(_) | None => None,
        };
        DriveLog {
            counters: hosts.counters,
            volume,
        }
    }
}

/// Whether a MODE SELECT changed a value.
fn is_other_mode(before: ModeValues, after: ModeValues) -> bool
    ensures { result ≡ is_other_mode before after }
{
    after.block_length != before.block_length || after.compression != before.compression
}

/// What a LOAD UNLOAD tells every other nexus.
fn told_of_load(loaded: bool, load: bool) -> Option<Attention>
    ensures { result ≡ told_of_load loaded load }
{
    if load && !loaded {
        Some(Attention::MediumChanged)
    } else {
        None
    }
}

/// What is reported of a volume that isn't loaded.
fn not_ready(held: bool) -> Condition
    ensures { result ≡ not_ready held }
{
    if held {
        Condition::InitializingCommandRequired
    } else {
        Condition::MediumNotPresent
    }
}
