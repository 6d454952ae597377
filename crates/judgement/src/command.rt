ghost use Rattle.std.specs.Prelude.{◌≡◌, true, IfOk, OnErr};
ghost use Rattle.judgement.specs.Received.{command_in};
ghost use Rattle.judgement.specs.Commands.{command_of, class_of_command, passes_over, act_of_decoded, is_reserve_out};

use crate::conditions::condition_of_fault;
use crate::received::ReceivedCommand;
use audit_log::Act;
use permit_tables::KeptParams;
use pr_params::read_out;
use scsi_cdb::{Class, InServiceAction, Request, class, class_of_prevent};
use scsi_sense::Condition;
use std::alloc::{AllocError, Global};

/// A command, decoded from its CDB and parameter list, as far as their lengths and codes go.
#[derive(Drop)]
pub enum Command {
    /// PERSISTENT RESERVE OUT with its parameter list.
    ReserveOut(KeptParams),
    /// PERSISTENT RESERVE IN.
    ReserveIn {
        service_action: InServiceAction,
        allocation_length: u16,
    },
    Inquiry {
        /// EVPD.
        vital_product_data: bool,
        page_code: u8,
        allocation_length: u16,
    },
    ReportLuns {
        select_report: u8,
        allocation_length: u32,
    },
    RequestSense {
        /// DESC.
        descriptor_format: bool,
        allocation_length: u8,
    },
    /// PREVENT ALLOW MEDIUM REMOVAL.
    Prevent {
        prevent: u8,
    },
    /// A command that the device carries out.
    Device(Request),
}

impl Command {
    /// The command that a CDB decodes to with the data sent with it, or what is reported of bytes that decode to none. PERSISTENT RESERVE OUT alone
    /// takes memory, for its list.
    pub fn of(
        alloc: Global,
        received: &ReceivedCommand<'_>,
    ) -> Result<Result<Command, Condition>, AllocError>
        ensures ok { IfOk result (λ it. it ≡ command_in received.now) }
        ensures want { OnErr result (is_reserve_out (command_in received.now) ≡ true) }
    {
        match received.request() {
            Ok(request) => Command::of_request(alloc, request, received.bytes()),
            Err(fault) => Ok(Err(condition_of_fault(fault))),
        }
    }

    fn of_request(
        alloc: Global,
        request: Request,
        bytes: &[u8],
    ) -> Result<Result<Command, Condition>, AllocError>
        ensures ok { IfOk result (λ it. it ≡ command_of request bytes.now) }
        ensures want { OnErr result (is_reserve_out (command_of request bytes.now) ≡ true) }
    {
        match request {
            Request::PersistentReserveOut {
                service_action,
                scope_type,
                parameter_list_length,
            } => {
                let length = parameter_list_length;
                match read_out(alloc, service_action, scope_type, length, bytes)? {
                    Ok(params) => Ok(Ok(Command::ReserveOut(KeptParams::new(alloc, params)?))),
                    Err(_) => Ok(Err(Condition::ParameterListLengthError)),
                }
            }
            Request::PersistentReserveIn {
                service_action,
                allocation_length,
            } => Ok(Ok(Command::ReserveIn {
                service_action,
                allocation_length,
            })),
            Request::Inquiry {
                vital_product_data,
                page_code,
                allocation_length,
            } => Ok(Ok(Command::Inquiry {
                vital_product_data,
                page_code,
                allocation_length,
            })),
            Request::ReportLuns {
                select_report,
                allocation_length,
            } => Ok(Ok(Command::ReportLuns {
                select_report,
                allocation_length,
            })),
            Request::RequestSense {
                descriptor_format,
                allocation_length,
            } => Ok(Ok(Command::RequestSense {
                descriptor_format,
                allocation_length,
            })),
            Request::PreventAllowMediumRemoval { prevent } => Ok(Ok(Command::Prevent { prevent })),
            device_command => Ok(Ok(Command::Device(device_command))),
        }
    }

    /// The row of the permission table that the command stands in.
    pub fn class(&self) -> Class
        ensures { result ≡ class_of_command self.now }
    {
        match self {
            Command::ReserveOut(list) => list.params().act.class(),
            Command::ReserveIn { .. } => Class::PersistentReserveIn,
            Command::Inquiry { .. } => Class::Inquiry,
            Command::ReportLuns { .. } => Class::ReportLuns,
            Command::RequestSense { .. } => Class::RequestSense,
            Command::Prevent { prevent } => class_of_prevent(*prevent),
            Command::Device(request) => class(request),
        }
    }
}

/// Whether a command of this class passes over the attentions that wait for its sender.
pub fn passes_over(class: Class) -> bool
    ensures { result ≡ passes_over class }
{
    matches!(
        class,
        Class::Inquiry | Class::ReportLuns | Class::RequestSense
    )
}

/// What a record says was asked by bytes.
pub fn act_of(decoded: Result<Command, Condition>) -> Act
    ensures { result ≡ act_of_decoded decoded }
{
    match decoded {
        Ok(Command::ReserveOut(list)) => Act::ReserveOut(list),
        Ok(command) => Act::Command(command.class()),
        Err(_) => Act::Invalid,
    }
}
