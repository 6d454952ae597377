//! What commands of the hosts' profile ask of mode pages, log pages and lists of commands, by their fields, and what of it drives and changers
//! answer alike.
ghost use Rattle.std.specs.Prelude.{◌≡◌, ◌≤◌, length, Ok, Err, IfOk, MatchResult};
ghost use Rattle.supported_commands.specs.Options.{options_at};
ghost use Rattle.device_server.specs.Hosts.{mode_sense, log_sense, codes_asked, codes_answer, told_of_log};

use log_pages::{LogChange, LogSense};
use mode_pages::{HeaderForm, ModeSense, PageControl};
use scsi_cdb::Kind;
use scsi_sense::Condition;
use std::alloc::{AllocError, Global};
use supported_commands::{ReportOperationCodes, ReportingOptions, supported_operation_codes};
use unit_attention::Kind as Attention;

/// What a MODE SENSE asks for.
pub fn mode_query(
    form: HeaderForm,
    disable_block_descriptors: bool,
    page_control: u8,
    page_code: u8,
    subpage_code: u8,
) -> ModeSense
    ensures { result ≡ mode_sense form disable_block_descriptors page_control page_code subpage_code }
{
    ModeSense {
        form,
        disable_block_descriptors,
        page_control: PageControl::of(page_control),
        page_code,
        subpage_code,
    }
}

/// What a LOG SENSE asks for.
pub fn log_query(
    parameter_pointer_control: bool,
    save_parameters: bool,
    page_code: u8,
    subpage_code: u8,
    parameter_pointer: u16,
) -> LogSense
    ensures { result ≡ log_sense parameter_pointer_control save_parameters page_code subpage_code parameter_pointer }
{
    LogSense {
        parameter_pointer_control,
        save_parameters,
        page_code,
        subpage_code,
        parameter_pointer,
    }
}

/// What a REPORT SUPPORTED OPERATION CODES asks for.
pub(crate) fn codes_query(
    return_timeouts: bool,
    options: ReportingOptions,
    operation_code: u8,
    service_action: u16,
) -> ReportOperationCodes
    ensures { result ≡ codes_asked return_timeouts options operation_code service_action }
{
    ReportOperationCodes {
        return_timeouts,
        options,
        operation_code,
        service_action,
    }
}

/// The data of REPORT SUPPORTED OPERATION CODES of a unit of the kind, uncut, at most 1,024 bytes, or why it is refused.
pub fn codes_answer(
    alloc: Global,
    kind: Kind,
    return_timeouts: bool,
    options: u8,
    operation_code: u8,
    service_action: u16,
) -> Result<Result<Vec<u8>, Condition>, AllocError>
    ensures answer { IfOk result (λ answer. MatchResult answer
        (λ bytes. codes_answer kind return_timeouts (options_at options) operation_code service_action ≡ Ok bytes.items)
        (λ condition. codes_answer kind return_timeouts (options_at options) operation_code service_action ≡ Err condition)) }
    ensures short { IfOk result (λ answer. IfOk answer (λ bytes. length bytes.items ≤ 1024)) }
{
    let Some(options) = ReportingOptions::of(options) else {
        return Ok(Err(Condition::InvalidFieldInCdb));
    };
    let query = codes_query(return_timeouts, options, operation_code, service_action);
    supported_operation_codes(alloc, kind, &query)
}

/// What a LOG SELECT tells every other nexus.
pub fn told_of_log(change: LogChange) -> Option<Attention>
    ensures { result ≡ told_of_log change }
{
    if change.is_reset() {
        Some(Attention::LogParametersChanged)
    } else {
        None
    }
}
