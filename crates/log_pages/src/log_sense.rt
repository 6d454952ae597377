ghost use Rattle.std.specs.Prelude.{◌≡◌, ◌≤◌, vec_len, Ok, Err, IfOk, IfErr};
ghost use Rattle.log_pages.specs.LogSense.{drive_log_data, changer_log_data, drive_log_fault, changer_log_fault, page_fault, is_refused, drive_page, changer_page};
ghost use Rattle.log_pages.specs.Pages.{tape_alert_flags};
ghost use Rattle.log_pages.specs.Parameters.{parameter_page};

use crate::drive_log::DriveLog;
use crate::layout::*;
use crate::page::{CommonLogPage, DriveLogPage, common_page_at, drive_page_at};
use crate::parameter_lists::{error_counters, sequential_access, tape_alert_flags, tape_capacity};
use crate::writing::parameter_page;
use scsi_sense::Condition;
use std::alloc::{AllocError, Global};

/// The fields of LOG SENSE (SPC-4, "LOG SENSE command"). PC is none of them: every value is the cumulative one (profile).
#[derive(Clone, Copy)]
pub struct LogSense {
    /// PPC.
    pub parameter_pointer_control: bool,
    /// SP.
    pub save_parameters: bool,
    /// 6 bits.
    pub page_code: u8,
    pub subpage_code: u8,
    pub parameter_pointer: u16,
}

impl LogSense {
    /// Whether a field has a value that no unit supports: PPC or SP is 1, or the parameter pointer is above the last code of the page.
    fn is_refused(&self, last_code: u16) -> bool
        ensures { result ≡ is_refused self.now last_code }
    {
        self.parameter_pointer_control || self.save_parameters || self.parameter_pointer > last_code
    }

    /// Why it is refused, of a page with this last parameter code, or where the unit hasn't the page.
    fn fault(&self, last_code: Option<u16>) -> Option<Condition>
        ensures { result ≡ page_fault last_code self.now }
    {
        match last_code {
            Some(last_code) if !self.is_refused(last_code) => None,
            Some(_) | None => Some(Condition::InvalidFieldInCdb),
        }
    }
}

/// Why a LOG SENSE of a drive is refused, which its fields decide alone.
pub fn drive_log_fault(sense: &LogSense) -> Option<Condition>
    ensures { result ≡ drive_log_fault sense.now }
{
    match drive_page_at(sense.page_code, sense.subpage_code) {
        Some(page) => sense.fault(Some(page.last_code())),
        None => sense.fault(None),
    }
}

/// Why a LOG SENSE of a changer is refused, which its fields decide alone.
pub fn changer_log_fault(sense: &LogSense) -> Option<Condition>
    ensures { result ≡ changer_log_fault sense.now }
{
    match common_page_at(sense.page_code, sense.subpage_code) {
        Some(page) => sense.fault(Some(page.last_code())),
        None => sense.fault(None),
    }
}

/// The data of LOG SENSE of a drive, not cut at the allocation length, or why the command is refused.
pub fn drive_log_data(
    alloc: Global,
    sense: &LogSense,
    log: &DriveLog,
) -> Result<Result<Vec<u8>, Condition>, AllocError>
    ensures data { IfOk result (λ answer. IfOk answer (λ bytes. drive_log_data sense.now log.now ≡ Ok bytes.items)) }
    ensures refused { IfOk result (λ answer. IfErr answer (λ condition. drive_log_data sense.now log.now ≡ Err condition)) }
    ensures short { IfOk result (λ answer. IfOk answer (λ bytes. vec_len bytes ≤ LONGEST_LOG_DATA)) }
{
    let Some(page) = drive_page_at(sense.page_code, sense.subpage_code) else {
        return Ok(Err(Condition::InvalidFieldInCdb));
    };
    if sense.is_refused(page.last_code()) {
        return Ok(Err(Condition::InvalidFieldInCdb));
    }
    Ok(Ok(drive_page(alloc, page, sense.parameter_pointer, log)?))
}

/// The data of LOG SENSE of a changer, not cut at the allocation length, or why the command is refused.
pub fn changer_log_data(
    alloc: Global,
    sense: &LogSense,
) -> Result<Result<Vec<u8>, Condition>, AllocError>
    ensures data { IfOk result (λ answer. IfOk answer (λ bytes. changer_log_data sense.now ≡ Ok bytes.items)) }
    ensures refused { IfOk result (λ answer. IfErr answer (λ condition. changer_log_data sense.now ≡ Err condition)) }
    ensures short { IfOk result (λ answer. IfOk answer (λ bytes. vec_len bytes ≤ LONGEST_LOG_DATA)) }
{
    let Some(page) = common_page_at(sense.page_code, sense.subpage_code) else {
        return Ok(Err(Condition::InvalidFieldInCdb));
    };
    if sense.is_refused(page.last_code()) {
        return Ok(Err(Condition::InvalidFieldInCdb));
    }
    Ok(Ok(changer_page(alloc, page, sense.parameter_pointer)?))
}

fn drive_page(
    alloc: Global,
    page: DriveLogPage,
    pointer: u16,
    log: &DriveLog,
) -> Result<Vec<u8>, AllocError>
    ensures page { IfOk result (λ bytes. bytes.items ≡ drive_page page pointer log.now) }
    ensures short { IfOk result (λ bytes. vec_len bytes ≤ LONGEST_LOG_DATA) }
{
    match page {
        DriveLogPage::Common(CommonLogPage::SupportedLogPages) => {
            Vec::from_slice(alloc, &DRIVE_LOG_PAGES)
        }
        DriveLogPage::Common(CommonLogPage::SupportedLogPagesAndSubpages) => {
            Vec::from_slice(alloc, &DRIVE_LOG_PAGES_AND_SUBPAGES)
        }
        DriveLogPage::Common(CommonLogPage::TapeAlert) => tape_alert_page(alloc, pointer),
        DriveLogPage::WriteErrorCounters => {
            let parameters = error_counters(log.counters.write_bytes_processed);
            parameter_page(alloc, WRITE_ERROR_COUNTERS, pointer, &parameters)
        }
        DriveLogPage::ReadErrorCounters => {
            let parameters = error_counters(log.counters.read_bytes_processed);
            parameter_page(alloc, READ_ERROR_COUNTERS, pointer, &parameters)
        }
        DriveLogPage::SequentialAccessDevice => {
            let parameters = sequential_access(alloc, &log.counters, log.volume)?;
            parameter_page(
                alloc,
                SEQUENTIAL_ACCESS_DEVICE,
                pointer,
                parameters.as_slice(),
            )
        }
        DriveLogPage::TapeCapacity => {
            parameter_page(alloc, TAPE_CAPACITY, pointer, &tape_capacity(log.volume))
        }
    }
}

fn changer_page(alloc: Global, page: CommonLogPage, pointer: u16) -> Result<Vec<u8>, AllocError>
    ensures page { IfOk result (λ bytes. bytes.items ≡ changer_page page pointer) }
    ensures short { IfOk result (λ bytes. vec_len bytes ≤ LONGEST_LOG_DATA) }
{
    match page {
        CommonLogPage::SupportedLogPages => Vec::from_slice(alloc, &CHANGER_LOG_PAGES),
        CommonLogPage::SupportedLogPagesAndSubpages => {
            Vec::from_slice(alloc, &CHANGER_LOG_PAGES_AND_SUBPAGES)
        }
        CommonLogPage::TapeAlert => tape_alert_page(alloc, pointer),
    }
}

fn tape_alert_page(alloc: Global, pointer: u16) -> Result<Vec<u8>, AllocError>
    ensures page { IfOk result (λ bytes. bytes.items ≡ parameter_page TAPE_ALERT pointer tape_alert_flags) }
    ensures short { IfOk result (λ bytes. vec_len bytes ≤ LONGEST_LOG_DATA) }
{
    let flags = tape_alert_flags(alloc)?;
    parameter_page(alloc, TAPE_ALERT, pointer, flags.as_slice())
}
