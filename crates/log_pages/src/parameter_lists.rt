ghost use Rattle.std.specs.Prelude.{◌≡◌, vec_len, IfOk};
ghost use Rattle.log_pages.specs.Pages.{error_counters, sequential_access, volume_parameters, tape_capacity, tape_alert_flags, megabytes, mebibytes};

use crate::counters::LogCounters;
use crate::drive_log::VolumeLog;
use crate::layout::*;
use crate::parameter::{LogParameter, ParameterValue};
use std::alloc::{AllocError, Global};

/// The parameters of an error counter page: nothing is ever corrected, and nothing fails (profile).
pub(crate) fn error_counters(total_bytes_processed: u64) -> [LogParameter; 7]
    ensures { result ≡ error_counters total_bytes_processed }
{
    [
        LogParameter::number(ERRORS_CORRECTED_WITHOUT_SUBSTANTIAL_DELAY, 0),
        LogParameter::number(ERRORS_CORRECTED_WITH_POSSIBLE_DELAYS, 0),
        LogParameter::number(TOTAL_REWRITES_OR_REREADS, 0),
        LogParameter::number(TOTAL_ERRORS_CORRECTED, 0),
        LogParameter::number(TOTAL_TIMES_CORRECTION_ALGORITHM_PROCESSED, 0),
        LogParameter::counter(TOTAL_BYTES_PROCESSED, total_bytes_processed),
        LogParameter::number(TOTAL_UNCORRECTED_ERRORS, 0),
    ]
}

/// The parameters of the Sequential-Access Device page. No cleaning is required.
pub(crate) fn sequential_access(
    alloc: Global,
    counters: &LogCounters,
    volume: Option<VolumeLog>,
) -> Result<Vec<LogParameter>, AllocError>
    ensures parameters { IfOk result (λ list. list.items ≡ sequential_access counters.now volume) }
    ensures count { IfOk result (λ list. vec_len list ≡ 10) }
{
    let mut parameters = Vec::from_slice(
        alloc,
        &[
            LogParameter::counter(DATA_BYTES_RECEIVED, counters.data_bytes_received),
            LogParameter::counter(DATA_BYTES_WRITTEN, counters.data_bytes_received),
            LogParameter::counter(DATA_BYTES_READ, counters.data_bytes_read),
            LogParameter::counter(DATA_BYTES_SENT, counters.data_bytes_sent),
        ],
    )?;
    parameters.extend_from_slice(&volume_parameters(volume))?;
    parameters.extend_from_slice(&[
        LogParameter::number(CAPACITY_IN_OBJECT_BUFFER, 0),
        LogParameter::number(CLEANING_REQUIRED, 0),
    ])?;
    Ok(parameters)
}

/// The parameters of the Sequential-Access Device page that are of the volume.
fn volume_parameters(volume: Option<VolumeLog>) -> [LogParameter; 4]
    ensures { result ≡ volume_parameters volume }
{
    match volume {
        None => [
            LogParameter::number(CAPACITY_TO_END_OF_DATA, NO_VOLUME),
            LogParameter::number(CAPACITY_TO_EARLY_WARNING, NO_VOLUME),
            LogParameter::number(CAPACITY_FROM_EARLY_WARNING, NO_VOLUME),
            LogParameter::number(CAPACITY_TO_POSITION, NO_VOLUME),
        ],
        Some(volume) => [
            LogParameter::number(CAPACITY_TO_END_OF_DATA, megabytes(volume.to_end_of_data)),
            LogParameter::number(
                CAPACITY_TO_EARLY_WARNING,
                megabytes(volume.capacity.saturating_sub(volume.early_warning)),
            ),
            LogParameter::number(CAPACITY_FROM_EARLY_WARNING, megabytes(volume.early_warning)),
            LogParameter::number(CAPACITY_TO_POSITION, megabytes(volume.position)),
        ],
    }
}

/// The parameters of the Tape Capacity page.
pub(crate) fn tape_capacity(volume: Option<VolumeLog>) -> [LogParameter; 4]
    ensures { result ≡ tape_capacity volume }
{
    let (left, capacity) = match volume {
        None => (0, 0),
        Some(volume) => (
            mebibytes(volume.capacity.saturating_sub(volume.to_end_of_data)),
            mebibytes(volume.capacity),
        ),
    };
    [
        LogParameter::number(REMAINING_CAPACITY_OF_PARTITION_0, left),
        LogParameter::number(REMAINING_CAPACITY_OF_PARTITION_1, 0),
        LogParameter::number(MAXIMUM_CAPACITY_OF_PARTITION_0, capacity),
        LogParameter::number(MAXIMUM_CAPACITY_OF_PARTITION_1, 0),
    ]
}

/// The parameters of the TapeAlert page, a flag each: none is set (profile).
#[tactic(auto, unfolding(crate::specs::Pages::tape_alert_flags))]
pub(crate) fn tape_alert_flags(alloc: Global) -> Result<Vec<LogParameter>, AllocError>
    ensures flags { IfOk result (λ list. list.items ≡ tape_alert_flags) }
    ensures count { IfOk result (λ list. vec_len list ≡ MOST_PARAMETERS) }
{
    let mut flags = Vec::new(alloc);
    for before in 0..LAST_TAPE_ALERT_FLAG {
        flags.push(LogParameter {
            code: before + 1,
            value: ParameterValue::OneByte(0),
        })?;
    }
    Ok(flags)
}

/// So many whole megabytes.
fn megabytes(bytes: u64) -> u32
    ensures { result ≡ megabytes bytes }
{
    (bytes / MEGABYTE).min(MOST_SHOWN) as u32
}

/// So many whole mebibytes.
fn mebibytes(bytes: u64) -> u32
    ensures { result ≡ mebibytes bytes }
{
    (bytes / MEBIBYTE).min(MOST_SHOWN) as u32
}
