//! The sessions that go on, as the status shows them.

use library_status::SessionSummary;
use record_lines::time_text;
use server::{LiveSessions, SessionReport};
use std::alloc::{AllocError, Global};
use std::sync::Wait;

/// A summary of each session that goes on.
pub(crate) fn sessions_of<R: Wait>(
    rt: &R,
    alloc: Global,
    sessions: &LiveSessions,
) -> Result<Vec<SessionSummary>, AllocError> {
    let reports = sessions.reports(rt, alloc)?;
    let mut summaries = Vec::with_capacity(alloc, reports.len())?;
    for report in &reports {
        summaries.push(summary_of(alloc, report)?)?;
    }
    Ok(summaries)
}

fn summary_of(alloc: Global, report: &SessionReport) -> Result<SessionSummary, AllocError> {
    let address = match report.address {
        Some(address) => Some(address.to_string(alloc)?),
        None => None,
    };
    let start = match report.start {
        Some(time) => time_text(alloc, time)?,
        None => None,
    };
    Ok(SessionSummary {
        number: report.number,
        nexus: report.nexus,
        name: name_of(alloc, report.name.as_slice())?,
        address,
        start,
        commands: report.commands,
        received: report.received,
        sent: report.sent,
    })
}

/// The name of an initiator, if it has given one that is graphic ASCII, as iSCSI names are but for characters of other languages (RFC 7143,
/// "iSCSI Name Properties"). Another one isn't shown.
fn name_of(alloc: Global, name: &[u8]) -> Result<Option<String>, AllocError> {
    if name.is_empty() || !name.iter().all(|byte| byte.is_ascii_graphic()) {
        return Ok(None);
    }
    match str::from_utf8(name) {
        Ok(name) => Ok(Some(String::from_str(alloc, name)?)),
        Err(_) => Ok(None),
    }
}
