//! What is told of the server beside its library.

use crate::process_memory::resident_memory;
use crate::saved_library::FolderKeeper;
use library_status::ServerSummary;
use metrics_text::ServerCounts;
use server::LiveSessions;
use std::alloc::{AllocError, Global};
use std::sync::Wait;

/// How much memory the server has, and what it can't write. Without a keeper the tapes are gone with the library.
pub(crate) fn summary_of_server(
    alloc: Global,
    files: &HostRuntime,
    keeper: Option<&FolderKeeper<'_>>,
) -> Result<ServerSummary, AllocError> {
    let memory = resident_memory(files);
    match keeper {
        Some(keeper) => Ok(ServerSummary {
            memory,
            failing: keeper.failing(alloc)?,
            is_inventory_failing: keeper.is_inventory_failing(),
        }),
        None => Ok(ServerSummary {
            memory,
            failing: Vec::new(alloc),
            is_inventory_failing: false,
        }),
    }
}

/// What is counted of it.
pub(crate) fn counts_of_server<R: Wait>(
    rt: &R,
    keeper: Option<&FolderKeeper<'_>>,
    sessions: &LiveSessions,
) -> ServerCounts {
    let totals = sessions.totals(rt);
    ServerCounts {
        sessions: totals.sessions as u64,
        commands: totals.commands,
        received: totals.received,
        sent: totals.sent,
        awaited_saves: awaited_saves(rt, keeper) as u64,
        last_sync: last_sync(rt, keeper),
    }
}

/// How many saves replies wait for.
fn awaited_saves<R: Wait>(rt: &R, keeper: Option<&FolderKeeper<'_>>) -> usize {
    match keeper {
        Some(keeper) => keeper.awaited_saves(rt),
        None => 0,
    }
}

/// How many microseconds the last save took that a reply waited for.
fn last_sync<R: Wait>(rt: &R, keeper: Option<&FolderKeeper<'_>>) -> Option<u64> {
    let time = keeper?.last_save(rt)?;
    Some(u64::try_from(time.as_micros()).unwrap_or(u64::MAX))
}
