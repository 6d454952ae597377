//! The text in which the status of a library is told.

ghost use Rattle.std.specs.Prelude.{◌≡◌, IfOk, string_bytes};
ghost use Rattle.library_status.specs.Text.{status_lines};

use crate::json::write_library;
use crate::picture::write_picture;
use crate::summary::{LibrarySummary, ServerSummary, SessionSummary};
use crate::word::Word;
use crate::words::write_word;
use std::alloc::{AllocError, Global};

/// The summary of a library and of its server: a line of JSON, and then lines of at most 80 columns. Its length is bounded, since the units, their elements
/// and their registrations are.
#[tactic(auto, unfolding(crate::specs::Text::status_lines))]
pub fn status_text(
    alloc: Global,
    library: &LibrarySummary,
    sessions: &[SessionSummary],
    server: &ServerSummary,
) -> Result<String, AllocError>
    ensures { IfOk result (λ text. string_bytes text ≡ status_lines library.now sessions.now server.now) }
{
    let mut text = String::new(alloc);
    write_library(&mut text, library, sessions, server)?;
    write_word(&mut text, Word::EndOfLine)?;
    write_picture(&mut text, library, sessions, server)?;
    Ok(text)
}
