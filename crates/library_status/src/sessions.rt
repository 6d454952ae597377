//! A session that goes on, in JSON and in the picture.

ghost use Rattle.std.specs.Prelude.{◌≡◌, ◌++◌, OnOk, string_bytes};
ghost use Rattle.library_status.specs.Picture.{name_in_columns, name_picture, origin_picture, session_picture, whose_picture};
ghost use Rattle.library_status.specs.Sessions.{from_json, from_picture, name_json, nexus_json, nexus_picture, origin_json, quoted, session_json, since_picture, start_json, text_json, traffic_json, traffic_picture, whose_json};

use crate::rows::write_glyphs;
use crate::summary::SessionSummary;
use crate::word::Word;
use crate::words::{write_escaped, write_nexus, write_number, write_word, write_words};
use scsi_nexus::Nexus;
use std::alloc::AllocError;

/// How many columns a name has.
const COLUMNS: usize = 70;

/// Adds a session in JSON.
#[tactic(auto, unfolding(crate::specs::Sessions::session_json))]
pub(crate) fn write_session(text: &mut String, session: &SessionSummary) -> Result<(), AllocError>
    ensures { OnOk result (string_bytes text.new ≡ string_bytes text.old ++ session_json session.now) }
{
    write_whose(text, session)?;
    write_origin(text, session)?;
    write_traffic(text, session)?;
    write_word(text, Word::End)
}

#[tactic(auto, unfolding(crate::specs::Sessions::whose_json))]
fn write_whose(text: &mut String, session: &SessionSummary) -> Result<(), AllocError>
    ensures { OnOk result (string_bytes text.new ≡ string_bytes text.old ++ whose_json session.now) }
{
    write_number(text, Word::SessionNumber, session.number)?;
    write_word(text, Word::SessionNexus)?;
    write_nexus_or_null(text, session.nexus)
}

fn write_nexus_or_null(text: &mut String, nexus: Option<Nexus>) -> Result<(), AllocError>
    ensures { OnOk result (string_bytes text.new ≡ string_bytes text.old ++ nexus_json nexus) }
{
    match nexus {
        None => write_word(text, Word::Null),
        Some(nexus) => {
            write_nexus(text, Word::Quote, nexus)?;
            write_word(text, Word::Quote)
        }
    }
}

/// Its name, where it came from, and when it began.
#[tactic(auto, unfolding(crate::specs::Sessions::origin_json))]
fn write_origin(text: &mut String, session: &SessionSummary) -> Result<(), AllocError>
    ensures { OnOk result (string_bytes text.new ≡ string_bytes text.old ++ origin_json session.now) }
{
    write_name(text, session)?;
    write_from(text, session)?;
    write_start(text, session)
}

#[tactic(auto, unfolding(crate::specs::Sessions::name_json))]
fn write_name(text: &mut String, session: &SessionSummary) -> Result<(), AllocError>
    ensures { OnOk result (string_bytes text.new ≡ string_bytes text.old ++ name_json session.now) }
{
    write_word(text, Word::SessionName)?;
    write_text(text, &session.name)
}

#[tactic(auto, unfolding(crate::specs::Sessions::from_json))]
fn write_from(text: &mut String, session: &SessionSummary) -> Result<(), AllocError>
    ensures { OnOk result (string_bytes text.new ≡ string_bytes text.old ++ from_json session.now) }
{
    write_word(text, Word::SessionAddress)?;
    write_text(text, &session.address)
}

#[tactic(auto, unfolding(crate::specs::Sessions::start_json))]
fn write_start(text: &mut String, session: &SessionSummary) -> Result<(), AllocError>
    ensures { OnOk result (string_bytes text.new ≡ string_bytes text.old ++ start_json session.now) }
{
    write_word(text, Word::SessionStart)?;
    write_text(text, &session.start)
}

fn write_text(text: &mut String, value: &Option<String>) -> Result<(), AllocError>
    ensures { OnOk result (string_bytes text.new ≡ string_bytes text.old ++ text_json value.now) }
{
    match value {
        None => write_word(text, Word::Null),
        Some(value) => write_quoted(text, value.as_bytes()),
    }
}

#[tactic(auto, unfolding(crate::specs::Sessions::quoted))]
fn write_quoted(text: &mut String, bytes: &[u8]) -> Result<(), AllocError>
    ensures { OnOk result (string_bytes text.new ≡ string_bytes text.old ++ quoted bytes.now) }
{
    write_word(text, Word::Quote)?;
    write_escaped(text, bytes)?;
    write_word(text, Word::Quote)
}

/// How many commands came, and how many bytes each way.
#[tactic(auto, unfolding(crate::specs::Sessions::traffic_json))]
fn write_traffic(text: &mut String, session: &SessionSummary) -> Result<(), AllocError>
    ensures { OnOk result (string_bytes text.new ≡ string_bytes text.old ++ traffic_json session.now) }
{
    write_number(text, Word::Commands, session.commands)?;
    write_number(text, Word::Received, session.received)?;
    write_number(text, Word::Sent, session.sent)
}

/// Adds a session as lines.
#[tactic(auto, unfolding(crate::specs::Picture::session_picture))]
pub(crate) fn draw_session(text: &mut String, session: &SessionSummary) -> Result<(), AllocError>
    ensures { OnOk result (string_bytes text.new ≡ string_bytes text.old ++ session_picture session.now) }
{
    draw_whose(text, session)?;
    draw_origin(text, session)?;
    draw_traffic(text, session)
}

#[tactic(auto, unfolding(crate::specs::Picture::whose_picture))]
fn draw_whose(text: &mut String, session: &SessionSummary) -> Result<(), AllocError>
    ensures { OnOk result (string_bytes text.new ≡ string_bytes text.old ++ whose_picture session.now) }
{
    write_number(text, Word::SessionTitle, session.number)?;
    draw_nexus(text, session.nexus)
}

fn draw_nexus(text: &mut String, nexus: Option<Nexus>) -> Result<(), AllocError>
    ensures { OnOk result (string_bytes text.new ≡ string_bytes text.old ++ nexus_picture nexus) }
{
    match nexus {
        None => write_word(text, Word::NotIn),
        Some(nexus) => write_nexus(text, Word::UnitKind, nexus),
    }
}

#[tactic(auto, unfolding(crate::specs::Picture::origin_picture))]
fn draw_origin(text: &mut String, session: &SessionSummary) -> Result<(), AllocError>
    ensures { OnOk result (string_bytes text.new ≡ string_bytes text.old ++ origin_picture session.now) }
{
    draw_name(text, &session.name)?;
    draw_from(text, &session.address)?;
    draw_since(text, &session.start)
}

fn draw_name(text: &mut String, name: &Option<String>) -> Result<(), AllocError>
    ensures { OnOk result (string_bytes text.new ≡ string_bytes text.old ++ name_picture name.now) }
{
    match name {
        None => Ok(()),
        Some(name) => {
            write_word(text, Word::NameLine)?;
            draw_in_columns(text, name.as_bytes())
        }
    }
}

/// Adds a name; of one that is too long the first of it and a tilde.
#[tactic(auto, unfolding(crate::specs::Picture::name_in_columns))]
fn draw_in_columns(text: &mut String, name: &[u8]) -> Result<(), AllocError>
    ensures { OnOk result (string_bytes text.new ≡ string_bytes text.old ++ name_in_columns name.now) }
{
    if name.len() > COLUMNS {
        write_glyphs(text, &name[..COLUMNS - 1])?;
        text.push('~')
    } else {
        write_glyphs(text, name)
    }
}

fn draw_from(text: &mut String, address: &Option<String>) -> Result<(), AllocError>
    ensures { OnOk result (string_bytes text.new ≡ string_bytes text.old ++ from_picture address.now) }
{
    match address {
        None => Ok(()),
        Some(address) => write_words(text, Word::From, address.as_str()),
    }
}

fn draw_since(text: &mut String, time: &Option<String>) -> Result<(), AllocError>
    ensures { OnOk result (string_bytes text.new ≡ string_bytes text.old ++ since_picture time.now) }
{
    match time {
        None => Ok(()),
        Some(time) => write_words(text, Word::Since, time.as_str()),
    }
}

#[tactic(auto, unfolding(crate::specs::Sessions::traffic_picture))]
fn draw_traffic(text: &mut String, session: &SessionSummary) -> Result<(), AllocError>
    ensures { OnOk result (string_bytes text.new ≡ string_bytes text.old ++ traffic_picture session.now) }
{
    write_number(text, Word::CommandsLine, session.commands)?;
    write_number(text, Word::ReceivedLine, session.received)?;
    write_number(text, Word::SentLine, session.sent)
}
