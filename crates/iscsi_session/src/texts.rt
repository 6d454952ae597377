//! Text requests and their answers, either of which may go on in further PDUs (RFC 7143, "Text Request", "Text Response").
ghost use Rattle.std.specs.Prelude.{◌≡◌, ◌≤◌, ◌+◌, false, length, IfErr, IfOk, OnOk};
ghost use Rattle.iscsi_session.specs.Faults.{IsInside};
ghost use Rattle.iscsi_session.specs.Saying.{AddsPlain, numbered};

use crate::connection::Connection;
use crate::fault::IscsiFault;
use crate::portal::Portal;
use crate::requests::{BasicHeader, turn_down};
use iscsi_answers::{
    Portals, TextTags, TransferLimits, declared_length, is_overdone, write_text_answers,
    write_text_response,
};
use iscsi_keys::Key;
use iscsi_login::{SessionType, declared_value};
use iscsi_pdu::{RESERVED_TAG, RejectReason, TextRequest};
use std::alloc::{AllocError, Global};
use std::marker::Model;

/// The most bytes of a text, all its pieces together.
const MOST_TEXT: usize = 65_536;

/// The target transfer tag of texts.
const TEXT_TAG: u32 = 1;

/// A text that comes, and the answer to it.
///
/// ```text
/// nothing ──(a request)──> gathering ──(requests with C)──> gathering
///                          gathering ──(a request without C)──> answering ──(empty requests)──> nothing
/// ```
#[derive(Drop)]
pub(crate) struct OpenText {
    /// What has come of a text whose end hasn't.
    gathered: Vec<u8>,
    /// The answer to a text that was whole.
    answer: Vec<u8>,
    /// How much of it was sent.
    sent: usize,
    /// The target transfer tag of the request that goes on with either, where one is awaited.
    tag: Option<u32>,
}

impl Model for OpenText {
    ghost use Rattle.iscsi_session.specs.Texts.{OpenTextValue};

    ghost Value = { OpenTextValue };

    ghost view = { λ t. record { gathered = t.gathered.items; answer = t.answer.items; sent = t.sent; tag = t.tag } };
}

impl OpenText {
    ghost use Rattle.iscsi_answers.specs.Texts.{target_items};
    ghost use Rattle.iscsi_session.specs.Texts.{nothing_open, left_of, may_come, with_piece, is_discovery, answered_whole};

    pub(crate) fn new(alloc: Global) -> OpenText
        ensures { result ≡ nothing_open }
    {
        OpenText {
            gathered: Vec::new(alloc),
            answer: Vec::new(alloc),
            sent: 0,
            tag: None,
        }
    }

    fn forget(&mut self)
        ensures { self.new ≡ nothing_open }
    {
        self.gathered.clear();
        self.answer.clear();
        self.sent = 0;
        self.tag = None;
    }

    /// What is left of the answer.
    fn left(&self) -> &[u8]
        ensures { result.now ≡ left_of self.now }
    {
        let answer = self.answer.as_slice();
        &answer[self.sent.min(answer.len())..]
    }

    /// Behind a piece of the answer, of so many bytes at most, by a request that may be the last.
    fn has_sent(&mut self, most: usize, is_final: bool) {
        let is_at_end = is_final && self.left().len() <= most;
        self.sent = self.sent.saturating_add(most);
        self.tag = if is_at_end { None } else { Some(TEXT_TAG) };
    }

    /// Whether a request with so many bytes of text may come: one with C has no F, no text comes before the answer to the one before it is
    /// sent, and none is too long.
    fn may_come(&self, request: &TextRequest, payload: &[u8]) -> bool
        ensures { result ≡ may_come self.now request.now.is_final request.now.continues (length payload.now) }
    {
        if self.gathered.as_slice().len() + payload.len() > MOST_TEXT {
            return false;
        }
        if request.continues && request.is_final {
            return false;
        }
        self.left().is_empty() || !request.continues && payload.is_empty()
    }

    /// Adds a piece of the text.
    fn gather(&mut self, payload: &[u8]) -> Result<(), AllocError>
        ensures { OnOk result (self.new ≡ with_piece self.old payload.now) }
    {
        self.gathered.extend_from_slice(payload)?;
        Ok(())
    }

    /// Makes the answer to a text that is whole, where nothing is left of that to the one before it.
    fn answer(&mut self, portal: &Portal<'_>, session_type: SessionType) -> Result<(), AllocError>
        requires { length self.old.gathered ≤ 65536 }
        ensures { OnOk result (self.new ≡ answered_whole (is_discovery session_type) portal.now.target.now.name.items
            (target_items portal.now.target.now.name.items portal.now.group portal.now.address.now portal.now.portals.now)
            self.old) }
    {
        if !self.left().is_empty() {
            return Ok(());
        }
        self.answer.clear();
        self.sent = 0;
        let portals = Portals {
            name: portal.target.name.as_slice(),
            group: portal.group,
            address: portal.address.as_bytes(),
            all: portal.portals,
        };
        let discovery = matches!(session_type, SessionType::Discovery);
        write_text_answers(
            &mut self.answer,
            &portals,
            discovery,
            self.gathered.as_slice(),
        )?;
        self.gathered.clear();
        Ok(())
    }
}

/// Takes a text request: the first of a text, or one that goes on with a text or asks for what is left of the answer.
pub(crate) fn take_text(
    connection: &mut Connection<'_>,
    session_type: SessionType,
    request: &TextRequest,
    header: &BasicHeader,
    payload: &[u8],
) -> Result<bool, IscsiFault>
    ensures stays { IfOk result (λ ends. ends ≡ false) }
    ensures fault { IfErr result IsInside }
    ensures tasks { connection.new.tasks ≡ numbered connection.old.tasks request.now.immediate request.now.cmd_sn }
    ensures said { OnOk result (AddsPlain connection.old.out.items connection.new.out.items) }
{
    if !connection
        .tasks
        .take_number(request.immediate, request.cmd_sn)
    {
        return Ok(false);
    }
    if request.target_transfer_tag == RESERVED_TAG {
        connection.open_text.forget();
    } else if connection.open_text.tag != Some(request.target_transfer_tag) {
        return turn_down(connection, RejectReason::ProtocolError, header);
    }
    if !connection.open_text.may_come(request, payload) {
        connection.open_text.forget();
        return turn_down(connection, RejectReason::ProtocolError, header);
    }
    take_piece(connection, session_type, request, header, payload)
}

/// Takes a piece of a text, and answers it: without a text as long as more is to come. A text that has a key twice is rejected, and
/// forgotten (RFC 7143, "Text Mode Negotiation"), and so is one that has more keys than any (`is_overdone`).
fn take_piece(
    connection: &mut Connection<'_>,
    session_type: SessionType,
    request: &TextRequest,
    header: &BasicHeader,
    payload: &[u8],
) -> Result<bool, IscsiFault>
    requires { length connection.old.open_text.gathered + length payload.now ≤ 65536 }
    ensures stays { IfOk result (λ ends. ends ≡ false) }
    ensures fault { IfErr result IsInside }
    ensures tasks { connection.new.tasks ≡ connection.old.tasks }
    ensures said { OnOk result (AddsPlain connection.old.out.items connection.new.out.items) }
{
    connection.open_text.gather(payload)?;
    if request.continues {
        answer_text(connection, request)?;
        return Ok(false);
    }
    if is_overdone(connection.open_text.gathered.as_slice()) {
        connection.open_text.forget();
        return turn_down(connection, RejectReason::ProtocolError, header);
    }
    answer_whole(connection, session_type, request)?;
    Ok(false)
}

/// Answers a text that is whole, and goes by the length that it declares anew, if it does, from the next PDU on.
fn answer_whole(
    connection: &mut Connection<'_>,
    session_type: SessionType,
    request: &TextRequest,
) -> Result<(), IscsiFault>
    requires { length connection.old.open_text.gathered ≤ 65536 }
    ensures fault { IfErr result IsInside }
    ensures tasks { connection.new.tasks ≡ connection.old.tasks }
    ensures said { OnOk result (AddsPlain connection.old.out.items connection.new.out.items) }
{
    let declared = length_in(connection.open_text.gathered.as_slice());
    connection
        .open_text
        .answer(&connection.portal, session_type)?;
    answer_text(connection, request)?;
    declare(&mut connection.limits, declared);
    Ok(())
}

/// Adds what is left of an answer, as much of it as the initiator takes.
fn answer_text(connection: &mut Connection<'_>, request: &TextRequest) -> Result<(), IscsiFault>
    ensures fault { IfErr result IsInside }
    ensures tasks { connection.new.tasks ≡ connection.old.tasks }
    ensures said { OnOk result (AddsPlain connection.old.out.items connection.new.out.items) }
{
    let numbers = connection.numbers();
    let tags = TextTags {
        initiator_task_tag: request.initiator_task_tag,
        target_transfer_tag: TEXT_TAG,
        is_final: request.is_final,
    };
    let left = connection.open_text.left();
    write_text_response(&mut connection.out, connection.limits, numbers, tags, left)?;
    let most = connection.limits.max_data_segment_length as usize;
    connection.open_text.has_sent(most, request.is_final);
    connection.has_answered();
    Ok(())
}

/// The length that a text declares anew, if it does.
fn length_in(text: &[u8]) -> Option<u32>
    requires { length text.now ≤ 65536 }
{
    match declared_value(text, Key::MaxRecvDataSegmentLength) {
        None => None,
        Some(value) => declared_length(value),
    }
}

/// Goes by the length that was declared anew, if it was, from the next PDU on.
fn declare(limits: &mut TransferLimits, declared: Option<u32>) {
    if let Some(length) = declared {
        *limits = TransferLimits::new(length, limits.max_burst_length);
    }
}
