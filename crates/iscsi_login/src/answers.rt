ghost use Rattle.std.specs.Prelude.{◌≡◌, ◌≤◌, ◌++◌, length, OnOk};
ghost use Rattle.std.specs.Fmt.{decimal};
ghost use Rattle.std.specs.Option.{option_copied};
ghost use Rattle.iscsi_keys.specs.Texts.{item_bytes};
ghost use Rattle.iscsi_login.specs.AnswerTexts.{answers_to, answer_item, known_answer, is_key_of, answers_of, group_tag};

use crate::admitted::{Admitted, entry_of};
use crate::chap_keys::{CHAP_A, CHAP_C, CHAP_I, CHAP_N, CHAP_R};
use crate::names::declared_value;
use crate::target::LoginTarget;
use iscsi_keys::{Key, KeyAnswer, Negotiation, TextItem, Word, first_item};
use itoa::Buffer;
use std::alloc::AllocError;

/// Adds the answers to a text. The first tell the portal group too, where the text names the target.
pub(crate) fn write_answers(
    out: &mut Vec<u8>,
    portal_group: u16,
    admitted: Option<Admitted>,
    target: &LoginTarget,
    text: &[u8],
) -> Result<(), AllocError>
    requires { length text.now ≤ 65536 }
    ensures { OnOk result (out.new.items ≡ out.old.items ++ answers_of portal_group admitted target.now text.now) }
{
    if let Some(admitted) = admitted {
        return write_offers(out, admitted.negotiation, text);
    }
    let Ok(admitted) = entry_of(target, text) else {
        return Ok(());
    };
    write_group_tag(out, portal_group, declared_value(text, Key::TargetName))?;
    write_offers(out, admitted.negotiation, text)
}

/// Adds the portal group, which each initiator is told that names the target, for discovery too (RFC 7143, "TargetPortalGroupTag").
fn write_group_tag(
    out: &mut Vec<u8>,
    portal_group: u16,
    wanted: Option<&[u8]>,
) -> Result<(), AllocError>
    ensures { OnOk result (out.new.items ≡ out.old.items ++ group_tag portal_group (option_copied wanted.entry)) }
{
    match wanted {
        None => Ok(()),
        Some(_) => write_number(out, b"TargetPortalGroupTag", u32::from(portal_group)),
    }
}

/// Adds the answer to each key of the text that is answered.
fn write_offers(out: &mut Vec<u8>, negotiation: Negotiation, text: &[u8]) -> Result<(), AllocError>
    requires { length text.now ≤ 65536 }
    ensures { OnOk result (out.new.items ≡ out.old.items ++ answers_to negotiation text.now) }
{
    let mut negotiation = negotiation;
    let mut left = text;
    'items: for _ in 0..text.len() + 1 {
        match first_item(left) {
            TextItem::End => return Ok(()),
            TextItem::Invalid(_) => return Ok(()),
            TextItem::Pair { key, value, rest } => {
                let method = negotiation.terms.method;
                let answer = negotiation.offer(key, value);
                write_answer(out, method, key, answer.unwrap_or(KeyAnswer::Nothing))?;
                left = rest;
            }
        }
    }
    Ok(())
}

/// Adds the answer to a key, where the authentication that is asked for doesn't answer it.
fn write_answer(
    out: &mut Vec<u8>,
    method: Word,
    key: &[u8],
    answer: KeyAnswer,
) -> Result<(), AllocError>
    ensures { OnOk result (out.new.items ≡ out.old.items ++ answer_item method key.now answer) }
{
    if is_key_of(method, key) {
        return Ok(());
    }
    write_known_answer(out, key, answer)
}

/// Whether it is a key of the authentication method.
fn is_key_of(method: Word, key: &[u8]) -> bool
    ensures { result ≡ is_key_of method key.now }
{
    match method {
        Word::Chap => {
            key == CHAP_A || key == CHAP_I || key == CHAP_C || key == CHAP_N || key == CHAP_R
        }
        Word::None | Word::Rfc3720 => false,
    }
}

fn write_known_answer(out: &mut Vec<u8>, key: &[u8], answer: KeyAnswer) -> Result<(), AllocError>
    ensures { OnOk result (out.new.items ≡ out.old.items ++ known_answer key.now answer) }
{
    match answer {
        KeyAnswer::Nothing => Ok(()),
        KeyAnswer::Number(number) => write_number(out, key, number),
        KeyAnswer::Boolean(true) => write_pair(out, key, b"Yes"),
        KeyAnswer::Boolean(false) => write_pair(out, key, b"No"),
        KeyAnswer::Word(word) => write_pair(out, key, word.text()),
        KeyAnswer::Reject => write_pair(out, key, b"Reject"),
        KeyAnswer::NotUnderstood => write_pair(out, key, b"NotUnderstood"),
        KeyAnswer::Irrelevant => write_pair(out, key, b"Irrelevant"),
    }
}

pub(crate) fn write_number(out: &mut Vec<u8>, key: &[u8], number: u32) -> Result<(), AllocError>
    ensures { OnOk result (out.new.items ≡ out.old.items ++ item_bytes key.now (decimal number)) }
{
    let mut buffer = Buffer::new();
    write_pair(out, key, buffer.format(number).as_bytes())
}

pub(crate) fn write_pair(out: &mut Vec<u8>, key: &[u8], value: &[u8]) -> Result<(), AllocError>
    ensures { OnOk result (out.new.items ≡ out.old.items ++ item_bytes key.now value.now) }
{
    out.extend_from_slice(key)?;
    out.push(b'=')?;
    out.extend_from_slice(value)?;
    out.push(0)?;
    Ok(())
}
