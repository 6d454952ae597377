ghost use Rattle.std.specs.Prelude.{◌≡◌, ◌≤◌, ◌++◌, length, OnOk};
ghost use Rattle.iscsi_answers.specs.Texts.{text_items, text_item, send_targets, new_length, target_items, names_all, is_misplaced, declared_length};

use crate::send_targets::{Portals, write_pair, write_target};
use iscsi_keys::{TextItem, first_item, is_same_name, number_in};
use std::alloc::AllocError;

/// Adds the text that answers a text request, key by key: `SendTargets`, a length declared anew, which isn't answered where it is in
/// its range, and `NotUnderstood` for any other (RFC 7143, "Text Request").
pub fn write_text_answers(
    out: &mut Vec<u8>,
    portals: &Portals<'_>,
    discovery: bool,
    text: &[u8],
) -> Result<(), AllocError>
    requires { length text.now ≤ 65536 }
    ensures { OnOk result (out.new.items ≡ out.old.items ++ text_items discovery portals.now.name.now (target_items portals.now.name.now portals.now.group portals.now.address.now portals.now.all.now) text.now) }
{
    let mut left = text;
    'items: for _ in 0..text.len() + 1 {
        match first_item(left) {
            TextItem::End => return Ok(()),
            TextItem::Invalid(_) => return Ok(()),
            TextItem::Pair { key, value, rest } => {
                write_text_answer(out, portals, discovery, key, value)?;
                left = rest;
            }
        }
    }
    Ok(())
}

/// Adds the answer to one key.
#[tactic(auto, unfolding(crate::specs::Texts::text_item))]
fn write_text_answer(
    out: &mut Vec<u8>,
    portals: &Portals<'_>,
    discovery: bool,
    key: &[u8],
    value: &[u8],
) -> Result<(), AllocError>
    ensures { OnOk result (out.new.items ≡ out.old.items ++ text_item discovery portals.now.name.now (target_items portals.now.name.now portals.now.group portals.now.address.now portals.now.all.now) key.now value.now) }
{
    if key == b"SendTargets".as_slice() {
        write_targets(out, portals, discovery, value)
    } else if key == b"MaxRecvDataSegmentLength".as_slice() {
        write_length_answer(out, value)
    } else {
        write_pair(out, key, b"NotUnderstood")
    }
}

fn write_targets(
    out: &mut Vec<u8>,
    portals: &Portals<'_>,
    discovery: bool,
    value: &[u8],
) -> Result<(), AllocError>
    ensures { OnOk result (out.new.items ≡ out.old.items ++ send_targets discovery portals.now.name.now (target_items portals.now.name.now portals.now.group portals.now.address.now portals.now.all.now) value.now) }
{
    if names_all(discovery, value) {
        write_target(out, portals)
    } else if is_misplaced(discovery, value) {
        write_pair(out, b"SendTargets", b"Reject")
    } else if is_same_name(value, portals.name) {
        write_target(out, portals)
    } else {
        Ok(())
    }
}

fn names_all(discovery: bool, value: &[u8]) -> bool
    ensures { result ≡ names_all discovery value.now }
{
    if discovery {
        value == b"All".as_slice()
    } else {
        value.is_empty()
    }
}

fn is_misplaced(discovery: bool, value: &[u8]) -> bool
    ensures { result ≡ is_misplaced discovery value.now }
{
    if discovery {
        value.is_empty()
    } else {
        value == b"All".as_slice()
    }
}

fn write_length_answer(out: &mut Vec<u8>, value: &[u8]) -> Result<(), AllocError>
    ensures { OnOk result (out.new.items ≡ out.old.items ++ new_length value.now) }
{
    if declared_length(value).is_some() {
        Ok(())
    } else {
        write_pair(out, b"MaxRecvDataSegmentLength", b"Reject")
    }
}

/// The MaxRecvDataSegmentLength that a value declares, if it is in the range of the key.
pub fn declared_length(value: &[u8]) -> Option<u32>
    ensures { result ≡ declared_length value.now }
{
    match number_in(value) {
        Some(length) if length >= 512 && length <= 16_777_215 => Some(length),
        _ => None,
    }
}
