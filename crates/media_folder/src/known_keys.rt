//! Which keys the text of an inventory may have, at the top, in a volume and in its source.
use crate::inventory_text::{SOURCE, key_text};
use crate::text_fault::{InventoryKey, ReadFault};
use std::alloc::Global;
use toml::{Table, Value};
use toml_lines::first_line_with;

/// The keys at the top.
const KEYS: [InventoryKey; 10] = [
    InventoryKey::Version,
    InventoryKey::Drives,
    InventoryKey::Slots,
    InventoryKey::ImportExports,
    InventoryKey::Profile,
    InventoryKey::LibraryNumber,
    InventoryKey::Volume,
    InventoryKey::Missing,
    InventoryKey::Blank,
    InventoryKey::Protect,
];

/// The keys of an element, of which a volume and a source have one.
const ELEMENT_KEYS: [&str; 3] = ["data_transfer", "storage", "import_export"];

/// Looks whether each key is one that it may have in the text of an inventory: the first that isn't is told, with its line.
pub(crate) fn look_at_keys(alloc: Global, text: &[u8], table: &Table) -> Result<(), ReadFault> {
    let Some(key) = unknown_key(table) else {
        return Ok(());
    };
    let key = String::from_str(alloc, key.as_str())?;
    let line = first_line_with(alloc, text, |table: &Table| {
        unknown_key(table).is_some()
    })?;
    Err(ReadFault::UnknownKey { line, key })
}

/// A key that is none of an inventory's text, of a volume or of a source.
fn unknown_key(table: &Table) -> Option<&String> {
    let top = table.keys().find(|key| !is_key(key.as_str()));
    match top {
        Some(key) => Some(key),
        None => match unknown_in_volumes(table, InventoryKey::Volume) {
            Some(key) => Some(key),
            None => unknown_in_volumes(table, InventoryKey::Missing),
        },
    }
}

fn is_key(name: &str) -> bool {
    KEYS.iter().any(|key| key_text(*key) == name)
}

fn is_element_key(name: &str) -> bool {
    ELEMENT_KEYS.iter().any(|key| *key == name)
}

/// The same of the volumes under a key.
fn unknown_in_volumes(table: &Table, key: InventoryKey) -> Option<&String> {
    let Some(Value::Array(volumes)) = table.get(key_text(key)) else {
        return None;
    };
    for volume in volumes {
        if let Some(key) = unknown_in_volume(volume) {
            return Some(key);
        }
    }
    None
}

fn unknown_in_volume(volume: &Value) -> Option<&String> {
    let volume = volume.as_table()?;
    match volume.keys().find(|key| !is_volume_key(key.as_str())) {
        Some(key) => Some(key),
        None => {
            let source = volume.get(SOURCE)?.as_table()?;
            source.keys().find(|key| !is_element_key(key.as_str()))
        }
    }
}

/// Whether a volume may have a key. A source means nothing in a library of the default profile, and is passed over there.
fn is_volume_key(name: &str) -> bool {
    name == "tag" || name == SOURCE || is_element_key(name)
}
