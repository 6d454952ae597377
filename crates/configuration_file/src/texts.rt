//! Values of several texts: the portals, and the hosts that are let in.

ghost use Rattle.std.specs.Prelude.{◌≡◌, ◌≤◌, IfOk, IfSome, vec_len};

use crate::form::ValueForm;
use crate::key_fault::KeyFault;
use crate::values::{misfit, value_at};
use given_options::{ServeKey, hosts_by, portals_by};
use program_options::{NamedHost, PortalOptions};
use std::alloc::{AllocError, Global};
use toml::{Table, Value};

/// The portals, if they are said.
pub(crate) fn portals_at(
    alloc: Global,
    table: &Table,
) -> Result<Option<Vec<PortalOptions>>, KeyFault>
    ensures { IfOk result (λ portals. IfSome portals (λ p. (1 ≤ vec_len p) × (vec_len p ≤ 4))) }
{
    let key = ServeKey::Iscsi;
    let form = ValueForm::Texts;
    let Some(value) = value_at(table, key) else {
        return Ok(None);
    };
    let Some(items) = value.as_array() else {
        return Err(misfit(key, form));
    };
    let words = words_in(alloc, items, key, form)?;
    match portals_by(alloc, words.as_slice()) {
        Ok(portals) => Ok(Some(portals)),
        Err(fault) => Err(KeyFault::of_words(key, form, fault)),
    }
}

/// The texts of an array.
fn words_in<'a>(
    alloc: Global,
    items: &'a [Value],
    key: ServeKey,
    form: ValueForm,
) -> Result<Vec<&'a str>, KeyFault> {
    let mut words = Vec::new(alloc);
    for item in items {
        match item.as_str() {
            Some(word) => words.push(word).map_err(AllocError::from)?,
            None => return Err(misfit(key, form)),
        }
    }
    Ok(words)
}

/// The hosts that are let in by name, if they are said. A line `"NAME" = "SAS"` is read as `NAME=SAS` is on the command line.
pub(crate) fn hosts_at(alloc: Global, table: &Table) -> Result<Option<Vec<NamedHost>>, KeyFault> {
    let key = ServeKey::Hosts;
    let form = ValueForm::TextTable;
    let Some(value) = value_at(table, key) else {
        return Ok(None);
    };
    let Some(members) = value.as_table() else {
        return Err(misfit(key, form));
    };
    let words = host_words_in(alloc, members, key, form)?;
    match hosts_by(alloc, words.as_slice()) {
        Ok(hosts) => Ok(Some(hosts)),
        Err(fault) => Err(KeyFault::of_words(key, form, fault)),
    }
}

/// The words `NAME=SAS` of a table's texts.
fn host_words_in(
    alloc: Global,
    members: &Table,
    key: ServeKey,
    form: ValueForm,
) -> Result<Vec<String>, KeyFault> {
    let mut words = Vec::new(alloc);
    for (name, value) in members {
        let Some(sas) = value.as_str() else {
            return Err(misfit(key, form));
        };
        let word = format!(in alloc; "{name}={sas}")?;
        words.push(word).map_err(AllocError::from)?;
    }
    Ok(words)
}
