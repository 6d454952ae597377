//! The values of a table at the keys of options.

ghost use Rattle.std.specs.Prelude.{◌≡◌, ◌≤◌, None, OnErr, Some, IfOk, option_map, string_bytes};
ghost use Rattle.program_options.specs.ChapDigests.{digests_in};
ghost use Rattle.program_options.specs.Options.{IsWithin};
ghost use Rattle.program_options.specs.Profiles.{number_in, profile_in};
ghost use Rattle.program_options.specs.RecordFormats.{format_in};
ghost use Rattle.program_options.specs.Sizes.{memory_size_in, volume_size_in};
ghost use Rattle.toml.specs.Data.{as_integer, as_str, get_member};
ghost use Rattle.toml.specs.View.{table_view, view};
ghost use Rattle.configuration_file.specs.Says.{at};
ghost use Rattle.configuration_file.specs.Values.{IsAddressSaid, name_said, number_of, number_said, switch_said, text_said, word_said};

use crate::form::ValueForm;
use crate::key_fault::{KeyFault, ValueFault};
use given_options::{
    ServeKey, digests_by, format_by, library_number_by, memory_size_by, metrics_by, profile_by,
    target_name_by, volume_size_by,
};
use inquiry_data::LibraryNumber;
use program_options::{ChapDigests, RecordFormat};
use scsi_cdb::Profile;
use std::alloc::Global;
use std::net::SocketAddr;
use toml::{Table, Value};

/// The value at an option's key.
pub(crate) fn value_at(table: &Table, key: ServeKey) -> Option<&Value>
    ensures { option_map (λ value. view value.now) result ≡ at key (table_view table.now) }
{
    member_of(table, key.text())
}

/// The value at a key.
fn member_of<'a>(table: &'a Table, name: &str) -> Option<&'a Value>
    ensures { option_map (λ value. view value.now) result ≡ get_member name.now (table_view table.now) }
{
    table.get(name)
}

/// A value of another form.
pub(crate) fn misfit(key: ServeKey, form: ValueForm) -> KeyFault {
    KeyFault::Value(key, ValueFault::Form(form))
}

/// Whether a switch is on, if there is one.
pub(crate) fn switch_at(table: &Table, key: ServeKey) -> Result<Option<bool>, KeyFault>
    ensures ok { IfOk result (λ on. switch_said (at key (table_view table.now)) ≡ Some on) }
    ensures err { OnErr result (switch_said (at key (table_view table.now)) ≡ None) }
{
    let Some(value) = value_at(table, key) else {
        return Ok(None);
    };
    match value.as_bool() {
        Some(on) => Ok(Some(on)),
        None => Err(misfit(key, ValueForm::Switch)),
    }
}

/// A number, if there is one.
pub(crate) fn number_at(
    table: &Table,
    key: ServeKey,
    least: u32,
    most: u32,
) -> Result<Option<u32>, KeyFault>
    ensures ok { IfOk result (λ number. number_said least most (at key (table_view table.now)) ≡ Some number) }
    ensures range { IfOk result (IsWithin least most) }
    ensures err { OnErr result (number_said least most (at key (table_view table.now)) ≡ None) }
{
    let Some(value) = value_at(table, key) else {
        return Ok(None);
    };
    match number_in(value, least, most) {
        Some(number) => Ok(Some(number)),
        None => Err(misfit(key, ValueForm::Number { least, most })),
    }
}

/// The number that a value is, if it is one in the range.
fn number_in(value: &Value, least: u32, most: u32) -> Option<u32>
    ensures value { result ≡ number_of least most (as_integer (view value.now)) }
    ensures range { IsWithin least most result }
{
    match value.as_integer() {
        Some(number) => number_within(number, least, most),
        None => None,
    }
}

/// A number, if it is in the range.
fn number_within(number: i64, least: u32, most: u32) -> Option<u32>
    ensures value { result ≡ number_of least most (Some number) }
    ensures range { IsWithin least most result }
{
    if i64::from(least) <= number && number <= i64::from(most) {
        Some(number as u32)
    } else {
        None
    }
}

/// A number of 8 bits, if there is one.
pub(crate) fn byte_at(
    table: &Table,
    key: ServeKey,
    least: u8,
    most: u8,
) -> Result<Option<u8>, KeyFault>
    ensures ok { IfOk result (λ number. number_said least most (at key (table_view table.now)) ≡ Some number) }
    ensures range { IfOk result (IsWithin least most) }
    ensures err { OnErr result (number_said least most (at key (table_view table.now)) ≡ None) }
{
    match number_at(table, key, u32::from(least), u32::from(most))? {
        Some(number) => Ok(Some(number as u8)),
        None => Ok(None),
    }
}

/// A number of 16 bits, if there is one.
pub(crate) fn short_at(
    table: &Table,
    key: ServeKey,
    least: u16,
    most: u16,
) -> Result<Option<u16>, KeyFault>
    ensures ok { IfOk result (λ number. number_said least most (at key (table_view table.now)) ≡ Some number) }
    ensures range { IfOk result (IsWithin least most) }
    ensures err { OnErr result (number_said least most (at key (table_view table.now)) ≡ None) }
{
    match number_at(table, key, u32::from(least), u32::from(most))? {
        Some(number) => Ok(Some(number as u16)),
        None => Ok(None),
    }
}

/// The text that a value is.
fn word_in(value: &Value, key: ServeKey) -> Result<&str, KeyFault>
    ensures ok { IfOk result (λ word. as_str (view value.now) ≡ Some word.now) }
    ensures err { OnErr result (as_str (view value.now) ≡ None) }
{
    match value.as_str() {
        Some(word) => Ok(word),
        None => Err(misfit(key, ValueForm::Text)),
    }
}

/// A copy of a text, if there is one.
pub(crate) fn text_at(
    alloc: Global,
    table: &Table,
    key: ServeKey,
) -> Result<Option<String>, KeyFault>
    ensures { IfOk result (λ text. text_said (at key (table_view table.now)) ≡ Some (option_map string_bytes text)) }
{
    let Some(value) = value_at(table, key) else {
        return Ok(None);
    };
    let word = word_in(value, key)?;
    Ok(Some(String::from_str(alloc, word)?))
}

/// How many bytes of blocks a volume takes, if it is said.
pub(crate) fn volume_size_at(alloc: Global, table: &Table) -> Result<Option<u64>, KeyFault>
    ensures ok { IfOk result (λ size. word_said volume_size_in (at ServeKey.VolumeSize (table_view table.now)) ≡ Some size) }
    ensures range { IfOk result (IsWithin 1048576 68719476736) }
{
    let key = ServeKey::VolumeSize;
    let Some(value) = value_at(table, key) else {
        return Ok(None);
    };
    match volume_size_by(alloc, word_in(value, key)?) {
        Ok(size) => Ok(Some(size)),
        Err(fault) => Err(KeyFault::of_words(key, ValueForm::Text, fault)),
    }
}

/// In which form records are written into a file, if it is said.
pub(crate) fn format_at(alloc: Global, table: &Table) -> Result<Option<RecordFormat>, KeyFault>
    ensures { IfOk result (λ format. word_said format_in (at ServeKey.Format (table_view table.now)) ≡ Some format) }
{
    let key = ServeKey::Format;
    let Some(value) = value_at(table, key) else {
        return Ok(None);
    };
    match format_by(alloc, word_in(value, key)?) {
        Ok(format) => Ok(Some(format)),
        Err(fault) => Err(KeyFault::of_words(key, ValueForm::Text, fault)),
    }
}

/// Which profile the library has, if it is said.
pub(crate) fn profile_at(alloc: Global, table: &Table) -> Result<Option<Profile>, KeyFault>
    ensures { IfOk result (λ profile. word_said profile_in (at ServeKey.Profile (table_view table.now)) ≡ Some profile) }
{
    let key = ServeKey::Profile;
    let Some(value) = value_at(table, key) else {
        return Ok(None);
    };
    match profile_by(alloc, word_in(value, key)?) {
        Ok(profile) => Ok(Some(profile)),
        Err(fault) => Err(KeyFault::of_words(key, ValueForm::Text, fault)),
    }
}

/// Which number the library has, if it is said.
pub(crate) fn library_number_at(
    alloc: Global,
    table: &Table,
) -> Result<Option<LibraryNumber>, KeyFault>
    ensures { IfOk result (λ number. word_said number_in (at ServeKey.LibraryId (table_view table.now)) ≡ Some number) }
{
    let key = ServeKey::LibraryId;
    let Some(value) = value_at(table, key) else {
        return Ok(None);
    };
    match library_number_by(alloc, word_in(value, key)?) {
        Ok(number) => Ok(Some(number)),
        Err(fault) => Err(KeyFault::of_words(key, ValueForm::Text, fault)),
    }
}

/// How many bytes of memory volumes may take together, if it is said.
pub(crate) fn memory_size_at(alloc: Global, table: &Table) -> Result<Option<u64>, KeyFault>
    ensures { IfOk result (λ size. word_said memory_size_in (at ServeKey.Memory (table_view table.now)) ≡ Some size) }
{
    let key = ServeKey::Memory;
    let Some(value) = value_at(table, key) else {
        return Ok(None);
    };
    match memory_size_by(alloc, word_in(value, key)?) {
        Ok(size) => Ok(Some(size)),
        Err(fault) => Err(KeyFault::of_words(key, ValueForm::Text, fault)),
    }
}

/// Where metrics are asked for, if it is said.
pub(crate) fn metrics_at(alloc: Global, table: &Table) -> Result<Option<SocketAddr>, KeyFault>
    ensures { IfOk result (IsAddressSaid (at ServeKey.Metrics (table_view table.now))) }
{
    let key = ServeKey::Metrics;
    let Some(value) = value_at(table, key) else {
        return Ok(None);
    };
    match metrics_by(alloc, word_in(value, key)?) {
        Ok(address) => Ok(Some(address)),
        Err(fault) => Err(KeyFault::of_words(key, ValueForm::Text, fault)),
    }
}

/// By which digests initiators may prove that a name is theirs, if it is said.
pub(crate) fn digests_at(alloc: Global, table: &Table) -> Result<Option<ChapDigests>, KeyFault>
    ensures { IfOk result (λ digests. word_said digests_in (at ServeKey.ChapDigests (table_view table.now)) ≡ Some digests) }
{
    let key = ServeKey::ChapDigests;
    let Some(value) = value_at(table, key) else {
        return Ok(None);
    };
    match digests_by(alloc, word_in(value, key)?) {
        Ok(digests) => Ok(Some(digests)),
        Err(fault) => Err(KeyFault::of_words(key, ValueForm::Text, fault)),
    }
}

/// The target's name, if it is said.
pub(crate) fn target_name_at(alloc: Global, table: &Table) -> Result<Option<String>, KeyFault>
    ensures { IfOk result (λ name. name_said (at ServeKey.TargetName (table_view table.now)) ≡ Some (option_map string_bytes name)) }
{
    let key = ServeKey::TargetName;
    let Some(value) = value_at(table, key) else {
        return Ok(None);
    };
    match target_name_by(alloc, word_in(value, key)?) {
        Ok(name) => Ok(Some(name)),
        Err(fault) => Err(KeyFault::of_words(key, ValueForm::Text, fault)),
    }
}
