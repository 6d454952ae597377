ghost use Rattle.std.specs.Prelude.{◌≡◌, IfOk};
ghost use Rattle.std.specs.Option.{option_map};
ghost use Rattle.iscsi_chap.specs.Secrets.{line_entry, said_value, fields_value, numbered, numbered_entry, credentials_value, credentials_fields_value, is_secret, has_secret, is_shared, checked};

use crate::entry::{ChapEntry, Credentials};
use crate::secrets_fault::LineFault;
use crate::words::first_word;
use iscsi_keys::is_iscsi_name;
use std::alloc::{AllocError, Global};

/// The fewest bytes of a secret, and the most.
const SHORTEST_SECRET: usize = 12;

const LONGEST_SECRET: usize = 128;

/// A user and a secret, where they stand in a line.
#[derive(Clone, Copy)]
pub(crate) struct CredentialsFields<'a> {
    pub(crate) user: &'a [u8],
    pub(crate) secret: &'a [u8],
}

/// An entry, where it stands in a line.
#[derive(Clone, Copy)]
pub(crate) struct Fields<'a> {
    pub(crate) host: &'a [u8],
    pub(crate) own: CredentialsFields<'a>,
    pub(crate) target: Option<CredentialsFields<'a>>,
}

/// What a line says: nothing, or an entry.
#[tactic(auto, unfolding(crate::specs::Secrets::line_entry))]
pub(crate) fn fields_in(line: &[u8]) -> Result<Option<Fields<'_>>, LineFault>
    ensures { said_value result ≡ line_entry line.now }
{
    let Some(host) = first_word(line) else {
        return Ok(None);
    };
    let Some(user) = first_word(host.rest) else {
        return Err(LineFault::FieldCount);
    };
    let Some(secret) = first_word(user.rest) else {
        return Err(LineFault::FieldCount);
    };
    let own = CredentialsFields {
        user: user.text,
        secret: secret.text,
    };
    let Some(target_user) = first_word(secret.rest) else {
        return checked(host.text, own, None);
    };
    let Some(target_secret) = first_word(target_user.rest) else {
        return Err(LineFault::FieldCount);
    };
    if first_word(target_secret.rest).is_some() {
        return Err(LineFault::FieldCount);
    }
    let target = CredentialsFields {
        user: target_user.text,
        secret: target_secret.text,
    };
    checked(host.text, own, Some(target))
}

/// An entry, where its host has an iSCSI name, and its secrets have their lengths and differ.
fn checked<'a>(
    host: &'a [u8],
    own: CredentialsFields<'a>,
    target: Option<CredentialsFields<'a>>,
) -> Result<Option<Fields<'a>>, LineFault>
    ensures { said_value result ≡ checked host.now (credentials_fields_value own.entry) (option_map credentials_fields_value target.entry) }
{
    if !is_secret(own.secret) || !has_secret(target) {
        return Err(LineFault::SecretLength);
    }
    if !is_iscsi_name(host) {
        return Err(LineFault::Name);
    }
    if is_shared(own, target) {
        return Err(LineFault::SameSecret);
    }
    Ok(Some(Fields { host, own, target }))
}

fn is_secret(secret: &[u8]) -> bool
    ensures { result ≡ is_secret secret.now }
{
    SHORTEST_SECRET <= secret.len() && secret.len() <= LONGEST_SECRET
}

fn has_secret(target: Option<CredentialsFields<'_>>) -> bool
    ensures { result ≡ has_secret (option_map credentials_fields_value target.entry) }
{
    match target {
        Some(target) => is_secret(target.secret),
        None => true,
    }
}

/// Whether the target has the host's secret.
pub(crate) fn is_shared(own: CredentialsFields<'_>, target: Option<CredentialsFields<'_>>) -> bool
    ensures { result ≡ is_shared (credentials_fields_value own.entry) (option_map credentials_fields_value target.entry) }
{
    match target {
        Some(target) => target.secret == own.secret,
        None => false,
    }
}

/// A copy of an entry of a line.
pub(crate) fn entry_of(
    alloc: Global,
    line: usize,
    fields: Fields<'_>,
) -> Result<ChapEntry, AllocError>
    ensures { IfOk result (λ entry. numbered_entry entry ≡ numbered line (fields_value fields.entry)) }
{
    Ok(ChapEntry {
        line,
        host: Vec::from_slice(alloc, fields.host)?,
        own: credentials_of(alloc, fields.own)?,
        target: match fields.target {
            None => None,
            Some(target) => Some(credentials_of(alloc, target)?),
        },
    })
}

fn credentials_of(alloc: Global, fields: CredentialsFields<'_>) -> Result<Credentials, AllocError>
    ensures { IfOk result (λ own. credentials_value own ≡ credentials_fields_value fields.entry) }
{
    Ok(Credentials {
        user: Vec::from_slice(alloc, fields.user)?,
        secret: Vec::from_slice(alloc, fields.secret)?,
    })
}
