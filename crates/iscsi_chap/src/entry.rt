ghost use Rattle.std.specs.Prelude.{◌≡◌};
ghost use Rattle.std.specs.Option.{option_map};
ghost use Rattle.iscsi_chap.specs.Secrets.{credentials_value, credentials_fields_value};

use crate::fields::CredentialsFields;
use iscsi_keys::is_same_name;

/// By which one side shows who it is.
#[derive(Drop)]
pub struct Credentials {
    pub user: Vec<u8>,
    /// 12 to 128 bytes.
    pub secret: Vec<u8>,
}

impl Credentials {
    /// The same, where they stand here.
    pub(crate) fn fields(&self) -> CredentialsFields<'_>
        ensures { credentials_fields_value result ≡ credentials_value self.now }
    {
        CredentialsFields {
            user: self.user.as_slice(),
            secret: self.secret.as_slice(),
        }
    }
}

/// What a host and the target show each other.
#[derive(Drop)]
pub struct ChapEntry {
    /// The line of the secrets file, counted from 1.
    pub line: usize,
    /// The host's iSCSI name.
    pub host: Vec<u8>,
    pub own: Credentials,
    /// What the target shows to a host that wants it to, if it does.
    pub target: Option<Credentials>,
}

impl ChapEntry {
    ghost use Rattle.iscsi_chap.specs.Entries.{is_entry_of};

    /// Whether it is of the host, by a name in letters of either case, and of the user.
    pub(crate) fn is_of(&self, host: &[u8], user: &[u8]) -> bool
        ensures { result ≡ is_entry_of self.now host.now user.now }
    {
        is_same_name(self.host.as_slice(), host) && self.own.user.as_slice() == user
    }

    /// What the target shows, where it stands here.
    pub(crate) fn target_fields(&self) -> Option<CredentialsFields<'_>>
        ensures { option_map credentials_fields_value result ≡ option_map credentials_value self.now.target }
    {
        match &self.target {
            Some(target) => Some(target.fields()),
            None => None,
        }
    }
}

/// Who is let in by what secret. It can't be printed.
#[derive(Drop)]
pub struct ChapSecrets {
    /// No two of a file have one host and one user, and no target's secret is a host's; of two elsewhere the first counts.
    pub entries: Vec<ChapEntry>,
}

impl ChapSecrets {
    ghost use Rattle.iscsi_chap.specs.Entries.{entry_among, secret_for};

    /// What the host shows of itself as the user, if it may, and its place among the entries.
    pub fn entry(&self, host: &[u8], user: &[u8]) -> Option<(usize, &ChapEntry)>
        ensures { option_map (λ found. (found.0, found.1.now)) result ≡ entry_among self.now.entries.items host.now user.now }
    {
        'entries: for (place, entry) in self.entries.iter().enumerate() {
            if entry.is_of(host, user) {
                return Some((place, entry));
            }
        }
        None
    }

    /// By what a response is judged: the secret of the entry that was found. Where none was, the first entry's, so that the time tells
    /// nobody which users there are.
    pub fn secret_for<'a>(&'a self, found: Option<(usize, &'a ChapEntry)>) -> &'a [u8]
        ensures { result.now ≡ secret_for self.now.entries.items (option_map (λ found. (found.0, found.1.now)) found.entry) }
    {
        match found {
            Some((_, entry)) => entry.own.secret.as_slice(),
            None => match self.entries.first() {
                Some(entry) => entry.own.secret.as_slice(),
                None => &[],
            },
        }
    }
}
