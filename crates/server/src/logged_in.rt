use scsi_nexus::Nexus;
use std::{fmt, str};

/// What is reported in the place of a name that has other than graphic characters: those could make lines of their own.
const NO_TEXT: &str = "a name that can't be shown";

/// An initiator of iSCSI that has logged in.
#[derive(Clone, Copy)]
pub(crate) struct LoggedIn<'a> {
    /// The place of its session in the order of accepting, from 1 on.
    pub number: u64,
    /// The nexus that it has become.
    pub nexus: Nexus,
    /// Its name, as that is reported.
    pub name: &'a str,
}

impl<'a> fmt::Display for LoggedIn<'a> {
    ghost use Rattle.std.specs.Prelude.{Some};
    ghost use Rattle.server.specs.Logins.{logged_in_text};

    ghost output = { λ login. Some (logged_in_text login) };

    fn fmt<W: fmt::Write>(&self, f: &mut fmt::Formatter<W>) -> fmt::Result {
        let number = self.number;
        let nexus = self.nexus;
        let name = self.name;
        write!(f, "vtl: session {number} of {nexus}: {name} logged in")
    }
}

/// What is reported in the place of the name of an initiator that has given none.
const NO_NAME: &str = "an initiator without a name";

/// A name that an initiator has given, as it is reported.
pub(crate) fn shown_name(name: &[u8]) -> &str {
    if name.is_empty() {
        return NO_NAME;
    }
    if !name.iter().all(|byte| byte.is_ascii_graphic()) {
        return NO_TEXT;
    }
    str::from_utf8(name).unwrap_or(NO_TEXT)
}
