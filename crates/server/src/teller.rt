ghost use Rattle.std.specs.Prelude.{◌++◌, ◌∷◌, [], OnOk};
ghost use Rattle.std.specs.Io.KnownBytes.{Appends};
ghost use Rattle.server.specs.Events.{event_text};
ghost use Rattle.server.specs.Logins.{logged_in_text};
ghost use Rattle.server.specs.RefusedLogins.{refused_login_text};

use crate::event::Event;
use crate::logged_in::LoggedIn;
use crate::refused_login::RefusedLogin;
use std::io::{self, Write};
use std::sync::{Mutex, Wait};
use tape_keeper::KeepEvent;

/// How much is reported of what happens while a library is served.
#[derive(Clone, Copy)]
pub enum Telling {
    /// Faults alone.
    Faults,
    /// Sessions that begin and end, too, and commands that were BUSY.
    Everything,
}

/// Where what happens is reported, a line for each event, by whichever thread it happens to.
#[derive(Drop)]
pub struct Teller<E: Write> {
    telling: Telling,
    errors: Mutex<E>,
}

impl<E: Write> Teller<E> {
    /// Reports so much there.
    pub fn new(telling: Telling, errors: E) -> Teller<E> {
        Teller {
            telling,
            errors: Mutex::new(errors),
        }
    }

    /// Reports that an initiator has logged in, if that is to be reported.
    pub(crate) fn tell_login<R: Wait>(&self, rt: &R, login: &LoggedIn<'_>) {
        match self.telling {
            Telling::Faults => {}
            Telling::Everything => {
                let mut errors = self.errors.lock(rt);
                let _ = write_login(&mut *errors, login);
            }
        }
    }

    /// Reports a login that was refused.
    pub(crate) fn tell_refused<R: Wait>(&self, rt: &R, login: &RefusedLogin<'_>) {
        let mut errors = self.errors.lock(rt);
        let _ = write_refused(&mut *errors, login);
    }

    /// Reports how keeping tapes goes. Where its line can't be written there is nowhere to report that.
    pub(crate) fn tell_keeping<R: Wait>(&self, rt: &R, event: &KeepEvent) {
        let mut errors = self.errors.lock(rt);
        let _ = writeln!(&mut *errors, "{event}");
    }

    /// Reports an event, if it is to be reported. Where its line can't be written there is nowhere to report that.
    pub fn tell<R: Wait>(&self, rt: &R, event: &Event) {
        match self.telling {
            Telling::Faults if event.is_detail() => {}
            Telling::Faults | Telling::Everything => {
                let mut errors = self.errors.lock(rt);
                let _ = write_event(&mut *errors, event);
            }
        }
    }
}

/// Writes the line of an initiator that has logged in.
fn write_login<E: Write>(errors: &mut E, login: &LoggedIn<'_>) -> io::Result<()>
    ensures { OnOk result (Appends (E.contents errors.old) (E.contents errors.new) (logged_in_text login.now ++ 10 ∷ [])) }
{
    writeln!(errors, "{login}")
}

/// Writes the line of a login that was refused.
fn write_refused<E: Write>(errors: &mut E, login: &RefusedLogin<'_>) -> io::Result<()>
    ensures { OnOk result (Appends (E.contents errors.old) (E.contents errors.new) (refused_login_text login.now ++ 10 ∷ [])) }
{
    writeln!(errors, "{login}")
}

/// Writes an event's line.
fn write_event<E: Write>(errors: &mut E, event: &Event) -> io::Result<()>
    ensures { OnOk result (Appends (E.contents errors.old) (E.contents errors.new) (event_text event.now ++ 10 ∷ [])) }
{
    writeln!(errors, "{event}")
}
