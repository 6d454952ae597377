use crate::event::KeepEvent;
use scsi_cdb::Class;
use std::alloc::Global;
use std::sync::Wait;
use std::time::Clock;
use tape_medium::VolumeTag;
use tickets::{Outcome, Ticket};

/// What is told how keeping tapes goes.
pub trait KeepListener {
    fn tell(&self, event: &KeepEvent);

    /// Something is settled that replies wait for: a session that holds such a reply may ask how that ended.
    fn settled(&self);
}

/// A command that was carried out, as far as a keeper of tapes looks at it.
#[derive(Clone, Copy)]
pub struct CarriedOutCommand {
    pub lun: u8,
    pub class: Class,
    /// Whether its reply needn't wait for the medium.
    pub is_immediate: bool,
    /// The volume that it was carried out on, wherever that is by now.
    pub volume: Option<VolumeTag>,
    /// How many bytes were sent with it.
    pub length: usize,
}

/// Where a keeper works. Each place has a thread of its own, so that a disk that is slow with one volume doesn't hold up another drive's.
#[derive(Clone, Copy)]
pub enum KeepPlace {
    /// Volumes that were moved, and where all of them are.
    Changer,
    /// The volume in the drive with this LUN, 1 to 4.
    Drive(u8),
    /// What couldn't be kept, and what has waited to be brought to the disk.
    Upkeep,
}

/// What keeps copies of the tapes of a library that is served, and notes where its volumes are. It names neither the library's devices nor its
/// ledgers, so that the sessions that ask it don't either.
///
/// What replies wait for has tickets: a session that is to send such a reply holds it until its ticket is settled, while no unit's lock is held, so
/// no answer of a unit depends on the copies.
pub trait TapeKeeper {
    ghost use Rattle.std.specs.Prelude.{◌≡◌, Bool, true, false, is_some};
    ghost use Rattle.scsi_cdb.specs.declared.classes.Class.{Class};

    /// Whether the reply to a command of a class says that something is kept.
    ghost says_kept: { Class → Bool };

    /// Begins to keep what a command left that was carried out, and gives the ticket that its reply has to wait for, if it has to wait.
    /// This waits for nothing but locks that are held for a moment.
    fn begin<R: Wait, H: KeepListener>(
        &self,
        rt: &R,
        listener: &H,
        command: CarriedOutCommand,
    ) -> Option<Ticket>
        ensures { command.is_immediate ≡ false → says_kept command.class ≡ true → is_some result ≡ true };

    /// How keeping what a ticket is for ended, if it has. If it is lost, the reply must not be sent.
    fn outcome_of<R: Wait>(&self, rt: &R, ticket: Ticket) -> Option<Outcome>;

    /// Waits until keeping what a ticket is for has ended, and says how.
    fn await_outcome<R: Wait>(&self, rt: &R, ticket: Ticket) -> Outcome;

    /// At how many drives it keeps tapes: their LUNs are the numbers from 1 on.
    fn drives(&self) -> u8;

    /// Does what is to be done at a place whenever there is something, until the library ends: keeps what was asked for there, and settles it. At a
    /// drive it copies what was written to the volume in it and isn't copied yet. As upkeep it tries again to keep what couldn't be kept, a volume
    /// wherever it is, and brings to the disk what was copied a while ago; but nothing for a while after the last time.
    fn work<R: Clock + Wait, H: KeepListener>(
        &self,
        rt: &R,
        alloc: Global,
        listener: &H,
        place: KeepPlace,
    );

    /// The library ends: each thread that works at a place stops.
    fn end<R: Wait>(&self, rt: &R);

    /// Keeps all volumes and where they are. Whether all of it is kept; what isn't was told.
    fn keep_all<R: Wait, H: KeepListener>(&self, rt: &R, alloc: Global, listener: &H) -> bool;
}

/// Keeps nothing: the tapes are gone with the library.
#[derive(Clone, Copy)]
pub struct NoKeeper;

impl TapeKeeper for NoKeeper {
    ghost use Rattle.std.specs.Prelude.{false};

    ghost says_kept = { λ _. false };

    fn begin<R: Wait, H: KeepListener>(
        &self,
        _rt: &R,
        _listener: &H,
        _command: CarriedOutCommand,
    ) -> Option<Ticket> {
        None
    }

    fn outcome_of<R: Wait>(&self, _rt: &R, _ticket: Ticket) -> Option<Outcome> {
        Some(Outcome::Kept)
    }

    fn await_outcome<R: Wait>(&self, _rt: &R, _ticket: Ticket) -> Outcome {
        Outcome::Kept
    }

    fn drives(&self) -> u8 {
        0
    }

    fn work<R: Clock + Wait, H: KeepListener>(
        &self,
        _rt: &R,
        _alloc: Global,
        _listener: &H,
        _place: KeepPlace,
    ) {}

    fn end<R: Wait>(&self, _rt: &R) {}

    fn keep_all<R: Wait, H: KeepListener>(&self, _rt: &R, _alloc: Global, _listener: &H) -> bool {
        true
    }
}
