//! Commands that ended GOOD, and how keeping what they left ended.

use scsi_cdb::Class;
use tape_keeper::CarriedOutCommand;
use tape_medium::VolumeTag;
use tickets::Outcome;

pub(super) const A: VolumeTag = VolumeTag([b'A'; 32]);

pub(super) const B: VolumeTag = VolumeTag([b'B'; 32]);

/// A WRITE FILEMARKS on a volume that was in the drive then, as logical unit 1 or 2.
pub(super) fn marked_at(lun: u8, tag: VolumeTag) -> CarriedOutCommand {
    CarriedOutCommand {
        lun,
        class: Class::WriteFilemarks,
        is_immediate: false,
        volume: Some(tag),
        length: 0,
    }
}

pub(super) fn marked(tag: VolumeTag) -> CarriedOutCommand {
    marked_at(1, tag)
}

/// A MOVE MEDIUM of a volume.
pub(super) fn moved(tag: VolumeTag) -> CarriedOutCommand {
    CarriedOutCommand {
        lun: 0,
        class: Class::MoveMedium,
        is_immediate: false,
        volume: Some(tag),
        length: 0,
    }
}

/// A WRITE of so many bytes to the volume in the drive.
pub(super) fn written(tag: VolumeTag, length: usize) -> CarriedOutCommand {
    CarriedOutCommand {
        lun: 1,
        class: Class::Write,
        is_immediate: false,
        volume: Some(tag),
        length,
    }
}

/// How keeping what a command left ended.
#[derive(Clone, Copy, PartialEq, Eq, Debug)]
pub(super) enum Ended {
    /// Its reply waits for nothing.
    NoTicket,
    NotYet,
    Kept,
    Lost,
}

pub(super) fn ended_by(outcome: Option<Outcome>) -> Ended {
    match outcome {
        None => Ended::NotYet,
        Some(Outcome::Kept) => Ended::Kept,
        Some(Outcome::Lost) => Ended::Lost,
    }
}
