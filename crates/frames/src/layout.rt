//! The bytes of a frame (profile).

ghost use Rattle.std.specs.Prelude.{◌≡◌, ◌≤◌};
ghost use Rattle.frames.specs.Limits.{frame_limit, longest_frame, command_data_limit, reply_data_limit, reply_limit, longest_reply};

use scsi_cdb::Profile;
use scsi_sense::SENSE_LENGTH;

/// How many bytes tell the length of the body that follows.
pub const LENGTH_FIELD: usize = 4;

/// The most bytes of a body, in a session of a library of the default profile.
const MAX_BODY: usize = 131_072;

/// The same in the hosts' profile.
const HOSTS_MAX_BODY: usize = 1_114_112;

/// The most bytes of a body, in a session of a library of a profile.
pub fn most_body(profile: Profile) -> usize
    ensures value { result ≡ frame_limit profile }
    ensures within { result ≤ longest_frame }
{
    match profile {
        Profile::Spec => MAX_BODY,
        Profile::Hosts => HOSTS_MAX_BODY,
    }
}

/// The kinds of frames: the first byte of a body.
pub(crate) const LOGIN: u8 = 0x01;

pub(crate) const COMMAND: u8 = 0x02;

pub(crate) const RESET: u8 = 0x03;

pub(crate) const LOGOUT: u8 = 0x04;

/// How many bytes a LOGIN has behind its kind: the initiator's SAS address and the target port.
pub(crate) const LOGIN_FIELDS: usize = 10;

/// Where the port of a LOGIN begins, behind its kind.
pub(crate) const PORT: usize = 8;

/// How many bytes a COMMAND has behind its kind before its CDB: the logical unit number and the length of the CDB.
pub(crate) const COMMAND_FIELDS: usize = 2;

/// The most bytes of a CDB.
pub(crate) const MAX_CDB: usize = 16;

/// The most data of a COMMAND with any CDB: what a body has room for behind its kind, its fields and the longest CDB.
pub fn most_command_data(profile: Profile) -> u32
    ensures { result ≡ command_data_limit profile }
{
    (most_body(profile) - 1 - COMMAND_FIELDS - MAX_CDB) as u32
}

/// The kinds of reply frames.
pub(crate) const LOGIN_REPLY: u8 = 0x81;

pub(crate) const COMMAND_REPLY: u8 = 0x82;

pub(crate) const RESET_REPLY: u8 = 0x83;

pub(crate) const LOGOUT_REPLY: u8 = 0x84;

/// How many bytes a COMMAND's reply has before its data, without sense data: kind, status, the length of the
/// sense data, and the record's number.
pub(crate) const COMMAND_REPLY_FIELDS: usize = 11;

/// How many bytes of sense data a COMMAND's reply has, where it has any.
pub(crate) const SENSE_COUNT: u8 = SENSE_LENGTH as u8;

/// How many bytes a LOGIN's reply and a RESET's have behind their kind: an answer or a status.
pub(crate) const CODE_FIELD: usize = 1;

/// How many bytes of a COMMAND's reply come before its sense data: kind, status, and the length of the sense data.
pub(crate) const BEFORE_SENSE: usize = 3;

/// How many bytes the number of a record has.
pub(crate) const NUMBER_FIELD: usize = 8;

/// The most data of an answer that a reply carries.
pub fn most_reply_data(profile: Profile) -> usize
    ensures { result ≡ reply_data_limit profile }
{
    match profile {
        Profile::Spec => 65_536,
        Profile::Hosts => 1_048_576,
    }
}

/// The most bytes of a reply's body: kind, status, the length of the sense data, sense data, the record's number, and
/// the data of an answer.
pub fn most_reply(profile: Profile) -> usize
    ensures value { result ≡ reply_limit profile }
    ensures within { result ≤ longest_reply }
{
    BEFORE_SENSE + SENSE_LENGTH + NUMBER_FIELD + most_reply_data(profile)
}

/// Room for what was read of a stream, some twice the longest frame of the default profile, so that a read can bring many frames at once.
pub const FRAME_BUFFER: usize = 2 * MAX_BODY;

/// The same of the hosts' profile.
pub const HOSTS_FRAME_BUFFER: usize = 2 * HOSTS_MAX_BODY;
