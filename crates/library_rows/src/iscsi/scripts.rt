//! What comes to a session in the rows of held replies: what an initiator sends, and what happens beside it.

ghost use Rattle.std.specs.Prelude.{◌≤◌, length};

use super::keepers::{Keeper, Settlement};
use super::refused_resets::LOGIN;
use std::alloc::Global;
use std::io::{self, Read};

/// What an initiator sends. A command that has a number has it as its tag too, a request for immediate delivery has its tag first.
#[derive(Clone, Copy)]
pub(super) enum Request {
    /// WRITE FILEMARKS, by its number, at a unit.
    Mark(u8, u8),
    /// So many of them at unit 0, from number 1 on.
    Marks(u8),
    /// One for immediate delivery, by its tag, at a unit.
    MarkAtOnce(u8, u8),
    /// So many of those at unit 0, from tag 1 on.
    MarksAtOnce(u8),
    /// One that expects eight bytes, which no unit has.
    MarkThatReads(u8, u8),
    /// One with four bytes.
    MarkThatWrites(u8, u8),
    /// One whose tag is another.
    MarkByTag(u8, u8, u8),
    /// WRITE(6) of four bytes, which come with it, by its number, at a unit.
    Write(u8, u8),
    /// MOVE MEDIUM at unit 0.
    Move(u8),
    /// LOAD UNLOAD at a unit.
    Load(u8, u8),
    /// INQUIRY of 36 bytes at a unit.
    Inquiry(u8, u8),
    /// NOP-Out.
    Nop(u8),
    /// ABORT TASK at a unit, and which.
    AbortTask(u8, u8, u8),
    /// ABORT TASK SET at a unit.
    AbortTaskSet(u8, u8),
    /// LOGICAL UNIT RESET.
    ResetUnit(u8, u8),
    /// TARGET WARM RESET.
    ResetAll(u8),
    /// A logout that closes the session.
    Logout(u8),
    /// One that has a number.
    LogoutInTurn(u8),
}

/// What a read shows.
#[derive(Clone, Copy)]
pub(super) enum Step {
    /// It brings these.
    Sent(&'static [Request]),
    /// It is interrupted, once the keeper has settled these.
    Settled(&'static [Settlement]),
    /// It is interrupted, once another session has reset a unit.
    ResetElsewhere(u8),
    /// It is interrupted, and nothing has happened.
    Woken,
    /// It is interrupted, and the keeper settles these once the session asks for the outcome of a filemark at unit 2.
    Meanwhile(&'static [Settlement]),
    /// Nothing came for a while.
    Silence,
}

/// The fields of a basic header segment: two bytes in front, a unit, a tag, the word behind the tag, CmdSN, and what a command's CDB begins
/// with and has at byte 4.
#[derive(Clone, Copy)]
struct Header {
    start: [u8; 2],
    lun: u8,
    tag: u8,
    word: u32,
    number: u8,
    cdb: [u8; 2],
}

impl Header {
    fn bytes(&self, length: u8) -> [u8; 48] {
        let mut header = [0; 48];
        header[..2].copy_from_slice(&self.start);
        header[7] = length;
        header[9] = self.lun;
        header[19] = self.tag;
        header[20..24].copy_from_slice(&self.word.to_be_bytes());
        header[27] = self.number;
        header[32] = self.cdb[0];
        header[36] = self.cdb[1];
        header
    }
}

/// The flags of a command without data, of one that reads, and of one that writes.
const NO_DATA: u8 = 0x81;

const READS: u8 = 0xC1;

const WRITES: u8 = 0xA1;

const WRITE_FILEMARKS: [u8; 2] = [0x10, 1];

/// A command by its flags, number and unit, how many bytes it is to transfer, and its CDB.
fn command(flags: u8, number: u8, lun: u8, expected: u32, cdb: [u8; 2]) -> Header {
    Header {
        start: [0x01, flags],
        lun,
        tag: number,
        word: expected,
        number,
        cdb,
    }
}

/// WRITE FILEMARKS by its flags, number and unit, and how many bytes it is to transfer.
fn mark(flags: u8, number: u8, lun: u8, expected: u32) -> Header {
    command(flags, number, lun, expected, WRITE_FILEMARKS)
}

/// WRITE FILEMARKS for immediate delivery.
fn mark_at_once(tag: u8, lun: u8) -> Header {
    Header {
        start: [0x41, NO_DATA],
        ..mark(NO_DATA, tag, lun, 0)
    }
}

/// A request for immediate delivery, by its first two bytes, its tag, a unit, and the word behind the tag, which names another task.
fn immediate(start: [u8; 2], tag: u8, lun: u8, word: u32) -> Header {
    Header {
        start,
        lun,
        tag,
        word,
        number: 0,
        cdb: [0, 0],
    }
}

fn header_of(request: Request) -> Header {
    match request {
        Request::Mark(number, lun) => mark(NO_DATA, number, lun, 0),
        Request::Marks(last) => mark(NO_DATA, last, 0, 0),
        Request::MarkAtOnce(tag, lun) => mark_at_once(tag, lun),
        Request::MarksAtOnce(last) => mark_at_once(last, 0),
        Request::MarkThatReads(number, lun) => mark(READS, number, lun, 8),
        Request::MarkThatWrites(number, lun) => mark(WRITES, number, lun, 4),
        Request::MarkByTag(number, lun, tag) => Header {
            tag,
            ..mark(NO_DATA, number, lun, 0)
        },
        Request::Write(number, lun) => command(WRITES, number, lun, 4, [0x0A, 4]),
        Request::Move(number) => command(NO_DATA, number, 0, 0, [0xA5, 0]),
        Request::Load(number, lun) => command(NO_DATA, number, lun, 0, [0x1B, 1]),
        Request::Inquiry(number, lun) => command(READS, number, lun, 36, [0x12, 36]),
        Request::Nop(tag) => immediate([0x40, 0x80], tag, 0, u32::MAX),
        Request::AbortTask(tag, lun, task) => immediate([0x42, 0x81], tag, lun, u32::from(task)),
        Request::AbortTaskSet(tag, lun) => immediate([0x42, 0x82], tag, lun, u32::MAX),
        Request::ResetUnit(tag, lun) => immediate([0x42, 0x85], tag, lun, u32::MAX),
        Request::ResetAll(tag) => immediate([0x42, 0x86], tag, 0, u32::MAX),
        Request::Logout(tag) => immediate([0x46, 0x80], tag, 0, 0),
        Request::LogoutInTurn(number) => Header {
            number,
            ..immediate([0x06, 0x80], number, 0, 0)
        },
    }
}

/// Adds the filemarks that come before a last one, each by its number or its tag.
fn add_marks_before(out: &mut Vec<u8>, last: Header) {
    for number in 1..last.tag {
        let header = Header {
            tag: number,
            number,
            ..last
        };
        let _ = out.extend_from_slice(&header.bytes(0));
    }
}

/// Adds the bytes of a request.
fn add_request(out: &mut Vec<u8>, request: Request) {
    let header = header_of(request);
    if let Request::Marks(_) | Request::MarksAtOnce(_) = request {
        add_marks_before(out, header);
    }
    if header.start[1] == WRITES {
        let _ = out.extend_from_slice(&header.bytes(4));
        let _ = out.extend_from_slice(b"abcd");
    } else {
        let _ = out.extend_from_slice(&header.bytes(0));
    }
}

fn bytes_of(alloc: Global, requests: &[Request]) -> Vec<u8> {
    let mut out = Vec::new(alloc);
    for request in requests {
        add_request(&mut out, *request);
    }
    out
}

/// A reader that shows a login, one step behind another, and the end of input.
#[derive(Drop)]
pub(super) struct Script<'a> {
    pub(super) alloc: Global,
    pub(super) keeper: &'a Keeper,
    pub(super) has_begun: bool,
    /// What is left of the steps.
    pub(super) steps: &'a [Step],
}

/// Puts bytes at the front of a buffer, and says how many found room.
fn put(buffer: &mut [u8], bytes: &[u8]) -> usize
    ensures { result ≤ length buffer.old }
{
    let count = bytes.len().min(buffer.len());
    buffer[..count].copy_from_slice(&bytes[..count]);
    count
}

impl Read for Script<'_> {
    fn read(&mut self, buffer: &mut [u8]) -> io::Result<usize> {
        if !self.has_begun {
            self.has_begun = true;
            return Ok(put(buffer, LOGIN));
        }
        let Some((step, rest)) = self.steps.split_first() else {
            return Ok(0);
        };
        self.steps = rest;
        match *step {
            Step::Sent(requests) => {
                return Ok(put(buffer, bytes_of(self.alloc, requests).as_slice()));
            }
            Step::Silence => return Err(io::Error::from(io::ErrorKind::WouldBlock)),
            Step::Settled(settlements) => self.keeper.settle_all(settlements),
            Step::ResetElsewhere(unit) => self.keeper.note_reset(unit),
            Step::Meanwhile(settlements) => self.keeper.settle_later(settlements),
            Step::Woken => {}
        }
        Err(io::Error::from(io::ErrorKind::Interrupted))
    }
}
