//! What a session has told, PDU by PDU.

use iscsi_pdu::{ParsedTargetPdu, RESERVED_TAG, parse_target_pdu};
use std::alloc::Global;
use std::process::Abort;

/// What a PDU of a target says.
#[derive(Clone, Copy)]
pub(super) enum Answer {
    /// NOP-In that answers a NOP-Out.
    Nop,
    /// NOP-In of the target's own, which is to be answered.
    Ping,
    /// SCSI Response with BUSY.
    Busy,
    /// The same where eight bytes were expected.
    BusyWithoutData,
    /// SCSI Response with CHECK CONDITION and sense data.
    Check,
    /// SCSI Response with target failure.
    Failure,
    /// Data-In of 36 bytes, without a status.
    Data,
    /// SCSI Response with GOOD behind it.
    GoodBehindData,
    /// A task management function is complete.
    Complete,
    /// There is no such task.
    NoTask,
    /// A logout is done.
    LoggedOut,
    /// Reject of a command whose tag is in use.
    TagInUse,
    /// Reject of one that is for immediate delivery, with as many under way as may be.
    Crowded,
}

impl Answer {
    /// Bytes 0 to 3.
    fn start(self) -> [u8; 4] {
        match self {
            Answer::Nop | Answer::Ping => [0x20, 0x80, 0, 0],
            Answer::Busy => [0x21, 0x80, 0, 0x08],
            Answer::BusyWithoutData => [0x21, 0x82, 0, 0x08],
            Answer::Check => [0x21, 0x80, 0, 0x02],
            Answer::Failure => [0x21, 0x80, 0x01, 0],
            Answer::Data => [0x25, 0x80, 0, 0],
            Answer::GoodBehindData => [0x21, 0x80, 0, 0],
            Answer::Complete => [0x22, 0x80, 0, 0],
            Answer::NoTask => [0x22, 0x80, 0x01, 0],
            Answer::LoggedOut => [0x26, 0x80, 0, 0],
            Answer::TagInUse => [0x3F, 0x80, 0x07, 0],
            Answer::Crowded => [0x3F, 0x80, 0x06, 0],
        }
    }

    /// How long its data segment is: sense data stand behind two bytes of their length.
    fn length(self) -> usize {
        match self {
            Answer::Check => 20,
            Answer::Data => 36,
            Answer::TagInUse | Answer::Crowded => 48,
            Answer::Nop
            | Answer::Ping
            | Answer::Busy
            | Answer::BusyWithoutData
            | Answer::Failure
            | Answer::GoodBehindData
            | Answer::Complete
            | Answer::NoTask
            | Answer::LoggedOut => 0,
        }
    }

    /// How many bytes fewer were transferred than were expected.
    fn residual(self) -> u32 {
        match self {
            Answer::BusyWithoutData => 8,
            Answer::Nop
            | Answer::Ping
            | Answer::Busy
            | Answer::Check
            | Answer::Failure
            | Answer::Data
            | Answer::GoodBehindData
            | Answer::Complete
            | Answer::NoTask
            | Answer::LoggedOut
            | Answer::TagInUse
            | Answer::Crowded => 0,
        }
    }

    /// How many Data-In went before it.
    fn data_ins(self) -> u32 {
        u32::from(matches!(self, Answer::GoodBehindData))
    }

    /// Its StatSN, where it takes one up or tells the next.
    fn stat_sn(self, number: u32) -> u32 {
        if matches!(self, Answer::Data) {
            0
        } else {
            number
        }
    }

    /// The tag that it has for a request's.
    fn tag(self, tag: u8) -> u32 {
        match self {
            Answer::Ping | Answer::TagInUse | Answer::Crowded => RESERVED_TAG,
            Answer::Nop
            | Answer::Busy
            | Answer::BusyWithoutData
            | Answer::Check
            | Answer::Failure
            | Answer::Data
            | Answer::GoodBehindData
            | Answer::Complete
            | Answer::NoTask
            | Answer::LoggedOut => u32::from(tag),
        }
    }
}

/// A PDU of a target as a row has it: what it says, to which tag, and its StatSN, counted from that of the login's response, its ExpCmdSN
/// and its MaxCmdSN.
pub(super) type Told = (Answer, u8, [u8; 3]);

/// The fields of a PDU of a target: bytes 0 to 3, the length of its data, its tag, StatSN, ExpCmdSN and MaxCmdSN, ExpDataSN or DataSN, and
/// the residual count.
#[derive(Clone, Copy, PartialEq, Eq, Debug)]
pub(super) struct Fields {
    start: [u8; 4],
    length: usize,
    tag: u32,
    numbers: [u32; 3],
    data_sn: u32,
    residual: u32,
}

/// The number in four bytes from a place on.
fn number_at(bytes: &[u8], place: usize) -> u32 {
    let mut number = [0; 4];
    for (digit, byte) in number.iter_mut().zip(bytes.iter().skip(place)) {
        *digit = *byte;
    }
    u32::from_be_bytes(number)
}

/// The fields of a PDU that has so many bytes of data.
fn fields_at(bytes: &[u8], length: usize) -> Fields {
    Fields {
        start: number_at(bytes, 0).to_be_bytes(),
        length,
        tag: number_at(bytes, 16),
        numbers: [
            number_at(bytes, 24),
            number_at(bytes, 28),
            number_at(bytes, 32),
        ],
        data_sn: number_at(bytes, 36),
        residual: number_at(bytes, 44),
    }
}

/// The first PDU of a stream, and what is behind it.
fn split_pdu(bytes: &[u8]) -> Option<(Fields, &[u8])> {
    match parse_target_pdu(8192, bytes) {
        ParsedTargetPdu::Complete(pdu, count) => {
            Some((fields_at(bytes, pdu.payload.len()), &bytes[count..]))
        }
        ParsedTargetPdu::Partial(_) | ParsedTargetPdu::Invalid(_) => None,
    }
}

/// The PDUs of a stream, and how many bytes behind them are none.
pub(super) fn pdus_of(rt: &impl Abort, alloc: Global, bytes: &[u8]) -> (Vec<Fields>, usize) {
    let mut pdus = Vec::new(alloc);
    let mut rest = bytes;
    for _ in 0..bytes.len() {
        match split_pdu(rest) {
            Some((fields, behind)) => {
                pdus.push(fields).expect(rt, "memory");
                rest = behind;
            }
            None => return (pdus, rest.len()),
        }
    }
    (pdus, rest.len())
}

/// The StatSN of the login's response.
pub(super) fn first_number(pdus: &[Fields]) -> u32 {
    match pdus.first() {
        Some(login) => login.numbers[0],
        None => 0,
    }
}

/// The fields that a row has, where the login's response has a StatSN.
fn fields_of(told: &Told, first: u32) -> Fields {
    let (answer, tag, [stat_sn, exp_cmd_sn, max_cmd_sn]) = *told;
    Fields {
        start: answer.start(),
        length: answer.length(),
        tag: answer.tag(tag),
        numbers: [
            answer.stat_sn(first.wrapping_add(u32::from(stat_sn))),
            u32::from(exp_cmd_sn),
            u32::from(max_cmd_sn),
        ],
        data_sn: answer.data_ins(),
        residual: answer.residual(),
    }
}

/// What a row expects to be told.
pub(super) fn expected(rt: &impl Abort, alloc: Global, told: &[Told], first: u32) -> Vec<Fields> {
    let mut fields = Vec::new(alloc);
    for answer in told {
        fields.push(fields_of(answer, first)).expect(rt, "memory");
    }
    fields
}
