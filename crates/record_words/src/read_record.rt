//! What the line of a record says.

use crate::line_fault::LineFault;
use crate::members::{number_at, text_at, word_at};
use scsi_sense::{Sense, Status};
use serde_json::Value;
use std::alloc::Global;

/// The most logical units of a library (profile).
const MOST_UNITS: u64 = 5;

/// What a line says, as it says it, but for what was answered.
#[derive(Clone, Copy)]
pub(crate) struct ReadRecord<'a> {
    pub time: Option<&'a str>,
    pub unit: u64,
    pub number: u64,
    pub nexus: Option<&'a str>,
    pub name: Option<&'a str>,
    pub class: &'a str,
    pub stage: u64,
    pub cell: Option<&'a str>,
    pub rule: Option<&'a str>,
    pub reservation: Option<&'a str>,
}

/// What was answered.
#[derive(Drop)]
pub(crate) struct ReadAnswer {
    pub status: Status,
    pub sense: Option<Sense>,
}

/// What an object says of a record beside what was answered.
pub(crate) fn record_in(object: &Value) -> Result<ReadRecord<'_>, LineFault> {
    let unit = number_at(object, "unit")?;
    if unit >= MOST_UNITS {
        return Err(LineFault::BadValue("unit"));
    }
    let stage = number_at(object, "stage")?;
    if stage < 1 || stage > 6 {
        return Err(LineFault::BadValue("stage"));
    }
    Ok(ReadRecord {
        time: text_at(object, "time")?,
        unit,
        number: number_at(object, "number")?,
        nexus: text_at(object, "nexus")?,
        name: text_at(object, "name")?,
        class: word_at(object, "class")?,
        stage,
        cell: text_at(object, "cell")?,
        rule: text_at(object, "rule")?,
        reservation: text_at(object, "reservation")?,
    })
}

/// What an object says was answered.
pub(crate) fn answer_in(alloc: Global, object: &Value) -> Result<ReadAnswer, LineFault> {
    let status = match word_at(object, "status")? {
        "00" => Status::Good,
        "02" => Status::CheckCondition,
        "08" => Status::Busy,
        "18" => Status::ReservationConflict,
        _ => return Err(LineFault::BadValue("status")),
    };
    let sense = match text_at(object, "sense")? {
        None => None,
        Some(digits) => Some(sense_in(alloc, digits)?),
    };
    Ok(ReadAnswer { status, sense })
}

fn sense_in(alloc: Global, digits: &str) -> Result<Sense, LineFault> {
    let Ok(bytes) = hex::decode(alloc, digits) else {
        return Err(LineFault::BadValue("sense"));
    };
    match Sense::from_bytes(&bytes) {
        Ok(sense) => Ok(sense),
        Err(_) => Err(LineFault::BadValue("sense")),
    }
}
