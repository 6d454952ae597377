use audit_log::Stage;
use device_server::{Outcome, Payload};
use scsi_sense::{Condition, Sense, Status};
use std::alloc::Global;

/// The answer to an event.
#[derive(Drop)]
pub struct Reply {
    pub status: Status,
    /// What CHECK CONDITION reports; none with another status.
    pub sense: Option<Sense>,
    /// The data for the sender, cut at the allocation length.
    pub payload: Payload,
    /// The number of the unit's record of the event, 0 for none.
    pub number: u64,
}

impl Reply {
    ghost use Rattle.std.specs.Prelude.{◌≡◌};
    ghost use Rattle.judgement.specs.Replies.{plain, busy, conflict, good, check, replied, data_reply, numbered};

    fn plain(alloc: Global, status: Status) -> Reply
        ensures { result ≡ plain status }
    {
        Reply {
            status,
            sense: None,
            payload: Payload::none(alloc),
            number: 0,
        }
    }

    /// BUSY: nothing has changed.
    pub fn busy(alloc: Global) -> Reply
        ensures { result ≡ busy }
    {
        Reply::plain(alloc, Status::Busy)
    }

    pub fn conflict(alloc: Global) -> Reply
        ensures { result ≡ conflict }
    {
        Reply::plain(alloc, Status::ReservationConflict)
    }

    /// GOOD, with data.
    pub fn good(payload: Payload) -> Reply
        ensures { result ≡ good payload }
    {
        Reply {
            status: Status::Good,
            sense: None,
            payload,
            number: 0,
        }
    }

    /// CHECK CONDITION with the sense of a condition.
    pub fn check(alloc: Global, condition: Condition) -> Reply
        ensures { result ≡ check condition }
    {
        Reply {
            status: Status::CheckCondition,
            sense: Some(Sense::of(condition)),
            payload: Payload::none(alloc),
            number: 0,
        }
    }

    /// What a device answered.
    pub fn of(outcome: Outcome) -> Reply
        ensures { result ≡ replied outcome }
    {
        Reply {
            status: outcome.status,
            sense: outcome.sense,
            payload: outcome.payload,
            number: 0,
        }
    }

    /// GOOD with data cut at an allocation length, or CHECK CONDITION where there is none since a
    /// field of the CDB isn't right; with the stage that decided it.
    pub fn data(alloc: Global, payload: Option<Payload>, allocation_length: usize) -> (Stage, Reply)
        ensures { result ≡ data_reply payload allocation_length }
    {
        match payload {
            Some(payload) => (Stage::Device, Reply::good(payload.cut(allocation_length))),
            None => (
                Stage::Fields,
                Reply::check(alloc, Condition::InvalidFieldInCdb),
            ),
        }
    }

    /// With the number of the event's record.
    pub fn numbered(self, number: u64) -> Reply
        ensures { result ≡ numbered self number }
    {
        Reply {
            status: self.status,
            sense: self.sense,
            payload: self.payload,
            number,
        }
    }
}
