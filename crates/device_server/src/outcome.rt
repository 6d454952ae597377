use crate::payload::Payload;
use scsi_sense::{Condition, Sense, Status};
use std::alloc::Global;
use unit_attention::Kind;

/// How a device ended a command.
#[derive(Drop)]
pub struct Outcome {
    /// GOOD or CHECK CONDITION.
    pub status: Status,
    /// What CHECK CONDITION reports.
    pub sense: Option<Sense>,
    /// The data for the sender.
    pub payload: Payload,
    /// What every other nexus is to be told: of a MODE SELECT that it changed the mode parameters; in the hosts' profile of a LOG SELECT that
    /// it reset counters, and of a LOAD UNLOAD that it made a volume ready.
    pub told: Option<Kind>,
}

impl Outcome {
    ghost use Rattle.std.specs.Prelude.{◌≡◌, ◌≤◌, length, Ok, Err, IfOk, MatchResult};
    ghost use Rattle.device_server.specs.Limits.{data_limit};
    ghost use Rattle.device_server.specs.Outcomes.{done, set, tells, ended, refused, answers};

    /// GOOD, with data.
    pub fn good(payload: Payload) -> Outcome
        ensures { result ≡ done payload }
    {
        Outcome {
            status: Status::Good,
            sense: None,
            payload,
            told: None,
        }
    }

    /// GOOD, of a MODE SELECT that changed the mode parameters, or set them as they were.
    pub fn set(alloc: Global, mode_changed: bool) -> Outcome
        ensures { result ≡ set mode_changed }
    {
        let told = if mode_changed {
            Some(Kind::ModeParametersChanged)
        } else {
            None
        };
        Outcome::tells(alloc, told)
    }

    /// GOOD without data, with what every other nexus is told.
    pub fn tells(alloc: Global, told: Option<Kind>) -> Outcome
        ensures { result ≡ tells told }
    {
        Outcome {
            told,
            ..Outcome::good(Payload::none(alloc))
        }
    }

    /// GOOD with the data that an allocation length leaves, in bytes, or CHECK CONDITION.
    pub fn answers(
        alloc: Global,
        allocation_length: usize,
        answer: Result<Vec<u8>, Condition>,
    ) -> Outcome
        requires { IfOk answer (λ bytes. length bytes.items ≤ data_limit) }
        ensures { MatchResult answer (λ bytes. result ≡ answers allocation_length (Ok bytes.items)) (λ condition. result ≡ answers allocation_length (Err condition)) }
    {
        match answer {
            Ok(bytes) => Outcome::good(Payload::of(bytes).cut(allocation_length)),
            Err(condition) => Outcome::check(alloc, condition),
        }
    }

    /// CHECK CONDITION with sense data, and with the data that was read before.
    pub fn ended(sense: Sense, payload: Payload) -> Outcome
        ensures { result ≡ ended sense payload }
    {
        Outcome {
            status: Status::CheckCondition,
            sense: Some(sense),
            payload,
            told: None,
        }
    }

    /// CHECK CONDITION with the sense of a condition, without data.
    pub fn check(alloc: Global, condition: Condition) -> Outcome
        ensures { result ≡ refused condition }
    {
        Outcome::ended(Sense::of(condition), Payload::none(alloc))
    }
}
