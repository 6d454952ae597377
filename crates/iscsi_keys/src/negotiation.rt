ghost use Rattle.std.specs.Prelude.{◌≡◌};
ghost use Rattle.iscsi_keys.specs.Negotiations.{refusal, judged, answered, negotiated, answered_known, negotiated_known};

use crate::answer::{KeyAnswer, Terms, answer_to};
use crate::fault::NegotiationFault;
use crate::key::{KEYS, Key};
use crate::number::number_in;
use crate::parameters::SessionParameters;
use crate::value::key_named;

/// A login's negotiation, key by key.
#[derive(Clone, Copy)]
pub struct Negotiation {
    pub terms: Terms,
    /// The keys that were offered, by their places.
    pub offered: [bool; KEYS],
    /// What is agreed so far.
    pub parameters: SessionParameters,
}

impl Negotiation {
    ghost use Rattle.iscsi_keys.specs.Negotiations.{begun};

    /// Before anything was offered.
    pub fn new(terms: Terms) -> Negotiation
        ensures { result ≡ begun terms }
    {
        Negotiation {
            terms,
            offered: [false; KEYS],
            parameters: SessionParameters::DEFAULT,
        }
    }

    /// The answer to a key that is offered with a value, by which the parameters are agreed; or why the login ends.
    pub fn offer(&mut self, name: &[u8], value: &[u8]) -> Result<KeyAnswer, NegotiationFault>
        ensures answer { result ≡ answered self.old name.now value.now }
        ensures state { self.new ≡ negotiated self.old name.now value.now }
    {
        match key_named(name) {
            None => Ok(KeyAnswer::NotUnderstood),
            Some(key) => self.offer_known(key, value),
        }
    }

    fn offer_known(&mut self, key: Key, value: &[u8]) -> Result<KeyAnswer, NegotiationFault>
        ensures answer { result ≡ answered_known self.old key value.now }
        ensures state { self.new ≡ negotiated_known self.old key value.now }
    {
        if self.offered[key.place()] {
            return Err(NegotiationFault::KeyTwice);
        }
        self.offered[key.place()] = true;
        let answer = answer_to(self.terms, self.parameters.max_burst_length, key, value);
        self.parameters = self.parameters.agreed(key, answer, number_in(value));
        judged(key, answer)
    }
}

/// The answer, unless it rejects a key that the login can't do without.
fn judged(key: Key, answer: KeyAnswer) -> Result<KeyAnswer, NegotiationFault>
    ensures { result ≡ judged key answer }
{
    match (answer, refusal(key)) {
        (KeyAnswer::Reject, Some(fault)) => Err(fault),
        _ => Ok(answer),
    }
}

/// What it is to reject the key, where that ends the login.
fn refusal(key: Key) -> Option<NegotiationFault>
    ensures { result ≡ refusal key }
{
    match key {
        Key::InitiatorName
        | Key::InitiatorAlias
        | Key::TargetName
        | Key::SessionType
        | Key::MaxConnections
        | Key::DefaultTime2Wait
        | Key::DefaultTime2Retain
        | Key::MaxOutstandingR2t
        | Key::DataPduInOrder
        | Key::DataSequenceInOrder
        | Key::ErrorRecoveryLevel
        | Key::TaskReporting
        | Key::IfMarker
        | Key::OfMarker
        | Key::IfMarkInt
        | Key::OfMarkInt => None,
        Key::AuthMethod => Some(NegotiationFault::AuthenticationFailure),
        Key::HeaderDigest | Key::DataDigest => Some(NegotiationFault::DigestNeeded),
        Key::InitialR2t
        | Key::ImmediateData
        | Key::MaxRecvDataSegmentLength
        | Key::MaxBurstLength
        | Key::FirstBurstLength => Some(NegotiationFault::NeededKeyRejected),
    }
}
