use crate::key::ServeKey;
use crate::options::GivenOptions;
use std::fmt;
use thiserror::Error;

/// A rule on options that are each in their range, wherever each is given.
#[derive(Clone, Copy, Debug, Error)]
pub enum OptionRule {
    /// The two can't be given together.
    Excludes(ServeKey, ServeKey),
    /// The first means nothing without the second.
    Needs(ServeKey, ServeKey),
}

/// The rules. Of several that are broken the first is reported.
const RULES: [OptionRule; 20] = [
    OptionRule::Excludes(ServeKey::Workers, ServeKey::Sessions),
    OptionRule::Excludes(ServeKey::Sessions, ServeKey::Iscsi),
    OptionRule::Excludes(ServeKey::Drain, ServeKey::Spans),
    OptionRule::Excludes(ServeKey::KeepRecords, ServeKey::Drain),
    OptionRule::Excludes(ServeKey::Records, ServeKey::Spans),
    OptionRule::Excludes(ServeKey::Records, ServeKey::Drain),
    OptionRule::Excludes(ServeKey::Records, ServeKey::KeepRecords),
    OptionRule::Excludes(ServeKey::NoAuthentication, ServeKey::Chap),
    OptionRule::Needs(ServeKey::Format, ServeKey::Records),
    OptionRule::Needs(ServeKey::NewLibrary, ServeKey::Media),
    OptionRule::Needs(ServeKey::WaitForFolder, ServeKey::Media),
    OptionRule::Needs(ServeKey::VolumesLargerThanMemory, ServeKey::Memory),
    OptionRule::Needs(ServeKey::TargetName, ServeKey::Iscsi),
    OptionRule::Needs(ServeKey::Hosts, ServeKey::Iscsi),
    OptionRule::Needs(ServeKey::AnyHost, ServeKey::Iscsi),
    OptionRule::Needs(ServeKey::Multipath, ServeKey::Iscsi),
    OptionRule::Needs(ServeKey::Chap, ServeKey::Iscsi),
    OptionRule::Needs(ServeKey::ChapDigests, ServeKey::Chap),
    OptionRule::Needs(ServeKey::NoAuthentication, ServeKey::Iscsi),
    OptionRule::Needs(ServeKey::MetricsOpen, ServeKey::Metrics),
];

impl OptionRule {
    ghost use Rattle.std.specs.Prelude.{◌≡◌};

    /// The exit status of a program that ends since it is broken (profile).
    pub fn status(self) -> u8
        ensures { result ≡ 2 }
    {
        match self {
            OptionRule::Excludes(_, _) | OptionRule::Needs(_, _) => 2,
        }
    }
}

impl fmt::Display for OptionRule {
    ghost use Rattle.std.specs.Prelude.{Some};
    ghost use Rattle.given_options.specs.Rules.{rule_text};

    ghost output = { λ rule. Some (rule_text rule) };

    fn fmt<W: fmt::Write>(&self, f: &mut fmt::Formatter<W>) -> fmt::Result {
        match self {
            OptionRule::Excludes(one, other) => {
                let (one, other) = (one.option(), other.option());
                write!(f, "vtl: --{one} cannot be used with --{other}")
            }
            OptionRule::Needs(one, other) => {
                let (one, other) = (one.option(), other.option());
                write!(f, "vtl: --{one} needs --{other}")
            }
        }
    }
}

impl GivenOptions {
    ghost use Rattle.std.specs.Prelude.{◌≡◌, find};
    ghost use Rattle.given_options.specs.Rules.{is_broken, judged_options, option_rules};

    /// Whether what is given can be given together, or the first rule that is broken.
    pub fn judge(&self) -> Result<(), OptionRule>
        ensures { result ≡ judged_options self.now }
    {
        match self.first_broken() {
            None => Ok(()),
            Some(rule) => Err(rule),
        }
    }

    fn first_broken(&self) -> Option<OptionRule>
        ensures { result ≡ find (is_broken self.now) option_rules }
    {
        RULES.iter().find(|rule| self.is_broken(**rule)).copied()
    }

    fn is_broken(&self, rule: OptionRule) -> bool
        ensures { result ≡ is_broken self.now rule }
    {
        match rule {
            OptionRule::Excludes(one, other) => self.has(one) && self.has(other),
            OptionRule::Needs(one, other) => self.has(one) && !self.has(other),
        }
    }
}
