ghost use Rattle.std.specs.Prelude.{◌≡◌, ◌==◌, ◌||◌, not};
ghost use Rattle.pr_core.specs.State.{key, is_registered};
ghost use Rattle.pr_core.specs.Judge.{broken_rule, has_unregistered, has_other_key, verdict};
ghost use Rattle.pr_core.specs.Targets.{targets as targets_of};

use crate::state::PrState;
use crate::targets::{list_targets, names_its_sender_alone};
use crate::verdict::Verdict;
use arrayvec::ArrayVec;
use permit_tables::{KeyRule, OutParams, allowed};
use scsi_cdb::OutServiceAction;
use scsi_nexus::Nexus;

impl PrState {
    /// How a PERSISTENT RESERVE OUT command of a nexus is judged: by its cell of the permission
    /// table, and then by the rules on keys.
    pub fn judge(&self, nexus: Nexus, params: &OutParams) -> Verdict
        ensures { result ≡ verdict self.now nexus params.now }
    {
        let cell = self.cell(nexus, params.act.class());
        if !allowed(cell) {
            return Verdict::Denied(cell);
        }
        let rule = if names_its_sender_alone(params) {
            self.broken_rule(nexus, params, [nexus].as_slice())
        } else {
            self.broken_rule_of_several(nexus, params)
        };
        match rule {
            None => Verdict::Allowed,
            Some(rule) => Verdict::Rule(rule),
        }
    }

    /// Whether one of these nexuses is unregistered, though there is a reservation key.
    fn has_unregistered(&self, reservation_key: u64, targets: &[Nexus]) -> bool
        ensures { result ≡ has_unregistered self.now reservation_key targets.now }
    {
        targets
            .iter()
            .any(|nexus| self.key_of(*nexus) == 0 && reservation_key != 0)
    }

    /// Whether one of these nexuses is registered with another key.
    fn has_other_key(&self, reservation_key: u64, targets: &[Nexus]) -> bool
        ensures { result ≡ has_other_key self.now reservation_key targets.now }
    {
        targets.iter().any(|nexus| {
            let key = self.key_of(*nexus);
            key != 0 && reservation_key != key
        })
    }

    /// Whether a nexus isn't registered with this key.
    fn is_other_key(&self, nexus: Nexus, reservation_key: u64) -> bool
        ensures { result ≡ (not (is_registered self.now nexus) || not (reservation_key == key self.now nexus)) }
    {
        let key = self.key_of(nexus);
        key == 0 || reservation_key != key
    }

    /// The first rule on keys that a command breaks, where a REGISTER names further nexuses. Their list
    /// is large, so it stands in a function of its own.
    fn broken_rule_of_several(&self, nexus: Nexus, params: &OutParams) -> Option<KeyRule>
        ensures { result ≡ broken_rule self.now nexus params.now }
    {
        let mut targets = ArrayVec::new();
        list_targets(&mut targets, nexus, params);
        self.broken_rule(nexus, params, targets.as_slice())
    }

    /// The first rule on keys that a command breaks, which for a REGISTER are asked of these targets.
    fn broken_rule(&self, nexus: Nexus, params: &OutParams, targets: &[Nexus]) -> Option<KeyRule>
        requires { targets.now ≡ targets_of nexus params.now }
        ensures { result ≡ broken_rule self.now nexus params.now }
    {
        match params.act {
            OutServiceAction::RegisterAndIgnoreExistingKey => None,
            OutServiceAction::Register => {
                if self.has_unregistered(params.rk, targets) {
                    Some(KeyRule::K1)
                } else if self.has_other_key(params.rk, targets) {
                    Some(KeyRule::K2)
                } else {
                    None
                }
            }
            OutServiceAction::Reserve
            | OutServiceAction::Release
            | OutServiceAction::Clear
            | OutServiceAction::Preempt
            | OutServiceAction::PreemptAndAbort
            | OutServiceAction::RegisterAndMove
                if self.is_other_key(nexus, params.rk) => { Some(KeyRule::K3) }
            OutServiceAction::Reserve => {
                if self.holds(nexus) && params.scope_type != self.res_type().code() {
                    Some(KeyRule::K4)
                } else {
                    None
                }
            }
            OutServiceAction::Preempt | OutServiceAction::PreemptAndAbort => {
                if params.sark != 0 && !self.has_key(params.sark) {
                    Some(KeyRule::K5)
                } else {
                    None
                }
            }
            OutServiceAction::RegisterAndMove => {
                if self.is_all_held() {
                    Some(KeyRule::K6)
                } else {
                    None
                }
            }
            OutServiceAction::Release | OutServiceAction::Clear => None,
        }
    }
}
