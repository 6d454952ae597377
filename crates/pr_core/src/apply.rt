ghost use Rattle.std.specs.Prelude.{◌≡◌, OnOk, OnErr, IfErr};
ghost use Rattle.unit_attention.specs.Queues.{all_raised};
ghost use Rattle.pr_core.specs.Judge.{verdict};
ghost use Rattle.pr_core.specs.declared.verdict.Verdict.{Verdict};
ghost use Rattle.pr_core.specs.Targets.{targets as targets_of};
ghost use Rattle.pr_core.specs.Outcome.{refusal, act_of, applied, raised_by, removed_by};

use crate::state::PrState;
use crate::targets::{list_targets, names_its_sender_alone};
use arrayvec::ArrayVec;
use permit_tables::{OutParams, PrFault};
use scsi_nexus::{Nexus, NexusList};
use unit_attention::Queues;

impl PrState {
    /// Carries out a PERSISTENT RESERVE OUT command that `judge` allows, and raises what it tells the
    /// others, or says why it is refused. A refused command changes nothing.
    pub fn apply(
        &mut self,
        nexus: Nexus,
        params: &OutParams,
        queues: &mut Queues,
    ) -> Result<(), PrFault>
        requires { verdict self.old nexus params.now ≡ Verdict.Allowed }
        ensures allowed { OnOk result (refusal self.old nexus params.now ≡ None) }
        ensures state { OnOk result (self.new ≡ applied self.old nexus params.now) }
        ensures attentions { OnOk result (queues.new ≡ all_raised queues.old (raised_by self.old nexus (act_of self.old nexus params.now))) }
        ensures refused { IfErr result (λ e. refusal self.old nexus params.now ≡ Some e) }
        ensures unchanged { OnErr result (self.new ≡ self.old) }
        ensures silent { OnErr result (queues.new ≡ queues.old) }
    {
        if names_its_sender_alone(params) {
            self.apply_to(nexus, params, [nexus].as_slice(), queues)
        } else {
            self.apply_to_several(nexus, params, queues)
        }
    }

    /// `apply`, where a REGISTER names further nexuses. Their list is large, so it stands in a function
    /// of its own.
    fn apply_to_several(
        &mut self,
        nexus: Nexus,
        params: &OutParams,
        queues: &mut Queues,
    ) -> Result<(), PrFault>
        requires { verdict self.old nexus params.now ≡ Verdict.Allowed }
        ensures allowed { OnOk result (refusal self.old nexus params.now ≡ None) }
        ensures state { OnOk result (self.new ≡ applied self.old nexus params.now) }
        ensures attentions { OnOk result (queues.new ≡ all_raised queues.old (raised_by self.old nexus (act_of self.old nexus params.now))) }
        ensures refused { IfErr result (λ e. refusal self.old nexus params.now ≡ Some e) }
        ensures unchanged { OnErr result (self.new ≡ self.old) }
        ensures silent { OnErr result (queues.new ≡ queues.old) }
    {
        let mut targets = ArrayVec::new();
        list_targets(&mut targets, nexus, params);
        self.apply_to(nexus, params, targets.as_slice(), queues)
    }

    /// `apply`, where a REGISTER names these nexuses.
    fn apply_to(
        &mut self,
        nexus: Nexus,
        params: &OutParams,
        targets: &[Nexus],
        queues: &mut Queues,
    ) -> Result<(), PrFault>
        requires allowed { verdict self.old nexus params.now ≡ Verdict.Allowed }
        requires named { targets.now ≡ targets_of nexus params.now }
        ensures allowed { OnOk result (refusal self.old nexus params.now ≡ None) }
        ensures state { OnOk result (self.new ≡ applied self.old nexus params.now) }
        ensures attentions { OnOk result (queues.new ≡ all_raised queues.old (raised_by self.old nexus (act_of self.old nexus params.now))) }
        ensures refused { IfErr result (λ e. refusal self.old nexus params.now ≡ Some e) }
        ensures unchanged { OnErr result (self.new ≡ self.old) }
        ensures silent { OnErr result (queues.new ≡ queues.old) }
    {
        if let Some(fault) = self.refusal(nexus, params, targets) {
            return Err(fault);
        }
        // For the prover: the keys ascend, and there is room for them.
        let _registrations = self.registrations();
        let Some(act) = self.act_of(nexus, params, targets) else {
            return Ok(());
        };
        self.raise_attentions(nexus, act, queues);
        self.accept(nexus, act);
        Ok(())
    }
}

impl PrState {
    /// The nexuses that a command unregisters besides its sender where it is carried out, ascending.
    pub fn removed(&self, nexus: Nexus, params: &OutParams) -> NexusList
        ensures { result ≡ removed_by self.now nexus (act_of self.now nexus params.now) }
    {
        if names_its_sender_alone(params) {
            self.removed_among(nexus, params, [nexus].as_slice())
        } else {
            self.removed_of_several(nexus, params)
        }
    }

    /// `removed`, where a REGISTER names further nexuses. Their list is large, so it stands in a function
    /// of its own.
    fn removed_of_several(&self, nexus: Nexus, params: &OutParams) -> NexusList
        ensures { result ≡ removed_by self.now nexus (act_of self.now nexus params.now) }
    {
        let mut targets = ArrayVec::new();
        list_targets(&mut targets, nexus, params);
        self.removed_among(nexus, params, targets.as_slice())
    }

    /// `removed`, where a REGISTER names these nexuses.
    fn removed_among(&self, nexus: Nexus, params: &OutParams, targets: &[Nexus]) -> NexusList
        requires { targets.now ≡ targets_of nexus params.now }
        ensures { result ≡ removed_by self.now nexus (act_of self.now nexus params.now) }
    {
        match self.act_of(nexus, params, targets) {
            None => NexusList::new(),
            Some(act) => self.removed_by(nexus, act),
        }
    }
}
