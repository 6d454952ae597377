ghost use Rattle.std.specs.Prelude.{◌≡◌, ℕ, ◌<◌, List, Option, true};
ghost use Rattle.iscsi_pdu.specs.Codes.{stage_code};
ghost use Rattle.iscsi_pdu.specs.declared.stage.Stage.{Stage};
ghost use Rattle.iscsi_pdu.specs.declared.login_request.LoginRequest.{LoginRequest};
ghost use Rattle.iscsi_keys.specs.Parameters.{AreInRange};
ghost use Rattle.iscsi_login.specs.Rows.{LoginsNoPortalShows};
ghost use Rattle.iscsi_login.specs.Stages.{leads_to};
ghost use Rattle.iscsi_login.specs.Logins.{begun, stepped, step_of};
ghost use Rattle.iscsi_login.specs.Runs.{Coming, run, IsEntered};
ghost use Rattle.iscsi_login.specs.Exchanges.{ExchangeValue, started, taken, progress_of};
ghost use Rattle.iscsi_login.specs.ExchangeRuns.{exchanged, texts_of, IsLetIn};
ghost use Rattle.iscsi_chap.specs.declared.challenge.Challenge.{Challenge};
ghost use Rattle.iscsi_login.specs.declared.progress.LoginProgress.TheVariants.{Begins};
ghost use Rattle.iscsi_login.specs.declared.target.LoginTarget.{LoginTarget};
ghost use Rattle.iscsi_login.specs.declared.login.Login.TheVariants.{Ended};
ghost use Rattle.iscsi_login.specs.declared.login.LoginEnd.{LoginEnd};
ghost use Rattle.iscsi_login.specs.declared.login.LoginEnd.TheVariants as ends;
ghost use Rattle.iscsi_login.specs.declared.login.FullFeature.{FullFeature};
ghost use Rattle.iscsi_login.specs.declared.login.LoginStep.TheVariants.{Ends};

/// Law: whatever comes, a login reaches the full feature phase only as one of its texts names an initiator that is let in, and a
/// normal session only as that text names the target; and what it has agreed is in its ranges.
pub fn reached_by_name()
    ensures let_in { (group : ℕ) (target : LoginTarget) (comings : List Coming) (f : FullFeature) → run target (begun group) comings ≡ Ended (ends.FullFeature f) → IsEntered target comings f.admission f.session_type }
    ensures in_range { (group : ℕ) (target : LoginTarget) (comings : List Coming) (f : FullFeature) → run target (begun group) comings ≡ Ended (ends.FullFeature f) → AreInRange f.parameters }
{}

/// Law: whatever comes, in whatever pieces, an exchange reaches the full feature phase only as one of its texts names an initiator
/// that is let in, and a normal session only as that text names the target; and, where the target asks for CHAP, only as one
/// carries the digest that a secret of that name makes of the challenge, that of the entry at the place that was proved, by the algorithm
/// that was asked for: the one that the target takes of the first offer; where it doesn't, nothing was proved. What it has agreed is in its ranges.
pub fn begins_by_name()
    ensures let_in { (group : ℕ) (target : LoginTarget) (challenge : Option Challenge) (comings : List Coming) (f : FullFeature) → (exchanged target (started group challenge) comings).login ≡ Ended (ends.FullFeature f) → IsLetIn target challenge (texts_of comings) f.admission f.session_type f.proved }
    ensures in_range { (group : ℕ) (target : LoginTarget) (challenge : Option Challenge) (comings : List Coming) (f : FullFeature) → (exchanged target (started group challenge) comings).login ≡ Ended (ends.FullFeature f) → AreInRange f.parameters }
{}

/// Law: where a request is told to begin a session, its login has reached the full feature phase with it.
pub fn told_as_begun()
    ensures { (target : LoginTarget) (e : ExchangeValue) (r : LoginRequest) (payload : List ℕ) (f : FullFeature) → progress_of e target r payload ≡ Begins f → (taken e target r payload).login ≡ Ended (ends.FullFeature f) }
{}

/// Law: a login that has ended stays as it ended, and answers each request by that end.
pub fn end_stays()
    ensures state { (end : LoginEnd) (target : LoginTarget) (r : LoginRequest) (text : List ℕ) → stepped (Ended end) target r text ≡ Ended end }
    ensures answer { (end : LoginEnd) (r : LoginRequest) → step_of (Ended end) r ≡ Ends end }
{}

/// Law: no stage leads back, nor to itself.
pub fn stages_ascend()
    ensures { (current next : Stage) → leads_to current next ≡ true → stage_code current < stage_code next }
{}

/// Worked rows: a login that has ended, one without a challenge, a host that is named twice, and algorithms that are offered twice.
pub fn login_rows()
    ensures { (target : LoginTarget) (text : List ℕ) → LoginsNoPortalShows target text }
{}
