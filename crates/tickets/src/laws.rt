ghost use Rattle.std.specs.Prelude.{◌≡◌, ◌≢◌, ◌<◌, ◌≤◌, ℕ, true, false, Some, None};
ghost use Rattle.tickets.specs.declared.ticket.Outcome.{Outcome};
ghost use Rattle.tickets.specs.declared.ticket.Outcome.TheVariants.{Kept, Lost};
ghost use Rattle.tickets.specs.declared.progress.Progress.{Progress};
ghost use Rattle.tickets.specs.Progresses.{asked, begun, is_settled, next_number, outcome_at, progress, settled};

/// Law: an outcome is known of what a settlement goes as far as, and of nothing behind it.
pub fn answered_once_settled()
    ensures kept { (p : Progress) (number at : ℕ) → number ≤ at → outcome_at number (settled at Kept p) ≡ Some Kept }
    ensures lost { (p : Progress) (number at : ℕ) → number ≤ at → outcome_at number p ≢ Some Kept
        → outcome_at number (settled at Lost p) ≡ Some Lost }
    ensures later { (p : Progress) (number at : ℕ) (o : Outcome) → at < number
        → outcome_at number (settled at o p) ≡ outcome_at number p }
    ensures asked { (p : Progress) (number : ℕ) → outcome_at number (asked p) ≡ outcome_at number p }
{}

/// Law: what is kept stays kept, whatever else is lost.
pub fn kept_stays_kept()
    ensures { (p : Progress) (number at : ℕ) (o : Outcome) → outcome_at number p ≡ Some Kept
        → outcome_at number (settled at o p) ≡ Some Kept }
{}

/// Worked rows: three were asked for, of which the first is kept, and the second is lost.
pub fn progress_rows()
    ensures first { outcome_at 1 (progress 3 1 2) ≡ Some Kept }
    ensures second { outcome_at 2 (progress 3 1 2) ≡ Some Lost }
    ensures third { outcome_at 3 (progress 3 1 2) ≡ None }
    ensures waits { is_settled (progress 3 1 2) ≡ false }
    ensures kept_later { outcome_at 2 (settled 3 Kept (progress 3 1 2)) ≡ Some Kept }
    ensures all { is_settled (settled 3 Lost (progress 3 1 2)) ≡ true }
    ensures none { is_settled begun ≡ true }
    ensures fourth { next_number (progress 3 1 2) ≡ 4 }
    ensures last { next_number (progress 0xFFFFFFFFFFFFFFFF 0 0) ≡ 0xFFFFFFFFFFFFFFFF }
{}
