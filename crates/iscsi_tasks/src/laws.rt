ghost use Rattle.std.specs.Prelude.{◌≡◌, ◌↔◌, ◌<◌, ◌^◌, ◌+◌, ℕ, true, false, not, List, ◌++◌, map, filter, sum_by};
ghost use Rattle.std.specs.List.{AllByRecursion};
ghost use Rattle.iscsi_pdu.specs.SerialNumbers.{distance};
ghost use Rattle.iscsi_pdu.specs.declared.serial_number.SerialNumber.{SerialNumber};
ghost use Rattle.iscsi_keys.specs.declared.parameters.SessionParameters.{SessionParameters};
ghost use Rattle.iscsi_tasks.specs.Values.{TasksValue, begun_tasks};
ghost use Rattle.iscsi_tasks.specs.Windows.{IsInWindow, max_cmd_sn};
ghost use Rattle.iscsi_tasks.specs.Commands.{IsBounded};
ghost use Rattle.iscsi_tasks.specs.declared.held_reply.HeldReply.{HeldReply};
ghost use Rattle.tickets.specs.declared.ticket.Outcome.{Outcome};
ghost use Rattle.tickets.specs.declared.ticket.Outcome.TheVariants.{Lost};
ghost use Rattle.iscsi_tasks.specs.declared.held_reply.Response.TheVariants.{TargetFailure};
ghost use Rattle.iscsi_tasks.specs.Aborts.{is_at, is_named, is_reply_at, is_reply_named, is_waiting_at, reset_by_another, without_task, without_unit};
ghost use Rattle.iscsi_tasks.specs.HeldRuns.{answers, dropped, held_in, in_hand, released, released_replies, said, IsInTime};
ghost use Rattle.iscsi_tasks.specs.Holding.{answer_by};
ghost use Rattle.iscsi_tasks.specs.OwnData.{EachHasJust};
ghost use Rattle.iscsi_tasks.specs.Runs.{Act, run, stepped, commands, handed_out, taken_in, executed, EndsNone, IsPartOf, IsMadeOf};

/// Law: commands are handed out in the order in which they were taken, none of them twice, and those that still wait come behind
/// them; what is executed is among what is handed out. Where no task management ends one, none is lost.
pub fn commands_in_order()
    ensures order { (s : TasksValue) (acts : List Act) → IsPartOf (handed_out s acts ++ commands (run s acts).waiting) (commands s.waiting ++ taken_in s acts) }
    ensures complete { (s : TasksValue) (acts : List Act) → AllByRecursion EndsNone acts → handed_out s acts ++ commands (run s acts).waiting ≡ commands s.waiting ++ taken_in s acts }
    ensures executed { (s : TasksValue) (acts : List Act) → IsPartOf (map (λ e. e.command) (executed s acts)) (handed_out s acts) }
{}

/// Law: no command is handed out that was aborted, or that was dropped with its unit, by the session or by a reset of another.
pub fn aborted_is_gone()
    ensures task { (s : TasksValue) (unit tag : ℕ) (acts : List Act) → is_waiting_at s unit tag ≡ true → IsPartOf (handed_out (without_task s unit tag) acts) (commands (filter (λ t. not (is_named unit tag t)) s.waiting) ++ taken_in (without_task s unit tag) acts) }
    ensures unit { (s : TasksValue) (unit : ℕ) (acts : List Act) → IsPartOf (handed_out (without_unit s unit) acts) (commands (filter (λ t. not (is_at unit t)) s.waiting) ++ taken_in (without_unit s unit) acts) }
    ensures reset { (s : TasksValue) (unit : ℕ) (acts : List Act) → IsPartOf (handed_out (reset_by_another s unit) acts) (commands (filter (λ t. not (is_at unit t)) s.waiting) ++ taken_in (reset_by_another s unit) acts) }
{}

/// Law: whatever comes, a command that is executed has all of its data, put together of what came under its own tag, each piece
/// where the one before ends: no less than its unit takes, and no other's.
pub fn data_are_its_own()
    ensures { (p : SessionParameters) (limit : ℕ) (n : SerialNumber) (acts : List Act) → AllByRecursion (IsMadeOf limit acts) (executed (begun_tasks p limit n) acts) }
{}

/// Law: whatever comes, a command that is executed has just the data that were sent for it: what came with it, and each Data-Out that came
/// under its tag since it was taken, each where the one before ends, no more and no less than its unit takes. What came under the same tag for
/// a command before it is none of that.
pub fn data_are_sent_for_it()
    ensures { (p : SessionParameters) (limit : ℕ) (n : SerialNumber) (acts : List Act) → EachHasJust (begun_tasks p limit n) acts }
{}

/// Law: whatever comes, no more commands wait than may, and their data stay within bounds; and of the commands that have used a number up,
/// as of those for immediate delivery, no more than 32 wait, are in hand or have their replies held.
pub fn tasks_are_bounded()
    ensures under_way { (p : SessionParameters) (limit : ℕ) (n : SerialNumber) (acts : List Act)
        → IsInWindow (run (begun_tasks p limit n) acts) }
    ensures waiting { (p : SessionParameters) (limit : ℕ) (n : SerialNumber) (acts : List Act)
        → IsBounded (run (begun_tasks p limit n) acts).waiting }
{}

/// Law: whatever comes, MaxCmdSN stays or moves on, by less than half the circle, and never back.
pub fn window_moves_on()
    ensures { (p : SessionParameters) (limit : ℕ) (n : SerialNumber) (acts : List Act) (act : Act) → n.number < 2 ^ 32 → distance (max_cmd_sn (run (begun_tasks p limit n) acts)) (max_cmd_sn (stepped (run (begun_tasks p limit n) acts) act)) < 2 ^ 31 }
{}

/// Law: each reply that is held leaves once, or is dropped by task management, or is still held, however they are weighed; and what is
/// answered is what leaves.
pub fn held_leave_once()
    ensures once { (weigh : HeldReply → ℕ) (s : TasksValue) (acts : List Act)
        → sum_by weigh s.replies + sum_by weigh (held_in s acts)
        ≡ sum_by weigh (released_replies (released s acts)) + sum_by weigh (dropped s acts) + sum_by weigh (run s acts).replies }
    ensures said { (s : TasksValue) (acts : List Act) → said s acts ≡ answers (released s acts) }
{}

/// Law: the replies that are held are those to commands that were in hand or were handed out, in the same order, to none twice.
pub fn held_are_handed_out()
    ensures { (s : TasksValue) (acts : List Act)
        → IsPartOf (map (λ r. r.command) (held_in s acts) ++ in_hand (run s acts)) (in_hand s ++ handed_out s acts) }
{}

/// Law: a reply leaves only while it is held, when what it waits for is settled, and by that outcome.
pub fn released_in_time()
    ensures { (s : TasksValue) (acts : List Act) → AllByRecursion (IsInTime s acts) (released s acts) }
{}

/// Law: the answer is a target failure exactly where what the command left could not be kept.
pub fn target_failures()
    ensures { (outcome : Outcome) (r : HeldReply) → (answer_by outcome r).response ≡ TargetFailure ↔ outcome ≡ Lost }
{}

/// Law: no reply leaves that was dropped with its task or its unit, by the session or by a reset of another, unless one is held anew.
pub fn dropped_is_gone()
    ensures task { (s : TasksValue) (unit tag : ℕ) (acts : List Act) → is_waiting_at s unit tag ≡ true
        → AllByRecursion (λ r. is_reply_named unit tag r ≡ false) (held_in (without_task s unit tag) acts)
        → AllByRecursion (λ e. is_reply_named unit tag e.held ≡ false) (released (without_task s unit tag) acts) }
    ensures unit { (s : TasksValue) (unit : ℕ) (acts : List Act)
        → AllByRecursion (λ r. is_reply_at unit r ≡ false) (held_in (without_unit s unit) acts)
        → AllByRecursion (λ e. is_reply_at unit e.held ≡ false) (released (without_unit s unit) acts) }
    ensures reset { (s : TasksValue) (unit : ℕ) (acts : List Act)
        → AllByRecursion (λ r. is_reply_at unit r ≡ false) (held_in (reset_by_another s unit) acts)
        → AllByRecursion (λ e. is_reply_at unit e.held ≡ false) (released (reset_by_another s unit) acts) }
{}
