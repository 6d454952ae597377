//! What stands before a command's own rules: an attention that waits for its sender, or a conflict by the reservation check.

ghost use Rattle.std.specs.Prelude.{◌≡◌, true};
ghost use Rattle.pr_core.specs.declared.verdict.Verdict.TheVariants.{Allowed};
ghost use Rattle.pr_core.specs.State.{cell};
ghost use Rattle.judgement.specs.Commands.{class_of_command};
ghost use Rattle.judgement.specs.Judge.{waiting, let_through, checked};
ghost use Rattle.judgement.specs.Readings.{verdict_of};
ghost use Rattle.judgement.specs.Standing.{StandsBefore, StandsBy, is_clear, is_let_in};
ghost use Rattle.judgement.specs.UnitState.{has_room};

use crate::command::{Command, passes_over};
use crate::decision::Decision;
use crate::reply::Reply;
use crate::unit_state::UnitState;
use audit_log::Stage;
use permit_tables::Cell;
use pr_core::Verdict;
use scsi_cdb::Class;
use scsi_nexus::Nexus;
use std::alloc::Global;
use unit_attention::Kind;

/// What stands before a command's own rules.
#[derive(Drop)]
pub enum Standing {
    /// An attention that waits, or a conflict by the reservation check: the command ends by it.
    Ended(Decision, Reply),
    /// Nothing: the command goes on to its own rules, in its cell of the permission table.
    LetThrough(Cell),
}

/// An attention that waits, unless the class passes over it.
fn waiting(class: Class, pending: Option<Kind>) -> Option<Kind>
    ensures { result ≡ waiting class pending }
{
    if passes_over(class) { None } else { pending }
}

/// What stands before a command that the reservation check allows: another attention.
fn stands_after_check(
    alloc: Global,
    state: &mut UnitState,
    nexus: Nexus,
    command: &Command,
    in_cell: Cell,
) -> Standing
    requires room { has_room state.old nexus ≡ true }
    requires known { in_cell ≡ cell state.old.reservations nexus (class_of_command command.now) }
    requires allowed { verdict_of state.old.reservations nexus command.now ≡ Allowed }
    ensures { StandsBy let_through is_clear state.old state.new nexus command.now result }
{
    match waiting(command.class(), state.first_other(nexus)) {
        Some(kind) => Standing::Ended(
            Decision::let_in(in_cell, Stage::OtherAttention),
            state.report_attention(alloc, nexus, kind),
        ),
        None => Standing::LetThrough(in_cell),
    }
}

/// What stands before a command for whose sender no attention of ASC 29h waits: a conflict by the reservation check, or another attention.
fn stands_at_check(
    alloc: Global,
    state: &mut UnitState,
    nexus: Nexus,
    command: &Command,
) -> Standing
    requires { has_room state.old nexus ≡ true }
    ensures { StandsBy checked is_let_in state.old state.new nexus command.now result }
{
    let in_cell = state.cell(nexus, command);
    let rule = match state.verdict(nexus, command, in_cell) {
        Verdict::Allowed => {
            return stands_after_check(alloc, state, nexus, command, in_cell);
        }
        Verdict::Denied(_) => None,
        Verdict::Rule(rule) => Some(rule),
    };
    state.make_contact(nexus);
    Standing::Ended(Decision::in_conflict(in_cell, rule), Reply::conflict(alloc))
}

/// What stands before a decoded command: an attention of ASC 29h, a conflict by the reservation check, or another attention. The
/// device isn't asked. A command that is let through has made no contact yet.
pub fn stands_before(
    alloc: Global,
    state: &mut UnitState,
    nexus: Nexus,
    command: &Command,
) -> Standing
    requires { has_room state.old nexus ≡ true }
    ensures { StandsBefore state.old state.new nexus command.now result }
{
    match waiting(command.class(), state.first_reset(nexus)) {
        Some(kind) => Standing::Ended(
            Decision::at_stage(Stage::ResetAttention),
            state.report_attention(alloc, nexus, kind),
        ),
        None => stands_at_check(alloc, state, nexus, command),
    }
}
