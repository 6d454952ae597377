//! The replies that are held, as a list.
ghost use Rattle.std.specs.Prelude.{◌≡◌, ◌≤◌, not, map, filter, length};
ghost use Rattle.std.specs.List.{list_any};
ghost use Rattle.iscsi_tasks.specs.Aborts.{is_reply_at, is_reply_named};
ghost use Rattle.iscsi_tasks.specs.Holding.{answers_due, is_reply_to, not_due};
ghost use Rattle.iscsi_tasks.specs.Limits.{most_waiting};
ghost use Rattle.iscsi_tasks.specs.Windows.{held_of};

use crate::held_reply::{DueAnswer, HeldReply};
use crate::waiting::is_of;
use arrayvec::ArrayVec;
use tickets::{Outcome, ReplyTicket};

/// How many replies are held at most: of 32 commands with numbers, and of 32 for immediate delivery.
pub const MOST_REPLIES: usize = 64;

/// How many are of commands for immediate delivery, or of those that have used a number up.
pub(crate) fn held_of(replies: &[HeldReply], immediate: bool) -> u32
    requires { length replies.now ≤ most_waiting }
    ensures count { result ≡ held_of immediate replies.now }
    ensures most { result ≤ most_waiting }
{
    let mut count = 0;
    for reply in replies {
        if is_of(&reply.command, immediate) {
            count += 1;
        }
    }
    count
}

/// Whether one is of a command with the tag.
pub(crate) fn is_held(replies: &[HeldReply], tag: u32) -> bool
    ensures { result ≡ list_any (is_reply_to tag) replies.now }
{
    replies
        .iter()
        .any(|reply| reply.command.initiator_task_tag == tag)
}

/// Whether one is of the command at the unit that has the tag.
pub(crate) fn is_held_at(replies: &[HeldReply], unit: u8, tag: u32) -> bool
    ensures { result ≡ list_any (is_reply_named unit tag) replies.now }
{
    replies.iter().any(|reply| reply.is_named(unit, tag))
}

/// What they wait for.
pub(crate) fn tickets_of(replies: &[HeldReply]) -> ArrayVec<ReplyTicket, MOST_REPLIES>
    requires { length replies.now ≤ most_waiting }
    ensures { result.items ≡ map (λ r. r.ticket) replies.now }
{
    let mut tickets = ArrayVec::new();
    for reply in replies {
        tickets.push(reply.ticket);
    }
    tickets
}

/// The answers to those that wait for the ticket that is settled.
pub(crate) fn answers_due(
    replies: &[HeldReply],
    settled: ReplyTicket,
    outcome: Outcome,
) -> ArrayVec<DueAnswer, MOST_REPLIES>
    requires { length replies.now ≤ most_waiting }
    ensures { result.items ≡ answers_due settled outcome replies.now }
{
    let mut answers = ArrayVec::new();
    for reply in replies {
        if reply.is_due(settled) {
            answers.push(reply.answer(outcome));
        }
    }
    answers
}

/// Removes those that wait for the ticket that is settled.
pub(crate) fn drop_due(replies: &mut ArrayVec<HeldReply, MOST_REPLIES>, settled: ReplyTicket)
    ensures { replies.new.items ≡ not_due settled replies.old.items }
{
    replies.retain(|reply| !reply.is_due(settled));
}

/// Drops the reply to the command at the unit that has the tag.
pub(crate) fn drop_reply_named(replies: &mut ArrayVec<HeldReply, MOST_REPLIES>, unit: u8, tag: u32)
    ensures { replies.new.items ≡ filter (λ r. not (is_reply_named unit tag r)) replies.old.items }
{
    replies.retain(|reply| !reply.is_named(unit, tag));
}

/// Drops the replies to the commands at a unit.
pub(crate) fn drop_replies_at(replies: &mut ArrayVec<HeldReply, MOST_REPLIES>, unit: u8)
    ensures { replies.new.items ≡ filter (λ r. not (is_reply_at unit r)) replies.old.items }
{
    replies.retain(|reply| !reply.is_at(unit));
}
