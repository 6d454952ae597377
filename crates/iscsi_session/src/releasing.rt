//! Replies that were held, and are sent once what they waited for is settled.
ghost use Rattle.std.specs.Prelude.{◌≡◌, ◌++◌, List, IfErr, OnOk};
ghost use Rattle.iscsi_pdu.specs.Pdus.{TargetPduValue};
ghost use Rattle.iscsi_answers.specs.Written.{bytes_of_all};
ghost use Rattle.iscsi_session.specs.Faults.{IsInside};
ghost use Rattle.iscsi_session.specs.Executing.{Adds};
ghost use Rattle.iscsi_session.specs.Releasing.{Releases, SaysDue, response_to};

use crate::connection::Connection;
use crate::fault::IscsiFault;
use crate::register::SessionRegister;
use iscsi_answers::{AnsweredCommand, write_late_response, write_target_failure};
use iscsi_tasks::{DueAnswer, Response};
use tickets::ReplyTicket;

/// Answers the commands whose replies waited for what is settled by now, and notes whether others still wait.
pub(crate) fn release<G: SessionRegister>(
    register: &G,
    connection: &mut Connection<'_>,
) -> Result<(), IscsiFault>
    ensures fault { IfErr result IsInside }
    ensures released { (said : List TargetPduValue)
        × Releases (G.settles register.now) connection.old.tasks said connection.new.tasks
        × Adds result connection.old.out.items connection.new.out.items said }
{
    if connection.tasks.holds_none() {
        register.note_holding(false);
        return Ok(());
    }
    release_held(register, connection)
}

/// The same where some are held. What this takes of the stack is cleared at each call, and so it is none that each command makes.
fn release_held<G: SessionRegister>(
    register: &G,
    connection: &mut Connection<'_>,
) -> Result<(), IscsiFault>
    ensures fault { IfErr result IsInside }
    ensures released { (said : List TargetPduValue)
        × Releases (G.settles register.now) connection.old.tasks said connection.new.tasks
        × Adds result connection.old.out.items connection.new.out.items said }
{
    let tickets = connection.tasks.tickets();
    'tickets: for ticket in tickets.as_slice() {
        release_one(register, connection, *ticket)?;
    }
    register.note_holding(!connection.tasks.holds_none());
    Ok(())
}

/// Answers the commands whose replies waited for a ticket, if that is settled by now.
fn release_one<G: SessionRegister>(
    register: &G,
    connection: &mut Connection<'_>,
    ticket: ReplyTicket,
) -> Result<(), IscsiFault>
    ensures fault { IfErr result IsInside }
    ensures released { (said : List TargetPduValue)
        × Releases (G.settles register.now) connection.old.tasks said connection.new.tasks
        × Adds result connection.old.out.items connection.new.out.items said }
{
    match register.outcome_of(ticket) {
        Some(outcome) => {
            let due = connection.tasks.settle(ticket, outcome);
            add_due(connection, due.as_slice())
        }
        None => Ok(()),
    }
}

/// Adds these answers, one behind another.
fn add_due(connection: &mut Connection<'_>, due: &[DueAnswer]) -> Result<(), IscsiFault>
    ensures fault { IfErr result IsInside }
    ensures tasks { connection.new.tasks ≡ connection.old.tasks }
    ensures said { (said : List TargetPduValue) × SaysDue connection.old.tasks due.now said
        × Adds result connection.old.out.items connection.new.out.items said }
{
    'answers: for answer in due {
        add_response(connection, answer)?;
    }
    Ok(())
}

/// Adds what answers a command whose reply was held.
fn add_response(connection: &mut Connection<'_>, due: &DueAnswer) -> Result<(), IscsiFault>
    ensures fault { IfErr result IsInside }
    ensures tasks { connection.new.tasks ≡ connection.old.tasks }
    ensures said { OnOk result (connection.new.out.items ≡ connection.old.out.items
        ++ bytes_of_all (response_to connection.old.tasks connection.old.stat_sn due.now.command due.now.response)) }
{
    match due.response {
        Response::Replied(reply) => {
            let numbers = connection.numbers();
            write_late_response(
                &mut connection.out,
                numbers,
                AnsweredCommand::of(&due.command, reply.handed_over),
                reply.status,
                reply.sense,
                reply.data_length,
                reply.data_ins,
            )?;
            connection.has_answered();
            Ok(())
        }
        Response::TargetFailure => {
            let numbers = connection.numbers();
            let tag = due.command.initiator_task_tag;
            write_target_failure(&mut connection.out, numbers, tag)?;
            connection.has_answered();
            Ok(())
        }
    }
}
