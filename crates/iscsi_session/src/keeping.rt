use logical_unit::Done;
use scsi_nexus::Nexus;
use session::Service;
use tickets::ReplyTicket;

/// A service of whose replies some must not be sent before what their commands left is kept, or before records are handed out.
pub trait KeepingService: Service {
    ghost use Rattle.std.specs.Prelude.{◌≡◌, Option};
    ghost use Rattle.logical_unit.specs.Answers.{DoneValue};
    ghost use Rattle.tickets.specs.declared.ticket.ReplyTicket.{ReplyTicket};

    // What the reply in an answer waits for, if it has to wait.
    ghost waits: { DoneValue → Option ReplyTicket → Type 0 };

    /// Begins to keep what a command left with which so many bytes were sent, and says what its reply waits for. It is asked once of each command.
    fn ticket_for(&self, done: &Done<'_>, length: usize) -> Option<ReplyTicket>
        ensures { waits done.now result };

    /// Notes that the session has come in beside others of a nexus, which is in the directory. The library isn't concerned.
    fn join(&mut self, nexus: Nexus)
        ensures { self.new ≡ self.old };
}
