//! Worked rows that the definitions compute to.

ghost use Rattle.client_session.specs.Rows.{FaultsTold, RepliesTold, SessionTold};

/// What each fault says, the lines of replies and which reply goes with which frame, and a session byte by byte.
pub fn worked_rows()
    ensures faults { FaultsTold }
    ensures replies { RepliesTold }
    ensures session { SessionTold }
{}
