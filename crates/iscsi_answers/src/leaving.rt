//! When a logout is asked for.

ghost use Rattle.std.specs.Prelude.{◌≡◌};
ghost use Rattle.iscsi_answers.specs.Leaving.{seconds_to_leave};

/// Within how many seconds a logout is asked for, where all sessions are to end within `ends`: once, and not where they may go on.
pub fn seconds_to_leave(ends: Option<u16>, is_asked: bool) -> Option<u16>
    ensures { result ≡ seconds_to_leave ends is_asked }
{
    if is_asked { None } else { ends }
}
