ghost use Rattle.std.specs.Prelude.{IfOk, IfSome, string_bytes};
ghost use Rattle.std.specs.Time.{system_time_nanos};
ghost use Rattle.record_lines.specs.Times.{IsTimeText};

use jiff::Timestamp;
use jiff::fmt::temporal::DateTimePrinter;
use std::alloc::{AllocError, Global};
use std::time::SystemTime;

/// A time as RFC 3339 has it, in UTC, up to its millisecond; none if its year has more than four digits.
pub fn time_text(alloc: Global, time: SystemTime) -> Result<Option<String>, AllocError>
    ensures { IfOk result (λ made. IfSome made (λ text. IsTimeText (system_time_nanos time) (string_bytes text))) }
{
    let Ok(timestamp) = Timestamp::try_from(time) else {
        return Ok(None);
    };
    let printer = DateTimePrinter::new().precision(Some(3));
    let text = printer.timestamp_text(timestamp.to_plain());
    Ok(Some(String::from_str(alloc, text.as_str())?))
}
