//! Worked rows that the definitions compute to.

ghost use Rattle.output_lines.specs.Rows.{ReplyLines, ExplainedReplies, AuditTexts};

/// The lines of replies, without and with their words, and those of units' records.
pub fn worked_rows()
    ensures replies { ReplyLines }
    ensures explained { ExplainedReplies }
    ensures records { AuditTexts }
{}
