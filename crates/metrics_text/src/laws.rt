//! Worked rows that the definitions compute to.

ghost use Rattle.metrics_text.specs.Rows.{LinesOfMetrics};

/// Lines of metrics.
pub fn worked_rows()
    ensures { LinesOfMetrics }
{}
