//! Worked rows that the definitions compute to.

ghost use Rattle.script_lines.specs.Rows.{LinesRead, LineFaults, ScriptsRead, RequestsRead};

/// Lines and the events that they say, lines and their faults, scripts, and the same of a host's script.
pub fn worked_rows()
    ensures lines { LinesRead }
    ensures faults { LineFaults }
    ensures scripts { ScriptsRead }
    ensures requests { RequestsRead }
{}
