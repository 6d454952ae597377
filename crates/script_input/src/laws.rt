//! Worked rows that the definitions compute to.

ghost use Rattle.script_input.specs.InputRows.{InputsRead, FaultsTold};

/// What is read, and what is said of its faults.
pub fn worked_rows()
    ensures inputs { InputsRead }
    ensures input_faults { FaultsTold }
{}
