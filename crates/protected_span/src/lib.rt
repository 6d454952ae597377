//! What a reservation keeps from others, over whole runs: the commands of the nexuses outside a protected
//! span can be struck out, and nobody inside sees a difference.
#![tactic(auto)]

mod laws;

pub use laws::{
    group_span, holder_span, outsider_changes_nothing, registers_itself, span_rows, spans_are_runs,
    spans_serve, struck_rows, units_are_reached,
};
