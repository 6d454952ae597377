//! The permission table of persistent reservations as a chart for people: classes of command down, types of
//! reservation and roles across.
#![tactic(auto)]

mod cells;
mod chart;
mod classes;
mod laws;
mod row;

pub use cells::write_cells;
pub use chart::Chart;
pub use classes::class_named;
pub use laws::{class_name_reads_back, each_class_has_a_line, lines_are_aligned, worked_rows};
