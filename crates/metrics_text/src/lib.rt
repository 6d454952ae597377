//! What is counted of a library while it is served, in Prometheus' text format for metrics.
#![tactic(auto)]

mod family;
mod laws;
mod line;
mod server;
mod server_counts;
mod text;
mod units;
mod volumes;
mod word;

pub use laws::worked_rows;
pub use server_counts::ServerCounts;
pub use text::metrics_text;
