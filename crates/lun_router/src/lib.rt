//! A library whose units are under locks of their own, shared by many seats: one command, loss, reset, move, look or drain at the locks
//! that it needs, and each answer is that of its own call. No input or output here; it waits for locks, and for nothing else.
#![tactic(auto)]

mod all_locks;
mod closing;
mod entry_queue;
mod gate;
mod handing_over;
mod laws;
mod library;
mod lock_routes;
mod locked;
mod locking;
mod locks;
mod looking;
mod moves;
mod opening;
mod routes;
mod seat;
mod seat_shares;
mod settling;
mod taking;
mod unit_ranges;
mod units_by_lun;

pub use closing::CloseFault;
pub use gate::{Gate, Pass};
pub use laws::{calls_are_steps, settling_rows};
pub use library::Library;
pub use locking::Blanks;
pub use looking::UnitObserver;
pub use seat::Seat;
pub use seat_shares::SeatShares;
pub use taking::Histories;
