//! The tapes of a library that is served, each kept in an image, and where they are: what is written is copied in the background, and what a
//! reply says to be kept is on the disk before it goes out.
#![tactic(auto)]

mod backlog;
mod conditions;
mod copying;
mod item;
mod job;
mod keeper;
mod laws;
mod listing;
mod looking;
mod queues;
mod requests;
mod rows;
mod saved_tapes;
mod saving_rows;
mod shared_requests;
mod store;
mod volume_image;
mod watch;
mod wish;

pub use keeper::MediaKeeper;
pub use laws::{backlog_rows, item_rows, items_have_numbers};
pub use rows::{asked_rows, look_rows};
pub use saved_tapes::SavedTapes;
pub use saving_rows::{image_rows, move_rows, volume_rows, written_rows};
pub use store::InventoryStore;
pub use volume_image::VolumeImage;
