//! Tapes that are kept in files: an image is cut back to the objects that stay, what replaces the others is written after them, part by
//! part, and all of it is brought to the disk. Whatever fails, the image holds the first objects of one of the two tapes.
#![tactic(auto)]

mod ends;
mod fault;
mod known;
mod laws;
mod memory;
mod object;
mod opening;
mod part;
mod part_range;
mod read_fault;
mod reading;
mod replacing;
mod rows;
mod saved_image;
mod store;
mod watched_file;

pub use fault::{FlushFault, OpenFault};
pub use known::{FileTail, Known};
pub use laws::{
    held_images_are_read, images_follow_tapes, synced_objects_survive, what_is_known_is_so,
    whole_images_are_read,
};
pub use memory::MemoryStore;
pub use opening::{ImageEnds, image_ends, open_image};
pub use part::TapePart;
pub use part_range::PartRange;
pub use read_fault::ReadTapeFault;
pub use reading::{ReadTape, read_tape};
pub use rows::{known_rows, store_rows, survival_rows, synced_rows, worked_rows};
pub use saved_image::SavedImage;
pub use store::{ImageStore, StoreFault};
