//! Images of tapes, as SIMH keeps them: what an image begins with, read in place, and the bytes of each logical object. What is written is
//! read back, and of an image that was cut the objects that are whole.
#![tactic(auto)]

mod ending;
mod fault;
mod index;
mod index_fault;
mod laws;
mod layout;
mod part;
mod part_buffer;
mod reader;
mod rows;
mod writing;

pub use ending::ImageEnd;
pub use fault::{ImageFault, PastLastOffset};
pub use index::{ImageIndex, IndexedObject, index_image};
pub use index_fault::IndexFault;
pub use laws::{
    beginnings_are_read, cut_images_are_read, each_image_is_read, images_are_cut_back,
    images_are_written_on, objects_are_read, one_reading, parts_are_passed, parts_stay,
    readings_go_on,
};
pub use layout::{LENGTH_FIELD, MAX_PART};
pub use part::{ImagePart, parse_image};
pub use reader::ImageReader;
pub use rows::{cut_rows, fault_rows, image_rows, part_rows, tail_rows};
pub use writing::{write_block, write_mark};
