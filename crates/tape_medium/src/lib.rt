//! A tape as its logical objects, over pieces of memory, and the volume that carries it.
#![tactic(auto)]

mod elements;
mod fault;
mod index;
mod item;
pub mod laws;
mod limits;
mod memory;
mod object;
mod passage;
mod piece;
mod pieces;
mod space;
mod store;
mod tape;
mod volume;

pub use elements::{FIRST_DATA_TRANSFER, FIRST_IMPORT_EXPORT, FIRST_STORAGE, MapFault, TRANSPORT};
pub use fault::TapeFault;
pub use item::Item;
pub use limits::{MAX_BLOCK, MAX_CAPACITY, MAX_OBJECTS, most_block, most_objects};
pub use memory::MemoryLimit;
pub use object::TapeObject;
pub use space::{SpaceCode, SpaceEnd, Stop};
pub use tape::Tape;
pub use volume::{Volume, VolumeTag};
