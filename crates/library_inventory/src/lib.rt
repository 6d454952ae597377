//! The inventory of a library: what it is made of, and which volume is in which element; and where each volume is at a start.
#![tactic(auto)]

mod among;
mod element;
mod fault;
mod given;
mod inventory;
mod laws;
mod made;
mod name;
mod placed;
mod placing;
mod profile;
mod rows;

pub use element::{Element, LibrarySize};
pub use fault::{AddFault, SizeOption, StartFault};
pub use given::size_at_start;
pub use inventory::Inventory;
pub use laws::{
    addresses_read_back, profiles_stay, starts_forget_no_volume, starts_hold_all_images,
};
pub use made::unused_of;
pub use name::{name_of_tag, tag_of_name};
pub use placed::PlacedVolume;
pub use placing::{Start, place};
pub use profile::{StartProfile, profile_at_start};
pub use rows::{worked_profiles, worked_rows};
