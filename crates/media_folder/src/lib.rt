//! The folder in which a library is kept: one program has it at a time; each volume is a file there, `TAG.tap`, and `library.toml` says
//! what the library is made of, which profile it has, and where its volumes are.
#![tactic(auto)]

mod beginning;
mod boot;
mod check;
mod check_fault;
mod fault;
mod folder;
mod identity;
mod images;
mod inventory_file;
mod inventory_text;
mod known_keys;
mod library_folder;
mod listing;
mod names;
mod notice;
mod plan;
mod profile;
mod reading;
mod record;
mod refusal;
mod rights;
mod rows;
mod seen;
mod size;
mod small_file;
mod store;
mod summary;
mod text_fault;
mod trust;
mod wanted;

pub use check::check_folder;
pub use check_fault::CheckFault;
pub use fault::FolderFault;
pub use folder::{OpenedFolder, open_folder};
pub use images::KeptVolume;
pub use inventory_file::{InventoryWrite, begin_inventory, write_inventory_file};
pub use inventory_text::{KeptLibrary, read_inventory, write_inventory};
pub use library_folder::{LibraryFolder, lock_folder};
pub use plan::{PlannedFolder, PlannedImage, PlannedVolume, plan_folder};
pub use rows::{paths_name_volumes, worked_rows};
pub use store::{FileAccess, FileStore};
pub use text_fault::{InventoryKey, ReadFault, VolumeFault, WriteFault};
pub use wanted::WantedLibrary;
