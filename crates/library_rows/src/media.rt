//! Lasting media, as far as no file of a folder can say it: images whose reads are interrupted or fail, a file of which one call fails,
//! what a drive's volume is kept by, also where it is moved or can't be written, what replies wait for until it is kept, and the memory that
//! tapes share.

mod commands;
mod failing_store;
mod image_bytes;
mod images;
mod keepers;
mod keeping;
mod library;
mod meanwhile;
mod memory;
mod memory_disk;
mod moved;
mod readings;
mod settled;
mod units;
mod woken;
