//! The device under a storage: the trait, a disk in memory, and an adapter over a file of the system.
#![tactic(auto)]

mod disk;
mod file;
mod laws;
mod memory;
mod queue;
mod record;
mod recorded;
mod recording;
mod seeds;
mod synced;
mod undoing;

pub use disk::Disk;
pub use file::FileDisk;
pub use laws::{one_image, seeds_name_images};
pub use memory::MemoryDisk;
pub use synced::{append_and_sync, cut_and_sync, overwrite_and_sync, write_and_sync};
