//! A disk with one file, as a trait whose contract says what a crash at any moment leaves, and such a disk in memory.
#![tactic(auto)]

mod disk;
mod mem_disk;

pub use disk::{Disk, DiskFailed};
pub use mem_disk::MemDisk;
