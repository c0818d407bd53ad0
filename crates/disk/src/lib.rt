//! A file as a journal sees it: what a read returns, what a crash may leave, and since when.
//!
//! The contract is the trait [`Disk`]; the words that it uses stand in `specs/Disk`. [`FileDisk`] is a file of the
//! operating system, of which no contract says what it holds (docs/DISK.md says what is assumed of it), and
//! [`MemoryDisk`] a file in memory that can fail and tear, for tests.
#![tactic(auto)]

mod disk;
mod file_disk;
mod memory_disk;

pub use disk::{Disk, Failed};
pub use file_disk::{FileDisk, OpenFault};
pub use memory_disk::MemoryDisk;
