//! Files of the operating system as disks and as a shelf. They tell nothing of their bytes, so no contract above says
//! what such a file holds.
#![tactic(auto)]

mod file_disk;
mod file_shelf;

pub use file_disk::FileDisk;
pub use file_shelf::FileShelf;
