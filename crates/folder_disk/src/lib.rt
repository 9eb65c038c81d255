//! Named files in a folder of the file system, as a `Disk`.
//!
//! One rule holds for every call: below the folder stand plain files and folders alone. What is neither, a symbolic link above all, is a
//! fault where it is met, and nothing is ever written through it.
#![tactic(auto)]

mod create_pause;
mod disk;
mod fault;
mod faults_told;
mod files;
mod listing;
mod moment;
mod open_file;
mod unsynced;

pub use disk::FolderDisk;
