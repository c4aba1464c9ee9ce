//! Disks as the logs see them: a trait, its form in memory, and its form over a real file.
//!
//! A [`Disk`] is one file. What it promises is a model of a disk that may lose power at any moment: a read gives
//! what was written, and a crash leaves what the last sync made sure, with each later change torn anyhow. The
//! model is plain data (`specs/DiskModel.antt`), so that a contract above it can speak of each moment inside a call.
#![tactic(auto)]

mod bytes;
mod disk;
mod file;
mod image;
mod memory;
mod past;
mod plan;
mod recent;

pub use disk::{Disk, Failed, NoMemory};
pub use file::{FileDisk, open_file_disk};
pub use image::Image;
pub use memory::MemDisk;
pub use plan::{Mishap, Pending};
