//! A list of records on a pair of files that is right after a crash at any moment of any call.
//!
//! [`Log::create`] makes one on two empty disks, [`Log::open`] reads one, [`Log::append`] adds a record. After an
//! append has answered Ok each crash leaves its record; a crash inside it leaves the records from before, or these
//! and the new one. A crash inside an opening leaves what a crash just before it could have left. After a disk fault
//! the log isn't sound until [`Log::reopen`] has read it again. [`Log::reserve`] makes room, so that the next append
//! takes no memory.
//!
//! This holds on disks that are as `disk_core` says and return what they were given. What two files stand for is a
//! function of their bytes (`records_of` in specs/Recovery.antt); it doesn't depend on their order where one is
//! current.
#![tactic(auto)]

mod appending;
mod fault;
mod files;
mod log;
mod reading;
mod records;

pub use fault::LogFault;
pub use files::DiskPair;
pub use log::Log;
pub use records::Records;

/// The payload of a record.
pub use list_types::Bytes;

/// The longest payload of a record, in bytes.
pub const MAX_PAYLOAD: u64 = 8_388_608;
