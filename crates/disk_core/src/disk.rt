//! The trait `Disk` and its faults.
ghost use Rattle.std.specs.Prelude.{◌≡◌, ℕ, ◌+◌, ◌≤◌, ◌<◌, Option, Some, option_map, length, is_some, OnOk, IfOk, OnErr};
ghost use Rattle.disk_core.specs.Counts.{HasCause};
ghost use Rattle.disk_core.specs.Steps.{AsPlanned, Cuts, Syncs, Writes};
ghost use Rattle.disk_core.specs.Trial.{Trial, UnlessStopped};
ghost use Rattle.disk_core.specs.DiskModel.{DiskState, written, cut_to, synced, FailsToWrite, FailsToCut, Becomes, MayLeave, ReadsAt};

use std::alloc::{AllocError, AllocFailed};
use thiserror::Error;

/// A call on a disk failed. The disk's count of faults rose in that call.
#[derive(Clone, Copy, Debug, PartialEq, Eq, Error)]
#[error("the disk failed")]
pub struct Failed;

/// No memory was left.
#[derive(Clone, Copy, Debug, PartialEq, Eq, Error)]
#[error("no memory is left")]
pub struct NoMemory;

impl From<AllocError> for NoMemory {
    fn from(_: AllocError) -> NoMemory {
        NoMemory
    }
}

impl<T: Drop> From<AllocFailed<T>> for NoMemory {
    fn from(_: AllocFailed<T>) -> NoMemory {
        NoMemory
    }
}

/// One file. Places and lengths are in bytes.
///
/// The changing calls are `write_at`, `cut` and `sync`. They take no memory: `ready` makes the room for the next six.
pub trait Disk {
    /// What the disk holds and a crash may leave, where it tells. A real file doesn't.
    ghost state: { Self → Option DiskState };

    /// What is planned for its changing calls, and what has come of it, where it tells. A disk in memory does, a real file doesn't.
    ghost trial: { Self → Option Trial };

    /// How often a call has failed.
    ghost faults: { Self → ℕ };

    /// How many bytes the coming changing calls may write without taking memory.
    ghost room: { Self → ℕ };

    /// How many changing calls may come without taking memory.
    ghost calls: { Self → ℕ };

    /// The length of the file.
    fn length(&mut self) -> Result<u64, Failed>
        ensures told { (s : DiskState) → state self.old ≡ Some s → IfOk result (λ n. n ≡ length s.seen) }
        ensures state { state self.new ≡ state self.old }
        ensures room { (room self.new ≡ room self.old) × (calls self.new ≡ calls self.old) }
        ensures trial { UnlessStopped (trial self.old) (trial self.new) result }
        ensures cause { HasCause (faults self.old) (faults self.new) result };

    /// Reads from a place on, and answers how many bytes it read: fewer than there is room for only at the end.
    fn read(&mut self, at: u64, into: &mut [u8]) -> Result<usize, Failed>
        ensures within { IfOk result (λ n. n ≤ length into.old) }
        ensures told { (s : DiskState) → state self.old ≡ Some s → IfOk result (λ n. ReadsAt s.seen at n into.old into.new) }
        ensures state { state self.new ≡ state self.old }
        ensures room { (room self.new ≡ room self.old) × (calls self.new ≡ calls self.old) }
        ensures trial { UnlessStopped (trial self.old) (trial self.new) result }
        ensures cause { HasCause (faults self.old) (faults self.new) result };

    /// Writes over what stands from a place on, and past the end. Until a sync a crash may leave any bytes there.
    fn write_at(&mut self, at: u64, bytes: &[u8]) -> Result<(), Failed>
        requires place { (s : DiskState) → state self.old ≡ Some s → at ≤ length s.seen }
        requires calls { 0 < calls self.old }
        requires room { length bytes.now ≤ room self.old }
        ensures written { OnOk result (state self.new ≡ option_map (written at bytes.now) (state self.old)) }
        ensures torn { OnErr result (Becomes (FailsToWrite at bytes.now) (state self.old) (state self.new)) }
        ensures room { (room self.old ≤ room self.new + length bytes.now) × (calls self.old ≤ calls self.new + 1) }
        ensures trial { AsPlanned (Writes at bytes.now) (state self.old) (state self.new) (trial self.old) (trial self.new) result }
        ensures cause { HasCause (faults self.old) (faults self.new) result };

    /// Cuts the file to a length. Until a sync a crash may leave a longer front of it.
    fn cut(&mut self, len: u64) -> Result<(), Failed>
        requires place { (s : DiskState) → state self.old ≡ Some s → len ≤ length s.seen }
        requires calls { 0 < calls self.old }
        ensures cut { OnOk result (state self.new ≡ option_map (cut_to len) (state self.old)) }
        ensures torn { OnErr result (Becomes (FailsToCut len) (state self.old) (state self.new)) }
        ensures room { (room self.old ≤ room self.new) × (calls self.old ≤ calls self.new + 1) }
        ensures trial { AsPlanned (Cuts len) (state self.old) (state self.new) (trial self.old) (trial self.new) result }
        ensures cause { HasCause (faults self.old) (faults self.new) result };

    /// Makes sure what was written: after it a crash leaves what a read gives.
    fn sync(&mut self) -> Result<(), Failed>
        requires calls { 0 < calls self.old }
        ensures sure { OnOk result (state self.new ≡ option_map synced (state self.old)) }
        ensures unchanged { OnErr result (state self.new ≡ state self.old) }
        ensures room { (room self.old ≤ room self.new) × (calls self.old ≤ calls self.new + 1) }
        ensures trial { AsPlanned Syncs (state self.old) (state self.new) (trial self.old) (trial self.new) result }
        ensures cause { HasCause (faults self.old) (faults self.new) result };

    /// Makes room for the next six changing calls, which together write at most so many bytes.
    fn ready(&mut self, bytes: u64) -> Result<(), NoMemory>
        ensures ok { OnOk result ((bytes ≤ room self.new) × (6 ≤ calls self.new)) }
        ensures more { (room self.old ≤ room self.new) × (calls self.old ≤ calls self.new) }
        ensures state { state self.new ≡ state self.old }
        ensures trial { trial self.new ≡ trial self.old }
        ensures faults { faults self.new ≡ faults self.old };

    /// What a read gives is one of the contents that a crash may leave.
    ghost seen_may_stay: { (d : Self) (s : DiskState) → state d ≡ Some s → MayLeave s.now s.seen };

    /// Either all disks of this kind tell, or none does.
    ghost all_or_none: { (d e : Self) → is_some (state d) ≡ is_some (state e) };
}
