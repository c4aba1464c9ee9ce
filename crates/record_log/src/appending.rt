//! Writing a record behind a gate, and opening the gate.
ghost use Rattle.std.specs.Prelude.{◌≡◌, ◌≤◌, ◌<◌, ◌+◌, ◌^◌, ℕ, Some, take, length, is_ok, OnOk, OnErr, option_map, [], ◌∷◌};
ghost use Rattle.disk_core.specs.Counts.{HasCause};
ghost use Rattle.disk_core.specs.DiskModel.{Becomes, DiskState, FailsToWrite, IsSure, LeavesOnly, synced, written};
ghost use Rattle.disk_core.specs.Steps.{GoThrough, Syncs, Writes};
ghost use Rattle.record_log.specs.Steps.{append_steps};
ghost use Rattle.record_log.specs.Crash.{IsOpened, IsTorn, Waits};

use disk_core::{Disk, Failed};

/// Writes bytes at a place, and makes them sure.
pub fn write_sure<D: Disk>(disk: &mut D, at: u64, bytes: &[u8]) -> Result<(), Failed>
    requires place { (s : DiskState) → D.state disk.old ≡ Some s → at ≤ length s.seen }
    requires calls { 2 ≤ D.calls disk.old }
    requires room { length bytes.now ≤ D.room disk.old }
    ensures done { OnOk result (D.state disk.new ≡ option_map (λ s. synced (written at bytes.now s)) (D.state disk.old)) }
    ensures planned { GoThrough (Writes at bytes.now ∷ Syncs ∷ []) (D.state disk.old) (D.trial disk.old) (D.state disk.new) (D.trial disk.new) (is_ok result) }
    ensures torn { OnErr result (Becomes (FailsToWrite at bytes.now) (D.state disk.old) (D.state disk.new)) }
    ensures room { (D.room disk.old ≤ D.room disk.new + length bytes.now) × (D.calls disk.old ≤ D.calls disk.new + 2) }
    ensures cause { HasCause (D.faults disk.old) (D.faults disk.new) result }
{
    disk.write_at(at, bytes)?;
    disk.sync()
}

/// Writes a record's frame behind the gate at a place, makes it sure, opens the gate, and makes that sure.
///
/// The gate is opened by a write of its own, after a sync: a torn write may leave any bytes, an open gate among them.
pub fn append_frame<D: Disk>(disk: &mut D, gate: u64, frame: &[u8]) -> Result<(), Failed>
    requires fits { gate + 1 < 2 ^ 64 }
    requires calls { 4 ≤ D.calls disk.old }
    requires room { length frame.now + 1 ≤ D.room disk.old }
    requires file { (s : DiskState) → D.state disk.old ≡ Some s → Waits s gate }
    ensures any_moment { Becomes (λ s t. LeavesOnly s t (IsTorn (take gate s.seen) frame.now)) (D.state disk.old) (D.state disk.new) }
    ensures planned { GoThrough (append_steps gate frame.now) (D.state disk.old) (D.trial disk.old) (D.state disk.new) (D.trial disk.new) (is_ok result) }
    ensures done { OnOk result (Becomes (λ s t. IsSure t × IsOpened (take gate s.seen) frame.now t.seen) (D.state disk.old) (D.state disk.new)) }
    ensures cause { HasCause (D.faults disk.old) (D.faults disk.new) result }
{
    write_sure(disk, gate + 1, frame)?;
    write_sure(disk, gate, &[1])?;
    Ok(())
}
