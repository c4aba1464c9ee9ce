//! Works on a log, for the script `bench/log` to measure: `append PATH COUNT SIZE` makes one on two files and adds so many
//! records of so many bytes, `memory COUNT SIZE` does the same in memory, and `open PATH` opens one.
//!
//! The status is 0 where all was done, 1 where a call was refused, and 2 where the words have no form.
#![tactic(auto)]

ghost use Rattle.std.specs.Prelude.{◌≡◌, ◌≤◌, Some, length, IfOk};
ghost use Rattle.disk_core.specs.DiskModel.{DiskState};
ghost use Rattle.record_log.specs.Files.{IsEmpty};

use disk_core::{Disk, FileDisk, MemDisk, open_file_disk};
use record_log::{DiskPair, Log, MAX_PAYLOAD};
use std::alloc::Global;
use std::process::ExitCode;
use std::rt::Files;
use std::{env, io};

/// The most bytes of the log.
const MOST: u64 = 1 << 30;

/// Makes a log and adds records; false where a call was refused.
fn append_all<D: Disk + Drop>(alloc: Global, disks: DiskPair<D>, count: u64, payload: &[u8]) -> bool
    requires empty { (s : DiskState) → D.state disks.main ≡ Some s → IsEmpty s }
    requires spare_empty { (s : DiskState) → D.state disks.spare ≡ Some s → IsEmpty s }
    requires short { length payload.now ≤ MAX_PAYLOAD }
{
    let Ok(mut log) = Log::create(alloc, disks, MOST) else {
        return false;
    };
    for _ in 0..count {
        if !log.is_sound() || log.append(payload).is_err() {
            return false;
        }
    }
    true
}

/// The same in memory.
fn append_in_memory(alloc: Global, count: u64, payload: &[u8]) -> bool
    requires { length payload.now ≤ MAX_PAYLOAD }
{
    let Ok(main) = MemDisk::new(alloc, Vec::new(alloc)) else {
        return false;
    };
    let Ok(spare) = MemDisk::new(alloc, Vec::new(alloc)) else {
        return false;
    };
    append_all(alloc, DiskPair { main, spare }, count, payload)
}

/// The two files of a log.
fn log_files<R: Files>(
    rt: &R,
    alloc: Global,
    path: &str,
) -> io::Result<DiskPair<FileDisk<R::File>>> {
    let main = open_file_disk(rt, format!(in alloc; "{path}.main")?.as_str())?;
    let spare = open_file_disk(rt, format!(in alloc; "{path}.spare")?.as_str())?;
    Ok(DiskPair { main, spare })
}

/// So many bytes of a payload, or the most that one may have.
fn payload_of(alloc: Global, size: u64) -> io::Result<Vec<u8>>
    ensures { IfOk result (λ bytes. length bytes.items ≤ MAX_PAYLOAD) }
{
    Ok(vec![in alloc; 7u8; size.min(MAX_PAYLOAD) as usize]?)
}

/// What the words say, done; None where they have no form.
fn run(rt: &HostRuntime, alloc: Global, words: &[String]) -> io::Result<Option<bool>> {
    match words {
        [mode, path] if mode.as_str() == "open" => {
            let disks = log_files(rt, alloc, path.as_str())?;
            Ok(Some(Log::open(alloc, disks, MOST).is_ok()))
        }
        [mode, count, size] if mode.as_str() == "memory" => {
            let (Ok(count), Ok(size)) = (
                count.as_str().parse::<u64>(),
                size.as_str().parse::<u64>(),
            ) else {
                return Ok(None);
            };
            let payload = payload_of(alloc, size)?;
            Ok(Some(append_in_memory(alloc, count, &payload)))
        }
        [mode, path, count, size] if mode.as_str() == "append" => {
            let (Ok(count), Ok(size)) = (
                count.as_str().parse::<u64>(),
                size.as_str().parse::<u64>(),
            ) else {
                return Ok(None);
            };
            let payload = payload_of(alloc, size)?;
            let disks = log_files(rt, alloc, path.as_str())?;
            Ok(Some(append_all(alloc, disks, count, &payload)))
        }
        _ => Ok(None),
    }
}

fn main(rt: HostRuntime) -> io::Result<ExitCode> {
    let alloc = rt.alloc();
    let mut words = Vec::new(alloc);
    for word in env::args(&rt)?.skip(1) {
        words.push(word)?;
    }
    let status = match run(&rt, alloc, &words)? {
        Some(true) => 0,
        Some(false) => 1,
        None => 2,
    };
    Ok(ExitCode::from(status))
}
