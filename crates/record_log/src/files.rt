//! The file layer: which of two files is the current one, by their marks, gates and generations.
ghost use Rattle.std.specs.Prelude.{◌≡◌, ◌≢◌, None, ◌≤◌, ◌<◌, ◌+◌, ◌^◌, ◌&&◌, ◌||◌, ◌==◌, OnErr, List, nat_le, nat_lt, bytes_eq, ℕ, Some, take, drop, slice_index, length, IfOk, OnOk, IsErrOf, option_map};
ghost use Rattle.disk_core.specs.Counts.{HasCause};
ghost use Rattle.disk_core.specs.DiskModel.{Becomes, DiskState, IsSure, LeavesOnly, MayLeave, synced};
ghost use Rattle.byteorder.specs.Endian.{little_number};
ghost use Rattle.record_log.specs.Format.{mark, new_file};
ghost use Rattle.record_log.specs.Files.{Counted, FaultCause, IsEmpty, IsHead, IsLogIn, IsRefused, MaySync, leads, shown_head};
ghost use Rattle.record_log.specs.Layout.{EndsAt, size_of};
ghost use Rattle.record_log.specs.Recovery.{records_past};
ghost use Rattle.record_log.specs.RecordLists.{list_of};

use crate::appending::write_sure;
use crate::reading::{Body, ReadFault, read_records};
use crate::{LogFault, Records};
use byteorder::{ByteOrder, LittleEndian};
use disk_core::{Disk, Failed};
use std::alloc::Global;

/// The two files of a log.
#[derive(Debug, Drop)]
pub struct DiskPair<D> {
    /// The file that a new log writes to.
    pub main: D,
    /// The file to which a log is written anew.
    pub spare: D,
}

/// The eight bytes with which each file of a log begins.
pub const MARK: &[u8; 8] = b"SPFLOG01";

/// How many bytes stand before the first record's gate: mark, gate and generation.
pub const HEAD: usize = 17;

/// The first bytes of a file, and its length.
#[derive(Clone, Copy, Debug)]
pub struct Head {
    pub bytes: [u8; 17],
    pub length: u64,
}

impl Head {
    /// The file begins with the mark.
    fn has_mark(&self) -> bool
        ensures { result ≡ bytes_eq (take 8 self.now.bytes) mark }
    {
        self.bytes[..8] == MARK[..]
    }

    /// The file's gate is open.
    fn is_open(&self) -> bool
        ensures { result ≡ (nat_le 18 self.now.length && (slice_index self.now.bytes 8 == 1)) }
    {
        self.length >= 18 && self.bytes[8] == 1
    }

    /// The file's generation.
    fn generation(&self) -> u64
        ensures { result ≡ little_number 8 (drop 9 self.now.bytes) }
    {
        let (_, rest) = self.bytes.split_at(9);
        LittleEndian::read_u64(rest)
    }

    /// Of two files this is the current one: its gate is open, and the other's isn't or is that of a lower generation.
    fn is_current(&self, other: &Head) -> bool
        ensures { result ≡ leads self.now other.now }
    {
        self.is_open() && (!other.is_open() || other.generation() < self.generation())
    }
}

/// Reads a file's head.
fn read_head<D: Disk>(disk: &mut D) -> Result<Head, Failed>
    ensures told { IfOk result (λ head. (s : DiskState) → D.state disk.old ≡ Some s → IsHead s.seen head) }
    ensures state { D.state disk.new ≡ D.state disk.old }
    ensures cause { HasCause (D.faults disk.old) (D.faults disk.new) result }
{
    let length = disk.length()?;
    let mut bytes = [0; HEAD];
    let _ = disk.read(0, &mut bytes)?;
    Ok(Head { bytes, length })
}

/// Reads what stands behind a file's head.
fn read_body<D: Disk>(alloc: Global, disk: &mut D, head: &Head) -> Result<Vec<u8>, LogFault>
    ensures told { IfOk result (λ body. (s : DiskState) → D.state disk.old ≡ Some s → IsHead s.seen head.now → body.items ≡ drop 17 s.seen) }
    ensures fits { IfOk result (λ body. length body.items + 17 < 2 ^ 64) }
    ensures state { D.state disk.new ≡ D.state disk.old }
    ensures refused { (found : List ℕ) (size : ℕ) → IsErrOf result (LogFault.NotALog found size) → ⊥ }
    ensures not_full { (size : ℕ) → IsErrOf result (LogFault.Full size) → ⊥ }
    ensures cause { FaultCause (D.faults disk.old) (D.faults disk.new) (IsErrOf result LogFault.DiskFault) }
{
    let mut body = vec![in alloc; 0u8; head.length.saturating_sub(HEAD as u64) as usize]?;
    let count = disk.read(HEAD as u64, &mut body)?;
    body.truncate(count);
    Ok(body)
}

/// Makes a file sure, so that a crash leaves what is read.
fn make_sure<D: Disk>(disk: &mut D) -> Result<(), LogFault>
    ensures sure { OnOk result (D.state disk.new ≡ option_map synced (D.state disk.old)) }
    ensures unchanged { OnErr result (D.state disk.new ≡ D.state disk.old) }
    ensures refused { (found : List ℕ) (size : ℕ) → IsErrOf result (LogFault.NotALog found size) → ⊥ }
    ensures not_full { (size : ℕ) → IsErrOf result (LogFault.Full size) → ⊥ }
    ensures cause { FaultCause (D.faults disk.old) (D.faults disk.new) (IsErrOf result LogFault.DiskFault) }
{
    disk.ready(0)?;
    disk.sync()?;
    Ok(())
}

/// What was found in a log's files.
#[derive(Debug, Drop)]
pub struct Found {
    pub records: Records,
    /// The place of the gate that ends the records.
    pub gate: u64,
    /// The spare file is the current one.
    pub in_spare: bool,
}

/// Tells what shows that the files aren't those of a log: the first that lacks the mark, else the main one.
fn refusal(main: &Head, spare: &Head) -> LogFault
    ensures { result ≡ LogFault.NotALog (take 8 (shown_head main.now spare.now).bytes) (shown_head main.now spare.now).length }
{
    let shown = if main.has_mark() && !spare.has_mark() {
        spare
    } else {
        main
    };
    let mut found = [0; 8];
    found.copy_from_slice(&shown.bytes[..8]);
    LogFault::NotALog {
        found,
        length: shown.length,
    }
}

/// Reads the records of the current file.
fn read_current<D: Disk>(
    alloc: Global,
    disk: &mut D,
    head: &Head,
    refusal: LogFault,
) -> Result<Body, LogFault>
    ensures told { IfOk result (λ body. (s : DiskState) → D.state disk.old ≡ Some s → IsHead s.seen head.now → EndsAt (drop 17 s.seen) (list_of body.records) body.size) }
    ensures fits { IfOk result (λ body. body.size + 18 < 2 ^ 64) }
    ensures size { IfOk result (λ body. size_of (list_of body.records) ≡ body.size) }
    ensures broken { (found : List ℕ) (size : ℕ) → IsErrOf result (LogFault.NotALog found size) → (LogFault.NotALog found size ≡ refusal)
        × ((s : DiskState) → D.state disk.old ≡ Some s → IsHead s.seen head.now → records_past 0 (drop 17 s.seen) ≡ None) }
    ensures not_full { (size : ℕ) → IsErrOf result (LogFault.Full size) → LogFault.Full size ≡ refusal }
    ensures state { D.state disk.new ≡ D.state disk.old }
    ensures cause { refusal ≢ LogFault.DiskFault → FaultCause (D.faults disk.old) (D.faults disk.new) (IsErrOf result LogFault.DiskFault) }
{
    let bytes = read_body(alloc, disk, head)?;
    match read_records(alloc, &bytes) {
        Ok(body) => Ok(body),
        Err(ReadFault::Broken) => Err(refusal),
        Err(ReadFault::NoMemory) => Err(LogFault::NoMemory),
    }
}

/// Finds the current file of two, and reads its records. It changes nothing.
fn read_files<D: Disk>(alloc: Global, main: &mut D, spare: &mut D) -> Result<Found, LogFault>
    ensures told { IfOk result (λ found. (a b : DiskState) → D.state main.old ≡ Some a → D.state spare.old ≡ Some b → IsLogIn found.in_spare a.seen b.seen (list_of found.records) found.gate) }
    ensures size { IfOk result (λ found. 17 + size_of (list_of found.records) ≡ found.gate) }
    ensures fits { IfOk result (λ found. found.gate + 1 < 2 ^ 64) }
    ensures refused { (found : List ℕ) (size : ℕ) → IsErrOf result (LogFault.NotALog found size)
        → (a b : DiskState) → D.state main.old ≡ Some a → D.state spare.old ≡ Some b → IsRefused a.seen b.seen found size }
    ensures not_full { (size : ℕ) → IsErrOf result (LogFault.Full size) → ⊥ }
    ensures state { (D.state main.new ≡ D.state main.old) × (D.state spare.new ≡ D.state spare.old) }
    ensures cause { Counted (D.faults main.old) (D.faults main.new) (D.faults spare.old) (D.faults spare.new) (IsErrOf result LogFault.DiskFault) }
{
    let first = read_head(main)?;
    let second = read_head(spare)?;
    let fault = refusal(&first, &second);
    if !first.has_mark() || !second.has_mark() {
        return Err(fault);
    }
    if first.is_current(&second) {
        return match read_current(alloc, main, &first, fault) {
            Ok(body) => Ok(Found {
                records: body.records,
                gate: HEAD as u64 + body.size,
                in_spare: false,
            }),
            Err(fault) => Err(fault),
        };
    }
    if second.is_current(&first) {
        return match read_current(alloc, spare, &second, fault) {
            Ok(body) => Ok(Found {
                records: body.records,
                gate: HEAD as u64 + body.size,
                in_spare: true,
            }),
            Err(fault) => Err(fault),
        };
    }
    Err(fault)
}

/// The bytes of a new file.
fn new_bytes(gate: u8, generation: u64) -> [u8; 18]
    ensures { result ≡ new_file gate generation }
{
    let mut bytes = [0; 18];
    bytes[..8].copy_from_slice(MARK);
    bytes[8] = gate;
    LittleEndian::write_u64(&mut bytes[9..], generation);
    bytes
}

/// Makes a new file of a log.
pub fn make_file<D: Disk>(disk: &mut D, gate: u8, generation: u64) -> Result<(), LogFault>
    requires { (s : DiskState) → D.state disk.old ≡ Some s → IsEmpty s }
    ensures any_moment { Becomes (λ s t. LeavesOnly s t (λ bytes. length bytes ≤ 18)) (D.state disk.old) (D.state disk.new) }
    ensures made { OnOk result (Becomes (λ s t. IsSure t × (t.seen ≡ new_file gate generation)) (D.state disk.old) (D.state disk.new)) }
    ensures refused { (found : List ℕ) (size : ℕ) → IsErrOf result (LogFault.NotALog found size) → ⊥ }
    ensures not_full { (size : ℕ) → IsErrOf result (LogFault.Full size) → ⊥ }
    ensures cause { FaultCause (D.faults disk.old) (D.faults disk.new) (IsErrOf result LogFault.DiskFault) }
{
    disk.ready(18)?;
    write_sure(disk, 0, &new_bytes(gate, generation))?;
    Ok(())
}

/// Makes both files sure, the main one first, and reads the current one. It writes nothing.
pub fn recover<D: Disk>(alloc: Global, main: &mut D, spare: &mut D) -> Result<Found, LogFault>
    ensures told { IfOk result (λ found. (a b : DiskState) → D.state main.old ≡ Some a → D.state spare.old ≡ Some b → IsLogIn found.in_spare a.seen b.seen (list_of found.records) found.gate) }
    ensures size { IfOk result (λ found. 17 + size_of (list_of found.records) ≡ found.gate) }
    ensures fits { IfOk result (λ found. found.gate + 1 < 2 ^ 64) }
    ensures refused { (found : List ℕ) (size : ℕ) → IsErrOf result (LogFault.NotALog found size)
        → (a b : DiskState) → D.state main.old ≡ Some a → D.state spare.old ≡ Some b → IsRefused a.seen b.seen found size }
    ensures not_full { (size : ℕ) → IsErrOf result (LogFault.Full size) → ⊥ }
    ensures sure { OnOk result ((D.state main.new ≡ option_map synced (D.state main.old)) × (D.state spare.new ≡ option_map synced (D.state spare.old))) }
    ensures syncs { Becomes MaySync (D.state main.old) (D.state main.new) × Becomes MaySync (D.state spare.old) (D.state spare.new) }
    // A crash at any moment leaves what a crash just before the call could have left.
    ensures any_moment { Becomes (λ s t. LeavesOnly s t (MayLeave s.now)) (D.state main.old) (D.state main.new) × Becomes (λ s t. LeavesOnly s t (MayLeave s.now)) (D.state spare.old) (D.state spare.new) }
    ensures cause { Counted (D.faults main.old) (D.faults main.new) (D.faults spare.old) (D.faults spare.new) (IsErrOf result LogFault.DiskFault) }
{
    make_sure_both(main, spare)?;
    read_files(alloc, main, spare)
}

/// Makes both files sure, the main one first.
fn make_sure_both<D: Disk>(main: &mut D, spare: &mut D) -> Result<(), LogFault>
    ensures sure { OnOk result ((D.state main.new ≡ option_map synced (D.state main.old)) × (D.state spare.new ≡ option_map synced (D.state spare.old))) }
    ensures syncs { Becomes MaySync (D.state main.old) (D.state main.new) × Becomes MaySync (D.state spare.old) (D.state spare.new) }
    ensures any_moment { Becomes (λ s t. LeavesOnly s t (MayLeave s.now)) (D.state main.old) (D.state main.new) × Becomes (λ s t. LeavesOnly s t (MayLeave s.now)) (D.state spare.old) (D.state spare.new) }
    ensures refused { (found : List ℕ) (size : ℕ) → IsErrOf result (LogFault.NotALog found size) → ⊥ }
    ensures not_full { (size : ℕ) → IsErrOf result (LogFault.Full size) → ⊥ }
    ensures cause { Counted (D.faults main.old) (D.faults main.new) (D.faults spare.old) (D.faults spare.new) (IsErrOf result LogFault.DiskFault) }
{
    make_sure(main)?;
    make_sure(spare)?;
    Ok(())
}
