//! The log: records that are right after a crash at any moment.
ghost use Rattle.std.specs.Prelude.{◌≡◌, ◌≢◌, ◌⊎◌, ◌≤◌, ◌<◌, ◌+◌, ◌^◌, min, ℕ, true, false, Some, List, [], ◌∷◌, ◌++◌, length, IfOk, IfErr, OnOk, OnErr, IsErrOf, IsErr, IsOk, is_ok, Err, ◌-◌, vec_capacity, option_map};
ghost use Rattle.disk_core.specs.DiskModel.{DiskState, IsSure, Becomes, MayLeave, LeavesOnly, synced};
ghost use Rattle.disk_core.specs.Steps.{GoThrough};
ghost use Rattle.record_log.specs.Steps.{append_steps};
ghost use Rattle.record_log.specs.Format.{framed, log_size};
ghost use Rattle.record_log.specs.Recovery.{records_of};
ghost use Rattle.record_log.specs.Files.{FaultCause, Counted, IsEmpty, IsRefused};
ghost use Rattle.record_log.specs.LogView.{AnyMoment, CrashLeaves, IsBeforeOrAfter, IsNew, IsStored, IsStoredIn, LeavesAsBefore, disk_pair, disks_of, ordered_of, pair_of};
ghost use Rattle.record_log.specs.Layout.{size_of};
ghost use Rattle.record_log.specs.RecordLists.{list_of, slots_of};

use crate::appending::append_frame;
use crate::files::{Found, make_file, recover};
use crate::{Bytes, DiskPair, LogFault, MAX_PAYLOAD, Records};
use byteorder::{ByteOrder, LittleEndian};
use disk_core::{Disk, NoMemory};
use std::alloc::Global;
use std::marker::Model;
use std::mem;

/// A list of records on two disks.
#[derive(Drop)]
pub struct Log<D: Disk> {
    alloc: Global,
    /// The disk of the current file.
    current: D,
    other: D,
    /// The current file is the spare one.
    in_spare: bool,
    records: Records,
    /// The place of the gate behind the last record.
    gate: u64,
    most: u64,
    /// Room for the next record and for what is written of it.
    next: Vec<u8>,
    frame: Vec<u8>,
    ready: u64,
    sound: bool,
}

impl<D: Disk> Model for Log<D> {
    ghost use Rattle.record_log.specs.LogView.{LogView, log_code, IsStored, HasRoom};
    ghost use Rattle.record_log.specs.RecordLists.{list_of, slots_of};
    ghost use Rattle.record_log.specs.Layout.{size_of};
    ghost use Rattle.std.specs.Prelude.{◌≡◌, ◌≤◌, ◌<◌, ◌+◌, ◌^◌, true, [], vec_capacity};
    ghost use Rattle.record_log.specs.Kept.{IsKept};

    ghost Value = { LogView D };

    ghost coded = { log_code D.code };

    ghost view = { λ l. record { current = l.current; other = l.other; in_spare = l.in_spare; records = list_of l.records; most = l.most; ready = l.ready; sound = l.sound } };

    ghost invariant = { λ l. IsKept (D.state l.current) (D.state l.other) (D.calls l.current) (D.room l.current) (list_of l.records) l.gate l.ready l.sound l.next l.frame (slots_of l.records) };
}

/// The disk of the current file, and the other one.
fn ordered<D>(disks: DiskPair<D>, in_spare: bool) -> (D, D)
    ensures { result ≡ ordered_of in_spare disks }
{
    let DiskPair { main, spare } = disks;
    if in_spare {
        (spare, main)
    } else {
        (main, spare)
    }
}

/// Puts the disk of the current file first.
fn order<D>(main: &mut D, spare: &mut D, in_spare: bool)
    ensures { pair_of main.new spare.new ≡ ordered_of in_spare (disk_pair main.old spare.old) }
{
    if in_spare {
        mem::swap(main, spare);
    }
}

/// A log whose files were made or read.
fn assembled<D: Disk>(alloc: Global, disks: DiskPair<D>, found: Found, most: u64) -> Log<D>
    requires stored { IsStoredIn found.in_spare (D.state disks.main) (D.state disks.spare) (list_of found.records) found.gate }
    requires size { 17 + size_of (list_of found.records) ≡ found.gate }
    requires fits { found.gate + 1 < 2 ^ 64 }
    ensures disks { disks_of result ≡ disks }
    ensures records { result.records ≡ list_of found.records }
    ensures most { result.most ≡ most }
    ensures sound { result.sound ≡ true }
    ensures stored { CrashLeaves (D.state result.current) (D.state result.other) (λ c d. records_of c d ≡ Some result.records) }
{
    let (current, other) = ordered(disks, found.in_spare);
    Log {
        alloc,
        current,
        other,
        in_spare: found.in_spare,
        records: found.records,
        gate: found.gate,
        most,
        next: Vec::new(alloc),
        frame: Vec::new(alloc),
        ready: 0,
        sound: true,
    }
}

impl<D: Disk> Log<D> {
    /// Opens the files of a log, whatever a crash made of them. It makes both sure and writes nothing.
    ///
    /// A refused call hands the disks back beside the fault.
    pub fn open(
        alloc: Global,
        disks: DiskPair<D>,
        most: u64,
    ) -> Result<Log<D>, (LogFault, DiskPair<D>)>
        ensures found { IfOk result (λ log. (a b : DiskState) → D.state disks.main ≡ Some a → D.state disks.spare ≡ Some b → records_of a.seen b.seen ≡ Some log.records) }
        ensures sound { IfOk result (λ log. (log.sound ≡ true) × (log.most ≡ most)) }
        ensures acknowledged { IfOk result (λ log. CrashLeaves (D.state log.current) (D.state log.other) (λ c d. records_of c d ≡ Some log.records)) }

        // A crash inside it leaves what a crash just before it could have left.
        ensures any_moment { IfOk result (λ log. LeavesAsBefore (D.state disks.main) (D.state (disks_of log).main) × LeavesAsBefore (D.state disks.spare) (D.state (disks_of log).spare)) }
        ensures any_moment_err { IfErr result (λ e. LeavesAsBefore (D.state disks.main) (D.state e.1.main) × LeavesAsBefore (D.state disks.spare) (D.state e.1.spare)) }

        ensures refused { IfErr result (λ e. (found : List ℕ) (size : ℕ) → e.0 ≡ LogFault.NotALog found size
            → (a b : DiskState) → D.state disks.main ≡ Some a → D.state disks.spare ≡ Some b → IsRefused a.seen b.seen found size) }
        ensures not_full { IfErr result (λ e. (size : ℕ) → e.0 ≡ LogFault.Full size → ⊥) }
        ensures cause { IfErr result (λ e. Counted (D.faults disks.main) (D.faults e.1.main) (D.faults disks.spare) (D.faults e.1.spare) (e.0 ≡ LogFault.DiskFault)) }
        ensures no_fault { IfOk result (λ log. (D.faults (disks_of log).main ≡ D.faults disks.main) × (D.faults (disks_of log).spare ≡ D.faults disks.spare)) }
    {
        let DiskPair {
            mut main,
            mut spare,
        } = disks;
        match recover(alloc, &mut main, &mut spare) {
            Ok(found) => {
                let disks = DiskPair { main, spare };
                Ok(assembled(alloc, disks, found, most))
            }
            Err(fault) => Err((fault, DiskPair { main, spare })),
        }
    }

    /// Makes a new log on two disks without bytes. It may have at most 1 GiB.
    ///
    /// A file that is torn while it is made is `NotALog` later. A refused call hands the disks back beside the fault.
    pub fn create(
        alloc: Global,
        disks: DiskPair<D>,
        most: u64,
    ) -> Result<Log<D>, (LogFault, DiskPair<D>)>
        requires limit { most ≤ 2 ^ 30 }
        requires empty { (s : DiskState) → D.state disks.main ≡ Some s → IsEmpty s }
        requires spare_empty { (s : DiskState) → D.state disks.spare ≡ Some s → IsEmpty s }

        ensures made { IfOk result (λ log. (log.records ≡ []) × (log.sound ≡ true) × (log.most ≡ most)) }
        ensures acknowledged { IfOk result (λ log. CrashLeaves (D.state log.current) (D.state log.other) (λ c d. records_of c d ≡ Some [])) }
        // A crash inside it leaves a log without records, or no log.
        ensures any_moment { IfOk result (λ log. AnyMoment (D.state disks.main) (D.state disks.spare) (D.state (disks_of log).main) (D.state (disks_of log).spare) IsNew) }
        ensures any_moment_err { IfErr result (λ e. AnyMoment (D.state disks.main) (D.state disks.spare) (D.state e.1.main) (D.state e.1.spare) IsNew) }

        ensures full { most < 18 → IfErr result (λ e. e.0 ≡ LogFault.Full 18) × IsErr result }
        ensures full_only { IfErr result (λ e. (size : ℕ) → e.0 ≡ LogFault.Full size → most < 18) }
        ensures not_refused { IfErr result (λ e. (found : List ℕ) (size : ℕ) → e.0 ≡ LogFault.NotALog found size → ⊥) }
        ensures cause { IfErr result (λ e. Counted (D.faults disks.main) (D.faults e.1.main) (D.faults disks.spare) (D.faults e.1.spare) (e.0 ≡ LogFault.DiskFault)) }
    {
        let DiskPair {
            mut main,
            mut spare,
        } = disks;
        if most < 18 {
            return Err((LogFault::Full { bytes: 18 }, DiskPair { main, spare }));
        }
        match make_files(&mut main, &mut spare) {
            Ok(()) => {
                let found = Found {
                    records: Records::new(alloc),
                    gate: 17,
                    in_spare: false,
                };
                let disks = DiskPair { main, spare };
                Ok(assembled(alloc, disks, found, most))
            }
            Err(fault) => Err((fault, DiskPair { main, spare })),
        }
    }

    /// Opens a log again that isn't sound: it reads what the files hold. A log that is sound is left as it is.
    ///
    /// After a fault the log isn't sound, and has the records that it had.
    pub fn reopen(&mut self) -> Result<(), LogFault>
        ensures found { OnOk result (self.old.sound ≡ false → (a b : DiskState) → D.state (disks_of self.old).main ≡ Some a → D.state (disks_of self.old).spare ≡ Some b → records_of a.seen b.seen ≡ Some self.new.records) }
        ensures same { self.old.sound ≡ true → IsOk result × (self.new ≡ self.old) }
        ensures sound { OnOk result (self.new.sound ≡ true) }
        ensures most { self.new.most ≡ self.old.most }
        ensures acknowledged { OnOk result (self.old.sound ≡ false → CrashLeaves (D.state self.new.current) (D.state self.new.other) (λ c d. records_of c d ≡ Some self.new.records)) }

        ensures any_moment { self.old.sound ≡ false → LeavesAsBefore (D.state (disks_of self.old).main) (D.state (disks_of self.new).main) × LeavesAsBefore (D.state (disks_of self.old).spare) (D.state (disks_of self.new).spare) }

        ensures refused { (found : List ℕ) (size : ℕ) → IsErrOf result (LogFault.NotALog found size)
            → (a b : DiskState) → D.state (disks_of self.old).main ≡ Some a → D.state (disks_of self.old).spare ≡ Some b → IsRefused a.seen b.seen found size }
        ensures not_full { (size : ℕ) → IsErrOf result (LogFault.Full size) → ⊥ }
        ensures failed { OnErr result ((self.new.sound ≡ false) × (self.new.records ≡ self.old.records)) }
        ensures cause { Counted (D.faults (disks_of self.old).main) (D.faults (disks_of self.new).main) (D.faults (disks_of self.old).spare) (D.faults (disks_of self.new).spare) (IsErrOf result LogFault.DiskFault) }
    {
        if self.sound {
            return Ok(());
        }
        self.put_in_order();
        match recover(self.alloc, &mut self.current, &mut self.other) {
            Ok(found) => {
                self.take_up(found);
                Ok(())
            }
            Err(fault) => Err(fault),
        }
    }

    /// Puts the disks of a log that isn't sound in their order, the main one first.
    fn put_in_order(&mut self)
        requires unsound { self.old.sound ≡ false }
        ensures disks { (self.new.current ≡ (disks_of self.old).main) × (self.new.other ≡ (disks_of self.old).spare) }
        ensures order { (self.new.in_spare ≡ false) × (self.new.ready ≡ 0) }
        ensures same { (self.new.records ≡ self.old.records) × (self.new.most ≡ self.old.most) × (self.new.sound ≡ false) }
    {
        self.ready = 0;
        if self.in_spare {
            mem::swap(&mut self.current, &mut self.other);
            self.in_spare = false;
        }
    }

    /// Takes up what was found in the files.
    fn take_up(&mut self, found: Found)
        requires order { (self.old.in_spare ≡ false) × (self.old.ready ≡ 0) }
        requires stored { IsStoredIn found.in_spare (D.state self.old.current) (D.state self.old.other) (list_of found.records) found.gate }
        requires size { 17 + size_of (list_of found.records) ≡ found.gate }
        requires fits { found.gate + 1 < 2 ^ 64 }
        ensures disks { ((disks_of self.new).main ≡ self.old.current) × ((disks_of self.new).spare ≡ self.old.other) }
        ensures found { (self.new.records ≡ list_of found.records) × (self.new.sound ≡ true) }
        ensures same { self.new.most ≡ self.old.most }
        ensures acknowledged { CrashLeaves (D.state self.new.current) (D.state self.new.other) (λ c d. records_of c d ≡ Some self.new.records) }
    {
        order(&mut self.current, &mut self.other, found.in_spare);
        self.in_spare = found.in_spare;
        self.records = found.records;
        self.gate = found.gate;
        self.sound = true;
    }

    /// An append may come.
    pub fn is_sound(&self) -> bool
        ensures { result ≡ self.now.sound }
    {
        self.sound
    }

    /// The records, the oldest first.
    pub fn records(&self) -> &Records
        ensures { list_of result.now ≡ self.now.records }
    {
        &self.records
    }

    /// Gives the disks back.
    pub fn into_disks(self) -> DiskPair<D>
        ensures { result ≡ disks_of self }
    {
        let Log {
            alloc: _,
            current,
            other,
            in_spare,
            records: _,
            gate: _,
            most: _,
            next: _,
            frame: _,
            ready: _,
            sound: _,
        } = self;
        if in_spare {
            DiskPair {
                main: other,
                spare: current,
            }
        } else {
            DiskPair {
                main: current,
                spare: other,
            }
        }
    }

    /// Makes room, so that the next append of at most so many bytes takes no memory.
    pub fn reserve(&mut self, bytes: u64) -> Result<(), NoMemory>
        ensures ready { OnOk result ((n : ℕ) → n ≤ bytes → n ≤ MAX_PAYLOAD → n < self.new.ready) }
        ensures already { bytes < self.old.ready → IsOk result }
        ensures kept { self.new ≡ record self.old { current = self.new.current; ready = self.new.ready } }
        ensures more { self.old.ready ≤ self.new.ready }
        ensures state { D.state self.new.current ≡ D.state self.old.current }
        ensures trial { D.trial self.new.current ≡ D.trial self.old.current }
        ensures faults { D.faults self.new.current ≡ D.faults self.old.current }
    {
        let bytes = bytes.min(MAX_PAYLOAD);
        if bytes < self.ready {
            return Ok(());
        }
        let size = bytes as usize;
        self.records.reserve()?;
        self.next.reserve(size)?;
        self.frame.reserve(size + 5)?;
        self.current.ready(bytes + 6)?;
        self.ready = bytes + 1;
        Ok(())
    }

    /// Adds a record at the end. Its payload has at most 8 MiB.
    ///
    /// At `Ok` it is acknowledged: from then on each crash leaves it. After `Full` and `NoMemory` the log is as it
    /// was. After `DiskFault` it isn't sound, and `reopen` comes next: the record may be there, or it isn't.
    pub fn append(&mut self, payload: &[u8]) -> Result<(), LogFault>
        requires sound { self.old.sound ≡ true }
        requires short { length payload.now ≤ MAX_PAYLOAD }

        ensures appended { OnOk result (self.new ≡ record self.old { current = self.new.current; records = self.old.records ++ payload.now ∷ []; ready = 0 }) }
        // A crash at any moment of the call leaves the records from before it, or these and the new one.
        ensures any_moment { AnyMoment (D.state self.old.current) (D.state self.old.other) (D.state self.new.current) (D.state self.new.other) (IsBeforeOrAfter self.old.records payload.now) }
        ensures acknowledged { OnOk result (CrashLeaves (D.state self.new.current) (D.state self.new.other) (λ c d. records_of c d ≡ Some self.new.records)) }

        ensures full { self.old.most < log_size (self.old.records ++ payload.now ∷ []) → result ≡ Err (LogFault.Full (min (log_size (self.old.records ++ payload.now ∷ [])) (2 ^ 64 - 1))) }
        ensures full_only { (bytes : ℕ) → IsErrOf result (LogFault.Full bytes) → self.old.most < log_size (self.old.records ++ payload.now ∷ []) }
        ensures no_memory { IsErrOf result LogFault.NoMemory → self.old.ready ≤ length payload.now }
        ensures not_refused { (found : List ℕ) (bytes : ℕ) → IsErrOf result (LogFault.NotALog found bytes) → ⊥ }
        ensures cause { FaultCause (D.faults self.old.current) (D.faults self.new.current) (IsErrOf result LogFault.DiskFault) }
        // Where the disk tells of a plan, an append that makes a call goes as it was planned.
        ensures planned { (OnErr result (result ≡ Err LogFault.DiskFault)) → GoThrough (append_steps (17 + size_of self.old.records) (framed payload.now)) (D.state self.old.current) (D.trial self.old.current) (D.state self.new.current) (D.trial self.new.current) (is_ok result) }

        ensures failed { IsErrOf result LogFault.DiskFault → self.new ≡ record self.old { current = self.new.current; ready = 0; sound = false } }
        ensures kept { OnErr result (result ≢ Err LogFault.DiskFault → (self.new ≡ record self.old { current = self.new.current; ready = self.new.ready }) × (D.state self.new.current ≡ D.state self.old.current) × (D.trial self.new.current ≡ D.trial self.old.current)) }
    {
        let bytes = payload.len() as u64;
        if self.most <= self.gate || self.most - self.gate - 1 < bytes + 5 {
            return Err(LogFault::Full {
                bytes: self.gate.saturating_add(bytes + 6),
            });
        }
        self.reserve(bytes)?;
        self.write_reserved(payload)
    }

    /// Writes a record for which room was made.
    fn write_reserved(&mut self, payload: &[u8]) -> Result<(), LogFault>
        requires sound { self.old.sound ≡ true }
        requires short { length payload.now ≤ MAX_PAYLOAD }
        requires ready { length payload.now < self.old.ready }
        requires fits { log_size (self.old.records ++ payload.now ∷ []) < 2 ^ 64 }
        ensures appended { OnOk result (self.new ≡ record self.old { current = self.new.current; records = self.old.records ++ payload.now ∷ []; ready = 0 }) }
        ensures failed { OnErr result (self.new ≡ record self.old { current = self.new.current; ready = 0; sound = false }) }
        ensures planned { GoThrough (append_steps (17 + size_of self.old.records) (framed payload.now)) (D.state self.old.current) (D.trial self.old.current) (D.state self.new.current) (D.trial self.new.current) (is_ok result) }
        ensures only { IfErr result (λ fault. fault ≡ LogFault.DiskFault) }
        ensures any_moment { AnyMoment (D.state self.old.current) (D.state self.old.other) (D.state self.new.current) (D.state self.new.other) (IsBeforeOrAfter self.old.records payload.now) }
        ensures acknowledged { OnOk result (CrashLeaves (D.state self.new.current) (D.state self.new.other) (λ c d. records_of c d ≡ Some self.new.records)) }
        ensures cause { FaultCause (D.faults self.old.current) (D.faults self.new.current) (IsErrOf result LogFault.DiskFault) }
    {
        let Ok(()) = self.next.extend_from_slice(payload) else {
            unreachable!()
        };
        fill_frame(&mut self.frame, payload);
        let done = append_frame(&mut self.current, self.gate, &self.frame);
        self.frame.clear();
        self.ready = 0;
        match done {
            Ok(()) => {
                let record_bytes = mem::replace(&mut self.next, Vec::new(self.alloc));
                self.records.push_reserved(Bytes::from_vec(record_bytes));
                self.gate += payload.len() as u64 + 5;
                Ok(())
            }
            Err(_) => {
                self.next.clear();
                self.sound = false;
                Err(LogFault::DiskFault)
            }
        }
    }
}

/// Makes the two files of a new log.
fn make_files<D: Disk>(main: &mut D, spare: &mut D) -> Result<(), LogFault>
    requires empty { (s : DiskState) → D.state main.old ≡ Some s → IsEmpty s }
    requires spare_empty { (s : DiskState) → D.state spare.old ≡ Some s → IsEmpty s }
    ensures any_moment { AnyMoment (D.state main.old) (D.state spare.old) (D.state main.new) (D.state spare.new) IsNew }
    ensures stored { OnOk result (IsStored (D.state main.new) (D.state spare.new) [] 17) }
    ensures refused { (found : List ℕ) (size : ℕ) → IsErrOf result (LogFault.NotALog found size) → ⊥ }
    ensures not_full { (size : ℕ) → IsErrOf result (LogFault.Full size) → ⊥ }
    ensures cause { Counted (D.faults main.old) (D.faults main.new) (D.faults spare.old) (D.faults spare.new) (IsErrOf result LogFault.DiskFault) }
{
    make_file(main, 1, 1)?;
    make_file(spare, 0, 0)?;
    Ok(())
}

/// Puts the frame of a record together.
fn fill_frame(frame: &mut Vec<u8>, payload: &[u8])
    requires empty { frame.old.items ≡ [] }
    requires short { length payload.now < 2 ^ 32 }
    requires room { length payload.now + 5 ≤ vec_capacity frame.old }
    ensures { frame.new.items ≡ framed payload.now }
{
    let mut four = [0; 4];
    LittleEndian::write_u32(&mut four, payload.len() as u32);
    let Ok(()) = frame.extend_from_slice(&four) else {
        unreachable!()
    };
    let Ok(()) = frame.extend_from_slice(payload) else {
        unreachable!()
    };
    frame.push_reserved(0);
}
