//! A disk in memory, which can be made to fail and to stop.
ghost use Rattle.std.specs.Prelude.{◌≡◌, ℕ, ◌+◌, ◌≤◌, ◌<◌, ◌++◌, [], ◌∷◌, Some, None, length, IfOk, OnOk, OnErr, vec_capacity, vec_len};
ghost use Rattle.disk_core.specs.Counts.{HasRisen};
ghost use Rattle.disk_core.specs.DiskModel.{MayLeave, start, written, cut_to, synced};
ghost use Rattle.disk_core.specs.Trial.{untried};
ghost use Rattle.disk_core.specs.Images.{image_of};
ghost use Rattle.disk_core.specs.Recents.{moment_of};
ghost use Rattle.disk_core.specs.declared.image.Image.TheVariants.{Keep};

use crate::bytes::{copy_from, patch};
use crate::past::Past;
use crate::plan::Plan;
use crate::recent::Recent;
use crate::{Disk, Failed, Image, Mishap, NoMemory, Pending};
use std::alloc::Global;

/// A file in memory. It keeps the changes since the last sync, so that what a crash may leave is known.
#[derive(Drop)]
pub struct MemDisk {
    past: Past,
    recent: Recent,
    bytes: Vec<u8>,
    plan: Plan,
    faults: u64,
    ghost same: { bytes.items ≡ image_of Keep (moment_of recent) },
}

impl MemDisk {
    ghost use Rattle.disk_core.specs.Memory.{calls_of, faults_of, room_of, state_of, trial_of};

    /// A disk with these bytes, all of them sure.
    pub fn new(alloc: Global, bytes: Vec<u8>) -> Result<MemDisk, NoMemory>
        ensures state { IfOk result (λ d. state_of d ≡ start bytes.items) }
        ensures trial { IfOk result (λ d. trial_of d ≡ untried) }
        ensures faults { IfOk result (λ d. faults_of d ≡ 0) }
    {
        MemDisk::started(alloc, bytes, Plan::new(alloc))
    }

    fn started(alloc: Global, bytes: Vec<u8>, plan: Plan) -> Result<MemDisk, NoMemory>
        ensures state { IfOk result (λ d. state_of d ≡ start bytes.items) }
        ensures trial { IfOk result (λ d. trial_of d ≡ plan) }
        ensures faults { IfOk result (λ d. faults_of d ≡ 0) }
    {
        let recent = Recent::new(alloc, &bytes)?;
        Ok(MemDisk {
            past: Past::new(),
            recent,
            bytes,
            plan,
            faults: 0,
        })
    }

    /// Plans that the changing call with this number, counted from 1 at the next one, fails: it does nothing.
    pub fn fail_at(&mut self, call: u64) -> Result<(), NoMemory>
        requires { 0 < call }
        ensures ok { OnOk result (trial_of self.new ≡ record (trial_of self.old) { pending = (trial_of self.old).pending ++ record { call = call; mishap = Mishap.Fail } ∷ [] }) }
        ensures err { OnErr result (trial_of self.new ≡ trial_of self.old) }
        ensures same { (state_of self.new ≡ state_of self.old) × (faults_of self.new ≡ faults_of self.old) }
        ensures room { (room_of self.new ≡ room_of self.old) × (calls_of self.new ≡ calls_of self.old) }
    {
        self.plan.add(Pending {
            call,
            mishap: Mishap::Fail,
        })?;
        Ok(())
    }

    /// Plans that the disk stops inside the changing call with this number, counted from 1 at the next one.
    ///
    /// Of several mishaps at one call a stop counts before a failure, and a later planned stop before an earlier one; all of them are spent.
    pub fn stop_at(&mut self, call: u64, image: Image) -> Result<(), NoMemory>
        requires { 0 < call }
        ensures ok { OnOk result (trial_of self.new ≡ record (trial_of self.old) { pending = (trial_of self.old).pending ++ record { call = call; mishap = Mishap.Stop image } ∷ [] }) }
        ensures err { OnErr result (trial_of self.new ≡ trial_of self.old) }
        ensures same { (state_of self.new ≡ state_of self.old) × (faults_of self.new ≡ faults_of self.old) }
        ensures room { (room_of self.new ≡ room_of self.old) × (calls_of self.new ≡ calls_of self.old) }
    {
        self.plan.add(Pending {
            call,
            mishap: Mishap::Stop(image),
        })?;
        Ok(())
    }

    /// The image with which the disk has stopped, if it has. A stopped disk fails in each call but `ready`.
    pub fn stopped(&self) -> Option<Image>
        ensures { result ≡ (trial_of self.now).stopped }
    {
        self.plan.stopped()
    }

    /// How many changing calls were made before the disk stopped.
    pub fn made(&self) -> u64
        ensures { result ≡ (trial_of self.now).made }
    {
        self.plan.made()
    }

    /// The disk after a stop now, which leaves this image of what no sync made sure. The mishaps that are to come stay.
    pub fn crashed(&self, alloc: Global, image: Image) -> Result<MemDisk, NoMemory>
        ensures image { IfOk result (λ d. state_of d ≡ start (image_of image (state_of self.now).now)) }
        // It is one of those that the model of a crash allows.
        ensures crash { IfOk result (λ d. MayLeave (state_of self.now).now (state_of d).seen) }
        ensures trial { IfOk result (λ d. trial_of d ≡ record untried { pending = (trial_of self.now).pending }) }
        ensures faults { IfOk result (λ d. faults_of d ≡ 0) }
    {
        let bytes = self.recent.image(alloc, image)?;
        let plan = self.plan.started(alloc)?;
        let disk = MemDisk::started(alloc, bytes, plan)?;
        Ok(disk)
    }

    /// The bytes that a read gives.
    pub fn bytes(&self) -> &[u8]
        ensures { result.now ≡ (state_of self.now).seen }
    {
        &self.bytes
    }

    fn fault(&mut self) -> Failed
        ensures later { self.old.faults ≤ self.new.faults }
        ensures risen { HasRisen self.old.faults self.new.faults }
        ensures same { self.new ≡ record self.old { faults = self.new.faults } }
    {
        self.faults = self.faults.saturating_add(1);
        Failed
    }

    fn write(&mut self, at: u64, piece: &[u8])
        requires calls { 0 < calls_of self.old }
        requires room { length piece.now ≤ room_of self.old }
        ensures state { state_of self.new ≡ written at piece.now (state_of self.old) }
        ensures calls { calls_of self.old ≤ calls_of self.new + 1 }
        ensures room { room_of self.old ≤ room_of self.new + length piece.now }
        ensures faults { self.new.faults ≡ self.old.faults }
        ensures plan { self.new.plan ≡ self.old.plan }
    {
        self.recent.write(at, piece);
        patch(&mut self.bytes, at, piece);
        self.past = self.past.and(&self.recent);
    }

    fn shorten(&mut self, len: u64)
        requires calls { 0 < calls_of self.old }
        ensures state { state_of self.new ≡ cut_to len (state_of self.old) }
        ensures calls { calls_of self.old ≤ calls_of self.new + 1 }
        ensures room { room_of self.old ≤ room_of self.new }
        ensures faults { self.new.faults ≡ self.old.faults }
        ensures plan { self.new.plan ≡ self.old.plan }
    {
        self.recent.cut(len);
        self.bytes.truncate(len as usize);
        self.past = self.past.and(&self.recent);
    }

    fn settle(&mut self)
        ensures state { state_of self.new ≡ synced (state_of self.old) }
        ensures calls { calls_of self.old ≤ calls_of self.new }
        ensures room { room_of self.old ≤ room_of self.new }
        ensures faults { self.new.faults ≡ self.old.faults }
        ensures plan { self.new.plan ≡ self.old.plan }
    {
        self.recent.settle();
        self.past = self.past.and(&self.recent);
    }
}

impl Disk for MemDisk {
    ghost use Rattle.disk_core.specs.Memory.{calls_of, room_of, state_of, trial_of};

    ghost state = { λ d. Some (state_of d) };

    ghost trial = { λ d. Some (trial_of d) };

    ghost faults = { λ d. d.faults };

    ghost room = { room_of };

    ghost calls = { calls_of };

    ghost use Rattle.std.proofs.Common.{subst, ap, refl};
    ghost use Rattle.std.specs.Prelude.{unwrap_or};
    ghost use Rattle.disk_core.specs.Stays.{memory_stays};
    ghost use Rattle.disk_core.specs.DiskModel.{DiskState, MayLeave};

    ghost seen_may_stay = { λ d s is. subst (λ (t : DiskState). MayLeave t.now t.seen) (ap (λ o. unwrap_or o s) is) (memory_stays d) };

    ghost all_or_none = { λ d e. refl };

    fn length(&mut self) -> Result<u64, Failed> {
        if self.plan.stopped().is_some() {
            return Err(self.fault());
        }
        Ok(self.bytes.len() as u64)
    }

    fn read(&mut self, at: u64, into: &mut [u8]) -> Result<usize, Failed> {
        if self.plan.stopped().is_some() {
            return Err(self.fault());
        }
        Ok(copy_from(&self.bytes, at, into))
    }

    fn write_at(&mut self, at: u64, bytes: &[u8]) -> Result<(), Failed> {
        match self.plan.next() {
            None => {
                self.write(at, bytes);
                Ok(())
            }
            Some(Mishap::Fail) => Err(self.fault()),
            Some(Mishap::Stop(_)) => {
                self.write(at, bytes);
                Err(self.fault())
            }
        }
    }

    fn cut(&mut self, len: u64) -> Result<(), Failed> {
        match self.plan.next() {
            None => {
                self.shorten(len);
                Ok(())
            }
            Some(Mishap::Fail) => Err(self.fault()),
            Some(Mishap::Stop(_)) => {
                self.shorten(len);
                Err(self.fault())
            }
        }
    }

    fn sync(&mut self) -> Result<(), Failed> {
        match self.plan.next() {
            None => {
                self.settle();
                Ok(())
            }
            Some(_) => Err(self.fault()),
        }
    }

    fn ready(&mut self, bytes: u64) -> Result<(), NoMemory> {
        let bytes = bytes as usize;
        self.recent.reserve(6, bytes)?;
        self.bytes.reserve(bytes)?;
        Ok(())
    }
}
