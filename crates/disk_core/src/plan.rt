//! Failures and stops that are planned for the changing calls of a disk in memory.
ghost use Rattle.std.specs.Prelude.{◌≡◌, ◌<◌, ◌++◌, [], ◌∷◌, None, IfOk, OnOk, OnErr};
ghost use Rattle.disk_core.specs.Trial.{graver, is_later, later, mishap_of, nearer, next_mishap, passed, untried};

use crate::Image;
use std::alloc::{AllocError, Global};
use std::marker::Model;

/// What may befall a changing call.
#[derive(Clone, Copy, Debug, PartialEq, Eq)]
pub enum Mishap {
    /// The call fails and does nothing.
    Fail,
    /// The disk stops inside the call, and leaves this image of what no sync made sure.
    Stop(Image),
}

/// A mishap that is to come.
#[derive(Clone, Copy, Debug, PartialEq, Eq)]
pub struct Pending {
    /// The changing call that it befalls, counted from 1 at the next one.
    pub call: u64,
    pub mishap: Mishap,
}

/// The mishaps that are to come, and what has come of them.
#[derive(Drop)]
pub struct Plan {
    pending: Vec<Pending>,
    stopped: Option<Image>,
    made: u64,
}

impl Model for Plan {
    ghost use Rattle.disk_core.specs.Trial.{Trial};

    ghost Value = { Trial };

    ghost view = { λ p. record { pending = p.pending.items; stopped = p.stopped; made = p.made } };
}

/// Of an earlier planned mishap and a later one at the same call, the one that counts.
fn graver(earlier: Option<Mishap>, later: Mishap) -> Option<Mishap>
    ensures { result ≡ graver earlier (Some later) }
{
    match (earlier, later) {
        (Some(mishap), Mishap::Fail) => Some(mishap),
        (_, later) => Some(later),
    }
}

/// The mishap of the next changing call.
fn mishap_of(pending: &[Pending]) -> Option<Mishap>
    ensures { result ≡ mishap_of pending.now }
{
    let mut found = None;
    for entry in pending {
        if entry.call == 1 {
            found = graver(found, entry.mishap);
        }
    }
    found
}

/// Spends what was planned for the next changing call.
fn pass(pending: &mut Vec<Pending>)
    ensures { pending.new.items ≡ later pending.old.items }
{
    pending.retain_mut(
        |entry: &mut Pending| -> bool
            ensures stays { result ≡ is_later entry.old }
            ensures nearer { entry.new ≡ nearer entry.old }
        {
            let stays = entry.call != 1;
            entry.call = entry.call.saturating_sub(1);
            stays
        },
    );
}

impl Plan {
    /// No mishaps.
    pub fn new(alloc: Global) -> Plan
        ensures { result ≡ untried }
    {
        Plan {
            pending: Vec::new(alloc),
            stopped: None,
            made: 0,
        }
    }

    /// The plan of a disk that is started again: what is to come stays.
    pub fn started(&self, alloc: Global) -> Result<Plan, AllocError>
        ensures { IfOk result (λ p. p ≡ record untried { pending = self.now.pending }) }
    {
        Ok(Plan {
            pending: Vec::from_slice(alloc, &self.pending)?,
            stopped: None,
            made: 0,
        })
    }

    /// Plans a mishap.
    pub fn add(&mut self, entry: Pending) -> Result<(), AllocError>
        ensures ok { OnOk result (self.new ≡ record self.old { pending = self.old.pending ++ entry ∷ [] }) }
        ensures err { OnErr result (self.new ≡ self.old) }
    {
        self.pending.push(entry)?;
        Ok(())
    }

    /// What befalls the changing call at hand, which is counted unless the disk has stopped.
    pub fn next(&mut self) -> Option<Mishap>
        ensures mishap { result ≡ next_mishap self.old }
        ensures passed { self.new ≡ passed self.old }
    {
        if self.stopped.is_some() {
            return Some(Mishap::Fail);
        }
        let mishap = mishap_of(&self.pending);
        pass(&mut self.pending);
        self.stopped = match mishap {
            Some(Mishap::Stop(image)) => Some(image),
            _ => None,
        };
        self.made = self.made.saturating_add(1);
        mishap
    }

    /// The image with which the disk has stopped, if it has.
    pub fn stopped(&self) -> Option<Image>
        ensures { result ≡ self.now.stopped }
    {
        self.stopped
    }

    /// How many changing calls were made before the disk stopped.
    pub fn made(&self) -> u64
        ensures { result ≡ self.now.made }
    {
        self.made
    }
}
