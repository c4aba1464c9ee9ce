ghost use Rattle.std.specs.Prelude.{◌≡◌, length};
ghost use Rattle.txn_phases.specs.Phases.{marked as marked_meant, begun_of};

use crate::job::is_begun;
use crate::requests::{Asks, Word, servers_of, to_begun};
use crate::{Branch, Branches, Stage};
use list_types::Listed;
use sql_text::LinkAnswer;
use sql_values::{ServerNo, ServerNos};
use std::alloc::{AllocError, Global};
use std::mem;

/// What is left of a transaction whose statement was given up for want of memory: answers to be read, and branches to be rolled back.
#[derive(Debug, Drop)]
pub struct Owed {
    pub(crate) branches: Branches,
    pub(crate) asked: ServerNos,
    pub(crate) heard: usize,
    pub(crate) stage: Stage,
}

impl Owed {
    ghost use Rattle.std.specs.Prelude.{◌≡◌, length, IfOk, OnErr};
    ghost use Rattle.txn_phases.specs.Phases.{to_undo, marked, owed_next, owed_hears, owed_undoes, owed_starting};

    /// The server whose answer is owed next.
    pub fn next(&self) -> Option<ServerNo>
        ensures { result ≡ owed_next self.now }
    {
        self.asked.as_slice().get(self.heard).copied()
    }

    /// An answer that was owed was read; where none is owed, nothing changes. It takes no memory.
    pub fn hear(&mut self, alloc: Global, answer: &LinkAnswer)
        ensures { self.new ≡ owed_hears self.old answer.now }
    {
        let place = self.heard;
        if place >= self.asked.len() {
            return;
        }
        self.heard += 1;
        if self.is_starting() {
            self.mark(alloc, place, is_begun(answer));
        }
    }

    fn mark(&mut self, alloc: Global, place: usize, begun: bool)
        ensures { self.new ≡ record { branches = marked place begun self.old.branches; asked = self.old.asked; heard = self.old.heard; stage = self.old.stage } }
    {
        let branches = mem::replace(&mut self.branches, Listed::new(alloc));
        self.branches = mark(branches, place, begun);
    }

    fn is_starting(&self) -> bool
        ensures { result ≡ owed_starting self.now.stage }
    {
        match self.stage {
            Stage::Starting => true,
            Stage::Open | Stage::Over => false,
        }
    }

    /// How many branches have to be rolled back once all was read.
    pub fn undo_count(&self) -> usize
        ensures { result ≡ length (to_undo self.now) }
    {
        match self.stage {
            Stage::Over => 0,
            Stage::Starting | Stage::Open => count_begun(self.branches.as_slice()),
        }
    }

    /// Once all was read, the branches that were begun are rolled back; the answers to that are owed from then on. After want of memory nothing has
    /// changed.
    pub fn undo(&mut self, alloc: Global) -> Result<Asks, AllocError>
        ensures undone { IfOk result (λ asks. (self.new, asks) ≡ owed_undoes self.old) }
        ensures unchanged { OnErr result (self.new ≡ self.old) }
    {
        let asks = match self.stage {
            Stage::Over => Listed::new(alloc),
            Stage::Starting | Stage::Open => {
                to_begun(alloc, Word::Rollback, self.branches.as_slice())?
            }
        };
        self.asked = servers_of(alloc, asks.as_slice())?;
        self.heard = 0;
        self.stage = Stage::Over;
        Ok(asks)
    }
}

/// How many of these branches were begun.
fn count_begun(branches: &[Branch]) -> usize
    ensures { result ≡ length (begun_of branches.now) }
{
    let mut count = 0;
    for branch in branches {
        if branch.begun {
            count += 1;
        }
    }
    count
}

/// The branch at that place was begun, or wasn't.
#[tactic(auto, using(crate::proofs::Marks::marked_here, crate::proofs::Marks::marked_past))]
pub(crate) fn mark(branches: Branches, place: usize, begun: bool) -> Branches
    ensures { result ≡ marked_meant place begun branches }
{
    let mut items = branches.into_vec();
    if place < items.len() {
        items[place].begun = begun;
        return Listed::from_vec(items);
    }
    Listed::from_vec(items)
}
