//! Branches by their names and by their connections.

ghost use Rattle.std.specs.Prelude.{◌≡◌, ◌&&◌, ◌==◌, ◌||◌, OnOk, OnErr};
ghost use Rattle.std.specs.List.{find, position};
ghost use Rattle.std.specs.Option.{option_map};
ghost use Rattle.branch_store.specs.Faults.{has_xid, is_own as belongs_to, is_prepared as has_been_prepared, is_active as has_not_ended, is_ended as has_ended, branch_fault, start_fault as fault_of_start};
ghost use Rattle.branch_store.specs.Lists.{changed_first, without_first};
ghost use Rattle.branch_store.specs.Store.{add_change as with_added, at_stage};
ghost use Rattle.branch_store.specs.Deeds.{may_do};

use crate::{Branch, BranchFault, Change, Stage};
use sql_values::Xid;
use std::alloc::AllocError;

/// What is done with a branch as a whole.
#[derive(Clone, Copy)]
pub(crate) enum Deed {
    End,
    Prepare,
    Commit,
    Rollback,
}

impl Stage {
    fn is_active(self) -> bool
        ensures { result ≡ has_not_ended self }
    {
        match self {
            Stage::Active => true,
            Stage::Ended | Stage::Prepared => false,
        }
    }

    fn is_ended(self) -> bool
        ensures { result ≡ has_ended self }
    {
        match self {
            Stage::Ended => true,
            Stage::Active | Stage::Prepared => false,
        }
    }

    pub(crate) fn is_prepared(self) -> bool
        ensures { result ≡ has_been_prepared self }
    {
        match self {
            Stage::Prepared => true,
            Stage::Active | Stage::Ended => false,
        }
    }
}

fn is_own(branch: &Branch, conn: u32) -> bool
    ensures { result ≡ belongs_to conn branch.now }
{
    branch.owner == conn && !branch.stage.is_prepared()
}

fn is_called(branch: &Branch, xid: &Xid) -> bool
    ensures { result ≡ has_xid xid.now branch.now }
{
    branch.xid == *xid
}

fn may(deed: Deed, conn: u32, branch: &Branch) -> bool
    ensures { result ≡ may_do deed conn branch.now }
{
    match deed {
        Deed::End => branch.owner == conn && branch.stage.is_active(),
        Deed::Prepare => branch.owner == conn && branch.stage.is_ended(),
        Deed::Commit => branch.stage.is_prepared(),
        Deed::Rollback => branch.stage.is_prepared() || branch.owner == conn,
    }
}

fn place_of(branches: &[Branch], xid: &Xid) -> Option<usize>
    ensures { result ≡ position (has_xid xid.now) branches.now }
{
    branches.iter().position(|branch| is_called(branch, xid))
}

fn own_place(branches: &[Branch], conn: u32) -> Option<usize>
    ensures { result ≡ position (belongs_to conn) branches.now }
{
    branches.iter().position(|branch| is_own(branch, conn))
}

/// The branch of this name.
pub(crate) fn living<'a>(branches: &'a [Branch], xid: &Xid) -> Option<&'a Branch>
    ensures { option_map (λ b. b.now) result ≡ find (has_xid xid.now) branches.now }
{
    branches.iter().find(|branch| is_called(branch, xid))
}

/// The connection's branch that isn't prepared.
pub(crate) fn own(branches: &[Branch], conn: u32) -> Option<&Branch>
    ensures { option_map (λ b. b.now) result ≡ find (belongs_to conn) branches.now }
{
    branches.iter().find(|branch| is_own(branch, conn))
}

/// The prepared branch of this name.
pub(crate) fn prepared<'a>(branches: &'a [Branch], xid: &Xid) -> Option<&'a Branch>
    ensures { option_map (λ b. b.now) result ≡ find (λ b. has_xid xid.now b && has_been_prepared b.stage) branches.now }
{
    branches.iter().find(|branch| is_called(branch, xid) && branch.stage.is_prepared())
}

/// Why a branch of this name can't begin on the connection.
pub(crate) fn start_fault(branches: &[Branch], conn: u32, xid: &Xid) -> Option<BranchFault>
    ensures { result ≡ fault_of_start (find (has_xid xid.now) branches.now) (find (belongs_to conn) branches.now) }
{
    if living(branches, xid).is_some() {
        return Some(BranchFault::Duplicate);
    }
    match own(branches, conn) {
        Some(branch) => Some(BranchFault::WrongState(branch.stage)),
        None => None,
    }
}

/// Why something can't be done with the branch of this name.
pub(crate) fn deed_fault(
    branches: &[Branch],
    conn: u32,
    xid: &Xid,
    deed: Deed,
) -> Option<BranchFault>
    ensures { result ≡ branch_fault (may_do deed conn) (find (has_xid xid.now) branches.now) }
{
    match living(branches, xid) {
        Some(branch) => {
            if may(deed, conn, branch) {
                None
            } else {
                Some(BranchFault::WrongState(branch.stage))
            }
        }
        None => Some(BranchFault::NoSuchBranch),
    }
}

/// Brings the branch of this name to a stage.
pub(crate) fn set_stage(branches: &mut Vec<Branch>, xid: &Xid, stage: Stage)
    ensures { branches.new.items ≡ changed_first (has_xid xid.now) (at_stage stage) branches.old.items }
{
    let place = match place_of(branches.as_slice(), xid) {
        Some(place) => place,
        None => return,
    };
    branches[place].stage = stage;
}

/// Takes the branch of this name away.
pub(crate) fn remove(branches: &mut Vec<Branch>, xid: &Xid)
    ensures { branches.new.items ≡ without_first (has_xid xid.now) branches.old.items }
{
    let place = match place_of(branches.as_slice(), xid) {
        Some(place) => place,
        None => return,
    };
    let _gone = branches.remove(place);
}

/// Takes the connection's branch away, unless it is prepared.
pub(crate) fn remove_own(branches: &mut Vec<Branch>, conn: u32)
    ensures { branches.new.items ≡ without_first (belongs_to conn) branches.old.items }
{
    let place = match own_place(branches.as_slice(), conn) {
        Some(place) => place,
        None => return,
    };
    let _gone = branches.remove(place);
}

/// Adds a change to the connection's branch.
pub(crate) fn add_change(
    branches: &mut Vec<Branch>,
    conn: u32,
    change: Change,
) -> Result<(), AllocError>
    ensures ok { OnOk result (branches.new.items ≡ changed_first (belongs_to conn) (with_added change) branches.old.items) }
    ensures err { OnErr result (branches.new.items ≡ branches.old.items) }
{
    let place = match own_place(branches.as_slice(), conn) {
        Some(place) => place,
        None => return Ok(()),
    };
    let branch = &mut branches[place];
    branch.changes.push(change)?;
    Ok(())
}
