//! Tables and branches, and what each request does with them.

ghost use Rattle.std.specs.Prelude.{◌≡◌, [], IfOk, OnOk, OnErr, MatchResult, Ok, Err};
ghost use Rattle.std.specs.List.{find};
ghost use Rattle.std.specs.Option.{option_map};
ghost use Rattle.branch_store.specs.Changes.{has_key_in, has_key_from, is_called};
ghost use Rattle.branch_store.specs.Deeds.{may_do};
ghost use Rattle.branch_store.specs.Opening.{empty_tables};
ghost use Rattle.branch_store.specs.Sound.{IsSound};
ghost use Rattle.branch_store.specs.Store.{Store, store_step, started as start_step, moved, committed, rolled_back, hung_up, scanned, put as put_step, deleted, work_on, changed_table, prepared_changes, viewed, viewed_rows};

use crate::branches::{
    Deed, add_change, deed_fault, living, own, prepared, remove, remove_own, set_stage, start_fault,
};
use crate::checking::{are_rows, key_fault, scan_fault};
use crate::fault::refusal;
use crate::recovering::recovered_xids;
use crate::remote_table::RemoteTable;
use crate::remote_table::writing::commit_changes;
use crate::{Branch, BranchFault, Change, Changes, Stage};
use list_types::Listed;
use sql_text::{LinkAnswer, LinkRequest, Scan};
use sql_values::{Keys, Name, Rows, TableDefs, Xid, Xids};
use std::alloc::{AllocError, Global};
use std::marker::Model;

/// A backend's tables and the branches that live there, by the definitions alone: what they keep of their rows is the matter of `BranchStore`.
#[derive(Drop)]
pub(crate) struct Books {
    tables: Vec<RemoteTable>,
    branches: Vec<Branch>,
}

impl Model for Books {
    ghost use Rattle.branch_store.specs.Store.{Store};

    ghost Value = { Store };

    ghost view = { λ s. record { tables = s.tables.items; branches = s.branches.items } };
}

/// A table, and the changes of the active branch that works on it.
#[derive(Clone, Copy)]
struct Work<'a> {
    changes: &'a Changes,
    table: &'a RemoteTable,
}

/// The table of this name.
fn table_of<'a>(tables: &'a [RemoteTable], name: &Name) -> Option<&'a RemoteTable>
    ensures { option_map (λ t. t.now) result ≡ find (λ t. is_called name.now t.def) tables.now }
{
    tables.iter().find(|table| table.is_called(name))
}

impl Books {
    /// The tables, without rows and branches.
    pub(crate) fn new(alloc: Global, tables: TableDefs) -> Result<Books, AllocError>
        ensures { IfOk result (λ store. store ≡ record { tables = empty_tables tables; branches = [] }) }
    {
        let mut list = Vec::new(alloc);
        for def in tables.into_vec() {
            list.push(RemoteTable::new(alloc, def)?)?;
        }
        Ok(Books {
            tables: list,
            branches: Vec::new(alloc),
        })
    }

    /// Answers a request on a connection.
    pub(crate) fn ask(
        &mut self,
        alloc: Global,
        conn: u32,
        request: &LinkRequest,
    ) -> Result<LinkAnswer, AllocError>
        requires { IsSound self.old }
        ensures step { IfOk result (λ answer. (self.new, answer) ≡ store_step self.old conn request.now) }
        ensures unchanged { OnErr result (self.new ≡ self.old) }
    {
        match request {
            LinkRequest::Start(xid) => self.start(alloc, conn, xid),
            LinkRequest::End(xid) => self.go_on(alloc, conn, xid, Deed::End, Stage::Ended),
            LinkRequest::Prepare(xid) => {
                self.go_on(alloc, conn, xid, Deed::Prepare, Stage::Prepared)
            }
            LinkRequest::Commit(xid) => self.commit(alloc, conn, xid),
            LinkRequest::Rollback(xid) => self.roll_back(alloc, conn, xid),
            LinkRequest::Recover => Ok(LinkAnswer::Xids(recovered_xids(
                alloc,
                self.branches.as_slice(),
            )?)),
            LinkRequest::Scan(scan) => self.scan(alloc, conn, scan),
            LinkRequest::Put { table, rows } => self.put(alloc, conn, table, rows),
            LinkRequest::Del { table, key, keys } => self.del(alloc, conn, table, key, keys),
            LinkRequest::Clear {
                table,
                key,
                low,
                high,
            } => self.clear(alloc, conn, table, key, low, high),
        }
    }

    /// Drops the connection's branch, unless it is prepared.
    pub(crate) fn hangup(&mut self, conn: u32)
        ensures { self.new ≡ hung_up self.old conn }
    {
        remove_own(&mut self.branches, conn);
    }

    /// The committed rows of a table, changed by the prepared branches of these names.
    pub(crate) fn view(&self, alloc: Global, table: &Name, xids: &Xids) -> Result<Rows, AllocError>
        ensures { IfOk result (λ rows. rows ≡ viewed self.now table.now xids.now) }
    {
        match table_of(self.tables.as_slice(), table) {
            Some(table) => self.view_of(alloc, table, xids),
            None => Ok(Listed::new(alloc)),
        }
    }

    fn view_of(&self, alloc: Global, table: &RemoteTable, xids: &Xids) -> Result<Rows, AllocError>
        ensures { IfOk result (λ rows. rows ≡ viewed_rows self.now.branches table.now xids.now) }
    {
        let mut seen = table.copy()?;
        for xid in xids.as_slice() {
            self.see(&mut seen, xid)?;
        }
        seen.into_rows(alloc)
    }

    /// Makes the changes of the prepared branch of this name, where there is one.
    fn see(&self, seen: &mut RemoteTable, xid: &Xid) -> Result<(), AllocError>
        ensures { OnOk result (seen.new ≡ changed_table (prepared_changes self.now.branches xid.now) seen.old) }
    {
        match prepared(self.branches.as_slice(), xid) {
            Some(branch) => seen.change_all(branch.changes.as_slice()),
            None => Ok(()),
        }
    }

    /// Begins a branch.
    fn start(&mut self, alloc: Global, conn: u32, xid: &Xid) -> Result<LinkAnswer, AllocError>
        ensures step { IfOk result (λ answer. (self.new, answer) ≡ start_step self.old conn xid.now) }
        ensures unchanged { OnErr result (self.new ≡ self.old) }
    {
        if let Some(fault) = start_fault(self.branches.as_slice(), conn, xid) {
            return refusal(alloc, &fault);
        }
        let branch = Branch {
            xid: xid.clone()?,
            stage: Stage::Active,
            owner: conn,
            changes: Listed::new(alloc),
        };
        self.branches.push(branch)?;
        Ok(LinkAnswer::Done(0))
    }

    /// Ends or prepares a branch.
    fn go_on(
        &mut self,
        alloc: Global,
        conn: u32,
        xid: &Xid,
        deed: Deed,
        stage: Stage,
    ) -> Result<LinkAnswer, AllocError>
        ensures step { IfOk result (λ answer. (self.new, answer) ≡ moved self.old (may_do deed conn) xid.now stage) }
        ensures unchanged { OnErr result (self.new ≡ self.old) }
    {
        if let Some(fault) = deed_fault(self.branches.as_slice(), conn, xid, deed) {
            return refusal(alloc, &fault);
        }
        set_stage(&mut self.branches, xid, stage);
        Ok(LinkAnswer::Done(0))
    }

    /// Commits a prepared branch: its changes are made in the tables.
    fn commit(&mut self, alloc: Global, conn: u32, xid: &Xid) -> Result<LinkAnswer, AllocError>
        ensures step { IfOk result (λ answer. (self.new, answer) ≡ committed self.old xid.now) }
        ensures unchanged { OnErr result (self.new ≡ self.old) }
    {
        if let Some(fault) = deed_fault(self.branches.as_slice(), conn, xid, Deed::Commit) {
            return refusal(alloc, &fault);
        }
        let Some(branch) = living(self.branches.as_slice(), xid) else {
            unreachable!()
        };
        commit_changes(alloc, &mut self.tables, branch.changes.as_slice())?;
        remove(&mut self.branches, xid);
        Ok(LinkAnswer::Done(0))
    }

    /// Rolls a branch back: its changes are dropped.
    fn roll_back(&mut self, alloc: Global, conn: u32, xid: &Xid) -> Result<LinkAnswer, AllocError>
        ensures step { IfOk result (λ answer. (self.new, answer) ≡ rolled_back self.old conn xid.now) }
        ensures unchanged { OnErr result (self.new ≡ self.old) }
    {
        if let Some(fault) = deed_fault(self.branches.as_slice(), conn, xid, Deed::Rollback) {
            return refusal(alloc, &fault);
        }
        remove(&mut self.branches, xid);
        Ok(LinkAnswer::Done(0))
    }

    /// The connection's active branch and the table of this name, or why there isn't both.
    fn work(
        &self,
        alloc: Global,
        conn: u32,
        name: &Name,
    ) -> Result<Result<Work<'_>, BranchFault>, AllocError>
        ensures { IfOk result (λ found. MatchResult found (λ w. work_on self.now conn name.now ≡ Ok (w.changes.now, w.table.now)) (λ f. work_on self.now conn name.now ≡ Err f)) }
    {
        let Some(branch) = own(self.branches.as_slice(), conn) else {
            return Ok(Err(BranchFault::NoSuchBranch));
        };
        match branch.stage {
            Stage::Active => {}
            Stage::Ended => return Ok(Err(BranchFault::WrongState(Stage::Ended))),
            Stage::Prepared => return Ok(Err(BranchFault::WrongState(Stage::Prepared))),
        }
        match table_of(self.tables.as_slice(), name) {
            Some(table) => Ok(Ok(Work {
                changes: &branch.changes,
                table,
            })),
            None => Ok(Err(BranchFault::NoTable(name.copy(alloc)?))),
        }
    }

    /// Scans a table as the connection's branch sees it.
    fn scan(&self, alloc: Global, conn: u32, scan: &Scan) -> Result<LinkAnswer, AllocError>
        requires { IsSound self.now }
        ensures { IfOk result (λ answer. (self.now, answer) ≡ scanned self.now conn scan.now) }
    {
        let work = match self.work(alloc, conn, &scan.table)? {
            Ok(work) => work,
            Err(fault) => return refusal(alloc, &fault),
        };
        if let Some(fault) = scan_fault(alloc, work.table, scan)? {
            return refusal(alloc, &fault);
        }
        work.table.answer(alloc, work.changes.as_slice(), scan)
    }

    /// Adds rows to what the connection's branch puts.
    fn put(
        &mut self,
        alloc: Global,
        conn: u32,
        name: &Name,
        rows: &Rows,
    ) -> Result<LinkAnswer, AllocError>
        ensures step { IfOk result (λ answer. (self.new, answer) ≡ put_step self.old conn name.now rows.now) }
        ensures unchanged { OnErr result (self.new ≡ self.old) }
    {
        let work = match self.work(alloc, conn, name)? {
            Ok(work) => work,
            Err(fault) => return refusal(alloc, &fault),
        };
        if !are_rows(work.table.def(), rows) {
            return refusal(alloc, &BranchFault::TypeMismatch);
        }
        let count = rows.len() as u64;
        let change = Change::Put {
            table: name.copy(alloc)?,
            rows: rows.clone()?,
        };
        add_change(&mut self.branches, conn, change)?;
        Ok(LinkAnswer::Done(count))
    }

    /// Adds keys to what the connection's branch deletes.
    fn del(
        &mut self,
        alloc: Global,
        conn: u32,
        name: &Name,
        key: &Name,
        keys: &Keys,
    ) -> Result<LinkAnswer, AllocError>
        ensures step { IfOk result (λ answer. (self.new, answer) ≡ deleted self.old conn name.now key.now (Change.Del name.now keys.now) (λ t. has_key_in t.def keys.now)) }
        ensures unchanged { OnErr result (self.new ≡ self.old) }
    {
        let work = match self.work(alloc, conn, name)? {
            Ok(work) => work,
            Err(fault) => return refusal(alloc, &fault),
        };
        if let Some(fault) = key_fault(alloc, work.table.def(), key)? {
            return refusal(alloc, &fault);
        }
        let count = work
            .table
            .count_in(work.changes.as_slice(), keys.as_slice())?;
        let change = Change::Del {
            table: name.copy(alloc)?,
            keys: keys.clone()?,
        };
        add_change(&mut self.branches, conn, change)?;
        Ok(LinkAnswer::Done(count))
    }

    /// Adds an interval of keys to what the connection's branch deletes.
    fn clear(
        &mut self,
        alloc: Global,
        conn: u32,
        name: &Name,
        key: &Name,
        low: &i64,
        high: &i64,
    ) -> Result<LinkAnswer, AllocError>
        ensures step { IfOk result (λ answer. (self.new, answer) ≡ deleted self.old conn name.now key.now (Change.Clear name.now low.now high.now) (λ t. has_key_from t.def low.now high.now)) }
        ensures unchanged { OnErr result (self.new ≡ self.old) }
    {
        let work = match self.work(alloc, conn, name)? {
            Ok(work) => work,
            Err(fault) => return refusal(alloc, &fault),
        };
        if let Some(fault) = key_fault(alloc, work.table.def(), key)? {
            return refusal(alloc, &fault);
        }
        let count = work.table.count_from(work.changes.as_slice(), low, high)?;
        let change = Change::Clear {
            table: name.copy(alloc)?,
            low: *low,
            high: *high,
        };
        add_change(&mut self.branches, conn, change)?;
        Ok(LinkAnswer::Done(count))
    }
}
