//! Rows found by their keys.

ghost use Rattle.std.specs.Prelude.{◌≡◌, ◌++◌, ◌-◌, ◌≤◌, ◌≤ℤ◌, true, false, ℕ, None, Some, OnOk, IfOk, [], ◌∷◌, length, map, take, slice_get};
ghost use Rattle.std.specs.List.{filter};
ghost use Rattle.std.specs.Option.{IfSome};
ghost use Rattle.sql_values.specs.declared.table.ColumnDef.{ColumnDef};
ghost use Rattle.part_rules.specs.KeyRows.{HasOwnKeyName};
ghost use Rattle.front_rows.specs.Aggregates.{cells_over as cells_meant};
ghost use Rattle.stmt_plan.specs.Selects.{aggregate_of};
ghost use Rattle.plain_tables.specs.Rows.{Rises, kept};
ghost use Rattle.plain_tables.specs.Scans.{first_rows};
ghost use Rattle.branch_store.specs.Faults.{calls_fault, scan_fault};
ghost use Rattle.branch_store.specs.Scanning.{AreOfTable, MissesNone, lies_among, lies_within};
ghost use Rattle.branch_store.specs.Store.{found as answer_meant, found_rows};

use super::{RemoteTable, copied_row};
use crate::Change;
use crate::counting::{cells_over, first_row};
use front_rows::CellRow;
use list_types::Listed;
use part_rules::keys_of;
use sql_text::{AggregateCall, LinkAnswer, Scan, ScanItems};
use sql_values::{ColumnDef, Cond, Interval, Intervals, Name, Rows, TableDef};
use std::alloc::{AllocError, Global};

/// Whether a column at another place than this has the name.
fn stands_elsewhere(columns: &[ColumnDef], name: &Name, key: usize) -> bool
    ensures { result ≡ false → (j : ℕ) (other : ColumnDef) → slice_get columns.now j ≡ Some other → other.name ≡ name.now → j ≡ key }
{
    for place in 0..columns.len() {
        if place != key && columns[place].name == *name {
            return true;
        }
    }
    false
}

/// Whether no other column has the key column's name.
fn has_own_key_name(def: &TableDef) -> bool
    ensures { result ≡ true → HasOwnKeyName def.now }
{
    let columns = def.columns.as_slice();
    match columns.get(def.key as usize) {
        Some(key) => !stands_elsewhere(columns, &key.name, def.key as usize),
        None => false,
    }
}

fn copied_def(def: &TableDef) -> Result<TableDef, AllocError>
    ensures { IfOk result (λ copy. copy ≡ def.now) }
{
    def.clone()
}

impl RemoteTable {
    /// The keys that a condition keeps, where rows can be found by them.
    fn keys_for(&self, alloc: Global, cond: &Option<Cond>) -> Result<Option<Intervals>, AllocError>
        ensures { IfOk result (λ keys. IfSome keys (MissesNone self.now.def cond.now)) }
    {
        let Some(cond) = cond else {
            return Ok(None);
        };
        if !has_own_key_name(&self.def) {
            return Ok(None);
        }
        let keys = keys_of(alloc, cond, &self.def)?;
        Ok(Some(keys))
    }

    /// Adds the first rows of an interval on which a condition, where there is one, holds, as long as there are fewer than `most`.
    fn add_first(
        &self,
        interval: &Interval,
        cond: &Option<Cond>,
        most: u64,
        rows: &mut Rows,
    ) -> Result<(), AllocError>
        requires filled { interval.now.low ≤ℤ interval.now.high }
        requires few { length rows.old ≤ most }
        ensures { OnOk result (rows.new ≡ rows.old ++ take (most - length rows.old) (kept self.now.def cond.now (filter (lies_within self.now.def interval.now) self.now.rows))) }
    {
        for (_, row) in self.rows.range(interval.low..=interval.high) {
            if rows.len() as u64 >= most {
                return Ok(());
            }
            if self.does_hold(cond, row) {
                rows.push(copied_row(row)?)?;
            }
        }
        Ok(())
    }

    /// The first rows with these keys on which a condition, where there is one, holds, at most so many. The cost is that of a search for each interval, and of the
    /// rows that stand in them.
    fn first_among(
        &self,
        alloc: Global,
        keys: &Intervals,
        cond: &Option<Cond>,
        most: u64,
    ) -> Result<Rows, AllocError>
        requires { Rises self.now.def self.now.rows }
        ensures { IfOk result (λ rows. rows ≡ take most (kept self.now.def cond.now (filter (lies_among self.now.def keys.now) self.now.rows))) }
    {
        let mut rows = Listed::new(alloc);
        for interval in keys.as_slice() {
            if rows.len() as u64 >= most {
                return Ok(rows);
            }
            self.add_first(interval, cond, most, &mut rows)?;
        }
        Ok(rows)
    }

    /// As `first_among`, at most so many where there is a limit.
    fn limited_among(
        &self,
        alloc: Global,
        keys: &Intervals,
        cond: &Option<Cond>,
        limit: Option<u64>,
    ) -> Result<Rows, AllocError>
        requires { Rises self.now.def self.now.rows }
        ensures { IfOk result (λ rows. rows ≡ first_rows limit (kept self.now.def cond.now (filter (lies_among self.now.def keys.now) self.now.rows))) }
    {
        match limit {
            Some(most) => self.first_among(alloc, keys, cond, most),
            None => self.first_among(alloc, keys, cond, self.len() as u64),
        }
    }

    /// The rows with these keys, as a table of their own.
    fn part(&self, alloc: Global, keys: &Intervals) -> Result<RemoteTable, AllocError>
        requires { Rises self.now.def self.now.rows }
        ensures { IfOk result (λ part. part ≡ record self.now { rows = filter (lies_among self.now.def keys.now) self.now.rows }) }
    {
        let rows = self.limited_among(alloc, keys, &None, None)?;
        let mut part = RemoteTable::new(alloc, copied_def(&self.def)?)?;
        part.put_all(&rows)?;
        Ok(part)
    }

    /// What a scan finds after these changes, where its condition holds on no row with another key than these.
    pub(super) fn found_among(
        &self,
        alloc: Global,
        keys: &Intervals,
        changes: &[Change],
        cond: &Option<Cond>,
        limit: Option<u64>,
    ) -> Result<Rows, AllocError>
        requires table { AreOfTable changes.now self.now }
        requires keys { MissesNone self.now.def cond.now keys.now }
        ensures { IfOk result (λ rows. rows ≡ found_rows changes.now self.now cond.now limit) }
    {
        if self.is_changed(changes) {
            let mut part = self.part(alloc, keys)?;
            part.change_all(changes)?;
            part.limited(alloc, cond, limit)
        } else {
            self.limited_among(alloc, keys, cond, limit)
        }
    }

    /// The first rows after these changes on which a condition holds. One that keeps few keys costs a search for each interval of them, and the rows that stand
    /// there.
    fn found(
        &self,
        alloc: Global,
        changes: &[Change],
        cond: &Option<Cond>,
        limit: Option<u64>,
    ) -> Result<Rows, AllocError>
        requires { AreOfTable changes.now self.now }
        ensures { IfOk result (λ rows. rows ≡ found_rows changes.now self.now cond.now limit) }
    {
        match self.keys_for(alloc, cond)? {
            Some(keys) => self.found_among(alloc, &keys, changes, cond, limit),
            None => self.found_by_walk(alloc, changes, cond, limit),
        }
    }

    /// The aggregates over all rows after these changes on which a condition holds, as one row, where one is wanted.
    fn aggregates(
        &self,
        alloc: Global,
        changes: &[Change],
        calls: &[AggregateCall],
        cond: &Option<Cond>,
        limit: Option<u64>,
    ) -> Result<Listed<CellRow>, AllocError>
        requires table { AreOfTable changes.now self.now }
        requires calls { calls_fault self.now.def calls.now ≡ None }
        ensures { IfOk result (λ rows. rows ≡ first_rows limit (cells_meant (map (aggregate_of self.now.def) calls.now) (found_rows changes.now self.now cond.now None) ∷ [])) }
    {
        let rows = self.found(alloc, changes, cond, None)?;
        let cells = cells_over(alloc, self.def(), calls, rows.as_slice())?;
        first_row(alloc, limit, cells)
    }

    /// What a scan that fits the table is answered after these changes: the first rows, or the aggregates over all of them, as one row.
    pub(crate) fn answer(
        &self,
        alloc: Global,
        changes: &[Change],
        scan: &Scan,
    ) -> Result<LinkAnswer, AllocError>
        requires table { AreOfTable changes.now self.now }
        requires scan { scan_fault self.now.def scan.now ≡ None }
        ensures { IfOk result (λ answer. answer ≡ answer_meant changes.now self.now scan.now) }
    {
        let cond = &scan.cond;
        match &scan.items {
            ScanItems::All => Ok(LinkAnswer::Rows(self.found(alloc, changes, cond, scan.limit)?)),
            ScanItems::Aggregates(calls) => Ok(LinkAnswer::Cells(self.aggregates(
                alloc,
                changes,
                calls.as_slice(),
                cond,
                scan.limit,
            )?)),
        }
    }
}
