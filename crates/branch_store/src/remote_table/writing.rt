//! Rows that are put so that they can be taken back.

ghost use Rattle.std.specs.Prelude.{◌≡◌, ◌++◌, true, IfOk, OnOk, OnErr, map, take, drop};
ghost use Rattle.std.specs.BTreeMap.{IsOrdered, get, insert_entry, is_at};
ghost use Rattle.std.specs.List.{list_all};
ghost use Rattle.std.specs.Map.{set_value};
ghost use Rattle.std.specs.Ordering.{int_cmp, int_eq};
ghost use Rattle.plain_tables.specs.Inserts.{put as put_row, put_all as put_all_rows};
ghost use Rattle.plain_tables.specs.Rows.{key_of};
ghost use Rattle.branch_store.specs.Changes.{after, changed};
ghost use Rattle.branch_store.specs.Lists.{changed_first};
ghost use Rattle.branch_store.specs.Store.{changed_table};
ghost use Rattle.branch_store.specs.Undoing.{before_of as before_by, is_put, undone, undone_one};

use super::{RemoteTable, change_tables, copied_row};
use crate::Change;
use sql_values::{Row, Rows};
use std::alloc::{AllocError, Global};
use std::collections::BTreeMap;

/// What stood in a table where a row was put.
#[derive(Drop)]
enum Before {
    /// A row with the same key.
    Stood(Row),
    /// No row with this key.
    Nothing(i64),
}

/// Writes a row over the one that stands under the key, where there is one.
fn write_over(rows: &mut BTreeMap<i64, Row>, key: &i64, row: Row)
    ensures written { rows.new.entries ≡ set_value (is_at (int_cmp key.now)) rows.old.entries row }
    ensures ordered { IsOrdered int_cmp rows.new }
{
    if let Some(place) = rows.get_mut(key) {
        *place = row;
    }
}

/// Puts a row under its key, and gives the row that stood there.
fn exchange_at(
    rows: &mut BTreeMap<i64, Row>,
    key: &i64,
    row: Row,
) -> Result<Option<Row>, AllocError>
    ensures put { OnOk result (rows.new.entries ≡ insert_entry int_cmp rows.old.entries key.now row) }
    ensures stood { IfOk result (λ stood. stood ≡ get int_cmp rows.old key.now) }
    ensures ordered { IsOrdered int_cmp rows.new }
    ensures unchanged { OnErr result (rows.new.entries ≡ rows.old.entries) }
{
    let stood = rows.insert(*key, row)?;
    Ok(stood)
}

fn before_of(key: &i64, stood: Option<Row>) -> Before
    ensures { result ≡ before_by key.now stood }
{
    match stood {
        Some(row) => Before::Stood(row),
        None => Before::Nothing(*key),
    }
}

fn is_put_of(change: &Change) -> bool
    ensures { result ≡ is_put change.now }
{
    match change {
        Change::Put {
            table: _table,
            rows: _rows,
        } => true,
        Change::Del {
            table: _table,
            keys: _keys,
        } => false,
        Change::Clear {
            table: _table,
            low: _low,
            high: _high,
        } => false,
    }
}

/// Whether each of these changes puts rows.
fn are_puts(changes: &[Change]) -> bool
    ensures { result ≡ list_all is_put changes.now }
{
    for change in changes {
        if !is_put_of(change) {
            return false;
        }
    }
    true
}

impl RemoteTable {
    /// Writes a row over the one with its key.
    fn put_back(&mut self, row: Row)
        ensures { self.new ≡ record self.old { rows = changed_first (λ r. int_eq (key_of self.old.def row) (key_of self.old.def r)) (λ r. row) self.old.rows } }
    {
        let key = *self.key(&row);
        write_over(&mut self.rows, &key, row);
    }

    /// Takes a row back that was put.
    fn restore(&mut self, before: Before)
        ensures { self.new ≡ record self.old { rows = undone_one self.old.def self.old.rows before } }
    {
        match before {
            Before::Stood(row) => self.put_back(row),
            Before::Nothing(key) => self.remove(&key),
        }
    }

    /// Takes rows back that were put, the last first. It takes no memory.
    fn undo(&mut self, mut log: Vec<Before>)
        ensures { self.new ≡ record self.old { rows = undone self.old.def self.old.rows log.items } }
    {
        while let Some(before) = log.pop() {
            self.restore(before);
        }
    }

    /// Puts a copy of a row in its place, and notes what stood there.
    fn put_noted(&mut self, row: &Row, log: &mut Vec<Before>) -> Result<(), AllocError>
        ensures ok { OnOk result (self.new ≡ record self.old { rows = put_row self.old.def self.old.rows row.now }) }
        ensures same { self.new.def ≡ self.old.def }
        ensures back { undone self.new.def self.new.rows log.new.items ≡ undone self.old.def self.old.rows log.old.items }
    {
        log.reserve(1)?;
        let copy = copied_row(row)?;
        let key = self.key(row);
        let stood = exchange_at(&mut self.rows, key, copy)?;
        log.push_reserved(before_of(key, stood));
        Ok(())
    }

    /// Puts rows, one after the other.
    fn put_all_noted(&mut self, rows: &Rows, log: &mut Vec<Before>) -> Result<(), AllocError>
        ensures ok { OnOk result (self.new ≡ record self.old { rows = put_all_rows self.old.def self.old.rows rows.now }) }
        ensures same { self.new.def ≡ self.old.def }
        ensures back { undone self.new.def self.new.rows log.new.items ≡ undone self.old.def self.old.rows log.old.items }
    {
        for row in rows.as_slice() {
            match self.put_noted(row, log) {
                Ok(()) => {}
                Err(error) => return Err(error),
            }
        }
        Ok(())
    }

    /// Puts a change's rows, where it is one of this table.
    fn change_noted(&mut self, change: &Change, log: &mut Vec<Before>) -> Result<(), AllocError>
        requires { is_put change.now ≡ true }
        ensures ok { OnOk result (self.new ≡ record self.old { rows = changed self.old.def self.old.rows change.now }) }
        ensures same { self.new.def ≡ self.old.def }
        ensures back { undone self.new.def self.new.rows log.new.items ≡ undone self.old.def self.old.rows log.old.items }
    {
        let Change::Put { table, rows } = change else {
            unreachable!()
        };
        if self.is_called(table) {
            self.put_all_noted(rows, log)
        } else {
            Ok(())
        }
    }

    /// Puts the rows of changes, one after the other.
    fn change_all_noted(
        &mut self,
        changes: &[Change],
        log: &mut Vec<Before>,
    ) -> Result<(), AllocError>
        requires { list_all is_put changes.now ≡ true }
        ensures ok { OnOk result (self.new ≡ record self.old { rows = after self.old.def changes.now self.old.rows }) }
        ensures same { self.new.def ≡ self.old.def }
        ensures back { undone self.new.def self.new.rows log.new.items ≡ undone self.old.def self.old.rows log.old.items }
    {
        for change in changes {
            match self.change_noted(change, log) {
                Ok(()) => {}
                Err(error) => return Err(error),
            }
        }
        Ok(())
    }

    /// Puts the rows of changes, all or none, and gives what takes them back.
    fn put_changes(&mut self, alloc: Global, changes: &[Change]) -> Result<Vec<Before>, AllocError>
        requires { list_all is_put changes.now ≡ true }
        ensures ok { OnOk result (self.new ≡ changed_table changes.now self.old) }
        ensures back { IfOk result (λ log. record self.new { rows = undone self.new.def self.new.rows log.items } ≡ self.old) }
        ensures unchanged { OnErr result (self.new ≡ self.old) }
    {
        let mut log = Vec::new(alloc);
        match self.change_all_noted(changes, &mut log) {
            Ok(()) => Ok(log),
            Err(error) => {
                self.undo(log);
                Err(error)
            }
        }
    }
}

/// Puts the rows of these changes in the tables from a place on, or in none of them. The cost is that of a search for each row, and of the changes' names for
/// each table.
fn put_in_tables(
    alloc: Global,
    tables: &mut Vec<RemoteTable>,
    place: usize,
    changes: &[Change],
) -> Result<(), AllocError>
    requires { list_all is_put changes.now ≡ true }
    ensures ok { OnOk result (tables.new.items ≡ take place tables.old.items ++ map (changed_table changes.now) (drop place tables.old.items)) }
    ensures err { OnErr result (tables.new.items ≡ tables.old.items) }
{
    if place >= tables.len() {
        return Ok(());
    }
    let log = tables[place].put_changes(alloc, changes)?;
    match put_in_tables(alloc, tables, place + 1, changes) {
        Ok(()) => Ok(()),
        Err(error) => {
            tables[place].undo(log);
            Err(error)
        }
    }
}

/// Makes these changes in the tables, or in none of them. Where all of them put rows, the cost is that of `put_in_tables`; else each table that is changed is copied.
pub(crate) fn commit_changes(
    alloc: Global,
    tables: &mut Vec<RemoteTable>,
    changes: &[Change],
) -> Result<(), AllocError>
    ensures ok { OnOk result (tables.new.items ≡ map (changed_table changes.now) tables.old.items) }
    ensures err { OnErr result (tables.new.items ≡ tables.old.items) }
{
    if are_puts(changes) {
        put_in_tables(alloc, tables, 0, changes)
    } else {
        change_tables(tables, 0, changes)
    }
}
