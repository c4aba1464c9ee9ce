//! A remote table: its rows by key.

ghost use Rattle.std.specs.Prelude.{◌≡◌, [], ◌∷◌, ◌++◌, ◌-◌, ◌&&◌, not, int_le, IfOk, OnOk, OnErr, length, map, take, drop};
ghost use Rattle.std.specs.BTreeMap.{IsOrdered, insert_entry};
ghost use Rattle.std.specs.List.{filter, list_any};
ghost use Rattle.std.specs.Option.{unwrap_or};
ghost use Rattle.std.specs.Ordering.{int_cmp};
ghost use Rattle.plain_tables.specs.Inserts.{put as put_row, put_all as put_all_rows};
ghost use Rattle.plain_tables.specs.Rows.{holds_on, kept, key_of};
ghost use Rattle.plain_tables.specs.Scans.{first_rows};
ghost use Rattle.branch_store.specs.Changes.{after, changed, has_key_in, has_key_from, is_called, is_of, without};
ghost use Rattle.branch_store.specs.Store.{changed_table, count_seen, found_rows};
ghost use Rattle.branch_store.specs.Tables.{Table};

mod scanning;
pub(crate) mod writing;

use crate::Change;
use list_types::Listed;
use sql_text::Scan;
use sql_values::{Cond, Name, Row, Rows, TableDef, TableDefs, Value, holds};
use std::alloc::{AllocError, Global};
use std::collections::BTreeMap;
use std::marker::Model;

/// A table of the backend. Its rows stand under their keys.
#[derive(Drop)]
pub(crate) struct RemoteTable {
    def: TableDef,
    // The definition as a list, as conditions are checked and tested.
    alone: TableDefs,
    rows: BTreeMap<i64, Row>,
}

impl Model for RemoteTable {
    ghost use Rattle.std.specs.Prelude.{◌≡◌, [], ◌∷◌};
    ghost use Rattle.std.specs.Map.{values_of};
    ghost use Rattle.branch_store.specs.Keyed.{AreKeyed};
    ghost use Rattle.branch_store.specs.Store.{changed_table, count_seen, found_rows};
    ghost use Rattle.branch_store.specs.Tables.{Table};

    ghost Value = { Table };

    ghost view = { λ t. record { def = t.def; rows = values_of t.rows.entries } };

    ghost invariant = { λ t. (t.alone ≡ t.def ∷ []) × AreKeyed t.def t.rows.entries };
}

/// A copy of rows with their keys.
fn copied(rows: &BTreeMap<i64, Row>) -> Result<BTreeMap<i64, Row>, AllocError>
    ensures { IfOk result (λ copy. copy.entries ≡ rows.now.entries) }
{
    rows.clone()
}

fn copied_row(row: &Row) -> Result<Row, AllocError>
    ensures { IfOk result (λ copy. copy ≡ row.now) }
{
    row.clone()
}

/// Puts a row under its key.
fn insert_at(rows: &mut BTreeMap<i64, Row>, key: &i64, row: Row) -> Result<(), AllocError>
    ensures put { OnOk result (rows.new.entries ≡ insert_entry int_cmp rows.old.entries key.now row) }
    ensures ordered { IsOrdered int_cmp rows.new }
    ensures unchanged { OnErr result (rows.new.entries ≡ rows.old.entries) }
{
    rows.insert(*key, row)?;
    Ok(())
}

/// Takes the rows with keys from `low` to `high` away.
fn cleared(rows: &mut BTreeMap<i64, Row>, low: &i64, high: &i64)
    ensures left { rows.new.entries ≡ filter (λ e. not (int_le low.now e.0 && int_le e.0 high.now)) rows.old.entries }
    ensures ordered { IsOrdered int_cmp rows.new }
{
    rows.retain(|key, _row| !(*low <= *key && *key <= *high));
}

impl RemoteTable {
    /// A table without rows.
    pub(crate) fn new(alloc: Global, def: TableDef) -> Result<RemoteTable, AllocError>
        ensures { IfOk result (λ table. table ≡ record { def = def; rows = [] }) }
    {
        let mut alone = Listed::new(alloc);
        alone.push(def.clone()?)?;
        Ok(RemoteTable {
            def,
            alone,
            rows: BTreeMap::new(alloc),
        })
    }

    /// The table's definition.
    pub(crate) fn def(&self) -> &TableDef
        ensures { result.now ≡ self.now.def }
    {
        &self.def
    }

    /// The definition as a list of one.
    pub(crate) fn alone(&self) -> &TableDefs
        ensures { result.now ≡ self.now.def ∷ [] }
    {
        &self.alone
    }

    /// Whether the table has this name.
    pub(crate) fn is_called(&self, name: &Name) -> bool
        ensures { result ≡ is_called name.now self.now.def }
    {
        self.def.name == *name
    }

    /// How many rows there are.
    pub(crate) fn len(&self) -> usize
        ensures { result ≡ length self.now.rows }
    {
        self.rows.len()
    }

    /// A copy of this table.
    pub(crate) fn copy(&self) -> Result<RemoteTable, AllocError>
        ensures { IfOk result (λ copy. copy ≡ self.now) }
    {
        let def = self.def.clone()?;
        let alone = self.alone.clone()?;
        let rows = copied(&self.rows)?;
        Ok(RemoteTable { def, alone, rows })
    }

    /// The key of a row; what has none counts as 0.
    fn key<'a>(&self, row: &'a Row) -> &'a i64
        ensures { result.now ≡ key_of self.now.def row.now }
    {
        match row.as_slice().get(self.def.key as usize) {
            Some(Value::Number(key)) => key,
            _ => &0,
        }
    }

    /// Puts a copy of a row in its place.
    fn put(&mut self, row: &Row) -> Result<(), AllocError>
        ensures ok { OnOk result (self.new ≡ record self.old { rows = put_row self.old.def self.old.rows row.now }) }
    {
        let copy = copied_row(row)?;
        let key = self.key(row);
        insert_at(&mut self.rows, key, copy)?;
        Ok(())
    }

    /// Puts rows, one after the other.
    fn put_all(&mut self, rows: &Rows) -> Result<(), AllocError>
        ensures ok { OnOk result (self.new ≡ record self.old { rows = put_all_rows self.old.def self.old.rows rows.now }) }
    {
        for row in rows.as_slice() {
            self.put(row)?;
        }
        Ok(())
    }

    /// Takes the row with this key away, where there is one.
    fn remove(&mut self, key: &i64)
        ensures { self.new ≡ record self.old { rows = without (has_key_in self.old.def (key.now ∷ [])) self.old.rows } }
    {
        let _gone = self.rows.remove(key);
    }

    /// Takes the rows with these keys away.
    pub(crate) fn remove_keys(&mut self, keys: &[i64])
        ensures { self.new ≡ record self.old { rows = without (has_key_in self.old.def keys.now) self.old.rows } }
    {
        for key in keys {
            self.remove(key);
        }
    }

    /// Takes the rows with keys from `low` to `high` away.
    pub(crate) fn clear(&mut self, low: &i64, high: &i64)
        ensures { self.new ≡ record self.old { rows = without (has_key_from self.old.def low.now high.now) self.old.rows } }
    {
        cleared(&mut self.rows, low, high);
    }

    /// Makes a change, where it is one of this table.
    fn change(&mut self, change: &Change) -> Result<(), AllocError>
        ensures ok { OnOk result (self.new ≡ record self.old { rows = changed self.old.def self.old.rows change.now }) }
    {
        match change {
            Change::Put { table, rows } => {
                if self.is_called(table) {
                    self.put_all(rows)
                } else {
                    Ok(())
                }
            }
            Change::Del { table, keys } => {
                if self.is_called(table) {
                    self.remove_keys(keys.as_slice());
                }
                Ok(())
            }
            Change::Clear { table, low, high } => {
                if self.is_called(table) {
                    self.clear(low, high);
                }
                Ok(())
            }
        }
    }

    /// Makes changes, one after the other.
    pub(crate) fn change_all(&mut self, changes: &[Change]) -> Result<(), AllocError>
        ensures ok { OnOk result (self.new ≡ record self.old { rows = after self.old.def changes.now self.old.rows }) }
    {
        for change in changes {
            self.change(change)?;
        }
        Ok(())
    }

    /// The table as it is after these changes.
    pub(crate) fn after(&self, changes: &[Change]) -> Result<RemoteTable, AllocError>
        ensures { IfOk result (λ table. table ≡ record self.now { rows = after self.now.def changes.now self.now.rows }) }
    {
        let mut table = self.copy()?;
        table.change_all(changes)?;
        Ok(table)
    }

    /// Whether a condition, where there is one, holds on a row.
    fn does_hold(&self, cond: &Option<Cond>, row: &Row) -> bool
        ensures { result ≡ holds_on self.now.def cond.now row.now }
    {
        match cond {
            Some(cond) => holds(cond, &self.alone, row),
            None => true,
        }
    }

    /// The first rows on which a condition, where there is one, holds, at most so many.
    fn first(&self, alloc: Global, cond: &Option<Cond>, most: u64) -> Result<Rows, AllocError>
        ensures { IfOk result (λ rows. rows ≡ take most (kept self.now.def cond.now self.now.rows)) }
    {
        let mut rows = Listed::new(alloc);
        for row in self.rows.values() {
            if rows.len() as u64 >= most {
                return Ok(rows);
            }
            if self.does_hold(cond, row) {
                rows.push(copied_row(row)?)?;
            }
        }
        Ok(rows)
    }

    /// Gives the rows, in the order of their keys.
    pub(crate) fn into_rows(self, alloc: Global) -> Result<Rows, AllocError>
        ensures { IfOk result (λ rows. rows ≡ self.rows) }
    {
        let mut rows = Listed::new(alloc);
        for row in self.rows.into_values() {
            rows.push(row)?;
        }
        Ok(rows)
    }

    /// Whether one of these changes is one of this table.
    fn is_changed(&self, changes: &[Change]) -> bool
        ensures { result ≡ list_any (is_of self.now.def) changes.now }
    {
        for change in changes {
            if self.is_of(change) {
                return true;
            }
        }
        false
    }

    fn is_of(&self, change: &Change) -> bool
        ensures { result ≡ is_of self.now.def change.now }
    {
        match change {
            Change::Put { table, rows: _rows } => self.is_called(table),
            Change::Del { table, keys: _keys } => self.is_called(table),
            Change::Clear {
                table,
                low: _low,
                high: _high,
            } => self.is_called(table),
        }
    }

    /// The table as it is after these changes, where one of them is one of this table.
    #[tactic(auto, using(crate::proofs::Turns::not_changed))]
    fn renewed(&self, changes: &[Change]) -> Result<Option<RemoteTable>, AllocError>
        ensures { IfOk result (λ new. unwrap_or new self.now ≡ changed_table changes.now self.now) }
    {
        if self.is_changed(changes) {
            Ok(Some(self.after(changes)?))
        } else {
            Ok(None)
        }
    }

    /// The first rows on which a condition, where there is one, holds, at most so many where there is a limit.
    fn limited(
        &self,
        alloc: Global,
        cond: &Option<Cond>,
        limit: Option<u64>,
    ) -> Result<Rows, AllocError>
        ensures { IfOk result (λ rows. rows ≡ first_rows limit (kept self.now.def cond.now self.now.rows)) }
    {
        match limit {
            Some(most) => self.first(alloc, cond, most),
            None => self.first(alloc, cond, self.len() as u64),
        }
    }

    /// The first rows after these changes on which a condition holds, by a walk over the rows.
    #[tactic(auto, using(crate::proofs::Turns::not_changed))]
    fn found_by_walk(
        &self,
        alloc: Global,
        changes: &[Change],
        cond: &Option<Cond>,
        limit: Option<u64>,
    ) -> Result<Rows, AllocError>
        ensures { IfOk result (λ rows. rows ≡ found_rows changes.now self.now cond.now limit) }
    {
        if self.is_changed(changes) {
            self.after(changes)?.limited(alloc, cond, limit)
        } else {
            self.limited(alloc, cond, limit)
        }
    }

    /// How many rows have one of these keys after these changes.
    pub(crate) fn count_in(&self, changes: &[Change], keys: &[i64]) -> Result<u64, AllocError>
        ensures { IfOk result (λ count. count ≡ count_seen changes.now self.now (has_key_in self.now.def keys.now)) }
    {
        let mut seen = self.after(changes)?;
        let before = seen.len();
        seen.remove_keys(keys);
        Ok((before - seen.len()) as u64)
    }

    /// How many rows have a key from `low` to `high` after these changes.
    pub(crate) fn count_from(
        &self,
        changes: &[Change],
        low: &i64,
        high: &i64,
    ) -> Result<u64, AllocError>
        ensures { IfOk result (λ count. count ≡ count_seen changes.now self.now (has_key_from self.now.def low.now high.now)) }
    {
        let mut seen = self.after(changes)?;
        let before = seen.len();
        seen.clear(low, high);
        Ok((before - seen.len()) as u64)
    }
}

/// Makes these changes in the tables from a place on, or in none of them.
fn change_tables(
    tables: &mut Vec<RemoteTable>,
    place: usize,
    changes: &[Change],
) -> Result<(), AllocError>
    ensures ok { OnOk result (tables.new.items ≡ take place tables.old.items ++ map (changed_table changes.now) (drop place tables.old.items)) }
    ensures err { OnErr result (tables.new.items ≡ tables.old.items) }
{
    if place >= tables.len() {
        return Ok(());
    }
    let renewed = tables[place].renewed(changes)?;
    change_tables(tables, place + 1, changes)?;
    if let Some(table) = renewed {
        tables[place] = table;
    }
    Ok(())
}
