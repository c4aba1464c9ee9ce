//! Which tables a backend can have.

ghost use Rattle.std.specs.Prelude.{◌≡◌, ◌&&◌};
ghost use Rattle.std.specs.List.{list_all, list_any};
ghost use Rattle.stmt_plan.specs.Apart.{has_number_key};
ghost use Rattle.branch_store.specs.Changes.{is_called};
ghost use Rattle.branch_store.specs.Opening.{are_apart, are_tables as are_definitions, is_definition as may_be};

use sql_values::{Kind, Name, TableDef, TableDefs};

/// The most columns of a table.
pub const MOST_COLUMNS: usize = 16;

fn is_among(name: &Name, tables: &[TableDef]) -> bool
    ensures { result ≡ list_any (is_called name.now) tables.now }
{
    for table in tables {
        if table.name == *name {
            return true;
        }
    }
    false
}

fn names_differ(tables: &[TableDef]) -> bool
    ensures { result ≡ are_apart tables.now }
{
    for (i, table) in tables.iter().enumerate() {
        if is_among(&table.name, tables.split_at(i + 1).1) {
            return false;
        }
    }
    true
}

fn has_key(table: &TableDef) -> bool
    ensures { result ≡ has_number_key table.now }
{
    match table.columns.as_slice().get(table.key as usize) {
        Some(column) => column.kind == Kind::BigInt,
        None => false,
    }
}

fn is_definition(table: &TableDef) -> bool
    ensures { result ≡ may_be table.now }
{
    table.columns.len() <= MOST_COLUMNS && has_key(table)
}

fn all_are_definitions(tables: &[TableDef]) -> bool
    ensures { result ≡ list_all may_be tables.now }
{
    for table in tables {
        if !is_definition(table) {
            return false;
        }
    }
    true
}

/// Whether a backend can have these tables: their names differ, none has more than 16 columns, and the key of each is the place of one of its BIGINT
/// columns. The cost is quadratic in the number of tables.
pub fn are_tables(tables: &TableDefs) -> bool
    ensures { result ≡ are_definitions tables.now }
{
    names_differ(tables.as_slice()) && all_are_definitions(tables.as_slice())
}
