//! Whether a table is one that statements can be planned on.

ghost use Rattle.std.specs.Prelude.{◌≡◌, ◌↔◌, IsTrue};
ghost use Rattle.stmt_plan.specs.Apart.{are_apart, has_number_key};
ghost use Rattle.stmt_plan.specs.Plans.{IsTable};

use crate::inserting::find_column;
use sql_values::{ColumnDef, Kind, TableDef};

fn names_differ(columns: &[ColumnDef]) -> bool
    ensures { result ≡ are_apart columns.now }
{
    for (i, column) in columns.iter().enumerate() {
        if find_column(columns.split_at(i + 1).1, &column.name).is_some() {
            return false;
        }
    }
    true
}

fn has_key(table: &TableDef) -> bool
    ensures { result ≡ has_number_key table.now }
{
    match table.columns.as_slice().get(table.key as usize) {
        Some(column) => column.kind == Kind::BigInt,
        None => false,
    }
}

/// Whether the names of the table's columns differ, there are fewer than 2^32, and the key column is a BIGINT. [`plan_on`](crate::plan_on) asks that of
/// its table. The cost is quadratic in the number of columns.
pub fn is_table(table: &TableDef) -> bool
    ensures { IsTrue result ↔ IsTable table.now }
{
    let columns = table.columns.as_slice();
    if columns.len() > u32::MAX as usize {
        return false;
    }
    if !has_key(table) {
        return false;
    }
    names_differ(columns)
}
