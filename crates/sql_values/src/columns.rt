//! What a name of a column means among the columns of tables.

ghost use Rattle.std.specs.Prelude.{◌≡◌, ◌-◌, ◌^◌, [], ◌∷◌, count_by, length, drop, find, min, nat_eq};
ghost use Rattle.std.specs.List.{zip};
ghost use Rattle.std.specs.Option.{option_map};
ghost use Rattle.std.specs.Cmp.Lexicographic.{pointwise};
ghost use Rattle.sql_values.specs.Columns.{may_qualify, columns_meant, column_kind as kind_among, column_value as value_among};

use crate::{ColumnDef, ColumnName, Kind, Name, TableDef, Value};

fn is_qualified_by(qualifier: &Option<Name>, table: &Name) -> bool
    ensures { result ≡ may_qualify qualifier.now table.now }
{
    match qualifier {
        Some(qualifier) => qualifier == table,
        None => true,
    }
}

fn count_in(name: &Name, columns: &[ColumnDef]) -> usize
    ensures { result ≡ count_by (λ c. pointwise nat_eq c.name name.now) columns.now }
{
    columns.iter().filter(|column| column.name == *name).count()
}

fn kind_in(name: &Name, columns: &[ColumnDef]) -> Option<Kind>
    ensures { result ≡ option_map (λ c. c.kind) (find (λ c. pointwise nat_eq c.name name.now) columns.now) }
{
    columns
        .iter()
        .find(|column| column.name == *name)
        .map(|column| column.kind)
}

fn value_in<'a>(name: &Name, columns: &[ColumnDef], values: &'a [Value]) -> Option<&'a Value>
    ensures { option_map (λ v. v.now) result ≡ option_map (λ cell. cell.1) (find (λ cell. pointwise nat_eq cell.0.name name.now) (zip columns.now values.now)) }
{
    let mut left = values;
    for column in columns {
        let Some((value, others)) = left.split_first() else {
            return None;
        };
        if column.name == *name {
            return Some(value);
        }
        left = others;
    }
    None
}

fn behind(values: &[Value], count: usize) -> &[Value]
    ensures { result.now ≡ drop count values.now }
{
    if count <= values.len() {
        values.split_at(count).1
    } else {
        &[]
    }
}

#[tactic(auto, using(crate::proofs::Lookups::lookups))]
fn count_of_table(name: &ColumnName, table: &TableDef) -> usize
    ensures { result ≡ length (columns_meant name.now (table.now ∷ [])) }
{
    if is_qualified_by(&name.table, &table.name) {
        count_in(&name.column, table.columns.as_slice())
    } else {
        0
    }
}

#[tactic(auto, using(crate::proofs::Lookups::lookups))]
fn kind_of_table(name: &ColumnName, table: &TableDef) -> Option<Kind>
    ensures { result ≡ kind_among (table.now ∷ []) name.now }
{
    if is_qualified_by(&name.table, &table.name) {
        kind_in(&name.column, table.columns.as_slice())
    } else {
        None
    }
}

#[tactic(auto, using(crate::proofs::Lookups::lookups))]
fn value_of_table<'a>(name: &ColumnName, table: &TableDef, row: &'a [Value]) -> Option<&'a Value>
    ensures { option_map (λ v. v.now) result ≡ value_among (table.now ∷ []) row.now name.now }
{
    if is_qualified_by(&name.table, &table.name) {
        value_in(&name.column, table.columns.as_slice(), row)
    } else {
        None
    }
}

/// How many columns the name may mean.
#[tactic(auto, using(crate::proofs::Lookups::lookups))]
pub(crate) fn count_meant(name: &ColumnName, tables: &[TableDef]) -> usize
    ensures { result ≡ min (length (columns_meant name.now tables.now)) (2 ^ 64 - 1) }
{
    let mut count: usize = 0;
    for table in tables {
        count = count.saturating_add(count_of_table(name, table));
    }
    count
}

/// The kind of the first column that the name may mean.
#[tactic(auto, using(crate::proofs::Lookups::lookups))]
pub(crate) fn column_kind(name: &ColumnName, tables: &[TableDef]) -> Option<Kind>
    ensures { result ≡ kind_among tables.now name.now }
{
    for table in tables {
        if let Some(kind) = kind_of_table(name, table) {
            return Some(kind);
        }
    }
    None
}

/// The value that a row of these tables has in that column.
#[tactic(auto, using(crate::proofs::Lookups::lookups))]
pub(crate) fn column_value<'a>(
    name: &ColumnName,
    tables: &[TableDef],
    row: &'a [Value],
) -> Option<&'a Value>
    ensures { option_map (λ v. v.now) result ≡ value_among tables.now row.now name.now }
{
    let mut left = row;
    for table in tables {
        if let Some(value) = value_of_table(name, table, left) {
            return Some(value);
        }
        left = behind(left, table.columns.len());
    }
    None
}
