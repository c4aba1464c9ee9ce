//! A table's columns and its key.
ghost use Rattle.std.specs.Prelude.{◌≡◌, ◌+◌, IfOk, Option};
ghost use Rattle.std.specs.List.{list_any};
ghost use Rattle.std.specs.Option.{option_map};
ghost use Rattle.catalog.specs.Columns.{column_text as column_written, columns_of as columns_read, is_named as named, is_big_int as big_int, key_from as key_found, key_place as key_at, keyed as with_key, def_of as defined_by, key_of as key_read};
ghost use Rattle.catalog.specs.Searches.{name_of as name_meant};

use conf_file::{TableEntry, read_column};
use list_types::{Listed, Text};
use sql_values::{ColumnDef, ColumnDefs, Kind, Name, TableDef};
use std::alloc::{AllocError, Global};

/// The name that a text is.
pub(crate) fn name_of(alloc: Global, text: &Text) -> Result<Option<Name>, AllocError>
    ensures { IfOk result (λ found. found ≡ name_meant text.now) }
{
    let copy = Text::from_str(alloc, text.as_str())?;
    match Name::from_text(copy) {
        Ok(name) => Ok(Some(name)),
        Err(_text) => Ok(None),
    }
}

/// The column that a text writes.
#[tactic(auto, unfolding(crate::specs::Columns::column_text))]
pub(crate) fn column_text(alloc: Global, text: &Text) -> Result<Option<ColumnDef>, AllocError>
    ensures { IfOk result (λ found. found ≡ column_written text.now) }
{
    read_column(alloc, text.as_str())
}

/// The columns of an entry, where each has its form.
pub(crate) fn columns_of(
    alloc: Global,
    table: &TableEntry,
) -> Result<Option<ColumnDefs>, AllocError>
    ensures { IfOk result (λ found. found ≡ columns_read table.now) }
{
    let mut columns = Listed::new(alloc);
    for text in table.columns.as_slice() {
        match column_text(alloc, text)? {
            Some(column) => columns.push(column)?,
            None => return Ok(None),
        }
    }
    Ok(Some(columns))
}

fn is_named(name: &Text, column: &ColumnDef) -> bool
    ensures { result ≡ named name.now column.now }
{
    column.name.as_str() == name.as_str()
}

fn is_big_int(kind: Kind) -> bool
    ensures { result ≡ big_int kind }
{
    match kind {
        Kind::BigInt => true,
        Kind::VarChar(_most) => false,
    }
}

fn has_named(name: &Text, columns: &[ColumnDef]) -> bool
    ensures { result ≡ list_any (named name.now) columns.now }
{
    for column in columns {
        if is_named(name, column) {
            return true;
        }
    }
    false
}

/// The place of the only column of this name, where it is a BIGINT.
fn key_from(name: &Text, columns: &[ColumnDef]) -> Option<usize>
    ensures { result ≡ key_found name.now columns.now }
{
    for (i, column) in columns.iter().enumerate() {
        if is_named(name, column) {
            if is_big_int(column.kind) && !has_named(name, columns.split_at(i + 1).1) {
                return Some(i);
            }
            return None;
        }
    }
    None
}

/// The place of the key among these columns.
fn key_place(name: &Text, columns: &[ColumnDef]) -> Option<u32>
    ensures { result ≡ key_at name.now columns.now }
{
    match key_from(name, columns) {
        Some(place) => u32::try_from(place).ok(),
        None => None,
    }
}

/// The place of the key, where the columns are read.
pub(crate) fn key_of(alloc: Global, table: &TableEntry) -> Result<Option<u32>, AllocError>
    ensures { IfOk result (λ found. found ≡ key_read table.now) }
{
    match columns_of(alloc, table)? {
        Some(columns) => Ok(key_place(&table.key, columns.as_slice())),
        None => Ok(None),
    }
}

/// The definition that an entry gives.
#[tactic(auto, unfolding(crate::specs::Columns::def_of))]
pub(crate) fn def_of(alloc: Global, table: &TableEntry) -> Result<Option<TableDef>, AllocError>
    ensures { IfOk result (λ found. found ≡ defined_by table.now) }
{
    let Some(name) = name_of(alloc, &table.name)? else {
        return Ok(None);
    };
    let Some(columns) = columns_of(alloc, table)? else {
        return Ok(None);
    };
    match key_place(&table.key, columns.as_slice()) {
        Some(key) => Ok(Some(TableDef { name, columns, key })),
        None => Ok(None),
    }
}
