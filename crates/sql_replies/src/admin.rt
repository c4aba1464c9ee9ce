//! Answers to questions about the server.
ghost use Rattle.std.specs.Prelude.{◌≡◌, ◌≤◌, ◌∷◌, [], length, map, IfOk};
ghost use Rattle.std.specs.List.{AllByRecursion};
ghost use Rattle.my_messages.specs.Reply.{HasBytes, DefinitionFits, RowFits};
ghost use Rattle.sql_replies.specs.Errors.{shown as shown_text};
ghost use Rattle.sql_replies.specs.Admin.{system_column, system_row, system_reply, admin_reply as reply_meant};

use crate::errors::{AUTOCOMMIT, shown};
use crate::results::{NOT_NULL, UTF8, VARCHAR};
use list_types::{Listed, Text};
use my_messages::{CellRow, CellRows, Column, Columns, Reply};
use sql_text::Admin;
use sql_values::Name;
use std::alloc::{AllocError, Global};

/// The database that every table is of.
const DATABASE: &str = "spider";

/// The most bytes that are told of a cell.
const LONGEST_CELL: u32 = 4096;

/// The definition of a column that is of no table.
fn column(alloc: Global, name: &str) -> Result<Column, AllocError>
    ensures column { IfOk result (λ column. column ≡ system_column name.now) }
    ensures fits { length name.now ≤ 64 → IfOk result DefinitionFits }
{
    Ok(Column {
        schema: Text::from_str(alloc, "")?,
        table: Text::from_str(alloc, "")?,
        org_table: Text::from_str(alloc, "")?,
        name: Text::from_str(alloc, name)?,
        org_name: Text::from_str(alloc, "")?,
        charset: UTF8,
        length: LONGEST_CELL,
        kind: VARCHAR,
        flags: NOT_NULL,
    })
}

fn columns(alloc: Global, name: &str) -> Result<Columns, AllocError>
    ensures columns { IfOk result (λ columns. columns ≡ system_column name.now ∷ []) }
    ensures fit { length name.now ≤ 64 → IfOk result (AllByRecursion DefinitionFits) }
{
    let mut columns = Listed::new(alloc);
    columns.push(column(alloc, name)?)?;
    Ok(columns)
}

/// A text of at most 64 bytes in a row of its own.
fn row(alloc: Global, text: &str) -> Result<CellRow, AllocError>
    ensures row { IfOk result (λ row. row ≡ system_row text.now) }
    ensures fits { length text.now ≤ 64 → IfOk result (RowFits 1) }
{
    let mut row = Listed::new(alloc);
    row.push(Some(Text::from_str(alloc, text)?))?;
    Ok(row)
}

fn name_rows(alloc: Global, names: &[Name]) -> Result<CellRows, AllocError>
    ensures rows { IfOk result (λ rows. rows ≡ map system_row (map shown_text names.now)) }
    ensures fit { IfOk result (AllByRecursion (RowFits 1)) }
{
    let mut rows = Vec::with_capacity(alloc, names.len())?;
    for name in names {
        rows.push(row(alloc, shown(name.as_str()))?)?;
    }
    Ok(Listed::from_vec(rows))
}

fn one_row(alloc: Global, text: &str) -> Result<CellRows, AllocError>
    ensures rows { IfOk result (λ rows. rows ≡ system_row text.now ∷ []) }
    ensures fit { length text.now ≤ 64 → IfOk result (AllByRecursion (RowFits 1)) }
{
    let mut rows = Listed::new(alloc);
    rows.push(row(alloc, text)?)?;
    Ok(rows)
}

/// One text, in a column of this name.
fn told(alloc: Global, name: &str, text: &str) -> Result<Reply, AllocError>
    requires name { length name.now ≤ 64 }
    requires text { length text.now ≤ 64 }
    ensures reply { IfOk result (λ reply. reply ≡ system_reply name.now (text.now ∷ [])) }
    ensures bytes { IfOk result HasBytes }
{
    Ok(Reply::Rows {
        columns: columns(alloc, name)?,
        rows: one_row(alloc, text)?,
        status: AUTOCOMMIT,
    })
}

/// The tables, in their order.
fn tables_told(alloc: Global, tables: &[Name]) -> Result<Reply, AllocError>
    ensures reply { IfOk result (λ reply. reply ≡ reply_meant tables.now Admin.ShowTables) }
    ensures bytes { IfOk result HasBytes }
{
    Ok(Reply::Rows {
        columns: columns(alloc, "Tables_in_spider")?,
        rows: name_rows(alloc, tables)?,
        status: AUTOCOMMIT,
    })
}

/// The answer of a front with these tables, in this order, to a question about it.
pub fn admin_reply(alloc: Global, tables: &[Name], admin: Admin) -> Result<Reply, AllocError>
    ensures reply { IfOk result (λ reply. reply ≡ reply_meant tables.now admin) }
    ensures bytes { IfOk result HasBytes }
{
    match admin {
        Admin::ShowTables => tables_told(alloc, tables),
        Admin::ShowDatabases => told(alloc, "Database", DATABASE),
        Admin::VersionComment => told(alloc, "@@version_comment", "spider front"),
        Admin::Database => told(alloc, "DATABASE()", DATABASE),
    }
}
