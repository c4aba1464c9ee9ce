//! Rows and aggregates, with the definitions of their columns.
ghost use Rattle.std.specs.Prelude.{◌≡◌, ◌≤◌, ◌<◌, true, length, map, IfOk};
ghost use Rattle.std.specs.Fmt.{signed_decimal};
ghost use Rattle.std.specs.List.{list_all, AllByRecursion};
ghost use Rattle.my_messages.specs.Reply.{HasBytes, DefinitionFits, RowFits, cell_bytes};
ghost use Rattle.txn_phases.specs.Phases.{is_short};
ghost use Rattle.sql_replies.specs.Errors.{shown as shown_text};
ghost use Rattle.sql_replies.specs.Results.{charset_of, length_of, type_of, flags_of, kind_at as kind_meant, name_at as name_meant, column_of, text_of, cell_of, cells_of, rows_reply, shown_call as call_shown, result_type, result_charset, result_length, result_flags, cell_column_of, cells_reply};
ghost use Rattle.sql_replies.specs.Outcomes.{AreFewPicks, AreFewCells, are_short_rows};

use crate::errors::{AUTOCOMMIT, shown};
use front_rows::{AggFun, Aggregate};
use list_types::{Listed, Text};
use my_messages::{Cell, CellRow, CellRows, Column, Columns, Reply};
use sql_values::{ColumnDef, Kind, Name, Row, TableDef, Value};
use std::alloc::{AllocError, Global};
use stmt_plan::{CellColumn, Pick, Picks};

/// The character set number of UTF-8 texts.
pub(crate) const UTF8: u16 = 45;

/// The character set number of numbers.
const BINARY: u16 = 63;

/// The type byte of a BIGINT (`MYSQL_TYPE_LONGLONG`).
const BIGINT: u8 = 8;

/// The type byte of a VARCHAR (`MYSQL_TYPE_VAR_STRING`).
pub(crate) const VARCHAR: u8 = 0xfd;

/// The type byte of a number of any length (`MYSQL_TYPE_NEWDECIMAL`).
const DECIMAL: u8 = 0xf6;

/// The flag of a column that holds no NULL (`NOT_NULL_FLAG`).
pub(crate) const NOT_NULL: u16 = 1;

/// The flags of the key column, which has `PRI_KEY_FLAG` too.
const KEY: u16 = 3;

/// The most bytes of a call's text.
const LONGEST_CALL: usize = 134;

fn charset(kind: Kind) -> u16
    ensures { result ≡ charset_of kind }
{
    match kind {
        Kind::BigInt => BINARY,
        Kind::VarChar(_) => UTF8,
    }
}

/// The most bytes of a cell.
fn longest(kind: Kind) -> u32
    ensures { result ≡ length_of kind }
{
    match kind {
        Kind::BigInt => 20,
        Kind::VarChar(most) => most.saturating_mul(4),
    }
}

fn type_byte(kind: Kind) -> u8
    ensures { result ≡ type_of kind }
{
    match kind {
        Kind::BigInt => BIGINT,
        Kind::VarChar(_) => VARCHAR,
    }
}

fn flags(table: &TableDef, place: u32) -> u16
    ensures { result ≡ flags_of table.now place }
{
    if place == table.key { KEY } else { NOT_NULL }
}

fn kind_at(columns: &[ColumnDef], place: u32) -> Kind
    ensures { result ≡ kind_meant columns.now place }
{
    match columns.get(place as usize) {
        Some(column) => column.kind,
        None => Kind::BigInt,
    }
}

fn name_text(alloc: Global, name: &Name) -> Result<Text, AllocError>
    ensures text { IfOk result (λ text. text ≡ shown_text name.now) }
    ensures short { IfOk result (λ text. length text ≤ 64) }
{
    Text::from_str(alloc, shown(name.as_str()))
}

/// The own name of the column at a place.
fn name_at(alloc: Global, columns: &[ColumnDef], place: u32) -> Result<Text, AllocError>
    ensures text { IfOk result (λ text. text ≡ name_meant columns.now place) }
    ensures short { IfOk result (λ text. length text ≤ 64) }
{
    match columns.get(place as usize) {
        Some(column) => name_text(alloc, &column.name),
        None => Text::from_str(alloc, ""),
    }
}

/// A column of the answer.
fn column(alloc: Global, table: &TableDef, known: &Name, pick: &Pick) -> Result<Column, AllocError>
    ensures column { IfOk result (λ column. column ≡ column_of table.now known.now pick.now) }
    ensures fits { IfOk result DefinitionFits }
{
    let kind = kind_at(table.columns.as_slice(), pick.column);
    Ok(Column {
        schema: Text::from_str(alloc, "spider")?,
        table: name_text(alloc, known)?,
        org_table: name_text(alloc, &table.name)?,
        name: name_text(alloc, &pick.name)?,
        org_name: name_at(alloc, table.columns.as_slice(), pick.column)?,
        charset: charset(kind),
        length: longest(kind),
        kind: type_byte(kind),
        flags: flags(table, pick.column),
    })
}

/// The columns of the answer.
fn columns(
    alloc: Global,
    table: &TableDef,
    known: &Name,
    picks: &[Pick],
) -> Result<Columns, AllocError>
    ensures columns { IfOk result (λ columns. columns ≡ map (column_of table.now known.now) picks.now) }
    ensures fit { IfOk result (AllByRecursion DefinitionFits) }
{
    let mut columns = Vec::with_capacity(alloc, picks.len())?;
    for pick in picks {
        columns.push(column(alloc, table, known, pick)?)?;
    }
    Ok(Listed::from_vec(columns))
}

/// A number in decimal.
fn number_text(alloc: Global, number: i64) -> Result<Text, AllocError>
    ensures text { IfOk result (λ text. text ≡ signed_decimal number) }
    ensures short { IfOk result (λ text. length text ≤ 20) }
{
    Ok(Text::from_string(number.to_string(alloc)?))
}

/// A value as the text of a cell.
fn value_text(alloc: Global, value: &Value) -> Result<Text, AllocError>
    ensures text { IfOk result (λ text. text ≡ text_of value.now) }
    ensures short { is_short value.now ≡ true → IfOk result (λ text. length text ≤ 1024) }
{
    match value {
        Value::Number(number) => number_text(alloc, *number),
        Value::Text(text) => Text::from_str(alloc, text.as_str()),
    }
}

/// A cell of a row. No row has NULLs: the column that a pick names is there.
fn cell(alloc: Global, row: &[Value], pick: &Pick) -> Result<Cell, AllocError>
    ensures cell { IfOk result (λ cell. cell ≡ cell_of row.now pick.now) }
    ensures fits { list_all is_short row.now ≡ true → IfOk result (λ cell. length (cell_bytes cell) ≤ 1027) }
{
    match row.get(pick.column as usize) {
        Some(value) => Ok(Some(value_text(alloc, value)?)),
        None => Ok(None),
    }
}

/// The cells of a row.
fn cells(alloc: Global, row: &[Value], picks: &[Pick]) -> Result<CellRow, AllocError>
    ensures cells { IfOk result (λ cells. cells ≡ cells_of picks.now row.now) }
    ensures fits { length picks.now ≤ 900 → list_all is_short row.now ≡ true → IfOk result (RowFits (length picks.now)) }
{
    let mut cells = Vec::with_capacity(alloc, picks.len())?;
    for pick in picks {
        cells.push(cell(alloc, row, pick)?)?;
    }
    Ok(Listed::from_vec(cells))
}

/// The cells of each row.
fn all_cells(alloc: Global, rows: &[Row], picks: &[Pick]) -> Result<CellRows, AllocError>
    ensures cells { IfOk result (λ all. all ≡ map (cells_of picks.now) rows.now) }
    ensures fits { length picks.now ≤ 900 → are_short_rows rows.now ≡ true → IfOk result (AllByRecursion (RowFits (length picks.now))) }
{
    let mut all = Vec::with_capacity(alloc, rows.len())?;
    for row in rows {
        all.push(cells(alloc, row.as_slice(), picks)?)?;
    }
    Ok(Listed::from_vec(all))
}

/// These columns of these rows of the table.
pub(crate) fn shown_rows(
    alloc: Global,
    table: &TableDef,
    picks: &Picks,
    rows: &[Row],
) -> Result<Reply, AllocError>
    ensures reply { IfOk result (λ reply. reply ≡ rows_reply table.now picks.now rows.now) }
    ensures bytes { AreFewPicks picks.now → are_short_rows rows.now ≡ true → IfOk result HasBytes }
{
    Ok(Reply::Rows {
        columns: columns(alloc, table, &picks.table, picks.picks.as_slice())?,
        rows: all_cells(alloc, rows, picks.picks.as_slice())?,
        status: AUTOCOMMIT,
    })
}

/// A call's text; nothing in place of one that is longer than any call's.
fn shown_call(text: &str) -> &str
    ensures text { result.now ≡ call_shown text.now }
    ensures short { length result.now ≤ 134 }
{
    if text.len() <= LONGEST_CALL { text } else { "" }
}

fn result_byte(aggregate: &Aggregate) -> u8
    ensures { result ≡ result_type aggregate.now.fun aggregate.now.kind }
{
    match aggregate.fun {
        AggFun::Count => BIGINT,
        AggFun::Sum => DECIMAL,
        AggFun::Min | AggFun::Max => type_byte(aggregate.kind),
    }
}

fn result_set(aggregate: &Aggregate) -> u16
    ensures { result ≡ result_charset aggregate.now.fun aggregate.now.kind }
{
    match aggregate.fun {
        AggFun::Count | AggFun::Sum => BINARY,
        AggFun::Min | AggFun::Max => charset(aggregate.kind),
    }
}

fn result_longest(aggregate: &Aggregate) -> u32
    ensures { result ≡ result_length aggregate.now.fun aggregate.now.kind }
{
    match aggregate.fun {
        AggFun::Count => 20,
        AggFun::Sum => 41,
        AggFun::Min | AggFun::Max => longest(aggregate.kind),
    }
}

/// Only a count is never NULL.
fn result_bits(fun: AggFun) -> u16
    ensures { result ≡ result_flags fun }
{
    match fun {
        AggFun::Count => NOT_NULL,
        AggFun::Sum | AggFun::Min | AggFun::Max => 0,
    }
}

/// A column of the answer that is no column of a table.
fn cell_column(alloc: Global, column: &CellColumn) -> Result<Column, AllocError>
    ensures column { IfOk result (λ shown. shown ≡ cell_column_of column.now) }
    ensures fits { IfOk result DefinitionFits }
{
    Ok(Column {
        schema: Text::from_str(alloc, "")?,
        table: Text::from_str(alloc, "")?,
        org_table: Text::from_str(alloc, "")?,
        name: Text::from_str(alloc, shown_call(column.name.as_str()))?,
        org_name: Text::from_str(alloc, "")?,
        charset: result_set(&column.aggregate),
        length: result_longest(&column.aggregate),
        kind: result_byte(&column.aggregate),
        flags: result_bits(column.aggregate.fun),
    })
}

fn cell_columns(alloc: Global, list: &[CellColumn]) -> Result<Columns, AllocError>
    ensures columns { IfOk result (λ columns. columns ≡ map cell_column_of list.now) }
    ensures fit { IfOk result (AllByRecursion DefinitionFits) }
{
    let mut columns = Vec::with_capacity(alloc, list.len())?;
    for column in list {
        columns.push(cell_column(alloc, column)?)?;
    }
    Ok(Listed::from_vec(columns))
}

fn copied(cells: &CellRow) -> Result<CellRow, AllocError>
    ensures { IfOk result (λ copy. copy ≡ cells.now) }
{
    cells.clone()
}

/// These aggregates, as one row.
pub(crate) fn shown_cells(
    alloc: Global,
    columns: &[CellColumn],
    cells: &CellRow,
) -> Result<Reply, AllocError>
    ensures reply { IfOk result (λ reply. reply ≡ cells_reply columns.now cells.now) }
    ensures bytes { AreFewCells columns.now cells.now → IfOk result HasBytes }
{
    let mut rows = Listed::new(alloc);
    rows.push(copied(cells)?)?;
    Ok(Reply::Rows {
        columns: cell_columns(alloc, columns)?,
        rows,
        status: AUTOCOMMIT,
    })
}
