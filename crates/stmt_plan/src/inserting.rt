//! The rows of an INSERT, or why they can't be stored.

ghost use Rattle.std.specs.Prelude.{◌≡◌, ◌⊎◌, map, length, Some, None, IfOk, IfErr, OnOk, true, false};
ghost use Rattle.std.specs.List.{find, zip, position};
ghost use Rattle.std.specs.Option.{option_map};
ghost use Rattle.std.specs.Result.{result_err};
ghost use Rattle.std.specs.Str.{chars};
ghost use Rattle.sql_values.specs.Expressions.{is_big_int as fits_big_int};
ghost use Rattle.sql_values.specs.Storing.{stored, is_within};
ghost use Rattle.stmt_plan.specs.Inserts.{is_named, targets as targets_of, unknown_target, slots as slots_of, has_each_once, miscounted, row_fault, rows_fault, held, slot_value, row_of};
ghost use Rattle.stmt_plan.specs.Slots.{slot_shown, refused_shown};

use crate::StmtFault;
use list_types::Listed;
use sql_text::Names;
use sql_values::{ColumnDef, Kind, Literal, Literals, Name, Row, Rows, StoreFault, Value, store};
use std::alloc::{AllocError, Global};

/// A column of the table, and the place of its literal in a row of the statement.
#[derive(Clone, Copy)]
pub(crate) struct Slot<'a> {
    column: &'a ColumnDef,
    source: usize,
}

/// A literal that can't be stored: in which row, for which column, and why.
#[derive(Drop)]
struct Refused<'a> {
    row: u64,
    column: &'a ColumnDef,
    why: StoreFault,
}

pub(crate) fn find_column<'a>(columns: &'a [ColumnDef], name: &Name) -> Option<&'a ColumnDef>
    ensures { option_map (λ c. c.now) result ≡ find (is_named name.now) columns.now }
{
    columns.iter().find(|column| column.name == *name)
}

/// The columns that a list names.
fn listed<'a>(
    alloc: Global,
    columns: &'a [ColumnDef],
    names: &[Name],
) -> Result<Vec<&'a ColumnDef>, StmtFault>
    ensures columns { IfOk result (λ among. map (λ c. c.now) among.items ≡ targets_of columns.now (Some names.now)) }
    ensures known { OnOk result (unknown_target columns.now (Some names.now) ≡ None) }
    ensures unknown { IfErr result (λ fault. (fault ≡ StmtFault.NoMemory) ⊎ (option_map StmtFault.NoColumn (unknown_target columns.now (Some names.now)) ≡ Some fault)) }
{
    let mut among = Vec::new(alloc);
    for name in names {
        match find_column(columns, name) {
            Some(column) => among.push(column)?,
            None => return Err(StmtFault::NoColumn(name.copy(alloc)?)),
        }
    }
    Ok(among)
}

/// All columns of the table.
fn all<'a>(alloc: Global, columns: &'a [ColumnDef]) -> Result<Vec<&'a ColumnDef>, StmtFault>
    ensures columns { IfOk result (λ among. map (λ c. c.now) among.items ≡ columns.now) }
    ensures err { IfErr result (λ fault. fault ≡ StmtFault.NoMemory) }
{
    let mut among = Vec::new(alloc);
    for column in columns {
        among.push(column)?;
    }
    Ok(among)
}

/// The columns to which the literals of a row go.
pub(crate) fn targets<'a>(
    alloc: Global,
    columns: &'a [ColumnDef],
    names: &Option<Names>,
) -> Result<Vec<&'a ColumnDef>, StmtFault>
    ensures columns { IfOk result (λ among. map (λ c. c.now) among.items ≡ targets_of columns.now names.now) }
    ensures known { OnOk result (unknown_target columns.now names.now ≡ None) }
    ensures unknown { IfErr result (λ fault. (fault ≡ StmtFault.NoMemory) ⊎ (option_map StmtFault.NoColumn (unknown_target columns.now names.now) ≡ Some fault)) }
{
    match names {
        Some(names) => listed(alloc, columns, names.as_slice()),
        None => all(alloc, columns),
    }
}

/// The place of a column in a row of the statement.
fn source(among: &[&ColumnDef], name: &Name) -> Option<usize>
    ensures { result ≡ position (is_named name.now) (map (λ c. c.now) among.now) }
{
    among.iter().position(|column| column.name == *name)
}

/// The places of all columns, where the statement has each column once.
pub(crate) fn slots<'a>(
    alloc: Global,
    columns: &'a [ColumnDef],
    among: &[&ColumnDef],
) -> Result<Vec<Slot<'a>>, StmtFault>
    ensures slots { IfOk result (λ slots. map slot_shown slots.items ≡ slots_of columns.now (map (λ c. c.now) among.now)) }
    ensures once { OnOk result (has_each_once columns.now (map (λ c. c.now) among.now) ≡ true) }
    ensures err { IfErr result (λ fault. (fault ≡ StmtFault.NoMemory) ⊎ ((fault ≡ StmtFault.ColumnCount 1) × (has_each_once columns.now (map (λ c. c.now) among.now) ≡ false))) }
{
    if among.len() != columns.len() {
        return Err(StmtFault::ColumnCount { row: 1 });
    }
    let mut slots = Vec::new(alloc);
    for column in columns {
        match source(among, &column.name) {
            Some(source) => slots.push(Slot { column, source })?,
            None => return Err(StmtFault::ColumnCount { row: 1 }),
        }
    }
    Ok(slots)
}

/// Refuses the first row with another number of literals.
pub(crate) fn count_rows(count: usize, rows: &[Literals]) -> Result<(), StmtFault>
    ensures ok { OnOk result (miscounted count 1 rows.now ≡ None) }
    ensures err { IfErr result (λ fault. miscounted count 1 rows.now ≡ Some fault) }
{
    for (i, literals) in rows.iter().enumerate() {
        if literals.len() != count {
            return Err(StmtFault::ColumnCount { row: i as u64 + 1 });
        }
    }
    Ok(())
}

fn is_big_int(number: &i128) -> bool
    ensures { result ≡ fits_big_int number.now }
{
    i64::try_from(*number).is_ok()
}

fn character_count(text: &str) -> usize
    ensures { result ≡ length (chars text.now) }
{
    text.chars().count()
}

fn fits_text(most: u32, text: &str) -> bool
    ensures { result ≡ is_within most text.now }
{
    text.len() <= 1024 && character_count(text) <= most as usize
}

/// Why a literal can't be stored in a column of this kind. It takes no memory.
pub(crate) fn why_not(literal: &Literal, kind: Kind) -> Option<StoreFault>
    ensures { result ≡ result_err (stored literal.now kind) }
{
    match (literal, kind) {
        (Literal::Null, _) => Some(StoreFault::IsNull),
        (Literal::Number(number), Kind::BigInt) => {
            if is_big_int(number) {
                None
            } else {
                Some(StoreFault::OutOfRange)
            }
        }
        (Literal::Number(_), Kind::VarChar(_)) => Some(StoreFault::TypeMismatch),
        (Literal::Text(_), Kind::BigInt) => Some(StoreFault::TypeMismatch),
        (Literal::Text(text), Kind::VarChar(most)) => {
            if fits_text(most, text.as_str()) {
                None
            } else {
                Some(StoreFault::TooLong)
            }
        }
    }
}

/// The first of a row's literals that can't be stored.
fn refused_in<'a>(row: u64, among: &[&'a ColumnDef], literals: &[Literal]) -> Option<Refused<'a>>
    ensures { option_map refused_shown result ≡ row_fault row (zip (map (λ c. c.now) among.now) literals.now) }
{
    let mut left = literals;
    for column in among {
        let Some((literal, others)) = left.split_first() else {
            return None;
        };
        if let Some(why) = why_not(literal, column.kind) {
            return Some(Refused { row, column, why });
        }
        left = others;
    }
    None
}

/// The first of all rows' literals that can't be stored.
fn first_refused<'a>(among: &[&'a ColumnDef], rows: &[Literals]) -> Option<Refused<'a>>
    ensures { option_map refused_shown result ≡ rows_fault (map (λ c. c.now) among.now) 1 rows.now }
{
    for (i, literals) in rows.iter().enumerate() {
        if let Some(found) = refused_in(i as u64 + 1, among, literals.as_slice()) {
            return Some(found);
        }
    }
    None
}

impl Refused<'_> {
    fn told(&self, alloc: Global) -> Result<StmtFault, AllocError>
        ensures { IfOk result (λ fault. fault ≡ refused_shown self.now) }
    {
        let row = self.row;
        match &self.why {
            StoreFault::IsNull => Ok(StmtFault::IsNull(self.column.name.copy(alloc)?)),
            StoreFault::TypeMismatch => Ok(StmtFault::TypeMismatch),
            StoreFault::OutOfRange => {
                let column = self.column.name.copy(alloc)?;
                Ok(StmtFault::OutOfRange { column, row })
            }
            StoreFault::TooLong => {
                let column = self.column.name.copy(alloc)?;
                Ok(StmtFault::TooLong { column, row })
            }
            StoreFault::NoMemory => Ok(StmtFault::NoMemory),
        }
    }
}

/// Refuses the first literal that can't be stored.
pub(crate) fn check_rows(
    alloc: Global,
    among: &[&ColumnDef],
    rows: &[Literals],
) -> Result<(), StmtFault>
    ensures ok { OnOk result (rows_fault (map (λ c. c.now) among.now) 1 rows.now ≡ None) }
    ensures err { IfErr result (λ fault. (fault ≡ StmtFault.NoMemory) ⊎ (rows_fault (map (λ c. c.now) among.now) 1 rows.now ≡ Some fault)) }
{
    match first_refused(among, rows) {
        Some(found) => Err(found.told(alloc)?),
        None => Ok(()),
    }
}

/// What a column holds of a literal. What is refused, which isn't stored after [`check_rows`], counts as 0.
fn kept(alloc: Global, literal: &Literal, kind: Kind) -> Result<Value, StmtFault>
    ensures value { IfOk result (λ value. value ≡ held (stored literal.now kind)) }
    ensures err { IfErr result (λ fault. fault ≡ StmtFault.NoMemory) }
{
    match store(alloc, literal, kind) {
        Ok(value) => Ok(value),
        Err(StoreFault::NoMemory) => Err(StmtFault::NoMemory),
        Err(_) => Ok(Value::Number(0)),
    }
}

impl Slot<'_> {
    fn value(&self, alloc: Global, literals: &[Literal]) -> Result<Value, StmtFault>
        ensures value { IfOk result (λ value. value ≡ slot_value literals.now (slot_shown self.now)) }
        ensures err { IfErr result (λ fault. fault ≡ StmtFault.NoMemory) }
    {
        match literals.get(self.source) {
            Some(literal) => kept(alloc, literal, self.column.kind),
            None => Ok(Value::Number(0)),
        }
    }
}

fn stored_row(alloc: Global, slots: &[Slot], literals: &[Literal]) -> Result<Row, StmtFault>
    ensures row { IfOk result (λ row. row ≡ row_of (map slot_shown slots.now) literals.now) }
    ensures err { IfErr result (λ fault. fault ≡ StmtFault.NoMemory) }
{
    let mut row = Listed::new(alloc);
    for slot in slots {
        row.push(slot.value(alloc, literals)?)?;
    }
    Ok(row)
}

/// The rows as they are stored: a value for each column of the table, in the table's order.
pub(crate) fn stored_rows(
    alloc: Global,
    slots: &[Slot],
    rows: &[Literals],
) -> Result<Rows, StmtFault>
    ensures rows { IfOk result (λ stored. stored ≡ map (row_of (map slot_shown slots.now)) rows.now) }
    ensures err { IfErr result (λ fault. fault ≡ StmtFault.NoMemory) }
{
    let mut stored = Listed::new(alloc);
    for literals in rows {
        stored.push(stored_row(alloc, slots, literals.as_slice())?)?;
    }
    Ok(stored)
}
