//! What an UPDATE makes of the rows that were found.
ghost use Rattle.std.specs.Prelude.{◌≡◌, ◌⊎◌, ◌++◌, IfOk, IfErr, Some, Ok, Err};
ghost use Rattle.sql_values.specs.Conditions.{literal_of as literal_meant};
ghost use Rattle.plain_tables.specs.Updates.{fault_in_row as fault_meant, set_to, held_in, with_value as value_put, set_one as one_set, set_all as all_set, is_same_row};
ghost use Rattle.txn_phases.specs.Changes.{told, change_of};
ghost use Rattle.txn_phases.specs.Deeds.{changes_of as changes_meant};

use crate::{PlacedRows, Placing};
use list_types::Listed;
use sql_values::{ColumnDef, Literal, Row, StoreFault, TableDef, Value, ValueFault, eval, store};
use std::alloc::{AllocError, Global};
use stmt_plan::{RowFault, SetColumn, SetColumns};

/// Columns of a table's rows that are set, one after the other.
#[derive(Debug, Drop)]
pub struct Changing {
    pub table: TableDef,
    /// In which partitions its rows lie.
    pub rule: Placing,
    pub sets: SetColumns,
}

/// Why rows can't be changed.
#[derive(Debug, Drop)]
pub(crate) enum ChangeFault {
    /// One of them can't be changed so.
    Refused(RowFault),
    /// There wasn't enough memory.
    NoMemory,
}

impl From<AllocError> for ChangeFault {
    ghost use Rattle.std.specs.Prelude.{◌≡◌};
    ghost use Rattle.txn_phases.specs.declared.changing.ChangeFault.TheVariants.{NoMemory};

    ghost from_gives = { λ _ fault. fault ≡ NoMemory };

    fn from(_error: AllocError) -> ChangeFault {
        ChangeFault::NoMemory
    }
}

/// A value as a literal.
fn literal_of(value: Value) -> Literal
    ensures { result ≡ literal_meant value }
{
    match value {
        Value::Number(number) => Literal::Number(i128::from(number)),
        Value::Text(text) => Literal::Text(text),
    }
}

/// Why a column can't hold a literal in the row of this number.
fn fault_in_row(
    alloc: Global,
    column: &ColumnDef,
    number: u64,
    fault: &StoreFault,
) -> Result<RowFault, AllocError>
    ensures { IfOk result (λ told. told ≡ fault_meant column.now.name number fault.now) }
{
    let row = number;
    let column = column.name.copy(alloc)?;
    match fault {
        StoreFault::TooLong => Ok(RowFault::TooLong { column, row }),
        StoreFault::IsNull
        | StoreFault::TypeMismatch
        | StoreFault::OutOfRange
        | StoreFault::NoMemory => Ok(RowFault::OutOfRange { column, row }),
    }
}

/// What a column holds of a literal in the row of this number.
#[tactic(auto, using(crate::proofs::Changed::literal_held, crate::proofs::Changed::literal_told))]
fn stored_in(
    alloc: Global,
    column: &ColumnDef,
    number: u64,
    literal: &Literal,
) -> Result<Value, ChangeFault>
    ensures value { IfOk result (λ value. held_in column.now number (Some literal.now) ≡ Ok value) }
    ensures fault { IfErr result (λ fault. (fault ≡ ChangeFault.NoMemory) ⊎ (told (held_in column.now number (Some literal.now)) ≡ Err fault)) }
{
    match store(alloc, literal, column.kind) {
        Ok(value) => Ok(value),
        Err(StoreFault::NoMemory) => Err(ChangeFault::NoMemory),
        Err(fault) => {
            let told = fault_in_row(alloc, column, number, &fault)?;
            Err(ChangeFault::Refused(told))
        }
    }
}

/// What a column holds of what it is set to, on the row of this number.
fn held_of(
    alloc: Global,
    def: &TableDef,
    column: &ColumnDef,
    number: u64,
    set: &SetColumn,
    row: &Row,
) -> Result<Value, ChangeFault>
    ensures value { IfOk result (λ held. held_in column.now number (set_to def.now row.now set.now.value) ≡ Ok held) }
    ensures fault { IfErr result (λ fault. (fault ≡ ChangeFault.NoMemory) ⊎ (told (held_in column.now number (set_to def.now row.now set.now.value)) ≡ Err fault)) }
{
    if let Some(literal) = set.lone_literal() {
        return stored_in(alloc, column, number, literal);
    }
    match eval(alloc, &set.value, def, row) {
        Ok(value) => stored_in(alloc, column, number, &literal_of(value)),
        Err(ValueFault::OutOfRange) => Err(ChangeFault::Refused(RowFault::Arithmetic)),
        Err(ValueFault::NoMemory) => Err(ChangeFault::NoMemory),
    }
}

/// The row with this value in that place.
#[tactic(auto, using(crate::proofs::Places::value_here, crate::proofs::Places::value_past))]
fn with_value(row: Row, place: u32, value: Value) -> Row
    ensures { result ≡ value_put row place value }
{
    let place = place as usize;
    let mut values = row.into_vec();
    if place < values.len() {
        values[place] = value;
        return Listed::from_vec(values);
    }
    Listed::from_vec(values)
}

/// The row of this number with one column set.
#[tactic(auto, using(crate::proofs::Changed::column_set, crate::proofs::Changed::column_told))]
fn set_one(
    alloc: Global,
    def: &TableDef,
    number: u64,
    set: &SetColumn,
    row: Row,
) -> Result<Row, ChangeFault>
    ensures row { IfOk result (λ new. one_set def.now number set.now row ≡ Ok new) }
    ensures fault { IfErr result (λ fault. (fault ≡ ChangeFault.NoMemory) ⊎ (told (one_set def.now number set.now row) ≡ Err fault)) }
{
    let Some(column) = def.columns.as_slice().get(set.column as usize) else {
        return Ok(row);
    };
    let value = held_of(alloc, def, column, number, set, &row)?;
    Ok(with_value(row, set.column, value))
}

fn copied(row: &Row) -> Result<Row, ChangeFault>
    ensures row { IfOk result (λ copy. copy ≡ row.now) }
    ensures fault { IfErr result (λ fault. fault ≡ ChangeFault.NoMemory) }
{
    Ok(row.clone()?)
}

/// The row of this number with all columns set, each on the row as the earlier ones left it.
#[tactic(auto, using(crate::proofs::Changed::row_next, crate::proofs::Changed::row_told))]
fn set_all(
    alloc: Global,
    def: &TableDef,
    number: u64,
    sets: &[SetColumn],
    row: &Row,
) -> Result<Row, ChangeFault>
    ensures row { IfOk result (λ new. all_set def.now number sets.now row.now ≡ Ok new) }
    ensures fault { IfErr result (λ fault. (fault ≡ ChangeFault.NoMemory) ⊎ (told (all_set def.now number sets.now row.now) ≡ Err fault)) }
{
    let mut new = copied(row)?;
    for set in sets {
        match set_one(alloc, def, number, set, new) {
            Ok(changed) => new = changed,
            Err(fault) => return Err(fault),
        }
    }
    Ok(new)
}

fn is_same(a: &Row, b: &Row) -> bool
    ensures { result ≡ is_same_row a.now b.now }
{
    *a == *b
}

/// Adds the new row, unless it is the old one.
fn push_changed(
    changes: &mut PlacedRows,
    changing: &Changing,
    old: &Row,
    new: Row,
) -> Result<(), AllocError>
    ensures { IfOk result (λ _. changes.new ≡ changes.old ++ change_of changing.now old.now new) }
{
    if is_same(old, &new) {
        return Ok(());
    }
    changes.push(changing.rule.place(&changing.table, new))?;
    Ok(())
}

/// The rows that an UPDATE changes, as they are afterwards, in their order; or why the first that can't be changed can't. A row that would keep its values isn't
/// among them.
///
/// Each row is copied, and each of its columns that is set costs what its expression does.
#[tactic(auto, using(crate::proofs::Changed::changes_start, crate::proofs::Changed::changes_next, crate::proofs::Changed::changes_told))]
pub(crate) fn changes_of(
    alloc: Global,
    changing: &Changing,
    rows: &[Row],
) -> Result<PlacedRows, ChangeFault>
    ensures changes { IfOk result (λ changes. changes_meant changing.now rows.now ≡ Ok changes) }
    ensures fault { IfErr result (λ fault. (fault ≡ ChangeFault.NoMemory) ⊎ (told (changes_meant changing.now rows.now) ≡ Err fault)) }
{
    let mut changes = Listed::new(alloc);
    for (place, row) in rows.iter().enumerate() {
        let number = place as u64 + 1;
        match set_all(
            alloc,
            &changing.table,
            number,
            changing.sets.as_slice(),
            row,
        ) {
            Ok(new) => push_changed(&mut changes, changing, row, new)?,
            Err(refused) => return Err(refused),
        }
    }
    Ok(changes)
}
