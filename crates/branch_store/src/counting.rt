//! Aggregates over rows.

ghost use Rattle.std.specs.Prelude.{◌≡◌, ℕ, ◌+◌, ◌-◌, ◌<◌, ◌^◌, ◌∷◌, [], true, length, FitsSigned, IfOk, map, if◌then◌else◌};
ghost use Rattle.std.specs.Int.{w64};
ghost use Rattle.std.specs.List.{list_all};
ghost use Rattle.sql_values.specs.declared.literal.Literal.{Literal};
ghost use Rattle.sql_values.specs.Conditions.{literal_of};
ghost use Rattle.front_rows.specs.Aggregates.{all_of, both, cells_over as cells_meant, greater, lesser, over as result_over, plus};
ghost use Rattle.front_rows.specs.Cells.{cell_literal, cell_text as text_in_cell};
ghost use Rattle.front_rows.specs.Comparing.{cell as cell_there, cell_cmp};
ghost use Rattle.front_rows.specs.Laws.{AreSuited, suits};
ghost use Rattle.stmt_plan.specs.Selects.{aggregate_of as aggregate_meant};
ghost use Rattle.plain_tables.specs.Scans.{first_rows};
ghost use Rattle.branch_store.specs.Counting.{IsSumOf, has_number, option_literal};

use front_rows::{AggFun, Aggregate, CellRow};
use list_types::{Listed, Text};
use sql_text::{AggregateCall, Cell};
use sql_values::{Row, TableDef, Value};
use std::alloc::{AllocError, Global};
use std::cmp::Ordering;
use stmt_plan::aggregate_of;

/// What a row has in a column.
fn value_at(row: &Row, column: u32) -> Option<&Value>
    ensures { cell_literal result ≡ cell_there column row.now }
{
    row.as_slice().get(column as usize)
}

/// The number that a row has in a column.
fn number_at(row: &Row, column: u32) -> i128
    requires { has_number column row.now ≡ true }
    ensures number { Literal.Number result ≡ cell_there column row.now }
    ensures range { FitsSigned w64 result }
{
    match value_at(row, column) {
        Some(Value::Number(number)) => i128::from(*number),
        _ => 0,
    }
}

/// A sum of fewer than 2^64 numbers, and that of a row more.
fn added(total: Option<i128>, row: &Row, column: u32) -> Option<i128>
    requires number { has_number column row.now ≡ true }
    requires few { IsSumOf (2 ^ 64 - 1) (option_literal total) }
    ensures sum { option_literal result ≡ both plus (option_literal total) (cell_there column row.now) }
    ensures bounds { (count : ℕ) → IsSumOf count (option_literal total) → IsSumOf (count + 1) (option_literal result) }
{
    let number = number_at(row, column);
    match total {
        Some(total) => Some(total + number),
        None => Some(number),
    }
}

/// The sum of a column of numbers; None of no rows. Rows are fewer than 2^64, so that it has 128 bits.
fn sum(rows: &[Row], column: u32) -> Option<i128>
    requires { list_all (has_number column) rows.now ≡ true }
    ensures { option_literal result ≡ all_of plus (map (cell_there column) rows.now) }
{
    let mut total: Option<i128> = None;
    for row in rows {
        total = added(total, row, column);
    }
    total
}

fn compare(left: &Value, right: &Value) -> Ordering
    ensures { result ≡ cell_cmp (literal_of left.now) (literal_of right.now) }
{
    match (left, right) {
        (Value::Number(left), Value::Number(right)) => left.cmp(right),
        (Value::Text(left), Value::Text(right)) => left.as_str().cmp(right.as_str()),
        (Value::Number(_), Value::Text(_)) => Ordering::Less,
        (Value::Text(_), Value::Number(_)) => Ordering::Greater,
    }
}

/// Of two values the lesser one, or the greater one.
fn better<'a>(least: bool, left: &'a Value, right: &'a Value) -> &'a Value
    ensures { literal_of result.now ≡ both (if least then lesser else greater) (literal_of left.now) (literal_of right.now) }
{
    let order = if least {
        compare(right, left)
    } else {
        compare(left, right)
    };
    match order {
        Ordering::Less => right,
        _ => left,
    }
}

/// The value so far, where there is one, and one value more.
fn better_of<'a>(least: bool, found: Option<&'a Value>, value: &'a Value) -> &'a Value
    ensures { literal_of result.now ≡ both (if least then lesser else greater) (cell_literal found.entry) (literal_of value.now) }
{
    match found {
        Some(best) => better(least, best, value),
        None => value,
    }
}

/// The least value of a column, or the greatest; None of no values.
fn extreme(rows: &[Row], column: u32, least: bool) -> Option<&Value>
    ensures { cell_literal result ≡ all_of (if least then lesser else greater) (map (cell_there column) rows.now) }
{
    let mut found: Option<&Value> = None;
    for row in rows {
        let Some(value) = value_at(row, column) else {
            continue;
        };
        found = Some(better_of(least, found, value));
    }
    found
}

fn number_cell(alloc: Global, number: i128) -> Result<Cell, AllocError>
    ensures { IfOk result (λ cell. cell ≡ text_in_cell (Literal.Number number)) }
{
    Ok(Some(Text::from_string(number.to_string(alloc)?)))
}

fn sum_cell(alloc: Global, sum: Option<i128>) -> Result<Cell, AllocError>
    ensures { IfOk result (λ cell. cell ≡ text_in_cell (option_literal sum)) }
{
    match sum {
        Some(number) => number_cell(alloc, number),
        None => Ok(None),
    }
}

fn value_cell(alloc: Global, value: Option<&Value>) -> Result<Cell, AllocError>
    ensures { IfOk result (λ cell. cell ≡ text_in_cell (cell_literal value.entry)) }
{
    match value {
        Some(Value::Number(number)) => Ok(Some(Text::from_string(number.to_string(alloc)?))),
        Some(Value::Text(text)) => Ok(Some(text.clone()?)),
        None => Ok(None),
    }
}

/// The cell of an aggregate over rows.
fn cell(alloc: Global, aggregate: Aggregate, rows: &[Row]) -> Result<Cell, AllocError>
    requires { suits rows.now aggregate ≡ true }
    ensures { IfOk result (λ cell. cell ≡ text_in_cell (result_over rows.now aggregate)) }
{
    let column = aggregate.column;
    match aggregate.fun {
        AggFun::Count => number_cell(alloc, rows.len() as i128),
        AggFun::Sum => sum_cell(alloc, sum(rows, column)),
        AggFun::Min => value_cell(alloc, extreme(rows, column, true)),
        AggFun::Max => value_cell(alloc, extreme(rows, column, false)),
    }
}

/// The row of cells that these calls give of rows of the table.
pub(crate) fn cells_over(
    alloc: Global,
    def: &TableDef,
    calls: &[AggregateCall],
    rows: &[Row],
) -> Result<CellRow, AllocError>
    requires table { length def.now.columns < 2 ^ 32 }
    requires rows { AreSuited (map (aggregate_meant def.now) calls.now) rows.now }
    ensures { IfOk result (λ cells. cells ≡ cells_meant (map (aggregate_meant def.now) calls.now) rows.now) }
{
    let mut cells = Listed::new(alloc);
    for call in calls {
        cells.push(cell(alloc, aggregate_of(def, call), rows)?)?;
    }
    Ok(cells)
}

/// The row, unless no row is wanted.
pub(crate) fn first_row(
    alloc: Global,
    limit: Option<u64>,
    cells: CellRow,
) -> Result<Listed<CellRow>, AllocError>
    ensures { IfOk result (λ rows. rows ≡ first_rows limit (cells ∷ [])) }
{
    let mut rows = Listed::new(alloc);
    if limit != Some(0) {
        rows.push(cells)?;
    }
    Ok(rows)
}
