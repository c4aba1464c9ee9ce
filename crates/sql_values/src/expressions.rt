//! The value of an expression on a row.

ghost use Rattle.std.specs.Prelude.{◌≡◌, ◌∷◌, [], map, fold, pos, neg_ℤ, unwrap_or, option_and_then, IfOk, IsErrOf, IsSome, Some, None};
ghost use Rattle.std.specs.Option.{option_map};
ghost use Rattle.sql_values.specs.Columns.{column_value as value_among};
ghost use Rattle.sql_values.specs.Expressions.{big_int, number_of, text_of, literal_value as value_of_literal, with_addend as after_addend, with_factor as after_factor, expr_value, value_of_addend};

use crate::columns::column_value;
use crate::{Addend, ColumnName, Expr, Literal, Row, TableDef, Text, Value};
use std::alloc::{AllocError, Global};
use std::slice;
use thiserror::Error;

/// Why an expression has no value.
#[derive(Debug, Drop, Error)]
pub enum ValueFault {
    /// A literal or a partial result is outside the range of a BIGINT.
    #[error("out of the range of a BIGINT")]
    OutOfRange,
    /// There wasn't enough memory.
    #[error("out of memory")]
    NoMemory,
}

impl From<AllocError> for ValueFault {
    ghost use Rattle.std.specs.Prelude.{◌≡◌};
    ghost use Rattle.sql_values.specs.declared.expressions.ValueFault.TheVariants.{NoMemory};

    ghost from_gives = { λ _ fault. fault ≡ NoMemory };

    fn from(_error: AllocError) -> ValueFault {
        ValueFault::NoMemory
    }
}

/// The number as a BIGINT, where it is one.
pub(crate) fn to_big_int(number: i128) -> Option<i64>
    ensures { result ≡ big_int number }
{
    i64::try_from(number).ok()
}

fn negated(number: i64) -> Option<i64>
    ensures { result ≡ big_int (neg_ℤ number) }
{
    to_big_int(-i128::from(number))
}

fn with_addend(total: Option<i64>, subtracted: bool, number: Option<i64>) -> Option<i64>
    ensures { result ≡ after_addend total (subtracted, number) }
{
    match (total, number) {
        (Some(total), Some(number)) => {
            if subtracted {
                to_big_int(i128::from(total) - i128::from(number))
            } else {
                to_big_int(i128::from(total) + i128::from(number))
            }
        }
        _ => None,
    }
}

fn with_factor(total: Option<i64>, number: Option<i64>) -> Option<i64>
    ensures { result ≡ after_factor total number }
{
    match (total, number) {
        (Some(total), Some(number)) => to_big_int(i128::from(total) * i128::from(number)),
        _ => None,
    }
}

fn value_number(value: &Value) -> i64
    ensures { result ≡ number_of value.now }
{
    match value {
        Value::Number(number) => *number,
        Value::Text(_) => 0,
    }
}

fn literal_number(literal: &Literal) -> Option<i64>
    ensures { result ≡ option_map number_of (value_of_literal literal.now) }
{
    match literal {
        Literal::Number(number) => to_big_int(*number),
        Literal::Text(_) => Some(0),
        Literal::Null => Some(0),
    }
}

fn column_number(name: &ColumnName, table: &TableDef, row: &[Value]) -> i64
    ensures { result ≡ number_of (unwrap_or (value_among (table.now ∷ []) row.now name.now) (Value.Number (pos 0))) }
{
    match column_value(name, slice::from_ref(table), row) {
        Some(value) => value_number(value),
        None => 0,
    }
}

fn negated_if_any(number: Option<i64>) -> Option<i64>
    ensures { result ≡ option_and_then (λ n. big_int (neg_ℤ n)) number }
{
    match number {
        Some(number) => negated(number),
        None => None,
    }
}

/// The number of the expression on a row, without taking memory.
#[cycle(counting)]
fn number(expr: &Expr, table: &TableDef, row: &[Value]) -> Option<i64>
    ensures { result ≡ option_map number_of (expr_value table.now row.now expr.now) }
{
    match expr {
        Expr::Literal(literal) => literal_number(literal),
        Expr::Column(name) => Some(column_number(name, table, row)),
        Expr::Negated(part) => negated_if_any(number(part.get(), table, row)),
        Expr::Sum(parts) => sum(parts.as_slice(), table, row),
        Expr::Product(parts) => product(parts.as_slice(), table, row),
    }
}

#[cycle(counting)]
fn addend_number(part: &Addend, table: &TableDef, row: &[Value]) -> Option<i64>
    ensures { (part.now.subtracted, result) ≡ value_of_addend table.now row.now part.now }
{
    number(&part.expr, table, row)
}

#[cycle(counting)]
fn sum(parts: &[Addend], table: &TableDef, row: &[Value]) -> Option<i64>
    ensures { result ≡ fold after_addend (Some (pos 0)) (map (value_of_addend table.now row.now) parts.now) }
{
    let mut total = Some(0);
    for part in parts {
        total = with_addend(total, part.subtracted, addend_number(part, table, row));
    }
    total
}

#[cycle(counting)]
fn product(parts: &[Expr], table: &TableDef, row: &[Value]) -> Option<i64>
    ensures { result ≡ fold (λ total part. after_factor total (option_map number_of part)) (Some (pos 1)) (map (expr_value table.now row.now) parts.now) }
{
    let mut total = Some(1);
    for part in parts {
        total = with_factor(total, number(part, table, row));
    }
    total
}

fn value_text(value: &Value) -> Option<&str>
    ensures { option_map (λ t. t.now) result ≡ text_of value.now }
{
    match value {
        Value::Number(_) => None,
        Value::Text(text) => Some(text.as_str()),
    }
}

fn literal_text(literal: &Literal) -> Option<&str>
    ensures { option_map (λ t. t.now) result ≡ option_and_then text_of (value_of_literal literal.now) }
{
    match literal {
        Literal::Number(_) => None,
        Literal::Text(text) => Some(text.as_str()),
        Literal::Null => None,
    }
}

fn column_text<'a>(name: &ColumnName, table: &TableDef, row: &'a [Value]) -> Option<&'a str>
    ensures { option_map (λ t. t.now) result ≡ text_of (unwrap_or (value_among (table.now ∷ []) row.now name.now) (Value.Number (pos 0))) }
{
    match column_value(name, slice::from_ref(table), row) {
        Some(value) => value_text(value),
        None => None,
    }
}

/// The text that the expression is: only a column or a literal alone can be one.
#[tactic(auto, using(crate::proofs::Values::values))]
fn text<'a>(expr: &'a Expr, table: &TableDef, row: &'a [Value]) -> Option<&'a str>
    ensures { option_map (λ t. t.now) result ≡ option_and_then text_of (expr_value table.now row.now expr.now) }
{
    match expr {
        Expr::Literal(literal) => literal_text(literal),
        Expr::Column(name) => column_text(name, table, row),
        Expr::Negated(_) => None,
        Expr::Sum(_) => None,
        Expr::Product(_) => None,
    }
}

/// The value of an expression on a row of a table.
///
/// Each literal and each partial result, from the left, has to be in the range of a BIGINT: else it is `OutOfRange`. Memory is taken for a text alone.
///
/// The expression is to be one that [`check_expr`](crate::check_expr) accepts for the table. In any other, NULL, a column that isn't there and a text that is counted with are 0.
#[tactic(auto, using(crate::proofs::Values::values))]
pub fn eval(alloc: Global, expr: &Expr, table: &TableDef, row: &Row) -> Result<Value, ValueFault>
    ensures value { IfOk result (λ v. expr_value table.now row.now expr.now ≡ Some v) }
    ensures range { IsErrOf result ValueFault.OutOfRange → expr_value table.now row.now expr.now ≡ None }
    ensures memory { IsErrOf result ValueFault.NoMemory → IsSome (option_and_then text_of (expr_value table.now row.now expr.now)) }
{
    let row = row.as_slice();
    if let Some(text) = text(expr, table, row) {
        return Ok(Value::Text(Text::from_str(alloc, text)?));
    }
    match number(expr, table, row) {
        Some(number) => Ok(Value::Number(number)),
        None => Err(ValueFault::OutOfRange),
    }
}
