//! Whether a condition holds on a row.

ghost use Rattle.std.specs.Prelude.{◌≡◌, ◌&&◌, map};
ghost use Rattle.std.specs.List.{list_all, list_any};
ghost use Rattle.std.specs.Option.{option_map_or};
ghost use Rattle.std.specs.Ordering.{is_some_and};
ghost use Rattle.sql_values.specs.Conditions.{literal_of, column_literal, operand_literal, order_of, is_met_by as met_by, compares, unless_negated as negated_or, cond_holds};
ghost use Rattle.sql_values.specs.Scalars.{scalar_literal};

use crate::columns::column_value;
use crate::{ColumnName, Comparison, Cond, Literal, Operand, Row, TableDef, TableDefs, Value};
use std::cmp::Ordering;

/// A value that is compared. It takes no memory.
#[derive(Clone, Copy)]
enum Scalar<'a> {
    Number(i128),
    Text(&'a str),
    Null,
}

fn literal_scalar(literal: &Literal) -> Scalar<'_>
    ensures { scalar_literal result ≡ literal.now }
{
    match literal {
        Literal::Number(number) => Scalar::Number(*number),
        Literal::Text(text) => Scalar::Text(text.as_str()),
        Literal::Null => Scalar::Null,
    }
}

fn value_scalar(value: &Value) -> Scalar<'_>
    ensures { scalar_literal result ≡ literal_of value.now }
{
    match value {
        Value::Number(number) => Scalar::Number(i128::from(*number)),
        Value::Text(text) => Scalar::Text(text.as_str()),
    }
}

fn column_scalar<'a>(name: &ColumnName, tables: &[TableDef], row: &'a [Value]) -> Scalar<'a>
    ensures { scalar_literal result ≡ column_literal tables.now row.now name.now }
{
    match column_value(name, tables, row) {
        Some(value) => value_scalar(value),
        None => Scalar::Null,
    }
}

fn operand_scalar<'a>(operand: &'a Operand, tables: &[TableDef], row: &'a [Value]) -> Scalar<'a>
    ensures { scalar_literal result ≡ operand_literal tables.now row.now operand.now }
{
    match operand {
        Operand::Column(name) => column_scalar(name, tables, row),
        Operand::Literal(literal) => literal_scalar(literal),
    }
}

fn order(left: Scalar, right: Scalar) -> Option<Ordering>
    ensures { result ≡ order_of (scalar_literal left.entry) (scalar_literal right.entry) }
{
    match (left, right) {
        (Scalar::Number(left), Scalar::Number(right)) => Some(left.cmp(&right)),
        (Scalar::Text(left), Scalar::Text(right)) => Some(left.cmp(right)),
        _ => None,
    }
}

fn is_met_by(comparison: Comparison, order: Ordering) -> bool
    ensures { result ≡ met_by comparison order }
{
    match comparison {
        Comparison::Equal => order.is_eq(),
        Comparison::NotEqual => order.is_ne(),
        Comparison::Less => order.is_lt(),
        Comparison::AtMost => order.is_le(),
        Comparison::Greater => order.is_gt(),
        Comparison::AtLeast => order.is_ge(),
    }
}

fn do_compare(comparison: Comparison, left: Scalar, right: Scalar) -> bool
    ensures { result ≡ compares comparison (scalar_literal left.entry) (scalar_literal right.entry) }
{
    match order(left, right) {
        Some(order) => is_met_by(comparison, order),
        None => false,
    }
}

fn is_listed(value: Scalar, list: &[Literal]) -> bool
    ensures { result ≡ list_any (compares Comparison.Equal (scalar_literal value.entry)) list.now }
{
    for literal in list {
        if do_compare(Comparison::Equal, value, literal_scalar(literal)) {
            return true;
        }
    }
    false
}

fn is_between(value: Scalar, low: &Literal, high: &Literal) -> bool
    ensures { result ≡ (compares Comparison.AtMost low.now (scalar_literal value.entry) && compares Comparison.AtMost (scalar_literal value.entry) high.now) }
{
    do_compare(Comparison::AtMost, literal_scalar(low), value)
        && do_compare(Comparison::AtMost, value, literal_scalar(high))
}

fn unless_negated(negated: bool, test: bool) -> bool
    ensures { result ≡ negated_or negated test }
{
    test != negated
}

#[cycle(holds)]
fn do_all_hold(parts: &[Cond], tables: &[TableDef], row: &[Value]) -> bool
    ensures { result ≡ list_all (λ part. part) (map (cond_holds tables.now row.now) parts.now) }
{
    for part in parts {
        if !does_hold(part, tables, row) {
            return false;
        }
    }
    true
}

#[cycle(holds)]
fn does_any_hold(parts: &[Cond], tables: &[TableDef], row: &[Value]) -> bool
    ensures { result ≡ list_any (λ part. part) (map (cond_holds tables.now row.now) parts.now) }
{
    for part in parts {
        if does_hold(part, tables, row) {
            return true;
        }
    }
    false
}

#[cycle(holds)]
fn does_hold(cond: &Cond, tables: &[TableDef], row: &[Value]) -> bool
    ensures { result ≡ cond_holds tables.now row.now cond.now }
{
    match cond {
        Cond::All(parts) => do_all_hold(parts.as_slice(), tables, row),
        Cond::Any(parts) => does_any_hold(parts.as_slice(), tables, row),
        Cond::Not(part) => !does_hold(part.get(), tables, row),
        Cond::Compare {
            left,
            comparison,
            right,
        } => do_compare(
            *comparison,
            operand_scalar(left, tables, row),
            operand_scalar(right, tables, row),
        ),
        Cond::In {
            column,
            negated,
            list,
        } => unless_negated(
            *negated,
            is_listed(column_scalar(column, tables, row), list.as_slice()),
        ),
        Cond::Between {
            column,
            negated,
            low,
            high,
        } => unless_negated(
            *negated,
            is_between(column_scalar(column, tables, row), low, high),
        ),
    }
}

/// Whether the condition holds on a row of these tables: the values of the first table, then those of the second, and so on.
///
/// Numbers are compared exactly, also with literals outside the range of a BIGINT, and texts by their bytes. It takes no memory.
///
/// The condition is to be one that [`check_cond`](crate::check_cond) accepts for these tables. In any other, NULL and a column that isn't there
/// compare with nothing, and no number compares with a text: such a test doesn't hold.
pub fn holds(cond: &Cond, tables: &TableDefs, row: &Row) -> bool
    ensures { result ≡ cond_holds tables.now row.now cond.now }
{
    does_hold(cond, tables.as_slice(), row.as_slice())
}
