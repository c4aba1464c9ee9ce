//! The keys of one test of the key column.

ghost use Rattle.std.specs.Prelude.{◌≡◌, ◌^◌, ℤ, pos, neg_ℤ, ◌+ℤ◌, ◌≤ℤ◌, ◌&&◌, ◌||◌, not, IfOk, MatchOption, FitsSigned, int_le};
ghost use Rattle.std.specs.Int.{w64};
ghost use Rattle.sql_values.specs.Columns.{may_qualify};
ghost use Rattle.sql_values.specs.KeySets.{AreKeys};
ghost use Rattle.part_rules.specs.Keeps.{names_key as key_named, mirrored as turned, key_compares, comparison_keeps, is_listed, is_between};

use sql_values::{ColumnName, Comparison, Interval, Intervals, Literal, Name, Operand, TableDef};
use std::alloc::{AllocError, Global};

fn is_qualified_by(qualifier: &Option<Name>, table: &Name) -> bool
    ensures { result ≡ may_qualify qualifier.now table.now }
{
    match qualifier {
        Some(qualifier) => qualifier == table,
        None => true,
    }
}

/// Whether the name may mean the table's key column.
fn names_key(table: &TableDef, name: &ColumnName) -> bool
    ensures { result ≡ key_named table.now name.now }
{
    match table.columns.as_slice().get(table.key as usize) {
        Some(column) => is_qualified_by(&name.table, &table.name) && column.name == name.column,
        None => false,
    }
}

/// The least key of a BIGINT that is no less than the number; None where the number is greater than all of them.
fn key_from(number: &i128) -> Option<i64>
    ensures { MatchOption result ((pos (2 ^ 63)) ≤ℤ number.now) (λ low. (key : ℤ) → FitsSigned w64 key → int_le low key ≡ int_le number.now key) }
{
    if *number > i128::from(i64::MAX) {
        return None;
    }
    if *number < i128::from(i64::MIN) {
        return Some(i64::MIN);
    }
    Some(*number as i64)
}

/// The greatest key of a BIGINT that is no greater than the number; None where the number is less than all of them.
fn key_up_to(number: &i128) -> Option<i64>
    ensures { MatchOption result ((number.now +ℤ pos 1) ≤ℤ neg_ℤ (pos (2 ^ 63))) (λ high. (key : ℤ) → FitsSigned w64 key → int_le key high ≡ int_le key number.now) }
{
    if *number < i128::from(i64::MIN) {
        return None;
    }
    if *number > i128::from(i64::MAX) {
        return Some(i64::MAX);
    }
    Some(*number as i64)
}

/// The keys of a BIGINT from one number to another.
fn keys_between(alloc: Global, low: &i128, high: &i128) -> Result<Intervals, AllocError>
    ensures { IfOk result (λ keys. AreKeys keys (λ key. int_le low.now key && int_le key high.now)) }
{
    let Some(low) = key_from(low) else {
        return Ok(Intervals::none(alloc));
    };
    let Some(high) = key_up_to(high) else {
        return Ok(Intervals::none(alloc));
    };
    Intervals::of_interval(alloc, &Interval { low, high })
}

fn mirrored(comparison: Comparison) -> Comparison
    ensures { result ≡ turned comparison }
{
    match comparison {
        Comparison::Equal => Comparison::Equal,
        Comparison::NotEqual => Comparison::NotEqual,
        Comparison::Less => Comparison::Greater,
        Comparison::AtMost => Comparison::AtLeast,
        Comparison::Greater => Comparison::Less,
        Comparison::AtLeast => Comparison::AtMost,
    }
}

/// The keys that compare so with a number.
fn compared(alloc: Global, comparison: Comparison, number: &i128) -> Result<Intervals, AllocError>
    ensures { IfOk result (λ keys. AreKeys keys (λ key. key_compares key comparison number.now)) }
{
    let least = i128::from(i64::MIN);
    let greatest = i128::from(i64::MAX);
    match comparison {
        Comparison::Equal => keys_between(alloc, number, number),
        Comparison::NotEqual => keys_between(alloc, number, number)?.complement(alloc),
        Comparison::Less => keys_between(alloc, number, &greatest)?.complement(alloc),
        Comparison::AtMost => keys_between(alloc, &least, number),
        Comparison::Greater => keys_between(alloc, &least, number)?.complement(alloc),
        Comparison::AtLeast => keys_between(alloc, number, &greatest),
    }
}

/// The keys that a comparison keeps.
pub(crate) fn comparison_keys(
    alloc: Global,
    table: &TableDef,
    left: &Operand,
    comparison: Comparison,
    right: &Operand,
) -> Result<Intervals, AllocError>
    ensures { IfOk result (λ keys. AreKeys keys (λ key. comparison_keeps table.now key left.now comparison right.now)) }
{
    match (left, right) {
        (Operand::Column(name), Operand::Literal(Literal::Number(number)))
            if names_key(table, name) => { compared(alloc, comparison, number) }
        (Operand::Literal(Literal::Number(number)), Operand::Column(name))
            if names_key(table, name) => { compared(alloc, mirrored(comparison), number) }
        _ => Intervals::whole(alloc),
    }
}

/// The keys in a list of literals.
fn listed(alloc: Global, literals: &[Literal]) -> Result<Intervals, AllocError>
    ensures { IfOk result (λ keys. AreKeys keys (λ key. is_listed key literals.now)) }
{
    let mut list = Vec::new(alloc);
    for literal in literals {
        let Literal::Number(number) = literal else {
            continue;
        };
        let Ok(key) = i64::try_from(*number) else {
            continue;
        };
        list.push(Interval {
            low: key,
            high: key,
        })?;
    }
    Intervals::from_vec(list)
}

/// The keys that IN keeps.
pub(crate) fn in_keys(
    alloc: Global,
    table: &TableDef,
    column: &ColumnName,
    negated: bool,
    literals: &[Literal],
) -> Result<Intervals, AllocError>
    ensures { IfOk result (λ keys. AreKeys keys (λ key. negated || (not (key_named table.now column.now) || is_listed key literals.now))) }
{
    if negated {
        return Intervals::whole(alloc);
    }
    if !names_key(table, column) {
        return Intervals::whole(alloc);
    }
    listed(alloc, literals)
}

/// The keys that BETWEEN keeps.
pub(crate) fn between_keys(
    alloc: Global,
    table: &TableDef,
    column: &ColumnName,
    negated: bool,
    low: &Literal,
    high: &Literal,
) -> Result<Intervals, AllocError>
    ensures { IfOk result (λ keys. AreKeys keys (λ key. negated || (not (key_named table.now column.now) || is_between key low.now high.now))) }
{
    if negated {
        return Intervals::whole(alloc);
    }
    if !names_key(table, column) {
        return Intervals::whole(alloc);
    }
    match (low, high) {
        (Literal::Number(low), Literal::Number(high)) => keys_between(alloc, low, high),
        _ => Ok(Intervals::none(alloc)),
    }
}
