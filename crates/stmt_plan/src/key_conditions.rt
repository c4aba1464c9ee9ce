//! The keys of the rows of an INSERT, and the condition that asks for them.

ghost use Rattle.std.specs.Prelude.{◌≡◌, map, None, Some, IfOk, IfErr, OnOk};
ghost use Rattle.std.specs.List.{find};
ghost use Rattle.std.specs.Option.{option_map, is_none};
ghost use Rattle.part_rules.specs.Placing.{IsRule, part};
ghost use Rattle.stmt_plan.specs.Inserts.{row_key, unplaced, AreRising, in_keys};
ghost use Rattle.stmt_plan.specs.Plans.{IsTable, AsksForKeys};

use crate::StmtFault;
use list_types::Listed;
use part_rules::{Rule, part_of};
use sql_values::{ColumnName, Cond, Literal, Literals, Row, TableDef, Value};
use std::alloc::{AllocError, Global};

fn key_of(row: &Row, key: u32) -> i64
    ensures { result ≡ row_key key row.now }
{
    match row.as_slice().get(key as usize) {
        Some(Value::Number(number)) => *number,
        _ => 0,
    }
}

/// The keys of these rows, in order.
pub(crate) fn keys_of_rows(alloc: Global, rows: &[Row], key: u32) -> Result<Vec<i64>, AllocError>
    ensures { IfOk result (λ keys. keys.items ≡ map (row_key key) rows.now) }
{
    let mut keys = Vec::new(alloc);
    for row in rows {
        keys.push(key_of(row, key))?;
    }
    Ok(keys)
}

fn has_no_part(rule: &Rule, key: &i64) -> bool
    requires { IsRule rule.now }
    ensures { result ≡ is_none (part rule.now key.now) }
{
    part_of(rule, *key).is_none()
}

fn first_unplaced<'a>(rule: &Rule, keys: &'a [i64]) -> Option<&'a i64>
    requires { IsRule rule.now }
    ensures { option_map (λ k. k.now) result ≡ find (λ k. is_none (part rule.now k)) keys.now }
{
    for key in keys {
        if has_no_part(rule, key) {
            return Some(key);
        }
    }
    None
}

/// Refuses the first key that no partition takes.
pub(crate) fn place_keys(rule: &Rule, keys: &[i64]) -> Result<(), StmtFault>
    requires { IsRule rule.now }
    ensures ok { OnOk result (unplaced rule.now keys.now ≡ None) }
    ensures err { IfErr result (λ fault. unplaced rule.now keys.now ≡ Some fault) }
{
    match first_unplaced(rule, keys) {
        Some(key) => Err(StmtFault::NoPartition(*key)),
        None => Ok(()),
    }
}

/// The same keys, rising, without repeats.
fn rising(mut keys: Vec<i64>) -> Result<Vec<i64>, AllocError>
    ensures { IfOk result (λ rising. AreRising rising.items keys.items) }
{
    keys.sort()?;
    keys.dedup();
    Ok(keys)
}

fn numbers(alloc: Global, keys: &[i64]) -> Result<Literals, AllocError>
    ensures { IfOk result (λ list. list ≡ map Literal.Number keys.now) }
{
    let mut list = Listed::new(alloc);
    for key in keys {
        list.push(Literal::Number(i128::from(*key)))?;
    }
    Ok(list)
}

fn in_list(alloc: Global, table: &TableDef, keys: &[i64]) -> Result<Cond, AllocError>
    requires { IsTable table.now }
    ensures { IfOk result (λ cond. cond ≡ in_keys table.now keys.now) }
{
    let name = &table.columns.as_slice()[table.key as usize].name;
    Ok(Cond::In {
        column: ColumnName {
            table: None,
            column: name.copy(alloc)?,
        },
        negated: false,
        list: numbers(alloc, keys)?,
    })
}

/// The condition that the key column has one of these keys: rising, without repeats.
pub(crate) fn key_condition(
    alloc: Global,
    table: &TableDef,
    keys: Vec<i64>,
) -> Result<Cond, AllocError>
    requires { IsTable table.now }
    ensures { IfOk result (λ cond. AsksForKeys table.now keys.items (Some cond)) }
{
    let keys = rising(keys)?;
    in_list(alloc, table, &keys)
}
