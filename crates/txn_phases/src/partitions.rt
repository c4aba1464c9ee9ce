//! In which partition a row or a key lies.
ghost use Rattle.std.specs.Prelude.{◌≡◌, IfOk};
ghost use Rattle.part_rules.specs.Placing.{IsRule};
ghost use Rattle.txn_phases.specs.Deeds.{key_at, part_in as part_meant, placed, placed_keys};

use crate::{PlacedRow, Placing};
use part_rules::{Rule, part_of};
use sql_values::{PartNo, Row, TableDef, Value};
use std::alloc::{AllocError, Global};

/// A key whose row is to go, with the partition in which it lies.
#[derive(Clone, Copy, Debug, PartialEq, Eq)]
pub struct PlacedKey {
    pub part: PartNo,
    pub key: i64,
}

/// The number in that column of a row.
pub(crate) fn key_of(row: &Row, place: u32) -> i64
    ensures { result ≡ key_at place row.now }
{
    match row.as_slice().get(place as usize) {
        Some(Value::Number(key)) => *key,
        _ => 0,
    }
}

/// The partition of a key, or the first where the rule has none for it. No row of a table has such a key.
pub(crate) fn part_in(rule: &Rule, key: i64) -> PartNo
    requires { IsRule rule.now }
    ensures { result ≡ part_meant rule.now key }
{
    part_of(rule, key).unwrap_or(0)
}

/// A row of this table with its key, and with its partition by this rule.
pub fn place_row(rule: &Rule, def: &TableDef, row: Row) -> PlacedRow
    requires { IsRule rule.now }
    ensures { result ≡ placed def.now rule.now row }
{
    let key = key_of(&row, def.key);
    let part = part_in(rule, key);
    PlacedRow { part, key, row }
}

/// The keys of rows, with their partitions.
pub(crate) fn place_keys(
    alloc: Global,
    placing: &Placing,
    place: u32,
    rows: &[Row],
) -> Result<Vec<PlacedKey>, AllocError>
    ensures { IfOk result (λ keys. keys.items ≡ placed_keys placing.now place rows.now) }
{
    let mut keys = Vec::new(alloc);
    for row in rows {
        keys.push(placing.place_key(row, place))?;
    }
    Ok(keys)
}
