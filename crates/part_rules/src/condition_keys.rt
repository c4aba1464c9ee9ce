ghost use Rattle.std.specs.Prelude.{map, IfOk};
ghost use Rattle.std.specs.List.{list_all, list_any};
ghost use Rattle.sql_values.specs.KeySets.{AreKeys};
ghost use Rattle.part_rules.specs.Keeps.{keeps};

use crate::key_tests::{between_keys, comparison_keys, in_keys};
use sql_values::{Cond, Intervals, TableDef};
use std::alloc::{AllocError, Global};

/// The keys that all parts keep: those that no part leaves out. What the parts leave out is collected and put in order once.
#[cycle(condition_keys)]
fn keys_of_all(alloc: Global, parts: &[Cond], table: &TableDef) -> Result<Intervals, AllocError>
    ensures { IfOk result (λ keys. AreKeys keys (λ key. list_all (λ b. b) (map (keeps table.now key) parts.now))) }
{
    let mut left_out = Vec::new(alloc);
    for part in parts {
        let gaps = keys_of(alloc, part, table)?.complement(alloc)?;
        left_out.extend_from_slice(gaps.as_slice())?;
    }
    Intervals::from_vec(left_out)?.complement(alloc)
}

/// The keys that a part keeps, collected and put in order once.
#[cycle(condition_keys)]
fn keys_of_any(alloc: Global, parts: &[Cond], table: &TableDef) -> Result<Intervals, AllocError>
    ensures { IfOk result (λ keys. AreKeys keys (λ key. list_any (λ b. b) (map (keeps table.now key) parts.now))) }
{
    let mut found = Vec::new(alloc);
    for part in parts {
        let keys = keys_of(alloc, part, table)?;
        found.extend_from_slice(keys.as_slice())?;
    }
    Intervals::from_vec(found)
}

/// The keys that a row may have for which the condition holds, by what it says of the key column alone: a comparison with a number, IN and BETWEEN
/// have their keys, AND those of all parts, OR those of a part, and all else has each key of a BIGINT. The cost is that of sorting the tests' keys.
#[cycle(condition_keys)]
pub fn keys_of(alloc: Global, cond: &Cond, table: &TableDef) -> Result<Intervals, AllocError>
    ensures { IfOk result (λ keys. AreKeys keys (λ key. keeps table.now key cond.now)) }
{
    match cond {
        Cond::All(parts) => keys_of_all(alloc, parts.as_slice(), table),
        Cond::Any(parts) => keys_of_any(alloc, parts.as_slice(), table),
        Cond::Not(_part) => Intervals::whole(alloc),
        Cond::Compare {
            left,
            comparison,
            right,
        } => comparison_keys(alloc, table, left, *comparison, right),
        Cond::In {
            column,
            negated,
            list,
        } => in_keys(alloc, table, column, *negated, list.as_slice()),
        Cond::Between {
            column,
            negated,
            low,
            high,
        } => between_keys(alloc, table, column, *negated, low, high),
    }
}
