//! Plans a statement with an IN list, for the script `bench/plan` to measure: `RULE COUNT REPEATS` makes a rule of 64 partitions (`range`,
//! `list` or `hash`) and a condition that lists so many keys, and so often finds the condition's keys and the partitions that own one of them.
//!
//! The status is 0 where all was done, 1 where a rule could not be made, and 2 where the words have no form.
#![tactic(auto)]

use list_types::{Listed, Text};
use part_rules::{Bound, Bounds, Lists, Rule, keys_of, prune};
use sql_values::{ColumnDef, ColumnName, Cond, Keys, Kind, Literal, Name, TableDef};
use std::alloc::{AllocError, Global};
use std::process::ExitCode;
use std::{env, io};

/// How many partitions a rule has.
const PARTS: u32 = 64;

/// The keys, in no order, from 0 to 2^32 - 1.
fn key_at(place: u32) -> i64 {
    i64::from(place.wrapping_mul(2_654_435_761))
}

/// As many keys in each partition.
fn range_rule(alloc: Global) -> Result<Option<Rule>, AllocError> {
    let mut bounds = Listed::new(alloc);
    for part in 1..PARTS {
        bounds.push(Bound::Below(i64::from(part) << 26))?;
    }
    bounds.push(Bound::MaxValue)?;
    match Bounds::from_list(bounds) {
        Ok(bounds) => Ok(Some(Rule::Range(bounds))),
        Err(_bounds) => Ok(None),
    }
}

/// Each partition lists as many of the keys.
fn list_rule(alloc: Global, count: u32) -> Result<Option<Rule>, AllocError> {
    let mut lists = Listed::new(alloc);
    for part in 0..PARTS {
        let mut keys: Keys = Listed::new(alloc);
        for place in 0..count {
            if place % PARTS == part {
                keys.push(key_at(place))?;
            }
        }
        lists.push(keys)?;
    }
    if lists.len() >= 1 << 32 {
        return Ok(None);
    }
    Ok(Some(Rule::List(Lists::new(alloc, lists)?)))
}

/// A name, which the text is.
fn name(alloc: Global, text: &str) -> Result<Option<Name>, AllocError> {
    Ok(Name::from_text(Text::from_str(alloc, text)?).ok())
}

/// A table of one column, `k`, and the condition that its key is one of these.
fn statement(alloc: Global, count: u32) -> Result<Option<(TableDef, Cond)>, AllocError> {
    let (Some(table), Some(column), Some(same)) = (
        name(alloc, "t")?,
        name(alloc, "k")?,
        name(alloc, "k")?,
    ) else {
        return Ok(None);
    };
    let mut columns = Listed::new(alloc);
    columns.push(ColumnDef {
        name: column,
        kind: Kind::BigInt,
    })?;
    let mut list = Listed::new(alloc);
    for place in 0..count {
        list.push(Literal::Number(i128::from(key_at(place))))?;
    }
    let table = TableDef {
        name: table,
        columns,
        key: 0,
    };
    let cond = Cond::In {
        column: ColumnName {
            table: None,
            column: same,
        },
        negated: false,
        list,
    };
    Ok(Some((table, cond)))
}

/// Plans so often; false where the rule has no partitions.
fn plan(
    alloc: Global,
    rule: &Rule,
    table: &TableDef,
    cond: &Cond,
    repeats: u32,
) -> Result<bool, AllocError> {
    if !rule.has_parts() {
        return Ok(false);
    }
    for _ in 0..repeats {
        let keys = keys_of(alloc, cond, table)?;
        let _parts = prune(alloc, rule, &keys)?;
    }
    Ok(true)
}

/// What the words say, done; None where they have no form.
fn run(alloc: Global, words: &[String]) -> Result<Option<bool>, AllocError> {
    let [rule, count, repeats] = words else {
        return Ok(None);
    };
    let (Ok(count), Ok(repeats)) = (
        count.as_str().parse::<u32>(),
        repeats.as_str().parse::<u32>(),
    ) else {
        return Ok(None);
    };
    let rule = match rule.as_str() {
        "range" => range_rule(alloc)?,
        "list" => list_rule(alloc, count)?,
        "hash" => Some(Rule::Hash(PARTS)),
        _ => return Ok(None),
    };
    let (Some(rule), Some((table, cond))) = (rule, statement(alloc, count)?) else {
        return Ok(Some(false));
    };
    Ok(Some(plan(alloc, &rule, &table, &cond, repeats)?))
}

fn main(rt: HostRuntime) -> io::Result<ExitCode> {
    let alloc = rt.alloc();
    let mut words = Vec::new(alloc);
    for word in env::args(&rt)?.skip(1) {
        words.push(word)?;
    }
    let status = match run(alloc, &words)? {
        Some(true) => 0,
        Some(false) => 1,
        None => 2,
    };
    Ok(ExitCode::from(status))
}
