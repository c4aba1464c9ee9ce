//! Worked examples, and each public call with ample memory.

use list_types::{Listed, Text};
use part_rules::*;
use sql_values::{
    ColumnDef, ColumnName, Comparison, Cond, Interval, Intervals, Keys, Kind, Literal, Literals,
    Name, Operand, TableDef,
};
use sqlite_items::{Boxed, Items};
use std::alloc::{AllocError, Global};
use std::test::Fail;

const MIN: i64 = i64::MIN;

const MAX: i64 = i64::MAX;

fn range(alloc: Global, ends: &[i64], last: bool) -> Result<Option<Rule>, AllocError> {
    let mut bounds = Listed::new(alloc);
    for end in ends {
        bounds.push(Bound::Below(*end))?;
    }
    if last {
        bounds.push(Bound::MaxValue)?;
    }
    match Bounds::from_list(bounds) {
        Ok(bounds) => Ok(Some(Rule::Range(bounds))),
        Err(_bounds) => Ok(None),
    }
}

fn keys(alloc: Global, keys: &[i64]) -> Result<Keys, AllocError> {
    Ok(Listed::from_vec(Vec::from_slice(alloc, keys)?))
}

/// Three lists; the third has no key.
fn lists(alloc: Global, first: &[i64], second: &[i64]) -> Result<Rule, AllocError> {
    let mut lists = Vec::new(alloc);
    lists.push(keys(alloc, first)?)?;
    lists.push(keys(alloc, second)?)?;
    lists.push(keys(alloc, &[])?)?;
    if lists.len() >= 1 << 32 {
        return Ok(Rule::Whole);
    }
    Ok(Rule::List(Lists::new(alloc, Listed::from_vec(lists))?))
}

/// The partition of a key, or None; a rule that has no partition has none for a key.
fn place(rule: &Rule, key: i64) -> Option<u32> {
    if rule.has_parts() {
        part_of(rule, key)
    } else {
        None
    }
}

fn set(alloc: Global, pairs: &[(i64, i64)]) -> Result<Intervals, AllocError> {
    let mut list = Vec::new(alloc);
    for (low, high) in pairs {
        list.push(Interval {
            low: *low,
            high: *high,
        })?;
    }
    Intervals::from_vec(list)
}

fn is_set(keys: &Intervals, pairs: &[(i64, i64)]) -> bool {
    let intervals = keys.as_slice();
    if intervals.len() != pairs.len() {
        return false;
    }
    for (interval, (low, high)) in intervals.iter().zip(pairs) {
        if interval.low != *low || interval.high != *high {
            return false;
        }
    }
    true
}

fn prunes(alloc: Global, rule: &Rule, keys: &Intervals, parts: &[u32]) -> Result<bool, AllocError> {
    if !rule.has_parts() {
        return Ok(false);
    }
    Ok(prune(alloc, rule, keys)?.as_slice() == parts)
}

/// The keys have these partitions.
fn places(rule: &Rule, cases: &[(i64, Option<u32>)]) -> bool {
    for (key, part) in cases {
        if place(rule, *key) != *part {
            return false;
        }
    }
    true
}

#[test]
fn keys_have_partitions(rt: HostRuntime) -> Result<(), Fail> {
    let alloc = rt.alloc();
    let rule = range(alloc, &[MIN, -5, 10, 20], false)?.ok_or("rising")?;
    let cases = [
        (MIN, Some(1)),
        (-6, Some(1)),
        (-5, Some(2)),
        (19, Some(3)),
        (20, None),
    ];
    assert!(rt; places(&rule, &cases));
    let rule = range(alloc, &[10], true)?.ok_or("rising")?;
    assert!(rt; places(&rule, &[(9, Some(0)), (10, Some(1)), (MAX, Some(1))]));
    let rule = lists(alloc, &[5, MIN], &[2, MAX, 2])?;
    assert!(rt;
        places(
            &rule,
            &[(MIN, Some(0)), (2, Some(1)), (MAX, Some(1)), (3, None)]
        )
    );
    assert!(rt;
        places(
            &Rule::Hash(4),
            &[(7, Some(3)), (-7, Some(3)), (MIN, Some(0))]
        )
    );
    assert!(rt; places(&Rule::Hash(3), &[(MIN, Some(2)), (MAX, Some(1))]));
    assert!(rt; places(&Rule::Whole, &[(MIN, Some(0))]));
    Ok(())
}

#[test]
fn bounds_rise(rt: HostRuntime) -> Result<(), Fail> {
    let alloc = rt.alloc();
    assert!(rt; range(alloc, &[3, 3], false)?.is_none());
    assert!(rt; range(alloc, &[4, 3], true)?.is_none());
    assert!(rt; range(alloc, &[], true)?.is_some());
    assert!(rt; !Rule::Hash(0).has_parts());
    let whole = range(alloc, &[3, 5], true)?.ok_or("rising")?;
    assert!(rt; whole == whole.clone()?);
    let list = lists(alloc, &[3], &[5])?;
    assert!(rt; list == list.clone()?);
    assert!(rt; list != lists(alloc, &[3], &[4])?);
    Ok(())
}

fn prunes_to(
    alloc: Global,
    rule: &Rule,
    pairs: &[(i64, i64)],
    parts: &[u32],
) -> Result<bool, AllocError> {
    prunes(alloc, rule, &set(alloc, pairs)?, parts)
}

const ALL: [(i64, i64); 1] = [(MIN, MAX)];

const ENDS: [(i64, i64); 2] = [(MIN, MIN), (MAX, MAX)];

const MIDDLE: [(i64, i64); 2] = [(3, 4), (6, 9)];

const POINT: [(i64, i64); 1] = [(-1, -1)];

#[test]
fn ranges_are_pruned(rt: HostRuntime) -> Result<(), Fail> {
    let alloc = rt.alloc();
    let rule = range(alloc, &[MIN, 0, 10, 20], true)?.ok_or("rising")?;
    assert!(rt; prunes_to(alloc, &rule, &[], &[])?);
    assert!(rt; prunes_to(alloc, &rule, &ALL, &[1, 2, 3, 4])?);
    assert!(rt; prunes_to(alloc, &rule, &POINT, &[1])?);
    assert!(rt; prunes_to(alloc, &rule, &ENDS, &[1, 4])?);
    assert!(rt; prunes_to(alloc, &rule, &MIDDLE, &[2])?);
    Ok(())
}

#[test]
fn lists_are_pruned(rt: HostRuntime) -> Result<(), Fail> {
    let alloc = rt.alloc();
    let rule = lists(alloc, &[5, 9], &[2])?;
    assert!(rt; prunes_to(alloc, &rule, &ALL, &[0, 1])?);
    assert!(rt; prunes_to(alloc, &rule, &MIDDLE, &[0])?);
    assert!(rt; prunes_to(alloc, &rule, &ENDS, &[])?);
    assert!(rt; prunes_to(alloc, &Rule::Whole, &[], &[])?);
    assert!(rt; prunes_to(alloc, &Rule::Whole, &POINT, &[0])?);
    Ok(())
}

#[test]
fn hashes_are_pruned(rt: HostRuntime) -> Result<(), Fail> {
    let alloc = rt.alloc();
    let rule = Rule::Hash(3);
    assert!(rt; prunes_to(alloc, &rule, &[], &[])?);
    assert!(rt; prunes_to(alloc, &rule, &ALL, &[0, 1, 2])?);
    assert!(rt; prunes_to(alloc, &rule, &POINT, &[1])?);
    assert!(rt; prunes_to(alloc, &rule, &ENDS, &[1, 2])?);
    assert!(rt; prunes_to(alloc, &rule, &[(-2, 2)], &[0, 1, 2])?);
    Ok(())
}

fn name(alloc: Global, text: &str) -> Result<Name, Fail> {
    Ok(
        Name::from_text(Text::from_str(alloc, text)?)
            .ok()
            .ok_or("a name")?,
    )
}

/// The table `t` with the columns `a` and, its key, `k`.
fn table(alloc: Global) -> Result<TableDef, Fail> {
    let mut columns = Listed::new(alloc);
    for text in ["a", "k"] {
        columns.push(ColumnDef {
            name: name(alloc, text)?,
            kind: Kind::BigInt,
        })?;
    }
    Ok(TableDef {
        name: name(alloc, "t")?,
        columns,
        key: 1,
    })
}

fn column(alloc: Global, text: &str) -> Result<ColumnName, Fail> {
    Ok(ColumnName {
        table: None,
        column: name(alloc, text)?,
    })
}

fn compare(alloc: Global, text: &str, comparison: Comparison, n: i128) -> Result<Cond, Fail> {
    Ok(Cond::Compare {
        left: Operand::Column(column(alloc, text)?),
        comparison,
        right: Operand::Literal(Literal::Number(n)),
    })
}

fn turned(alloc: Global, n: i128, comparison: Comparison, text: &str) -> Result<Cond, Fail> {
    Ok(Cond::Compare {
        left: Operand::Literal(Literal::Number(n)),
        comparison,
        right: Operand::Column(column(alloc, text)?),
    })
}

fn numbers(alloc: Global, numbers: &[i128]) -> Result<Literals, AllocError> {
    let mut list = Listed::new(alloc);
    for n in numbers {
        list.push(Literal::Number(*n))?;
    }
    Ok(list)
}

fn is_in(alloc: Global, text: &str, negated: bool, list: &[i128]) -> Result<Cond, Fail> {
    Ok(Cond::In {
        column: column(alloc, text)?,
        negated,
        list: numbers(alloc, list)?,
    })
}

fn between(alloc: Global, text: &str, negated: bool, low: i128, high: i128) -> Result<Cond, Fail> {
    Ok(Cond::Between {
        column: column(alloc, text)?,
        negated,
        low: Literal::Number(low),
        high: Literal::Number(high),
    })
}

fn has_keys(alloc: Global, cond: Result<Cond, Fail>, pairs: &[(i64, i64)]) -> Result<bool, Fail> {
    Ok(is_set(&keys_of(alloc, &cond?, &table(alloc)?)?, pairs))
}

#[test]
fn comparisons_have_keys(rt: HostRuntime) -> Result<(), Fail> {
    let a = rt.alloc();
    assert!(rt; has_keys(a, compare(a, "k", Comparison::Equal, 7), &[(7, 7)])?);
    assert!(rt;
        has_keys(
            a,
            compare(a, "k", Comparison::NotEqual, 7),
            &[(MIN, 6), (8, MAX)]
        )?
    );
    assert!(rt; has_keys(a, compare(a, "k", Comparison::Less, 7), &[(MIN, 6)])?);
    assert!(rt; has_keys(a, compare(a, "k", Comparison::AtLeast, 1 << 63), &[])?);
    assert!(rt; has_keys(a, compare(a, "k", Comparison::AtMost, 1 << 63), &ALL)?);
    assert!(rt; has_keys(a, compare(a, "a", Comparison::Equal, 7), &ALL)?);
    assert!(rt; has_keys(a, turned(a, 7, Comparison::Less, "k"), &[(8, MAX)])?);
    Ok(())
}

#[test]
fn lists_and_betweens_have_keys(rt: HostRuntime) -> Result<(), Fail> {
    let a = rt.alloc();
    assert!(rt;
        has_keys(
            a,
            is_in(a, "k", false, &[3, 1, 1 << 64, 2, 9]),
            &[(1, 3), (9, 9)]
        )?
    );
    assert!(rt; has_keys(a, is_in(a, "k", true, &[3]), &ALL)?);
    assert!(rt; has_keys(a, between(a, "k", false, 3, 5), &[(3, 5)])?);
    assert!(rt; has_keys(a, between(a, "k", false, 5, 3), &[])?);
    assert!(rt; has_keys(a, between(a, "k", true, 3, 5), &ALL)?);
    Ok(())
}

fn pair(alloc: Global, first: Cond, second: Cond) -> Result<Items<Cond>, AllocError> {
    let mut parts = Vec::new(alloc);
    parts.push(first)?;
    parts.push(second)?;
    Ok(Items::from_vec(parts))
}

/// The key column is below 7, and another test.
fn both(alloc: Global, other: Result<Cond, Fail>) -> Result<Cond, Fail> {
    let other = other?;
    let low = compare(alloc, "k", Comparison::Less, 7)?;
    Ok(Cond::All(pair(alloc, low, other)?))
}

/// The same with OR.
fn either(alloc: Global, other: Result<Cond, Fail>) -> Result<Cond, Fail> {
    let other = other?;
    let low = compare(alloc, "k", Comparison::Less, 7)?;
    Ok(Cond::Any(pair(alloc, low, other)?))
}

fn opposite(alloc: Global, cond: Result<Cond, Fail>) -> Result<Cond, Fail> {
    Ok(Cond::Not(Boxed::new(alloc, cond?)?))
}

#[test]
fn conditions_have_keys(rt: HostRuntime) -> Result<(), Fail> {
    let a = rt.alloc();
    let parts = [(MIN, 6), (10, MAX)];
    assert!(rt; has_keys(a, both(a, compare(a, "k", Comparison::Greater, 9)), &[])?);
    assert!(rt;
        has_keys(
            a,
            either(a, compare(a, "k", Comparison::Greater, 9)),
            &parts
        )?
    );
    assert!(rt;
        has_keys(
            a,
            both(a, compare(a, "a", Comparison::Equal, 1)),
            &[(MIN, 6)]
        )?
    );
    assert!(rt; has_keys(a, either(a, compare(a, "a", Comparison::Equal, 1)), &ALL)?);
    assert!(rt; has_keys(a, opposite(a, compare(a, "k", Comparison::Less, 7)), &ALL)?);
    Ok(())
}
