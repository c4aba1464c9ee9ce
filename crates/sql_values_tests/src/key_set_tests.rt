//! Sets of keys: worked examples, and each public call with ample memory.

use sql_values::*;
use std::alloc::{AllocError, Global};
use std::test::Fail;

const MIN: i64 = i64::MIN;

const MAX: i64 = i64::MAX;

fn set(alloc: Global, pairs: &[(i64, i64)]) -> Result<Intervals, AllocError> {
    let mut list = Vec::new(alloc);
    for (low, high) in pairs {
        list.push(Interval {
            low: *low,
            high: *high,
        })?;
    }
    Intervals::from_vec(list)
}

fn is_set(keys: &Intervals, pairs: &[(i64, i64)]) -> bool {
    let intervals = keys.as_slice();
    if intervals.len() != pairs.len() {
        return false;
    }
    for (interval, (low, high)) in intervals.iter().zip(pairs) {
        if interval.low != *low || interval.high != *high {
            return false;
        }
    }
    true
}

fn is_joined(
    alloc: Global,
    pairs: &[(i64, i64)],
    joined: &[(i64, i64)],
) -> Result<bool, AllocError> {
    Ok(is_set(&set(alloc, pairs)?, joined))
}

fn has_gaps(alloc: Global, pairs: &[(i64, i64)], gaps: &[(i64, i64)]) -> Result<bool, AllocError> {
    Ok(is_set(&set(alloc, pairs)?.complement(alloc)?, gaps))
}

fn meets_in(
    alloc: Global,
    left: &[(i64, i64)],
    right: &[(i64, i64)],
    both: &[(i64, i64)],
) -> Result<bool, AllocError> {
    Ok(is_set(&set(alloc, left)?.meet(alloc, &set(alloc, right)?)?, both))
}

fn joins_to(
    alloc: Global,
    left: &[(i64, i64)],
    right: &[(i64, i64)],
    all: &[(i64, i64)],
) -> Result<bool, AllocError> {
    Ok(is_set(&set(alloc, left)?.join(alloc, &set(alloc, right)?)?, all))
}

fn has_all(alloc: Global) -> Result<bool, AllocError> {
    Ok(is_set(&Intervals::whole(alloc)?, &[(MIN, MAX)]) && Intervals::none(alloc).is_empty())
}

#[test]
fn sets_are_in_normal_form(rt: HostRuntime) -> Result<(), Fail> {
    let alloc = rt.alloc();
    let some = [(1, 3), (7, 12), (MAX, MAX)];
    let other = [(MIN, 1), (3, 8), (13, 20)];
    let given = [(7, 9), (5, 4), (1, 2), (3, 3), (8, 12), (MAX, MAX)];
    assert!(rt; is_joined(alloc, &given, &some)?);
    assert!(rt; has_gaps(alloc, &some, &[(MIN, 0), (4, 6), (13, MAX - 1)])?);
    assert!(rt; has_gaps(alloc, &[(MIN, MAX)], &[])?);
    assert!(rt; has_gaps(alloc, &[], &[(MIN, MAX)])?);
    assert!(rt; meets_in(alloc, &some, &other, &[(1, 1), (3, 3), (7, 8)])?);
    assert!(rt; joins_to(alloc, &some, &other, &[(MIN, 20), (MAX, MAX)])?);
    assert!(rt; has_all(alloc)?);
    Ok(())
}
