ghost use Rattle.std.specs.Prelude.{◌≡◌, ◌+◌, ◌<◌, ◌≤◌, ◌^◌, ◌≤ℤ◌, length, Some, None, IfOk};
ghost use Rattle.part_rules.specs.Rules.{hash_part, range_part, list_part};
ghost use Rattle.sql_values.specs.KeySets.{IsNormal};
ghost use Rattle.part_rules.specs.Placing.{part, part_count, IsRule};
ghost use Rattle.part_rules.specs.Marking.{Marks, AreMarks, begins_below as begins, behind as behind_of, marked_from};
ghost use Rattle.part_rules.specs.Pruned.{IsPruned};

use crate::bounds::{Bound, Bounds, lies_below};
use crate::lists::Lists;
use crate::rule::{Rule, hash_of};
use list_types::Listed;
use sql_values::{Interval, Intervals, PartNo, PartNos};
use std::alloc::{AllocError, Global};

fn begins_below(keys: &[Interval], bound: &Bound) -> bool
    ensures { result ≡ begins bound.now keys.now }
{
    match keys {
        [first, ..] => lies_below(&first.low, bound),
        [] => false,
    }
}

/// The intervals without those that end below the bound.
fn behind<'a>(keys: &'a [Interval], bound: &Bound) -> &'a [Interval]
    requires { IsNormal keys.now }
    ensures rest { result.now ≡ behind_of bound.now keys.now }
    ensures normal { IsNormal result.now }
{
    let count = keys.partition_point(|interval| lies_below(&interval.high, bound));
    keys.split_at(count).1
}

/// One binary search a partition, among the intervals that are left.
fn range_marks(alloc: Global, bounds: &Bounds, keys: &[Interval]) -> Result<Vec<bool>, AllocError>
    requires { IsNormal keys.now }
    ensures marks { IfOk result (λ marks. AreMarks (range_part bounds.now) keys.now marks.items) }
    ensures count { IfOk result (λ marks. length marks.items ≡ length bounds.now) }
{
    let mut marks = Vec::new(alloc);
    let mut rest = keys;
    for bound in bounds.as_slice() {
        marks.push(begins_below(rest, bound))?;
        rest = behind(rest, bound);
    }
    Ok(marks)
}

/// One search in the index an interval, and its keys that are listed.
fn list_marks(alloc: Global, lists: &Lists, keys: &[Interval]) -> Result<Vec<bool>, AllocError>
    requires { IsNormal keys.now }
    ensures marks { IfOk result (λ marks. AreMarks (list_part lists.now) keys.now marks.items) }
    ensures count { IfOk result (λ marks. length marks.items ≡ length lists.now) }
{
    let mut marks = vec![in alloc; false; lists.as_slice().len()]?;
    for interval in keys {
        lists.mark(interval, &mut marks);
    }
    Ok(marks)
}

/// Marks the partitions by HASH of an interval's keys, which are few.
fn mark_hashes(marks: &mut [bool], parts: u32, interval: &Interval)
    requires parts { (0 < parts) × (length marks.old ≡ parts) }
    requires filled { interval.now.low ≤ℤ interval.now.high }
    ensures { Marks (λ key. Some (hash_part parts key)) interval.now marks.old marks.new }
{
    for key in interval.low..=interval.high {
        marks[hash_of(&key, parts) as usize] = true;
    }
}

/// Of an interval with few keys each; more keys in a row lie in all partitions.
fn hash_marks(alloc: Global, parts: u32, keys: &[Interval]) -> Result<Vec<bool>, AllocError>
    requires parts { 0 < parts }
    requires normal { IsNormal keys.now }
    ensures marks { IfOk result (λ marks. AreMarks (λ key. Some (hash_part parts key)) keys.now marks.items) }
    ensures count { IfOk result (λ marks. length marks.items ≡ parts) }
{
    let mut marks = vec![in alloc; false; parts as usize]?;
    for interval in keys {
        if interval.high.abs_diff(interval.low) >= 2 * u64::from(parts - 1) {
            let all = vec![in alloc; true; parts as usize]?;
            return Ok(all);
        }
        mark_hashes(&mut marks, parts, interval);
    }
    Ok(marks)
}

/// The places of the marks.
fn marked(alloc: Global, marks: &[bool]) -> Result<PartNos, AllocError>
    requires { length marks.now < 2 ^ 32 }
    ensures { IfOk result (λ parts. parts ≡ marked_from 0 marks.now) }
{
    let mut parts = Listed::new(alloc);
    for (part, mark) in marks.iter().enumerate() {
        if *mark {
            parts.push(part as PartNo)?;
        }
    }
    Ok(parts)
}

fn owners(alloc: Global, rule: &Rule, keys: &Intervals) -> Result<Vec<bool>, AllocError>
    requires { IsRule rule.now }
    ensures marks { IfOk result (λ marks. AreMarks (part rule.now) keys.now marks.items) }
    ensures count { IfOk result (λ marks. length marks.items ≡ part_count rule.now) }
{
    let intervals = keys.as_slice();
    match rule {
        Rule::Whole => {
            let mut marks = Vec::new(alloc);
            marks.push(!keys.is_empty())?;
            Ok(marks)
        }
        Rule::Range(bounds) => range_marks(alloc, bounds, intervals),
        Rule::List(lists) => list_marks(alloc, lists, intervals),
        Rule::Hash(parts) => hash_marks(alloc, *parts, intervals),
    }
}

/// Exactly the partitions that own a key of the set, in order.
///
/// By RANGE the cost is that of one binary search a partition; by LIST, of one search an interval and its listed keys; by HASH, of a partition and of
/// at most twice as many keys an interval as there are partitions.
pub fn prune(alloc: Global, rule: &Rule, keys: &Intervals) -> Result<PartNos, AllocError>
    requires { IsRule rule.now }
    ensures { IfOk result (λ parts. IsPruned rule.now keys.now parts) }
{
    let marks = owners(alloc, rule, keys)?;
    marked(alloc, &marks)
}
