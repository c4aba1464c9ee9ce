//! How an entry cuts its table into partitions.
ghost use Rattle.std.specs.Prelude.{◌≡◌, ◌<◌, ◌≤◌, ◌^◌, List, ℤ, Option, Some, None, IfOk, length, map, nat_eq, option_and_then};
ghost use Rattle.std.specs.List.{list_all};
ghost use Rattle.std.specs.Option.{option_map};
ghost use Rattle.part_rules.specs.Rules.{is_lower as lower, rises};
ghost use Rattle.catalog.specs.Comment.{is_text};
ghost use Rattle.catalog.specs.Rules.{cut_by as cut_named, cut_of as cut_meant, is_count as counts, bound_by as bound_meant, bound_of as end_of, listed as keys_listed, risen as rising, counted_rule as rule_counted, parted_rule as rule_parted, rule_by as rule_made, rule_of as rule_meant, follows as may_follow, range_break as first_unrisen, is_first as owns_key, is_apart as stands_apart, list_break as first_met, bounds_break_by as break_of, bounds_break as first_break, is_bad_cut as bad_cut};
ghost use Rattle.catalog.specs.Searches.{each};

use conf_file::{BoundEntry, PartEntry, TableEntry};
use list_types::{Listed, Text};
use part_rules::{Bound, Bounds, Lists, Rule};
use sql_values::Keys;
use std::alloc::{AllocError, Global};

/// How a table is cut.
#[derive(Clone, Copy, Debug, PartialEq, Eq)]
pub(crate) enum Cut {
    /// Not at all.
    Whole,
    Range,
    List,
    Hash,
    /// By something that isn't a rule.
    Unknown,
}

fn is(word: &str, text: &str) -> bool
    ensures { result ≡ is_text word.now text.now }
{
    word == text
}

fn cut_by(text: &str) -> Cut
    ensures { result ≡ cut_named text.now }
{
    if is("RANGE", text) {
        return Cut::Range;
    }
    if is("LIST", text) {
        return Cut::List;
    }
    if is("HASH", text) {
        return Cut::Hash;
    }
    Cut::Unknown
}

/// How an entry cuts its table.
pub(crate) fn cut_of(table: &TableEntry) -> Cut
    ensures { result ≡ cut_meant table.now.partition }
{
    match &table.partition {
        Some(text) => cut_by(text.as_str()),
        None => Cut::Whole,
    }
}

fn is_count(count: usize) -> bool
    ensures { result ≡ counts count }
{
    1 <= count && count <= u32::MAX as usize
}

fn bound_by(bound: &BoundEntry) -> Bound
    ensures { result ≡ bound_meant bound.now }
{
    match bound {
        BoundEntry::Below(key) => Bound::Below(*key),
        BoundEntry::MaxValue => Bound::MaxValue,
    }
}

fn bound_of(part: &PartEntry) -> Option<Bound>
    ensures { result ≡ end_of part.now }
{
    match &part.less_than {
        Some(bound) => Some(bound_by(bound)),
        None => None,
    }
}

fn bounds_of(alloc: Global, parts: &[PartEntry]) -> Result<Option<Listed<Bound>>, AllocError>
    ensures { IfOk result (λ found. found ≡ each end_of parts.now) }
{
    let mut bounds = Listed::new(alloc);
    for part in parts {
        match bound_of(part) {
            Some(bound) => bounds.push(bound)?,
            None => return Ok(None),
        }
    }
    Ok(Some(bounds))
}

fn listed(alloc: Global, part: &PartEntry) -> Result<Keys, AllocError>
    ensures { IfOk result (λ keys. keys ≡ keys_listed part.now) }
{
    match &part.in_list {
        Some(keys) => keys.clone(),
        None => Ok(Listed::new(alloc)),
    }
}

fn lists_of(alloc: Global, parts: &[PartEntry]) -> Result<Listed<Keys>, AllocError>
    ensures { IfOk result (λ lists. lists ≡ map keys_listed parts.now) }
{
    let mut lists = Listed::new(alloc);
    for part in parts {
        lists.push(listed(alloc, part)?)?;
    }
    Ok(lists)
}

fn risen(bounds: Listed<Bound>) -> Option<Rule>
    ensures { result ≡ rising bounds }
{
    match Bounds::from_list(bounds) {
        Ok(bounds) => Some(Rule::Range(bounds)),
        Err(_list) => None,
    }
}

/// The rule of partitions that can be numbered.
fn counted_rule(alloc: Global, cut: Cut, parts: &[PartEntry]) -> Result<Option<Rule>, AllocError>
    requires { length parts.now < 2 ^ 32 }
    ensures { IfOk result (λ found. found ≡ rule_counted cut parts.now) }
{
    match cut {
        Cut::Range => match bounds_of(alloc, parts)? {
            Some(bounds) => Ok(risen(bounds)),
            None => Ok(None),
        },
        Cut::List => {
            let lists = lists_of(alloc, parts)?;
            Ok(Some(Rule::List(Lists::new(alloc, lists)?)))
        }
        Cut::Hash => Ok(Some(Rule::Hash(parts.len() as u32))),
        Cut::Whole => Ok(None),
        Cut::Unknown => Ok(None),
    }
}

fn parted_rule(alloc: Global, cut: Cut, parts: &[PartEntry]) -> Result<Option<Rule>, AllocError>
    ensures { IfOk result (λ found. found ≡ rule_parted cut parts.now) }
{
    if is_count(parts.len()) {
        counted_rule(alloc, cut, parts)
    } else {
        Ok(None)
    }
}

fn rule_by(alloc: Global, cut: Cut, parts: &[PartEntry]) -> Result<Option<Rule>, AllocError>
    ensures { IfOk result (λ found. found ≡ rule_made cut parts.now) }
{
    match cut {
        Cut::Whole => match parts {
            [] => Ok(Some(Rule::Whole)),
            [_part, ..] => Ok(None),
        },
        Cut::Range => parted_rule(alloc, cut, parts),
        Cut::List => parted_rule(alloc, cut, parts),
        Cut::Hash => parted_rule(alloc, cut, parts),
        Cut::Unknown => Ok(None),
    }
}

/// The rule that an entry gives.
#[tactic(auto, unfolding(crate::specs::Rules::rule_of))]
pub(crate) fn rule_of(alloc: Global, table: &TableEntry) -> Result<Option<Rule>, AllocError>
    ensures { IfOk result (λ found. found ≡ rule_meant table.now) }
{
    rule_by(alloc, cut_of(table), table.parts.as_slice())
}

fn is_lower(low: &Bound, high: &Bound) -> bool
    ensures { result ≡ lower low.now high.now }
{
    match (low, high) {
        (Bound::Below(low), Bound::Below(high)) => *low < *high,
        (Bound::Below(_), Bound::MaxValue) => true,
        (Bound::MaxValue, _) => false,
    }
}

fn follows(low: &Option<Bound>, bound: &Option<Bound>) -> bool
    ensures { result ≡ may_follow low.now bound.now }
{
    match (low, bound) {
        (_, None) => false,
        (None, Some(_)) => true,
        (Some(low), Some(bound)) => is_lower(low, bound),
    }
}

/// The first partition whose bound isn't above the one before it.
fn range_break(parts: &[PartEntry]) -> Option<&Text>
    ensures { option_map (λ r. r.now) result ≡ first_unrisen None parts.now }
{
    let mut low = None;
    for part in parts {
        let bound = bound_of(part);
        if !follows(&low, &bound) {
            return Some(&part.name);
        }
        low = bound;
    }
    None
}

/// Whether the partition is the first whose list has the key.
#[tactic(auto, unfolding(crate::specs::Rules::is_first))]
fn is_first(lists: &Lists, place: u32, key: &i64) -> bool
    ensures { result ≡ owns_key lists.now place key.now }
{
    lists.part_of(key) == Some(place)
}

fn all_first(lists: &Lists, place: u32, keys: &[i64]) -> bool
    ensures { result ≡ list_all (owns_key lists.now place) keys.now }
{
    for key in keys {
        if !is_first(lists, place, key) {
            return false;
        }
    }
    true
}

fn is_apart(lists: &Lists, place: u32, part: &PartEntry) -> bool
    ensures { result ≡ stands_apart lists.now place (keys_listed part.now) }
{
    match &part.in_list {
        Some(keys) => keys.len() != 0 && all_first(lists, place, keys.as_slice()),
        None => false,
    }
}

/// The first partition whose list is empty or meets one before it.
fn list_break<'a>(lists: &Lists, parts: &'a [PartEntry]) -> Option<&'a Text>
    requires { length parts.now < 2 ^ 32 }
    ensures { option_map (λ r. r.now) result ≡ first_met lists.now 0 parts.now }
{
    for (i, part) in parts.iter().enumerate() {
        if !is_apart(lists, i as u32, part) {
            return Some(&part.name);
        }
    }
    None
}

/// The first partition that breaks the order of the bounds, or that the lists are apart.
#[tactic(auto, unfolding(crate::specs::Rules::bounds_break))]
pub(crate) fn bounds_break(alloc: Global, table: &TableEntry) -> Result<Option<&Text>, AllocError>
    ensures { IfOk result (λ found. option_map (λ r. r.now) found ≡ first_break table.now) }
{
    let parts = table.parts.as_slice();
    match cut_of(table) {
        Cut::Range => Ok(range_break(parts)),
        Cut::List => {
            if !is_count(parts.len()) {
                return Ok(None);
            }
            let lists = Lists::new(alloc, lists_of(alloc, parts)?)?;
            Ok(list_break(&lists, parts))
        }
        Cut::Whole => Ok(None),
        Cut::Hash => Ok(None),
        Cut::Unknown => Ok(None),
    }
}

/// Whether the entry's rule is none, or its partitions don't go with it.
pub(crate) fn is_bad_cut(table: &TableEntry) -> bool
    ensures { result ≡ bad_cut (cut_meant table.now.partition) (length table.now.parts) }
{
    let parts = table.parts.len();
    match cut_of(table) {
        Cut::Whole => parts != 0,
        Cut::Range => !is_count(parts),
        Cut::List => !is_count(parts),
        Cut::Hash => !is_count(parts),
        Cut::Unknown => true,
    }
}
