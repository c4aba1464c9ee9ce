ghost use Rattle.std.specs.Prelude.{◌≡◌, ℤ, pos, ◌+ℤ◌, ◌≤ℤ◌, ◌∷◌, IfOk, OnOk, IfSome, IfNone, FitsSigned, not, ◌||◌};
ghost use Rattle.std.specs.Int.{w64};
ghost use Rattle.sql_values.specs.KeySets.{AreKeys, has_key, is_within, IsNormal};
ghost use Rattle.sql_values.specs.Merging.{Ascends, IsAscending, with_gap};

use crate::Interval;
use std::alloc::{AllocError, Global};

/// Each key of a BIGINT.
pub(crate) const ALL_KEYS: Interval = Interval {
    low: i64::MIN,
    high: i64::MAX,
};

/// Both as one interval, where no key lies between them.
fn united(current: &Interval, next: &Interval) -> Option<Interval>
    requires filled { current.now.low ≤ℤ current.now.high }
    requires next_filled { next.now.low ≤ℤ next.now.high }
    requires ascending { current.now.low ≤ℤ next.now.low }
    ensures one { IfSome result (λ both. (both.low ≡ current.now.low) × (both.low ≤ℤ both.high)) }
    ensures keys { IfSome result (λ both. (key : ℤ) → is_within key both ≡ (is_within key current.now || is_within key next.now)) }
    ensures apart { IfNone result ((current.now.high +ℤ pos 2) ≤ℤ next.now.low) }
{
    if next.low > current.high && next.low - 1 > current.high {
        return None;
    }
    if next.high > current.high {
        return Some(Interval {
            low: current.low,
            high: next.high,
        });
    }
    Some(*current)
}

/// The intervals that have a key, by their beginnings.
fn ascending(mut list: Vec<Interval>) -> Result<Vec<Interval>, AllocError>
    ensures ascending { IfOk result (λ sorted. IsAscending sorted.items) }
    ensures keys { IfOk result (λ sorted. (key : ℤ) → has_key sorted.items key ≡ has_key list.items key) }
{
    list.retain(|interval| interval.low <= interval.high);
    list.sort_by_key(|interval| interval.low)?;
    Ok(list)
}

/// Intervals that meet or are neighbours made one.
fn joined_from(
    alloc: Global,
    first: &Interval,
    others: &[Interval],
) -> Result<Vec<Interval>, AllocError>
    requires filled { first.now.low ≤ℤ first.now.high }
    requires ascending { Ascends first.now.low others.now }
    ensures normal { IfOk result (λ list. IsNormal list.items) }
    ensures keys { IfOk result (λ list. (key : ℤ) → has_key list.items key ≡ has_key (first.now ∷ others.now) key) }
{
    let mut list = Vec::new(alloc);
    let mut current = *first;
    for next in others {
        if let Some(both) = united(&current, next) {
            current = both;
            continue;
        }
        list.push(current)?;
        current = *next;
    }
    list.push(current)?;
    Ok(list)
}

/// The same keys in normal form. It sorts by a method for which runs that rise already are cheap: joining two such runs is linear.
pub(crate) fn joined(list: Vec<Interval>) -> Result<Vec<Interval>, AllocError>
    ensures normal { IfOk result (λ joined. IsNormal joined.items) }
    ensures keys { IfOk result (λ joined. (key : ℤ) → has_key joined.items key ≡ has_key list.items key) }
{
    let sorted = ascending(list)?;
    match sorted.as_slice() {
        [first, others @ ..] => joined_from(*sorted.allocator(), first, others),
        [] => Ok(sorted),
    }
}

/// Adds the keys from the first of `rest` up to before an interval, where there are any.
fn push_gap(
    list: &mut Vec<Interval>,
    rest: &Interval,
    interval: &Interval,
) -> Result<(), AllocError>
    ensures gap { OnOk result (list.new.items ≡ with_gap list.old.items rest.now.low interval.now.low) }
    ensures fits { FitsSigned w64 interval.now.low }
{
    if rest.low >= interval.low {
        return Ok(());
    }
    list.push(Interval {
        low: rest.low,
        high: interval.low - 1,
    })?;
    Ok(())
}

/// The keys of a BIGINT that these intervals leave out.
pub(crate) fn gaps(alloc: Global, intervals: &[Interval]) -> Result<Vec<Interval>, AllocError>
    requires { IsNormal intervals.now }
    ensures normal { IfOk result (λ list. IsNormal list.items) }
    ensures keys { IfOk result (λ list. AreKeys list.items (λ key. not (has_key intervals.now key))) }
{
    let mut list = Vec::new(alloc);
    let mut rest = ALL_KEYS;
    for interval in intervals {
        push_gap(&mut list, &rest, interval)?;
        if interval.high == i64::MAX {
            return Ok(list);
        }
        rest.low = interval.high + 1;
    }
    list.push(rest)?;
    Ok(list)
}
