//! Scans.
ghost use Rattle.std.specs.Prelude.{◌≡◌, ◌++◌, [], ◌∷◌, length};
ghost use Rattle.sql_text.specs.declared.token.Fixed.TheVariants as fixed;
ghost use Rattle.sql_text.specs.Reading.{Gives, aggregate_at, further_at, with_front};
ghost use Rattle.sql_text.specs.LinkReading.{scan_items_at, order_at, limit_at, scan_at};

use crate::cursor::{begins, behind, expect, name};
use crate::fault::ReadError;
use crate::link::{AggregateCall, LinkRequest, Scan, ScanItems};
use crate::reading::aggregates::aggregate;
use crate::reading::limits::count;
use crate::reading::locks::lock;
use crate::reading::select::where_cond;
use crate::token::{Fixed, Token};
use list_types::Listed;
use sql_values::Name;
use std::alloc::Global;

/// The most aggregates of a scan behind the first one.
const MOST_FURTHER_AGGREGATES: usize = 999;

/// Further aggregates, each behind a comma, behind those that are there.
fn further_aggregates(
    depth: u32,
    most: usize,
    first: Vec<AggregateCall>,
    tokens: &[Token],
) -> Result<(Vec<AggregateCall>, &[Token]), ReadError>
    ensures { Gives (λ x. (x.0.items, x.1.now)) result (with_front first.items (further_at most fixed.Comma (aggregate_at depth) tokens.now)) }
{
    let mut calls = first;
    let mut rest = tokens;
    for _ in 0..most {
        if !begins(Fixed::Comma, rest) {
            return Ok((calls, rest));
        }
        match aggregate(depth, behind(rest)) {
            Ok((part, more)) => {
                calls.push(part)?;
                rest = more;
            }
            Err(error) => return Err(error),
        }
    }
    Ok((calls, rest))
}

/// The items of a scan.
#[tactic(auto, unfolding(crate::specs::LinkReading::scan_items_at))]
fn scan_items(
    alloc: Global,
    depth: u32,
    tokens: &[Token],
) -> Result<(ScanItems, &[Token]), ReadError>
    ensures { Gives (λ x. (x.0, x.1.now)) result (scan_items_at depth tokens.now) }
{
    if begins(Fixed::Star, tokens) {
        return Ok((ScanItems::All, behind(tokens)));
    }
    let (first, rest) = aggregate(depth, tokens)?;
    let first = vec![in alloc; first]?;
    let (calls, rest) = further_aggregates(depth, MOST_FURTHER_AGGREGATES, first, rest)?;
    Ok((ScanItems::Aggregates(Listed::from_vec(calls)), rest))
}

/// ORDER BY and a name, where the items are all columns.
#[tactic(auto, unfolding(crate::specs::LinkReading::order_at))]
fn order<'a>(
    items: &ScanItems,
    tokens: &'a [Token],
) -> Result<(Option<Name>, &'a [Token]), ReadError>
    ensures { Gives (λ x. (x.0, x.1.now)) result (order_at items.now tokens.now) }
{
    match items {
        ScanItems::All => {
            let rest = expect(Fixed::Order, tokens)?;
            let rest = expect(Fixed::By, rest)?;
            let (key, rest) = name(rest)?;
            Ok((Some(key), rest))
        }
        ScanItems::Aggregates(_) => Ok((None, tokens)),
    }
}

/// LIMIT and its count, or none.
#[tactic(auto, unfolding(crate::specs::LinkReading::limit_at))]
fn limit(tokens: &[Token]) -> Result<(Option<u64>, &[Token]), ReadError>
    ensures { Gives (λ x. (x.0, x.1.now)) result (limit_at tokens.now) }
{
    if !begins(Fixed::Limit, tokens) {
        return Ok((None, tokens));
    }
    let (count, rest) = count(behind(tokens))?;
    Ok((Some(count), rest))
}

/// A scan.
#[tactic(auto, unfolding(crate::specs::LinkReading::scan_at))]
pub fn scan(
    alloc: Global,
    depth: u32,
    tokens: &[Token],
) -> Result<(LinkRequest, &[Token]), ReadError>
    ensures { Gives (λ x. (x.0, x.1.now)) result (scan_at depth tokens.now) }
{
    let rest = expect(Fixed::Select, tokens)?;
    let (items, rest) = scan_items(alloc, depth, rest)?;
    let rest = expect(Fixed::From, rest)?;
    let (table, rest) = name(rest)?;
    let (cond, rest) = where_cond(alloc, depth, rest)?;
    let (order, rest) = order(&items, rest)?;
    let (limit, rest) = limit(rest)?;
    let (lock, rest) = lock(rest)?;
    let scan = Scan {
        table,
        items,
        cond,
        order,
        limit,
        lock,
    };
    Ok((LinkRequest::Scan(scan), rest))
}
