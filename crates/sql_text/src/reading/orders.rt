//! ORDER BY.
ghost use Rattle.std.specs.Prelude.{◌≡◌, ◌++◌, [], ◌∷◌, length};
ghost use Rattle.sql_text.specs.declared.token.Fixed.TheVariants as fixed;
ghost use Rattle.sql_text.specs.Reading.{Gives, direction_at, sort_at, sort_list_at, sorts_at, order_at, series_at, further_at, with_front};

use crate::cursor::{begins, behind, expect};
use crate::fault::ReadError;
use crate::reading::names::column;
use crate::statement::{SelectItems, SortItem, SortList};
use crate::token::{Fixed, Token};
use list_types::Listed;
use std::alloc::Global;

/// Whether rows are sorted rising, as they are without ASC and DESC.
#[tactic(auto, unfolding(crate::specs::Reading::direction_at))]
fn direction(tokens: &[Token]) -> Result<(bool, &[Token]), ReadError>
    ensures { Gives (λ x. (x.0, x.1.now)) result (direction_at tokens.now) }
{
    if begins(Fixed::Asc, tokens) {
        return Ok((true, behind(tokens)));
    }
    if begins(Fixed::Desc, tokens) {
        return Ok((false, behind(tokens)));
    }
    Ok((true, tokens))
}

/// A column and its direction.
#[tactic(auto, unfolding(crate::specs::Reading::sort_at))]
fn sort(tokens: &[Token]) -> Result<(SortItem, &[Token]), ReadError>
    ensures { Gives (λ x. (x.0, x.1.now)) result (sort_at tokens.now) }
{
    let (column, rest) = column(tokens)?;
    let (rising, rest) = direction(rest)?;
    Ok((SortItem { column, rising }, rest))
}

/// Further columns, each behind a comma, behind those that are there.
fn further_sorts(
    most: usize,
    first: Vec<SortItem>,
    tokens: &[Token],
) -> Result<(Vec<SortItem>, &[Token]), ReadError>
    ensures { Gives (λ x. (x.0.items, x.1.now)) result (with_front first.items (further_at most fixed.Comma sort_at tokens.now)) }
{
    let mut sorts = first;
    let mut rest = tokens;
    for _ in 0..most {
        if !begins(Fixed::Comma, rest) {
            return Ok((sorts, rest));
        }
        match sort(behind(rest)) {
            Ok((part, more)) => {
                sorts.push(part)?;
                rest = more;
            }
            Err(error) => return Err(error),
        }
    }
    Ok((sorts, rest))
}

/// Columns with commas between them.
fn sort_items(alloc: Global, tokens: &[Token]) -> Result<(SortList, &[Token]), ReadError>
    ensures { Gives (λ x. (x.0, x.1.now)) result (series_at fixed.Comma sort_at tokens.now) }
{
    let (first, rest) = sort(tokens)?;
    let first = vec![in alloc; first]?;
    let (sorts, rest) = further_sorts(rest.len(), first, rest)?;
    Ok((Listed::from_vec(sorts), rest))
}

/// What stands behind ORDER.
#[tactic(auto, unfolding(crate::specs::Reading::sort_list_at))]
fn sort_list(alloc: Global, tokens: &[Token]) -> Result<(SortList, &[Token]), ReadError>
    ensures { Gives (λ x. (x.0, x.1.now)) result (sort_list_at tokens.now) }
{
    let rest = expect(Fixed::By, tokens)?;
    sort_items(alloc, rest)
}

/// ORDER BY and its columns, or none.
#[tactic(auto, unfolding(crate::specs::Reading::sorts_at))]
fn sorts(alloc: Global, tokens: &[Token]) -> Result<(SortList, &[Token]), ReadError>
    ensures { Gives (λ x. (x.0, x.1.now)) result (sorts_at tokens.now) }
{
    if !begins(Fixed::Order, tokens) {
        return Ok((Listed::new(alloc), tokens));
    }
    sort_list(alloc, behind(tokens))
}

/// ORDER BY and its columns, or none, where the items are no aggregates.
#[tactic(auto, unfolding(crate::specs::Reading::order_at))]
pub fn order<'a>(
    alloc: Global,
    items: &SelectItems,
    tokens: &'a [Token],
) -> Result<(SortList, &'a [Token]), ReadError>
    ensures { Gives (λ x. (x.0, x.1.now)) result (order_at items.now tokens.now) }
{
    match items {
        SelectItems::All => sorts(alloc, tokens),
        SelectItems::Columns(_) => sorts(alloc, tokens),
        SelectItems::Aggregates(_) => Ok((Listed::new(alloc), tokens)),
    }
}
