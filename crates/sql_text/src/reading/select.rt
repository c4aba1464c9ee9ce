//! SELECT.
ghost use Rattle.std.specs.Prelude.{◌≡◌, ◌++◌, [], ◌∷◌, length};
ghost use Rattle.sql_text.specs.declared.token.Fixed.TheVariants as fixed;
ghost use Rattle.sql_text.specs.Reading.{Gives, item_at, column_items_at, aggregate_item_at, aggregate_items_at, select_items_at, tab_at, where_at, rows_at, asked_at, select_at, further_at, with_front};

use crate::cursor::{begins, behind, expect, name_stands};
use crate::fault::ReadError;
use crate::reading::admin::of_server;
use crate::reading::aggregates::aggregate;
use crate::reading::conditions::cond;
use crate::reading::limits::limit;
use crate::reading::locks::locked;
use crate::reading::names::{alias, column, table};
use crate::reading::orders::order;
use crate::statement::{AggregateItem, Item, Select, SelectItems, Statement, Tab, TableStatement};
use crate::token::{Fixed, Token};
use list_types::Listed;
use sql_values::Cond;
use std::alloc::Global;

/// The most items of a SELECT behind the first one.
const MOST_FURTHER_ITEMS: usize = 899;

/// A column with its alias.
#[tactic(auto, unfolding(crate::specs::Reading::item_at))]
fn item(tokens: &[Token]) -> Result<(Item, &[Token]), ReadError>
    ensures { Gives (λ x. (x.0, x.1.now)) result (item_at tokens.now) }
{
    let (column, rest) = column(tokens)?;
    let (alias, rest) = alias(rest)?;
    Ok((Item { column, alias }, rest))
}

/// Further items, each behind a comma, behind those that are there.
fn further_items(
    most: usize,
    first: Vec<Item>,
    tokens: &[Token],
) -> Result<(Vec<Item>, &[Token]), ReadError>
    ensures { Gives (λ x. (x.0.items, x.1.now)) result (with_front first.items (further_at most fixed.Comma item_at tokens.now)) }
{
    let mut items = first;
    let mut rest = tokens;
    for _ in 0..most {
        if !begins(Fixed::Comma, rest) {
            return Ok((items, rest));
        }
        match item(behind(rest)) {
            Ok((part, more)) => {
                items.push(part)?;
                rest = more;
            }
            Err(error) => return Err(error),
        }
    }
    Ok((items, rest))
}

/// Columns with commas between them.
#[tactic(auto, unfolding(crate::specs::Reading::column_items_at))]
fn column_items(alloc: Global, tokens: &[Token]) -> Result<(SelectItems, &[Token]), ReadError>
    ensures { Gives (λ x. (x.0, x.1.now)) result (column_items_at tokens.now) }
{
    let (first, rest) = item(tokens)?;
    let first = vec![in alloc; first]?;
    let (items, rest) = further_items(MOST_FURTHER_ITEMS, first, rest)?;
    Ok((SelectItems::Columns(Listed::from_vec(items)), rest))
}

/// An aggregate with its alias.
#[tactic(auto, unfolding(crate::specs::Reading::aggregate_item_at))]
fn aggregate_item(depth: u32, tokens: &[Token]) -> Result<(AggregateItem, &[Token]), ReadError>
    ensures { Gives (λ x. (x.0, x.1.now)) result (aggregate_item_at depth tokens.now) }
{
    let (call, rest) = aggregate(depth, tokens)?;
    let (alias, rest) = alias(rest)?;
    Ok((AggregateItem { call, alias }, rest))
}

/// Further aggregates, each behind a comma, behind those that are there.
fn further_aggregate_items(
    depth: u32,
    most: usize,
    first: Vec<AggregateItem>,
    tokens: &[Token],
) -> Result<(Vec<AggregateItem>, &[Token]), ReadError>
    ensures { Gives (λ x. (x.0.items, x.1.now)) result (with_front first.items (further_at most fixed.Comma (aggregate_item_at depth) tokens.now)) }
{
    let mut items = first;
    let mut rest = tokens;
    for _ in 0..most {
        if !begins(Fixed::Comma, rest) {
            return Ok((items, rest));
        }
        match aggregate_item(depth, behind(rest)) {
            Ok((part, more)) => {
                items.push(part)?;
                rest = more;
            }
            Err(error) => return Err(error),
        }
    }
    Ok((items, rest))
}

/// Aggregates with commas between them.
#[tactic(auto, unfolding(crate::specs::Reading::aggregate_items_at))]
fn aggregate_items(
    alloc: Global,
    depth: u32,
    tokens: &[Token],
) -> Result<(SelectItems, &[Token]), ReadError>
    ensures { Gives (λ x. (x.0, x.1.now)) result (aggregate_items_at depth tokens.now) }
{
    let (first, rest) = aggregate_item(depth, tokens)?;
    let first = vec![in alloc; first]?;
    let (items, rest) = further_aggregate_items(depth, MOST_FURTHER_ITEMS, first, rest)?;
    Ok((SelectItems::Aggregates(Listed::from_vec(items)), rest))
}

/// The items of a SELECT.
#[tactic(auto, unfolding(crate::specs::Reading::select_items_at))]
fn select_items(
    alloc: Global,
    depth: u32,
    tokens: &[Token],
) -> Result<(SelectItems, &[Token]), ReadError>
    ensures { Gives (λ x. (x.0, x.1.now)) result (select_items_at depth tokens.now) }
{
    if begins(Fixed::Star, tokens) {
        return Ok((SelectItems::All, behind(tokens)));
    }
    if name_stands(tokens) {
        return column_items(alloc, tokens);
    }
    aggregate_items(alloc, depth, tokens)
}

/// A table with its alias.
#[tactic(auto, unfolding(crate::specs::Reading::tab_at))]
fn tab(tokens: &[Token]) -> Result<(Tab, &[Token]), ReadError>
    ensures { Gives (λ x. (x.0, x.1.now)) result (tab_at tokens.now) }
{
    let (table, rest) = table(tokens)?;
    let (alias, rest) = alias(rest)?;
    Ok((Tab { table, alias }, rest))
}

/// WHERE and its condition, or none.
#[tactic(auto, unfolding(crate::specs::Reading::where_at))]
pub fn where_cond(
    alloc: Global,
    depth: u32,
    tokens: &[Token],
) -> Result<(Option<Cond>, &[Token]), ReadError>
    ensures { Gives (λ x. (x.0, x.1.now)) result (where_at depth tokens.now) }
{
    if !begins(Fixed::Where, tokens) {
        return Ok((None, tokens));
    }
    let (cond, rest) = cond(alloc, depth, behind(tokens))?;
    Ok((Some(cond), rest))
}

/// A SELECT of rows, behind its first word.
#[tactic(auto, unfolding(crate::specs::Reading::rows_at))]
fn rows(alloc: Global, depth: u32, tokens: &[Token]) -> Result<(Statement, &[Token]), ReadError>
    ensures { Gives (λ x. (x.0, x.1.now)) result (rows_at depth tokens.now) }
{
    let (items, rest) = select_items(alloc, depth, tokens)?;
    let rest = expect(Fixed::From, rest)?;
    let (tab, rest) = tab(rest)?;
    let (cond, rest) = where_cond(alloc, depth, rest)?;
    let (order, rest) = order(alloc, &items, rest)?;
    let (limit, rest) = limit(&items, rest)?;
    let (lock, rest) = locked(rest)?;
    let select = Select {
        items,
        tab,
        cond,
        order,
        limit,
        lock,
    };
    Ok((Statement::Table(TableStatement::Select(select)), rest))
}

/// What stands behind SELECT.
#[tactic(auto, unfolding(crate::specs::Reading::asked_at))]
fn asked(alloc: Global, depth: u32, tokens: &[Token]) -> Result<(Statement, &[Token]), ReadError>
    ensures { Gives (λ x. (x.0, x.1.now)) result (asked_at depth tokens.now) }
{
    if begins(Fixed::VersionComment, tokens) || begins(Fixed::Database, tokens) {
        let (admin, rest) = of_server(depth, tokens)?;
        return Ok((Statement::Admin(admin), rest));
    }
    rows(alloc, depth, tokens)
}

/// SELECT.
#[tactic(auto, unfolding(crate::specs::Reading::select_at))]
pub fn select(
    alloc: Global,
    depth: u32,
    tokens: &[Token],
) -> Result<(Statement, &[Token]), ReadError>
    ensures { Gives (λ x. (x.0, x.1.now)) result (select_at depth tokens.now) }
{
    let rest = expect(Fixed::Select, tokens)?;
    asked(alloc, depth, rest)
}
