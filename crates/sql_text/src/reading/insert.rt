//! INSERT.
ghost use Rattle.std.specs.Prelude.{◌≡◌, ◌++◌, [], ◌∷◌, length};
ghost use Rattle.sql_text.specs.declared.token.Fixed.TheVariants as fixed;
ghost use Rattle.sql_text.specs.Reading.{Gives, name_at, column_list_at, insert_at, literal_list_at, series_at, parenthesized_at, further_at, with_front};

use crate::cursor::{begins, behind, expect, name, open, optional};
use crate::fault::ReadError;
use crate::reading::names::{literal_list, table};
use crate::statement::{Insert, Names, Statement, TableStatement, Tuples};
use crate::token::{Fixed, Token};
use list_types::Listed;
use sql_values::{Literals, Name};
use std::alloc::Global;

/// Further names, each behind a comma, behind those that are there.
fn further_names(
    most: usize,
    first: Vec<Name>,
    tokens: &[Token],
) -> Result<(Vec<Name>, &[Token]), ReadError>
    ensures { Gives (λ x. (x.0.items, x.1.now)) result (with_front first.items (further_at most fixed.Comma name_at tokens.now)) }
{
    let mut names = first;
    let mut rest = tokens;
    for _ in 0..most {
        if !begins(Fixed::Comma, rest) {
            return Ok((names, rest));
        }
        match name(behind(rest)) {
            Ok((part, more)) => {
                names.push(part)?;
                rest = more;
            }
            Err(error) => return Err(error),
        }
    }
    Ok((names, rest))
}

/// Names with commas between them.
fn names(alloc: Global, tokens: &[Token]) -> Result<(Names, &[Token]), ReadError>
    ensures { Gives (λ x. (x.0, x.1.now)) result (series_at fixed.Comma name_at tokens.now) }
{
    let (first, rest) = name(tokens)?;
    let first = vec![in alloc; first]?;
    let (names, rest) = further_names(rest.len(), first, rest)?;
    Ok((Listed::from_vec(names), rest))
}

/// Names in parentheses, or none.
#[tactic(auto, unfolding(crate::specs::Reading::column_list_at))]
fn column_list(
    alloc: Global,
    depth: u32,
    tokens: &[Token],
) -> Result<(Option<Names>, &[Token]), ReadError>
    ensures { Gives (λ x. (x.0, x.1.now)) result (column_list_at depth tokens.now) }
{
    if !begins(Fixed::Open, tokens) {
        return Ok((None, tokens));
    }
    let rest = open(Fixed::Open, depth, tokens)?;
    let (names, rest) = names(alloc, rest)?;
    let rest = expect(Fixed::Close, rest)?;
    Ok((Some(names), rest))
}

/// Further rows, each behind a comma, behind those that are there.
fn further_tuples(
    alloc: Global,
    depth: u32,
    most: usize,
    first: Vec<Literals>,
    tokens: &[Token],
) -> Result<(Vec<Literals>, &[Token]), ReadError>
    ensures { Gives (λ x. (x.0.items, x.1.now)) result (with_front first.items (further_at most fixed.Comma (literal_list_at depth) tokens.now)) }
{
    let mut tuples = first;
    let mut rest = tokens;
    for _ in 0..most {
        if !begins(Fixed::Comma, rest) {
            return Ok((tuples, rest));
        }
        match literal_list(alloc, depth, behind(rest)) {
            Ok((part, more)) => {
                tuples.push(part)?;
                rest = more;
            }
            Err(error) => return Err(error),
        }
    }
    Ok((tuples, rest))
}

/// Rows with commas between them.
fn tuples(alloc: Global, depth: u32, tokens: &[Token]) -> Result<(Tuples, &[Token]), ReadError>
    ensures { Gives (λ x. (x.0, x.1.now)) result (series_at fixed.Comma (literal_list_at depth) tokens.now) }
{
    let (first, rest) = literal_list(alloc, depth, tokens)?;
    let first = vec![in alloc; first]?;
    let (tuples, rest) = further_tuples(alloc, depth, rest.len(), first, rest)?;
    Ok((Listed::from_vec(tuples), rest))
}

/// INSERT.
#[tactic(auto, unfolding(crate::specs::Reading::insert_at))]
pub fn insert(
    alloc: Global,
    depth: u32,
    tokens: &[Token],
) -> Result<(Statement, &[Token]), ReadError>
    ensures { Gives (λ x. (x.0, x.1.now)) result (insert_at depth tokens.now) }
{
    let rest = expect(Fixed::Insert, tokens)?;
    let (_, rest) = optional(Fixed::Into, rest);
    let (table, rest) = table(rest)?;
    let (columns, rest) = column_list(alloc, depth, rest)?;
    let rest = expect(Fixed::Values, rest)?;
    let (rows, rest) = tuples(alloc, depth, rest)?;
    let insert = Insert {
        table,
        columns,
        rows,
    };
    Ok((Statement::Table(TableStatement::Insert(insert)), rest))
}
