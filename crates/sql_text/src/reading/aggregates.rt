//! Calls of aggregate functions.
ghost use Rattle.std.specs.Prelude.{◌≡◌};
ghost use Rattle.sql_text.specs.Reading.{Gives, column_at, parenthesized_at, count_at, aggregate_at};

use crate::cursor::{begins, behind, expect, open};
use crate::fault::ReadError;
use crate::link::AggregateCall;
use crate::reading::names::column;
use crate::token::{Fixed, Token};
use sql_values::ColumnName;

/// COUNT's star in parentheses.
#[tactic(auto, unfolding(crate::specs::Reading::count_at, crate::specs::Reading::star_at))]
fn counted(depth: u32, tokens: &[Token]) -> Result<(AggregateCall, &[Token]), ReadError>
    ensures { Gives (λ x. (x.0, x.1.now)) result (count_at depth tokens.now) }
{
    let rest = open(Fixed::Open, depth, tokens)?;
    let rest = expect(Fixed::Star, rest)?;
    let rest = expect(Fixed::Close, rest)?;
    Ok((AggregateCall::Count, rest))
}

/// A column in parentheses.
fn enclosed_column(depth: u32, tokens: &[Token]) -> Result<(ColumnName, &[Token]), ReadError>
    ensures { Gives (λ x. (x.0, x.1.now)) result (parenthesized_at column_at depth tokens.now) }
{
    let rest = open(Fixed::Open, depth, tokens)?;
    let (column, rest) = column(rest)?;
    let rest = expect(Fixed::Close, rest)?;
    Ok((column, rest))
}

/// A call of an aggregate function.
#[tactic(auto, unfolding(crate::specs::Reading::aggregate_at))]
pub fn aggregate(depth: u32, tokens: &[Token]) -> Result<(AggregateCall, &[Token]), ReadError>
    ensures { Gives (λ x. (x.0, x.1.now)) result (aggregate_at depth tokens.now) }
{
    if begins(Fixed::Count, tokens) {
        return counted(depth, behind(tokens));
    }
    if begins(Fixed::Sum, tokens) {
        let (column, rest) = enclosed_column(depth, behind(tokens))?;
        return Ok((AggregateCall::Sum(column), rest));
    }
    if begins(Fixed::Min, tokens) {
        let (column, rest) = enclosed_column(depth, behind(tokens))?;
        return Ok((AggregateCall::Min(column), rest));
    }
    let rest = expect(Fixed::Max, tokens)?;
    let (column, rest) = enclosed_column(depth, rest)?;
    Ok((AggregateCall::Max(column), rest))
}
