//! Conditions: OR binds loosest, then AND, then NOT, then the tests.
ghost use Rattle.std.specs.Prelude.{◌≡◌, ◌++◌, [], ◌∷◌, length, true, false};
ghost use Rattle.sql_values.specs.declared.tree.Cond.TheVariants as conds;
ghost use Rattle.sql_text.specs.declared.token.Fixed.TheVariants as fixed;
ghost use Rattle.sql_text.specs.Grammar.{joined as joined_as};
ghost use Rattle.sql_text.specs.Reading.{Gives, operand_at, compared_at, listed_at, ranged_at, behind_not_at, behind_column_at, comparison_at, neg_at, cond_at, conj_by, closed_by, further_at, with_front};

use crate::cursor::{
    begins, behind, comparison as comparison_sign, comparison_stands, expect, literal,
    literal_stands, too_deep,
};
use crate::fault::ReadError;
use crate::reading::names::{column, literal_list};
use crate::token::{Fixed, Token};
use sql_values::{ColumnName, Cond, Operand};
use sqlite_items::{Boxed, Items};
use std::alloc::Global;

/// A literal or a column.
#[tactic(auto, unfolding(crate::specs::Reading::operand_at))]
fn operand(tokens: &[Token]) -> Result<(Operand, &[Token]), ReadError>
    ensures { Gives (λ x. (x.0, x.1.now)) result (operand_at tokens.now) }
{
    if literal_stands(tokens) {
        let (literal, rest) = literal(tokens)?;
        return Ok((Operand::Literal(literal), rest));
    }
    let (column, rest) = column(tokens)?;
    Ok((Operand::Column(column), rest))
}

/// A comparison behind its left operand.
#[tactic(auto, unfolding(crate::specs::Reading::compared_at))]
fn compared(left: Operand, tokens: &[Token]) -> Result<(Cond, &[Token]), ReadError>
    ensures { Gives (λ x. (x.0, x.1.now)) result (compared_at left tokens.now) }
{
    let (comparison, rest) = comparison_sign(tokens)?;
    let (right, rest) = operand(rest)?;
    let cond = Cond::Compare {
        left,
        comparison,
        right,
    };
    Ok((cond, rest))
}

/// IN and its list, behind a column.
#[tactic(auto, unfolding(crate::specs::Reading::listed_at))]
fn listed(
    alloc: Global,
    depth: u32,
    column: ColumnName,
    negated: bool,
    tokens: &[Token],
) -> Result<(Cond, &[Token]), ReadError>
    ensures { Gives (λ x. (x.0, x.1.now)) result (listed_at depth column negated tokens.now) }
{
    let rest = expect(Fixed::In, tokens)?;
    let (list, rest) = literal_list(alloc, depth, rest)?;
    let cond = Cond::In {
        column,
        negated,
        list,
    };
    Ok((cond, rest))
}

/// BETWEEN and its bounds, behind a column.
#[tactic(auto, unfolding(crate::specs::Reading::ranged_at))]
fn ranged(
    column: ColumnName,
    negated: bool,
    tokens: &[Token],
) -> Result<(Cond, &[Token]), ReadError>
    ensures { Gives (λ x. (x.0, x.1.now)) result (ranged_at column negated tokens.now) }
{
    let rest = expect(Fixed::Between, tokens)?;
    let (low, rest) = literal(rest)?;
    let rest = expect(Fixed::And, rest)?;
    let (high, rest) = literal(rest)?;
    let cond = Cond::Between {
        column,
        negated,
        low,
        high,
    };
    Ok((cond, rest))
}

/// IN or BETWEEN, behind a column and a NOT or none.
#[tactic(auto, unfolding(crate::specs::Reading::behind_not_at))]
fn behind_not(
    alloc: Global,
    depth: u32,
    column: ColumnName,
    negated: bool,
    tokens: &[Token],
) -> Result<(Cond, &[Token]), ReadError>
    ensures { Gives (λ x. (x.0, x.1.now)) result (behind_not_at depth column negated tokens.now) }
{
    if begins(Fixed::In, tokens) {
        listed(alloc, depth, column, negated, tokens)
    } else {
        ranged(column, negated, tokens)
    }
}

/// What makes a test of a column.
#[tactic(auto, unfolding(crate::specs::Reading::behind_column_at))]
fn behind_column(
    alloc: Global,
    depth: u32,
    column: ColumnName,
    tokens: &[Token],
) -> Result<(Cond, &[Token]), ReadError>
    ensures { Gives (λ x. (x.0, x.1.now)) result (behind_column_at depth column tokens.now) }
{
    if comparison_stands(tokens) {
        return compared(Operand::Column(column), tokens);
    }
    if begins(Fixed::Not, tokens) {
        return behind_not(alloc, depth, column, true, behind(tokens));
    }
    behind_not(alloc, depth, column, false, tokens)
}

/// A test that begins with an operand.
#[tactic(auto, unfolding(crate::specs::Reading::comparison_at))]
fn comparison(alloc: Global, depth: u32, tokens: &[Token]) -> Result<(Cond, &[Token]), ReadError>
    ensures { Gives (λ x. (x.0, x.1.now)) result (comparison_at depth tokens.now) }
{
    if literal_stands(tokens) {
        let (literal, rest) = literal(tokens)?;
        return compared(Operand::Literal(literal), rest);
    }
    let (column, rest) = column(tokens)?;
    behind_column(alloc, depth, column, rest)
}

/// The parts joined by AND, or the one part.
fn joined_by_and(mut parts: Vec<Cond>) -> Cond
    ensures { result ≡ joined_as conds.All parts.items }
{
    if parts.len() == 1 {
        let Some(part) = parts.pop() else {
            unreachable!()
        };
        return part;
    }
    Cond::All(Items::from_vec(parts))
}

/// The parts joined by OR, or the one part.
fn joined_by_or(mut parts: Vec<Cond>) -> Cond
    ensures { result ≡ joined_as conds.Any parts.items }
{
    if parts.len() == 1 {
        let Some(part) = parts.pop() else {
            unreachable!()
        };
        return part;
    }
    Cond::Any(Items::from_vec(parts))
}

/// A condition in parentheses, behind the first.
#[cycle(reading)]
#[tactic(auto, unfolding(crate::specs::Reading::cond_at))]
fn closed(alloc: Global, depth: u32, tokens: &[Token]) -> Result<(Cond, &[Token]), ReadError>
    ensures { Gives (λ x. (x.0, x.1.now)) result (closed_by (neg_at depth) tokens.now) }
{
    let (cond, rest) = cond(alloc, depth, tokens)?;
    let rest = expect(Fixed::Close, rest)?;
    Ok((cond, rest))
}

/// NOT and its part, a condition in parentheses, or a test that begins with an operand.
#[cycle(reading)]
#[tactic(auto, unfolding(crate::specs::Reading::neg_at))]
fn neg(alloc: Global, depth: u32, tokens: &[Token]) -> Result<(Cond, &[Token]), ReadError>
    ensures { Gives (λ x. (x.0, x.1.now)) result (neg_at depth tokens.now) }
{
    let negated = begins(Fixed::Not, tokens);
    if !negated && !begins(Fixed::Open, tokens) {
        return comparison(alloc, depth, tokens);
    }
    if depth == 0 {
        return Err(too_deep(tokens));
    }
    if !negated {
        return closed(alloc, depth - 1, behind(tokens));
    }
    let (part, rest) = neg(alloc, depth - 1, behind(tokens))?;
    let part = Boxed::new(alloc, part)?;
    Ok((Cond::Not(part), rest))
}

/// Further parts of a conjunction, behind those that are there.
#[cycle(reading)]
fn further_negs(
    alloc: Global,
    depth: u32,
    most: usize,
    first: Vec<Cond>,
    tokens: &[Token],
) -> Result<(Vec<Cond>, &[Token]), ReadError>
    ensures { Gives (λ x. (x.0.items, x.1.now)) result (with_front first.items (further_at most fixed.And (neg_at depth) tokens.now)) }
{
    let mut parts = first;
    let mut rest = tokens;
    for _ in 0..most {
        if !begins(Fixed::And, rest) {
            return Ok((parts, rest));
        }
        match neg(alloc, depth, behind(rest)) {
            Ok((part, more)) => {
                parts.push(part)?;
                rest = more;
            }
            Err(error) => return Err(error),
        }
    }
    Ok((parts, rest))
}

/// A condition without OR outside of parentheses.
#[cycle(reading)]
fn conj(alloc: Global, depth: u32, tokens: &[Token]) -> Result<(Cond, &[Token]), ReadError>
    ensures { Gives (λ x. (x.0, x.1.now)) result (conj_by (neg_at depth) tokens.now) }
{
    let (first, rest) = neg(alloc, depth, tokens)?;
    let first = vec![in alloc; first]?;
    let (parts, rest) = further_negs(alloc, depth, rest.len(), first, rest)?;
    Ok((joined_by_and(parts), rest))
}

/// Further parts of a disjunction, behind those that are there.
#[cycle(reading)]
fn further_conjs(
    alloc: Global,
    depth: u32,
    most: usize,
    first: Vec<Cond>,
    tokens: &[Token],
) -> Result<(Vec<Cond>, &[Token]), ReadError>
    ensures { Gives (λ x. (x.0.items, x.1.now)) result (with_front first.items (further_at most fixed.Or (conj_by (neg_at depth)) tokens.now)) }
{
    let mut parts = first;
    let mut rest = tokens;
    for _ in 0..most {
        if !begins(Fixed::Or, rest) {
            return Ok((parts, rest));
        }
        match conj(alloc, depth, behind(rest)) {
            Ok((part, more)) => {
                parts.push(part)?;
                rest = more;
            }
            Err(error) => return Err(error),
        }
    }
    Ok((parts, rest))
}

/// A condition, with at most so many openings inside one another.
#[cycle(reading)]
#[tactic(auto, unfolding(crate::specs::Reading::cond_at))]
pub fn cond(alloc: Global, depth: u32, tokens: &[Token]) -> Result<(Cond, &[Token]), ReadError>
    ensures { Gives (λ x. (x.0, x.1.now)) result (cond_at depth tokens.now) }
{
    let (first, rest) = conj(alloc, depth, tokens)?;
    let first = vec![in alloc; first]?;
    let (parts, rest) = further_conjs(alloc, depth, rest.len(), first, rest)?;
    Ok((joined_by_or(parts), rest))
}
