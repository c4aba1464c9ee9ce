//! Expressions: `+` and `-` bind loosest, then `*`, then the minus of a factor.
ghost use Rattle.std.specs.Prelude.{◌≡◌, ◌++◌, [], ◌∷◌, length, true, false};
ghost use Rattle.sql_values.specs.declared.tree.Expr.TheVariants as exprs;
ghost use Rattle.sql_text.specs.declared.token.Fixed.TheVariants as fixed;
ghost use Rattle.sql_text.specs.Grammar.{joined as joined_as, sign_of as value_of_sign, addend as addend_as};
ghost use Rattle.sql_text.specs.Reading.{Gives, stands, plain_at, factor_at, expr_at, term_by, addend_by, sum_by, closed_expr_by, further_at, many_at, with_front};

use crate::cursor::{begins, behind, expect, literal, literal_stands, sign, sign_stands, too_deep};
use crate::fault::ReadError;
use crate::reading::names::column;
use crate::token::{Fixed, Token};
use sql_values::{Addend, Expr};
use sqlite_items::{Boxed, Items};
use std::alloc::Global;

/// A literal or a column.
#[tactic(auto, unfolding(crate::specs::Reading::plain_at))]
fn plain(tokens: &[Token]) -> Result<(Expr, &[Token]), ReadError>
    ensures { Gives (λ x. (x.0, x.1.now)) result (plain_at tokens.now) }
{
    if literal_stands(tokens) {
        let (literal, rest) = literal(tokens)?;
        return Ok((Expr::Literal(literal), rest));
    }
    let (column, rest) = column(tokens)?;
    Ok((Expr::Column(column), rest))
}

/// The product of the factors, or the one factor.
fn multiplied(mut factors: Vec<Expr>) -> Expr
    ensures { result ≡ joined_as exprs.Product factors.items }
{
    if factors.len() == 1 {
        let Some(factor) = factors.pop() else {
            unreachable!()
        };
        return factor;
    }
    Expr::Product(Items::from_vec(factors))
}

/// A part of a sum.
fn part(subtracted: bool, expr: Expr) -> Addend
    ensures { result ≡ addend_as subtracted expr }
{
    Addend { subtracted, expr }
}

/// The sum of the parts.
fn summed(parts: Vec<Addend>) -> Expr
    ensures { result ≡ exprs.Sum parts.items }
{
    Expr::Sum(Items::from_vec(parts))
}

/// An expression in parentheses, behind the first.
#[cycle(reading)]
#[tactic(auto, unfolding(crate::specs::Reading::expr_at))]
fn closed(alloc: Global, depth: u32, tokens: &[Token]) -> Result<(Expr, &[Token]), ReadError>
    ensures { Gives (λ x. (x.0, x.1.now)) result (closed_expr_by (factor_at depth) tokens.now) }
{
    let (expr, rest) = expr(alloc, depth, tokens)?;
    let rest = expect(Fixed::Close, rest)?;
    Ok((expr, rest))
}

/// A minus and its factor, an expression in parentheses, a literal or a column.
#[cycle(reading)]
#[tactic(auto, unfolding(crate::specs::Reading::factor_at))]
fn factor(alloc: Global, depth: u32, tokens: &[Token]) -> Result<(Expr, &[Token]), ReadError>
    ensures { Gives (λ x. (x.0, x.1.now)) result (factor_at depth tokens.now) }
{
    let negated = begins(Fixed::Minus, tokens);
    if !negated && !begins(Fixed::Open, tokens) {
        return plain(tokens);
    }
    if depth == 0 {
        return Err(too_deep(tokens));
    }
    if !negated {
        return closed(alloc, depth - 1, behind(tokens));
    }
    let (part, rest) = factor(alloc, depth - 1, behind(tokens))?;
    let part = Boxed::new(alloc, part)?;
    Ok((Expr::Negated(part), rest))
}

/// Further factors, each behind a star, behind those that are there.
#[cycle(reading)]
fn further_factors(
    alloc: Global,
    depth: u32,
    most: usize,
    first: Vec<Expr>,
    tokens: &[Token],
) -> Result<(Vec<Expr>, &[Token]), ReadError>
    ensures { Gives (λ x. (x.0.items, x.1.now)) result (with_front first.items (further_at most fixed.Star (factor_at depth) tokens.now)) }
{
    let mut factors = first;
    let mut rest = tokens;
    for _ in 0..most {
        if !begins(Fixed::Star, rest) {
            return Ok((factors, rest));
        }
        match factor(alloc, depth, behind(rest)) {
            Ok((part, more)) => {
                factors.push(part)?;
                rest = more;
            }
            Err(error) => return Err(error),
        }
    }
    Ok((factors, rest))
}

/// Factors with stars between them.
#[cycle(reading)]
fn term(alloc: Global, depth: u32, tokens: &[Token]) -> Result<(Expr, &[Token]), ReadError>
    ensures { Gives (λ x. (x.0, x.1.now)) result (term_by (factor_at depth) tokens.now) }
{
    let (first, rest) = factor(alloc, depth, tokens)?;
    let first = vec![in alloc; first]?;
    let (factors, rest) = further_factors(alloc, depth, rest.len(), first, rest)?;
    Ok((multiplied(factors), rest))
}

/// A sign and the term behind it.
#[cycle(reading)]
fn addend(alloc: Global, depth: u32, tokens: &[Token]) -> Result<(Addend, &[Token]), ReadError>
    ensures { Gives (λ x. (x.0, x.1.now)) result (addend_by (factor_at depth) tokens.now) }
{
    let (subtracted, rest) = sign(tokens)?;
    let (expr, rest) = term(alloc, depth, rest)?;
    Ok((part(subtracted, expr), rest))
}

/// Further parts of a sum, each with its sign, behind those that are there.
#[cycle(reading)]
fn further_addends(
    alloc: Global,
    depth: u32,
    most: usize,
    first: Vec<Addend>,
    tokens: &[Token],
) -> Result<(Vec<Addend>, &[Token]), ReadError>
    ensures { Gives (λ x. (x.0.items, x.1.now)) result (with_front first.items (many_at most (stands value_of_sign) (addend_by (factor_at depth)) tokens.now)) }
{
    let mut parts = first;
    let mut rest = tokens;
    for _ in 0..most {
        if !sign_stands(rest) {
            return Ok((parts, rest));
        }
        match addend(alloc, depth, rest) {
            Ok((part, more)) => {
                parts.push(part)?;
                rest = more;
            }
            Err(error) => return Err(error),
        }
    }
    Ok((parts, rest))
}

/// A sum, behind its first part.
#[cycle(reading)]
fn sum(
    alloc: Global,
    depth: u32,
    first: Expr,
    tokens: &[Token],
) -> Result<(Expr, &[Token]), ReadError>
    ensures { Gives (λ x. (x.0, x.1.now)) result (sum_by (factor_at depth) first tokens.now) }
{
    let first = part(false, first);
    let first = vec![in alloc; first]?;
    let (parts, rest) = further_addends(alloc, depth, tokens.len(), first, tokens)?;
    Ok((summed(parts), rest))
}

/// An expression, with at most so many openings inside one another.
#[cycle(reading)]
#[tactic(auto, unfolding(crate::specs::Reading::expr_at))]
pub fn expr(alloc: Global, depth: u32, tokens: &[Token]) -> Result<(Expr, &[Token]), ReadError>
    ensures { Gives (λ x. (x.0, x.1.now)) result (expr_at depth tokens.now) }
{
    let (first, rest) = term(alloc, depth, tokens)?;
    if sign_stands(rest) {
        sum(alloc, depth, first, rest)
    } else {
        Ok((first, rest))
    }
}
