//! UPDATE.
ghost use Rattle.std.specs.Prelude.{◌≡◌, ◌++◌, [], ◌∷◌, length};
ghost use Rattle.sql_text.specs.declared.token.Fixed.TheVariants as fixed;
ghost use Rattle.sql_text.specs.Reading.{Gives, assignment_at, update_at, series_at, further_at, with_front};

use crate::cursor::{begins, behind, expect, name};
use crate::fault::ReadError;
use crate::reading::expressions::expr;
use crate::reading::names::table;
use crate::reading::select::where_cond;
use crate::statement::{Assignment, Assignments, Statement, TableStatement, Update};
use crate::token::{Fixed, Token};
use list_types::Listed;
use std::alloc::Global;

/// A column and what it is set to.
#[tactic(auto, unfolding(crate::specs::Reading::assignment_at))]
fn assignment(
    alloc: Global,
    depth: u32,
    tokens: &[Token],
) -> Result<(Assignment, &[Token]), ReadError>
    ensures { Gives (λ x. (x.0, x.1.now)) result (assignment_at depth tokens.now) }
{
    let (column, rest) = name(tokens)?;
    let rest = expect(Fixed::Equal, rest)?;
    let (value, rest) = expr(alloc, depth, rest)?;
    Ok((Assignment { column, value }, rest))
}

/// Further assignments, each behind a comma, behind those that are there.
fn further_assignments(
    alloc: Global,
    depth: u32,
    most: usize,
    first: Vec<Assignment>,
    tokens: &[Token],
) -> Result<(Vec<Assignment>, &[Token]), ReadError>
    ensures { Gives (λ x. (x.0.items, x.1.now)) result (with_front first.items (further_at most fixed.Comma (assignment_at depth) tokens.now)) }
{
    let mut sets = first;
    let mut rest = tokens;
    for _ in 0..most {
        if !begins(Fixed::Comma, rest) {
            return Ok((sets, rest));
        }
        match assignment(alloc, depth, behind(rest)) {
            Ok((part, more)) => {
                sets.push(part)?;
                rest = more;
            }
            Err(error) => return Err(error),
        }
    }
    Ok((sets, rest))
}

/// Assignments with commas between them.
fn assignments(
    alloc: Global,
    depth: u32,
    tokens: &[Token],
) -> Result<(Assignments, &[Token]), ReadError>
    ensures { Gives (λ x. (x.0, x.1.now)) result (series_at fixed.Comma (assignment_at depth) tokens.now) }
{
    let (first, rest) = assignment(alloc, depth, tokens)?;
    let first = vec![in alloc; first]?;
    let (sets, rest) = further_assignments(alloc, depth, rest.len(), first, rest)?;
    Ok((Listed::from_vec(sets), rest))
}

/// UPDATE.
#[tactic(auto, unfolding(crate::specs::Reading::update_at))]
pub fn update(
    alloc: Global,
    depth: u32,
    tokens: &[Token],
) -> Result<(Statement, &[Token]), ReadError>
    ensures { Gives (λ x. (x.0, x.1.now)) result (update_at depth tokens.now) }
{
    let rest = expect(Fixed::Update, tokens)?;
    let (table, rest) = table(rest)?;
    let rest = expect(Fixed::Set, rest)?;
    let (sets, rest) = assignments(alloc, depth, rest)?;
    let (cond, rest) = where_cond(alloc, depth, rest)?;
    let update = Update { table, sets, cond };
    Ok((Statement::Table(TableStatement::Update(update)), rest))
}
