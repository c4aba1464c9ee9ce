//! Whole statements.
ghost use Rattle.std.specs.Prelude.{◌≡◌};
ghost use Rattle.sql_text.specs.Reading.{Gives, body_at, statement_at, ended};

use crate::cursor::{begins, optional, syntax_error};
use crate::fault::ReadError;
use crate::reading::admin::show;
use crate::reading::delete::delete;
use crate::reading::insert::insert;
use crate::reading::select::select;
use crate::reading::update::update;
use crate::statement::Statement;
use crate::token::{Fixed, Token};
use std::alloc::Global;

/// A statement without its end.
#[tactic(auto, unfolding(crate::specs::Reading::body_at))]
fn body(alloc: Global, depth: u32, tokens: &[Token]) -> Result<(Statement, &[Token]), ReadError>
    ensures { Gives (λ x. (x.0, x.1.now)) result (body_at depth tokens.now) }
{
    if begins(Fixed::Insert, tokens) {
        return insert(alloc, depth, tokens);
    }
    if begins(Fixed::Select, tokens) {
        return select(alloc, depth, tokens);
    }
    if begins(Fixed::Show, tokens) {
        return show(tokens);
    }
    if begins(Fixed::Update, tokens) {
        return update(alloc, depth, tokens);
    }
    delete(alloc, depth, tokens)
}

/// The statement that all of the tokens are.
#[tactic(auto, unfolding(crate::specs::Reading::statement_at))]
pub fn statement(alloc: Global, depth: u32, tokens: &[Token]) -> Result<Statement, ReadError>
    ensures { Gives (λ x. x) result (statement_at depth tokens.now) }
{
    let (statement, rest) = body(alloc, depth, tokens)?;
    let (_, rest) = optional(Fixed::Semicolon, rest);
    if rest.is_empty() {
        Ok(statement)
    } else {
        Err(syntax_error(rest))
    }
}
