//! Whole requests.
ghost use Rattle.std.specs.Prelude.{◌≡◌};
ghost use Rattle.sql_text.specs.Reading.{Gives, ended};
ghost use Rattle.sql_text.specs.LinkReading.{request_body_at, request_at};

use crate::cursor::{begins, optional, syntax_error};
use crate::fault::ReadError;
use crate::link::LinkRequest;
use crate::reading::branches::branch;
use crate::reading::scans::scan;
use crate::reading::writes::{delete, put};
use crate::token::{Fixed, Token};
use std::alloc::Global;

/// A request without its end.
#[tactic(auto, unfolding(crate::specs::LinkReading::request_body_at))]
fn body(alloc: Global, depth: u32, tokens: &[Token]) -> Result<(LinkRequest, &[Token]), ReadError>
    ensures { Gives (λ x. (x.0, x.1.now)) result (request_body_at depth tokens.now) }
{
    if begins(Fixed::Xa, tokens) {
        return branch(tokens);
    }
    if begins(Fixed::Select, tokens) {
        return scan(alloc, depth, tokens);
    }
    if begins(Fixed::Replace, tokens) {
        return put(alloc, depth, tokens);
    }
    delete(alloc, depth, tokens)
}

/// The request that all of the tokens are.
#[tactic(auto, unfolding(crate::specs::LinkReading::request_at))]
pub fn request(alloc: Global, depth: u32, tokens: &[Token]) -> Result<LinkRequest, ReadError>
    ensures { Gives (λ x. x) result (request_at depth tokens.now) }
{
    let (request, rest) = body(alloc, depth, tokens)?;
    let (_, rest) = optional(Fixed::Semicolon, rest);
    if rest.is_empty() {
        Ok(request)
    } else {
        Err(syntax_error(rest))
    }
}
