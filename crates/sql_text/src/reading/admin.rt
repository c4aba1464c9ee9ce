//! Questions about the server.
ghost use Rattle.std.specs.Prelude.{◌≡◌};
ghost use Rattle.sql_text.specs.Grammar.{one_row_of};
ghost use Rattle.sql_text.specs.Reading.{Gives, one_at, comment_limit_at, database_at, of_server_at, shown_at, show_at};

use crate::cursor::{begins, behind, expect, open, syntax_error};
use crate::fault::ReadError;
use crate::statement::{Admin, Statement};
use crate::token::{Fixed, Token};

/// The count 1.
fn one_row(tokens: &[Token]) -> Result<(u64, &[Token]), ReadError>
    ensures { Gives (λ x. (x.0, x.1.now)) result (one_at one_row_of tokens.now) }
{
    match tokens {
        [Token::Digits(number), rest @ ..] => {
            if *number == 1 {
                Ok((1, rest))
            } else {
                Err(syntax_error(tokens))
            }
        }
        _ => Err(syntax_error(tokens)),
    }
}

/// What stands behind @@version_comment.
#[tactic(auto, unfolding(crate::specs::Reading::comment_limit_at))]
fn comment_limit(tokens: &[Token]) -> Result<(Admin, &[Token]), ReadError>
    ensures { Gives (λ x. (x.0, x.1.now)) result (comment_limit_at tokens.now) }
{
    if !begins(Fixed::Limit, tokens) {
        return Ok((Admin::VersionComment, tokens));
    }
    let (_, rest) = one_row(behind(tokens))?;
    Ok((Admin::VersionComment, rest))
}

/// What stands behind DATABASE.
#[tactic(auto, unfolding(crate::specs::Reading::database_at))]
fn database(depth: u32, tokens: &[Token]) -> Result<(Admin, &[Token]), ReadError>
    ensures { Gives (λ x. (x.0, x.1.now)) result (database_at depth tokens.now) }
{
    let rest = open(Fixed::Open, depth, tokens)?;
    let rest = expect(Fixed::Close, rest)?;
    Ok((Admin::Database, rest))
}

/// What a SELECT asks about the server.
#[tactic(auto, unfolding(crate::specs::Reading::of_server_at))]
pub fn of_server(depth: u32, tokens: &[Token]) -> Result<(Admin, &[Token]), ReadError>
    ensures { Gives (λ x. (x.0, x.1.now)) result (of_server_at depth tokens.now) }
{
    if begins(Fixed::VersionComment, tokens) {
        return comment_limit(behind(tokens));
    }
    let rest = expect(Fixed::Database, tokens)?;
    database(depth, rest)
}

/// What is shown.
#[tactic(auto, unfolding(crate::specs::Reading::shown_at))]
fn shown(tokens: &[Token]) -> Result<(Admin, &[Token]), ReadError>
    ensures { Gives (λ x. (x.0, x.1.now)) result (shown_at tokens.now) }
{
    if begins(Fixed::Tables, tokens) {
        return Ok((Admin::ShowTables, behind(tokens)));
    }
    let rest = expect(Fixed::Databases, tokens)?;
    Ok((Admin::ShowDatabases, rest))
}

/// SHOW.
#[tactic(auto, unfolding(crate::specs::Reading::show_at))]
pub fn show(tokens: &[Token]) -> Result<(Statement, &[Token]), ReadError>
    ensures { Gives (λ x. (x.0, x.1.now)) result (show_at tokens.now) }
{
    let rest = expect(Fixed::Show, tokens)?;
    let (admin, rest) = shown(rest)?;
    Ok((Statement::Admin(admin), rest))
}
