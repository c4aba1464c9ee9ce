//! DELETE.
ghost use Rattle.std.specs.Prelude.{◌≡◌};
ghost use Rattle.sql_text.specs.Reading.{Gives, delete_at};

use crate::cursor::expect;
use crate::fault::ReadError;
use crate::reading::names::table;
use crate::reading::select::where_cond;
use crate::statement::{Delete, Statement, TableStatement};
use crate::token::{Fixed, Token};
use std::alloc::Global;

/// DELETE.
#[tactic(auto, unfolding(crate::specs::Reading::delete_at))]
pub fn delete(
    alloc: Global,
    depth: u32,
    tokens: &[Token],
) -> Result<(Statement, &[Token]), ReadError>
    ensures { Gives (λ x. (x.0, x.1.now)) result (delete_at depth tokens.now) }
{
    let rest = expect(Fixed::Delete, tokens)?;
    let rest = expect(Fixed::From, rest)?;
    let (table, rest) = table(rest)?;
    let (cond, rest) = where_cond(alloc, depth, rest)?;
    let delete = Delete { table, cond };
    Ok((Statement::Table(TableStatement::Delete(delete)), rest))
}
