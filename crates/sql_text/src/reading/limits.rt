//! LIMIT.
ghost use Rattle.std.specs.Prelude.{◌≡◌};
ghost use Rattle.sql_text.specs.Grammar.{count_of as value_of_count};
ghost use Rattle.sql_text.specs.Reading.{Gives, one_at, behind_count_at, counts_at, limits_at, limit_at};

use crate::cursor::{begins, behind, syntax_error};
use crate::fault::ReadError;
use crate::statement::{Limit, SelectItems};
use crate::token::{Fixed, Token};

/// A count of rows.
pub fn count(tokens: &[Token]) -> Result<(u64, &[Token]), ReadError>
    ensures { Gives (λ x. (x.0, x.1.now)) result (one_at value_of_count tokens.now) }
{
    let [Token::Digits(number), rest @ ..] = tokens else {
        return Err(syntax_error(tokens));
    };
    match u64::try_from(*number) {
        Ok(count) => Ok((count, rest)),
        Err(_) => Err(syntax_error(tokens)),
    }
}

/// The limit that begins with this count: behind OFFSET stands its offset, and behind a comma its count, where the first one is the offset.
#[tactic(auto, unfolding(crate::specs::Reading::behind_count_at))]
fn behind_count(first: u64, tokens: &[Token]) -> Result<(Limit, &[Token]), ReadError>
    ensures { Gives (λ x. (x.0, x.1.now)) result (behind_count_at first tokens.now) }
{
    if begins(Fixed::Offset, tokens) {
        let (offset, rest) = count(behind(tokens))?;
        let limit = Limit {
            count: first,
            offset,
        };
        return Ok((limit, rest));
    }
    if begins(Fixed::Comma, tokens) {
        let (count, rest) = count(behind(tokens))?;
        let limit = Limit {
            count,
            offset: first,
        };
        return Ok((limit, rest));
    }
    let limit = Limit {
        count: first,
        offset: 0,
    };
    Ok((limit, tokens))
}

/// What stands behind LIMIT.
#[tactic(auto, unfolding(crate::specs::Reading::counts_at))]
fn counts(tokens: &[Token]) -> Result<(Option<Limit>, &[Token]), ReadError>
    ensures { Gives (λ x. (x.0, x.1.now)) result (counts_at tokens.now) }
{
    let (first, rest) = count(tokens)?;
    let (limit, rest) = behind_count(first, rest)?;
    Ok((Some(limit), rest))
}

/// LIMIT and its counts, or none.
#[tactic(auto, unfolding(crate::specs::Reading::limits_at))]
fn limits(tokens: &[Token]) -> Result<(Option<Limit>, &[Token]), ReadError>
    ensures { Gives (λ x. (x.0, x.1.now)) result (limits_at tokens.now) }
{
    if !begins(Fixed::Limit, tokens) {
        return Ok((None, tokens));
    }
    counts(behind(tokens))
}

/// LIMIT and its counts, or none, where the items are no aggregates.
#[tactic(auto, unfolding(crate::specs::Reading::limit_at))]
pub fn limit<'a>(
    items: &SelectItems,
    tokens: &'a [Token],
) -> Result<(Option<Limit>, &'a [Token]), ReadError>
    ensures { Gives (λ x. (x.0, x.1.now)) result (limit_at items.now tokens.now) }
{
    match items {
        SelectItems::All => limits(tokens),
        SelectItems::Columns(_) => limits(tokens),
        SelectItems::Aggregates(_) => Ok((None, tokens)),
    }
}
