//! What is asked of a branch.
ghost use Rattle.std.specs.Prelude.{◌≡◌};
ghost use Rattle.sql_text.specs.declared.link.LinkRequest.TheVariants as requests;
ghost use Rattle.sql_text.specs.LinkGrammar.{part_of as value_of_part, only_one as is_one, format_of as value_of_format};
ghost use Rattle.sql_text.specs.Reading.{Gives, one_at};
ghost use Rattle.sql_text.specs.LinkReading.{xid_at, behind_xa_at, branch_at};

use crate::cursor::{begins, behind, expect, syntax_error};
use crate::fault::ReadError;
use crate::link::LinkRequest;
use crate::token::{Fixed, Token};
use list_types::Text;
use sql_values::Xid;

/// The most bytes of a part of a branch's name (X/Open XA).
const LONGEST_PART: usize = 64;

/// A part of a branch's name.
fn part(tokens: &[Token]) -> Result<(Text, &[Token]), ReadError>
    ensures { Gives (λ x. (x.0, x.1.now)) result (one_at value_of_part tokens.now) }
{
    match tokens {
        [Token::Text(text), rest @ ..] if text.as_str().len() <= LONGEST_PART => {
            Ok((text.clone()?, rest))
        }
        _ => Err(syntax_error(tokens)),
    }
}

/// What stands behind the format of a branch's name, which is 1.
fn behind_format(tokens: &[Token]) -> Result<(usize, &[Token]), ReadError>
    ensures { Gives (λ x. (x.0, x.1.now)) result (one_at value_of_format tokens.now) }
{
    match tokens {
        [Token::Digits(1), rest @ ..] => Ok((1, rest)),
        _ => Err(syntax_error(tokens)),
    }
}

/// The name of a branch.
#[tactic(auto, unfolding(crate::specs::LinkReading::xid_at))]
fn xid(tokens: &[Token]) -> Result<(Xid, &[Token]), ReadError>
    ensures { Gives (λ x. (x.0, x.1.now)) result (xid_at tokens.now) }
{
    let (gtrid, rest) = part(tokens)?;
    let rest = expect(Fixed::Comma, rest)?;
    let (bqual, rest) = part(rest)?;
    let rest = expect(Fixed::Comma, rest)?;
    let (_, rest) = behind_format(rest)?;
    Ok((Xid { gtrid, bqual }, rest))
}

/// What is asked of a branch, behind XA.
#[tactic(auto, unfolding(crate::specs::LinkReading::behind_xa_at))]
fn behind_xa(tokens: &[Token]) -> Result<(LinkRequest, &[Token]), ReadError>
    ensures { Gives (λ x. (x.0, x.1.now)) result (behind_xa_at tokens.now) }
{
    if begins(Fixed::Start, tokens) {
        let (xid, rest) = xid(behind(tokens))?;
        return Ok((LinkRequest::Start(xid), rest));
    }
    if begins(Fixed::End, tokens) {
        let (xid, rest) = xid(behind(tokens))?;
        return Ok((LinkRequest::End(xid), rest));
    }
    if begins(Fixed::Prepare, tokens) {
        let (xid, rest) = xid(behind(tokens))?;
        return Ok((LinkRequest::Prepare(xid), rest));
    }
    if begins(Fixed::Commit, tokens) {
        let (xid, rest) = xid(behind(tokens))?;
        return Ok((LinkRequest::Commit(xid), rest));
    }
    if begins(Fixed::Rollback, tokens) {
        let (xid, rest) = xid(behind(tokens))?;
        return Ok((LinkRequest::Rollback(xid), rest));
    }
    let rest = expect(Fixed::Recover, tokens)?;
    Ok((LinkRequest::Recover, rest))
}

/// What is asked of a branch.
#[tactic(auto, unfolding(crate::specs::LinkReading::branch_at))]
pub fn branch(tokens: &[Token]) -> Result<(LinkRequest, &[Token]), ReadError>
    ensures { Gives (λ x. (x.0, x.1.now)) result (branch_at tokens.now) }
{
    let rest = expect(Fixed::Xa, tokens)?;
    behind_xa(rest)
}
