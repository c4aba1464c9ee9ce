//! How rows are locked.
ghost use Rattle.std.specs.Prelude.{◌≡◌};
ghost use Rattle.sql_text.specs.Reading.{Gives, share_at, for_update_at, lock_at, locked_at};

use crate::cursor::{begins, behind, expect};
use crate::fault::ReadError;
use crate::token::{Fixed, Token};
use sql_values::LockMode;

/// IN SHARE MODE.
#[tactic(auto, unfolding(crate::specs::Reading::share_at))]
fn share(tokens: &[Token]) -> Result<(LockMode, &[Token]), ReadError>
    ensures { Gives (λ x. (x.0, x.1.now)) result (share_at tokens.now) }
{
    let rest = expect(Fixed::In, tokens)?;
    let rest = expect(Fixed::Share, rest)?;
    let rest = expect(Fixed::Mode, rest)?;
    Ok((LockMode::Shared, rest))
}

/// FOR UPDATE.
#[tactic(auto, unfolding(crate::specs::Reading::for_update_at))]
fn for_update(tokens: &[Token]) -> Result<(LockMode, &[Token]), ReadError>
    ensures { Gives (λ x. (x.0, x.1.now)) result (for_update_at tokens.now) }
{
    let rest = expect(Fixed::For, tokens)?;
    let rest = expect(Fixed::Update, rest)?;
    Ok((LockMode::Exclusive, rest))
}

/// LOCK IN SHARE MODE or FOR UPDATE.
#[tactic(auto, unfolding(crate::specs::Reading::lock_at))]
pub fn lock(tokens: &[Token]) -> Result<(LockMode, &[Token]), ReadError>
    ensures { Gives (λ x. (x.0, x.1.now)) result (lock_at tokens.now) }
{
    if begins(Fixed::Lock, tokens) {
        share(behind(tokens))
    } else {
        for_update(tokens)
    }
}

/// LOCK IN SHARE MODE, FOR UPDATE, or neither.
#[tactic(auto, unfolding(crate::specs::Reading::locked_at))]
pub fn locked(tokens: &[Token]) -> Result<(Option<LockMode>, &[Token]), ReadError>
    ensures { Gives (λ x. (x.0, x.1.now)) result (locked_at tokens.now) }
{
    if !begins(Fixed::Lock, tokens) && !begins(Fixed::For, tokens) {
        return Ok((None, tokens));
    }
    let (mode, rest) = lock(tokens)?;
    Ok((Some(mode), rest))
}
