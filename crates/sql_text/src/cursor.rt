//! Tokens at the front, one at a time.
ghost use Rattle.std.specs.Prelude.{◌≡◌, length, true, false, Ok};
ghost use Rattle.sql_text.specs.declared.fault.ReadError.TheVariants as errors;
ghost use Rattle.sql_text.specs.Grammar.{name_of as value_of_name, literal_of as value_of_literal, comparison_of as value_of_comparison, sign_of as value_of_sign, is_spider as word_is_spider};
ghost use Rattle.std.specs.Option.{option_copied};
ghost use Rattle.sql_text.specs.declared.token.Token.TheVariants as tokens;
ghost use Rattle.sql_text.specs.Reading.{Gives, number_of, begins as front_is, behind as rest_behind, stands, expect as expect_at, open_at, optional_at, name_at, literal_at, one_at};

use crate::fault::{ReadError, Stop};
use crate::token::{Fixed, Token};
use sql_values::{Comparison, Literal, Name};

/// No statement has the first of these tokens there.
pub fn syntax_error(tokens: &[Token]) -> ReadError
    ensures { result ≡ errors.Stopped (record { deep = false; left = length tokens.now }) }
{
    ReadError::Stopped(Stop {
        deep: false,
        left: tokens.len(),
    })
}

/// The first of these tokens is an opening too many.
pub fn too_deep(tokens: &[Token]) -> ReadError
    ensures { result ≡ errors.Stopped (record { deep = true; left = length tokens.now }) }
{
    ReadError::Stopped(Stop {
        deep: true,
        left: tokens.len(),
    })
}

fn number(fixed: Fixed) -> u8
    ensures { result ≡ number_of fixed }
{
    match fixed {
        Fixed::And => 0,
        Fixed::As => 1,
        Fixed::Between => 2,
        Fixed::From => 3,
        Fixed::In => 4,
        Fixed::Insert => 5,
        Fixed::Into => 6,
        Fixed::Not => 7,
        Fixed::Null => 8,
        Fixed::Or => 9,
        Fixed::Select => 10,
        Fixed::Values => 11,
        Fixed::Where => 12,
        Fixed::Open => 13,
        Fixed::Close => 14,
        Fixed::Comma => 15,
        Fixed::Dot => 16,
        Fixed::Star => 17,
        Fixed::Semicolon => 18,
        Fixed::Equal => 19,
        Fixed::NotEqual => 20,
        Fixed::Less => 21,
        Fixed::AtMost => 22,
        Fixed::Greater => 23,
        Fixed::AtLeast => 24,
        Fixed::By => 25,
        Fixed::Commit => 26,
        Fixed::Count => 27,
        Fixed::Delete => 28,
        Fixed::End => 29,
        Fixed::For => 30,
        Fixed::Limit => 31,
        Fixed::Lock => 32,
        Fixed::Max => 33,
        Fixed::Min => 34,
        Fixed::Mode => 35,
        Fixed::Order => 36,
        Fixed::Prepare => 37,
        Fixed::Recover => 38,
        Fixed::Replace => 39,
        Fixed::Rollback => 40,
        Fixed::Share => 41,
        Fixed::Start => 42,
        Fixed::Sum => 43,
        Fixed::Update => 44,
        Fixed::Xa => 45,
        Fixed::Set => 46,
        Fixed::Plus => 47,
        Fixed::Minus => 48,
        Fixed::Asc => 49,
        Fixed::Desc => 50,
        Fixed::Offset => 51,
        Fixed::Database => 52,
        Fixed::Databases => 53,
        Fixed::Inner => 54,
        Fixed::Join => 55,
        Fixed::On => 56,
        Fixed::Show => 57,
        Fixed::Tables => 58,
        Fixed::VersionComment => 59,
    }
}

/// Whether this keyword or symbol stands at the front.
pub fn begins(fixed: Fixed, tokens: &[Token]) -> bool
    ensures { result ≡ front_is fixed tokens.now }
{
    match tokens {
        [Token::Fixed(first), ..] => number(*first) == number(fixed),
        _ => false,
    }
}

/// What stands behind the first token.
pub fn behind(tokens: &[Token]) -> &[Token]
    ensures { result.now ≡ rest_behind tokens.now }
{
    match tokens {
        [_, rest @ ..] => rest,
        [] => tokens,
    }
}

/// What stands behind this keyword or symbol.
#[tactic(auto, unfolding(crate::specs::Reading::expect))]
pub fn expect(fixed: Fixed, tokens: &[Token]) -> Result<&[Token], ReadError>
    ensures { Gives (λ x. x.now) result (expect_at fixed tokens.now) }
{
    if begins(fixed, tokens) {
        Ok(behind(tokens))
    } else {
        Err(syntax_error(tokens))
    }
}

/// What stands behind this keyword or symbol, which opens, with so many openings left.
#[tactic(auto, unfolding(crate::specs::Reading::open_at))]
pub fn open(fixed: Fixed, depth: u32, tokens: &[Token]) -> Result<&[Token], ReadError>
    ensures { Gives (λ x. x.now) result (open_at fixed depth tokens.now) }
{
    if depth > 0 {
        return expect(fixed, tokens);
    }
    if begins(fixed, tokens) {
        Err(too_deep(tokens))
    } else {
        Err(syntax_error(tokens))
    }
}

/// Whether this keyword or symbol stands at the front, and what stands behind it.
#[tactic(auto, unfolding(crate::specs::Reading::optional_at))]
pub fn optional(fixed: Fixed, tokens: &[Token]) -> (bool, &[Token])
    ensures { optional_at fixed tokens.now ≡ Ok (result.0, result.1.now) }
{
    if begins(fixed, tokens) {
        (true, behind(tokens))
    } else {
        (false, tokens)
    }
}

/// The name that a token is.
pub fn name_of(token: &Token) -> Option<&Name>
    ensures { option_copied result ≡ value_of_name token.now }
{
    match token {
        Token::Bare(name) | Token::Quoted(name) => Some(name),
        _ => None,
    }
}

/// Whether a name stands at the front.
pub fn name_stands(tokens: &[Token]) -> bool
    ensures { result ≡ stands value_of_name tokens.now }
{
    match tokens {
        [Token::Bare(_), ..] | [Token::Quoted(_), ..] => true,
        _ => false,
    }
}

/// The name at the front.
#[tactic(auto, unfolding(crate::specs::Reading::name_at))]
pub fn name(tokens: &[Token]) -> Result<(Name, &[Token]), ReadError>
    ensures { Gives (λ x. (x.0, x.1.now)) result (name_at tokens.now) }
{
    match tokens {
        [Token::Bare(name), rest @ ..] => Ok((name.clone()?, rest)),
        [Token::Quoted(name), rest @ ..] => Ok((name.clone()?, rest)),
        _ => Err(syntax_error(tokens)),
    }
}

/// Whether a literal stands at the front.
pub fn literal_stands(tokens: &[Token]) -> bool
    ensures { result ≡ stands value_of_literal tokens.now }
{
    match tokens {
        [Token::Digits(_), ..] | [Token::Signed(_), ..] | [Token::Text(_), ..] => true,
        [Token::Fixed(Fixed::Null), ..] => true,
        _ => false,
    }
}

/// The literal at the front.
#[tactic(auto, unfolding(crate::specs::Reading::literal_at))]
pub fn literal(tokens: &[Token]) -> Result<(Literal, &[Token]), ReadError>
    ensures { Gives (λ x. (x.0, x.1.now)) result (literal_at tokens.now) }
{
    match tokens {
        [Token::Digits(number), rest @ ..] => Ok((Literal::Number(*number), rest)),
        [Token::Signed(number), rest @ ..] => Ok((Literal::Number(*number), rest)),
        [Token::Text(text), rest @ ..] => Ok((Literal::Text(text.clone()?), rest)),
        [Token::Fixed(Fixed::Null), rest @ ..] => Ok((Literal::Null, rest)),
        _ => Err(syntax_error(tokens)),
    }
}

/// Whether a sign stands at the front.
pub fn sign_stands(tokens: &[Token]) -> bool
    ensures { result ≡ stands value_of_sign tokens.now }
{
    match tokens {
        [Token::Fixed(Fixed::Plus), ..] | [Token::Fixed(Fixed::Minus), ..] => true,
        _ => false,
    }
}

/// The sign at the front: whether it is a minus.
pub fn sign(tokens: &[Token]) -> Result<(bool, &[Token]), ReadError>
    ensures { Gives (λ x. (x.0, x.1.now)) result (one_at value_of_sign tokens.now) }
{
    match tokens {
        [Token::Fixed(Fixed::Plus), rest @ ..] => Ok((false, rest)),
        [Token::Fixed(Fixed::Minus), rest @ ..] => Ok((true, rest)),
        _ => Err(syntax_error(tokens)),
    }
}

/// Whether a comparison stands at the front.
pub fn comparison_stands(tokens: &[Token]) -> bool
    ensures { result ≡ stands value_of_comparison tokens.now }
{
    match tokens {
        [Token::Fixed(fixed), ..] => comparison_of(*fixed).is_some(),
        _ => false,
    }
}

fn comparison_of(fixed: Fixed) -> Option<Comparison>
    ensures { result ≡ value_of_comparison (tokens.Fixed fixed) }
{
    match fixed {
        Fixed::Equal => Some(Comparison::Equal),
        Fixed::NotEqual => Some(Comparison::NotEqual),
        Fixed::Less => Some(Comparison::Less),
        Fixed::AtMost => Some(Comparison::AtMost),
        Fixed::Greater => Some(Comparison::Greater),
        Fixed::AtLeast => Some(Comparison::AtLeast),
        _ => None,
    }
}

/// The comparison at the front.
pub fn comparison(tokens: &[Token]) -> Result<(Comparison, &[Token]), ReadError>
    ensures { Gives (λ x. (x.0, x.1.now)) result (one_at value_of_comparison tokens.now) }
{
    let [Token::Fixed(fixed), rest @ ..] = tokens else {
        return Err(syntax_error(tokens));
    };
    match comparison_of(*fixed) {
        Some(comparison) => Ok((comparison, rest)),
        None => Err(syntax_error(tokens)),
    }
}
