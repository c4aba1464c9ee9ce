//! Numbers.
ghost use Rattle.std.specs.Prelude.{◌≡◌, ◌+◌, ◌*◌, ◌-◌, ◌≤◌, min};
ghost use Rattle.std.specs.Char.{is_ascii_digit};
ghost use Rattle.sql_text.specs.Lexing.{cap};
ghost use Rattle.sql_text.specs.Tokens.{run, value_after, digits_token, signed_token, sign_token, digits_at, signed_at};

use crate::token::{Fixed, Token};

/// The digits at the front, and the bytes behind them.
fn digit_run(bytes: &[u8]) -> (&[u8], &[u8])
    ensures { (result.0.now, result.1.now) ≡ run is_ascii_digit bytes.now }
{
    for (i, byte) in bytes.iter().enumerate() {
        if !byte.is_ascii_digit() {
            return bytes.split_at(i);
        }
    }
    bytes.split_at(bytes.len())
}

/// The most that digits without a sign or with a plus may stand for, and one more.
const LIMIT: u128 = 1 << 127;

/// A number above all that are read.
const CAP: u128 = LIMIT + 1;

/// The number with one digit more, or the cap.
fn with_digit(value: u128, byte: u8) -> u128
    requires { value ≤ cap }
    ensures { result ≡ min (10 * value + (byte - 48)) cap }
{
    if value > CAP / 10 {
        return CAP;
    }
    let next = value * 10 + u128::from(byte.saturating_sub(b'0'));
    next.min(CAP)
}

/// The number that digits stand for, or the cap.
fn value(digits: &[u8]) -> u128
    ensures { result ≡ min (value_after 0 digits.now) cap }
{
    let mut value = 0;
    for byte in digits {
        value = with_digit(value, *byte);
    }
    value
}

/// The token of digits.
#[tactic(auto, using(crate::proofs::Bytes::capped_digits))]
fn digits_of(digits: &[u8]) -> Token
    ensures { result ≡ digits_token (value_after 0 digits.now) }
{
    let value = value(digits);
    if value < LIMIT {
        Token::Digits(value as i128)
    } else {
        Token::Bad
    }
}

/// The token of digits behind a sign.
#[tactic(auto, using(crate::proofs::Bytes::capped_signed))]
fn signed_of(minus: bool, digits: &[u8]) -> Token
    ensures { result ≡ signed_token minus (value_after 0 digits.now) }
{
    let value = value(digits);
    if value < LIMIT {
        let number = value as i128;
        return Token::Signed(if minus { -number } else { number });
    }
    if minus && value == LIMIT {
        Token::Signed(i128::MIN)
    } else {
        Token::Bad
    }
}

/// Digits.
pub fn digits(bytes: &[u8]) -> (Token, &[u8])
    ensures { (result.0, result.1.now) ≡ digits_at bytes.now }
{
    let (digits, rest) = digit_run(bytes);
    (digits_of(digits), rest)
}

/// A sign alone.
fn sign(minus: bool) -> Token
    ensures { result ≡ sign_token minus }
{
    if minus {
        Token::Fixed(Fixed::Minus)
    } else {
        Token::Fixed(Fixed::Plus)
    }
}

/// A sign, before these bytes: with digits directly behind it, where no operand ends before it, or alone.
pub fn signed(operand: bool, minus: bool, bytes: &[u8]) -> (Token, &[u8])
    ensures { (result.0, result.1.now) ≡ signed_at operand minus bytes.now }
{
    match bytes {
        [first, ..] if first.is_ascii_digit() && !operand => {
            let (digits, rest) = digit_run(bytes);
            (signed_of(minus, digits), rest)
        }
        [_, ..] => (sign(minus), bytes),
        [] => (sign(minus), bytes),
    }
}
