//! Tokens out of bytes, in one pass.
ghost use Rattle.std.specs.Prelude.{◌≡◌, ◌+◌, ◌++◌, [], ◌∷◌, map, IfOk, OnOk, option_map};
ghost use Rattle.sql_text.specs.Tokens.{starts as starts_with_byte, rest_of, symbol_at, lexeme_at, is_bad as token_is_bad, ends_operand as operand_ends, step_at, Placed, other_at, dialect_tokens, in_dialect as token_in_dialect};
ghost use Rattle.sql_text.specs.Parsing.{lefts_of};

use crate::lexer::blanks::{comment, is_blank};
use crate::lexer::digits::{digits, signed};
use crate::lexer::quoted::{quoted_name, text};
use crate::lexer::words::{begins_name, begins_word, in_dialect, variable, word};
use crate::token::{Before, Dialect, Fixed, Token};
use std::alloc::{AllocError, Global};

mod blanks;
mod digits;
mod quoted;
mod words;

/// A symbol of one byte, or of two of which this is the first.
fn symbol(first: u8, bytes: &[u8]) -> (Token, &[u8])
    ensures { (result.0, result.1.now) ≡ symbol_at first bytes.now }
{
    match (first, bytes) {
        (b'(', _) => (Token::Fixed(Fixed::Open), bytes),
        (b')', _) => (Token::Fixed(Fixed::Close), bytes),
        (b',', _) => (Token::Fixed(Fixed::Comma), bytes),
        (b'.', _) => (Token::Fixed(Fixed::Dot), bytes),
        (b'*', _) => (Token::Fixed(Fixed::Star), bytes),
        (b';', _) => (Token::Fixed(Fixed::Semicolon), bytes),
        (b'=', _) => (Token::Fixed(Fixed::Equal), bytes),
        (b'<', [b'=', rest @ ..]) => (Token::Fixed(Fixed::AtMost), rest),
        (b'<', [b'>', rest @ ..]) => (Token::Fixed(Fixed::NotEqual), rest),
        (b'<', _) => (Token::Fixed(Fixed::Less), bytes),
        (b'>', [b'=', rest @ ..]) => (Token::Fixed(Fixed::AtLeast), rest),
        (b'>', _) => (Token::Fixed(Fixed::Greater), bytes),
        (b'!', [b'=', rest @ ..]) => (Token::Fixed(Fixed::NotEqual), rest),
        _ => (Token::Bad, bytes),
    }
}

/// The tokens of a text, each with how many bytes are left from its first one on.
#[derive(Debug, Drop)]
pub struct Tokens {
    pub tokens: Vec<Token>,
    pub lefts: Vec<usize>,
}

impl Tokens {
    fn new(alloc: Global) -> Tokens
        ensures tokens { result.tokens.items ≡ [] }
        ensures lefts { result.lefts.items ≡ [] }
    {
        Tokens {
            tokens: Vec::new(alloc),
            lefts: Vec::new(alloc),
        }
    }

    fn push(&mut self, token: Token, left: usize) -> Result<(), AllocError>
        ensures tokens { OnOk result (self.new.tokens.items ≡ self.old.tokens.items ++ token ∷ []) }
        ensures lefts { OnOk result (self.new.lefts.items ≡ self.old.lefts.items ++ left ∷ []) }
    {
        self.tokens.push(token)?;
        self.lefts.push(left)?;
        Ok(())
    }
}

fn is_bad(token: &Token) -> bool
    ensures { result ≡ token_is_bad token.now }
{
    match token {
        Token::Bad => true,
        _ => false,
    }
}

/// Whether a token ends an operand: a name, digits, a text, NULL or `)`.
fn ends_operand(token: &Token) -> bool
    ensures { result ≡ operand_ends token.now }
{
    match token {
        Token::Fixed(Fixed::Null) | Token::Fixed(Fixed::Close) => true,
        Token::Fixed(_) | Token::Bad => false,
        Token::Bare(_) | Token::Quoted(_) => true,
        Token::Digits(_) | Token::Signed(_) | Token::Text(_) => true,
    }
}

/// Whether this byte stands at the front.
fn starts(byte: u8, bytes: &[u8]) -> bool
    ensures { result ≡ starts_with_byte byte bytes.now }
{
    match bytes {
        [first, ..] => *first == byte,
        [] => false,
    }
}

/// What stands behind the first byte.
fn behind_first(bytes: &[u8]) -> &[u8]
    ensures { result.now ≡ rest_of bytes.now }
{
    match bytes {
        [_, rest @ ..] => rest,
        [] => bytes,
    }
}

/// A token that is no word and begins with this byte, behind what ends an operand or not.
fn other_token(
    alloc: Global,
    operand: bool,
    first: u8,
    rest: &[u8],
) -> Result<(Token, &[u8]), AllocError>
    ensures { IfOk result (λ x. (x.0, x.1.now) ≡ other_at operand first rest.now) }
{
    match first {
        b'+' => Ok(signed(operand, false, rest)),
        b'-' => Ok(signed(operand, true, rest)),
        b'\'' | b'"' => text(alloc, first, rest),
        b'`' => quoted_name(alloc, rest),
        b'@' => Ok(variable(rest)),
        _ => Ok(symbol(first, rest)),
    }
}

/// A token at the front, or nothing where blanks stand there, and what is behind it.
fn lexeme(alloc: Global, operand: bool, bytes: &[u8]) -> Result<(Option<Token>, &[u8]), AllocError>
    ensures { IfOk result (λ x. (x.0, x.1.now) ≡ lexeme_at operand bytes.now) }
{
    let [first, rest @ ..] = bytes else {
        return Ok((None, bytes));
    };
    let first = *first;
    if is_blank(first) {
        return Ok((None, rest));
    }
    if first == b'/' && starts(b'*', rest) {
        return Ok(comment(behind_first(rest)));
    }
    if begins_name(first) {
        let (token, rest) = word(alloc, bytes)?;
        return Ok((Some(token), rest));
    }
    if first.is_ascii_digit() {
        let (token, rest) = digits(bytes);
        return Ok((Some(token), rest));
    }
    let (token, rest) = other_token(alloc, operand, first, rest)?;
    Ok((Some(token), rest))
}

/// One step: adds the token at the front, if one stands there, and answers what stands before what is left, and that.
fn step<'a>(
    alloc: Global,
    dialect: Dialect,
    out: &mut Tokens,
    before: Before,
    bytes: &'a [u8],
) -> Result<Option<(Before, &'a [u8])>, AllocError>
    ensures tokens { OnOk result (out.new.tokens.items ≡ out.old.tokens.items ++ map (λ (p : Placed). token_in_dialect dialect p.0) (step_at before bytes.now).0) }
    ensures lefts { OnOk result (out.new.lefts.items ≡ out.old.lefts.items ++ map (λ (p : Placed). p.1) (step_at before bytes.now).0) }
    ensures rest { IfOk result (λ x. option_map (λ y. (y.0, y.1.now)) x ≡ (step_at before bytes.now).1) }
{
    let [first, ..] = bytes else {
        return Ok(None);
    };
    let left = bytes.len();
    let touches = begins_word(*first);
    if before.touching && touches {
        out.push(Token::Bad, left)?;
        return Ok(None);
    }
    let (token, rest) = lexeme(alloc, before.operand, bytes)?;
    let Some(token) = token else {
        let next = Before {
            touching: touches,
            operand: before.operand,
        };
        return Ok(Some((next, rest)));
    };
    let last = is_bad(&token);
    let next = Before {
        touching: touches,
        operand: ends_operand(&token),
    };
    out.push(in_dialect(dialect, token), left)?;
    if last {
        Ok(None)
    } else {
        Ok(Some((next, rest)))
    }
}

/// The tokens of a text of this kind, up to the first that is none.
#[tactic(auto, unfolding(crate::specs::Tokens::placed_tokens, crate::specs::Parsing::lefts_of))]
pub fn read_tokens(alloc: Global, dialect: Dialect, text: &[u8]) -> Result<Tokens, AllocError>
    ensures tokens { IfOk result (λ t. t.tokens.items ≡ dialect_tokens dialect text.now) }
    ensures lefts { IfOk result (λ t. t.lefts.items ≡ lefts_of text.now) }
{
    let mut out = Tokens::new(alloc);
    let mut before = Before {
        touching: false,
        operand: false,
    };
    let mut rest = text;
    for _ in 0..text.len() {
        match step(alloc, dialect, &mut out, before, rest)? {
            None => return Ok(out),
            Some((next, behind)) => {
                before = next;
                rest = behind;
            }
        }
    }
    Ok(out)
}
