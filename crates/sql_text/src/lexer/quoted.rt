//! Texts in quotes, and names in backquotes.
ghost use Rattle.std.specs.Prelude.{◌≡◌, ◌<◌, IfSome, length, IfOk, option_map};
ghost use Rattle.sql_text.specs.Lexing.{piece_at};
ghost use Rattle.sql_text.specs.Tokens.{Plain, escape_of, text_from, text_at, up_to, quoted_at};

use crate::lexer::words::name;
use crate::token::Token;
use list_types::Text;
use std::alloc::{AllocError, Global};

/// The byte that stands for a backslash and this byte.
fn escape(byte: u8) -> Option<u8>
    ensures { result ≡ escape_of byte }
{
    match byte {
        b'0' => Some(0),
        b'\'' => Some(b'\''),
        b'"' => Some(b'"'),
        b'b' => Some(8),
        b'n' => Some(b'\n'),
        b'r' => Some(b'\r'),
        b't' => Some(b'\t'),
        b'Z' => Some(0x1a),
        b'\\' => Some(b'\\'),
        _ => None,
    }
}

/// The next byte of a text in these quotes, or its end.
fn piece(quote: u8, bytes: &[u8]) -> Option<(Option<u8>, &[u8])>
    ensures value { option_map (λ x. (x.0, x.1.now)) result ≡ piece_at quote bytes.now }
    ensures shorter { IfSome result (λ x. length x.1.now < length bytes.now) }
{
    match bytes {
        [first, second, rest @ ..] if *first == quote && *second == quote => {
            Some((Some(quote), rest))
        }
        [first, rest @ ..] if *first == quote => Some((None, rest)),
        [b'\\', second, rest @ ..] => match escape(*second) {
            Some(byte) => Some((Some(byte), rest)),
            None => None,
        },
        [b'\\'] => None,
        [first, rest @ ..] => Some((Some(*first), rest)),
        [] => None,
    }
}

/// The text up to the quote that closes it, and what stands behind that.
fn quoted_text(
    alloc: Global,
    quote: u8,
    bytes: &[u8],
) -> Result<Option<(Vec<u8>, &[u8])>, AllocError>
    ensures { IfOk result (λ x. option_map (λ y. (y.0.items, y.1.now)) x ≡ text_from quote Plain bytes.now) }
{
    let mut text = Vec::new(alloc);
    let mut rest = bytes;
    loop {
        match piece(quote, rest) {
            None => return Ok(None),
            Some((None, behind)) => return Ok(Some((text, behind))),
            Some((Some(byte), behind)) => {
                text.push(byte)?;
                rest = behind;
            }
        }
    }
}

/// A text in these quotes.
pub fn text(alloc: Global, quote: u8, bytes: &[u8]) -> Result<(Token, &[u8]), AllocError>
    ensures { IfOk result (λ x. (x.0, x.1.now) ≡ text_at (text_from quote Plain bytes.now)) }
{
    match quoted_text(alloc, quote, bytes)? {
        Some((text, rest)) => {
            let text = String::from_utf8_lossy(alloc, text.as_slice())?;
            Ok((Token::Text(Text::from_string(text)), rest))
        }
        None => Ok((Token::Bad, &[])),
    }
}

/// The bytes up to a byte, and those behind it.
fn split_before(stop: u8, bytes: &[u8]) -> Option<(&[u8], &[u8])>
    ensures { option_map (λ x. (x.0.now, x.1.now)) result ≡ up_to stop bytes.now }
{
    for (i, byte) in bytes.iter().enumerate() {
        if *byte == stop {
            return Some((&bytes[..i], &bytes[i + 1..]));
        }
    }
    None
}

/// A name in backquotes.
pub fn quoted_name(alloc: Global, bytes: &[u8]) -> Result<(Token, &[u8]), AllocError>
    ensures { IfOk result (λ x. (x.0, x.1.now) ≡ quoted_at (up_to 96 bytes.now)) }
{
    let Some((quoted, rest)) = split_before(b'`', bytes) else {
        return Ok((Token::Bad, &[]));
    };
    match name(alloc, quoted)? {
        Some(name) => Ok((Token::Quoted(name), rest)),
        None => Ok((Token::Bad, rest)),
    }
}
