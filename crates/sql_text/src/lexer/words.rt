//! Words: keywords, names and variables.
ghost use Rattle.std.specs.Prelude.{◌≡◌, IfOk, Some, None, if◌then◌else◌};
ghost use Rattle.sql_values.specs.Names.{is_name, begins_name as may_begin, continues_name as may_continue};
ghost use Rattle.sql_text.specs.Tokens.{is_word as word_is, basic_word, change_word, order_word, aggregate_word, join_word, keyword_of, run, word_at, variable_at, begins_word as may_begin_word, in_dialect as token_in_dialect, link_word};

use crate::token::{Dialect, Fixed, Token};
use list_types::Text;
use sql_values::{Name, is_name_text};
use std::alloc::{AllocError, Global};

/// Whether the bytes are this word, in capitals or small letters.
fn is_word(word: &[u8], bytes: &[u8]) -> bool
    ensures { result ≡ word_is word.now bytes.now }
{
    let mut expected = word;
    let mut rest = bytes;
    while let [byte, others @ ..] = rest {
        let [first, more @ ..] = expected else {
            return false;
        };
        if byte.to_ascii_uppercase() != *first {
            return false;
        }
        rest = others;
        expected = more;
    }
    expected.is_empty()
}

/// The keyword that the bytes are in INSERT, SELECT and conditions.
fn basic_keyword(bytes: &[u8]) -> Option<Fixed>
    ensures { result ≡ basic_word bytes.now }
{
    if is_word(b"AND", bytes) {
        return Some(Fixed::And);
    }
    if is_word(b"AS", bytes) {
        return Some(Fixed::As);
    }
    if is_word(b"BETWEEN", bytes) {
        return Some(Fixed::Between);
    }
    if is_word(b"FROM", bytes) {
        return Some(Fixed::From);
    }
    if is_word(b"IN", bytes) {
        return Some(Fixed::In);
    }
    if is_word(b"INSERT", bytes) {
        return Some(Fixed::Insert);
    }
    if is_word(b"INTO", bytes) {
        return Some(Fixed::Into);
    }
    if is_word(b"NOT", bytes) {
        return Some(Fixed::Not);
    }
    if is_word(b"NULL", bytes) {
        return Some(Fixed::Null);
    }
    if is_word(b"OR", bytes) {
        return Some(Fixed::Or);
    }
    if is_word(b"SELECT", bytes) {
        return Some(Fixed::Select);
    }
    if is_word(b"VALUES", bytes) {
        return Some(Fixed::Values);
    }
    if is_word(b"WHERE", bytes) {
        return Some(Fixed::Where);
    }
    None
}

/// The keyword that the bytes are in UPDATE, DELETE and the words of locks.
fn change_keyword(bytes: &[u8]) -> Option<Fixed>
    ensures { result ≡ change_word bytes.now }
{
    if is_word(b"UPDATE", bytes) {
        return Some(Fixed::Update);
    }
    if is_word(b"SET", bytes) {
        return Some(Fixed::Set);
    }
    if is_word(b"DELETE", bytes) {
        return Some(Fixed::Delete);
    }
    if is_word(b"FOR", bytes) {
        return Some(Fixed::For);
    }
    if is_word(b"LOCK", bytes) {
        return Some(Fixed::Lock);
    }
    if is_word(b"SHARE", bytes) {
        return Some(Fixed::Share);
    }
    if is_word(b"MODE", bytes) {
        return Some(Fixed::Mode);
    }
    None
}

/// The keyword that the bytes are in ORDER BY and LIMIT.
fn order_keyword(bytes: &[u8]) -> Option<Fixed>
    ensures { result ≡ order_word bytes.now }
{
    if is_word(b"ORDER", bytes) {
        return Some(Fixed::Order);
    }
    if is_word(b"BY", bytes) {
        return Some(Fixed::By);
    }
    if is_word(b"ASC", bytes) {
        return Some(Fixed::Asc);
    }
    if is_word(b"DESC", bytes) {
        return Some(Fixed::Desc);
    }
    if is_word(b"LIMIT", bytes) {
        return Some(Fixed::Limit);
    }
    if is_word(b"OFFSET", bytes) {
        return Some(Fixed::Offset);
    }
    None
}

/// The keyword that the bytes are in an aggregate.
fn aggregate_keyword(bytes: &[u8]) -> Option<Fixed>
    ensures { result ≡ aggregate_word bytes.now }
{
    if is_word(b"COUNT", bytes) {
        return Some(Fixed::Count);
    }
    if is_word(b"SUM", bytes) {
        return Some(Fixed::Sum);
    }
    if is_word(b"MIN", bytes) {
        return Some(Fixed::Min);
    }
    if is_word(b"MAX", bytes) {
        return Some(Fixed::Max);
    }
    None
}

/// The keyword that the bytes are in a join or a statement of administration.
fn join_keyword(bytes: &[u8]) -> Option<Fixed>
    ensures { result ≡ join_word bytes.now }
{
    if is_word(b"INNER", bytes) {
        return Some(Fixed::Inner);
    }
    if is_word(b"JOIN", bytes) {
        return Some(Fixed::Join);
    }
    if is_word(b"ON", bytes) {
        return Some(Fixed::On);
    }
    if is_word(b"SHOW", bytes) {
        return Some(Fixed::Show);
    }
    if is_word(b"TABLES", bytes) {
        return Some(Fixed::Tables);
    }
    if is_word(b"DATABASES", bytes) {
        return Some(Fixed::Databases);
    }
    if is_word(b"DATABASE", bytes) {
        return Some(Fixed::Database);
    }
    None
}

/// The keyword that the bytes are.
fn keyword(bytes: &[u8]) -> Option<Fixed>
    ensures { result ≡ keyword_of bytes.now }
{
    if let Some(fixed) = basic_keyword(bytes) {
        return Some(fixed);
    }
    if let Some(fixed) = change_keyword(bytes) {
        return Some(fixed);
    }
    if let Some(fixed) = order_keyword(bytes) {
        return Some(fixed);
    }
    if let Some(fixed) = aggregate_keyword(bytes) {
        return Some(fixed);
    }
    join_keyword(bytes)
}

/// The keyword of link text alone that the bytes are.
fn link_keyword(bytes: &[u8]) -> Option<Fixed>
    ensures { result ≡ link_word bytes.now }
{
    if is_word(b"XA", bytes) {
        return Some(Fixed::Xa);
    }
    if is_word(b"START", bytes) {
        return Some(Fixed::Start);
    }
    if is_word(b"END", bytes) {
        return Some(Fixed::End);
    }
    if is_word(b"PREPARE", bytes) {
        return Some(Fixed::Prepare);
    }
    if is_word(b"COMMIT", bytes) {
        return Some(Fixed::Commit);
    }
    if is_word(b"ROLLBACK", bytes) {
        return Some(Fixed::Rollback);
    }
    if is_word(b"RECOVER", bytes) {
        return Some(Fixed::Recover);
    }
    if is_word(b"REPLACE", bytes) {
        return Some(Fixed::Replace);
    }
    None
}

/// A token as it stands in a text of this kind.
pub fn in_dialect(dialect: Dialect, token: Token) -> Token
    ensures { result ≡ token_in_dialect dialect token }
{
    match (dialect, token) {
        (Dialect::Links, Token::Bare(name)) => match link_keyword(name.as_str().as_bytes()) {
            Some(fixed) => Token::Fixed(fixed),
            None => Token::Bare(name),
        },
        (_, token) => token,
    }
}

/// The name that a text is, where it is one.
fn name_of_text(text: Text) -> Option<Name>
    ensures { result ≡ (if is_name text then Some text else None) }
{
    match Name::from_text(text) {
        Ok(name) => Some(name),
        Err(_) => None,
    }
}

/// The name of these bytes, where they are one.
pub fn name(alloc: Global, bytes: &[u8]) -> Result<Option<Name>, AllocError>
    ensures { IfOk result (λ n. n ≡ (if is_name bytes.now then Some bytes.now else None)) }
{
    if !is_name_text(bytes) {
        return Ok(None);
    }
    let text = Text::from_string(String::from_utf8_lossy(alloc, bytes)?);
    Ok(name_of_text(text))
}

/// The bytes at the front that may stand in a name, and the others.
fn word_run(bytes: &[u8]) -> (&[u8], &[u8])
    ensures { (result.0.now, result.1.now) ≡ run may_continue bytes.now }
{
    for (i, byte) in bytes.iter().enumerate() {
        if !continues_name(*byte) {
            return bytes.split_at(i);
        }
    }
    bytes.split_at(bytes.len())
}

pub fn begins_name(byte: u8) -> bool
    ensures { result ≡ may_begin byte }
{
    byte == b'_' || byte.is_ascii_alphabetic()
}

pub fn continues_name(byte: u8) -> bool
    ensures { result ≡ may_continue byte }
{
    begins_name(byte) || byte.is_ascii_digit()
}

/// Whether a word, digits or a variable begin with this byte.
pub fn begins_word(byte: u8) -> bool
    ensures { result ≡ may_begin_word byte }
{
    continues_name(byte) || byte == b'@'
}

/// A variable, behind the first `@`.
pub fn variable(bytes: &[u8]) -> (Token, &[u8])
    ensures { (result.0, result.1.now) ≡ variable_at bytes.now }
{
    let [b'@', named @ ..] = bytes else {
        return (Token::Bad, bytes);
    };
    let (word, rest) = word_run(named);
    if is_word(b"VERSION_COMMENT", word) {
        (Token::Fixed(Fixed::VersionComment), rest)
    } else {
        (Token::Bad, rest)
    }
}

/// A word: a keyword or a name.
pub fn word(alloc: Global, bytes: &[u8]) -> Result<(Token, &[u8]), AllocError>
    ensures { IfOk result (λ x. (x.0, x.1.now) ≡ word_at bytes.now) }
{
    let (word, rest) = word_run(bytes);
    if let Some(fixed) = keyword(word) {
        return Ok((Token::Fixed(fixed), rest));
    }
    match name(alloc, word)? {
        Some(name) => Ok((Token::Bare(name), rest)),
        None => Ok((Token::Bad, rest)),
    }
}
