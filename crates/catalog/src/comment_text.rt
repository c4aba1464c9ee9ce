//! The pieces of a comment's text.
ghost use Rattle.std.specs.Prelude.{◌≡◌, ◌++◌, ◌<◌, [], ◌∷◌, IfOk, OnOk, string_bytes};
ghost use Rattle.std.specs.Bool.{OnTrue};
ghost use Rattle.std.specs.Option.{option_map};
ghost use Rattle.sql_values.specs.Names.{continues_name};
ghost use Rattle.catalog.specs.CommentText.{is_blank as blank, skipped, word_run as run, behind_quote as quoted, opened as open_text, closed as close_text, words_from, with_word};

use list_types::Text;
use std::alloc::{AllocError, Global};
use std::mem;

const QUOTE: u8 = b'"';

fn is_blank(byte: u8) -> bool
    ensures { result ≡ blank byte }
{
    byte == b' ' || byte == b'\t' || byte == b'\r' || byte == b'\n'
}

fn is_word_byte(byte: u8) -> bool
    ensures value { result ≡ continues_name byte }
    ensures ascii { OnTrue result (byte < 128) }
{
    byte == b'_' || byte.is_ascii_alphabetic() || byte.is_ascii_digit()
}

/// The bytes without the blanks at the front.
pub(crate) fn skip_blanks(bytes: &[u8]) -> &[u8]
    ensures { result.now ≡ skipped bytes.now }
{
    let mut rest = bytes;
    while let [byte, others @ ..] = rest {
        if !is_blank(*byte) {
            return rest;
        }
        rest = others;
    }
    rest
}

/// The word at the front, which may be empty, and the bytes behind it.
pub(crate) fn word_run(bytes: &[u8]) -> (&[u8], &[u8])
    ensures { (result.0.now, result.1.now) ≡ run bytes.now }
{
    for (i, byte) in bytes.iter().enumerate() {
        if !is_word_byte(*byte) {
            return bytes.split_at(i);
        }
    }
    bytes.split_at(bytes.len())
}

fn behind_quote(bytes: &[u8]) -> Option<&[u8]>
    ensures { option_map (λ r. r.now) result ≡ quoted bytes.now }
{
    match bytes {
        [byte, others @ ..] => { if *byte == QUOTE { Some(others) } else { None } }
        [] => None,
    }
}

/// The bytes behind an opening quote in front of which at least one blank stands.
pub(crate) fn opened(bytes: &[u8]) -> Option<&[u8]>
    ensures { option_map (λ r. r.now) result ≡ open_text bytes.now }
{
    match bytes {
        [byte, others @ ..] => {
            if is_blank(*byte) {
                behind_quote(skip_blanks(others))
            } else {
                None
            }
        }
        [] => None,
    }
}

/// The bytes in front of the closing quote, and those behind it.
pub(crate) fn closed(bytes: &[u8]) -> Option<(&[u8], &[u8])>
    ensures { option_map (λ r. (r.0.now, r.1.now)) result ≡ close_text bytes.now }
{
    for (i, byte) in bytes.iter().enumerate() {
        if *byte == QUOTE {
            return Some((bytes.split_at(i).0, bytes.split_at(i + 1).1));
        }
    }
    None
}

/// The words of a text, or None where a byte stands in it that is neither a blank nor part of a word.
pub(crate) fn words(alloc: Global, text: &[u8]) -> Result<Option<Vec<Text>>, AllocError>
    ensures { IfOk result (λ found. option_map (λ v. v.items) found ≡ words_from [] text.now) }
{
    let mut words = Vec::new(alloc);
    let mut word = String::new(alloc);
    for byte in text {
        if is_blank(*byte) {
            let full = mem::replace(&mut word, String::new(alloc));
            push_word(&mut words, full)?;
        } else if is_word_byte(*byte) {
            push_byte(&mut word, *byte)?;
        } else {
            return Ok(None);
        }
    }
    push_word(&mut words, word)?;
    Ok(Some(words))
}

fn push_byte(word: &mut String, byte: u8) -> Result<(), AllocError>
    requires { byte < 128 }
    ensures { OnOk result (string_bytes word.new ≡ string_bytes word.old ++ byte ∷ []) }
{
    word.push(char::from(byte))?;
    Ok(())
}

/// Adds a word, where one has begun.
fn push_word(words: &mut Vec<Text>, word: String) -> Result<(), AllocError>
    ensures { OnOk result (words.new.items ≡ words.old.items ++ with_word (string_bytes word) []) }
{
    if !word.is_empty() {
        words.push(Text::from_string(word))?;
    }
    Ok(())
}
