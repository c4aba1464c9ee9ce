//! What stands between tokens.
ghost use Rattle.std.specs.Prelude.{◌≡◌};
ghost use Rattle.std.specs.Option.{option_copied};
ghost use Rattle.sql_text.specs.Tokens.{is_blank as byte_is_blank, comment_at, skipped};

use crate::token::Token;

/// Space, tab, CR or LF.
pub fn is_blank(byte: u8) -> bool
    ensures { result ≡ byte_is_blank byte }
{
    byte == b' ' || byte == b'\t' || byte == b'\r' || byte == b'\n'
}

/// What stands behind the end of a comment.
fn behind_comment(bytes: &[u8]) -> Option<&[u8]>
    ensures { option_copied result ≡ comment_at bytes.now }
{
    if let [b'!', ..] = bytes {
        return None;
    }
    let mut star = false;
    let mut rest = bytes;
    while let [byte, more @ ..] = rest {
        if star && *byte == b'/' {
            return Some(more);
        }
        star = *byte == b'*';
        rest = more;
    }
    None
}

/// A comment, behind its first two bytes.
pub fn comment(bytes: &[u8]) -> (Option<Token>, &[u8])
    ensures { (result.0, result.1.now) ≡ skipped (comment_at bytes.now) }
{
    match behind_comment(bytes) {
        Some(rest) => (None, rest),
        None => (Some(Token::Bad), &[]),
    }
}
