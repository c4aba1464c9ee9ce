// Texts in UTF-8, and where bytes are none.
ghost use Rattle.std.specs.Prelude.{◌≡◌, ◌<◌, ◌+◌, ◌&&◌, nat_le, length, drop, take, IfOk, IfSome, IfNone};
ghost use Rattle.my_messages.specs.Utf8.{owed, may_follow, sized_after, nul_after, all_after, bad_of};
ghost use Rattle.simdutf8.specs.Steps.{least_after, most_after};
ghost use Rattle.my_messages.specs.Reading.{Reads, Gives, text_at};

use crate::fault::{BadBytes, ReadFault};
use crate::fields::number;
use list_types::Text;
use std::alloc::Global;

/// The last three bytes of a text so far.
#[derive(Clone, Copy)]
struct Last {
    x: u8,
    y: u8,
    z: u8,
}

/// How many bytes of a character are still due.
fn owed(last: Last) -> u64
    ensures { result ≡ owed last.x last.y last.z }
{
    if last.x >= 0xF0 {
        1
    } else if last.y >= 0xF0 {
        2
    } else if last.y >= 0xE0 {
        1
    } else if last.z < 0xC0 {
        0
    } else if last.z < 0xE0 {
        1
    } else if last.z < 0xF0 {
        2
    } else {
        3
    }
}

/// The least byte that may follow a first byte.
fn least_after(first: u8) -> u8
    ensures { result ≡ least_after first }
{
    match first {
        0xE0 => 0xA0,
        0xF0 => 0x90,
        _ => 0x80,
    }
}

/// The greatest byte that may follow a first byte.
fn most_after(first: u8) -> u8
    ensures { result ≡ most_after first }
{
    match first {
        0xED => 0x9F,
        0xF4 => 0x8F,
        _ => 0xBF,
    }
}

/// Whether some text goes on with that byte.
fn may_follow(last: Last, byte: u8) -> bool
    ensures { result ≡ may_follow last.x last.y last.z byte }
{
    if last.z >= 0xC0 {
        least_after(last.z) <= byte && byte <= most_after(last.z)
    } else if owed(last) == 0 {
        byte < 0x80 || (0xC2 <= byte && byte <= 0xF4)
    } else {
        0x80 <= byte && byte < 0xC0
    }
}

/// Whether some text of so many more bytes goes on behind that byte.
fn goes_on(last: Last, byte: u8, due: u64) -> bool
    ensures { result ≡ (may_follow last.x last.y last.z byte && nat_le (owed last.y last.z byte) due) }
{
    let next = Last {
        x: last.y,
        y: last.z,
        z: byte,
    };
    may_follow(last, byte) && owed(next) <= due
}

/// The first byte at which no text of so many bytes goes on, by how many bytes are left from it on.
fn bad_sized(size: u64, bytes: &[u8]) -> Option<usize>
    ensures { result ≡ bad_of (sized_after 0 0 0 size bytes.now) }
{
    let mut last = Last { x: 0, y: 0, z: 0 };
    let mut due = size;
    for (i, byte) in bytes.iter().enumerate() {
        if due == 0 {
            return None;
        }
        due -= 1;
        if !goes_on(last, *byte, due) {
            return Some(bytes.len() - i);
        }
        last = Last {
            x: last.y,
            y: last.z,
            z: *byte,
        };
    }
    if due == 0 { None } else { Some(0) }
}

/// The text of so many bytes at the front, and what follows it.
fn front_text(size: u64, bytes: &[u8]) -> Option<(&str, &[u8])>
    ensures text { IfSome result (λ x. sized_after 0 0 0 size bytes.now ≡ Ok (x.0.now, x.1.now)) }
    ensures none { IfNone result (bad_of (sized_after 0 0 0 size bytes.now) ≡ None → ⊥) }
{
    if bytes.len() as u64 >= size {
        let (front, rest) = bytes.split_at(size as usize);
        match std::str::from_utf8(front) {
            Ok(text) => Some((text, rest)),
            Err(_) => None,
        }
    } else {
        None
    }
}

/// The text of so many bytes at the front, and what follows it.
fn sized_text(alloc: Global, size: u64, bytes: &[u8]) -> Result<(Text, &[u8]), ReadFault>
    ensures { Gives (λ x. (x.0, x.1.now)) result (sized_after 0 0 0 size bytes.now) }
{
    match front_text(size, bytes) {
        Some((text, rest)) => Ok((Text::from_str(alloc, text)?, rest)),
        None => match bad_sized(size, bytes) {
            Some(left) => Err(ReadFault::Bad(BadBytes { left })),
            None => unreachable!(),
        },
    }
}

/// A length-encoded text, and what follows it.
#[tactic(auto, unfolding(crate::specs::Reading::text_at))]
pub(crate) fn text(alloc: Global, bytes: &[u8]) -> Result<(Text, &[u8]), ReadFault>
    ensures { Gives (λ x. (x.0, x.1.now)) result (text_at bytes.now) }
{
    let (size, rest) = number(bytes)?;
    sized_text(alloc, size, rest)
}

/// Where the NUL is that ends the text at the front.
fn nul_end(bytes: &[u8]) -> Result<usize, BadBytes>
    ensures text { Reads (λ at. (take at bytes.now, drop (at + 1) bytes.now)) result (nul_after 0 0 0 bytes.now) }
    ensures within { IfOk result (λ at. at < length bytes.now) }
{
    let mut last = Last { x: 0, y: 0, z: 0 };
    for (i, byte) in bytes.iter().enumerate() {
        if !may_follow(last, *byte) {
            return Err(BadBytes {
                left: bytes.len() - i,
            });
        }
        if *byte == 0 {
            return Ok(i);
        }
        last = Last {
            x: last.y,
            y: last.z,
            z: *byte,
        };
    }
    Err(BadBytes { left: 0 })
}

/// A text that NUL ends, and what follows it.
pub(crate) fn nul_text(alloc: Global, bytes: &[u8]) -> Result<(Text, &[u8]), ReadFault>
    ensures { Gives (λ x. (x.0, x.1.now)) result (nul_after 0 0 0 bytes.now) }
{
    let at = nul_end(bytes)?;
    let (front, _) = bytes.split_at(at);
    let (_, rest) = bytes.split_at(at + 1);
    match std::str::from_utf8(front) {
        Ok(text) => Ok((Text::from_str(alloc, text)?, rest)),
        Err(_) => unreachable!(),
    }
}

/// The first byte at which no text goes on, by how many bytes are left from it on.
fn bad_all(bytes: &[u8]) -> Option<usize>
    ensures { result ≡ bad_of (all_after 0 0 0 bytes.now) }
{
    let mut last = Last { x: 0, y: 0, z: 0 };
    for (i, byte) in bytes.iter().enumerate() {
        if !may_follow(last, *byte) {
            return Some(bytes.len() - i);
        }
        last = Last {
            x: last.y,
            y: last.z,
            z: *byte,
        };
    }
    if owed(last) == 0 { None } else { Some(0) }
}

/// The text that all of the bytes are.
pub(crate) fn whole_text(alloc: Global, bytes: &[u8]) -> Result<Text, ReadFault>
    ensures { Gives (λ t. t) result (all_after 0 0 0 bytes.now) }
{
    match std::str::from_utf8(bytes) {
        Ok(text) => Ok(Text::from_str(alloc, text)?),
        Err(_) => match bad_all(bytes) {
            Some(left) => Err(ReadFault::Bad(BadBytes { left })),
            None => unreachable!(),
        },
    }
}
