// The fields that messages are made of ("Protocol Basics, Data Types").
ghost use Rattle.std.specs.Prelude.{◌≡◌, length, IfOk};
ghost use Rattle.my_messages.specs.Reading.{Reads, literal_at, int_at, fixed_at, number_at, any_at, or_else};

use crate::fault::BadBytes;
use byteorder::{ByteOrder, LittleEndian};
use my_wire::{Lenenc, read_lenenc};

/// The bytes after exactly these.
pub(crate) fn literal<'a>(bytes: &'a [u8], expected: &[u8]) -> Result<&'a [u8], BadBytes>
    ensures { Reads (λ rest. (tt, rest.now)) result (literal_at expected.now bytes.now) }
{
    match expected {
        [] => Ok(bytes),
        [wanted, expected @ ..] => match bytes {
            [] => Err(BadBytes { left: 0 }),
            [byte, rest @ ..] => {
                if *byte == *wanted {
                    literal(rest, expected)
                } else {
                    Err(BadBytes { left: bytes.len() })
                }
            }
        },
    }
}

/// The bytes after one of two literals. Where neither goes on, the later of the two places.
fn either<'a>(bytes: &'a [u8], one: &[u8], two: &[u8]) -> Result<&'a [u8], BadBytes>
    ensures { Reads (λ rest. (tt, rest.now)) result (or_else (literal_at one.now bytes.now) (literal_at two.now bytes.now)) }
{
    match literal(bytes, one) {
        Ok(rest) => Ok(rest),
        Err(first) => match literal(bytes, two) {
            Ok(rest) => Ok(rest),
            Err(second) => Err(BadBytes {
                left: first.left.min(second.left),
            }),
        },
    }
}

/// The bytes after one of three literals.
fn any_of_three<'a>(
    bytes: &'a [u8],
    one: &[u8],
    two: &[u8],
    three: &[u8],
) -> Result<&'a [u8], BadBytes>
    ensures { Reads (λ rest. (tt, rest.now)) result (or_else (literal_at one.now bytes.now) (or_else (literal_at two.now bytes.now) (literal_at three.now bytes.now))) }
{
    match literal(bytes, one) {
        Ok(rest) => Ok(rest),
        Err(first) => match either(bytes, two, three) {
            Ok(rest) => Ok(rest),
            Err(second) => Err(BadBytes {
                left: first.left.min(second.left),
            }),
        },
    }
}

/// The bytes after one of four literals.
pub(crate) fn any_literal<'a>(
    bytes: &'a [u8],
    one: &[u8],
    two: &[u8],
    three: &[u8],
    four: &[u8],
) -> Result<&'a [u8], BadBytes>
    ensures { Reads (λ rest. (tt, rest.now)) result (any_at one.now two.now three.now four.now bytes.now) }
{
    match literal(bytes, one) {
        Ok(rest) => Ok(rest),
        Err(first) => match any_of_three(bytes, two, three, four) {
            Ok(rest) => Ok(rest),
            Err(second) => Err(BadBytes {
                left: first.left.min(second.left),
            }),
        },
    }
}

/// A number in one byte.
pub(crate) fn u8_at(bytes: &[u8]) -> Result<(u8, &[u8]), BadBytes>
    ensures { Reads (λ x. (x.0, x.1.now)) result (int_at 1 bytes.now) }
{
    match bytes {
        [] => Err(BadBytes { left: 0 }),
        [number, rest @ ..] => Ok((*number, rest)),
    }
}

/// A number in two bytes.
pub(crate) fn u16_at(bytes: &[u8]) -> Result<(u16, &[u8]), BadBytes>
    ensures { Reads (λ x. (x.0, x.1.now)) result (int_at 2 bytes.now) }
{
    if bytes.len() < 2 {
        return Err(BadBytes { left: 0 });
    }
    let (front, rest) = bytes.split_at(2);
    Ok((LittleEndian::read_u16(front), rest))
}

/// A number in four bytes.
pub(crate) fn u32_at(bytes: &[u8]) -> Result<(u32, &[u8]), BadBytes>
    ensures { Reads (λ x. (x.0, x.1.now)) result (int_at 4 bytes.now) }
{
    if bytes.len() < 4 {
        return Err(BadBytes { left: 0 });
    }
    let (front, rest) = bytes.split_at(4);
    Ok((LittleEndian::read_u32(front), rest))
}

/// So many bytes.
pub(crate) fn fixed(bytes: &[u8], width: usize) -> Result<(&[u8], &[u8]), BadBytes>
    ensures bytes { Reads (λ x. (x.0.now, x.1.now)) result (fixed_at width bytes.now) }
    ensures width { IfOk result (λ x. length x.0.now ≡ width) }
{
    if bytes.len() < width {
        return Err(BadBytes { left: 0 });
    }
    Ok(bytes.split_at(width))
}

/// A length-encoded number.
pub(crate) fn number(bytes: &[u8]) -> Result<(u64, &[u8]), BadBytes>
    ensures { Reads (λ x. (x.0, x.1.now)) result (number_at bytes.now) }
{
    match read_lenenc(bytes) {
        Lenenc::Number { value, used } => Ok((value, bytes.split_at(used as usize).1)),
        Lenenc::Short => Err(BadBytes { left: 0 }),
        Lenenc::Null | Lenenc::Bad => Err(BadBytes { left: bytes.len() }),
    }
}
