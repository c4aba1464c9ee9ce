// Numbers and texts with their length (`Protocol::LengthEncodedInteger`).
ghost use Rattle.std.specs.Prelude.{◌≡◌, ◌++◌, ◌<◌, OnOk, OnErr, Some};
ghost use Rattle.my_wire.specs.Lenenc.{lenenc, lenenc_at, wide_at};

use byteorder::{ByteOrder, LittleEndian};
use list_types::Bytes;
use std::alloc::AllocError;

/// What stands at the front of bytes, where a length-encoded number may stand.
#[derive(Clone, Copy, Debug, PartialEq, Eq)]
pub enum Lenenc {
    /// A number, and how many bytes it takes.
    Number { value: u64, used: u64 },
    /// `FB`, which stands for NULL in a row.
    Null,
    /// Less than a whole number.
    Short,
    /// `FF`, which begins no number.
    Bad,
}

/// The number in two bytes behind the first.
fn two_at(more: &[u8]) -> Lenenc
    ensures { result ≡ wide_at (Some 2) more.now }
{
    if more.len() < 2 {
        return Lenenc::Short;
    }
    Lenenc::Number {
        value: u64::from(LittleEndian::read_u16(more)),
        used: 3,
    }
}

/// The number in three bytes behind the first.
fn three_at(more: &[u8]) -> Lenenc
    ensures { result ≡ wide_at (Some 3) more.now }
{
    if more.len() < 3 {
        return Lenenc::Short;
    }
    Lenenc::Number {
        value: u64::from(LittleEndian::read_u24(more)),
        used: 4,
    }
}

/// The number in eight bytes behind the first.
fn eight_at(more: &[u8]) -> Lenenc
    ensures { result ≡ wide_at (Some 8) more.now }
{
    if more.len() < 8 {
        return Lenenc::Short;
    }
    Lenenc::Number {
        value: LittleEndian::read_u64(more),
        used: 9,
    }
}

/// The length-encoded number at the front of the bytes. A form that is longer than the number needs is read too.
pub fn read_lenenc(bytes: &[u8]) -> Lenenc
    ensures { result ≡ lenenc_at bytes.now }
{
    match bytes {
        [] => Lenenc::Short,
        [0xFB, ..] => Lenenc::Null,
        [0xFC, more @ ..] => two_at(more),
        [0xFD, more @ ..] => three_at(more),
        [0xFE, more @ ..] => eight_at(more),
        [0xFF, ..] => Lenenc::Bad,
        [first, ..] => Lenenc::Number {
            value: u64::from(*first),
            used: 1,
        },
    }
}

/// Adds the shortest form of the number at the end.
pub fn write_lenenc(value: u64, out: &mut Bytes) -> Result<(), AllocError>
    ensures ok { OnOk result (out.new ≡ out.old ++ lenenc value) }
    ensures err { OnErr result (out.new ≡ out.old) }
{
    if value < 251 {
        return out.extend_from_slice(&[value as u8]);
    }
    let bytes = value.to_le_bytes();
    if value < 1 << 16 {
        out.extend_from_slices(&[0xFC], &bytes[..2])
    } else if value < 1 << 24 {
        out.extend_from_slices(&[0xFD], &bytes[..3])
    } else {
        out.extend_from_slices(&[0xFE], &bytes)
    }
}
