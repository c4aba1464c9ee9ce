// Payloads of one message each.
ghost use Rattle.std.specs.Prelude.{◌≡◌, [], codes};
ghost use Rattle.my_messages.specs.Reading.{Reads, Gives, small_at, end_at, ok_at, err_at, switch_at, eof_at, counted, count_at, definition_at};

use crate::fault::{BadBytes, ReadFault};
use crate::fields::{any_literal, fixed, literal, number, u8_at, u16_at, u32_at};
use crate::utf8::{nul_text, text, whole_text};
use crate::{Column, Reply};
use my_wire::{Lenenc, read_lenenc};
use std::alloc::Global;

/// The value, where no byte follows.
pub(crate) fn end<T: Drop>(value: T, bytes: &[u8]) -> Result<T, BadBytes>
    ensures { Reads (λ x. x) result (end_at value bytes.now) }
{
    if bytes.is_empty() {
        Ok(value)
    } else {
        Err(BadBytes { left: bytes.len() })
    }
}

/// The number 0 in any form.
#[tactic(auto, unfolding(crate::specs::Reading::small_at))]
fn zero(bytes: &[u8]) -> Result<&[u8], BadBytes>
    ensures { Reads (λ rest. (tt, rest.now)) result (small_at 0 [] bytes.now) }
{
    any_literal(
        bytes,
        &[0],
        &[0xFC, 0, 0],
        &[0xFD, 0, 0, 0],
        &[0xFE, 0, 0, 0, 0, 0, 0, 0, 0],
    )
}

/// The text `def`, with its length in any form.
#[tactic(auto, unfolding(crate::specs::Reading::small_at))]
fn catalog(bytes: &[u8]) -> Result<&[u8], BadBytes>
    ensures { Reads (λ rest. (tt, rest.now)) result (small_at 3 (codes "def") bytes.now) }
{
    any_literal(
        bytes,
        b"\x03def",
        b"\xFC\x03\x00def",
        b"\xFD\x03\x00\x00def",
        b"\xFE\x03\x00\x00\x00\x00\x00\x00\x00def",
    )
}

/// An OK.
#[tactic(auto, unfolding(crate::specs::Reading::ok_at))]
pub(crate) fn ok_packet(bytes: &[u8]) -> Result<Reply, BadBytes>
    ensures { Reads (λ x. x) result (ok_at bytes.now) }
{
    let rest = literal(bytes, &[0x00])?;
    let (affected, rest) = number(rest)?;
    let rest = zero(rest)?;
    let (status, rest) = u16_at(rest)?;
    let (warnings, rest) = u16_at(rest)?;
    end(
        Reply::Ok {
            affected,
            status,
            warnings,
        },
        rest,
    )
}

/// An ERR.
#[tactic(auto, unfolding(crate::specs::Reading::err_at))]
pub(crate) fn err_packet(alloc: Global, bytes: &[u8]) -> Result<Reply, ReadFault>
    ensures { Gives (λ x. x) result (err_at bytes.now) }
{
    let rest = literal(bytes, &[0xFF])?;
    let (number, rest) = u16_at(rest)?;
    let rest = literal(rest, b"#")?;
    let (front, rest) = fixed(rest, 5)?;
    let mut state = [0u8; 5];
    state.copy_from_slice(front);
    let message = whole_text(alloc, rest)?;
    Ok(Reply::Err {
        number,
        state,
        message,
    })
}

/// A request to log in by another plugin.
#[tactic(auto, unfolding(crate::specs::Reading::switch_at))]
pub(crate) fn switch_request(alloc: Global, bytes: &[u8]) -> Result<Reply, ReadFault>
    ensures { Gives (λ x. x) result (switch_at bytes.now) }
{
    let rest = literal(bytes, &[0xFE])?;
    let (plugin, rest) = nul_text(alloc, rest)?;
    let (front, rest) = fixed(rest, 20)?;
    let mut nonce = [0u8; 20];
    nonce.copy_from_slice(front);
    let rest = literal(rest, &[0])?;
    Ok(end(Reply::Switch { plugin, nonce }, rest)?)
}

/// An EOF, by its status.
#[tactic(auto, unfolding(crate::specs::Reading::eof_at))]
pub(crate) fn eof_packet(bytes: &[u8]) -> Result<u16, BadBytes>
    ensures { Reads (λ x. x) result (eof_at bytes.now) }
{
    let rest = literal(bytes, &[0xFE])?;
    let (_, rest) = fixed(rest, 2)?;
    let (status, rest) = u16_at(rest)?;
    end(status, rest)
}

/// The number of columns, which is not 0.
pub(crate) fn column_count(bytes: &[u8]) -> Result<u64, BadBytes>
    ensures { Reads (λ x. x) result (count_at bytes.now) }
{
    match read_lenenc(bytes) {
        Lenenc::Number { value, used } => {
            if value == 0 {
                return Err(BadBytes {
                    left: bytes.len() - (used as usize - 1),
                });
            }
            end(value, bytes.split_at(used as usize).1)
        }
        Lenenc::Short => Err(BadBytes { left: 0 }),
        Lenenc::Null | Lenenc::Bad => Err(BadBytes { left: bytes.len() }),
    }
}

/// A column's definition.
#[tactic(auto, unfolding(crate::specs::Reading::definition_at))]
pub(crate) fn definition(alloc: Global, bytes: &[u8]) -> Result<Column, ReadFault>
    ensures { Gives (λ x. x) result (definition_at bytes.now) }
{
    let rest = catalog(bytes)?;
    let (schema, rest) = text(alloc, rest)?;
    let (table, rest) = text(alloc, rest)?;
    let (org_table, rest) = text(alloc, rest)?;
    let (name, rest) = text(alloc, rest)?;
    let (org_name, rest) = text(alloc, rest)?;
    let rest = literal(rest, &[0x0C])?;
    let (charset, rest) = u16_at(rest)?;
    let (length, rest) = u32_at(rest)?;
    let (kind, rest) = u8_at(rest)?;
    let (flags, rest) = u16_at(rest)?;
    let rest = literal(rest, &[0, 0, 0])?;
    let column = Column {
        schema,
        table,
        org_table,
        name,
        org_name,
        charset,
        length,
        kind,
        flags,
    };
    Ok(end(column, rest)?)
}
