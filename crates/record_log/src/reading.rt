//! Reading the records behind a file's head.
ghost use Rattle.std.specs.Prelude.{◌≡◌, ◌≢◌, ◌++◌, [], ◌∷◌, ◌≤◌, ◌<◌, ◌+◌, ℕ, List, true, false, None, drop, length, IfOk, IfSome, IfNone, IsErrOf, OnErr, sum_by};
ghost use Rattle.record_log.specs.Recovery.{is_whole, payload_at, records_past};
ghost use Rattle.byteorder.specs.Endian.{little_number};
ghost use Rattle.record_log.specs.Layout.{EndsAt, size_of};
ghost use Rattle.record_log.specs.RecordLists.{list_of};

use crate::{Bytes, MAX_PAYLOAD, Records};
use byteorder::{ByteOrder, LittleEndian};
use std::alloc::{AllocError, AllocFailed, Global};

/// Why records weren't read.
#[derive(Debug, Drop)]
pub enum ReadFault {
    /// A gate is missing, or an open gate's record isn't whole.
    Broken,
    /// No memory was left.
    NoMemory,
}

impl From<AllocError> for ReadFault {
    ghost use Rattle.record_log.specs.declared.reading.ReadFault.TheVariants.{NoMemory};
    ghost use Rattle.std.specs.Prelude.{◌≡◌};

    ghost from_gives = { λ _ e. e ≡ NoMemory };

    fn from(_: AllocError) -> ReadFault {
        ReadFault::NoMemory
    }
}

/// The records of a body, and how many bytes they take.
#[derive(Debug, Drop)]
pub struct Body {
    pub records: Records,
    pub size: u64,
}

/// The record behind an open gate, and what stands behind it; none where it isn't whole.
fn whole_record(bytes: &[u8]) -> Option<(&[u8], &[u8])>
    ensures none { IfNone result (is_whole bytes.now ≡ false) }
    ensures whole { IfSome result (λ r. (is_whole bytes.now ≡ true)) }
    ensures payload { IfSome result (λ r. r.0.now ≡ payload_at bytes.now) }
    ensures behind { IfSome result (λ r. r.1.now ≡ drop (4 + little_number 4 bytes.now) bytes.now) }
{
    if bytes.len() < 4 {
        return None;
    }
    let size = LittleEndian::read_u32(bytes) as usize;
    if size as u64 > MAX_PAYLOAD {
        return None;
    }
    let (_, rest) = bytes.split_at(4);
    if size > rest.len() {
        return None;
    }
    Some(rest.split_at(size))
}

/// What stands behind an open gate; none where there is no gate or it isn't open.
fn behind_open_gate(bytes: &[u8]) -> Option<&[u8]>
    ensures opened { IfSome result (λ behind. bytes.now ≡ 1 ∷ behind.now) }
    ensures shut { IfNone result ((gate : ℕ) (behind : List ℕ) → bytes.now ≡ gate ∷ behind → gate ≢ 1) }
{
    match bytes {
        [1, behind @ ..] => Some(behind),
        _ => None,
    }
}

/// Reads the records of a body up to the gate that ends them.
pub fn read_records(alloc: Global, bytes: &[u8]) -> Result<Body, ReadFault>
    ensures records { IfOk result (λ body. EndsAt bytes.now (list_of body.records) body.size) }
    ensures within { IfOk result (λ body. body.size < length bytes.now) }
    ensures size { IfOk result (λ body. size_of (list_of body.records) ≡ body.size) }
    ensures broken { IsErrOf result ReadFault.Broken → records_past 0 bytes.now ≡ None }
{
    let mut records = Records::new(alloc);
    let mut rest = bytes;
    while let Some(after) = behind_open_gate(rest) {
        let Some((payload, behind)) = whole_record(after) else {
            return Err(ReadFault::Broken);
        };
        records.push(Bytes::from_vec(Vec::from_slice(alloc, payload)?))?;
        rest = behind;
    }
    if rest.is_empty() {
        return Err(ReadFault::Broken);
    }
    Ok(Body {
        records,
        size: (bytes.len() - rest.len()) as u64,
    })
}
