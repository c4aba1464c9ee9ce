//! The four images that a stop may leave of what no sync made sure.
ghost use Rattle.std.specs.Prelude.{◌≡◌, ◌≤◌, length, drop, IfOk, OnOk};
ghost use Rattle.disk_core.specs.DiskModel.{CutTo, patched};
ghost use Rattle.disk_core.specs.History.{changes, total};
ghost use Rattle.disk_core.specs.Images.{image_step, image_steps, imaged};

use crate::bytes::patch;
use crate::recent::Call;
use std::alloc::{AllocError, Global};

/// What a stop leaves of the changes since the last sync.
#[derive(Clone, Copy, Debug, PartialEq, Eq)]
pub enum Image {
    /// All of them.
    Keep,
    /// None of them, and the old length.
    Drop,
    /// The first half of each range, rounded down; the rest as it was, or 00 where nothing was.
    Half,
    /// FF in each byte of each range.
    Junk,
}

/// What an image puts in the place of a piece that was written over these bytes.
fn imaged(alloc: Global, image: Image, piece: &[u8], old: &[u8]) -> Result<Vec<u8>, AllocError>
    ensures { IfOk result (λ v. v.items ≡ imaged image piece.now old.now) }
{
    match image {
        Image::Keep => Vec::from_slice(alloc, piece),
        Image::Drop => Ok(Vec::new(alloc)),
        Image::Half => halved(alloc, piece, old),
        Image::Junk => vec![in alloc; 255; piece.len()],
    }
}

fn halved(alloc: Global, piece: &[u8], old: &[u8]) -> Result<Vec<u8>, AllocError>
    ensures { IfOk result (λ v. v.items ≡ imaged Image.Half piece.now old.now) }
{
    let half = piece.len() / 2;
    let (front, _) = piece.split_at(half);
    let (over, _) = old.split_at(piece.len().min(old.len()));
    let zeros = vec![in alloc; 0u8; piece.len().saturating_sub(old.len())]?;
    let mut under = Vec::from_slice(alloc, over)?;
    under.extend_from_slice(&zeros)?;
    let (_, rest) = under.split_at(half);
    let mut bytes = Vec::from_slice(alloc, front)?;
    bytes.extend_from_slice(rest)?;
    Ok(bytes)
}

/// Writes over the bytes what an image leaves of a piece.
fn write_image(
    alloc: Global,
    image: Image,
    at: u64,
    piece: &[u8],
    bytes: &mut Vec<u8>,
) -> Result<(), AllocError>
    ensures { OnOk result (bytes.new.items ≡ patched at (imaged image piece.now (drop at bytes.old.items)) bytes.old.items) }
{
    let (_, old) = bytes.split_at((at as usize).min(bytes.len()));
    let piece = imaged(alloc, image, piece, old)?;
    bytes.reserve(piece.len())?;
    patch(bytes, at, &piece);
    Ok(())
}

/// Cuts the bytes where an image does.
fn cut_image(image: Image, len: u64, bytes: &mut Vec<u8>)
    ensures { bytes.new.items ≡ image_step image (CutTo len) bytes.old.items }
{
    match image {
        Image::Drop => {}
        Image::Keep | Image::Half | Image::Junk => bytes.truncate(len as usize),
    }
}

/// Makes of the bytes what an image leaves of these calls, whose pieces stand one after the other.
pub fn replay(
    alloc: Global,
    image: Image,
    calls: &[Call],
    pieces: &[u8],
    bytes: &mut Vec<u8>,
) -> Result<(), AllocError>
    requires { total calls.now ≤ length pieces.now }
    ensures { OnOk result (bytes.new.items ≡ image_steps image (changes calls.now pieces.now) bytes.old.items) }
{
    let mut rest = pieces;
    for call in calls {
        match *call {
            Call::Write { at, len } => {
                let (piece, after) = rest.split_at(len as usize);
                write_image(alloc, image, at, piece, bytes)?;
                rest = after;
            }
            Call::Cut { len } => cut_image(image, len, bytes),
        }
    }
    Ok(())
}
