//! What a disk in memory keeps of its changes: what the last sync made sure, and the changes since.
ghost use Rattle.std.specs.Prelude.{◌≡◌, ◌+◌, ◌≤◌, ◌<◌, ◌++◌, [], ◌∷◌, length, IfOk, OnOk, vec_capacity, vec_len};
ghost use Rattle.disk_core.specs.DiskModel.{CutTo, Wrote};
ghost use Rattle.disk_core.specs.History.{changes, total};
ghost use Rattle.disk_core.specs.Images.{image_steps};

use crate::Image;
use crate::bytes::patch;
use crate::image::replay;
use std::alloc::{AllocError, Global};

/// A change of a file. What a write wrote stands elsewhere.
#[derive(Clone, Copy, Debug, PartialEq, Eq)]
pub enum Call {
    Write { at: u64, len: u64 },
    Cut { len: u64 },
}

/// The bytes that the last sync made sure, and the changes since.
#[derive(Drop)]
pub struct Recent {
    sure: Vec<u8>,
    calls: Vec<Call>,
    /// What the calls wrote, one piece after the other.
    pieces: Vec<u8>,
    ghost whole: { total calls.items ≡ length pieces.items },
    // A sync takes no memory.
    ghost fits: { length sure.items + length pieces.items ≤ vec_capacity sure },
}

/// Makes these changes, whose pieces stand one after the other.
fn make_all(calls: &[Call], pieces: &[u8], bytes: &mut Vec<u8>)
    requires whole { total calls.now ≡ length pieces.now }
    requires room { length bytes.old.items + length pieces.now ≤ vec_capacity bytes.old }
    ensures made { bytes.new.items ≡ image_steps Image.Keep (changes calls.now pieces.now) bytes.old.items }
    ensures capacity { vec_capacity bytes.old ≤ vec_capacity bytes.new }
    ensures longer { length bytes.new.items ≤ length bytes.old.items + length pieces.now }
{
    let mut rest = pieces;
    for call in calls {
        match *call {
            Call::Write { at, len } => {
                let (piece, after) = rest.split_at(len as usize);
                patch(bytes, at, piece);
                rest = after;
            }
            Call::Cut { len } => bytes.truncate(len as usize),
        }
    }
}

impl Recent {
    ghost use Rattle.disk_core.specs.Recents.{moment_of, calls_left, pieces_left};
    ghost use Rattle.disk_core.specs.DiskModel.{changed_by, sure_now};
    ghost use Rattle.disk_core.specs.Images.{image_of};

    /// These bytes, all of them sure.
    pub fn new(alloc: Global, bytes: &[u8]) -> Result<Recent, AllocError>
        ensures { IfOk result (λ r. moment_of r ≡ sure_now bytes.now) }
    {
        Ok(Recent {
            sure: Vec::from_slice(alloc, bytes)?,
            calls: Vec::new(alloc),
            pieces: Vec::new(alloc),
        })
    }

    /// Makes room for so many calls, which write so many bytes.
    pub fn reserve(&mut self, calls: usize, bytes: usize) -> Result<(), AllocError>
        ensures ok { OnOk result ((calls ≤ calls_left self.new) × (bytes ≤ pieces_left self.new)) }
        ensures more { (calls_left self.old ≤ calls_left self.new) × (pieces_left self.old ≤ pieces_left self.new) }
        ensures same { moment_of self.new ≡ moment_of self.old }
    {
        let Some(all) = self.pieces.len().checked_add(bytes) else {
            return Err(AllocError);
        };
        self.calls.reserve(calls)?;
        self.pieces.reserve(bytes)?;
        self.sure.reserve(all)?;
        Ok(())
    }

    /// A write, for which room was made.
    pub fn write(&mut self, at: u64, piece: &[u8])
        requires calls { 0 < calls_left self.old }
        requires bytes { length piece.now ≤ pieces_left self.old }
        ensures moment { moment_of self.new ≡ changed_by (Wrote at piece.now) (moment_of self.old) }
        ensures room { (calls_left self.old ≤ calls_left self.new + 1) × (pieces_left self.old ≤ pieces_left self.new + length piece.now) }
    {
        let Ok(()) = self.pieces.extend_from_slice(piece) else {
            unreachable!()
        };
        self.calls.push_reserved(Call::Write {
            at,
            len: piece.len() as u64,
        });
    }

    /// A cut, for which room was made.
    pub fn cut(&mut self, len: u64)
        requires { 0 < calls_left self.old }
        ensures moment { moment_of self.new ≡ changed_by (CutTo len) (moment_of self.old) }
        ensures room { (calls_left self.old ≤ calls_left self.new + 1) × (pieces_left self.old ≤ pieces_left self.new) }
    {
        self.calls.push_reserved(Call::Cut { len });
    }

    /// A sync: all is sure, and the changes are forgotten.
    pub fn settle(&mut self)
        ensures moment { moment_of self.new ≡ sure_now (image_of Image.Keep (moment_of self.old)) }
        ensures room { (calls_left self.old ≤ calls_left self.new) × (pieces_left self.old ≤ pieces_left self.new) }
    {
        make_all(&self.calls, &self.pieces, &mut self.sure);
        self.calls.clear();
        self.pieces.clear();
    }

    /// What a stop with an image leaves.
    pub fn image(&self, alloc: Global, image: Image) -> Result<Vec<u8>, AllocError>
        ensures { IfOk result (λ v. v.items ≡ image_of image (moment_of self.now)) }
    {
        let mut bytes = Vec::from_slice(alloc, &self.sure)?;
        replay(alloc, image, &self.calls, &self.pieces, &mut bytes)?;
        Ok(bytes)
    }
}
