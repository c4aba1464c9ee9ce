//! Reading and writing in the bytes of a file.
ghost use Rattle.std.specs.Prelude.{◌≡◌, ◌+◌, ◌≤◌, length, vec_capacity};
ghost use Rattle.disk_core.specs.DiskModel.{ReadsAt, patched};

/// Writes a piece over bytes from a place on, and past their end.
pub fn patch(bytes: &mut Vec<u8>, at: u64, piece: &[u8])
    requires room { length bytes.old.items + length piece.now ≤ vec_capacity bytes.old }
    ensures items { bytes.new.items ≡ patched at piece.now bytes.old.items }
    ensures capacity { vec_capacity bytes.old ≤ vec_capacity bytes.new }
    ensures longer { length bytes.new.items ≤ length bytes.old.items + length piece.now }
{
    let at = (at as usize).min(bytes.len());
    let inside = piece.len().min(bytes.len() - at);
    let (over, past) = piece.split_at(inside);
    bytes[at..at + inside].copy_from_slice(over);
    let Ok(()) = bytes.extend_from_slice(past) else {
        unreachable!()
    };
}

/// Copies what stands from a place on, and answers how many bytes that is.
pub fn copy_from(bytes: &[u8], at: u64, into: &mut [u8]) -> usize
    ensures { ReadsAt bytes.now at result into.old into.new }
{
    let at = (at as usize).min(bytes.len());
    let (_, rest) = bytes.split_at(at);
    let count = rest.len().min(into.len());
    let (front, _) = rest.split_at(count);
    into[..count].copy_from_slice(front);
    count
}
