ghost use Rattle.std.specs.Prelude.{◌≡◌, ◌≤◌, length};

use super::{ScriptedCall, bytes_moved};
use crate::{Failed, Source};

/// A source of bytes in memory.
#[derive(Debug, Drop)]
pub struct MemSource {
    bytes: Vec<u8>,
    at: usize,
    script: Vec<ScriptedCall>,
    call: usize,
    faults: u64,
    ghost within: { at ≤ length bytes.items },
}

impl MemSource {
    ghost use Rattle.my_wire.specs.Memory.{left};

    /// A source of these bytes. It takes no memory.
    pub fn new(bytes: Vec<u8>, script: Vec<ScriptedCall>) -> MemSource
        ensures { left result ≡ bytes.items }
    {
        MemSource {
            bytes,
            at: 0,
            script,
            call: 0,
            faults: 0,
        }
    }
}

impl Source for MemSource {
    ghost use Rattle.std.specs.Prelude.{◌≡◌, ◌++◌, [], length};
    ghost use Rattle.my_wire.specs.Memory.{left, left_nothing, left_on};

    ghost gives = { λ s bytes t. left s ≡ bytes ++ left t };

    ghost has_ended = { λ s. left s ≡ [] };

    ghost faults = { λ s. s.faults };

    ghost readings_left = { λ s. length (left s) };

    ghost gives_nothing = { left_nothing };

    ghost gives_on = { left_on };

    fn read(&mut self, into: &mut [u8]) -> Result<usize, Failed> {
        let all = into.len().min(self.bytes.len() - self.at);
        let moved = bytes_moved(&self.script, self.call, all);
        if self.call < self.script.len() {
            self.call += 1;
        }
        let Some(n) = moved else {
            self.faults = self.faults.saturating_add(1);
            return Err(Failed);
        };
        into[..n].copy_from_slice(&self.bytes[self.at..self.at + n]);
        self.at += n;
        Ok(n)
    }
}
