ghost use Rattle.std.specs.Prelude.{◌≡◌, ◌≤◌, length, vec_capacity};

use super::{ScriptedCall, bytes_moved};
use crate::{Failed, Sink};
use std::alloc::{AllocError, Global};

/// A sink in memory, with a room of its own. A write fails where no byte has room.
#[derive(Debug, Drop)]
pub struct MemSink {
    bytes: Vec<u8>,
    room: usize,
    script: Vec<ScriptedCall>,
    call: usize,
    faults: u64,
    ghost within: { length bytes.items ≤ room },
    ghost reserved: { room ≤ vec_capacity bytes },
}

impl MemSink {
    ghost use Rattle.std.specs.Prelude.{◌≡◌, [], IfOk};
    ghost use Rattle.my_wire.specs.Memory.{taken, room_of};

    /// A sink with room for so many bytes, which is taken now.
    pub fn new(alloc: Global, room: usize, script: Vec<ScriptedCall>) -> Result<MemSink, AllocError>
        ensures empty { IfOk result (λ s. taken s ≡ []) }
        ensures room { IfOk result (λ s. room_of s ≡ room) }
    {
        Ok(MemSink {
            bytes: Vec::with_capacity(alloc, room)?,
            room,
            script,
            call: 0,
            faults: 0,
        })
    }

    /// The bytes taken so far.
    pub fn bytes(&self) -> &[u8]
        ensures { result.now ≡ taken self.now }
    {
        self.bytes.as_slice()
    }
}

impl Sink for MemSink {
    ghost use Rattle.std.specs.Prelude.{◌≡◌, ◌++◌};
    ghost use Rattle.my_wire.specs.Memory.{taken, taken_nothing, taken_on};

    ghost takes = { λ s bytes t. taken t ≡ taken s ++ bytes };

    ghost faults = { λ s. s.faults };

    ghost takes_nothing = { taken_nothing };

    ghost takes_on = { taken_on };

    fn write(&mut self, piece: &[u8]) -> Result<usize, Failed> {
        let all = piece.len().min(self.room - self.bytes.len());
        let moved = bytes_moved(&self.script, self.call, all);
        if self.call < self.script.len() {
            self.call += 1;
        }
        let Some(n) = moved else {
            self.faults = self.faults.saturating_add(1);
            return Err(Failed);
        };
        if n == 0 && !piece.is_empty() {
            self.faults = self.faults.saturating_add(1);
            return Err(Failed);
        }
        match self.bytes.extend_from_slice(&piece[..n]) {
            Ok(()) => Ok(n),
            Err(_) => unreachable!(),
        }
    }
}
