ghost use Rattle.std.specs.Prelude.{◌≡◌, ◌≤◌, length};

use super::{MemSink, MemSource};
use crate::{Failed, Sink, Source, Stream};

/// A stream in memory: what it gives is there from the start, and what it takes has a room of its own.
#[derive(Debug, Drop)]
pub struct MemStream {
    source: MemSource,
    sink: MemSink,
    faults: u64,
}

impl MemStream {
    ghost use Rattle.std.specs.Prelude.{◌≡◌};
    ghost use Rattle.my_wire.specs.Memory.{left, taken};
    ghost use Rattle.my_wire.specs.MemStream.{to_give, has_taken};

    /// A stream of what these have. It takes no memory.
    pub fn new(source: MemSource, sink: MemSink) -> MemStream
        ensures gives { to_give result ≡ left source }
        ensures takes { has_taken result ≡ taken sink }
    {
        MemStream {
            source,
            sink,
            faults: 0,
        }
    }

    /// The bytes taken so far.
    pub fn bytes(&self) -> &[u8]
        ensures { result.now ≡ has_taken self.now }
    {
        self.sink.bytes()
    }
}

impl Stream for MemStream {
    ghost use Rattle.std.specs.Prelude.{◌≡◌, [], length};
    ghost use Rattle.my_wire.specs.MemStream.{Passes, passes_nothing, passes_on, to_give};

    ghost passes = { Passes };

    ghost has_ended = { λ s. to_give s ≡ [] };

    ghost faults = { λ s. s.faults };

    ghost readings_left = { λ s. length (to_give s) };

    ghost reads_from = { λ s. 0 };

    ghost writes_to = { λ s. 0 };

    fn read(&mut self, into: &mut [u8]) -> Result<usize, Failed> {
        match self.source.read(into) {
            Ok(count) => Ok(count),
            Err(_) => {
                self.faults = self.faults.saturating_add(1);
                Err(Failed)
            }
        }
    }

    fn write(&mut self, piece: &[u8]) -> Result<usize, Failed> {
        match self.sink.write(piece) {
            Ok(count) => Ok(count),
            Err(_) => {
                self.faults = self.faults.saturating_add(1);
                Err(Failed)
            }
        }
    }

    ghost passes_nothing = { passes_nothing };

    ghost passes_on = { passes_on };
}
