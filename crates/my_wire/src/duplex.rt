ghost use Rattle.std.specs.Prelude.{◌≡◌, ◌<◌, ◌≤◌, length, IfOk, [], ◌∷◌, None};
ghost use Rattle.my_wire.specs.Counts.{HasRisen};

use crate::{Failed, Sink, Source, Stream};

/// An end of a stream.
#[derive(Clone, Copy, Debug, PartialEq, Eq)]
pub enum End {
    /// Where bytes come from.
    Source,
    /// Where bytes go to.
    Sink,
}

/// A source and a sink as one stream, as a program's input and output are.
#[derive(Drop)]
pub struct Duplex<'a, S, K> {
    pub source: &'a mut S,
    pub sink: &'a mut K,
    faults: u64,
    failed: Option<End>,
}

impl<'a, S: Source, K: Sink> Duplex<'a, S, K> {
    ghost use Rattle.std.specs.Prelude.{◌≡◌, None};
    ghost use Rattle.my_wire.specs.Duplex.{IsFresh, failed_end};

    /// The stream of these two. It takes no memory.
    pub fn new(source: &'a mut S, sink: &'a mut K) -> Duplex<'a, S, K>
        ensures source { result.source.ghost_name ≡ source.entry.ghost_name }
        ensures sink { result.sink.ghost_name ≡ sink.entry.ghost_name }
        ensures source_value { result.source.now ≡ source.old }
        ensures sink_value { result.sink.now ≡ sink.old }
        ensures fresh { IsFresh result }
    {
        Duplex {
            source,
            sink,
            faults: 0,
            failed: None,
        }
    }

    /// The end that failed last.
    pub fn failed(&self) -> Option<End>
        ensures { result ≡ failed_end self.now }
    {
        self.failed
    }
}

impl<'a, S: Source, K: Sink> Stream for Duplex<'a, S, K> {
    ghost use Rattle.std.specs.Prelude.{ℕ, List, [], ◌∷◌};
    ghost use Rattle.my_wire.specs.Duplex.{Passes, passes_nothing, passes_on, count_of};

    ghost passes = { λ d a x e. Passes S.gives S.faults K.takes K.faults d a x e };

    ghost has_ended = { λ d. S.has_ended d.source.now };

    ghost faults = { count_of };

    ghost readings_left = { λ d. S.readings_left d.source.now };

    ghost reads_from = { λ d. d.source.ghost_name };

    ghost writes_to = { λ d. d.sink.ghost_name };

    fn read(&mut self, into: &mut [u8]) -> Result<usize, Failed> {
        match self.source.read(into) {
            Ok(count) => Ok(count),
            Err(_) => {
                self.faults = self.faults.saturating_add(1);
                self.failed = Some(End::Source);
                Err(Failed)
            }
        }
    }

    fn write(&mut self, piece: &[u8]) -> Result<usize, Failed> {
        match self.sink.write(piece) {
            Ok(count) => Ok(count),
            Err(_) => {
                self.faults = self.faults.saturating_add(1);
                self.failed = Some(End::Sink);
                Err(Failed)
            }
        }
    }

    ghost passes_nothing = { passes_nothing S.gives S.faults K.takes K.faults S.gives_nothing K.takes_nothing };

    ghost passes_on = { passes_on S.gives S.faults K.takes K.faults S.gives_on K.takes_on };
}
