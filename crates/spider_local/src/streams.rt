// Standard input and output as a source and a sink. They tell nothing of content, and keep their counts.
ghost use Rattle.std.specs.Prelude.{◌<◌, ◌≤◌, length, IfSome};

use my_wire::{Failed, Sink, Source};
use std::io::{ErrorKind, Read, Write};

/// How many readings there are at most, so that each reader ends.
const MOST_READINGS: u64 = 1 << 63;

/// How often a call that a signal interrupted is made again.
const MOST_TRIES: u32 = 1 << 31;

/// What gives bytes to the program.
#[derive(Drop)]
pub struct Input<R> {
    reader: R,
    readings: u64,
    faults: u64,
}

impl<R: Read> Input<R> {
    pub fn new(reader: R) -> Input<R> {
        Input {
            reader,
            readings: MOST_READINGS,
            faults: 0,
        }
    }
}

/// One reading, made again where a signal interrupts it. None where it fails.
fn read_some<R: Read>(reader: &mut R, into: &mut [u8]) -> Option<usize>
    ensures { IfSome result (λ n. n ≤ length into.old) }
{
    for _ in 0..MOST_TRIES {
        match reader.read(into) {
            Ok(count) => return Some(count),
            Err(e) if e.kind() == ErrorKind::Interrupted => {}
            Err(_) => return None,
        }
    }
    None
}

impl<R: Read> Source for Input<R> {
    ghost use Rattle.std.specs.Prelude.{ℕ};

    ghost gives = { λ _ _ _. Unit {0} };

    ghost has_ended = { λ _. Unit {0} };

    ghost faults = { λ s. s.faults };

    ghost readings_left = { λ s. s.readings };

    ghost gives_nothing = { λ _. tt };

    ghost gives_on = { λ _ _ _ _ _ _ _. tt };

    fn read(&mut self, into: &mut [u8]) -> Result<usize, Failed> {
        if self.readings > 0 {
            self.readings -= 1;
            if let Some(count) = read_some(&mut self.reader, into) {
                return Ok(count);
            }
        }
        self.faults = self.faults.saturating_add(1);
        Err(Failed)
    }
}

/// What takes bytes from the program.
#[derive(Drop)]
pub struct Output<W> {
    writer: W,
    faults: u64,
}

impl<W: Write> Output<W> {
    pub fn new(writer: W) -> Output<W> {
        Output { writer, faults: 0 }
    }
}

/// One writing, made again where a signal interrupts it. None where it fails, or takes no byte of a piece that has one.
fn write_some<W: Write>(writer: &mut W, piece: &[u8]) -> Option<usize>
    ensures within { IfSome result (λ n. n ≤ length piece.now) }
    ensures some { IfSome result (λ n. 0 < length piece.now → 0 < n) }
{
    for _ in 0..MOST_TRIES {
        match writer.write(piece) {
            Ok(0) if !piece.is_empty() => return None,
            Ok(count) => return Some(count),
            Err(e) if e.kind() == ErrorKind::Interrupted => {}
            Err(_) => return None,
        }
    }
    None
}

impl<W: Write> Sink for Output<W> {
    ghost takes = { λ _ _ _. Unit {0} };

    ghost faults = { λ s. s.faults };

    ghost takes_nothing = { λ _. tt };

    ghost takes_on = { λ _ _ _ _ _ _ _. tt };

    fn write(&mut self, piece: &[u8]) -> Result<usize, Failed> {
        if let Some(count) = write_some(&mut self.writer, piece) {
            return Ok(count);
        }
        self.faults = self.faults.saturating_add(1);
        Err(Failed)
    }
}
