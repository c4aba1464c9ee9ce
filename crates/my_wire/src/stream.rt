ghost use Rattle.std.specs.Prelude.{◌≡◌, ◌<◌, ◌≤◌, ◌++◌, [], List, ℕ, length, take, IfOk, OnOk, OnErr};
ghost use Rattle.my_wire.specs.Counts.{HasRisen, TakesFront};

use crate::Failed;

/// What gives bytes and takes bytes, as a connection does.
pub trait Stream {
    /// From the first state to the second these bytes were given, and then those taken. A stream that doesn't tell its bytes relates all.
    ghost passes: { Self → List ℕ → List ℕ → Self → Type 0 };

    /// Nothing is left to give.
    ghost has_ended: { Self → Type 0 };

    /// How often a reading or a writing failed.
    ghost faults: { Self → ℕ };

    /// At most so many readings still give bytes.
    ghost readings_left: { Self → ℕ };

    /// Which reference it reads from, where it was lent one. No call changes it, so whoever lent it knows afterwards what became of it.
    ghost reads_from: { Self → ℕ };

    /// Which reference it writes to, where it was lent one.
    ghost writes_to: { Self → ℕ };

    /// Reads some of the bytes that are left, and answers how many. None, into a room that isn't empty, is the end.
    /// Where it fails no byte is lost.
    fn read(&mut self, into: &mut [u8]) -> Result<usize, Failed>
        ensures within { IfOk result (λ n. n ≤ length into.old) }
        ensures given { IfOk result (λ n. passes self.old (take n into.new) [] self.new) }
        ensures end { IfOk result (λ n. n ≡ 0 → 0 < length into.old → has_ended self.new) }
        ensures fewer { IfOk result (λ n. 0 < n → readings_left self.new < readings_left self.old) }
        ensures none { OnErr result (passes self.old [] [] self.new) }
        ensures later { faults self.old ≤ faults self.new }
        ensures cause { OnErr result (HasRisen (faults self.old) (faults self.new)) }
        ensures same_source { reads_from self.new ≡ reads_from self.old }
        ensures same_sink { writes_to self.new ≡ writes_to self.old };

    /// Takes a front of the piece, and of a piece that isn't empty at least one byte. Answers how many. Where it
    /// fails it has taken none.
    fn write(&mut self, piece: &[u8]) -> Result<usize, Failed>
        ensures within { IfOk result (λ n. n ≤ length piece.now) }
        ensures some { IfOk result (λ n. 0 < length piece.now → 0 < n) }
        ensures taken { IfOk result (λ n. passes self.old [] (take n piece.now) self.new) }
        ensures none { OnErr result (passes self.old [] [] self.new) }
        ensures no_more { readings_left self.new ≤ readings_left self.old }
        ensures later { faults self.old ≤ faults self.new }
        ensures cause { OnErr result (HasRisen (faults self.old) (faults self.new)) }
        ensures same_source { reads_from self.new ≡ reads_from self.old }
        ensures same_sink { writes_to self.new ≡ writes_to self.old };

    ghost passes_nothing: { (s : Self) → passes s [] [] s };

    ghost passes_on: { (s t u : Self) (a b x y : List ℕ) → passes s a x t → passes t b y u → passes s (a ++ b) (x ++ y) u };
}

/// Writes all the bytes, in as many calls as it takes. Where one fails, a front of them was taken.
pub fn send_all<C: Stream>(stream: &mut C, bytes: &[u8]) -> Result<(), Failed>
    ensures whole { OnOk result (C.passes stream.old [] bytes.now stream.new) }
    ensures front { TakesFront (λ s bytes t. C.passes s [] bytes t) stream.old bytes.now stream.new }
    ensures no_more { C.readings_left stream.new ≤ C.readings_left stream.old }
    ensures later { C.faults stream.old ≤ C.faults stream.new }
    ensures cause { OnErr result (HasRisen (C.faults stream.old) (C.faults stream.new)) }
    ensures same_source { C.reads_from stream.new ≡ C.reads_from stream.old }
    ensures same_sink { C.writes_to stream.new ≡ C.writes_to stream.old }
{
    let mut at = 0;
    while at < bytes.len() {
        at += stream.write(&bytes[at..])?;
    }
    Ok(())
}
