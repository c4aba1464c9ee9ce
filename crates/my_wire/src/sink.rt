ghost use Rattle.std.specs.Prelude.{◌≡◌, ◌<◌, ◌≤◌, ◌++◌, [], List, ℕ, length, take, IfOk, OnOk, OnErr};
ghost use Rattle.my_wire.specs.Counts.{HasRisen, TakesFront};

use crate::Failed;

/// What takes bytes.
pub trait Sink {
    /// From the first state to the second these bytes were taken. A sink that doesn't tell its bytes relates all.
    ghost takes: { Self → List ℕ → Self → Type 0 };

    /// How often a writing failed.
    ghost faults: { Self → ℕ };

    /// Takes a front of the piece, and of a piece that isn't empty at least one byte. Answers how many. Where it
    /// fails it has taken none.
    fn write(&mut self, piece: &[u8]) -> Result<usize, Failed>
        ensures within { IfOk result (λ n. n ≤ length piece.now) }
        ensures some { IfOk result (λ n. 0 < length piece.now → 0 < n) }
        ensures taken { IfOk result (λ n. takes self.old (take n piece.now) self.new) }
        ensures none { OnErr result (takes self.old [] self.new) }
        ensures later { faults self.old ≤ faults self.new }
        ensures cause { OnErr result (HasRisen (faults self.old) (faults self.new)) };

    ghost takes_nothing: { (s : Self) → takes s [] s };

    ghost takes_on: { (s t u : Self) (a b : List ℕ) → takes s a t → takes t b u → takes s (a ++ b) u };
}

/// Writes all the bytes, in as many calls as it takes. Where one fails, a front of them was taken.
pub fn write_all<K: Sink>(sink: &mut K, bytes: &[u8]) -> Result<(), Failed>
    ensures whole { OnOk result (K.takes sink.old bytes.now sink.new) }
    ensures front { TakesFront K.takes sink.old bytes.now sink.new }
    ensures later { K.faults sink.old ≤ K.faults sink.new }
    ensures cause { OnErr result (HasRisen (K.faults sink.old) (K.faults sink.new)) }
{
    let mut at = 0;
    while at < bytes.len() {
        at += sink.write(&bytes[at..])?;
    }
    Ok(())
}

/// Writes three texts, one after the other. It serves a text whose middle is made on the stack, without memory.
pub fn write_three<K: Sink>(
    sink: &mut K,
    first: &[u8],
    second: &[u8],
    third: &[u8],
) -> Result<(), Failed>
    ensures whole { OnOk result (K.takes sink.old (first.now ++ (second.now ++ third.now)) sink.new) }
    ensures front { TakesFront K.takes sink.old (first.now ++ (second.now ++ third.now)) sink.new }
    ensures later { K.faults sink.old ≤ K.faults sink.new }
    ensures cause { OnErr result (HasRisen (K.faults sink.old) (K.faults sink.new)) }
{
    write_all(sink, first)?;
    write_all(sink, second)?;
    write_all(sink, third)?;
    Ok(())
}
