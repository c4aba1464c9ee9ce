ghost use Rattle.std.specs.Prelude.{◌≡◌, ◌<◌, ◌≤◌, ◌++◌, [], List, ℕ, length, take, IfOk, OnErr};
ghost use Rattle.my_wire.specs.Counts.{HasRisen};

use thiserror::Error;

/// A call on the outside failed, and the object's count of faults rose.
#[derive(Clone, Copy, Debug, PartialEq, Eq, Error)]
#[error("a call on the outside failed")]
pub struct Failed;

/// What gives bytes.
pub trait Source {
    /// From the first state to the second these bytes were given. A source that doesn't tell its bytes relates all.
    ghost gives: { Self → List ℕ → Self → Type 0 };

    /// Nothing is left.
    ghost has_ended: { Self → Type 0 };

    /// How often a reading failed.
    ghost faults: { Self → ℕ };

    /// At most so many readings still give bytes.
    ghost readings_left: { Self → ℕ };

    /// Reads some of the bytes that are left, and answers how many. None, into a room that isn't empty, is the end.
    /// Where it fails no byte is lost.
    fn read(&mut self, into: &mut [u8]) -> Result<usize, Failed>
        ensures within { IfOk result (λ n. n ≤ length into.old) }
        ensures given { IfOk result (λ n. gives self.old (take n into.new) self.new) }
        ensures end { IfOk result (λ n. n ≡ 0 → 0 < length into.old → has_ended self.new) }
        ensures fewer { IfOk result (λ n. 0 < n → readings_left self.new < readings_left self.old) }
        ensures none { OnErr result (gives self.old [] self.new) }
        ensures later { faults self.old ≤ faults self.new }
        ensures cause { OnErr result (HasRisen (faults self.old) (faults self.new)) };

    ghost gives_nothing: { (s : Self) → gives s [] s };

    ghost gives_on: { (s t u : Self) (a b : List ℕ) → gives s a t → gives t b u → gives s (a ++ b) u };
}
