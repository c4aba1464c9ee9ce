ghost use Rattle.std.specs.Prelude.{◌≡◌, ℤ, ◌≤ℤ◌, ◌↔◌, ◌&&◌, ◌||◌, not, true, [], IfOk, IsTrue, FitsSigned};
ghost use Rattle.std.specs.Int.{w64};
ghost use Rattle.sql_values.specs.KeySets.{AreKeys, has_key, is_within, IsNormal};

use crate::Interval;
use crate::merging::{ALL_KEYS, gaps, joined};
use list_types::Listed;
use std::alloc::{AllocError, Global};
use std::marker::Model;

/// A set of keys, as the intervals that hold them.
///
/// The intervals rise, and between one and the next a key is left out, so a set of keys has one list of intervals. Contracts see that list.
#[derive(Clone, Debug, PartialEq, Eq, Drop)]
pub struct Intervals {
    list: Listed<Interval>,
}

impl Model for Intervals {
    ghost use Rattle.std.specs.Prelude.{List};
    ghost use Rattle.sql_values.specs.declared.places.Interval.{Interval};
    ghost use Rattle.sql_values.specs.KeySets.{IsNormal};

    ghost Value = { List Interval };

    ghost view = { λ s. s.list };

    ghost invariant = { λ s. IsNormal s.list };

    ghost inverse = { λ l. record { list = l } };
}

impl Intervals {
    /// No key. It takes no memory.
    pub fn none(alloc: Global) -> Intervals
        ensures { result ≡ [] }
    {
        Intervals {
            list: Listed::new(alloc),
        }
    }

    /// Each key of a BIGINT.
    pub fn whole(alloc: Global) -> Result<Intervals, AllocError>
        ensures { IfOk result (λ keys. AreKeys keys (λ key. true)) }
    {
        Intervals::of_interval(alloc, &ALL_KEYS)
    }

    /// The keys of one interval; none where it ends before it begins.
    pub fn of_interval(alloc: Global, interval: &Interval) -> Result<Intervals, AllocError>
        ensures { IfOk result (λ keys. (key : ℤ) → has_key keys key ≡ is_within key interval.now) }
    {
        let mut list = Listed::new(alloc);
        if interval.low <= interval.high {
            list.push(*interval)?;
        }
        Ok(Intervals { list })
    }

    /// The keys of these intervals, which may stand in any order, meet, and be empty. The cost is that of sorting them; runs that rise already are cheap.
    pub fn from_vec(list: Vec<Interval>) -> Result<Intervals, AllocError>
        ensures { IfOk result (λ keys. (key : ℤ) → has_key keys key ≡ has_key list.items key) }
    {
        let list = Listed::from_vec(joined(list)?);
        Ok(Intervals { list })
    }

    /// The intervals, rising.
    pub fn as_slice(&self) -> &[Interval]
        ensures all { result.now ≡ self.now }
        ensures normal { IsNormal self.now }
    {
        self.list.as_slice()
    }

    /// Whether there is no key.
    pub fn is_empty(&self) -> bool
        ensures { IsTrue result ↔ (self.now ≡ []) }
    {
        self.list.is_empty()
    }

    /// The keys of a BIGINT that aren't in the set. The cost is linear.
    pub fn complement(&self, alloc: Global) -> Result<Intervals, AllocError>
        ensures { IfOk result (λ keys. AreKeys keys (λ key. not (has_key self.now key))) }
    {
        let list = Listed::from_vec(gaps(alloc, self.as_slice())?);
        Ok(Intervals { list })
    }

    /// The keys that are in one of the sets. The cost is linear.
    pub fn join(&self, alloc: Global, other: &Intervals) -> Result<Intervals, AllocError>
        ensures { IfOk result (λ keys. (key : ℤ) → has_key keys key ≡ (has_key self.now key || has_key other.now key)) }
    {
        let mut list = Vec::from_slice(alloc, self.as_slice())?;
        list.extend_from_slice(other.as_slice())?;
        Intervals::from_vec(list)
    }

    /// The keys that are in both sets: those that are in neither one's complement. The cost is linear.
    pub fn meet(&self, alloc: Global, other: &Intervals) -> Result<Intervals, AllocError>
        ensures { IfOk result (λ keys. AreKeys keys (λ key. has_key self.now key && has_key other.now key)) }
    {
        let left = self.complement(alloc)?;
        let right = other.complement(alloc)?;
        left.join(alloc, &right)?.complement(alloc)
    }
}
