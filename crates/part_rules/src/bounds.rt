ghost use Rattle.std.specs.Prelude.{◌≡◌, ◌<◌, ◌^◌, ◌↔◌, length, not, true, IfOk, IfErr, IsOk};
ghost use Rattle.part_rules.specs.Rules.{is_below, is_lower as lower, rises_above, rises as rising, range_part};

use list_types::Listed;
use sql_values::PartNo;
use std::marker::Model;

/// The end of a partition's keys, VALUES LESS THAN.
#[derive(Clone, Copy, Debug, PartialEq, Eq)]
pub enum Bound {
    /// Keys below this one.
    Below(i64),
    /// MAXVALUE: all keys.
    MaxValue,
}

/// The bounds of partitions by RANGE, in order, each above the one before it. Contracts see them as a list.
#[derive(Clone, Debug, PartialEq, Eq, Drop)]
pub struct Bounds {
    list: Listed<Bound>,
}

impl Model for Bounds {
    ghost use Rattle.std.specs.Prelude.{◌≡◌, List, true};
    ghost use Rattle.part_rules.specs.declared.bounds.Bound.{Bound};
    ghost use Rattle.part_rules.specs.Rules.{rises};

    ghost Value = { List Bound };

    ghost view = { λ s. s.list };

    ghost invariant = { λ s. rises s.list ≡ true };

    ghost inverse = { λ l. record { list = l } };
}

pub(crate) fn lies_below(key: &i64, bound: &Bound) -> bool
    ensures { result ≡ is_below key.now bound.now }
{
    match bound {
        Bound::Below(end) => *key < *end,
        Bound::MaxValue => true,
    }
}

fn is_lower(low: &Bound, high: &Bound) -> bool
    ensures { result ≡ lower low.now high.now }
{
    match (low, high) {
        (Bound::Below(low), Bound::Below(high)) => *low < *high,
        (Bound::Below(_), Bound::MaxValue) => true,
        (Bound::MaxValue, _) => false,
    }
}

fn rises(bounds: &[Bound]) -> bool
    ensures { result ≡ rising bounds.now }
{
    let Some((first, others)) = bounds.split_first() else {
        return true;
    };
    let mut low = first;
    for bound in others {
        if !is_lower(low, bound) {
            return false;
        }
        low = bound;
    }
    true
}

impl Bounds {
    /// These bounds, or the list again where they don't rise. It takes no memory.
    pub fn from_list(list: Listed<Bound>) -> Result<Bounds, Listed<Bound>>
        ensures ok { IfOk result (λ bounds. bounds ≡ list) }
        ensures exact { IsOk result ↔ (rising list ≡ true) }
        ensures err { IfErr result (λ back. back ≡ list) }
    {
        if rises(list.as_slice()) {
            Ok(Bounds { list })
        } else {
            Err(list)
        }
    }

    /// The bounds, in order.
    pub fn as_slice(&self) -> &[Bound]
        ensures all { result.now ≡ self.now }
        ensures rising { rising self.now ≡ true }
    {
        self.list.as_slice()
    }

    /// The partition of a key. The cost is that of a binary search.
    pub(crate) fn part_of(&self, key: &i64) -> Option<PartNo>
        requires { length self.now < 2 ^ 32 }
        ensures { result ≡ range_part self.now key.now }
    {
        let bounds = self.as_slice();
        let part = bounds.partition_point(|bound| !lies_below(key, bound));
        if part < bounds.len() {
            Some(part as PartNo)
        } else {
            None
        }
    }
}
