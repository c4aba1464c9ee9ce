ghost use Rattle.std.specs.Prelude.{◌≡◌, ℤ, ◌≤ℤ◌, ◌<◌, ◌^◌, length, Some, None, IfOk, OnOk, if◌then◌else◌};
ghost use Rattle.std.specs.Option.{option_or};
ghost use Rattle.std.specs.Ordering.{int_cmp};
ghost use Rattle.std.specs.BTreeMap.{get};
ghost use Rattle.part_rules.specs.Marking.{Marks};
ghost use Rattle.part_rules.specs.Rules.{lists_key, list_part, IsIndex};

use list_types::Listed;
use sql_values::{Interval, Keys, PartNo};
use std::alloc::{AllocError, Global};
use std::collections::BTreeMap;
use std::marker::Model;

/// The keys of partitions by LIST, in order. Contracts see them as a list of lists.
#[derive(Debug, Drop)]
pub struct Lists {
    lists: Listed<Keys>,
    places: BTreeMap<i64, PartNo>,
}

impl Model for Lists {
    ghost use Rattle.std.specs.Prelude.{List, ℤ};
    ghost use Rattle.part_rules.specs.Rules.{IsIndex};

    ghost Value = { List (List ℤ) };

    ghost view = { λ s. s.lists };

    ghost invariant = { λ s. IsIndex s.lists s.places };
}

/// Adds the keys of a list that the map doesn't have yet.
fn add_keys(
    places: &mut BTreeMap<i64, PartNo>,
    keys: &[i64],
    part: PartNo,
) -> Result<(), AllocError>
    ensures { OnOk result ((key : ℤ) → get int_cmp places.new key ≡ option_or (get int_cmp places.old key) (if lists_key key keys.now then Some part else None)) }
{
    for key in keys {
        if places.contains_key(key) {
            continue;
        }
        places.insert(*key, part)?;
    }
    Ok(())
}

impl Lists {
    /// These lists, with an index of their keys. The cost is that of sorting all keys.
    pub fn new(alloc: Global, lists: Listed<Keys>) -> Result<Lists, AllocError>
        requires { length lists < 2 ^ 32 }
        ensures { IfOk result (λ made. made ≡ lists) }
    {
        let mut places = BTreeMap::new(alloc);
        for (part, keys) in lists.as_slice().iter().enumerate() {
            add_keys(&mut places, keys.as_slice(), part as PartNo)?;
        }
        Ok(Lists { lists, places })
    }

    /// The lists, in order.
    pub fn as_slice(&self) -> &[Keys]
        ensures { result.now ≡ self.now }
    {
        self.lists.as_slice()
    }

    /// The partition of a key: the first whose list has it. The cost is that of a search in an index.
    pub fn part_of(&self, key: &i64) -> Option<PartNo>
        ensures { result ≡ list_part self.now key.now }
    {
        self.places.get(key).copied()
    }

    /// Marks the partitions of an interval's keys. The cost is that of a search in the index, and of the listed keys that it has.
    pub(crate) fn mark(&self, interval: &Interval, marks: &mut [bool])
        requires filled { interval.now.low ≤ℤ interval.now.high }
        requires parts { length marks.old ≡ length self.now }
        ensures { Marks (list_part self.now) interval.now marks.old marks.new }
    {
        for (_, part) in self.places.range(interval.low..=interval.high) {
            marks[*part as usize] = true;
        }
    }
}

impl Clone for Lists {
    ghost use Rattle.std.specs.Prelude.{◌≡◌};

    ghost is_clone = { λ a b. b ≡ a };

    fn clone(&self) -> Result<Lists, AllocError> {
        Ok(Lists {
            lists: self.lists.clone()?,
            places: self.places.clone()?,
        })
    }
}

impl PartialEq for Lists {
    ghost use Rattle.std.specs.Ordering.{int_eq};
    ghost use Rattle.std.specs.Cmp.{partial_equiv_from_equiv, int_eq_equiv};
    ghost use Rattle.std.specs.Cmp.Lexicographic.{pointwise, lists_per};

    ghost eq = { pointwise (pointwise int_eq) };

    ghost laws = { lists_per (lists_per (partial_equiv_from_equiv int_eq_equiv)) };

    fn eq(&self, other: &Lists) -> bool {
        self.lists == other.lists
    }
}

impl Eq for Lists {
    ghost use Rattle.std.specs.Cmp.{int_eq_equiv};
    ghost use Rattle.std.specs.Cmp.Lexicographic.{lists_equiv};

    ghost laws = { lists_equiv (lists_equiv int_eq_equiv) };
}
