ghost use Rattle.std.specs.Prelude.{◌≡◌, ◌<◌, ◌≤◌, ◌^◌, ◌↔◌, IsTrue};
ghost use Rattle.part_rules.specs.Rules.{hash_part};
ghost use Rattle.part_rules.specs.Placing.{part, part_count as count, IsRule};

use crate::bounds::Bounds;
use crate::lists::Lists;
use sql_values::PartNo;

/// How a table is cut into partitions by its key.
#[derive(Clone, Debug, PartialEq, Eq, Drop)]
pub enum Rule {
    /// One partition has all keys.
    Whole,
    /// A partition has the keys from the bound before its own up to below its own.
    Range(Bounds),
    /// A partition has the keys of its list.
    List(Lists),
    /// So many partitions share the keys by their remainders.
    Hash(u32),
}

/// The partition of a key by HASH over so many.
pub(crate) fn hash_of(key: &i64, parts: u32) -> PartNo
    requires { 0 < parts }
    ensures value { result ≡ hash_part parts key.now }
    ensures within { result < parts }
{
    (*key % i64::from(parts)).unsigned_abs() as PartNo
}

fn is_count(count: usize) -> bool
    ensures { IsTrue result ↔ ((1 ≤ count) × (count < 2 ^ 32)) }
{
    1 <= count && count <= u32::MAX as usize
}

impl Rule {
    /// Whether there is a partition, and no more of them than can be numbered. All else that takes a rule asks that of it.
    pub fn has_parts(&self) -> bool
        ensures { IsTrue result ↔ IsRule self.now }
    {
        match self {
            Rule::Whole => true,
            Rule::Range(bounds) => is_count(bounds.as_slice().len()),
            Rule::List(lists) => is_count(lists.as_slice().len()),
            Rule::Hash(parts) => is_count(*parts as usize),
        }
    }

    /// How many partitions there are.
    pub fn part_count(&self) -> u32
        requires { IsRule self.now }
        ensures { result ≡ count self.now }
    {
        match self {
            Rule::Whole => 1,
            Rule::Range(bounds) => bounds.as_slice().len() as u32,
            Rule::List(lists) => lists.as_slice().len() as u32,
            Rule::Hash(parts) => *parts,
        }
    }
}

/// The partition of a key, or None exactly where the rule has none for it. It takes no memory.
pub fn part_of(rule: &Rule, key: i64) -> Option<PartNo>
    requires { IsRule rule.now }
    ensures { result ≡ part rule.now key }
{
    match rule {
        Rule::Whole => Some(0),
        Rule::Range(bounds) => bounds.part_of(&key),
        Rule::List(lists) => lists.part_of(&key),
        Rule::Hash(parts) => Some(hash_of(&key, *parts)),
    }
}
