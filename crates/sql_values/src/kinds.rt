//! Which kinds go together.

ghost use Rattle.std.specs.Prelude.{◌≡◌, ◌^◌, ◌-◌, length, min};
ghost use Rattle.std.specs.Str.{chars};
ghost use Rattle.sql_values.specs.Kinds.{literal_kind, is_alike as are_alike, are_comparable as have_order};

use crate::{Kind, Literal};

/// How many characters a text has.
pub(crate) fn character_count(text: &str) -> usize
    ensures { result ≡ length (chars text.now) }
{
    text.chars().count()
}

fn shortest_length(text: &str) -> u32
    ensures { result ≡ min (length (chars text.now)) (2 ^ 32 - 1) }
{
    let count = character_count(text);
    if count <= u32::MAX as usize {
        count as u32
    } else {
        u32::MAX
    }
}

impl Kind {
    /// Whether values of the two kinds can be compared, and stand for one another: both are numbers, or both are texts of any length.
    pub fn is_alike(self, other: Kind) -> bool
        ensures { result ≡ are_alike self other }
    {
        match (self, other) {
            (Kind::BigInt, Kind::BigInt) => true,
            (Kind::VarChar(_), Kind::VarChar(_)) => true,
            _ => false,
        }
    }
}

impl Literal {
    /// BIGINT for a number, of any size, and for a text the VARCHAR of as many characters as it has, or of the most that there is. NULL has no kind.
    pub fn kind(&self) -> Option<Kind>
        ensures { result ≡ literal_kind self.now }
    {
        match self {
            Literal::Number(_) => Some(Kind::BigInt),
            Literal::Text(text) => Some(Kind::VarChar(shortest_length(text.as_str()))),
            Literal::Null => None,
        }
    }
}

/// Whether both sides have a kind, and these are alike.
pub(crate) fn are_comparable(left: Option<Kind>, right: Option<Kind>) -> bool
    ensures { result ≡ have_order left right }
{
    match (left, right) {
        (Some(left), Some(right)) => left.is_alike(right),
        _ => false,
    }
}
