use crate::PlacedRow;
use crate::partitions::{PlacedKey, key_of, part_in, place_row};
use part_rules::Rule;
use sql_values::{Row, TableDef};
use std::marker::Model;

/// A rule that has partitions, so that it tells where each key lies. Contracts see the rule.
#[derive(Debug, Drop)]
pub struct Placing {
    rule: Rule,
}

impl Model for Placing {
    ghost use Rattle.part_rules.specs.declared.rule.Rule.{Rule};
    ghost use Rattle.part_rules.specs.Placing.{IsRule};

    ghost Value = { Rule };

    ghost view = { λ p. p.rule };

    ghost invariant = { λ p. IsRule p.rule };
}

impl Placing {
    ghost use Rattle.std.specs.Prelude.{◌≡◌};
    ghost use Rattle.part_rules.specs.Placing.{IsRule};
    ghost use Rattle.txn_phases.specs.Deeds.{key_at, placed, placed_key};

    /// By this rule.
    pub fn new(rule: Rule) -> Placing
        requires { IsRule rule }
        ensures { result ≡ rule }
    {
        Placing { rule }
    }

    pub(crate) fn place(&self, def: &TableDef, row: Row) -> PlacedRow
        ensures { result ≡ placed def.now self.now row }
    {
        place_row(&self.rule, def, row)
    }

    /// The key in this column of a row.
    pub(crate) fn place_key(&self, row: &Row, place: u32) -> PlacedKey
        ensures { result ≡ placed_key self.now (key_at place row.now) }
    {
        let key = key_of(row, place);
        let part = part_in(&self.rule, key);
        PlacedKey { part, key }
    }
}
