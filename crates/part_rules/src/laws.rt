//! What holds of the definitions together.

ghost use Rattle.part_rules.specs.KeyRows.{ConditionsKeepKeys, NoRowIsMissed};

/// A row on which a condition holds has a key that the condition keeps.
pub fn conditions_keep_keys()
    ensures { ConditionsKeepKeys }
{}

/// Where the partitions of a condition's keys are read, no row is missed on which it holds.
pub fn no_row_is_missed()
    ensures { NoRowIsMissed }
{}
