//! What holds of the definitions together. Each law is the contract of a function without a body.

ghost use Rattle.stmt_plan.specs.Laws.{UnqualifiedMeansTheSame, NoRowIsMissed, InsertsAreCovered, ListsHaveEachOnce};

/// Where each column of a condition is known, the condition holds on the same rows without the names of tables.
pub fn unqualified_means_the_same()
    ensures { UnqualifiedMeansTheSame }
{}

/// A row on which a plan's condition holds lies in one of the plan's partitions.
pub fn no_row_is_missed()
    ensures { NoRowIsMissed }
{}

/// The partition of each row that is inserted is one of the plan's.
pub fn inserts_are_covered()
    ensures { InsertsAreCovered }
{}

/// A list of columns that isn't refused has each column of the table exactly once.
pub fn lists_have_each_once()
    ensures { ListsHaveEachOnce }
{}
