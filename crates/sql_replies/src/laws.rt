//! What holds of all replies.
ghost use Rattle.sql_replies.specs.Outcomes.{RowsOfATableAreShort};

/// Rows of a table, as servers answer them, are short enough to be shown.
pub fn rows_of_a_table_are_short()
    ensures { RowsOfATableAreShort }
{}
