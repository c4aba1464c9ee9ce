//! What holds of the store.

ghost use Rattle.branch_store.specs.Laws.{RefusalsChangeNothing, CommitsKeepPuts, RollbacksLeaveNothing};
ghost use Rattle.branch_store.specs.Sound.{AnswersHaveForm, HangupsKeepRows, RowsHaveKeys, StepsKeepRows};

/// A refused request changes nothing.
pub fn refusals_change_nothing()
    ensures { RefusalsChangeNothing }
{}

/// Rows that one branch alone has put are in the tables once it is committed, and nothing else has changed.
pub fn commits_keep_puts()
    ensures { CommitsKeepPuts }
{}

/// A branch alone that is rolled back leaves the tables as they were.
pub fn rollbacks_leave_nothing()
    ensures { RollbacksLeaveNothing }
{}

/// Each request leaves a store in which the rows of a table are rows of it, with rising keys, where it finds one.
pub fn steps_keep_rows()
    ensures { StepsKeepRows }
{}

/// So does the end of a connection.
pub fn hangups_keep_rows()
    ensures { HangupsKeepRows }
{}

/// In such a store a scan is answered by rows of its table, or refused.
pub fn answers_have_form()
    ensures { AnswersHaveForm }
{}

/// A row of such a table has a key: so its rows are a plain table's.
pub fn rows_have_keys()
    ensures { RowsHaveKeys }
{}
