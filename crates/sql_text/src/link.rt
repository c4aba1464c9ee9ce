use list_types::{Listed, Text};
use sql_values::{ColumnName, Cond, Keys, LockMode, Name, Rows, Xid, Xids};

/// What a front asks a backend.
#[derive(Debug, Drop)]
pub enum LinkRequest {
    /// To begin a branch (XA START).
    Start(Xid),
    /// To end its work (XA END).
    End(Xid),
    /// To prepare it (XA PREPARE).
    Prepare(Xid),
    /// To commit it (XA COMMIT).
    Commit(Xid),
    /// To roll it back (XA ROLLBACK).
    Rollback(Xid),
    /// Which branches are prepared (XA RECOVER).
    Recover,
    /// Rows of a table.
    Scan(Scan),
    /// To have these rows, each in place of one with its key.
    Put {
        table: Name,
        rows: Rows,
    },
    /// To have no rows with these keys.
    Del {
        table: Name,
        key: Name,
        keys: Keys,
    },
    /// To have no rows with keys from `low` to `high`.
    Clear {
        table: Name,
        key: Name,
        low: i64,
        high: i64,
    },
}

/// What is asked of the rows of a table for which a condition holds, in the order of a column, at most so many, locked so.
#[derive(Debug, Drop)]
pub struct Scan {
    pub table: Name,
    pub items: ScanItems,
    pub cond: Option<Cond>,
    /// The key column's name, there exactly where the items are all columns.
    pub order: Option<Name>,
    pub limit: Option<u64>,
    pub lock: LockMode,
}

/// What a scan asks of the rows.
#[derive(Clone, Debug, PartialEq, Eq, Drop)]
pub enum ScanItems {
    /// All columns of each row (`*`).
    All,
    /// These aggregates over all of the rows, in order.
    Aggregates(AggregateCalls),
}

/// A call of an aggregate function.
#[derive(Clone, Debug, PartialEq, Eq, Drop)]
pub enum AggregateCall {
    /// The number of rows (`COUNT(*)`).
    Count,
    /// The sum of a column.
    Sum(ColumnName),
    /// The least value of a column.
    Min(ColumnName),
    /// The greatest value of a column.
    Max(ColumnName),
}

/// Calls of aggregate functions, in order.
pub type AggregateCalls = Listed<AggregateCall>;

/// A cell of an answer, NULL or a text.
pub type Cell = Option<Text>;

/// What a backend answers.
#[derive(Clone, Debug, PartialEq, Eq, Drop)]
pub enum LinkAnswer {
    /// Done, with the number of rows that were put or deleted.
    Done(u64),
    /// The rows that were asked for, in the order of their keys.
    Rows(Rows),
    /// The cells that aggregates gave, a list for each row.
    Cells(Listed<Listed<Cell>>),
    /// The prepared branches.
    Xids(Xids),
    /// Refused, with the error's number and text. Nothing changed.
    Refused { number: u16, message: Text },
}
