use list_types::Listed;
use sql_values::{Keys, Name, Rows, Xid};

/// A change of a table's rows that a branch has made, for nobody else to see yet.
#[derive(Debug, Drop)]
pub enum Change {
    /// These rows, each in place of one with its key.
    Put { table: Name, rows: Rows },
    /// No rows with these keys.
    Del { table: Name, keys: Keys },
    /// No rows with keys from `low` to `high`, both included.
    Clear { table: Name, low: i64, high: i64 },
}

/// Changes, in the order in which they were made.
pub type Changes = Listed<Change>;

/// How far a branch has come.
#[derive(Clone, Copy, Debug, PartialEq, Eq)]
pub enum Stage {
    /// Its connection works in it.
    Active,
    /// Its work is done; X/Open XA calls it idle.
    Ended,
    /// It can be committed, whatever becomes of its connection.
    Prepared,
}

/// A part of a transaction at one backend.
#[derive(Debug, Drop)]
pub struct Branch {
    pub xid: Xid,
    pub stage: Stage,
    /// The connection that began it. It owns the branch until this is prepared.
    pub owner: u32,
    pub changes: Changes,
}
