// How far a reply has come.
use crate::{CellRow, CellRows, Columns, Reply};

/// What the first payload of a reply is.
#[derive(Debug, Drop)]
pub(crate) enum FirstPayload {
    /// The whole reply.
    Whole(Reply),
    /// A result begins, with so many columns.
    Columns(u64),
}

/// What a payload behind a result's definitions is.
#[derive(Debug, Drop)]
pub(crate) enum RowPayload {
    Row(CellRow),
    /// The end of the rows, with the status.
    End(u16),
}

/// How far a reply has come.
#[derive(Debug, Drop)]
pub(crate) enum Stage {
    /// No payload of it came.
    First,
    /// A result's definitions are coming. So many are owed, and then an EOF.
    Definitions { owed: u64, columns: Columns },
    /// A result's rows are coming.
    Rows { columns: Columns, rows: CellRows },
    /// A payload was refused, at that byte.
    Refused { place: u64 },
}
