use crate::link::AggregateCall;
use list_types::Listed;
use sql_values::{ColumnName, Cond, Expr, Literals, LockMode, Name};

/// A statement of a client.
#[derive(Debug, Drop)]
pub enum Statement {
    /// A statement on tables.
    Table(TableStatement),
    /// A question about the server.
    Admin(Admin),
}

/// A statement on tables.
#[derive(Debug, Drop)]
pub enum TableStatement {
    /// INSERT.
    Insert(Insert),
    /// SELECT.
    Select(Select),
    /// UPDATE.
    Update(Update),
    /// DELETE.
    Delete(Delete),
}

/// A question about the server, as programs of administration and connectors put it.
#[derive(Clone, Copy, Debug, PartialEq, Eq)]
pub enum Admin {
    /// SHOW TABLES.
    ShowTables,
    /// SHOW DATABASES.
    ShowDatabases,
    /// SELECT @@version_comment, with LIMIT 1 or without.
    VersionComment,
    /// SELECT DATABASE().
    Database,
}

/// Names of columns, in order.
pub type Names = Listed<Name>;

/// Rows as a statement has them, in order.
pub type Tuples = Listed<Literals>;

/// INSERT: rows for a table, with the columns that they name or, without a list, all of the table's.
#[derive(Clone, Debug, PartialEq, Eq, Drop)]
pub struct Insert {
    pub table: Name,
    pub columns: Option<Names>,
    pub rows: Tuples,
}

/// SELECT: items of the rows of a table for which a condition holds, or aggregates over these rows.
#[derive(Debug, Drop)]
pub struct Select {
    pub items: SelectItems,
    pub tab: Tab,
    pub cond: Option<Cond>,
    /// By what the rows are sorted, the first counting most. It is empty where the items are aggregates, or no ORDER BY stands there.
    pub order: SortList,
    /// Which of the rows it gives. It is missing where the items are aggregates.
    pub limit: Option<Limit>,
    /// How it says that the rows are locked: FOR UPDATE is `Exclusive`, LOCK IN SHARE MODE is `Shared`.
    pub lock: Option<LockMode>,
}

/// What a SELECT asks of the rows.
#[derive(Clone, Debug, PartialEq, Eq, Drop)]
pub enum SelectItems {
    /// All columns of each row (`*`).
    All,
    /// These columns of each row.
    Columns(ItemList),
    /// These aggregates over all of the rows.
    Aggregates(AggregateItems),
}

/// A column that a SELECT asks for, and the name that the answer gives it.
#[derive(Clone, Debug, PartialEq, Eq, Drop)]
pub struct Item {
    pub column: ColumnName,
    pub alias: Option<Name>,
}

/// Items, in order.
pub type ItemList = Listed<Item>;

/// An aggregate that a SELECT asks for, and the name that the answer gives it.
#[derive(Clone, Debug, PartialEq, Eq, Drop)]
pub struct AggregateItem {
    pub call: AggregateCall,
    pub alias: Option<Name>,
}

/// Aggregates, in order.
pub type AggregateItems = Listed<AggregateItem>;

/// A column by which rows are sorted: rising, or falling where it says DESC.
#[derive(Clone, Debug, PartialEq, Eq, Drop)]
pub struct SortItem {
    pub column: ColumnName,
    pub rising: bool,
}

/// Columns by which rows are sorted, the first counting most.
pub type SortList = Listed<SortItem>;

/// LIMIT: at most `count` rows, without the first `offset`, which is 0 where no offset stands there.
#[derive(Clone, Copy, Debug, PartialEq, Eq)]
pub struct Limit {
    pub count: u64,
    pub offset: u64,
}

/// A table that a SELECT reads, and the name by which the statement knows it.
#[derive(Clone, Debug, PartialEq, Eq, Drop)]
pub struct Tab {
    pub table: Name,
    pub alias: Option<Name>,
}

/// UPDATE: columns of the rows of a table for which a condition holds are set, one after the other.
#[derive(Debug, Drop)]
pub struct Update {
    pub table: Name,
    pub sets: Assignments,
    pub cond: Option<Cond>,
}

/// A column that an UPDATE sets, and the expression that gives its value.
#[derive(Debug, Drop)]
pub struct Assignment {
    pub column: Name,
    pub value: Expr,
}

/// Assignments, in order. A later one sees what the earlier ones set.
pub type Assignments = Listed<Assignment>;

/// DELETE: the rows of a table for which a condition holds go.
#[derive(Debug, Drop)]
pub struct Delete {
    pub table: Name,
    pub cond: Option<Cond>,
}
