use crate::Name;
use list_types::Listed;

/// The type of a column.
#[derive(Clone, Copy, Debug, PartialEq, Eq)]
pub enum Kind {
    /// Whole numbers of 64 bits.
    BigInt,
    /// Texts of at most so many characters.
    VarChar(u32),
}

/// A column of a table.
#[derive(Clone, Debug, PartialEq, Eq, Drop)]
pub struct ColumnDef {
    pub name: Name,
    pub kind: Kind,
}

/// The columns of a table, in order.
pub type ColumnDefs = Listed<ColumnDef>;

/// A table: its name, its columns, and at which place of these the key column stands.
#[derive(Clone, Debug, PartialEq, Eq, Drop)]
pub struct TableDef {
    pub name: Name,
    pub columns: ColumnDefs,
    pub key: u32,
}

/// Tables, in order.
pub type TableDefs = Listed<TableDef>;
