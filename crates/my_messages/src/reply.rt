use list_types::{Listed, Text};

/// The definition of a column of a result (`Protocol::ColumnDefinition41`).
#[derive(Clone, Debug, PartialEq, Eq, Drop)]
pub struct Column {
    /// The database.
    pub schema: Text,
    /// The table's alias in the statement, or its name.
    pub table: Text,
    /// The table's name.
    pub org_table: Text,
    /// The column's alias in the statement, or its name.
    pub name: Text,
    /// The column's name.
    pub org_name: Text,
    /// The number of the character set: 45 for texts in UTF-8, 63 for numbers.
    pub charset: u16,
    /// The most bytes that a cell has.
    pub length: u32,
    /// The column's type (`enum_field_types`): 8 for BIGINT, 0xFD for VARCHAR.
    pub kind: u8,
    /// The column's flags: 1 not NULL, 2 part of the primary key.
    pub flags: u16,
}

/// The definitions of a result's columns, in order.
pub type Columns = Listed<Column>;

/// A value of a result as its text. None is NULL.
pub type Cell = Option<Text>;

/// One row of a result, a cell for each column.
pub type CellRow = Listed<Cell>;

/// The rows of a result, in order.
pub type CellRows = Listed<CellRow>;

/// A server's answer to a command ("Generic Response Packets" and "Text Resultset").
///
/// A status has the bit 1 in a transaction and the bit 2 where each statement is a transaction of its own.
#[derive(Clone, Debug, PartialEq, Eq, Drop)]
pub enum Reply {
    /// Done, with the number of rows that it changed (`OK_Packet`).
    Ok {
        affected: u64,
        status: u16,
        warnings: u16,
    },
    /// Refused, with the error's number, its SQLSTATE and its text (`ERR_Packet`).
    Err {
        number: u16,
        state: [u8; 5],
        message: Text,
    },
    /// Rows (`Protocol::COM_QUERY Response`).
    Rows {
        columns: Columns,
        rows: CellRows,
        status: u16,
    },
    /// The client is to answer this nonce by this plugin (`Protocol::AuthSwitchRequest`).
    Switch {
        plugin: Text,
        nonce: [u8; 20],
    },
}
