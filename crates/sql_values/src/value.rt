use list_types::{Listed, Text};

/// A value of a column.
#[derive(Clone, Debug, PartialEq, Eq, Drop)]
pub enum Value {
    /// A BIGINT.
    Number(i64),
    /// A VARCHAR: UTF-8, compared by bytes, without padding.
    Text(Text),
}

/// The values of a row, in the order of its table's columns.
pub type Row = Listed<Value>;

/// Rows, in order.
pub type Rows = Listed<Row>;
