use list_types::Listed;
use sql_text::Cell;
use sql_values::Kind;

/// A function over rows.
#[derive(Clone, Copy, Debug, PartialEq, Eq)]
pub enum AggFun {
    /// How many they are.
    Count,
    /// The sum of a column.
    Sum,
    /// The least value of a column.
    Min,
    /// The greatest value of a column.
    Max,
}

/// A function over the values of a column, and the kind of what it gives. COUNT looks at no value, and its column is 0; COUNT and SUM give numbers.
#[derive(Clone, Copy, Debug, PartialEq, Eq)]
pub struct Aggregate {
    pub fun: AggFun,
    pub column: u32,
    pub kind: Kind,
}

/// Aggregates, in order.
pub type Aggregates = Listed<Aggregate>;

/// The cells of a row.
pub type CellRow = Listed<Cell>;
