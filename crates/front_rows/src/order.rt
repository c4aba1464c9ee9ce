use list_types::Listed;
use sql_text::LinkAnswer;

/// A column by which rows are ordered, and whether they rise or fall.
#[derive(Clone, Copy, Debug, PartialEq, Eq)]
pub struct Sort {
    pub column: u32,
    pub rising: bool,
}

/// Columns by which rows are ordered: by the first, then, where that is equal, by the next, and so on.
pub type Order = Listed<Sort>;

/// The answers of several partitions.
pub type Answers = Listed<LinkAnswer>;
