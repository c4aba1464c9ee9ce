use list_types::Listed;
use sql_values::{Name, ServerNo};

/// What a link is good for.
#[derive(Clone, Copy, Debug, PartialEq, Eq)]
pub enum Status {
    /// It has all rows, and is read and written.
    Ok = 1,
    /// It is written, while a copy fills it.
    Recovery = 2,
    /// It is neither read nor written.
    Ng = 3,
}

/// A link: a table on a backend that has the rows of a partition.
#[derive(Clone, Debug, PartialEq, Eq, Drop)]
pub struct Link {
    pub server: ServerNo,
    /// The table's name there.
    pub remote: Name,
    /// Its status as long as no record tells another.
    pub first: Status,
    /// Whether it may go to NG when the monitors say that its server is down.
    pub monitored: bool,
}

/// The links of a partition, in order.
pub type Links = Listed<Link>;
