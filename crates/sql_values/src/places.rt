use list_types::{Listed, Text};

/// A server, by its place in the configuration.
pub type ServerNo = u32;

/// A table, by its place in the configuration.
pub type TableNo = u32;

/// A partition, by its place in its table.
pub type PartNo = u32;

/// A link, by its place in its partition.
pub type LinkNo = u8;

/// Servers.
pub type ServerNos = Listed<ServerNo>;

/// Partitions.
pub type PartNos = Listed<PartNo>;

/// Keys of rows.
pub type Keys = Listed<i64>;

/// The name of a transaction's branch at a server (X/Open XA, `XID`): a global part and a branch part, of at most 64 bytes each.
#[derive(Clone, Debug, PartialEq, Eq, Drop)]
pub struct Xid {
    pub gtrid: Text,
    pub bqual: Text,
}

/// Branches, in order.
pub type Xids = Listed<Xid>;

/// How rows that are read are locked.
#[derive(Clone, Copy, Debug, PartialEq, Eq)]
pub enum LockMode {
    /// Others may read them too.
    Shared,
    /// No other transaction reads or writes them.
    Exclusive,
}

/// The keys from `low` to `high`, both included.
#[derive(Clone, Copy, Debug, PartialEq, Eq)]
pub struct Interval {
    pub low: i64,
    pub high: i64,
}
