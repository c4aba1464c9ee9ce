use list_types::{Listed, Text};
use sql_values::Keys;

/// Texts, in order.
pub type Texts = Listed<Text>;

/// The entries of a configuration file, as it has them.
#[derive(Clone, Debug, PartialEq, Eq, Drop)]
pub struct ConfFile {
    pub front: FrontEntry,
    pub users: UserEntries,
    pub servers: HostEntries,
    pub monitors: HostEntries,
    pub tables: TableEntries,
}

/// `[front]`: the front's name, where it listens, and how it logs in on its links.
#[derive(Clone, Debug, PartialEq, Eq, Drop)]
pub struct FrontEntry {
    pub name: Text,
    /// HOST:PORT.
    pub listen: Text,
    /// A user of the file.
    pub user: Text,
    /// The password itself.
    pub password: Text,
    /// How many rows a batch of a copy has at most, 1 to 1000.
    pub copy_batch: u32,
}

/// `[[user]]`: who may log in.
#[derive(Clone, Debug, PartialEq, Eq, Drop)]
pub struct UserEntry {
    pub name: Text,
    /// The stored form of the password, or empty.
    pub password: Text,
}

/// `[[user]]`, in file order.
pub type UserEntries = Listed<UserEntry>;

/// `[[server]]` or `[[monitor]]`.
#[derive(Clone, Debug, PartialEq, Eq, Drop)]
pub struct HostEntry {
    pub name: Text,
    /// HOST:PORT.
    pub address: Text,
}

/// `[[server]]` or `[[monitor]]`, in file order.
pub type HostEntries = Listed<HostEntry>;

/// `[[table]]`: a table, its columns, and how it is cut into partitions.
#[derive(Clone, Debug, PartialEq, Eq, Drop)]
pub struct TableEntry {
    pub name: Text,
    /// `NAME BIGINT` or `NAME VARCHAR(n)` each.
    pub columns: Texts,
    /// The key column's name.
    pub key: Text,
    pub comment: Option<Text>,
    /// `RANGE`, `LIST` or `HASH`.
    pub partition: Option<Text>,
    pub parts: PartEntries,
}

/// `[[table]]`, in file order.
pub type TableEntries = Listed<TableEntry>;

/// `[[table.part]]`: a partition.
#[derive(Clone, Debug, PartialEq, Eq, Drop)]
pub struct PartEntry {
    pub name: Text,
    pub comment: Option<Text>,
    pub less_than: Option<BoundEntry>,
    pub in_list: Option<Keys>,
}

/// `[[table.part]]` of a table, in file order.
pub type PartEntries = Listed<PartEntry>;

/// Below which key a partition by RANGE ends.
#[derive(Clone, Copy, Debug, PartialEq, Eq)]
pub enum BoundEntry {
    /// Below this one.
    Below(i64),
    /// `"MAXVALUE"`: it doesn't end.
    MaxValue,
}
