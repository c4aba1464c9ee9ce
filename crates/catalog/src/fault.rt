use list_types::Text;
use std::alloc::AllocError;
use thiserror::Error;

/// The rule of a configuration that its entries break first. A part that is shown as `-` is the table itself.
#[derive(Debug, Drop, Error)]
pub enum CatalogFault {
    /// A table or a partition has a name that isn't one.
    #[error("bad name {0}")]
    BadName(Text),
    /// A column's text has another form.
    #[error("bad column {0}")]
    BadColumn(Text),
    /// The key isn't the name of one BIGINT column.
    #[error("bad key {0}")]
    BadKey(Text),
    /// A comment leaves its form at this byte.
    #[error("bad comment {table}.{part} at byte {place}")]
    BadComment { table: Text, part: Text, place: u64 },
    /// A comment names a server that the configuration lacks.
    #[error("unknown server {0}")]
    UnknownServer(Text),
    /// There are no links, more than four, two on one server, another count of remote names or statuses, no link that is OK, or a remote
    /// name that is too long.
    #[error("bad links {table}.{part}")]
    BadLinks { table: Text, part: Text },
    /// Bounds don't rise, or a list is empty or meets another.
    #[error("bad bounds {table}.{part}")]
    BadBounds { table: Text, part: Text },
    /// The rule is none, there are partitions without a rule, or a rule without partitions.
    #[error("bad partition {0}")]
    BadPartition(Text),
    /// Two links share a remote table on one server.
    #[error("shared remote {server}.{remote}")]
    SharedRemote { server: Text, remote: Text },
    /// There wasn't enough memory.
    #[error("out of memory")]
    NoMemory,
}

impl From<AllocError> for CatalogFault {
    ghost use Rattle.std.specs.Prelude.{◌≡◌};
    ghost use Rattle.catalog.specs.declared.fault.CatalogFault.TheVariants.{NoMemory};

    ghost from_gives = { λ _ fault. fault ≡ NoMemory };

    fn from(_error: AllocError) -> CatalogFault {
        CatalogFault::NoMemory
    }
}
