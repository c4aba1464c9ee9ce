use list_types::Text;
use std::alloc::{AllocError, AllocFailed};
use thiserror::Error;

/// What a configuration has too many of.
#[derive(Clone, Copy, Debug, Error, PartialEq, Eq)]
pub enum TooMany {
    /// More than 16 servers.
    #[error("servers")]
    Servers,
    /// More than 9 monitors.
    #[error("monitors")]
    Monitors,
    /// More than 64 tables.
    #[error("tables")]
    Tables,
    /// More than 16 columns of a table.
    #[error("columns")]
    Columns,
    /// More than 64 partitions of a table.
    #[error("partitions")]
    Partitions,
}

/// The first rule that a configuration file breaks, in the order of the variants: each rule is checked over the whole file before the
/// next, and the first place that breaks it is told.
#[derive(Debug, Drop, Error)]
pub enum FileFault {
    /// A byte follows the first 1,048,576.
    #[error("too large")]
    TooLarge,
    /// The bytes are no TOML document. A number beyond 64 bits is none of TOML's.
    #[error("not toml")]
    NotToml,
    /// A key that its section needs isn't there.
    #[error("missing key {0}")]
    MissingKey(Text),
    /// A key isn't one of its section's.
    #[error("unknown key {0}")]
    UnknownKey(Text),
    /// The value at a key has another type, or lies outside what the key allows.
    #[error("wrong type {0}")]
    WrongType(Text),
    /// A name isn't one, a server is named `front`, or the front's user is no user of the file.
    #[error("bad name {0}")]
    BadName(Text),
    /// The password of this user is no stored form.
    #[error("bad stored {0}")]
    BadStored(Text),
    /// A name is taken by an earlier entry of its kind, or a table's by a system table.
    #[error("repeated name {0}")]
    RepeatedName(Text),
    /// There are too many of these.
    #[error("too many {0}")]
    TooMany(TooMany),
    /// There wasn't enough memory. It may come in place of any fault but `TooLarge`.
    #[error("out of memory")]
    NoMemory,
}

impl From<AllocError> for FileFault {
    ghost use Rattle.std.specs.Prelude.{◌≡◌};
    ghost use Rattle.conf_file.specs.declared.fault.FileFault.TheVariants.{NoMemory};

    ghost from_gives = { λ _ fault. fault ≡ NoMemory };

    fn from(_error: AllocError) -> FileFault {
        FileFault::NoMemory
    }
}
