//! Reads a configuration file: from its bytes to its entries.
//!
//! A configuration is a TOML document of at most 2^20 bytes. [`read_file`] answers its entries ([`ConfFile`]), or the first rule that it
//! breaks ([`FileFault`]). Each rule is checked over the whole file before the next one, and of the places that break it the first is told:
//! the file itself is the first entry, then come the sections `front`, `user`, `server`, `monitor`, `table` and `table.part`, each with its
//! entries in the order of the file; in an entry unknown keys go by their bytes, and all others as the section lists them.
//!
//! What a column's text is ([`read_column`]), what comments mean, and whether partitions fit their rule, are for the crate above: here a
//! text is a text.
#![tactic(auto)]

mod column;
mod counts;
mod entries;
mod fault;
mod forms;
mod keys;
mod laws;
mod making;
mod names;
mod reading;
mod repeats;
mod sections;
mod taken;
mod texts;
mod tree;

pub use column::read_column;
pub use entries::{
    BoundEntry, ConfFile, FrontEntry, HostEntries, HostEntry, PartEntries, PartEntry, TableEntries,
    TableEntry, Texts, UserEntries, UserEntry,
};
pub use fault::{FileFault, TooMany};
pub use laws::{addresses_have_ports, columns_are_spelled, free_names_differ};
pub use reading::read_file;
pub use texts::is_stored;
