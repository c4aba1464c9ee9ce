//! How many entries a file may have.

ghost use Rattle.std.specs.Prelude.{◌≡◌, length, nat_lt};
ghost use Rattle.std.specs.List.{list_any};
ghost use Rattle.conf_file.specs.Counts.{too_many as too_many_of, has_too_many_columns, has_too_many_parts};

use crate::{ConfFile, TableEntry, TooMany};

const MOST_SERVERS: usize = 16;

const MOST_MONITORS: usize = 9;

const MOST_TABLES: usize = 64;

const MOST_COLUMNS: usize = 16;

const MOST_PARTS: usize = 64;

fn any_has_too_many_columns(tables: &[TableEntry]) -> bool
    ensures { result ≡ list_any has_too_many_columns tables.now }
{
    tables
        .iter()
        .any(|table| table.columns.len() > MOST_COLUMNS)
}

fn any_has_too_many_parts(tables: &[TableEntry]) -> bool
    ensures { result ≡ list_any has_too_many_parts tables.now }
{
    tables.iter().any(|table| table.parts.len() > MOST_PARTS)
}

/// What a file has too many of.
pub(crate) fn too_many(file: &ConfFile) -> Option<TooMany>
    ensures { result ≡ too_many_of file.now }
{
    if file.servers.len() > MOST_SERVERS {
        Some(TooMany::Servers)
    } else if file.monitors.len() > MOST_MONITORS {
        Some(TooMany::Monitors)
    } else if file.tables.len() > MOST_TABLES {
        Some(TooMany::Tables)
    } else if any_has_too_many_columns(file.tables.as_slice()) {
        Some(TooMany::Columns)
    } else if any_has_too_many_parts(file.tables.as_slice()) {
        Some(TooMany::Partitions)
    } else {
        None
    }
}
