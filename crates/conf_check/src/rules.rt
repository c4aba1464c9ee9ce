//! The texts of the rules that a configuration breaks.
ghost use Rattle.std.specs.Prelude.{◌≡◌, ◌++◌, IfOk, codes};
ghost use Rattle.conf_check.specs.Rules.{many_text, file_text, place_text, entries_text, fault_text as text_meant};

use catalog::{CatalogFault, ConfFault};
use conf_file::{FileFault, TooMany};
use itoa::Buffer;
use list_types::Text;
use std::alloc::{AllocError, Global};

fn many_text(what: TooMany) -> &'static str
    ensures { result.now ≡ many_text what }
{
    match what {
        TooMany::Servers => "too many servers",
        TooMany::Monitors => "too many monitors",
        TooMany::Tables => "too many tables",
        TooMany::Columns => "too many columns",
        TooMany::Partitions => "too many partitions",
    }
}

/// Two texts, one after the other.
fn joined(alloc: Global, first: &str, second: &str) -> Result<Text, AllocError>
    ensures { IfOk result (λ text. text ≡ first.now ++ second.now) }
{
    let mut text = String::from_str(alloc, first)?;
    text.push_str(second)?;
    Ok(Text::from_string(text))
}

/// A partition of a table, or a table on a server.
fn place_of(alloc: Global, table: &Text, part: &Text) -> Result<Text, AllocError>
    ensures { IfOk result (λ text. text ≡ place_text table.now part.now) }
{
    let mut text = String::from_str(alloc, table.as_str())?;
    text.push_str(".")?;
    text.push_str(part.as_str())?;
    Ok(Text::from_string(text))
}

fn at_place(alloc: Global, front: &str, table: &Text, part: &Text) -> Result<Text, AllocError>
    ensures { IfOk result (λ text. text ≡ front.now ++ place_text table.now part.now) }
{
    let place = place_of(alloc, table, part)?;
    joined(alloc, front, place.as_str())
}

fn comment_text(alloc: Global, table: &Text, part: &Text, place: u64) -> Result<Text, AllocError>
    ensures { IfOk result (λ text. text ≡ entries_text (CatalogFault.BadComment table.now part.now place)) }
{
    let front = at_place(alloc, "bad comment ", table, part)?;
    let mut text = String::from_str(alloc, front.as_str())?;
    text.push_str(" at byte ")?;
    text.push_str(Buffer::new().format(place))?;
    Ok(Text::from_string(text))
}

fn file_text(alloc: Global, fault: &FileFault) -> Result<Text, AllocError>
    ensures { IfOk result (λ text. text ≡ file_text fault.now) }
{
    match fault {
        FileFault::TooLarge => Text::from_str(alloc, "too large"),
        FileFault::NotToml => Text::from_str(alloc, "not toml"),
        FileFault::MissingKey(key) => joined(alloc, "missing key ", key.as_str()),
        FileFault::UnknownKey(key) => joined(alloc, "unknown key ", key.as_str()),
        FileFault::WrongType(key) => joined(alloc, "wrong type ", key.as_str()),
        FileFault::BadName(name) => joined(alloc, "bad name ", name.as_str()),
        FileFault::BadStored(user) => joined(alloc, "bad stored ", user.as_str()),
        FileFault::RepeatedName(name) => joined(alloc, "repeated name ", name.as_str()),
        FileFault::TooMany(what) => Text::from_str(alloc, many_text(*what)),
        FileFault::NoMemory => Text::from_str(alloc, "out of memory"),
    }
}

fn entries_text(alloc: Global, fault: &CatalogFault) -> Result<Text, AllocError>
    ensures { IfOk result (λ text. text ≡ entries_text fault.now) }
{
    match fault {
        CatalogFault::BadName(name) => joined(alloc, "bad name ", name.as_str()),
        CatalogFault::BadColumn(column) => joined(alloc, "bad column ", column.as_str()),
        CatalogFault::BadKey(key) => joined(alloc, "bad key ", key.as_str()),
        CatalogFault::BadComment { table, part, place } => {
            comment_text(alloc, table, part, *place)
        }
        CatalogFault::UnknownServer(server) => joined(alloc, "unknown server ", server.as_str()),
        CatalogFault::BadLinks { table, part } => at_place(alloc, "bad links ", table, part),
        CatalogFault::BadBounds { table, part } => at_place(alloc, "bad bounds ", table, part),
        CatalogFault::BadPartition(table) => joined(alloc, "bad partition ", table.as_str()),
        CatalogFault::SharedRemote { server, remote } => {
            at_place(alloc, "shared remote ", server, remote)
        }
        CatalogFault::NoMemory => Text::from_str(alloc, "out of memory"),
    }
}

/// The text of the rule that a configuration breaks.
pub fn fault_text(alloc: Global, fault: &ConfFault) -> Result<Text, AllocError>
    ensures { IfOk result (λ text. text ≡ text_meant fault.now) }
{
    match fault {
        ConfFault::File(fault) => file_text(alloc, fault),
        ConfFault::Entries(fault) => entries_text(alloc, fault),
        ConfFault::NoMemory => Text::from_str(alloc, "out of memory"),
    }
}
