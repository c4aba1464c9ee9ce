//! The entries of a file, read off its tree.

ghost use Rattle.std.specs.Prelude.{◌≡◌, [], codes, IfOk, map};
ghost use Rattle.std.specs.List.{filter_map};
ghost use Rattle.std.specs.Option.{option_map, option_map_or, option_and_then, unwrap_or};
ghost use Rattle.toml.specs.Data.{no_members, get_member, as_str, as_integer, as_table as table_in};
ghost use Rattle.toml.specs.View.{view, table_view};
ghost use Rattle.conf_file.specs.Entries.{front_of, file_of, batch_size as batch_size_of};
ghost use Rattle.conf_file.specs.Sections.{bound_of as bound_in};
ghost use Rattle.conf_file.specs.Trees.{text_at as text_there, needed_text as text_needed, values_at as values_there, table_at as table_there, tables_at as tables_there};

use crate::forms::{bound_of, is_batch_size};
use crate::tree::{needed_text, table_at, tables_at, text_at, value_at, values_at};
use crate::{BoundEntry, ConfFile, FrontEntry, HostEntry, PartEntry, TableEntry, Texts, UserEntry};
use list_types::{Listed, Text};
use sql_values::Keys;
use std::alloc::{AllocError, Global};
use toml::{Table, Value};

/// How many rows a batch of a copy has at most, where nothing is said.
const BATCH_SIZE: u32 = 1000;

/// What a table of the document is read as.
trait Entry: Sized + Drop {
    ghost use Rattle.std.specs.Prelude.{◌≡◌, IfOk};
    ghost use Rattle.toml.specs.Data.{Members};
    ghost use Rattle.toml.specs.View.{table_view};

    ghost entry_of: { Members → Self };

    fn read(alloc: Global, table: &Table) -> Result<Self, AllocError>
        ensures { IfOk result (λ entry. entry ≡ entry_of (table_view table.now)) };
}

/// The entries that the tables among these values are read as.
fn read_all<T: Entry>(alloc: Global, values: &[Value]) -> Result<Listed<T>, AllocError>
    ensures { IfOk result (λ entries. entries ≡ map T.entry_of (filter_map table_in (map view values.now))) }
{
    let mut entries = Listed::new(alloc);
    for value in values {
        if let Some(table) = value.as_table() {
            entries.push(T::read(alloc, table)?)?;
        }
    }
    Ok(entries)
}

/// The text that has to stand at a key.
fn copied(alloc: Global, table: &Table, key: &str) -> Result<Text, AllocError>
    ensures { IfOk result (λ text. text ≡ text_needed key.now (table_view table.now)) }
{
    Text::from_str(alloc, needed_text(table, key))
}

/// The text that may stand at a key.
fn copied_option(alloc: Global, table: &Table, key: &str) -> Result<Option<Text>, AllocError>
    ensures { IfOk result (λ text. text ≡ text_there key.now (table_view table.now)) }
{
    match text_at(table, key) {
        Some(text) => Ok(Some(Text::from_str(alloc, text)?)),
        None => Ok(None),
    }
}

fn texts_of(alloc: Global, values: &[Value]) -> Result<Texts, AllocError>
    ensures { IfOk result (λ texts. texts ≡ filter_map as_str (map view values.now)) }
{
    let mut texts = Listed::new(alloc);
    for value in values {
        if let Some(text) = value.as_str() {
            texts.push(Text::from_str(alloc, text)?)?;
        }
    }
    Ok(texts)
}

fn numbers_of(alloc: Global, values: &[Value]) -> Result<Keys, AllocError>
    ensures { IfOk result (λ numbers. numbers ≡ filter_map as_integer (map view values.now)) }
{
    let mut numbers = Listed::new(alloc);
    for value in values {
        if let Some(number) = value.as_integer() {
            numbers.push(number)?;
        }
    }
    Ok(numbers)
}

impl Entry for UserEntry {
    ghost use Rattle.conf_file.specs.Entries.{user_of};

    ghost entry_of = { user_of };

    fn read(alloc: Global, table: &Table) -> Result<UserEntry, AllocError> {
        Ok(UserEntry {
            name: copied(alloc, table, "name")?,
            password: copied(alloc, table, "password")?,
        })
    }
}

impl Entry for HostEntry {
    ghost use Rattle.conf_file.specs.Entries.{host_of};

    ghost entry_of = { host_of };

    fn read(alloc: Global, table: &Table) -> Result<HostEntry, AllocError> {
        Ok(HostEntry {
            name: copied(alloc, table, "name")?,
            address: copied(alloc, table, "address")?,
        })
    }
}

/// The bound below which a partition's keys lie.
fn bound_at(table: &Table) -> Option<BoundEntry>
    ensures { result ≡ option_and_then bound_in (get_member (codes "less_than") (table_view table.now)) }
{
    match value_at(table, "less_than") {
        Some(value) => bound_of(value),
        None => None,
    }
}

/// The keys that a partition lists.
fn listed_keys(alloc: Global, table: &Table) -> Result<Option<Keys>, AllocError>
    ensures { IfOk result (λ listed. listed ≡ option_map (filter_map as_integer) (values_there (codes "in_list") (table_view table.now))) }
{
    match values_at(table, "in_list") {
        Some(values) => Ok(Some(numbers_of(alloc, values)?)),
        None => Ok(None),
    }
}

impl Entry for PartEntry {
    ghost use Rattle.conf_file.specs.Entries.{part_of};

    ghost entry_of = { part_of };

    fn read(alloc: Global, table: &Table) -> Result<PartEntry, AllocError> {
        Ok(PartEntry {
            name: copied(alloc, table, "name")?,
            comment: copied_option(alloc, table, "comment")?,
            less_than: bound_at(table),
            in_list: listed_keys(alloc, table)?,
        })
    }
}

fn columns_of(alloc: Global, table: &Table) -> Result<Texts, AllocError>
    ensures { IfOk result (λ texts. texts ≡ filter_map as_str (unwrap_or (values_there (codes "columns") (table_view table.now)) [])) }
{
    match values_at(table, "columns") {
        Some(values) => texts_of(alloc, values),
        None => Ok(Listed::new(alloc)),
    }
}

/// The entries that the tables at a key are read as.
fn read_at<T: Entry>(alloc: Global, table: &Table, key: &str) -> Result<Listed<T>, AllocError>
    ensures { IfOk result (λ entries. entries ≡ map T.entry_of (tables_there key.now (table_view table.now))) }
{
    read_all(alloc, tables_at(table, key))
}

impl Entry for TableEntry {
    ghost use Rattle.conf_file.specs.Entries.{table_of};

    ghost entry_of = { table_of };

    fn read(alloc: Global, table: &Table) -> Result<TableEntry, AllocError> {
        Ok(TableEntry {
            name: copied(alloc, table, "name")?,
            columns: columns_of(alloc, table)?,
            key: copied(alloc, table, "key")?,
            comment: copied_option(alloc, table, "comment")?,
            partition: copied_option(alloc, table, "partition")?,
            parts: read_at(alloc, table, "part")?,
        })
    }
}

fn batch_size(number: &i64) -> u32
    ensures { result ≡ batch_size_of number.now }
{
    if is_batch_size(number) {
        number.unsigned_abs() as u32
    } else {
        BATCH_SIZE
    }
}

fn copy_batch(table: &Table) -> u32
    ensures { result ≡ option_map_or batch_size_of (option_and_then as_integer (get_member (codes "copy_batch") (table_view table.now))) 1000 }
{
    match value_at(table, "copy_batch") {
        Some(value) => match value.as_integer() {
            Some(number) => batch_size(&number),
            None => BATCH_SIZE,
        },
        None => BATCH_SIZE,
    }
}

fn read_front(alloc: Global, table: &Table) -> Result<FrontEntry, AllocError>
    ensures { IfOk result (λ front. front ≡ front_of (table_view table.now)) }
{
    Ok(FrontEntry {
        name: copied(alloc, table, "name")?,
        listen: copied(alloc, table, "listen")?,
        user: copied(alloc, table, "user")?,
        password: copied(alloc, table, "password")?,
        copy_batch: copy_batch(table),
    })
}

/// The front's entry. Where there is none, its texts are empty.
fn front_entry(alloc: Global, tree: &Table) -> Result<FrontEntry, AllocError>
    ensures { IfOk result (λ front. front ≡ front_of (unwrap_or (table_there (codes "front") (table_view tree.now)) no_members)) }
{
    match table_at(tree, "front") {
        Some(front) => read_front(alloc, front),
        None => read_front(alloc, &Table::new(alloc)),
    }
}

/// The entries of the file that has this tree.
pub(crate) fn read_entries(alloc: Global, tree: &Table) -> Result<ConfFile, AllocError>
    ensures { IfOk result (λ file. file ≡ file_of (table_view tree.now)) }
{
    Ok(ConfFile {
        front: front_entry(alloc, tree)?,
        users: read_at(alloc, tree, "user")?,
        servers: read_at(alloc, tree, "server")?,
        monitors: read_at(alloc, tree, "monitor")?,
        tables: read_at(alloc, tree, "table")?,
    })
}
