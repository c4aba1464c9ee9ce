//! The rules of keys.

ghost use Rattle.std.specs.Prelude.{◌≡◌, map, codes};
ghost use Rattle.std.specs.List.{filter_map, flat_map};
ghost use Rattle.std.specs.Option.{is_some, option_copied};
ghost use Rattle.toml.specs.Data.{as_table as table_in};
ghost use Rattle.toml.specs.View.{view, table_view};
ghost use Rattle.conf_file.specs.Keys.{is_known as is_known_key, broken_in, first_some, as_entries, part_entries, section_entries, front_entries, missing_key as missing_key_of, unknown_key as unknown_key_of, wrong_type as wrong_type_of};
ghost use Rattle.conf_file.specs.Shown.{broken_in_parts, broken_by_section};
ghost use Rattle.conf_file.specs.Trees.{tables_at as tables_there};

use crate::forms::{cut_of, has_form};
use crate::sections::{KeyFault, Section, keys};
use crate::tree::{table_at, tables_at, value_at};
use toml::{Table, Value};

fn missing_in(section: Section, table: &Table) -> Option<&'static str>
    ensures { option_copied result ≡ broken_in KeyFault.Missing (section, table_view table.now) }
{
    for key in keys(section) {
        if key.is_needed() && value_at(table, key.name()).is_none() {
            return Some(key.name());
        }
    }
    None
}

fn is_known(section: Section, name: &str) -> bool
    ensures { result ≡ is_known_key section name.now }
{
    for key in keys(section) {
        if key.name() == name {
            return true;
        }
    }
    false
}

fn unknown_in(section: Section, table: &Table) -> Option<&str>
    ensures { option_copied result ≡ broken_in KeyFault.Unknown (section, table_view table.now) }
{
    for (key, _value) in table {
        if !is_known(section, key.as_str()) {
            return Some(key.as_str());
        }
    }
    None
}

fn wrong_in(section: Section, table: &Table) -> Option<&'static str>
    ensures { option_copied result ≡ broken_in KeyFault.WrongType (section, table_view table.now) }
{
    for key in keys(section) {
        if let Some(value) = value_at(table, key.name())
            && !has_form(key.form(), value)
        {
            return Some(key.name());
        }
    }
    None
}

/// The first key of a section that breaks a rule.
fn first_in(fault: KeyFault, section: Section, table: &Table) -> Option<&str>
    ensures { option_copied result ≡ broken_in fault (section, table_view table.now) }
{
    match fault {
        KeyFault::Missing => missing_in(section, table),
        KeyFault::Unknown => unknown_in(section, table),
        KeyFault::WrongType => wrong_in(section, table),
    }
}

/// The first key that breaks a rule in the sections that these values are.
fn first_of(fault: KeyFault, section: Section, values: &[Value]) -> Option<&str>
    ensures { option_copied result ≡ first_some (broken_in fault) (as_entries section (filter_map table_in (map view values.now))) }
{
    for value in values {
        if let Some(table) = value.as_table()
            && let Some(key) = first_in(fault, section, table)
        {
            return Some(key);
        }
    }
    None
}

/// The first key that breaks a rule in the sections at a key of the file.
fn first_at<'a>(fault: KeyFault, section: Section, name: &str, tree: &'a Table) -> Option<&'a str>
    ensures { option_copied result ≡ first_some (broken_in fault) (section_entries section name.now (table_view tree.now)) }
{
    first_of(fault, section, tables_at(tree, name))
}

/// The first key that breaks a rule in the partitions of a table.
fn first_of_parts(fault: KeyFault, value: &Value) -> Option<&str>
    ensures { option_copied result ≡ broken_in_parts fault (view value.now) }
{
    match value.as_table() {
        Some(table) => first_of(
            fault,
            Section::Part(cut_of(table)),
            tables_at(table, "part"),
        ),
        None => None,
    }
}

/// The first key that breaks a rule in the partitions of these tables.
fn first_of_all_parts(fault: KeyFault, values: &[Value]) -> Option<&str>
    ensures { option_copied result ≡ first_some (broken_in_parts fault) (map view values.now) }
{
    for value in values {
        if let Some(key) = first_of_parts(fault, value) {
            return Some(key);
        }
    }
    None
}

/// The first key that breaks a rule in the partitions of the file's tables.
fn first_at_parts(fault: KeyFault, tree: &Table) -> Option<&str>
    ensures { option_copied result ≡ first_some (broken_in fault) (flat_map part_entries (tables_there (codes "table") (table_view tree.now))) }
{
    first_of_all_parts(fault, tables_at(tree, "table"))
}

fn first_of_front(fault: KeyFault, tree: &Table) -> Option<&str>
    ensures { option_copied result ≡ first_some (broken_in fault) (front_entries (table_view tree.now)) }
{
    match table_at(tree, "front") {
        Some(front) => first_in(fault, Section::Front, front),
        None => None,
    }
}

/// The first key that breaks a rule, in the order of the sections.
fn first_broken(fault: KeyFault, tree: &Table) -> Option<&str>
    ensures { option_copied result ≡ broken_by_section fault (table_view tree.now) }
{
    if let Some(key) = first_in(fault, Section::File, tree) {
        return Some(key);
    }
    if let Some(key) = first_of_front(fault, tree) {
        return Some(key);
    }
    if let Some(key) = first_at(fault, Section::User, "user", tree) {
        return Some(key);
    }
    if let Some(key) = first_at(fault, Section::Host, "server", tree) {
        return Some(key);
    }
    if let Some(key) = first_at(fault, Section::Host, "monitor", tree) {
        return Some(key);
    }
    if let Some(key) = first_at(fault, Section::Table, "table", tree) {
        return Some(key);
    }
    first_at_parts(fault, tree)
}

/// The first key that is needed and isn't there.
pub(crate) fn missing_key(tree: &Table) -> Option<&str>
    ensures { option_copied result ≡ missing_key_of (table_view tree.now) }
{
    first_broken(KeyFault::Missing, tree)
}

/// The first key that isn't among those of its section.
pub(crate) fn unknown_key(tree: &Table) -> Option<&str>
    ensures { option_copied result ≡ unknown_key_of (table_view tree.now) }
{
    first_broken(KeyFault::Unknown, tree)
}

/// The first key whose value has another form.
pub(crate) fn wrong_type(tree: &Table) -> Option<&str>
    ensures { option_copied result ≡ wrong_type_of (table_view tree.now) }
{
    first_broken(KeyFault::WrongType, tree)
}
