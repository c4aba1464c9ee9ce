//! Look-ups in the tree of a TOML document.

ghost use Rattle.std.specs.Prelude.{◌≡◌, map};
ghost use Rattle.std.specs.List.{list_all, filter_map};
ghost use Rattle.std.specs.Option.{is_some, option_copied, option_map};
ghost use Rattle.toml.specs.Data.{get_member, as_str, as_integer, as_table as table_in};
ghost use Rattle.toml.specs.View.{view, table_view};
ghost use Rattle.conf_file.specs.Trees.{is_of as is_of_type, text_at as text_there, needed_text as text_needed, values_in, values_at as values_there, table_at as table_there, if_tables as tables_or_none, tables_at as tables_there};

use crate::sections::ItemType;
use toml::{Table, Value};

/// The value at a key.
pub(crate) fn value_at<'a>(table: &'a Table, key: &str) -> Option<&'a Value>
    ensures { option_map (λ v. view v.now) result ≡ get_member key.now (table_view table.now) }
{
    table.get(key)
}

/// The text at a key.
pub(crate) fn text_at<'a>(table: &'a Table, key: &str) -> Option<&'a str>
    ensures { option_copied result ≡ text_there key.now (table_view table.now) }
{
    match value_at(table, key) {
        Some(value) => value.as_str(),
        None => None,
    }
}

/// The text at a key, or an empty one.
pub(crate) fn needed_text<'a>(table: &'a Table, key: &str) -> &'a str
    ensures { result.now ≡ text_needed key.now (table_view table.now) }
{
    match text_at(table, key) {
        Some(text) => text,
        None => "",
    }
}

/// The values of an array.
pub(crate) fn values_of(value: &Value) -> Option<&[Value]>
    ensures { option_map (λ v. map view v.now) result ≡ values_in (view value.now) }
{
    match value.as_array() {
        Some(values) => Some(values.as_slice()),
        None => None,
    }
}

/// The values of the array at a key.
pub(crate) fn values_at<'a>(table: &'a Table, key: &str) -> Option<&'a [Value]>
    ensures { option_map (λ v. map view v.now) result ≡ values_there key.now (table_view table.now) }
{
    match value_at(table, key) {
        Some(value) => values_of(value),
        None => None,
    }
}

/// The table at a key.
pub(crate) fn table_at<'a>(table: &'a Table, key: &str) -> Option<&'a Table>
    ensures { option_map (λ t. table_view t.now) result ≡ table_there key.now (table_view table.now) }
{
    match value_at(table, key) {
        Some(value) => value.as_table(),
        None => None,
    }
}

fn is_of(item: ItemType, value: &Value) -> bool
    ensures { result ≡ is_of_type item (view value.now) }
{
    match item {
        ItemType::Text => value.is_str(),
        ItemType::Number => value.is_integer(),
        ItemType::Table => value.is_table(),
    }
}

/// Whether each of these values is of this type.
pub(crate) fn are_of(item: ItemType, values: &[Value]) -> bool
    ensures { result ≡ list_all (is_of_type item) (map view values.now) }
{
    for value in values {
        if !is_of(item, value) {
            return false;
        }
    }
    true
}

/// These values, where each of them is a table; else none.
fn if_tables(values: &[Value]) -> &[Value]
    ensures { map view result.now ≡ tables_or_none (map view values.now) }
{
    if are_of(ItemType::Table, values) {
        values
    } else {
        &[]
    }
}

/// The tables of the array at a key, which has tables alone; else none.
pub(crate) fn tables_at<'a>(table: &'a Table, key: &str) -> &'a [Value]
    ensures { filter_map table_in (map view result.now) ≡ tables_there key.now (table_view table.now) }
{
    match values_at(table, key) {
        Some(values) => if_tables(values),
        None => &[],
    }
}
