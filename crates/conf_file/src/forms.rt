//! What the values at keys have to be.

ghost use Rattle.std.specs.Prelude.{◌≡◌};
ghost use Rattle.toml.specs.View.{view, table_view};
ghost use Rattle.conf_file.specs.Sections.{has_form as has_this_form, bound_of as bound_in, named_bound as bound_named, is_batch_size as is_size_of_batch, cut_of as cut_there};

use crate::BoundEntry;
use crate::sections::{Cut, Form};
use crate::texts::is_address;
use crate::tree::{are_of, text_at, values_of};
use toml::{Table, Value};

/// The most rows of a batch.
const LARGEST_BATCH: i64 = 1000;

/// How a table is cut into partitions.
pub(crate) fn cut_of(table: &Table) -> Cut
    ensures { result ≡ cut_there (table_view table.now) }
{
    match text_at(table, "partition") {
        Some(word) => Cut::named(word),
        None => Cut::Unknown,
    }
}

fn named_bound(text: &str) -> Option<BoundEntry>
    ensures { result ≡ bound_named text.now }
{
    if text == "MAXVALUE" {
        Some(BoundEntry::MaxValue)
    } else {
        None
    }
}

/// The bound that a value is.
pub(crate) fn bound_of(value: &Value) -> Option<BoundEntry>
    ensures { result ≡ bound_in (view value.now) }
{
    match value.as_integer() {
        Some(number) => Some(BoundEntry::Below(number)),
        None => match value.as_str() {
            Some(text) => named_bound(text),
            None => None,
        },
    }
}

/// Whether a number is the size of a batch.
pub(crate) fn is_batch_size(number: &i64) -> bool
    ensures { result ≡ is_size_of_batch number.now }
{
    1 <= *number && *number <= LARGEST_BATCH
}

/// Whether a value has this form.
pub(crate) fn has_form(form: Form, value: &Value) -> bool
    ensures { result ≡ has_this_form form (view value.now) }
{
    match form {
        Form::Text => value.is_str(),
        Form::Address => match value.as_str() {
            Some(text) => is_address(text),
            None => false,
        },
        Form::BatchSize => match value.as_integer() {
            Some(number) => is_batch_size(&number),
            None => false,
        },
        Form::Bound => bound_of(value).is_some(),
        Form::Table => value.is_table(),
        Form::ArrayOf(item) => match values_of(value) {
            Some(values) => are_of(item, values),
            None => false,
        },
    }
}
