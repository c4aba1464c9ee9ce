//! How a configuration file writes columns.

ghost use Rattle.std.specs.Prelude.{◌≡◌, IfOk, IfSome, codes};
ghost use Rattle.std.specs.Option.{option_copied, option_map};
ghost use Rattle.sql_values.specs.Names.{IsName};
ghost use Rattle.conf_file.specs.Columns.{column_of, column_name as name_in, kind_of};
ghost use Rattle.conf_file.specs.Shown.{shown_column};
ghost use Rattle.conf_file.specs.Texts.{between};

use crate::texts::number_within;
use list_types::Text;
use sql_values::{ColumnDef, Kind, Name, is_name_text};
use std::alloc::{AllocError, Global};

/// The most characters of a VARCHAR.
const LONGEST_VARCHAR: u32 = 1024;

/// What stands between `VARCHAR(` and `)`.
fn varchar_length(text: &str) -> Option<&str>
    ensures { option_copied result ≡ between (codes "VARCHAR(") (codes ")") text.now }
{
    match text.strip_prefix("VARCHAR(") {
        Some(rest) => rest.strip_suffix(')'),
        None => None,
    }
}

fn read_kind(text: &str) -> Option<Kind>
    ensures { result ≡ kind_of text.now }
{
    if text == "BIGINT" {
        return Some(Kind::BigInt);
    }
    match varchar_length(text) {
        Some(digits) => match number_within(digits, 1, LONGEST_VARCHAR) {
            Some(length) => Some(Kind::VarChar(length)),
            None => None,
        },
        None => None,
    }
}

/// The name and the type of a column, where a text is that of one.
fn column_parts(text: &str) -> Option<(&str, Kind)>
    ensures value { option_map shown_column result ≡ column_of text.now }
    ensures name { IfSome result (λ parts. IsName parts.0.now) }
{
    match text.split_once(' ') {
        Some((name, kind)) => {
            if !is_name_text(name.as_bytes()) {
                return None;
            }
            match read_kind(kind) {
                Some(kind) => Some((name, kind)),
                None => None,
            }
        }
        None => None,
    }
}

/// The name of a column, where a text is that of one.
#[tactic(auto, unfolding(crate::specs::Columns::column_name))]
pub(crate) fn column_name(text: &str) -> Option<&str>
    ensures { option_copied result ≡ name_in text.now }
{
    match column_parts(text) {
        Some((name, _kind)) => Some(name),
        None => None,
    }
}

/// The column that a text is: `NAME BIGINT` or `NAME VARCHAR(n)`, with one blank and an n from 1 to 1024. Any other text is none.
pub fn read_column(alloc: Global, text: &str) -> Result<Option<ColumnDef>, AllocError>
    ensures { IfOk result (λ column. column ≡ column_of text.now) }
{
    let Some((name, kind)) = column_parts(text) else {
        return Ok(None);
    };
    let Ok(name) = Name::from_text(Text::from_str(alloc, name)?) else {
        unreachable!()
    };
    Ok(Some(ColumnDef { name, kind }))
}
