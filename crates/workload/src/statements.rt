// The statements that draw nothing, and the parts that all statements have.
ghost use Rattle.std.specs.Prelude.{◌≡◌, ◌++◌, [], OnOk, codes, option_map, take};
ghost use Rattle.std.specs.Fmt.{decimal};
ghost use Rattle.sql_text.specs.Printing.{name_text, quoted};
ghost use Rattle.workload.specs.Generated.{comma_at, count_text, count_up, counter_of, delete_text, insert_front, key_text, plain_text, select_text, update_text, where_key};

use itoa::Buffer;
use sql_text::push_quoted;
use sql_values::{Kind, Name, TableDef};
use std::alloc::AllocError;

/// Adds a number in decimal.
pub fn push_number(text: &mut Vec<u8>, number: u64) -> Result<(), AllocError>
    ensures { OnOk result (text.new.items ≡ text.old.items ++ decimal number) }
{
    let mut buffer = Buffer::new();
    text.extend_from_slice(buffer.format(number).as_bytes())
}

/// Adds the first digits of a number, so many at most, as a literal.
pub fn push_digits(text: &mut Vec<u8>, most: u32, number: u64) -> Result<(), AllocError>
    ensures { OnOk result (text.new.items ≡ text.old.items ++ quoted (take most (decimal number))) }
{
    let mut buffer = Buffer::new();
    let digits = buffer.format(number).as_bytes();
    push_quoted(text, &digits[..digits.len().min(most as usize)])
}

/// Adds a name in backquotes, since it may be a keyword.
fn push_name(text: &mut Vec<u8>, name: &Name) -> Result<(), AllocError>
    ensures { OnOk result (text.new.items ≡ text.old.items ++ name_text name.now) }
{
    text.extend_from_slice(b"`")?;
    text.extend_from_slice(name.as_str().as_bytes())?;
    text.extend_from_slice(b"`")
}

/// Adds a comma, where a value stands before this place.
pub fn push_comma(text: &mut Vec<u8>, place: usize) -> Result<(), AllocError>
    ensures { OnOk result (text.new.items ≡ text.old.items ++ comma_at place) }
{
    if place == 0 {
        return Ok(());
    }
    text.extend_from_slice(b",")
}

/// Adds what stands before the values of a row.
pub fn push_insert_front(text: &mut Vec<u8>, def: &TableDef) -> Result<(), AllocError>
    ensures { OnOk result (text.new.items ≡ text.old.items ++ insert_front def.now) }
{
    text.extend_from_slice(b"INSERT INTO ")?;
    push_name(text, &def.name)?;
    text.extend_from_slice(b" VALUES (")
}

fn push_key_name(text: &mut Vec<u8>, def: &TableDef) -> Result<(), AllocError>
    ensures { OnOk result (text.new.items ≡ text.old.items ++ key_text def.now) }
{
    match def.columns.as_slice().get(def.key as usize) {
        Some(column) => push_name(text, &column.name),
        None => Ok(()),
    }
}

/// Adds a condition on the key column.
fn push_where(
    text: &mut Vec<u8>,
    def: &TableDef,
    comparison: &[u8],
    key: u64,
) -> Result<(), AllocError>
    ensures { OnOk result (text.new.items ≡ text.old.items ++ where_key def.now comparison.now key) }
{
    text.extend_from_slice(b" WHERE ")?;
    push_key_name(text, def)?;
    text.extend_from_slice(comparison)?;
    push_number(text, key)
}

fn push_select(text: &mut Vec<u8>, def: &TableDef, key: u64) -> Result<(), AllocError>
    ensures { OnOk result (text.new.items ≡ text.old.items ++ select_text def.now key) }
{
    text.extend_from_slice(b"SELECT * FROM ")?;
    push_name(text, &def.name)?;
    push_where(text, def, b" = ", key)
}

/// The name of the first BIGINT column that isn't the key.
fn counter_of(def: &TableDef) -> Option<&Name>
    ensures { option_map (λ x. x.now) result ≡ counter_of def.now }
{
    for (place, column) in def.columns.as_slice().iter().enumerate() {
        if place != def.key as usize && column.kind == Kind::BigInt {
            return Some(&column.name);
        }
    }
    None
}

/// Adds that a column goes up by 1.
fn push_count_up(text: &mut Vec<u8>, column: &Name) -> Result<(), AllocError>
    ensures { OnOk result (text.new.items ≡ text.old.items ++ count_up column.now) }
{
    push_name(text, column)?;
    text.extend_from_slice(b" = ")?;
    push_name(text, column)?;
    text.extend_from_slice(b" + 1")
}

fn push_update(text: &mut Vec<u8>, def: &TableDef, key: u64) -> Result<(), AllocError>
    ensures { OnOk result (text.new.items ≡ text.old.items ++ update_text def.now key (counter_of def.now)) }
{
    let Some(column) = counter_of(def) else {
        return push_select(text, def, key);
    };
    text.extend_from_slice(b"UPDATE ")?;
    push_name(text, &def.name)?;
    text.extend_from_slice(b" SET ")?;
    push_count_up(text, column)?;
    push_where(text, def, b" = ", key)
}

fn push_delete(text: &mut Vec<u8>, def: &TableDef, key: u64) -> Result<(), AllocError>
    ensures { OnOk result (text.new.items ≡ text.old.items ++ delete_text def.now key) }
{
    text.extend_from_slice(b"DELETE FROM ")?;
    push_name(text, &def.name)?;
    push_where(text, def, b" = ", key)
}

fn push_count(text: &mut Vec<u8>, def: &TableDef, key: u64) -> Result<(), AllocError>
    ensures { OnOk result (text.new.items ≡ text.old.items ++ count_text def.now key) }
{
    text.extend_from_slice(b"SELECT COUNT(*) FROM ")?;
    push_name(text, &def.name)?;
    push_where(text, def, b" < ", key)
}

/// Adds a statement of a kind that draws nothing.
pub fn push_plain(text: &mut Vec<u8>, def: &TableDef, key: u64, kind: u64) -> Result<(), AllocError>
    ensures { OnOk result (text.new.items ≡ text.old.items ++ plain_text def.now key kind) }
{
    if kind < 6 {
        return push_select(text, def, key);
    }
    if kind < 8 {
        return push_update(text, def, key);
    }
    if kind == 8 {
        return push_delete(text, def, key);
    }
    push_count(text, def, key)
}
