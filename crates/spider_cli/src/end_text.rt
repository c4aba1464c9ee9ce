// What a schedule's end adds to the transcript: each link with the rows of its table.
ghost use Rattle.std.specs.Prelude.{◌≡◌, ◌++◌, ◌∷◌, [], OnOk, IfOk, codes};
ghost use Rattle.std.specs.Fmt.{decimal, signed_decimal};
ghost use Rattle.conf_check.specs.Links.{link_front, part_text, server_text, status_text};
ghost use Rattle.world_runs.specs.Transcript.{value_text, next_value, values_text, has_line, rows_text, link_rows, link_end, part_end, table_end, end_text};

use crate::transcript::push_number;
use branch_store::BranchStore;
use catalog::{Catalog, Link, Part, Table};
use conf_check::{part_text, server_text, status_text};
use conf_file::HostEntry;
use itoa::Buffer;
use list_types::Listed;
use sql_text::push_quoted;
use sql_values::{Name, Row, Rows, Value};
use std::alloc::{AllocError, Global};

fn push_signed(text: &mut Vec<u8>, number: i64) -> Result<(), AllocError>
    ensures { OnOk result (text.new.items ≡ text.old.items ++ signed_decimal number) }
{
    let mut buffer = Buffer::new();
    text.extend_from_slice(buffer.format(number).as_bytes())
}

fn push_value(text: &mut Vec<u8>, value: &Value) -> Result<(), AllocError>
    ensures { OnOk result (text.new.items ≡ text.old.items ++ value_text value.now) }
{
    match value {
        Value::Number(number) => push_signed(text, *number),
        Value::Text(value) => push_quoted(text, value.as_str().as_bytes()),
    }
}

fn push_next_value(text: &mut Vec<u8>, value: &Value) -> Result<(), AllocError>
    ensures { OnOk result (text.new.items ≡ text.old.items ++ next_value value.now) }
{
    text.extend_from_slice(b",")?;
    push_value(text, value)
}

fn push_values(text: &mut Vec<u8>, values: &[Value]) -> Result<(), AllocError>
    ensures { OnOk result (text.new.items ≡ text.old.items ++ values_text values.now) }
{
    let [first, others @ ..] = values else {
        return Ok(());
    };
    push_value(text, first)?;
    for value in others {
        push_next_value(text, value)?;
    }
    Ok(())
}

/// Adds the line of a row that a backend has.
fn push_has(text: &mut Vec<u8>, row: &Row) -> Result<(), AllocError>
    ensures { OnOk result (text.new.items ≡ text.old.items ++ has_line row.now) }
{
    text.extend_from_slice(b"has ")?;
    push_values(text, row.as_slice())?;
    text.extend_from_slice(b"\n")
}

/// Adds how many rows there are, and the line of each.
fn push_rows(text: &mut Vec<u8>, rows: &[Row]) -> Result<(), AllocError>
    ensures { OnOk result (text.new.items ≡ text.old.items ++ rows_text rows.now) }
{
    push_number(text, rows.len() as u64)?;
    text.extend_from_slice(b"\n")?;
    for row in rows {
        push_has(text, row)?;
    }
    Ok(())
}

/// The rows of a link at its server. A server that isn't there has none.
fn rows_of(alloc: Global, stores: &[BranchStore], link: &Link) -> Result<Rows, AllocError>
    ensures { IfOk result (λ rows. rows ≡ link_rows stores.now link.now) }
{
    match stores.get(link.server as usize) {
        Some(store) => store.view(alloc, &link.remote, &Listed::new(alloc)),
        None => Ok(Listed::new(alloc)),
    }
}

/// Adds where a link leads, and what it is good for.
fn push_state(text: &mut Vec<u8>, servers: &[HostEntry], link: &Link) -> Result<(), AllocError>
    ensures { OnOk result (text.new.items ≡ text.old.items ++ (32 ∷ (server_text servers.now link.now.server ++ (32 ∷ (status_text link.now.first ++ codes " 0 rows "))))) }
{
    text.extend_from_slice(b" ")?;
    text.extend_from_slice(server_text(servers, link.server).as_bytes())?;
    text.extend_from_slice(b" ")?;
    text.extend_from_slice(status_text(link.first).as_bytes())?;
    text.extend_from_slice(b" 0 rows ")
}

/// Adds what follows a link's name and number.
fn push_link_end(
    alloc: Global,
    text: &mut Vec<u8>,
    servers: &[HostEntry],
    stores: &[BranchStore],
    link: &Link,
) -> Result<(), AllocError>
    ensures { OnOk result (text.new.items ≡ text.old.items ++ link_end servers.now stores.now link.now) }
{
    let rows = rows_of(alloc, stores, link)?;
    push_state(text, servers, link)?;
    push_rows(text, rows.as_slice())
}

/// Adds which link it is.
fn push_link_front(
    text: &mut Vec<u8>,
    table: &Name,
    part: &Part,
    number: usize,
) -> Result<(), AllocError>
    ensures { OnOk result (text.new.items ≡ text.old.items ++ link_front table.now part.now.name number) }
{
    text.extend_from_slice(b"link ")?;
    text.extend_from_slice(table.as_str().as_bytes())?;
    text.extend_from_slice(b" ")?;
    push_place(text, part, number)
}

/// Adds a partition's name and a link's number.
fn push_place(text: &mut Vec<u8>, part: &Part, number: usize) -> Result<(), AllocError>
    ensures { OnOk result (text.new.items ≡ text.old.items ++ (part_text part.now.name ++ (32 ∷ decimal number))) }
{
    text.extend_from_slice(part_text(&part.name).as_bytes())?;
    text.extend_from_slice(b" ")?;
    push_number(text, number as u64)
}

fn push_part(
    alloc: Global,
    text: &mut Vec<u8>,
    servers: &[HostEntry],
    stores: &[BranchStore],
    table: &Name,
    part: &Part,
) -> Result<(), AllocError>
    ensures { OnOk result (text.new.items ≡ text.old.items ++ part_end servers.now stores.now table.now part.now) }
{
    for (number, link) in part.links.as_slice().iter().enumerate() {
        push_link_front(text, table, part, number)?;
        push_link_end(alloc, text, servers, stores, link)?;
    }
    Ok(())
}

fn push_table(
    alloc: Global,
    text: &mut Vec<u8>,
    servers: &[HostEntry],
    stores: &[BranchStore],
    table: &Table,
) -> Result<(), AllocError>
    ensures { OnOk result (text.new.items ≡ text.old.items ++ table_end servers.now stores.now table.now) }
{
    for part in table.parts.as_slice() {
        push_part(alloc, text, servers, stores, &table.def.name, part)?;
    }
    Ok(())
}

/// Adds the schedule's end: each link in catalog order, with the rows of its table.
#[tactic(auto, unfolding(world_runs::specs::Transcript::end_text))]
pub fn push_end(
    alloc: Global,
    text: &mut Vec<u8>,
    catalog: &Catalog,
    stores: &[BranchStore],
) -> Result<(), AllocError>
    ensures { OnOk result (text.new.items ≡ text.old.items ++ end_text catalog.now stores.now) }
{
    text.extend_from_slice(b"end\n")?;
    for table in catalog.tables() {
        push_table(alloc, text, catalog.servers(), stores, table)?;
    }
    Ok(())
}
