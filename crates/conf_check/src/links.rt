//! The links of a catalog, line by line.
ghost use Rattle.std.specs.Prelude.{◌≡◌, ◌++◌, IfOk};
ghost use Rattle.conf_check.specs.Links.{status_text, part_text, server_text, link_front, link_back, link_line, link_lines, part_lines, table_lines, links_text as text_meant};

use catalog::{Catalog, Link, Part, Status, Table};
use conf_file::HostEntry;
use itoa::Buffer;
use list_types::{Bytes, Listed};
use sql_values::Name;
use std::alloc::{AllocError, Global};

/// The word for what a link is good for.
pub fn status_text(status: Status) -> &'static str
    ensures { result.now ≡ status_text status }
{
    match status {
        Status::Ok => "OK",
        Status::Recovery => "RECOVERY",
        Status::Ng => "NG",
    }
}

/// A partition's name; the one partition of a table without partitions is shown as a dash.
pub fn part_text(part: &Option<Name>) -> &str
    ensures { result.now ≡ part_text part.now }
{
    match part {
        Some(name) => name.as_str(),
        None => "-",
    }
}

/// The name of the server of that number.
pub fn server_text(servers: &[HostEntry], server: u32) -> &str
    ensures { result.now ≡ server_text servers.now server }
{
    match servers.get(server as usize) {
        Some(host) => host.name.as_str(),
        None => "",
    }
}

/// Which link it is.
fn push_front(out: &mut Bytes, table: &Name, part: &Part, number: usize) -> Result<(), AllocError>
    ensures { IfOk result (λ _. out.new ≡ out.old ++ link_front table.now part.now.name number) }
{
    out.extend_from_slices(b"link ", table.as_str().as_bytes())?;
    out.extend_from_slices(b" ", part_text(&part.name).as_bytes())?;
    out.extend_from_slices(b" ", Buffer::new().format(number as u64).as_bytes())
}

/// Where it leads, and what it is good for.
fn push_back(out: &mut Bytes, servers: &[HostEntry], link: &Link) -> Result<(), AllocError>
    ensures { IfOk result (λ _. out.new ≡ out.old ++ link_back servers.now link.now) }
{
    out.extend_from_slices(b" ", server_text(servers, link.server).as_bytes())?;
    out.extend_from_slices(b" ", link.remote.as_str().as_bytes())?;
    out.extend_from_slices(b" ", status_text(link.first).as_bytes())?;
    out.extend_from_slice(b"\n")
}

/// The line of a link.
fn push_line(
    out: &mut Bytes,
    servers: &[HostEntry],
    table: &Name,
    part: &Part,
    number: usize,
    link: &Link,
) -> Result<(), AllocError>
    ensures { IfOk result (λ _. out.new ≡ out.old ++ link_line servers.now table.now part.now.name number link.now) }
{
    push_front(out, table, part, number)?;
    push_back(out, servers, link)
}

fn push_part(
    out: &mut Bytes,
    servers: &[HostEntry],
    table: &Name,
    part: &Part,
) -> Result<(), AllocError>
    ensures { IfOk result (λ _. out.new ≡ out.old ++ link_lines servers.now table.now part.now.name 0 part.now.links) }
{
    for (number, link) in part.links.as_slice().iter().enumerate() {
        push_line(out, servers, table, part, number, link)?;
    }
    Ok(())
}

fn push_table(out: &mut Bytes, servers: &[HostEntry], table: &Table) -> Result<(), AllocError>
    ensures { IfOk result (λ _. out.new ≡ out.old ++ part_lines servers.now table.now.def.name table.now.parts) }
{
    for part in table.parts.as_slice() {
        push_part(out, servers, &table.def.name, part)?;
    }
    Ok(())
}

/// A line for each link of the catalog, in the order of the file, and then `ok`.
pub fn links_text(alloc: Global, catalog: &Catalog) -> Result<Bytes, AllocError>
    ensures { IfOk result (λ text. text ≡ text_meant catalog.now) }
{
    let mut out = Listed::new(alloc);
    for table in catalog.tables() {
        push_table(&mut out, catalog.servers(), table)?;
    }
    out.extend_from_slice(b"ok\n")?;
    Ok(out)
}
