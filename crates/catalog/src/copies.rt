//! Copies of a catalog's parts.
ghost use Rattle.std.specs.Prelude.{◌≡◌, IfOk};

use crate::{Links, Part, Table};
use conf_file::{FrontEntry, HostEntries, UserEntries};
use list_types::Listed;
use part_rules::Rule;
use sql_values::{Name, TableDef};
use std::alloc::{AllocError, Global};

pub(crate) fn copy_front(front: &FrontEntry) -> Result<FrontEntry, AllocError>
    ensures { IfOk result (λ copy. copy ≡ front.now) }
{
    front.clone()
}

pub(crate) fn copy_users(users: &UserEntries) -> Result<UserEntries, AllocError>
    ensures { IfOk result (λ copy. copy ≡ users.now) }
{
    users.clone()
}

pub(crate) fn copy_hosts(hosts: &HostEntries) -> Result<HostEntries, AllocError>
    ensures { IfOk result (λ copy. copy ≡ hosts.now) }
{
    hosts.clone()
}

fn copy_links(links: &Links) -> Result<Links, AllocError>
    ensures { IfOk result (λ copy. copy ≡ links.now) }
{
    links.clone()
}

fn copy_name(name: &Option<Name>) -> Result<Option<Name>, AllocError>
    ensures { IfOk result (λ copy. copy ≡ name.now) }
{
    match name {
        Some(name) => Ok(Some(name.clone()?)),
        None => Ok(None),
    }
}

fn copy_part(part: &Part) -> Result<Part, AllocError>
    ensures { IfOk result (λ copy. copy ≡ part.now) }
{
    Ok(Part {
        name: copy_name(&part.name)?,
        links: copy_links(&part.links)?,
    })
}

fn copy_parts(alloc: Global, parts: &[Part]) -> Result<Listed<Part>, AllocError>
    ensures { IfOk result (λ copies. copies ≡ parts.now) }
{
    let mut copies = Listed::new(alloc);
    for part in parts {
        copies.push(copy_part(part)?)?;
    }
    Ok(copies)
}

fn copy_def(def: &TableDef) -> Result<TableDef, AllocError>
    ensures { IfOk result (λ copy. copy ≡ def.now) }
{
    def.clone()
}

fn copy_rule(rule: &Rule) -> Result<Rule, AllocError>
    ensures { IfOk result (λ copy. copy ≡ rule.now) }
{
    rule.clone()
}

fn copy_table(alloc: Global, table: &Table) -> Result<Table, AllocError>
    ensures { IfOk result (λ copy. copy ≡ table.now) }
{
    Ok(Table {
        def: copy_def(&table.def)?,
        rule: copy_rule(&table.rule)?,
        parts: copy_parts(alloc, table.parts.as_slice())?,
    })
}

pub(crate) fn copy_tables(alloc: Global, tables: &[Table]) -> Result<Listed<Table>, AllocError>
    ensures { IfOk result (λ copies. copies ≡ tables.now) }
{
    let mut copies = Listed::new(alloc);
    for table in tables {
        copies.push(copy_table(alloc, table)?)?;
    }
    Ok(copies)
}
