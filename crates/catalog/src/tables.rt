//! The tables that the entries of a configuration give.
ghost use Rattle.std.specs.Prelude.{◌≡◌, ◌++◌, ◌∷◌, List, ℕ, Option, Some, None, IfOk, option_and_then};
ghost use Rattle.std.specs.Option.{option_map, option_zip};
ghost use Rattle.std.specs.Result.{result_ok};
ghost use Rattle.catalog.specs.Comment.{Gives, nothing};
ghost use Rattle.catalog.specs.Links.{overlaid, links_of as links_meant};
ghost use Rattle.catalog.specs.Tables.{said as meaning, remote_name as name_remote, part_of as part_meant, whole_of as whole_meant, parts_by as parts_meant, table_with as table_made, table_of as table_meant};
ghost use Rattle.catalog.specs.Searches.{each};

use crate::Links;
use crate::columns::{def_of, name_of};
use crate::comment::{Comment, CommentFault, read_comment};
use crate::index::Index;
use crate::links::links_of;
use crate::rules::rule_of;
use conf_file::{PartEntry, TableEntry};
use list_types::{Listed, Text};
use part_rules::Rule;
use sql_values::{Name, TableDef};
use std::alloc::{AllocError, Global};

/// A partition, with the links on which it lies.
#[derive(Clone, Debug, PartialEq, Eq, Drop)]
pub struct Part {
    /// None for the one partition of a table without partitions.
    pub name: Option<Name>,
    pub links: Links,
}

/// A table, the rule that cuts it, and its partitions in order.
#[derive(Clone, Debug, PartialEq, Eq, Drop)]
pub struct Table {
    pub def: TableDef,
    pub rule: Rule,
    pub parts: Listed<Part>,
}

/// What a comment says.
pub(crate) fn said(alloc: Global, comment: &Option<Text>) -> Result<Comment, CommentFault>
    ensures { Gives (λ x. x) result (meaning comment.now) }
{
    match comment {
        Some(text) => read_comment(alloc, text.as_str().as_bytes()),
        None => Ok(Comment::new()),
    }
}

/// What a comment says, or None where it leaves its form.
pub(crate) fn comment_of(
    alloc: Global,
    comment: &Option<Text>,
) -> Result<Option<Comment>, AllocError>
    ensures { IfOk result (λ found. found ≡ result_ok (meaning comment.now)) }
{
    match said(alloc, comment) {
        Ok(comment) => Ok(Some(comment)),
        Err(CommentFault::Form(_left)) => Ok(None),
        Err(CommentFault::NoMemory) => Err(AllocError),
    }
}

/// TABLE_PART.
fn remote_name(alloc: Global, table: &Text, part: &Text) -> Result<Text, AllocError>
    ensures { IfOk result (λ name. name ≡ name_remote table.now part.now) }
{
    let mut name = String::from_str(alloc, table.as_str())?;
    name.push_str("_")?;
    name.push_str(part.as_str())?;
    Ok(Text::from_string(name))
}

/// The links of a partition, whose comment stands over that of its table.
pub(crate) fn part_links(
    alloc: Global,
    servers: &Index,
    table: &Text,
    own: &Comment,
    part: &Text,
    comment: &Comment,
) -> Result<Option<Links>, AllocError>
    ensures { IfOk result (λ found. found ≡ links_meant servers.now (name_remote table.now part.now) (overlaid own.now comment.now)) }
{
    let default = remote_name(alloc, table, part)?;
    links_of(alloc, servers, &default, own, comment)
}

/// The links of a table without partitions.
pub(crate) fn own_links(
    alloc: Global,
    servers: &Index,
    table: &Text,
    own: &Comment,
) -> Result<Option<Links>, AllocError>
    ensures { IfOk result (λ found. found ≡ links_meant servers.now table.now (overlaid own.now nothing)) }
{
    links_of(alloc, servers, table, own, &Comment::new())
}

#[tactic(auto, unfolding(crate::specs::Tables::part_of))]
fn part_of(
    alloc: Global,
    servers: &Index,
    table: &Text,
    own: &Comment,
    part: &PartEntry,
) -> Result<Option<Part>, AllocError>
    ensures { IfOk result (λ found. found ≡ part_meant servers.now table.now own.now part.now) }
{
    let Some(name) = name_of(alloc, &part.name)? else {
        return Ok(None);
    };
    let Some(comment) = comment_of(alloc, &part.comment)? else {
        return Ok(None);
    };
    match part_links(alloc, servers, table, own, &part.name, &comment)? {
        Some(links) => Ok(Some(Part {
            name: Some(name),
            links,
        })),
        None => Ok(None),
    }
}

#[tactic(auto, unfolding(crate::specs::Tables::whole_of))]
fn whole_of(
    alloc: Global,
    servers: &Index,
    table: &Text,
    own: &Comment,
) -> Result<Option<Listed<Part>>, AllocError>
    ensures { IfOk result (λ found. found ≡ whole_meant servers.now table.now own.now) }
{
    match own_links(alloc, servers, table, own)? {
        Some(links) => {
            let mut parts = Listed::new(alloc);
            parts.push(Part { name: None, links })?;
            Ok(Some(parts))
        }
        None => Ok(None),
    }
}

fn each_part(
    alloc: Global,
    servers: &Index,
    table: &Text,
    own: &Comment,
    parts: &[PartEntry],
) -> Result<Option<Listed<Part>>, AllocError>
    ensures { IfOk result (λ found. found ≡ each (part_meant servers.now table.now own.now) parts.now) }
{
    let mut made = Listed::new(alloc);
    for part in parts {
        match part_of(alloc, servers, table, own, part)? {
            Some(part) => made.push(part)?,
            None => return Ok(None),
        }
    }
    Ok(Some(made))
}

fn parts_by(
    alloc: Global,
    servers: &Index,
    table: &Text,
    own: &Comment,
    parts: &[PartEntry],
) -> Result<Option<Listed<Part>>, AllocError>
    ensures { IfOk result (λ found. found ≡ parts_meant servers.now table.now own.now parts.now) }
{
    match parts {
        [] => whole_of(alloc, servers, table, own),
        [_part, ..] => each_part(alloc, servers, table, own, parts),
    }
}

fn table_with(
    alloc: Global,
    servers: &Index,
    table: &TableEntry,
    own: &Comment,
) -> Result<Option<Table>, AllocError>
    ensures { IfOk result (λ found. found ≡ table_made servers.now table.now own.now) }
{
    let Some(def) = def_of(alloc, table)? else {
        return Ok(None);
    };
    let Some(rule) = rule_of(alloc, table)? else {
        return Ok(None);
    };
    match parts_by(alloc, servers, &table.name, own, table.parts.as_slice())? {
        Some(parts) => Ok(Some(Table { def, rule, parts })),
        None => Ok(None),
    }
}

#[tactic(auto, unfolding(crate::specs::Tables::table_of))]
fn table_of(alloc: Global, servers: &Index, table: &TableEntry) -> Result<Option<Table>, AllocError>
    ensures { IfOk result (λ found. found ≡ table_meant servers.now table.now) }
{
    match comment_of(alloc, &table.comment)? {
        Some(own) => table_with(alloc, servers, table, &own),
        None => Ok(None),
    }
}

/// The tables that these entries give.
pub(crate) fn tables_of(
    alloc: Global,
    servers: &Index,
    tables: &[TableEntry],
) -> Result<Option<Listed<Table>>, AllocError>
    ensures { IfOk result (λ found. found ≡ each (table_meant servers.now) tables.now) }
{
    let mut made = Listed::new(alloc);
    for table in tables {
        match table_of(alloc, servers, table)? {
            Some(table) => made.push(table)?,
            None => return Ok(None),
        }
    }
    Ok(Some(made))
}
