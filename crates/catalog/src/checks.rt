//! The rules that the entries of a configuration's tables must keep, one after the other.
ghost use Rattle.std.specs.Prelude.{◌≡◌, IfOk, length};
ghost use Rattle.catalog.specs.Comment.{comment_at};
ghost use Rattle.catalog.specs.Broken.{Refuses, unnamed, bad_part_name, bad_name as name_fault, bad_text, bad_column as column_fault, bad_key as key_fault, form_fault, comment_fault as form_of, itself, bad_comment as own_comment_fault, part_comment_fault, bad_part_comment as part_comments_fault, unknown as not_there, servers_fault as unknown_in, unknown_server as own_servers_fault, part_servers_fault, unknown_part_server as parts_servers_fault, links_fault as no_links, own_links_fault as own_links_missing, is_whole as not_cut, bad_links as own_fault, part_links_by, part_links_fault as part_fault, bad_part_links as parts_fault, bad_bounds as bounds_fault, bad_partition as partition_fault, breaks, broken_by, all_rules};
ghost use Rattle.catalog.specs.Searches.{first};

use crate::CatalogFault;
use crate::columns::{column_text, key_of};
use crate::comment::{Comment, CommentFault, read_comment};
use crate::index::Index;
use crate::rules::{bounds_break, is_bad_cut};
use crate::tables::{comment_of, own_links, part_links};
use conf_file::{PartEntry, TableEntry};
use list_types::Text;
use sql_values::is_name_text;
use std::alloc::{AllocError, Global};

/// A rule.
#[derive(Clone, Copy, Debug, PartialEq, Eq)]
pub(crate) enum Check {
    Names,
    Columns,
    Key,
    OwnComment,
    PartComments,
    OwnServers,
    PartServers,
    OwnLinks,
    PartLinks,
    Bounds,
    Partition,
}

/// The rules in order.
const RULES: [Check; 11] = [
    Check::Names,
    Check::Columns,
    Check::Key,
    Check::OwnComment,
    Check::PartComments,
    Check::OwnServers,
    Check::PartServers,
    Check::OwnLinks,
    Check::PartLinks,
    Check::Bounds,
    Check::Partition,
];

fn check_name(alloc: Global, name: &Text) -> Result<(), CatalogFault>
    ensures { Refuses (unnamed name.now) result }
{
    if is_name_text(name.as_str().as_bytes()) {
        return Ok(());
    }
    Err(CatalogFault::BadName(Text::from_str(alloc, name.as_str())?))
}

fn check_part_names(alloc: Global, parts: &[PartEntry]) -> Result<(), CatalogFault>
    ensures { Refuses (first bad_part_name parts.now) result }
{
    for part in parts {
        match check_name(alloc, &part.name) {
            Ok(()) => {}
            Err(fault) => return Err(fault),
        }
    }
    Ok(())
}

#[tactic(auto, unfolding(crate::specs::Broken::bad_name))]
fn check_names(alloc: Global, table: &TableEntry) -> Result<(), CatalogFault>
    ensures { Refuses (name_fault table.now) result }
{
    match check_name(alloc, &table.name) {
        Ok(()) => check_part_names(alloc, table.parts.as_slice()),
        Err(fault) => Err(fault),
    }
}

fn check_column(alloc: Global, text: &Text) -> Result<(), CatalogFault>
    ensures { Refuses (bad_text text.now) result }
{
    match column_text(alloc, text)? {
        Some(_column) => Ok(()),
        None => Err(CatalogFault::BadColumn(Text::from_str(alloc, text.as_str())?)),
    }
}

#[tactic(auto, unfolding(crate::specs::Broken::bad_column))]
fn check_columns(alloc: Global, table: &TableEntry) -> Result<(), CatalogFault>
    ensures { Refuses (column_fault table.now) result }
{
    for text in table.columns.as_slice() {
        match check_column(alloc, text) {
            Ok(()) => {}
            Err(fault) => return Err(fault),
        }
    }
    Ok(())
}

#[tactic(auto, unfolding(crate::specs::Broken::bad_key))]
fn check_key(alloc: Global, table: &TableEntry) -> Result<(), CatalogFault>
    ensures { Refuses (key_fault table.now) result }
{
    match key_of(alloc, table)? {
        Some(_place) => Ok(()),
        None => Err(CatalogFault::BadKey(Text::from_str(alloc, table.key.as_str())?)),
    }
}

fn check_comment(
    alloc: Global,
    table: &Text,
    part: &str,
    comment: &Option<Text>,
) -> Result<(), CatalogFault>
    ensures { Refuses (form_of table.now part.now comment.now) result }
{
    match comment {
        Some(text) => check_form(alloc, table, part, text.as_str()),
        None => Ok(()),
    }
}

fn check_form(alloc: Global, table: &Text, part: &str, text: &str) -> Result<(), CatalogFault>
    ensures { Refuses (form_fault table.now part.now (length text.now) (comment_at text.now)) result }
{
    match read_comment(alloc, text.as_bytes()) {
        Ok(_comment) => Ok(()),
        Err(CommentFault::Form(left)) => Err(CatalogFault::BadComment {
            table: Text::from_str(alloc, table.as_str())?,
            part: Text::from_str(alloc, part)?,
            place: text.len().saturating_sub(left) as u64,
        }),
        Err(CommentFault::NoMemory) => Err(CatalogFault::NoMemory),
    }
}

#[tactic(auto, unfolding(crate::specs::Broken::bad_comment))]
fn check_own_comment(alloc: Global, table: &TableEntry) -> Result<(), CatalogFault>
    ensures { Refuses (own_comment_fault table.now) result }
{
    check_comment(alloc, &table.name, "-", &table.comment)
}

#[tactic(auto, unfolding(crate::specs::Broken::bad_part_comment))]
fn check_part_comments(alloc: Global, table: &TableEntry) -> Result<(), CatalogFault>
    ensures { Refuses (part_comments_fault table.now) result }
{
    for part in table.parts.as_slice() {
        match check_comment(alloc, &table.name, part.name.as_str(), &part.comment) {
            Ok(()) => {}
            Err(fault) => return Err(fault),
        }
    }
    Ok(())
}

fn check_server(alloc: Global, servers: &Index, name: &Text) -> Result<(), CatalogFault>
    ensures { Refuses (not_there servers.now name.now) result }
{
    match servers.place(name.as_str()) {
        Some(_server) => Ok(()),
        None => Err(CatalogFault::UnknownServer(Text::from_str(alloc, name.as_str())?)),
    }
}

fn check_each_server(alloc: Global, servers: &Index, names: &[Text]) -> Result<(), CatalogFault>
    ensures { Refuses (first (not_there servers.now) names.now) result }
{
    for name in names {
        match check_server(alloc, servers, name) {
            Ok(()) => {}
            Err(fault) => return Err(fault),
        }
    }
    Ok(())
}

fn check_servers(
    alloc: Global,
    servers: &Index,
    comment: &Option<Comment>,
) -> Result<(), CatalogFault>
    ensures { Refuses (unknown_in servers.now comment.now) result }
{
    match comment {
        Some(comment) => match &comment.servers {
            Some(names) => check_each_server(alloc, servers, names.as_slice()),
            None => Ok(()),
        },
        None => Ok(()),
    }
}

#[tactic(auto, unfolding(crate::specs::Broken::unknown_server))]
fn check_own_servers(alloc: Global, servers: &Index, table: &TableEntry) -> Result<(), CatalogFault>
    ensures { Refuses (own_servers_fault servers.now table.now) result }
{
    let comment = comment_of(alloc, &table.comment)?;
    check_servers(alloc, servers, &comment)
}

fn check_servers_of(alloc: Global, servers: &Index, part: &PartEntry) -> Result<(), CatalogFault>
    ensures { Refuses (part_servers_fault servers.now part.now) result }
{
    let comment = comment_of(alloc, &part.comment)?;
    check_servers(alloc, servers, &comment)
}

#[tactic(auto, unfolding(crate::specs::Broken::unknown_part_server))]
fn check_part_servers(
    alloc: Global,
    servers: &Index,
    table: &TableEntry,
) -> Result<(), CatalogFault>
    ensures { Refuses (parts_servers_fault servers.now table.now) result }
{
    for part in table.parts.as_slice() {
        match check_servers_of(alloc, servers, part) {
            Ok(()) => {}
            Err(fault) => return Err(fault),
        }
    }
    Ok(())
}

fn bad_links(alloc: Global, table: &Text, part: &str) -> Result<CatalogFault, AllocError>
    ensures { IfOk result (λ fault. fault ≡ CatalogFault.BadLinks table.now part.now) }
{
    Ok(CatalogFault::BadLinks {
        table: Text::from_str(alloc, table.as_str())?,
        part: Text::from_str(alloc, part)?,
    })
}

fn is_whole(table: &TableEntry) -> bool
    ensures { result ≡ not_cut table.now.partition table.now.parts }
{
    match &table.partition {
        Some(_rule) => false,
        None => table.parts.is_empty(),
    }
}

#[tactic(auto, unfolding(crate::specs::Broken::bad_links))]
fn check_own_links(alloc: Global, servers: &Index, table: &TableEntry) -> Result<(), CatalogFault>
    ensures { Refuses (own_fault servers.now table.now) result }
{
    if !is_whole(table) {
        return Ok(());
    }
    let Some(own) = comment_of(alloc, &table.comment)? else {
        return Ok(());
    };
    match own_links(alloc, servers, &table.name, &own)? {
        Some(_links) => Ok(()),
        None => Err(bad_links(alloc, &table.name, "-")?),
    }
}

fn check_links_of(
    alloc: Global,
    servers: &Index,
    table: &Text,
    own: &Comment,
    part: &PartEntry,
) -> Result<(), CatalogFault>
    ensures { Refuses (part_fault servers.now table.now own.now part.now) result }
{
    let Some(comment) = comment_of(alloc, &part.comment)? else {
        return Ok(());
    };
    match part_links(alloc, servers, table, own, &part.name, &comment)? {
        Some(_links) => Ok(()),
        None => Err(bad_links(alloc, table, part.name.as_str())?),
    }
}

fn check_each_links(
    alloc: Global,
    servers: &Index,
    table: &Text,
    own: &Comment,
    parts: &[PartEntry],
) -> Result<(), CatalogFault>
    ensures { Refuses (first (part_fault servers.now table.now own.now) parts.now) result }
{
    for part in parts {
        match check_links_of(alloc, servers, table, own, part) {
            Ok(()) => {}
            Err(fault) => return Err(fault),
        }
    }
    Ok(())
}

#[tactic(auto, unfolding(crate::specs::Broken::bad_part_links))]
fn check_part_links(alloc: Global, servers: &Index, table: &TableEntry) -> Result<(), CatalogFault>
    ensures { Refuses (parts_fault servers.now table.now) result }
{
    match comment_of(alloc, &table.comment)? {
        Some(own) => check_each_links(alloc, servers, &table.name, &own, table.parts.as_slice()),
        None => Ok(()),
    }
}

#[tactic(auto, unfolding(crate::specs::Broken::bad_bounds))]
fn check_bounds(alloc: Global, table: &TableEntry) -> Result<(), CatalogFault>
    ensures { Refuses (bounds_fault table.now) result }
{
    match bounds_break(alloc, table)? {
        Some(part) => Err(CatalogFault::BadBounds {
            table: Text::from_str(alloc, table.name.as_str())?,
            part: Text::from_str(alloc, part.as_str())?,
        }),
        None => Ok(()),
    }
}

#[tactic(auto, unfolding(crate::specs::Broken::bad_partition))]
fn check_partition(alloc: Global, table: &TableEntry) -> Result<(), CatalogFault>
    ensures { Refuses (partition_fault table.now) result }
{
    if is_bad_cut(table) {
        return Err(CatalogFault::BadPartition(Text::from_str(alloc, table.name.as_str())?));
    }
    Ok(())
}

fn check_table(
    alloc: Global,
    servers: &Index,
    check: Check,
    table: &TableEntry,
) -> Result<(), CatalogFault>
    ensures { Refuses (breaks servers.now check table.now) result }
{
    match check {
        Check::Names => check_names(alloc, table),
        Check::Columns => check_columns(alloc, table),
        Check::Key => check_key(alloc, table),
        Check::OwnComment => check_own_comment(alloc, table),
        Check::PartComments => check_part_comments(alloc, table),
        Check::OwnServers => check_own_servers(alloc, servers, table),
        Check::PartServers => check_part_servers(alloc, servers, table),
        Check::OwnLinks => check_own_links(alloc, servers, table),
        Check::PartLinks => check_part_links(alloc, servers, table),
        Check::Bounds => check_bounds(alloc, table),
        Check::Partition => check_partition(alloc, table),
    }
}

#[tactic(auto, unfolding(crate::specs::Broken::broken_by))]
fn check_tables(
    alloc: Global,
    servers: &Index,
    tables: &[TableEntry],
    check: Check,
) -> Result<(), CatalogFault>
    ensures { Refuses (broken_by servers.now tables.now check) result }
{
    for table in tables {
        match check_table(alloc, servers, check, table) {
            Ok(()) => {}
            Err(fault) => return Err(fault),
        }
    }
    Ok(())
}

fn check_rules(
    alloc: Global,
    servers: &Index,
    tables: &[TableEntry],
    rules: &[Check],
) -> Result<(), CatalogFault>
    ensures { Refuses (first (broken_by servers.now tables.now) rules.now) result }
{
    for rule in rules {
        match check_tables(alloc, servers, tables, *rule) {
            Ok(()) => {}
            Err(fault) => return Err(fault),
        }
    }
    Ok(())
}

/// Checks each rule over all tables before the next.
pub(crate) fn check_all(
    alloc: Global,
    servers: &Index,
    tables: &[TableEntry],
) -> Result<(), CatalogFault>
    ensures { Refuses (first (broken_by servers.now tables.now) all_rules) result }
{
    check_rules(alloc, servers, tables, &RULES)
}
