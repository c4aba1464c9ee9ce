//! The links that comments name.
ghost use Rattle.std.specs.Prelude.{◌≡◌, ◌&&◌, nat_le, nat_lt, List, ℕ, length, map, replicate, unwrap_or, option_and_then, IfOk, nat_eq};
ghost use Rattle.std.specs.List.{list_any, list_all};
ghost use Rattle.std.specs.Option.{option_map, option_or};
ghost use Rattle.catalog.specs.Index.{place_in};
ghost use Rattle.catalog.specs.Links.{overlaid, spread as spread_over, remotes_for as remotes_meant, statuses_for as statuses_meant, linked as linking, is_ok as ok_status, differ, are_links as form_links, links_of as links_meant, with_servers, with_remotes, with_statuses, tested};
ghost use Rattle.catalog.specs.Searches.{each, name_of as name_meant};

use crate::columns::name_of;
use crate::comment::Comment;
use crate::index::Index;
use crate::{Link, Links, Status};
use list_types::{Listed, Text};
use sql_values::{Name, ServerNo};
use std::alloc::{AllocError, Global};

/// The most links of a partition.
const MOST_LINKS: usize = 4;

/// The first of two lists that is there.
fn choose<'a, T>(first: &'a Option<Listed<T>>, second: &'a Option<Listed<T>>) -> Option<&'a [T]>
    ensures { option_map (λ r. r.now) result ≡ option_or first.now second.now }
{
    match first {
        Some(list) => Some(list.as_slice()),
        None => match second {
            Some(list) => Some(list.as_slice()),
            None => None,
        },
    }
}

/// The servers of these names.
fn servers_of(
    alloc: Global,
    servers: &Index,
    names: &[Text],
) -> Result<Option<Vec<ServerNo>>, AllocError>
    ensures { IfOk result (λ found. option_map (λ v. v.items) found ≡ each (place_in servers.now) names.now) }
{
    let mut found = Vec::new(alloc);
    for name in names {
        match servers.place(name.as_str()) {
            Some(server) => found.push(server)?,
            None => return Ok(None),
        }
    }
    Ok(Some(found))
}

/// A name, so many times.
fn repeated(alloc: Global, name: &Name, count: usize) -> Result<Vec<Name>, AllocError>
    ensures { IfOk result (λ names. names.items ≡ replicate count name.now) }
{
    let mut names = Vec::new(alloc);
    for _ in 0..count {
        names.push(name.clone()?)?;
    }
    Ok(names)
}

fn copied(alloc: Global, names: &[Name]) -> Result<Vec<Name>, AllocError>
    ensures { IfOk result (λ copies. copies.items ≡ names.now) }
{
    let mut copies = Vec::new(alloc);
    for name in names {
        copies.push(name.clone()?)?;
    }
    Ok(copies)
}

/// One name for all of so many links, or one for each.
fn spread(alloc: Global, count: usize, names: &[Name]) -> Result<Option<Vec<Name>>, AllocError>
    ensures { IfOk result (λ found. option_map (λ v. v.items) found ≡ spread_over count names.now) }
{
    match names {
        [] => Ok(None),
        [name] => Ok(Some(repeated(alloc, name, count)?)),
        [_first, _second, ..] => {
            if names.len() == count {
                Ok(Some(copied(alloc, names)?))
            } else {
                Ok(None)
            }
        }
    }
}

/// The remote names of so many links.
fn remotes_for(
    alloc: Global,
    default: &Text,
    count: usize,
    names: Option<&[Name]>,
) -> Result<Option<Vec<Name>>, AllocError>
    ensures { IfOk result (λ found. option_map (λ v. v.items) found ≡ remotes_meant default.now count (option_map (λ r. r.now) names.entry)) }
{
    match names {
        Some(names) => spread(alloc, count, names),
        None => match name_of(alloc, default)? {
            Some(name) => Ok(Some(repeated(alloc, &name, count)?)),
            None => Ok(None),
        },
    }
}

/// The statuses of so many links.
fn statuses_for(
    alloc: Global,
    count: usize,
    statuses: Option<&[Status]>,
) -> Result<Option<Vec<Status>>, AllocError>
    ensures { IfOk result (λ found. option_map (λ v. v.items) found ≡ statuses_meant count (option_map (λ r. r.now) statuses.entry)) }
{
    match statuses {
        Some(statuses) => {
            if statuses.len() == count {
                Ok(Some(statuses.to_vec(alloc)?))
            } else {
                Ok(None)
            }
        }
        None => Ok(Some(all_ok(alloc, count)?)),
    }
}

fn all_ok(alloc: Global, count: usize) -> Result<Vec<Status>, AllocError>
    ensures { IfOk result (λ statuses. statuses.items ≡ replicate count Status.Ok) }
{
    let mut statuses = Vec::new(alloc);
    for _ in 0..count {
        statuses.push(Status::Ok)?;
    }
    Ok(statuses)
}

/// A link for each server.
fn linked(
    alloc: Global,
    monitored: bool,
    servers: &[ServerNo],
    remotes: &[Name],
    statuses: &[Status],
) -> Result<Links, AllocError>
    ensures { IfOk result (λ links. links ≡ linking monitored servers.now remotes.now statuses.now) }
{
    let mut links = Listed::new(alloc);
    for (i, server) in servers.iter().enumerate() {
        if i >= remotes.len() {
            return Ok(links);
        }
        if i >= statuses.len() {
            return Ok(links);
        }
        let link = Link {
            server: *server,
            remote: remotes[i].clone()?,
            first: statuses[i],
            monitored,
        };
        links.push(link)?;
    }
    Ok(links)
}

/// Whether a link with this status is read and written.
pub(crate) fn is_ok(status: Status) -> bool
    ensures { result ≡ ok_status status }
{
    match status {
        Status::Ok => true,
        Status::Recovery => false,
        Status::Ng => false,
    }
}

fn has_server(server: ServerNo, links: &[Link]) -> bool
    ensures { result ≡ list_any (nat_eq server) (map (λ l. l.server) links.now) }
{
    for link in links {
        if server == link.server {
            return true;
        }
    }
    false
}

fn servers_differ(links: &[Link]) -> bool
    ensures { result ≡ differ (map (λ l. l.server) links.now) }
{
    for (i, link) in links.iter().enumerate() {
        if has_server(link.server, links.split_at(i + 1).1) {
            return false;
        }
    }
    true
}

fn has_ok(links: &[Link]) -> bool
    ensures { result ≡ list_any (λ l. ok_status l.first) links.now }
{
    links.iter().any(|link| is_ok(link.first))
}

fn are_within(servers: usize, links: &[Link]) -> bool
    ensures { result ≡ list_all (λ l. nat_lt l.server servers) links.now }
{
    links.iter().all(|link| (link.server as usize) < servers)
}

fn is_link_count(count: usize) -> bool
    ensures { result ≡ (nat_le 1 count && nat_le count 4) }
{
    1 <= count && count <= MOST_LINKS
}

/// Whether these are the links of a partition, on so many servers.
fn are_links(servers: usize, links: &[Link]) -> bool
    ensures { result ≡ form_links servers links.now }
{
    is_link_count(links.len())
        && (servers_differ(links) && (has_ok(links) && are_within(servers, links)))
}

fn tested_links(servers: usize, links: Links) -> Option<Links>
    ensures { result ≡ tested servers links }
{
    if are_links(servers, links.as_slice()) {
        Some(links)
    } else {
        None
    }
}

/// The links that a partition's comment names over its table's. A remote table is named `default` where the comments name none.
#[tactic(auto, unfolding(crate::specs::Links::links_of))]
pub(crate) fn links_of(
    alloc: Global,
    servers: &Index,
    default: &Text,
    table: &Comment,
    part: &Comment,
) -> Result<Option<Links>, AllocError>
    ensures { IfOk result (λ found. found ≡ links_meant servers.now default.now (overlaid table.now part.now)) }
{
    let names = choose(&part.servers, &table.servers).unwrap_or(&[]);
    if names.len() > MOST_LINKS {
        return Ok(None);
    }
    let Some(numbers) = servers_of(alloc, servers, names)? else {
        return Ok(None);
    };
    let remotes = choose(&part.remotes, &table.remotes);
    let Some(remotes) = remotes_for(alloc, default, numbers.len(), remotes)? else {
        return Ok(None);
    };
    let statuses = choose(&part.statuses, &table.statuses);
    let Some(statuses) = statuses_for(alloc, numbers.len(), statuses)? else {
        return Ok(None);
    };
    let monitored = part.monitored.or(table.monitored).unwrap_or(true);
    let links = linked(
        alloc,
        monitored,
        numbers.as_slice(),
        remotes.as_slice(),
        statuses.as_slice(),
    )?;
    Ok(tested_links(servers.len(), links))
}
