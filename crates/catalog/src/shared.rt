//! The remote tables on which links lie: no two links share one.
ghost use Rattle.std.specs.Prelude.{◌≡◌, ◌++◌, ◌∷◌, [], List, OnOk, IfOk};
ghost use Rattle.std.specs.Option.{option_map};
ghost use Rattle.catalog.specs.Broken.{Refuses};
ghost use Rattle.catalog.specs.Shared.{remote_of as place_of, part_remotes, table_remotes, all_remotes as places_of, is_same, repeated_from, shared as first_shared, name_at, shared_remote};

use crate::{CatalogFault, Link, Part, Table};
use conf_file::HostEntry;
use list_types::Text;
use sql_values::{Name, ServerNo};
use std::alloc::{AllocError, Global};
use std::collections::HashSet;

/// A table on a server.
#[derive(Clone, Debug, PartialEq, Eq, Hash, Drop)]
pub(crate) struct Remote {
    pub(crate) server: ServerNo,
    pub(crate) name: Name,
}

fn remote_of(link: &Link) -> Result<Remote, AllocError>
    ensures { IfOk result (λ remote. remote ≡ place_of link.now) }
{
    Ok(Remote {
        server: link.server,
        name: link.remote.clone()?,
    })
}

fn add_part(part: &Part, remotes: &mut Vec<Remote>) -> Result<(), AllocError>
    ensures { OnOk result (remotes.new.items ≡ remotes.old.items ++ part_remotes part.now) }
{
    for link in part.links.as_slice() {
        remotes.push(remote_of(link)?)?;
    }
    Ok(())
}

fn add_table(table: &Table, remotes: &mut Vec<Remote>) -> Result<(), AllocError>
    ensures { OnOk result (remotes.new.items ≡ remotes.old.items ++ table_remotes table.now) }
{
    for part in table.parts.as_slice() {
        add_part(part, remotes)?;
    }
    Ok(())
}

fn all_remotes(alloc: Global, tables: &[Table]) -> Result<Vec<Remote>, AllocError>
    ensures { IfOk result (λ remotes. remotes.items ≡ places_of tables.now) }
{
    let mut remotes = Vec::new(alloc);
    for table in tables {
        add_table(table, &mut remotes)?;
    }
    Ok(remotes)
}

/// The first remote table that stands among those in front of it.
fn first_repeated(alloc: Global, remotes: &[Remote]) -> Result<Option<&Remote>, AllocError>
    ensures { IfOk result (λ found. option_map (λ r. r.now) found ≡ repeated_from is_same [] remotes.now) }
{
    let mut seen = HashSet::new(alloc);
    for remote in remotes {
        if seen.contains(remote) {
            return Ok(Some(remote));
        }
        seen.insert(remote.clone()?)?;
    }
    Ok(None)
}

fn server_name(servers: &[HostEntry], server: ServerNo) -> &str
    ensures { result.now ≡ name_at servers.now server }
{
    match servers.get(server as usize) {
        Some(host) => host.name.as_str(),
        None => "",
    }
}

/// Checks that no two links share a remote table.
#[tactic(auto, unfolding(crate::specs::Shared::shared))]
pub(crate) fn check_remotes(
    alloc: Global,
    servers: &[HostEntry],
    tables: &[Table],
) -> Result<(), CatalogFault>
    ensures { Refuses (shared_remote servers.now tables.now) result }
{
    let remotes = all_remotes(alloc, tables)?;
    match first_repeated(alloc, remotes.as_slice())? {
        Some(remote) => Err(CatalogFault::SharedRemote {
            server: Text::from_str(alloc, server_name(servers, remote.server))?,
            remote: Text::from_str(alloc, remote.name.as_str())?,
        }),
        None => Ok(()),
    }
}
