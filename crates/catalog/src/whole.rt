ghost use Rattle.std.specs.Prelude.{◌≡◌, ◌<◌, ◌^◌, ◌++◌, ◌∷◌, List, ℕ, Some, None, IfOk, OnOk, length, map, slice_get, true};
ghost use Rattle.std.specs.Option.{option_map};
ghost use Rattle.sql_values.specs.declared.table.ColumnDef.{ColumnDef as Column};
ghost use Rattle.sql_values.specs.declared.table.Kind.TheVariants.{BigInt};
ghost use Rattle.part_rules.specs.KeyRows.{HasOwnKeyName};
ghost use Rattle.part_rules.specs.Placing.{IsRule, part_count as count_of_parts};
ghost use Rattle.catalog.specs.Index.{place_in};
ghost use Rattle.catalog.specs.Links.{are_links};
ghost use Rattle.catalog.specs.Shared.{host_name};
ghost use Rattle.catalog.specs.Views.{AreTables, IsTable, parts_at, table_name, remote_def as def_there, part_defs, table_defs, remote_defs, View};

use crate::copies::{copy_front, copy_hosts, copy_tables, copy_users};
use crate::index::Index;
use crate::{Link, Links, Part, Table};
use conf_file::{FrontEntry, HostEntries, HostEntry, UserEntries, UserEntry};
use list_types::{Listed, Text};
use part_rules::Rule;
use sql_values::{Name, PartNo, ServerNo, TableDef, TableDefs, TableNo};
use std::alloc::{AllocError, Global};
use std::marker::Model;

/// A front, its users, servers, monitors and tables, as a configuration gives them.
///
/// Contracts see it as a record of lists in file order. Each table's key is a BIGINT column with a name of its own, its rule has a partition
/// for each of its places, and each partition has one link to four, on different servers of the catalog, one of which is OK.
#[derive(Drop)]
pub struct Catalog {
    front: FrontEntry,
    users: UserEntries,
    servers: HostEntries,
    monitors: HostEntries,
    tables: Listed<Table>,
    server_places: Index,
    table_places: Index,
}

impl Model for Catalog {
    ghost use Rattle.std.specs.Prelude.{◌≡◌, ◌<◌, ◌^◌, length, map};
    ghost use Rattle.catalog.specs.Shared.{host_name};
    ghost use Rattle.catalog.specs.Views.{View, AreTables, table_name};

    ghost Value = { View };

    ghost view = { λ c. record { front = c.front; users = c.users; servers = c.servers; monitors = c.monitors; tables = c.tables } };

    ghost invariant = { λ c. (c.server_places ≡ map host_name c.servers) × (c.table_places ≡ map table_name c.tables) × AreTables (length c.servers) c.tables };
}

/// The names of servers or monitors.
pub(crate) fn host_names(alloc: Global, hosts: &[HostEntry]) -> Result<Listed<Text>, AllocError>
    ensures { IfOk result (λ names. names ≡ map host_name hosts.now) }
{
    let mut names = Listed::new(alloc);
    for host in hosts {
        names.push(host.name.clone()?)?;
    }
    Ok(names)
}

fn table_names(alloc: Global, tables: &[Table]) -> Result<Listed<Text>, AllocError>
    ensures { IfOk result (λ names. names ≡ map table_name tables.now) }
{
    let mut names = Listed::new(alloc);
    for table in tables {
        names.push(Text::from_str(alloc, table.def.name.as_str())?)?;
    }
    Ok(names)
}

fn add_part(
    server: ServerNo,
    def: &TableDef,
    part: &Part,
    defs: &mut TableDefs,
) -> Result<(), AllocError>
    ensures { OnOk result (defs.new ≡ defs.old ++ part_defs server def.now part.now) }
{
    for link in part.links.as_slice() {
        if link.server == server {
            defs.push(remote_def(def, link)?)?;
        }
    }
    Ok(())
}

/// The definition of a table under its name on a link.
fn remote_def(def: &TableDef, link: &Link) -> Result<TableDef, AllocError>
    ensures { IfOk result (λ there. there ≡ record def.now { name = link.now.remote }) }
{
    Ok(TableDef {
        name: link.remote.clone()?,
        columns: def.columns.clone()?,
        key: def.key,
    })
}

fn add_table(server: ServerNo, table: &Table, defs: &mut TableDefs) -> Result<(), AllocError>
    ensures { OnOk result (defs.new ≡ defs.old ++ table_defs server table.now) }
{
    for part in table.parts.as_slice() {
        add_part(server, &table.def, part, defs)?;
    }
    Ok(())
}

impl Catalog {
    /// The catalog of these entries and tables.
    pub(crate) fn new(
        alloc: Global,
        front: FrontEntry,
        users: UserEntries,
        servers: HostEntries,
        monitors: HostEntries,
        tables: Listed<Table>,
    ) -> Result<Catalog, AllocError>
        requires servers { length servers < 2 ^ 32 }
        requires tables { length tables < 2 ^ 32 }
        requires sound { AreTables (length servers) tables }
        ensures { IfOk result (λ made. made ≡ record { front = front; users = users; servers = servers; monitors = monitors; tables = tables }) }
    {
        let server_places = Index::new(alloc, host_names(alloc, servers.as_slice())?)?;
        let table_places = Index::new(alloc, table_names(alloc, tables.as_slice())?)?;
        Ok(Catalog {
            front,
            users,
            servers,
            monitors,
            tables,
            server_places,
            table_places,
        })
    }

    /// An equal catalog.
    pub fn copy(&self, alloc: Global) -> Result<Catalog, AllocError>
        ensures { IfOk result (λ copy. copy ≡ self.now) }
    {
        Ok(Catalog {
            front: copy_front(&self.front)?,
            users: copy_users(&self.users)?,
            servers: copy_hosts(&self.servers)?,
            monitors: copy_hosts(&self.monitors)?,
            tables: copy_tables(alloc, self.tables.as_slice())?,
            server_places: self.server_places.copy(alloc)?,
            table_places: self.table_places.copy(alloc)?,
        })
    }

    /// The definition of each link's table on this server, under its name there, in catalog order.
    pub fn remotes(&self, alloc: Global, server: ServerNo) -> Result<TableDefs, AllocError>
        ensures { IfOk result (λ defs. defs ≡ remote_defs server self.now.tables) }
    {
        let mut defs = Listed::new(alloc);
        for table in self.tables.as_slice() {
            add_table(server, table, &mut defs)?;
        }
        Ok(defs)
    }

    /// The front's own entry.
    pub fn front(&self) -> &FrontEntry
        ensures { result.now ≡ self.now.front }
    {
        &self.front
    }

    /// Who may log in, in file order.
    pub fn users(&self) -> &[UserEntry]
        ensures { result.now ≡ self.now.users }
    {
        self.users.as_slice()
    }

    /// The servers, in file order; a server's place is its number.
    pub fn servers(&self) -> &[HostEntry]
        ensures { result.now ≡ self.now.servers }
    {
        self.servers.as_slice()
    }

    /// The monitors, in file order.
    pub fn monitors(&self) -> &[HostEntry]
        ensures { result.now ≡ self.now.monitors }
    {
        self.monitors.as_slice()
    }

    /// The tables, in file order; a table's place is its number.
    pub fn tables(&self) -> &[Table]
        ensures all { result.now ≡ self.now.tables }
        ensures sound { AreTables (length self.now.servers) self.now.tables }
    {
        self.tables.as_slice()
    }

    /// The server of this name. It takes no walk.
    pub fn server(&self, name: &Name) -> Option<ServerNo>
        ensures { result ≡ place_in (map host_name self.now.servers) name.now }
    {
        self.server_places.place(name.as_str())
    }

    /// The table of this name. It takes no walk.
    pub fn table(&self, name: &Name) -> Option<TableNo>
        ensures { result ≡ place_in (map table_name self.now.tables) name.now }
    {
        self.table_places.place(name.as_str())
    }

    fn entry(&self, table: TableNo) -> &Table
        requires { table < length self.now.tables }
        ensures value { slice_get self.now.tables table ≡ Some result.now }
        ensures sound { IsTable (length self.now.servers) result.now }
    {
        &self.tables.as_slice()[table as usize]
    }

    /// A table's definition.
    pub fn def(&self, table: TableNo) -> &TableDef
        requires { table < length self.now.tables }
        ensures value { option_map (λ t. t.def) (slice_get self.now.tables table) ≡ Some result.now }
        ensures key_within { result.now.key < length result.now.columns }
        ensures key { (column : Column) → slice_get result.now.columns result.now.key ≡ Some column → column.kind ≡ BigInt }
        ensures own_name { HasOwnKeyName result.now }
    {
        &self.entry(table).def
    }

    /// How a table is cut.
    pub fn rule(&self, table: TableNo) -> &Rule
        requires { table < length self.now.tables }
        ensures value { option_map (λ t. t.rule) (slice_get self.now.tables table) ≡ Some result.now }
        ensures sound { IsRule result.now }
    {
        &self.entry(table).rule
    }

    /// A table's partitions, in order; there is one for each place of its rule.
    pub fn parts(&self, table: TableNo) -> &[Part]
        requires { table < length self.now.tables }
        ensures value { result.now ≡ parts_at self.now.tables table }
        ensures count { option_map (λ t. count_of_parts t.rule) (slice_get self.now.tables table) ≡ Some (length result.now) }
        ensures sound { (p : ℕ) (part : Part) → slice_get result.now p ≡ Some part → are_links (length self.now.servers) part.links ≡ true }
    {
        self.entry(table).parts.as_slice()
    }

    /// The links of a partition.
    pub fn links(&self, table: TableNo, part: PartNo) -> &Links
        requires table { table < length self.now.tables }
        requires part { part < length (parts_at self.now.tables table) }
        ensures value { option_map (λ p. p.links) (slice_get (parts_at self.now.tables table) part) ≡ Some result.now }
        ensures sound { are_links (length self.now.servers) result.now ≡ true }
    {
        &self.parts(table)[part as usize].links
    }

    /// A partition's name, or None for the one partition of a table without partitions.
    pub fn part_name(&self, table: TableNo, part: PartNo) -> Option<&Name>
        requires table { table < length self.now.tables }
        requires part { part < length (parts_at self.now.tables table) }
        ensures { option_map (λ p. p.name) (slice_get (parts_at self.now.tables table) part) ≡ Some (option_map (λ r. r.now) result) }
    {
        match &self.parts(table)[part as usize].name {
            Some(name) => Some(name),
            None => None,
        }
    }
}
