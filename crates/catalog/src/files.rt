ghost use Rattle.std.specs.Prelude.{◌≡◌, ◌<◌, ◌^◌, ◌⊎◌, Some, None, IfOk, IfErr, length};
ghost use Rattle.catalog.specs.Files.{broken_table, broken, IsCatalogOf};
ghost use Rattle.catalog.specs.Tables.{server_names, catalog_entries};

use crate::checks::check_all;
use crate::index::Index;
use crate::shared::check_remotes;
use crate::tables::tables_of;
use crate::whole::host_names;
use crate::{Catalog, CatalogFault, Table};
use conf_file::ConfFile;
use list_types::Listed;
use std::alloc::{AllocError, Global};

/// The names of a file's servers.
fn server_index(alloc: Global, file: &ConfFile) -> Result<Index, AllocError>
    requires { length file.now.servers < 2 ^ 32 }
    ensures { IfOk result (λ servers. servers ≡ server_names file.now) }
{
    let names = host_names(alloc, file.servers.as_slice())?;
    Index::new(alloc, names)
}

/// The tables of a file that breaks no rule of tables.
fn sound_tables(
    alloc: Global,
    servers: &Index,
    file: &ConfFile,
) -> Result<Listed<Table>, CatalogFault>
    requires { servers.now ≡ server_names file.now }
    ensures unbroken { IfOk result (λ _. broken_table file.now ≡ None) }
    ensures ok { IfOk result (λ tables. catalog_entries file.now ≡ Some tables) }
    ensures err { IfErr result (λ fault. (fault ≡ CatalogFault.NoMemory) ⊎ (broken_table file.now ≡ Some fault)) }
{
    match check_all(alloc, servers, file.tables.as_slice()) {
        Ok(()) => {}
        Err(fault) => return Err(fault),
    }
    match tables_of(alloc, servers, file.tables.as_slice())? {
        Some(tables) => Ok(tables),
        None => unreachable!(),
    }
}

/// The tables of a file that breaks no rule.
fn checked_tables(alloc: Global, file: &ConfFile) -> Result<Listed<Table>, CatalogFault>
    requires { length file.now.servers < 2 ^ 32 }
    ensures unbroken { IfOk result (λ _. broken file.now ≡ None) }
    ensures ok { IfOk result (λ tables. catalog_entries file.now ≡ Some tables) }
    ensures err { IfErr result (λ fault. (fault ≡ CatalogFault.NoMemory) ⊎ (broken file.now ≡ Some fault)) }
{
    let servers = server_index(alloc, file)?;
    let tables = match sound_tables(alloc, &servers, file) {
        Ok(tables) => tables,
        Err(fault) => return Err(fault),
    };
    match check_remotes(alloc, file.servers.as_slice(), tables.as_slice()) {
        Ok(()) => Ok(tables),
        Err(fault) => Err(fault),
    }
}

/// The catalog of a file's entries, where they break no rule; else the fault of the rule that they break first. Each rule is checked
/// over the whole file before the next, over all tables before their partitions, and the first place that breaks it is told.
/// `NoMemory` may come in place of either.
pub fn catalog_of(alloc: Global, file: ConfFile) -> Result<Catalog, CatalogFault>
    requires servers { length file.servers < 2 ^ 32 }
    requires tables { length file.tables < 2 ^ 32 }
    ensures unbroken { IfOk result (λ _. broken file ≡ None) }
    ensures ok { IfOk result (λ catalog. IsCatalogOf file catalog) }
    ensures err { IfErr result (λ fault. (fault ≡ CatalogFault.NoMemory) ⊎ (broken file ≡ Some fault)) }
{
    let tables = match checked_tables(alloc, &file) {
        Ok(tables) => tables,
        Err(fault) => return Err(fault),
    };
    let ConfFile {
        front,
        users,
        servers,
        monitors,
        tables: _entries,
    } = file;
    Ok(Catalog::new(alloc, front, users, servers, monitors, tables)?)
}
