//! The rules of names: none is taken. Names are looked up in an ordered set.

ghost use Rattle.std.specs.Prelude.{◌≡◌, if◌then◌else◌, Some, None, OnOk, map};
ghost use Rattle.std.specs.Option.{option_map};
ghost use Rattle.conf_file.specs.Files.{Tells};
ghost use Rattle.conf_file.specs.Keys.{first_some};
ghost use Rattle.conf_file.specs.Names.{all_free, with_name, first_taken, column_names, taken_in_users, taken_in_hosts, taken_in_tables, is_among, system_tables, taken_in_parts, repeated_name};
ghost use Rattle.conf_file.specs.Taken.{is_taken};

use crate::column::column_name;
use crate::taken::TakenNames;
use crate::{ConfFile, FileFault, HostEntry, PartEntry, TableEntry, UserEntry};
use list_types::Text;
use std::alloc::Global;

/// What has a name in a space of names.
trait Named {
    ghost use Rattle.std.specs.Prelude.{◌≡◌, ℕ, List};

    ghost name_of: { Self → List ℕ };

    fn name(&self) -> &str
        ensures { result.now ≡ name_of self.now };
}

impl Named for UserEntry {
    ghost name_of = { λ user. user.name };

    fn name(&self) -> &str {
        self.name.as_str()
    }
}

impl Named for HostEntry {
    ghost name_of = { λ host. host.name };

    fn name(&self) -> &str {
        self.name.as_str()
    }
}

impl Named for PartEntry {
    ghost name_of = { λ part. part.name };

    fn name(&self) -> &str {
        self.name.as_str()
    }
}

/// Takes a name, which has to be free.
fn take_free(alloc: Global, names: &mut TakenNames, name: &str) -> Result<(), FileFault>
    ensures told { Tells (if is_taken names.old name.now then Some (FileFault.RepeatedName name.now) else None) result }
    ensures taken { OnOk result (is_taken names.new ≡ with_name name.now (is_taken names.old)) }
{
    if names.take(alloc, name)? {
        return Ok(());
    }
    Err(FileFault::RepeatedName(Text::from_str(alloc, name)?))
}

/// Checks a space of names.
fn check_space<T: Named>(alloc: Global, entries: &[T]) -> Result<(), FileFault>
    ensures { Tells (option_map FileFault.RepeatedName (first_taken all_free (map T.name_of entries.now))) result }
{
    let mut names = TakenNames::new(alloc);
    for entry in entries {
        take_free(alloc, &mut names, entry.name())?;
    }
    Ok(())
}

#[tactic(auto, unfolding(crate::specs::Names::taken_in_users))]
fn check_users(alloc: Global, users: &[UserEntry]) -> Result<(), FileFault>
    ensures { Tells (option_map FileFault.RepeatedName (taken_in_users users.now)) result }
{
    check_space(alloc, users)
}

#[tactic(auto, unfolding(crate::specs::Names::taken_in_hosts))]
fn check_hosts(alloc: Global, hosts: &[HostEntry]) -> Result<(), FileFault>
    ensures { Tells (option_map FileFault.RepeatedName (taken_in_hosts hosts.now)) result }
{
    check_space(alloc, hosts)
}

/// Checks the columns of a table. A text that is no column has no name.
fn check_columns(alloc: Global, columns: &[Text]) -> Result<(), FileFault>
    ensures { Tells (option_map FileFault.RepeatedName (first_taken all_free (column_names columns.now))) result }
{
    let mut names = TakenNames::new(alloc);
    for column in columns {
        let Some(name) = column_name(column.as_str()) else {
            continue;
        };
        take_free(alloc, &mut names, name)?;
    }
    Ok(())
}

fn check_tables(alloc: Global, tables: &[TableEntry]) -> Result<(), FileFault>
    ensures { Tells (option_map FileFault.RepeatedName (taken_in_tables (is_among system_tables) tables.now)) result }
{
    let mut names = TakenNames::of_system_tables(alloc)?;
    for table in tables {
        take_free(alloc, &mut names, table.name.as_str())?;
        check_columns(alloc, table.columns.as_slice())?;
    }
    Ok(())
}

fn check_parts(alloc: Global, tables: &[TableEntry]) -> Result<(), FileFault>
    ensures { Tells (option_map FileFault.RepeatedName (first_some taken_in_parts tables.now)) result }
{
    for table in tables {
        check_space(alloc, table.parts.as_slice())?;
    }
    Ok(())
}

/// Checks that no name is taken.
#[tactic(auto, unfolding(crate::specs::Names::repeated_name))]
pub(crate) fn check_repeats(alloc: Global, file: &ConfFile) -> Result<(), FileFault>
    ensures { Tells (option_map FileFault.RepeatedName (repeated_name file.now)) result }
{
    check_users(alloc, file.users.as_slice())?;
    check_hosts(alloc, file.servers.as_slice())?;
    check_hosts(alloc, file.monitors.as_slice())?;
    check_tables(alloc, file.tables.as_slice())?;
    check_parts(alloc, file.tables.as_slice())
}
