//! The rules of names: each is one.

ghost use Rattle.std.specs.Prelude.{◌≡◌};
ghost use Rattle.conf_file.specs.Files.{Tells};
ghost use Rattle.conf_file.specs.Keys.{first_some};
ghost use Rattle.conf_file.specs.Names.{unless_good, front_fault, user_fault, server_fault, monitor_fault, table_fault, part_fault, parts_fault, bad_name, stored_fault, is_user};
ghost use Rattle.sql_values.specs.Names.{is_name as is_name_of};

use crate::texts::{is_short_name, is_stored};
use crate::{ConfFile, FileFault, HostEntry, PartEntry, TableEntry, UserEntry};
use list_types::Text;
use sql_values::is_name_text;
use std::alloc::Global;

/// No server has the name by which a transaction's history calls the front.
const FRONT: &str = "front";

fn check_good(alloc: Global, is_good: bool, name: &str) -> Result<(), FileFault>
    ensures { Tells (unless_good is_good name.now) result }
{
    if is_good {
        return Ok(());
    }
    Err(FileFault::BadName(Text::from_str(alloc, name)?))
}

fn is_name(text: &str) -> bool
    ensures { result ≡ is_name_of text.now }
{
    is_name_text(text.as_bytes())
}

fn has_user(users: &[UserEntry], name: &str) -> bool
    ensures { result ≡ is_user users.now name.now }
{
    for user in users {
        if user.name.as_str() == name {
            return true;
        }
    }
    false
}

fn check_front(alloc: Global, file: &ConfFile) -> Result<(), FileFault>
    ensures { Tells (front_fault file.now) result }
{
    let name = file.front.name.as_str();
    check_good(alloc, is_short_name(name), name)?;
    let user = file.front.user.as_str();
    check_good(alloc, has_user(file.users.as_slice(), user), user)
}

fn check_stored(alloc: Global, user: &UserEntry) -> Result<(), FileFault>
    ensures { Tells (stored_fault user.now) result }
{
    if is_stored(user.password.as_str()) {
        return Ok(());
    }
    Err(FileFault::BadStored(Text::from_str(alloc, user.name.as_str())?))
}

fn check_user(alloc: Global, user: &UserEntry) -> Result<(), FileFault>
    ensures { Tells (user_fault user.now) result }
{
    let name = user.name.as_str();
    check_good(alloc, is_name(name), name)?;
    check_stored(alloc, user)
}

fn check_users(alloc: Global, users: &[UserEntry]) -> Result<(), FileFault>
    ensures { Tells (first_some user_fault users.now) result }
{
    for user in users {
        check_user(alloc, user)?;
    }
    Ok(())
}

fn check_server(alloc: Global, server: &HostEntry) -> Result<(), FileFault>
    ensures { Tells (server_fault server.now) result }
{
    let name = server.name.as_str();
    check_good(alloc, is_short_name(name) && name != FRONT, name)
}

fn check_servers(alloc: Global, servers: &[HostEntry]) -> Result<(), FileFault>
    ensures { Tells (first_some server_fault servers.now) result }
{
    for server in servers {
        check_server(alloc, server)?;
    }
    Ok(())
}

fn check_monitors(alloc: Global, monitors: &[HostEntry]) -> Result<(), FileFault>
    ensures { Tells (first_some monitor_fault monitors.now) result }
{
    for monitor in monitors {
        let name = monitor.name.as_str();
        check_good(alloc, is_short_name(name), name)?;
    }
    Ok(())
}

fn check_tables(alloc: Global, tables: &[TableEntry]) -> Result<(), FileFault>
    ensures { Tells (first_some table_fault tables.now) result }
{
    for table in tables {
        let name = table.name.as_str();
        check_good(alloc, is_name(name), name)?;
    }
    Ok(())
}

fn check_parts(alloc: Global, parts: &[PartEntry]) -> Result<(), FileFault>
    ensures { Tells (first_some part_fault parts.now) result }
{
    for part in parts {
        let name = part.name.as_str();
        check_good(alloc, is_name(name), name)?;
    }
    Ok(())
}

fn check_all_parts(alloc: Global, tables: &[TableEntry]) -> Result<(), FileFault>
    ensures { Tells (first_some parts_fault tables.now) result }
{
    for table in tables {
        check_parts(alloc, table.parts.as_slice())?;
    }
    Ok(())
}

/// Checks that each name is one, and each password a stored form.
#[tactic(auto, unfolding(crate::specs::Names::bad_name))]
pub(crate) fn check_names(alloc: Global, file: &ConfFile) -> Result<(), FileFault>
    ensures { Tells (bad_name file.now) result }
{
    check_front(alloc, file)?;
    check_users(alloc, file.users.as_slice())?;
    check_servers(alloc, file.servers.as_slice())?;
    check_monitors(alloc, file.monitors.as_slice())?;
    check_tables(alloc, file.tables.as_slice())?;
    check_all_parts(alloc, file.tables.as_slice())
}
