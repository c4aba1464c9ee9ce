// The servers of a configuration in memory.
ghost use Rattle.std.specs.Prelude.{◌≡◌, IfOk};
ghost use Rattle.catalog.specs.Views.{remote_defs};
ghost use Rattle.branch_store.specs.Laws.{at_rest};
ghost use Rattle.branch_store.specs.Opening.{empty_tables};
ghost use Rattle.plain_sessions.specs.Held.{CanBeServed};
ghost use Rattle.world_runs.specs.World.{new_stores};

use branch_store::BranchStore;
use catalog::Catalog;
use front_node::Backs;
use sql_text::{LinkAnswer, LinkRequest};
use sql_values::ServerNo;
use std::alloc::{AllocError, Global};
use std::marker::Model;

/// The connection of the one session.
const CONNECTION: u32 = 1;

/// The store of a server: each link's table without rows.
fn new_store(alloc: Global, catalog: &Catalog, server: ServerNo) -> Result<BranchStore, AllocError>
    requires { CanBeServed catalog.now }
    ensures { IfOk result (λ store. store ≡ at_rest (empty_tables (remote_defs server catalog.now.tables))) }
{
    BranchStore::new(alloc, catalog.remotes(alloc, server)?)
}

/// The stores of a configuration's servers as they start.
///
/// # Errors
///
/// Want of memory.
pub fn new_stores(alloc: Global, catalog: &Catalog) -> Result<Vec<BranchStore>, AllocError>
    requires { CanBeServed catalog.now }
    ensures { IfOk result (λ stores. stores.items ≡ new_stores catalog.now) }
{
    // A server's number has 32 bits.
    let Ok(count) = u32::try_from(catalog.servers().len()) else {
        return Err(AllocError);
    };
    let mut stores = Vec::new(alloc);
    for server in 0..count {
        stores.push(new_store(alloc, catalog, server)?)?;
    }
    Ok(stores)
}

/// The servers' stores, each at its server's number.
#[derive(Drop)]
pub struct Servers {
    stores: Vec<BranchStore>,
}

impl Model for Servers {
    ghost use Rattle.std.specs.Prelude.{List};
    ghost use Rattle.branch_store.specs.Store.{Store};

    ghost Value = { List Store };

    ghost view = { λ s. s.stores.items };
}

impl Servers {
    ghost use Rattle.std.specs.Prelude.{◌≡◌, IfOk};
    ghost use Rattle.plain_sessions.specs.Held.{CanBeServed};
    ghost use Rattle.world_runs.specs.World.{new_stores as new_servers};

    /// The servers of a configuration as they start: each link's table without rows.
    pub fn new(alloc: Global, catalog: &Catalog) -> Result<Servers, AllocError>
        requires { CanBeServed catalog.now }
        ensures { IfOk result (λ servers. servers ≡ new_servers catalog.now) }
    {
        Ok(Servers {
            stores: new_stores(alloc, catalog)?,
        })
    }
}

impl Backs for Servers {
    ghost use Rattle.wire_law.specs.Backing.{asks_store};

    ghost asks = { asks_store };

    /// A front asks no server that isn't there. It would be answered by want of memory.
    fn ask(
        &mut self,
        alloc: Global,
        server: ServerNo,
        request: &LinkRequest,
    ) -> Result<LinkAnswer, AllocError> {
        let Some(store) = self.stores.get_mut(server as usize) else {
            return Err(AllocError);
        };
        store.ask(alloc, CONNECTION, request)
    }
}
