//! The store, as it is asked.

ghost use Rattle.std.specs.Prelude.{◌≡◌, [], true, IfOk, OnErr};
ghost use Rattle.branch_store.specs.Opening.{are_tables as are_definitions, empty_tables};
ghost use Rattle.branch_store.specs.Sound.{has_form};
ghost use Rattle.branch_store.specs.Store.{Store, store_step, hung_up, viewed};

use crate::books::Books;
use sql_text::{LinkAnswer, LinkRequest};
use sql_values::{Name, Rows, TableDefs, Xids};
use std::alloc::{AllocError, Global};
use std::marker::Model;

/// A backend's tables and the branches that live there.
#[derive(Drop)]
pub struct BranchStore {
    books: Books,
}

impl Model for BranchStore {
    ghost use Rattle.branch_store.specs.Sound.{IsSound};
    ghost use Rattle.branch_store.specs.Store.{Store};

    ghost Value = { Store };

    ghost view = { λ s. s.books };

    ghost invariant = { λ s. IsSound s.books };
}

impl BranchStore {
    /// The tables, without rows and branches.
    pub fn new(alloc: Global, tables: TableDefs) -> Result<BranchStore, AllocError>
        requires { are_definitions tables ≡ true }
        ensures { IfOk result (λ store. store ≡ record { tables = empty_tables tables; branches = [] }) }
    {
        let books = Books::new(alloc, tables)?;
        Ok(BranchStore { books })
    }

    /// Answers a request on a connection.
    ///
    /// Nothing changes where the request is refused, or where memory is wanting. The rows that a scan finds are rows of its table: each has a value for each
    /// column, of the column's kind, and no text of more than 1,024 bytes.
    pub fn ask(
        &mut self,
        alloc: Global,
        conn: u32,
        request: &LinkRequest,
    ) -> Result<LinkAnswer, AllocError>
        ensures step { IfOk result (λ answer. (self.new, answer) ≡ store_step self.old conn request.now) }
        ensures form { IfOk result (λ answer. has_form self.old request.now answer ≡ true) }
        ensures unchanged { OnErr result (self.new ≡ self.old) }
    {
        let answer = self.books.ask(alloc, conn, request)?;
        Ok(answer)
    }

    /// Drops the connection's branch, unless it is prepared, as where the connection ends. It takes no memory.
    pub fn hangup(&mut self, conn: u32)
        ensures { self.new ≡ hung_up self.old conn }
    {
        self.books.hangup(conn);
    }

    /// The committed rows of a table in the order of their keys, changed by the prepared branches of these names, one after the other. A name of no
    /// prepared branch changes nothing, and a table that isn't there has no rows.
    pub fn view(&self, alloc: Global, table: &Name, xids: &Xids) -> Result<Rows, AllocError>
        ensures { IfOk result (λ rows. rows ≡ viewed self.now table.now xids.now) }
    {
        self.books.view(alloc, table, xids)
    }
}
