//! A backend's rows and the branches of transactions that live there, in memory.
//!
//! A front asks a backend by [`LinkRequest`](sql_text::LinkRequest)s on connections. [`BranchStore::ask`] answers one; what it answers and leaves is one
//! function, `store_step` of `specs/Store`. A connection begins a branch, reads and changes rows in it, ends and prepares it; any connection may then commit it or
//! roll it back (X/Open XA). A branch's changes are kept beside the tables until then: a scan sees the committed rows after its own branch's changes, in the
//! order in which they were asked for (`specs/Changes`), and a commit leaves these rows to all.
//!
//! There are no locks and no log yet: branches may change the same rows, and what is committed later is on top.
#![tactic(auto)]

mod books;
mod branch;
mod branches;
mod checking;
mod counting;
mod fault;
pub mod laws;
mod opening;
mod recovering;
mod remote_table;
mod store;

pub use branch::{Branch, Change, Changes, Stage};
pub use fault::BranchFault;
pub use opening::{MOST_COLUMNS, are_tables};
pub use store::BranchStore;
