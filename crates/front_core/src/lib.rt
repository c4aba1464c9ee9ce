//! The front's core: one step an event.
//!
//! [`FrontState`] is all that a front remembers; [`FrontState::step`] makes one [`Event`] and gives out, as data, what it asks for and tells: requests to
//! servers, decisions, acknowledgements, answers to clients. Nothing here waits, reads or writes. A step is exactly one of the relation `IsStep` of
//! `specs/Core`; want of memory is an outcome of its own, [`Outputs::NoRoom`].
//!
//! Sessions are named by numbers, and each works on one statement at a time, a transaction by itself: its text is parsed and planned over the catalog
//! (`specs/Asked` has which partitions it asks), and then its [`Job`](txn_phases::Job) goes through the phases on the links of these
//! (`specs/Jobs`).
#![tactic(auto)]

mod event;
mod going;
mod outputs;
mod planning;
mod replying;
mod state;
mod targets;
mod texts;
mod work;

pub use event::{Event, Output, Outputs, TxNo};
pub use state::FrontState;
