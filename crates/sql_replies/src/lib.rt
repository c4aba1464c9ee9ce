//! What a client is answered: a [`Reply`](my_messages::Reply) for each outcome of a statement, and for each fault that it has.
//!
//! [`parse_reply`], [`plan_reply`] and [`no_table`] are for statements that are refused before a server is asked, [`outcome_reply`] for those that
//! were at work, [`admin_reply`] for questions about the server, and [`log_full`], [`no_memory`] and [`done`] for what the front itself has to say.
//!
//! Numbers below 2,000 and their SQLSTATEs are those of the MySQL Server Error Message Reference; the texts, and the numbers from 14001 on with the
//! state `HY000`, are this front's own (`specs/Errors`). A result has the definitions and the rows of the MySQL protocol's text resultset
//! (`specs/Results`, and of no table `specs/Admin`). Each reply fits its packets, a result where it has 1 to 900 columns and no text of more than 1,024 bytes (`specs/Outcomes`).
#![tactic(auto)]

mod admin;
mod errors;
mod faults;
pub mod laws;
mod outcomes;
mod results;

pub use admin::admin_reply;
pub use errors::{done, log_full, no_memory, no_table};
pub use faults::{parse_reply, plan_reply};
pub use outcomes::outcome_reply;
