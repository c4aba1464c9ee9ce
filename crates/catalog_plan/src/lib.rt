//! The plan of a statement over a catalog.
//!
//! [`plan`] finds the table that a statement names, and plans on it as `stmt_plan` does. A name that is no table's is the first thing that is refused
//! (`specs/Plans`).
#![tactic(auto)]

mod fault;
mod planning;

pub use fault::PlanFault;
pub use planning::plan;
