//! Plain tables: what statements mean where nothing is sharded.
//!
//! A plain table is a list of rows whose keys rise. `specs/Rows` has it; `specs/Partitions` has the rows of a partition, and what it is to merge
//! lists of rows. [`laws`] say that what the partitions of a condition's keys have, merged, is what the plain table has.
#![tactic(auto)]

pub mod laws;
