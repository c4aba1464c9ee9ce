//! Which partition a key lies in, and which partitions a condition needs.
//!
//! A table is cut into partitions by its key, by a [`Rule`]: by RANGE, by LIST, by HASH, or not at all. [`part_of`] gives a key's partition.
//! [`keys_of`] gives the keys that a row may have for which a condition holds, and [`prune`] the partitions that own one of them; so a
//! statement's partitions are those of the keys of its condition, and no row is missed ([`laws::no_row_is_missed`]).
//!
//! Keys go as [`Intervals`](sql_values::Intervals), which rise. [`Bounds`] rise, so a key is found among them by halves, and [`Lists`] carry an index of their keys, made once.
//!
//! `specs/Rules.antt` says where a key lies, `specs/Keeps.antt` what a condition says of the key, `specs/Pruned.antt` which partitions are
//! needed, each in the terms of the MySQL Reference Manual's chapter "Partitioning".
#![tactic(auto)]

mod bounds;
mod condition_keys;
mod key_tests;
pub mod laws;
mod lists;
mod pruning;
mod rule;

pub use bounds::{Bound, Bounds};
pub use condition_keys::keys_of;
pub use lists::Lists;
pub use pruning::prune;
pub use rule::{Rule, part_of};
