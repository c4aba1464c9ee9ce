//! Schedules that a seed generates, and what is told of a transcript in short.
//!
//! [`Generator`] adds the lines of such a schedule one by one: statements of eight sessions on the tables of a configuration, by a few draws each.
//! `specs/Generated.antt` says which. [`summary`] counts a transcript's answers and decided transactions, and keeps its links
//! without their rows (`specs/Summary.antt`). [`cut_at`] cuts bytes into lines and words.
#![tactic(auto)]

mod counting;
mod cutting;
mod generator;
mod statements;

pub use counting::summary;
pub use cutting::cut_at;
pub use generator::{Generator, played_count};
