//! The runs that schedules name: a front, the stores of its servers, and what lies between them, line by line.
//!
//! Definitions, and a law about them. `specs/World` has what happens next, `specs/Schedule` what a line says, `specs/Run` the run of a schedule's lines and
//! its transcript, whose text is in `specs/Transcript`; `specs/History` has what a run tells of its transactions. [`laws::runs_are_plain`] says that each
//! run is that of a plain session over plain tables, and that the servers hold these tables at its end.
#![tactic(auto)]

pub mod laws;
mod schedule;

pub use schedule::LineRule;
