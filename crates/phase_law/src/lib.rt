//! The law of phases: what a statement's transaction does to the servers' stores is the statement on the plain tables.
//!
//! A statement at work ([`Job`](txn_phases::Job)) sends requests in phases, and hears the answers of the servers' stores (`specs/Through`).
//! [`statements_go_through`] says that from stores that hold the plain tables it comes to its end, with the plain answer, and leaves stores that hold what the
//! statement leaves of the plain tables. No refusal of a store is met on the way.
#![tactic(auto)]

ghost use Rattle.phase_law.specs.Laws.{StatementsGoThrough, StatementsKeepTables, ConfigurationsCanBeServed};

/// A statement that breaks no rule goes through its phases to its plain answer.
pub fn statements_go_through()
    ensures { StatementsGoThrough }
{}

/// What a statement leaves of the plain tables is tables.
pub fn statements_keep_tables()
    ensures { StatementsKeepTables }
{}

/// The servers of every configuration that is accepted can hold its links' tables.
pub fn configurations_can_be_served()
    ensures { ConfigurationsCanBeServed }
{}
