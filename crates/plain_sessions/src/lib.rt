//! What a front's clients see: sessions on plain tables, where nothing is sharded.
//!
//! The tables of a configuration are lists of rows by key, one list a table. `specs/Exec` has what a statement's text answers on them, and what it leaves;
//! `specs/Solo` a session of statements, one after the other; `specs/Serial` transactions that are a run of these tables. Of links a statement's
//! limits alone speak: so much may be written at a server. `specs/Held` has what each backend holds of the tables.
#![tactic(auto)]
