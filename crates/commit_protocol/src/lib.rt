//! The commit protocol as a pure machine: definitions alone, no code.
//!
//! What it is for: to say once, apart from SQL, packets, sessions and disks, how transactions over several servers are
//! locked, prepared, decided and installed (strict two-phase locking, two-phase commit with presumed abort), how redundant
//! links fall, come back and are copied to, and what stops and lost connections leave.
//!
//! How it is used: a state, a list of moves, and `happens`, a total function; a move whose guard fails leaves the state as it
//! is. `protocol_law` proves what holds of every run at each server, `replica_law` what holds of the links and of the plain
//! table. The front's core, the backends and the schedule player cite these definitions by name.
//!
//! What it promises: nothing by itself; the laws are contracts of the two crates above.
#![tactic(auto)]
