//! The law of sessions of packets over servers in memory.
//!
//! Definitions, and a law about them. `specs/Backing` has servers that are stores in memory, as [`front_node`]'s sessions ask them, and `specs/Wire`
//! the statements of such a session and their answers. [`wires_are_solo`] says that each answer is a plain session's to the same statements.
#![tactic(auto)]

ghost use Rattle.wire_law.specs.Wire.{WiresAreSolo};

/// A session of packets over servers in memory is answered as a plain session is.
pub fn wires_are_solo()
    ensures { WiresAreSolo }
{}
