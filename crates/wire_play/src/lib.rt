//! One session of packets, on a front and its servers in memory.
//!
//! [`wire`] serves a client over its two ends, from the first command on. The front's servers are [`Servers`], a store each. Each statement of the session
//! is answered as in a plain session, where no answer says that memory is wanting (`specs/Wires`), by the law of `wire_law`.
#![tactic(auto)]

mod serve;
mod servers;

pub use serve::{WireEnd, wire};
pub use servers::{Servers, new_stores};
