//! A front's sessions with its clients.
//!
//! [`serve_session`] serves one client over any [`my_wire::Stream`], on a front whose tables lie on any [`Backs`]: it reads commands, makes the
//! front's events, asks the servers what the front asks for, and writes the replies. What it writes is the session's bytes, a definition over the
//! client's bytes and the outputs of the session's events (`specs/Session.antt`), in whatever pieces they come.
#![tactic(auto)]

mod backs;
mod replies;
mod serve;
mod session;
mod statement;

pub use backs::Backs;
pub use serve::serve_session;

/// What the sessions of a front share.
pub type Kernel = front_core::FrontState;
