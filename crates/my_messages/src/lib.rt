//! The messages of the MySQL client/server protocol, as values.
//!
//! A server answers each command with one [`Reply`]: an OK, an ERR, a result of rows, or the request to log in by another plugin.
//! [`decode_command`] and [`encode_command`] are for commands, [`encode_reply`] writes the packets of a reply, and a [`ReplyReader`]
//! takes payloads and gives replies: what it gives is what the payloads spell, no payload of a reply is refused, and a refusal
//! tells the first byte that no payload there with the same earlier bytes has ([`replies_are_read`], [`replies_are_written`]).
//! The names are those of the protocol's public documentation ("MySQL Client/Server Protocol", MySQL Source Code
//! Documentation).
#![tactic(auto)]

mod command;
mod encode;
mod fault;
mod fields;
mod laws;
mod reading;
mod reply;
mod reply_reader;
mod row;
mod session_end;
mod stage;
mod utf8;

pub use command::{Command, LONGEST_DATABASE, decode_command, encode_command};
pub use encode::encode_reply;
pub use fault::MessageFault;
pub use laws::{
    payloads_have_one_command, replies_are_read, replies_are_read_back, replies_are_written,
};
pub use list_types::Text;
pub use reply::{Cell, CellRow, CellRows, Column, Columns, Reply};
pub use reply_reader::ReplyReader;
pub use session_end::SessionEnd;
