//! The wire: where bytes come from and go to, and packets in them.
//!
//! [`PacketReader`] takes a stream in pieces of any size and gives its packets, each cut out of one buffer once;
//! [`write_packet`] writes one, and [`read_lenenc`] and [`write_lenenc`] their length-encoded numbers. The payloads that a reader has
//! given, with the bytes that it holds, are the stream that it was fed, however that was cut ([`payloads_are_the_stream`]).
//!
//! [`Source`] and [`Sink`] are what a program reads and writes, [`Stream`] is both as a connection is, [`Files`] where it finds its files. Each is a trait whose
//! meaning is a relation between two states ("from this state to that one these bytes were given"), with a count of
//! faults that never falls: a call answers that it failed only where the count rose. Over memory the relations are equations on
//! lists of bytes; an adapter over the real outside, which can't know what a file holds, relates all, and keeps its count.
//!
//! [`MemSource`], [`MemSink`], [`MemStream`] and [`MemFiles`] are the forms in memory, and [`Duplex`] is a source and a sink as one stream. Each follows a script of short and failing calls.
#![tactic(auto)]

mod duplex;
mod files;
mod laws;
mod lenenc;
mod memory;
mod packet;
mod packet_reader;
mod sink;
mod source;
mod stream;

pub use duplex::{Duplex, End};
pub use files::{Files, FilesFault, LARGEST_FILE};
pub use laws::{
    lengths_are_read, lengths_are_shortest, packets_are_found, payloads_are_the_stream,
    streams_split_in_one_way,
};
pub use lenenc::{Lenenc, read_lenenc, write_lenenc};
pub use list_types::Bytes;
pub use memory::{MemFile, MemFiles, MemSink, MemSource, MemStream, ScriptedCall};
pub use packet::{LARGEST_PAYLOAD, Packet, WireFault, write_packet};
pub use packet_reader::PacketReader;
pub use sink::{Sink, write_all, write_three};
pub use source::{Failed, Source};
pub use stream::{Stream, send_all};

/// The exit status of a program.
#[derive(Clone, Copy, Debug, PartialEq, Eq)]
pub struct Status {
    pub code: u8,
}
