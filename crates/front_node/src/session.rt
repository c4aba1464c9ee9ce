// A session between two packets: one command after the other, out of the client's bytes.
ghost use Rattle.std.specs.Prelude.{◌≡◌, ◌++◌, List, ℕ, Option, IfOk, OnOk, OnErr, length, nat_le};
ghost use Rattle.my_messages.specs.Command.{IsCommand};
ghost use Rattle.my_messages.specs.Reply.{HasBytes};
ghost use Rattle.my_messages.specs.declared.reply.Reply.{Reply};
ghost use Rattle.front_node.specs.Asking.{Node};
ghost use Rattle.my_wire.specs.Counts.{HasRisen, TakesFront};
ghost use Rattle.my_wire.specs.Packets.{Refused};
ghost use Rattle.front_node.specs.Session.{Exchanged, EndsBy, exchange_bytes, refusal_bytes, refusal_reply, reply_bytes, status_by, status_of as status_told};

use crate::statement::run;
use crate::{Backs, Kernel, replies};
use list_types::Bytes;
use my_messages::{Command, Reply, SessionEnd, decode_command, encode_reply};
use my_wire::{PacketReader, Stream, WireFault, send_all};
use std::alloc::{AllocError, Global};

/// What became of the packet at the front of the client's bytes.
#[derive(Clone, Copy, Debug, PartialEq, Eq)]
pub enum Step {
    /// None is there yet.
    Wanting,
    /// Its command was served.
    Served,
    /// The session is over.
    Ended(SessionEnd),
}

/// The status of a reply, or the one before.
fn status_of(reply: &Reply, before: u16) -> u16
    ensures { result ≡ status_told before reply.now }
{
    match reply {
        Reply::Ok { status, .. } => *status,
        Reply::Rows { status, .. } => *status,
        Reply::Err { .. } | Reply::Switch { .. } => before,
    }
}

/// Adds the packets of a reply, or nothing.
fn put_reply(alloc: Global, out: &mut Bytes, reply: &Reply) -> Result<(), AllocError>
    requires { HasBytes reply.now }
    ensures ok { OnOk result (out.new ≡ out.old ++ reply_bytes reply.now) }
    ensures err { OnErr result (out.new ≡ out.old) }
{
    let bytes = encode_reply(alloc, reply, 1, 0)?;
    out.extend_from_slice(bytes.as_slice())
}

/// Runs a statement, and adds its answer.
fn query<B: Backs>(
    alloc: Global,
    session: u32,
    front: &mut Kernel,
    backs: &mut B,
    text: Bytes,
    status: &mut u16,
    out: &mut Bytes,
) -> Result<(), AllocError>
    ensures ok { OnOk result ((answer : Option Reply)
        × Exchanged B.asks session (record { front = front.old; backs = backs.old }) (Command.Query text) answer (record { front = front.new; backs = backs.new })
        × (out.new ≡ out.old ++ exchange_bytes status.old (Command.Query text) answer) × (status.new ≡ status_by status.old answer)) }
    ensures err { OnErr result (out.new ≡ out.old) }
{
    match run(alloc, session, front, backs, text)? {
        Some(reply) => {
            put_reply(alloc, out, &reply)?;
            *status = status_of(&reply, *status);
            Ok(())
        }
        None => Ok(()),
    }
}

/// Serves a command, but for the one that leaves, which has no reply.
fn serve<B: Backs>(
    alloc: Global,
    session: u32,
    front: &mut Kernel,
    backs: &mut B,
    command: Command,
    status: &mut u16,
    out: &mut Bytes,
) -> Result<(), AllocError>
    requires { (payload : List ℕ) × IsCommand command payload }
    ensures ok { OnOk result ((answer : Option Reply)
        × Exchanged B.asks session (record { front = front.old; backs = backs.old }) command answer (record { front = front.new; backs = backs.new })
        × (out.new ≡ out.old ++ exchange_bytes status.old command answer) × (status.new ≡ status_by status.old answer)) }
    ensures err { OnErr result (out.new ≡ out.old) }
{
    match command {
        Command::Quit => Ok(()),
        Command::Ping => put_reply(alloc, out, &replies::done(*status)),
        Command::InitDb(name) => put_reply(alloc, out, &replies::database(alloc, *status, &name)?),
        Command::Query(text) => query(alloc, session, front, backs, text, status, out),
        Command::Unknown(_first) => put_reply(alloc, out, &replies::unknown_command(alloc)?),
    }
}

/// The error that answers a refused header, with its number.
fn refusal(alloc: Global, fault: WireFault) -> Result<(u16, Reply), AllocError>
    ensures reply { IfOk result (λ r. r.1 ≡ refusal_reply fault) }
    ensures bytes { IfOk result (λ r. HasBytes r.1) }
    ensures number { IfOk result (λ r. EndsBy ⊥ (Refused fault) (SessionEnd.Refused r.0)) }
{
    match fault {
        WireFault::TooLarge { length: _length } => Ok((1153, replies::too_large(alloc)?)),
        WireFault::OutOfOrder { expected, found } => {
            Ok((1156, replies::out_of_order(alloc, expected, found)?))
        }
        WireFault::NoMemory => Err(AllocError),
    }
}

/// Answers a refused header.
fn refuse(alloc: Global, out: &mut Bytes, fault: WireFault) -> Result<u16, AllocError>
    ensures ok { OnOk result (out.new ≡ out.old ++ refusal_bytes (Refused fault)) }
    ensures number { IfOk result (λ number. EndsBy ⊥ (Refused fault) (SessionEnd.Refused number)) }
    ensures err { OnErr result (out.new ≡ out.old) }
{
    let (number, reply) = refusal(alloc, fault)?;
    put_reply(alloc, out, &reply)?;
    Ok(number)
}

/// What came from a client and isn't answered, what isn't written yet, and the status of the last answer.
#[derive(Drop)]
pub struct Talk {
    reader: PacketReader,
    out: Bytes,
    status: u16,
}

/// So many bytes of replies are written at once, or more where one reply has more.
const WRITTEN_AT_ONCE: usize = 65_536;

impl Talk {
    ghost use Rattle.std.specs.Prelude.{◌≡◌, ◌≤◌, []};
    ghost use Rattle.std.specs.Prelude.{OnOk, OnErr, IfErr};
    ghost use Rattle.front_node.specs.Serving.{Went, at_command};
    ghost use Rattle.front_node.specs.Seats.{seat_of, IsNew, HasFed, HasWritten, Refusing};
    ghost use Rattle.my_wire.specs.Counts.{HasRisen, TakesFront};

    /// A talk that begins, in which each statement is a transaction of its own. It takes no memory.
    pub fn new(alloc: Global) -> Talk
        ensures { IsNew result }
    {
        Talk {
            reader: PacketReader::new(alloc, 0),
            out: Bytes::new(alloc),
            status: 2,
        }
    }

    /// Takes the next piece of the client's bytes.
    pub fn feed(&mut self, piece: &[u8]) -> Result<(), AllocError>
        ensures { OnOk result (HasFed self.old piece.now self.new) }
    {
        self.reader.feed(piece)
    }

    /// A header was refused.
    fn refuse(&mut self, alloc: Global, fault: WireFault) -> Step
        ensures { Refusing self.old fault result self.new }
    {
        match refuse(alloc, &mut self.out, fault) {
            Ok(number) => Step::Ended(SessionEnd::Refused(number)),
            Err(_) => Step::Ended(SessionEnd::NoMemory),
        }
    }

    /// Serves the command at the front of the client's bytes.
    pub fn next<B: Backs>(
        &mut self,
        alloc: Global,
        session: u32,
        front: &mut Kernel,
        backs: &mut B,
    ) -> Step
        requires { self.old.reader ≡ at_command self.old.reader.held }
        ensures { Went B.asks session (seat_of self.old front.old backs.old) result (seat_of self.new front.new backs.new) }
    {
        let packet = match self.reader.next_packet() {
            Ok(Some(packet)) => packet,
            Ok(None) => return Step::Wanting,
            Err(fault) => return self.refuse(alloc, fault),
        };
        self.reader.restart(0);
        match decode_command(alloc, packet.payload.as_slice()) {
            Ok(Command::Quit) => Step::Ended(SessionEnd::Closed),
            Ok(command) => {
                match serve(
                    alloc,
                    session,
                    front,
                    backs,
                    command,
                    &mut self.status,
                    &mut self.out,
                ) {
                    Ok(()) => Step::Served,
                    Err(_) => Step::Ended(SessionEnd::NoMemory),
                }
            }
            Err(_) => Step::Ended(SessionEnd::NoMemory),
        }
    }

    /// Whether so much waits to be written that it is written now.
    pub fn is_full(&self) -> bool
        ensures { result ≡ nat_le 65536 (length self.now.out) }
    {
        self.out.len() >= WRITTEN_AT_ONCE
    }

    /// Writes the replies that aren't written yet.
    pub fn flush<C: Stream>(&mut self, client: &mut C) -> Result<(), SessionEnd>
        ensures whole { OnOk result (C.passes client.old [] self.old.out client.new) }
        ensures written { OnOk result (HasWritten self.old self.new) }
        ensures front { TakesFront (λ s bytes t. C.passes s [] bytes t) client.old self.old.out client.new }
        ensures fault { IfErr result (λ how. (how ≡ SessionEnd.ClientFault) × HasRisen (C.faults client.old) (C.faults client.new)) }
        ensures no_more { C.readings_left client.new ≤ C.readings_left client.old }
        ensures later { C.faults client.old ≤ C.faults client.new }
        ensures same_source { C.reads_from client.new ≡ C.reads_from client.old }
        ensures same_sink { C.writes_to client.new ≡ C.writes_to client.old }
    {
        match send_all(client, self.out.as_slice()) {
            Ok(()) => {
                self.out.clear();
                Ok(())
            }
            Err(_) => Err(SessionEnd::ClientFault),
        }
    }
}
