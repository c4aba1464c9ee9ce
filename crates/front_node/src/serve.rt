ghost use Rattle.std.specs.Prelude.{◌≡◌, ◌⊎◌, ◌≤◌, ◌<◌, [], length, None, IfOk, IfErr, OnOk};
ghost use Rattle.my_wire.specs.Counts.{HasRisen};
ghost use Rattle.my_wire.specs.Packets.{Wanting, first_packet};
ghost use Rattle.front_core.specs.Core.{work_of};
ghost use Rattle.front_node.specs.Asking.{Node};
ghost use Rattle.front_node.specs.Serving.{Serving, at_command};
ghost use Rattle.front_node.specs.Session.{Session, Visit, IsTurnedAway};
ghost use Rattle.front_node.specs.Seats.{seat_of};

use crate::session::{Step, Talk};
use crate::{Backs, Kernel};
use front_core::{Event, Outputs};
use my_messages::SessionEnd;
use my_wire::Stream;
use std::alloc::{AllocError, Global};

/// The number of the one session.
const SESSION: u32 = 1;

/// How many bytes are read at once.
const ROOM: usize = 65_536;

/// Serves the commands that are there, and writes their replies.
fn serve_held<C: Stream, B: Backs>(
    alloc: Global,
    session: u32,
    front: &mut Kernel,
    backs: &mut B,
    talk: &mut Talk,
    client: &mut C,
) -> Result<(), SessionEnd>
    requires { talk.old.reader ≡ at_command talk.old.reader.held }
    ensures served { OnOk result ((first : Node B) (begun : C) → Serving C.passes B.asks session first begun (seat_of talk.old front.old backs.old) client.old
        → Serving C.passes B.asks session first begun (seat_of talk.new front.new backs.new) client.new) }
    ensures wanting { OnOk result (first_packet 0 talk.new.reader.held ≡ Wanting) }
    ensures written { OnOk result (talk.new.out ≡ []) }
    ensures ended { IfErr result (λ how. (first : Node B) (begun : C) → Serving C.passes B.asks session first begun (seat_of talk.old front.old backs.old) client.old
        → Session C.passes C.has_ended B.asks session first begun (record { front = front.new; backs = backs.new }) client.new how) }
    ensures fault { result ≡ Err SessionEnd.ClientFault → HasRisen (C.faults client.old) (C.faults client.new) }
    ensures no_more { C.readings_left client.new ≤ C.readings_left client.old }
    ensures later { C.faults client.old ≤ C.faults client.new }
    ensures same_source { C.reads_from client.new ≡ C.reads_from client.old }
    ensures same_sink { C.writes_to client.new ≡ C.writes_to client.old }
{
    loop {
        match talk.next(alloc, session, front, backs) {
            Step::Served => {
                if talk.is_full() {
                    match talk.flush(client) {
                        Ok(()) => {}
                        Err(how) => return Err(how),
                    }
                }
            }
            Step::Wanting => {
                return match talk.flush(client) {
                    Ok(()) => Ok(()),
                    Err(fault) => Err(fault),
                };
            }
            Step::Ended(how) => {
                return match talk.flush(client) {
                    Ok(()) => Err(how),
                    Err(fault) => Err(fault),
                };
            }
        }
    }
}

/// Serves the client's commands to their end.
fn serve_in<C: Stream, B: Backs>(
    alloc: Global,
    session: u32,
    front: &mut Kernel,
    backs: &mut B,
    client: &mut C,
    room: &mut [u8],
) -> SessionEnd
    requires { 0 < length room.old }
    ensures session { Session C.passes C.has_ended B.asks session (record { front = front.old; backs = backs.old }) client.old (record { front = front.new; backs = backs.new }) client.new result }
    ensures fault { result ≡ SessionEnd.ClientFault → HasRisen (C.faults client.old) (C.faults client.new) }
    ensures later { C.faults client.old ≤ C.faults client.new }
    ensures same_source { C.reads_from client.new ≡ C.reads_from client.old }
    ensures same_sink { C.writes_to client.new ≡ C.writes_to client.old }
{
    let mut talk = Talk::new(alloc);
    loop {
        let count = match client.read(room) {
            Ok(count) => count,
            Err(_) => return SessionEnd::ClientFault,
        };
        if count == 0 {
            return SessionEnd::Closed;
        }
        match talk.feed(&room[..count]) {
            Ok(()) => {}
            Err(_) => return SessionEnd::NoMemory,
        }
        match serve_held(alloc, session, front, backs, &mut talk, client) {
            Ok(()) => {}
            Err(how) => return how,
        }
    }
}

/// A room of so many bytes.
fn make_room(alloc: Global, size: usize) -> Result<Vec<u8>, AllocError>
    ensures { IfOk result (λ room. length room.items ≡ size) }
{
    vec![in alloc; 0u8; size]
}

/// Serves the client's commands, with a room for what is read at once.
fn serve_commands<C: Stream, B: Backs>(
    alloc: Global,
    session: u32,
    front: &mut Kernel,
    backs: &mut B,
    client: &mut C,
) -> SessionEnd
    ensures session { Session C.passes C.has_ended B.asks session (record { front = front.old; backs = backs.old }) client.old (record { front = front.new; backs = backs.new }) client.new result }
    ensures fault { result ≡ SessionEnd.ClientFault → HasRisen (C.faults client.old) (C.faults client.new) }
    ensures later { C.faults client.old ≤ C.faults client.new }
    ensures same_source { C.reads_from client.new ≡ C.reads_from client.old }
    ensures same_sink { C.writes_to client.new ≡ C.writes_to client.old }
{
    let Ok(mut room) = make_room(alloc, ROOM) else {
        return SessionEnd::NoMemory;
    };
    serve_in(alloc, session, front, backs, client, room.as_mut_slice())
}

/// Serves one client of a front over its servers, from the first command on ("Command Phase").
///
/// COM_QUERY runs a statement, COM_PING and COM_INIT_DB are answered with the status of the last answer, COM_QUIT leaves; other commands
/// are refused with 1047. A packet of more than 1,048,576 bytes is refused with 1153 and one out of order with 1156, and either ends the session, as
/// the end of the client's bytes does, inside a packet too. What is written is the replies to the commands that were read, in whatever pieces
/// they came: all of them where the session is Closed or Refused, else a front. The session, number 1, isn't open before, nor after.
pub fn serve_session<C: Stream, B: Backs>(
    alloc: Global,
    front: &mut Kernel,
    client: &mut C,
    backs: &mut B,
) -> SessionEnd
    requires closed { work_of front.old 1 ≡ None }
    ensures visit { IsTurnedAway (record { front = front.old; backs = backs.old }) client.old (record { front = front.new; backs = backs.new }) client.new result
        ⊎ Visit C.passes C.has_ended B.asks 1 (record { front = front.old; backs = backs.old }) client.old (record { front = front.new; backs = backs.new }) client.new result }
    ensures fault { result ≡ SessionEnd.ClientFault → HasRisen (C.faults client.old) (C.faults client.new) }
    ensures later { C.faults client.old ≤ C.faults client.new }
    ensures same_source { C.reads_from client.new ≡ C.reads_from client.old }
    ensures same_sink { C.writes_to client.new ≡ C.writes_to client.old }
{
    match front.step(Event::Open { session: SESSION }) {
        Outputs::Given(_opening) => {
            let end = serve_commands(alloc, SESSION, front, backs, client);
            let _closing = front.step(Event::Closed { session: SESSION });
            end
        }
        Outputs::NoRoom => SessionEnd::NoMemory,
    }
}
