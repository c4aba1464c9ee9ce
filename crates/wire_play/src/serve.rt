// One session of packets over a client's two ends.
ghost use Rattle.std.specs.Prelude.{◌≡◌};
ghost use Rattle.my_wire.specs.Duplex.{IsFresh};
ghost use Rattle.front_core.specs.Core.{new_front};
ghost use Rattle.plain_sessions.specs.Held.{CanBeServed};
ghost use Rattle.world_runs.specs.World.{new_stores};
ghost use Rattle.wire_play.specs.Wiring.{WireEnds};

use crate::Servers;
use catalog::Catalog;
use front_node::{Kernel, serve_session};
use my_messages::SessionEnd;
use my_wire::{Duplex, End, Sink, Source};
use std::alloc::Global;
use wire_law::wires_are_solo;

/// How a session of packets ended.
#[derive(Clone, Copy, Debug, PartialEq, Eq)]
pub enum WireEnd {
    /// The client left, or was refused.
    Done,
    /// Reading or writing failed.
    Failed(End),
    /// Want of memory.
    NoMemory,
}

/// Serves one session of packets on a new front and its servers.
fn wire_over<S: Source, K: Sink>(
    alloc: Global,
    front: &mut Kernel,
    servers: &mut Servers,
    client: &mut Duplex<'_, S, K>,
) -> WireEnd
    requires fresh { IsFresh client.old }
    requires new_one { front.old ≡ new_front front.old.catalog }
    requires stores { servers.old ≡ new_stores front.old.catalog }
    requires served { CanBeServed front.old.catalog }
    ensures ends { WireEnds S.gives S.has_ended S.faults K.takes K.faults front.old.catalog client.old.source.now client.new.source.now client.old.sink.now client.new.sink.now result }
    ensures same_source { client.new.source.ghost_name ≡ client.old.source.ghost_name }
    ensures same_sink { client.new.sink.ghost_name ≡ client.old.sink.ghost_name }
{
    wires_are_solo();
    match serve_session(alloc, front, client, servers) {
        SessionEnd::Closed => WireEnd::Done,
        SessionEnd::Refused(_number) => WireEnd::Done,
        SessionEnd::NoMemory => WireEnd::NoMemory,
        SessionEnd::ClientFault => match client.failed() {
            Some(end) => WireEnd::Failed(end),
            None => unreachable!(),
        },
    }
}

/// Serves one session of packets, from the first command on.
pub fn wire<S: Source, K: Sink>(
    alloc: Global,
    catalog: Catalog,
    input: &mut S,
    out: &mut K,
) -> WireEnd
    requires { CanBeServed catalog }
    ensures { WireEnds S.gives S.has_ended S.faults K.takes K.faults catalog input.old input.new out.old out.new result }
{
    let Ok(mut servers) = Servers::new(alloc, &catalog) else {
        return WireEnd::NoMemory;
    };
    let mut front = Kernel::start(alloc, catalog);
    let mut client = Duplex::new(input, out);
    wire_over(alloc, &mut front, &mut servers, &mut client)
}
