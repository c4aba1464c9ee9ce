// Packets out of a stream that comes in pieces of any size.
ghost use Rattle.std.specs.Prelude.{◌≡◌, ◌≢◌, ◌↔◌, ◌≤◌, ◌+◌, ◌++◌, [], List, ℕ, length, drop, OnOk, OnErr, IfOk, IfErr, IfSome, IfNone, IsErrOf};
ghost use Rattle.my_wire.specs.Packets.{Stream, Found, packet, most, Wanting, Whole, Refused, first_packet, found, with_held, restarted, after};
ghost use Rattle.my_wire.specs.declared.packet.WireFault.{WireFault};
ghost use Rattle.my_wire.specs.declared.packet.WireFault.TheVariants.{NoMemory};

use crate::{LARGEST_PAYLOAD, Packet, WireFault};
use byteorder::{ByteOrder, LittleEndian};
use list_types::Bytes;
use std::alloc::{AllocError, Global};
use std::marker::Model;

/// Reads packets out of the pieces of a stream.
///
/// One buffer holds the bytes that came and are not given yet. Taking a packet moves none of them; the bytes that are
/// done with leave the buffer once they are at least as many as those that are left, so that each byte costs constant work.
#[derive(Debug, Drop)]
pub struct PacketReader {
    buffer: Vec<u8>,
    start: usize,
    expected: u8,
    refused: Option<WireFault>,
}

impl Model for PacketReader {
    ghost use Rattle.std.specs.Prelude.{◌≡◌, ◌≢◌, ◌≤◌, length, drop, Some};
    ghost use Rattle.my_wire.specs.Packets.{Stream};
    ghost use Rattle.my_wire.specs.declared.packet.WireFault.TheVariants.{NoMemory};

    ghost Value = { Stream };

    ghost view = { λ r. record { held = drop r.start r.buffer.items; expected = r.expected; refused = r.refused } };

    ghost invariant = { λ r. (r.start ≤ length r.buffer.items) × (r.refused ≢ Some NoMemory) };
}

/// The payload of the packet at the front, or None where it isn't all there.
fn first_payload(held: &[u8], expected: u8) -> Result<Option<&[u8]>, WireFault>
    ensures wanting { IfOk result (λ o. IfNone o (first_packet expected held.now ≡ Wanting)) }
    ensures whole { IfOk result (λ o. IfSome o (λ p. first_packet expected held.now ≡ Whole p.now (drop (length p.now + 4) held.now))) }
    ensures within { IfOk result (λ o. IfSome o (λ p. length p.now + 4 ≤ length held.now)) }
    ensures bytes { IfOk result (λ o. IfSome o (λ p. (held.now ≡ packet expected p.now ++ drop (length p.now + 4) held.now) × (length p.now ≤ most))) }
    ensures refused { IfErr result (λ e. (first_packet expected held.now ≡ Refused e) × (e ≢ NoMemory)) }
{
    if held.len() < 4 {
        return Ok(None);
    }
    let (header, rest) = held.split_at(4);
    let length = LittleEndian::read_u24(header);
    if length as usize > LARGEST_PAYLOAD {
        return Err(WireFault::TooLarge { length });
    }
    let found = header[3];
    if found != expected {
        return Err(WireFault::OutOfOrder { expected, found });
    }
    if rest.len() < length as usize {
        return Ok(None);
    }
    Ok(Some(rest.split_at(length as usize).0))
}

impl PacketReader {
    /// A reader that expects this number of the first packet. It takes no memory.
    pub fn new(alloc: Global, expected: u8) -> PacketReader
        ensures { result ≡ record { held = []; expected = expected; refused = None } }
    {
        PacketReader {
            buffer: Vec::new(alloc),
            start: 0,
            expected,
            refused: None,
        }
    }

    /// Takes the next piece of the stream.
    pub fn feed(&mut self, piece: &[u8]) -> Result<(), AllocError>
        ensures ok { OnOk result (self.new ≡ with_held self.old (self.old.held ++ piece.now)) }
        ensures err { OnErr result (self.new ≡ self.old) }
    {
        if self.start >= self.buffer.len() - self.start {
            drop(self.buffer.drain(..self.start));
            self.start = 0;
        }
        self.buffer.extend_from_slice(piece)
    }

    /// Expects this number of the next packet, and keeps the bytes. After a refusal it changes nothing.
    pub fn restart(&mut self, expected: u8)
        ensures { self.new ≡ restarted self.old expected }
    {
        if self.refused.is_none() {
            self.expected = expected;
        }
    }

    /// Takes the packet at the front of the stream. None where less than a packet, and no header that is refused, is there.
    ///
    /// A header is refused as soon as it is there: first by its length, then by its number. From then on that refusal is
    /// the answer. Want of memory changes nothing.
    pub fn next_packet(&mut self) -> Result<Option<Packet>, WireFault>
        ensures wanting { (result ≡ Ok None) ↔ (found self.old ≡ Wanting) }
        ensures whole { IfOk result (λ o. IfSome o (λ p. (found self.old ≡ Whole p.payload self.new.held) × (p.seq ≡ self.old.expected))) }
        ensures bytes { IfOk result (λ o. IfSome o (λ p. (self.old.held ≡ packet self.old.expected p.payload ++ self.new.held) × (length p.payload ≤ most))) }
        ensures refused { (e : WireFault) → found self.old ≡ Refused e → result ≡ Err e }
        ensures refuses { IfErr result (λ e. (e ≢ NoMemory) → found self.old ≡ Refused e) }
        ensures memory { IsErrOf result NoMemory → (payload : List ℕ) × (rest : List ℕ) × (found self.old ≡ Whole payload rest) }
        ensures state { self.new ≡ after self.old result }
    {
        if let Some(fault) = self.refused {
            return Err(fault);
        }
        let held = self.buffer.as_slice().split_at(self.start).1;
        match first_payload(held, self.expected) {
            Ok(None) => Ok(None),
            Ok(Some(found)) => {
                let payload = Vec::from_slice(*self.buffer.allocator(), found)?;
                let seq = self.expected;
                self.start += 4 + payload.len();
                self.expected = seq.wrapping_add(1);
                Ok(Some(Packet {
                    seq,
                    payload: Bytes::from_vec(payload),
                }))
            }
            Err(fault) => {
                self.refused = Some(fault);
                Err(fault)
            }
        }
    }
}
