// Packets as values, and their faults (`Protocol::Packet`).
ghost use Rattle.std.specs.Prelude.{◌≡◌, ◌≤◌, ◌++◌, length, OnErr, IfOk, OnOk};
ghost use Rattle.my_wire.specs.Packets.{most, next, packet};

use byteorder::{ByteOrder, LittleEndian};
use list_types::Bytes;
use std::alloc::AllocError;
use thiserror::Error;

/// The most bytes of a payload, and so of a packet without its header.
pub const LARGEST_PAYLOAD: usize = 1_048_576;

/// A packet: its number within the exchange, and what it carries.
#[derive(Clone, Debug, PartialEq, Eq, Drop)]
pub struct Packet {
    pub seq: u8,
    pub payload: Bytes,
}

/// Why no packet was read.
#[derive(Clone, Copy, Debug, PartialEq, Eq, Error)]
pub enum WireFault {
    /// The header tells a payload of more than 1,048,576 bytes.
    #[error("a packet of {length} bytes is too large")]
    TooLarge { length: u32 },
    /// The packet has another number than the one that was expected.
    #[error("packet {found} came where {expected} was expected")]
    OutOfOrder { expected: u8, found: u8 },
    /// Want of memory.
    #[error("out of memory")]
    NoMemory,
}

impl From<AllocError> for WireFault {
    ghost use Rattle.std.specs.Prelude.{◌≡◌};
    ghost use Rattle.my_wire.specs.declared.packet.WireFault.TheVariants.{NoMemory};

    ghost from_gives = { λ _ e. e ≡ NoMemory };

    fn from(_e: AllocError) -> WireFault {
        WireFault::NoMemory
    }
}

/// Adds a packet at the end, and answers the number of the next one.
pub fn write_packet(seq: u8, payload: &[u8], out: &mut Bytes) -> Result<u8, AllocError>
    requires { length payload.now ≤ most }
    ensures next { IfOk result (λ number. number ≡ next seq) }
    ensures ok { OnOk result (out.new ≡ out.old ++ packet seq payload.now) }
    ensures err { OnErr result (out.new ≡ out.old) }
{
    let mut header = [0, 0, 0, seq];
    LittleEndian::write_u24(&mut header, payload.len() as u32);
    out.extend_from_slices(&header, payload)?;
    Ok(seq.wrapping_add(1))
}
