use my_wire::*;
use std::test::*;

// The forms of "Protocol::LengthEncodedInteger" at their limits.
#[test]
fn lengths(rt: HostRuntime) -> Result<(), Fail> {
    let forms: [(u64, &[u8]); 6] = [
        (250, &[0xFA]),
        (251, &[0xFC, 0xFB, 0x00]),
        (65_535, &[0xFC, 0xFF, 0xFF]),
        (65_536, &[0xFD, 0x00, 0x00, 0x01]),
        (16_777_215, &[0xFD, 0xFF, 0xFF, 0xFF]),
        (16_777_216, &[0xFE, 0, 0, 0, 1, 0, 0, 0, 0]),
    ];
    for (value, form) in forms {
        let mut out = Bytes::new(rt.alloc());
        write_lenenc(value, &mut out)?;
        assert_eq!(rt; out.as_slice(), form);
        let used = form.len() as u64;
        assert_eq!(rt; read_lenenc(form), Lenenc::Number { value, used });
    }
    assert_eq!(rt; read_lenenc(&[0xFB, 1]), Lenenc::Null);
    assert_eq!(rt; read_lenenc(&[0xFF, 1]), Lenenc::Bad);
    assert_eq!(rt; read_lenenc(&[0xFE, 1]), Lenenc::Short);
    Ok(())
}

// A ping and a statement of four bytes, each the first packet of its command: of the second the header is in its place.
const STREAM: [u8; 14] = [1, 0, 0, 0, 0x0E, 5, 0, 0, 1, 3, b'a', b'b', b'c', b'd'];

#[test]
fn in_one_piece(rt: HostRuntime) -> Result<(), Fail> {
    let mut reader = PacketReader::new(rt.alloc(), 0);
    reader.feed(&STREAM)?;
    let ping = reader.next_packet()?.ok_or("no packet")?;
    assert_eq!(rt; ping.seq, 0);
    assert_eq!(rt; ping.payload.as_slice(), [0x0E].as_slice());
    let query = reader.next_packet()?.ok_or("no second packet")?;
    assert_eq!(rt; query.seq, 1);
    assert_eq!(rt; query.payload.as_slice(), b"\x03abcd".as_slice());
    assert!(rt; reader.next_packet()?.is_none());
    Ok(())
}

#[test]
fn byte_by_byte(rt: HostRuntime) -> Result<(), Fail> {
    let mut reader = PacketReader::new(rt.alloc(), 0);
    let mut ends = Vec::new(rt.alloc());
    for (i, byte) in STREAM.iter().enumerate() {
        reader.feed(&[*byte])?;
        if let Some(packet) = reader.next_packet()? {
            ends.push((i, packet.payload.len()))?;
        }
    }
    assert_eq!(rt; ends.as_slice(), [(4, 1), (13, 5)].as_slice());
    Ok(())
}

// A length of 1,048,577 is refused from the header alone, and for good; one of 1,048,576 is waited for.
#[test]
fn refusals(rt: HostRuntime) -> Result<(), Fail> {
    let mut reader = PacketReader::new(rt.alloc(), 0);
    reader.feed(&[1, 0, 0x10, 0])?;
    let too_large = Some(WireFault::TooLarge { length: 1_048_577 });
    assert_eq!(rt; reader.next_packet().err(), too_large);
    reader.restart(5);
    assert_eq!(rt; reader.next_packet().err(), too_large);
    let mut reader = PacketReader::new(rt.alloc(), 0);
    reader.feed(&[0, 0, 0x10, 0])?;
    assert!(rt; reader.next_packet()?.is_none());
    let mut reader = PacketReader::new(rt.alloc(), 255);
    reader.feed(&[0, 0, 0, 255, 0, 0, 0, 1])?;
    assert!(rt; reader.next_packet()?.is_some());
    let out_of_order = Some(WireFault::OutOfOrder {
        expected: 0,
        found: 1,
    });
    assert_eq!(rt; reader.next_packet().err(), out_of_order);
    Ok(())
}

#[test]
fn written(rt: HostRuntime) -> Result<(), Fail> {
    let mut out = Bytes::new(rt.alloc());
    assert_eq!(rt; write_packet(255, &[0x0E], &mut out)?, 0);
    assert_eq!(rt; out.as_slice(), [1, 0, 0, 255, 0x0E].as_slice());
    Ok(())
}
