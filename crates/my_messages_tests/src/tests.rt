use list_types::{Bytes, Listed};
use my_messages::*;
use my_wire::PacketReader;
use std::test::*;

// The replies of the protocol's worked rows: an OK to a ping, an OK of one row, a refusal, one row of one column, a switch request.
const OK: [u8; 11] = [7, 0, 0, 1, 0, 0, 0, 2, 0, 0, 0];

const TOO_BIG: &[u8] = b"\x2F\x00\x00\x01\xFF\x81\x04#08S01Got a packet bigger than 1048576 bytes";

const ONE_ROW: &[u8] =
    b"\x01\x00\x00\x01\x01\x20\x00\x00\x02\x03def\x06spider\x01t\x01t\x01v\x01v\x0C\x2D\x00\x50\x00\x00\x00\xFD\x01\x00\x00\x00\x00\x05\x00\x00\x03\xFE\x00\x00\x02\x00\x02\x00\x00\x04\x01a\x05\x00\x00\x05\xFE\x00\x00\x02\x00";

fn text(rt: &HostRuntime, text: &str) -> Result<Text, Fail> {
    Ok(Text::from_str(rt.alloc(), text)?)
}

fn one_row(rt: &HostRuntime) -> Result<Reply, Fail> {
    let mut columns = Listed::new(rt.alloc());
    columns.push(Column {
        schema: text(rt, "spider")?,
        table: text(rt, "t")?,
        org_table: text(rt, "t")?,
        name: text(rt, "v")?,
        org_name: text(rt, "v")?,
        charset: 45,
        length: 80,
        kind: 0xFD,
        flags: 1,
    })?;
    let mut row = Listed::new(rt.alloc());
    row.push(Some(text(rt, "a")?))?;
    let mut rows = Listed::new(rt.alloc());
    rows.push(row)?;
    Ok(Reply::Rows {
        columns,
        rows,
        status: 2,
    })
}

// The calls below are made by functions that promise nothing: else each assertion's proof would look into its literals.

fn decoded(rt: &HostRuntime, payload: &[u8]) -> Result<Command, Fail> {
    Ok(decode_command(rt.alloc(), payload)?)
}

fn ping_bytes(rt: &HostRuntime) -> Result<Bytes, Fail> {
    Ok(encode_command(rt.alloc(), &Command::Ping)?)
}

fn ok_bytes(rt: &HostRuntime, affected: u64, status: u16, warnings: u16) -> Result<Bytes, Fail> {
    let ok = Reply::Ok {
        affected,
        status,
        warnings,
    };
    Ok(encode_reply(rt.alloc(), &ok, 1, 0)?)
}

fn pushed(reader: &mut ReplyReader, payload: &[u8]) -> Result<Option<Reply>, Fail> {
    Ok(reader.push(payload)?)
}

fn refused(reader: &mut ReplyReader, payload: &[u8]) -> Option<MessageFault> {
    reader.push(payload).err()
}

fn query(rt: &HostRuntime, sql: &[u8]) -> Result<Command, Fail> {
    Ok(Command::Query(Bytes::from_vec(Vec::from_slice(rt.alloc(), sql)?)))
}

// The reply of the packets in these bytes, fed in pieces of one byte.
fn read_back(rt: &HostRuntime, bytes: &[u8]) -> Result<Option<Reply>, Fail> {
    let mut packets = PacketReader::new(rt.alloc(), 1);
    let mut replies = ReplyReader::new(rt.alloc(), 0);
    let mut reply = None;
    for byte in bytes {
        packets.feed(&[*byte])?;
        if let Some(packet) = packets.next_packet()? {
            reply = replies.push(packet.payload.as_slice())?;
        }
    }
    Ok(reply)
}

// The reply of these payloads, none of which but the last ends it.
fn read_whole(rt: &HostRuntime, payloads: &[&[u8]]) -> Result<Option<Reply>, Fail> {
    let mut reader = ReplyReader::new(rt.alloc(), 0);
    let mut reply = None;
    for payload in payloads {
        if reply.is_some() {
            return Ok(None);
        }
        reply = reader.push(payload)?;
    }
    Ok(reply)
}

#[test]
fn commands(rt: HostRuntime) -> Result<(), Fail> {
    let spider = Command::InitDb(text(&rt, "spider")?);
    assert_eq!(rt; decoded(&rt, b"\x03SELECT 1")?, query(&rt, b"SELECT 1")?);
    assert_eq!(rt; decoded(&rt, b"\x02spider")?, spider);
    assert_eq!(rt; decoded(&rt, &[0x0E, 9])?, Command::Ping);
    assert_eq!(rt; decoded(&rt, &[0x01])?, Command::Quit);
    assert_eq!(rt; decoded(&rt, &[])?, Command::Unknown(None));
    assert_eq!(rt; decoded(&rt, &[0x16])?, Command::Unknown(Some(0x16)));
    assert_eq!(rt; decoded(&rt, &[2, 0xFF])?, Command::Unknown(Some(2)));
    assert_eq!(rt; ping_bytes(&rt)?.as_slice(), [0x0E].as_slice());
    Ok(())
}

#[test]
fn replies(rt: HostRuntime) -> Result<(), Fail> {
    let ok = Reply::Ok {
        affected: 0,
        status: 2,
        warnings: 0,
    };
    let refusal = Reply::Err {
        number: 1153,
        state: *b"08S01",
        message: text(&rt, "Got a packet bigger than 1048576 bytes")?,
    };
    assert_eq!(rt; ok_bytes(&rt, 0, 2, 0)?.as_slice(), OK.as_slice());
    assert_eq!(rt; read_back(&rt, &OK)?, Some(ok));
    assert_eq!(rt; read_back(&rt, TOO_BIG)?, Some(refusal));
    assert_eq!(rt; read_back(&rt, ONE_ROW)?, Some(one_row(&rt)?));
    Ok(())
}

// Where a payload is first bad.
#[test]
fn places(rt: HostRuntime) -> Result<(), Fail> {
    let cases: [(&[u8], u64); 8] = [
        (&[], 0),
        (&[0xFB], 0),
        (&[0xFC, 0, 0], 2),
        (&[0x00, 0, 1], 2),
        (&[0x00, 0, 0, 2, 0, 0, 0, 9], 7),
        (b"\xFF\x81\x04!", 3),
        (b"\xFF\x81\x04#08S01a\xC3b", 11),
        (b"\xFEplugin", 7),
    ];
    for (payload, place) in cases {
        let mut reader = ReplyReader::new(rt.alloc(), 0);
        let malformed = Some(MessageFault::Malformed { place });
        assert_eq!(rt; refused(&mut reader, payload), malformed);
        assert_eq!(rt; refused(&mut reader, &[]), malformed);
    }
    Ok(())
}

// Each form of one payload at its limits, one after the other in one reader.
#[test]
fn limits(rt: HostRuntime) -> Result<(), Fail> {
    let mut reader = ReplyReader::new(rt.alloc(), 0);
    let most = Reply::Ok {
        affected: u64::MAX,
        status: u16::MAX,
        warnings: u16::MAX,
    };
    let bare = Reply::Err {
        number: u16::MAX,
        state: *b"00000",
        message: text(&rt, "")?,
    };
    let switch = Reply::Switch {
        plugin: text(&rt, "")?,
        nonce: *b"01234567890123456789",
    };
    let greatest = b"\x00\xFE\xFF\xFF\xFF\xFF\xFF\xFF\xFF\xFF\x00\xFF\xFF\xFF\xFF";
    assert_eq!(rt; pushed(&mut reader, greatest)?, Some(most));
    assert_eq!(rt; pushed(&mut reader, b"\xFF\xFF\xFF#00000")?, Some(bare));
    assert_eq!(rt;
        pushed(&mut reader, b"\xFE\x0001234567890123456789\x00")?,
        Some(switch)
    );
    Ok(())
}

// A row may begin with FE where it has nine bytes or more.
#[test]
fn rows_and_ends(rt: HostRuntime) -> Result<(), Fail> {
    let payloads: [&[u8]; 5] = [
        b"\x01",
        b"\x03def\x06spider\x01t\x01t\x01v\x01v\x0C\x2D\x00\x50\x00\x00\x00\xFD\x01\x00\x00\x00\x00",
        b"\xFE\x00\x00\x02\x00",
        b"\xFE\x01\x00\x00\x00\x00\x00\x00\x00a",
        b"\xFE\x00\x00\x02\x00",
    ];
    assert_eq!(rt; read_whole(&rt, &payloads)?, Some(one_row(&rt)?));
    Ok(())
}
