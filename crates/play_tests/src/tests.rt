use list_types::Text;
use my_wire::{Bytes, MemFile, MemFiles, MemSink, MemSource, ScriptedCall};
use spider_cli::spider_local;
use std::alloc::{AllocError, Global};
use std::test::Fail;

/// A front, a user, a server, and the table t on it.
const CONF: &[u8] =
    b"[front]\nname = \"f\"\nlisten = \"127.0.0.1:4406\"\nuser = \"link\"\npassword = \"\"\n[[user]]\nname = \"link\"\npassword = \"\"\n[[server]]\nname = \"s1\"\naddress = \"127.0.0.1:4501\"\n[[table]]\nname = \"t\"\ncolumns = [\"k BIGINT\", \"v VARCHAR(20)\"]\nkey = \"k\"\ncomment = 'srv \"s1\"'\n";

/// What a call over memory gave.
#[derive(Drop)]
struct Ran {
    status: u8,
    out: Vec<u8>,
    err: Vec<u8>,
}

/// Calls the program with words that are separated by blanks, on a file `conf` with these contents.
fn call(
    alloc: Global,
    line: &str,
    conf: &[u8],
    schedule: &[u8],
    reads: Vec<ScriptedCall>,
    writes: Vec<ScriptedCall>,
) -> Result<Ran, AllocError> {
    let mut words = Vec::new(alloc);
    for word in line.split_ascii_whitespace() {
        words.push(String::from_str(alloc, word)?)?;
    }
    let mut all = Vec::new(alloc);
    all.push(MemFile {
        path: Text::from_str(alloc, "conf")?,
        contents: Bytes::from_vec(Vec::from_slice(alloc, conf)?),
    })?;
    let mut files = MemFiles::new(all, Vec::new(alloc));
    let mut input = MemSource::new(Vec::from_slice(alloc, schedule)?, reads);
    let mut out = MemSink::new(alloc, 10_000, writes)?;
    let mut err = MemSink::new(alloc, 1_000, Vec::new(alloc))?;
    let status = spider_local(
        alloc,
        words.as_slice(),
        &mut files,
        &mut input,
        &mut out,
        &mut err,
    );
    Ok(Ran {
        status: status.code,
        out: Vec::from_slice(alloc, out.bytes())?,
        err: Vec::from_slice(alloc, err.bytes())?,
    })
}

/// A schedule on the table t, with nothing that fails.
fn play(alloc: Global, schedule: &[u8]) -> Result<Ran, AllocError> {
    call(
        alloc,
        "play conf",
        CONF,
        schedule,
        Vec::new(alloc),
        Vec::new(alloc),
    )
}

const SCHEDULE: &[u8] =
    b"client 1 INSERT INTO t VALUES (1, 'a')\nclient 1 SELECT v FROM t WHERE k = 1\n";

const TRANSCRIPT: &[u8] =
    b"decided 1.1\nack 1 1.1\nanswer 1 1.1 ok 1\ndecided 1.2\nack 1 1.2\nanswer 1 1.2 rows 1\nrow 'a'\nend\nlink t - 0 s1 OK 0 rows 1\nhas 1,'a'\n";

/// What a schedule's end tells of an empty table.
const NOTHING: &[u8] = b"end\nlink t - 0 s1 OK 0 rows 0\n";

/// The answer to a text that is no statement, and the end.
const SYNTAX: &[u8] =
    b"answer 1 - err 1064 42000 Syntax error at byte 0\nend\nlink t - 0 s1 OK 0 rows 0\n";

#[test]
fn schedules_have_their_transcripts(rt: HostRuntime) -> Result<(), Fail> {
    let alloc = rt.alloc();
    let table: [(&[u8], &[u8]); 8] = [
        (b"", NOTHING),
        (b"\n# a comment \xc3\xa9\n\n#client 1 x\n", NOTHING),
        (b"client 1 ", SYNTAX),
        (b"client 1 x\n", SYNTAX),
        // 21 characters.
        (
            b"client 1 INSERT INTO t VALUES (1, 'aaaaaaaaaaaaaaaaaaaaa')\n",
            b"answer 1 - err 1406 22001 Data too long for column 'v' at row 1\nend\nlink t - 0 s1 OK 0 rows 0\n",
        ),
        // Blanks where they may stand, and 20 characters.
        (
            b"client 1 INSERT  INTO t   VALUES(  -9223372036854775808  ,'aaaaaaaaaaaaaaaaaaaa'  )\nclient 1 SELECT v FROM t WHERE k=-9223372036854775808",
            b"decided 1.1\nack 1 1.1\nanswer 1 1.1 ok 1\ndecided 1.2\nack 1 1.2\nanswer 1 1.2 rows 1\nrow 'aaaaaaaaaaaaaaaaaaaa'\nend\nlink t - 0 s1 OK 0 rows 1\nhas -9223372036854775808,'aaaaaaaaaaaaaaaaaaaa'\n",
        ),
        // A key that is there already, and keys in rising order at the end.
        (
            b"client 1 INSERT INTO t VALUES (9223372036854775807, '')\nclient 1 INSERT INTO t VALUES (0, 'z')\nclient 1 INSERT INTO t VALUES (0, 'y')\nclient 1 SELECT v FROM t WHERE k = 7\n",
            b"decided 1.1\nack 1 1.1\nanswer 1 1.1 ok 1\ndecided 1.2\nack 1 1.2\nanswer 1 1.2 ok 1\nanswer 1 1.3 err 1062 23000 Duplicate entry '0' for key 'PRIMARY'\ndecided 1.4\nack 1 1.4\nanswer 1 1.4 rows 0\nend\nlink t - 0 s1 OK 0 rows 2\nhas 0,'z'\nhas 9223372036854775807,''\n",
        ),
        // Requests are shown from one line to another, and sessions are told apart.
        (
            b"trace on\nclient 256 INSERT INTO t VALUES (1, 'a')\ntrace off\nclient 7 SELECT v FROM t WHERE k = 1\n",
            b"sent 256 s1 XA START 'f.1.1','s1',1\nsent 256 s1 SELECT * FROM `t` WHERE `k` IN (1) ORDER BY `k` FOR UPDATE\nsent 256 s1 REPLACE INTO `t` VALUES (1,'a')\nsent 256 s1 XA END 'f.1.1','s1',1\nsent 256 s1 XA PREPARE 'f.1.1','s1',1\ndecided 1.1\nsent 256 s1 XA COMMIT 'f.1.1','s1',1\nack 256 1.1\nanswer 256 1.1 ok 1\ndecided 1.2\nack 7 1.2\nanswer 7 1.2 rows 1\nrow 'a'\nend\nlink t - 0 s1 OK 0 rows 1\nhas 1,'a'\n",
        ),
    ];
    for (schedule, transcript) in table {
        let ran = play(alloc, schedule)?;
        assert_eq!(rt; ran.out.as_slice(), transcript);
        assert_eq!(rt; ran.status, 0);
        assert_eq!(rt; ran.err.len(), 0);
    }
    Ok(())
}

#[test]
fn broken_lines_stop_a_schedule(rt: HostRuntime) -> Result<(), Fail> {
    let alloc = rt.alloc();
    let table: [(&[u8], &[u8], &[u8]); 9] = [
        (b"client 1", b"", b"schedule line 1: unknown word\n"),
        (b"client  1 x\n", b"", b"schedule line 1: unknown word\n"),
        (b"client 0 x\n", b"", b"schedule line 1: bad number\n"),
        (b"client 257 x\n", b"", b"schedule line 1: bad number\n"),
        (b"client 01 x\n", b"", b"schedule line 1: bad number\n"),
        (b"client +1 x\n", b"", b"schedule line 1: bad number\n"),
        (b"\n#\n\xff", b"", b"schedule line 3: not text\n"),
        (b"trace on \n", b"", b"schedule line 1: unknown word\n"),
        (
            b"client 1 x\nstop s1\nclient 1 x\n",
            b"answer 1 - err 1064 42000 Syntax error at byte 0\n",
            b"schedule line 2: unknown word\n",
        ),
    ];
    for (schedule, out, err) in table {
        let ran = play(alloc, schedule)?;
        assert_eq!(rt; ran.status, 5);
        assert_eq!(rt; ran.out.as_slice(), out);
        assert_eq!(rt; ran.err.as_slice(), err);
    }
    Ok(())
}

#[test]
fn lines_have_a_limit(rt: HostRuntime) -> Result<(), Fail> {
    let alloc = rt.alloc();
    let mut schedule = vec![in alloc; b'#'; 65_536]?;
    assert_eq!(rt; play(alloc, schedule.as_slice())?.status, 0);
    schedule.push(b'#')?;
    let ran = play(alloc, schedule.as_slice())?;
    assert_eq!(rt; ran.status, 5);
    assert_eq!(rt;
        ran.err.as_slice(),
        b"schedule line 1: line too long\n".as_slice()
    );
    let mut empty = vec![in alloc; b'\n'; 1_000_000]?;
    assert_eq!(rt; play(alloc, empty.as_slice())?.status, 0);
    empty.push(b'\n')?;
    let ran = play(alloc, empty.as_slice())?;
    assert_eq!(rt; ran.status, 5);
    assert_eq!(rt;
        ran.err.as_slice(),
        b"schedule line 1000001: too many lines\n".as_slice()
    );
    Ok(())
}

/// The table t with a link on a server that isn't there.
const LOST_SERVER: &[u8] =
    b"[front]\nname = \"f\"\nlisten = \"127.0.0.1:4406\"\nuser = \"link\"\npassword = \"\"\n[[user]]\nname = \"link\"\npassword = \"\"\n[[server]]\nname = \"s1\"\naddress = \"127.0.0.1:4501\"\n[[server]]\nname = \"s2\"\naddress = \"127.0.0.1:4502\"\n[[table]]\nname = \"t\"\ncolumns = [\"k BIGINT\", \"v BIGINT\"]\nkey = \"k\"\ncomment = 'srv \"s9\"'\n";

/// The table t on two links, of which the second is NG.
const OTHER_LINKS: &[u8] =
    b"[front]\nname = \"f\"\nlisten = \"127.0.0.1:4406\"\nuser = \"link\"\npassword = \"\"\n[[user]]\nname = \"link\"\npassword = \"\"\n[[server]]\nname = \"s1\"\naddress = \"127.0.0.1:4501\"\n[[server]]\nname = \"s2\"\naddress = \"127.0.0.1:4502\"\n[[table]]\nname = \"t\"\ncolumns = [\"k BIGINT\", \"v BIGINT\"]\nkey = \"k\"\ncomment = 'srv \"s1 s2\", lst \"1 3\"'\n";

#[test]
fn links_are_written(rt: HostRuntime) -> Result<(), Fail> {
    let alloc = rt.alloc();
    let ran = call(
        alloc,
        "check conf",
        OTHER_LINKS,
        b"",
        Vec::new(alloc),
        Vec::new(alloc),
    )?;
    assert_eq!(rt; ran.status, 0);
    assert_eq!(rt;
        ran.out.as_slice(),
        b"link t - 0 s1 t OK\nlink t - 1 s2 t NG\nok\n".as_slice()
    );
    Ok(())
}

#[test]
fn words_and_configurations_have_their_statuses(rt: HostRuntime) -> Result<(), Fail> {
    let alloc = rt.alloc();
    let usage: &[u8] =
        b"usage: spider_local check CONF / play CONF / wire CONF / workload CONF SEED N\n";
    let large = vec![in alloc; b'\n'; 1_048_577]?;
    let table: [(&str, &[u8], u8, &[u8]); 12] = [
        ("play conf", CONF, 0, b""),
        ("play missing", CONF, 1, b"outside fault: conf\n"),
        ("", CONF, 2, usage),
        ("play", CONF, 2, usage),
        ("play -conf", CONF, 2, usage),
        ("play conf conf", CONF, 2, usage),
        ("check", CONF, 2, usage),
        ("check conf", CONF, 0, b""),
        ("check conf", LOST_SERVER, 4, b"conf: unknown server s9\n"),
        ("check conf", large.as_slice(), 4, b"conf: too large\n"),
        ("play conf", b"", 4, b"conf: missing key front\n"),
        ("play conf", OTHER_LINKS, 0, b""),
    ];
    for (words, conf, status, err) in table {
        let ran = call(alloc, words, conf, b"", Vec::new(alloc), Vec::new(alloc))?;
        assert_eq!(rt; ran.status, status);
        assert_eq!(rt; ran.err.as_slice(), err);
        assert_eq!(rt; ran.out.is_empty(), status != 0);
    }
    Ok(())
}

#[test]
fn one_byte_at_a_time(rt: HostRuntime) -> Result<(), Fail> {
    let alloc = rt.alloc();
    let bytes = vec![in alloc; ScriptedCall::AtMost(1); 300]?;
    let ran = call(alloc, "play conf", CONF, SCHEDULE, bytes.clone()?, bytes)?;
    assert_eq!(rt; ran.status, 0);
    assert_eq!(rt; ran.out.as_slice(), TRANSCRIPT);
    assert_eq!(rt; ran.err.len(), 0);
    Ok(())
}

#[test]
fn a_reading_fails_in_mid_line(rt: HostRuntime) -> Result<(), Fail> {
    let alloc = rt.alloc();
    let reads = vec![in alloc; ScriptedCall::AtMost(45), ScriptedCall::Fails]?;
    let ran = call(alloc, "play conf", CONF, SCHEDULE, reads, Vec::new(alloc))?;
    assert_eq!(rt; ran.status, 1);
    assert_eq!(rt; ran.err.as_slice(), b"outside fault: input\n".as_slice());
    assert_eq!(rt;
        ran.out.as_slice(),
        b"decided 1.1\nack 1 1.1\nanswer 1 1.1 ok 1\n".as_slice()
    );
    Ok(())
}

#[test]
fn each_writing_fails(rt: HostRuntime) -> Result<(), Fail> {
    let alloc = rt.alloc();
    for taken in 0..TRANSCRIPT.len() {
        let mut writes = vec![in alloc; ScriptedCall::AtMost(1); taken]?;
        writes.push(ScriptedCall::Fails)?;
        let ran = call(alloc, "play conf", CONF, SCHEDULE, Vec::new(alloc), writes)?;
        assert_eq!(rt; ran.status, 1);
        assert_eq!(rt; ran.err.as_slice(), b"outside fault: output\n".as_slice());
        assert_eq!(rt; ran.out.as_slice(), &TRANSCRIPT[..taken]);
    }
    Ok(())
}

/// A session of packets on the table t, read in pieces of at most so many bytes.
fn wire(alloc: Global, session: &[u8], piece: usize) -> Result<Ran, AllocError> {
    let mut reads = Vec::new(alloc);
    for _ in 0..session.len() {
        reads.push(ScriptedCall::AtMost(piece))?;
    }
    call(alloc, "wire conf", CONF, session, reads, Vec::new(alloc))
}

/// Whether the session ends with status 0 and these replies, in pieces of that size.
fn is_answered(
    alloc: Global,
    session: &[u8],
    replies: &[u8],
    piece: usize,
) -> Result<bool, AllocError> {
    let ran = wire(alloc, session, piece)?;
    Ok(ran.status == 0 && ran.out.as_slice() == replies && ran.err.is_empty())
}

const PING: &[u8] = b"\x01\0\0\0\x0E";

const PONG: &[u8] = b"\x07\0\0\x01\0\0\0\x02\0\0\0";

/// An INSERT and a SELECT of its row.
const STATEMENTS: &[u8] =
    b"\x1E\0\0\0\x03INSERT INTO t VALUES (1, 'a')\x1C\0\0\0\x03SELECT v FROM t WHERE k = 1";

const ROWS: &[u8] =
    b"\x07\0\0\x01\0\x01\0\x02\0\0\0\x01\0\0\x01\x01\x20\0\0\x02\x03def\x06spider\x01t\x01t\x01v\x01v\x0C\x2D\0\x50\0\0\0\xFD\x01\0\0\0\0\x05\0\0\x03\xFE\0\0\x02\0\x02\0\0\x04\x01a\x05\0\0\x05\xFE\0\0\x02\0";

#[test]
fn sessions_have_their_replies(rt: HostRuntime) -> Result<(), Fail> {
    let alloc = rt.alloc();
    let table: [(&[u8], &[u8]); 10] = [
        (PING, PONG),
        (b"", b""),
        (b"\x01\0\0", b""),
        (b"\x02\0\0\0\x0E", b""),
        (
            b"\x01\0\x10\0",
            b"\x2F\0\0\x01\xFF\x81\x04#08S01Got a packet bigger than 1048576 bytes",
        ),
        (
            b"\0\0\0\x05\x01\0\0\0\x0E",
            b"\x36\0\0\x01\xFF\x84\x04#08S01Got packets out of order: expected 0, found 5",
        ),
        (b"\x01\0\0\0\x01\x01\0\0\0\x0E", b""),
        (
            b"\x02\0\0\0\x02\xFF",
            b"\x18\0\0\x01\xFF\x17\x04#08S01Unknown command",
        ),
        (
            b"\x02\0\0\0\x02x\x07\0\0\0\x02spider",
            b"\x1D\0\0\x01\xFF\x19\x04#42000Unknown database 'x'\x07\0\0\x01\0\0\0\x02\0\0\0",
        ),
        (STATEMENTS, ROWS),
    ];
    for (session, replies) in table.iter() {
        assert!(rt; is_answered(alloc, session, replies, 65_536)?);
        assert!(rt; is_answered(alloc, session, replies, 1)?);
    }
    Ok(())
}

/// Whether a PING over this input and this output ends with status 1 and that error text.
fn is_fault(
    alloc: Global,
    reads: Vec<ScriptedCall>,
    writes: Vec<ScriptedCall>,
    text: &[u8],
) -> Result<bool, AllocError> {
    let ran = call(alloc, "wire conf", CONF, PING, reads, writes)?;
    Ok(ran.status == 1 && ran.err.as_slice() == text)
}

#[test]
fn a_session_names_the_end_that_failed(rt: HostRuntime) -> Result<(), Fail> {
    let alloc = rt.alloc();
    let mut fails = Vec::new(alloc);
    fails.push(ScriptedCall::Fails)?;
    assert!(rt; is_fault(alloc, fails, Vec::new(alloc), b"outside fault: input\n")?);
    let mut fails = Vec::new(alloc);
    fails.push(ScriptedCall::Fails)?;
    assert!(rt; is_fault(alloc, Vec::new(alloc), fails, b"outside fault: output\n")?);
    Ok(())
}

/// What is told of twenty statements that the seed 1 generates, computed apart from this program.
const SUMMARY: &[u8] =
    b"statements 20\nok 11\nrows 9\nrefused 0\ndecided 20\nlink t - 0 s1 OK 0 rows 6\n";

#[test]
fn generated_statements_are_counted(rt: HostRuntime) -> Result<(), Fail> {
    let alloc = rt.alloc();
    let ran = call(
        alloc,
        "workload conf 1 20",
        CONF,
        b"",
        Vec::new(alloc),
        Vec::new(alloc),
    )?;
    assert_eq!(rt; ran.status, 0);
    assert_eq!(rt; ran.out.as_slice(), SUMMARY);
    Ok(())
}

/// Whether the words have no form.
fn is_usage(alloc: Global, words: &str) -> Result<bool, AllocError> {
    let ran = call(alloc, words, CONF, b"", Vec::new(alloc), Vec::new(alloc))?;
    Ok(ran.status == 2 && ran.out.is_empty())
}

#[test]
fn workloads_have_their_numbers(rt: HostRuntime) -> Result<(), Fail> {
    let alloc = rt.alloc();
    let table: [&str; 8] = [
        "workload conf 1",
        "workload conf 1 0",
        "workload conf 1 100001",
        "workload conf 18446744073709551616 1",
        "workload conf +1 1",
        "workload conf 1 1x",
        "workload -conf 1 1",
        "workload conf 1 1 1",
    ];
    for words in table {
        assert!(rt; is_usage(alloc, words)?);
    }
    Ok(())
}
