//! Schedules that a seed generates, and what is told of transcripts in short. Nothing here promises anything to a proof.

use catalog::{Catalog, read_catalog};
use std::alloc::{AllocError, Global};
use std::test::Fail;
use workload::{Generator, summary};

/// The table t on a server.
const CONF: &[u8] =
    b"[front]\nname = \"f\"\nlisten = \"127.0.0.1:4406\"\nuser = \"link\"\npassword = \"\"\n[[user]]\nname = \"link\"\npassword = \"\"\n[[server]]\nname = \"s1\"\naddress = \"127.0.0.1:4501\"\n[[table]]\nname = \"t\"\ncolumns = [\"k BIGINT\", \"n BIGINT\", \"v VARCHAR(3)\"]\nkey = \"k\"\ncomment = 'srv \"s1\"'\n";

/// The lines that the seed 1 generates on the table t, computed apart from this program.
const LINES: &[u8] =
    b"client 7 INSERT INTO `t` VALUES (196,11034,'839')\nclient 3 UPDATE `t` SET `n` = `n` + 1 WHERE `k` = 89\nclient 4 INSERT INTO `t` VALUES (452,87034,'444')\nclient 3 SELECT * FROM `t` WHERE `k` = 332\nclient 4 INSERT INTO `t` VALUES (926,92669,'817')\nclient 5 DELETE FROM `t` WHERE `k` = 121\n";

/// So many lines from a seed, where there is a table.
fn lines(alloc: Global, catalog: &Catalog, seed: u64, count: u64) -> Result<Vec<u8>, AllocError> {
    let mut generator = Generator::new(seed);
    let mut text = Vec::new(alloc);
    if catalog.tables().is_empty() {
        return Ok(text);
    }
    for _ in 0..count {
        generator.push_line(catalog.tables(), &mut text)?;
    }
    Ok(text)
}

/// Whether the seed 1 generates these lines on the table t.
fn is_generated(alloc: Global, expected: &[u8]) -> Result<bool, AllocError> {
    match read_catalog(alloc, CONF) {
        Ok(catalog) => Ok(lines(alloc, &catalog, 1, 6)?.as_slice() == expected),
        Err(_fault) => Ok(false),
    }
}

#[test]
fn a_seed_has_its_lines(rt: HostRuntime) -> Result<(), Fail> {
    assert!(rt; is_generated(rt.alloc(), LINES)?);
    Ok(())
}

const TRANSCRIPT: &[u8] =
    b"decided 1.1\nack 1 1.1\nanswer 1 1.1 ok 1\nanswer 12 - err 1064 42000 answer 1 1.1 ok\ndecided 1.2\nanswer 1 1.2 rows 1\nrow 'link x'\nend\nlink t - 0 s1 OK 0 rows 1\nhas 1,'a'\nlink t - 1 s2 OK 0 rows 1";

const SUMMARY: &[u8] =
    b"statements 3\nok 1\nrows 1\nrefused 1\ndecided 2\nlink t - 0 s1 OK 0 rows 1\nlink t - 1 s2 OK 0 rows 1\n";

#[test]
fn a_transcript_has_its_summary(rt: HostRuntime) -> Result<(), Fail> {
    let text = summary(rt.alloc(), 3, TRANSCRIPT)?;
    assert_eq!(rt; text.as_slice(), SUMMARY);
    Ok(())
}
