//! Configurations with what is told of them. Nothing here promises anything to a proof.

use catalog::{Catalog, Link, read_catalog};
use list_types::Text;
use sql_values::Name;
use std::alloc::{AllocError, Global};
use std::test::Fail;

/// A front, a user and two servers.
const HEAD: &str =
    "[front]\nname = \"f\"\nlisten = \"127.0.0.1:4406\"\nuser = \"link\"\npassword = \"\"\n[[user]]\nname = \"link\"\npassword = \"\"\n[[server]]\nname = \"s1\"\naddress = \"127.0.0.1:4501\"\n[[server]]\nname = \"s2\"\naddress = \"127.0.0.1:4502\"\n";

/// How a configuration with these tables is answered.
fn answer(alloc: Global, tables: &str) -> Result<String, AllocError> {
    let conf = format!(in alloc; "{HEAD}{tables}")?;
    match read_catalog(alloc, conf.as_bytes()) {
        Ok(catalog) => format!(in alloc; "{} tables", catalog.tables().len()),
        Err(fault) => format!(in alloc; "{fault}"),
    }
}

/// How a configuration is answered whose one table has this comment.
fn comment_answer(alloc: Global, comment: &str) -> Result<String, AllocError> {
    let table = format!(in alloc;
        "[[table]]\nname = \"t\"\ncolumns = [\"k BIGINT\"]\nkey = \"k\"\ncomment = '''{comment}'''\n"
    )?;
    answer(alloc, table.as_str())
}

fn all_comment_answers(alloc: Global, rows: &[(&str, &str)]) -> Result<bool, AllocError> {
    for (comment, expected) in rows {
        if comment_answer(alloc, *comment)?.as_str() != *expected {
            return Ok(false);
        }
    }
    Ok(true)
}

fn all_answers(alloc: Global, rows: &[(&str, &str)]) -> Result<bool, AllocError> {
    for (tables, expected) in rows {
        if answer(alloc, *tables)?.as_str() != *expected {
            return Ok(false);
        }
    }
    Ok(true)
}

const COMMENTS: &[(&str, &str)] = &[
    ("", "bad links t.-"),
    (" \t\r\n", "bad links t.-"),
    ("srv \"s1\"", "1 tables"),
    (" srv\t\"s1 s2\" , lst \"1 3\" ", "1 tables"),
    (
        "wrapper \"mysql\", table \"a b\", mbk \"2\"",
        "bad links t.-",
    ),
    ("srv \"\"", "bad links t.-"),
    ("srv\"s1\"", "bad comment t.- at byte 3"),
    ("srv", "bad comment t.- at byte 3"),
    ("srv ", "bad comment t.- at byte 4"),
    ("srv s1", "bad comment t.- at byte 4"),
    ("srv \"s1", "bad comment t.- at byte 4"),
    ("srv \"s1\",", "bad comment t.- at byte 9"),
    ("srv \"s1\" lst \"1\"", "bad comment t.- at byte 9"),
    (", srv \"s1\"", "bad comment t.- at byte 0"),
    ("nope \"1\"", "bad comment t.- at byte 0"),
    ("srv \"s1\", srv \"s2\"", "bad comment t.- at byte 10"),
    ("lst \"1 2\"", "bad comment t.- at byte 4"),
    ("wrapper \"\"", "bad comment t.- at byte 8"),
    ("mbk \"0 1\"", "bad comment t.- at byte 4"),
    ("table \"1a\"", "bad comment t.- at byte 6"),
    ("srv \"s-1\"", "bad comment t.- at byte 4"),
    (
        "wrapper \"mysql\", srv \"s\", table \"t\", lst \"1\", mbk \"0\", srv \"s\"",
        "bad comment t.- at byte 55",
    ),
];

#[test]
fn comments_leave_their_form_at_places(rt: HostRuntime) -> Result<(), Fail> {
    let agree = all_comment_answers(rt.alloc(), COMMENTS)?;
    assert!(rt; agree);
    Ok(())
}

/// Each rule broken alone, and two at once.
const RULES: &[(&str, &str)] = &[
    ("", "0 tables"),
    (
        "[[table]]\nname = \"t\"\ncolumns = [\"k BIGINT\", \"v VARCHAR(20)\"]\nkey = \"k\"\ncomment = 'srv \"s1\"'\n",
        "1 tables",
    ),
    (
        "[[table]]\nname = \"t\"\ncolumns = [\"k BIGINT\", \"v TEXT\"]\nkey = \"k\"\ncomment = 'srv \"s1\"'\n",
        "bad column v TEXT",
    ),
    (
        "[[table]]\nname = \"t\"\ncolumns = [\"k BIGINT\", \"v VARCHAR(20)\"]\nkey = \"v\"\ncomment = 'srv \"s1\"'\n",
        "bad key v",
    ),
    (
        "[[table]]\nname = \"t\"\ncolumns = [\"k BIGINT\", \"v VARCHAR(20)\"]\nkey = \"k\"\ncomment = 'srv \"s1\"x'\n",
        "bad comment t.- at byte 8",
    ),
    (
        "[[table]]\nname = \"t\"\ncolumns = [\"k BIGINT\", \"v VARCHAR(20)\"]\nkey = \"k\"\ncomment = 'srv \"s1 s3\"'\n",
        "unknown server s3",
    ),
    (
        "[[table]]\nname = \"t\"\ncolumns = [\"k BIGINT\", \"v VARCHAR(20)\"]\nkey = \"k\"\ncomment = 'mbk \"0\"'\n",
        "bad links t.-",
    ),
    (
        "[[table]]\nname = \"t\"\ncolumns = [\"k BIGINT\", \"v VARCHAR(20)\"]\nkey = \"k\"\ncomment = 'srv \"s1 s1\"'\n",
        "bad links t.-",
    ),
    (
        "[[table]]\nname = \"t\"\ncolumns = [\"k BIGINT\", \"v VARCHAR(20)\"]\nkey = \"k\"\ncomment = 'srv \"s1 s2\", lst \"3 3\"'\n",
        "bad links t.-",
    ),
    (
        "[[table]]\nname = \"t\"\ncolumns = [\"k BIGINT\", \"v VARCHAR(20)\"]\nkey = \"k\"\ncomment = 'srv \"s1 s2\", lst \"1 3\"'\npartition = \"HASH\"\npart = [ {name=\"p0\", comment='srv \"s1\"'} ]\n",
        "bad links t.p0",
    ),
    (
        "[[table]]\nname = \"t\"\ncolumns = [\"k BIGINT\", \"v VARCHAR(20)\"]\nkey = \"k\"\ncomment = 'srv \"s1\"'\npartition = \"HASH\"\npart = [ {name=\"p00000000000000000000000000000000000000000000000000000000000000\"} ]\n",
        "bad links t.p00000000000000000000000000000000000000000000000000000000000000",
    ),
    (
        "[[table]]\nname = \"t\"\ncolumns = [\"k BIGINT\", \"v VARCHAR(20)\"]\nkey = \"k\"\ncomment = 'srv \"s1\"'\npartition = \"RANGE\"\npart = [ {name=\"p0\", less_than=5}, {name=\"p1\", less_than=5} ]\n",
        "bad bounds t.p1",
    ),
    (
        "[[table]]\nname = \"t\"\ncolumns = [\"k BIGINT\", \"v VARCHAR(20)\"]\nkey = \"k\"\ncomment = 'srv \"s1\"'\npartition = \"RANGE\"\npart = [ {name=\"p0\", less_than=\"MAXVALUE\"}, {name=\"p1\", less_than=5} ]\n",
        "bad bounds t.p1",
    ),
    (
        "[[table]]\nname = \"t\"\ncolumns = [\"k BIGINT\", \"v VARCHAR(20)\"]\nkey = \"k\"\ncomment = 'srv \"s1\"'\npartition = \"LIST\"\npart = [ {name=\"p0\", in_list=[1,1]}, {name=\"p1\", in_list=[2,1]} ]\n",
        "bad bounds t.p1",
    ),
    (
        "[[table]]\nname = \"t\"\ncolumns = [\"k BIGINT\", \"v VARCHAR(20)\"]\nkey = \"k\"\ncomment = 'srv \"s1\"'\npartition = \"LIST\"\npart = [ {name=\"p0\", in_list=[]} ]\n",
        "bad bounds t.p0",
    ),
    (
        "[[table]]\nname = \"t\"\ncolumns = [\"k BIGINT\", \"v VARCHAR(20)\"]\nkey = \"k\"\ncomment = 'srv \"s1\"'\npartition = \"KEY\"\npart = [ {name=\"p0\"} ]\n",
        "bad partition t",
    ),
    (
        "[[table]]\nname = \"t\"\ncolumns = [\"k BIGINT\", \"v VARCHAR(20)\"]\nkey = \"k\"\ncomment = 'srv \"s1\"'\npart = [ {name=\"p0\"} ]\n",
        "bad partition t",
    ),
    (
        "[[table]]\nname = \"t\"\ncolumns = [\"k BIGINT\", \"v VARCHAR(20)\"]\nkey = \"k\"\npartition = \"HASH\"\n",
        "bad partition t",
    ),
    (
        "[[table]]\nname = \"t\"\ncolumns = [\"k BIGINT\", \"v VARCHAR(20)\"]\nkey = \"k\"\ncomment = 'srv \"s1\", table \"x\"'\n[[table]]\nname = \"u\"\ncolumns = [\"k BIGINT\", \"v VARCHAR(20)\"]\nkey = \"k\"\ncomment = 'srv \"s1\", table \"x\"'\n",
        "shared remote s1.x",
    ),
    (
        "[[table]]\nname = \"t\"\ncolumns = [\"k BIGINT\", \"v VARCHAR(20)\"]\nkey = \"v\"\ncomment = 'srv \"s1\"'\n[[table]]\nname = \"u\"\ncolumns = [\"k INT\"]\nkey = \"k\"\ncomment = 'srv \"s1\"'\n",
        "bad column k INT",
    ),
    (
        "[[table]]\nname = \"t\"\ncolumns = [\"k BIGINT\", \"v VARCHAR(20)\"]\nkey = \"k\"\npartition = \"HASH\"\npart = [ {name=\"p0\", comment='x'} ]\n[[table]]\nname = \"u\"\ncolumns = [\"k BIGINT\", \"v VARCHAR(20)\"]\nkey = \"k\"\ncomment = 'y'\n",
        "bad comment u.- at byte 0",
    ),
];

#[test]
fn the_first_broken_rule_is_told(rt: HostRuntime) -> Result<(), Fail> {
    let agree = all_answers(rt.alloc(), RULES)?;
    assert!(rt; agree);
    Ok(())
}

/// A table over four partitions by HASH, one over two by RANGE, and one over two links.
const TABLES: &str =
    "[[table]]\nname = \"h\"\ncolumns = [\"k BIGINT\", \"v BIGINT\"]\nkey = \"k\"\npartition = \"HASH\"\npart = [ {name=\"p0\", comment='srv \"s1\"'}, {name=\"p1\", comment='srv \"s2\"'}, {name=\"p2\", comment='srv \"s1\"'}, {name=\"p3\", comment='srv \"s2\"'} ]\n[[table]]\nname = \"r\"\ncolumns = [\"k BIGINT\", \"v BIGINT\"]\nkey = \"k\"\ncomment = 'wrapper \"mysql\", srv \"s1\"'\npartition = \"RANGE\"\npart = [ {name=\"p0\", less_than=0}, {name=\"p1\", less_than=100} ]\n[[table]]\nname = \"t\"\ncolumns = [\"k BIGINT\", \"v BIGINT\"]\nkey = \"k\"\ncomment = 'srv \"s1 s2\", lst \"1 3\", mbk \"0\"'\n";

fn catalog(alloc: Global) -> Result<Option<Catalog>, AllocError> {
    let conf = format!(in alloc; "{HEAD}{TABLES}")?;
    match read_catalog(alloc, conf.as_bytes()) {
        Ok(catalog) => Ok(Some(catalog)),
        Err(_fault) => Ok(None),
    }
}

fn name(alloc: Global, text: &str) -> Result<Option<Name>, AllocError> {
    match Name::from_text(Text::from_str(alloc, text)?) {
        Ok(name) => Ok(Some(name)),
        Err(_text) => Ok(None),
    }
}

/// A table's name, the place of its key, and how many partitions its rule has.
fn head(alloc: Global, catalog: &Catalog, table: u32) -> Result<String, AllocError> {
    if table as usize >= catalog.tables().len() {
        return String::from_str(alloc, "no table");
    }
    let def = catalog.def(table);
    let count = catalog.rule(table).part_count();
    format!(in alloc; "{} {} {count}", def.name, def.key)
}

fn has_head(alloc: Global, table: u32, expected: &str) -> Result<bool, AllocError> {
    match catalog(alloc)? {
        Some(catalog) => Ok(head(alloc, &catalog, table)?.as_str() == expected),
        None => Ok(false),
    }
}

fn link_text(alloc: Global, link: &Link) -> Result<String, AllocError> {
    let first = link.first as u8;
    let monitored = link.monitored;
    format!(in alloc; "{} {} {first} {monitored}", link.server, link.remote)
}

/// The last link of a table's first partition, with that partition's name.
fn last_link(alloc: Global, catalog: &Catalog, table: u32) -> Result<String, AllocError> {
    if table as usize >= catalog.tables().len() || catalog.parts(table).is_empty() {
        return String::from_str(alloc, "no partition");
    }
    match catalog.links(table, 0).as_slice() {
        [.., link] => link_text(alloc, link),
        [] => String::from_str(alloc, "no link"),
    }
}

fn has_last_link(alloc: Global, table: u32, expected: &str) -> Result<bool, AllocError> {
    match catalog(alloc)? {
        Some(catalog) => Ok(last_link(alloc, &catalog.copy(alloc)?, table)?.as_str() == expected),
        None => Ok(false),
    }
}

/// The name of a table's first partition, or `-`.
fn first_part(alloc: Global, catalog: &Catalog, table: u32) -> Result<String, AllocError> {
    if table as usize >= catalog.tables().len() || catalog.parts(table).is_empty() {
        return String::from_str(alloc, "no partition");
    }
    match catalog.part_name(table, 0) {
        Some(name) => String::from_str(alloc, name.as_str()),
        None => String::from_str(alloc, "-"),
    }
}

fn has_first_part(alloc: Global, table: u32, expected: &str) -> Result<bool, AllocError> {
    match catalog(alloc)? {
        Some(catalog) => Ok(first_part(alloc, &catalog, table)?.as_str() == expected),
        None => Ok(false),
    }
}

#[test]
fn tables_have_their_rules(rt: HostRuntime) -> Result<(), Fail> {
    let hash = has_head(rt.alloc(), 0, "h 0 4")?;
    assert!(rt; hash);
    let range = has_head(rt.alloc(), 1, "r 0 2")?;
    assert!(rt; range);
    Ok(())
}

#[test]
fn partitions_have_their_links(rt: HostRuntime) -> Result<(), Fail> {
    let hash = has_last_link(rt.alloc(), 0, "0 h_p0 1 true")?;
    assert!(rt; hash);
    let whole = has_last_link(rt.alloc(), 2, "1 t 3 false")?;
    assert!(rt; whole);
    Ok(())
}

#[test]
fn partitions_have_names(rt: HostRuntime) -> Result<(), Fail> {
    let range = has_first_part(rt.alloc(), 1, "p0")?;
    assert!(rt; range);
    let whole = has_first_part(rt.alloc(), 2, "-")?;
    assert!(rt; whole);
    Ok(())
}

/// The places of a table and a server, and how many tables lie on the server.
fn places(alloc: Global, table: &str, server: &str) -> Result<String, AllocError> {
    let (Some(table), Some(server)) = (name(alloc, table)?, name(alloc, server)?) else {
        return String::from_str(alloc, "no name");
    };
    let Some(catalog) = catalog(alloc)? else {
        return String::from_str(alloc, "no catalog");
    };
    let (Some(table), Some(server)) = (catalog.table(&table), catalog.server(&server)) else {
        return String::from_str(alloc, "not there");
    };
    let remotes = catalog.remotes(alloc, server)?;
    format!(in alloc; "{table} {server} {}", remotes.len())
}

fn has_places(
    alloc: Global,
    table: &str,
    server: &str,
    expected: &str,
) -> Result<bool, AllocError> {
    Ok(places(alloc, table, server)?.as_str() == expected)
}

#[test]
fn names_are_found(rt: HostRuntime) -> Result<(), Fail> {
    let there = has_places(rt.alloc(), "r", "s2", "1 1 3")?;
    assert!(rt; there);
    let missing = has_places(rt.alloc(), "r", "s3", "not there")?;
    assert!(rt; missing);
    Ok(())
}

fn has_entries(alloc: Global) -> Result<bool, AllocError> {
    match catalog(alloc)? {
        Some(catalog) => Ok(
            catalog.front().name.as_str() == "f"
                && catalog.users().len() == 1
                && catalog.servers().len() == 2
                && catalog.monitors().is_empty(),
        ),
        None => Ok(false),
    }
}

#[test]
fn entries_stay(rt: HostRuntime) -> Result<(), Fail> {
    let entries = has_entries(rt.alloc())?;
    assert!(rt; entries);
    Ok(())
}
