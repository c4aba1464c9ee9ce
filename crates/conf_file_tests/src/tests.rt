use conf_file::{
    BoundEntry, ConfFile, HostEntry, PartEntry, TableEntry, is_stored, read_column, read_file,
};
use sql_values::Kind;
use std::alloc::Global;
use std::test::Fail;

const FRONT: &str =
    "[front]\nname = \"f\"\nlisten = \"127.0.0.1:4406\"\nuser = \"link\"\npassword = \"\"\n";

const USER: &str = "[[user]]\nname = \"link\"\npassword = \"\"\n";

/// What follows a front and its user, and what is told of the whole.
struct Case {
    more: &'static str,
    told: &'static str,
}

const CASES: [Case; 24] = [
    Case {
        more: "",
        told: "read",
    },
    Case {
        more: "x =",
        told: "not toml",
    },
    Case {
        more: "[[server]]\nname = \"s\"",
        told: "missing key address",
    },
    Case {
        more: "[[table]]\nname = \"t\"\ncolumns = []\nkey = \"k\"\npartition = \"RANGE\"\npart = [{name = \"p\"}]",
        told: "missing key less_than",
    },
    Case {
        more: "[[table]]\nname = \"t\"\ncolumns = []\nkey = \"k\"\npart = [{name = \"p\"}]",
        told: "read",
    },
    Case {
        more: "[[table]]\nname = \"t\"\ncolumns = []\nkey = \"k\"\npartition = \"HASH\"\npart = [{name = \"p\", less_than = 1}]",
        told: "unknown key less_than",
    },
    Case {
        more: "[[monitor]]\nname = \"m\"\naddress = \"h:1\"\nzone = 1\nport = 2",
        told: "unknown key port",
    },
    Case {
        more: "[[server]]\nname = \"s\"\naddress = \"h:65536\"",
        told: "wrong type address",
    },
    Case {
        more: "[[server]]\nname = \"s\"\naddress = \"h:065535\"",
        told: "read",
    },
    Case {
        more: "[[table]]\nname = \"t\"\ncolumns = [\"k BIGINT\", 1]\nkey = \"k\"",
        told: "wrong type columns",
    },
    Case {
        more: "[[table]]\nname = \"t\"\ncolumns = []\nkey = \"k\"\npart = [{name = \"p\", less_than = \"MAX\"}]",
        told: "wrong type less_than",
    },
    Case {
        more: "[[table]]\nname = \"t\"\ncolumns = []\nkey = \"k\"\npart = [{}, 1]",
        told: "wrong type part",
    },
    Case {
        more: "[[server]]\nname = \"front\"\naddress = \"h:1\"",
        told: "bad name front",
    },
    Case {
        more: "[[monitor]]\nname = \"abcdefghijklmnopq\"\naddress = \"h:1\"",
        told: "bad name abcdefghijklmnopq",
    },
    Case {
        more: "[[user]]\nname = \"u\"\npassword = \"*12\"",
        told: "bad stored u",
    },
    Case {
        more: "[[user]]\nname = \"link\"\npassword = \"\"",
        told: "repeated name link",
    },
    Case {
        more: "[[server]]\nname = \"s\"\naddress = \"h:1\"\n[[server]]\nname = \"s\"\naddress = \"h:2\"",
        told: "repeated name s",
    },
    Case {
        more: "[[table]]\nname = \"spider_xa\"\ncolumns = []\nkey = \"k\"",
        told: "repeated name spider_xa",
    },
    Case {
        more: "[[table]]\nname = \"t\"\ncolumns = [\"k BIGINT\", \"k VARCHAR(1)\"]\nkey = \"k\"",
        told: "repeated name k",
    },
    Case {
        more: "[[table]]\nname = \"t\"\ncolumns = [\"k BIGINT\", \"k TEXT\"]\nkey = \"k\"",
        told: "read",
    },
    Case {
        more: "[[table]]\nname = \"t\"\ncolumns = []\nkey = \"k\"\npart = [{name = \"p\"}, {name = \"p\"}]",
        told: "repeated name p",
    },
    Case {
        more: "[[table]]\nname = \"t\"\ncolumns = [\"\",\"\",\"\",\"\",\"\",\"\",\"\",\"\",\"\",\"\",\"\",\"\",\"\",\"\",\"\",\"\",\"\"]\nkey = \"k\"",
        told: "too many columns",
    },
    // Two rules broken at once: the earlier rule is told, wherever it is broken.
    Case {
        more: "[[server]]\nname = \"9\"\naddress = 1\nzone = 1\n[[table]]\nname = \"t\"",
        told: "missing key columns",
    },
    Case {
        more: "[[server]]\nname = \"9\"\naddress = 1\n[[table]]\nname = \"t\"\ncolumns = []\nkey = \"k\"\nport = 1",
        told: "unknown key port",
    },
];

/// Files that are told by themselves.
const WHOLE: [Case; 6] = [
    Case {
        more: "",
        told: "missing key front",
    },
    Case {
        more: "[front]\nname = \"f\"\nuser = \"u\"",
        told: "missing key listen",
    },
    Case {
        more: "zone = 1\n[front]\nname = \"f\"\nlisten = \"h:1\"\nuser = \"u\"\npassword = \"\"",
        told: "unknown key zone",
    },
    Case {
        more: "front = 1",
        told: "wrong type front",
    },
    Case {
        more: "[front]\nname = \"f\"\nlisten = \"h:1\"\nuser = \"u\"\npassword = \"\"\ncopy_batch = 1001",
        told: "wrong type copy_batch",
    },
    Case {
        more: "[front]\nname = \"f\"\nlisten = \"h:1\"\nuser = \"u\"\npassword = \"\"",
        told: "bad name u",
    },
];

const ONE_TABLE: &str =
    "[[server]]\nname = \"s1\"\naddress = \"127.0.0.1:4501\"\n[[table]]\nname = \"t\"\ncolumns = [\"k BIGINT\", \"v VARCHAR(20)\"]\nkey = \"k\"\ncomment = 'srv \"s1\"'";

const TWO_TABLES: &str =
    "[[server]]\nname = \"s1\"\naddress = \"127.0.0.1:4501\"\n[[server]]\nname = \"s2\"\naddress = \"127.0.0.1:4502\"
[[table]]\nname = \"h\"\ncolumns = [\"k BIGINT\", \"v BIGINT\"]\nkey = \"k\"\npartition = \"HASH\"
part = [ {name=\"p0\", comment='srv \"s1\"'}, {name=\"p1\", comment='srv \"s2\"'},
         {name=\"p2\", comment='srv \"s1\"'}, {name=\"p3\", comment='srv \"s2\"'} ]
[[table]]\nname = \"r\"\ncolumns = [\"k BIGINT\", \"v BIGINT\"]\nkey = \"k\"\ncomment = 'wrapper \"mysql\", srv \"s1\"'\npartition = \"RANGE\"
part = [ {name=\"p0\", less_than=0}, {name=\"p1\", less_than=100} ]";

fn told(alloc: Global, bytes: &[u8]) -> Result<String, Fail> {
    match read_file(alloc, bytes) {
        Ok(_) => Ok(String::from_str(alloc, "read")?),
        Err(fault) => Ok(format!(in alloc; "{fault}")?),
    }
}

fn is_told(alloc: Global, text: &str, told_of_it: &str) -> Result<bool, Fail> {
    let text = told(alloc, text.as_bytes())?;
    Ok(text.as_str() == told_of_it)
}

fn holds(alloc: Global, case: &Case) -> Result<bool, Fail> {
    let text = format!(in alloc; "{FRONT}{USER}{}", case.more)?;
    is_told(alloc, text.as_str(), case.told)
}

#[test]
fn the_first_broken_rule_is_told(rt: HostRuntime) -> Result<(), Fail> {
    for case in &CASES {
        assert!(rt; holds(rt.alloc(), case)?, "{} {}", case.more, case.told);
    }
    Ok(())
}

#[test]
fn whole_files_are_told(rt: HostRuntime) -> Result<(), Fail> {
    for case in &WHOLE {
        assert!(rt;
            is_told(rt.alloc(), case.more, case.told)?,
            "{} {}",
            case.more,
            case.told
        );
    }
    Ok(())
}

fn large_is_told(alloc: Global, length: usize, told_of_it: &str) -> Result<bool, Fail> {
    let bytes = vec![in alloc; b' '; length]?;
    let text = told(alloc, bytes.as_slice())?;
    Ok(text.as_str() == told_of_it)
}

#[test]
fn the_size_is_looked_at_first(rt: HostRuntime) -> Result<(), Fail> {
    assert!(rt; large_is_told(rt.alloc(), 1_048_576, "missing key front")?);
    assert!(rt; large_is_told(rt.alloc(), 1_048_577, "too large")?);
    Ok(())
}

fn is_text(text: &Option<list_types::Text>, wanted: &str) -> bool {
    match text {
        Some(text) => text.as_str() == wanted,
        None => false,
    }
}

fn is_front(file: &ConfFile) -> bool {
    let front = &file.front;
    front.name.as_str() == "f"
        && front.listen.as_str() == "127.0.0.1:4406"
        && front.user.as_str() == "link"
        && front.password.as_str() == ""
        && front.copy_batch == 1000
}

fn are_users(file: &ConfFile) -> bool {
    match file.users.as_slice() {
        [user] => user.name.as_str() == "link" && user.password.as_str() == "",
        _ => false,
    }
}

fn is_host(host: &HostEntry, name: &str, address: &str) -> bool {
    host.name.as_str() == name && host.address.as_str() == address
}

fn has_columns(table: &TableEntry, key: &str, value: &str) -> bool {
    match table.columns.as_slice() {
        [first, second] => first.as_str() == key && second.as_str() == value,
        _ => false,
    }
}

fn is_plain_table(table: &TableEntry) -> bool {
    table.name.as_str() == "t"
        && has_columns(table, "k BIGINT", "v VARCHAR(20)")
        && table.key.as_str() == "k"
        && is_text(&table.comment, "srv \"s1\"")
        && table.partition.is_none()
        && table.parts.is_empty()
}

fn is_hash_part(part: &PartEntry, name: &str, comment: &str) -> bool {
    part.name.as_str() == name
        && is_text(&part.comment, comment)
        && part.less_than.is_none()
        && part.in_list.is_none()
}

fn is_hash_table(table: &TableEntry) -> bool {
    let parts = match table.parts.as_slice() {
        [a, b, c, d] => {
            is_hash_part(a, "p0", "srv \"s1\"")
                && is_hash_part(b, "p1", "srv \"s2\"")
                && is_hash_part(c, "p2", "srv \"s1\"")
                && is_hash_part(d, "p3", "srv \"s2\"")
        }
        _ => false,
    };
    parts
        && table.name.as_str() == "h"
        && has_columns(table, "k BIGINT", "v BIGINT")
        && table.comment.is_none()
        && is_text(&table.partition, "HASH")
}

fn is_range_part(part: &PartEntry, name: &str, below: i64) -> bool {
    part.name.as_str() == name
        && part.comment.is_none()
        && part.less_than == Some(BoundEntry::Below(below))
        && part.in_list.is_none()
}

fn is_range_table(table: &TableEntry) -> bool {
    let parts = match table.parts.as_slice() {
        [a, b] => is_range_part(a, "p0", 0) && is_range_part(b, "p1", 100),
        _ => false,
    };
    parts
        && table.name.as_str() == "r"
        && is_text(&table.comment, "wrapper \"mysql\", srv \"s1\"")
        && is_text(&table.partition, "RANGE")
}

fn is_one_table(file: &ConfFile) -> bool {
    let servers = match file.servers.as_slice() {
        [server] => is_host(server, "s1", "127.0.0.1:4501"),
        _ => false,
    };
    let tables = match file.tables.as_slice() {
        [table] => is_plain_table(table),
        _ => false,
    };
    is_front(file) && are_users(file) && servers && file.monitors.is_empty() && tables
}

fn is_two_tables(file: &ConfFile) -> bool {
    let servers = match file.servers.as_slice() {
        [a, b] => is_host(a, "s1", "127.0.0.1:4501") && is_host(b, "s2", "127.0.0.1:4502"),
        _ => false,
    };
    let tables = match file.tables.as_slice() {
        [a, b] => is_hash_table(a) && is_range_table(b),
        _ => false,
    };
    is_front(file) && are_users(file) && servers && tables
}

fn read(alloc: Global, tables: &str) -> Result<ConfFile, Fail> {
    let text = format!(in alloc; "{FRONT}{USER}{tables}")?;
    Ok(read_file(alloc, text.as_bytes())?)
}

#[test]
fn one_table_is_read_whole(rt: HostRuntime) -> Result<(), Fail> {
    let file = read(rt.alloc(), ONE_TABLE)?;
    assert!(rt; is_one_table(&file));
    Ok(())
}

#[test]
fn two_tables_are_read_whole(rt: HostRuntime) -> Result<(), Fail> {
    let file = read(rt.alloc(), TWO_TABLES)?;
    assert!(rt; is_two_tables(&file));
    Ok(())
}

fn is_column(alloc: Global, text: &str, kind: Option<Kind>) -> Result<bool, Fail> {
    match read_column(alloc, text)? {
        Some(column) => Ok(column.name.as_str() == "v" && Some(column.kind) == kind),
        None => Ok(kind.is_none()),
    }
}

struct Column {
    text: &'static str,
    kind: Option<Kind>,
}

const COLUMNS: [Column; 7] = [
    Column {
        text: "v BIGINT",
        kind: Some(Kind::BigInt),
    },
    Column {
        text: "v VARCHAR(020)",
        kind: Some(Kind::VarChar(20)),
    },
    Column {
        text: "v VARCHAR(1024)",
        kind: Some(Kind::VarChar(1024)),
    },
    Column {
        text: "v VARCHAR(0)",
        kind: None,
    },
    Column {
        text: "v VARCHAR(1025)",
        kind: None,
    },
    Column {
        text: "v  BIGINT",
        kind: None,
    },
    Column {
        text: "9 BIGINT",
        kind: None,
    },
];

#[test]
fn columns_are_read(rt: HostRuntime) -> Result<(), Fail> {
    for column in &COLUMNS {
        assert!(rt;
            is_column(rt.alloc(), column.text, column.kind)?,
            "{}",
            column.text
        );
    }
    Ok(())
}

#[test]
fn stored_forms_are_told(rt: HostRuntime) {
    assert!(rt; is_stored(""));
    assert!(rt; is_stored("*2470C0C06DEE42FD1618BB99005ADCA2EC9D1E19"));
    assert!(rt; !is_stored("*2470C0C06DEE42FD1618BB99005ADCA2EC9D1E1"));
    assert!(rt; !is_stored("2470C0C06DEE42FD1618BB99005ADCA2EC9D1E19"));
}
