//! Replies against the texts and bytes that are promised.

use conf_file::HostEntry;
use front_rows::{AggFun, Aggregate};
use list_types::{Listed, Text};
use my_messages::{CellRow, Column, Reply};
use sql_replies::*;
use sql_text::{Admin, ParseFault};
use sql_values::{ColumnDef, Kind, Name, Rows, TableDef, Value};
use std::alloc::Global;
use std::test::Fail;
use stmt_plan::{AnswerColumns, CellColumn, Pick, Picks, RowFault, StmtFault};
use txn_phases::{Outcome, Refusal};

// Nothing below promises anything to a proof: else each assertion's proof would look into its literals.

/// What stands behind a refusal's `ERR`: number, state and text.
#[derive(Clone, Copy)]
struct Told {
    number: u16,
    state: &'static str,
    text: &'static str,
}

/// What is told of each fault of `fault`, in its order.
const FAULTS: [Told; 9] = [
    Told {
        number: 1054,
        state: "42S22",
        text: "Unknown column 'w'",
    },
    Told {
        number: 1052,
        state: "23000",
        text: "Column 'k' is ambiguous",
    },
    Told {
        number: 1136,
        state: "21S01",
        text: "Column count doesn't match value count at row 1",
    },
    Told {
        number: 1048,
        state: "23000",
        text: "Column 'v' cannot be null",
    },
    Told {
        number: 14020,
        state: "HY000",
        text: "Type mismatch",
    },
    Told {
        number: 1264,
        state: "22003",
        text: "Out of range value for column 'k' at row 1",
    },
    Told {
        number: 1406,
        state: "22001",
        text: "Data too long for column 'v' at row 1",
    },
    Told {
        number: 1526,
        state: "HY000",
        text: "Table has no partition for value -3",
    },
    Told {
        number: 14009,
        state: "HY000",
        text: "The key column can't be changed",
    },
];

/// What is told of each outcome of `outcome`, in its order.
const OUTCOMES: [Told; 9] = [
    Told {
        number: 1062,
        state: "23000",
        text: "Duplicate entry '1' for key 'PRIMARY'",
    },
    Told {
        number: 14010,
        state: "HY000",
        text: "Limit: answer",
    },
    Told {
        number: 14010,
        state: "HY000",
        text: "Limit: write set",
    },
    Told {
        number: 1037,
        state: "HY001",
        text: "Out of memory",
    },
    Told {
        number: 14010,
        state: "HY000",
        text: "Limit: rows",
    },
    Told {
        number: 14006,
        state: "HY000",
        text: "Backend s1 refused: 1064",
    },
    Told {
        number: 1690,
        state: "22003",
        text: "BIGINT value is out of range",
    },
    Told {
        number: 1264,
        state: "22003",
        text: "Out of range value for column 'v' at row 2",
    },
    Told {
        number: 1406,
        state: "22001",
        text: "Data too long for column 'v' at row 3",
    },
];

fn name(alloc: Global, text: &str) -> Result<Name, Fail> {
    Ok(
        Name::from_text(Text::from_str(alloc, text)?)
            .ok()
            .ok_or("a name")?,
    )
}

fn is_told(reply: &Reply, told: &Told) -> bool {
    match reply {
        Reply::Err {
            number,
            state,
            message,
        } => {
            *number == told.number
                && state.as_slice() == told.state.as_bytes()
                && message.as_str() == told.text
        }
        _ => false,
    }
}

fn fault(alloc: Global, case: usize) -> Result<StmtFault, Fail> {
    match case {
        0 => Ok(StmtFault::NoColumn(name(alloc, "w")?)),
        1 => Ok(StmtFault::Ambiguous(name(alloc, "k")?)),
        2 => Ok(StmtFault::ColumnCount { row: 1 }),
        3 => Ok(StmtFault::IsNull(name(alloc, "v")?)),
        4 => Ok(StmtFault::TypeMismatch),
        5 => out_of_range(alloc),
        6 => too_long(alloc),
        7 => Ok(StmtFault::NoPartition(-3)),
        _ => Ok(StmtFault::KeyChanged),
    }
}

fn out_of_range(alloc: Global) -> Result<StmtFault, Fail> {
    Ok(StmtFault::OutOfRange {
        column: name(alloc, "k")?,
        row: 1,
    })
}

fn too_long(alloc: Global) -> Result<StmtFault, Fail> {
    Ok(StmtFault::TooLong {
        column: name(alloc, "v")?,
        row: 1,
    })
}

fn is_fault_told(alloc: Global, case: usize, told: &Told) -> Result<bool, Fail> {
    let fault = fault(alloc, case)?;
    Ok(is_told(&plan_reply(alloc, &fault)?, told))
}

#[test]
fn faults_are_told(rt: HostRuntime) -> Result<(), Fail> {
    for (case, told) in FAULTS.iter().enumerate() {
        assert!(rt; is_fault_told(rt.alloc(), case, told)?, "{case}");
    }
    Ok(())
}

fn refusal(alloc: Global, number: u16, message: &str) -> Result<Outcome, Fail> {
    Ok(Outcome::Refused(Refusal {
        server: 0,
        number,
        message: Text::from_str(alloc, message)?,
        scanning: true,
    }))
}

fn outcome(alloc: Global, case: usize) -> Result<Outcome, Fail> {
    match case {
        0 => Ok(Outcome::Duplicate(1)),
        1 => Ok(Outcome::AnswerLimit),
        2 => Ok(Outcome::WriteSetLimit),
        3 => refusal(alloc, 1037, "Out of memory"),
        4 => refusal(alloc, 14010, "Limit: rows"),
        5 => refusal(alloc, 1064, "Syntax error at byte 0"),
        6 => Ok(Outcome::RowRefused(RowFault::Arithmetic)),
        7 => row_out_of_range(alloc),
        _ => row_too_long(alloc),
    }
}

fn row_out_of_range(alloc: Global) -> Result<Outcome, Fail> {
    Ok(Outcome::RowRefused(RowFault::OutOfRange {
        column: name(alloc, "v")?,
        row: 2,
    }))
}

fn row_too_long(alloc: Global) -> Result<Outcome, Fail> {
    Ok(Outcome::RowRefused(RowFault::TooLong {
        column: name(alloc, "v")?,
        row: 3,
    }))
}

/// The table t of a BIGINT key k and a VARCHAR(20) v.
fn table(alloc: Global) -> Result<TableDef, Fail> {
    let mut columns = Listed::new(alloc);
    columns.push(ColumnDef {
        name: name(alloc, "k")?,
        kind: Kind::BigInt,
    })?;
    columns.push(ColumnDef {
        name: name(alloc, "v")?,
        kind: Kind::VarChar(20),
    })?;
    Ok(TableDef {
        name: name(alloc, "t")?,
        columns,
        key: 0,
    })
}

/// The column v of the table t.
fn picks(alloc: Global) -> Result<Picks, Fail> {
    let mut picks = Listed::new(alloc);
    picks.push(Pick {
        column: 1,
        name: name(alloc, "v")?,
    })?;
    Ok(Picks {
        table: name(alloc, "t")?,
        picks,
    })
}

/// The reply to a statement on t, by the server s1.
fn reply(alloc: Global, columns: &Option<AnswerColumns>, outcome: &Outcome) -> Result<Reply, Fail> {
    let table = table(alloc)?;
    let servers = [HostEntry {
        name: text(alloc, "s1")?,
        address: text(alloc, "127.0.0.1:4501")?,
    }];
    Ok(outcome_reply(alloc, &table, columns, &servers, outcome)?)
}

fn is_outcome_told(alloc: Global, case: usize, told: &Told) -> Result<bool, Fail> {
    let outcome = outcome(alloc, case)?;
    Ok(is_told(&reply(alloc, &None, &outcome)?, told))
}

#[test]
fn outcomes_are_told(rt: HostRuntime) -> Result<(), Fail> {
    for (case, told) in OUTCOMES.iter().enumerate() {
        assert!(rt; is_outcome_told(rt.alloc(), case, told)?, "{case}");
    }
    Ok(())
}

fn is_syntax_told(alloc: Global) -> Result<bool, Fail> {
    let told = Told {
        number: 1064,
        state: "42000",
        text: "Syntax error at byte 0",
    };
    Ok(is_told(
        &parse_reply(alloc, &ParseFault::Syntax { place: 0 })?,
        &told,
    ))
}

fn is_depth_told(alloc: Global) -> Result<bool, Fail> {
    let told = Told {
        number: 14010,
        state: "HY000",
        text: "Limit: nesting",
    };
    Ok(is_told(&parse_reply(alloc, &ParseFault::Deep { place: 7 })?, &told))
}

fn is_table_told(alloc: Global) -> Result<bool, Fail> {
    let told = Told {
        number: 1146,
        state: "42S02",
        text: "Table 'q' doesn't exist",
    };
    let table = name(alloc, "q")?;
    Ok(is_told(&no_table(alloc, &table)?, &told))
}

fn is_full_log_told(alloc: Global) -> Result<bool, Fail> {
    let told = Told {
        number: 14013,
        state: "HY000",
        text: "Log full",
    };
    Ok(is_told(&log_full(alloc)?, &told))
}

#[test]
fn the_front_is_told(rt: HostRuntime) -> Result<(), Fail> {
    assert!(rt; is_syntax_told(rt.alloc())?);
    assert!(rt; is_depth_told(rt.alloc())?);
    assert!(rt; is_table_told(rt.alloc())?);
    assert!(rt; is_full_log_told(rt.alloc())?);
    Ok(())
}

fn text(alloc: Global, text: &str) -> Result<Text, Fail> {
    Ok(Text::from_str(alloc, text)?)
}

/// The reply of the protocol's worked example: `SELECT v FROM t` on the row (1, 'a').
fn one_row(alloc: Global) -> Result<Reply, Fail> {
    let mut columns = Listed::new(alloc);
    columns.push(Column {
        schema: text(alloc, "spider")?,
        table: text(alloc, "t")?,
        org_table: text(alloc, "t")?,
        name: text(alloc, "v")?,
        org_name: text(alloc, "v")?,
        charset: 45,
        length: 80,
        kind: 0xFD,
        flags: 1,
    })?;
    let mut row = Listed::new(alloc);
    row.push(Some(text(alloc, "a")?))?;
    let mut rows = Listed::new(alloc);
    rows.push(row)?;
    Ok(Reply::Rows {
        columns,
        rows,
        status: 2,
    })
}

fn found(alloc: Global) -> Result<Rows, Fail> {
    let mut row = Listed::new(alloc);
    row.push(Value::Number(1))?;
    row.push(Value::Text(text(alloc, "a")?))?;
    let mut rows = Listed::new(alloc);
    rows.push(row)?;
    Ok(rows)
}

fn is_one_row(alloc: Global) -> Result<bool, Fail> {
    let columns = Some(AnswerColumns::Picks(picks(alloc)?));
    let outcome = Outcome::Found(found(alloc)?);
    Ok(reply(alloc, &columns, &outcome)? == one_row(alloc)?)
}

#[test]
fn rows_are_told(rt: HostRuntime) -> Result<(), Fail> {
    assert!(rt; is_one_row(rt.alloc())?);
    Ok(())
}

/// An aggregate over rows of t.
fn aggregate(alloc: Global, aggregate: Aggregate, name: &str) -> Result<CellColumn, Fail> {
    Ok(CellColumn {
        aggregate,
        name: text(alloc, name)?,
    })
}

/// A function over the key column.
fn of_keys(alloc: Global, fun: AggFun, name: &str) -> Result<CellColumn, Fail> {
    let over = Aggregate {
        fun,
        column: 0,
        kind: Kind::BigInt,
    };
    aggregate(alloc, over, name)
}

fn greatest_text(alloc: Global) -> Result<CellColumn, Fail> {
    let over = Aggregate {
        fun: AggFun::Max,
        column: 1,
        kind: Kind::VarChar(20),
    };
    aggregate(alloc, over, "MAX(v)")
}

/// What `SELECT COUNT(*), SUM(k) AS s, MAX(v) FROM t` asks for.
fn aggregates(alloc: Global) -> Result<AnswerColumns, Fail> {
    let mut list = Listed::new(alloc);
    list.push(of_keys(alloc, AggFun::Count, "COUNT(*)")?)?;
    list.push(of_keys(alloc, AggFun::Sum, "s")?)?;
    list.push(greatest_text(alloc)?)?;
    Ok(AnswerColumns::Cells(list))
}

/// What it finds over the keys -5 and 2, one text for both.
fn totals(alloc: Global) -> Result<CellRow, Fail> {
    let mut cells = Listed::new(alloc);
    cells.push(Some(text(alloc, "2")?))?;
    cells.push(Some(text(alloc, "-3")?))?;
    cells.push(Some(text(alloc, "a")?))?;
    Ok(cells)
}

/// A column that is none of a table.
fn own_column(
    alloc: Global,
    name: &str,
    charset: u16,
    length: u32,
    kind: u8,
    flags: u16,
) -> Result<Column, Fail> {
    Ok(Column {
        schema: text(alloc, "")?,
        table: text(alloc, "")?,
        org_table: text(alloc, "")?,
        name: text(alloc, name)?,
        org_name: text(alloc, "")?,
        charset,
        length,
        kind,
        flags,
    })
}

/// The reply with these totals.
fn told_totals(alloc: Global) -> Result<Reply, Fail> {
    let mut columns = Listed::new(alloc);
    columns.push(own_column(alloc, "COUNT(*)", 63, 20, 0x08, 1)?)?;
    columns.push(own_column(alloc, "s", 63, 41, 0xF6, 0)?)?;
    columns.push(own_column(alloc, "MAX(v)", 45, 80, 0xFD, 0)?)?;
    let mut rows = Listed::new(alloc);
    rows.push(totals(alloc)?)?;
    Ok(Reply::Rows {
        columns,
        rows,
        status: 2,
    })
}

fn are_totals_told(alloc: Global) -> Result<bool, Fail> {
    let columns = Some(aggregates(alloc)?);
    let outcome = Outcome::Cells(totals(alloc)?);
    Ok(reply(alloc, &columns, &outcome)? == told_totals(alloc)?)
}

#[test]
fn aggregates_are_told(rt: HostRuntime) -> Result<(), Fail> {
    assert!(rt; are_totals_told(rt.alloc())?);
    Ok(())
}

/// The names of two tables.
fn tables(alloc: Global) -> Result<Listed<Name>, Fail> {
    let mut names = Listed::new(alloc);
    names.push(name(alloc, "t")?)?;
    names.push(name(alloc, "sales")?)?;
    Ok(names)
}

/// The reply with these texts in rows of their own.
fn told_texts(alloc: Global, column: &str, texts: &[&str]) -> Result<Reply, Fail> {
    let mut columns = Listed::new(alloc);
    columns.push(own_column(alloc, column, 45, 4096, 0xFD, 1)?)?;
    let mut rows = Listed::new(alloc);
    for cell in texts {
        let mut row = Listed::new(alloc);
        row.push(Some(text(alloc, *cell)?))?;
        rows.push(row)?;
    }
    Ok(Reply::Rows {
        columns,
        rows,
        status: 2,
    })
}

fn is_admin_told(alloc: Global, admin: Admin, column: &str, texts: &[&str]) -> Result<bool, Fail> {
    let reply = admin_reply(alloc, tables(alloc)?.as_slice(), admin)?;
    Ok(reply == told_texts(alloc, column, texts)?)
}

#[test]
fn the_server_is_told(rt: HostRuntime) -> Result<(), Fail> {
    assert!(rt;
        is_admin_told(
            rt.alloc(),
            Admin::ShowTables,
            "Tables_in_spider",
            &["t", "sales"]
        )?
    );
    assert!(rt; is_admin_told(rt.alloc(), Admin::ShowDatabases, "Database", &["spider"])?);
    assert!(rt;
        is_admin_told(
            rt.alloc(),
            Admin::VersionComment,
            "@@version_comment",
            &["spider front"]
        )?
    );
    assert!(rt; is_admin_told(rt.alloc(), Admin::Database, "DATABASE()", &["spider"])?);
    Ok(())
}
