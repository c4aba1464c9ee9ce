//! What statements write of the rows that were found, on two partitions with two links each.
//!
//! Requests are lists of numbers: the server, what is asked, and for a PUT the values of its rows, for a DEL its keys.

use front_rows::Sort;
use list_types::{Listed, Text};
use part_rules::Rule;
use sql_text::{LinkAnswer, LinkRequest, ScanItems};
use sql_values::{
    Addend, ColumnDef, ColumnDefs, ColumnName, Expr, Kind, Literal, LockMode, Name, Row, Rows,
    TableDef, Value, Xid,
};
use sqlite_items::Items;
use std::alloc::Global;
use std::test::Fail;
use stmt_plan::{RowFault, SetColumn, SetColumns};
use txn_phases::*;

// Nothing below promises anything to a proof: else each assertion's proof would look into its literals.

const SCAN: i64 = 2;

const PUT: i64 = 3;

const END: i64 = 4;

const ROLLBACK: i64 = 7;

const DEL: i64 = 8;

/// What a column is set to: a number, or a column and a number.
#[derive(Clone, Copy)]
enum Term {
    Number(i128),
    Plus(&'static str, i128),
}

/// What a statement does with rows of the columns k, v and w.
#[derive(Clone, Copy)]
enum Does {
    Reads,
    Sets(&'static [(u32, Term)]),
    Deletes,
}

/// A row: k, v and w.
type Three = [i64; 3];

struct Case {
    does: Does,
    /// What the links answer: partition 0 at servers 0 and 1, partition 1 at servers 1 and 0. The second of each doesn't count.
    found: [&'static [Three]; 4],
    /// The requests behind the scans.
    asks: &'static [i64],
    /// How it comes out, by `told`.
    outcome: i64,
}

const MOST: i64 = 9_223_372_036_854_775_807;

const ADD_ONE: Does = Does::Sets(&[(1, Term::Plus("v", 1))]);

const CASES: [Case; 9] = [
    // The row with key 3 has what it is set to, so it isn't put, and doesn't count.
    Case {
        does: Does::Sets(&[(1, Term::Number(7)), (2, Term::Plus("k", 0))]),
        found: [
            &[[2, 0, 0], [4, 0, 0]],
            &[[2, 0, 0], [4, 0, 0]],
            &[[1, 7, 0], [3, 7, 3]],
            &[[1, 7, 0], [3, 7, 3]],
        ],
        asks: &[
            0, PUT, 2, 7, 2, 4, 7, 4, 1, PUT, 2, 7, 2, 4, 7, 4, 1, PUT, 1, 7, 1, 0, PUT, 1, 7, 1,
        ],
        outcome: 3,
    },
    // Rows of links that don't count are passed over.
    Case {
        does: ADD_ONE,
        found: [&[[2, 5, 0]], &[[2, 6, 0], [4, 6, 0]], &[], &[[1, 1, 1]]],
        asks: &[0, PUT, 2, 6, 0, 1, PUT, 2, 6, 0],
        outcome: 1,
    },
    // Columns are set from the left.
    Case {
        does: Does::Sets(&[(1, Term::Plus("v", 1)), (2, Term::Plus("v", 0))]),
        found: [&[], &[], &[[1, 10, 0]], &[[1, 10, 0]]],
        asks: &[1, PUT, 1, 11, 11, 0, PUT, 1, 11, 11],
        outcome: 1,
    },
    // Of the rows in the order of their keys the second can't be counted with. Nothing is put.
    Case {
        does: ADD_ONE,
        found: [
            &[[2, MOST, 0], [4, MOST, 0]],
            &[[2, MOST, 0], [4, MOST, 0]],
            &[[1, 0, 0]],
            &[[1, 0, 0]],
        ],
        asks: &[0, ROLLBACK, 1, ROLLBACK],
        outcome: -1,
    },
    // A literal that stands alone is told with its column and its row.
    Case {
        does: Does::Sets(&[(2, Term::Number(9_223_372_036_854_775_808))]),
        found: [&[[2, 0, 0]], &[[2, 0, 0]], &[], &[]],
        asks: &[0, ROLLBACK, 1, ROLLBACK],
        outcome: -101,
    },
    // Nothing changes: nothing goes out.
    Case {
        does: Does::Sets(&[(1, Term::Plus("v", 0))]),
        found: [&[[2, 5, 5]], &[[2, 5, 5]], &[], &[]],
        asks: &[0, END, 1, END],
        outcome: 0,
    },
    Case {
        does: Does::Deletes,
        found: [
            &[[2, 0, 0], [4, 0, 0]],
            &[[2, 0, 0], [4, 0, 0]],
            &[[-1, 0, 0], [3, 0, 0]],
            &[[-1, 0, 0], [3, 0, 0]],
        ],
        asks: &[0, DEL, 2, 4, 1, DEL, 2, 4, 1, DEL, -1, 3, 0, DEL, -1, 3],
        outcome: 4,
    },
    // A partition without such rows is asked nothing.
    Case {
        does: Does::Deletes,
        found: [&[], &[], &[[5, 0, 0]], &[[5, 0, 0]]],
        asks: &[1, DEL, 5, 0, DEL, 5],
        outcome: 1,
    },
    // FOR UPDATE scans all links, and the rows of one of each partition are the answer.
    Case {
        does: Does::Reads,
        found: [&[[2, 0, 0]], &[[2, 0, 0]], &[[1, 0, 0]], &[[1, 0, 0]]],
        asks: &[0, END, 1, END],
        outcome: 1_002,
    },
];

fn name(alloc: Global, text: &str) -> Result<Name, Fail> {
    Ok(
        Name::from_text(Text::from_str(alloc, text)?)
            .ok()
            .ok_or("a name")?,
    )
}

fn columns(alloc: Global) -> Result<ColumnDefs, Fail> {
    let mut columns = Listed::new(alloc);
    for column in ["k", "v", "w"] {
        columns.push(ColumnDef {
            name: name(alloc, column)?,
            kind: Kind::BigInt,
        })?;
    }
    Ok(columns)
}

fn column(alloc: Global, column: &str) -> Result<Expr, Fail> {
    Ok(Expr::Column(ColumnName {
        table: None,
        column: name(alloc, column)?,
    }))
}

fn number(number: i128) -> Expr {
    Expr::Literal(Literal::Number(number))
}

fn sum(alloc: Global, first: Expr, second: Expr) -> Result<Expr, Fail> {
    let mut parts = Items::new(alloc);
    parts.push(Addend {
        subtracted: false,
        expr: first,
    })?;
    parts.push(Addend {
        subtracted: false,
        expr: second,
    })?;
    Ok(Expr::Sum(parts))
}

fn value_set(alloc: Global, term: Term) -> Result<Expr, Fail> {
    match term {
        Term::Number(literal) => Ok(number(literal)),
        Term::Plus(name, literal) => sum(alloc, column(alloc, name)?, number(literal)),
    }
}

fn sets(alloc: Global, terms: &[(u32, Term)]) -> Result<SetColumns, Fail> {
    let mut sets = Listed::new(alloc);
    for (column, value) in terms {
        sets.push(SetColumn {
            column: *column,
            value: value_set(alloc, *value)?,
        })?;
    }
    Ok(sets)
}

fn changing(alloc: Global, terms: &[(u32, Term)]) -> Result<Changing, Fail> {
    Ok(Changing {
        table: TableDef {
            name: name(alloc, "t")?,
            columns: columns(alloc)?,
            key: 0,
        },
        rule: Placing::new(Rule::Hash(2)),
        sets: sets(alloc, terms)?,
    })
}

/// All rows, in the order of their keys.
fn by_key(alloc: Global) -> Result<Deed, Fail> {
    let mut order = Listed::new(alloc);
    order.push(Sort {
        column: 0,
        rising: true,
    })?;
    Ok(Deed::Select {
        order,
        skip: 0,
        most: None,
    })
}

fn deed(alloc: Global, does: Does) -> Result<Deed, Fail> {
    match does {
        Does::Reads => by_key(alloc),
        Does::Sets(terms) => Ok(Deed::Update(changing(alloc, terms)?)),
        Does::Deletes => Ok(Deed::Delete(Placing::new(Rule::Hash(2)))),
    }
}

fn branches(alloc: Global) -> Result<Branches, Fail> {
    let mut branches = Listed::new(alloc);
    for server in 0..2 {
        branches.push(Branch {
            server,
            xid: Xid {
                gtrid: Text::from_str(alloc, "f.1.1")?,
                bqual: Text::from_str(alloc, "s")?,
            },
            begun: false,
        })?;
    }
    Ok(branches)
}

fn targets(alloc: Global) -> Result<Targets, Fail> {
    let mut targets = Listed::new(alloc);
    for (part, server, counts) in [(0, 0, true), (0, 1, false), (1, 1, true), (1, 0, false)] {
        targets.push(Target {
            part,
            server,
            remote: name(alloc, "t")?,
            counts,
        })?;
    }
    Ok(targets)
}

fn scan(alloc: Global) -> Result<TableScan, Fail> {
    let mut kinds = Listed::new(alloc);
    for _ in 0..3 {
        kinds.push(Kind::BigInt)?;
    }
    Ok(TableScan {
        key: name(alloc, "k")?,
        place: 0,
        kinds,
        items: ScanItems::All,
        cond: None,
        limit: None,
        lock: LockMode::Exclusive,
    })
}

fn row(alloc: Global, values: &Three) -> Result<Row, Fail> {
    let mut row = Listed::new(alloc);
    for value in values {
        row.push(Value::Number(*value))?;
    }
    Ok(row)
}

fn rows(alloc: Global, all: &[Three]) -> Result<Rows, Fail> {
    let mut rows = Listed::new(alloc);
    for values in all {
        rows.push(row(alloc, values)?)?;
    }
    Ok(rows)
}

fn push_rows(out: &mut Vec<i64>, rows: &Rows) -> Result<(), Fail> {
    for row in rows.as_slice() {
        for value in row.as_slice() {
            if let Value::Number(number) = value {
                out.push(*number)?;
            }
        }
    }
    Ok(())
}

fn push_request(out: &mut Vec<i64>, request: &LinkRequest) -> Result<(), Fail> {
    match request {
        LinkRequest::Scan(_) => out.push(SCAN)?,
        LinkRequest::End(_) => out.push(END)?,
        LinkRequest::Rollback(_) => out.push(ROLLBACK)?,
        LinkRequest::Put { table: _, rows } => {
            out.push(PUT)?;
            push_rows(out, rows)?;
        }
        LinkRequest::Del {
            table: _,
            key: _,
            keys,
        } => {
            out.push(DEL)?;
            out.extend_from_slice(keys.as_slice())?;
        }
        _ => out.push(9)?,
    }
    Ok(())
}

/// The requests that go out, as numbers.
fn asked(alloc: Global, progress: &Progress) -> Result<Vec<i64>, Fail> {
    let mut out = Vec::new(alloc);
    if let Progress::Asks(asks) = progress {
        for ask in asks.as_slice() {
            out.push(i64::from(ask.server))?;
            push_request(&mut out, &ask.request)?;
        }
    }
    Ok(out)
}

/// How a statement came out: rows written, -1 or less for a row that is refused, from 1,000 on rows that were found.
fn told(outcome: &Outcome) -> i64 {
    match outcome {
        Outcome::Done(count) => (*count % 1_000) as i64,
        Outcome::Found(rows) => 1_000 + (rows.len() % 1_000) as i64,
        Outcome::RowRefused(RowFault::Arithmetic) => -1,
        Outcome::RowRefused(RowFault::OutOfRange { column: _, row }) => -100 - (*row % 100) as i64,
        Outcome::RowRefused(RowFault::TooLong { column: _, row }) => -200 - (*row % 100) as i64,
        _ => 9_999,
    }
}

fn hear(alloc: Global, job: &mut Job, answer: LinkAnswer) -> Result<Progress, Fail> {
    if !job.awaits(&answer) {
        return Err(Fail::from("no such answer is due"));
    }
    Ok(job.hear(alloc, answer)?)
}

fn pass(alloc: Global, job: &mut Job, answer: LinkAnswer) -> Result<(), Fail> {
    let _next = hear(alloc, job, answer)?;
    Ok(())
}

fn begin(alloc: Global, job: &mut Job) -> Result<(), Fail> {
    let _starts = job.begin(alloc)?;
    Ok(())
}

fn answer(alloc: Global, found: &[Three]) -> Result<LinkAnswer, Fail> {
    Ok(LinkAnswer::Rows(rows(alloc, found)?))
}

fn find(alloc: Global, job: &mut Job, found: &[Three]) -> Result<(), Fail> {
    pass(alloc, job, answer(alloc, found)?)
}

/// What follows the last scan.
fn scanned(alloc: Global, job: &mut Job, found: &[&[Three]; 4]) -> Result<Progress, Fail> {
    let [first, second, third, last] = found;
    begin(alloc, job)?;
    pass(alloc, job, LinkAnswer::Done(0))?;
    pass(alloc, job, LinkAnswer::Done(0))?;
    find(alloc, job, first)?;
    find(alloc, job, second)?;
    find(alloc, job, third)?;
    hear(alloc, job, answer(alloc, last)?)
}

fn asks_of(alloc: Global, job: &mut Job, found: &[&[Three]; 4]) -> Result<Vec<i64>, Fail> {
    let next = scanned(alloc, job, found)?;
    asked(alloc, &next)
}

fn end_of(progress: &Progress) -> Option<i64> {
    match progress {
        Progress::Over { ending: _, outcome } => Some(told(outcome)),
        _ => None,
    }
}

fn done(alloc: Global, job: &mut Job) -> Result<Option<i64>, Fail> {
    let next = hear(alloc, job, LinkAnswer::Done(0))?;
    Ok(end_of(&next))
}

/// How it comes out, where all else is done.
fn outcome(alloc: Global, job: &mut Job) -> Result<i64, Fail> {
    for _ in 0..100 {
        if let Some(end) = done(alloc, job)? {
            return Ok(end);
        }
    }
    Err(Fail::from("no end"))
}

fn job_of(alloc: Global, deed: Deed) -> Result<Job, Fail> {
    let branches = branches(alloc)?;
    let targets = targets(alloc)?;
    let scan = scan(alloc)?;
    Ok(Job::new(alloc, branches, targets, scan, deed))
}

fn goes_right(alloc: Global, job: &mut Job, case: &Case) -> Result<bool, Fail> {
    let asks = asks_of(alloc, job, &case.found)?;
    Ok(asks.as_slice() == case.asks && outcome(alloc, job)? == case.outcome)
}

fn is_right(alloc: Global, case: &Case) -> Result<bool, Fail> {
    let mut job = job_of(alloc, deed(alloc, case.does)?)?;
    goes_right(alloc, &mut job, case)
}

#[test]
fn statements_write_to_each_link(rt: HostRuntime) -> Result<(), Fail> {
    for (place, case) in CASES.iter().enumerate() {
        assert!(rt; is_right(rt.alloc(), case)?, "case {place}");
    }
    Ok(())
}
