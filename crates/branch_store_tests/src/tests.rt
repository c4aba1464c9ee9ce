//! Requests on two connections, each with its answer. Nothing here promises anything to a proof.

use branch_store::*;
use list_types::{Listed, Text};
use sql_text::{AggregateCall, Cell, LinkAnswer, LinkRequest, Scan, ScanItems};
use sql_values::{
    ColumnDef, ColumnName, Comparison, Cond, Kind, Literal, Literals, LockMode, Name, Operand, Row,
    Rows, TableDef, TableDefs, Value, Xid, Xids,
};
use std::test::*;

/// A request for the table t, with the branch's global part or with keys and numbers.
#[derive(Clone, Copy)]
enum Ask {
    Start(&'static str),
    End(&'static str),
    Prepare(&'static str),
    Commit(&'static str),
    Rollback(&'static str),
    Recover,
    Scan(u64),
    // an aggregate of a table, of which at most so many rows are wanted
    Total(&'static str, Total, u64),
    // rows whose key is one of these, lies between these, is at least this, at most so many
    ScanIn(&'static [i64], u64),
    ScanBetween(i64, i64, u64),
    ScanFrom(i64, u64),
    Put(i64, i64),
    PutKeyAlone(i64),
    Del(i64, i64),
    Clear(i64, i64),
}

/// An aggregate.
#[derive(Clone, Copy)]
enum Total {
    Count,
    Sum(&'static str),
    Min(&'static str),
    Max(&'static str),
}

/// What it is to answer.
#[derive(Clone, Copy)]
enum Told {
    Done(u64),
    Refused(u16),
    Keys(&'static [i64]),
    Branches(&'static [u8]),
    Cell(&'static str),
    // one row of a NULL, and no row
    Null,
    NoCells,
}

fn name(rt: &HostRuntime, text: &str) -> Result<Name, Fail> {
    match Name::from_text(Text::from_str(rt.alloc(), text)?) {
        Ok(name) => Ok(name),
        Err(_) => Err(Fail::from("no name")),
    }
}

fn column(rt: &HostRuntime, text: &str, kind: Kind) -> Result<ColumnDef, Fail> {
    let name = name(rt, text)?;
    Ok(ColumnDef { name, kind })
}

fn columns(rt: &HostRuntime, second: &str, kind: Kind) -> Result<Listed<ColumnDef>, Fail> {
    let mut columns = Listed::new(rt.alloc());
    columns.push(column(rt, "k", Kind::BigInt)?)?;
    columns.push(column(rt, second, kind)?)?;
    Ok(columns)
}

fn table(rt: &HostRuntime, table: &str, second: &str, kind: Kind) -> Result<TableDef, Fail> {
    let name = name(rt, table)?;
    Ok(TableDef {
        name,
        columns: columns(rt, second, kind)?,
        key: 0,
    })
}

// t (k BIGINT, n BIGINT) and u (k BIGINT, s VARCHAR(9)), by k
fn tables(rt: &HostRuntime) -> Result<TableDefs, Fail> {
    let mut tables = Listed::new(rt.alloc());
    tables.push(table(rt, "t", "n", Kind::BigInt)?)?;
    tables.push(table(rt, "u", "s", Kind::VarChar(9))?)?;
    Ok(tables)
}

fn opened(rt: &HostRuntime) -> Result<BranchStore, Fail> {
    let tables = tables(rt)?;
    if are_tables(&tables) {
        Ok(BranchStore::new(rt.alloc(), tables)?)
    } else {
        Err(Fail::from("no tables"))
    }
}

fn xid(rt: &HostRuntime, text: &str) -> Result<Xid, Fail> {
    let gtrid = Text::from_str(rt.alloc(), text)?;
    Ok(Xid {
        gtrid,
        bqual: Text::from_str(rt.alloc(), "1")?,
    })
}

fn scan(rt: &HostRuntime, most: u64) -> Result<Scan, Fail> {
    let table = name(rt, "t")?;
    Ok(Scan {
        table,
        items: ScanItems::All,
        cond: None,
        order: Some(name(rt, "k")?),
        limit: Some(most),
        lock: LockMode::Shared,
    })
}

fn column_name(rt: &HostRuntime, text: &str) -> Result<ColumnName, Fail> {
    let column = name(rt, text)?;
    Ok(ColumnName {
        table: None,
        column,
    })
}

fn key_column(rt: &HostRuntime) -> Result<ColumnName, Fail> {
    column_name(rt, "k")
}

fn call(rt: &HostRuntime, total: Total) -> Result<AggregateCall, Fail> {
    match total {
        Total::Count => Ok(AggregateCall::Count),
        Total::Sum(column) => Ok(AggregateCall::Sum(column_name(rt, column)?)),
        Total::Min(column) => Ok(AggregateCall::Min(column_name(rt, column)?)),
        Total::Max(column) => Ok(AggregateCall::Max(column_name(rt, column)?)),
    }
}

fn calls(rt: &HostRuntime, total: Total) -> Result<ScanItems, Fail> {
    let mut calls = Listed::new(rt.alloc());
    calls.push(call(rt, total)?)?;
    Ok(ScanItems::Aggregates(calls))
}

fn total_of(rt: &HostRuntime, table: &str, total: Total, most: u64) -> Result<LinkRequest, Fail> {
    let table = name(rt, table)?;
    Ok(LinkRequest::Scan(Scan {
        table,
        items: calls(rt, total)?,
        cond: None,
        order: None,
        limit: Some(most),
        lock: LockMode::Shared,
    }))
}

fn literals(rt: &HostRuntime, keys: &[i64]) -> Result<Literals, Fail> {
    let mut list = Listed::new(rt.alloc());
    for key in keys {
        list.push(Literal::Number(i128::from(*key)))?;
    }
    Ok(list)
}

fn is_in(rt: &HostRuntime, keys: &[i64]) -> Result<Cond, Fail> {
    let column = key_column(rt)?;
    Ok(Cond::In {
        column,
        negated: false,
        list: literals(rt, keys)?,
    })
}

fn is_between(rt: &HostRuntime, low: i64, high: i64) -> Result<Cond, Fail> {
    Ok(Cond::Between {
        column: key_column(rt)?,
        negated: false,
        low: Literal::Number(i128::from(low)),
        high: Literal::Number(i128::from(high)),
    })
}

fn is_from(rt: &HostRuntime, low: i64) -> Result<Cond, Fail> {
    Ok(Cond::Compare {
        left: Operand::Column(key_column(rt)?),
        comparison: Comparison::AtLeast,
        right: Operand::Literal(Literal::Number(i128::from(low))),
    })
}

fn scan_by(rt: &HostRuntime, cond: Cond, most: u64) -> Result<LinkRequest, Fail> {
    let mut scan = scan(rt, most)?;
    scan.cond = Some(cond);
    Ok(LinkRequest::Scan(scan))
}

fn row(rt: &HostRuntime, key: i64, number: Option<i64>) -> Result<Row, Fail> {
    let mut row = Listed::new(rt.alloc());
    row.push(Value::Number(key))?;
    if let Some(number) = number {
        row.push(Value::Number(number))?;
    }
    Ok(row)
}

fn put(rt: &HostRuntime, key: i64, number: Option<i64>) -> Result<LinkRequest, Fail> {
    let mut rows = Listed::new(rt.alloc());
    rows.push(row(rt, key, number)?)?;
    Ok(LinkRequest::Put {
        table: name(rt, "t")?,
        rows,
    })
}

fn del(rt: &HostRuntime, first: i64, second: i64) -> Result<LinkRequest, Fail> {
    let mut keys = Listed::new(rt.alloc());
    keys.push(first)?;
    keys.push(second)?;
    let table = name(rt, "t")?;
    Ok(LinkRequest::Del {
        table,
        key: name(rt, "k")?,
        keys,
    })
}

fn clear(rt: &HostRuntime, low: i64, high: i64) -> Result<LinkRequest, Fail> {
    let table = name(rt, "t")?;
    Ok(LinkRequest::Clear {
        table,
        key: name(rt, "k")?,
        low,
        high,
    })
}

fn request(rt: &HostRuntime, ask: Ask) -> Result<LinkRequest, Fail> {
    match ask {
        Ask::Start(text) => Ok(LinkRequest::Start(xid(rt, text)?)),
        Ask::End(text) => Ok(LinkRequest::End(xid(rt, text)?)),
        Ask::Prepare(text) => Ok(LinkRequest::Prepare(xid(rt, text)?)),
        Ask::Commit(text) => Ok(LinkRequest::Commit(xid(rt, text)?)),
        Ask::Rollback(text) => Ok(LinkRequest::Rollback(xid(rt, text)?)),
        Ask::Recover => Ok(LinkRequest::Recover),
        Ask::Scan(most) => Ok(LinkRequest::Scan(scan(rt, most)?)),
        Ask::Total(table, call, most) => total_of(rt, table, call, most),
        Ask::ScanIn(keys, most) => scan_by(rt, is_in(rt, keys)?, most),
        Ask::ScanBetween(low, high, most) => scan_by(rt, is_between(rt, low, high)?, most),
        Ask::ScanFrom(low, most) => scan_by(rt, is_from(rt, low)?, most),
        Ask::Put(key, number) => put(rt, key, Some(number)),
        Ask::PutKeyAlone(key) => put(rt, key, None),
        Ask::Del(first, second) => del(rt, first, second),
        Ask::Clear(low, high) => clear(rt, low, high),
    }
}

fn have_keys(rows: &Rows, keys: &[i64]) -> bool {
    let mut left = keys;
    for row in rows.as_slice() {
        let Some((key, others)) = left.split_first() else {
            return false;
        };
        match row.as_slice().first() {
            Some(Value::Number(number)) if *number == *key => left = others,
            _ => return false,
        }
    }
    left.is_empty()
}

fn have_names(xids: &Xids, names: &[u8]) -> bool {
    let mut left = names;
    for xid in xids.as_slice() {
        let Some((name, others)) = left.split_first() else {
            return false;
        };
        match xid.gtrid.as_str().as_bytes().first() {
            Some(byte) if *byte == *name => left = others,
            _ => return false,
        }
    }
    left.is_empty()
}

fn has_text(cell: &Cell, text: &str) -> bool {
    match cell {
        Some(cell) => cell.as_str() == text,
        None => false,
    }
}

/// One row of one cell, with this text.
fn is_cell(rows: &[Listed<Cell>], text: &str) -> bool {
    match rows {
        [row] => row.len() == 1 && row.as_slice().iter().all(|cell| has_text(cell, text)),
        _ => false,
    }
}

/// One row of one NULL.
fn is_null(rows: &[Listed<Cell>]) -> bool {
    match rows {
        [row] => row.len() == 1 && row.as_slice().iter().all(|cell| cell.is_none()),
        _ => false,
    }
}

fn is_told(answer: &LinkAnswer, told: Told) -> bool {
    match (answer, told) {
        (LinkAnswer::Done(count), Told::Done(wanted)) => *count == wanted,
        (LinkAnswer::Refused { number, message: _ }, Told::Refused(wanted)) => *number == wanted,
        (LinkAnswer::Rows(rows), Told::Keys(keys)) => have_keys(rows, keys),
        (LinkAnswer::Xids(xids), Told::Branches(names)) => have_names(xids, names),
        (LinkAnswer::Cells(rows), Told::Cell(text)) => is_cell(rows.as_slice(), text),
        (LinkAnswer::Cells(rows), Told::Null) => is_null(rows.as_slice()),
        (LinkAnswer::Cells(rows), Told::NoCells) => rows.is_empty(),
        _ => false,
    }
}

fn step(
    rt: &HostRuntime,
    store: &mut BranchStore,
    conn: u32,
    ask: Ask,
    told: Told,
) -> Result<bool, Fail> {
    let request = request(rt, ask)?;
    Ok(is_told(&store.ask(rt.alloc(), conn, &request)?, told))
}

fn play(
    rt: &HostRuntime,
    store: &mut BranchStore,
    steps: &[(u32, Ask, Told)],
) -> Result<bool, Fail> {
    for (conn, ask, told) in steps {
        if !step(rt, store, *conn, *ask, *told)? {
            return Ok(false);
        }
    }
    Ok(true)
}

// a is prepared with the rows 1 and 2
fn prepared(rt: &HostRuntime) -> Result<BranchStore, Fail> {
    let mut store = opened(rt)?;
    let steps = [
        (1, Ask::Start("a"), Told::Done(0)),
        (1, Ask::Put(2, 20), Told::Done(1)),
        (1, Ask::Put(1, 10), Told::Done(1)),
        (1, Ask::End("a"), Told::Done(0)),
        (1, Ask::Prepare("a"), Told::Done(0)),
    ];
    if play(rt, &mut store, &steps)? {
        Ok(store)
    } else {
        Err(Fail::from("not prepared"))
    }
}

#[test]
fn a_branch_is_committed_by_another_connection(rt: HostRuntime) -> Result<(), Fail> {
    let mut store = prepared(&rt)?;
    let steps = [
        (2, Ask::Start("b"), Told::Done(0)),
        (2, Ask::Scan(9), Told::Keys(&[])),
        (2, Ask::Commit("a"), Told::Done(0)),
        (2, Ask::Scan(9), Told::Keys(&[1, 2])),
        (2, Ask::Scan(1), Told::Keys(&[1])),
    ];
    assert!(rt; play(&rt, &mut store, &steps)?);
    Ok(())
}

#[test]
fn a_branch_sees_its_own_changes(rt: HostRuntime) -> Result<(), Fail> {
    let mut store = opened(&rt)?;
    let steps = [
        (1, Ask::Start("a"), Told::Done(0)),
        (1, Ask::Put(3, 30), Told::Done(1)),
        (1, Ask::Put(5, 50), Told::Done(1)),
        (1, Ask::Del(3, 4), Told::Done(1)),
        (1, Ask::Scan(9), Told::Keys(&[5])),
        (1, Ask::Clear(0, 9), Told::Done(1)),
        (1, Ask::Scan(9), Told::Keys(&[])),
    ];
    assert!(rt; play(&rt, &mut store, &steps)?);
    Ok(())
}

// a has committed the rows with these keys
fn committed(rt: &HostRuntime, keys: &[i64]) -> Result<BranchStore, Fail> {
    let mut store = opened(rt)?;
    let mut is_done = step(rt, &mut store, 1, Ask::Start("a"), Told::Done(0))?;
    for key in keys {
        is_done = is_done && step(rt, &mut store, 1, Ask::Put(*key, 0), Told::Done(1))?;
    }
    let steps = [
        (1, Ask::End("a"), Told::Done(0)),
        (1, Ask::Prepare("a"), Told::Done(0)),
        (1, Ask::Commit("a"), Told::Done(0)),
        (1, Ask::Start("b"), Told::Done(0)),
    ];
    if is_done && play(rt, &mut store, &steps)? {
        Ok(store)
    } else {
        Err(Fail::from("not committed"))
    }
}

#[test]
fn rows_are_found_by_their_keys(rt: HostRuntime) -> Result<(), Fail> {
    let mut store = committed(&rt, &[9, 1, 5, 3, 7])?;
    let steps = [
        (1, Ask::ScanIn(&[5], 9), Told::Keys(&[5])),
        (1, Ask::ScanIn(&[7, 2, 1], 9), Told::Keys(&[1, 7])),
        (1, Ask::ScanIn(&[7, 5, 1], 2), Told::Keys(&[1, 5])),
        (1, Ask::ScanBetween(3, 7, 9), Told::Keys(&[3, 5, 7])),
        (1, Ask::ScanBetween(7, 3, 9), Told::Keys(&[])),
        (1, Ask::ScanFrom(5, 9), Told::Keys(&[5, 7, 9])),
        (1, Ask::ScanFrom(5, 1), Told::Keys(&[5])),
    ];
    assert!(rt; play(&rt, &mut store, &steps)?);
    Ok(())
}

#[test]
fn rows_are_found_among_own_changes(rt: HostRuntime) -> Result<(), Fail> {
    let mut store = committed(&rt, &[1, 3, 5])?;
    let steps = [
        (1, Ask::Put(4, 40), Told::Done(1)),
        (1, Ask::Put(8, 80), Told::Done(1)),
        (1, Ask::Del(3, 8), Told::Done(2)),
        (1, Ask::ScanBetween(3, 9, 9), Told::Keys(&[4, 5])),
        (1, Ask::ScanIn(&[8, 3], 9), Told::Keys(&[])),
        (1, Ask::ScanFrom(4, 1), Told::Keys(&[4])),
        (2, Ask::Start("c"), Told::Done(0)),
        (2, Ask::ScanBetween(3, 9, 9), Told::Keys(&[3, 5])),
    ];
    assert!(rt; play(&rt, &mut store, &steps)?);
    Ok(())
}

#[test]
fn what_is_not_in_order_is_refused(rt: HostRuntime) -> Result<(), Fail> {
    let mut store = opened(&rt)?;
    let steps = [
        (1, Ask::Scan(9), Told::Refused(1397)),
        (1, Ask::Start("a"), Told::Done(0)),
        (2, Ask::Start("a"), Told::Refused(1440)),
        (1, Ask::Start("b"), Told::Refused(1399)),
        (2, Ask::End("a"), Told::Refused(1399)),
        (1, Ask::PutKeyAlone(1), Told::Refused(14020)),
        (1, Ask::Commit("a"), Told::Refused(1399)),
    ];
    assert!(rt; play(&rt, &mut store, &steps)?);
    Ok(())
}

#[test]
fn aggregates_of_nothing_are_null(rt: HostRuntime) -> Result<(), Fail> {
    let mut store = opened(&rt)?;
    let steps = [
        (1, Ask::Start("a"), Told::Done(0)),
        (1, Ask::Total("t", Total::Count, 9), Told::Cell("0")),
        (1, Ask::Total("t", Total::Sum("n"), 9), Told::Null),
        (1, Ask::Total("t", Total::Min("n"), 9), Told::Null),
        (1, Ask::Total("u", Total::Max("s"), 9), Told::Null),
    ];
    assert!(rt; play(&rt, &mut store, &steps)?);
    Ok(())
}

#[test]
fn aggregates_are_over_all_rows(rt: HostRuntime) -> Result<(), Fail> {
    let mut store = opened(&rt)?;
    let steps = [
        (1, Ask::Start("a"), Told::Done(0)),
        (1, Ask::Put(1, 5), Told::Done(1)),
        (1, Ask::Put(2, -7), Told::Done(1)),
        (1, Ask::Put(3, 5), Told::Done(1)),
        (1, Ask::Total("t", Total::Count, 1), Told::Cell("3")),
        (1, Ask::Total("t", Total::Sum("n"), 1), Told::Cell("3")),
        (1, Ask::Total("t", Total::Min("n"), 9), Told::Cell("-7")),
        (1, Ask::Total("t", Total::Max("k"), 9), Told::Cell("3")),
        (1, Ask::Total("t", Total::Count, 0), Told::NoCells),
    ];
    assert!(rt; play(&rt, &mut store, &steps)?);
    Ok(())
}

#[test]
fn what_has_no_aggregate_is_refused(rt: HostRuntime) -> Result<(), Fail> {
    let mut store = opened(&rt)?;
    let steps = [
        (1, Ask::Start("a"), Told::Done(0)),
        (1, Ask::Total("u", Total::Sum("s"), 9), Told::Refused(14020)),
        (1, Ask::Total("t", Total::Sum("s"), 9), Told::Refused(1054)),
        (1, Ask::Total("t", Total::Max("x"), 9), Told::Refused(1054)),
    ];
    assert!(rt; play(&rt, &mut store, &steps)?);
    Ok(())
}

#[test]
fn prepared_branches_are_told_in_order(rt: HostRuntime) -> Result<(), Fail> {
    let mut store = prepared(&rt)?;
    let steps = [
        (1, Ask::Start("Z"), Told::Done(0)),
        (1, Ask::End("Z"), Told::Done(0)),
        (1, Ask::Prepare("Z"), Told::Done(0)),
        (2, Ask::Recover, Told::Branches(&[b'Z', b'a'])),
        (2, Ask::Rollback("a"), Told::Done(0)),
        (2, Ask::Recover, Told::Branches(&[b'Z'])),
    ];
    assert!(rt; play(&rt, &mut store, &steps)?);
    Ok(())
}

#[test]
fn a_connection_that_ends_drops_its_branch(rt: HostRuntime) -> Result<(), Fail> {
    let mut store = prepared(&rt)?;
    let begun = step(&rt, &mut store, 1, Ask::Start("b"), Told::Done(0))?;
    store.hangup(1);
    let ended = step(&rt, &mut store, 1, Ask::End("b"), Told::Refused(1397))?;
    let kept = step(&rt, &mut store, 1, Ask::Recover, Told::Branches(&[b'a']))?;
    assert!(rt; begun && ended && kept);
    Ok(())
}

fn viewed(rt: &HostRuntime, store: &BranchStore, text: &str) -> Result<Rows, Fail> {
    let table = name(rt, "t")?;
    let mut xids = Listed::new(rt.alloc());
    xids.push(xid(rt, text)?)?;
    Ok(store.view(rt.alloc(), &table, &xids)?)
}

#[test]
fn a_view_has_prepared_rows(rt: HostRuntime) -> Result<(), Fail> {
    let store = prepared(&rt)?;
    assert!(rt; have_keys(&viewed(&rt, &store, "a")?, &[1, 2]));
    assert!(rt; have_keys(&viewed(&rt, &store, "b")?, &[]));
    Ok(())
}
