//! Plans of SELECTs with ORDER BY, LIMIT and aggregates.

use crate::tests::{plan_with, statement, table, two_parts};
use front_rows::{AggFun, Sort};
use sql_text::{AggregateCall, ScanItems};
use sql_values::Kind;
use std::test::*;
use stmt_plan::*;

fn planned(rt: &HostRuntime, text: &[u8]) -> Result<Plan, Fail> {
    let table = table(rt)?;
    let rule = two_parts(rt)?;
    let statement = statement(rt, text)?;
    match plan_with(rt, &table, &rule, &statement) {
        Ok(plan) => Ok(plan),
        Err(_) => Err(Fail::from("no plan")),
    }
}

fn is_sort(sort: &Sort, column: u32, rising: bool) -> bool {
    sort.column == column && sort.rising == rising
}

// v falling, then k rising, which is the order of the key
fn is_by_v(selected: &Selected) -> bool {
    match selected.order.as_slice() {
        [first, second] => is_sort(first, 1, false) && is_sort(second, 0, true),
        _ => false,
    }
}

#[test]
fn rows_are_ordered_and_cut(rt: HostRuntime) -> Result<(), Fail> {
    let plan = planned(&rt, b"SELECT k FROM t ORDER BY v DESC LIMIT 3, 2")?;
    let right = match &plan.work {
        Work::Select(selected) => {
            is_by_v(selected) && selected.skip == 3 && selected.most == Some(2)
        }
        _ => false,
    };
    assert!(rt; right);
    assert!(rt; plan.limit.is_none());
    Ok(())
}

// how many rows each partition is asked for
fn limit_asked(rt: &HostRuntime, text: &[u8]) -> Result<Option<u64>, Fail> {
    Ok(planned(rt, text)?.limit)
}

#[test]
fn limits_are_pushed(rt: HostRuntime) -> Result<(), Fail> {
    let cases: [(&[u8], Option<u64>); 8] = [
        (b"SELECT * FROM t LIMIT 5", Some(5)),
        (b"SELECT * FROM t LIMIT 5 OFFSET 7", Some(12)),
        (b"SELECT * FROM t ORDER BY k LIMIT 7, 5", Some(12)),
        (b"SELECT * FROM t ORDER BY k DESC LIMIT 5", None),
        (b"SELECT * FROM t ORDER BY k, v LIMIT 5", None),
        (b"SELECT * FROM t LIMIT 5 FOR UPDATE", None),
        (b"SELECT * FROM t LIMIT 5 LOCK IN SHARE MODE", Some(5)),
        (b"SELECT * FROM t LIMIT 18446744073709551615, 1", None),
    ];
    for (text, asked) in cases {
        assert!(rt; limit_asked(&rt, text)? == asked, "{text:?}");
    }
    Ok(())
}

fn is_cell(cell: &CellColumn, fun: AggFun, column: u32, name: &str) -> bool {
    cell.aggregate.fun == fun && cell.aggregate.column == column && cell.name.as_str() == name
}

fn are_cells(plan: &Plan) -> bool {
    match &plan.work {
        Work::Aggregate(cells) => match cells.as_slice() {
            [count, sum, least] => {
                is_cell(count, AggFun::Count, 0, "COUNT(*)")
                    && is_cell(sum, AggFun::Sum, 0, "total")
                    && is_cell(least, AggFun::Min, 1, "MIN(u.v)")
                    && least.aggregate.kind == Kind::VarChar(20)
            }
            _ => false,
        },
        _ => false,
    }
}

fn is_bare_min(call: &AggregateCall) -> bool {
    match call {
        AggregateCall::Min(name) => name.table.is_none() && name.column.as_str() == "v",
        _ => false,
    }
}

fn pushes_aggregates(plan: &Plan) -> bool {
    match &plan.pushed {
        ScanItems::Aggregates(calls) => match calls.as_slice() {
            [_, _, least] => is_bare_min(least),
            _ => false,
        },
        ScanItems::All => false,
    }
}

#[test]
fn aggregates_are_pushed(rt: HostRuntime) -> Result<(), Fail> {
    let plan = planned(
        &rt,
        b"SELECT COUNT(*), SUM(k) AS total, MIN(u.v) FROM t AS u",
    )?;
    assert!(rt; are_cells(&plan));
    assert!(rt; pushes_aggregates(&plan));
    assert!(rt; plan.limit.is_none());
    Ok(())
}
