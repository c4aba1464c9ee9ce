//! Worked examples. Nothing here promises anything to a proof.

use front_rows::*;
use list_types::{Listed, Text};
use sql_text::LinkAnswer;
use sql_values::{Row, Rows, Value};
use std::test::*;

fn row(rt: &HostRuntime, key: i64, text: &str) -> Result<Row, Fail> {
    let mut row = Listed::new(rt.alloc());
    row.push(Value::Number(key))?;
    row.push(Value::Text(Text::from_str(rt.alloc(), text)?))?;
    Ok(row)
}

fn rows(rt: &HostRuntime, pairs: &[(i64, &str)]) -> Result<Rows, Fail> {
    let mut rows = Listed::new(rt.alloc());
    for (key, text) in pairs {
        rows.push(row(rt, *key, text)?)?;
    }
    Ok(rows)
}

// Three parts; the last has no row.
fn parts(rt: &HostRuntime, first: &[(i64, &str)], second: &[(i64, &str)]) -> Result<Answers, Fail> {
    let mut parts = Listed::new(rt.alloc());
    parts.push(LinkAnswer::Rows(rows(rt, first)?))?;
    parts.push(LinkAnswer::Rows(rows(rt, second)?))?;
    parts.push(LinkAnswer::Rows(rows(rt, &[])?))?;
    Ok(parts)
}

fn order(rt: &HostRuntime, sorts: &[(u32, bool)]) -> Result<Order, Fail> {
    let mut order = Listed::new(rt.alloc());
    for (column, rising) in sorts {
        order.push(Sort {
            column: *column,
            rising: *rising,
        })?;
    }
    Ok(order)
}

fn merges(
    rt: &HostRuntime,
    sorts: &[(u32, bool)],
    skip: u64,
    most: Option<u64>,
    wanted: &[(i64, &str)],
) -> Result<bool, Fail> {
    let parts = parts(
        rt,
        &[(i64::MIN, "b"), (2, "a"), (7, "b")],
        &[(3, "a"), (i64::MAX, "B")],
    )?;
    let order = order(rt, sorts)?;
    let wanted = rows(rt, wanted)?;
    match merge_rows(rt.alloc(), parts, &order, skip, most) {
        Ok(merged) => Ok(merged == wanted),
        Err(_) => Ok(false),
    }
}

#[test]
fn rows_are_merged(rt: HostRuntime) -> Result<(), Fail> {
    let low = (i64::MIN, "b");
    let high = (i64::MAX, "B");
    assert!(rt;
        merges(
            &rt,
            &[(0, true)],
            0,
            None,
            &[low, (2, "a"), (3, "a"), (7, "b"), high]
        )?
    );
    assert!(rt; merges(&rt, &[(0, false)], 0, Some(2), &[high, (7, "b")])?);
    assert!(rt;
        merges(
            &rt,
            &[(1, true)],
            0,
            None,
            &[high, (2, "a"), (3, "a"), low, (7, "b")]
        )?
    );
    assert!(rt; merges(&rt, &[(1, false), (0, false)], 1, Some(2), &[low, (3, "a")])?);
    assert!(rt; merges(&rt, &[], 1, Some(1), &[(2, "a")])?);
    assert!(rt; merges(&rt, &[(0, true)], 4, Some(u64::MAX), &[high])?);
    assert!(rt; merges(&rt, &[(0, true)], u64::MAX, None, &[])?);
    assert!(rt; merges(&rt, &[(0, true)], 0, Some(0), &[])?);
    Ok(())
}

fn is_limited(rt: &HostRuntime, count: i64, skip: u64) -> Result<bool, Fail> {
    let mut rows = Listed::new(rt.alloc());
    for key in 0..count {
        let mut row: Row = Listed::new(rt.alloc());
        row.push(Value::Number(key))?;
        rows.push(row)?;
    }
    let mut parts = Listed::new(rt.alloc());
    parts.push(LinkAnswer::Rows(rows))?;
    let order = order(rt, &[])?;
    match merge_rows(rt.alloc(), parts, &order, skip, None) {
        Ok(_) => Ok(false),
        Err(fault) => Ok(fault == RowsFault::Limit),
    }
}

#[test]
fn too_many_rows(rt: HostRuntime) -> Result<(), Fail> {
    let over = is_limited(&rt, 100_001, 0)?;
    assert!(rt; over);
    let at = is_limited(&rt, 100_001, 1)?;
    assert!(rt; !at);
    Ok(())
}
