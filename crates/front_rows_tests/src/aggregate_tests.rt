//! Worked examples of aggregates. Nothing here promises anything to a proof.

use front_rows::AggFun::{Count, Max, Min, Sum};
use front_rows::*;
use list_types::{Listed, Text};
use sql_text::{Cell, LinkAnswer};
use sql_values::Kind;
use std::test::*;

const NUMBER: Kind = Kind::BigInt;

const TEXT: Kind = Kind::VarChar(20);

fn cell(rt: &HostRuntime, text: Option<&str>) -> Result<Cell, Fail> {
    match text {
        Some(text) => Ok(Some(Text::from_str(rt.alloc(), text)?)),
        None => Ok(None),
    }
}

fn cells(rt: &HostRuntime, texts: &[Option<&str>]) -> Result<CellRow, Fail> {
    let mut row = Listed::new(rt.alloc());
    for text in texts {
        row.push(cell(rt, *text)?)?;
    }
    Ok(row)
}

// The answer with these rows, of one cell each.
fn answer(rt: &HostRuntime, rows: &[Option<&str>]) -> Result<LinkAnswer, Fail> {
    let mut list = Listed::new(rt.alloc());
    for text in rows {
        list.push(cells(rt, &[*text])?)?;
    }
    Ok(LinkAnswer::Cells(list))
}

fn parts(rt: &HostRuntime, texts: &[Option<&str>]) -> Result<Answers, Fail> {
    let mut parts = Listed::new(rt.alloc());
    for text in texts {
        parts.push(answer(rt, &[*text])?)?;
    }
    Ok(parts)
}

fn alone(rt: &HostRuntime, fun: AggFun, kind: Kind) -> Result<Aggregates, Fail> {
    let mut items = Listed::new(rt.alloc());
    items.push(Aggregate {
        fun,
        column: 0,
        kind,
    })?;
    Ok(items)
}

// Whether what the parts say of one aggregate merges to this.
fn merges(
    rt: &HostRuntime,
    fun: AggFun,
    kind: Kind,
    texts: &[Option<&str>],
    wanted: Option<&str>,
) -> Result<bool, Fail> {
    let items = alone(rt, fun, kind)?;
    let parts = parts(rt, texts)?;
    let wanted = cells(rt, &[wanted])?;
    match merge_aggregates(rt.alloc(), &items, &parts) {
        Ok(merged) => Ok(merged == wanted),
        Err(_) => Ok(false),
    }
}

fn is_beyond(rt: &HostRuntime, texts: &[Option<&str>]) -> Result<bool, Fail> {
    let items = alone(rt, Sum, NUMBER)?;
    let parts = parts(rt, texts)?;
    match merge_aggregates(rt.alloc(), &items, &parts) {
        Ok(_) => Ok(false),
        Err(fault) => Ok(fault == RowsFault::Limit),
    }
}

#[test]
fn nothing_has_a_count(rt: HostRuntime) -> Result<(), Fail> {
    let no_part = merges(&rt, Count, NUMBER, &[], Some("0"))?;
    assert!(rt; no_part);
    let empty = merges(&rt, Count, NUMBER, &[Some("0"), Some("0")], Some("0"))?;
    assert!(rt; empty);
    let some = merges(
        &rt,
        Count,
        NUMBER,
        &[Some("2"), Some("0"), Some("40")],
        Some("42"),
    )?;
    assert!(rt; some);
    Ok(())
}

#[test]
fn nothing_has_no_sum(rt: HostRuntime) -> Result<(), Fail> {
    let no_part = merges(&rt, Sum, NUMBER, &[], None)?;
    assert!(rt; no_part);
    let sum = merges(&rt, Sum, NUMBER, &[None, None], None)?;
    assert!(rt; sum);
    let least = merges(&rt, Min, TEXT, &[None, None], None)?;
    assert!(rt; least);
    let greatest = merges(&rt, Max, NUMBER, &[None], None)?;
    assert!(rt; greatest);
    Ok(())
}

#[test]
fn sums_are_added(rt: HostRuntime) -> Result<(), Fail> {
    let sum = merges(&rt, Sum, NUMBER, &[Some("5"), None, Some("-7")], Some("-2"))?;
    assert!(rt; sum);
    let large = Some("9223372036854775807");
    let beyond_64_bits = merges(
        &rt,
        Sum,
        NUMBER,
        &[large, large],
        Some("18446744073709551614"),
    )?;
    assert!(rt; beyond_64_bits);
    let most = Some("170141183460469231731687303715884105727");
    let at = is_beyond(&rt, &[most, None])?;
    assert!(rt; !at);
    let over = is_beyond(&rt, &[most, Some("1")])?;
    assert!(rt; over);
    Ok(())
}

#[test]
fn numbers_by_number(rt: HostRuntime) -> Result<(), Fail> {
    let least = merges(
        &rt,
        Min,
        NUMBER,
        &[Some("-9"), None, Some("-10")],
        Some("-10"),
    )?;
    assert!(rt; least);
    let greatest = merges(
        &rt,
        Max,
        NUMBER,
        &[Some("-9"), Some("-10"), None],
        Some("-9"),
    )?;
    assert!(rt; greatest);
    let longer = merges(&rt, Max, NUMBER, &[Some("9"), Some("10")], Some("10"))?;
    assert!(rt; longer);
    Ok(())
}

#[test]
fn texts_by_bytes(rt: HostRuntime) -> Result<(), Fail> {
    let least = merges(
        &rt,
        Min,
        TEXT,
        &[Some("b"), Some("B"), Some("a")],
        Some("B"),
    )?;
    assert!(rt; least);
    let greatest = merges(&rt, Max, TEXT, &[Some("z"), Some("é"), None], Some("é"))?;
    assert!(rt; greatest);
    let shorter = merges(&rt, Min, TEXT, &[Some("9"), Some("10"), Some("")], Some(""))?;
    assert!(rt; shorter);
    Ok(())
}

// Whether an answer of these rows may be that of the aggregate.
fn fits(rt: &HostRuntime, fun: AggFun, kind: Kind, rows: &[Option<&str>]) -> Result<bool, Fail> {
    let items = alone(rt, fun, kind)?;
    let answer = answer(rt, rows)?;
    Ok(is_part(items.as_slice(), &answer))
}

#[test]
fn counts_and_sums_fit(rt: HostRuntime) -> Result<(), Fail> {
    let count = fits(&rt, Count, NUMBER, &[Some("0")])?;
    assert!(rt; count);
    let negative = fits(&rt, Count, NUMBER, &[Some("-1")])?;
    assert!(rt; !negative);
    let null = fits(&rt, Count, NUMBER, &[None])?;
    assert!(rt; !null);
    let sum = fits(
        &rt,
        Sum,
        NUMBER,
        &[Some("-170141183460469231731687303715884105728")],
    )?;
    assert!(rt; sum);
    let beyond = fits(
        &rt,
        Sum,
        NUMBER,
        &[Some("170141183460469231731687303715884105728")],
    )?;
    assert!(rt; !beyond);
    let no_rows = fits(&rt, Sum, NUMBER, &[None])?;
    assert!(rt; no_rows);
    Ok(())
}

#[test]
fn values_fit(rt: HostRuntime) -> Result<(), Fail> {
    let least = fits(&rt, Min, NUMBER, &[Some("-9223372036854775808")])?;
    assert!(rt; least);
    let beyond = fits(&rt, Max, NUMBER, &[Some("9223372036854775808")])?;
    assert!(rt; !beyond);
    let signed = fits(&rt, Max, NUMBER, &[Some("+1")])?;
    assert!(rt; !signed);
    let text = fits(&rt, Max, TEXT, &[Some("+1")])?;
    assert!(rt; text);
    Ok(())
}

#[test]
fn one_row_fits(rt: HostRuntime) -> Result<(), Fail> {
    let no_row = fits(&rt, Sum, NUMBER, &[])?;
    assert!(rt; !no_row);
    let two_rows = fits(&rt, Sum, NUMBER, &[Some("1"), Some("1")])?;
    assert!(rt; !two_rows);
    let other = is_part(&[], &LinkAnswer::Rows(Listed::new(rt.alloc())));
    assert!(rt; !other);
    Ok(())
}
