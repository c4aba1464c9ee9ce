//! Plans and refusals of UPDATE and DELETE, and of SELECTs with lock words.

use crate::tests::{
    column, has_cond_of, has_places, is_told, name, plan_with, statement, two_parts,
};
use list_types::{Listed, Text};
use part_rules::Rule;
use sql_text::{Assignment, Assignments, Delete, Select, TableStatement, Update};
use sql_values::{Addend, ColumnName, Cond, Expr, Kind, Literal, LockMode, TableDef};
use sqlite_items::Items;
use std::test::*;
use stmt_plan::*;

// t (k BIGINT, v VARCHAR(20), n BIGINT), by k
fn table(rt: &HostRuntime) -> Result<TableDef, Fail> {
    let mut columns = Listed::new(rt.alloc());
    columns.push(column(rt, "k", Kind::BigInt)?)?;
    columns.push(column(rt, "v", Kind::VarChar(20))?)?;
    columns.push(column(rt, "n", Kind::BigInt)?)?;
    Ok(TableDef {
        name: name(rt, "t")?,
        columns,
        key: 0,
    })
}

/// An expression of the tests.
#[derive(Clone, Copy)]
enum Given {
    Null,
    Number(i128),
    Text(&'static str),
    Column(&'static str),
    /// The column plus 1.
    Next(&'static str),
    /// NULL plus 1.
    NullAndOne,
}

use crate::write_tests::Given::{Column, Next, Null, NullAndOne, Number, Text as Quoted};

fn column_expr(rt: &HostRuntime, text: &str) -> Result<Expr, Fail> {
    Ok(Expr::Column(ColumnName {
        table: None,
        column: name(rt, text)?,
    }))
}

fn plus_one(rt: &HostRuntime, expr: Expr) -> Result<Expr, Fail> {
    let mut parts = Items::new(rt.alloc());
    parts.push(Addend {
        subtracted: false,
        expr,
    })?;
    parts.push(Addend {
        subtracted: false,
        expr: Expr::Literal(Literal::Number(1)),
    })?;
    Ok(Expr::Sum(parts))
}

fn expr(rt: &HostRuntime, given: Given) -> Result<Expr, Fail> {
    match given {
        Given::Null => Ok(Expr::Literal(Literal::Null)),
        Given::Number(number) => Ok(Expr::Literal(Literal::Number(number))),
        Given::Text(text) => Ok(Expr::Literal(Literal::Text(Text::from_str(rt.alloc(), text)?))),
        Given::Column(text) => column_expr(rt, text),
        Given::Next(text) => plus_one(rt, column_expr(rt, text)?),
        Given::NullAndOne => plus_one(rt, Expr::Literal(Literal::Null)),
    }
}

// the condition of a SELECT
fn where_of(rt: &HostRuntime, text: &[u8]) -> Result<Option<Cond>, Fail> {
    match statement(rt, text)? {
        TableStatement::Select(select) => {
            let Select {
                items: _,
                tab: _,
                cond,
                order: _,
                limit: _,
                lock: _,
            } = select;
            Ok(cond)
        }
        _ => Err(Fail::from("no SELECT")),
    }
}

fn assignments(rt: &HostRuntime, sets: &[(&str, Given)]) -> Result<Assignments, Fail> {
    let mut list = Listed::new(rt.alloc());
    for (column, given) in sets {
        list.push(Assignment {
            column: name(rt, column)?,
            value: expr(rt, *given)?,
        })?;
    }
    Ok(list)
}

fn update(rt: &HostRuntime, sets: &[(&str, Given)], select: &[u8]) -> Result<TableStatement, Fail> {
    Ok(TableStatement::Update(Update {
        table: name(rt, "t")?,
        sets: assignments(rt, sets)?,
        cond: where_of(rt, select)?,
    }))
}

fn delete(rt: &HostRuntime, select: &[u8]) -> Result<TableStatement, Fail> {
    Ok(TableStatement::Delete(Delete {
        table: name(rt, "t")?,
        cond: where_of(rt, select)?,
    }))
}

fn locked(rt: &HostRuntime, select: &[u8], mode: LockMode) -> Result<TableStatement, Fail> {
    match statement(rt, select)? {
        TableStatement::Select(mut select) => {
            select.lock = Some(mode);
            Ok(TableStatement::Select(select))
        }
        _ => Err(Fail::from("no SELECT")),
    }
}

fn planned(rt: &HostRuntime, statement: &TableStatement) -> Result<Result<Plan, StmtFault>, Fail> {
    let table = table(rt)?;
    let rule = two_parts(rt)?;
    Ok(plan_with(rt, &table, &rule, statement))
}

fn is_refused(
    rt: &HostRuntime,
    sets: &[(&str, Given)],
    select: &[u8],
    number: u16,
    column: &str,
) -> Result<bool, Fail> {
    let statement = update(rt, sets, select)?;
    match planned(rt, &statement)? {
        Ok(_) => Ok(number == 0),
        Err(fault) => Ok(is_told(&fault, (number, 0), column)),
    }
}

#[test]
fn names_and_the_key_come_first(rt: HostRuntime) -> Result<(), Fail> {
    let unknown = b"SELECT * FROM t WHERE x = 1".as_slice();
    let compared = b"SELECT * FROM t WHERE n = 'a'".as_slice();
    let other = b"SELECT * FROM t WHERE u.k = 1".as_slice();
    let cases: [(&[(&str, Given)], &[u8], u16, &str); 7] = [
        (&[("w", Number(1))], unknown, 1054, "w"),
        (&[("v", Column("w"))], unknown, 1054, "w"),
        (&[("k", Null), ("n", Next("y"))], unknown, 1054, "y"),
        (&[("k", Null)], unknown, 1054, "x"),
        (&[("n", Column("k"))], other, 1054, "k"),
        (&[("v", Null), ("k", Number(1))], compared, 14009, ""),
        (&[("n", Next("v")), ("v", Null)], compared, 1048, "v"),
    ];
    for (sets, select, number, column) in cases {
        assert!(rt;
            is_refused(&rt, sets, select, number, column)?,
            "{number} {column}"
        );
    }
    Ok(())
}

#[test]
fn types_of_what_is_set(rt: HostRuntime) -> Result<(), Fail> {
    let all = b"SELECT * FROM t".as_slice();
    let compared = b"SELECT * FROM t WHERE n = 'a'".as_slice();
    let cases: [(&[(&str, Given)], &[u8]); 6] = [
        (&[("v", Number(1)), ("v", Null)], all),
        (&[("n", Column("v"))], all),
        (&[("n", Next("v"))], all),
        (&[("n", NullAndOne)], all),
        (&[("v", Next("n"))], all),
        (&[("n", Next("n"))], compared),
    ];
    for (sets, select) in cases {
        assert!(rt; is_refused(&rt, sets, select, 14020, "")?);
    }
    Ok(())
}

// range and length are told of a row
#[test]
fn updates_that_are_not_refused(rt: HostRuntime) -> Result<(), Fail> {
    let all = b"SELECT * FROM t".as_slice();
    let own = b"SELECT * FROM t WHERE t.k = 1".as_slice();
    let long = "aaaaaaaaaaaaaaaaaaaaa";
    assert!(rt; is_refused(&rt, &[("n", Column("k"))], own, 0, "")?);
    assert!(rt; is_refused(&rt, &[("v", Quoted(long))], all, 0, "")?);
    assert!(rt; is_refused(&rt, &[("n", Number(9223372036854775808))], all, 0, "")?);
    Ok(())
}

fn sets_as(plan: &Plan, column: u32, value: &Expr) -> bool {
    match &plan.work {
        Work::Update(sets) => match sets.as_slice() {
            [only] => only.column == column && only.value.is_same(value),
            _ => false,
        },
        _ => false,
    }
}

fn is_update_planned(rt: &HostRuntime, plan: &Plan) -> Result<bool, Fail> {
    let value = expr(rt, Next("n"))?;
    Ok(
        has_places(plan, &[1], &[(0, 5)])
            && sets_as(plan, 2, &value)
            && plan.mode == LockMode::Exclusive
            && has_cond_of(rt, plan, b"SELECT * FROM t WHERE k BETWEEN 0 AND 5")?,
    )
}

#[test]
fn an_update_is_planned(rt: HostRuntime) -> Result<(), Fail> {
    let select = b"SELECT * FROM t WHERE t.k BETWEEN 0 AND 5";
    let statement = update(&rt, &[("n", Next("n"))], select)?;
    match planned(&rt, &statement)? {
        Ok(plan) => {
            let right = is_update_planned(&rt, &plan)?;
            assert!(rt; right);
        }
        Err(_) => {
            assert!(rt; false);
        }
    }
    Ok(())
}

fn is_delete_planned(rt: &HostRuntime, plan: &Plan) -> Result<bool, Fail> {
    Ok(
        has_places(plan, &[0], &[(-2, -2)])
            && matches!(&plan.work, Work::Delete)
            && plan.mode == LockMode::Exclusive
            && has_cond_of(rt, plan, b"SELECT * FROM t WHERE k = -2")?,
    )
}

#[test]
fn a_delete_is_planned(rt: HostRuntime) -> Result<(), Fail> {
    let statement = delete(&rt, b"SELECT * FROM t WHERE t.k = -2")?;
    match planned(&rt, &statement)? {
        Ok(plan) => {
            let right = is_delete_planned(&rt, &plan)?;
            assert!(rt; right);
        }
        Err(_) => {
            assert!(rt; false);
        }
    }
    Ok(())
}

fn is_delete_refused(rt: &HostRuntime, select: &[u8], number: u16) -> Result<bool, Fail> {
    let statement = delete(rt, select)?;
    match planned(rt, &statement)? {
        Ok(_) => Ok(number == 0),
        Err(fault) => Ok(is_told(&fault, (number, 0), "x")),
    }
}

#[test]
fn refusals_of_deletes(rt: HostRuntime) -> Result<(), Fail> {
    assert!(rt; is_delete_refused(&rt, b"SELECT * FROM t", 0)?);
    assert!(rt; is_delete_refused(&rt, b"SELECT * FROM t WHERE n = 'a' OR x = 1", 1054)?);
    Ok(())
}

fn is_locked(rt: &HostRuntime, mode: LockMode) -> Result<bool, Fail> {
    let statement = locked(rt, b"SELECT * FROM t", mode)?;
    match planned(rt, &statement)? {
        Ok(plan) => Ok(plan.mode == mode),
        Err(_) => Ok(false),
    }
}

#[test]
fn lock_words(rt: HostRuntime) -> Result<(), Fail> {
    assert!(rt; is_locked(&rt, LockMode::Exclusive)?);
    assert!(rt; is_locked(&rt, LockMode::Shared)?);
    Ok(())
}
