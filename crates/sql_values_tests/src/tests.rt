use list_types::Listed;
use sql_values::*;
use sqlite_items::{Boxed, Items};
use std::collections::{BTreeMap, HashMap};
use std::test::*;

// Nothing below promises anything to a proof: else each assertion's proof would look into its literals.

fn name(rt: &HostRuntime, text: &str) -> Result<Name, Fail> {
    match Name::from_text(Text::from_str(rt.alloc(), text)?) {
        Ok(name) => Ok(name),
        Err(_) => Err(Fail::from("no name")),
    }
}

fn text(rt: &HostRuntime, text: &str) -> Result<Literal, Fail> {
    Ok(Literal::Text(Text::from_str(rt.alloc(), text)?))
}

fn column(rt: &HostRuntime, table: &str, column: &str) -> Result<ColumnName, Fail> {
    let table = if table.is_empty() {
        None
    } else {
        Some(name(rt, table)?)
    };
    Ok(ColumnName {
        table,
        column: name(rt, column)?,
    })
}

fn table(rt: &HostRuntime, own: &str, texts: &str, most: u32) -> Result<TableDef, Fail> {
    let mut columns = Listed::new(rt.alloc());
    columns.push(ColumnDef {
        name: name(rt, "k")?,
        kind: Kind::BigInt,
    })?;
    columns.push(ColumnDef {
        name: name(rt, texts)?,
        kind: Kind::VarChar(most),
    })?;
    Ok(TableDef {
        name: name(rt, own)?,
        columns,
        key: 0,
    })
}

// t (k BIGINT, v VARCHAR(4)) and u (k BIGINT, w VARCHAR(9))
fn tables(rt: &HostRuntime) -> Result<TableDefs, Fail> {
    let mut tables = Listed::new(rt.alloc());
    tables.push(table(rt, "t", "v", 4)?)?;
    tables.push(table(rt, "u", "w", 9)?)?;
    Ok(tables)
}

// (1, 'ab') of t, and (2, 'B') of u
fn row(rt: &HostRuntime) -> Result<Row, Fail> {
    let mut row = Listed::new(rt.alloc());
    row.push(Value::Number(1))?;
    row.push(Value::Text(Text::from_str(rt.alloc(), "ab")?))?;
    row.push(Value::Number(2))?;
    row.push(Value::Text(Text::from_str(rt.alloc(), "B")?))?;
    Ok(row)
}

fn compare(left: Operand, comparison: Comparison, right: Operand) -> Cond {
    Cond::Compare {
        left,
        comparison,
        right,
    }
}

fn with_literal(
    rt: &HostRuntime,
    own: &str,
    of: &str,
    comparison: Comparison,
    literal: Literal,
) -> Result<Cond, Fail> {
    Ok(compare(
        Operand::Column(column(rt, own, of)?),
        comparison,
        Operand::Literal(literal),
    ))
}

fn with_column(
    rt: &HostRuntime,
    left: (&str, &str),
    comparison: Comparison,
    right: (&str, &str),
) -> Result<Cond, Fail> {
    Ok(compare(
        Operand::Column(column(rt, left.0, left.1)?),
        comparison,
        Operand::Column(column(rt, right.0, right.1)?),
    ))
}

fn one_of(rt: &HostRuntime, of: &str, negated: bool, list: &[i128]) -> Result<Cond, Fail> {
    let mut literals = Listed::new(rt.alloc());
    for number in list {
        literals.push(Literal::Number(*number))?;
    }
    Ok(Cond::In {
        column: column(rt, "u", of)?,
        negated,
        list: literals,
    })
}

fn between(rt: &HostRuntime, negated: bool, low: i128, high: i128) -> Result<Cond, Fail> {
    Ok(Cond::Between {
        column: column(rt, "u", "k")?,
        negated,
        low: Literal::Number(low),
        high: Literal::Number(high),
    })
}

fn both(rt: &HostRuntime, first: Cond, second: Cond) -> Result<Items<Cond>, Fail> {
    let mut parts = Items::new(rt.alloc());
    parts.push(first)?;
    parts.push(second)?;
    Ok(parts)
}

fn holds_here(rt: &HostRuntime, cond: Cond) -> Result<bool, Fail> {
    let copy = cond.copy(rt.alloc())?;
    let other = Cond::Not(Boxed::new(rt.alloc(), cond.copy(rt.alloc())?)?);
    if !copy.is_same(&cond) || copy.is_same(&other) {
        return Err(Fail::from("a copy is another condition"));
    }
    Ok(holds(&copy, &tables(rt)?, &row(rt)?))
}

fn told(fault: CheckFault) -> &'static str {
    match fault {
        CheckFault::NoColumn(name) if name.as_str() == "x" => "no x",
        CheckFault::NoColumn(_) => "no column",
        CheckFault::Ambiguous(name) if name.as_str() == "k" => "k ambiguous",
        CheckFault::Ambiguous(_) => "ambiguous",
        CheckFault::TypeMismatch => "types",
        CheckFault::NoMemory => "memory",
    }
}

fn checked(rt: &HostRuntime, cond: Cond) -> Result<&'static str, Fail> {
    Ok(match check_cond(rt.alloc(), &cond, &tables(rt)?) {
        Ok(()) => "fits",
        Err(fault) => told(fault),
    })
}

// Whether two columns compare so.
fn columns_compare(
    rt: &HostRuntime,
    left: (&str, &str),
    comparison: Comparison,
    right: (&str, &str),
) -> Result<bool, Fail> {
    holds_here(rt, with_column(rt, left, comparison, right)?)
}

fn number_compares(rt: &HostRuntime, comparison: Comparison, number: i128) -> Result<bool, Fail> {
    holds_here(
        rt,
        with_literal(rt, "t", "k", comparison, Literal::Number(number))?,
    )
}

fn text_compares(rt: &HostRuntime, comparison: Comparison, other: &str) -> Result<bool, Fail> {
    holds_here(rt, with_literal(rt, "", "v", comparison, text(rt, other)?)?)
}

#[test]
fn columns_are_compared(rt: HostRuntime) -> Result<(), Fail> {
    // The sides in their order, each from its own table; small letters come after capitals.
    for (left, comparison, right, want) in [
        (("t", "k"), Comparison::Less, ("u", "k"), true),
        (("u", "k"), Comparison::Less, ("t", "k"), false),
        (("", "v"), Comparison::Greater, ("", "w"), true),
    ] {
        assert_eq!(rt; columns_compare(&rt, left, comparison, right)?, want);
    }
    Ok(())
}

#[test]
fn numbers_are_compared(rt: HostRuntime) -> Result<(), Fail> {
    // The column has 1; numbers beyond 64 bits are compared exactly.
    for (comparison, number, want) in [
        (Comparison::Less, 1 << 64, true),
        (Comparison::NotEqual, (1 << 64) + 1, true),
        (Comparison::AtMost, 1, true),
        (Comparison::AtLeast, 1, true),
        (Comparison::Greater, 1, false),
    ] {
        assert_eq!(rt; number_compares(&rt, comparison, number)?, want);
    }
    Ok(())
}

#[test]
fn texts_are_compared(rt: HostRuntime) -> Result<(), Fail> {
    // The column has 'ab': no case is folded and no blank passed over.
    for (comparison, other, want) in [
        (Comparison::Greater, "a", true),
        (Comparison::Equal, "AB", false),
        (Comparison::Equal, "ab ", false),
    ] {
        assert_eq!(rt; text_compares(&rt, comparison, other)?, want);
    }
    Ok(())
}

fn is_one_of(rt: &HostRuntime, negated: bool) -> Result<bool, Fail> {
    holds_here(rt, one_of(rt, "k", negated, &[7, 2])?)
}

fn lies_between(rt: &HostRuntime, negated: bool, low: i128, high: i128) -> Result<bool, Fail> {
    holds_here(rt, between(rt, negated, low, high)?)
}

fn all(rt: &HostRuntime, first: bool, second: bool) -> Result<bool, Fail> {
    let parts = both(rt, between(rt, first, 2, 2)?, between(rt, second, 2, 2)?)?;
    holds_here(rt, Cond::All(parts))
}

fn any(rt: &HostRuntime, first: bool, second: bool) -> Result<bool, Fail> {
    let parts = both(rt, between(rt, first, 2, 2)?, between(rt, second, 2, 2)?)?;
    holds_here(rt, Cond::Any(parts))
}

fn none(rt: &HostRuntime) -> Result<bool, Fail> {
    holds_here(
        rt,
        Cond::Not(Boxed::new(rt.alloc(), between(rt, true, 2, 2)?)?),
    )
}

#[test]
fn lists_and_intervals_hold(rt: HostRuntime) -> Result<(), Fail> {
    // The column has 2, and both ends of BETWEEN are within.
    assert!(rt; is_one_of(&rt, false)?);
    assert!(rt; !is_one_of(&rt, true)?);
    for (negated, low, high, want) in [
        (false, 2, 2, true),
        (false, 3, 1, false),
        (true, 3, 4, true),
    ] {
        assert_eq!(rt; lies_between(&rt, negated, low, high)?, want);
    }
    Ok(())
}

#[test]
fn parts_are_joined(rt: HostRuntime) -> Result<(), Fail> {
    assert!(rt; !all(&rt, false, true)?);
    assert!(rt; any(&rt, true, false)?);
    assert!(rt; none(&rt)?);
    Ok(())
}

fn columns_check(
    rt: &HostRuntime,
    left: (&str, &str),
    right: (&str, &str),
) -> Result<&'static str, Fail> {
    checked(rt, with_column(rt, left, Comparison::Equal, right)?)
}

fn null_checks(rt: &HostRuntime) -> Result<&'static str, Fail> {
    checked(
        rt,
        with_literal(rt, "t", "k", Comparison::Equal, Literal::Null)?,
    )
}

fn list_checks(rt: &HostRuntime) -> Result<&'static str, Fail> {
    checked(rt, one_of(rt, "w", false, &[1])?)
}

#[test]
fn conditions_are_checked(rt: HostRuntime) -> Result<(), Fail> {
    for (left, right, want) in [
        (("t", "v"), ("u", "w"), "fits"),
        (("", "k"), ("", "x"), "no x"),
        (("u", "x"), ("", "y"), "no x"),
        (("", "k"), ("", "v"), "k ambiguous"),
        (("t", "k"), ("", "v"), "types"),
    ] {
        assert_eq!(rt; columns_check(&rt, left, right)?, want);
    }
    assert_eq!(rt; null_checks(&rt)?, "types");
    assert_eq!(rt; list_checks(&rt)?, "types");
    Ok(())
}

fn sum(rt: &HostRuntime, parts: &[(bool, i128)]) -> Result<Expr, Fail> {
    let mut addends = Items::new(rt.alloc());
    for (subtracted, number) in parts {
        addends.push(Addend {
            subtracted: *subtracted,
            expr: Expr::Literal(Literal::Number(*number)),
        })?;
    }
    Ok(Expr::Sum(addends))
}

fn product(rt: &HostRuntime, first: Expr, second: Expr) -> Result<Expr, Fail> {
    let mut factors = Items::new(rt.alloc());
    factors.push(first)?;
    factors.push(second)?;
    Ok(Expr::Product(factors))
}

// The number of an expression of numbers, none where one is out of range, and -1 where it is a text.
fn value(rt: &HostRuntime, expr: Expr) -> Result<Option<i64>, Fail> {
    let copy = expr.copy(rt.alloc())?;
    if !copy.is_same(&expr) {
        return Err(Fail::from("a copy is another expression"));
    }
    match eval(rt.alloc(), &copy, &table(rt, "t", "v", 4)?, &row(rt)?) {
        Ok(Value::Number(number)) => Ok(Some(number)),
        Ok(Value::Text(text)) => Ok(if text.as_str() == "ab" {
            Some(-1)
        } else {
            None
        }),
        Err(ValueFault::OutOfRange) => Ok(None),
        Err(ValueFault::NoMemory) => Err(Fail::from("memory")),
    }
}

fn sum_value(rt: &HostRuntime, parts: &[(bool, i128)]) -> Result<Option<i64>, Fail> {
    value(rt, sum(rt, parts)?)
}

fn negated(rt: &HostRuntime, number: i128) -> Result<Expr, Fail> {
    Ok(Expr::Negated(Boxed::new(rt.alloc(), Expr::Literal(Literal::Number(number)))?))
}

fn negated_value(rt: &HostRuntime, number: i128) -> Result<Option<i64>, Fail> {
    value(rt, negated(rt, number)?)
}

fn product_value(rt: &HostRuntime) -> Result<Option<i64>, Fail> {
    let own = Expr::Column(column(rt, "t", "k")?);
    value(rt, product(rt, own, negated(rt, 5)?)?)
}

fn column_value(rt: &HostRuntime) -> Result<Option<i64>, Fail> {
    value(rt, Expr::Column(column(rt, "", "v")?))
}

#[test]
fn sums_have_values(rt: HostRuntime) -> Result<(), Fail> {
    let most = i128::from(i64::MAX);
    assert_eq!(rt;
        sum_value(&rt, &[(false, 7), (true, 2), (false, 1)])?,
        Some(6)
    );
    // A partial result is out of range, though the whole wouldn't be.
    assert_eq!(rt;
        sum_value(&rt, &[(false, most), (false, 1), (true, 1)])?,
        None
    );
    Ok(())
}

#[test]
fn expressions_have_values(rt: HostRuntime) -> Result<(), Fail> {
    assert_eq!(rt; product_value(&rt)?, Some(-5));
    assert_eq!(rt; column_value(&rt)?, Some(-1));
    for (number, want) in [(5, Some(-5)), (1 << 63, None), (-(1 << 63), None)] {
        assert_eq!(rt; negated_value(&rt, number)?, want);
    }
    Ok(())
}

fn kind(rt: &HostRuntime, expr: Expr) -> Result<&'static str, Fail> {
    Ok(
        match check_expr(rt.alloc(), &expr, &table(rt, "t", "v", 4)?) {
            Ok(Kind::BigInt) => "number",
            Ok(Kind::VarChar(4)) => "text of 4",
            Ok(Kind::VarChar(_)) => "text",
            Err(fault) => told(fault),
        },
    )
}

fn column_kind(rt: &HostRuntime) -> Result<&'static str, Fail> {
    kind(rt, Expr::Column(column(rt, "", "v")?))
}

fn sum_kind(rt: &HostRuntime) -> Result<&'static str, Fail> {
    kind(rt, sum(rt, &[(false, 1), (true, 2)])?)
}

fn product_kind(rt: &HostRuntime, second: (&str, &str)) -> Result<&'static str, Fail> {
    let first = Expr::Column(column(rt, "", "v")?);
    let second = Expr::Column(column(rt, second.0, second.1)?);
    kind(rt, product(rt, first, second)?)
}

#[test]
fn expressions_are_checked(rt: HostRuntime) -> Result<(), Fail> {
    assert_eq!(rt; column_kind(&rt)?, "text of 4");
    assert_eq!(rt; sum_kind(&rt)?, "number");
    assert_eq!(rt; product_kind(&rt, ("u", "x"))?, "no x");
    assert_eq!(rt; product_kind(&rt, ("", "k"))?, "types");
    assert_eq!(rt; kind(&rt, Expr::Literal(Literal::Null))?, "types");
    Ok(())
}

fn stored(rt: &HostRuntime, literal: Literal, kind: Kind) -> Result<&'static str, Fail> {
    Ok(match store(rt.alloc(), &literal, kind) {
        Ok(Value::Number(number)) if number == i64::MIN => "least",
        Ok(Value::Number(_)) => "number",
        Ok(Value::Text(_)) => "text",
        Err(StoreFault::IsNull) => "null",
        Err(StoreFault::TypeMismatch) => "types",
        Err(StoreFault::OutOfRange) => "range",
        Err(StoreFault::TooLong) => "long",
        Err(StoreFault::NoMemory) => return Err(Fail::from("memory")),
    })
}

fn long(rt: &HostRuntime, bytes: usize) -> Result<Literal, Fail> {
    let mut long = String::new(rt.alloc());
    for _ in 0..bytes {
        long.push('a')?;
    }
    Ok(Literal::Text(Text::from_string(long)))
}

fn number_stored(rt: &HostRuntime, number: i128, kind: Kind) -> Result<&'static str, Fail> {
    stored(rt, Literal::Number(number), kind)
}

fn text_stored(rt: &HostRuntime, own: &str, kind: Kind) -> Result<&'static str, Fail> {
    stored(rt, text(rt, own)?, kind)
}

fn long_stored(rt: &HostRuntime, bytes: usize) -> Result<&'static str, Fail> {
    stored(rt, long(rt, bytes)?, Kind::VarChar(4000))
}

#[test]
fn numbers_are_stored(rt: HostRuntime) -> Result<(), Fail> {
    for (number, kind, want) in [
        (-(1i128 << 63), Kind::BigInt, "least"),
        (-(1i128 << 63) - 1, Kind::BigInt, "range"),
        (1i128 << 63, Kind::BigInt, "range"),
        (-(1i128 << 63) - 1, Kind::VarChar(2), "types"),
    ] {
        assert_eq!(rt; number_stored(&rt, number, kind)?, want);
    }
    assert_eq!(rt; stored(&rt, Literal::Null, Kind::BigInt)?, "null");
    Ok(())
}

#[test]
fn texts_are_stored(rt: HostRuntime) -> Result<(), Fail> {
    // Characters are counted, not bytes.
    for (own, kind, want) in [
        ("1", Kind::BigInt, "types"),
        ("äö", Kind::VarChar(2), "text"),
        ("abc", Kind::VarChar(2), "long"),
    ] {
        assert_eq!(rt; text_stored(&rt, own, kind)?, want);
    }
    assert_eq!(rt; long_stored(&rt, 1024)?, "text");
    assert_eq!(rt; long_stored(&rt, 1025)?, "long");
    Ok(())
}

fn here(rt: &HostRuntime) -> Result<(u64, u64), Fail> {
    Ok((size(&row(rt)?), size(&Listed::new(rt.alloc()))))
}

#[test]
fn rows_have_sizes(rt: HostRuntime) -> Result<(), Fail> {
    assert_eq!(rt; here(&rt)?, (35, 4));
    Ok(())
}

fn found(rt: &HostRuntime) -> Result<(Option<u32>, Option<u32>), Fail> {
    let mut ordered = BTreeMap::new(rt.alloc());
    let mut hashed = HashMap::new(rt.alloc());
    for (number, word) in ["b", "a", "ab"].iter().enumerate() {
        let _ = ordered.insert(name(rt, word)?, number as u32)?;
        let _ = hashed.insert(name(rt, word)?, number as u32)?;
    }
    let wanted = name(rt, "a")?;
    Ok((ordered.get(&wanted).copied(), hashed.get(&wanted).copied()))
}

#[test]
fn names_are_keys(rt: HostRuntime) -> Result<(), Fail> {
    assert_eq!(rt; found(&rt)?, (Some(1), Some(1)));
    Ok(())
}
