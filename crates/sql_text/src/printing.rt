//! The canonical text of a statement.
ghost use Rattle.std.specs.Prelude.{◌≡◌, ◌++◌, [], ◌∷◌, OnOk, IfOk, map, drop, codes};
ghost use Rattle.std.specs.List.{flat_map};
ghost use Rattle.std.specs.Fmt.{signed_decimal};
ghost use Rattle.sql_text.specs.declared.statement.Statement.TheVariants as statements;
ghost use Rattle.sql_text.specs.declared.statement.TableStatement.TheVariants as table_statements;
ghost use Rattle.sql_text.specs.Printing.{escaped, quoted, literal_text, name_text, joined_text, qualifier_text, column_text, operand_text, comparison_text, negation_text, literals_text, opening, closing, at_level, shown_cond, cond_text, alias_text, item_text, items_text, where_text, columns_text, tuple_text, order_text, limit_text, lock_text, locked_text, assignment_text, printed};

use crate::printing::aggregates::push_aggregate_items;
use crate::printing::expressions::push_expr;
use crate::printing::orders::{push_limit, push_order};
use crate::statement::{
    Admin, Assignment, Assignments, Delete, Insert, Item, Names, Select, SelectItems, Statement,
    Tab, TableStatement, Update,
};
use list_types::{Bytes, Listed};
use sql_values::{ColumnName, Comparison, Cond, Literal, Literals, LockMode, Name, Operand};
use std::alloc::{AllocError, Global};

pub mod aggregates;
mod expressions;
pub mod orders;

/// Adds one byte of a text, as it stands in a literal.
fn push_escaped(out: &mut Vec<u8>, byte: u8) -> Result<(), AllocError>
    ensures { OnOk result (out.new.items ≡ out.old.items ++ escaped byte) }
{
    match byte {
        0 => out.extend_from_slice(b"\\0"),
        b'\n' => out.extend_from_slice(b"\\n"),
        b'\r' => out.extend_from_slice(b"\\r"),
        0x1a => out.extend_from_slice(b"\\Z"),
        b'\'' => out.extend_from_slice(b"''"),
        b'\\' => out.extend_from_slice(b"\\\\"),
        _ => {
            out.push(byte)?;
            Ok(())
        }
    }
}

/// Adds a text as a literal: in `'`, with `'` doubled, `\` as `\\`, and NUL, LF, CR and byte 1A as `\0 \n \r \Z`.
pub fn push_quoted(out: &mut Vec<u8>, text: &[u8]) -> Result<(), AllocError>
    ensures { OnOk result (out.new.items ≡ out.old.items ++ quoted text.now) }
{
    out.extend_from_slice(b"'")?;
    for byte in text {
        push_escaped(out, *byte)?;
    }
    out.extend_from_slice(b"'")
}

/// Adds a literal.
pub fn push_literal(alloc: Global, out: &mut Vec<u8>, literal: &Literal) -> Result<(), AllocError>
    ensures { OnOk result (out.new.items ≡ out.old.items ++ literal_text literal.now) }
{
    match literal {
        Literal::Number(number) => {
            let digits = number.to_string(alloc)?;
            out.extend_from_slice(digits.as_str().as_bytes())
        }
        Literal::Text(text) => push_quoted(out, text.as_str().as_bytes()),
        Literal::Null => out.extend_from_slice(b"NULL"),
    }
}

/// Adds further literals, each behind a comma.
fn push_further_literals(
    alloc: Global,
    out: &mut Vec<u8>,
    literals: &[Literal],
) -> Result<(), AllocError>
    ensures { OnOk result (out.new.items ≡ out.old.items ++ flat_map (λ y. codes "," ++ y) (map literal_text literals.now)) }
{
    for literal in literals {
        out.extend_from_slice(b",")?;
        push_literal(alloc, out, literal)?;
    }
    Ok(())
}

/// Adds literals with commas between them.
fn push_literals(alloc: Global, out: &mut Vec<u8>, literals: &[Literal]) -> Result<(), AllocError>
    ensures { OnOk result (out.new.items ≡ out.old.items ++ literals_text literals.now) }
{
    let [first, others @ ..] = literals else {
        return Ok(());
    };
    push_literal(alloc, out, first)?;
    push_further_literals(alloc, out, others)
}

/// Adds a name in backquotes.
pub fn push_name(out: &mut Vec<u8>, name: &Name) -> Result<(), AllocError>
    ensures { OnOk result (out.new.items ≡ out.old.items ++ name_text name.now) }
{
    out.extend_from_slice(b"`")?;
    out.extend_from_slice(name.as_str().as_bytes())?;
    out.extend_from_slice(b"`")
}

/// Adds a qualifier and its dot, or nothing.
fn push_qualifier(out: &mut Vec<u8>, table: &Option<Name>) -> Result<(), AllocError>
    ensures { OnOk result (out.new.items ≡ out.old.items ++ qualifier_text table.now) }
{
    let Some(table) = table else {
        return Ok(());
    };
    push_name(out, table)?;
    out.extend_from_slice(b".")
}

/// Adds a column.
pub fn push_column(out: &mut Vec<u8>, column: &ColumnName) -> Result<(), AllocError>
    ensures { OnOk result (out.new.items ≡ out.old.items ++ column_text column.now) }
{
    push_qualifier(out, &column.table)?;
    push_name(out, &column.column)
}

/// Adds an operand.
fn push_operand(alloc: Global, out: &mut Vec<u8>, operand: &Operand) -> Result<(), AllocError>
    ensures { OnOk result (out.new.items ≡ out.old.items ++ operand_text operand.now) }
{
    match operand {
        Operand::Column(column) => push_column(out, column),
        Operand::Literal(literal) => push_literal(alloc, out, literal),
    }
}

/// Adds a comparison with its blanks.
fn push_comparison(out: &mut Vec<u8>, comparison: Comparison) -> Result<(), AllocError>
    ensures { OnOk result (out.new.items ≡ out.old.items ++ comparison_text comparison) }
{
    match comparison {
        Comparison::Equal => out.extend_from_slice(b" = "),
        Comparison::NotEqual => out.extend_from_slice(b" <> "),
        Comparison::Less => out.extend_from_slice(b" < "),
        Comparison::AtMost => out.extend_from_slice(b" <= "),
        Comparison::Greater => out.extend_from_slice(b" > "),
        Comparison::AtLeast => out.extend_from_slice(b" >= "),
    }
}

/// Adds NOT behind a column, or nothing.
fn push_negation(out: &mut Vec<u8>, negated: bool) -> Result<(), AllocError>
    ensures { OnOk result (out.new.items ≡ out.old.items ++ negation_text negated) }
{
    if negated {
        return out.extend_from_slice(b" NOT");
    }
    Ok(())
}

pub fn push_opening(out: &mut Vec<u8>, enclosed: bool) -> Result<(), AllocError>
    ensures { OnOk result (out.new.items ≡ out.old.items ++ opening enclosed) }
{
    if enclosed {
        return out.extend_from_slice(b"(");
    }
    Ok(())
}

pub fn push_closing(out: &mut Vec<u8>, enclosed: bool) -> Result<(), AllocError>
    ensures { OnOk result (out.new.items ≡ out.old.items ++ closing enclosed) }
{
    if enclosed {
        return out.extend_from_slice(b")");
    }
    Ok(())
}

/// Adds a comparison of two operands.
fn push_compared(
    alloc: Global,
    out: &mut Vec<u8>,
    left: &Operand,
    comparison: Comparison,
    right: &Operand,
) -> Result<(), AllocError>
    ensures { OnOk result (out.new.items ≡ out.old.items ++ (operand_text left.now ++ (comparison_text comparison ++ operand_text right.now))) }
{
    push_operand(alloc, out, left)?;
    push_comparison(out, comparison)?;
    push_operand(alloc, out, right)
}

/// Adds IN and its list behind a column.
fn push_in(
    alloc: Global,
    out: &mut Vec<u8>,
    column: &ColumnName,
    negated: bool,
    list: &Literals,
) -> Result<(), AllocError>
    ensures { OnOk result (out.new.items ≡ out.old.items ++ (column_text column.now ++ (negation_text negated ++ (codes " IN (" ++ (literals_text list.now ++ codes ")"))))) }
{
    push_column(out, column)?;
    push_negation(out, negated)?;
    out.extend_from_slice(b" IN (")?;
    push_literals(alloc, out, list.as_slice())?;
    out.extend_from_slice(b")")
}

/// Adds BETWEEN and its bounds behind a column.
fn push_between(
    alloc: Global,
    out: &mut Vec<u8>,
    column: &ColumnName,
    negated: bool,
    low: &Literal,
    high: &Literal,
) -> Result<(), AllocError>
    ensures { OnOk result (out.new.items ≡ out.old.items ++ (column_text column.now ++ (negation_text negated ++ (codes " BETWEEN " ++ (literal_text low.now ++ (codes " AND " ++ literal_text high.now)))))) }
{
    push_column(out, column)?;
    push_negation(out, negated)?;
    out.extend_from_slice(b" BETWEEN ")?;
    push_literal(alloc, out, low)?;
    out.extend_from_slice(b" AND ")?;
    push_literal(alloc, out, high)
}

/// Adds a condition, in parentheses unless it binds at least so tightly: 0 what stands behind NOT, 1 a part joined by AND, 2 anything.
#[cycle(printing)]
fn push_cond(alloc: Global, out: &mut Vec<u8>, level: u8, cond: &Cond) -> Result<(), AllocError>
    ensures { OnOk result (out.new.items ≡ out.old.items ++ at_level level (shown_cond cond.now)) }
{
    match cond {
        Cond::All(parts) => {
            push_opening(out, level < 1)?;
            push_parts(alloc, out, b" AND ", 0, parts.as_slice())?;
            push_closing(out, level < 1)
        }
        Cond::Any(parts) => {
            push_opening(out, level < 2)?;
            push_parts(alloc, out, b" OR ", 1, parts.as_slice())?;
            push_closing(out, level < 2)
        }
        Cond::Not(part) => {
            out.extend_from_slice(b"NOT ")?;
            push_cond(alloc, out, 0, part.get())
        }
        Cond::Compare {
            left,
            comparison,
            right,
        } => push_compared(alloc, out, left, *comparison, right),
        Cond::In {
            column,
            negated,
            list,
        } => push_in(alloc, out, column, *negated, list),
        Cond::Between {
            column,
            negated,
            low,
            high,
        } => push_between(alloc, out, column, *negated, low, high),
    }
}

/// Adds the parts of a condition with the separator between them.
#[cycle(printing)]
fn push_parts(
    alloc: Global,
    out: &mut Vec<u8>,
    separator: &[u8],
    level: u8,
    parts: &[Cond],
) -> Result<(), AllocError>
    ensures { OnOk result (out.new.items ≡ out.old.items ++ joined_text separator.now (map (at_level level) (map shown_cond parts.now))) }
{
    let mut before: &[u8] = b"";
    for part in parts {
        out.extend_from_slice(before)?;
        push_cond(alloc, out, level, part)?;
        before = separator;
    }
    Ok(())
}

/// Adds AS and a name, or nothing.
pub fn push_alias(out: &mut Vec<u8>, alias: &Option<Name>) -> Result<(), AllocError>
    ensures { OnOk result (out.new.items ≡ out.old.items ++ alias_text alias.now) }
{
    let Some(alias) = alias else {
        return Ok(());
    };
    out.extend_from_slice(b" AS ")?;
    push_name(out, alias)
}

/// Adds an item.
fn push_item(out: &mut Vec<u8>, item: &Item) -> Result<(), AllocError>
    ensures { OnOk result (out.new.items ≡ out.old.items ++ item_text item.now) }
{
    push_column(out, &item.column)?;
    push_alias(out, &item.alias)
}

/// Adds further items, each behind a comma and a blank.
fn push_further_items(out: &mut Vec<u8>, items: &[Item]) -> Result<(), AllocError>
    ensures { OnOk result (out.new.items ≡ out.old.items ++ flat_map (λ y. codes ", " ++ y) (map item_text items.now)) }
{
    for item in items {
        out.extend_from_slice(b", ")?;
        push_item(out, item)?;
    }
    Ok(())
}

/// Adds the items of a SELECT.
fn push_items(out: &mut Vec<u8>, items: &SelectItems) -> Result<(), AllocError>
    ensures { OnOk result (out.new.items ≡ out.old.items ++ items_text items.now) }
{
    match items {
        SelectItems::All => out.extend_from_slice(b"*"),
        SelectItems::Columns(items) => push_item_list(out, items.as_slice()),
        SelectItems::Aggregates(items) => push_aggregate_items(out, items.as_slice()),
    }
}

fn push_item_list(out: &mut Vec<u8>, items: &[Item]) -> Result<(), AllocError>
    ensures { OnOk result (out.new.items ≡ out.old.items ++ joined_text (codes ", ") (map item_text items.now)) }
{
    let [first, others @ ..] = items else {
        return Ok(());
    };
    push_item(out, first)?;
    push_further_items(out, others)
}

/// Adds WHERE and a condition, or nothing.
pub fn push_where(alloc: Global, out: &mut Vec<u8>, cond: &Option<Cond>) -> Result<(), AllocError>
    ensures { OnOk result (out.new.items ≡ out.old.items ++ where_text cond.now) }
{
    let Some(cond) = cond else {
        return Ok(());
    };
    out.extend_from_slice(b" WHERE ")?;
    push_cond(alloc, out, 2, cond)
}

/// Adds further names, each behind a comma and a blank.
fn push_further_names(out: &mut Vec<u8>, names: &[Name]) -> Result<(), AllocError>
    ensures { OnOk result (out.new.items ≡ out.old.items ++ flat_map (λ y. codes ", " ++ y) (map name_text names.now)) }
{
    for name in names {
        out.extend_from_slice(b", ")?;
        push_name(out, name)?;
    }
    Ok(())
}

fn push_name_list(out: &mut Vec<u8>, names: &[Name]) -> Result<(), AllocError>
    ensures { OnOk result (out.new.items ≡ out.old.items ++ joined_text (codes ", ") (map name_text names.now)) }
{
    let [first, others @ ..] = names else {
        return Ok(());
    };
    push_name(out, first)?;
    push_further_names(out, others)
}

/// Adds a list of columns, or nothing.
fn push_columns(out: &mut Vec<u8>, columns: &Option<Names>) -> Result<(), AllocError>
    ensures { OnOk result (out.new.items ≡ out.old.items ++ columns_text columns.now) }
{
    let Some(columns) = columns else {
        return Ok(());
    };
    out.extend_from_slice(b" (")?;
    push_name_list(out, columns.as_slice())?;
    out.extend_from_slice(b")")
}

/// Adds a row.
fn push_tuple(alloc: Global, out: &mut Vec<u8>, literals: &Literals) -> Result<(), AllocError>
    ensures { OnOk result (out.new.items ≡ out.old.items ++ tuple_text literals.now) }
{
    out.extend_from_slice(b"(")?;
    push_literals(alloc, out, literals.as_slice())?;
    out.extend_from_slice(b")")
}

/// Adds further rows, each behind a comma.
fn push_further_tuples(
    alloc: Global,
    out: &mut Vec<u8>,
    rows: &[Literals],
) -> Result<(), AllocError>
    ensures { OnOk result (out.new.items ≡ out.old.items ++ flat_map (λ y. codes "," ++ y) (map tuple_text rows.now)) }
{
    for row in rows {
        out.extend_from_slice(b",")?;
        push_tuple(alloc, out, row)?;
    }
    Ok(())
}

fn push_tuples(alloc: Global, out: &mut Vec<u8>, rows: &[Literals]) -> Result<(), AllocError>
    ensures { OnOk result (out.new.items ≡ out.old.items ++ joined_text (codes ",") (map tuple_text rows.now)) }
{
    let [first, others @ ..] = rows else {
        return Ok(());
    };
    push_tuple(alloc, out, first)?;
    push_further_tuples(alloc, out, others)
}

/// Adds VALUES and rows.
fn push_values(alloc: Global, out: &mut Vec<u8>, rows: &[Literals]) -> Result<(), AllocError>
    ensures { OnOk result (out.new.items ≡ out.old.items ++ (codes " VALUES " ++ joined_text (codes ",") (map tuple_text rows.now))) }
{
    out.extend_from_slice(b" VALUES ")?;
    push_tuples(alloc, out, rows)
}

/// Adds an INSERT.
#[tactic(auto, unfolding(crate::specs::Printing::printed))]
fn push_insert(alloc: Global, out: &mut Vec<u8>, insert: &Insert) -> Result<(), AllocError>
    ensures { OnOk result (out.new.items ≡ out.old.items ++ printed (statements.Table (table_statements.Insert insert.now))) }
{
    out.extend_from_slice(b"INSERT INTO ")?;
    push_name(out, &insert.table)?;
    push_columns(out, &insert.columns)?;
    push_values(alloc, out, insert.rows.as_slice())
}

/// Adds FROM and a table with its alias.
fn push_source(out: &mut Vec<u8>, tab: &Tab) -> Result<(), AllocError>
    ensures { OnOk result (out.new.items ≡ out.old.items ++ (codes " FROM " ++ (name_text tab.now.table ++ alias_text tab.now.alias))) }
{
    out.extend_from_slice(b" FROM ")?;
    push_name(out, &tab.table)?;
    push_alias(out, &tab.alias)
}

/// Adds how rows are locked.
pub fn push_lock(out: &mut Vec<u8>, lock: LockMode) -> Result<(), AllocError>
    ensures { OnOk result (out.new.items ≡ out.old.items ++ lock_text lock) }
{
    match lock {
        LockMode::Shared => out.extend_from_slice(b" LOCK IN SHARE MODE"),
        LockMode::Exclusive => out.extend_from_slice(b" FOR UPDATE"),
    }
}

/// Adds how rows are locked, or nothing.
fn push_locked(out: &mut Vec<u8>, lock: Option<LockMode>) -> Result<(), AllocError>
    ensures { OnOk result (out.new.items ≡ out.old.items ++ locked_text lock) }
{
    match lock {
        Some(lock) => push_lock(out, lock),
        None => Ok(()),
    }
}

/// Adds which rows a SELECT gives, in which order, and how they are locked.
fn push_rows_asked(alloc: Global, out: &mut Vec<u8>, select: &Select) -> Result<(), AllocError>
    ensures { OnOk result (out.new.items ≡ out.old.items ++ (order_text select.now.order ++ (limit_text select.now.limit ++ locked_text select.now.lock))) }
{
    push_order(out, select.order.as_slice())?;
    push_limit(alloc, out, select.limit)?;
    push_locked(out, select.lock)
}

/// Adds what stands behind the table of a SELECT.
fn push_select_end(alloc: Global, out: &mut Vec<u8>, select: &Select) -> Result<(), AllocError>
    ensures { OnOk result (out.new.items ≡ out.old.items ++ (where_text select.now.cond ++ (order_text select.now.order ++ (limit_text select.now.limit ++ locked_text select.now.lock)))) }
{
    push_where(alloc, out, &select.cond)?;
    push_rows_asked(alloc, out, select)
}

/// Adds a SELECT.
#[tactic(auto, unfolding(crate::specs::Printing::printed))]
fn push_select(alloc: Global, out: &mut Vec<u8>, select: &Select) -> Result<(), AllocError>
    ensures { OnOk result (out.new.items ≡ out.old.items ++ printed (statements.Table (table_statements.Select select.now))) }
{
    out.extend_from_slice(b"SELECT ")?;
    push_items(out, &select.items)?;
    push_source(out, &select.tab)?;
    push_select_end(alloc, out, select)
}

/// Adds an assignment.
fn push_assignment(
    alloc: Global,
    out: &mut Vec<u8>,
    assignment: &Assignment,
) -> Result<(), AllocError>
    ensures { OnOk result (out.new.items ≡ out.old.items ++ assignment_text assignment.now) }
{
    push_name(out, &assignment.column)?;
    out.extend_from_slice(b" = ")?;
    push_expr(alloc, out, &assignment.value)
}

/// Adds further assignments, each behind a comma and a blank.
fn push_further_assignments(
    alloc: Global,
    out: &mut Vec<u8>,
    assignments: &[Assignment],
) -> Result<(), AllocError>
    ensures { OnOk result (out.new.items ≡ out.old.items ++ flat_map (λ y. codes ", " ++ y) (map assignment_text assignments.now)) }
{
    for assignment in assignments {
        out.extend_from_slice(b", ")?;
        push_assignment(alloc, out, assignment)?;
    }
    Ok(())
}

fn push_assignments(
    alloc: Global,
    out: &mut Vec<u8>,
    assignments: &[Assignment],
) -> Result<(), AllocError>
    ensures { OnOk result (out.new.items ≡ out.old.items ++ joined_text (codes ", ") (map assignment_text assignments.now)) }
{
    let [first, others @ ..] = assignments else {
        return Ok(());
    };
    push_assignment(alloc, out, first)?;
    push_further_assignments(alloc, out, others)
}

/// Adds SET and assignments.
fn push_set(alloc: Global, out: &mut Vec<u8>, sets: &Assignments) -> Result<(), AllocError>
    ensures { OnOk result (out.new.items ≡ out.old.items ++ (codes " SET " ++ joined_text (codes ", ") (map assignment_text sets.now))) }
{
    out.extend_from_slice(b" SET ")?;
    push_assignments(alloc, out, sets.as_slice())
}

/// Adds an UPDATE.
#[tactic(auto, unfolding(crate::specs::Printing::printed))]
fn push_update(alloc: Global, out: &mut Vec<u8>, update: &Update) -> Result<(), AllocError>
    ensures { OnOk result (out.new.items ≡ out.old.items ++ printed (statements.Table (table_statements.Update update.now))) }
{
    out.extend_from_slice(b"UPDATE ")?;
    push_name(out, &update.table)?;
    push_set(alloc, out, &update.sets)?;
    push_where(alloc, out, &update.cond)
}

/// Adds a DELETE.
#[tactic(auto, unfolding(crate::specs::Printing::printed))]
fn push_delete(alloc: Global, out: &mut Vec<u8>, delete: &Delete) -> Result<(), AllocError>
    ensures { OnOk result (out.new.items ≡ out.old.items ++ printed (statements.Table (table_statements.Delete delete.now))) }
{
    out.extend_from_slice(b"DELETE FROM ")?;
    push_name(out, &delete.table)?;
    push_where(alloc, out, &delete.cond)
}

/// Adds a statement on tables.
fn push_table_statement(
    alloc: Global,
    out: &mut Vec<u8>,
    statement: &TableStatement,
) -> Result<(), AllocError>
    ensures { OnOk result (out.new.items ≡ out.old.items ++ printed (statements.Table statement.now)) }
{
    match statement {
        TableStatement::Insert(insert) => push_insert(alloc, out, insert),
        TableStatement::Select(select) => push_select(alloc, out, select),
        TableStatement::Update(update) => push_update(alloc, out, update),
        TableStatement::Delete(delete) => push_delete(alloc, out, delete),
    }
}

/// Adds a question about the server.
#[tactic(auto, unfolding(crate::specs::Printing::printed))]
fn push_admin(out: &mut Vec<u8>, admin: Admin) -> Result<(), AllocError>
    ensures { OnOk result (out.new.items ≡ out.old.items ++ printed (statements.Admin admin)) }
{
    match admin {
        Admin::ShowTables => out.extend_from_slice(b"SHOW TABLES"),
        Admin::ShowDatabases => out.extend_from_slice(b"SHOW DATABASES"),
        Admin::VersionComment => out.extend_from_slice(b"SELECT @@version_comment"),
        Admin::Database => out.extend_from_slice(b"SELECT DATABASE()"),
    }
}

/// The canonical text of a statement: keywords in capitals, one blank between words, names in backquotes, values with `,` between them and other lists with
/// `, `, texts in `'`, one blank on each side of a sign or star and one behind a minus of a factor, no ASC, an offset behind OFFSET unless it is 0, and
/// parentheses round a condition or an expression only where it would read otherwise without them.
pub fn print(alloc: Global, statement: &Statement) -> Result<Bytes, AllocError>
    ensures { IfOk result (λ text. text ≡ printed statement.now) }
{
    let mut out = Vec::new(alloc);
    match statement {
        Statement::Table(statement) => push_table_statement(alloc, &mut out, statement)?,
        Statement::Admin(admin) => push_admin(&mut out, *admin)?,
    }
    Ok(Listed::from_vec(out))
}
