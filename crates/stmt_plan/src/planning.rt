//! The plan of a statement.

ghost use Rattle.std.specs.Prelude.{◌≡◌, ◌⊎◌, map, None, Some, IfOk, IfErr, OnOk};
ghost use Rattle.sql_values.specs.KeySets.{AreKeys};
ghost use Rattle.part_rules.specs.Placing.{IsRule};
ghost use Rattle.stmt_plan.specs.Chosen.{stored_fault};
ghost use Rattle.stmt_plan.specs.Finished.{IsFinished};
ghost use Rattle.stmt_plan.specs.Inserts.{rows_of, row_key, unplaced};
ghost use Rattle.stmt_plan.specs.Plans.{IsTable, AsksForKeys, IsPlan, IsPushed, items_of, keeps_key, limit_of, mode_of, work_of};
ghost use Rattle.stmt_plan.specs.Refusals.{refusal};

use crate::choosing::{asked, choose};
use crate::inserting::{check_rows, count_rows, slots, stored_rows, targets};
use crate::key_conditions::{key_condition, keys_of_rows, place_keys};
use crate::setting::set;
use crate::{Plan, StmtFault, Work};
use part_rules::{Rule, keys_of, prune};
use sql_text::{Insert, ScanItems, Select, TableStatement};
use sql_values::{Cond, Intervals, LockMode, Row, Rows, TableDef, TableNo};
use std::alloc::{AllocError, Global};

/// The rows that an INSERT stores, or why it stores none.
fn stored(alloc: Global, table: &TableDef, insert: &Insert) -> Result<Rows, StmtFault>
    ensures rows { IfOk result (λ rows. rows ≡ rows_of table.now insert.now.columns insert.now.rows) }
    ensures ok { OnOk result (stored_fault table.now insert.now ≡ None) }
    ensures err { IfErr result (λ fault. (fault ≡ StmtFault.NoMemory) ⊎ (stored_fault table.now insert.now ≡ Some fault)) }
{
    let columns = table.columns.as_slice();
    let rows = insert.rows.as_slice();
    let among = targets(alloc, columns, &insert.columns)?;
    let slots = slots(alloc, columns, &among)?;
    count_rows(columns.len(), rows)?;
    check_rows(alloc, &among, rows)?;
    let kept = stored_rows(alloc, &slots, rows)?;
    Ok(kept)
}

/// The condition that asks for the keys of these rows, or which of them no partition takes.
fn placed(alloc: Global, table: &TableDef, rule: &Rule, rows: &[Row]) -> Result<Cond, StmtFault>
    requires rule { IsRule rule.now }
    requires table { IsTable table.now }
    ensures cond { IfOk result (λ cond. AsksForKeys table.now (map (row_key table.now.key) rows.now) (Some cond)) }
    ensures ok { OnOk result (unplaced rule.now (map (row_key table.now.key) rows.now) ≡ None) }
    ensures err { IfErr result (λ fault. (fault ≡ StmtFault.NoMemory) ⊎ (unplaced rule.now (map (row_key table.now.key) rows.now) ≡ Some fault)) }
{
    let keys = keys_of_rows(alloc, rows, table.key)?;
    place_keys(rule, &keys)?;
    Ok(key_condition(alloc, table, keys)?)
}

/// The rows of an INSERT, and the condition that asks for their keys, or why it is refused.
fn insert(
    alloc: Global,
    table: &TableDef,
    rule: &Rule,
    insert: &Insert,
) -> Result<(Cond, Rows), StmtFault>
    requires rule { IsRule rule.now }
    requires table { IsTable table.now }
    ensures cond { IfOk result (λ found. IsPushed table.now (TableStatement.Insert insert.now) (Some found.0)) }
    ensures rows { IfOk result (λ found. found.1 ≡ rows_of table.now insert.now.columns insert.now.rows) }
    ensures ok { OnOk result (refusal table.now rule.now (TableStatement.Insert insert.now) ≡ None) }
    ensures err { IfErr result (λ fault. (fault ≡ StmtFault.NoMemory) ⊎ (refusal table.now rule.now (TableStatement.Insert insert.now) ≡ Some fault)) }
{
    let rows = stored(alloc, table, insert)?;
    let cond = placed(alloc, table, rule, rows.as_slice())?;
    Ok((cond, rows))
}

/// The keys of rows for which the condition may hold.
fn keys_asked(alloc: Global, table: &TableDef, cond: &Option<Cond>) -> Result<Intervals, AllocError>
    ensures { IfOk result (λ keys. AreKeys keys (keeps_key table.now cond.now)) }
{
    match cond {
        Some(cond) => keys_of(alloc, cond, table),
        None => Intervals::whole(alloc),
    }
}

fn planned(
    alloc: Global,
    number: TableNo,
    table: &TableDef,
    rule: &Rule,
    demand: Demand,
) -> Result<Plan, AllocError>
    requires { IsRule rule.now }
    ensures { IfOk result (λ plan. IsFinished number table.now rule.now demand.items demand.cond demand.limit demand.mode demand.work plan) }
{
    let keys = keys_asked(alloc, table, &demand.cond)?;
    let parts = prune(alloc, rule, &keys)?;
    Ok(Plan {
        table: number,
        parts,
        keys,
        pushed: demand.items,
        cond: demand.cond,
        limit: demand.limit,
        mode: demand.mode,
        work: demand.work,
    })
}

/// What a statement asks for: what of which rows, of how many at most, how these are locked, and what is done with them.
#[derive(Drop)]
struct Demand {
    items: ScanItems,
    cond: Option<Cond>,
    limit: Option<u64>,
    mode: LockMode,
    work: Work,
}

/// A statement that writes asks for all columns of the rows on which the condition holds.
fn to_write(cond: Option<Cond>, work: Work) -> Demand
    ensures { result ≡ record { items = ScanItems.All; cond = cond; limit = None; mode = LockMode.Exclusive; work = work } }
{
    Demand {
        items: ScanItems::All,
        cond,
        limit: None,
        mode: LockMode::Exclusive,
        work,
    }
}

/// How a SELECT locks the rows that it reads.
fn select_mode(select: &Select) -> LockMode
    ensures { result ≡ mode_of (TableStatement.Select select.now) }
{
    select.lock.unwrap_or(LockMode::Shared)
}

/// What a statement asks for, or the first rule that it breaks.
fn demanded(
    alloc: Global,
    table: &TableDef,
    rule: &Rule,
    statement: &TableStatement,
) -> Result<Demand, StmtFault>
    requires rule { IsRule rule.now }
    requires table { IsTable table.now }
    ensures items { IfOk result (λ demand. demand.items ≡ items_of statement.now) }
    ensures cond { IfOk result (λ demand. IsPushed table.now statement.now demand.cond) }
    ensures limit { IfOk result (λ demand. demand.limit ≡ limit_of table.now statement.now) }
    ensures mode { IfOk result (λ demand. demand.mode ≡ mode_of statement.now) }
    ensures work { IfOk result (λ demand. demand.work ≡ work_of table.now statement.now) }
    ensures ok { OnOk result (refusal table.now rule.now statement.now ≡ None) }
    ensures err { IfErr result (λ fault. (fault ≡ StmtFault.NoMemory) ⊎ (refusal table.now rule.now statement.now ≡ Some fault)) }
{
    match statement {
        TableStatement::Insert(statement) => {
            let (cond, rows) = insert(alloc, table, rule, statement)?;
            Ok(to_write(Some(cond), Work::Insert(rows)))
        }
        TableStatement::Select(statement) => match choose(alloc, table, statement) {
            Ok(choice) => Ok(Demand {
                items: choice.items,
                cond: choice.cond,
                limit: choice.limit,
                mode: select_mode(statement),
                work: choice.work,
            }),
            Err(fault) => Err(fault),
        },
        TableStatement::Update(statement) => match set(alloc, table, statement) {
            Ok((cond, sets)) => Ok(to_write(cond, Work::Update(sets))),
            Err(fault) => Err(fault),
        },
        TableStatement::Delete(statement) => match asked(
            alloc,
            table,
            &table.name,
            &statement.cond,
        ) {
            Ok(cond) => Ok(to_write(cond, Work::Delete)),
            Err(fault) => Err(fault),
        },
    }
}

/// The plan of a statement on this table, whose number is handed on, or the first rule that it breaks.
///
/// The rules are, in this order: a column that the table doesn't have, one that may be one of several, an UPDATE of the key column, a row with another
/// number of values than columns, then by row and by column in the order of the statement NULL, a value of another type, a number out of range, a text too
/// long, then a row whose key no partition takes, then a sum of a column that is no BIGINT, a condition on values that can't be compared, or an expression of
/// another type than the column that it is for. Of what an UPDATE sets, the literals that stand alone are values, and only NULL and another type are told here: their range and length are told
/// of a row as it runs. The table's own name isn't compared with the statement's: the caller has found it.
///
/// The cost of an INSERT is that of sorting its keys, beside one look at each of its values; names are looked up once.
pub fn plan_on(
    alloc: Global,
    number: TableNo,
    table: &TableDef,
    rule: &Rule,
    statement: &TableStatement,
) -> Result<Plan, StmtFault>
    requires rule { IsRule rule.now }
    requires table { IsTable table.now }
    ensures plan { IfOk result (λ plan. IsPlan number table.now rule.now statement.now plan) }
    ensures ok { OnOk result (refusal table.now rule.now statement.now ≡ None) }
    ensures err { IfErr result (λ fault. (fault ≡ StmtFault.NoMemory) ⊎ (refusal table.now rule.now statement.now ≡ Some fault)) }
{
    let demand = demanded(alloc, table, rule, statement)?;
    Ok(planned(alloc, number, table, rule, demand)?)
}
