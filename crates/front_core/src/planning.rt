//! A statement's transaction by its plan.
ghost use Rattle.std.specs.Prelude.{◌≡◌, ◌<◌, map, length, IfOk};
ghost use Rattle.part_rules.specs.Placing.{IsRule};
ghost use Rattle.sql_replies.specs.Outcomes.{server_name as name_meant};
ghost use Rattle.stmt_plan.specs.Inserts.{key_name as key_named};
ghost use Rattle.stmt_plan.specs.Selects.{aggregates_of as aggregates_meant};
ghost use Rattle.txn_phases.specs.Deeds.{placed as placed_meant};
ghost use Rattle.front_core.specs.Jobs.{xid_at as xid_meant, branch_at as branch_meant, branches_of as branches_meant, kinds_of as kinds_meant, deed_by, columns_by};
ghost use Rattle.front_core.specs.Planned.{run_by, job_by, scan_by};

use crate::TxNo;
use crate::targets::{servers_of, targets_of};
use crate::work::Running;
use catalog::{Catalog, Table};
use conf_file::HostEntry;
use front_rows::Aggregates;
use list_types::{Listed, Text};
use part_rules::Rule;
use sql_text::ScanItems;
use sql_values::{Cond, LockMode, Name, Rows, ServerNo, TableDef, Xid};
use std::alloc::{AllocError, Global};
use stmt_plan::{AnswerColumns, CellColumn, Plan, Work};
use txn_phases::{
    Branch, Branches, Changing, Deed, Job, Kinds, PlacedRows, Placing, TableScan, Target, place_row,
};

/// The name of a server, or nothing where there is none with this number.
fn server_name(alloc: Global, servers: &[HostEntry], server: ServerNo) -> Result<Text, AllocError>
    ensures { IfOk result (λ name. name ≡ name_meant servers.now server) }
{
    match servers.get(server as usize) {
        Some(host) => Text::from_str(alloc, host.name.as_str()),
        None => Text::from_str(alloc, ""),
    }
}

/// The name of a transaction's branch at a server.
fn xid_at(alloc: Global, catalog: &Catalog, tx: &TxNo, server: ServerNo) -> Result<Xid, AllocError>
    ensures { IfOk result (λ xid. xid ≡ xid_meant catalog.now tx.now server) }
{
    let front = catalog.front().name.as_str();
    let boot = tx.boot;
    let number = tx.number;
    Ok(Xid {
        gtrid: Text::from_string(format!(in alloc; "{front}.{boot}.{number}")?),
        bqual: server_name(alloc, catalog.servers(), server)?,
    })
}

fn branch_at(
    alloc: Global,
    catalog: &Catalog,
    tx: &TxNo,
    server: ServerNo,
) -> Result<Branch, AllocError>
    ensures { IfOk result (λ branch. branch ≡ branch_meant catalog.now tx.now server) }
{
    Ok(Branch {
        server,
        xid: xid_at(alloc, catalog, tx, server)?,
        begun: false,
    })
}

/// A branch at each server of these links.
fn branches_of(
    alloc: Global,
    catalog: &Catalog,
    tx: &TxNo,
    targets: &[Target],
) -> Result<Branches, AllocError>
    ensures { IfOk result (λ branches. branches ≡ branches_meant catalog.now tx.now targets.now) }
{
    let servers = servers_of(alloc, catalog.servers().len(), targets)?;
    let mut branches = Listed::new(alloc);
    for server in servers.as_slice() {
        branches.push(branch_at(alloc, catalog, tx, *server)?)?;
    }
    Ok(branches)
}

fn kinds_of(alloc: Global, def: &TableDef) -> Result<Kinds, AllocError>
    ensures { IfOk result (λ kinds. kinds ≡ kinds_meant def.now) }
{
    let mut kinds = Listed::new(alloc);
    for column in def.columns.as_slice() {
        kinds.push(column.kind)?;
    }
    Ok(kinds)
}

fn placed_rows(
    alloc: Global,
    rule: &Rule,
    def: &TableDef,
    rows: Rows,
) -> Result<PlacedRows, AllocError>
    requires { IsRule rule.now }
    ensures { IfOk result (λ placed. placed ≡ map (placed_meant def.now rule.now) rows) }
{
    let mut news = Listed::new(alloc);
    for row in rows.into_vec() {
        news.push(place_row(rule, def, row))?;
    }
    Ok(news)
}

fn copied(def: &TableDef) -> Result<TableDef, AllocError>
    ensures { IfOk result (λ copy. copy ≡ def.now) }
{
    def.clone()
}

/// A copy of the rule, by which rows are placed once they were found.
fn placing_of(rule: &Rule) -> Result<Placing, AllocError>
    requires { IsRule rule.now }
    ensures { IfOk result (λ placing. placing ≡ rule.now) }
{
    Ok(Placing::new(rule.clone()?))
}

fn aggregates_of(alloc: Global, list: &[CellColumn]) -> Result<Aggregates, AllocError>
    ensures { IfOk result (λ aggregates. aggregates ≡ aggregates_meant list.now) }
{
    let mut aggregates = Listed::new(alloc);
    for column in list {
        aggregates.push(column.aggregate)?;
    }
    Ok(aggregates)
}

/// What is done with the rows, and the columns of the answer.
fn deed_of(
    alloc: Global,
    table: &Table,
    work: Work,
) -> Result<(Deed, Option<AnswerColumns>), AllocError>
    requires { IsRule table.now.rule }
    ensures deed { IfOk result (λ found. found.0 ≡ deed_by table.now.def table.now.rule work) }
    ensures columns { IfOk result (λ found. found.1 ≡ columns_by work) }
{
    match work {
        Work::Insert(rows) => {
            let news = placed_rows(alloc, &table.rule, &table.def, rows)?;
            Ok((Deed::Insert(news), None))
        }
        Work::Select(selected) => Ok((
            Deed::Select {
                order: selected.order,
                skip: selected.skip,
                most: selected.most,
            },
            Some(AnswerColumns::Picks(selected.picks)),
        )),
        Work::Aggregate(list) => Ok((
            Deed::Aggregate(aggregates_of(alloc, list.as_slice())?),
            Some(AnswerColumns::Cells(list)),
        )),
        Work::Update(sets) => {
            let changing = Changing {
                table: copied(&table.def)?,
                rule: placing_of(&table.rule)?,
                sets,
            };
            Ok((Deed::Update(changing), None))
        }
        Work::Delete => Ok((Deed::Delete(placing_of(&table.rule)?), None)),
    }
}

/// The name of the key column.
fn key_name(alloc: Global, def: &TableDef) -> Result<Name, AllocError>
    requires { def.now.key < length def.now.columns }
    ensures { IfOk result (λ name. name ≡ key_named def.now) }
{
    def.columns.as_slice()[def.key as usize].name.copy(alloc)
}

/// What is asked of each link.
fn scan_of(
    alloc: Global,
    def: &TableDef,
    items: ScanItems,
    cond: Option<Cond>,
    limit: Option<u64>,
    lock: LockMode,
) -> Result<TableScan, AllocError>
    requires { def.now.key < length def.now.columns }
    ensures { IfOk result (λ scan. scan ≡ record { key = key_named def.now; place = def.now.key; kinds = kinds_meant def.now; items = items; cond = cond; limit = limit; lock = lock }) }
{
    Ok(TableScan {
        key: key_name(alloc, def)?,
        place: def.key,
        kinds: kinds_of(alloc, def)?,
        items,
        cond,
        limit,
        lock,
    })
}

/// The statement of a plan on this table, as the transaction of that number.
pub(crate) fn run_of(
    alloc: Global,
    catalog: &Catalog,
    tx: TxNo,
    table: &Table,
    plan: Plan,
) -> Result<Running, AllocError>
    requires rule { IsRule table.now.rule }
    requires key { table.now.def.key < length table.now.def.columns }
    ensures { IfOk result (λ run. run ≡ run_by catalog.now tx table.now plan) }
{
    let targets = targets_of(
        alloc,
        plan.mode,
        table.parts.as_slice(),
        plan.parts.as_slice(),
    )?;
    let branches = branches_of(alloc, catalog, &tx, targets.as_slice())?;
    let scan = scan_of(
        alloc,
        &table.def,
        plan.pushed,
        plan.cond,
        plan.limit,
        plan.mode,
    )?;
    let (deed, columns) = deed_of(alloc, table, plan.work)?;
    Ok(Running {
        tx,
        table: plan.table,
        columns,
        job: Job::new(alloc, branches, targets, scan, deed),
    })
}
