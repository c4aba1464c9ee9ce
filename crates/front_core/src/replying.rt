//! What a client is told of an outcome.
ghost use Rattle.std.specs.Prelude.{◌≡◌, ◌==◌, ◌&&◌, true, IfOk, length, nat_le, nat_lt};
ghost use Rattle.std.specs.List.{list_all};
ghost use Rattle.my_messages.specs.Reply.{HasBytes};
ghost use Rattle.sql_replies.specs.Outcomes.{are_short_rows as short_rows, is_short_cell as short_cell, IsShowable};
ghost use Rattle.txn_phases.specs.Phases.{is_short as short_value};
ghost use Rattle.front_core.specs.Core.{are_few as few_picks, are_few_cells as few_cells, is_showable as showable, outcome_told, reply_to as reply_meant};

use crate::work::Running;
use catalog::Catalog;
use my_messages::Reply;
use sql_replies::{no_memory, outcome_reply};
use sql_text::Cell;
use sql_values::{Row, TableDef, Value};
use std::alloc::{AllocError, Global};
use stmt_plan::{AnswerColumns, CellColumn, Picks};
use txn_phases::{LONGEST_TEXT, Outcome};

/// The most columns of an answer.
const MOST_PICKS: usize = 900;

fn is_short(value: &Value) -> bool
    ensures { result ≡ short_value value.now }
{
    match value {
        Value::Number(_) => true,
        Value::Text(text) => text.as_str().len() <= LONGEST_TEXT,
    }
}

fn is_short_row(row: &Row) -> bool
    ensures { result ≡ list_all short_value row.now }
{
    row.as_slice().iter().all(|value| is_short(value))
}

fn are_short_rows(rows: &[Row]) -> bool
    ensures { result ≡ short_rows rows.now }
{
    rows.iter().all(|row| is_short_row(row))
}

/// Whether an answer may have so many columns.
fn is_few(count: usize) -> bool
    ensures { result ≡ (nat_lt 0 count && nat_le count 900) }
{
    0 < count && count <= MOST_PICKS
}

fn are_few(picks: &Picks) -> bool
    ensures { result ≡ few_picks picks.now }
{
    is_few(picks.picks.len())
}

fn is_short_cell(cell: &Cell) -> bool
    ensures { result ≡ short_cell cell.now }
{
    match cell {
        Some(text) => text.as_str().len() <= LONGEST_TEXT,
        None => true,
    }
}

fn are_short_cells(cells: &[Cell]) -> bool
    ensures { result ≡ list_all short_cell cells.now }
{
    cells.iter().all(|cell| is_short_cell(cell))
}

/// Whether these are so many cells, none longer than a column may hold.
fn are_cells(count: usize, cells: &[Cell]) -> bool
    ensures { result ≡ ((length cells.now == count) && list_all short_cell cells.now) }
{
    cells.len() == count && are_short_cells(cells)
}

fn are_few_cells(list: &[CellColumn], cells: &[Cell]) -> bool
    ensures { result ≡ few_cells list.now cells.now }
{
    is_few(list.len()) && are_cells(list.len(), cells)
}

/// Whether packets can hold the answer.
fn is_showable(columns: &Option<AnswerColumns>, outcome: &Outcome) -> bool
    ensures { result ≡ showable columns.now outcome.now }
{
    match (columns, outcome) {
        (Some(AnswerColumns::Picks(picks)), Outcome::Found(rows)) => {
            are_few(picks) && are_short_rows(rows.as_slice())
        }
        (Some(AnswerColumns::Cells(list)), Outcome::Cells(cells)) => {
            are_few_cells(list.as_slice(), cells.as_slice())
        }
        _ => true,
    }
}

/// What a client is told of an outcome. Rows that no packets can hold are refused as too large an answer.
#[tactic(auto, using(crate::proofs::Showing::showable_is, crate::proofs::Showing::limit_showable))]
fn told(
    alloc: Global,
    catalog: &Catalog,
    columns: &Option<AnswerColumns>,
    def: &TableDef,
    outcome: &Outcome,
) -> Result<Reply, AllocError>
    ensures reply { IfOk result (λ reply. reply ≡ outcome_told catalog.now columns.now def.now outcome.now) }
    ensures bytes { IfOk result HasBytes }
{
    let servers = catalog.servers();
    if is_showable(columns, outcome) {
        return outcome_reply(alloc, def, columns, servers, outcome);
    }
    outcome_reply(alloc, def, columns, servers, &Outcome::AnswerLimit)
}

/// The reply to a statement that came out so.
pub(crate) fn reply_to(
    alloc: Global,
    catalog: &Catalog,
    run: &Running,
    outcome: &Outcome,
) -> Result<Reply, AllocError>
    ensures reply { IfOk result (λ reply. reply ≡ reply_meant catalog.now run.now outcome.now) }
    ensures bytes { IfOk result HasBytes }
{
    match catalog.tables().get(run.table as usize) {
        Some(table) => told(alloc, catalog, &run.columns, &table.def, outcome),
        None => no_memory(alloc),
    }
}
