//! Statements that were at work.
ghost use Rattle.std.specs.Prelude.{◌≡◌, ◌≤◌, length, IfOk};
ghost use Rattle.my_messages.specs.Reply.{HasBytes};
ghost use Rattle.sql_replies.specs.Outcomes.{limit_in as limit_meant, server_name as name_meant, refusal_reply, found_reply, counted_reply, row_reply as reply_to_row, outcome_reply as reply_to_outcome, IsShowable};

use crate::errors::{
    arithmetic, backend_refused, done, duplicate, limit, no_memory, out_of_range, shown, too_long,
};
use crate::results::{shown_cells, shown_rows};
use conf_file::HostEntry;
use front_rows::CellRow;
use my_messages::Reply;
use sql_values::{Row, TableDef};
use std::alloc::{AllocError, Global};
use stmt_plan::{AnswerColumns, RowFault};
use txn_phases::{Outcome, Refusal};

/// The number of want of memory.
const OUT_OF_MEMORY: u16 = 1037;

/// The number of a limit that is passed.
const LIMIT: u16 = 14010;

/// The limit that a backend's message names.
fn limit_in(message: &str) -> &str
    ensures name { result.now ≡ limit_meant message.now }
    ensures short { length result.now ≤ 64 }
{
    match message.strip_prefix("Limit: ") {
        Some(name) => shown(name),
        None => "",
    }
}

/// The name of a server, or nothing where there is none with this number.
fn server_name(servers: &[HostEntry], server: u32) -> &str
    ensures { result.now ≡ name_meant servers.now server }
{
    match servers.get(server as usize) {
        Some(host) => host.name.as_str(),
        None => "",
    }
}

/// A backend's refusal.
fn refused(alloc: Global, servers: &[HostEntry], refusal: &Refusal) -> Result<Reply, AllocError>
    ensures reply { IfOk result (λ reply. reply ≡ refusal_reply servers.now refusal.now) }
    ensures bytes { IfOk result HasBytes }
{
    if refusal.number == OUT_OF_MEMORY {
        return no_memory(alloc);
    }
    if refusal.scanning && refusal.number == LIMIT {
        return limit(alloc, limit_in(refusal.message.as_str()));
    }
    backend_refused(alloc, server_name(servers, refusal.server), refusal.number)
}

fn found(
    alloc: Global,
    table: &TableDef,
    columns: &Option<AnswerColumns>,
    rows: &[Row],
) -> Result<Reply, AllocError>
    ensures reply { IfOk result (λ reply. reply ≡ found_reply table.now columns.now rows.now) }
    ensures bytes { IsShowable columns.now (Outcome.Found rows.now) → IfOk result HasBytes }
{
    match columns {
        Some(AnswerColumns::Picks(picks)) => shown_rows(alloc, table, picks, rows),
        Some(AnswerColumns::Cells(_)) | None => Ok(done(0)),
    }
}

fn counted(
    alloc: Global,
    columns: &Option<AnswerColumns>,
    cells: &CellRow,
) -> Result<Reply, AllocError>
    ensures reply { IfOk result (λ reply. reply ≡ counted_reply columns.now cells.now) }
    ensures bytes { IsShowable columns.now (Outcome.Cells cells.now) → IfOk result HasBytes }
{
    match columns {
        Some(AnswerColumns::Cells(list)) => shown_cells(alloc, list.as_slice(), cells),
        Some(AnswerColumns::Picks(_)) | None => Ok(done(0)),
    }
}

/// A row that an UPDATE can't change.
fn row_refused(alloc: Global, fault: &RowFault) -> Result<Reply, AllocError>
    ensures reply { IfOk result (λ reply. reply ≡ reply_to_row fault.now) }
    ensures bytes { IfOk result HasBytes }
{
    match fault {
        RowFault::Arithmetic => arithmetic(alloc),
        RowFault::OutOfRange { column, row } => out_of_range(alloc, column, *row),
        RowFault::TooLong { column, row } => too_long(alloc, column, *row),
    }
}

/// The reply to a statement on this table: for a SELECT with the columns or aggregates that it asks for, and none for one that writes.
///
/// `servers` are all servers, by number.
pub fn outcome_reply(
    alloc: Global,
    table: &TableDef,
    columns: &Option<AnswerColumns>,
    servers: &[HostEntry],
    outcome: &Outcome,
) -> Result<Reply, AllocError>
    ensures reply { IfOk result (λ reply. reply ≡ reply_to_outcome table.now columns.now servers.now outcome.now) }
    ensures bytes { IsShowable columns.now outcome.now → IfOk result HasBytes }
{
    match outcome {
        Outcome::Found(rows) => found(alloc, table, columns, rows.as_slice()),
        Outcome::Cells(cells) => counted(alloc, columns, cells),
        Outcome::Done(count) => Ok(done(*count)),
        Outcome::Duplicate(key) => duplicate(alloc, *key),
        Outcome::RowRefused(fault) => row_refused(alloc, fault),
        Outcome::AnswerLimit => limit(alloc, "answer"),
        Outcome::WriteSetLimit => limit(alloc, "write set"),
        Outcome::Refused(refusal) => refused(alloc, servers, refusal),
    }
}
