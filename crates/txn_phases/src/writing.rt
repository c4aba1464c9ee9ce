//! What is written once the rows of a statement were found.
ghost use Rattle.std.specs.Prelude.{◌≡◌, IfOk};
ghost use Rattle.txn_phases.specs.Phases.{putting, inserting, updating, updating_found, deleting, deleting_found};

use crate::changing::{ChangeFault, changes_of};
use crate::deed::taken_key;
use crate::partitions::place_keys;
use crate::requests::{Asks, dels, puts};
use crate::weight::{deletes_too_much, writes_too_much};
use crate::{Changing, Outcome, PlacedRow, Placing, TableScan, Target};
use sql_text::LinkAnswer;
use sql_values::{Row, Rows};
use std::alloc::{AllocError, Global};

/// How a statement that writes goes on, once its rows were found.
#[derive(Debug, Drop)]
pub(crate) enum Writing {
    /// It is given up.
    Refused(Outcome),
    /// These requests write, and its outcome stands.
    Writes { outcome: Outcome, asks: Asks },
}

/// Its partition's rows to each link, unless they are too many.
fn plan_puts(alloc: Global, targets: &[Target], news: &[PlacedRow]) -> Result<Writing, AllocError>
    ensures { IfOk result (λ writing. writing ≡ putting targets.now news.now) }
{
    if writes_too_much(alloc, targets, news)? {
        return Ok(Writing::Refused(Outcome::WriteSetLimit));
    }
    Ok(Writing::Writes {
        outcome: Outcome::Done(news.len() as u64),
        asks: puts(alloc, targets, news)?,
    })
}

/// A new key that is taken gives an INSERT up; else the rows are put.
pub(crate) fn plan_insert(
    alloc: Global,
    targets: &[Target],
    place: u32,
    found: &[LinkAnswer],
    news: &[PlacedRow],
) -> Result<Writing, AllocError>
    ensures { IfOk result (λ writing. writing ≡ inserting targets.now place found.now news.now) }
{
    if let Some(key) = taken_key(alloc, found, place, news)? {
        return Ok(Writing::Refused(Outcome::Duplicate(key)));
    }
    plan_puts(alloc, targets, news)
}

/// The first row that can't be changed gives an UPDATE up; else the rows that change are put.
#[tactic(auto, using(crate::proofs::Told::meant_refused))]
fn plan_changes(
    alloc: Global,
    targets: &[Target],
    changing: &Changing,
    rows: &[Row],
) -> Result<Writing, AllocError>
    ensures { IfOk result (λ writing. writing ≡ updating_found targets.now changing.now rows.now) }
{
    match changes_of(alloc, changing, rows) {
        Ok(news) => plan_puts(alloc, targets, news.as_slice()),
        Err(ChangeFault::Refused(fault)) => Ok(Writing::Refused(Outcome::RowRefused(fault))),
        Err(ChangeFault::NoMemory) => Err(AllocError),
    }
}

/// An UPDATE of these rows; of None, more than an answer may have, it is given up.
pub(crate) fn plan_update(
    alloc: Global,
    targets: &[Target],
    changing: &Changing,
    rows: Option<Rows>,
) -> Result<Writing, AllocError>
    ensures { IfOk result (λ writing. writing ≡ updating targets.now changing.now rows) }
{
    match rows {
        Some(rows) => plan_changes(alloc, targets, changing, rows.as_slice()),
        None => Ok(Writing::Refused(Outcome::AnswerLimit)),
    }
}

/// Its partition's keys to each link, unless they are too many.
fn plan_dels(
    alloc: Global,
    targets: &[Target],
    scan: &TableScan,
    placing: &Placing,
    rows: &[Row],
) -> Result<Writing, AllocError>
    ensures { IfOk result (λ writing. writing ≡ deleting_found targets.now scan.now placing.now rows.now) }
{
    let keys = place_keys(alloc, placing, scan.place, rows)?;
    if deletes_too_much(alloc, targets, &keys)? {
        return Ok(Writing::Refused(Outcome::WriteSetLimit));
    }
    Ok(Writing::Writes {
        outcome: Outcome::Done(rows.len() as u64),
        asks: dels(alloc, targets, &scan.key, &keys)?,
    })
}

/// A DELETE of these rows; of None, more than an answer may have, it is given up.
pub(crate) fn plan_delete(
    alloc: Global,
    targets: &[Target],
    scan: &TableScan,
    placing: &Placing,
    rows: Option<Rows>,
) -> Result<Writing, AllocError>
    ensures { IfOk result (λ writing. writing ≡ deleting targets.now scan.now placing.now rows) }
{
    match rows {
        Some(rows) => plan_dels(alloc, targets, scan, placing, rows.as_slice()),
        None => Ok(Writing::Refused(Outcome::AnswerLimit)),
    }
}
