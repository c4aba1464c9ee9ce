//! The rows of answers, and what is kept of them.

ghost use Rattle.std.specs.Prelude.{◌≡◌, ◌++◌, ◌*◌, ◌-◌, ◌^◌, IfOk, OnOk, min, sum_by};
ghost use Rattle.sql_values.specs.Storing.{row_size};
ghost use Rattle.front_rows.specs.Gathering.{answer_rows, all_rows};
ghost use Rattle.front_rows.specs.Merging.{cut as cut_of, is_too_large as too_large};

use crate::{Answers, MOST_BYTES, MOST_ROWS};
use sql_text::LinkAnswer;
use sql_values::{Row, size};
use std::alloc::{AllocError, Global};

/// Adds the rows of an answer. Those of the first part stay where they are.
fn add_rows(rows: &mut Vec<Row>, answer: LinkAnswer) -> Result<(), AllocError>
    ensures { OnOk result (rows.new.items ≡ rows.old.items ++ answer_rows answer) }
{
    let LinkAnswer::Rows(list) = answer else {
        return Ok(());
    };
    let mut more = list.into_vec();
    if rows.is_empty() {
        *rows = more;
        return Ok(());
    }
    rows.append(&mut more)?;
    Ok(())
}

/// The rows of all parts, one part after the other. They are moved.
pub(crate) fn gathered(alloc: Global, parts: Answers) -> Result<Vec<Row>, AllocError>
    ensures { IfOk result (λ rows. rows.items ≡ all_rows parts) }
{
    let mut rows = Vec::new(alloc);
    for answer in parts.into_vec() {
        add_rows(&mut rows, answer)?;
    }
    Ok(rows)
}

/// Without so many rows in front, at most so many. Rows are moved, and only where some are skipped.
pub(crate) fn cut(mut rows: Vec<Row>, skip: u64, most: Option<u64>) -> Result<Vec<Row>, AllocError>
    ensures { IfOk result (λ kept. kept.items ≡ cut_of skip most rows.items) }
{
    if skip > 0 {
        let from = (skip as usize).min(rows.len());
        rows = rows.split_off(from)?;
    }
    if let Some(most) = most {
        rows.truncate(most as usize);
    }
    Ok(rows)
}

/// The bytes of the rows; 2^64 - 1 where they are more.
fn bytes_of(rows: &[Row]) -> u64
    ensures { result ≡ min (sum_by row_size rows.now) (2 ^ 64 - 1) }
{
    let mut total: u64 = 0;
    for row in rows {
        total = total.saturating_add(size(row));
    }
    total
}

pub(crate) fn is_too_large(rows: &[Row]) -> bool
    ensures { result ≡ too_large rows.now }
{
    rows.len() > MOST_ROWS || bytes_of(rows) > MOST_BYTES
}
