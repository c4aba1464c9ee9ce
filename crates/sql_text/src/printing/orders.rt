//! The canonical text of ORDER BY and LIMIT.
ghost use Rattle.std.specs.Prelude.{◌≡◌, ◌++◌, OnOk, map, drop, codes, pos};
ghost use Rattle.std.specs.List.{flat_map};
ghost use Rattle.std.specs.Fmt.{signed_decimal};
ghost use Rattle.sql_text.specs.Printing.{joined_text, direction_text, sort_text, order_text, offset_text, limit_text};

use crate::printing::push_column;
use crate::statement::{Limit, SortItem};
use std::alloc::{AllocError, Global};

/// Adds DESC, or nothing.
fn push_direction(out: &mut Vec<u8>, rising: bool) -> Result<(), AllocError>
    ensures { OnOk result (out.new.items ≡ out.old.items ++ direction_text rising) }
{
    if rising {
        return Ok(());
    }
    out.extend_from_slice(b" DESC")
}

/// Adds a column and its direction.
fn push_sort(out: &mut Vec<u8>, sort: &SortItem) -> Result<(), AllocError>
    ensures { OnOk result (out.new.items ≡ out.old.items ++ sort_text sort.now) }
{
    push_column(out, &sort.column)?;
    push_direction(out, sort.rising)
}

/// Adds further columns, each behind a comma and a blank.
fn push_further_sorts(out: &mut Vec<u8>, sorts: &[SortItem]) -> Result<(), AllocError>
    ensures { OnOk result (out.new.items ≡ out.old.items ++ flat_map (λ y. codes ", " ++ y) (map sort_text sorts.now)) }
{
    for sort in sorts {
        out.extend_from_slice(b", ")?;
        push_sort(out, sort)?;
    }
    Ok(())
}

/// Adds ORDER BY and columns, or nothing where there are none.
pub fn push_order(out: &mut Vec<u8>, sorts: &[SortItem]) -> Result<(), AllocError>
    ensures { OnOk result (out.new.items ≡ out.old.items ++ order_text sorts.now) }
{
    let [first, others @ ..] = sorts else {
        return Ok(());
    };
    out.extend_from_slice(b" ORDER BY ")?;
    push_sort(out, first)?;
    push_further_sorts(out, others)
}

/// Adds words and a number behind them.
pub fn push_counted(
    alloc: Global,
    out: &mut Vec<u8>,
    words: &[u8],
    count: u64,
) -> Result<(), AllocError>
    ensures { OnOk result (out.new.items ≡ out.old.items ++ (words.now ++ signed_decimal (pos count))) }
{
    let digits = count.to_string(alloc)?;
    out.extend_from_slice(words)?;
    out.extend_from_slice(digits.as_str().as_bytes())
}

/// Adds OFFSET and a count, or nothing where it is 0.
fn push_offset(alloc: Global, out: &mut Vec<u8>, offset: u64) -> Result<(), AllocError>
    ensures { OnOk result (out.new.items ≡ out.old.items ++ offset_text offset) }
{
    if offset == 0 {
        return Ok(());
    }
    push_counted(alloc, out, b" OFFSET ", offset)
}

/// Adds LIMIT and its counts, or nothing.
pub fn push_limit(alloc: Global, out: &mut Vec<u8>, limit: Option<Limit>) -> Result<(), AllocError>
    ensures { OnOk result (out.new.items ≡ out.old.items ++ limit_text limit) }
{
    let Some(limit) = limit else {
        return Ok(());
    };
    push_counted(alloc, out, b" LIMIT ", limit.count)?;
    push_offset(alloc, out, limit.offset)
}
