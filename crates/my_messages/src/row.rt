// The rows of a result (`ProtocolText::ResultsetRow`).
ghost use Rattle.std.specs.Prelude.{◌≡◌};
ghost use Rattle.my_messages.specs.Reading.{Gives, cell_at, cells_at};

use crate::fault::{BadBytes, ReadFault};
use crate::reading::end;
use crate::utf8::text;
use crate::{Cell, CellRow};
use list_types::Listed;
use std::alloc::Global;

/// A value, and what follows it.
#[tactic(auto, unfolding(crate::specs::Reading::cell_at))]
fn cell(alloc: Global, bytes: &[u8]) -> Result<(Cell, &[u8]), ReadFault>
    ensures { Gives (λ x. (x.0, x.1.now)) result (cell_at bytes.now) }
{
    match bytes {
        [] => Err(ReadFault::Bad(BadBytes { left: 0 })),
        [0xFB, rest @ ..] => Ok((None, rest)),
        [_, ..] => {
            let (text, rest) = text(alloc, bytes)?;
            Ok((Some(text), rest))
        }
    }
}

/// A row of so many values.
pub(crate) fn row(alloc: Global, width: u64, bytes: &[u8]) -> Result<CellRow, ReadFault>
    ensures { Gives (λ x. x) result (cells_at width bytes.now) }
{
    let mut cells = Listed::new(alloc);
    let mut rest = bytes;
    for _ in 0..width {
        let (value, after) = cell(alloc, rest)?;
        cells.push(value)?;
        rest = after;
    }
    Ok(end(cells, rest)?)
}
