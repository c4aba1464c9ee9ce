//! The canonical text of aggregates.
ghost use Rattle.std.specs.Prelude.{◌≡◌, ◌++◌, OnOk, map, drop, codes};
ghost use Rattle.std.specs.List.{flat_map};
ghost use Rattle.sql_text.specs.Printing.{joined_text, column_text, call_text, aggregate_item_text};

use crate::link::AggregateCall;
use crate::printing::{push_alias, push_column};
use crate::statement::AggregateItem;
use sql_values::ColumnName;
use std::alloc::AllocError;

/// Adds a column and the parenthesis behind it.
fn push_enclosed(out: &mut Vec<u8>, column: &ColumnName) -> Result<(), AllocError>
    ensures { OnOk result (out.new.items ≡ out.old.items ++ (column_text column.now ++ codes ")")) }
{
    push_column(out, column)?;
    out.extend_from_slice(b")")
}

/// Adds a call of an aggregate function.
pub fn push_call(out: &mut Vec<u8>, call: &AggregateCall) -> Result<(), AllocError>
    ensures { OnOk result (out.new.items ≡ out.old.items ++ call_text call.now) }
{
    match call {
        AggregateCall::Count => out.extend_from_slice(b"COUNT(*)"),
        AggregateCall::Sum(column) => {
            out.extend_from_slice(b"SUM(")?;
            push_enclosed(out, column)
        }
        AggregateCall::Min(column) => {
            out.extend_from_slice(b"MIN(")?;
            push_enclosed(out, column)
        }
        AggregateCall::Max(column) => {
            out.extend_from_slice(b"MAX(")?;
            push_enclosed(out, column)
        }
    }
}

/// Adds an aggregate with its alias.
fn push_aggregate_item(out: &mut Vec<u8>, item: &AggregateItem) -> Result<(), AllocError>
    ensures { OnOk result (out.new.items ≡ out.old.items ++ aggregate_item_text item.now) }
{
    push_call(out, &item.call)?;
    push_alias(out, &item.alias)
}

/// Adds further aggregates, each behind a comma and a blank.
fn push_further_aggregate_items(
    out: &mut Vec<u8>,
    items: &[AggregateItem],
) -> Result<(), AllocError>
    ensures { OnOk result (out.new.items ≡ out.old.items ++ flat_map (λ y. codes ", " ++ y) (map aggregate_item_text items.now)) }
{
    for item in items {
        out.extend_from_slice(b", ")?;
        push_aggregate_item(out, item)?;
    }
    Ok(())
}

/// Adds aggregates with commas between them.
pub fn push_aggregate_items(out: &mut Vec<u8>, items: &[AggregateItem]) -> Result<(), AllocError>
    ensures { OnOk result (out.new.items ≡ out.old.items ++ joined_text (codes ", ") (map aggregate_item_text items.now)) }
{
    let [first, others @ ..] = items else {
        return Ok(());
    };
    push_aggregate_item(out, first)?;
    push_further_aggregate_items(out, others)
}
