//! Conditions without the names of tables.

ghost use Rattle.std.specs.Prelude.{◌≡◌, IfOk, map};
ghost use Rattle.sql_text.specs.declared.statement.AggregateItem.{AggregateItem};
ghost use Rattle.stmt_plan.specs.Selects.{bare_call as call_alone, bare_name as name_alone, bare_operand as operand_alone, unqualified as bare};

use list_types::Listed;
use sql_text::{AggregateCall, AggregateCalls, AggregateItem};
use sql_values::{ColumnName, Cond, Literals, Operand};
use sqlite_items::{Boxed, Items};
use std::alloc::{AllocError, Global};

fn bare_name(alloc: Global, name: &ColumnName) -> Result<ColumnName, AllocError>
    ensures { IfOk result (λ copy. copy ≡ name_alone name.now) }
{
    Ok(ColumnName {
        table: None,
        column: name.column.copy(alloc)?,
    })
}

fn bare_operand(alloc: Global, operand: &Operand) -> Result<Operand, AllocError>
    ensures { IfOk result (λ copy. copy ≡ operand_alone operand.now) }
{
    match operand {
        Operand::Column(name) => Ok(Operand::Column(bare_name(alloc, name)?)),
        Operand::Literal(literal) => Ok(Operand::Literal(literal.clone()?)),
    }
}

fn copy_list(list: &Literals) -> Result<Literals, AllocError>
    ensures { IfOk result (λ copy. copy ≡ list.now) }
{
    list.clone()
}

/// A copy of the condition in which each column stands without its table.
#[cycle(unqualifying)]
pub(crate) fn unqualified(alloc: Global, cond: &Cond) -> Result<Cond, AllocError>
    ensures { IfOk result (λ copy. copy ≡ bare cond.now) }
{
    match cond {
        Cond::All(parts) => Ok(Cond::All(unqualified_parts(alloc, parts.as_slice())?)),
        Cond::Any(parts) => Ok(Cond::Any(unqualified_parts(alloc, parts.as_slice())?)),
        Cond::Not(part) => Ok(Cond::Not(Boxed::new(alloc, unqualified(alloc, part.get())?)?)),
        Cond::Compare {
            left,
            comparison,
            right,
        } => Ok(Cond::Compare {
            left: bare_operand(alloc, left)?,
            comparison: *comparison,
            right: bare_operand(alloc, right)?,
        }),
        Cond::In {
            column,
            negated,
            list,
        } => Ok(Cond::In {
            column: bare_name(alloc, column)?,
            negated: *negated,
            list: copy_list(list)?,
        }),
        Cond::Between {
            column,
            negated,
            low,
            high,
        } => Ok(Cond::Between {
            column: bare_name(alloc, column)?,
            negated: *negated,
            low: low.clone()?,
            high: high.clone()?,
        }),
    }
}

#[cycle(unqualifying)]
fn unqualified_parts(alloc: Global, parts: &[Cond]) -> Result<Items<Cond>, AllocError>
    ensures { IfOk result (λ copies. copies ≡ map bare parts.now) }
{
    let mut copies = Items::new(alloc);
    for part in parts {
        copies.push(unqualified(alloc, part)?)?;
    }
    Ok(copies)
}

fn bare_call(alloc: Global, call: &AggregateCall) -> Result<AggregateCall, AllocError>
    ensures { IfOk result (λ copy. copy ≡ call_alone call.now) }
{
    match call {
        AggregateCall::Count => Ok(AggregateCall::Count),
        AggregateCall::Sum(name) => Ok(AggregateCall::Sum(bare_name(alloc, name)?)),
        AggregateCall::Min(name) => Ok(AggregateCall::Min(bare_name(alloc, name)?)),
        AggregateCall::Max(name) => Ok(AggregateCall::Max(bare_name(alloc, name)?)),
    }
}

/// Copies of the calls in which each column stands without its table.
pub(crate) fn bare_calls(
    alloc: Global,
    items: &[AggregateItem],
) -> Result<AggregateCalls, AllocError>
    ensures { IfOk result (λ calls. calls ≡ map (λ (item : AggregateItem). call_alone item.call) items.now) }
{
    let mut calls = Listed::new(alloc);
    for item in items {
        calls.push(bare_call(alloc, &item.call)?)?;
    }
    Ok(calls)
}
