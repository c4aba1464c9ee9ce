//! Why a request is refused, and how that is told.

ghost use Rattle.std.specs.Prelude.{◌≡◌, IfOk};
ghost use Rattle.branch_store.specs.Answers.{refusal as refusal_of, stage_word as word_of};

use crate::Stage;
use list_types::Text;
use sql_text::LinkAnswer;
use sql_values::Name;
use std::alloc::{AllocError, Global};

/// Why a request is refused. Nothing has changed then.
#[derive(Debug, Drop)]
pub enum BranchFault {
    /// No such branch lives, or the connection owns none.
    NoSuchBranch,
    /// The branch is at a stage at which this can't be done, or belongs to another connection.
    WrongState(Stage),
    /// A branch of this name lives already.
    Duplicate,
    /// There is no such table.
    NoTable(Name),
    /// The table has no such column, or the column isn't its key.
    NoColumn(Name),
    /// Values of different types meet, a sum is asked of texts, or a row isn't one of the table.
    TypeMismatch,
}

fn stage_word(stage: Stage) -> &'static str
    ensures { result.now ≡ word_of stage }
{
    match stage {
        Stage::Active => "ACTIVE",
        Stage::Ended => "IDLE",
        Stage::Prepared => "PREPARED",
    }
}

fn refused(alloc: Global, number: u16, message: &str) -> Result<LinkAnswer, AllocError>
    ensures { IfOk result (λ answer. answer ≡ LinkAnswer.Refused number message.now) }
{
    Ok(LinkAnswer::Refused {
        number,
        message: Text::from_str(alloc, message)?,
    })
}

fn wrong_state(alloc: Global, stage: Stage) -> Result<LinkAnswer, AllocError>
    ensures { IfOk result (λ answer. answer ≡ refusal_of (BranchFault.WrongState stage)) }
{
    let word = stage_word(stage);
    Ok(LinkAnswer::Refused {
        number: 1399,
        message: Text::from_string(format!(in alloc; "Wrong state: {word}")?),
    })
}

fn no_table(alloc: Global, table: &Name) -> Result<LinkAnswer, AllocError>
    ensures { IfOk result (λ answer. answer ≡ refusal_of (BranchFault.NoTable table.now)) }
{
    Ok(LinkAnswer::Refused {
        number: 1146,
        message: Text::from_string(format!(in alloc; "Table '{table}' doesn't exist")?),
    })
}

fn no_column(alloc: Global, column: &Name) -> Result<LinkAnswer, AllocError>
    ensures { IfOk result (λ answer. answer ≡ refusal_of (BranchFault.NoColumn column.now)) }
{
    Ok(LinkAnswer::Refused {
        number: 1054,
        message: Text::from_string(format!(in alloc; "Unknown column '{column}'")?),
    })
}

/// A fault as it is answered.
pub(crate) fn refusal(alloc: Global, fault: &BranchFault) -> Result<LinkAnswer, AllocError>
    ensures { IfOk result (λ answer. answer ≡ refusal_of fault.now) }
{
    match fault {
        BranchFault::NoSuchBranch => refused(alloc, 1397, "Unknown XID"),
        BranchFault::WrongState(stage) => wrong_state(alloc, *stage),
        BranchFault::Duplicate => refused(alloc, 1440, "The XID already exists"),
        BranchFault::NoTable(table) => no_table(alloc, table),
        BranchFault::NoColumn(column) => no_column(alloc, column),
        BranchFault::TypeMismatch => refused(alloc, 14020, "Type mismatch"),
    }
}
