ghost use Rattle.std.specs.Prelude.{◌≡◌};
ghost use Rattle.stmt_plan.specs.Faults.{is_mismatch as is_mismatch_alone};

use sql_values::{CheckFault, Name};
use std::alloc::{AllocError, AllocFailed};
use thiserror::Error;

/// Why a statement has no plan. Rows count from 1.
#[derive(Debug, Drop, Error)]
pub enum StmtFault {
    /// The table has no column of this name.
    #[error("no column {0}")]
    NoColumn(Name),
    /// More than one column may be meant by this name.
    #[error("column {0} is ambiguous")]
    Ambiguous(Name),
    /// The key column is set.
    #[error("the key column is set")]
    KeyChanged,
    /// The list of columns doesn't have each column once, which is told at row 1, or a row has another number of values.
    #[error("another number of values at row {row}")]
    ColumnCount { row: u64 },
    /// NULL for this column.
    #[error("NULL for column {0}")]
    IsNull(Name),
    /// A number for a text or a text for a number, or a condition on values that can't be compared.
    #[error("types that do not go together")]
    TypeMismatch,
    /// A number outside the range of a BIGINT.
    #[error("out of range for column {column} at row {row}")]
    OutOfRange { column: Name, row: u64 },
    /// A text that is longer than the column allows.
    #[error("too long for column {column} at row {row}")]
    TooLong { column: Name, row: u64 },
    /// No partition takes this key.
    #[error("no partition for {0}")]
    NoPartition(i64),
    /// There wasn't enough memory.
    #[error("out of memory")]
    NoMemory,
}

/// Why an UPDATE can't change a row. Rows count from 1, in the order of their keys.
#[derive(Debug, Drop, Error)]
pub enum RowFault {
    /// A literal or a partial result of an expression is outside the range of a BIGINT.
    #[error("an expression is out of range")]
    Arithmetic,
    /// A number outside the range of a BIGINT, for this column.
    #[error("out of range for column {column} at row {row}")]
    OutOfRange { column: Name, row: u64 },
    /// A text that is longer than this column allows.
    #[error("too long for column {column} at row {row}")]
    TooLong { column: Name, row: u64 },
}

impl From<AllocError> for StmtFault {
    ghost use Rattle.std.specs.Prelude.{◌≡◌};
    ghost use Rattle.stmt_plan.specs.declared.fault.StmtFault.TheVariants.{NoMemory};

    ghost from_gives = { λ _ fault. fault ≡ NoMemory };

    fn from(_error: AllocError) -> StmtFault {
        StmtFault::NoMemory
    }
}

impl<T: Drop> From<AllocFailed<T>> for StmtFault {
    ghost use Rattle.std.specs.Prelude.{◌≡◌};
    ghost use Rattle.stmt_plan.specs.declared.fault.StmtFault.TheVariants.{NoMemory};

    ghost from_gives = { λ _ fault. fault ≡ NoMemory };

    fn from(_error: AllocFailed<T>) -> StmtFault {
        StmtFault::NoMemory
    }
}

impl From<CheckFault> for StmtFault {
    ghost use Rattle.std.specs.Prelude.{◌≡◌};
    ghost use Rattle.stmt_plan.specs.Faults.{fault_of_check};

    ghost from_gives = { λ check fault. fault ≡ fault_of_check check };

    fn from(fault: CheckFault) -> StmtFault {
        match fault {
            CheckFault::NoColumn(name) => StmtFault::NoColumn(name),
            CheckFault::Ambiguous(name) => StmtFault::Ambiguous(name),
            CheckFault::TypeMismatch => StmtFault::TypeMismatch,
            CheckFault::NoMemory => StmtFault::NoMemory,
        }
    }
}

/// Whether a check found no more than types that don't go together.
pub(crate) fn is_mismatch(fault: &CheckFault) -> bool
    ensures { result ≡ is_mismatch_alone fault.now }
{
    match fault {
        CheckFault::TypeMismatch => true,
        CheckFault::NoColumn(_) => false,
        CheckFault::Ambiguous(_) => false,
        CheckFault::NoMemory => false,
    }
}
