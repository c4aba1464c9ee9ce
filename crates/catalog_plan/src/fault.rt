use sql_values::Name;
use stmt_plan::StmtFault;
use thiserror::Error;

/// Why a statement has no plan.
#[derive(Debug, Drop, Error)]
pub enum PlanFault {
    /// There is no table of this name.
    #[error("no table {0}")]
    NoTable(Name),
    /// The statement breaks a rule on its table.
    #[error("{0}")]
    Statement(StmtFault),
}
