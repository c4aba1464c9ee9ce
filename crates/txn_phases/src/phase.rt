use crate::{Asks, Outcome};
use list_types::Listed;
use sql_values::{Name, PartNo, ServerNo, Xid};

/// A transaction's branch at a server.
#[derive(Clone, Debug, PartialEq, Eq, Drop)]
pub struct Branch {
    pub server: ServerNo,
    pub xid: Xid,
    /// Whether its START was done.
    pub begun: bool,
}

/// Branches, in the order of their servers.
pub type Branches = Listed<Branch>;

/// A link that a statement scans.
#[derive(Clone, Debug, PartialEq, Eq, Drop)]
pub struct Target {
    pub part: PartNo,
    pub server: ServerNo,
    /// The table's name there.
    pub remote: Name,
    /// Whether its rows count: a link of each partition does, and the others have the same rows.
    pub counts: bool,
}

/// Links that a statement scans, in the order of partitions, then of links.
pub type Targets = Listed<Target>;

/// How far a statement has come: whose answers it reads. Once the rows were found its outcome is known.
#[derive(Debug, Drop)]
pub enum Phase {
    /// To START.
    Starting,
    /// To the scans.
    Scanning,
    /// To what is put or deleted.
    Putting(Outcome),
    /// To END.
    Ending(Outcome),
    /// To PREPARE.
    Preparing(Outcome),
    /// To COMMIT. The transaction is decided.
    Committing(Outcome),
    /// To ROLLBACK.
    RollingBack(Outcome),
    /// All is done.
    Over,
}

/// What is owed of a transaction whose statement was given up for want of memory.
#[derive(Clone, Copy, Debug, PartialEq, Eq)]
pub enum Stage {
    /// Answers to START, and then a ROLLBACK for each branch that these say was begun.
    Starting,
    /// Answers to later requests, and then a ROLLBACK for each branch that was begun.
    Open,
    /// Answers alone: the transaction is decided, or its ROLLBACKs went out.
    Over,
}

/// How a statement's transaction ended.
#[derive(Clone, Copy, Debug, PartialEq, Eq)]
pub enum Ending {
    /// It was decided earlier, and each server has answered its COMMIT.
    Committed,
    /// It has no branch, so it is decided and committed at once.
    Alone,
    /// It wasn't decided, and each begun branch was rolled back.
    RolledBack,
}

/// How a statement goes on.
#[derive(Debug, Drop)]
pub enum Progress {
    /// The answer of this server is read next.
    Waits(ServerNo),
    /// These requests go out, and then the answer of the first server is read.
    Asks(Asks),
    /// The transaction is decided; then as above.
    Decides(Asks),
    /// The statement is over.
    Over { ending: Ending, outcome: Outcome },
}
