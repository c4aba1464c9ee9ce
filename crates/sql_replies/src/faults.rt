//! Statements that are refused before a server is asked.
ghost use Rattle.std.specs.Prelude.{◌≡◌, IfOk};
ghost use Rattle.my_messages.specs.Reply.{HasBytes};
ghost use Rattle.sql_replies.specs.Errors.{parse_reply as reply_to_parse, plan_reply as reply_to_plan};

use crate::errors::{
    ambiguous, is_null, key_changed, limit, mismatch, no_memory, no_partition, out_of_range,
    syntax_error, too_long, unknown_column, wrong_count,
};
use my_messages::Reply;
use sql_text::ParseFault;
use std::alloc::{AllocError, Global};
use stmt_plan::StmtFault;

/// The reply to a text that is no statement: 1064 with the place, 14010 for one that is nested too deep, or 1037.
pub fn parse_reply(alloc: Global, fault: &ParseFault) -> Result<Reply, AllocError>
    ensures reply { IfOk result (λ reply. reply ≡ reply_to_parse fault.now) }
    ensures bytes { IfOk result HasBytes }
{
    match fault {
        ParseFault::Syntax { place } => syntax_error(alloc, *place),
        ParseFault::Deep { .. } => limit(alloc, "nesting"),
        ParseFault::NoMemory => no_memory(alloc),
    }
}

/// The reply to a statement that has no plan.
pub fn plan_reply(alloc: Global, fault: &StmtFault) -> Result<Reply, AllocError>
    ensures reply { IfOk result (λ reply. reply ≡ reply_to_plan fault.now) }
    ensures bytes { IfOk result HasBytes }
{
    match fault {
        StmtFault::NoColumn(name) => unknown_column(alloc, name),
        StmtFault::Ambiguous(name) => ambiguous(alloc, name),
        StmtFault::KeyChanged => key_changed(alloc),
        StmtFault::ColumnCount { row } => wrong_count(alloc, *row),
        StmtFault::IsNull(name) => is_null(alloc, name),
        StmtFault::TypeMismatch => mismatch(alloc),
        StmtFault::OutOfRange { column, row } => out_of_range(alloc, column, *row),
        StmtFault::TooLong { column, row } => too_long(alloc, column, *row),
        StmtFault::NoPartition(key) => no_partition(alloc, *key),
        StmtFault::NoMemory => no_memory(alloc),
    }
}
