//! Refusals, one function each.
ghost use Rattle.std.specs.Prelude.{◌≡◌, ◌≤◌, length, IfOk};
ghost use Rattle.my_messages.specs.Reply.{HasBytes};
ghost use Rattle.sql_replies.specs.Errors.{shown as shown_text, ok_reply, no_memory_reply, null_reply, ambiguous_reply, unknown_column_reply, duplicate_reply, syntax_reply, count_reply, no_table_reply, range_reply, too_long_reply, no_partition_reply, arithmetic_reply, refused_reply, key_changed_reply, limit_reply, log_full_reply, mismatch_reply};

use list_types::Text;
use my_messages::Reply;
use sql_values::{LONGEST_NAME, Name};
use std::alloc::{AllocError, Global};

/// The status of a session whose every statement is a transaction of its own (`SERVER_STATUS_AUTOCOMMIT`).
pub(crate) const AUTOCOMMIT: u16 = 2;

/// The text, or nothing where it is longer than a name may be.
pub(crate) fn shown(text: &str) -> &str
    ensures text { result.now ≡ shown_text text.now }
    ensures short { length result.now ≤ 64 }
{
    if text.len() <= LONGEST_NAME { text } else { "" }
}

/// Done, with so many rows changed.
pub fn done(affected: u64) -> Reply
    ensures reply { result ≡ ok_reply affected }
    ensures bytes { HasBytes result }
{
    Reply::Ok {
        affected,
        status: AUTOCOMMIT,
        warnings: 0,
    }
}

/// Want of memory.
pub fn no_memory(alloc: Global) -> Result<Reply, AllocError>
    ensures reply { IfOk result (λ reply. reply ≡ no_memory_reply) }
    ensures bytes { IfOk result HasBytes }
{
    Ok(Reply::Err {
        number: 1037,
        state: *b"HY001",
        message: Text::from_str(alloc, "Out of memory")?,
    })
}

/// NULL for a column.
pub(crate) fn is_null(alloc: Global, column: &Name) -> Result<Reply, AllocError>
    ensures reply { IfOk result (λ reply. reply ≡ null_reply column.now) }
    ensures bytes { IfOk result HasBytes }
{
    let name = shown(column.as_str());
    Ok(Reply::Err {
        number: 1048,
        state: *b"23000",
        message: Text::from_string(format!(in alloc; "Column '{name}' cannot be null")?),
    })
}

/// A name that means more than one column.
pub(crate) fn ambiguous(alloc: Global, column: &Name) -> Result<Reply, AllocError>
    ensures reply { IfOk result (λ reply. reply ≡ ambiguous_reply column.now) }
    ensures bytes { IfOk result HasBytes }
{
    let name = shown(column.as_str());
    Ok(Reply::Err {
        number: 1052,
        state: *b"23000",
        message: Text::from_string(format!(in alloc; "Column '{name}' is ambiguous")?),
    })
}

/// A name that means no column.
pub(crate) fn unknown_column(alloc: Global, column: &Name) -> Result<Reply, AllocError>
    ensures reply { IfOk result (λ reply. reply ≡ unknown_column_reply column.now) }
    ensures bytes { IfOk result HasBytes }
{
    let name = shown(column.as_str());
    Ok(Reply::Err {
        number: 1054,
        state: *b"42S22",
        message: Text::from_string(format!(in alloc; "Unknown column '{name}'")?),
    })
}

/// A key that is there already.
pub(crate) fn duplicate(alloc: Global, key: i64) -> Result<Reply, AllocError>
    ensures reply { IfOk result (λ reply. reply ≡ duplicate_reply key) }
    ensures bytes { IfOk result HasBytes }
{
    Ok(Reply::Err {
        number: 1062,
        state: *b"23000",
        message: Text::from_string(format!(in alloc; "Duplicate entry '{key}' for key 'PRIMARY'")?),
    })
}

/// A text that is no statement.
pub(crate) fn syntax_error(alloc: Global, place: u64) -> Result<Reply, AllocError>
    ensures reply { IfOk result (λ reply. reply ≡ syntax_reply place) }
    ensures bytes { IfOk result HasBytes }
{
    Ok(Reply::Err {
        number: 1064,
        state: *b"42000",
        message: Text::from_string(format!(in alloc; "Syntax error at byte {place}")?),
    })
}

/// A row with another number of values than columns.
pub(crate) fn wrong_count(alloc: Global, row: u64) -> Result<Reply, AllocError>
    ensures reply { IfOk result (λ reply. reply ≡ count_reply row) }
    ensures bytes { IfOk result HasBytes }
{
    Ok(Reply::Err {
        number: 1136,
        state: *b"21S01",
        message: Text::from_string(format!(in alloc;
            "Column count doesn't match value count at row {row}"
        )?),
    })
}

/// The configuration has no table of this name.
pub fn no_table(alloc: Global, table: &Name) -> Result<Reply, AllocError>
    ensures reply { IfOk result (λ reply. reply ≡ no_table_reply table.now) }
    ensures bytes { IfOk result HasBytes }
{
    let name = shown(table.as_str());
    Ok(Reply::Err {
        number: 1146,
        state: *b"42S02",
        message: Text::from_string(format!(in alloc; "Table '{name}' doesn't exist")?),
    })
}

/// A number outside the range of a BIGINT.
pub(crate) fn out_of_range(alloc: Global, column: &Name, row: u64) -> Result<Reply, AllocError>
    ensures reply { IfOk result (λ reply. reply ≡ range_reply column.now row) }
    ensures bytes { IfOk result HasBytes }
{
    let name = shown(column.as_str());
    Ok(Reply::Err {
        number: 1264,
        state: *b"22003",
        message: Text::from_string(format!(in alloc;
            "Out of range value for column '{name}' at row {row}"
        )?),
    })
}

/// A text that is longer than its column allows.
pub(crate) fn too_long(alloc: Global, column: &Name, row: u64) -> Result<Reply, AllocError>
    ensures reply { IfOk result (λ reply. reply ≡ too_long_reply column.now row) }
    ensures bytes { IfOk result HasBytes }
{
    let name = shown(column.as_str());
    Ok(Reply::Err {
        number: 1406,
        state: *b"22001",
        message: Text::from_string(format!(in alloc;
            "Data too long for column '{name}' at row {row}"
        )?),
    })
}

/// A key that no partition takes.
pub(crate) fn no_partition(alloc: Global, key: i64) -> Result<Reply, AllocError>
    ensures reply { IfOk result (λ reply. reply ≡ no_partition_reply key) }
    ensures bytes { IfOk result HasBytes }
{
    Ok(Reply::Err {
        number: 1526,
        state: *b"HY000",
        message: Text::from_string(format!(in alloc; "Table has no partition for value {key}")?),
    })
}

/// A literal or a partial result of an expression that is no BIGINT.
pub(crate) fn arithmetic(alloc: Global) -> Result<Reply, AllocError>
    ensures reply { IfOk result (λ reply. reply ≡ arithmetic_reply) }
    ensures bytes { IfOk result HasBytes }
{
    Ok(Reply::Err {
        number: 1690,
        state: *b"22003",
        message: Text::from_str(alloc, "BIGINT value is out of range")?,
    })
}

/// A backend refused a request.
pub(crate) fn backend_refused(alloc: Global, server: &str, number: u16) -> Result<Reply, AllocError>
    ensures reply { IfOk result (λ reply. reply ≡ refused_reply server.now number) }
    ensures bytes { IfOk result HasBytes }
{
    let name = shown(server);
    Ok(Reply::Err {
        number: 14006,
        state: *b"HY000",
        message: Text::from_string(format!(in alloc; "Backend {name} refused: {number}")?),
    })
}

/// The key column is set.
pub(crate) fn key_changed(alloc: Global) -> Result<Reply, AllocError>
    ensures reply { IfOk result (λ reply. reply ≡ key_changed_reply) }
    ensures bytes { IfOk result HasBytes }
{
    Ok(Reply::Err {
        number: 14009,
        state: *b"HY000",
        message: Text::from_str(alloc, "The key column can't be changed")?,
    })
}

/// A limit is passed.
pub(crate) fn limit(alloc: Global, name: &str) -> Result<Reply, AllocError>
    requires { length name.now ≤ 64 }
    ensures reply { IfOk result (λ reply. reply ≡ limit_reply name.now) }
    ensures bytes { IfOk result HasBytes }
{
    Ok(Reply::Err {
        number: 14010,
        state: *b"HY000",
        message: Text::from_string(format!(in alloc; "Limit: {name}")?),
    })
}

/// No transaction can be numbered or decided any more.
pub fn log_full(alloc: Global) -> Result<Reply, AllocError>
    ensures reply { IfOk result (λ reply. reply ≡ log_full_reply) }
    ensures bytes { IfOk result HasBytes }
{
    Ok(Reply::Err {
        number: 14013,
        state: *b"HY000",
        message: Text::from_str(alloc, "Log full")?,
    })
}

/// Values of kinds that don't go together.
pub(crate) fn mismatch(alloc: Global) -> Result<Reply, AllocError>
    ensures reply { IfOk result (λ reply. reply ≡ mismatch_reply) }
    ensures bytes { IfOk result HasBytes }
{
    Ok(Reply::Err {
        number: 14020,
        state: *b"HY000",
        message: Text::from_str(alloc, "Type mismatch")?,
    })
}
