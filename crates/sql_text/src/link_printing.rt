//! The canonical text of a request.
ghost use Rattle.std.specs.Prelude.{◌≡◌, ◌++◌, [], ◌∷◌, OnOk, IfOk, map, drop, codes};
ghost use Rattle.std.specs.List.{flat_map};
ghost use Rattle.std.specs.Fmt.{signed_decimal};
ghost use Rattle.sql_text.specs.declared.link.LinkRequest.TheVariants as requests;
ghost use Rattle.sql_text.specs.Printing.{joined_text, name_text, call_text, lock_text};
ghost use Rattle.sql_text.specs.LinkPrinting.{xid_text, value_text, row_text, scan_items_text, order_text, limit_text, link_printed};

use crate::link::{AggregateCall, LinkRequest, Scan, ScanItems};
use crate::printing::aggregates::push_call;
use crate::printing::orders::push_counted;
use crate::printing::{push_lock, push_name, push_quoted, push_where};
use list_types::{Bytes, Listed};
use sql_values::{Name, Row, Value, Xid};
use std::alloc::{AllocError, Global};

/// Adds the name of a branch, with the format 1.
fn push_xid(out: &mut Vec<u8>, xid: &Xid) -> Result<(), AllocError>
    ensures { OnOk result (out.new.items ≡ out.old.items ++ xid_text xid.now) }
{
    push_quoted(out, xid.gtrid.as_str().as_bytes())?;
    out.extend_from_slice(b",")?;
    push_quoted(out, xid.bqual.as_str().as_bytes())?;
    out.extend_from_slice(b",1")
}

/// Adds a number.
fn push_number(alloc: Global, out: &mut Vec<u8>, number: &i64) -> Result<(), AllocError>
    ensures { OnOk result (out.new.items ≡ out.old.items ++ signed_decimal number.now) }
{
    let digits = i128::from(*number).to_string(alloc)?;
    out.extend_from_slice(digits.as_str().as_bytes())
}

/// Adds a value.
fn push_value(alloc: Global, out: &mut Vec<u8>, value: &Value) -> Result<(), AllocError>
    ensures { OnOk result (out.new.items ≡ out.old.items ++ value_text value.now) }
{
    match value {
        Value::Number(number) => push_number(alloc, out, number),
        Value::Text(text) => push_quoted(out, text.as_str().as_bytes()),
    }
}

/// Adds further values, each behind a comma.
fn push_further_values(alloc: Global, out: &mut Vec<u8>, values: &[Value]) -> Result<(), AllocError>
    ensures { OnOk result (out.new.items ≡ out.old.items ++ flat_map (λ y. codes "," ++ y) (map value_text values.now)) }
{
    for value in values {
        out.extend_from_slice(b",")?;
        push_value(alloc, out, value)?;
    }
    Ok(())
}

/// Adds values with commas between them.
fn push_values(alloc: Global, out: &mut Vec<u8>, values: &[Value]) -> Result<(), AllocError>
    ensures { OnOk result (out.new.items ≡ out.old.items ++ joined_text (codes ",") (map value_text values.now)) }
{
    let [first, others @ ..] = values else {
        return Ok(());
    };
    push_value(alloc, out, first)?;
    push_further_values(alloc, out, others)
}

/// Adds a row.
fn push_row(alloc: Global, out: &mut Vec<u8>, row: &Row) -> Result<(), AllocError>
    ensures { OnOk result (out.new.items ≡ out.old.items ++ row_text row.now) }
{
    out.extend_from_slice(b"(")?;
    push_values(alloc, out, row.as_slice())?;
    out.extend_from_slice(b")")
}

/// Adds further rows, each behind a comma.
fn push_further_rows(alloc: Global, out: &mut Vec<u8>, rows: &[Row]) -> Result<(), AllocError>
    ensures { OnOk result (out.new.items ≡ out.old.items ++ flat_map (λ y. codes "," ++ y) (map row_text rows.now)) }
{
    for row in rows {
        out.extend_from_slice(b",")?;
        push_row(alloc, out, row)?;
    }
    Ok(())
}

/// Adds rows with commas between them.
fn push_rows(alloc: Global, out: &mut Vec<u8>, rows: &[Row]) -> Result<(), AllocError>
    ensures { OnOk result (out.new.items ≡ out.old.items ++ joined_text (codes ",") (map row_text rows.now)) }
{
    let [first, others @ ..] = rows else {
        return Ok(());
    };
    push_row(alloc, out, first)?;
    push_further_rows(alloc, out, others)
}

/// Adds further keys, each behind a comma.
fn push_further_keys(alloc: Global, out: &mut Vec<u8>, keys: &[i64]) -> Result<(), AllocError>
    ensures { OnOk result (out.new.items ≡ out.old.items ++ flat_map (λ y. codes "," ++ y) (map signed_decimal keys.now)) }
{
    for key in keys {
        out.extend_from_slice(b",")?;
        push_number(alloc, out, key)?;
    }
    Ok(())
}

/// Adds keys with commas between them.
fn push_keys(alloc: Global, out: &mut Vec<u8>, keys: &[i64]) -> Result<(), AllocError>
    ensures { OnOk result (out.new.items ≡ out.old.items ++ joined_text (codes ",") (map signed_decimal keys.now)) }
{
    let [first, others @ ..] = keys else {
        return Ok(());
    };
    push_number(alloc, out, first)?;
    push_further_keys(alloc, out, others)
}

/// Adds further calls, each behind a comma and a blank.
fn push_further_calls(out: &mut Vec<u8>, calls: &[AggregateCall]) -> Result<(), AllocError>
    ensures { OnOk result (out.new.items ≡ out.old.items ++ flat_map (λ y. codes ", " ++ y) (map call_text calls.now)) }
{
    for call in calls {
        out.extend_from_slice(b", ")?;
        push_call(out, call)?;
    }
    Ok(())
}

/// Adds calls with commas between them.
fn push_calls(out: &mut Vec<u8>, calls: &[AggregateCall]) -> Result<(), AllocError>
    ensures { OnOk result (out.new.items ≡ out.old.items ++ joined_text (codes ", ") (map call_text calls.now)) }
{
    let [first, others @ ..] = calls else {
        return Ok(());
    };
    push_call(out, first)?;
    push_further_calls(out, others)
}

/// Adds the items of a scan.
fn push_scan_items(out: &mut Vec<u8>, items: &ScanItems) -> Result<(), AllocError>
    ensures { OnOk result (out.new.items ≡ out.old.items ++ scan_items_text items.now) }
{
    match items {
        ScanItems::All => out.extend_from_slice(b"*"),
        ScanItems::Aggregates(calls) => push_calls(out, calls.as_slice()),
    }
}

/// Adds ORDER BY and a name, or nothing.
fn push_order(out: &mut Vec<u8>, order: &Option<Name>) -> Result<(), AllocError>
    ensures { OnOk result (out.new.items ≡ out.old.items ++ order_text order.now) }
{
    let Some(key) = order else {
        return Ok(());
    };
    out.extend_from_slice(b" ORDER BY ")?;
    push_name(out, key)
}

/// Adds LIMIT and a count, or nothing.
fn push_limit(alloc: Global, out: &mut Vec<u8>, limit: Option<u64>) -> Result<(), AllocError>
    ensures { OnOk result (out.new.items ≡ out.old.items ++ limit_text limit) }
{
    let Some(count) = limit else {
        return Ok(());
    };
    push_counted(alloc, out, b" LIMIT ", count)
}

/// Adds words and a name behind them.
fn push_named(out: &mut Vec<u8>, words: &[u8], name: &Name) -> Result<(), AllocError>
    ensures { OnOk result (out.new.items ≡ out.old.items ++ (words.now ++ name_text name.now)) }
{
    out.extend_from_slice(words)?;
    push_name(out, name)
}

/// Adds what stands behind the condition of a scan.
fn push_scan_end(alloc: Global, out: &mut Vec<u8>, scan: &Scan) -> Result<(), AllocError>
    ensures { OnOk result (out.new.items ≡ out.old.items ++ (order_text scan.now.order ++ (limit_text scan.now.limit ++ lock_text scan.now.lock))) }
{
    push_order(out, &scan.order)?;
    push_limit(alloc, out, scan.limit)?;
    push_lock(out, scan.lock)
}

/// Adds a scan.
#[tactic(auto, unfolding(crate::specs::LinkPrinting::link_printed))]
fn push_scan(alloc: Global, out: &mut Vec<u8>, scan: &Scan) -> Result<(), AllocError>
    ensures { OnOk result (out.new.items ≡ out.old.items ++ link_printed (requests.Scan scan.now)) }
{
    out.extend_from_slice(b"SELECT ")?;
    push_scan_items(out, &scan.items)?;
    push_named(out, b" FROM ", &scan.table)?;
    push_where(alloc, out, &scan.cond)?;
    push_scan_end(alloc, out, scan)
}

/// Adds DELETE, a table, and the name of its key.
fn push_delete(out: &mut Vec<u8>, table: &Name, key: &Name) -> Result<(), AllocError>
    ensures { OnOk result (out.new.items ≡ out.old.items ++ (codes "DELETE FROM " ++ (name_text table.now ++ (codes " WHERE " ++ name_text key.now)))) }
{
    push_named(out, b"DELETE FROM ", table)?;
    push_named(out, b" WHERE ", key)
}

/// Adds BETWEEN and two keys.
fn push_bounds(alloc: Global, out: &mut Vec<u8>, low: &i64, high: &i64) -> Result<(), AllocError>
    ensures { OnOk result (out.new.items ≡ out.old.items ++ (codes " BETWEEN " ++ (signed_decimal low.now ++ (codes " AND " ++ signed_decimal high.now)))) }
{
    out.extend_from_slice(b" BETWEEN ")?;
    push_number(alloc, out, low)?;
    out.extend_from_slice(b" AND ")?;
    push_number(alloc, out, high)
}

/// Adds IN and a list of keys.
fn push_key_list(alloc: Global, out: &mut Vec<u8>, keys: &[i64]) -> Result<(), AllocError>
    ensures { OnOk result (out.new.items ≡ out.old.items ++ (codes " IN (" ++ (joined_text (codes ",") (map signed_decimal keys.now) ++ codes ")"))) }
{
    out.extend_from_slice(b" IN (")?;
    push_keys(alloc, out, keys)?;
    out.extend_from_slice(b")")
}

/// Adds XA, what is asked of a branch, and its name.
fn push_branch(out: &mut Vec<u8>, words: &[u8], xid: &Xid) -> Result<(), AllocError>
    ensures { OnOk result (out.new.items ≡ out.old.items ++ (words.now ++ xid_text xid.now)) }
{
    out.extend_from_slice(words)?;
    push_xid(out, xid)
}

/// Adds VALUES and rows.
fn push_row_list(alloc: Global, out: &mut Vec<u8>, rows: &[Row]) -> Result<(), AllocError>
    ensures { OnOk result (out.new.items ≡ out.old.items ++ (codes " VALUES " ++ joined_text (codes ",") (map row_text rows.now))) }
{
    out.extend_from_slice(b" VALUES ")?;
    push_rows(alloc, out, rows)
}

/// Adds a put.
fn push_put(alloc: Global, out: &mut Vec<u8>, table: &Name, rows: &[Row]) -> Result<(), AllocError>
    ensures { OnOk result (out.new.items ≡ out.old.items ++ (codes "REPLACE INTO " ++ (name_text table.now ++ (codes " VALUES " ++ joined_text (codes ",") (map row_text rows.now))))) }
{
    push_named(out, b"REPLACE INTO ", table)?;
    push_row_list(alloc, out, rows)
}

/// Adds a request.
#[tactic(auto, unfolding(crate::specs::LinkPrinting::link_printed))]
fn push_request(alloc: Global, out: &mut Vec<u8>, request: &LinkRequest) -> Result<(), AllocError>
    ensures { OnOk result (out.new.items ≡ out.old.items ++ link_printed request.now) }
{
    match request {
        LinkRequest::Start(xid) => push_branch(out, b"XA START ", xid),
        LinkRequest::End(xid) => push_branch(out, b"XA END ", xid),
        LinkRequest::Prepare(xid) => push_branch(out, b"XA PREPARE ", xid),
        LinkRequest::Commit(xid) => push_branch(out, b"XA COMMIT ", xid),
        LinkRequest::Rollback(xid) => push_branch(out, b"XA ROLLBACK ", xid),
        LinkRequest::Recover => out.extend_from_slice(b"XA RECOVER"),
        LinkRequest::Scan(scan) => push_scan(alloc, out, scan),
        LinkRequest::Put { table, rows } => push_put(alloc, out, table, rows.as_slice()),
        LinkRequest::Del { table, key, keys } => {
            push_delete(out, table, key)?;
            push_key_list(alloc, out, keys.as_slice())
        }
        LinkRequest::Clear {
            table,
            key,
            low,
            high,
        } => {
            push_delete(out, table, key)?;
            push_bounds(alloc, out, low, high)
        }
    }
}

/// The canonical text of a request, as [`print`](crate::print) writes statements: keywords in capitals, names in backquotes, values and keys with `,`
/// between them, aggregates with `, `.
pub fn print_link(alloc: Global, request: &LinkRequest) -> Result<Bytes, AllocError>
    ensures { IfOk result (λ text. text ≡ link_printed request.now) }
{
    let mut out = Vec::new(alloc);
    push_request(alloc, &mut out, request)?;
    Ok(Listed::from_vec(out))
}
