//! What a request has to fit: rows, key names and conditions.

ghost use Rattle.std.specs.Prelude.{◌≡◌, ◌&&◌, ◌==◌, IfOk, Some, None, Ok, ◌∷◌, [], length, nat_eq};
ghost use Rattle.std.specs.List.{find, list_all, zip};
ghost use Rattle.std.specs.Option.{option_map};
ghost use Rattle.std.specs.Result.{is_ok};
ghost use Rattle.std.specs.Str.{chars};
ghost use Rattle.std.specs.Cmp.Lexicographic.{pointwise};
ghost use Rattle.sql_values.specs.Checks.{checked_cond};
ghost use Rattle.sql_values.specs.Columns.{column_kind, may_mean, may_qualify};
ghost use Rattle.sql_values.specs.Kinds.{are_comparable, is_alike};
ghost use Rattle.sql_values.specs.Storing.{is_within as fits_within, stored};
ghost use Rattle.stmt_plan.specs.Inserts.{key_name};
ghost use Rattle.plain_tables.specs.Rows.{can_hold, fits_columns as row_of};
ghost use Rattle.branch_store.specs.Faults.{key_fault as name_fault, cond_fault as fault_of_cond, items_fault as fault_of_items, column_fault as fault_of_column, call_fault as fault_of_call, calls_fault as fault_of_calls, fault_of_check, scan_fault as fault_of_scan};

use crate::BranchFault;
use crate::remote_table::RemoteTable;
use sql_text::{AggregateCall, Scan, ScanItems};
use sql_values::{
    CheckFault, ColumnDef, ColumnName, Cond, Kind, Literal, Name, Row, Rows, TableDef, Value,
    check_cond,
};
use std::alloc::{AllocError, Global};

/// The most bytes of a text in a column.
const LONGEST_TEXT: usize = 1024;

fn character_count(text: &str) -> usize
    ensures { result ≡ length (chars text.now) }
{
    text.chars().count()
}

fn is_within(most: u32, text: &str) -> bool
    ensures { result ≡ fits_within most text.now }
{
    text.len() <= LONGEST_TEXT && character_count(text) <= most as usize
}

fn fits_number(number: &i64, kind: Kind) -> bool
    ensures { result ≡ is_ok (stored (Literal.Number number.now) kind) }
{
    // It is read, so that its range is known.
    let _number = *number;
    match kind {
        Kind::BigInt => true,
        Kind::VarChar(_) => false,
    }
}

fn fits_text(text: &str, kind: Kind) -> bool
    ensures { result ≡ is_ok (stored (Literal.Text text.now) kind) }
{
    match kind {
        Kind::BigInt => false,
        Kind::VarChar(most) => is_within(most, text),
    }
}

fn fits(value: &Value, column: &ColumnDef) -> bool
    ensures { result ≡ can_hold (column.now, value.now) }
{
    match value {
        Value::Number(number) => fits_number(number, column.kind),
        Value::Text(text) => fits_text(text.as_str(), column.kind),
    }
}

fn all_fit(columns: &[ColumnDef], values: &[Value]) -> bool
    ensures { result ≡ list_all can_hold (zip columns.now values.now) }
{
    let mut left = values;
    for column in columns {
        let Some((value, others)) = left.split_first() else {
            return true;
        };
        if !fits(value, column) {
            return false;
        }
        left = others;
    }
    true
}

fn is_row(def: &TableDef, row: &Row) -> bool
    ensures { result ≡ row_of def.now row.now }
{
    row.len() == def.columns.len() && all_fit(def.columns.as_slice(), row.as_slice())
}

/// Whether all these are rows of the table.
pub(crate) fn are_rows(def: &TableDef, rows: &Rows) -> bool
    ensures { result ≡ list_all (row_of def.now) rows.now }
{
    for row in rows.as_slice() {
        if !is_row(def, row) {
            return false;
        }
    }
    true
}

fn is_key_name(def: &TableDef, name: &Name) -> bool
    ensures { result ≡ pointwise nat_eq (key_name def.now) name.now }
{
    match def.columns.as_slice().get(def.key as usize) {
        Some(column) => column.name == *name,
        None => name.as_str().is_empty(),
    }
}

/// Why a name isn't that of the key column.
pub(crate) fn key_fault(
    alloc: Global,
    def: &TableDef,
    name: &Name,
) -> Result<Option<BranchFault>, AllocError>
    ensures { IfOk result (λ fault. fault ≡ name_fault def.now (Some name.now)) }
{
    if is_key_name(def, name) {
        Ok(None)
    } else {
        Ok(Some(BranchFault::NoColumn(name.copy(alloc)?)))
    }
}

fn order_fault(
    alloc: Global,
    def: &TableDef,
    order: &Option<Name>,
) -> Result<Option<BranchFault>, AllocError>
    ensures { IfOk result (λ fault. fault ≡ name_fault def.now order.now) }
{
    match order {
        Some(name) => key_fault(alloc, def, name),
        None => Ok(None),
    }
}

fn cond_fault(
    alloc: Global,
    table: &RemoteTable,
    cond: &Option<Cond>,
) -> Result<Option<BranchFault>, AllocError>
    ensures { IfOk result (λ fault. fault ≡ fault_of_cond table.now.def cond.now) }
{
    match cond {
        Some(cond) => misfit(alloc, table, cond),
        None => Ok(None),
    }
}

fn misfit(
    alloc: Global,
    table: &RemoteTable,
    cond: &Cond,
) -> Result<Option<BranchFault>, AllocError>
    ensures { IfOk result (λ fault. fault ≡ fault_of_check (checked_cond cond.now (table.now.def ∷ []))) }
{
    match check_cond(alloc, cond, table.alone()) {
        Ok(()) => Ok(None),
        Err(CheckFault::NoColumn(name)) => Ok(Some(BranchFault::NoColumn(name))),
        Err(CheckFault::Ambiguous(_name)) => Ok(Some(BranchFault::TypeMismatch)),
        Err(CheckFault::TypeMismatch) => Ok(Some(BranchFault::TypeMismatch)),
        Err(CheckFault::NoMemory) => Err(AllocError),
    }
}

/// Whether a name's qualifier, where it has one, is the table's name.
fn is_qualified_by(table: &Option<Name>, known: &Name) -> bool
    ensures { result ≡ may_qualify table.now known.now }
{
    match table {
        Some(table) => table == known,
        None => true,
    }
}

/// The column of the table that the name means.
fn column_meant<'a>(def: &'a TableDef, name: &ColumnName) -> Option<&'a ColumnDef>
    ensures { option_map (λ c. c.now) result ≡ find (λ c. may_mean name.now (def.now.name, c)) def.now.columns }
{
    let fits = is_qualified_by(&name.table, &def.name);
    def.columns
        .as_slice()
        .iter()
        .find(|column| fits && column.name == name.column)
}

/// Why a name isn't that of a column.
fn column_fault(
    alloc: Global,
    def: &TableDef,
    name: &ColumnName,
) -> Result<Option<BranchFault>, AllocError>
    ensures { IfOk result (λ fault. fault ≡ fault_of_column def.now name.now) }
{
    match column_meant(def, name) {
        Some(_) => Ok(None),
        None => Ok(Some(BranchFault::NoColumn(name.column.copy(alloc)?))),
    }
}

fn is_number(kind: Kind) -> bool
    ensures { result ≡ is_alike kind Kind.BigInt }
{
    match kind {
        Kind::BigInt => true,
        Kind::VarChar(_) => false,
    }
}

/// Whether the name is that of a column of numbers.
fn is_of_numbers(def: &TableDef, name: &ColumnName) -> bool
    ensures { result ≡ are_comparable (column_kind (def.now ∷ []) name.now) (Some Kind.BigInt) }
{
    match column_meant(def, name) {
        Some(column) => is_number(column.kind),
        None => false,
    }
}

/// Why a sum isn't answered: its column has to be there, with numbers.
fn sum_fault(
    alloc: Global,
    def: &TableDef,
    name: &ColumnName,
) -> Result<Option<BranchFault>, AllocError>
    ensures { IfOk result (λ fault. fault ≡ fault_of_call def.now (AggregateCall.Sum name.now)) }
{
    if let Some(fault) = column_fault(alloc, def, name)? {
        return Ok(Some(fault));
    }
    if is_of_numbers(def, name) {
        Ok(None)
    } else {
        Ok(Some(BranchFault::TypeMismatch))
    }
}

/// Why an aggregate isn't answered.
fn call_fault(
    alloc: Global,
    def: &TableDef,
    call: &AggregateCall,
) -> Result<Option<BranchFault>, AllocError>
    ensures { IfOk result (λ fault. fault ≡ fault_of_call def.now call.now) }
{
    match call {
        AggregateCall::Count => Ok(None),
        AggregateCall::Sum(name) => sum_fault(alloc, def, name),
        AggregateCall::Min(name) | AggregateCall::Max(name) => column_fault(alloc, def, name),
    }
}

/// The first of these that isn't answered.
fn calls_fault(
    alloc: Global,
    def: &TableDef,
    calls: &[AggregateCall],
) -> Result<Option<BranchFault>, AllocError>
    ensures { IfOk result (λ fault. fault ≡ fault_of_calls def.now calls.now) }
{
    for call in calls {
        if let Some(fault) = call_fault(alloc, def, call)? {
            return Ok(Some(fault));
        }
    }
    Ok(None)
}

fn items_fault(
    alloc: Global,
    def: &TableDef,
    items: &ScanItems,
) -> Result<Option<BranchFault>, AllocError>
    ensures { IfOk result (λ fault. fault ≡ fault_of_items def.now items.now) }
{
    match items {
        ScanItems::All => Ok(None),
        ScanItems::Aggregates(calls) => calls_fault(alloc, def, calls.as_slice()),
    }
}

/// Why a scan isn't answered: what it asks for comes first, then the name of its order.
pub(crate) fn scan_fault(
    alloc: Global,
    table: &RemoteTable,
    scan: &Scan,
) -> Result<Option<BranchFault>, AllocError>
    ensures { IfOk result (λ fault. fault ≡ fault_of_scan table.now.def scan.now) }
{
    if let Some(fault) = items_fault(alloc, table.def(), &scan.items)? {
        return Ok(Some(fault));
    }
    match order_fault(alloc, table.def(), &scan.order)? {
        Some(fault) => Ok(Some(fault)),
        None => cond_fault(alloc, table, &scan.cond),
    }
}
