//! What an UPDATE sets, or why it is refused.

ghost use Rattle.std.specs.Prelude.{◌≡◌, ◌⊎◌, ◌<◌, true, false, [], ◌∷◌, length, slice_get, None, Some, IfOk, IfErr, IfSome, OnOk};
ghost use Rattle.std.specs.List.{position};
ghost use Rattle.std.specs.Option.{option_map};
ghost use Rattle.sql_values.specs.declared.table.ColumnDef.{ColumnDef};
ghost use Rattle.sql_values.specs.Checks.{is_unknown, expr_columns, expr_kind};
ghost use Rattle.sql_values.specs.Kinds.{are_comparable};
ghost use Rattle.stmt_plan.specs.Chosen.{unknown_fault, update_fault};
ghost use Rattle.stmt_plan.specs.Inserts.{is_named};
ghost use Rattle.stmt_plan.specs.Plans.{IsTable};
ghost use Rattle.stmt_plan.specs.Selects.{unqualified as bare};
ghost use Rattle.stmt_plan.specs.Settings.{name_set, assigned_columns, setting as setting_of, settings as settings_of, sets_key, told_before_rows, literal_fault, set_fault, sets_fault, fits_column, sets_fit};

use crate::choosing::{bare_where, where_fits};
use crate::fault::is_mismatch;
use crate::inserting::why_not;
use crate::{SetColumn, SetColumns, StmtFault};
use list_types::Listed;
use sql_text::{Assignment, Update};
use sql_values::{ColumnDef, Cond, Expr, Kind, Literal, Name, StoreFault, TableDef, check_expr};
use std::alloc::{AllocError, Global};

/// The place of the column of this name.
fn place(columns: &[ColumnDef], name: &Name) -> Option<usize>
    ensures place { result ≡ position (is_named name.now) columns.now }
    ensures within { IfSome result (λ place. place < length columns.now) }
{
    columns.iter().position(|column| column.name == *name)
}

/// The place of an assignment's column, and its expression.
fn setting(alloc: Global, table: &TableDef, assignment: &Assignment) -> Result<SetColumn, StmtFault>
    requires { IsTable table.now }
    ensures set { IfOk result (λ set. set ≡ setting_of table.now assignment.now) }
    ensures known { OnOk result (is_unknown (table.now ∷ []) (name_set assignment.now) ≡ false) }
    ensures err { IfErr result (λ fault. (fault ≡ StmtFault.NoMemory) ⊎ ((fault ≡ StmtFault.NoColumn assignment.now.column) × (is_unknown (table.now ∷ []) (name_set assignment.now) ≡ true))) }
{
    match place(table.columns.as_slice(), &assignment.column) {
        Some(place) => Ok(SetColumn {
            column: place as u32,
            value: assignment.value.copy(alloc)?,
        }),
        None => Err(StmtFault::NoColumn(assignment.column.copy(alloc)?)),
    }
}

/// The kind of an expression, where it has one.
fn kind_of(alloc: Global, table: &TableDef, value: &Expr) -> Result<Option<Kind>, StmtFault>
    requires { IsTable table.now }
    ensures kind { IfOk result (λ kind. kind ≡ expr_kind (table.now ∷ []) value.now) }
    ensures known { OnOk result (unknown_fault table.now (expr_columns value.now) ≡ None) }
    ensures err { IfErr result (λ fault. (fault ≡ StmtFault.NoMemory) ⊎ (unknown_fault table.now (expr_columns value.now) ≡ Some fault)) }
{
    match check_expr(alloc, value, table) {
        Ok(kind) => Ok(Some(kind)),
        Err(fault) => {
            if is_mismatch(&fault) {
                Ok(None)
            } else {
                Err(StmtFault::from(fault))
            }
        }
    }
}

/// Whether the column at this place holds what has this kind.
fn holds_kind(table: &TableDef, place: u32, kind: Option<Kind>) -> bool
    ensures { result ≡ are_comparable kind (option_map (λ (column : ColumnDef). column.kind) (slice_get table.now.columns place)) }
{
    let Some(kind) = kind else {
        return false;
    };
    match table.columns.as_slice().get(place as usize) {
        Some(column) => kind.is_alike(column.kind),
        None => false,
    }
}

/// What an assignment sets, and whether its expression has the column's type.
#[tactic(auto, using(crate::proofs::Seeks::seeks))]
fn assigned(
    alloc: Global,
    table: &TableDef,
    assignment: &Assignment,
) -> Result<(SetColumn, bool), StmtFault>
    requires { IsTable table.now }
    ensures set { IfOk result (λ found. found.0 ≡ setting_of table.now assignment.now) }
    ensures fits { IfOk result (λ found. found.1 ≡ fits_column table.now (setting_of table.now assignment.now)) }
    ensures known { OnOk result (unknown_fault table.now (name_set assignment.now ∷ expr_columns assignment.now.value) ≡ None) }
    ensures err { IfErr result (λ fault. (fault ≡ StmtFault.NoMemory) ⊎ (unknown_fault table.now (name_set assignment.now ∷ expr_columns assignment.now.value) ≡ Some fault)) }
{
    let set = setting(alloc, table, assignment)?;
    let kind = kind_of(alloc, table, &assignment.value)?;
    let fits = holds_kind(table, set.column, kind);
    Ok((set, fits))
}

/// What the assignments set, and whether each expression has its column's type.
#[tactic(auto, using(crate::proofs::Seeks::seeks))]
fn settings(
    alloc: Global,
    table: &TableDef,
    assignments: &[Assignment],
) -> Result<(SetColumns, bool), StmtFault>
    requires { IsTable table.now }
    ensures sets { IfOk result (λ found. found.0 ≡ settings_of table.now assignments.now) }
    ensures fit { IfOk result (λ found. found.1 ≡ sets_fit table.now (settings_of table.now assignments.now)) }
    ensures known { OnOk result (unknown_fault table.now (assigned_columns assignments.now) ≡ None) }
    ensures err { IfErr result (λ fault. (fault ≡ StmtFault.NoMemory) ⊎ (unknown_fault table.now (assigned_columns assignments.now) ≡ Some fault)) }
{
    let mut sets = Listed::new(alloc);
    let mut fit = true;
    for assignment in assignments {
        match assigned(alloc, table, assignment) {
            Ok((set, fits)) => {
                sets.push(set)?;
                fit &= fits;
            }
            Err(fault) => return Err(fault),
        }
    }
    Ok((sets, fit))
}

/// Whether the key column is set.
fn is_key_set(table: &TableDef, sets: &[SetColumn]) -> bool
    ensures { result ≡ sets_key table.now sets.now }
{
    sets.iter().any(|set| set.column == table.key)
}

/// Refuses NULL and another type; range and length are told of a row.
fn check_cause(alloc: Global, column: &ColumnDef, why: &StoreFault) -> Result<(), StmtFault>
    ensures ok { OnOk result (told_before_rows column.now.name why.now ≡ None) }
    ensures err { IfErr result (λ fault. (fault ≡ StmtFault.NoMemory) ⊎ (told_before_rows column.now.name why.now ≡ Some fault)) }
{
    match why {
        StoreFault::IsNull => Err(StmtFault::IsNull(column.name.copy(alloc)?)),
        StoreFault::TypeMismatch => Err(StmtFault::TypeMismatch),
        StoreFault::OutOfRange => Ok(()),
        StoreFault::TooLong => Ok(()),
        StoreFault::NoMemory => Ok(()),
    }
}

/// Refuses a literal that is NULL or of another type than its column.
fn check_literal(alloc: Global, column: &ColumnDef, literal: &Literal) -> Result<(), StmtFault>
    ensures ok { OnOk result (literal_fault column.now literal.now ≡ None) }
    ensures err { IfErr result (λ fault. (fault ≡ StmtFault.NoMemory) ⊎ (literal_fault column.now literal.now ≡ Some fault)) }
{
    match why_not(literal, column.kind) {
        Some(why) => check_cause(alloc, column, &why),
        None => Ok(()),
    }
}

/// Refuses a literal that stands alone and is NULL or of another type than its column.
fn check_set(alloc: Global, table: &TableDef, set: &SetColumn) -> Result<(), StmtFault>
    ensures ok { OnOk result (set_fault table.now set.now ≡ None) }
    ensures err { IfErr result (λ fault. (fault ≡ StmtFault.NoMemory) ⊎ (set_fault table.now set.now ≡ Some fault)) }
{
    let Some(column) = table.columns.as_slice().get(set.column as usize) else {
        return Ok(());
    };
    match set.lone_literal() {
        Some(literal) => check_literal(alloc, column, literal),
        None => Ok(()),
    }
}

/// Refuses the first of these literals.
fn check_sets(alloc: Global, table: &TableDef, sets: &[SetColumn]) -> Result<(), StmtFault>
    ensures ok { OnOk result (sets_fault table.now sets.now ≡ None) }
    ensures err { IfErr result (λ fault. (fault ≡ StmtFault.NoMemory) ⊎ (sets_fault table.now sets.now ≡ Some fault)) }
{
    for set in sets {
        match check_set(alloc, table, set) {
            Ok(()) => {}
            Err(fault) => return Err(fault),
        }
    }
    Ok(())
}

/// What an UPDATE sets, of which rows, or why it is refused.
pub(crate) fn set(
    alloc: Global,
    table: &TableDef,
    update: &Update,
) -> Result<(Option<Cond>, SetColumns), StmtFault>
    requires { IsTable table.now }
    ensures cond { IfOk result (λ found. found.0 ≡ option_map bare update.now.cond) }
    ensures sets { IfOk result (λ found. found.1 ≡ settings_of table.now update.now.sets) }
    ensures ok { OnOk result (update_fault table.now update.now ≡ None) }
    ensures err { IfErr result (λ fault. (fault ≡ StmtFault.NoMemory) ⊎ (update_fault table.now update.now ≡ Some fault)) }
{
    let (sets, fit) = settings(alloc, table, update.sets.as_slice())?;
    let compare = where_fits(alloc, table, &table.name, &update.cond)?;
    if is_key_set(table, sets.as_slice()) {
        return Err(StmtFault::KeyChanged);
    }
    check_sets(alloc, table, sets.as_slice())?;
    if !(fit && compare) {
        return Err(StmtFault::TypeMismatch);
    }
    let cond = bare_where(alloc, &update.cond)?;
    Ok((cond, sets))
}
