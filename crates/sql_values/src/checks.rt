//! Whether a condition or an expression fits its tables.

ghost use Rattle.std.specs.Prelude.{◌≡◌, ◌↔◌, ◌⊎◌, ◌&&◌, ◌∷◌, [], map, ◌++◌, if◌then◌else◌, IfOk, IfErr, IsErrOf, IsSome, OnOk, OnErr, Ok, Err, Some, None};
ghost use Rattle.std.specs.List.{list_all, flat_map};
ghost use Rattle.std.specs.Option.{option_map};
ghost use Rattle.sql_values.specs.Checks.{is_unknown, is_ambiguous, first_column, named_fault as fault_named, cond_columns, expr_columns, columns_of_addend, operand_columns, column_fault as fault_among, operand_kind as kind_among, cond_fits as fits_among, expr_kind as kind_of, is_number as is_number_kind, kind_of_addend, checked_cond, checked_expr};
ghost use Rattle.sql_values.specs.Columns.{column_kind as column_kind_among};
ghost use Rattle.sql_values.specs.Kinds.{literal_kind as kind_of_literal, is_alike as are_alike_kinds, are_comparable as are_comparable_kinds};
ghost use Rattle.sql_values.specs.Seeking.{has_trouble};

use crate::columns::{column_kind, count_meant};
use crate::kinds::are_comparable;
use crate::{Addend, ColumnName, Cond, Expr, Kind, Literal, Name, Operand, TableDef, TableDefs};
use std::alloc::{AllocError, Global};
use std::slice;
use thiserror::Error;

/// Why a condition or an expression doesn't fit its tables.
#[derive(Debug, Drop, Error)]
pub enum CheckFault {
    /// No table has a column of this name.
    #[error("no column {0}")]
    NoColumn(Name),
    /// More than one column may be meant by this name.
    #[error("column {0} is ambiguous")]
    Ambiguous(Name),
    /// Values of different types meet, or NULL stands where it can't.
    #[error("types that do not go together")]
    TypeMismatch,
    /// There wasn't enough memory.
    #[error("out of memory")]
    NoMemory,
}

impl From<AllocError> for CheckFault {
    ghost use Rattle.std.specs.Prelude.{◌≡◌};
    ghost use Rattle.sql_values.specs.declared.checks.CheckFault.TheVariants.{NoMemory};

    ghost from_gives = { λ _ fault. fault ≡ NoMemory };

    fn from(_error: AllocError) -> CheckFault {
        CheckFault::NoMemory
    }
}

/// What may be wrong with a name of a column.
#[derive(Clone, Copy)]
enum Trouble {
    Unknown,
    Ambiguous,
}

fn is_in_trouble(trouble: Trouble, tables: &[TableDef], name: &ColumnName) -> bool
    ensures { result ≡ has_trouble trouble tables.now name.now }
{
    match trouble {
        Trouble::Unknown => count_meant(name, tables) == 0,
        Trouble::Ambiguous => count_meant(name, tables) > 1,
    }
}

#[tactic(auto, using(crate::proofs::Seeks::seeks), unfolding(crate::specs::Checks::first_column))]
fn seek_column<'a>(trouble: Trouble, tables: &[TableDef], name: &'a ColumnName) -> Option<&'a Name>
    ensures { option_map (λ n. n.now) result ≡ first_column (has_trouble trouble tables.now) (name.now ∷ []) }
{
    if is_in_trouble(trouble, tables, name) {
        Some(&name.column)
    } else {
        None
    }
}

#[tactic(auto, using(crate::proofs::Seeks::seeks), unfolding(crate::specs::Checks::first_column))]
fn seek_operand<'a>(trouble: Trouble, tables: &[TableDef], operand: &'a Operand) -> Option<&'a Name>
    ensures { option_map (λ n. n.now) result ≡ first_column (has_trouble trouble tables.now) (operand_columns operand.now) }
{
    match operand {
        Operand::Column(name) => seek_column(trouble, tables, name),
        Operand::Literal(_) => None,
    }
}

#[tactic(auto, using(crate::proofs::Seeks::seeks), unfolding(crate::specs::Checks::first_column))]
fn seek_sides<'a>(
    trouble: Trouble,
    tables: &[TableDef],
    left: &'a Operand,
    right: &'a Operand,
) -> Option<&'a Name>
    ensures { option_map (λ n. n.now) result ≡ first_column (has_trouble trouble tables.now) (operand_columns left.now ++ operand_columns right.now) }
{
    match seek_operand(trouble, tables, left) {
        Some(name) => Some(name),
        None => seek_operand(trouble, tables, right),
    }
}

/// The first column in this trouble, in the order of the condition's text.
#[cycle(seeking)]
#[tactic(auto, using(crate::proofs::Seeks::seeks))]
fn seek<'a>(trouble: Trouble, tables: &[TableDef], cond: &'a Cond) -> Option<&'a Name>
    ensures { option_map (λ n. n.now) result ≡ first_column (has_trouble trouble tables.now) (cond_columns cond.now) }
{
    match cond {
        Cond::All(parts) => seek_parts(trouble, tables, parts.as_slice()),
        Cond::Any(parts) => seek_parts(trouble, tables, parts.as_slice()),
        Cond::Not(part) => seek(trouble, tables, part.get()),
        Cond::Compare {
            left,
            comparison: _,
            right,
        } => seek_sides(trouble, tables, left, right),
        Cond::In {
            column,
            negated: _,
            list: _,
        } => seek_column(trouble, tables, column),
        Cond::Between {
            column,
            negated: _,
            low: _,
            high: _,
        } => seek_column(trouble, tables, column),
    }
}

#[cycle(seeking)]
#[tactic(auto, using(crate::proofs::Seeks::seeks))]
fn seek_parts<'a>(trouble: Trouble, tables: &[TableDef], parts: &'a [Cond]) -> Option<&'a Name>
    ensures { option_map (λ n. n.now) result ≡ first_column (has_trouble trouble tables.now) (flat_map (λ part. part) (map cond_columns parts.now)) }
{
    for part in parts {
        if let Some(name) = seek(trouble, tables, part) {
            return Some(name);
        }
    }
    None
}

#[cycle(seeking_in_expr)]
#[tactic(auto, using(crate::proofs::Seeks::seeks))]
fn seek_in_expr<'a>(trouble: Trouble, tables: &[TableDef], expr: &'a Expr) -> Option<&'a Name>
    ensures { option_map (λ n. n.now) result ≡ first_column (has_trouble trouble tables.now) (expr_columns expr.now) }
{
    match expr {
        Expr::Literal(_) => None,
        Expr::Column(name) => seek_column(trouble, tables, name),
        Expr::Negated(part) => seek_in_expr(trouble, tables, part.get()),
        Expr::Sum(parts) => seek_in_addends(trouble, tables, parts.as_slice()),
        Expr::Product(parts) => seek_in_factors(trouble, tables, parts.as_slice()),
    }
}

#[cycle(seeking_in_expr)]
fn seek_in_addend<'a>(trouble: Trouble, tables: &[TableDef], part: &'a Addend) -> Option<&'a Name>
    ensures { option_map (λ n. n.now) result ≡ first_column (has_trouble trouble tables.now) (columns_of_addend part.now) }
{
    seek_in_expr(trouble, tables, &part.expr)
}

#[cycle(seeking_in_expr)]
#[tactic(auto, using(crate::proofs::Seeks::seeks))]
fn seek_in_addends<'a>(
    trouble: Trouble,
    tables: &[TableDef],
    parts: &'a [Addend],
) -> Option<&'a Name>
    ensures { option_map (λ n. n.now) result ≡ first_column (has_trouble trouble tables.now) (flat_map (λ part. part) (map columns_of_addend parts.now)) }
{
    for part in parts {
        if let Some(name) = seek_in_addend(trouble, tables, part) {
            return Some(name);
        }
    }
    None
}

#[cycle(seeking_in_expr)]
#[tactic(auto, using(crate::proofs::Seeks::seeks))]
fn seek_in_factors<'a>(trouble: Trouble, tables: &[TableDef], parts: &'a [Expr]) -> Option<&'a Name>
    ensures { option_map (λ n. n.now) result ≡ first_column (has_trouble trouble tables.now) (flat_map (λ part. part) (map expr_columns parts.now)) }
{
    for part in parts {
        if let Some(name) = seek_in_expr(trouble, tables, part) {
            return Some(name);
        }
    }
    None
}

fn operand_kind(operand: &Operand, tables: &[TableDef]) -> Option<Kind>
    ensures { result ≡ kind_among tables.now operand.now }
{
    match operand {
        Operand::Column(name) => column_kind(name, tables),
        Operand::Literal(literal) => literal.kind(),
    }
}

fn fits_list(kind: Option<Kind>, list: &[Literal]) -> bool
    ensures { result ≡ list_all (λ l. are_comparable_kinds kind (kind_of_literal l)) list.now }
{
    for literal in list {
        if !are_comparable(kind, literal.kind()) {
            return false;
        }
    }
    true
}

/// Whether the values that meet in the condition can be compared.
#[cycle(fitting)]
fn fits(cond: &Cond, tables: &[TableDef]) -> bool
    ensures { result ≡ fits_among tables.now cond.now }
{
    match cond {
        Cond::All(parts) => fit(parts.as_slice(), tables),
        Cond::Any(parts) => fit(parts.as_slice(), tables),
        Cond::Not(part) => fits(part.get(), tables),
        Cond::Compare {
            left,
            comparison: _,
            right,
        } => are_comparable(operand_kind(left, tables), operand_kind(right, tables)),
        Cond::In {
            column,
            negated: _,
            list,
        } => fits_list(column_kind(column, tables), list.as_slice()),
        Cond::Between {
            column,
            negated: _,
            low,
            high,
        } => fits_between(column_kind(column, tables), low, high),
    }
}

fn fits_between(kind: Option<Kind>, low: &Literal, high: &Literal) -> bool
    ensures { result ≡ (are_comparable_kinds kind (kind_of_literal low.now) && are_comparable_kinds kind (kind_of_literal high.now)) }
{
    are_comparable(kind, low.kind()) && are_comparable(kind, high.kind())
}

#[cycle(fitting)]
fn fit(parts: &[Cond], tables: &[TableDef]) -> bool
    ensures { result ≡ list_all (λ part. part) (map (fits_among tables.now) parts.now) }
{
    for part in parts {
        if !fits(part, tables) {
            return false;
        }
    }
    true
}

fn is_number(kind: Option<Kind>) -> bool
    ensures { result ≡ is_number_kind kind }
{
    match kind {
        Some(Kind::BigInt) => true,
        Some(Kind::VarChar(_)) => false,
        None => false,
    }
}

fn number_if(are_numbers: bool) -> Option<Kind>
    ensures { result ≡ (if are_numbers then Some Kind.BigInt else None) }
{
    if are_numbers {
        Some(Kind::BigInt)
    } else {
        None
    }
}

/// The kind of an expression whose columns are there.
#[cycle(kinds)]
fn expr_kind(expr: &Expr, tables: &[TableDef]) -> Option<Kind>
    ensures { result ≡ kind_of tables.now expr.now }
{
    match expr {
        Expr::Literal(literal) => literal.kind(),
        Expr::Column(name) => column_kind(name, tables),
        Expr::Negated(part) => number_if(is_number(expr_kind(part.get(), tables))),
        Expr::Sum(parts) => number_if(are_addends(parts.as_slice(), tables)),
        Expr::Product(parts) => number_if(are_factors(parts.as_slice(), tables)),
    }
}

#[cycle(kinds)]
fn addend_kind(part: &Addend, tables: &[TableDef]) -> Option<Kind>
    ensures { result ≡ kind_of_addend tables.now part.now }
{
    expr_kind(&part.expr, tables)
}

#[cycle(kinds)]
fn are_addends(parts: &[Addend], tables: &[TableDef]) -> bool
    ensures { result ≡ list_all is_number_kind (map (kind_of_addend tables.now) parts.now) }
{
    for part in parts {
        if !is_number(addend_kind(part, tables)) {
            return false;
        }
    }
    true
}

#[cycle(kinds)]
fn are_factors(parts: &[Expr], tables: &[TableDef]) -> bool
    ensures { result ≡ list_all is_number_kind (map (kind_of tables.now) parts.now) }
{
    for part in parts {
        if !is_number(expr_kind(part, tables)) {
            return false;
        }
    }
    true
}

/// Names the column that is unknown, or else the one that is ambiguous.
fn name_fault(
    alloc: Global,
    unknown: Option<&Name>,
    ambiguous: Option<&Name>,
) -> Result<(), CheckFault>
    ensures ok { OnOk result (fault_named (option_map (λ n. n.now) unknown.entry) (option_map (λ n. n.now) ambiguous.entry) ≡ None) }
    ensures err { IfErr result (λ fault. (fault ≡ CheckFault.NoMemory) ⊎ (fault_named (option_map (λ n. n.now) unknown.entry) (option_map (λ n. n.now) ambiguous.entry) ≡ Some fault)) }
    ensures memory { OnErr result (IsSome (fault_named (option_map (λ n. n.now) unknown.entry) (option_map (λ n. n.now) ambiguous.entry))) }
{
    match (unknown, ambiguous) {
        (Some(name), _) => Err(CheckFault::NoColumn(name.copy(alloc)?)),
        (None, Some(name)) => Err(CheckFault::Ambiguous(name.copy(alloc)?)),
        (None, None) => Ok(()),
    }
}

/// Whether a condition fits these tables.
///
/// A column that no table has comes first, then one that several have without its table named, each as the first in the order of the text, and then types that don't
/// go together: the sides of a comparison are both numbers or both texts, and so are a column and each literal of its IN or BETWEEN; NULL is neither.
pub fn check_cond(alloc: Global, cond: &Cond, tables: &TableDefs) -> Result<(), CheckFault>
    ensures ok { IfOk result (λ fits. checked_cond cond.now tables.now ≡ Ok fits) }
    ensures err { IfErr result (λ fault. (fault ≡ CheckFault.NoMemory) ⊎ (checked_cond cond.now tables.now ≡ Err fault)) }
    ensures memory { IsErrOf result CheckFault.NoMemory → IsSome (fault_among tables.now (cond_columns cond.now)) }
{
    let tables = tables.as_slice();
    let unknown = seek(Trouble::Unknown, tables, cond);
    let ambiguous = seek(Trouble::Ambiguous, tables, cond);
    if let Err(fault) = name_fault(alloc, unknown, ambiguous) {
        return Err(fault);
    }
    if fits(cond, tables) {
        Ok(())
    } else {
        Err(CheckFault::TypeMismatch)
    }
}

/// The kind of an expression over a table.
///
/// Faults come in the order of [`check_cond`]. Only numbers are negated, added, subtracted and multiplied; NULL has no kind.
pub fn check_expr(alloc: Global, expr: &Expr, table: &TableDef) -> Result<Kind, CheckFault>
    ensures ok { IfOk result (λ kind. checked_expr expr.now table.now ≡ Ok kind) }
    ensures err { IfErr result (λ fault. (fault ≡ CheckFault.NoMemory) ⊎ (checked_expr expr.now table.now ≡ Err fault)) }
    ensures memory { IsErrOf result CheckFault.NoMemory → IsSome (fault_among (table.now ∷ []) (expr_columns expr.now)) }
{
    let tables = slice::from_ref(table);
    let unknown = seek_in_expr(Trouble::Unknown, tables, expr);
    let ambiguous = seek_in_expr(Trouble::Ambiguous, tables, expr);
    if let Err(fault) = name_fault(alloc, unknown, ambiguous) {
        return Err(fault);
    }
    match expr_kind(expr, tables) {
        Some(kind) => Ok(kind),
        None => Err(CheckFault::TypeMismatch),
    }
}
