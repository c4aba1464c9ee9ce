ghost use Rattle.std.specs.Prelude.{◌≡◌, ◌<◌, ◌⊎◌, ℕ, List, length, IfOk, IfErr, IfSome, IfNone, Some, None, slice_get};
ghost use Rattle.catalog.specs.declared.tables.Table.{Table};
ghost use Rattle.catalog.specs.Views.{AreTables};
ghost use Rattle.stmt_plan.specs.Plans.{IsTable};
ghost use Rattle.catalog_plan.specs.Plans.{table_of as table_named, IsFound, IsPlanned, IsRefused};

use crate::PlanFault;
use catalog::Catalog;
use sql_text::TableStatement;
use sql_values::{Name, TableNo};
use std::alloc::Global;
use stmt_plan::{Plan, StmtFault, is_table, plan_on};

/// The table that a statement names.
fn table_of(statement: &TableStatement) -> &Name
    ensures { result.now ≡ table_named statement.now }
{
    match statement {
        TableStatement::Insert(insert) => &insert.table,
        TableStatement::Select(select) => &select.tab.table,
        TableStatement::Update(update) => &update.table,
        TableStatement::Delete(delete) => &delete.table,
    }
}

/// The number of the table of this name, where its columns' names differ, which those of every configuration do.
fn found(catalog: &Catalog, name: &Name) -> Option<TableNo>
    ensures found { IfSome result (λ number. (table : Table) → slice_get catalog.now.tables number ≡ Some table → IsFound catalog.now.tables name.now number table) }
    ensures within { IfSome result (λ number. number < length catalog.now.tables) }
    ensures none { IfNone result ((number : ℕ) (table : Table) → IsFound catalog.now.tables name.now number table → ⊥) }
{
    let number = catalog.table(name)?;
    if is_table(catalog.def(number)) {
        Some(number)
    } else {
        None
    }
}

/// The plan of a statement over the catalog's tables, or why it is refused: a name that is no table's before all else, and then the first rule that the
/// statement breaks on its table, in the order of [`plan_on`].
pub fn plan(alloc: Global, catalog: &Catalog, statement: &TableStatement) -> Result<Plan, PlanFault>
    ensures ok { IfOk result (λ plan. IsPlanned catalog.now.tables statement.now plan) }
    ensures err { IfErr result (λ fault. IsRefused catalog.now.tables statement.now fault) }
{
    let name = table_of(statement);
    let Some(number) = found(catalog, name) else {
        return match name.clone() {
            Ok(name) => Err(PlanFault::NoTable(name)),
            Err(_) => Err(PlanFault::Statement(StmtFault::NoMemory)),
        };
    };
    let def = catalog.def(number);
    let rule = catalog.rule(number);
    match plan_on(alloc, number, def, rule, statement) {
        Ok(plan) => Ok(plan),
        Err(fault) => Err(PlanFault::Statement(fault)),
    }
}
