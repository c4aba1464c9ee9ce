//! Values of the SQL profile, rows of them, tables, conditions and expressions.
//!
//! A column holds whole numbers (BIGINT) or texts (VARCHAR), never NULL, and a [`Row`] has one [`Value`] for each column of its
//! table, in order. A [`Literal`] is a value as a statement's text has it: a number may be too large to be stored, and it may be NULL.
//! [`Cond`] is a condition on rows, as in WHERE, and [`Expr`] an expression, as UPDATE sets a column to.
//!
//! A set of keys is [`Intervals`]: closed intervals of 64-bit keys that rise, with a key left out between one and the next, so a set has one list
//! ([`sets_have_one_list`]).
#![tactic(auto)]

mod checks;
mod columns;
mod conditions;
mod copies;
mod expressions;
mod intervals;
mod kinds;
mod laws;
mod literal;
mod merging;
mod name;
mod places;
mod sameness;
mod storage;
mod table;
mod tree;
mod value;

pub use checks::{CheckFault, check_cond, check_expr};
pub use conditions::holds;
pub use expressions::{ValueFault, eval};
pub use intervals::Intervals;
pub use laws::{columns_have_values, operands_have_an_order, sets_have_one_list};
pub use list_types::{Bytes, Text};
pub use literal::{Literal, Literals};
pub use name::{LONGEST_NAME, Name, is_name_text};
pub use places::{
    Interval, Keys, LinkNo, LockMode, PartNo, PartNos, ServerNo, ServerNos, TableNo, Xid, Xids,
};
pub use storage::{StoreFault, size, store};
pub use table::{ColumnDef, ColumnDefs, Kind, TableDef, TableDefs};
pub use tree::{Addend, ColumnName, Comparison, Cond, Expr, Operand};
pub use value::{Row, Rows, Value};
