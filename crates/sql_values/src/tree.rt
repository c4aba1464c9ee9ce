use crate::{Literal, Literals, Name};
use sqlite_items::{Boxed, Items};

/// A column as a statement names it, by its table's name or alias or without one.
#[derive(Clone, Debug, PartialEq, Eq, Drop)]
pub struct ColumnName {
    pub table: Option<Name>,
    pub column: Name,
}

/// A side of a comparison.
#[derive(Clone, Debug, PartialEq, Eq, Drop)]
pub enum Operand {
    Column(ColumnName),
    Literal(Literal),
}

/// How two operands are compared.
#[derive(Clone, Copy, Debug, PartialEq, Eq)]
pub enum Comparison {
    /// `=`
    Equal,
    /// `<>`
    NotEqual,
    /// `<`
    Less,
    /// `<=`
    AtMost,
    /// `>`
    Greater,
    /// `>=`
    AtLeast,
}

/// A condition on rows, as in WHERE.
///
/// Several parts joined by AND are one node with the list of its parts, and so are several parts joined by OR; one part alone is that part itself.
#[derive(Debug, Drop)]
pub enum Cond {
    /// Each part holds (AND).
    All(Items<Cond>),
    /// A part holds (OR).
    Any(Items<Cond>),
    /// The part doesn't hold (NOT).
    Not(Boxed<Cond>),
    /// Two operands compare so.
    Compare {
        left: Operand,
        comparison: Comparison,
        right: Operand,
    },
    /// The column's value is one of these (IN), or, negated, none of them (NOT IN).
    In {
        column: ColumnName,
        negated: bool,
        list: Literals,
    },
    /// The column's value lies between these, both included (BETWEEN), or, negated, outside (NOT BETWEEN).
    Between {
        column: ColumnName,
        negated: bool,
        low: Literal,
        high: Literal,
    },
}

/// An expression, as UPDATE sets a column to.
#[cycle(expression)]
#[derive(Debug, Drop)]
pub enum Expr {
    Literal(Literal),
    Column(ColumnName),
    /// The number with the other sign.
    Negated(Boxed<Expr>),
    /// The parts added or subtracted, from the left.
    Sum(Items<Addend>),
    /// The parts multiplied, from the left.
    Product(Items<Expr>),
}

/// A part of a sum, with its sign.
#[cycle(expression)]
#[derive(Debug, Drop)]
pub struct Addend {
    pub subtracted: bool,
    pub expr: Expr,
}
