//! Whether two conditions or expressions are the same tree.

ghost use Rattle.std.specs.Prelude.{◌≡◌, ◌↔◌, IsTrue};

use crate::{Addend, Cond, Expr, Literal, Operand};

impl Cond {
    /// Whether the two are the same tree, with the same names and literals. It takes no memory.
    pub fn is_same(&self, other: &Cond) -> bool
        ensures { IsTrue result ↔ (self.now ≡ other.now) }
    {
        are_same_conds(self, other)
    }
}

impl Expr {
    /// Whether the two are the same tree, with the same names and literals. It takes no memory.
    pub fn is_same(&self, other: &Expr) -> bool
        ensures { IsTrue result ↔ (self.now ≡ other.now) }
    {
        are_same_exprs(self, other)
    }
}

fn are_same_operands(left: &Operand, right: &Operand) -> bool
    ensures { IsTrue result ↔ (left.now ≡ right.now) }
{
    *left == *right
}

fn are_same_literals(left: &Literal, right: &Literal) -> bool
    ensures { IsTrue result ↔ (left.now ≡ right.now) }
{
    *left == *right
}

fn are_same_lists(left: &[Literal], right: &[Literal]) -> bool
    ensures { IsTrue result ↔ (left.now ≡ right.now) }
{
    if left.len() != right.len() {
        return false;
    }
    for i in 0..left.len() {
        if !are_same_literals(&left[i], &right[i]) {
            return false;
        }
    }
    true
}

#[cycle(same_conds)]
fn are_same_conds(left: &Cond, right: &Cond) -> bool
    ensures { IsTrue result ↔ (left.now ≡ right.now) }
{
    match (left, right) {
        (Cond::All(left), Cond::All(right)) => have_same_parts(left.as_slice(), right.as_slice()),
        (Cond::Any(left), Cond::Any(right)) => have_same_parts(left.as_slice(), right.as_slice()),
        (Cond::Not(left), Cond::Not(right)) => are_same_conds(left.get(), right.get()),
        (
            Cond::Compare {
                left,
                comparison,
                right,
            },
            Cond::Compare {
                left: other_left,
                comparison: other_comparison,
                right: other_right,
            },
        ) => *comparison == *other_comparison
            && are_same_operands(left, other_left)
            && are_same_operands(right, other_right),
        (
            Cond::In {
                column,
                negated,
                list,
            },
            Cond::In {
                column: other_column,
                negated: other_negated,
                list: other_list,
            },
        ) => *column == *other_column
            && *negated == *other_negated
            && are_same_lists(list.as_slice(), other_list.as_slice()),
        (
            Cond::Between {
                column,
                negated,
                low,
                high,
            },
            Cond::Between {
                column: other_column,
                negated: other_negated,
                low: other_low,
                high: other_high,
            },
        ) => *column == *other_column
            && *negated == *other_negated
            && *low == *other_low
            && *high == *other_high,
        _ => false,
    }
}

#[cycle(same_conds)]
fn have_same_parts(left: &[Cond], right: &[Cond]) -> bool
    ensures { IsTrue result ↔ (left.now ≡ right.now) }
{
    if left.len() != right.len() {
        return false;
    }
    for i in 0..left.len() {
        if !are_same_conds(&left[i], &right[i]) {
            return false;
        }
    }
    true
}

#[cycle(same_exprs)]
fn are_same_exprs(left: &Expr, right: &Expr) -> bool
    ensures { IsTrue result ↔ (left.now ≡ right.now) }
{
    match (left, right) {
        (Expr::Literal(left), Expr::Literal(right)) => *left == *right,
        (Expr::Column(left), Expr::Column(right)) => *left == *right,
        (Expr::Negated(left), Expr::Negated(right)) => are_same_exprs(left.get(), right.get()),
        (Expr::Sum(left), Expr::Sum(right)) => have_same_addends(left.as_slice(), right.as_slice()),
        (Expr::Product(left), Expr::Product(right)) => have_same_factors(
            left.as_slice(),
            right.as_slice(),
        ),
        _ => false,
    }
}

#[cycle(same_exprs)]
fn are_same_addends(left: &Addend, right: &Addend) -> bool
    ensures { IsTrue result ↔ (left.now ≡ right.now) }
{
    left.subtracted == right.subtracted && are_same_exprs(&left.expr, &right.expr)
}

#[cycle(same_exprs)]
fn have_same_addends(left: &[Addend], right: &[Addend]) -> bool
    ensures { IsTrue result ↔ (left.now ≡ right.now) }
{
    if left.len() != right.len() {
        return false;
    }
    for i in 0..left.len() {
        if !are_same_addends(&left[i], &right[i]) {
            return false;
        }
    }
    true
}

#[cycle(same_exprs)]
fn have_same_factors(left: &[Expr], right: &[Expr]) -> bool
    ensures { IsTrue result ↔ (left.now ≡ right.now) }
{
    if left.len() != right.len() {
        return false;
    }
    for i in 0..left.len() {
        if !are_same_exprs(&left[i], &right[i]) {
            return false;
        }
    }
    true
}
