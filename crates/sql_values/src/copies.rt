//! Copies of conditions and expressions.

ghost use Rattle.std.specs.Prelude.{◌≡◌, IfOk};

use crate::{Addend, Cond, Expr};
use sqlite_items::{Boxed, Items};
use std::alloc::{AllocError, Global};

impl Cond {
    /// A copy of this condition.
    pub fn copy(&self, alloc: Global) -> Result<Cond, AllocError>
        ensures { IfOk result (λ copy. copy ≡ self.now) }
    {
        copy_cond(alloc, self)
    }
}

impl Expr {
    /// A copy of this expression.
    pub fn copy(&self, alloc: Global) -> Result<Expr, AllocError>
        ensures { IfOk result (λ copy. copy ≡ self.now) }
    {
        copy_expr(alloc, self)
    }
}

#[cycle(copying_cond)]
fn copy_cond(alloc: Global, cond: &Cond) -> Result<Cond, AllocError>
    ensures { IfOk result (λ copy. copy ≡ cond.now) }
{
    match cond {
        Cond::All(parts) => Ok(Cond::All(copy_conds(alloc, parts.as_slice())?)),
        Cond::Any(parts) => Ok(Cond::Any(copy_conds(alloc, parts.as_slice())?)),
        Cond::Not(part) => Ok(Cond::Not(Boxed::new(alloc, copy_cond(alloc, part.get())?)?)),
        Cond::Compare {
            left,
            comparison,
            right,
        } => Ok(Cond::Compare {
            left: left.clone()?,
            comparison: *comparison,
            right: right.clone()?,
        }),
        Cond::In {
            column,
            negated,
            list,
        } => Ok(Cond::In {
            column: column.clone()?,
            negated: *negated,
            list: list.clone()?,
        }),
        Cond::Between {
            column,
            negated,
            low,
            high,
        } => Ok(Cond::Between {
            column: column.clone()?,
            negated: *negated,
            low: low.clone()?,
            high: high.clone()?,
        }),
    }
}

#[cycle(copying_cond)]
fn copy_conds(alloc: Global, parts: &[Cond]) -> Result<Items<Cond>, AllocError>
    ensures { IfOk result (λ copies. copies ≡ parts.now) }
{
    let mut copies = Items::new(alloc);
    for part in parts {
        copies.push(copy_cond(alloc, part)?)?;
    }
    Ok(copies)
}

#[cycle(copying_expr)]
fn copy_expr(alloc: Global, expr: &Expr) -> Result<Expr, AllocError>
    ensures { IfOk result (λ copy. copy ≡ expr.now) }
{
    match expr {
        Expr::Literal(literal) => Ok(Expr::Literal(literal.clone()?)),
        Expr::Column(name) => Ok(Expr::Column(name.clone()?)),
        Expr::Negated(part) => Ok(Expr::Negated(Boxed::new(alloc, copy_expr(alloc, part.get())?)?)),
        Expr::Sum(parts) => Ok(Expr::Sum(copy_addends(alloc, parts.as_slice())?)),
        Expr::Product(parts) => Ok(Expr::Product(copy_exprs(alloc, parts.as_slice())?)),
    }
}

#[cycle(copying_expr)]
fn copy_addend(alloc: Global, part: &Addend) -> Result<Addend, AllocError>
    ensures { IfOk result (λ copy. copy ≡ part.now) }
{
    Ok(Addend {
        subtracted: part.subtracted,
        expr: copy_expr(alloc, &part.expr)?,
    })
}

#[cycle(copying_expr)]
fn copy_exprs(alloc: Global, parts: &[Expr]) -> Result<Items<Expr>, AllocError>
    ensures { IfOk result (λ copies. copies ≡ parts.now) }
{
    let mut copies = Items::new(alloc);
    for part in parts {
        copies.push(copy_expr(alloc, part)?)?;
    }
    Ok(copies)
}

#[cycle(copying_expr)]
fn copy_addends(alloc: Global, parts: &[Addend]) -> Result<Items<Addend>, AllocError>
    ensures { IfOk result (λ copies. copies ≡ parts.now) }
{
    let mut copies = Items::new(alloc);
    for part in parts {
        copies.push(copy_addend(alloc, part)?)?;
    }
    Ok(copies)
}
