//! The canonical text of an expression.
ghost use Rattle.std.specs.Prelude.{◌≡◌, ◌++◌, [], ◌∷◌, OnOk, map, drop, codes, if◌then◌else◌};
ghost use Rattle.sql_text.specs.Printing.{joined_text, at_level, sign_text, part_text, sum_text, shown_expr, shown_addend, expr_text};

use crate::printing::{push_closing, push_column, push_literal, push_opening};
use sql_values::{Addend, Expr};
use std::alloc::{AllocError, Global};

/// Adds the sign of a part of a sum, unless the part is the first.
fn push_sign(out: &mut Vec<u8>, further: bool, subtracted: bool) -> Result<(), AllocError>
    ensures { OnOk result (out.new.items ≡ out.old.items ++ (if further then sign_text subtracted else [])) }
{
    if !further {
        return Ok(());
    }
    if subtracted {
        out.extend_from_slice(b" - ")
    } else {
        out.extend_from_slice(b" + ")
    }
}

/// Adds an expression, in parentheses unless it binds at least so tightly: 0 a factor, 1 a part of a sum, 2 anything.
#[cycle(printing)]
fn push_expr_at(alloc: Global, out: &mut Vec<u8>, level: u8, expr: &Expr) -> Result<(), AllocError>
    ensures { OnOk result (out.new.items ≡ out.old.items ++ at_level level (shown_expr expr.now)) }
{
    match expr {
        Expr::Literal(literal) => push_literal(alloc, out, literal),
        Expr::Column(column) => push_column(out, column),
        Expr::Negated(part) => {
            out.extend_from_slice(b"- ")?;
            push_expr_at(alloc, out, 0, part.get())
        }
        Expr::Sum(parts) => {
            push_opening(out, level < 2)?;
            push_sum(alloc, out, parts.as_slice())?;
            push_closing(out, level < 2)
        }
        Expr::Product(parts) => {
            push_opening(out, level < 1)?;
            push_product(alloc, out, parts.as_slice())?;
            push_closing(out, level < 1)
        }
    }
}

/// Adds a part of a sum, behind its sign unless it is the first.
#[cycle(printing)]
#[tactic(auto, using(crate::proofs::Joined::part_is))]
fn push_addend(
    alloc: Global,
    out: &mut Vec<u8>,
    further: bool,
    part: &Addend,
) -> Result<(), AllocError>
    ensures { OnOk result (out.new.items ≡ out.old.items ++ part_text further (shown_addend part.now)) }
{
    push_sign(out, further, part.subtracted)?;
    push_expr_at(alloc, out, 1, &part.expr)
}

/// Adds the parts of a sum.
#[cycle(printing)]
#[tactic(auto, using(crate::proofs::Joined::next_of_sum, crate::proofs::Joined::none_of_sum))]
fn push_sum(alloc: Global, out: &mut Vec<u8>, parts: &[Addend]) -> Result<(), AllocError>
    ensures { OnOk result (out.new.items ≡ out.old.items ++ sum_text (map shown_addend parts.now)) }
{
    let mut further = false;
    for part in parts {
        push_addend(alloc, out, further, part)?;
        further = true;
    }
    Ok(())
}

/// Adds factors with stars between them.
#[cycle(printing)]
fn push_product(alloc: Global, out: &mut Vec<u8>, parts: &[Expr]) -> Result<(), AllocError>
    ensures { OnOk result (out.new.items ≡ out.old.items ++ joined_text (codes " * ") (map (at_level 0) (map shown_expr parts.now))) }
{
    let mut before: &[u8] = b"";
    for part in parts {
        out.extend_from_slice(before)?;
        push_expr_at(alloc, out, 0, part)?;
        before = b" * ";
    }
    Ok(())
}

/// Adds an expression.
pub fn push_expr(alloc: Global, out: &mut Vec<u8>, expr: &Expr) -> Result<(), AllocError>
    ensures { OnOk result (out.new.items ≡ out.old.items ++ expr_text expr.now) }
{
    push_expr_at(alloc, out, 2, expr)
}
