//! Expressions.

ghost use Rattle.std.specs.Prelude.{◌≡◌, ◌++◌, OnOk};
ghost use Rattle.ucon_model.specs.Views.{expr_of};
ghost use Rattle.ucon_model.specs.Printing.{expr_printing};

use crate::words::{put_if, put_literal, put_place};
use ucon_base::{NoMemory, put};
use ucon_model::Expr;

/// An expression, whose place asks it to bind so strongly at the least: 0 lets a sum stand there, 1 a product, 2 what has
/// no operator.
pub fn put_expr(out: &mut Vec<u8>, e: &Expr, least: u8) -> Result<(), NoMemory>
    ensures { OnOk result (out.new.items ≡ out.old.items ++ expr_printing least (expr_of e.now)) }
{
    let (a, operator, b, strength) = match e {
        Expr::Lit(v) => return put_literal(out, v),
        Expr::Read(place) => return put_place(out, place),
        Expr::Size(a) => {
            put(out, b"size(")?;
            put_expr(out, a, 0)?;
            return put(out, b")");
        }
        Expr::Add(a, b) => (a, b" + ", b, 0),
        Expr::Sub(a, b) => (a, b" - ", b, 0),
        Expr::Mul(a, b) => (a, b" * ", b, 1),
    };
    put_if(out, least > strength, b"(")?;
    put_expr(out, a, strength)?;
    put(out, operator)?;
    put_expr(out, b, strength + 1)?;
    put_if(out, least > strength, b")")
}
