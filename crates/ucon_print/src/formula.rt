//! Formulas.

ghost use Rattle.std.specs.Prelude.{◌≡◌, ◌++◌, codes, OnOk};
ghost use Rattle.std.specs.Fmt.{signed_decimal};
ghost use Rattle.ucon_model.specs.Views.{expr_of, formula_of};
ghost use Rattle.ucon_model.specs.Printing.{expr_printing, op_printing, formula_printing};

use crate::expr::put_expr;
use crate::words::put_if;
use ucon_base::{Int, NoMemory, put, put_integer};
use ucon_model::{Expr, Formula, Op};

fn op_text(op: Op) -> &'static [u8]
    ensures { result.now ≡ op_printing op }
{
    match op {
        Op::Eq => b" = ",
        Op::Ne => b" != ",
        Op::Lt => b" < ",
        Op::Le => b" <= ",
        Op::Gt => b" > ",
        Op::Ge => b" >= ",
        Op::Member => b" in ",
    }
}

fn put_comparison(out: &mut Vec<u8>, op: Op, a: &Expr, b: &Expr) -> Result<(), NoMemory>
    ensures { OnOk result (out.new.items ≡ out.old.items ++ expr_printing 0 (expr_of a.now) ++ op_printing op ++ expr_printing 0 (expr_of b.now)) }
{
    put_expr(out, a, 0)?;
    put(out, op_text(op))?;
    put_expr(out, b, 0)
}

fn put_lasts(out: &mut Vec<u8>, n: Int) -> Result<(), NoMemory>
    ensures { OnOk result (out.new.items ≡ out.old.items ++ codes "lasts " ++ signed_decimal n) }
{
    put(out, b"lasts ")?;
    put_integer(out, n)
}

/// A formula, whose place asks it to bind so strongly at the least: 0 lets an `or` stand there, 1 an `and`, 2 neither.
pub fn put_formula(out: &mut Vec<u8>, f: &Formula, least: u8) -> Result<(), NoMemory>
    ensures { OnOk result (out.new.items ≡ out.old.items ++ formula_printing least (formula_of f.now)) }
{
    let (left, operator, right, strength) = match f {
        Formula::Not(f) => {
            put(out, b"not ")?;
            return put_formula(out, f, 2);
        }
        Formula::Compare(op, a, b) => return put_comparison(out, *op, a, b),
        Formula::Lasts(n) => return put_lasts(out, *n),
        Formula::Or(f, g) => (f, b" or ".as_slice(), g, 0),
        Formula::And(f, g) => (f, b" and ".as_slice(), g, 1),
    };
    put_if(out, least > strength, b"[ ")?;
    put_formula(out, left, strength)?;
    put(out, operator)?;
    put_formula(out, right, strength + 1)?;
    put_if(out, least > strength, b" ]")
}
