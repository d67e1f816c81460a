//! The places that a formula reads, each once, in the order of first reading.

ghost use Rattle.std.specs.Prelude.{◌≡◌, [], OnOk, IfOk, fold};
ghost use Rattle.std.specs.List.{list_any};
ghost use Rattle.ucon_model.specs.Places.{distinct, expr_places, formula_places, same_place, with_place};
ghost use Rattle.ucon_model.specs.Views.{expr_of, formula_of};

use std::alloc::Global;
use ucon_accept::is_same_place;
use ucon_base::NoMemory;
use ucon_model::{Expr, Formula, Ref};

fn has_place(places: &[Ref], place: &Ref) -> bool
    ensures { result ≡ list_any (same_place place.now) places.now }
{
    places.iter().any(|p| is_same_place(place, p))
}

/// Adds a place, if it isn't there yet.
fn add_place(places: &mut Vec<Ref>, place: &Ref) -> Result<(), NoMemory>
    ensures { OnOk result (places.new.items ≡ with_place places.old.items place.now) }
{
    if has_place(places, place) {
        return Ok(());
    }
    places.push(*place)?;
    Ok(())
}

fn add_expr_places(places: &mut Vec<Ref>, e: &Expr) -> Result<(), NoMemory>
    ensures { OnOk result (places.new.items ≡ fold with_place places.old.items (expr_places (expr_of e.now))) }
{
    match e {
        Expr::Lit(_) => Ok(()),
        Expr::Read(place) => add_place(places, place),
        Expr::Add(a, b) | Expr::Sub(a, b) | Expr::Mul(a, b) => {
            add_expr_places(places, a)?;
            add_expr_places(places, b)
        }
        Expr::Size(a) => add_expr_places(places, a),
    }
}

fn add_formula_places(places: &mut Vec<Ref>, f: &Formula) -> Result<(), NoMemory>
    ensures { OnOk result (places.new.items ≡ fold with_place places.old.items (formula_places (formula_of f.now))) }
{
    match f {
        Formula::And(f, g) | Formula::Or(f, g) => {
            add_formula_places(places, f)?;
            add_formula_places(places, g)
        }
        Formula::Not(f) => add_formula_places(places, f),
        Formula::Compare(_, a, b) => {
            add_expr_places(places, a)?;
            add_expr_places(places, b)
        }
        Formula::Lasts(_) => Ok(()),
    }
}

/// The places that a formula reads.
pub fn places_of(alloc: Global, f: &Formula) -> Result<Vec<Ref>, NoMemory>
    ensures { IfOk result (λ places. places.items ≡ distinct (formula_places (formula_of f.now))) }
{
    let mut places = Vec::new(alloc);
    add_formula_places(&mut places, f)?;
    Ok(places)
}
