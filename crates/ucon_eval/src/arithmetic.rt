//! Arithmetic on values. Sums and differences of sets take memory.

ghost use Rattle.std.specs.Prelude.{◌≡◌, IfOk};
ghost use Rattle.std.specs.Int.{int_max, int_min};
ghost use Rattle.ucon_base.specs.declared.value.Kind.TheVariants.{Int as IntKind};
ghost use Rattle.ucon_base.specs.Numbers.{clamp};
ghost use Rattle.ucon_base.specs.Arithmetic.{sum_of, difference_of, product_of, size_of, fitted};

use crate::worth::size_of_set;
use std::alloc::Global;
use ucon_base::{Int, Kind, NoMemory, Value};

/// Gives the clamped sum of two integers, or a set with a text; else the left value. `Err` if there is no memory.
pub fn sum(alloc: Global, a: Value, b: Value) -> Result<Value, NoMemory>
    ensures { IfOk result (λ v. v ≡ sum_of a b) }
{
    match (&a, &b) {
        (Value::Int(m), Value::Int(n)) => Ok(Value::Int(m.add(*n))),
        (Value::Set(s), Value::Text(t)) => Ok(Value::Set(s.with(alloc, t)?)),
        _ => Ok(a),
    }
}

/// Gives the clamped difference of two integers, or a set without a text; else the left value. `Err` if there is no memory.
pub fn difference(alloc: Global, a: Value, b: Value) -> Result<Value, NoMemory>
    ensures { IfOk result (λ v. v ≡ difference_of a b) }
{
    match (&a, &b) {
        (Value::Int(m), Value::Int(n)) => Ok(Value::Int(m.sub(*n))),
        (Value::Set(s), Value::Text(t)) => Ok(Value::Set(s.without(alloc, t)?)),
        _ => Ok(a),
    }
}

/// Gives the clamped product of two integers; else the left value.
pub fn product(a: Value, b: Value) -> Value
    ensures { result ≡ product_of a b }
{
    match (&a, &b) {
        (Value::Int(m), Value::Int(n)) => Value::Int(m.mul(*n)),
        _ => a,
    }
}

/// How many texts a set has.
pub fn size(v: Value) -> Value
    ensures { result ≡ size_of v }
{
    match &v {
        Value::Set(s) => Value::Int(size_of_set(s)),
        _ => v,
    }
}

/// Gives the greater of two integers.
pub fn later(a: Int, b: Int) -> Int
    ensures { result ≡ int_max a b }
{
    if b.is_below(a) { a } else { b }
}

fn earlier(a: Int, b: Int) -> Int
    ensures { result ≡ int_min a b }
{
    if b.is_below(a) { b } else { a }
}

/// The value as an attribute of a kind keeps it: an integer is clamped to the declared range.
pub fn fitted(kind: &Kind, v: Value) -> Value
    ensures { result ≡ fitted kind.now v }
{
    match kind {
        Kind::Int { low, high } => clamped_value(*low, *high, v),
        _ => v,
    }
}

fn clamped_value(low: Int, high: Int, v: Value) -> Value
    ensures { result ≡ fitted (IntKind low high) v }
{
    match &v {
        Value::Int(n) => Value::Int(clamped_to(low, high, *n)),
        _ => v,
    }
}

/// The integer clamped to a range.
fn clamped_to(low: Int, high: Int, n: Int) -> Int
    ensures { result ≡ clamp low high n }
{
    later(low, earlier(n, high))
}

/// The integer as an attribute of a kind keeps it.
pub fn fitted_integer(kind: &Kind, n: Int) -> Int
    ensures { Value.Int result ≡ fitted kind.now (Value.Int n) }
{
    match kind {
        Kind::Int { low, high } => clamped_to(*low, *high, n),
        _ => n,
    }
}
