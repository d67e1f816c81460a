//! What the expressions of a test are worth. No memory is taken: texts and sets are lent.

ghost use Rattle.std.specs.Prelude.{◌≡◌, pos, length, false, option_copied};
ghost use Rattle.ucon_base.specs.declared.value.Value.TheVariants.{Int as IntValue};
ghost use Rattle.ucon_base.specs.Arithmetic.{sum_of, difference_of, product_of, size_of, same_value, same_texts};
ghost use Rattle.ucon_model.specs.Comparison.{compares};
ghost use Rattle.ucon_eval.specs.Worth.{worth_value};
ghost use Rattle.ucon_model.specs.Sums.{is_set_and_text, is_same_text};

use ucon_base::{Int, Text, TextSet, Value};
use ucon_model::Op;

/// A value that is read where it lies.
#[derive(Drop)]
pub enum Worth<'a> {
    Int(Int),
    Text(&'a Text),
    Set(&'a TextSet),
}

impl<'a> Worth<'a> {
    /// Lends a value: what it gives has that value.
    pub fn of(value: &'a Value) -> Worth<'a>
        ensures { worth_value result ≡ value.now }
    {
        match value {
            Value::Int(n) => Worth::Int(*n),
            Value::Text(t) => Worth::Text(t),
            Value::Set(s) => Worth::Set(s),
        }
    }

    /// The same worth once more.
    fn again(&self) -> Worth<'a>
        ensures { worth_value result ≡ worth_value self.now }
    {
        match self {
            Worth::Int(n) => Worth::Int(*n),
            Worth::Text(t) => Worth::Text(t),
            Worth::Set(s) => Worth::Set(s),
        }
    }

    /// The sum. No set grows.
    pub fn plus(&self, other: &Worth<'a>) -> Worth<'a>
        requires { is_set_and_text (worth_value self.now) (worth_value other.now) ≡ false }
        ensures { worth_value result ≡ sum_of (worth_value self.now) (worth_value other.now) }
    {
        match (self, other) {
            (Worth::Int(a), Worth::Int(b)) => Worth::Int(a.add(*b)),
            _ => self.again(),
        }
    }

    /// The difference. No set shrinks.
    pub fn minus(&self, other: &Worth<'a>) -> Worth<'a>
        requires { is_set_and_text (worth_value self.now) (worth_value other.now) ≡ false }
        ensures { worth_value result ≡ difference_of (worth_value self.now) (worth_value other.now) }
    {
        match (self, other) {
            (Worth::Int(a), Worth::Int(b)) => Worth::Int(a.sub(*b)),
            _ => self.again(),
        }
    }

    /// The product.
    pub fn times(&self, other: &Worth<'a>) -> Worth<'a>
        ensures { worth_value result ≡ product_of (worth_value self.now) (worth_value other.now) }
    {
        match (self, other) {
            (Worth::Int(a), Worth::Int(b)) => Worth::Int(a.mul(*b)),
            _ => self.again(),
        }
    }

    /// How many texts a set has.
    pub fn size(&self) -> Worth<'a>
        ensures { worth_value result ≡ size_of (worth_value self.now) }
    {
        match self {
            Worth::Set(s) => Worth::Int(size_of_set(s)),
            _ => self.again(),
        }
    }

    /// Tells whether two values are of one kind and equal. Sets are equal if they have the same texts.
    pub fn equals(&self, other: &Worth<'a>) -> bool
        ensures { result ≡ same_value (worth_value self.now) (worth_value other.now) }
    {
        match (self, other) {
            (Worth::Int(a), Worth::Int(b)) => a == b,
            (Worth::Text(a), Worth::Text(b)) => *a == *b,
            (Worth::Set(a), Worth::Set(b)) => are_same_texts(a, b),
            _ => false,
        }
    }

    /// Whether the two compare so.
    pub fn compares(&self, op: Op, other: &Worth<'a>) -> bool
        ensures { result ≡ compares op (worth_value self.now) (worth_value other.now) }
    {
        match (self, other) {
            (Worth::Int(a), Worth::Int(b)) => integers_compare(op, *a, *b),
            _ => match op {
                Op::Eq => self.equals(other),
                Op::Ne => !self.equals(other),
                Op::Member => self.is_in(other),
                _ => false,
            },
        }
    }

    /// Whether it is a text of the set.
    fn is_in(&self, set: &Worth<'a>) -> bool
        ensures { result ≡ compares Op.Member (worth_value self.now) (worth_value set.now) }
    {
        match (self, set) {
            (Worth::Text(t), Worth::Set(s)) => s.has(t),
            _ => false,
        }
    }
}

/// Whether two integers compare so.
#[inline(always)]
fn integers_compare(op: Op, a: Int, b: Int) -> bool
    ensures { result ≡ compares op (IntValue a) (IntValue b) }
{
    match op {
        Op::Eq => a == b,
        Op::Ne => a != b,
        Op::Lt => a.is_below(b),
        Op::Le => a.is_at_most(b),
        Op::Gt => b.is_below(a),
        Op::Ge => b.is_at_most(a),
        Op::Member => false,
    }
}

/// Whether two values compare so. Integers, as most are, are compared at once.
#[inline(always)]
pub fn values_compare(op: Op, a: &Value, b: &Value) -> bool
    ensures { result ≡ compares op a.now b.now }
{
    match (a, b) {
        (Value::Int(a), Value::Int(b)) => integers_compare(op, *a, *b),
        _ => texts_or_sets_compare(op, a, b),
    }
}

/// Whether two values compare so. It is asked if one of them is no integer, and right for all.
#[inline(never)]
fn texts_or_sets_compare(op: Op, a: &Value, b: &Value) -> bool
    ensures { result ≡ compares op a.now b.now }
{
    match (op, a, b) {
        (Op::Eq, Value::Text(a), Value::Text(b)) => a == b,
        (Op::Ne, Value::Text(a), Value::Text(b)) => a != b,
        _ => Worth::of(a).compares(op, &Worth::of(b)),
    }
}

/// Counts the texts of a set.
pub fn size_of_set(s: &TextSet) -> Int
    ensures { result ≡ pos (length s.now) }
{
    Int::new(s.slice().len() as i64).unwrap_or(Int::zero())
}

/// Whether two sets have the same texts.
fn are_same_texts(a: &TextSet, b: &TextSet) -> bool
    ensures { result ≡ same_texts a.now b.now }
{
    if a.size() != b.size() {
        return false;
    }
    for i in 0..a.size() {
        if !are_same_text(a.at(i), b.at(i)) {
            return false;
        }
    }
    true
}

fn are_same_text(a: Option<&Text>, b: Option<&Text>) -> bool
    ensures { result ≡ is_same_text (option_copied a.entry) (option_copied b.entry) }
{
    match (a, b) {
        (Some(t), Some(u)) => t == u,
        _ => false,
    }
}
