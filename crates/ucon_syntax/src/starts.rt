//! What a token begins, where the grammar asks.

ghost use Rattle.std.specs.Prelude.{◌≡◌, Some};
ghost use Rattle.ucon_token.specs.Seen.{symbol_of, token_of};
ghost use Rattle.ucon_syntax.specs.Starts.{symbol_factor, word_factor, factor_start, symbol_sum, sum_sign, unit_start, symbol_op, word_op, op_of};
ghost use Rattle.ucon_syntax.specs.Starts.{side_of, kind_word, phase_of, test_sort, duty_word, when_of, if_name, name_in};

use ucon_base::{Name, Side};
use ucon_model::{Op, Phase, When};
use ucon_token::{Symbol, Token};

/// What a factor begins with: a literal, a place of the subject, of the object or of the environment, `size`, or `(`.
#[derive(Clone, Copy)]
pub enum FactorStart {
    Literal,
    Subject,
    Object,
    Env,
    Size,
    Round,
}

/// The sign between two terms: `+` or `-`.
#[derive(Clone, Copy)]
pub enum SumSign {
    Plus,
    Minus,
}

/// What a unit of a formula begins with: `not`, `[`, `lasts`, or else the left side of a comparison.
#[derive(Clone, Copy)]
pub enum UnitStart {
    Not,
    Bracket,
    Lasts,
    Compare,
}

/// The word of a kind: `int`, `text` or `set`.
#[derive(Clone, Copy)]
pub enum KindWord {
    Int,
    Text,
    Set,
}

/// The letter of a predicate: `a` (authorisation), `b` (obligation) or `c` (condition).
#[derive(Clone, Copy)]
pub enum TestSort {
    A,
    B,
    C,
}

/// The word of an obligation: `done`, `within` or `every`.
#[derive(Clone, Copy)]
pub enum DutyWord {
    Done,
    Within,
    Every,
}

fn symbol_factor(s: Symbol) -> Option<FactorStart>
    ensures { result ≡ symbol_factor (symbol_of s) }
{
    match s {
        Symbol::Minus => Some(FactorStart::Literal),
        Symbol::OpenCurly => Some(FactorStart::Literal),
        Symbol::OpenRound => Some(FactorStart::Round),
        _ => None,
    }
}

fn word_factor(name: &Name) -> Option<FactorStart>
    ensures { result ≡ word_factor name.now }
{
    let bytes = name.bytes();
    if bytes == b"s".as_slice() {
        Some(FactorStart::Subject)
    } else if bytes == b"o".as_slice() {
        Some(FactorStart::Object)
    } else if bytes == b"env".as_slice() {
        Some(FactorStart::Env)
    } else if bytes == b"size".as_slice() {
        Some(FactorStart::Size)
    } else {
        None
    }
}

/// Tells what kind of factor the token begins. None if it begins none.
#[tactic(auto, unfolding(crate::specs::Starts::factor_start))]
pub fn factor_start(token: &Token) -> Option<FactorStart>
    ensures { result ≡ factor_start (token_of token.now) }
{
    match token {
        Token::Number(_) => Some(FactorStart::Literal),
        Token::Text(_) => Some(FactorStart::Literal),
        Token::Symbol(s) => symbol_factor(*s),
        Token::Word(name) => word_factor(name),
        _ => None,
    }
}

fn symbol_sum(s: Symbol) -> Option<SumSign>
    ensures { result ≡ symbol_sum (symbol_of s) }
{
    match s {
        Symbol::Plus => Some(SumSign::Plus),
        Symbol::Minus => Some(SumSign::Minus),
        _ => None,
    }
}

/// Gives the sign of a token that is `+` or `-`. None for any other.
#[tactic(auto, unfolding(crate::specs::Starts::sum_sign))]
pub fn sum_sign(token: &Token) -> Option<SumSign>
    ensures { result ≡ sum_sign (token_of token.now) }
{
    match token {
        Token::Symbol(s) => symbol_sum(*s),
        _ => None,
    }
}

/// Tells what kind of unit the token begins. All that isn't `not`, `[` or `lasts` begins a comparison.
#[tactic(auto, unfolding(crate::specs::Starts::unit_start))]
pub fn unit_start(token: &Token) -> UnitStart
    ensures { result ≡ unit_start (token_of token.now) }
{
    if token.is_word(b"not") {
        UnitStart::Not
    } else if token.is_symbol(Symbol::OpenSquare) {
        UnitStart::Bracket
    } else if token.is_word(b"lasts") {
        UnitStart::Lasts
    } else {
        UnitStart::Compare
    }
}

fn symbol_op(s: Symbol) -> Option<Op>
    ensures { result ≡ symbol_op (symbol_of s) }
{
    match s {
        Symbol::Equal => Some(Op::Eq),
        Symbol::NotEqual => Some(Op::Ne),
        Symbol::Less => Some(Op::Lt),
        Symbol::LessEqual => Some(Op::Le),
        Symbol::Greater => Some(Op::Gt),
        Symbol::GreaterEqual => Some(Op::Ge),
        _ => None,
    }
}

fn word_op(name: &Name) -> Option<Op>
    ensures { result ≡ word_op name.now }
{
    if name.bytes() == b"in".as_slice() {
        Some(Op::Member)
    } else {
        None
    }
}

/// Gives the comparison that the token is: one of six symbols, or `in`. None for any other token.
#[tactic(auto, unfolding(crate::specs::Starts::op_of))]
pub fn op_of(token: &Token) -> Option<Op>
    ensures { result ≡ op_of (token_of token.now) }
{
    match token {
        Token::Symbol(s) => symbol_op(*s),
        Token::Word(name) => word_op(name),
        _ => None,
    }
}

/// Gives the side of the word `s` or `o`. None for any other token.
#[tactic(auto, unfolding(crate::specs::Starts::side_of))]
pub fn side_of(token: &Token) -> Option<Side>
    ensures { result ≡ side_of (token_of token.now) }
{
    if token.is_word(b"s") {
        Some(Side::Subject)
    } else if token.is_word(b"o") {
        Some(Side::Object)
    } else {
        None
    }
}

/// Gives the kind that the token is the word of. None for any other token.
#[tactic(auto, unfolding(crate::specs::Starts::kind_word))]
pub fn kind_word(token: &Token) -> Option<KindWord>
    ensures { result ≡ kind_word (token_of token.now) }
{
    if token.is_word(b"int") {
        Some(KindWord::Int)
    } else if token.is_word(b"text") {
        Some(KindWord::Text)
    } else if token.is_word(b"set") {
        Some(KindWord::Set)
    } else {
        None
    }
}

/// Gives the phase of the word `pre` or `on`. None for any other token.
#[tactic(auto, unfolding(crate::specs::Starts::phase_of))]
pub fn phase_of(token: &Token) -> Option<Phase>
    ensures { result ≡ phase_of (token_of token.now) }
{
    if token.is_word(b"pre") {
        Some(Phase::Pre)
    } else if token.is_word(b"on") {
        Some(Phase::Ongoing)
    } else {
        None
    }
}

/// Gives the sort of the letter `a`, `b` or `c`. None for any other token.
#[tactic(auto, unfolding(crate::specs::Starts::test_sort))]
pub fn test_sort(token: &Token) -> Option<TestSort>
    ensures { result ≡ test_sort (token_of token.now) }
{
    if token.is_word(b"a") {
        Some(TestSort::A)
    } else if token.is_word(b"b") {
        Some(TestSort::B)
    } else if token.is_word(b"c") {
        Some(TestSort::C)
    } else {
        None
    }
}

/// Gives the word of an obligation that the token is. None for any other token.
#[tactic(auto, unfolding(crate::specs::Starts::duty_word))]
pub fn duty_word(token: &Token) -> Option<DutyWord>
    ensures { result ≡ duty_word (token_of token.now) }
{
    if token.is_word(b"done") {
        Some(DutyWord::Done)
    } else if token.is_word(b"within") {
        Some(DutyWord::Within)
    } else if token.is_word(b"every") {
        Some(DutyWord::Every)
    } else {
        None
    }
}

/// Gives the time of an update that the token is the word of. None for any other token.
#[tactic(auto, unfolding(crate::specs::Starts::when_of))]
pub fn when_of(token: &Token) -> Option<When>
    ensures { result ≡ when_of (token_of token.now) }
{
    if token.is_word(b"before") {
        Some(When::Before)
    } else if token.is_word(b"during") {
        Some(When::During)
    } else if token.is_word(b"after_end") {
        Some(When::AfterEnd)
    } else if token.is_word(b"after_revoke") {
        Some(When::AfterRevoke)
    } else {
        None
    }
}

/// The name that a text spells.
#[tactic(auto, unfolding(crate::specs::Starts::name_in))]
pub fn name_in(token: &Token) -> Option<Name>
    ensures { result ≡ name_in (token_of token.now) }
{
    match token.text() {
        Some(text) => name_of(text.bytes()),
        None => None,
    }
}

fn name_of(bytes: &[u8]) -> Option<Name>
    ensures { result ≡ if_name (Some bytes.now) }
{
    Name::read(bytes).ok()
}
