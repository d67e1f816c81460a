//! Where the words of a line begin, by how many a reader wants, who knows where the second one begins, if there is one.
//! Each place is a byte's, from 0 at the line's first.

ghost use Rattle.std.specs.Prelude.{◌≡◌, ◌≤◌, ◌<◌, [], ◌∷◌, length, drop, IfNone, IfSome, MatchOption};
ghost use Rattle.ucon_base.specs.NameBytes.{is_name};
ghost use Rattle.ucon_reply.specs.Words.{between, words_at, words_from};

use crate::line_words::{name_then, next_word};

/// Where a line's second word begins, if it has no third.
pub fn only_word(line: &[u8], second: Option<usize>) -> Option<usize>
    requires { IfSome second (λ at. at ≤ length line.now) }
    ensures { MatchOption result (length (words_from second line.now) ≡ 1 → ⊥)
        (λ a. (a ≤ length line.now) × (words_from second line.now ≡ record { at = a; text = drop a line.now } ∷ [])) }
{
    let a = second?;
    match next_word(line, a) {
        None => Some(a),
        Some(_) => None,
    }
}

/// Where the three words behind a line's first begin, if there are no more, and whether each is a name.
#[inline(always)]
pub fn three_words(line: &[u8], second: Option<usize>) -> Option<ThreeWords>
    requires { IfSome second (λ at. at ≤ length line.now) }
    ensures none { IfNone result (length (words_from second line.now) ≡ 3 → ⊥) }
    ensures words { IfSome result (λ w. words_from second line.now
        ≡ record { at = w.a; text = between w.a w.b line.now } ∷ record { at = w.b; text = between w.b w.c line.now }
        ∷ record { at = w.c; text = drop w.c line.now } ∷ []) }
    ensures a_named { IfSome result (λ w. w.a_named ≡ is_name (between w.a w.b line.now)) }
    ensures b_named { IfSome result (λ w. w.b_named ≡ is_name (between w.b w.c line.now)) }
    ensures c_named { IfSome result (λ w. w.c_named ≡ is_name (drop w.c line.now)) }
    ensures within { IfSome result (λ w. (w.a < w.b) × (w.b < w.c) × (w.c ≤ length line.now)) }
{
    let a = second?;
    let (b, a_named) = name_then(line, a);
    let b = b?;
    let (c, b_named) = name_then(line, b);
    let c = c?;
    match name_then(line, c) {
        (None, c_named) => Some(ThreeWords {
            a,
            a_named,
            b,
            b_named,
            c,
            c_named,
        }),
        (Some(_), _) => None,
    }
}

/// Where three words begin that take the rest of a line, and whether each is a name. Two that stand side by side are a space apart.
#[derive(Clone, Copy)]
pub struct ThreeWords {
    /// The place of the first of them.
    pub a: usize,
    /// Whether the first is a name.
    pub a_named: bool,
    /// The place of the second.
    pub b: usize,
    /// Whether the second is a name.
    pub b_named: bool,
    /// The place of the third, which ends with the line.
    pub c: usize,
    /// Whether the third is a name.
    pub c_named: bool,
}

/// Where a variable's name and its value begin, which takes the rest of the line.
pub fn env_places(line: &[u8], second: Option<usize>) -> Option<(usize, usize)>
    requires { IfSome second (λ at. at ≤ length line.now) }
    ensures none { IfNone result (length (words_from second line.now) < 2) }
    ensures words { IfSome result (λ p. words_from second line.now
        ≡ record { at = p.0; text = between p.0 p.1 line.now } ∷ words_at p.1 line.now) }
    ensures within { IfSome result (λ p. (p.0 < p.1) × (p.1 ≤ length line.now) × (0 < length (words_at p.1 line.now))) }
{
    let a = second?;
    let b = next_word(line, a)?;
    Some((a, b))
}

/// Where a side, an entity's name, an attribute's and its value begin, which takes the rest of the line, and whether the two are names.
#[inline(always)]
pub fn set_places(line: &[u8], second: Option<usize>) -> Option<SetPlaces>
    requires { IfSome second (λ at. at ≤ length line.now) }
    ensures none { IfNone result (length (words_from second line.now) < 4) }
    ensures words { IfSome result (λ p. words_from second line.now
        ≡ record { at = p.side; text = between p.side p.name line.now } ∷ record { at = p.name; text = between p.name p.attr line.now }
        ∷ record { at = p.attr; text = between p.attr p.value line.now } ∷ words_at p.value line.now) }
    ensures named { IfSome result (λ p. p.named ≡ is_name (between p.name p.attr line.now)) }
    ensures attr_named { IfSome result (λ p. p.attr_named ≡ is_name (between p.attr p.value line.now)) }
    ensures within { IfSome result (λ p. (p.side < p.name) × (p.name < p.attr) × (p.attr < p.value) × (p.value ≤ length line.now)
        × (0 < length (words_at p.value line.now))) }
{
    let side = second?;
    let name = next_word(line, side)?;
    let (attr, named) = name_then(line, name);
    let attr = attr?;
    let (value, attr_named) = name_then(line, attr);
    let value = value?;
    Some(SetPlaces {
        side,
        name,
        named,
        attr,
        attr_named,
        value,
    })
}

/// Where the words of an attribute's cell and its value begin, and whether those that are to be names are some.
#[derive(Clone, Copy)]
pub struct SetPlaces {
    /// The place of the side's letter.
    pub side: usize,
    /// The place of the entity's name.
    pub name: usize,
    /// Whether that word is a name.
    pub named: bool,
    /// The place of the attribute's name.
    pub attr: usize,
    /// Whether that word is a name.
    pub attr_named: bool,
    /// The place of the value, which takes the rest of the line, with its spaces.
    pub value: usize,
}
