//! A line's words.

ghost use Rattle.std.specs.Prelude.{◌≡◌, ◌+◌, ◌<◌, ◌≤◌, ◌==◌, ◌∷◌, length, map, not, position, drop, IfOk, IfSome, None};
ghost use Rattle.ucon_base.specs.NameBytes.{is_name, is_word_byte};
ghost use Rattle.ucon_model.specs.CommandLine.{words_of};
ghost use Rattle.ucon_reply.specs.Words.{BeginWithin, between, word_of, word_to, words_at, words_from};

use crate::kinds::is_name;
use std::alloc::Global;
use ucon_base::{NoMemory, is_letter, is_word_byte};

/// A word of a line, and the place where it begins.
#[derive(Clone, Copy)]
pub struct Word<'a> {
    pub at: usize,
    pub text: &'a [u8],
}

/// The word that begins at this place, and behind which the next one begins at the other.
pub fn word_between(line: &[u8], at: usize, next: usize) -> Word<'_>
    requires order { at < next }
    requires within { next ≤ length line.now }
    ensures { word_of result ≡ record { at = at; text = between at next line.now } }
{
    Word {
        at,
        text: &line[at..next - 1],
    }
}

/// The word that takes the rest of the line.
pub fn last_word(line: &[u8], at: usize) -> Word<'_>
    requires { at ≤ length line.now }
    ensures { word_of result ≡ record { at = at; text = drop at line.now } }
{
    Word {
        at,
        text: &line[at..],
    }
}

/// The place of the word behind the one that begins at this place, if there is one.
pub fn next_word(line: &[u8], at: usize) -> Option<usize>
    requires { at ≤ length line.now }
    ensures words { words_at at line.now ≡ word_to at result line.now ∷ words_from result line.now }
    ensures within { IfSome result (λ next. (at < next) × (next ≤ length line.now)) }
    ensures more { IfSome result (λ next. 0 < length (words_at next line.now)) }
{
    match first_space(&line[at..]) {
        Some(len) => Some(at + len + 1),
        None => None,
    }
}

/// The place of the word behind the one that begins at this place, if there is one, and whether that one is a name. One look at a name's bytes tells
/// both.
#[inline(always)]
pub fn name_then(line: &[u8], at: usize) -> (Option<usize>, bool)
    requires { at ≤ length line.now }
    ensures words { words_at at line.now ≡ word_to at result.0 line.now ∷ words_from result.0 line.now }
    ensures name { result.1 ≡ is_name (word_to at result.0 line.now).text }
    ensures within { IfSome result.0 (λ next. (at < next) × (next ≤ length line.now)) }
    ensures more { IfSome result.0 (λ next. 0 < length (words_at next line.now)) }
{
    let rest = &line[at..];
    match first_other(rest) {
        None => (None, is_named(rest)),
        Some(len) if rest[len] == b' ' => (Some(at + len + 1), is_named(&rest[..len])),
        Some(_) => any_then(line, at),
    }
}

/// The same of a word that may have any bytes.
fn any_then(line: &[u8], at: usize) -> (Option<usize>, bool)
    requires { at ≤ length line.now }
    ensures words { words_at at line.now ≡ word_to at result.0 line.now ∷ words_from result.0 line.now }
    ensures name { result.1 ≡ is_name (word_to at result.0 line.now).text }
    ensures within { IfSome result.0 (λ next. (at < next) × (next ≤ length line.now)) }
    ensures more { IfSome result.0 (λ next. 0 < length (words_at next line.now)) }
{
    match next_word(line, at) {
        Some(next) => (Some(next), is_name(word_between(line, at, next).text)),
        None => (None, is_name(last_word(line, at).text)),
    }
}

/// Whether bytes that may all stand in a name are one.
fn is_named(word: &[u8]) -> bool
    requires { position (λ b. not (is_word_byte b)) word.now ≡ None }
    ensures { result ≡ is_name word.now }
{
    match word {
        [] => false,
        [first, ..] => is_letter(*first) && word.len() <= 32,
    }
}

/// The first byte that may not stand in a name.
fn first_other(bytes: &[u8]) -> Option<usize>
    ensures place { result ≡ position (λ b. not (is_word_byte b)) bytes.now }
    ensures within { IfSome result (λ i. i < length bytes.now) }
{
    bytes.iter().position(|b| !is_word_byte(*b))
}

/// How many words a line has.
pub fn word_count(line: &[u8]) -> usize
    ensures { result ≡ length (words_of line.now) }
{
    let mut count = 1;
    let mut at = 0;
    while let Some(next) = next_word(line, at) {
        count += 1;
        at = next;
    }
    count
}

/// The words of a line, which stand between single spaces.
pub fn words<'a>(alloc: Global, line: &'a [u8]) -> Result<Vec<Word<'a>>, NoMemory>
    ensures words { IfOk result (λ ws. map word_of ws.items ≡ words_of line.now) }
    ensures within { IfOk result (λ ws. BeginWithin line.now ws.items) }
{
    let mut words = Vec::new(alloc);
    let mut at = 0;
    let mut rest = line;
    while let Some(len) = first_space(rest) {
        let (text, after) = rest.split_at(len);
        let (_space, next) = after.split_at(1);
        words.push(Word { at, text })?;
        at += len + 1;
        rest = next;
    }
    words.push(Word { at, text: rest })?;
    Ok(words)
}

fn first_space(bytes: &[u8]) -> Option<usize>
    ensures place { result ≡ position (λ b. b == 32) bytes.now }
    ensures within { IfSome result (λ i. i < length bytes.now) }
{
    bytes.iter().position(|b| *b == b' ')
}
