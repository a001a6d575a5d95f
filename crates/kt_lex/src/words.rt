//! Words: the tokens outside strings, and the runs of characters of which names are made.
ghost use Rattle.std.specs.Prelude.{◌≡◌, ℕ, ◌+◌, ◌<◌, ◌++◌, List, true, length, Some, option_map, IfSome, encode_utf8};
ghost use Rattle.std.specs.Str.{chars};
ghost use Rattle.kt_tree.specs.Characters.{begins_name, continues_name};
ghost use Rattle.kt_tree.specs.Integers as integers;
ghost use Rattle.kt_tree.specs.Longest.{token_at};
ghost use Rattle.kt_tree.specs.Text as text;
ghost use Rattle.kt_tree.specs.Words.{lexeme};
ghost use Rattle.kt_lex.specs.Operators.{kind_of};
ghost use Rattle.kt_lex.specs.Reading.{read_of};
ghost use Rattle.kt_lex.specs.Steps as steps;

use crate::characters::{begins_name, continues_name};
use crate::integers::integer;
use crate::keywords::keyword_of;
use crate::operators::{Operator, operator_of};
use kt_tree::Kind;
use kt_tree::text::{first, split_first};

/// A token whose name has no number yet.
#[derive(Debug, Drop)]
pub enum Word<'a> {
    /// A hard keyword, an operator or a mark of a string.
    Fixed(Kind),
    Name(&'a str),
    /// The name behind `return@`.
    ReturnAt(&'a str),
    Number(u32),
    /// What a piece of a string's text stands for.
    Piece(String),
    /// The name behind a `$` in a string.
    NamePart(&'a str),
}

/// What follows the first character, if that continues an identifier.
#[inline]
fn strip_continuing(s: &str) -> Option<&str>
    ensures parts { option_map (λ p. chars p.now) result ≡ steps.strip_if continues_name (chars s.now) }
    ensures cut { IfSome result (λ p. (c : ℕ) × (s.now ≡ encode_utf8 c ++ p.now)) }
    ensures shorter { IfSome result (λ p. length p.now < length s.now) }
{
    let (c, rest) = split_first(s)?;
    if continues_name(c) { Some(rest) } else { None }
}

/// The front of the text before the rest, which is its end.
fn front_before<'a>(s: &'a str, rest: &str) -> &'a str
    requires { (front : List ℕ) × (s.now ≡ front ++ rest.now) }
    ensures { s.now ≡ result.now ++ rest.now }
{
    let (front, _rest) = s.split_at(s.len() - rest.len());
    front
}

/// The characters at the front that continue an identifier, and what follows them.
pub fn split_run(s: &str) -> (&str, &str)
    ensures run { chars result.0.now ≡ text.run continues_name (chars s.now) }
    ensures rest { chars result.1.now ≡ text.after_run continues_name (chars s.now) }
{
    let mut rest = s;
    'characters: while let Some(after) = strip_continuing(rest) {
        rest = after;
    }
    (front_before(s, rest), rest)
}

/// The first n characters, and what follows them.
fn split_after(s: &str, n: usize) -> Option<(&str, &str)>
    ensures { option_map (λ p. (chars p.0.now, chars p.1.now)) result ≡ steps.split_after n (chars s.now) }
{
    let mut rest = s;
    for _ in 0..n {
        let (_, after) = split_first(rest)?;
        rest = after;
    }
    Some((front_before(s, rest), rest))
}

/// What follows the front, if the text begins with it.
fn strip_text<'a>(s: &'a str, front: &str) -> Option<&'a str>
    ensures { option_map (λ p. chars p.now) result ≡ steps.strip_text (chars front.now) (chars s.now) }
{
    let mut rest = s;
    let mut left = front;
    'characters: while let Some((c, more)) = split_first(left) {
        let (d, after) = split_first(rest)?;
        if c != d {
            return None;
        }
        left = more;
        rest = after;
    }
    Some(rest)
}

/// The name behind a `return@` at the front, and what follows it.
fn label_at(s: &str) -> Option<(&str, &str)>
    ensures { option_map (λ p. (chars p.0.now, chars p.1.now)) result ≡ steps.label_at (chars s.now) }
{
    let rest = strip_text(s, "return@")?;
    if !begins_name(first(rest)) {
        return None;
    }
    let (name, after) = split_run(rest);
    match keyword_of(name) {
        Some(_) => None,
        None => Some((name, after)),
    }
}

/// The longest token at the front, where an identifier begins there, and what follows it.
fn word_at(s: &str) -> (Word<'_>, &str)
    requires { begins_name (text.first (chars s.now)) ≡ true }
    ensures { Some (read_of result) ≡ token_at lexeme (chars s.now) }
{
    if let Some(rest) = strip_text(s, "as?") {
        return (Word::Fixed(Kind::AsSafe), rest);
    }
    if let Some((name, rest)) = label_at(s) {
        return (Word::ReturnAt(name), rest);
    }
    let (name, rest) = split_run(s);
    match keyword_of(name) {
        Some(keyword) => (Word::Fixed(keyword.kind()), rest),
        None => (Word::Name(name), rest),
    }
}

/// The longest token at the front, where a digit stands there, and what follows it.
#[tactic(auto, unfolding(crate::specs::Steps::integer_at))]
fn number_at(s: &str) -> Option<(Word<'_>, &str)>
    ensures { option_map read_of result ≡ steps.integer_at (chars s.now) }
{
    let (digits, rest) = split_run(s);
    if bars_integer(rest) {
        return None;
    }
    let value = integer(digits)?;
    Some((Word::Number(value), rest))
}

/// Whether no integer stands before this.
fn bars_integer(rest: &str) -> bool
    ensures { result ≡ integers.bars_integer (chars rest.now) }
{
    match split_first(rest) {
        Some((c, after)) => continues_name(c) || (c == '.' && first(after).is_ascii_digit()),
        None => false,
    }
}

/// The operator that the first n characters are, and what follows it.
fn operator_of_front(s: &str, n: usize) -> Option<(Operator, &str)>
    ensures { option_map (λ p. (kind_of p.0, chars p.1.now)) result ≡ steps.operator_of_front n (chars s.now) }
{
    let (front, rest) = split_after(s, n)?;
    let operator = operator_of(front)?;
    if operator.is_word() && continues_name(first(rest)) {
        return None;
    }
    Some((operator, rest))
}

/// The longest operator at the front, and what follows it.
#[tactic(auto, unfolding(crate::specs::Steps::operator_at))]
fn operator_at(s: &str) -> Option<(Word<'_>, &str)>
    ensures { option_map read_of result ≡ steps.operator_at (chars s.now) }
{
    if let Some((operator, rest)) = operator_of_front(s, 3) {
        return Some((Word::Fixed(operator.kind()), rest));
    }
    if let Some((operator, rest)) = operator_of_front(s, 2) {
        return Some((Word::Fixed(operator.kind()), rest));
    }
    let (operator, rest) = operator_of_front(s, 1)?;
    Some((Word::Fixed(operator.kind()), rest))
}

/// The longest token at the front, and what follows it.
pub fn word_or_none(s: &str) -> Option<(Word<'_>, &str)>
    ensures { option_map read_of result ≡ token_at lexeme (chars s.now) }
{
    let c = first(s);
    if begins_name(c) {
        Some(word_at(s))
    } else if c.is_ascii_digit() {
        number_at(s)
    } else {
        operator_at(s)
    }
}
