//! What stands at the front of a text within a string.
ghost use Rattle.std.specs.Prelude.{◌≡◌, ◌<◌, ◌&&◌, ◌==◌, length, string_bytes, option_map, IfOk, IfSome};
ghost use Rattle.std.specs.Str.{chars};
ghost use Rattle.kt_tree.specs.Moves as moves;
ghost use Rattle.kt_tree.specs.Strings as spec;
ghost use Rattle.kt_lex.specs.Scanning.{move_of};
ghost use Rattle.kt_lex.specs.Units as units;

use crate::characters::{begins_name, is_line_end};
use crate::keywords::{Keyword, keyword_of};
use crate::moves::Move;
use crate::words::{Word, split_run};
use kt_tree::text::{after_first, first, split_first};
use kt_tree::{Kind, NoMemory};
use std::alloc::Global;

/// What stands at the front within a string. `NoMemory` where none is left for what a piece of its text stands for.
#[tactic(auto, unfolding(kt_tree::specs::Moves::string_move))]
pub fn string_move(alloc: Global, s: &str) -> Result<Move<'_>, NoMemory>
    ensures { IfOk result (λ m. move_of m ≡ moves.string_move (chars s.now)) }
{
    let Some((c, rest)) = split_first(s) else {
        return Ok(Move::Unclosed);
    };
    if is_line_end(c) {
        return Ok(Move::Unclosed);
    }
    if c == '"' {
        return Ok(Move::Take(Word::Fixed(Kind::Close), rest));
    }
    if begins_part(c, rest) {
        return Ok(part(rest));
    }
    match unit(s) {
        Some(_) => piece_move(alloc, s),
        None => Ok(Move::Bad),
    }
}

/// What `$` begins before this.
fn part(rest: &str) -> Move<'_>
    ensures { move_of result ≡ units.part_move (chars rest.now) }
{
    if first(rest) == '{' {
        return Move::Take(Word::Fixed(Kind::ExprPart), after_first(rest));
    }
    let (word, after) = split_run(rest);
    match keyword_of(word) {
        None => Move::Take(Word::NamePart(word), after),
        Some(Keyword::This) => Move::Take(Word::Fixed(Kind::ThisPart), after),
        Some(_) => Move::Bad,
    }
}

/// Whether the character is a `$` that begins a part, before this.
fn begins_part(c: char, rest: &str) -> bool
    ensures { result ≡ (c == 36 && spec.begins_part (chars rest.now)) }
{
    c == '$' && (first(rest) == '{' || begins_name(first(rest)))
}

/// The longest piece of text at the front.
fn piece_move(alloc: Global, s: &str) -> Result<Move<'_>, NoMemory>
    ensures { IfOk result (λ m. units.IsPieceMove (chars s.now) (move_of m)) }
{
    let mut value = String::new(alloc);
    let mut rest = s;
    'units: while let Some((c, after)) = unit(rest) {
        value.push(c)?;
        rest = after;
    }
    Ok(Move::Take(Word::Piece(value), rest))
}

/// The character that the first one of a text stands for, or the escape at its front, and what follows it.
fn unit(s: &str) -> Option<(char, &str)>
    ensures value { option_map (λ p. (p.0, chars p.1.now)) result ≡ units.unit (chars s.now) }
    ensures shorter { IfSome result (λ p. length p.1.now < length s.now) }
{
    let (c, rest) = split_first(s)?;
    if c == '\\' {
        return escape(rest);
    }
    if c == '"' || is_line_end(c) || begins_part(c, rest) {
        return None;
    }
    Some((c, rest))
}

/// What an escape stands for, behind its backslash, and what follows it.
fn escape(s: &str) -> Option<(char, &str)>
    ensures value { option_map (λ p. (p.0, chars p.1.now)) result ≡ units.escape (chars s.now) }
    ensures shorter { IfSome result (λ p. length p.1.now < length s.now) }
{
    let (c, rest) = split_first(s)?;
    if c == 'u' {
        return unicode_escape(rest);
    }
    let value = simple_escape(c)?;
    Some((value, rest))
}

fn simple_escape(c: char) -> Option<char>
    ensures { result ≡ spec.simple_escape c }
{
    match c {
        't' => Some('\t'),
        'b' => Some('\u{8}'),
        'n' => Some('\n'),
        'r' => Some('\r'),
        '\'' | '"' | '\\' | '$' => Some(c),
        _ => None,
    }
}

/// The character of four hexadecimal digits, and what follows them.
fn unicode_escape(s: &str) -> Option<(char, &str)>
    ensures value { option_map (λ p. (p.0, chars p.1.now)) result ≡ units.unicode (chars s.now) }
    ensures shorter { IfSome result (λ p. length p.1.now < length s.now) }
{
    let (a, after_a) = split_first(s)?;
    let (b, after_b) = split_first(after_a)?;
    let (c, after_c) = split_first(after_b)?;
    let (d, rest) = split_first(after_c)?;
    let value = code_unit(a, b, c, d)?;
    Some((value, rest))
}

/// The character of four hexadecimal digits that are no surrogate.
fn code_unit(a: char, b: char, c: char, d: char) -> Option<char>
    ensures { result ≡ units.code_unit_of a b c d }
{
    let a = a.to_digit(16)?;
    let b = b.to_digit(16)?;
    let c = c.to_digit(16)?;
    let d = d.to_digit(16)?;
    char::from_u32(((a * 16 + b) * 16 + c) * 16 + d)
}
