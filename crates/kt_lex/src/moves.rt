//! What stands at the front of a text.
ghost use Rattle.std.specs.Prelude.{◌≡◌, ◌&&◌, ◌==◌, map, option_map, IfOk};
ghost use Rattle.std.specs.Str.{chars};
ghost use Rattle.kt_tree.specs.Moves as spec;
ghost use Rattle.kt_tree.specs.Text as text;
ghost use Rattle.kt_lex.specs.Opened.{bracket_of};
ghost use Rattle.kt_lex.specs.Scanning.{move_of};

use crate::brackets::{Bracket, in_string};
use crate::characters::{is_line_end, is_space};
use crate::strings::string_move;
use crate::words::{Word, word_or_none};
use kt_tree::NoMemory;
use kt_tree::text::{after_first, first, split_first};
use std::alloc::Global;

/// What stands at the front, and what follows it.
#[derive(Debug, Drop)]
pub enum Move<'a> {
    /// A space, a line end or a comment. The flag says that it is a line end.
    Skip(bool, &'a str),
    /// The longest token.
    Take(Word<'a>, &'a str),
    /// The end of the file.
    Stop,
    /// The end of a line or of the file, within a string.
    Unclosed,
    /// Nothing of these.
    Bad,
}

/// What stands at the front of the rest, where these brackets are open. `NoMemory` where a piece of a string finds none.
pub fn next_move<'a>(alloc: Global, stack: &[Bracket], rest: &'a str) -> Result<Move<'a>, NoMemory>
    ensures { IfOk result (λ m. move_of m ≡ spec.next_move (map bracket_of stack.now) (chars rest.now)) }
{
    if in_string(stack) {
        string_move(alloc, rest)
    } else {
        Ok(front_move(rest))
    }
}

/// What stands at the front, outside strings.
#[tactic(auto, unfolding(kt_tree::specs::Moves::front_move))]
fn front_move(s: &str) -> Move<'_>
    ensures { move_of result ≡ spec.front_move (chars s.now) }
{
    let Some((c, rest)) = split_first(s) else {
        return Move::Stop;
    };
    if is_space(c) {
        return Move::Skip(false, rest);
    }
    if is_line_end(c) {
        return Move::Skip(true, rest);
    }
    if c == '/' && first(rest) == '/' {
        return Move::Skip(false, after_line(rest));
    }
    if c == '/' && first(rest) == '*' {
        return match comment_end(after_first(rest)) {
            Some(after) => Move::Skip(false, after),
            None => Move::Bad,
        };
    }
    match word_or_none(s) {
        Some((word, after)) => Move::Take(word, after),
        None => Move::Bad,
    }
}

/// What follows the line, from its end on.
fn after_line(s: &str) -> &str
    ensures { chars result.now ≡ text.after_run spec.is_in_line (chars s.now) }
{
    let mut rest = s;
    'characters: while let Some((c, after)) = split_first(rest) {
        if is_line_end(c) {
            return rest;
        }
        rest = after;
    }
    rest
}

/// What follows the `*/` that closes a comment, which its inner ones may come before.
fn comment_end(s: &str) -> Option<&str>
    ensures { option_map (λ p. chars p.now) result ≡ spec.comment_end 0 (chars s.now) }
{
    let mut rest = s;
    let mut inner = 0usize;
    'characters: loop {
        let (c, after) = split_first(rest)?;
        let (d, after_two) = split_first(after)?;
        if closes_comment(c, d) {
            if inner == 0 {
                return Some(after_two);
            }
            inner -= 1;
            rest = after_two;
        } else if opens_comment(c, d) {
            inner += 1;
            rest = after_two;
        } else {
            rest = after;
        }
    }
}

#[inline]
fn closes_comment(c: char, d: char) -> bool
    ensures { result ≡ (c == 42 && d == 47) }
{
    c == '*' && d == '/'
}

#[inline]
fn opens_comment(c: char, d: char) -> bool
    ensures { result ≡ (c == 47 && d == 42) }
{
    c == '/' && d == '*'
}
