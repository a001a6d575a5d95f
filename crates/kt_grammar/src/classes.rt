//! Classes of tokens.
ghost use Rattle.std.specs.Prelude.{◌≡◌, ◌≤◌, ◌+◌, length, slice_get};
ghost use Rattle.std.specs.Option.{option_copied};
ghost use Rattle.kt_tree.specs.Classes as spec;
ghost use Rattle.kt_grammar.specs.Lookup as lookup;

use crate::roles::{is_identifier, is_modifier, wants_brace, wants_round};
use crate::words::word_of;
use kt_tree::grammar::{Class, Terminal as T};
use kt_tree::{Kind, Names, Token, Tokens};

/// Whether both are one terminal.
#[tactic(auto, unfolding(kt_tree::specs::Classes::same_terminal))]
pub fn same_terminal(a: T, b: T) -> bool
    ensures { result ≡ spec.same_terminal a b }
{
    a == b
}

/// Whether the terminal that is found is the expected one. Any identifier is an `Id`.
pub fn stands_for(expected: T, found: T) -> bool
    ensures { result ≡ spec.stands_for expected found }
{
    if same_terminal(expected, T::Id) {
        is_identifier(found)
    } else {
        same_terminal(expected, found)
    }
}

/// The terminal of an identifier, by its number in the name table.
fn identifier_of(names: &Names, number: u32) -> T
    ensures { result ≡ spec.word_of (slice_get names.now number) }
{
    if (number as usize) < names.len() {
        word_of(names.text(number))
    } else {
        T::Id
    }
}

/// A `match` that gives each kind of token that is named as its terminal that terminal.
macro_rules! named_alike {
    ($kind:expr, [$($alike:ident)*], $($other:pat => $terminal:expr,)*) => {
        match $kind {
            $(Kind::$alike => T::$alike,)*
            $($other => $terminal,)*
        }
    };
}

fn terminal_of(names: &Names, kind: &Kind) -> T
    ensures { result ≡ spec.terminal_of names.now kind.now }
{
    named_alike!(kind, [
        As Break Class Continue Do Else False For Fun If In Interface Is Null Object Package Return Super This
        Throw True Try Typealias Typeof Val Var When While AsSafe NotIs NotIn OpenRound CloseRound OpenBrace
        CloseBrace OpenSquare CloseSquare Dot Comma Semicolon Colon ColonColon Assign Equal NotEqual Less
        Greater LessEqual GreaterEqual Plus Minus Star Slash Percent Not NotNull And Or Question SafeDot Elvis
        Range Arrow PlusAssign MinusAssign StarAssign SlashAssign PercentAssign PlusPlus MinusMinus At
    ],
        Kind::Id(number) => identifier_of(names, *number),
        Kind::ReturnAt(_) => T::ReturnAt,
        Kind::Int(_) => T::Int,
        Kind::Text(_) => T::TextPart,
        Kind::NamePart(_) => T::NamePart,
        Kind::Open => T::OpenString,
        Kind::ThisPart => T::ThisPart,
        Kind::ExprPart => T::ExprPart,
        Kind::Close => T::CloseString,
        Kind::End => T::End,
    )
}

fn terminal_or_end(names: &Names, token: Option<&Token>) -> T
    ensures { result ≡ spec.terminal_or_end names.now (option_copied token.entry) }
{
    match token {
        Some(token) => terminal_of(names, &token.kind),
        None => T::End,
    }
}

/// Whether it is an identifier that the grammar names.
pub fn is_word(terminal: T) -> bool
    ensures { result ≡ lookup.is_word terminal }
{
    is_identifier(terminal) && !same_terminal(terminal, T::Id)
}

/// What a terminal means before the one that follows it.
fn meaning(terminal: T, next: T) -> T
    ensures { result ≡ spec.meaning terminal next }
{
    if wants_brace(terminal) {
        return if same_terminal(next, T::OpenBrace) {
            terminal
        } else {
            T::Id
        };
    }
    if wants_round(terminal) {
        return if same_terminal(next, T::OpenRound) {
            terminal
        } else {
            T::Id
        };
    }
    if is_modifier(terminal) {
        return if same_terminal(next, T::Colon) {
            T::Id
        } else {
            terminal
        };
    }
    match terminal {
        T::Else => {
            if same_terminal(next, T::Arrow) {
                T::ElseArrow
            } else {
                T::Else
            }
        }
        _ => terminal,
    }
}

fn is_leading(next: T) -> bool
    ensures { result ≡ spec.is_leading next }
{
    same_terminal(next, T::Arrow) || same_terminal(next, T::Comma) || same_terminal(next, T::Colon)
}

fn is_fresh(token: Option<&Token>) -> bool
    ensures { result ≡ spec.is_fresh (option_copied token.entry) }
{
    match token {
        Some(token) => token.fresh,
        None => false,
    }
}

/// The class of the token at a place, from 0; just past the last token it is that of the end. Takes no memory.
#[tactic(auto, unfolding(kt_tree::specs::Classes::class_at))]
pub fn class_of(tokens: &Tokens, at: usize) -> Class
    requires { at ≤ length tokens.now.list }
    ensures { result ≡ spec.class_at tokens.now at }
{
    let token = tokens.list.get(at);
    let next = terminal_or_end(&tokens.names, tokens.list.get(at + 1));
    Class {
        terminal: meaning(terminal_or_end(&tokens.names, token), next),
        fresh: is_fresh(token),
        leads: is_leading(next),
    }
}
