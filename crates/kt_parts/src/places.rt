//! Tokens by their places.
ghost use Rattle.std.specs.Prelude.{◌≡◌, IfOk};
ghost use Rattle.std.specs.Option.{option_copied};
ghost use Rattle.kt_tree.specs.Parts as spec;
ghost use Rattle.kt_tree.specs.Parts.{Gives};

use crate::blanks::nowhere;
use crate::queue::Queue;
use kt_grammar::class_of;
use kt_tree::ast::{Expr, Ident, Modifier, ModifierKind, StringPart};
use kt_tree::grammar::{Built, Terminal};
use kt_tree::{Kind, Span, Tokens};
use sqlite_items::Items;
use std::alloc::{AllocError, Global};

/// What the token at this place is.
pub fn kind_at(tokens: &Tokens, at: u32) -> Option<&Kind>
    ensures { option_copied result ≡ spec.kind_at tokens.now at }
{
    match tokens.list.get(at as usize) {
        Some(token) => Some(&token.kind),
        None => None,
    }
}

/// Where the token at this place stands.
pub fn span_at(tokens: &Tokens, at: u32) -> Span
    ensures { result ≡ spec.span_at tokens.now at }
{
    match tokens.list.get(at as usize) {
        Some(token) => token.span,
        None => nowhere(),
    }
}

/// From the first token up to the one before the last place.
pub fn span_between(tokens: &Tokens, first: u32, last: u32) -> Span
    ensures { result ≡ spec.span_between tokens.now first last }
{
    Span {
        start: span_at(tokens, first).start,
        end: span_at(tokens, last.saturating_sub(1)).end,
    }
}

/// The name that the token has.
pub fn name_at(tokens: &Tokens, at: u32) -> u32
    ensures { result ≡ spec.named (spec.kind_at tokens.now at) }
{
    match kind_at(tokens, at) {
        Some(Kind::Id(name)) => *name,
        Some(Kind::NamePart(name)) => *name,
        Some(Kind::ReturnAt(name)) => *name,
        _ => 0,
    }
}

/// The value that the token has.
pub fn value_at(tokens: &Tokens, at: u32) -> u32
    ensures { result ≡ spec.valued (spec.kind_at tokens.now at) }
{
    match kind_at(tokens, at) {
        Some(Kind::Int(value)) => *value,
        _ => 0,
    }
}

/// The bytes that the token stands for.
fn bytes_at(alloc: Global, tokens: &Tokens, at: u32) -> Result<Items<u8>, AllocError>
    ensures { IfOk result (λ bytes. bytes ≡ spec.bytes_of (spec.kind_at tokens.now at)) }
{
    match kind_at(tokens, at) {
        Some(Kind::Text(bytes)) => Items::from_slice(alloc, bytes.as_slice()),
        _ => Ok(Items::new(alloc)),
    }
}

pub fn ident_at(tokens: &Tokens, at: u32) -> Ident
    ensures { result ≡ spec.ident_at tokens.now at }
{
    Ident {
        name: name_at(tokens, at),
        span: span_at(tokens, at),
    }
}

/// The terminal of the token at this place.
pub fn terminal_at(tokens: &Tokens, at: u32) -> Terminal
    ensures { result ≡ spec.terminal_at tokens.now at }
{
    if (at as usize) < tokens.list.len() {
        class_of(tokens, at as usize).terminal
    } else {
        Terminal::End
    }
}

fn modifier_kind(terminal: Terminal) -> ModifierKind
    ensures { result ≡ spec.modifier_kind terminal }
{
    match terminal {
        Terminal::Private => ModifierKind::Private,
        Terminal::Open => ModifierKind::Open,
        Terminal::Abstract => ModifierKind::Abstract,
        Terminal::Final => ModifierKind::Final,
        Terminal::Override => ModifierKind::Override,
        Terminal::Inline => ModifierKind::Inline,
        _ => ModifierKind::Public,
    }
}

/// The word without the `$` before it.
pub fn after_dollar(span: Span) -> Span
    ensures { result ≡ spec.after_dollar span }
{
    Span {
        start: span.start.saturating_add(1),
        end: span.end,
    }
}

impl Queue<Built> {
    pub fn ident(&mut self, tokens: &Tokens) -> Ident
        ensures { Gives (spec.ident tokens.now) self.old result self.new }
    {
        let at = self.token();
        ident_at(tokens, at)
    }

    pub fn maybe_ident(&mut self, tokens: &Tokens) -> Option<Ident>
        ensures { Gives (spec.maybe_ident tokens.now) self.old result self.new }
    {
        match self.maybe_token() {
            Some(at) => Some(ident_at(tokens, at)),
            None => None,
        }
    }

    pub fn modifier(&mut self, tokens: &Tokens) -> Modifier
        ensures { Gives (spec.modifier tokens.now) self.old result self.new }
    {
        let at = self.token();
        Modifier {
            kind: modifier_kind(terminal_at(tokens, at)),
            span: span_at(tokens, at),
        }
    }

    pub fn string_piece(&mut self, alloc: Global, tokens: &Tokens) -> Result<StringPart, AllocError>
        ensures { IfOk result (λ piece. Gives (spec.string_piece tokens.now) self.old piece self.new) }
    {
        match self.pop() {
            Some(Built::Expr(expr)) => Ok(StringPart::Inserted(expr)),
            Some(Built::Token(at)) => Ok(StringPart::Text(bytes_at(alloc, tokens, at)?)),
            _ => Ok(StringPart::Text(Items::new(alloc))),
        }
    }
}
