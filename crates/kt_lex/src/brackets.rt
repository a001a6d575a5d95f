//! The brackets that are open.
ghost use Rattle.std.specs.Prelude.{◌≡◌, ◌∷◌, List, OnOk, map, option_map, option_to_list};
ghost use Rattle.kt_tree.specs.Brackets as spec;
ghost use Rattle.kt_tree.specs.Lexemes.{fixed};
ghost use Rattle.kt_lex.specs.Opened.{bracket_of, bounds};

use kt_tree::{Kind, NoMemory, Span};

/// A bracket that is open.
#[derive(Clone, Copy, Debug, PartialEq, Eq)]
pub enum Bracket {
    Round,
    Square,
    Brace,
    /// The `${` of a string.
    Part,
    /// The quote that opened a string, and where it stands.
    Quote(Span),
}

/// Opens or closes a bracket, if the token is one. A closing bracket that doesn't fit the innermost one changes
/// nothing. `NoMemory` where none is left.
pub fn after(stack: &mut Vec<Bracket>, kind: &Kind, span: Span) -> Result<(), NoMemory>
    ensures { OnOk result (map bracket_of stack.new.items
        ≡ spec.brackets_after (fixed kind.now) span.start span.end (map bracket_of stack.old.items)) }
{
    if closes(kind, stack.last().copied()) {
        let _ = stack.pop();
        return Ok(());
    }
    if let Some(bracket) = opened(kind, span) {
        stack.push(bracket)?;
    }
    Ok(())
}

/// Whether the token closes this bracket.
fn closes(kind: &Kind, innermost: Option<Bracket>) -> bool
    ensures { result ≡ spec.closes kind.now (option_map bracket_of innermost) }
{
    match (kind, innermost) {
        (Kind::CloseRound, Some(Bracket::Round)) => true,
        (Kind::CloseSquare, Some(Bracket::Square)) => true,
        (Kind::CloseBrace, Some(Bracket::Brace)) => true,
        (Kind::CloseBrace, Some(Bracket::Part)) => true,
        (Kind::Close, Some(Bracket::Quote(_))) => true,
        _ => false,
    }
}

/// What the token opens.
fn opened(kind: &Kind, span: Span) -> Option<Bracket>
    ensures { option_to_list (option_map bracket_of result) ≡ spec.opened kind.now span.start span.end }
{
    match kind {
        Kind::OpenRound => Some(Bracket::Round),
        Kind::OpenSquare => Some(Bracket::Square),
        Kind::OpenBrace => Some(Bracket::Brace),
        Kind::ExprPart => Some(Bracket::Part),
        Kind::Open => Some(Bracket::Quote(span)),
        _ => None,
    }
}

/// Whether a line end counts here.
pub fn counts_lines(stack: &[Bracket]) -> bool
    ensures { result ≡ spec.counts_lines (map bracket_of stack.now) }
{
    match stack.last() {
        Some(Bracket::Round) => false,
        Some(Bracket::Square) => false,
        _ => true,
    }
}

/// Whether the innermost open bracket is a string's quote.
pub fn in_string(stack: &[Bracket]) -> bool
    ensures { result ≡ spec.in_string (map bracket_of stack.now) }
{
    match stack.last() {
        Some(Bracket::Quote(_)) => true,
        _ => false,
    }
}

/// The quote of the innermost string that is open.
pub fn open_quote(stack: &[Bracket]) -> Option<Span>
    ensures { option_map bounds result ≡ spec.open_quote (map bracket_of stack.now) }
{
    let mut found = None;
    for bracket in stack {
        found = later_quote(found, *bracket);
    }
    found
}

/// The bracket's own span if it's a quote, else the one found before.
fn later_quote(found: Option<Span>, bracket: Bracket) -> Option<Span>
    ensures { (more : List spec.Bracket) → spec.last_quote (option_map bounds result) more
        ≡ spec.last_quote (option_map bounds found) (bracket_of bracket ∷ more) }
{
    match bracket {
        Bracket::Quote(span) => Some(span),
        _ => found,
    }
}
