//! What operators and words among the parts mean.
ghost use Rattle.std.specs.Prelude.{◌≡◌, IfOk};
ghost use Rattle.std.specs.Option.{option_map};
ghost use Rattle.kt_tree.specs.Parts as parts;
ghost use Rattle.kt_tree.specs.Trees as trees;

use crate::places::{ident_at, kind_at, terminal_at};
use kt_tree::ast::{Arithmetic, Assignment, Comparison, Equality, Ident, Progression, Returned};
use kt_tree::grammar::Terminal;
use kt_tree::{Kind, Tokens};
use sqlite_items::Boxed;
use std::alloc::{AllocError, Global};

/// Whether the token is `true`.
pub fn is_true(tokens: &Tokens, at: u32) -> bool
    ensures { result ≡ trees.is_true (parts.kind_at tokens.now at) }
{
    match kind_at(tokens, at) {
        Some(Kind::True) => true,
        _ => false,
    }
}

/// Whether the token is `var`.
pub fn is_var(tokens: &Tokens, at: u32) -> bool
    ensures { result ≡ trees.is_var (parts.kind_at tokens.now at) }
{
    match kind_at(tokens, at) {
        Some(Kind::Var) => true,
        _ => false,
    }
}

/// The operator of a product.
pub fn factor(tokens: &Tokens, at: u32) -> Arithmetic
    ensures { result ≡ trees.factor (parts.kind_at tokens.now at) }
{
    match kind_at(tokens, at) {
        Some(Kind::Slash) => Arithmetic::Divide,
        Some(Kind::Percent) => Arithmetic::Remainder,
        _ => Arithmetic::Multiply,
    }
}

/// The operator of a comparison.
pub fn comparison(tokens: &Tokens, at: u32) -> Comparison
    ensures { result ≡ trees.comparison (parts.kind_at tokens.now at) }
{
    match kind_at(tokens, at) {
        Some(Kind::Greater) => Comparison::Greater,
        Some(Kind::LessEqual) => Comparison::LessOrEqual,
        Some(Kind::GreaterEqual) => Comparison::GreaterOrEqual,
        _ => Comparison::Less,
    }
}

/// The operator of an equality.
pub fn equality(tokens: &Tokens, at: u32) -> Equality
    ensures { result ≡ trees.equality (parts.kind_at tokens.now at) }
{
    match kind_at(tokens, at) {
        Some(Kind::NotEqual) => Equality::NotEqual,
        _ => Equality::Equal,
    }
}

/// How an assignment makes the new value.
pub fn assignment(tokens: &Tokens, at: u32) -> Assignment
    ensures { result ≡ trees.assignment (parts.kind_at tokens.now at) }
{
    match kind_at(tokens, at) {
        Some(Kind::PlusAssign) => Assignment::Sum,
        Some(Kind::PlusPlus) => Assignment::Sum,
        Some(Kind::MinusAssign) => Assignment::Arithmetic(Arithmetic::Subtract),
        Some(Kind::MinusMinus) => Assignment::Arithmetic(Arithmetic::Subtract),
        Some(Kind::StarAssign) => Assignment::Arithmetic(Arithmetic::Multiply),
        Some(Kind::SlashAssign) => Assignment::Arithmetic(Arithmetic::Divide),
        Some(Kind::PercentAssign) => Assignment::Arithmetic(Arithmetic::Remainder),
        _ => Assignment::Plain,
    }
}

/// How the numbers of a `for` go.
pub fn progression(tokens: &Tokens, at: u32) -> Progression
    ensures { result ≡ trees.progression (parts.terminal_at tokens.now at) }
{
    match terminal_at(tokens, at) {
        Terminal::Until => Progression::Until,
        Terminal::DownTo => Progression::DownTo,
        _ => Progression::RangeTo,
    }
}

/// The label of `return@label`.
pub fn label_at(tokens: &Tokens, at: u32) -> Option<Ident>
    ensures { result ≡ trees.label_at tokens.now at }
{
    match kind_at(tokens, at) {
        Some(Kind::ReturnAt(_)) => Some(ident_at(tokens, at)),
        _ => None,
    }
}

fn returned_of(tokens: &Tokens, at: u32) -> Returned
    ensures { result ≡ trees.returned_of (parts.kind_at tokens.now at) }
{
    match kind_at(tokens, at) {
        Some(Kind::True) => Returned::True,
        Some(Kind::False) => Returned::False,
        _ => Returned::Null,
    }
}

/// What an effect says is returned.
pub fn returned_literal(tokens: &Tokens, at: Option<u32>) -> Returned
    ensures { result ≡ trees.returned_literal tokens.now at }
{
    match at {
        Some(at) => returned_of(tokens, at),
        None => Returned::Normal,
    }
}

/// Whether a constructor's parameter is a `var`, where it is a property.
pub fn maybe_var(tokens: &Tokens, at: Option<u32>) -> Option<bool>
    ensures { result ≡ option_map (λ t. trees.is_var (parts.kind_at tokens.now t)) at }
{
    match at {
        Some(at) => Some(is_var(tokens, at)),
        None => None,
    }
}

/// The value in a box of its own.
pub fn maybe_boxed<T: Drop>(alloc: Global, value: Option<T>) -> Result<Option<Boxed<T>>, AllocError>
    ensures { IfOk result (λ b. b ≡ value) }
{
    match value {
        Some(value) => Ok(Some(Boxed::new(alloc, value)?)),
        None => Ok(None),
    }
}
