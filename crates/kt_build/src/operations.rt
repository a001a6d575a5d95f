//! What operations are.
ghost use Rattle.std.specs.Prelude.{◌≡◌, [], IfOk};
ghost use Rattle.kt_tree.specs.Trees as trees;

use kt_parts::Queue;
use kt_parts::operators::{comparison, equality, factor};
use kt_parts::places::kind_at;
use kt_tree::ast::{Arithmetic, ExprKind, Sign};
use kt_tree::grammar::Built;
use kt_tree::{Kind, Tokens};
use sqlite_items::Boxed;
use std::alloc::{AllocError, Global};

#[tactic(auto, unfolding(kt_tree::specs::Trees::prefixed_kind))]
pub fn prefixed_kind(
    alloc: Global,
    tokens: &Tokens,
    parts: &mut Queue<Built>,
) -> Result<ExprKind, AllocError>
    ensures { IfOk result (λ made. made ≡ trees.prefixed_kind tokens.now parts.old) }
{
    let t = parts.token();
    let x = parts.expr();
    Ok(match kind_at(tokens, t) {
        Some(Kind::Minus) => ExprKind::Sign(Sign::Minus, Boxed::new(alloc, x)?),
        Some(Kind::Plus) => ExprKind::Sign(Sign::Plus, Boxed::new(alloc, x)?),
        _ => ExprKind::Not(Boxed::new(alloc, x)?),
    })
}

#[tactic(auto, unfolding(kt_tree::specs::Trees::cast_kind))]
pub fn cast_kind(
    alloc: Global,
    tokens: &Tokens,
    parts: &mut Queue<Built>,
) -> Result<ExprKind, AllocError>
    ensures { IfOk result (λ made. made ≡ trees.cast_kind tokens.now parts.old) }
{
    let x = parts.expr();
    let t = parts.token();
    let ty = parts.written();
    Ok(match kind_at(tokens, t) {
        Some(Kind::AsSafe) => ExprKind::AsSafe(Boxed::new(alloc, x)?, ty),
        _ => ExprKind::As(Boxed::new(alloc, x)?, ty),
    })
}

#[tactic(auto, unfolding(kt_tree::specs::Trees::sum_kind))]
pub fn sum_kind(
    alloc: Global,
    tokens: &Tokens,
    parts: &mut Queue<Built>,
) -> Result<ExprKind, AllocError>
    ensures { IfOk result (λ made. made ≡ trees.sum_kind tokens.now parts.old) }
{
    let x = parts.expr();
    let t = parts.token();
    let y = parts.expr();
    Ok(match kind_at(tokens, t) {
        Some(Kind::Minus) => ExprKind::Arithmetic(
            Arithmetic::Subtract,
            Boxed::new(alloc, x)?,
            Boxed::new(alloc, y)?,
        ),
        _ => ExprKind::Sum(Boxed::new(alloc, x)?, Boxed::new(alloc, y)?),
    })
}

#[tactic(auto, unfolding(kt_tree::specs::Trees::product_kind))]
pub fn product_kind(
    alloc: Global,
    tokens: &Tokens,
    parts: &mut Queue<Built>,
) -> Result<ExprKind, AllocError>
    ensures { IfOk result (λ made. made ≡ trees.product_kind tokens.now parts.old) }
{
    let x = parts.expr();
    let t = parts.token();
    let y = parts.expr();
    Ok(ExprKind::Arithmetic(
        factor(tokens, t),
        Boxed::new(alloc, x)?,
        Boxed::new(alloc, y)?,
    ))
}

#[tactic(auto, unfolding(kt_tree::specs::Trees::compare_kind))]
pub fn compare_kind(
    alloc: Global,
    tokens: &Tokens,
    parts: &mut Queue<Built>,
) -> Result<ExprKind, AllocError>
    ensures { IfOk result (λ made. made ≡ trees.compare_kind tokens.now parts.old) }
{
    let x = parts.expr();
    let t = parts.token();
    let y = parts.expr();
    Ok(ExprKind::Compare(
        comparison(tokens, t),
        Boxed::new(alloc, x)?,
        Boxed::new(alloc, y)?,
    ))
}

#[tactic(auto, unfolding(kt_tree::specs::Trees::equal_kind))]
pub fn equal_kind(
    alloc: Global,
    tokens: &Tokens,
    parts: &mut Queue<Built>,
) -> Result<ExprKind, AllocError>
    ensures { IfOk result (λ made. made ≡ trees.equal_kind tokens.now parts.old) }
{
    let x = parts.expr();
    let t = parts.token();
    let y = parts.expr();
    Ok(ExprKind::Equal(
        equality(tokens, t),
        Boxed::new(alloc, x)?,
        Boxed::new(alloc, y)?,
    ))
}

#[tactic(auto, unfolding(kt_tree::specs::Trees::and_kind))]
pub fn and_kind(alloc: Global, parts: &mut Queue<Built>) -> Result<ExprKind, AllocError>
    ensures { IfOk result (λ made. made ≡ trees.and_kind parts.old) }
{
    let x = parts.expr();
    let y = parts.expr();
    Ok(ExprKind::And(Boxed::new(alloc, x)?, Boxed::new(alloc, y)?))
}

#[tactic(auto, unfolding(kt_tree::specs::Trees::or_kind))]
pub fn or_kind(alloc: Global, parts: &mut Queue<Built>) -> Result<ExprKind, AllocError>
    ensures { IfOk result (λ made. made ≡ trees.or_kind parts.old) }
{
    let x = parts.expr();
    let y = parts.expr();
    Ok(ExprKind::Or(Boxed::new(alloc, x)?, Boxed::new(alloc, y)?))
}

#[tactic(auto, unfolding(kt_tree::specs::Trees::elvis_kind))]
pub fn elvis_kind(alloc: Global, parts: &mut Queue<Built>) -> Result<ExprKind, AllocError>
    ensures { IfOk result (λ made. made ≡ trees.elvis_kind parts.old) }
{
    let x = parts.expr();
    let y = parts.expr();
    Ok(ExprKind::Elvis(Boxed::new(alloc, x)?, Boxed::new(alloc, y)?))
}

#[tactic(auto, unfolding(kt_tree::specs::Trees::is_type))]
pub fn is_type(
    alloc: Global,
    tokens: &Tokens,
    parts: &mut Queue<Built>,
) -> Result<ExprKind, AllocError>
    ensures { IfOk result (λ made. made ≡ trees.is_type tokens.now parts.old) }
{
    let x = parts.expr();
    let t = parts.token();
    let ty = parts.written();
    Ok(match kind_at(tokens, t) {
        Some(Kind::NotIs) => ExprKind::IsNot(Boxed::new(alloc, x)?, ty),
        _ => ExprKind::Is(Boxed::new(alloc, x)?, ty),
    })
}
