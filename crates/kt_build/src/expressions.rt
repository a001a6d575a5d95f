//! What primary expressions, members, calls, branches and jumps are.
ghost use Rattle.std.specs.Prelude.{◌≡◌, [], IfOk};
ghost use Rattle.kt_tree.specs.Trees as trees;

use kt_parts::Queue;
use kt_parts::operators::{is_true, label_at, maybe_boxed};
use kt_parts::places::{kind_at, name_at, value_at};
use kt_tree::ast::{Access, ExprKind, Member};
use kt_tree::grammar::Built;
use kt_tree::{Kind, Tokens};
use sqlite_items::Boxed;
use std::alloc::{AllocError, Global};

#[tactic(auto, unfolding(kt_tree::specs::Trees::int))]
pub fn int(tokens: &Tokens, parts: &mut Queue<Built>) -> ExprKind
    ensures { result ≡ trees.int tokens.now parts.old }
{
    let t = parts.token();
    ExprKind::Int(value_at(tokens, t))
}

#[tactic(auto, unfolding(kt_tree::specs::Trees::boolean))]
pub fn boolean(tokens: &Tokens, parts: &mut Queue<Built>) -> ExprKind
    ensures { result ≡ trees.boolean tokens.now parts.old }
{
    let t = parts.token();
    ExprKind::Bool(is_true(tokens, t))
}

#[tactic(auto, unfolding(kt_tree::specs::Trees::null))]
pub fn null() -> ExprKind
    ensures { result ≡ trees.null [] }
{
    ExprKind::Null
}

#[tactic(auto, unfolding(kt_tree::specs::Trees::this))]
pub fn this() -> ExprKind
    ensures { result ≡ trees.this [] }
{
    ExprKind::This
}

#[tactic(auto, unfolding(kt_tree::specs::Trees::this_piece))]
pub fn this_piece() -> ExprKind
    ensures { result ≡ trees.this_piece [] }
{
    ExprKind::This
}

#[tactic(auto, unfolding(kt_tree::specs::Trees::name_kind))]
pub fn name_kind(tokens: &Tokens, parts: &mut Queue<Built>) -> ExprKind
    ensures { result ≡ trees.name_kind tokens.now parts.old }
{
    let t = parts.token();
    ExprKind::Name(name_at(tokens, t))
}

#[tactic(auto, unfolding(kt_tree::specs::Trees::template))]
pub fn template(
    alloc: Global,
    tokens: &Tokens,
    parts: &mut Queue<Built>,
) -> Result<ExprKind, AllocError>
    ensures { IfOk result (λ made. made ≡ trees.template tokens.now parts.old) }
{
    let _open = parts.token();
    let xs = parts.pieces(alloc, tokens)?;
    Ok(ExprKind::Template(xs))
}

#[tactic(auto, unfolding(kt_tree::specs::Trees::paren))]
pub fn paren(alloc: Global, parts: &mut Queue<Built>) -> Result<ExprKind, AllocError>
    ensures { IfOk result (λ made. made ≡ trees.paren parts.old) }
{
    let _open = parts.token();
    let x = parts.expr();
    Ok(ExprKind::Paren(Boxed::new(alloc, x)?))
}

#[tactic(auto, unfolding(kt_tree::specs::Trees::call_kind))]
pub fn call_kind(
    alloc: Global,
    tokens: &Tokens,
    parts: &mut Queue<Built>,
) -> Result<ExprKind, AllocError>
    ensures { IfOk result (λ made. made ≡ trees.call_kind tokens.now parts.old) }
{
    let callee = parts.ident(tokens);
    let xs = parts.exprs(alloc)?;
    let body = parts.maybe_lambda();
    Ok(ExprKind::Call {
        callee,
        arguments: xs,
        lambda: maybe_boxed(alloc, body)?,
    })
}

#[tactic(auto, unfolding(kt_tree::specs::Trees::member_kind))]
pub fn member_kind(
    alloc: Global,
    tokens: &Tokens,
    parts: &mut Queue<Built>,
) -> Result<ExprKind, AllocError>
    ensures { IfOk result (λ made. made ≡ trees.member_kind tokens.now parts.old) }
{
    let x = parts.expr();
    let called = parts.ident(tokens);
    Ok(ExprKind::Member {
        receiver: Boxed::new(alloc, x)?,
        access: Access::Dot,
        name: called,
    })
}

#[tactic(auto, unfolding(kt_tree::specs::Trees::safe_member))]
pub fn safe_member(
    alloc: Global,
    tokens: &Tokens,
    parts: &mut Queue<Built>,
) -> Result<ExprKind, AllocError>
    ensures { IfOk result (λ made. made ≡ trees.safe_member tokens.now parts.old) }
{
    let x = parts.expr();
    let called = parts.ident(tokens);
    Ok(ExprKind::Member {
        receiver: Boxed::new(alloc, x)?,
        access: Access::Safe,
        name: called,
    })
}

#[tactic(auto, unfolding(kt_tree::specs::Trees::member_call))]
pub fn member_call(
    alloc: Global,
    tokens: &Tokens,
    parts: &mut Queue<Built>,
) -> Result<ExprKind, AllocError>
    ensures { IfOk result (λ made. made ≡ trees.member_call tokens.now parts.old) }
{
    let x = parts.expr();
    let called = parts.ident(tokens);
    let xs = parts.exprs(alloc)?;
    Ok(ExprKind::MemberCall {
        receiver: Boxed::new(alloc, x)?,
        access: Access::Dot,
        name: called,
        arguments: xs,
    })
}

#[tactic(auto, unfolding(kt_tree::specs::Trees::safe_member_call))]
pub fn safe_member_call(
    alloc: Global,
    tokens: &Tokens,
    parts: &mut Queue<Built>,
) -> Result<ExprKind, AllocError>
    ensures { IfOk result (λ made. made ≡ trees.safe_member_call tokens.now parts.old) }
{
    let x = parts.expr();
    let called = parts.ident(tokens);
    let xs = parts.exprs(alloc)?;
    Ok(ExprKind::MemberCall {
        receiver: Boxed::new(alloc, x)?,
        access: Access::Safe,
        name: called,
        arguments: xs,
    })
}

#[tactic(auto, unfolding(kt_tree::specs::Trees::not_null))]
pub fn not_null(alloc: Global, parts: &mut Queue<Built>) -> Result<ExprKind, AllocError>
    ensures { IfOk result (λ made. made ≡ trees.not_null parts.old) }
{
    let x = parts.expr();
    Ok(ExprKind::NotNull(Boxed::new(alloc, x)?))
}

#[tactic(auto, unfolding(kt_tree::specs::Trees::if_kind))]
pub fn if_kind(alloc: Global, parts: &mut Queue<Built>) -> Result<ExprKind, AllocError>
    ensures { IfOk result (λ made. made ≡ trees.if_kind parts.old) }
{
    let _if = parts.token();
    let c = parts.expr();
    let x = parts.branch();
    let y = parts.maybe_branch();
    Ok(ExprKind::If {
        condition: Boxed::new(alloc, c)?,
        then: Boxed::new(alloc, x)?,
        otherwise: maybe_boxed(alloc, y)?,
    })
}

#[tactic(auto, unfolding(kt_tree::specs::Trees::when_kind))]
pub fn when_kind(alloc: Global, parts: &mut Queue<Built>) -> Result<ExprKind, AllocError>
    ensures { IfOk result (λ made. made ≡ trees.when_kind parts.old) }
{
    let _when = parts.token();
    let x = parts.maybe_subject();
    let xs = parts.when_branches(alloc)?;
    Ok(ExprKind::When {
        subject: maybe_boxed(alloc, x)?,
        branches: xs,
    })
}

#[tactic(auto, unfolding(kt_tree::specs::Trees::try_kind))]
pub fn try_kind(alloc: Global, parts: &mut Queue<Built>) -> Result<ExprKind, AllocError>
    ensures { IfOk result (λ made. made ≡ trees.try_kind parts.old) }
{
    let _try = parts.token();
    let x = parts.block(alloc);
    let xs = parts.catches(alloc)?;
    let y = parts.maybe_block();
    Ok(ExprKind::Try {
        body: Boxed::new(alloc, x)?,
        catches: xs,
        finally: maybe_boxed(alloc, y)?,
    })
}

#[tactic(auto, unfolding(kt_tree::specs::Trees::return_kind))]
pub fn return_kind(
    alloc: Global,
    tokens: &Tokens,
    parts: &mut Queue<Built>,
) -> Result<ExprKind, AllocError>
    ensures { IfOk result (λ made. made ≡ trees.return_kind tokens.now parts.old) }
{
    let t = parts.token();
    let x = parts.maybe_expr();
    Ok(ExprKind::Return {
        label: label_at(tokens, t),
        value: maybe_boxed(alloc, x)?,
    })
}

#[tactic(auto, unfolding(kt_tree::specs::Trees::throw))]
pub fn throw(alloc: Global, parts: &mut Queue<Built>) -> Result<ExprKind, AllocError>
    ensures { IfOk result (λ made. made ≡ trees.throw parts.old) }
{
    let _throw = parts.token();
    let x = parts.expr();
    Ok(ExprKind::Throw(Boxed::new(alloc, x)?))
}

#[tactic(auto, unfolding(kt_tree::specs::Trees::jump_kind))]
pub fn jump_kind(tokens: &Tokens, parts: &mut Queue<Built>) -> ExprKind
    ensures { result ≡ trees.jump_kind tokens.now parts.old }
{
    let t = parts.token();
    match kind_at(tokens, t) {
        Some(Kind::Continue) => ExprKind::Continue,
        _ => ExprKind::Break,
    }
}
