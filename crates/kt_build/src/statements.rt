//! What statements, blocks, lambdas and the parts of branches are.
ghost use Rattle.std.specs.Prelude.{◌≡◌, [], IfOk};
ghost use Rattle.kt_tree.specs.Trees as trees;

use kt_parts::Queue;
use kt_parts::operators::{assignment, is_var, progression};
use kt_parts::places::{kind_at, span_at};
use kt_tree::ast::{Block, Catch, Condition, Lambda, LambdaParameter, Stmt, Subject, WhenBranch};
use kt_tree::grammar::Built;
use kt_tree::{Kind, Span, Tokens};
use sqlite_items::Boxed;
use std::alloc::{AllocError, Global};

#[tactic(auto, unfolding(kt_tree::specs::Trees::lambda))]
pub fn lambda(
    alloc: Global,
    number: u32,
    span: Span,
    parts: &mut Queue<Built>,
) -> Result<Built, AllocError>
    ensures { IfOk result (λ made. made ≡ trees.lambda number span parts.old) }
{
    let _open = parts.token();
    let xs = parts.lambda_parameters(alloc)?;
    let ss = parts.stmts(alloc)?;
    Ok(Built::Lambda(Lambda {
        number,
        span,
        parameters: xs,
        body: Block {
            span,
            statements: ss,
        },
    }))
}

#[tactic(auto, unfolding(kt_tree::specs::Trees::lambda_parameter_form))]
pub fn lambda_parameter_form(tokens: &Tokens, parts: &mut Queue<Built>) -> Built
    ensures { result ≡ trees.lambda_parameter_form tokens.now parts.old }
{
    let x = parts.ident(tokens);
    let ty = parts.maybe_type();
    Built::LambdaParameter(LambdaParameter {
        name: x,
        written: ty,
    })
}

#[tactic(auto, unfolding(kt_tree::specs::Trees::local))]
pub fn local(tokens: &Tokens, number: u32, span: Span, parts: &mut Queue<Built>) -> Built
    ensures { result ≡ trees.local tokens.now number span parts.old }
{
    let t = parts.token();
    let x = parts.ident(tokens);
    let ty = parts.maybe_type();
    let v = parts.maybe_expr();
    Built::Stmt(Stmt::Local {
        number,
        span,
        is_var: is_var(tokens, t),
        name: x,
        written: ty,
        value: v,
    })
}

#[tactic(auto, unfolding(kt_tree::specs::Trees::assignment_form))]
pub fn assignment_form(tokens: &Tokens, number: u32, span: Span, parts: &mut Queue<Built>) -> Built
    ensures { result ≡ trees.assignment_form tokens.now number span parts.old }
{
    let x = parts.expr();
    let t = parts.token();
    let v = parts.maybe_expr();
    Built::Stmt(Stmt::Assign {
        number,
        span,
        target: x,
        assignment: assignment(tokens, t),
        value: v,
    })
}

#[tactic(auto, unfolding(kt_tree::specs::Trees::while_loop))]
pub fn while_loop(
    alloc: Global,
    number: u32,
    span: Span,
    parts: &mut Queue<Built>,
) -> Result<Built, AllocError>
    ensures { IfOk result (λ made. made ≡ trees.while_loop number span parts.old) }
{
    let _while = parts.token();
    let c = parts.expr();
    let x = parts.branch();
    Ok(Built::Stmt(Stmt::While {
        number,
        span,
        condition: c,
        body: Boxed::new(alloc, x)?,
    }))
}

#[tactic(auto, unfolding(kt_tree::specs::Trees::do_while))]
pub fn do_while(alloc: Global, number: u32, span: Span, parts: &mut Queue<Built>) -> Built
    ensures { result ≡ trees.do_while number span parts.old }
{
    let _do = parts.token();
    let x = parts.block(alloc);
    let c = parts.expr();
    Built::Stmt(Stmt::DoWhile {
        number,
        span,
        body: x,
        condition: c,
    })
}

#[tactic(auto, unfolding(kt_tree::specs::Trees::for_loop))]
pub fn for_loop(
    alloc: Global,
    tokens: &Tokens,
    number: u32,
    span: Span,
    parts: &mut Queue<Built>,
) -> Result<Built, AllocError>
    ensures { IfOk result (λ made. made ≡ trees.for_loop tokens.now number span parts.old) }
{
    let _for = parts.token();
    let v = parts.ident(tokens);
    let ty = parts.maybe_type();
    let low = parts.expr();
    let t = parts.token();
    let high = parts.expr();
    let x = parts.branch();
    Ok(Built::Stmt(Stmt::For {
        number,
        span,
        variable: v,
        written: ty,
        low,
        progression: progression(tokens, t),
        high,
        body: Boxed::new(alloc, x)?,
    }))
}

#[tactic(auto, unfolding(kt_tree::specs::Trees::block_form))]
pub fn block_form(alloc: Global, span: Span, parts: &mut Queue<Built>) -> Result<Built, AllocError>
    ensures { IfOk result (λ made. made ≡ trees.block_form span parts.old) }
{
    let _open = parts.token();
    let ss = parts.stmts(alloc)?;
    Ok(Built::Block(Block {
        span,
        statements: ss,
    }))
}

#[tactic(auto, unfolding(kt_tree::specs::Trees::type_condition))]
pub fn type_condition(tokens: &Tokens, span: Span, parts: &mut Queue<Built>) -> Built
    ensures { result ≡ trees.type_condition tokens.now span parts.old }
{
    let t = parts.token();
    let ty = parts.written();
    match kind_at(tokens, t) {
        Some(Kind::NotIs) => Built::Condition(Condition::IsNot(span, ty)),
        _ => Built::Condition(Condition::Is(span, ty)),
    }
}

#[tactic(auto, unfolding(kt_tree::specs::Trees::else_branch))]
pub fn else_branch(tokens: &Tokens, parts: &mut Queue<Built>) -> Built
    ensures { result ≡ trees.else_branch tokens.now parts.old }
{
    let t = parts.token();
    let x = parts.branch();
    Built::WhenBranch(WhenBranch {
        conditions: None,
        begins: span_at(tokens, t),
        body: x,
    })
}

#[tactic(auto, unfolding(kt_tree::specs::Trees::condition_branch))]
pub fn condition_branch(
    alloc: Global,
    tokens: &Tokens,
    first: u32,
    parts: &mut Queue<Built>,
) -> Result<Built, AllocError>
    ensures { IfOk result (λ made. made ≡ trees.condition_branch tokens.now first parts.old) }
{
    let xs = parts.conditions(alloc)?;
    let x = parts.branch();
    Ok(Built::WhenBranch(WhenBranch {
        conditions: Some(xs),
        begins: span_at(tokens, first),
        body: x,
    }))
}

#[tactic(auto, unfolding(kt_tree::specs::Trees::catch_clause))]
pub fn catch_clause(alloc: Global, tokens: &Tokens, parts: &mut Queue<Built>) -> Built
    ensures { result ≡ trees.catch_clause tokens.now parts.old }
{
    let _catch = parts.token();
    let x = parts.ident(tokens);
    let ty = parts.written();
    let y = parts.block(alloc);
    Built::Catch(Catch {
        name: x,
        caught: ty,
        body: y,
    })
}

#[tactic(auto, unfolding(kt_tree::specs::Trees::subject_name))]
pub fn subject_name(tokens: &Tokens, parts: &mut Queue<Built>) -> Built
    ensures { result ≡ trees.subject_name tokens.now parts.old }
{
    let x = parts.ident(tokens);
    let ty = parts.maybe_type();
    Built::SubjectName(x, ty)
}

#[tactic(auto, unfolding(kt_tree::specs::Trees::subject))]
pub fn subject(parts: &mut Queue<Built>) -> Built
    ensures { result ≡ trees.subject parts.old }
{
    let x = parts.maybe_subject_name();
    let v = parts.expr();
    match x {
        Some((name, written)) => Built::Subject(Subject {
            variable: Some(name),
            written,
            value: v,
        }),
        None => Built::Subject(Subject {
            variable: None,
            written: None,
            value: v,
        }),
    }
}
