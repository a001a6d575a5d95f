//! The walk over the trees of a tree. Each function of the cycle gives the height of a tree, or the greatest height of the trees
//! right within what is no tree.
ghost use Rattle.std.specs.Prelude.{◌≡◌, map, option_map};
ghost use Rattle.kt_height.specs.Height.{IsBranching, expr_parts, kind_parts, expr_height, stmt_height, lambda_height, block_height, branch_height, piece_height, condition_height, catch_height, subject_height, when_branch_height, greatest, height_if, on_left};
ghost use Rattle.kt_tree.specs.Derives as spec;

use kt_tree::ast::{
    Access, Block, Branch, Catch, Condition, Expr, ExprKind, Lambda, Stmt, StringPart, Subject,
    WhenBranch,
};
use sqlite_items::Boxed;

/// The greatest height of a tree that is accepted. One more stands for all that are higher.
const MAX_HEIGHT: u32 = 200;

/// One more; above 200 one height is as another.
fn grown(height: u32) -> u32
    ensures { result ≡ spec.grown height }
{
    if height <= MAX_HEIGHT {
        height + 1
    } else {
        height
    }
}

/// Whether an expression of that kind may be assigned: a name, or a member behind `.`.
fn is_target(kind: &ExprKind) -> bool
    ensures { result ≡ (kind_parts kind.now).is_target }
{
    match kind {
        ExprKind::Name(_) => true,
        ExprKind::Member { access, .. } => match access {
            Access::Dot => true,
            Access::Safe => false,
        },
        _ => false,
    }
}

/// The height of an expression.
#[cycle(heights)]
pub(crate) fn of_expr(e: &Expr) -> u32
    ensures { result ≡ expr_height e.now }
{
    grown(of_kind(&e.kind))
}

/// The greatest height of the parts of an expression.
#[cycle(heights)]
fn of_kind(kind: &ExprKind) -> u32
    ensures { result ≡ (kind_parts kind.now).height }
{
    match kind {
        ExprKind::Int(_) | ExprKind::Bool(_) | ExprKind::Name(_) => 0,
        ExprKind::Null | ExprKind::This | ExprKind::Break | ExprKind::Continue => 0,
        ExprKind::Template(pieces) => of_pieces(pieces.as_slice()),
        ExprKind::Paren(e)
        | ExprKind::NotNull(e)
        | ExprKind::Not(e)
        | ExprKind::Throw(e)
        | ExprKind::Sign(_, e)
        | ExprKind::As(e, _)
        | ExprKind::AsSafe(e, _)
        | ExprKind::Is(e, _)
        | ExprKind::IsNot(e, _)
        | ExprKind::Member { receiver: e, .. } => of_expr(e.get()),
        ExprKind::Return { value, .. } => of_returned(value),
        ExprKind::Sum(a, b)
        | ExprKind::And(a, b)
        | ExprKind::Or(a, b)
        | ExprKind::Elvis(a, b)
        | ExprKind::Arithmetic(_, a, b)
        | ExprKind::Compare(_, a, b)
        | ExprKind::Equal(_, a, b) => of_expr(a.get()).max(of_expr(b.get())),
        ExprKind::Call {
            arguments,
            lambda,
            ..
        } => of_exprs(arguments.as_slice()).max(of_lambda_if(lambda)),
        ExprKind::MemberCall {
            receiver,
            arguments,
            ..
        } => of_expr(receiver.get()).max(of_exprs(arguments.as_slice())),
        ExprKind::If { .. } | ExprKind::When { .. } | ExprKind::Try { .. } => { of_branching(kind) }
    }
}

/// The greatest height of the parts of an `if`, a `when` or a `try`.
#[cycle(heights)]
fn of_branching(kind: &ExprKind) -> u32
    requires { IsBranching kind.now }
    ensures { result ≡ (kind_parts kind.now).height }
{
    match kind {
        ExprKind::If {
            condition,
            then,
            otherwise,
        } => of_expr(condition.get())
            .max(of_branch(then.get()))
            .max(of_branch_if(otherwise)),
        ExprKind::When { subject, branches } => {
            of_subject_if(subject).max(of_when_branches(branches.as_slice()))
        }
        ExprKind::Try {
            body,
            catches,
            finally,
        } => of_block(body.get())
            .max(of_catches(catches.as_slice()))
            .max(of_block_if(finally)),
        _ => unreachable!(),
    }
}

/// The height of what is returned.
#[cycle(heights)]
fn of_returned(held: &Option<Boxed<Expr>>) -> u32
    ensures { result ≡ height_if (option_map expr_height held.now) }
{
    match held {
        Some(x) => of_expr(x.get()),
        None => 0,
    }
}

/// The height of a value.
#[cycle(heights)]
fn of_value(held: &Option<Expr>) -> u32
    ensures { result ≡ height_if (option_map expr_height held.now) }
{
    match held {
        Some(x) => of_expr(x),
        None => 0,
    }
}

/// The height of the lambda behind a call.
#[cycle(heights)]
fn of_lambda_if(held: &Option<Boxed<Lambda>>) -> u32
    ensures { result ≡ height_if (option_map lambda_height held.now) }
{
    match held {
        Some(x) => of_lambda(x.get()),
        None => 0,
    }
}

/// The greatest height within `else`.
#[cycle(heights)]
fn of_branch_if(held: &Option<Boxed<Branch>>) -> u32
    ensures { result ≡ height_if (option_map branch_height held.now) }
{
    match held {
        Some(x) => of_branch(x.get()),
        None => 0,
    }
}

/// The greatest height within `finally`.
#[cycle(heights)]
fn of_block_if(held: &Option<Boxed<Block>>) -> u32
    ensures { result ≡ height_if (option_map block_height held.now) }
{
    match held {
        Some(x) => of_block(x.get()),
        None => 0,
    }
}

/// The greatest height within what a `when` looks at.
#[cycle(heights)]
fn of_subject_if(held: &Option<Boxed<Subject>>) -> u32
    ensures { result ≡ height_if (option_map subject_height held.now) }
{
    match held {
        Some(x) => of_subject(x.get()),
        None => 0,
    }
}

/// The greatest height of these.
#[cycle(heights)]
fn of_exprs(es: &[Expr]) -> u32
    ensures { result ≡ greatest (map expr_height es.now) }
{
    let mut height = 0;
    for x in es {
        height = height.max(of_expr(x));
    }
    height
}

/// The greatest height within these parts of a string.
#[cycle(heights)]
fn of_pieces(pieces: &[StringPart]) -> u32
    ensures { result ≡ greatest (map piece_height pieces.now) }
{
    let mut height = 0;
    for x in pieces {
        height = height.max(of_piece(x));
    }
    height
}

/// The greatest height of these.
#[cycle(heights)]
fn of_stmts(statements: &[Stmt]) -> u32
    ensures { result ≡ greatest (map stmt_height statements.now) }
{
    let mut height = 0;
    for x in statements {
        height = height.max(of_stmt(x));
    }
    height
}

/// The greatest height within these.
#[cycle(heights)]
fn of_when_branches(branches: &[WhenBranch]) -> u32
    ensures { result ≡ greatest (map when_branch_height branches.now) }
{
    let mut height = 0;
    for x in branches {
        height = height.max(of_when_branch(x));
    }
    height
}

/// The greatest height within these.
#[cycle(heights)]
fn of_conditions(conditions: &[Condition]) -> u32
    ensures { result ≡ greatest (map condition_height conditions.now) }
{
    let mut height = 0;
    for x in conditions {
        height = height.max(of_condition(x));
    }
    height
}

/// The greatest height within these.
#[cycle(heights)]
fn of_catches(catches: &[Catch]) -> u32
    ensures { result ≡ greatest (map catch_height catches.now) }
{
    let mut height = 0;
    for x in catches {
        height = height.max(of_catch(x));
    }
    height
}

/// The height of what is inserted.
#[cycle(heights)]
fn of_piece(piece: &StringPart) -> u32
    ensures { result ≡ piece_height piece.now }
{
    match piece {
        StringPart::Text(_) => 0,
        StringPart::Inserted(e) => of_expr(e),
    }
}

/// The height of a value that is compared.
#[cycle(heights)]
fn of_condition(condition: &Condition) -> u32
    ensures { result ≡ condition_height condition.now }
{
    match condition {
        Condition::Is(_, _) | Condition::IsNot(_, _) => 0,
        Condition::Value(e) => of_expr(e),
    }
}

/// The greatest height within a `catch`.
#[cycle(heights)]
fn of_catch(catch: &Catch) -> u32
    ensures { result ≡ catch_height catch.now }
{
    of_block(&catch.body)
}

/// The height of a lambda.
#[cycle(heights)]
pub(crate) fn of_lambda(lambda: &Lambda) -> u32
    ensures { result ≡ lambda_height lambda.now }
{
    grown(of_block(&lambda.body))
}

/// The height of what a `when` looks at.
#[cycle(heights)]
fn of_subject(subject: &Subject) -> u32
    ensures { result ≡ subject_height subject.now }
{
    of_expr(&subject.value)
}

/// The greatest height within a branch.
#[cycle(heights)]
fn of_branch(branch: &Branch) -> u32
    ensures { result ≡ branch_height branch.now }
{
    match branch {
        Branch::Braced(block) => of_block(block),
        Branch::Single(statement) => of_stmt(statement),
    }
}

/// The greatest height of a block's statements.
#[cycle(heights)]
fn of_block(block: &Block) -> u32
    ensures { result ≡ block_height block.now }
{
    of_stmts(block.statements.as_slice())
}

/// The greatest height within a branch of a `when`.
#[cycle(heights)]
fn of_when_branch(branch: &WhenBranch) -> u32
    ensures { result ≡ when_branch_height branch.now }
{
    match &branch.conditions {
        Some(conditions) => of_conditions(conditions.as_slice()).max(of_branch(&branch.body)),
        None => of_branch(&branch.body),
    }
}

/// The height of a left side, or the greatest height of its parts where it is no tree.
#[cycle(heights)]
fn of_left(target: &Expr) -> u32
    ensures { result ≡ on_left (expr_parts target.now) }
{
    let parts = of_kind(&target.kind);
    if is_target(&target.kind) {
        parts
    } else {
        grown(parts)
    }
}

/// The height of a statement.
#[cycle(heights)]
pub(crate) fn of_stmt(statement: &Stmt) -> u32
    ensures { result ≡ stmt_height statement.now }
{
    match statement {
        Stmt::Expr(e) => of_expr(e),
        Stmt::Local { value, .. } => grown(of_value(value)),
        Stmt::Assign { target, value, .. } => grown(of_left(target).max(of_value(value))),
        Stmt::While {
            condition,
            body,
            ..
        } => grown(of_expr(condition).max(of_branch(body.get()))),
        Stmt::DoWhile {
            body,
            condition,
            ..
        } => grown(of_block(body).max(of_expr(condition))),
        Stmt::For {
            low,
            high,
            body,
            ..
        } => grown(of_expr(low).max(of_expr(high)).max(of_branch(body.get()))),
    }
}
