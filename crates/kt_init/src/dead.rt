//! The outermost dead trees among the trees of a body, by what is marked of its graph.
ghost use Rattle.std.specs.Prelude.{◌≡◌, ◌++◌, ℕ, Bool, map, option_map, IfOk, OnOk};
ghost use Rattle.std.specs.Option.{option_copied};
ghost use Rattle.kt_model.specs.DeadTrees.{block_dead, body_dead, branch_dead, catch_dead, condition_dead, expr_dead, joined, kind_dead, lambda_dead, optional, owner_dead, piece_dead, stmt_dead, subject_dead, when_dead, written_dead};
ghost use Rattle.kt_init.specs.Marks.{dead_by, told_if};
ghost use Rattle.kt_init.specs.DeadParts.{compound_dead, parts_dead};

use crate::marks::Marks;
use kt_model::dead::{Dead, DeadList};
use kt_model::uses::Owner;
use kt_tree::ast::{
    Block, Branch, Catch, Condition, Expr, ExprKind, File, FunctionBody, Lambda, Stmt, StringPart,
    Subject, WhenBranch,
};
use kt_tree::{NoMemory, Span};
use sqlite_items::Boxed;

/// Tells a tree where it is dead, and gives whether it is.
fn tell(marks: &Marks, found: &mut DeadList, tree: u32, span: Span) -> Result<bool, NoMemory>
    ensures dead { IfOk result (λ d. d ≡ dead_by marks.now tree) }
    ensures found { IfOk result (λ d. found.new ≡ found.old ++ told_if d tree span) }
{
    let dead = marks.is_dead(tree);
    if dead {
        found.push(Dead { tree, span })?;
    }
    Ok(dead)
}

/// Tells what is dead in an expression.
#[cycle(dead)]
fn expr(marks: &Marks, found: &mut DeadList, e: &Expr) -> Result<(), NoMemory>
    ensures { OnOk result (found.new ≡ found.old ++ expr_dead (dead_by marks.now) e.now) }
{
    let dead = tell(marks, found, e.number, e.span)?;
    if dead {
        return Ok(());
    }
    kind(marks, found, &e.kind)
}

/// Tells what is dead in the parts of an expression.
#[cycle(dead)]
#[tactic(auto, using(crate::proofs::DeadFolds::leaves))]
fn kind(marks: &Marks, found: &mut DeadList, k: &ExprKind) -> Result<(), NoMemory>
    ensures { OnOk result (found.new ≡ found.old ++ kind_dead (dead_by marks.now) k.now) }
{
    match k {
        ExprKind::Int(_)
        | ExprKind::Bool(_)
        | ExprKind::Null
        | ExprKind::This
        | ExprKind::Name(_)
        | ExprKind::Break
        | ExprKind::Continue => Ok(()),
        ExprKind::Template(parts) => pieces(marks, found, parts.as_slice()),
        ExprKind::Paren(a)
        | ExprKind::NotNull(a)
        | ExprKind::Not(a)
        | ExprKind::Throw(a)
        | ExprKind::Sign(_, a)
        | ExprKind::As(a, _)
        | ExprKind::AsSafe(a, _)
        | ExprKind::Is(a, _)
        | ExprKind::IsNot(a, _)
        | ExprKind::Member { receiver: a, .. } => expr(marks, found, a.get()),
        ExprKind::Return { value, .. } => value_of(marks, found, value),
        ExprKind::Sum(a, b)
        | ExprKind::And(a, b)
        | ExprKind::Or(a, b)
        | ExprKind::Elvis(a, b)
        | ExprKind::Arithmetic(_, a, b)
        | ExprKind::Compare(_, a, b)
        | ExprKind::Equal(_, a, b) => {
            expr(marks, found, a.get())?;
            expr(marks, found, b.get())
        }
        ExprKind::Call { .. }
        | ExprKind::MemberCall { .. }
        | ExprKind::If { .. }
        | ExprKind::When { .. }
        | ExprKind::Try { .. } => compound(marks, found, k),
    }
}

/// Tells what is dead in the parts of a call, an `if`, a `when` or a `try`; nothing of other kinds.
#[cycle(dead)]
fn compound(marks: &Marks, found: &mut DeadList, k: &ExprKind) -> Result<(), NoMemory>
    ensures { OnOk result (found.new ≡ found.old ++ compound_dead (dead_by marks.now) k.now) }
{
    match k {
        ExprKind::Call {
            arguments,
            lambda,
            ..
        } => {
            exprs(marks, found, arguments.as_slice())?;
            inner(marks, found, lambda)
        }
        ExprKind::MemberCall {
            receiver,
            arguments,
            ..
        } => {
            expr(marks, found, receiver.get())?;
            exprs(marks, found, arguments.as_slice())
        }
        ExprKind::If {
            condition,
            then,
            otherwise,
        } => {
            expr(marks, found, condition.get())?;
            branch(marks, found, then.get())?;
            alternative(marks, found, otherwise)
        }
        ExprKind::When { subject, branches } => {
            looked_at(marks, found, subject)?;
            cases(marks, found, branches.as_slice())
        }
        ExprKind::Try {
            body,
            catches,
            finally,
        } => {
            block(marks, found, body.get())?;
            caught(marks, found, catches.as_slice())?;
            last(marks, found, finally)
        }
        _ => Ok(()),
    }
}

/// Tells what is dead in expressions one behind another.
#[cycle(dead)]
fn exprs(marks: &Marks, found: &mut DeadList, list: &[Expr]) -> Result<(), NoMemory>
    ensures { OnOk result (found.new ≡ found.old ++ joined (map (expr_dead (dead_by marks.now)) list.now)) }
{
    for e in list {
        expr(marks, found, e)?;
    }
    Ok(())
}

/// Tells what is dead in a value that may not be written.
#[cycle(dead)]
fn value_of(
    marks: &Marks,
    found: &mut DeadList,
    value: &Option<Boxed<Expr>>,
) -> Result<(), NoMemory>
    ensures { OnOk result (found.new ≡ found.old ++ optional (option_map (expr_dead (dead_by marks.now)) value.now)) }
{
    match value {
        Some(e) => expr(marks, found, e.get()),
        None => Ok(()),
    }
}

/// Tells what is dead in the initial or assigned value of a local, which may not be written.
#[cycle(dead)]
fn initial(marks: &Marks, found: &mut DeadList, value: &Option<Expr>) -> Result<(), NoMemory>
    ensures { OnOk result (found.new ≡ found.old ++ optional (option_map (expr_dead (dead_by marks.now)) value.now)) }
{
    match value {
        Some(e) => expr(marks, found, e),
        None => Ok(()),
    }
}

/// Tells what is dead in the parts of a string.
#[cycle(dead)]
fn pieces(marks: &Marks, found: &mut DeadList, parts: &[StringPart]) -> Result<(), NoMemory>
    ensures { OnOk result (found.new ≡ found.old ++ joined (map (piece_dead (dead_by marks.now)) parts.now)) }
{
    for part in parts {
        piece(marks, found, part)?;
    }
    Ok(())
}

/// Tells what is dead in a part of a string.
#[cycle(dead)]
fn piece(marks: &Marks, found: &mut DeadList, part: &StringPart) -> Result<(), NoMemory>
    ensures { OnOk result (found.new ≡ found.old ++ piece_dead (dead_by marks.now) part.now) }
{
    match part {
        StringPart::Text(_) => Ok(()),
        StringPart::Inserted(e) => expr(marks, found, e),
    }
}

/// Tells what is dead in the lambda of a call, if there is one.
#[cycle(dead)]
fn inner(
    marks: &Marks,
    found: &mut DeadList,
    lambda: &Option<Boxed<Lambda>>,
) -> Result<(), NoMemory>
    ensures { OnOk result (found.new ≡ found.old ++ optional (option_map (lambda_dead (dead_by marks.now)) lambda.now)) }
{
    match lambda {
        Some(l) => within(marks, found, l.get()),
        None => Ok(()),
    }
}

/// Tells what is dead in a lambda, which is a tree.
#[cycle(dead)]
fn within(marks: &Marks, found: &mut DeadList, l: &Lambda) -> Result<(), NoMemory>
    ensures { OnOk result (found.new ≡ found.old ++ lambda_dead (dead_by marks.now) l.now) }
{
    let dead = tell(marks, found, l.number, l.span)?;
    if dead {
        return Ok(());
    }
    block(marks, found, &l.body)
}

/// Tells what is dead in what stands behind `else`, if anything does.
#[cycle(dead)]
fn alternative(
    marks: &Marks,
    found: &mut DeadList,
    otherwise: &Option<Boxed<Branch>>,
) -> Result<(), NoMemory>
    ensures { OnOk result (found.new ≡ found.old ++ optional (option_map (branch_dead (dead_by marks.now)) otherwise.now)) }
{
    match otherwise {
        Some(b) => branch(marks, found, b.get()),
        None => Ok(()),
    }
}

/// Tells what is dead in what a condition leads to.
#[cycle(dead)]
fn branch(marks: &Marks, found: &mut DeadList, b: &Branch) -> Result<(), NoMemory>
    ensures { OnOk result (found.new ≡ found.old ++ branch_dead (dead_by marks.now) b.now) }
{
    match b {
        Branch::Braced(inner) => block(marks, found, inner),
        Branch::Single(s) => stmt(marks, found, s),
    }
}

/// Tells what is dead in a block.
#[cycle(dead)]
fn block(marks: &Marks, found: &mut DeadList, b: &Block) -> Result<(), NoMemory>
    ensures { OnOk result (found.new ≡ found.old ++ block_dead (dead_by marks.now) b.now) }
{
    for s in b.statements.as_slice() {
        stmt(marks, found, s)?;
    }
    Ok(())
}

/// Tells what is dead in the branches of a `when`.
#[cycle(dead)]
fn cases(marks: &Marks, found: &mut DeadList, branches: &[WhenBranch]) -> Result<(), NoMemory>
    ensures { OnOk result (found.new ≡ found.old ++ joined (map (when_dead (dead_by marks.now)) branches.now)) }
{
    for b in branches {
        case(marks, found, b)?;
    }
    Ok(())
}

/// Tells what is dead in a branch of a `when`.
#[cycle(dead)]
fn case(marks: &Marks, found: &mut DeadList, b: &WhenBranch) -> Result<(), NoMemory>
    ensures { OnOk result (found.new ≡ found.old ++ when_dead (dead_by marks.now) b.now) }
{
    match &b.conditions {
        Some(conditions) => {
            tests(marks, found, conditions.as_slice())?;
            branch(marks, found, &b.body)
        }
        None => branch(marks, found, &b.body),
    }
}

/// Tells what is dead in what a `when` looks at.
#[cycle(dead)]
fn looked_at(
    marks: &Marks,
    found: &mut DeadList,
    subject: &Option<Boxed<Subject>>,
) -> Result<(), NoMemory>
    ensures { OnOk result (found.new ≡ found.old ++ optional (option_map (subject_dead (dead_by marks.now)) subject.now)) }
{
    match subject {
        Some(s) => expr(marks, found, &s.get().value),
        None => Ok(()),
    }
}

/// Tells what is dead in conditions one behind another.
#[cycle(dead)]
fn tests(marks: &Marks, found: &mut DeadList, list: &[Condition]) -> Result<(), NoMemory>
    ensures { OnOk result (found.new ≡ found.old ++ joined (map (condition_dead (dead_by marks.now)) list.now)) }
{
    for condition in list {
        test(marks, found, condition)?;
    }
    Ok(())
}

/// Tells what is dead in a condition of a `when`.
#[cycle(dead)]
fn test(marks: &Marks, found: &mut DeadList, condition: &Condition) -> Result<(), NoMemory>
    ensures { OnOk result (found.new ≡ found.old ++ condition_dead (dead_by marks.now) condition.now) }
{
    match condition {
        Condition::Is(_, _) => Ok(()),
        Condition::IsNot(_, _) => Ok(()),
        Condition::Value(e) => expr(marks, found, e),
    }
}

/// Tells what is dead in the `finally` of a `try`, if there is one.
#[cycle(dead)]
fn last(marks: &Marks, found: &mut DeadList, finally: &Option<Boxed<Block>>) -> Result<(), NoMemory>
    ensures { OnOk result (found.new ≡ found.old ++ optional (option_map (block_dead (dead_by marks.now)) finally.now)) }
{
    match finally {
        Some(b) => block(marks, found, b.get()),
        None => Ok(()),
    }
}

/// Tells what is dead in the catches of a `try`.
#[cycle(dead)]
fn caught(marks: &Marks, found: &mut DeadList, catches: &[Catch]) -> Result<(), NoMemory>
    ensures { OnOk result (found.new ≡ found.old ++ joined (map (catch_dead (dead_by marks.now)) catches.now)) }
{
    for c in catches {
        block(marks, found, &c.body)?;
    }
    Ok(())
}

/// Tells what is dead in a statement. An expression is the same tree as the statement.
#[cycle(dead)]
fn stmt(marks: &Marks, found: &mut DeadList, s: &Stmt) -> Result<(), NoMemory>
    ensures { OnOk result (found.new ≡ found.old ++ stmt_dead (dead_by marks.now) s.now) }
{
    match s {
        Stmt::Expr(e) => expr(marks, found, e),
        Stmt::Local { number, span, .. }
        | Stmt::Assign { number, span, .. }
        | Stmt::While { number, span, .. }
        | Stmt::DoWhile { number, span, .. }
        | Stmt::For { number, span, .. } => {
            let dead = tell(marks, found, *number, *span)?;
            if dead {
                return Ok(());
            }
            parts(marks, found, s)
        }
    }
}

/// Tells what is dead in the parts of a statement.
#[cycle(dead)]
fn parts(marks: &Marks, found: &mut DeadList, s: &Stmt) -> Result<(), NoMemory>
    ensures { OnOk result (found.new ≡ found.old ++ parts_dead (dead_by marks.now) s.now) }
{
    match s {
        Stmt::Expr(e) => expr(marks, found, e),
        Stmt::Local { value, .. } => initial(marks, found, value),
        Stmt::Assign { target, value, .. } => {
            expr(marks, found, target)?;
            initial(marks, found, value)
        }
        Stmt::While {
            condition,
            body,
            ..
        } => {
            expr(marks, found, condition)?;
            branch(marks, found, body.get())
        }
        Stmt::DoWhile {
            body,
            condition,
            ..
        } => {
            block(marks, found, body)?;
            expr(marks, found, condition)
        }
        Stmt::For {
            low,
            high,
            body,
            ..
        } => {
            expr(marks, found, low)?;
            expr(marks, found, high)?;
            branch(marks, found, body.get())
        }
    }
}

/// Tells what is dead in a function's body; its contract belongs to no body.
fn written(marks: &Marks, found: &mut DeadList, body: &FunctionBody) -> Result<(), NoMemory>
    ensures { OnOk result (found.new ≡ found.old ++ written_dead (dead_by marks.now) body.now) }
{
    match body {
        FunctionBody::Expr(e) => expr(marks, found, e),
        FunctionBody::Block { block: b, .. } => block(marks, found, b),
    }
}

/// The written body of an owner, if it has one. Those of members, getters and classes are not open yet.
fn body_of<'a>(file: &'a File, owner: Owner) -> Option<&'a FunctionBody>
    ensures { (dead : ℕ → Bool) → owner_dead dead file.now owner ≡ body_dead dead (option_copied result) }
{
    match owner {
        Owner::Function(place) => match file.functions.as_slice().get(place as usize) {
            Some(function) => match &function.body {
                Some(body) => Some(body),
                None => None,
            },
            None => None,
        },
        _ => None,
    }
}

/// Tells what is dead in an owner's body.
pub(crate) fn owned(
    marks: &Marks,
    found: &mut DeadList,
    file: &File,
    owner: Owner,
) -> Result<(), NoMemory>
    ensures { OnOk result (found.new ≡ found.old ++ owner_dead (dead_by marks.now) file.now owner) }
{
    match body_of(file, owner) {
        Some(body) => written(marks, found, body),
        None => Ok(()),
    }
}
