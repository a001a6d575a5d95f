//! The walk over all trees of a file. A tree is valued where its value is taken: parts of trees are, the statements of a block are not but the last, which is as
//! its block.
ghost use Rattle.std.specs.Prelude.{◌≡◌, ◌++◌, OnOk, map, not, option_map, false};
ghost use Rattle.std.specs.List.{flat_map};
ghost use Rattle.kt_model.specs.DeclarationRules.{where_};
ghost use Rattle.kt_model.specs.declared.finding.Rule.TheVariants.{AssignTarget};
ghost use Rattle.kt_shape.specs.Operations.{in_operation};
ghost use Rattle.kt_shape.specs.ShapeRules.{expr_shape, kind_shape, stmt_shape, block_shape, branch_shape, piece_shape, condition_shape, catch_shape, lambda_shape, subject_shape, case_shape, in_part, in_turn, taken_if, given_if, whole_if};

use crate::kinds::{is_target, is_value, lacks_else, span_of};
use kt_model::finding::{Finding, Rule};
use kt_tree::ast::{
    Block, Branch, Catch, Condition, Expr, ExprKind, Lambda, Stmt, StringPart, Subject, WhenBranch,
};
use kt_tree::{NoMemory, Span};
use sqlite_items::Boxed;

/// What has been found so far.
type Found = Vec<Finding>;

/// Puts in the finding of a rule at a span, where its condition holds.
fn push_if(condition: bool, rule: Rule, span: Span, out: &mut Found) -> Result<(), NoMemory>
    ensures { OnOk result (out.new.items ≡ out.old.items ++ where_ condition rule span) }
{
    if condition {
        out.push(Finding { rule, span })?;
    }
    Ok(())
}

/// Puts in what is violated in an expression.
#[cycle(shapes)]
pub(crate) fn in_expr(e: &Expr, valued: bool, out: &mut Found) -> Result<(), NoMemory>
    ensures { OnOk result (out.new.items ≡ out.old.items ++ (expr_shape e.now).whole valued) }
{
    push_if(valued && lacks_else(&e.kind), Rule::NoElse, e.span, out)?;
    in_kind(&e.kind, valued, out)
}

#[cycle(shapes)]
fn in_kind(kind: &ExprKind, valued: bool, out: &mut Found) -> Result<(), NoMemory>
    ensures { OnOk result (out.new.items ≡ out.old.items ++ (kind_shape kind.now).inside valued) }
{
    match kind {
        ExprKind::Call {
            arguments,
            lambda,
            ..
        } => {
            in_exprs(arguments.as_slice(), out)?;
            in_lambda_if(lambda, out)
        }
        ExprKind::MemberCall {
            receiver,
            arguments,
            ..
        } => {
            in_expr(receiver.get(), true, out)?;
            in_exprs(arguments.as_slice(), out)
        }
        ExprKind::If {
            condition,
            then,
            otherwise,
        } => {
            in_expr(condition.get(), true, out)?;
            in_branch(then.get(), valued, out)?;
            in_branch_if(otherwise, valued, out)
        }
        ExprKind::When { subject, branches } => {
            in_subject_if(subject, out)?;
            in_when_branches(branches.as_slice(), valued, out)
        }
        ExprKind::Try {
            body,
            catches,
            finally,
        } => {
            in_block(body.get(), valued, out)?;
            in_catches(catches.as_slice(), valued, out)?;
            in_finally(finally, out)
        }
        _ => in_operation(kind, out),
    }
}

/// Puts in what is violated in the parts of an operation; nothing of a call, an `if`, a `when` or a `try`.
#[cycle(shapes)]
fn in_operation(kind: &ExprKind, out: &mut Found) -> Result<(), NoMemory>
    ensures { OnOk result (out.new.items ≡ out.old.items ++ in_operation kind.now) }
{
    match kind {
        ExprKind::Template(pieces) => in_pieces(pieces.as_slice(), out),
        ExprKind::Paren(e)
        | ExprKind::NotNull(e)
        | ExprKind::Not(e)
        | ExprKind::Throw(e)
        | ExprKind::Sign(_, e)
        | ExprKind::As(e, _)
        | ExprKind::AsSafe(e, _)
        | ExprKind::Is(e, _)
        | ExprKind::IsNot(e, _)
        | ExprKind::Member { receiver: e, .. } => in_expr(e.get(), true, out),
        ExprKind::Return { value, .. } => in_returned(value, out),
        ExprKind::Sum(a, b)
        | ExprKind::And(a, b)
        | ExprKind::Or(a, b)
        | ExprKind::Elvis(a, b)
        | ExprKind::Arithmetic(_, a, b)
        | ExprKind::Compare(_, a, b)
        | ExprKind::Equal(_, a, b) => {
            in_expr(a.get(), true, out)?;
            in_expr(b.get(), true, out)
        }
        ExprKind::Int(_)
        | ExprKind::Bool(_)
        | ExprKind::Null
        | ExprKind::This
        | ExprKind::Name(_)
        | ExprKind::Break
        | ExprKind::Continue
        | ExprKind::Call { .. }
        | ExprKind::MemberCall { .. }
        | ExprKind::If { .. }
        | ExprKind::When { .. }
        | ExprKind::Try { .. } => Ok(()),
    }
}

#[cycle(shapes)]
fn in_returned(held: &Option<Boxed<Expr>>, out: &mut Found) -> Result<(), NoMemory>
    ensures { OnOk result (out.new.items ≡ out.old.items ++ taken_if (option_map expr_shape held.now)) }
{
    match held {
        Some(x) => in_expr(x.get(), true, out),
        None => Ok(()),
    }
}

#[cycle(shapes)]
fn in_value(held: &Option<Expr>, out: &mut Found) -> Result<(), NoMemory>
    ensures { OnOk result (out.new.items ≡ out.old.items ++ taken_if (option_map expr_shape held.now)) }
{
    match held {
        Some(x) => in_expr(x, true, out),
        None => Ok(()),
    }
}

#[cycle(shapes)]
fn in_lambda_if(held: &Option<Boxed<Lambda>>, out: &mut Found) -> Result<(), NoMemory>
    ensures { OnOk result (out.new.items ≡ out.old.items ++ given_if (option_map lambda_shape held.now)) }
{
    match held {
        Some(x) => in_lambda(x.get(), out),
        None => Ok(()),
    }
}

#[cycle(shapes)]
fn in_branch_if(held: &Option<Boxed<Branch>>, valued: bool, out: &mut Found) -> Result<(), NoMemory>
    ensures { OnOk result (out.new.items ≡ out.old.items ++ whole_if (option_map branch_shape held.now) valued) }
{
    match held {
        Some(x) => in_branch(x.get(), valued, out),
        None => Ok(()),
    }
}

#[cycle(shapes)]
fn in_finally(held: &Option<Boxed<Block>>, out: &mut Found) -> Result<(), NoMemory>
    ensures { OnOk result (out.new.items ≡ out.old.items ++ whole_if (option_map block_shape held.now) false) }
{
    match held {
        Some(x) => in_block(x.get(), false, out),
        None => Ok(()),
    }
}

#[cycle(shapes)]
fn in_subject_if(held: &Option<Boxed<Subject>>, out: &mut Found) -> Result<(), NoMemory>
    ensures { OnOk result (out.new.items ≡ out.old.items ++ given_if (option_map subject_shape held.now)) }
{
    match held {
        Some(x) => in_subject(x.get(), out),
        None => Ok(()),
    }
}

#[cycle(shapes)]
fn in_exprs(es: &[Expr], out: &mut Found) -> Result<(), NoMemory>
    ensures { OnOk result (out.new.items ≡ out.old.items ++ flat_map in_part es.now) }
{
    for x in es {
        in_expr(x, true, out)?;
    }
    Ok(())
}

#[cycle(shapes)]
fn in_pieces(pieces: &[StringPart], out: &mut Found) -> Result<(), NoMemory>
    ensures { OnOk result (out.new.items ≡ out.old.items ++ flat_map piece_shape pieces.now) }
{
    for x in pieces {
        in_piece(x, out)?;
    }
    Ok(())
}

/// Puts in what is violated in statements one behind another, the last of which is valued as they are.
#[cycle(shapes)]
fn in_stmts(statements: &[Stmt], valued: bool, out: &mut Found) -> Result<(), NoMemory>
    ensures { OnOk result (out.new.items ≡ out.old.items ++ in_turn (map stmt_shape statements.now) valued) }
{
    for (place, x) in statements.iter().enumerate() {
        in_stmt(x, valued && place + 1 == statements.len(), out)?;
    }
    Ok(())
}

#[cycle(shapes)]
fn in_when_branches(branches: &[WhenBranch], valued: bool, out: &mut Found) -> Result<(), NoMemory>
    ensures { OnOk result (out.new.items ≡ out.old.items ++ flat_map (λ b. (case_shape b).whole valued) branches.now) }
{
    for x in branches {
        in_when_branch(x, valued, out)?;
    }
    Ok(())
}

#[cycle(shapes)]
fn in_conditions(conditions: &[Condition], out: &mut Found) -> Result<(), NoMemory>
    ensures { OnOk result (out.new.items ≡ out.old.items ++ flat_map condition_shape conditions.now) }
{
    for x in conditions {
        in_condition(x, out)?;
    }
    Ok(())
}

#[cycle(shapes)]
fn in_catches(catches: &[Catch], valued: bool, out: &mut Found) -> Result<(), NoMemory>
    ensures { OnOk result (out.new.items ≡ out.old.items ++ flat_map (λ c. catch_shape c valued) catches.now) }
{
    for x in catches {
        in_catch(x, valued, out)?;
    }
    Ok(())
}

#[cycle(shapes)]
fn in_piece(piece: &StringPart, out: &mut Found) -> Result<(), NoMemory>
    ensures { OnOk result (out.new.items ≡ out.old.items ++ piece_shape piece.now) }
{
    match piece {
        StringPart::Text(_) => Ok(()),
        StringPart::Inserted(e) => in_expr(e, true, out),
    }
}

#[cycle(shapes)]
fn in_condition(condition: &Condition, out: &mut Found) -> Result<(), NoMemory>
    ensures { OnOk result (out.new.items ≡ out.old.items ++ condition_shape condition.now) }
{
    match condition {
        Condition::Is(_, _) => Ok(()),
        Condition::IsNot(_, _) => Ok(()),
        Condition::Value(e) => in_expr(e, true, out),
    }
}

#[cycle(shapes)]
fn in_catch(c: &Catch, valued: bool, out: &mut Found) -> Result<(), NoMemory>
    ensures { OnOk result (out.new.items ≡ out.old.items ++ catch_shape c.now valued) }
{
    in_block(&c.body, valued, out)
}

#[cycle(shapes)]
fn in_lambda(lambda: &Lambda, out: &mut Found) -> Result<(), NoMemory>
    ensures { OnOk result (out.new.items ≡ out.old.items ++ lambda_shape lambda.now) }
{
    in_block(&lambda.body, false, out)
}

#[cycle(shapes)]
fn in_subject(subject: &Subject, out: &mut Found) -> Result<(), NoMemory>
    ensures { OnOk result (out.new.items ≡ out.old.items ++ subject_shape subject.now) }
{
    in_expr(&subject.value, true, out)
}

#[cycle(shapes)]
fn in_branch(branch: &Branch, valued: bool, out: &mut Found) -> Result<(), NoMemory>
    ensures { OnOk result (out.new.items ≡ out.old.items ++ branch_shape branch.now valued) }
{
    match branch {
        Branch::Braced(block) => in_block(block, valued, out),
        Branch::Single(s) => {
            push_if(valued && !is_value(s), Rule::ValueExpected, span_of(s), out)?;
            in_stmt(s, valued, out)
        }
    }
}

/// Puts in what is violated in a block.
#[cycle(shapes)]
pub(crate) fn in_block(block: &Block, valued: bool, out: &mut Found) -> Result<(), NoMemory>
    ensures { OnOk result (out.new.items ≡ out.old.items ++ block_shape block.now valued) }
{
    in_stmts(block.statements.as_slice(), valued, out)
}

#[cycle(shapes)]
fn in_when_branch(branch: &WhenBranch, valued: bool, out: &mut Found) -> Result<(), NoMemory>
    ensures { OnOk result (out.new.items ≡ out.old.items ++ (case_shape branch.now).whole valued) }
{
    match &branch.conditions {
        Some(conditions) => {
            in_conditions(conditions.as_slice(), out)?;
            in_branch(&branch.body, valued, out)
        }
        None => in_branch(&branch.body, valued, out),
    }
}

#[cycle(shapes)]
fn in_stmt(s: &Stmt, valued: bool, out: &mut Found) -> Result<(), NoMemory>
    ensures { OnOk result (out.new.items ≡ out.old.items ++ (stmt_shape s.now).whole valued) }
{
    match s {
        Stmt::Expr(e) => in_expr(e, valued, out),
        Stmt::Local { value, .. } => in_value(value, out),
        Stmt::Assign { target, value, .. } => {
            in_left(target, out)?;
            in_value(value, out)
        }
        Stmt::While {
            condition,
            body,
            ..
        } => {
            in_expr(condition, true, out)?;
            in_branch(body.get(), false, out)
        }
        Stmt::DoWhile {
            body,
            condition,
            ..
        } => {
            in_block(body, false, out)?;
            in_expr(condition, true, out)
        }
        Stmt::For {
            low,
            high,
            body,
            ..
        } => {
            in_expr(low, true, out)?;
            in_expr(high, true, out)?;
            in_branch(body.get(), false, out)
        }
    }
}

/// A left side: it is not valued itself.
#[cycle(shapes)]
fn in_left(target: &Expr, out: &mut Found) -> Result<(), NoMemory>
    ensures { OnOk result (out.new.items ≡ out.old.items ++ (where_ (not (expr_shape target.now).is_target) AssignTarget (expr_shape target.now).span ++ (expr_shape target.now).whole false)) }
{
    push_if(
        !is_target(&target.kind),
        Rule::AssignTarget,
        target.span,
        out,
    )?;
    in_expr(target, false, out)
}
