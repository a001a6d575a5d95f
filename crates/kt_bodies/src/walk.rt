//! The walk over the trees of a body, in the order of the text.
ghost use Rattle.std.specs.Prelude.{◌≡◌, ◌++◌, ◌∷◌, [], OnOk, Option, option_map, unwrap_or, is_some};
ghost use Rattle.std.specs.List.{flat_map};
ghost use Rattle.kt_model.specs.declared.body_site.BodySite.TheVariants.{Written};
ghost use Rattle.kt_model.specs.TreeSites.{expr_sites, kind_sites, stmt_sites, block_sites, branch_sites, piece_sites, lambda_sites, subject_sites, condition_sites, when_branch_sites, catch_sites, BodySites, held, written_type, local_site};

use kt_model::body_site::BodySite;
use kt_tree::NoMemory;
use kt_tree::ast::{
    Block, Branch, Catch, Condition, Expr, ExprKind, Ident, Lambda, LambdaParameter, Stmt,
    StringPart, Subject, TypeRef, WhenBranch,
};
use sqlite_items::{Boxed, Items};

/// The sites found so far.
type Sites = Vec<BodySite>;

fn in_type(w: TypeRef, out: &mut Sites) -> Result<(), NoMemory>
    ensures { OnOk result (out.new.items ≡ out.old.items ++ Written w ∷ []) }
{
    out.push(BodySite::Written(w))?;
    Ok(())
}

fn in_written(written: Option<TypeRef>, out: &mut Sites) -> Result<(), NoMemory>
    ensures { OnOk result (out.new.items ≡ out.old.items ++ written_type written) }
{
    match written {
        Some(w) => in_type(w, out),
        None => Ok(()),
    }
}

fn in_parameters(parameters: &[LambdaParameter], out: &mut Sites) -> Result<(), NoMemory>
    ensures { OnOk result (out.new.items ≡ out.old.items ++ flat_map (λ p. written_type p.written) parameters.now) }
{
    for p in parameters {
        in_written(p.written, out)?;
    }
    Ok(())
}

/// Puts in an expression's sites.
#[cycle(walk)]
pub(crate) fn in_expr(e: &Expr, out: &mut Sites) -> Result<(), NoMemory>
    ensures { OnOk result (out.new.items ≡ out.old.items ++ expr_sites e.now) }
{
    in_kind(&e.kind, out)
}

#[cycle(walk)]
fn in_kind(kind: &ExprKind, out: &mut Sites) -> Result<(), NoMemory>
    ensures { OnOk result (out.new.items ≡ out.old.items ++ kind_sites kind.now) }
{
    match kind {
        ExprKind::Int(_) => Ok(()),
        ExprKind::Bool(_) => Ok(()),
        ExprKind::Null => Ok(()),
        ExprKind::This => Ok(()),
        ExprKind::Name(_) => Ok(()),
        ExprKind::Break => Ok(()),
        ExprKind::Continue => Ok(()),
        ExprKind::Template(pieces) => in_pieces(pieces.as_slice(), out),
        ExprKind::Paren(e) => in_expr(e.get(), out),
        ExprKind::NotNull(e) => in_expr(e.get(), out),
        ExprKind::Sign(_, e) => in_expr(e.get(), out),
        ExprKind::Not(e) => in_expr(e.get(), out),
        ExprKind::Throw(e) => in_expr(e.get(), out),
        ExprKind::Member { receiver, .. } => in_expr(receiver.get(), out),
        ExprKind::Return { value, .. } => in_held_expr(value, out),
        ExprKind::As(e, w) => in_typed(e.get(), *w, out),
        ExprKind::AsSafe(e, w) => in_typed(e.get(), *w, out),
        ExprKind::Is(e, w) => in_typed(e.get(), *w, out),
        ExprKind::IsNot(e, w) => in_typed(e.get(), *w, out),
        ExprKind::Sum(a, b) => {
            in_expr(a.get(), out)?;
            in_expr(b.get(), out)
        }
        ExprKind::Arithmetic(_, a, b) => {
            in_expr(a.get(), out)?;
            in_expr(b.get(), out)
        }
        ExprKind::Compare(_, a, b) => {
            in_expr(a.get(), out)?;
            in_expr(b.get(), out)
        }
        ExprKind::Equal(_, a, b) => {
            in_expr(a.get(), out)?;
            in_expr(b.get(), out)
        }
        ExprKind::And(a, b) => {
            in_expr(a.get(), out)?;
            in_expr(b.get(), out)
        }
        ExprKind::Or(a, b) => {
            in_expr(a.get(), out)?;
            in_expr(b.get(), out)
        }
        ExprKind::Elvis(a, b) => {
            in_expr(a.get(), out)?;
            in_expr(b.get(), out)
        }
        ExprKind::Call {
            arguments,
            lambda,
            ..
        } => {
            in_exprs(arguments.as_slice(), out)?;
            in_held_lambda(lambda, out)
        }
        ExprKind::MemberCall {
            receiver,
            arguments,
            ..
        } => {
            in_expr(receiver.get(), out)?;
            in_exprs(arguments.as_slice(), out)
        }
        ExprKind::If {
            condition,
            then,
            otherwise,
        } => {
            in_expr(condition.get(), out)?;
            in_branch(then.get(), out)?;
            in_held_branch(otherwise, out)
        }
        ExprKind::When { subject, branches } => {
            in_held_subject(subject, out)?;
            in_when_branches(branches.as_slice(), out)
        }
        ExprKind::Try {
            body,
            catches,
            finally,
        } => {
            in_block(body.get(), out)?;
            in_catches(catches.as_slice(), out)?;
            in_held_block(finally, out)
        }
    }
}

#[cycle(walk)]
fn in_typed(e: &Expr, w: TypeRef, out: &mut Sites) -> Result<(), NoMemory>
    ensures { OnOk result (out.new.items ≡ out.old.items ++ (expr_sites e.now ++ Written w ∷ [])) }
{
    in_expr(e, out)?;
    in_type(w, out)
}

#[cycle(walk)]
fn in_held_expr(e: &Option<Boxed<Expr>>, out: &mut Sites) -> Result<(), NoMemory>
    ensures { OnOk result (out.new.items ≡ out.old.items ++ held (option_map expr_sites e.now)) }
{
    match e {
        Some(e) => in_expr(e.get(), out),
        None => Ok(()),
    }
}

#[cycle(walk)]
fn in_held_branch(b: &Option<Boxed<Branch>>, out: &mut Sites) -> Result<(), NoMemory>
    ensures { OnOk result (out.new.items ≡ out.old.items ++ held (option_map branch_sites b.now)) }
{
    match b {
        Some(b) => in_branch(b.get(), out),
        None => Ok(()),
    }
}

#[cycle(walk)]
fn in_held_block(b: &Option<Boxed<Block>>, out: &mut Sites) -> Result<(), NoMemory>
    ensures { OnOk result (out.new.items ≡ out.old.items ++ held (option_map block_sites b.now)) }
{
    match b {
        Some(b) => in_block(b.get(), out),
        None => Ok(()),
    }
}

#[cycle(walk)]
fn in_held_subject(s: &Option<Boxed<Subject>>, out: &mut Sites) -> Result<(), NoMemory>
    ensures { OnOk result (out.new.items ≡ out.old.items ++ held (option_map subject_sites s.now)) }
{
    match s {
        Some(s) => in_subject(s.get(), out),
        None => Ok(()),
    }
}

#[cycle(walk)]
fn in_subject(s: &Subject, out: &mut Sites) -> Result<(), NoMemory>
    ensures { OnOk result (out.new.items ≡ out.old.items ++ subject_sites s.now) }
{
    in_written(s.written, out)?;
    in_expr(&s.value, out)
}

#[cycle(walk)]
fn in_branch(b: &Branch, out: &mut Sites) -> Result<(), NoMemory>
    ensures { OnOk result (out.new.items ≡ out.old.items ++ branch_sites b.now) }
{
    match b {
        Branch::Braced(block) => in_block(block, out),
        Branch::Single(s) => in_stmt(s, out),
    }
}

#[cycle(walk)]
fn in_when_branches(branches: &[WhenBranch], out: &mut Sites) -> Result<(), NoMemory>
    ensures { OnOk result (out.new.items ≡ out.old.items ++ flat_map when_branch_sites branches.now) }
{
    for b in branches {
        in_when_branch(b, out)?;
    }
    Ok(())
}

#[cycle(walk)]
fn in_when_branch(b: &WhenBranch, out: &mut Sites) -> Result<(), NoMemory>
    ensures { OnOk result (out.new.items ≡ out.old.items ++ when_branch_sites b.now) }
{
    match &b.conditions {
        Some(conditions) => {
            in_conditions(conditions.as_slice(), out)?;
            in_branch(&b.body, out)
        }
        None => in_branch(&b.body, out),
    }
}

#[cycle(walk)]
fn in_conditions(conditions: &[Condition], out: &mut Sites) -> Result<(), NoMemory>
    ensures { OnOk result (out.new.items ≡ out.old.items ++ flat_map condition_sites conditions.now) }
{
    for c in conditions {
        in_condition(c, out)?;
    }
    Ok(())
}

#[cycle(walk)]
fn in_condition(c: &Condition, out: &mut Sites) -> Result<(), NoMemory>
    ensures { OnOk result (out.new.items ≡ out.old.items ++ condition_sites c.now) }
{
    match c {
        Condition::Is(_, w) => in_type(*w, out),
        Condition::IsNot(_, w) => in_type(*w, out),
        Condition::Value(e) => in_expr(e, out),
    }
}

#[cycle(walk)]
fn in_catches(catches: &[Catch], out: &mut Sites) -> Result<(), NoMemory>
    ensures { OnOk result (out.new.items ≡ out.old.items ++ flat_map catch_sites catches.now) }
{
    for c in catches {
        in_catch(c, out)?;
    }
    Ok(())
}

#[cycle(walk)]
fn in_catch(c: &Catch, out: &mut Sites) -> Result<(), NoMemory>
    ensures { OnOk result (out.new.items ≡ out.old.items ++ catch_sites c.now) }
{
    in_type(c.caught, out)?;
    in_block(&c.body, out)
}

#[cycle(walk)]
fn in_exprs(es: &[Expr], out: &mut Sites) -> Result<(), NoMemory>
    ensures { OnOk result (out.new.items ≡ out.old.items ++ flat_map expr_sites es.now) }
{
    for e in es {
        in_expr(e, out)?;
    }
    Ok(())
}

#[cycle(walk)]
fn in_pieces(pieces: &[StringPart], out: &mut Sites) -> Result<(), NoMemory>
    ensures { OnOk result (out.new.items ≡ out.old.items ++ flat_map piece_sites pieces.now) }
{
    for p in pieces {
        in_piece(p, out)?;
    }
    Ok(())
}

#[cycle(walk)]
fn in_piece(piece: &StringPart, out: &mut Sites) -> Result<(), NoMemory>
    ensures { OnOk result (out.new.items ≡ out.old.items ++ piece_sites piece.now) }
{
    match piece {
        StringPart::Text(_) => Ok(()),
        StringPart::Inserted(e) => in_expr(e, out),
    }
}

#[cycle(walk)]
fn in_held_lambda(lambda: &Option<Boxed<Lambda>>, out: &mut Sites) -> Result<(), NoMemory>
    ensures { OnOk result (out.new.items ≡ out.old.items ++ held (option_map lambda_sites lambda.now)) }
{
    match lambda {
        Some(lambda) => in_lambda(lambda.get(), out),
        None => Ok(()),
    }
}

#[cycle(walk)]
fn in_lambda(lambda: &Lambda, out: &mut Sites) -> Result<(), NoMemory>
    ensures { OnOk result (out.new.items ≡ out.old.items ++ lambda_sites lambda.now) }
{
    in_parameters(lambda.parameters.as_slice(), out)?;
    in_block(&lambda.body, out)
}

/// Puts in a block's sites.
#[cycle(walk)]
pub(crate) fn in_block(block: &Block, out: &mut Sites) -> Result<(), NoMemory>
    ensures { OnOk result (out.new.items ≡ out.old.items ++ block_sites block.now) }
{
    in_stmts(block.statements.as_slice(), out)
}

#[cycle(walk)]
fn in_stmts(statements: &[Stmt], out: &mut Sites) -> Result<(), NoMemory>
    ensures { OnOk result (out.new.items ≡ out.old.items ++ flat_map stmt_sites statements.now) }
{
    for s in statements {
        in_stmt(s, out)?;
    }
    Ok(())
}

#[cycle(walk)]
fn in_stmt(s: &Stmt, out: &mut Sites) -> Result<(), NoMemory>
    ensures { OnOk result (out.new.items ≡ out.old.items ++ stmt_sites s.now) }
{
    match s {
        Stmt::Expr(e) => in_expr(e, out),
        Stmt::Local {
            name,
            written,
            value,
            ..
        } => {
            in_declared(*name, *written, value.is_some(), out)?;
            in_value(value, out)
        }
        Stmt::Assign { target, value, .. } => {
            in_expr(target, out)?;
            in_value(value, out)
        }
        Stmt::While {
            condition,
            body,
            ..
        } => {
            in_expr(condition, out)?;
            in_branch(body.get(), out)
        }
        Stmt::DoWhile {
            body,
            condition,
            ..
        } => {
            in_block(body, out)?;
            in_expr(condition, out)
        }
        Stmt::For {
            written,
            low,
            high,
            body,
            ..
        } => {
            in_written(*written, out)?;
            in_expr(low, out)?;
            in_expr(high, out)?;
            in_branch(body.get(), out)
        }
    }
}

/// A local, before its initialiser.
fn in_declared(
    name: Ident,
    written: Option<TypeRef>,
    has_value: bool,
    out: &mut Sites,
) -> Result<(), NoMemory>
    ensures { (value : Option BodySites) → has_value ≡ is_some value → OnOk result (out.new.items ≡ out.old.items ++ local_site name written value) }
{
    match written {
        Some(w) => in_type(w, out),
        None if has_value => Ok(()),
        None => {
            out.push(BodySite::Untyped(name))?;
            Ok(())
        }
    }
}

/// Puts in the sites of an initialiser, where there is one.
#[cycle(walk)]
fn in_value(value: &Option<Expr>, out: &mut Sites) -> Result<(), NoMemory>
    ensures { OnOk result (out.new.items ≡ out.old.items ++ held (option_map expr_sites value.now)) }
{
    match value {
        Some(e) => in_expr(e, out),
        None => Ok(()),
    }
}
