//! The walk over the trees of a body that notes each of them.
ghost use Rattle.std.specs.Prelude.{◌≡◌, ℕ, ◌++◌, [], map, IfOk, OnOk, option_map};
ghost use Rattle.std.specs.List.{flat_map};
ghost use Rattle.std.specs.Option.{option_copied};
ghost use Rattle.kt_tree.specs.declared.token.Span.{Span};
ghost use Rattle.kt_model.specs.declared.uses.Named.{Named};
ghost use Rattle.kt_model.specs.NameUses.{named_at};
ghost use Rattle.kt_model.specs.BodyTrees.{Mark, Shut', expr_tree, seen, seen_trees, seen_optional, call_tree, local_tree, assign_tree, otherwise, branch_trees, named_there};
ghost use Rattle.kt_model.specs.Bodies.{owner_trees, body_trees_of};
ghost use Rattle.kt_flow.specs.Notes.{tree_notes, trees_notes, part_notes, expr_notes, stmt_notes, piece_notes, branch_notes};

use crate::notes::{TreeNote, of_assignment, of_expr, of_local, plain};
use kt_model::uses::{Body, Named, Owner, Uses};
use kt_tree::ast::{Assignment, Branch, Expr, ExprKind, FunctionBody, Stmt, StringPart};
use kt_tree::{NoMemory, Span};
use sqlite_items::Boxed;
use std::alloc::Global;

/// The notes of trees, in the order of the text.
pub(crate) type Notes = Vec<TreeNote>;

/// The span of an expression that is a name alone.
fn name_of(e: &Expr) -> Option<Span>
    ensures { (uses : ℕ → Named) → (seen uses e.now).name ≡ result }
{
    match &e.kind {
        ExprKind::Name(_) => Some(e.span),
        _ => None,
    }
}

/// Adds the note of a tree that does nothing to a local, and into which no path leads further.
fn shut(tree: u32, word: Span, out: &mut Notes) -> Result<(), NoMemory>
    ensures { (m : Mark) → m.number ≡ tree → m.word ≡ word → OnOk result (out.new.items ≡ out.old.items ++ tree_notes (Shut' m)) }
{
    out.push(plain(tree, word))?;
    Ok(())
}

/// Adds the notes of an expression and of what is in it.
#[cycle(walk)]
fn expr(uses: &Uses, e: &Expr, out: &mut Notes) -> Result<(), NoMemory>
    ensures { OnOk result (out.new.items ≡ out.old.items ++ expr_notes (named_at uses.now) e.now) }
{
    out.push(of_expr(uses, e))?;
    parts(uses, e, out)
}

/// Adds the notes of what is in an expression.
#[cycle(walk)]
fn parts(uses: &Uses, e: &Expr, out: &mut Notes) -> Result<(), NoMemory>
    ensures { OnOk result (out.new.items ≡ out.old.items ++ part_notes (expr_tree (named_at uses.now) e.now)) }
{
    match &e.kind {
        ExprKind::Template(inserted) => pieces(uses, inserted.as_slice(), out),
        ExprKind::Paren(a) | ExprKind::Sign(_, a) | ExprKind::Not(a) | ExprKind::Throw(a) => {
            expr(uses, a.get(), out)
        }
        ExprKind::Sum(a, b)
        | ExprKind::Arithmetic(_, a, b)
        | ExprKind::Compare(_, a, b)
        | ExprKind::Equal(_, a, b)
        | ExprKind::And(a, b)
        | ExprKind::Or(a, b) => {
            expr(uses, a.get(), out)?;
            expr(uses, b.get(), out)
        }
        ExprKind::Call {
            callee: _,
            arguments,
            lambda,
        } => match lambda {
            None => call(uses, e.number, arguments.as_slice(), out),
            Some(_) => Ok(()),
        },
        ExprKind::If {
            condition,
            then,
            otherwise,
        } => {
            expr(uses, condition.get(), out)?;
            branch(uses, then.get(), out)?;
            alternative(uses, otherwise, out)
        }
        ExprKind::Return { label, value } => match label {
            None => returned(uses, value, out),
            Some(_) => Ok(()),
        },
        _ => Ok(()),
    }
}

/// Adds the notes of the arguments of a call without a lambda.
#[cycle(walk)]
fn call(uses: &Uses, tree: u32, arguments: &[Expr], out: &mut Notes) -> Result<(), NoMemory>
    ensures { (at word : Span) → OnOk result (out.new.items ≡ out.old.items ++ part_notes (call_tree (named_at uses.now tree) (seen_trees (map (seen (named_at uses.now)) arguments.now)) (named_there tree at word))) }
{
    match uses.named(tree) {
        Named::Function(_, _) => exprs(uses, arguments, out),
        Named::BuiltIn(_, _) => exprs(uses, arguments, out),
        _ => Ok(()),
    }
}

/// Adds the notes of expressions one behind another.
#[cycle(walk)]
fn exprs(uses: &Uses, es: &[Expr], out: &mut Notes) -> Result<(), NoMemory>
    ensures { OnOk result (out.new.items ≡ out.old.items ++ flat_map (expr_notes (named_at uses.now)) es.now) }
{
    for x in es {
        expr(uses, x, out)?;
    }
    Ok(())
}

/// Adds the notes of what is inserted into a string.
#[cycle(walk)]
fn pieces(uses: &Uses, pieces: &[StringPart], out: &mut Notes) -> Result<(), NoMemory>
    ensures { OnOk result (out.new.items ≡ out.old.items ++ flat_map (piece_notes (named_at uses.now)) pieces.now) }
{
    for x in pieces {
        piece(uses, x, out)?;
    }
    Ok(())
}

/// Adds the notes of what one part of a string inserts.
#[cycle(walk)]
fn piece(uses: &Uses, piece: &StringPart, out: &mut Notes) -> Result<(), NoMemory>
    ensures { OnOk result (out.new.items ≡ out.old.items ++ piece_notes (named_at uses.now) piece.now) }
{
    match piece {
        StringPart::Text(_) => Ok(()),
        StringPart::Inserted(e) => expr(uses, e, out),
    }
}

/// Adds the notes of a value that is returned, if one is.
#[cycle(walk)]
fn returned(uses: &Uses, held: &Option<Boxed<Expr>>, out: &mut Notes) -> Result<(), NoMemory>
    ensures { OnOk result (out.new.items ≡ out.old.items ++ trees_notes (seen_optional (option_map (seen (named_at uses.now)) held.now))) }
{
    match held {
        Some(e) => expr(uses, e.get(), out),
        None => Ok(()),
    }
}

/// Adds the notes of a value that is assigned, if one is written.
#[cycle(walk)]
fn value(uses: &Uses, held: &Option<Expr>, out: &mut Notes) -> Result<(), NoMemory>
    ensures { OnOk result (out.new.items ≡ out.old.items ++ trees_notes (seen_optional (option_map (seen (named_at uses.now)) held.now))) }
{
    match held {
        Some(e) => expr(uses, e, out),
        None => Ok(()),
    }
}

/// Adds the notes of what a condition leads to.
#[cycle(walk)]
fn branch(uses: &Uses, b: &Branch, out: &mut Notes) -> Result<(), NoMemory>
    ensures { OnOk result (out.new.items ≡ out.old.items ++ branch_notes (named_at uses.now) b.now) }
{
    match b {
        Branch::Braced(block) => stmts(uses, block.statements.as_slice(), out),
        Branch::Single(s) => stmt(uses, s, out),
    }
}

/// Adds the notes of what stands behind `else`, if anything does.
#[cycle(walk)]
fn alternative(uses: &Uses, held: &Option<Boxed<Branch>>, out: &mut Notes) -> Result<(), NoMemory>
    ensures { OnOk result (out.new.items ≡ out.old.items ++ trees_notes (otherwise (option_map (branch_trees (named_at uses.now)) held.now))) }
{
    match held {
        Some(b) => branch(uses, b.get(), out),
        None => Ok(()),
    }
}

/// Adds the notes of statements one behind another.
#[cycle(walk)]
fn stmts(uses: &Uses, statements: &[Stmt], out: &mut Notes) -> Result<(), NoMemory>
    ensures { OnOk result (out.new.items ≡ out.old.items ++ flat_map (stmt_notes (named_at uses.now)) statements.now) }
{
    for x in statements {
        stmt(uses, x, out)?;
    }
    Ok(())
}

/// Adds the notes of a statement and of what is in it.
#[cycle(walk)]
fn stmt(uses: &Uses, s: &Stmt, out: &mut Notes) -> Result<(), NoMemory>
    ensures { OnOk result (out.new.items ≡ out.old.items ++ stmt_notes (named_at uses.now) s.now) }
{
    match s {
        Stmt::Expr(e) => expr(uses, e, out),
        Stmt::Local {
            number,
            name,
            value,
            ..
        } => local(uses, *number, name.span, value, out),
        Stmt::Assign {
            number,
            span,
            target,
            assignment,
            value,
        } => {
            let name = name_of(target);
            assign(uses, *number, *span, name, *assignment, value, out)
        }
        Stmt::While { number, span, .. } => shut(*number, *span, out),
        Stmt::DoWhile { number, span, .. } => shut(*number, *span, out),
        Stmt::For { number, span, .. } => shut(*number, *span, out),
    }
}

/// Adds the notes of the declaration of a local and of its value.
#[cycle(walk)]
fn local(
    uses: &Uses,
    tree: u32,
    word: Span,
    held: &Option<Expr>,
    out: &mut Notes,
) -> Result<(), NoMemory>
    ensures { (at : Span) → OnOk result (out.new.items ≡ out.old.items ++ tree_notes (local_tree (named_at uses.now tree) (named_there tree at word) (option_map (seen (named_at uses.now)) held.now))) }
{
    match uses.named(tree) {
        Named::Variable(_, _) => {
            out.push(of_local(tree, word))?;
            value(uses, held, out)
        }
        _ => shut(tree, word, out),
    }
}

/// Adds the notes of an assignment and of its value. The left side is a name where its span is given.
#[cycle(walk)]
fn assign(
    uses: &Uses,
    tree: u32,
    span: Span,
    name: Option<Span>,
    assignment: Assignment,
    held: &Option<Expr>,
    out: &mut Notes,
) -> Result<(), NoMemory>
    ensures { OnOk result (out.new.items ≡ out.old.items ++ tree_notes (assign_tree (named_at uses.now tree) tree span name assignment (option_map (seen (named_at uses.now)) held.now))) }
{
    match name {
        Some(word) => match uses.named(tree) {
            Named::Variable(x, is_fixed) => {
                out.push(of_assignment(tree, word, x, is_fixed, assignment, held))?;
                value(uses, held, out)
            }
            _ => shut(tree, span, out),
        },
        None => shut(tree, span, out),
    }
}

/// The written body of an owner, if it has one. The bodies of members, getters and classes are not open yet.
fn written<'a>(body: &Body<'a>) -> Option<&'a FunctionBody>
    ensures { owner_trees body.now.file.now body.now.uses.now body.now.owner ≡ body_trees_of (named_at body.now.uses.now) (option_copied result) }
{
    match body.owner {
        Owner::Function(f) => match body.file.functions.as_slice().get(f as usize) {
            Some(function) => match &function.body {
                Some(written) => Some(written),
                None => None,
            },
            None => None,
        },
        _ => None,
    }
}

/// Adds the notes of a body that is written, if one is.
fn written_notes(uses: &Uses, body: Option<&FunctionBody>, out: &mut Notes) -> Result<(), NoMemory>
    ensures { OnOk result (out.new.items ≡ out.old.items ++ trees_notes (body_trees_of (named_at uses.now) (option_copied body.entry))) }
{
    match body {
        Some(written) => match written {
            FunctionBody::Expr(e) => expr(uses, e, out),
            FunctionBody::Block { contract: _, block } => {
                stmts(uses, block.statements.as_slice(), out)
            }
        },
        None => Ok(()),
    }
}

/// The notes of all trees of a body.
pub(crate) fn notes_of(alloc: Global, body: &Body<'_>) -> Result<Notes, NoMemory>
    ensures { IfOk result (λ notes. notes.items ≡ trees_notes (owner_trees body.now.file.now body.now.uses.now body.now.owner)) }
{
    let mut out = Vec::new(alloc);
    written_notes(body.uses, written(body), &mut out)?;
    Ok(out)
}
