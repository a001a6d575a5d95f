//! How many nodes the graph of a body has, before any is made. Counts stand still one past the most that a graph may have.
ghost use Rattle.std.specs.Prelude.{◌≡◌, ℕ, ◌+◌, List, [], ◌∷◌, map, option_map, Some, None, Bool, false};
ghost use Rattle.kt_tree.specs.declared.token.Span.{Span};
ghost use Rattle.kt_model.specs.NameUses.{named_at};
ghost use Rattle.kt_model.specs.BodyTrees.{Operation, expr_tree, stmt_tree, branch_trees, piece, seen, seen_trees, seen_optional, inserted_of, listed, otherwise, name_span, name_tree, call_tree, local_tree, assign_tree, assigned_tree, named_there, Mark};
ghost use Rattle.kt_graph.specs.Sizes.{size, all_size, own_size, capped, Adds};

use crate::statements::is_name;
use kt_model::uses::{Named, Uses};
use kt_tree::ast::{Assignment, Branch, Expr, ExprKind, Stmt, StringPart};
use sqlite_items::Boxed;

/// One more than the most nodes of a graph.
const PAST: u32 = 65537;

/// The count of two parts together.
pub fn add(a: u32, b: u32) -> u32
    ensures { Adds a b result }
{
    a.saturating_add(b).min(PAST)
}

/// A tree's `in` and `out`, and what assumes its outcome where it is a condition.
fn own(branching: bool) -> u32
    ensures { result ≡ capped (own_size branching) }
{
    if branching { 4 } else { 2 }
}

/// The nodes of a name that stands alone.
fn name(uses: &Uses, branching: bool, tree: u32) -> u32
    ensures { (at : Span) → result ≡ capped (size branching (name_tree (named_at uses.now tree) tree at)) }
{
    match uses.named(tree) {
        Named::Variable(_, _) => own(branching),
        _ => 1,
    }
}

/// The nodes of an expression.
#[cycle(count)]
pub fn expr(uses: &Uses, branching: bool, e: &Expr) -> u32
    ensures { result ≡ capped (size branching (expr_tree (named_at uses.now) e.now)) }
{
    match &e.kind {
        ExprKind::Int(_) | ExprKind::Bool(_) | ExprKind::Null => own(branching),
        ExprKind::Name(_) => name(uses, branching, e.number),
        ExprKind::Template(parts) => add(own(branching), pieces(uses, parts.as_slice())),
        ExprKind::Paren(a) => add(2, expr(uses, branching, a.get())),
        ExprKind::Call {
            callee: _,
            arguments,
            lambda,
        } => match lambda {
            None => call(uses, branching, e.number, arguments.as_slice()),
            Some(_) => 1,
        },
        ExprKind::Sign(_, a) => add(own(branching), expr(uses, false, a.get())),
        ExprKind::Not(a) => add(2, expr(uses, true, a.get())),
        ExprKind::Sum(a, b)
        | ExprKind::Arithmetic(_, a, b)
        | ExprKind::Compare(_, a, b)
        | ExprKind::Equal(_, a, b) => {
            let parts = add(expr(uses, false, a.get()), expr(uses, false, b.get()));
            add(own(branching), parts)
        }
        ExprKind::And(a, b) | ExprKind::Or(a, b) => {
            add(2, add(expr(uses, true, a.get()), expr(uses, true, b.get())))
        }
        ExprKind::If {
            condition,
            then,
            otherwise,
        } => {
            let branches = add(branch(uses, then.get()), alternative(uses, otherwise));
            let parts = add(expr(uses, true, condition.get()), branches);
            add(own(branching), parts)
        }
        ExprKind::Return { label, value } => match label {
            None => add(2, optional(uses, value)),
            Some(_) => 1,
        },
        ExprKind::Throw(a) => add(2, expr(uses, false, a.get())),
        _ => 1,
    }
}

/// The nodes of expressions one behind another.
#[cycle(count)]
pub fn arguments(uses: &Uses, arguments: &[Expr]) -> u32
    ensures { result ≡ capped (all_size (seen_trees (map (seen (named_at uses.now)) arguments.now))) }
{
    let mut total = 0;
    let mut i = arguments.len();
    while i > 0 {
        i -= 1;
        let one = expr(uses, false, &arguments[i]);
        total = add(one, total);
    }
    total
}

/// The nodes of a call without a lambda.
#[cycle(count)]
pub fn call(uses: &Uses, branching: bool, tree: u32, parts: &[Expr]) -> u32
    ensures { (at word : Span) → result ≡ capped (size branching (call_tree (named_at uses.now tree) (seen_trees (map (seen (named_at uses.now)) parts.now)) (named_there tree at word))) }
{
    match uses.named(tree) {
        Named::Function(_, _) => {
            let parts = arguments(uses, parts);
            let own = own(branching);
            add(own, parts)
        }
        Named::BuiltIn(_, _) => {
            let parts = arguments(uses, parts);
            let own = own(branching);
            add(own, parts)
        }
        _ => 1,
    }
}

/// The nodes of what is inserted into a string.
#[cycle(count)]
pub fn pieces(uses: &Uses, parts: &[StringPart]) -> u32
    ensures { result ≡ capped (all_size (inserted_of (map (piece (named_at uses.now)) parts.now))) }
{
    let mut total = 0;
    let mut i = parts.len();
    while i > 0 {
        i -= 1;
        let one = inserted(uses, &parts[i]);
        total = add(one, total);
    }
    total
}

/// The nodes of what one part of a string inserts.
#[cycle(count)]
pub fn inserted(uses: &Uses, part: &StringPart) -> u32
    ensures { result ≡ capped (all_size (inserted_of (piece (named_at uses.now) part.now ∷ []))) }
{
    match part {
        StringPart::Text(_) => 0,
        StringPart::Inserted(e) => expr(uses, false, e),
    }
}

/// The nodes of a value that may not be written.
#[cycle(count)]
pub fn optional(uses: &Uses, value: &Option<Boxed<Expr>>) -> u32
    ensures { result ≡ capped (all_size (seen_optional (option_map (seen (named_at uses.now)) value.now))) }
{
    match value {
        None => 0,
        Some(e) => expr(uses, false, e.get()),
    }
}

/// The nodes of what a condition leads to.
#[cycle(count)]
pub fn branch(uses: &Uses, b: &Branch) -> u32
    ensures { result ≡ capped (all_size (branch_trees (named_at uses.now) b.now)) }
{
    match b {
        Branch::Braced(block) => statements(uses, block.statements.as_slice()),
        Branch::Single(s) => stmt(uses, s),
    }
}

/// The nodes of what stands behind `else`, if anything does.
#[cycle(count)]
pub fn alternative(uses: &Uses, b: &Option<Boxed<Branch>>) -> u32
    ensures { result ≡ capped (all_size (otherwise (option_map (branch_trees (named_at uses.now)) b.now))) }
{
    match b {
        None => 0,
        Some(b) => branch(uses, b.get()),
    }
}

/// The nodes of statements one behind another.
#[cycle(count)]
pub fn statements(uses: &Uses, statements: &[Stmt]) -> u32
    ensures { result ≡ capped (all_size (listed (map (stmt_tree (named_at uses.now)) statements.now))) }
{
    let mut total = 0;
    let mut i = statements.len();
    while i > 0 {
        i -= 1;
        let one = stmt(uses, &statements[i]);
        total = add(one, total);
    }
    total
}

/// The nodes of a statement.
#[cycle(count)]
pub fn stmt(uses: &Uses, s: &Stmt) -> u32
    ensures { result ≡ capped (size false (stmt_tree (named_at uses.now) s.now)) }
{
    match s {
        Stmt::Expr(e) => expr(uses, false, e),
        Stmt::Local { number, value, .. } => local(uses, *number, value),
        Stmt::Assign {
            number,
            target,
            assignment,
            value,
            ..
        } => {
            let is_name = is_name(target);
            assign(uses, *number, is_name, *assignment, value)
        }
        Stmt::While { .. } => 1,
        Stmt::DoWhile { .. } => 1,
        Stmt::For { .. } => 1,
    }
}

/// The nodes of the declaration of a local.
#[cycle(count)]
pub fn local(uses: &Uses, tree: u32, value: &Option<Expr>) -> u32
    ensures { (at word : Span) → result ≡ capped (size false (local_tree (named_at uses.now tree) (named_there tree at word) (option_map (seen (named_at uses.now)) value.now))) }
{
    match uses.named(tree) {
        Named::Variable(_, _) => match value {
            None => 2,
            Some(e) => {
                let a = expr(uses, false, e);
                add(2, a)
            }
        },
        _ => 1,
    }
}

/// The nodes of an assignment.
#[cycle(count)]
pub fn assign(
    uses: &Uses,
    tree: u32,
    is_name: bool,
    assignment: Assignment,
    value: &Option<Expr>,
) -> u32
    ensures { (at word : Span) → result ≡ capped (size false (assign_tree (named_at uses.now tree) tree at (name_span is_name word) assignment (option_map (seen (named_at uses.now)) value.now))) }
{
    if !is_name {
        return 1;
    }
    match uses.named(tree) {
        Named::Variable(_, _) => match assignment {
            Assignment::Plain => plain(uses, value),
            Assignment::Sum => compound(uses, value),
            Assignment::Arithmetic(_) => compound(uses, value),
        },
        _ => 1,
    }
}

/// The nodes of an assignment by `=`.
#[cycle(count)]
pub fn plain(uses: &Uses, value: &Option<Expr>) -> u32
    ensures { (m : Mark) (x : ℕ) (fixed : Bool) → result ≡ capped (size false (assigned_tree m x fixed None (option_map (seen (named_at uses.now)) value.now))) }
{
    match value {
        None => 1,
        Some(e) => {
            let a = expr(uses, false, e);
            add(2, a)
        }
    }
}

/// The nodes of an assignment that reads its local first.
#[cycle(count)]
pub fn compound(uses: &Uses, value: &Option<Expr>) -> u32
    ensures { (m : Mark) (x : ℕ) (fixed : Bool) (o : Operation) → result ≡ capped (size false (assigned_tree m x fixed (Some o) (option_map (seen (named_at uses.now)) value.now))) }
{
    match value {
        None => 2,
        Some(e) => {
            let a = expr(uses, false, e);
            add(2, a)
        }
    }
}
