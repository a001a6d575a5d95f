//! What the rules ask of a kind of tree.
ghost use Rattle.std.specs.Prelude.{◌≡◌};
ghost use Rattle.std.specs.List.{list_any};
ghost use Rattle.kt_shape.specs.ShapeRules.{kind_shape, stmt_shape, case_shape};

use kt_tree::Span;
use kt_tree::ast::{Access, ExprKind, Stmt, WhenBranch};

/// Whether an expression of that kind may be assigned: a name, or a member behind `.`.
pub(crate) fn is_target(kind: &ExprKind) -> bool
    ensures { result ≡ (kind_shape kind.now).is_target }
{
    match kind {
        ExprKind::Name(_) => true,
        ExprKind::Member { access, .. } => match access {
            Access::Dot => true,
            Access::Safe => false,
        },
        _ => false,
    }
}

/// Whether a branch of a `when` is its `else`.
fn is_else(branch: &WhenBranch) -> bool
    ensures { result ≡ (case_shape branch.now).is_else }
{
    branch.conditions.is_none()
}

/// Whether one of the branches of a `when` is its `else`.
fn has_else(branches: &[WhenBranch]) -> bool
    ensures { result ≡ list_any (λ b. (case_shape b).is_else) branches.now }
{
    branches.iter().any(|b| is_else(b))
}

/// Whether an expression of that kind is an `if` or a `when` without `else`.
pub(crate) fn lacks_else(kind: &ExprKind) -> bool
    ensures { result ≡ (kind_shape kind.now).lacks_else }
{
    match kind {
        ExprKind::If { otherwise, .. } => otherwise.is_none(),
        ExprKind::When { branches, .. } => !has_else(branches.as_slice()),
        _ => false,
    }
}

/// Whether a statement can stand for a value: an expression or a declaration, but no assignment and no loop.
pub(crate) fn is_value(s: &Stmt) -> bool
    ensures { result ≡ (stmt_shape s.now).is_value }
{
    match s {
        Stmt::Expr(_) | Stmt::Local { .. } => true,
        Stmt::Assign { .. } | Stmt::While { .. } | Stmt::DoWhile { .. } | Stmt::For { .. } => false,
    }
}

/// Where a statement stands.
pub(crate) fn span_of(s: &Stmt) -> Span
    ensures { result ≡ (stmt_shape s.now).span }
{
    match s {
        Stmt::Expr(e) => e.span,
        Stmt::Local { span, .. }
        | Stmt::Assign { span, .. }
        | Stmt::While { span, .. }
        | Stmt::DoWhile { span, .. }
        | Stmt::For { span, .. } => *span,
    }
}
