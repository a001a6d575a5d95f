//! What the rules along paths look at in a tree.
ghost use Rattle.std.specs.Prelude.{◌≡◌, ℕ, Bool, Option, option_map};
ghost use Rattle.kt_model.specs.declared.uses.Named.{Named};
ghost use Rattle.kt_tree.specs.declared.token.Span.{Span};
ghost use Rattle.kt_model.specs.NameUses.{named_at};
ghost use Rattle.kt_model.specs.BodyTrees.{Seen, seen, expr_tree, name_tree, local_tree, assigned_tree, compound_of, named_there};
ghost use Rattle.kt_flow.specs.Notes.{note, plain_note};
ghost use Rattle.kt_model.specs.declared.uses.Named.TheVariants.{Variable};

use kt_model::uses::{Named, Uses};
use kt_tree::Span;
use kt_tree::ast::{Assignment, Expr, ExprKind};

/// What a tree itself does to locals.
#[derive(Clone, Copy, Debug)]
pub(crate) struct TreeNote {
    pub(crate) tree: u32,
    /// The span of the name that it declares, reads, assigns or calls, its own where it has none.
    pub(crate) word: Span,
    /// The local that it reads.
    pub(crate) read: Option<u32>,
    /// The `val` or parameter that it assigns.
    pub(crate) fixed: Option<u32>,
    /// Whether it declares a local.
    pub(crate) declares: bool,
}

/// The note of a tree that does nothing to a local.
pub(crate) fn plain(tree: u32, word: Span) -> TreeNote
    ensures { result ≡ plain_note tree word }
{
    TreeNote {
        tree,
        word,
        read: None,
        fixed: None,
        declares: false,
    }
}

/// The note of a name that stands alone.
#[tactic(auto, unfolding(crate::specs::Notes::note, crate::specs::Notes::declares_local))]
fn of_name(uses: &Uses, tree: u32, at: Span) -> TreeNote
    ensures { result ≡ note (name_tree (named_at uses.now tree) tree at) }
{
    let plain = plain(tree, at);
    match uses.named(tree) {
        Named::Variable(x, _) => TreeNote {
            read: Some(x),
            ..plain
        },
        _ => plain,
    }
}

/// The note of an expression.
pub(crate) fn of_expr(uses: &Uses, e: &Expr) -> TreeNote
    ensures { result ≡ note (expr_tree (named_at uses.now) e.now) }
{
    match &e.kind {
        ExprKind::Name(_) => of_name(uses, e.number, e.span),
        ExprKind::Call {
            callee,
            arguments: _,
            lambda,
        } => match lambda {
            None => plain(e.number, callee.span),
            Some(_) => plain(e.number, e.span),
        },
        _ => plain(e.number, e.span),
    }
}

/// The note of the declaration of a local.
#[tactic(auto, unfolding(crate::specs::Notes::note, crate::specs::Notes::declares_local))]
pub(crate) fn of_local(tree: u32, word: Span) -> TreeNote
    ensures { (at : Span) (x : ℕ) (fixed : Bool) (value : Option Seen) → result ≡ note (local_tree (Variable x fixed) (named_there tree at word) value) }
{
    TreeNote {
        declares: true,
        ..plain(tree, word)
    }
}

/// The note of an assignment of a local.
#[tactic(auto, unfolding(crate::specs::Notes::note, crate::specs::Notes::declares_local))]
pub(crate) fn of_assignment(
    tree: u32,
    word: Span,
    local: u32,
    is_fixed: bool,
    assignment: Assignment,
    value: &Option<Expr>,
) -> TreeNote
    ensures { (at : Span) (uses : ℕ → Named) → result ≡ note (assigned_tree (named_there tree at word) local is_fixed (compound_of assignment) (option_map (seen uses) value.now)) }
{
    let plain = plain(tree, word);
    let fixed = if is_fixed { Some(local) } else { None };
    match assignment {
        Assignment::Plain => match value {
            Some(_) => TreeNote { fixed, ..plain },
            None => plain,
        },
        Assignment::Sum | Assignment::Arithmetic(_) => TreeNote {
            read: Some(local),
            fixed,
            ..plain
        },
    }
}
