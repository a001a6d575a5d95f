//! The statements by which a block may end without a value: declarations and assignments.
ghost use Rattle.std.specs.Prelude.{◌≡◌, is_some, map};
ghost use Rattle.kt_model.specs.NameUses.{named_at};
ghost use Rattle.kt_model.specs.BodyTrees.{stmt_tree};
ghost use Rattle.kt_infer.specs.Left as spec;

use crate::statements::name_of;
use kt_model::uses::{Named, Uses};
use kt_tree::ast::{Assignment, Stmt};

/// A number, where there is a value.
fn number_if(valued: bool, number: u32) -> Option<u32>
    ensures { result ≡ spec.number_if valued number }
{
    if valued { Some(number) } else { None }
}

/// The number of an assignment.
fn assigned_number(assignment: Assignment, valued: bool, number: u32) -> Option<u32>
    ensures { result ≡ spec.assigned_number assignment valued number }
{
    match assignment {
        Assignment::Plain => number_if(valued, number),
        Assignment::Sum => Some(number),
        Assignment::Arithmetic(_) => Some(number),
    }
}

/// A number, where a name stands for a variable.
fn if_variable(named: Named, number: Option<u32>) -> Option<u32>
    ensures { result ≡ spec.if_variable named number }
{
    match named {
        Named::Variable(_, _) => number,
        _ => None,
    }
}

/// The number of a statement that declares or assigns a variable; `None` of another.
pub fn declared_number(uses: &Uses, s: &Stmt) -> Option<u32>
    ensures { result ≡ spec.declared_number (stmt_tree (named_at uses.now) s.now) }
{
    match s {
        Stmt::Expr(_) => None,
        Stmt::Local { number, .. } => if_variable(uses.named(*number), Some(*number)),
        Stmt::Assign {
            number,
            target,
            assignment,
            value,
            ..
        } => match name_of(target) {
            Some(_) => {
                let assigned = assigned_number(*assignment, value.is_some(), *number);
                if_variable(uses.named(*number), assigned)
            }
            None => None,
        },
        Stmt::While { .. } => None,
        Stmt::DoWhile { .. } => None,
        Stmt::For { .. } => None,
    }
}

/// Whether a tree is in a list. It is asked only at blocks that may never end, and the size of a body is bounded, so that a scan serves.
fn is_in(trees: &[u32], tree: u32) -> bool
    ensures { result ≡ spec.is_in trees.now tree }
{
    trees.contains(&tree)
}

/// Whether a block never ends, by whether a statement of it is of type `Nothing`, and the number of its last, where that declares or assigns.
pub fn never_left(left: &[u32], nothing: bool, number: Option<u32>) -> bool
    ensures { result ≡ spec.never_left left.now nothing number }
{
    match number {
        Some(number) => nothing && !is_in(left, number),
        None => false,
    }
}
