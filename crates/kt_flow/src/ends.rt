//! Whether a path leads to the end of a block that must give a value.
ghost use Rattle.std.specs.Prelude.{◌≡◌, ◌≢◌, ◌↔◌, ℕ, length, map, Some, IsTrue, OnOk};
ghost use Rattle.kt_model.specs.BodyTrees.{expr_tree, stmt_tree, listed};
ghost use Rattle.kt_model.specs.BuiltIns.{unit_type};
ghost use Rattle.kt_model.specs.Findings.{Adds};
ghost use Rattle.kt_model.specs.NameUses.{declaration_type, function_place};
ghost use Rattle.kt_model.specs.declared.uses.Named.{Named};
ghost use Rattle.kt_init.specs.Statuses.{Analyses};
ghost use Rattle.kt_flow.specs.Ends.{followed, FallsThrough, IsAgainstEnd, IsEndAt, IsLeftBefore};

use crate::along::{Found, Paths};
use crate::left::leaves;
use crate::limits::add_if;
use kt_model::finding::Rule;
use kt_model::kinds::{Head, KtType};
use kt_model::uses::{Body, Owner, Uses};
use kt_tree::NoMemory;
use kt_tree::ast::{Expr, ExprKind, FunctionBody, Stmt};

/// `Unit`
const UNIT: KtType = KtType {
    head: Head::Unit,
    nullable: false,
};

/// Whether the written result of a function of the file is other than `Unit`.
fn gives_value(uses: &Uses, function: u32) -> bool
    ensures { IsTrue result ↔ (declaration_type uses.now (function_place function) ≢ Some unit_type) }
{
    match uses.function_result(function) {
        Some(t) => t != UNIT,
        None => true,
    }
}

/// The number of an expression, where it can be followed: it is neither a `return` nor a `throw`.
fn followed_expr(e: &Expr) -> Option<u32>
    ensures { (uses : ℕ → Named) → followed (expr_tree uses e.now) ≡ result }
{
    match &e.kind {
        ExprKind::Return { label, value: _ } => match label {
            None => None,
            Some(_) => Some(e.number),
        },
        ExprKind::Throw(_) => None,
        _ => Some(e.number),
    }
}

/// The number of a statement, where it can be followed.
fn followed_stmt(s: &Stmt) -> Option<u32>
    ensures { (uses : ℕ → Named) → followed (stmt_tree uses s.now) ≡ result }
{
    match s {
        Stmt::Expr(e) => followed_expr(e),
        Stmt::Local { number, .. } => Some(*number),
        Stmt::Assign { number, .. } => Some(*number),
        Stmt::While { number, .. } => Some(*number),
        Stmt::DoWhile { number, .. } => Some(*number),
        Stmt::For { number, .. } => Some(*number),
    }
}

impl Paths<'_> {
    /// Whether a path ends at the `out` of a tree, among so many nodes.
    fn is_left(&self, tree: u32, end: u32) -> bool
        requires analysed { Analyses self.now.graph.now self.now.init.now }
        requires within { end ≡ length self.now.graph.now.nodes }
        ensures { IsTrue result ↔ IsLeftBefore self.now.graph.now tree end }
    {
        for node in 0..end {
            if leaves(self.graph, self.init, tree, node) {
                return true;
            }
        }
        false
    }

    /// Whether the end of statements is reached, in a body with so many nodes.
    fn is_end_reached(&self, statements: &[Stmt], end: u32) -> bool
        requires analysed { Analyses self.now.graph.now self.now.init.now }
        requires within { end ≡ length self.now.graph.now.nodes }
        ensures { (uses : ℕ → Named) → IsTrue result ↔ IsEndAt self.now.graph.now (listed (map (stmt_tree uses) statements.now)) }
    {
        match statements.last() {
            Some(s) => match followed_stmt(s) {
                Some(tree) => self.is_left(tree, end),
                None => false,
            },
            None => true,
        }
    }

    /// Whether the end of a function's body is reached that is a block and must give a value.
    fn falls_through(&self, uses: &Uses, place: u32, body: &FunctionBody, end: u32) -> bool
        requires analysed { Analyses self.now.graph.now self.now.init.now }
        requires within { end ≡ length self.now.graph.now.nodes }
        ensures { IsTrue result ↔ FallsThrough self.now.graph.now uses.now place body.now }
    {
        match body {
            FunctionBody::Expr(_) => false,
            FunctionBody::Block { contract: _, block } => {
                gives_value(uses, place) && self.is_end_reached(block.statements.as_slice(), end)
            }
        }
    }

    /// Adds the end of a body that is reached without a value, at the function's name.
    pub(crate) fn add_end(
        &self,
        body: &Body<'_>,
        end: u32,
        found: &mut Found,
    ) -> Result<(), NoMemory>
        requires analysed { Analyses self.now.graph.now self.now.init.now }
        requires within { end ≡ length self.now.graph.now.nodes }
        ensures { OnOk result (Adds (IsAgainstEnd body.now.file.now body.now.uses.now self.now.graph.now body.now.owner) found.old.items found.new.items) }
    {
        let Owner::Function(place) = body.owner else {
            return Ok(());
        };
        match body.file.functions.as_slice().get(place as usize) {
            Some(function) => match &function.body {
                Some(written) => {
                    let falls = self.falls_through(body.uses, place, written, end);
                    add_if(falls, Rule::NoReturn, function.name.span, found)
                }
                None => Ok(()),
            },
            None => Ok(()),
        }
    }
}
