//! The walk over statements.
ghost use Rattle.std.specs.Prelude.{◌≡◌, ℕ, IfOk, List, [], ◌∷◌, map, option_map, Some, None, Bool};
ghost use Rattle.kt_tree.specs.declared.token.Span.{Span};
ghost use Rattle.kt_model.specs.declared.uses.Named.{Named};
ghost use Rattle.kt_model.specs.NameUses.{named_at};
ghost use Rattle.kt_model.specs.BodyTrees.{Operation, stmt_tree, listed, seen, name_span, local_tree, assign_tree, assigned_tree, named_there};
ghost use Rattle.kt_graph.specs.Building.{WalksTree, WalksTrees};

use crate::building::{Builder, Exits, FlowContext};
use crate::leaving::{assigns, bring, declares, reads};
use kt_model::graph::Tag;
use kt_model::uses::{Named, Uses};
use kt_tree::NoMemory;
use kt_tree::ast::{Assignment, Expr, ExprKind, Stmt};
use sqlite_items::Items;

/// Whether an expression is a name that stands alone.
pub fn is_name(e: &Expr) -> bool
    ensures { (uses : ℕ → Named) → (seen uses e.now).name ≡ name_span result e.now.span }
{
    match &e.kind {
        ExprKind::Name(_) => true,
        _ => false,
    }
}

impl Builder {
    /// Adds statements one behind another.
    #[cycle(walk)]
    pub fn statements(
        &mut self,
        uses: &Uses,
        context: FlowContext<'_>,
        next: Option<u32>,
        statements: &[Stmt],
    ) -> Result<Option<u32>, NoMemory>
        ensures { IfOk result (λ n. WalksTrees self.old self.new (listed (map (stmt_tree (named_at uses.now)) statements.now)) context.entry next n) }
    {
        let mut place = next;
        let mut i = statements.len();
        while i > 0 {
            i -= 1;
            let n = self.stmt(uses, context, place, &statements[i])?;
            place = Some(n);
        }
        Ok(place)
    }

    /// Adds a statement, and gives its `in`.
    #[cycle(walk)]
    pub fn stmt(
        &mut self,
        uses: &Uses,
        context: FlowContext<'_>,
        next: Option<u32>,
        s: &Stmt,
    ) -> Result<u32, NoMemory>
        ensures { IfOk result (λ n. WalksTree self.old self.new (stmt_tree (named_at uses.now) s.now) context.entry (Exits.Then next) n) }
    {
        let exits = Exits::Then(next);
        match s {
            Stmt::Expr(e) => {
                let n = self.expr(uses, context, exits, e)?;
                Ok(n)
            }
            Stmt::Local { number, value, .. } => {
                let n = self.local(uses, context, next, *number, value)?;
                Ok(n)
            }
            Stmt::Assign {
                number,
                target,
                assignment,
                value,
                ..
            } => {
                let is_name = is_name(target);
                let n = self.assign(uses, context, next, *number, is_name, *assignment, value)?;
                Ok(n)
            }
            Stmt::While { number, .. } => {
                let n = self.shut(context, exits, *number)?;
                Ok(n)
            }
            Stmt::DoWhile { number, .. } => {
                let n = self.shut(context, exits, *number)?;
                Ok(n)
            }
            Stmt::For { number, .. } => {
                let n = self.shut(context, exits, *number)?;
                Ok(n)
            }
        }
    }

    /// Adds the declaration of a local.
    #[cycle(walk)]
    pub fn local(
        &mut self,
        uses: &Uses,
        context: FlowContext<'_>,
        next: Option<u32>,
        tree: u32,
        value: &Option<Expr>,
    ) -> Result<u32, NoMemory>
        ensures { IfOk result (λ n. (at word : Span) → WalksTree self.old self.new (local_tree (named_at uses.now tree) (named_there tree at word) (option_map (seen (named_at uses.now)) value.now)) context.entry (Exits.Then next) n) }
    {
        let exits = Exits::Then(next);
        match uses.named(tree) {
            Named::Variable(local, _) => match value {
                None => {
                    let effects = declares(self.alloc, local)?;
                    let out = self.leave(context, exits, tree, effects)?;
                    let n = self.enter(context, tree, Some(out))?;
                    Ok(n)
                }
                Some(e) => {
                    let mut effects = Items::new(self.alloc);
                    bring(&mut effects, self.alloc, local)?;
                    let out = self.leave(context, exits, tree, effects)?;
                    let a = self.expr(uses, context, Exits::Then(Some(out)), e)?;
                    let n = self.enter(context, tree, Some(a))?;
                    Ok(n)
                }
            },
            _ => {
                let n = self.shut(context, exits, tree)?;
                Ok(n)
            }
        }
    }

    /// Adds an assignment.
    #[cycle(walk)]
    pub fn assign(
        &mut self,
        uses: &Uses,
        context: FlowContext<'_>,
        next: Option<u32>,
        tree: u32,
        is_name: bool,
        assignment: Assignment,
        value: &Option<Expr>,
    ) -> Result<u32, NoMemory>
        ensures { IfOk result (λ n. (at word : Span) → WalksTree self.old self.new (assign_tree (named_at uses.now tree) tree at (name_span is_name word) assignment (option_map (seen (named_at uses.now)) value.now)) context.entry (Exits.Then next) n) }
    {
        if !is_name {
            let n = self.shut(context, Exits::Then(next), tree)?;
            return Ok(n);
        }
        match uses.named(tree) {
            Named::Variable(local, _) => match assignment {
                Assignment::Plain => {
                    let n = self.plain(uses, context, next, tree, local, value)?;
                    Ok(n)
                }
                Assignment::Sum => {
                    let n = self.compound(uses, context, next, tree, local, value)?;
                    Ok(n)
                }
                Assignment::Arithmetic(_) => {
                    let n = self.compound(uses, context, next, tree, local, value)?;
                    Ok(n)
                }
            },
            _ => {
                let n = self.shut(context, Exits::Then(next), tree)?;
                Ok(n)
            }
        }
    }

    /// Adds an assignment by `=`.
    #[cycle(walk)]
    pub fn plain(
        &mut self,
        uses: &Uses,
        context: FlowContext<'_>,
        next: Option<u32>,
        tree: u32,
        local: u32,
        value: &Option<Expr>,
    ) -> Result<u32, NoMemory>
        ensures { IfOk result (λ n. (at word : Span) (fixed : Bool) → WalksTree self.old self.new (assigned_tree (named_there tree at word) local fixed None (option_map (seen (named_at uses.now)) value.now)) context.entry (Exits.Then next) n) }
    {
        let exits = Exits::Then(next);
        match value {
            Some(e) => {
                let effects = assigns(self.alloc, local)?;
                let out = self.leave(context, exits, tree, effects)?;
                let a = self.expr(uses, context, Exits::Then(Some(out)), e)?;
                let n = self.enter(context, tree, Some(a))?;
                Ok(n)
            }
            None => {
                let n = self.shut(context, exits, tree)?;
                Ok(n)
            }
        }
    }

    /// Adds an assignment that reads its local first.
    #[cycle(walk)]
    pub fn compound(
        &mut self,
        uses: &Uses,
        context: FlowContext<'_>,
        next: Option<u32>,
        tree: u32,
        local: u32,
        value: &Option<Expr>,
    ) -> Result<u32, NoMemory>
        ensures { IfOk result (λ n. (at word : Span) (fixed : Bool) (o : Operation) → WalksTree self.old self.new (assigned_tree (named_there tree at word) local fixed (Some o) (option_map (seen (named_at uses.now)) value.now)) context.entry (Exits.Then next) n) }
    {
        let effects = assigns(self.alloc, local)?;
        let out = self.leave(context, Exits::Then(next), tree, effects)?;
        let old = reads(self.alloc, local)?;
        match value {
            Some(e) => {
                let a = self.expr(uses, context, Exits::Then(Some(out)), e)?;
                let n = self.step(context, tree, Tag::In, old, Some(a))?;
                Ok(n)
            }
            None => {
                let n = self.step(context, tree, Tag::In, old, Some(out))?;
                Ok(n)
            }
        }
    }
}
