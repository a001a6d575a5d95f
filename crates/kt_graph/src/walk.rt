//! The walk over a body's trees, each from its end to its beginning: what follows a tree then has its numbers before the tree.
ghost use Rattle.std.specs.Prelude.{◌≡◌, IfOk, List, [], ◌∷◌, map, option_map, true};
ghost use Rattle.kt_tree.specs.declared.token.Span.{Span};
ghost use Rattle.kt_model.specs.NameUses.{named_at};
ghost use Rattle.kt_model.specs.BodyTrees.{expr_tree, branch_trees, piece, seen, seen_trees, inserted_of, call_tree, seen_optional, named_there};
ghost use Rattle.kt_model.specs.BodyTrees as body;
ghost use Rattle.kt_graph.specs.Building.{WalksTree, WalksTrees};
ghost use Rattle.kt_graph.specs.Straight.{IsStraight};

use crate::building::{Builder, Exits, FlowContext};
use crate::leaving::place_if;
use kt_model::uses::{Named, Uses};
use kt_tree::NoMemory;
use kt_tree::ast::{Branch, Expr, ExprKind, StringPart};
use sqlite_items::Boxed;

impl Builder {
    /// Adds an expression, and gives its `in`.
    #[cycle(walk)]
    pub fn expr(
        &mut self,
        uses: &Uses,
        context: FlowContext<'_>,
        exits: Exits,
        e: &Expr,
    ) -> Result<u32, NoMemory>
        ensures { IfOk result (λ n. WalksTree self.old self.new (expr_tree (named_at uses.now) e.now) context.entry exits n) }
    {
        let tree = e.number;
        match &e.kind {
            ExprKind::Not(a) => {
                let (on_true, on_false) = self.test(context, exits, tree)?;
                let a = self.expr(uses, context, Exits::Branch(on_false, on_true), a.get())?;
                self.enter(context, tree, Some(a))
            }
            ExprKind::And(a, b) => {
                let (on_true, on_false) = self.test(context, exits, tree)?;
                let b = self.expr(uses, context, Exits::Branch(on_true, on_false), b.get())?;
                let a = self.expr(uses, context, Exits::Branch(Some(b), on_false), a.get())?;
                self.enter(context, tree, Some(a))
            }
            ExprKind::Or(a, b) => {
                let (on_true, on_false) = self.test(context, exits, tree)?;
                let b = self.expr(uses, context, Exits::Branch(on_true, on_false), b.get())?;
                let a = self.expr(uses, context, Exits::Branch(on_true, Some(b)), a.get())?;
                self.enter(context, tree, Some(a))
            }
            ExprKind::If {
                condition,
                then,
                otherwise,
            } => {
                let out = self.close(context, exits, tree)?;
                let on_false = self.otherwise(uses, context, Some(out), otherwise)?;
                let on_true = self.branch(uses, context, Some(out), then.get())?;
                let branches = Exits::Branch(on_true, on_false);
                let c = self.expr(uses, context, branches, condition.get())?;
                self.enter(context, tree, Some(c))
            }
            ExprKind::Return { label, value } => match label {
                None => self.returned(uses, context, exits, tree, value),
                Some(_) => self.shut(context, exits, tree),
            },
            ExprKind::Throw(a) => self.thrown(uses, context, tree, a.get()),
            _ => self.straight(uses, context, exits, e),
        }
    }

    /// Adds an expression that neither branches nor jumps: all of its parts are evaluated, one behind another.
    #[cycle(walk)]
    fn straight(
        &mut self,
        uses: &Uses,
        context: FlowContext<'_>,
        exits: Exits,
        e: &Expr,
    ) -> Result<u32, NoMemory>
        ensures { IsStraight e.now.kind → IfOk result (λ n. WalksTree self.old self.new (expr_tree (named_at uses.now) e.now) context.entry exits n) }
    {
        let tree = e.number;
        match &e.kind {
            ExprKind::Int(_) | ExprKind::Bool(_) | ExprKind::Null => {
                self.leaf(context, exits, tree)
            }
            ExprKind::Name(_) => self.name(uses, context, exits, tree),
            ExprKind::Template(parts) => {
                let out = self.close(context, exits, tree)?;
                let first = self.pieces(uses, context, Some(out), parts.as_slice())?;
                self.enter(context, tree, first)
            }
            ExprKind::Paren(a) => {
                let inner = self.enclose(context, exits, tree)?;
                let a = self.expr(uses, context, inner, a.get())?;
                self.enter(context, tree, Some(a))
            }
            ExprKind::Call {
                callee: _,
                arguments,
                lambda,
            } => match lambda {
                None => self.call(uses, context, exits, tree, arguments.as_slice()),
                Some(_) => self.shut(context, exits, tree),
            },
            ExprKind::Sign(_, a) => {
                let out = self.close(context, exits, tree)?;
                let a = self.expr(uses, context, Exits::Then(Some(out)), a.get())?;
                self.enter(context, tree, Some(a))
            }
            ExprKind::Sum(a, b)
            | ExprKind::Arithmetic(_, a, b)
            | ExprKind::Compare(_, a, b)
            | ExprKind::Equal(_, a, b) => {
                let out = self.close(context, exits, tree)?;
                let b = self.expr(uses, context, Exits::Then(Some(out)), b.get())?;
                let a = self.expr(uses, context, Exits::Then(Some(b)), a.get())?;
                self.enter(context, tree, Some(a))
            }
            _ => self.shut(context, exits, tree),
        }
    }

    /// Adds expressions one behind another.
    #[cycle(walk)]
    pub fn arguments(
        &mut self,
        uses: &Uses,
        context: FlowContext<'_>,
        next: Option<u32>,
        arguments: &[Expr],
    ) -> Result<Option<u32>, NoMemory>
        ensures { IfOk result (λ n. WalksTrees self.old self.new (seen_trees (map (seen (named_at uses.now)) arguments.now)) context.entry next n) }
    {
        let mut place = next;
        let mut i = arguments.len();
        while i > 0 {
            i -= 1;
            let n = self.expr(uses, context, Exits::Then(place), &arguments[i])?;
            place = Some(n);
        }
        Ok(place)
    }

    /// Adds a call without a lambda.
    #[cycle(walk)]
    pub fn call(
        &mut self,
        uses: &Uses,
        context: FlowContext<'_>,
        exits: Exits,
        tree: u32,
        arguments: &[Expr],
    ) -> Result<u32, NoMemory>
        ensures { IfOk result (λ n. (at word : Span) → WalksTree self.old self.new (call_tree (named_at uses.now tree) (seen_trees (map (seen (named_at uses.now)) arguments.now)) (named_there tree at word)) context.entry exits n) }
    {
        match uses.named(tree) {
            Named::Function(_, returns) => {
                let out = self.close(context, exits, tree)?;
                let next = place_if(returns, out);
                let first = self.arguments(uses, context, next, arguments)?;
                let n = self.enter(context, tree, first)?;
                Ok(n)
            }
            Named::BuiltIn(_, returns) => {
                let out = self.close(context, exits, tree)?;
                let next = place_if(returns, out);
                let first = self.arguments(uses, context, next, arguments)?;
                let n = self.enter(context, tree, first)?;
                Ok(n)
            }
            _ => {
                let n = self.shut(context, exits, tree)?;
                Ok(n)
            }
        }
    }

    /// Adds what is inserted into a string.
    #[cycle(walk)]
    pub fn pieces(
        &mut self,
        uses: &Uses,
        context: FlowContext<'_>,
        next: Option<u32>,
        parts: &[StringPart],
    ) -> Result<Option<u32>, NoMemory>
        ensures { IfOk result (λ n. WalksTrees self.old self.new (inserted_of (map (piece (named_at uses.now)) parts.now)) context.entry next n) }
    {
        let mut place = next;
        let mut i = parts.len();
        while i > 0 {
            i -= 1;
            place = self.piece(uses, context, place, &parts[i])?;
        }
        Ok(place)
    }

    /// Adds what one part of a string inserts.
    #[cycle(walk)]
    pub fn piece(
        &mut self,
        uses: &Uses,
        context: FlowContext<'_>,
        next: Option<u32>,
        part: &StringPart,
    ) -> Result<Option<u32>, NoMemory>
        ensures { IfOk result (λ n. WalksTrees self.old self.new (inserted_of (piece (named_at uses.now) part.now ∷ [])) context.entry next n) }
    {
        match part {
            StringPart::Text(_) => Ok(next),
            StringPart::Inserted(e) => {
                let n = self.expr(uses, context, Exits::Then(next), e)?;
                Ok(Some(n))
            }
        }
    }

    /// Adds a `return` of the function.
    #[cycle(walk)]
    pub fn returned(
        &mut self,
        uses: &Uses,
        context: FlowContext<'_>,
        exits: Exits,
        tree: u32,
        value: &Option<Boxed<Expr>>,
    ) -> Result<u32, NoMemory>
        ensures { IfOk result (λ n. (at word : Span) → WalksTree self.old self.new (body.Return' (named_there tree at word) (seen_optional (option_map (seen (named_at uses.now)) value.now))) context.entry exits n) }
    {
        let _exits = exits;
        let out = self.jump(context, tree, context.returns)?;
        match value {
            None => {
                let n = self.enter(context, tree, Some(out))?;
                Ok(n)
            }
            Some(a) => {
                let a = self.expr(uses, context, Exits::Then(Some(out)), a.get())?;
                let n = self.enter(context, tree, Some(a))?;
                Ok(n)
            }
        }
    }

    /// Adds a `throw`.
    #[cycle(walk)]
    fn thrown(
        &mut self,
        uses: &Uses,
        context: FlowContext<'_>,
        tree: u32,
        a: &Expr,
    ) -> Result<u32, NoMemory>
        ensures { IfOk result (λ n. (exits : Exits) (at word : Span) → WalksTree self.old self.new (body.Throw' (named_there tree at word) (expr_tree (named_at uses.now) a.now)) context.entry exits n) }
    {
        let out = self.jump(context, tree, None)?;
        let a = self.expr(uses, context, Exits::Then(Some(out)), a)?;
        let n = self.enter(context, tree, Some(a))?;
        Ok(n)
    }

    /// Adds what a condition leads to.
    #[cycle(walk)]
    pub fn branch(
        &mut self,
        uses: &Uses,
        context: FlowContext<'_>,
        next: Option<u32>,
        b: &Branch,
    ) -> Result<Option<u32>, NoMemory>
        ensures { IfOk result (λ n. WalksTrees self.old self.new (branch_trees (named_at uses.now) b.now) context.entry next n) }
    {
        match b {
            Branch::Braced(block) => {
                let n = self.statements(uses, context, next, block.statements.as_slice())?;
                Ok(n)
            }
            Branch::Single(s) => {
                let n = self.stmt(uses, context, next, s)?;
                Ok(Some(n))
            }
        }
    }

    /// Adds what stands behind `else`, if anything does.
    #[cycle(walk)]
    pub fn otherwise(
        &mut self,
        uses: &Uses,
        context: FlowContext<'_>,
        next: Option<u32>,
        b: &Option<Boxed<Branch>>,
    ) -> Result<Option<u32>, NoMemory>
        ensures { IfOk result (λ n. WalksTrees self.old self.new (body.otherwise (option_map (branch_trees (named_at uses.now)) b.now)) context.entry next n) }
    {
        match b {
            Some(b) => {
                let n = self.branch(uses, context, next, b.get())?;
                Ok(n)
            }
            None => Ok(next),
        }
    }
}
