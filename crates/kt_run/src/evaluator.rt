//! Evaluates the trees of a file. Each method owes the meaning of its form, whatever evaluates the parts.
ghost use Rattle.std.specs.Prelude.{option_map};
ghost use Rattle.kt_model.specs.declared.uses.Named.TheVariants as named;
ghost use Rattle.kt_model.specs.BodyTrees.{Sign', Empty', First', expr_tree, stmt_tree};
ghost use Rattle.kt_mean.specs.Evaluation.{with_values, operated, local_tree, assign_tree, entered};
ghost use Rattle.kt_run.specs.Scene.{scene, Right, Runs};
ghost use Rattle.kt_run.specs.Running.{program_seen, names, part, shape, tree_seen, local_run, assign_run, compound_run, operand_run};
ghost use Rattle.kt_run.specs.Nests.{Nests};
ghost use Rattle.kt_run.specs.Operators.{operation_of};

use crate::operators::{Operator, combine, number, with_sign};
use crate::single_steps::{Target, int_value, read, read_name, spend, store, write};
use crate::state::{Halt, State};
use kt_mean::Value;
use kt_model::uses::{Named, Uses};
use kt_outside::Output;
use kt_tree::ast::{Assignment, Expr, ExprKind, File, Sign, Stmt};
use sqlite_items::Boxed;
use std::alloc::Global;

/// A file, what its names stand for, and where memory comes from.
#[derive(Clone, Copy)]
pub(crate) struct ResolvedFile<'p> {
    pub(crate) alloc: Global,
    pub(crate) file: &'p File,
    pub(crate) uses: &'p Uses,
}

/// What can be entered.
#[derive(Clone, Copy)]
pub(crate) enum Node<'t> {
    Expr(&'t Expr),
    Stmt(&'t Stmt),
}

/// What evaluates a tree: at most so deep in one another are its parts entered.
#[derive(Clone, Copy)]
pub(crate) struct Evaluator<'s, 'p, F> {
    pub(crate) depth: u64,
    pub(crate) resolved: &'s ResolvedFile<'p>,
    pub(crate) evaluate: F,
}

impl<F> Evaluator<'_, '_, F> {
    // A tree, in one more depth.
    pub(crate) fn part<O: Output>(
        &self,
        state: &mut State,
        out: &mut O,
        node: Node<'_>,
    ) -> Result<Value, Halt>
    where
        F: Fn(u64, &ResolvedFile<'_>, &mut State, &mut O, Node<'_>) -> Result<Value, Halt>,
        requires nests { Nests self.now.depth self.now.resolved.now O.state (F.pre self.now.evaluate) (F.post self.now.evaluate) }
        requires right { Right (part self.now.resolved.now self.now.depth (tree_seen self.now.resolved.now node)) state.old }
        ensures { Runs (part self.now.resolved.now self.now.depth (tree_seen self.now.resolved.now node.entry)) (scene state.old (O.state out.old)) result (scene state.new (O.state out.new)) }
    {
        (self.evaluate)(self.depth, self.resolved, state, out, node)
    }

    // An expression that is a part.
    pub(crate) fn boxed<O: Output>(
        &self,
        state: &mut State,
        out: &mut O,
        e: &Boxed<Expr>,
    ) -> Result<Value, Halt>
    where
        F: Fn(u64, &ResolvedFile<'_>, &mut State, &mut O, Node<'_>) -> Result<Value, Halt>,
        requires nests { Nests self.now.depth self.now.resolved.now O.state (F.pre self.now.evaluate) (F.post self.now.evaluate) }
        requires right { Right (part self.now.resolved.now self.now.depth (expr_tree (names self.now.resolved.now) e.now)) state.old }
        ensures { Runs (part self.now.resolved.now self.now.depth (expr_tree (names self.now.resolved.now) e.now)) (scene state.old (O.state out.old)) result (scene state.new (O.state out.new)) }
    {
        self.part(state, out, Node::Expr(e.get()))
    }

    // An operand with a sign.
    fn signed<O: Output>(
        &self,
        state: &mut State,
        out: &mut O,
        sign: Sign,
        e: &Boxed<Expr>,
    ) -> Result<Value, Halt>
    where
        F: Fn(u64, &ResolvedFile<'_>, &mut State, &mut O, Node<'_>) -> Result<Value, Halt>,
        requires nests { Nests self.now.depth self.now.resolved.now O.state (F.pre self.now.evaluate) (F.post self.now.evaluate) }
        requires right { Right (with_values (program_seen self.now.resolved.now) (part self.now.resolved.now self.now.depth) (First' (expr_tree (names self.now.resolved.now) e.now) Empty') (operated (Sign' sign))) state.old }
        ensures { Runs (with_values (program_seen self.now.resolved.now) (part self.now.resolved.now self.now.depth) (First' (expr_tree (names self.now.resolved.now) e.now) Empty') (operated (Sign' sign))) (scene state.old (O.state out.old)) result (scene state.new (O.state out.new)) }
    {
        let value = self.boxed(state, out, e)?;
        Ok(Value::Int(with_sign(sign, number(&value))))
    }

    // An operator between two operands, from left to right.
    fn binary<O: Output>(
        &self,
        state: &mut State,
        out: &mut O,
        operator: Operator,
        a: &Boxed<Expr>,
        b: &Boxed<Expr>,
    ) -> Result<Value, Halt>
    where
        F: Fn(u64, &ResolvedFile<'_>, &mut State, &mut O, Node<'_>) -> Result<Value, Halt>,
        requires nests { Nests self.now.depth self.now.resolved.now O.state (F.pre self.now.evaluate) (F.post self.now.evaluate) }
        requires right { Right (with_values (program_seen self.now.resolved.now) (part self.now.resolved.now self.now.depth) (First' (expr_tree (names self.now.resolved.now) a.now) (First' (expr_tree (names self.now.resolved.now) b.now) Empty')) (operated (operation_of operator))) state.old }
        ensures { Runs (with_values (program_seen self.now.resolved.now) (part self.now.resolved.now self.now.depth) (First' (expr_tree (names self.now.resolved.now) a.now) (First' (expr_tree (names self.now.resolved.now) b.now) Empty')) (operated (operation_of operator))) (scene state.old (O.state out.old)) result (scene state.new (O.state out.new)) }
    {
        let left = self.boxed(state, out, a)?;
        let right = self.boxed(state, out, b)?;
        combine(self.resolved.alloc, state, operator, &left, &right)
    }

    // The declaration of a local.
    fn local<O: Output>(
        &self,
        state: &mut State,
        out: &mut O,
        tree: u32,
        value: &Option<Expr>,
    ) -> Result<Value, Halt>
    where
        F: Fn(u64, &ResolvedFile<'_>, &mut State, &mut O, Node<'_>) -> Result<Value, Halt>,
        requires nests { Nests self.now.depth self.now.resolved.now O.state (F.pre self.now.evaluate) (F.post self.now.evaluate) }
        requires right { Right (local_run (program_seen self.now.resolved.now) (part self.now.resolved.now self.now.depth) ((names self.now.resolved.now) tree) (option_map (expr_tree (names self.now.resolved.now)) value.now)) state.old }
        ensures { Runs (local_run (program_seen self.now.resolved.now) (part self.now.resolved.now self.now.depth) ((names self.now.resolved.now) tree) (option_map (expr_tree (names self.now.resolved.now)) value.now)) (scene state.old (O.state out.old)) result (scene state.new (O.state out.new)) }
    {
        match self.resolved.uses.named(tree) {
            Named::Variable(local, _) => match value {
                None => store(state, local, None),
                Some(e) => self.initialise(state, out, local, e),
            },
            _ => unreachable!(),
        }
    }

    fn initialise<O: Output>(
        &self,
        state: &mut State,
        out: &mut O,
        local: u32,
        e: &Expr,
    ) -> Result<Value, Halt>
    where
        F: Fn(u64, &ResolvedFile<'_>, &mut State, &mut O, Node<'_>) -> Result<Value, Halt>,
        requires nests { Nests self.now.depth self.now.resolved.now O.state (F.pre self.now.evaluate) (F.post self.now.evaluate) }
        requires right { Right (local_tree (program_seen self.now.resolved.now) (part self.now.resolved.now self.now.depth) local (expr_tree (names self.now.resolved.now) e.now)) state.old }
        ensures { Runs (local_tree (program_seen self.now.resolved.now) (part self.now.resolved.now self.now.depth) local (expr_tree (names self.now.resolved.now) e.now)) (scene state.old (O.state out.old)) result (scene state.new (O.state out.new)) }
    {
        let value = self.part(state, out, Node::Expr(e))?;
        store(state, local, Some(value))
    }

    // An assignment of a local. Its left side is no tree.
    fn assign<O: Output>(
        &self,
        state: &mut State,
        out: &mut O,
        tree: u32,
        assignment: Assignment,
        value: &Option<Expr>,
    ) -> Result<Value, Halt>
    where
        F: Fn(u64, &ResolvedFile<'_>, &mut State, &mut O, Node<'_>) -> Result<Value, Halt>,
        requires nests { Nests self.now.depth self.now.resolved.now O.state (F.pre self.now.evaluate) (F.post self.now.evaluate) }
        requires right { Right (assign_run (program_seen self.now.resolved.now) (part self.now.resolved.now self.now.depth) ((names self.now.resolved.now) tree) assignment (option_map (expr_tree (names self.now.resolved.now)) value.now)) state.old }
        ensures { Runs (assign_run (program_seen self.now.resolved.now) (part self.now.resolved.now self.now.depth) ((names self.now.resolved.now) tree) assignment (option_map (expr_tree (names self.now.resolved.now)) value.now)) (scene state.old (O.state out.old)) result (scene state.new (O.state out.new)) }
    {
        match self.resolved.uses.named(tree) {
            Named::Variable(local, fixed) => {
                self.assign_local(state, out, Target { local, fixed }, assignment, value)
            }
            _ => unreachable!(),
        }
    }

    fn assign_local<O: Output>(
        &self,
        state: &mut State,
        out: &mut O,
        target: Target,
        assignment: Assignment,
        value: &Option<Expr>,
    ) -> Result<Value, Halt>
    where
        F: Fn(u64, &ResolvedFile<'_>, &mut State, &mut O, Node<'_>) -> Result<Value, Halt>,
        requires nests { Nests self.now.depth self.now.resolved.now O.state (F.pre self.now.evaluate) (F.post self.now.evaluate) }
        requires right { Right (assign_run (program_seen self.now.resolved.now) (part self.now.resolved.now self.now.depth) (named.Variable target.local target.fixed) assignment (option_map (expr_tree (names self.now.resolved.now)) value.now)) state.old }
        ensures { Runs (assign_run (program_seen self.now.resolved.now) (part self.now.resolved.now self.now.depth) (named.Variable target.local target.fixed) assignment (option_map (expr_tree (names self.now.resolved.now)) value.now)) (scene state.old (O.state out.old)) result (scene state.new (O.state out.new)) }
    {
        match assignment {
            Assignment::Plain => match value {
                Some(e) => self.assign_plain(state, out, target, e),
                None => unreachable!(),
            },
            Assignment::Sum => self.compound(state, out, target, Operator::Sum, value),
            Assignment::Arithmetic(o) => {
                self.compound(state, out, target, Operator::Arithmetic(o), value)
            }
        }
    }

    fn assign_plain<O: Output>(
        &self,
        state: &mut State,
        out: &mut O,
        target: Target,
        e: &Expr,
    ) -> Result<Value, Halt>
    where
        F: Fn(u64, &ResolvedFile<'_>, &mut State, &mut O, Node<'_>) -> Result<Value, Halt>,
        requires nests { Nests self.now.depth self.now.resolved.now O.state (F.pre self.now.evaluate) (F.post self.now.evaluate) }
        requires right { Right (assign_tree (program_seen self.now.resolved.now) (part self.now.resolved.now self.now.depth) target.local target.fixed (expr_tree (names self.now.resolved.now) e.now)) state.old }
        ensures { Runs (assign_tree (program_seen self.now.resolved.now) (part self.now.resolved.now self.now.depth) target.local target.fixed (expr_tree (names self.now.resolved.now) e.now)) (scene state.old (O.state out.old)) result (scene state.new (O.state out.new)) }
    {
        let value = self.part(state, out, Node::Expr(e))?;
        write(state, target, value)
    }

    // A compound assignment: the old value is read first.
    fn compound<O: Output>(
        &self,
        state: &mut State,
        out: &mut O,
        target: Target,
        operator: Operator,
        value: &Option<Expr>,
    ) -> Result<Value, Halt>
    where
        F: Fn(u64, &ResolvedFile<'_>, &mut State, &mut O, Node<'_>) -> Result<Value, Halt>,
        requires nests { Nests self.now.depth self.now.resolved.now O.state (F.pre self.now.evaluate) (F.post self.now.evaluate) }
        requires right { Right (compound_run (program_seen self.now.resolved.now) (part self.now.resolved.now self.now.depth) target.local target.fixed (operation_of operator) (option_map (expr_tree (names self.now.resolved.now)) value.now)) state.old }
        ensures { Runs (compound_run (program_seen self.now.resolved.now) (part self.now.resolved.now self.now.depth) target.local target.fixed (operation_of operator) (option_map (expr_tree (names self.now.resolved.now)) value.now)) (scene state.old (O.state out.old)) result (scene state.new (O.state out.new)) }
    {
        let alloc = self.resolved.alloc;
        let old = read(alloc, state, target.local)?;
        let operand = self.operand(state, out, value)?;
        let value = combine(alloc, state, operator, &old, &operand)?;
        write(state, target, value)
    }

    // What is combined with the old value: 1 where nothing is written.
    fn operand<O: Output>(
        &self,
        state: &mut State,
        out: &mut O,
        value: &Option<Expr>,
    ) -> Result<Value, Halt>
    where
        F: Fn(u64, &ResolvedFile<'_>, &mut State, &mut O, Node<'_>) -> Result<Value, Halt>,
        requires nests { Nests self.now.depth self.now.resolved.now O.state (F.pre self.now.evaluate) (F.post self.now.evaluate) }
        requires right { Right (operand_run (program_seen self.now.resolved.now) (part self.now.resolved.now self.now.depth) (option_map (expr_tree (names self.now.resolved.now)) value.now)) state.old }
        ensures { Runs (operand_run (program_seen self.now.resolved.now) (part self.now.resolved.now self.now.depth) (option_map (expr_tree (names self.now.resolved.now)) value.now)) (scene state.old (O.state out.old)) result (scene state.new (O.state out.new)) }
    {
        match value {
            Some(e) => self.part(state, out, Node::Expr(e)),
            None => Ok(Value::Int(1)),
        }
    }

    // What an expression does behind its step.
    fn expr<O: Output>(&self, state: &mut State, out: &mut O, e: &Expr) -> Result<Value, Halt>
    where
        F: Fn(u64, &ResolvedFile<'_>, &mut State, &mut O, Node<'_>) -> Result<Value, Halt>,
        requires nests { Nests self.now.depth self.now.resolved.now O.state (F.pre self.now.evaluate) (F.post self.now.evaluate) }
        requires right { Right (shape self.now.resolved.now self.now.depth (expr_tree (names self.now.resolved.now) e.now)) state.old }
        ensures { Runs (shape self.now.resolved.now self.now.depth (expr_tree (names self.now.resolved.now) e.now)) (scene state.old (O.state out.old)) result (scene state.new (O.state out.new)) }
    {
        match &e.kind {
            ExprKind::Int(number) => int_value(*number),
            ExprKind::Bool(truth) => Ok(Value::Bool(*truth)),
            ExprKind::Null => unreachable!(),
            ExprKind::Name(_) => read_name(self.resolved, state, e.number),
            ExprKind::Template(parts) => self.template(state, out, parts.as_slice()),
            ExprKind::Paren(a) => self.boxed(state, out, a),
            ExprKind::Call {
                callee: _,
                arguments,
                lambda,
            } => match lambda {
                None => self.call(state, out, e.number, arguments.as_slice()),
                Some(_) => unreachable!(),
            },
            ExprKind::Sign(sign, a) => self.signed(state, out, *sign, a),
            ExprKind::Not(a) => self.negation(state, out, a),
            ExprKind::Sum(a, b) => self.binary(state, out, Operator::Sum, a, b),
            ExprKind::Arithmetic(o, a, b) => {
                self.binary(state, out, Operator::Arithmetic(*o), a, b)
            }
            ExprKind::Compare(o, a, b) => self.binary(state, out, Operator::Compare(*o), a, b),
            ExprKind::Equal(o, a, b) => self.binary(state, out, Operator::Equal(*o), a, b),
            ExprKind::And(a, b) => self.conjunction(state, out, a, b),
            ExprKind::Or(a, b) => self.disjunction(state, out, a, b),
            ExprKind::If {
                condition,
                then,
                otherwise,
            } => self.choice(state, out, condition, then, otherwise),
            ExprKind::Return { label, value } => match label {
                None => self.give_back(state, out, value),
                Some(_) => unreachable!(),
            },
            ExprKind::Throw(_) => unreachable!(),
            _ => unreachable!(),
        }
    }

    // What a statement does behind its step.
    fn stmt<O: Output>(&self, state: &mut State, out: &mut O, s: &Stmt) -> Result<Value, Halt>
    where
        F: Fn(u64, &ResolvedFile<'_>, &mut State, &mut O, Node<'_>) -> Result<Value, Halt>,
        requires nests { Nests self.now.depth self.now.resolved.now O.state (F.pre self.now.evaluate) (F.post self.now.evaluate) }
        requires right { Right (shape self.now.resolved.now self.now.depth (stmt_tree (names self.now.resolved.now) s.now)) state.old }
        ensures { Runs (shape self.now.resolved.now self.now.depth (stmt_tree (names self.now.resolved.now) s.now)) (scene state.old (O.state out.old)) result (scene state.new (O.state out.new)) }
    {
        match s {
            Stmt::Expr(e) => self.expr(state, out, e),
            Stmt::Local { number, value, .. } => self.local(state, out, *number, value),
            Stmt::Assign {
                number,
                assignment,
                value,
                ..
            } => self.assign(state, out, *number, *assignment, value),
            Stmt::While { .. } => unreachable!(),
            Stmt::DoWhile { .. } => unreachable!(),
            Stmt::For { .. } => unreachable!(),
        }
    }

    // The entering of a tree, which costs a step.
    pub(crate) fn enter<O: Output>(
        &self,
        state: &mut State,
        out: &mut O,
        node: Node<'_>,
    ) -> Result<Value, Halt>
    where
        F: Fn(u64, &ResolvedFile<'_>, &mut State, &mut O, Node<'_>) -> Result<Value, Halt>,
        requires nests { Nests self.now.depth self.now.resolved.now O.state (F.pre self.now.evaluate) (F.post self.now.evaluate) }
        requires right { Right (entered (program_seen self.now.resolved.now) (part self.now.resolved.now self.now.depth) (tree_seen self.now.resolved.now node)) state.old }
        ensures { Runs (entered (program_seen self.now.resolved.now) (part self.now.resolved.now self.now.depth) (tree_seen self.now.resolved.now node.entry)) (scene state.old (O.state out.old)) result (scene state.new (O.state out.new)) }
    {
        spend(state)?;
        match node {
            Node::Expr(e) => self.expr(state, out, e),
            Node::Stmt(s) => self.stmt(state, out, s),
        }
    }
}
