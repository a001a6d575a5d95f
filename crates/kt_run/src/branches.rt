//! Conditions and branches, and what leaves a body: methods of the evaluator, each of which owes the meaning of its form.
ghost use Rattle.std.specs.Prelude.{option_map};
ghost use Rattle.kt_model.specs.BodyTrees.{expr_tree, branch_trees, otherwise as otherwise_trees, seen as seen_in, seen_optional};
ghost use Rattle.kt_mean.specs.Evaluation as spec;
ghost use Rattle.kt_mean.specs.Evaluation.{with_values, block, truth_tree, not_tree, and_tree, or_tree, if_tree, returned};
ghost use Rattle.kt_run.specs.Scene.{scene, Right, Runs};
ghost use Rattle.kt_run.specs.Running.{program_seen, names, part};
ghost use Rattle.kt_run.specs.Nests.{Nests};

use crate::evaluator::{Evaluator, Node, ResolvedFile};
use crate::operators::truth;
use crate::state::{Halt, State};
use kt_mean::{Value, Way};
use kt_outside::Output;
use kt_tree::ast::{Branch, Expr};
use sqlite_items::Boxed;

impl<F> Evaluator<'_, '_, F> {
    // Whether a condition holds.
    fn asked<O: Output>(
        &self,
        state: &mut State,
        out: &mut O,
        e: &Boxed<Expr>,
    ) -> Result<bool, Halt>
    where
        F: Fn(u64, &ResolvedFile<'_>, &mut State, &mut O, Node<'_>) -> Result<Value, Halt>,
        requires nests { Nests self.now.depth self.now.resolved.now O.state (F.pre self.now.evaluate) (F.post self.now.evaluate) }
        requires right { Right (spec.asked (program_seen self.now.resolved.now) (part self.now.resolved.now self.now.depth) (expr_tree (names self.now.resolved.now) e.now)) state.old }
        ensures { Runs (spec.asked (program_seen self.now.resolved.now) (part self.now.resolved.now self.now.depth) (expr_tree (names self.now.resolved.now) e.now)) (scene state.old (O.state out.old)) result (scene state.new (O.state out.new)) }
    {
        let value = self.boxed(state, out, e)?;
        Ok(truth(&value))
    }

    // Whether a condition holds, as a value.
    fn truth_value<O: Output>(
        &self,
        state: &mut State,
        out: &mut O,
        e: &Boxed<Expr>,
    ) -> Result<Value, Halt>
    where
        F: Fn(u64, &ResolvedFile<'_>, &mut State, &mut O, Node<'_>) -> Result<Value, Halt>,
        requires nests { Nests self.now.depth self.now.resolved.now O.state (F.pre self.now.evaluate) (F.post self.now.evaluate) }
        requires right { Right (truth_tree (program_seen self.now.resolved.now) (part self.now.resolved.now self.now.depth) (expr_tree (names self.now.resolved.now) e.now)) state.old }
        ensures { Runs (truth_tree (program_seen self.now.resolved.now) (part self.now.resolved.now self.now.depth) (expr_tree (names self.now.resolved.now) e.now)) (scene state.old (O.state out.old)) result (scene state.new (O.state out.new)) }
    {
        let holds = self.asked(state, out, e)?;
        Ok(Value::Bool(holds))
    }

    // `!`: whether its operand does not hold.
    pub(crate) fn negation<O: Output>(
        &self,
        state: &mut State,
        out: &mut O,
        e: &Boxed<Expr>,
    ) -> Result<Value, Halt>
    where
        F: Fn(u64, &ResolvedFile<'_>, &mut State, &mut O, Node<'_>) -> Result<Value, Halt>,
        requires nests { Nests self.now.depth self.now.resolved.now O.state (F.pre self.now.evaluate) (F.post self.now.evaluate) }
        requires right { Right (not_tree (program_seen self.now.resolved.now) (part self.now.resolved.now self.now.depth) (expr_tree (names self.now.resolved.now) e.now)) state.old }
        ensures { Runs (not_tree (program_seen self.now.resolved.now) (part self.now.resolved.now self.now.depth) (expr_tree (names self.now.resolved.now) e.now)) (scene state.old (O.state out.old)) result (scene state.new (O.state out.new)) }
    {
        let holds = self.asked(state, out, e)?;
        Ok(Value::Bool(!holds))
    }

    // `&&`: the right operand is evaluated only where the left one holds.
    pub(crate) fn conjunction<O: Output>(
        &self,
        state: &mut State,
        out: &mut O,
        a: &Boxed<Expr>,
        b: &Boxed<Expr>,
    ) -> Result<Value, Halt>
    where
        F: Fn(u64, &ResolvedFile<'_>, &mut State, &mut O, Node<'_>) -> Result<Value, Halt>,
        requires nests { Nests self.now.depth self.now.resolved.now O.state (F.pre self.now.evaluate) (F.post self.now.evaluate) }
        requires right { Right (and_tree (program_seen self.now.resolved.now) (part self.now.resolved.now self.now.depth) (expr_tree (names self.now.resolved.now) a.now) (expr_tree (names self.now.resolved.now) b.now)) state.old }
        ensures { Runs (and_tree (program_seen self.now.resolved.now) (part self.now.resolved.now self.now.depth) (expr_tree (names self.now.resolved.now) a.now) (expr_tree (names self.now.resolved.now) b.now)) (scene state.old (O.state out.old)) result (scene state.new (O.state out.new)) }
    {
        let holds = self.asked(state, out, a)?;
        if holds {
            return self.truth_value(state, out, b);
        }
        Ok(Value::Bool(false))
    }

    // `||`: the right operand is evaluated only where the left one does not hold.
    pub(crate) fn disjunction<O: Output>(
        &self,
        state: &mut State,
        out: &mut O,
        a: &Boxed<Expr>,
        b: &Boxed<Expr>,
    ) -> Result<Value, Halt>
    where
        F: Fn(u64, &ResolvedFile<'_>, &mut State, &mut O, Node<'_>) -> Result<Value, Halt>,
        requires nests { Nests self.now.depth self.now.resolved.now O.state (F.pre self.now.evaluate) (F.post self.now.evaluate) }
        requires right { Right (or_tree (program_seen self.now.resolved.now) (part self.now.resolved.now self.now.depth) (expr_tree (names self.now.resolved.now) a.now) (expr_tree (names self.now.resolved.now) b.now)) state.old }
        ensures { Runs (or_tree (program_seen self.now.resolved.now) (part self.now.resolved.now self.now.depth) (expr_tree (names self.now.resolved.now) a.now) (expr_tree (names self.now.resolved.now) b.now)) (scene state.old (O.state out.old)) result (scene state.new (O.state out.new)) }
    {
        let holds = self.asked(state, out, a)?;
        if holds {
            return Ok(Value::Bool(true));
        }
        self.truth_value(state, out, b)
    }

    // An `if`: its condition, then one of its branches.
    pub(crate) fn choice<O: Output>(
        &self,
        state: &mut State,
        out: &mut O,
        condition: &Boxed<Expr>,
        then: &Boxed<Branch>,
        otherwise: &Option<Boxed<Branch>>,
    ) -> Result<Value, Halt>
    where
        F: Fn(u64, &ResolvedFile<'_>, &mut State, &mut O, Node<'_>) -> Result<Value, Halt>,
        requires nests { Nests self.now.depth self.now.resolved.now O.state (F.pre self.now.evaluate) (F.post self.now.evaluate) }
        requires right { Right (if_tree (program_seen self.now.resolved.now) (part self.now.resolved.now self.now.depth) (expr_tree (names self.now.resolved.now) condition.now) (branch_trees (names self.now.resolved.now) then.now) (otherwise_trees (option_map (branch_trees (names self.now.resolved.now)) otherwise.now))) state.old }
        ensures { Runs (if_tree (program_seen self.now.resolved.now) (part self.now.resolved.now self.now.depth) (expr_tree (names self.now.resolved.now) condition.now) (branch_trees (names self.now.resolved.now) then.now) (otherwise_trees (option_map (branch_trees (names self.now.resolved.now)) otherwise.now))) (scene state.old (O.state out.old)) result (scene state.new (O.state out.new)) }
    {
        let holds = self.asked(state, out, condition)?;
        if holds {
            return self.branch_taken(state, out, then);
        }
        self.other_branch(state, out, otherwise)
    }

    // What stands behind `else`; where nothing does, `Unit`.
    fn other_branch<O: Output>(
        &self,
        state: &mut State,
        out: &mut O,
        branch: &Option<Boxed<Branch>>,
    ) -> Result<Value, Halt>
    where
        F: Fn(u64, &ResolvedFile<'_>, &mut State, &mut O, Node<'_>) -> Result<Value, Halt>,
        requires nests { Nests self.now.depth self.now.resolved.now O.state (F.pre self.now.evaluate) (F.post self.now.evaluate) }
        requires right { Right (block (program_seen self.now.resolved.now) (part self.now.resolved.now self.now.depth) (otherwise_trees (option_map (branch_trees (names self.now.resolved.now)) branch.now))) state.old }
        ensures { Runs (block (program_seen self.now.resolved.now) (part self.now.resolved.now self.now.depth) (otherwise_trees (option_map (branch_trees (names self.now.resolved.now)) branch.now))) (scene state.old (O.state out.old)) result (scene state.new (O.state out.new)) }
    {
        match branch {
            Some(taken) => self.branch_taken(state, out, taken),
            None => Ok(Value::Unit),
        }
    }

    // A branch: the statements between its braces, or its one statement.
    fn branch_taken<O: Output>(
        &self,
        state: &mut State,
        out: &mut O,
        branch: &Boxed<Branch>,
    ) -> Result<Value, Halt>
    where
        F: Fn(u64, &ResolvedFile<'_>, &mut State, &mut O, Node<'_>) -> Result<Value, Halt>,
        requires nests { Nests self.now.depth self.now.resolved.now O.state (F.pre self.now.evaluate) (F.post self.now.evaluate) }
        requires right { Right (block (program_seen self.now.resolved.now) (part self.now.resolved.now self.now.depth) (branch_trees (names self.now.resolved.now) branch.now)) state.old }
        ensures { Runs (block (program_seen self.now.resolved.now) (part self.now.resolved.now self.now.depth) (branch_trees (names self.now.resolved.now) branch.now)) (scene state.old (O.state out.old)) result (scene state.new (O.state out.new)) }
    {
        match branch.get() {
            Branch::Braced(block) => self.statements(state, out, block.statements.as_slice()),
            Branch::Single(s) => self.part(state, out, Node::Stmt(s)),
        }
    }

    // A `return`: it leaves the body with its value, or with `Unit`.
    pub(crate) fn give_back<O: Output>(
        &self,
        state: &mut State,
        out: &mut O,
        value: &Option<Boxed<Expr>>,
    ) -> Result<Value, Halt>
    where
        F: Fn(u64, &ResolvedFile<'_>, &mut State, &mut O, Node<'_>) -> Result<Value, Halt>,
        requires nests { Nests self.now.depth self.now.resolved.now O.state (F.pre self.now.evaluate) (F.post self.now.evaluate) }
        requires right { Right (with_values (program_seen self.now.resolved.now) (part self.now.resolved.now self.now.depth) (seen_optional (option_map (seen_in (names self.now.resolved.now)) value.now)) returned) state.old }
        ensures { Runs (with_values (program_seen self.now.resolved.now) (part self.now.resolved.now self.now.depth) (seen_optional (option_map (seen_in (names self.now.resolved.now)) value.now)) returned) (scene state.old (O.state out.old)) result (scene state.new (O.state out.new)) }
    {
        match value {
            Some(e) => {
                let given = self.boxed(state, out, e)?;
                Err(Halt::Way(Way::Return(given)))
            }
            None => Err(Halt::Way(Way::Return(Value::Unit))),
        }
    }
}
