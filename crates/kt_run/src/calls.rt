//! Calls: their arguments, the frame of a call, and the body of a function.
ghost use Rattle.std.specs.Prelude.{◌≡◌, [], length, map};
ghost use Rattle.kt_model.specs.NameUses.{parameters_at};
ghost use Rattle.kt_model.specs.BodyTrees.{stmt_tree, seen as seen_in, seen_trees, listed};
ghost use Rattle.kt_model.specs.Bodies.{body_trees_of};
ghost use Rattle.kt_mean.specs.Evaluation as spec;
ghost use Rattle.kt_mean.specs.Evaluation.{with_values, called, limited, block};
ghost use Rattle.kt_mean.specs.Programs.{function_at, function_of};
ghost use Rattle.kt_run.specs.Scene.{scene, Right, Runs};
ghost use Rattle.kt_run.specs.Running.{program_seen, names, part, collected, call_run};
ghost use Rattle.kt_run.specs.Nests.{Nests};

use crate::built_ins::built_in;
use crate::evaluator::{Evaluator, Node, ResolvedFile};
use crate::frame::Frame;
use crate::single_steps::call_end;
use crate::state::{Halt, State};
use kt_mean::{Limit, Value};
use kt_model::uses::Named;
use kt_outside::Output;
use kt_tree::ast::{Expr, FunctionBody, FunctionDecl, Stmt};
use sqlite_items::Items;
use std::mem;

/// The calls that may be under way at once.
const MOST_CALLS: u32 = 16;

impl<F> Evaluator<'_, '_, F> {
    // The values of arguments, from left to right.
    fn arguments<O: Output>(
        &self,
        state: &mut State,
        out: &mut O,
        arguments: &[Expr],
    ) -> Result<Items<Value>, Halt>
    where
        F: Fn(u64, &ResolvedFile<'_>, &mut State, &mut O, Node<'_>) -> Result<Value, Halt>,
        requires nests { Nests self.now.depth self.now.resolved.now O.state (F.pre self.now.evaluate) (F.post self.now.evaluate) }
        requires right { Right (collected (part self.now.resolved.now self.now.depth) [] (seen_trees (map (seen_in (names self.now.resolved.now)) arguments.now))) state.old }
        ensures { Runs (collected (part self.now.resolved.now self.now.depth) [] (seen_trees (map (seen_in (names self.now.resolved.now)) arguments.now))) (scene state.old (O.state out.old)) result (scene state.new (O.state out.new)) }
    {
        let mut values = Items::new(self.resolved.alloc);
        for argument in arguments {
            let value = self.part(state, out, Node::Expr(argument))?;
            values.push(value)?;
        }
        Ok(values)
    }

    // A call, by what its name stands for.
    pub(crate) fn call<O: Output>(
        &self,
        state: &mut State,
        out: &mut O,
        tree: u32,
        arguments: &[Expr],
    ) -> Result<Value, Halt>
    where
        F: Fn(u64, &ResolvedFile<'_>, &mut State, &mut O, Node<'_>) -> Result<Value, Halt>,
        requires nests { Nests self.now.depth self.now.resolved.now O.state (F.pre self.now.evaluate) (F.post self.now.evaluate) }
        requires right { Right (call_run (program_seen self.now.resolved.now) (part self.now.resolved.now self.now.depth) ((names self.now.resolved.now) tree) (seen_trees (map (seen_in (names self.now.resolved.now)) arguments.now))) state.old }
        ensures { Runs (call_run (program_seen self.now.resolved.now) (part self.now.resolved.now self.now.depth) ((names self.now.resolved.now) tree) (seen_trees (map (seen_in (names self.now.resolved.now)) arguments.now))) (scene state.old (O.state out.old)) result (scene state.new (O.state out.new)) }
    {
        match self.resolved.uses.named(tree) {
            Named::Function(place, _) => self.call_function(state, out, place, arguments),
            Named::BuiltIn(name, _) => self.call_built_in(state, out, name, arguments),
            _ => unreachable!(),
        }
    }

    fn call_built_in<O: Output>(
        &self,
        state: &mut State,
        out: &mut O,
        name: u32,
        arguments: &[Expr],
    ) -> Result<Value, Halt>
    where
        F: Fn(u64, &ResolvedFile<'_>, &mut State, &mut O, Node<'_>) -> Result<Value, Halt>,
        requires nests { Nests self.now.depth self.now.resolved.now O.state (F.pre self.now.evaluate) (F.post self.now.evaluate) }
        requires right { Right (with_values (program_seen self.now.resolved.now) (part self.now.resolved.now self.now.depth) (seen_trees (map (seen_in (names self.now.resolved.now)) arguments.now)) (spec.built_in name)) state.old }
        ensures { Runs (with_values (program_seen self.now.resolved.now) (part self.now.resolved.now self.now.depth) (seen_trees (map (seen_in (names self.now.resolved.now)) arguments.now)) (spec.built_in name)) (scene state.old (O.state out.old)) result (scene state.new (O.state out.new)) }
    {
        let values = self.arguments(state, out, arguments)?;
        built_in(self.resolved.alloc, state, out, name, values.as_slice())
    }

    fn call_function<O: Output>(
        &self,
        state: &mut State,
        out: &mut O,
        place: u32,
        arguments: &[Expr],
    ) -> Result<Value, Halt>
    where
        F: Fn(u64, &ResolvedFile<'_>, &mut State, &mut O, Node<'_>) -> Result<Value, Halt>,
        requires nests { Nests self.now.depth self.now.resolved.now O.state (F.pre self.now.evaluate) (F.post self.now.evaluate) }
        requires right { Right (with_values (program_seen self.now.resolved.now) (part self.now.resolved.now self.now.depth) (seen_trees (map (seen_in (names self.now.resolved.now)) arguments.now)) (called (program_seen self.now.resolved.now) (part self.now.resolved.now self.now.depth) (function_at self.now.resolved.now.file.now self.now.resolved.now.uses.now place))) state.old }
        ensures { Runs (with_values (program_seen self.now.resolved.now) (part self.now.resolved.now self.now.depth) (seen_trees (map (seen_in (names self.now.resolved.now)) arguments.now)) (called (program_seen self.now.resolved.now) (part self.now.resolved.now self.now.depth) (function_at self.now.resolved.now.file.now self.now.resolved.now.uses.now place))) (scene state.old (O.state out.old)) result (scene state.new (O.state out.new)) }
    {
        let values = self.arguments(state, out, arguments)?;
        self.apply(state, out, place, values)
    }

    // A function of the file, with the values of its arguments.
    pub(crate) fn apply<O: Output>(
        &self,
        state: &mut State,
        out: &mut O,
        place: u32,
        values: Items<Value>,
    ) -> Result<Value, Halt>
    where
        F: Fn(u64, &ResolvedFile<'_>, &mut State, &mut O, Node<'_>) -> Result<Value, Halt>,
        requires nests { Nests self.now.depth self.now.resolved.now O.state (F.pre self.now.evaluate) (F.post self.now.evaluate) }
        requires right { Right (called (program_seen self.now.resolved.now) (part self.now.resolved.now self.now.depth) (function_at self.now.resolved.now.file.now self.now.resolved.now.uses.now place) values) state.old }
        ensures { Runs (called (program_seen self.now.resolved.now) (part self.now.resolved.now self.now.depth) (function_at self.now.resolved.now.file.now self.now.resolved.now.uses.now place) values) (scene state.old (O.state out.old)) result (scene state.new (O.state out.new)) }
    {
        match self.resolved.file.functions.get(place as usize) {
            Some(function) => self.invoke(state, out, place, function, values),
            None => unreachable!(),
        }
    }

    // The call of a function, in a frame of its own; the frame of its caller comes back.
    fn invoke<O: Output>(
        &self,
        state: &mut State,
        out: &mut O,
        place: u32,
        function: &FunctionDecl,
        values: Items<Value>,
    ) -> Result<Value, Halt>
    where
        F: Fn(u64, &ResolvedFile<'_>, &mut State, &mut O, Node<'_>) -> Result<Value, Halt>,
        requires nests { Nests self.now.depth self.now.resolved.now O.state (F.pre self.now.evaluate) (F.post self.now.evaluate) }
        requires fits { length (parameters_at self.now.resolved.now.uses.now place) ≡ length values }
        requires right { Right (limited (spec.invoke (program_seen self.now.resolved.now) (part self.now.resolved.now self.now.depth) (function_of self.now.resolved.now.uses.now place function.now) values)) state.old }
        ensures { Runs (limited (spec.invoke (program_seen self.now.resolved.now) (part self.now.resolved.now self.now.depth) (function_of self.now.resolved.now.uses.now place function.now) values)) (scene state.old (O.state out.old)) result (scene state.new (O.state out.new)) }
    {
        if state.calls >= MOST_CALLS {
            return Err(Halt::Over(Limit::Calls));
        }
        let parameters = self.resolved.uses.parameters(place);
        let frame = Frame::of_call(self.resolved.alloc, parameters, values)?;
        let calls = state.calls;
        let caller = mem::replace(&mut state.frame, frame);
        state.calls = calls + 1;
        let answer = self.body(state, out, &function.body);
        state.frame = caller;
        state.calls = calls;
        call_end(&function.body, answer)
    }

    // The body of a function.
    fn body<O: Output>(
        &self,
        state: &mut State,
        out: &mut O,
        body: &Option<FunctionBody>,
    ) -> Result<Value, Halt>
    where
        F: Fn(u64, &ResolvedFile<'_>, &mut State, &mut O, Node<'_>) -> Result<Value, Halt>,
        requires nests { Nests self.now.depth self.now.resolved.now O.state (F.pre self.now.evaluate) (F.post self.now.evaluate) }
        requires right { Right (block (program_seen self.now.resolved.now) (part self.now.resolved.now self.now.depth) (body_trees_of (names self.now.resolved.now) body.now)) state.old }
        ensures { Runs (block (program_seen self.now.resolved.now) (part self.now.resolved.now self.now.depth) (body_trees_of (names self.now.resolved.now) body.now)) (scene state.old (O.state out.old)) result (scene state.new (O.state out.new)) }
    {
        match body {
            Some(written) => match written {
                FunctionBody::Expr(e) => self.part(state, out, Node::Expr(e)),
                FunctionBody::Block { contract: _, block } => {
                    self.statements(state, out, block.statements.as_slice())
                }
            },
            None => Ok(Value::Unit),
        }
    }

    // The statements of a block, one behind another; the value is that of the last.
    pub(crate) fn statements<O: Output>(
        &self,
        state: &mut State,
        out: &mut O,
        statements: &[Stmt],
    ) -> Result<Value, Halt>
    where
        F: Fn(u64, &ResolvedFile<'_>, &mut State, &mut O, Node<'_>) -> Result<Value, Halt>,
        requires nests { Nests self.now.depth self.now.resolved.now O.state (F.pre self.now.evaluate) (F.post self.now.evaluate) }
        requires right { Right (block (program_seen self.now.resolved.now) (part self.now.resolved.now self.now.depth) (listed (map (stmt_tree (names self.now.resolved.now)) statements.now))) state.old }
        ensures { Runs (block (program_seen self.now.resolved.now) (part self.now.resolved.now self.now.depth) (listed (map (stmt_tree (names self.now.resolved.now)) statements.now))) (scene state.old (O.state out.old)) result (scene state.new (O.state out.new)) }
    {
        let mut last = Value::Unit;
        for s in statements {
            last = self.part(state, out, Node::Stmt(s))?;
        }
        Ok(last)
    }
}
