//! Single steps: they touch the state alone.
ghost use Rattle.std.specs.Prelude.{◌≡◌, MatchResult, pos};
ghost use Rattle.kt_mean.specs.Evaluation as spec;
ghost use Rattle.kt_mean.specs.Evaluation.{throws};
ghost use Rattle.kt_mean.specs.Programs.{is_expression};
ghost use Rattle.kt_mean.specs.declared.states.Value.TheVariants as value;
ghost use Rattle.kt_run.specs.declared.state.Halt.TheVariants as halt;
ghost use Rattle.kt_run.specs.Scene.{Right, Quiet};
ghost use Rattle.kt_run.specs.Running.{names, name_run, answered};

use crate::evaluator::ResolvedFile;
use crate::state::{Halt, State};
use kt_mean::{Exception, Limit, Value, Way};
use kt_model::uses::Named;
use kt_tree::ast::FunctionBody;
use std::alloc::Global;

/// The cells that objects may take.
const MOST_CELLS: u32 = 1_048_576;

/// The cells of an exception, which has one field: its message.
const EXCEPTION_CELLS: u32 = 2;

/// A local that is assigned, and whether it is assigned only once.
#[derive(Clone, Copy)]
pub(crate) struct Target {
    pub(crate) local: u32,
    pub(crate) fixed: bool,
}

/// A step of the run.
#[tactic(auto, unfolding(kt_mean::specs::Evaluation::spend, kt_mean::specs::Frames::over, kt_mean::specs::Frames::pure))]
pub(crate) fn spend(state: &mut State) -> Result<(), Halt>
    ensures { Quiet spec.spend state.old result state.new }
{
    if state.steps == 0 {
        return Err(Halt::Over(Limit::Steps));
    }
    state.steps -= 1;
    Ok(())
}

/// Takes so many cells for a new object.
fn take_cells(state: &mut State, count: u32) -> Result<(), Halt>
    ensures { Quiet (spec.take_cells count) state.old result state.new }
{
    let cells = state.cells.saturating_add(count);
    if cells > MOST_CELLS {
        return Err(Halt::Over(Limit::Store));
    }
    state.cells = cells;
    Ok(())
}

/// Throws: the exception is a new object.
pub(crate) fn throw(state: &mut State, exception: Exception) -> Result<Value, Halt>
    ensures { Quiet (throws exception) state.old result state.new }
{
    take_cells(state, EXCEPTION_CELLS)?;
    Err(Halt::Way(Way::Throw(exception)))
}

/// A copy of what the local holds. There is a value, since no wrong use comes.
#[tactic(auto, unfolding(kt_mean::specs::Evaluation::read, kt_mean::specs::Frames::pure, kt_mean::specs::Frames::wrong))]
pub(crate) fn read(alloc: Global, state: &mut State, local: u32) -> Result<Value, Halt>
    requires right { Right (spec.read local) state.old }
    ensures { Quiet (spec.read local) state.old result state.new }
{
    let held = state.frame.get(alloc, local)?;
    match held {
        Some(value) => Ok(value),
        None => unreachable!(),
    }
}

/// What the name in a tree holds.
pub(crate) fn read_name(
    resolved: &ResolvedFile<'_>,
    state: &mut State,
    tree: u32,
) -> Result<Value, Halt>
    requires right { Right (name_run (names resolved.now tree)) state.old }
    ensures { Quiet (name_run (names resolved.now tree)) state.old result state.new }
{
    match resolved.uses.named(tree) {
        Named::Variable(local, _) => read(resolved.alloc, state, local),
        _ => unreachable!(),
    }
}

/// Makes the local hold a value, or nothing.
#[tactic(auto, unfolding(kt_mean::specs::Evaluation::store))]
pub(crate) fn store(state: &mut State, local: u32, value: Option<Value>) -> Result<Value, Halt>
    ensures { Quiet (spec.store local value) state.old result state.new }
{
    state.frame.set(local, value)?;
    Ok(Value::Unit)
}

/// An assignment. A local that is assigned only once holds nothing here, since no wrong use comes.
pub(crate) fn write(state: &mut State, target: Target, value: Value) -> Result<Value, Halt>
    requires right { Right (spec.write target.fixed target.local value) state.old }
    ensures { Quiet (spec.write target.fixed target.local value) state.old result state.new }
{
    store(state, target.local, Some(value))
}

/// The answer of a call, by that of its body.
pub(crate) fn call_end(
    body: &Option<FunctionBody>,
    answer: Result<Value, Halt>,
) -> Result<Value, Halt>
    ensures { result ≡ answered (is_expression body.now) answer }
{
    match answer {
        Ok(value) => match body {
            Some(FunctionBody::Expr(_)) => Ok(value),
            _ => Ok(Value::Unit),
        },
        Err(Halt::Way(Way::Return(value))) => Ok(value),
        Err(Halt::Way(Way::Throw(exception))) => Err(Halt::Way(Way::Throw(exception))),
        Err(Halt::Over(limit)) => Err(Halt::Over(limit)),
        Err(Halt::OutputFault) => Err(Halt::OutputFault),
        Err(Halt::NoMemory) => Err(Halt::NoMemory),
    }
}

/// An integer is below 2147483648 in each file; one that were not would end the run as without memory.
pub(crate) fn int_value(number: u32) -> Result<Value, Halt>
    ensures { MatchResult result (λ v. v ≡ value.Int (pos number)) (λ h. h ≡ halt.NoMemory) }
{
    match i32::try_from(number) {
        Ok(number) => Ok(Value::Int(number)),
        Err(_) => Err(Halt::NoMemory),
    }
}
