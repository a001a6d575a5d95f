//! Built-in functions. There is no answer for a wrong use: each function requires that none comes.
ghost use Rattle.std.specs.Prelude.{◌≡◌, ◌++◌, ◌∷◌, []};
ghost use Rattle.kt_mean.specs.Evaluation as spec;
ghost use Rattle.kt_mean.specs.Evaluation.{built_in_of_one, demanded, failed, text_of_value};
ghost use Rattle.kt_outside.specs.Texts.{PutsAll};
ghost use Rattle.kt_run.specs.Scene.{scene, Right, Runs, Quiet, Prints};

use crate::operators::truth;
use crate::single_steps::throw;
use crate::state::{Halt, State};
use crate::texts::{bytes_of, make_text, text_of};
use itoa::Buffer;
use kt_mean::{Exception, Value};
use kt_model::built_ins;
use kt_outside::{Output, PutFault, put_all};
use std::alloc::Global;

/// What a built-in function does with its arguments.
pub(crate) fn built_in<O: Output>(
    alloc: Global,
    state: &mut State,
    out: &mut O,
    name: u32,
    values: &[Value],
) -> Result<Value, Halt>
    requires right { Right (spec.built_in name values.now) state.old }
    ensures { Runs (spec.built_in name values.now) (scene state.old (O.state out.old)) result (scene state.new (O.state out.new)) }
{
    match values {
        [] => end_line(out),
        [value] => with_one(alloc, state, out, name, value),
        _ => unreachable!(),
    }
}

// A built-in function with one argument.
fn with_one<O: Output>(
    alloc: Global,
    state: &mut State,
    out: &mut O,
    name: u32,
    value: &Value,
) -> Result<Value, Halt>
    requires right { Right (built_in_of_one name value.now) state.old }
    ensures { Runs (built_in_of_one name value.now) (scene state.old (O.state out.old)) result (scene state.new (O.state out.new)) }
{
    if name == built_ins::println().name {
        return print_line(out, value);
    }
    if name == built_ins::print().name {
        return print(out, value);
    }
    if name == built_ins::require().name {
        return demand(state, value, Exception::FailedRequirement);
    }
    if name == built_ins::check().name {
        return demand(state, value, Exception::FailedCheck);
    }
    if name == built_ins::error().name {
        return fail(alloc, state, value);
    }
    unreachable!()
}

// `println` without an argument.
fn end_line<O: Output>(out: &mut O) -> Result<Value, Halt>
    ensures { Prints (O.state out.old) (O.state out.new) (10 ∷ []) result }
{
    match put_all(out, b"\n") {
        Ok(()) => Ok(Value::Unit),
        Err(_) => Err(Halt::OutputFault),
    }
}

fn print<O: Output>(out: &mut O, value: &Value) -> Result<Value, Halt>
    ensures { Prints (O.state out.old) (O.state out.new) (text_of_value value.now) result }
{
    match put_value(out, value) {
        Ok(()) => Ok(Value::Unit),
        Err(_) => Err(Halt::OutputFault),
    }
}

// Puts the value's text and a line end.
fn print_line<O: Output>(out: &mut O, value: &Value) -> Result<Value, Halt>
    ensures { Prints (O.state out.old) (O.state out.new) (text_of_value value.now ++ 10 ∷ []) result }
{
    match put_value(out, value) {
        Ok(()) => {}
        Err(_) => return Err(Halt::OutputFault),
    }
    match put_all(out, b"\n") {
        Ok(()) => Ok(Value::Unit),
        Err(_) => Err(Halt::OutputFault),
    }
}

fn put_value<O: Output>(out: &mut O, value: &Value) -> Result<(), PutFault>
    ensures { PutsAll (O.state out.old) (O.state out.new) (text_of_value value.now) result }
{
    let mut buffer = Buffer::new();
    put_all(out, text_of(value, &mut buffer))
}

// `require`, `check`: it throws where the value does not hold.
fn demand(state: &mut State, value: &Value, exception: Exception) -> Result<Value, Halt>
    requires right { Right (demanded exception value.now) state.old }
    ensures { Quiet (demanded exception value.now) state.old result state.new }
{
    if truth(value) {
        return Ok(Value::Unit);
    }
    throw(state, exception)
}

// `error`: it throws, with the text of the value.
fn fail(alloc: Global, state: &mut State, value: &Value) -> Result<Value, Halt>
    ensures { Quiet (failed value.now) state.old result state.new }
{
    match value {
        Value::Text(text) => {
            let copy = text.copied(alloc)?;
            throw(state, Exception::Error(copy))
        }
        _ => {
            let bytes = bytes_of(alloc, value)?;
            let text = make_text(state, bytes)?;
            throw(state, Exception::Error(text))
        }
    }
}
