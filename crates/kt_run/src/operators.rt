//! Operators between values. There is no answer for a wrong use: each function requires that none comes.
ghost use Rattle.std.specs.Prelude.{◌≡◌, ◌∷◌, [], Some, IsSome, int_rem};
ghost use Rattle.std.specs.Int.{w32, int_wrapping_div};
ghost use Rattle.kt_mean.specs.Frames.{pure};
ghost use Rattle.kt_mean.specs.Evaluation as spec;
ghost use Rattle.kt_mean.specs.Evaluation.{arithmetic_of, by_divisor, compared, equal_by, operated, same_value, sum_of};
ghost use Rattle.kt_run.specs.Scene.{Right, Quiet};
ghost use Rattle.kt_run.specs.Operators.{operation_of, number_in, truth_in};

use crate::single_steps::throw;
use crate::state::{Halt, State};
use crate::texts::join;
use kt_mean::{Exception, Value};
use kt_tree::ast::{Arithmetic, Comparison, Equality, Sign};
use std::alloc::Global;

/// An operator between two values.
#[derive(Clone, Copy, Debug, PartialEq, Eq)]
pub(crate) enum Operator {
    Sum,
    Arithmetic(Arithmetic),
    Compare(Comparison),
    Equal(Equality),
}

/// What an operator gives, or what it throws. Int has 32 bits and wraps.
pub(crate) fn combine(
    alloc: Global,
    state: &mut State,
    operator: Operator,
    a: &Value,
    b: &Value,
) -> Result<Value, Halt>
    requires right { Right (operated (operation_of operator) (a.now ∷ b.now ∷ [])) state.old }
    ensures { Quiet (operated (operation_of operator) (a.now ∷ b.now ∷ [])) state.old result state.new }
{
    match operator {
        Operator::Sum => sum(alloc, state, a, b),
        Operator::Arithmetic(o) => calculate(state, o, number(a), number(b)),
        Operator::Compare(o) => Ok(Value::Bool(compare(o, number(a), number(b)))),
        Operator::Equal(o) => Ok(Value::Bool(is_equal(o, a, b))),
    }
}

// `+`: it joins texts where the left value is one.
fn sum(alloc: Global, state: &mut State, a: &Value, b: &Value) -> Result<Value, Halt>
    requires right { Right (sum_of (a.now ∷ b.now ∷ [])) state.old }
    ensures { Quiet (sum_of (a.now ∷ b.now ∷ [])) state.old result state.new }
{
    match a {
        Value::Text(text) => join(alloc, state, text, b),
        _ => Ok(Value::Int(number(a).wrapping_add(number(b)))),
    }
}

fn calculate(state: &mut State, operator: Arithmetic, a: i32, b: i32) -> Result<Value, Halt>
    ensures { Quiet (arithmetic_of operator a b) state.old result state.new }
{
    match operator {
        Arithmetic::Subtract => Ok(Value::Int(a.wrapping_sub(b))),
        Arithmetic::Multiply => Ok(Value::Int(a.wrapping_mul(b))),
        Arithmetic::Divide => divide(state, a, b),
        Arithmetic::Remainder => remainder(state, a, b),
    }
}

// The quotient, truncated towards zero.
fn divide(state: &mut State, a: i32, b: i32) -> Result<Value, Halt>
    ensures { Quiet (by_divisor b (pure (Value.Int (int_wrapping_div w32 a b)))) state.old result state.new }
{
    if b == 0 {
        return throw(state, Exception::DivisionByZero);
    }
    Ok(Value::Int(a.wrapping_div(b)))
}

// What a division leaves.
fn remainder(state: &mut State, a: i32, b: i32) -> Result<Value, Halt>
    ensures { Quiet (by_divisor b (pure (Value.Int (int_rem a b)))) state.old result state.new }
{
    if b == 0 {
        return throw(state, Exception::DivisionByZero);
    }
    Ok(Value::Int(a.wrapping_rem(b)))
}

fn compare(comparison: Comparison, a: i32, b: i32) -> bool
    ensures { result ≡ compared comparison a b }
{
    match comparison {
        Comparison::Less => a < b,
        Comparison::Greater => a > b,
        Comparison::LessOrEqual => a <= b,
        Comparison::GreaterOrEqual => a >= b,
    }
}

// What `==` and `!=` say of two values.
fn is_equal(equality: Equality, a: &Value, b: &Value) -> bool
    ensures { result ≡ equal_by equality (same_value a.now b.now) }
{
    let same = is_same(a, b);
    match equality {
        Equality::Equal => same,
        Equality::NotEqual => !same,
    }
}

fn is_same(a: &Value, b: &Value) -> bool
    ensures { result ≡ same_value a.now b.now }
{
    match (a, b) {
        (Value::Unit, Value::Unit) => true,
        (Value::Bool(a), Value::Bool(b)) => *a == *b,
        (Value::Int(a), Value::Int(b)) => *a == *b,
        (Value::Text(a), Value::Text(b)) => a.bytes() == b.bytes(),
        _ => false,
    }
}

/// The truth of a value.
pub(crate) fn truth(value: &Value) -> bool
    requires { IsSome (truth_in value.now) }
    ensures { truth_in value.now ≡ Some result }
{
    match value {
        Value::Bool(truth) => *truth,
        _ => unreachable!(),
    }
}

/// The number of a value.
pub(crate) fn number(value: &Value) -> i32
    requires { IsSome (number_in value.now) }
    ensures { number_in value.now ≡ Some result }
{
    match value {
        Value::Int(number) => *number,
        _ => unreachable!(),
    }
}

/// What a sign makes of a number.
pub(crate) fn with_sign(sign: Sign, a: i32) -> i32
    ensures { result ≡ spec.signed sign a }
{
    match sign {
        Sign::Minus => a.wrapping_neg(),
        Sign::Plus => a,
    }
}
