//! Texts: those of values, and those that a run makes, whose bytes are counted.
ghost use Rattle.std.specs.Prelude.{◌≡◌, ◌++◌, Some, IfOk, OnOk};
ghost use Rattle.kt_mean.specs.Evaluation as spec;
ghost use Rattle.kt_mean.specs.Evaluation.{text_of_value, text_made, string_of};
ghost use Rattle.kt_run.specs.Scene.{Quiet};
ghost use Rattle.kt_run.specs.Operators.{Inserts};

use crate::state::{Halt, State};
use itoa::Buffer;
use kt_mean::{Limit, Text, Value};
use sqlite_items::Items;
use std::alloc::{AllocError, Global};

/// The bytes that the texts which a run makes may have.
const MOST_TEXT: u64 = 16_777_216;

/// The text of a value. That of a number is written into the buffer.
pub(crate) fn text_of<'t>(value: &'t Value, buffer: &'t mut Buffer) -> &'t [u8]
    ensures { result.now ≡ text_of_value value.now }
{
    match value {
        Value::Unit => b"kotlin.Unit",
        Value::Bool(true) => b"true",
        Value::Bool(false) => b"false",
        Value::Int(number) => buffer.format(*number).as_bytes(),
        Value::Text(text) => text.bytes(),
    }
}

/// The bytes of a value's text.
pub(crate) fn bytes_of(alloc: Global, value: &Value) -> Result<Vec<u8>, AllocError>
    ensures { IfOk result (λ bytes. bytes.items ≡ text_of_value value.now) }
{
    let mut buffer = Buffer::new();
    Vec::from_slice(alloc, text_of(value, &mut buffer))
}

/// Adds the text of a value to the bytes of a string. Nothing is added where these are more than a run may make already: such a string is not kept.
pub(crate) fn insert(bytes: &mut Vec<u8>, value: &Value) -> Result<(), AllocError>
    ensures { OnOk result (Inserts bytes.old.items (text_of_value value.now) bytes.new.items) }
{
    if bytes.len() as u64 > MOST_TEXT {
        return Ok(());
    }
    let mut buffer = Buffer::new();
    bytes.extend_from_slice(text_of(value, &mut buffer))
}

/// A text that the run makes: its bytes are counted. `Over` where the texts of the run would have more than they may.
pub(crate) fn make_text(state: &mut State, bytes: Vec<u8>) -> Result<Text, Halt>
    ensures { Quiet (spec.make_text bytes.items) state.old result state.new }
{
    let count = state.text.saturating_add(bytes.len() as u64);
    if count > MOST_TEXT {
        return Err(Halt::Over(Limit::Text));
    }
    state.text = count;
    Ok(Text::new(Items::from_vec(bytes)))
}

// The same, as a value.
fn text_value(state: &mut State, bytes: Vec<u8>) -> Result<Value, Halt>
    ensures { Quiet (text_made bytes.items) state.old result state.new }
{
    let text = make_text(state, bytes)?;
    Ok(Value::Text(text))
}

/// A string: the run makes it where it has parts.
pub(crate) fn string(state: &mut State, bytes: Vec<u8>, has_parts: bool) -> Result<Value, Halt>
    ensures { Quiet (string_of has_parts (Some bytes.items)) state.old result state.new }
{
    if has_parts {
        return text_value(state, bytes);
    }
    Ok(Value::Text(Text::new(Items::from_vec(bytes))))
}

/// The text, and behind it that of the value.
pub(crate) fn join(
    alloc: Global,
    state: &mut State,
    text: &Text,
    value: &Value,
) -> Result<Value, Halt>
    ensures { Quiet (text_made (text.now ++ text_of_value value.now)) state.old result state.new }
{
    let mut bytes = Vec::from_slice(alloc, text.bytes())?;
    let mut buffer = Buffer::new();
    bytes.extend_from_slice(text_of(value, &mut buffer))?;
    text_value(state, bytes)
}
