//! Values, exceptions, what leaves a body before its end, limits, and how a run ends.
ghost use Rattle.std.specs.Prelude.{◌≡◌, IfOk};

use crate::text::Text;
use std::alloc::{AllocError, Global};

/// A value of the language.
#[derive(Drop)]
pub enum Value {
    Unit,
    Bool(bool),
    Int(i32),
    Text(Text),
}

impl Value {
    /// The same value once more; an error where there is no memory for a text.
    pub fn copied(&self, alloc: Global) -> Result<Value, AllocError>
        ensures { IfOk result (λ v. v ≡ self.now) }
    {
        match self {
            Value::Unit => Ok(Value::Unit),
            Value::Bool(truth) => Ok(Value::Bool(*truth)),
            Value::Int(number) => Ok(Value::Int(*number)),
            Value::Text(text) => {
                let copy = text.copied(alloc)?;
                Ok(Value::Text(copy))
            }
        }
    }
}

/// An exception that the language throws.
#[derive(Drop)]
pub enum Exception {
    /// A number is divided by zero.
    DivisionByZero,
    /// The value of a `require` is false.
    FailedRequirement,
    /// The value of a `check` is false.
    FailedCheck,
    /// An `error` with this text.
    Error(Text),
}

/// What leaves the body of a function before its end.
#[derive(Drop)]
pub enum Way {
    Return(Value),
    Throw(Exception),
}

/// A limit that ends a run at once.
#[derive(Clone, Copy, Debug, PartialEq, Eq)]
pub enum Limit {
    /// No step is left.
    Steps,
    /// As many calls are under way as may be.
    Calls,
    /// As many cells are taken by objects as may be.
    Store,
    /// The texts that the run made have as many bytes as may be.
    Text,
}

/// How the written meaning of a run ends.
#[derive(Drop)]
pub enum RunEnding {
    /// `main` ended.
    Done,
    /// No step was left.
    Steps,
    /// One more call was made than may be under way at once.
    Calls,
    /// An object would have taken more cells than there may be.
    Store,
    /// A text would have had more bytes than the texts of a run may have.
    Text,
    /// An exception left `main`.
    Uncaught(Exception),
}
