//! The built-in functions that are open.
ghost use Rattle.std.specs.Prelude.{◌≡◌, false};
ghost use Rattle.kt_model.specs.BuiltIns as spec;

use crate::kinds::{Head, KtType};

/// A built-in function: its name's number, the least and the most number of its arguments, their type, and its result.
#[derive(Clone, Copy, Debug, PartialEq, Eq)]
pub struct BuiltIn {
    pub name: u32,
    pub least: u32,
    pub most: u32,
    pub parameter: KtType,
    pub result: KtType,
}

/// How many built-in functions are open: their declarations stand before those of a file's functions.
pub const BUILT_IN_FUNCTIONS: usize = 5;

/// The type with this head, without `?`.
fn sure(head: Head) -> KtType
    ensures { result ≡ record { head = head; nullable = false } }
{
    KtType {
        head,
        nullable: false,
    }
}

/// `println`: of any value, or of none.
pub fn println() -> BuiltIn
    ensures { result ≡ spec.println }
{
    BuiltIn {
        name: 20,
        least: 0,
        most: 1,
        parameter: KtType {
            head: Head::Any,
            nullable: true,
        },
        result: sure(Head::Unit),
    }
}

/// `print`: of any value.
pub fn print() -> BuiltIn
    ensures { result ≡ spec.print }
{
    BuiltIn {
        name: 21,
        least: 1,
        most: 1,
        parameter: KtType {
            head: Head::Any,
            nullable: true,
        },
        result: sure(Head::Unit),
    }
}

/// `require`: it throws where its value is false.
pub fn require() -> BuiltIn
    ensures { result ≡ spec.require }
{
    BuiltIn {
        name: 23,
        least: 1,
        most: 1,
        parameter: sure(Head::Boolean),
        result: sure(Head::Unit),
    }
}

/// `check`: it throws where its value is false.
pub fn check() -> BuiltIn
    ensures { result ≡ spec.check }
{
    BuiltIn {
        name: 24,
        least: 1,
        most: 1,
        parameter: sure(Head::Boolean),
        result: sure(Head::Unit),
    }
}

/// `error`: it throws, with the text of a value.
pub fn error() -> BuiltIn
    ensures { result ≡ spec.error }
{
    BuiltIn {
        name: 25,
        least: 1,
        most: 1,
        parameter: sure(Head::Any),
        result: sure(Head::Nothing),
    }
}

/// The built-in function whose name has that number, where it is open.
pub fn built_in_named(name: u32) -> Option<BuiltIn>
    ensures { result ≡ spec.built_in_named name }
{
    match name {
        20 => Some(println()),
        21 => Some(print()),
        23 => Some(require()),
        24 => Some(check()),
        25 => Some(error()),
        _ => None,
    }
}
