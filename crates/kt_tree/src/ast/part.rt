//! The small parts of trees: names, written types, operators.
use crate::token::Span;

/// A name where it is declared or used, by its number in the name table.
#[derive(Clone, Copy, Debug, PartialEq, Eq)]
pub struct Ident {
    pub name: u32,
    pub span: Span,
}

/// A written type: the name of a class, and whether a `?` follows it.
#[derive(Clone, Copy, Debug, PartialEq, Eq)]
pub struct TypeRef {
    pub name: Ident,
    pub nullable: bool,
    pub span: Span,
}

/// A parameter of a lambda, and its type where one is written.
#[derive(Clone, Copy, Debug, PartialEq, Eq)]
pub struct LambdaParameter {
    pub name: Ident,
    pub written: Option<TypeRef>,
}

/// A sign before an operand.
#[derive(Clone, Copy, Debug, PartialEq, Eq)]
pub enum Sign {
    Minus,
    Plus,
}

/// The arithmetic operators but `+`, which also joins texts.
#[derive(Clone, Copy, Debug, PartialEq, Eq)]
pub enum Arithmetic {
    Subtract,
    Multiply,
    Divide,
    Remainder,
}

#[derive(Clone, Copy, Debug, PartialEq, Eq)]
pub enum Comparison {
    Less,
    Greater,
    LessOrEqual,
    GreaterOrEqual,
}

#[derive(Clone, Copy, Debug, PartialEq, Eq)]
pub enum Equality {
    Equal,
    NotEqual,
}

/// How an assignment makes the new value: `=`, `+=`, or another operator and `=`. `x++` is `x += 1` and `x--` is
/// `x -= 1`, without a tree for 1.
#[derive(Clone, Copy, Debug, PartialEq, Eq)]
pub enum Assignment {
    Plain,
    Sum,
    Arithmetic(Arithmetic),
}

/// `.` or `?.`
#[derive(Clone, Copy, Debug, PartialEq, Eq)]
pub enum Access {
    Dot,
    Safe,
}

/// How the numbers of a `for` go: `..`, `until`, `downTo`.
#[derive(Clone, Copy, Debug, PartialEq, Eq)]
pub enum Progression {
    RangeTo,
    Until,
    DownTo,
}
