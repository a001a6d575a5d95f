//! Expressions and statements.
use crate::ast::part::{
    Access, Arithmetic, Assignment, Comparison, Equality, Ident, LambdaParameter, Progression,
    Sign, TypeRef,
};
use crate::token::Span;
use sqlite_items::{Boxed, Items};

/// An expression: its number, where it stands, and what it is.
#[cycle(ast)]
#[derive(Drop)]
pub struct Expr {
    pub number: u32,
    pub span: Span,
    pub kind: ExprKind,
}

/// What an expression is. Parts are evaluated in the order given.
#[cycle(ast)]
#[derive(Drop)]
pub enum ExprKind {
    Int(u32),
    Bool(bool),
    Null,
    This,
    /// A name that stands alone, by its number in the name table.
    Name(u32),
    /// A string, with its inserted parts.
    Template(Items<StringPart>),
    Paren(Boxed<Expr>),
    /// A call of a function, a class or a parameter.
    Call {
        callee: Ident,
        arguments: Items<Expr>,
        lambda: Option<Boxed<Lambda>>,
    },
    Member {
        receiver: Boxed<Expr>,
        access: Access,
        name: Ident,
    },
    MemberCall {
        receiver: Boxed<Expr>,
        access: Access,
        name: Ident,
        arguments: Items<Expr>,
    },
    /// `e!!`
    NotNull(Boxed<Expr>),
    Sign(Sign, Boxed<Expr>),
    Not(Boxed<Expr>),
    As(Boxed<Expr>, TypeRef),
    /// `as?`
    AsSafe(Boxed<Expr>, TypeRef),
    Sum(Boxed<Expr>, Boxed<Expr>),
    Arithmetic(Arithmetic, Boxed<Expr>, Boxed<Expr>),
    Compare(Comparison, Boxed<Expr>, Boxed<Expr>),
    Equal(Equality, Boxed<Expr>, Boxed<Expr>),
    And(Boxed<Expr>, Boxed<Expr>),
    Or(Boxed<Expr>, Boxed<Expr>),
    /// `a ?: b`
    Elvis(Boxed<Expr>, Boxed<Expr>),
    Is(Boxed<Expr>, TypeRef),
    /// `!is`
    IsNot(Boxed<Expr>, TypeRef),
    If {
        condition: Boxed<Expr>,
        then: Boxed<Branch>,
        otherwise: Option<Boxed<Branch>>,
    },
    When {
        subject: Option<Boxed<Subject>>,
        branches: Items<WhenBranch>,
    },
    Try {
        body: Boxed<Block>,
        catches: Items<Catch>,
        finally: Option<Boxed<Block>>,
    },
    /// `return`, or `return@label`.
    Return {
        label: Option<Ident>,
        value: Option<Boxed<Expr>>,
    },
    Throw(Boxed<Expr>),
    Break,
    Continue,
}

/// A part of a string: the bytes that it stands for, or an inserted expression.
#[cycle(ast)]
#[derive(Drop)]
pub enum StringPart {
    Text(Items<u8>),
    Inserted(Expr),
}

/// The lambda behind a call. It is a tree of its own.
#[cycle(ast)]
#[derive(Drop)]
pub struct Lambda {
    pub number: u32,
    pub span: Span,
    pub parameters: Items<LambdaParameter>,
    pub body: Block,
}

/// Statements between braces, with the span of both.
#[cycle(ast)]
#[derive(Drop)]
pub struct Block {
    pub span: Span,
    pub statements: Items<Stmt>,
}

/// What a condition, a loop or a `when` leads to.
#[cycle(ast)]
#[derive(Drop)]
pub enum Branch {
    Braced(Block),
    Single(Stmt),
}

/// What a `when` looks at, and the `val` that it is kept in where there is one.
#[cycle(ast)]
#[derive(Drop)]
pub struct Subject {
    pub variable: Option<Ident>,
    pub written: Option<TypeRef>,
    pub value: Expr,
}

/// A condition of a `when`. The span is that of `is` or `!is` with its type.
#[cycle(ast)]
#[derive(Drop)]
pub enum Condition {
    Is(Span, TypeRef),
    IsNot(Span, TypeRef),
    Value(Expr),
}

/// A branch of a `when`: its conditions, `None` for `else`; the span of its first token; and its body.
#[cycle(ast)]
#[derive(Drop)]
pub struct WhenBranch {
    pub conditions: Option<Items<Condition>>,
    pub begins: Span,
    pub body: Branch,
}

#[cycle(ast)]
#[derive(Drop)]
pub struct Catch {
    pub name: Ident,
    pub caught: TypeRef,
    pub body: Block,
}

/// A statement. An expression that stands as one is the same tree.
#[cycle(ast)]
#[derive(Drop)]
pub enum Stmt {
    Expr(Expr),
    Local {
        number: u32,
        span: Span,
        is_var: bool,
        name: Ident,
        written: Option<TypeRef>,
        value: Option<Expr>,
    },
    /// The left side is no tree where it is a name or a member behind `.`; then its number is 0, and only its receiver is
    /// one. The value is `None` for `++` and `--`.
    Assign {
        number: u32,
        span: Span,
        target: Expr,
        assignment: Assignment,
        value: Option<Expr>,
    },
    While {
        number: u32,
        span: Span,
        condition: Expr,
        body: Boxed<Branch>,
    },
    DoWhile {
        number: u32,
        span: Span,
        body: Block,
        condition: Expr,
    },
    For {
        number: u32,
        span: Span,
        variable: Ident,
        written: Option<TypeRef>,
        low: Expr,
        progression: Progression,
        high: Expr,
        body: Boxed<Branch>,
    },
}
