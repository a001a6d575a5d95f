//! Declarations.
use crate::ast::body::{Block, Expr};
use crate::ast::part::{Ident, TypeRef};
use crate::names::Names;
use crate::token::Span;
use sqlite_items::Items;

/// A source file: its classes and interfaces, its functions, each in the order of the text, and the names that it uses.
#[derive(Drop)]
pub struct File {
    pub classes: Items<ClassDecl>,
    pub functions: Items<FunctionDecl>,
    pub names: Names,
}

/// A word before a declaration.
#[derive(Clone, Copy, Debug, PartialEq, Eq)]
pub struct Modifier {
    pub kind: ModifierKind,
    pub span: Span,
}

#[derive(Clone, Copy, Debug, PartialEq, Eq)]
pub enum ModifierKind {
    Public,
    Private,
    Open,
    Abstract,
    Final,
    Override,
    Inline,
}

#[derive(Clone, Copy, Debug, PartialEq, Eq)]
pub enum ClassKeyword {
    Class,
    Interface,
}

/// A class or an interface. Its span begins at its first modifier. An interface has no parameters.
#[derive(Drop)]
pub struct ClassDecl {
    pub span: Span,
    pub modifiers: Items<Modifier>,
    pub keyword: ClassKeyword,
    pub name: Ident,
    pub parameters: Option<Items<ClassParameter>>,
    pub supertypes: Items<Supertype>,
    pub members: Option<Items<Member>>,
}

/// A parameter of a class's constructor. `is_var` is `None` where it is no property.
#[derive(Drop)]
pub struct ClassParameter {
    pub span: Span,
    pub modifiers: Items<Modifier>,
    pub is_var: Option<bool>,
    pub name: Ident,
    pub written: TypeRef,
}

/// A written supertype, and its arguments where `( )` follows it.
#[derive(Drop)]
pub struct Supertype {
    pub span: Span,
    pub name: Ident,
    pub arguments: Option<Items<Expr>>,
}

#[derive(Drop)]
pub enum Member {
    /// An `init` block.
    Init(Block),
    Function(FunctionDecl),
    Property(PropertyDecl),
}

#[derive(Drop)]
pub struct PropertyDecl {
    pub span: Span,
    pub modifiers: Items<Modifier>,
    pub is_var: bool,
    pub name: Ident,
    pub written: Option<TypeRef>,
    pub value: Option<Expr>,
    pub getter: Option<Getter>,
}

#[derive(Drop)]
pub struct Getter {
    pub span: Span,
    pub written: Option<TypeRef>,
    pub body: FunctionBody,
}

#[derive(Drop)]
pub struct FunctionDecl {
    pub span: Span,
    pub modifiers: Items<Modifier>,
    pub name: Ident,
    pub parameters: Items<Parameter>,
    pub result: Option<TypeRef>,
    pub body: Option<FunctionBody>,
}

#[derive(Drop)]
pub struct Parameter {
    pub span: Span,
    pub name: Ident,
    pub kind: ParameterType,
}

#[derive(Drop)]
pub enum ParameterType {
    Value(TypeRef),
    /// `(A, B) -> C`
    Function {
        parameters: Items<TypeRef>,
        result: TypeRef,
    },
}

/// The body of a function or of a getter, which has no contract.
#[derive(Drop)]
pub enum FunctionBody {
    Expr(Expr),
    Block {
        contract: Option<Contract>,
        block: Block,
    },
}

/// The contract at the begin of a function's block. `word` is the span of `contract`.
#[derive(Drop)]
pub struct Contract {
    pub span: Span,
    pub word: Span,
    pub effects: Items<Effect>,
}

#[derive(Drop)]
pub struct Effect {
    pub span: Span,
    pub kind: EffectKind,
}

/// What is returned where an effect's condition holds.
#[derive(Clone, Copy, Debug, PartialEq, Eq)]
pub enum Returned {
    Normal,
    True,
    False,
    Null,
    NotNull,
}

#[derive(Drop)]
pub enum EffectKind {
    Returns {
        returned: Returned,
        condition: Expr,
    },
    CallsInPlace {
        parameter: Ident,
        kind: Option<Ident>,
    },
}
