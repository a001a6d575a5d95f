//! What phrases are made into.
use crate::ast::{
    Block, Catch, ClassDecl, ClassParameter, Condition, Contract, Effect, Expr, FunctionDecl,
    Getter, Ident, Lambda, LambdaParameter, Parameter, PropertyDecl, Stmt, Subject, Supertype,
    TypeRef, WhenBranch,
};
use sqlite_items::Items;

/// What a phrase is made into.
#[derive(Drop)]
pub enum Built {
    /// A token that was kept, by its place.
    Token(u32),
    /// An option that was passed over.
    Absent,
    /// A list of so many, which follow.
    Count(usize),
    Type(TypeRef),
    Expr(Expr),
    Stmt(Stmt),
    Block(Block),
    Lambda(Lambda),
    LambdaParameter(LambdaParameter),
    WhenBranch(WhenBranch),
    Condition(Condition),
    Catch(Catch),
    Subject(Subject),
    /// The `val` of a `when` and its written type.
    SubjectName(Ident, Option<TypeRef>),
    Function(FunctionDecl),
    Parameter(Parameter),
    /// A type of functions: the types of the parameters, and the result.
    FunctionType(Items<TypeRef>, TypeRef),
    FunctionBlock(Option<Contract>, Block),
    Contract(Contract),
    Effect(Effect),
    Class(ClassDecl),
    ClassParameter(ClassParameter),
    Supertype(Supertype),
    Init(Block),
    Property(PropertyDecl),
    Getter(Getter),
}
