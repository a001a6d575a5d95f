//! The trees of a file: its declarations, and in their bodies statements and expressions. A tree's parts stand in the
//! order in which they are evaluated. All trees of a file are numbered from 1 in preorder. The shapes are this
//! project's own; what each tree means is the Kotlin specification's "Expressions", "Statements" and "Declarations".
mod body;
mod declaration;
mod part;

pub use body::{
    Block, Branch, Catch, Condition, Expr, ExprKind, Lambda, Stmt, StringPart, Subject, WhenBranch,
};
pub use declaration::{
    ClassDecl, ClassKeyword, ClassParameter, Contract, Effect, EffectKind, File, FunctionBody,
    FunctionDecl, Getter, Member, Modifier, ModifierKind, Parameter, ParameterType, PropertyDecl,
    Returned, Supertype,
};
pub use part::{
    Access, Arithmetic, Assignment, Comparison, Equality, Ident, LambdaParameter, Progression,
    Sign, TypeRef,
};
