//! Blanks: what stands for a part that is not there, which no production leads to.
ghost use Rattle.std.specs.Prelude.{◌≡◌};
ghost use Rattle.kt_tree.specs.Parts as spec;

use kt_tree::Span;
use kt_tree::ast::{
    Block, Branch, Catch, ClassParameter, Effect, EffectKind, Expr, ExprKind, Ident,
    LambdaParameter, Parameter, ParameterType, Stmt, Supertype, TypeRef, WhenBranch,
};
use sqlite_items::Items;
use std::alloc::Global;

/// The span of nothing.
pub fn nowhere() -> Span
    ensures { result ≡ spec.nowhere }
{
    Span { start: 0, end: 0 }
}

pub fn blank_ident() -> Ident
    ensures { result ≡ spec.blank_ident }
{
    Ident {
        name: 0,
        span: nowhere(),
    }
}

pub fn blank_type() -> TypeRef
    ensures { result ≡ spec.blank_type }
{
    TypeRef {
        name: blank_ident(),
        nullable: false,
        span: nowhere(),
    }
}

pub fn blank_expr() -> Expr
    ensures { result ≡ spec.blank_expr }
{
    Expr {
        number: 0,
        span: nowhere(),
        kind: ExprKind::Null,
    }
}

pub fn blank_block(alloc: Global) -> Block
    ensures { result ≡ spec.blank_block }
{
    Block {
        span: nowhere(),
        statements: Items::new(alloc),
    }
}

pub fn blank_lambda_parameter() -> LambdaParameter
    ensures { result ≡ spec.blank_lambda_parameter }
{
    LambdaParameter {
        name: blank_ident(),
        written: None,
    }
}

pub fn blank_when_branch() -> WhenBranch
    ensures { result ≡ spec.blank_when_branch }
{
    WhenBranch {
        conditions: None,
        begins: nowhere(),
        body: Branch::Single(Stmt::Expr(blank_expr())),
    }
}

pub fn blank_catch(alloc: Global) -> Catch
    ensures { result ≡ spec.blank_catch }
{
    Catch {
        name: blank_ident(),
        caught: blank_type(),
        body: blank_block(alloc),
    }
}

pub fn blank_parameter() -> Parameter
    ensures { result ≡ spec.blank_parameter }
{
    Parameter {
        span: nowhere(),
        name: blank_ident(),
        kind: ParameterType::Value(blank_type()),
    }
}

pub fn blank_effect() -> Effect
    ensures { result ≡ spec.blank_effect }
{
    Effect {
        span: nowhere(),
        kind: EffectKind::CallsInPlace {
            parameter: blank_ident(),
            kind: None,
        },
    }
}

pub fn blank_class_parameter(alloc: Global) -> ClassParameter
    ensures { result ≡ spec.blank_class_parameter }
{
    ClassParameter {
        span: nowhere(),
        modifiers: Items::new(alloc),
        is_var: None,
        name: blank_ident(),
        written: blank_type(),
    }
}

pub fn blank_supertype() -> Supertype
    ensures { result ≡ spec.blank_supertype }
{
    Supertype {
        span: nowhere(),
        name: blank_ident(),
        arguments: None,
    }
}
