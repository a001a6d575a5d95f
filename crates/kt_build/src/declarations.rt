//! What declarations and their parts are.
ghost use Rattle.std.specs.Prelude.{◌≡◌, [], IfOk};
ghost use Rattle.kt_tree.specs.Trees as trees;

use kt_parts::Queue;
use kt_parts::operators::{is_var, maybe_var, returned_literal};
use kt_parts::places::span_at;
use kt_tree::ast::{
    Block, ClassDecl, ClassKeyword, ClassParameter, Contract, Effect, EffectKind, FunctionDecl,
    Getter, Parameter, PropertyDecl, Returned, Supertype, TypeRef,
};
use kt_tree::grammar::Built;
use kt_tree::{Span, Tokens};
use std::alloc::{AllocError, Global};

#[tactic(auto, unfolding(kt_tree::specs::Trees::written_type))]
pub fn written_type(tokens: &Tokens, span: Span, parts: &mut Queue<Built>) -> Built
    ensures { result ≡ trees.written_type tokens.now span parts.old }
{
    let x = parts.ident(tokens);
    let q = parts.maybe_token();
    Built::Type(TypeRef {
        name: x,
        nullable: q.is_some(),
        span,
    })
}

#[tactic(auto, unfolding(kt_tree::specs::Trees::function))]
pub fn function(
    alloc: Global,
    tokens: &Tokens,
    span: Span,
    parts: &mut Queue<Built>,
) -> Result<Built, AllocError>
    ensures { IfOk result (λ made. made ≡ trees.function tokens.now span parts.old) }
{
    let ms = parts.modifiers(alloc, tokens)?;
    let _fun = parts.token();
    let x = parts.ident(tokens);
    let xs = parts.parameters(alloc)?;
    let ty = parts.maybe_type();
    let y = parts.maybe_body();
    Ok(Built::Function(FunctionDecl {
        span,
        modifiers: ms,
        name: x,
        parameters: xs,
        result: ty,
        body: y,
    }))
}

#[tactic(auto, unfolding(kt_tree::specs::Trees::function_block))]
pub fn function_block(
    alloc: Global,
    span: Span,
    parts: &mut Queue<Built>,
) -> Result<Built, AllocError>
    ensures { IfOk result (λ made. made ≡ trees.function_block span parts.old) }
{
    let _open = parts.token();
    let x = parts.maybe_contract();
    let ss = parts.stmts(alloc)?;
    Ok(Built::FunctionBlock(
        x,
        Block {
            span,
            statements: ss,
        },
    ))
}

#[tactic(auto, unfolding(kt_tree::specs::Trees::parameter_form))]
pub fn parameter_form(tokens: &Tokens, span: Span, parts: &mut Queue<Built>) -> Built
    ensures { result ≡ trees.parameter_form tokens.now span parts.old }
{
    let x = parts.ident(tokens);
    let ty = parts.parameter_type();
    Built::Parameter(Parameter {
        span,
        name: x,
        kind: ty,
    })
}

#[tactic(auto, unfolding(kt_tree::specs::Trees::function_type))]
pub fn function_type(alloc: Global, parts: &mut Queue<Built>) -> Result<Built, AllocError>
    ensures { IfOk result (λ made. made ≡ trees.function_type parts.old) }
{
    let xs = parts.types(alloc)?;
    let ty = parts.written();
    Ok(Built::FunctionType(xs, ty))
}

#[tactic(auto, unfolding(kt_tree::specs::Trees::contract))]
pub fn contract(
    alloc: Global,
    tokens: &Tokens,
    span: Span,
    parts: &mut Queue<Built>,
) -> Result<Built, AllocError>
    ensures { IfOk result (λ made. made ≡ trees.contract tokens.now span parts.old) }
{
    let t = parts.token();
    let xs = parts.effects(alloc)?;
    Ok(Built::Contract(Contract {
        span,
        word: span_at(tokens, t),
        effects: xs,
    }))
}

#[tactic(auto, unfolding(kt_tree::specs::Trees::returns_effect))]
pub fn returns_effect(tokens: &Tokens, span: Span, parts: &mut Queue<Built>) -> Built
    ensures { result ≡ trees.returns_effect tokens.now span parts.old }
{
    let _returns = parts.token();
    let t = parts.maybe_token();
    let x = parts.expr();
    Built::Effect(Effect {
        span,
        kind: EffectKind::Returns {
            returned: returned_literal(tokens, t),
            condition: x,
        },
    })
}

#[tactic(auto, unfolding(kt_tree::specs::Trees::returns_not_null))]
pub fn returns_not_null(span: Span, parts: &mut Queue<Built>) -> Built
    ensures { result ≡ trees.returns_not_null span parts.old }
{
    let _returns = parts.token();
    let x = parts.expr();
    Built::Effect(Effect {
        span,
        kind: EffectKind::Returns {
            returned: Returned::NotNull,
            condition: x,
        },
    })
}

#[tactic(auto, unfolding(kt_tree::specs::Trees::calls_in_place))]
pub fn calls_in_place(tokens: &Tokens, span: Span, parts: &mut Queue<Built>) -> Built
    ensures { result ≡ trees.calls_in_place tokens.now span parts.old }
{
    let _calls = parts.token();
    let x = parts.ident(tokens);
    let y = parts.maybe_ident(tokens);
    Built::Effect(Effect {
        span,
        kind: EffectKind::CallsInPlace {
            parameter: x,
            kind: y,
        },
    })
}

#[tactic(auto, unfolding(kt_tree::specs::Trees::class_decl))]
pub fn class_decl(
    alloc: Global,
    tokens: &Tokens,
    span: Span,
    parts: &mut Queue<Built>,
) -> Result<Built, AllocError>
    ensures { IfOk result (λ made. made ≡ trees.class_decl tokens.now span parts.old) }
{
    let ms = parts.modifiers(alloc, tokens)?;
    let _class = parts.token();
    let x = parts.ident(tokens);
    let xs = parts.maybe_class_parameters(alloc)?;
    let ys = parts.supertypes(alloc)?;
    let zs = parts.maybe_members(alloc)?;
    Ok(Built::Class(ClassDecl {
        span,
        modifiers: ms,
        keyword: ClassKeyword::Class,
        name: x,
        parameters: xs,
        supertypes: ys,
        members: zs,
    }))
}

#[tactic(auto, unfolding(kt_tree::specs::Trees::interface_decl))]
pub fn interface_decl(
    alloc: Global,
    tokens: &Tokens,
    span: Span,
    parts: &mut Queue<Built>,
) -> Result<Built, AllocError>
    ensures { IfOk result (λ made. made ≡ trees.interface_decl tokens.now span parts.old) }
{
    let ms = parts.modifiers(alloc, tokens)?;
    let _interface = parts.token();
    let x = parts.ident(tokens);
    let ys = parts.supertypes(alloc)?;
    let zs = parts.maybe_members(alloc)?;
    Ok(Built::Class(ClassDecl {
        span,
        modifiers: ms,
        keyword: ClassKeyword::Interface,
        name: x,
        parameters: None,
        supertypes: ys,
        members: zs,
    }))
}

#[tactic(auto, unfolding(kt_tree::specs::Trees::class_parameter_form))]
pub fn class_parameter_form(
    alloc: Global,
    tokens: &Tokens,
    span: Span,
    parts: &mut Queue<Built>,
) -> Result<Built, AllocError>
    ensures { IfOk result (λ made. made ≡ trees.class_parameter_form tokens.now span parts.old) }
{
    let ms = parts.modifiers(alloc, tokens)?;
    let t = parts.maybe_token();
    let x = parts.ident(tokens);
    let ty = parts.written();
    Ok(Built::ClassParameter(ClassParameter {
        span,
        modifiers: ms,
        is_var: maybe_var(tokens, t),
        name: x,
        written: ty,
    }))
}

#[tactic(auto, unfolding(kt_tree::specs::Trees::supertype_form))]
pub fn supertype_form(
    alloc: Global,
    tokens: &Tokens,
    span: Span,
    parts: &mut Queue<Built>,
) -> Result<Built, AllocError>
    ensures { IfOk result (λ made. made ≡ trees.supertype_form tokens.now span parts.old) }
{
    let x = parts.ident(tokens);
    let xs = parts.maybe_exprs(alloc)?;
    Ok(Built::Supertype(Supertype {
        span,
        name: x,
        arguments: xs,
    }))
}

#[tactic(auto, unfolding(kt_tree::specs::Trees::initialiser))]
pub fn initialiser(alloc: Global, parts: &mut Queue<Built>) -> Built
    ensures { result ≡ trees.initialiser parts.old }
{
    let _init = parts.token();
    let x = parts.block(alloc);
    Built::Init(x)
}

#[tactic(auto, unfolding(kt_tree::specs::Trees::property))]
pub fn property(
    alloc: Global,
    tokens: &Tokens,
    span: Span,
    parts: &mut Queue<Built>,
) -> Result<Built, AllocError>
    ensures { IfOk result (λ made. made ≡ trees.property tokens.now span parts.old) }
{
    let ms = parts.modifiers(alloc, tokens)?;
    let t = parts.token();
    let x = parts.ident(tokens);
    let ty = parts.maybe_type();
    let v = parts.maybe_expr();
    let y = parts.maybe_getter();
    Ok(Built::Property(PropertyDecl {
        span,
        modifiers: ms,
        is_var: is_var(tokens, t),
        name: x,
        written: ty,
        value: v,
        getter: y,
    }))
}

#[tactic(auto, unfolding(kt_tree::specs::Trees::getter))]
pub fn getter(span: Span, parts: &mut Queue<Built>) -> Built
    ensures { result ≡ trees.getter span parts.old }
{
    let _get = parts.token();
    let ty = parts.maybe_type();
    let y = parts.getter_body();
    Built::Getter(Getter {
        span,
        written: ty,
        body: y,
    })
}
