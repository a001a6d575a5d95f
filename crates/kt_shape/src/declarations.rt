//! The declarations of a file, with the bodies and the values in them.
ghost use Rattle.std.specs.Prelude.{◌≡◌, ◌++◌, OnOk};
ghost use Rattle.std.specs.List.{flat_map};
ghost use Rattle.kt_model.specs.Sites as sites;
ghost use Rattle.kt_shape.specs.ShapeRules as spec;

use crate::walk::{in_block, in_expr};
use kt_model::finding::Finding;
use kt_tree::NoMemory;
use kt_tree::ast::{
    ClassDecl, Contract, Effect, EffectKind, Expr, FunctionBody, FunctionDecl, Getter, Member,
    Supertype,
};
use sqlite_items::Items;

/// What has been found so far.
type Found = Vec<Finding>;

fn in_effect(kind: &EffectKind, out: &mut Found) -> Result<(), NoMemory>
    ensures { OnOk result (out.new.items ≡ out.old.items ++ spec.in_effect_kind kind.now) }
{
    match kind {
        EffectKind::Returns { condition, .. } => in_expr(condition, true, out),
        EffectKind::CallsInPlace { .. } => Ok(()),
    }
}

fn in_effects(effects: &[Effect], out: &mut Found) -> Result<(), NoMemory>
    ensures { OnOk result (out.new.items ≡ out.old.items ++ flat_map spec.in_effect effects.now) }
{
    for e in effects {
        in_effect(&e.kind, out)?;
    }
    Ok(())
}

fn in_contract(contract: &Option<Contract>, out: &mut Found) -> Result<(), NoMemory>
    ensures { OnOk result (out.new.items ≡ out.old.items ++ spec.in_contract contract.now) }
{
    match contract {
        Some(c) => in_effects(c.effects.as_slice(), out),
        None => Ok(()),
    }
}

fn in_written_body(body: &FunctionBody, out: &mut Found) -> Result<(), NoMemory>
    ensures { OnOk result (out.new.items ≡ out.old.items ++ spec.in_body (Some body.now)) }
{
    match body {
        FunctionBody::Expr(e) => in_expr(e, true, out),
        FunctionBody::Block { contract, block } => {
            in_contract(contract, out)?;
            in_block(block, false, out)
        }
    }
}

fn in_body(body: &Option<FunctionBody>, out: &mut Found) -> Result<(), NoMemory>
    ensures { OnOk result (out.new.items ≡ out.old.items ++ spec.in_body body.now) }
{
    match body {
        Some(body) => in_written_body(body, out),
        None => Ok(()),
    }
}

fn in_value(value: &Option<Expr>, out: &mut Found) -> Result<(), NoMemory>
    ensures { OnOk result (out.new.items ≡ out.old.items ++ spec.in_value value.now) }
{
    match value {
        Some(e) => in_expr(e, true, out),
        None => Ok(()),
    }
}

fn in_getter(getter: &Option<Getter>, out: &mut Found) -> Result<(), NoMemory>
    ensures { OnOk result (out.new.items ≡ out.old.items ++ spec.in_getter getter.now) }
{
    match getter {
        Some(g) => in_written_body(&g.body, out),
        None => Ok(()),
    }
}

fn in_member(member: &Member, out: &mut Found) -> Result<(), NoMemory>
    ensures { OnOk result (out.new.items ≡ out.old.items ++ spec.in_member member.now) }
{
    match member {
        Member::Init(block) => in_block(block, false, out),
        Member::Function(f) => in_body(&f.body, out),
        Member::Property(p) => {
            in_value(&p.value, out)?;
            in_getter(&p.getter, out)
        }
    }
}

fn in_members(members: &[Member], out: &mut Found) -> Result<(), NoMemory>
    ensures { OnOk result (out.new.items ≡ out.old.items ++ flat_map spec.in_member members.now) }
{
    for m in members {
        in_member(m, out)?;
    }
    Ok(())
}

fn in_values(values: &[Expr], out: &mut Found) -> Result<(), NoMemory>
    ensures { OnOk result (out.new.items ≡ out.old.items ++ flat_map spec.in_part values.now) }
{
    for e in values {
        in_expr(e, true, out)?;
    }
    Ok(())
}

fn in_arguments(arguments: &Option<Items<Expr>>, out: &mut Found) -> Result<(), NoMemory>
    ensures { OnOk result (out.new.items ≡ out.old.items ++ spec.in_values arguments.now) }
{
    match arguments {
        Some(values) => in_values(values.as_slice(), out),
        None => Ok(()),
    }
}

fn in_supertypes(supertypes: &[Supertype], out: &mut Found) -> Result<(), NoMemory>
    ensures { OnOk result (out.new.items ≡ out.old.items ++ flat_map (λ s. spec.in_values s.arguments) supertypes.now) }
{
    for s in supertypes {
        in_arguments(&s.arguments, out)?;
    }
    Ok(())
}

/// What stands in a class's braces; nothing where it has none.
fn declared_in(c: &ClassDecl) -> &[Member]
    ensures { result.now ≡ sites.declared_in c.now }
{
    match &c.members {
        Some(members) => members.as_slice(),
        None => &[],
    }
}

#[tactic(auto, unfolding(crate::specs::ShapeRules::in_class))]
fn in_class(c: &ClassDecl, out: &mut Found) -> Result<(), NoMemory>
    ensures { OnOk result (out.new.items ≡ out.old.items ++ spec.in_class c.now) }
{
    in_supertypes(c.supertypes.as_slice(), out)?;
    in_members(declared_in(c), out)
}

/// Puts in what is violated in classes, one behind another.
pub(crate) fn in_classes(classes: &[ClassDecl], out: &mut Found) -> Result<(), NoMemory>
    ensures { OnOk result (out.new.items ≡ out.old.items ++ flat_map spec.in_class classes.now) }
{
    for c in classes {
        in_class(c, out)?;
    }
    Ok(())
}

#[tactic(auto, unfolding(crate::specs::ShapeRules::in_function))]
fn in_function(f: &FunctionDecl, out: &mut Found) -> Result<(), NoMemory>
    ensures { OnOk result (out.new.items ≡ out.old.items ++ spec.in_function f.now) }
{
    in_body(&f.body, out)
}

/// Puts in what is violated in functions, one behind another.
pub(crate) fn in_functions(functions: &[FunctionDecl], out: &mut Found) -> Result<(), NoMemory>
    ensures { OnOk result (out.new.items ≡ out.old.items ++ flat_map spec.in_function functions.now) }
{
    for f in functions {
        in_function(f, out)?;
    }
    Ok(())
}
