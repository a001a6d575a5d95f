//! The bodies of a file's declarations.
ghost use Rattle.std.specs.Prelude.{◌≡◌, ◌++◌, [], OnOk, IfOk, unwrap_or};
ghost use Rattle.std.specs.List.{flat_map};
ghost use Rattle.kt_model.specs.TreeSites.{expr_sites};
ghost use Rattle.kt_model.specs.Sites as spec;

use crate::walk::{in_block, in_expr};
use kt_model::body_site::BodySite;
use kt_tree::NoMemory;
use kt_tree::ast::{
    ClassDecl, Contract, Effect, EffectKind, Expr, File, FunctionBody, FunctionDecl, Getter,
    Member, Supertype,
};
use std::alloc::Global;

/// The sites found so far.
type Sites = Vec<BodySite>;

fn in_effect(kind: &EffectKind, out: &mut Sites) -> Result<(), NoMemory>
    ensures { OnOk result (out.new.items ≡ out.old.items ++ spec.effect_sites kind.now) }
{
    match kind {
        EffectKind::Returns { condition, .. } => in_expr(condition, out),
        EffectKind::CallsInPlace { .. } => Ok(()),
    }
}

fn in_effects(effects: &[Effect], out: &mut Sites) -> Result<(), NoMemory>
    ensures { OnOk result (out.new.items ≡ out.old.items ++ flat_map (λ e. spec.effect_sites e.kind) effects.now) }
{
    for e in effects {
        in_effect(&e.kind, out)?;
    }
    Ok(())
}

fn in_contract(contract: &Option<Contract>, out: &mut Sites) -> Result<(), NoMemory>
    ensures { OnOk result (out.new.items ≡ out.old.items ++ spec.contract_sites contract.now) }
{
    match contract {
        Some(c) => in_effects(c.effects.as_slice(), out),
        None => Ok(()),
    }
}

fn in_body(body: &FunctionBody, out: &mut Sites) -> Result<(), NoMemory>
    ensures { OnOk result (out.new.items ≡ out.old.items ++ spec.sites_in_body body.now) }
{
    match body {
        FunctionBody::Expr(e) => in_expr(e, out),
        FunctionBody::Block { contract, block } => {
            in_contract(contract, out)?;
            in_block(block, out)
        }
    }
}

fn in_function(body: &Option<FunctionBody>, out: &mut Sites) -> Result<(), NoMemory>
    ensures { OnOk result (out.new.items ≡ out.old.items ++ spec.sites_in_function body.now) }
{
    match body {
        Some(body) => in_body(body, out),
        None => Ok(()),
    }
}

fn in_initialiser(value: &Option<Expr>, out: &mut Sites) -> Result<(), NoMemory>
    ensures { OnOk result (out.new.items ≡ out.old.items ++ spec.sites_in_value value.now) }
{
    match value {
        Some(e) => in_expr(e, out),
        None => Ok(()),
    }
}

fn in_getter(getter: &Option<Getter>, out: &mut Sites) -> Result<(), NoMemory>
    ensures { OnOk result (out.new.items ≡ out.old.items ++ spec.sites_in_getter getter.now) }
{
    match getter {
        Some(g) => in_body(&g.body, out),
        None => Ok(()),
    }
}

fn in_member(member: &Member, out: &mut Sites) -> Result<(), NoMemory>
    ensures { OnOk result (out.new.items ≡ out.old.items ++ spec.sites_in_member member.now) }
{
    match member {
        Member::Init(block) => in_block(block, out),
        Member::Function(f) => in_function(&f.body, out),
        Member::Property(p) => {
            in_initialiser(&p.value, out)?;
            in_getter(&p.getter, out)
        }
    }
}

fn in_members(members: &[Member], out: &mut Sites) -> Result<(), NoMemory>
    ensures { OnOk result (out.new.items ≡ out.old.items ++ flat_map spec.sites_in_member members.now) }
{
    for m in members {
        in_member(m, out)?;
    }
    Ok(())
}

fn in_arguments(arguments: &[Expr], out: &mut Sites) -> Result<(), NoMemory>
    ensures { OnOk result (out.new.items ≡ out.old.items ++ flat_map expr_sites arguments.now) }
{
    for e in arguments {
        in_expr(e, out)?;
    }
    Ok(())
}

fn in_super(s: &Supertype, out: &mut Sites) -> Result<(), NoMemory>
    ensures { OnOk result (out.new.items ≡ out.old.items ++ spec.sites_in_super s.now) }
{
    match &s.arguments {
        Some(arguments) => in_arguments(arguments.as_slice(), out),
        None => Ok(()),
    }
}

fn in_supers(supers: &[Supertype], out: &mut Sites) -> Result<(), NoMemory>
    ensures { OnOk result (out.new.items ≡ out.old.items ++ flat_map spec.sites_in_super supers.now) }
{
    for s in supers {
        in_super(s, out)?;
    }
    Ok(())
}

/// What stands in a class's braces; nothing where it has none.
fn declared_in(c: &ClassDecl) -> &[Member]
    ensures { result.now ≡ spec.declared_in c.now }
{
    match &c.members {
        Some(members) => members.as_slice(),
        None => &[],
    }
}

#[tactic(auto, unfolding(kt_model::specs::Sites::sites_in_class))]
fn in_class(c: &ClassDecl, out: &mut Sites) -> Result<(), NoMemory>
    ensures { OnOk result (out.new.items ≡ out.old.items ++ spec.sites_in_class c.now) }
{
    in_supers(c.supertypes.as_slice(), out)?;
    in_members(declared_in(c), out)
}

fn in_classes(classes: &[ClassDecl], out: &mut Sites) -> Result<(), NoMemory>
    ensures { OnOk result (out.new.items ≡ out.old.items ++ flat_map spec.sites_in_class classes.now) }
{
    for c in classes {
        in_class(c, out)?;
    }
    Ok(())
}

fn in_functions(functions: &[FunctionDecl], out: &mut Sites) -> Result<(), NoMemory>
    ensures { OnOk result (out.new.items ≡ out.old.items ++ flat_map (λ f. spec.sites_in_function f.body) functions.now) }
{
    for f in functions {
        in_function(&f.body, out)?;
    }
    Ok(())
}

/// The sites inside the bodies of a file, in order: those of its classes, then those of its functions. `NoMemory` where none is left for them.
#[tactic(auto, unfolding(kt_model::specs::Sites::body_sites))]
pub fn body_sites(alloc: Global, file: &File) -> Result<Vec<BodySite>, NoMemory>
    ensures { IfOk result (λ sites. sites.items ≡ spec.body_sites file.now) }
{
    let mut out = Vec::new(alloc);
    in_classes(file.classes.as_slice(), &mut out)?;
    in_functions(file.functions.as_slice(), &mut out)?;
    Ok(out)
}
