//! CONFLICT and ABSTRACT_MEMBER: what a class inherits.
ghost use Rattle.std.specs.Prelude.{◌≡◌, ◌<◌, ◌++◌, ◌&&◌, IfOk, OnOk, length, map};
ghost use Rattle.std.specs.List.{list_any};
ghost use Rattle.kt_model.specs.Classes.{outlines};
ghost use Rattle.kt_model.specs.DeclarationRules.{class_kind};
ghost use Rattle.kt_model.specs.Members.{settled_of};
ghost use Rattle.kt_model.specs.Settled.{IsSettled};
ghost use Rattle.kt_model.specs.MemberRules as spec;

use crate::bodies::is_concrete;
use kt_decl::{candidates, declares, fitting, implementation, kind_of_class, push_where};
use kt_model::class_table::{ClassRow, ClassTable, Member, Settled};
use kt_model::finding::{Finding, Rule};
use kt_tree::NoMemory;
use kt_tree::ast::ClassDecl;
use std::alloc::Global;

fn has_several(members: &[Member]) -> bool
    ensures { result ≡ spec.has_several members.now }
{
    match members {
        [] => false,
        [_] => false,
        _ => true,
    }
}

/// Whether the members that a class inherits under a name do not fit.
fn conflicts(alloc: Global, t: &ClassTable, c: u32, name: u32) -> Result<bool, NoMemory>
    requires { c < length t.now }
    ensures { IfOk result (λ b. b ≡ spec.conflicts (outlines t.now) c name) }
{
    if declares(t, c, name) {
        return Ok(false);
    }
    let members = candidates(alloc, t, c, name)?;
    Ok(has_several(&members) && fitting(t, &members).is_none())
}

fn has_conflict(alloc: Global, t: &ClassTable, c: u32, names: &[u32]) -> Result<bool, NoMemory>
    requires { c < length t.now }
    ensures { IfOk result (λ b. b ≡ list_any (spec.conflicts (outlines t.now) c) names.now) }
{
    for name in names {
        let found = conflicts(alloc, t, c, *name)?;
        if found {
            return Ok(true);
        }
    }
    Ok(false)
}

/// Whether a class has nothing under a name that is not abstract, and no conflict.
fn lacks(alloc: Global, t: &ClassTable, c: u32, name: u32) -> Result<bool, NoMemory>
    requires { c < length t.now }
    ensures { IfOk result (λ b. b ≡ spec.lacks (outlines t.now) c name) }
{
    if implementation(t, c, name).is_some() {
        return Ok(false);
    }
    Ok(!conflicts(alloc, t, c, name)?)
}

fn lacks_any(alloc: Global, t: &ClassTable, c: u32, names: &[u32]) -> Result<bool, NoMemory>
    requires { c < length t.now }
    ensures { IfOk result (λ b. b ≡ list_any (spec.lacks (outlines t.now) c) names.now) }
{
    for name in names {
        let found = lacks(alloc, t, c, *name)?;
        if found {
            return Ok(true);
        }
    }
    Ok(false)
}

fn names_of(alloc: Global, settled: &[Settled]) -> Result<Vec<u32>, NoMemory>
    ensures { IfOk result (λ names. names.items ≡ map (λ s. s.name) settled.now) }
{
    let mut names = Vec::new(alloc);
    for s in settled {
        names.push(s.name)?;
    }
    Ok(names)
}

fn settled_in(rows: &[ClassRow], c: u32) -> &[Settled]
    requires settled { IsSettled rows.now }
    requires known { c < length rows.now }
    ensures { result.now ≡ settled_of (outlines rows.now) c }
{
    rows[c as usize].settled.as_slice()
}

/// What a class has under each name.
fn settled_at(t: &ClassTable, c: u32) -> &[Settled]
    requires { c < length t.now }
    ensures { result.now ≡ settled_of (outlines t.now) c }
{
    t.is_settled();
    settled_in(t.rows(), c)
}

/// The names of a class's members.
#[tactic(auto, using(crate::proofs::Names::settled_names))]
fn member_names(alloc: Global, t: &ClassTable, c: u32) -> Result<Vec<u32>, NoMemory>
    requires { c < length t.now }
    ensures { IfOk result (λ names. names.items ≡ spec.member_names (outlines t.now) c) }
{
    let names = names_of(alloc, settled_at(t, c))?;
    Ok(names)
}

fn lacks_implementation(
    alloc: Global,
    t: &ClassTable,
    n: u32,
    names: &[u32],
    c: &ClassDecl,
) -> Result<bool, NoMemory>
    requires { n < length t.now }
    ensures { IfOk result (λ b. b ≡ (spec.is_concrete (class_kind c.now) && list_any (spec.lacks (outlines t.now) n) names.now)) }
{
    if !is_concrete(kind_of_class(c)) {
        return Ok(false);
    }
    lacks_any(alloc, t, n, names)
}

/// Puts in a class that inherits members that do not fit, or has one without an implementation.
pub(crate) fn at_inherited(
    alloc: Global,
    t: &ClassTable,
    n: u32,
    c: &ClassDecl,
    out: &mut Vec<Finding>,
) -> Result<(), NoMemory>
    requires { n < length t.now }
    ensures { OnOk result (out.new.items ≡ out.old.items ++ spec.conflict (outlines t.now) n c.now ++ spec.abstract_member (outlines t.now) n c.now) }
{
    let names = member_names(alloc, t, n)?;
    let conflict = has_conflict(alloc, t, n, &names)?;
    push_where(out, conflict, Rule::Conflict, c.name.span)?;
    let lacks = lacks_implementation(alloc, t, n, &names, c)?;
    push_where(out, lacks, Rule::AbstractMember, c.name.span)
}
