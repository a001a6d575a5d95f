//! The walk over a file's declarations, which tries the rules that need members.
ghost use Rattle.std.specs.Prelude.{◌≡◌, ◌<◌, ◌+◌, ◌++◌, ◌^◌, IfOk, IfErr, OnOk, length};
ghost use Rattle.std.specs.List.{flat_map};
ghost use Rattle.kt_model.specs.declared.finding.Finding.{Finding};
ghost use Rattle.kt_model.specs.Classes.{outlines};
ghost use Rattle.kt_model.specs.TopNames.{built_in_classes, top_names};
ghost use Rattle.kt_model.specs.Outlines.{outlines_of};
ghost use Rattle.kt_model.specs.Findings.{AreFindings, IsFault};
ghost use Rattle.kt_model.specs.MemberRules as spec;

use crate::bodies::{at_body, misfits_function};
use crate::inherited::at_inherited;
use crate::modifiers::{at_modifiers, class_form, parameter_form};
use crate::overriding::at_member_name;
use crate::written::{Around, at_locals, at_type, lacks_result};
use kt_bodies::body_sites;
use kt_decl::{class_body, constructor_parameters, push_where};
use kt_model::class_table::ClassTable;
use kt_model::finding::{Finding, Findings, PhaseFault, Rule, in_order};
use kt_model::modified::Modified;
use kt_model::top_names::TopNames;
use kt_tree::NoMemory;
use kt_tree::ast::{ClassDecl, ClassParameter, File, FunctionDecl, Member};
use std::alloc::Global;

fn at_property_name(
    alloc: Global,
    t: &ClassTable,
    n: u32,
    p: &ClassParameter,
    out: &mut Vec<Finding>,
) -> Result<(), NoMemory>
    requires { n < length t.now }
    ensures { OnOk result (out.new.items ≡ out.old.items ++ spec.property_name (outlines t.now) n p.now p.now.is_var) }
{
    match p.is_var {
        Some(_) => at_member_name(alloc, t, n, p.name, p.modifiers.as_slice(), out),
        None => Ok(()),
    }
}

#[tactic(auto, unfolding(kt_model::specs::MemberRules::parameter_rules))]
fn at_parameter(
    alloc: Global,
    t: &ClassTable,
    n: u32,
    p: &ClassParameter,
    out: &mut Vec<Finding>,
) -> Result<(), NoMemory>
    requires { n < length t.now }
    ensures { OnOk result (out.new.items ≡ out.old.items ++ spec.parameter_rules (outlines t.now) n p.now) }
{
    at_modifiers(parameter_form(p.is_var), p.modifiers.as_slice(), out)?;
    at_property_name(alloc, t, n, p, out)
}

fn at_parameters(
    alloc: Global,
    t: &ClassTable,
    n: u32,
    parameters: &[ClassParameter],
    out: &mut Vec<Finding>,
) -> Result<(), NoMemory>
    requires { n < length t.now }
    ensures { OnOk result (out.new.items ≡ out.old.items ++ flat_map (spec.parameter_rules (outlines t.now) n) parameters.now) }
{
    for p in parameters {
        at_parameter(alloc, t, n, p, out)?;
    }
    Ok(())
}

fn at_declared_name(
    alloc: Global,
    t: &ClassTable,
    n: u32,
    m: &Member,
    out: &mut Vec<Finding>,
) -> Result<(), NoMemory>
    requires { n < length t.now }
    ensures { OnOk result (out.new.items ≡ out.old.items ++ spec.declared_name (outlines t.now) n m.now) }
{
    match m {
        Member::Init(_) => Ok(()),
        Member::Function(f) => {
            at_modifiers(Modified::Member, f.modifiers.as_slice(), out)?;
            at_member_name(alloc, t, n, f.name, f.modifiers.as_slice(), out)
        }
        Member::Property(p) => {
            at_modifiers(Modified::Member, p.modifiers.as_slice(), out)?;
            at_member_name(alloc, t, n, p.name, p.modifiers.as_slice(), out)
        }
    }
}

/// A file, its top and its table.
#[derive(Clone, Copy)]
struct Tables<'a> {
    file: &'a File,
    tops: &'a TopNames,
    table: &'a ClassTable,
}

#[tactic(auto, unfolding(kt_model::specs::MemberRules::member_rules))]
fn at_member(
    alloc: Global,
    tables: &Tables,
    n: u32,
    c: &ClassDecl,
    m: &Member,
    out: &mut Vec<Finding>,
) -> Result<(), NoMemory>
    requires tops { tables.now.tops.now ≡ top_names tables.now.file.now }
    requires known { n < length tables.now.table.now }
    ensures { OnOk result (out.new.items ≡ out.old.items ++ spec.member_rules tables.now.file.now (outlines tables.now.table.now) n c.now m.now) }
{
    at_declared_name(alloc, tables.table, n, m, out)?;
    at_body(tables.tops, c, m, out)?;
    let around = Around {
        file: tables.file,
        tops: tables.tops,
        above: tables.table.above(n),
        parameters: constructor_parameters(c),
    };
    at_type(&around, m, out)
}

fn at_members(
    alloc: Global,
    tables: &Tables,
    n: u32,
    c: &ClassDecl,
    members: &[Member],
    out: &mut Vec<Finding>,
) -> Result<(), NoMemory>
    requires tops { tables.now.tops.now ≡ top_names tables.now.file.now }
    requires known { n < length tables.now.table.now }
    ensures { OnOk result (out.new.items ≡ out.old.items ++ flat_map (spec.member_rules tables.now.file.now (outlines tables.now.table.now) n c.now) members.now) }
{
    for m in members {
        at_member(alloc, tables, n, c, m, out)?;
    }
    Ok(())
}

#[tactic(auto, unfolding(kt_model::specs::MemberRules::class_rules))]
fn at_class(
    alloc: Global,
    tables: &Tables,
    n: u32,
    c: &ClassDecl,
    out: &mut Vec<Finding>,
) -> Result<(), NoMemory>
    requires tops { tables.now.tops.now ≡ top_names tables.now.file.now }
    requires known { n < length tables.now.table.now }
    ensures { OnOk result (out.new.items ≡ out.old.items ++ spec.class_rules tables.now.file.now (outlines tables.now.table.now) n c.now) }
{
    at_modifiers(class_form(c.keyword), c.modifiers.as_slice(), out)?;
    at_parameters(alloc, tables.table, n, constructor_parameters(c), out)?;
    at_members(alloc, tables, n, c, class_body(c), out)?;
    at_inherited(alloc, tables.table, n, c, out)
}

/// Tries the rules at each class of the file.
fn at_classes(
    alloc: Global,
    tables: &Tables,
    classes: &[ClassDecl],
    out: &mut Vec<Finding>,
) -> Result<(), NoMemory>
    requires tops { tables.now.tops.now ≡ top_names tables.now.file.now }
    requires long { length tables.now.table.now ≡ built_in_classes + length classes.now }
    requires few { length tables.now.table.now < 2 ^ 32 }
    ensures { OnOk result (out.new.items ≡ out.old.items ++ spec.rules_from tables.now.file.now (outlines tables.now.table.now) built_in_classes classes.now) }
{
    let mut number = 13;
    for c in classes {
        at_class(alloc, tables, number, c, out)?;
        number += 1;
    }
    Ok(())
}

#[tactic(auto, unfolding(kt_model::specs::MemberRules::function_rules))]
fn at_function(f: &FunctionDecl, out: &mut Vec<Finding>) -> Result<(), NoMemory>
    ensures { OnOk result (out.new.items ≡ out.old.items ++ spec.function_rules f.now) }
{
    at_modifiers(Modified::Function, f.modifiers.as_slice(), out)?;
    push_where(out, misfits_function(false, f), Rule::Body, f.name.span)?;
    push_where(out, lacks_result(f), Rule::NoType, f.name.span)
}

fn at_functions(functions: &[FunctionDecl], out: &mut Vec<Finding>) -> Result<(), NoMemory>
    ensures { OnOk result (out.new.items ≡ out.old.items ++ flat_map spec.function_rules functions.now) }
{
    for f in functions {
        at_function(f, out)?;
    }
    Ok(())
}

/// All that is violated, in the order of the walk.
#[tactic(auto, unfolding(kt_model::specs::MemberRules::misdeclared))]
fn all_findings(alloc: Global, tables: &Tables) -> Result<Vec<Finding>, NoMemory>
    requires tops { tables.now.tops.now ≡ top_names tables.now.file.now }
    requires table { outlines tables.now.table.now ≡ outlines_of tables.now.file.now }
    requires long { length tables.now.table.now ≡ built_in_classes + length tables.now.file.now.classes }
    requires few { length tables.now.table.now < 2 ^ 32 }
    ensures { IfOk result (λ found. found.items ≡ spec.misdeclared tables.now.file.now) }
{
    let mut out = Vec::new(alloc);
    at_classes(alloc, tables, tables.file.classes.as_slice(), &mut out)?;
    at_functions(tables.file.functions.as_slice(), &mut out)?;
    let sites = body_sites(alloc, tables.file)?;
    at_locals(&sites, &mut out)?;
    Ok(out)
}

#[tactic(auto, using(crate::proofs::Names::as_many))]
fn member_findings(alloc: Global, file: &File, t: &ClassTable) -> Result<Findings, NoMemory>
    requires { outlines t.now ≡ outlines_of file.now }
    ensures { IfOk result (AreFindings (spec.IsMisdeclared file.now)) }
{
    let tops = TopNames::of_file(alloc, file)?;
    tops.is_few();
    let tables = Tables {
        file,
        tops: &tops,
        table: t,
    };
    let found = all_findings(alloc, &tables)?;
    Ok(in_order(found))
}

/// Nothing, where no rule on declarations is violated that needs members: modifiers, bodies, types that must be written, reserved names, overriding,
/// members that a class inherits more than once, abstract members. Else the fault has exactly what is violated, in order; or there is no memory for it.
/// The table is that of the file. The rules on parameters of function type and on contracts are none of these.
pub fn members(alloc: Global, file: &File, t: &ClassTable) -> Result<(), PhaseFault>
    requires { outlines t.now ≡ outlines_of file.now }
    ensures accepted { IfOk result (λ _. (f : Finding) → spec.IsMisdeclared file.now f → ⊥) }
    ensures fault { IfErr result (IsFault (spec.IsMisdeclared file.now)) }
{
    let found = member_findings(alloc, file, t)?;
    if found.is_empty() {
        return Ok(());
    }
    Err(PhaseFault::Findings(found))
}
