//! The walk over a file's declarations, which tries at each site the rules that need no members.
ghost use Rattle.std.specs.Prelude.{◌≡◌, ◌++◌, ◌∷◌, [], IfOk, OnOk, map};
ghost use Rattle.std.specs.List.{flat_map, list_any};
ghost use Rattle.kt_model.specs.Sites.{OfType, OfSuper, OfNames, OfFunctions, OfBody, written_sites, getter_sites, parameter_sites, function_sites, member_sites, class_sites, file_sites};
ghost use Rattle.kt_model.specs.DeclarationRules.{where_, has_earlier, is_unit, gives_unit, has_unit_result, has_none, is_main, declaration_rules};

use crate::words::{
    class_body, class_parameter_words, constructor_parameters, parameter_words, words_of_members,
    words_of_top,
};
use kt_bodies::body_sites;
use kt_model::body_site::BodySite;
use kt_model::finding::{Finding, Rule};
use kt_model::kinds::Head;
use kt_model::top_names::TopNames;
use kt_tree::ast::{
    ClassDecl, ClassParameter, File, FunctionBody, FunctionDecl, Getter, Ident, Member, Parameter,
    ParameterType, PropertyDecl, Supertype, TypeRef,
};
use kt_tree::{NoMemory, Span};
use std::alloc::Global;

/// Puts in the finding of a rule at a span, where its condition holds. `NoMemory` where none is left for it.
pub fn push_where(
    out: &mut Vec<Finding>,
    condition: bool,
    rule: Rule,
    span: Span,
) -> Result<(), NoMemory>
    ensures { OnOk result (out.new.items ≡ out.old.items ++ where_ condition rule span) }
{
    if condition {
        out.push(Finding { rule, span })?;
    }
    Ok(())
}

#[tactic(auto, unfolding(kt_model::specs::DeclarationRules::declaration_rules))]
fn at_type(tops: &TopNames, w: &TypeRef, out: &mut Vec<Finding>) -> Result<(), NoMemory>
    ensures { OnOk result (out.new.items ≡ out.old.items ++ declaration_rules tops.now (OfType w.now)) }
{
    let known = tops.head_named(w.name.name).is_some();
    push_where(out, !known, Rule::UnknownType, w.name.span)
}

#[tactic(auto, unfolding(kt_model::specs::DeclarationRules::declaration_rules))]
fn at_super(tops: &TopNames, s: &Supertype, out: &mut Vec<Finding>) -> Result<(), NoMemory>
    ensures { OnOk result (out.new.items ≡ out.old.items ++ declaration_rules tops.now (OfSuper s.now)) }
{
    let known = tops.class_named(s.name.name).is_some();
    push_where(out, !known, Rule::UnknownType, s.name.span)
}

fn stands_earlier(words: &[Ident], w: Ident) -> bool
    ensures { result ≡ has_earlier words.now w }
{
    words
        .iter()
        .any(|e| e.name == w.name && e.span.start < w.span.start)
}

#[tactic(auto, unfolding(kt_model::specs::DeclarationRules::declaration_rules))]
fn at_names(tops: &TopNames, words: &[Ident], out: &mut Vec<Finding>) -> Result<(), NoMemory>
    ensures { OnOk result (out.new.items ≡ out.old.items ++ declaration_rules tops.now (OfNames words.now)) }
{
    for w in words {
        push_where(out, stands_earlier(words, *w), Rule::Duplicate, w.span)?;
    }
    Ok(())
}

fn at_optional(
    tops: &TopNames,
    written: &Option<TypeRef>,
    out: &mut Vec<Finding>,
) -> Result<(), NoMemory>
    ensures { OnOk result (out.new.items ≡ out.old.items ++ flat_map (declaration_rules tops.now) (written_sites written.now)) }
{
    match written {
        Some(w) => at_type(tops, w, out),
        None => Ok(()),
    }
}

fn at_types(tops: &TopNames, types: &[TypeRef], out: &mut Vec<Finding>) -> Result<(), NoMemory>
    ensures { OnOk result (out.new.items ≡ out.old.items ++ flat_map (declaration_rules tops.now) (map OfType types.now)) }
{
    for w in types {
        at_type(tops, w, out)?;
    }
    Ok(())
}

fn at_parameter(
    tops: &TopNames,
    parameter: &Parameter,
    out: &mut Vec<Finding>,
) -> Result<(), NoMemory>
    ensures { OnOk result (out.new.items ≡ out.old.items ++ flat_map (declaration_rules tops.now) (parameter_sites parameter.now)) }
{
    match &parameter.kind {
        ParameterType::Value(w) => at_type(tops, w, out),
        ParameterType::Function {
            parameters,
            result: result_type,
        } => {
            at_types(tops, parameters.as_slice(), out)?;
            at_type(tops, result_type, out)
        }
    }
}

fn at_parameters(
    tops: &TopNames,
    parameters: &[Parameter],
    out: &mut Vec<Finding>,
) -> Result<(), NoMemory>
    ensures { OnOk result (out.new.items ≡ out.old.items ++ flat_map (declaration_rules tops.now) (flat_map parameter_sites parameters.now)) }
{
    for p in parameters {
        at_parameter(tops, p, out)?;
    }
    Ok(())
}

#[tactic(auto, unfolding(kt_model::specs::Sites::function_sites))]
fn at_function(
    alloc: Global,
    tops: &TopNames,
    f: &FunctionDecl,
    out: &mut Vec<Finding>,
) -> Result<(), NoMemory>
    ensures { OnOk result (out.new.items ≡ out.old.items ++ flat_map (declaration_rules tops.now) (function_sites f.now)) }
{
    let words = parameter_words(alloc, f.parameters.as_slice())?;
    at_names(tops, &words, out)?;
    at_parameters(tops, f.parameters.as_slice(), out)?;
    at_optional(tops, &f.result, out)
}

fn at_getter(
    tops: &TopNames,
    getter: &Option<Getter>,
    out: &mut Vec<Finding>,
) -> Result<(), NoMemory>
    ensures { OnOk result (out.new.items ≡ out.old.items ++ flat_map (declaration_rules tops.now) (getter_sites getter.now)) }
{
    match getter {
        Some(g) => at_optional(tops, &g.written, out),
        None => Ok(()),
    }
}

fn at_property(tops: &TopNames, p: &PropertyDecl, out: &mut Vec<Finding>) -> Result<(), NoMemory>
    ensures { OnOk result (out.new.items ≡ out.old.items ++ flat_map (declaration_rules tops.now) (written_sites p.now.written ++ getter_sites p.now.getter)) }
{
    at_optional(tops, &p.written, out)?;
    at_getter(tops, &p.getter, out)
}

fn at_member(
    alloc: Global,
    tops: &TopNames,
    member: &Member,
    out: &mut Vec<Finding>,
) -> Result<(), NoMemory>
    ensures { OnOk result (out.new.items ≡ out.old.items ++ flat_map (declaration_rules tops.now) (member_sites member.now)) }
{
    match member {
        Member::Init(_) => Ok(()),
        Member::Function(f) => at_function(alloc, tops, f, out),
        Member::Property(p) => at_property(tops, p, out),
    }
}

fn at_members(
    alloc: Global,
    tops: &TopNames,
    members: &[Member],
    out: &mut Vec<Finding>,
) -> Result<(), NoMemory>
    ensures { OnOk result (out.new.items ≡ out.old.items ++ flat_map (declaration_rules tops.now) (flat_map member_sites members.now)) }
{
    for m in members {
        at_member(alloc, tops, m, out)?;
    }
    Ok(())
}

fn at_supers(tops: &TopNames, supers: &[Supertype], out: &mut Vec<Finding>) -> Result<(), NoMemory>
    ensures { OnOk result (out.new.items ≡ out.old.items ++ flat_map (declaration_rules tops.now) (map OfSuper supers.now)) }
{
    for s in supers {
        at_super(tops, s, out)?;
    }
    Ok(())
}

fn at_class_parameters(
    tops: &TopNames,
    parameters: &[ClassParameter],
    out: &mut Vec<Finding>,
) -> Result<(), NoMemory>
    ensures { OnOk result (out.new.items ≡ out.old.items ++ flat_map (declaration_rules tops.now) (map (λ p. OfType p.written) parameters.now)) }
{
    for p in parameters {
        at_type(tops, &p.written, out)?;
    }
    Ok(())
}

#[tactic(auto, unfolding(kt_model::specs::Sites::class_sites))]
fn at_class(
    alloc: Global,
    tops: &TopNames,
    c: &ClassDecl,
    out: &mut Vec<Finding>,
) -> Result<(), NoMemory>
    ensures { OnOk result (out.new.items ≡ out.old.items ++ flat_map (declaration_rules tops.now) (class_sites c.now)) }
{
    let parameters = constructor_parameters(c);
    let words = class_parameter_words(alloc, parameters)?;
    at_names(tops, &words, out)?;
    let words = words_of_members(alloc, c)?;
    at_names(tops, &words, out)?;
    at_class_parameters(tops, parameters, out)?;
    at_supers(tops, c.supertypes.as_slice(), out)?;
    at_members(alloc, tops, class_body(c), out)
}

fn at_classes(
    alloc: Global,
    tops: &TopNames,
    classes: &[ClassDecl],
    out: &mut Vec<Finding>,
) -> Result<(), NoMemory>
    ensures { OnOk result (out.new.items ≡ out.old.items ++ flat_map (declaration_rules tops.now) (flat_map class_sites classes.now)) }
{
    for c in classes {
        at_class(alloc, tops, c, out)?;
    }
    Ok(())
}

fn at_functions(
    alloc: Global,
    tops: &TopNames,
    functions: &[FunctionDecl],
    out: &mut Vec<Finding>,
) -> Result<(), NoMemory>
    ensures { OnOk result (out.new.items ≡ out.old.items ++ flat_map (declaration_rules tops.now) (flat_map function_sites functions.now)) }
{
    for f in functions {
        at_function(alloc, tops, f, out)?;
    }
    Ok(())
}

fn returns_unit(tops: &TopNames, f: &FunctionDecl) -> bool
    ensures { result ≡ has_unit_result tops.now f.now.result f.now.body }
{
    match &f.result {
        Some(w) => !w.nullable && is_unit_head(tops.head_named(w.name.name)),
        None => body_gives_unit(&f.body),
    }
}

fn is_unit_head(head: Option<Head>) -> bool
    ensures { result ≡ is_unit head }
{
    match head {
        Some(Head::Unit) => true,
        _ => false,
    }
}

/// Whether a function without a written result gives `Unit`: its body is no expression.
pub fn body_gives_unit(body: &Option<FunctionBody>) -> bool
    ensures { result ≡ gives_unit body.now }
{
    match body {
        Some(FunctionBody::Expr(_)) => false,
        Some(FunctionBody::Block { .. }) => true,
        None => true,
    }
}

fn has_no_parameters(parameters: &[Parameter]) -> bool
    ensures { result ≡ has_none parameters.now }
{
    match parameters {
        [] => true,
        [_, ..] => false,
    }
}

/// Whether a function is `main`: it has that name, no parameters, and the result `Unit`.
#[tactic(auto, unfolding(kt_model::specs::DeclarationRules::is_main))]
pub fn is_main_function(tops: &TopNames, f: &FunctionDecl) -> bool
    ensures { result ≡ is_main tops.now f.now }
{
    f.name.name == tops.main()
        && has_no_parameters(f.parameters.as_slice())
        && returns_unit(tops, f)
}

fn has_main(tops: &TopNames, functions: &[FunctionDecl]) -> bool
    ensures { result ≡ list_any (is_main tops.now) functions.now }
{
    for f in functions {
        if is_main_function(tops, f) {
            return true;
        }
    }
    false
}

#[tactic(auto, unfolding(kt_model::specs::DeclarationRules::declaration_rules))]
fn at_file_functions(
    tops: &TopNames,
    functions: &[FunctionDecl],
    out: &mut Vec<Finding>,
) -> Result<(), NoMemory>
    ensures { OnOk result (out.new.items ≡ out.old.items ++ declaration_rules tops.now (OfFunctions functions.now)) }
{
    let start = Span { start: 0, end: 0 };
    push_where(out, !has_main(tops, functions), Rule::NoMain, start)
}

#[tactic(auto, unfolding(kt_model::specs::DeclarationRules::declaration_rules))]
fn at_body_site(tops: &TopNames, site: &BodySite, out: &mut Vec<Finding>) -> Result<(), NoMemory>
    ensures { OnOk result (out.new.items ≡ out.old.items ++ declaration_rules tops.now (OfBody site.now)) }
{
    match site {
        BodySite::Written(w) => {
            let known = tops.head_named(w.name.name).is_some();
            push_where(out, !known, Rule::UnknownType, w.name.span)
        }
        BodySite::Untyped(_) => Ok(()),
    }
}

fn at_body_sites(
    tops: &TopNames,
    sites: &[BodySite],
    out: &mut Vec<Finding>,
) -> Result<(), NoMemory>
    ensures { OnOk result (out.new.items ≡ out.old.items ++ flat_map (declaration_rules tops.now) (map OfBody sites.now)) }
{
    for s in sites {
        at_body_site(tops, s, out)?;
    }
    Ok(())
}

/// Tries the rules on declarations at each site of the file.
#[tactic(auto, unfolding(kt_model::specs::Sites::file_sites))]
pub(crate) fn at_file(
    alloc: Global,
    tops: &TopNames,
    file: &File,
    out: &mut Vec<Finding>,
) -> Result<(), NoMemory>
    ensures { OnOk result (out.new.items ≡ out.old.items ++ flat_map (declaration_rules tops.now) (file_sites file.now)) }
{
    let words = words_of_top(alloc, file)?;
    at_names(tops, &words, out)?;
    at_file_functions(tops, file.functions.as_slice(), out)?;
    at_classes(alloc, tops, file.classes.as_slice(), out)?;
    at_functions(alloc, tops, file.functions.as_slice(), out)?;
    let sites = body_sites(alloc, file)?;
    at_body_sites(tops, &sites, out)
}
