//! MODIFIER: words that a declaration may not have.
ghost use Rattle.std.specs.Prelude.{◌≡◌, ◌++◌, OnOk};
ghost use Rattle.std.specs.List.{list_any};
ghost use Rattle.kt_model.specs.MemberRules as spec;

use kt_decl::{is_modifier, push_where};
use kt_model::finding::{Finding, Rule};
use kt_model::modified::Modified;
use kt_tree::NoMemory;
use kt_tree::ast::{ClassKeyword, Modifier, ModifierKind};

fn for_class(kind: ModifierKind) -> bool
    ensures { result ≡ spec.for_class kind }
{
    match kind {
        ModifierKind::Public
        | ModifierKind::Private
        | ModifierKind::Open
        | ModifierKind::Abstract
        | ModifierKind::Final => true,
        _ => false,
    }
}

fn for_interface(kind: ModifierKind) -> bool
    ensures { result ≡ spec.for_interface kind }
{
    match kind {
        ModifierKind::Public | ModifierKind::Private => true,
        _ => false,
    }
}

fn for_function(kind: ModifierKind) -> bool
    ensures { result ≡ spec.for_function kind }
{
    match kind {
        ModifierKind::Public | ModifierKind::Private | ModifierKind::Inline => true,
        _ => false,
    }
}

fn for_property(kind: ModifierKind) -> bool
    ensures { result ≡ spec.for_property kind }
{
    match kind {
        ModifierKind::Public
        | ModifierKind::Private
        | ModifierKind::Open
        | ModifierKind::Final
        | ModifierKind::Override => true,
        _ => false,
    }
}

fn for_member(kind: ModifierKind) -> bool
    ensures { result ≡ spec.for_member kind }
{
    match kind {
        ModifierKind::Abstract => true,
        _ => for_property(kind),
    }
}

fn allows(form: Modified, kind: ModifierKind) -> bool
    ensures { result ≡ spec.allows form kind }
{
    match form {
        Modified::Class => for_class(kind),
        Modified::Interface => for_interface(kind),
        Modified::Function => for_function(kind),
        Modified::Member => for_member(kind),
        Modified::Property => for_property(kind),
        Modified::Parameter => false,
    }
}

fn is_in_class(form: Modified) -> bool
    ensures { result ≡ spec.is_in_class form }
{
    match form {
        Modified::Member | Modified::Property => true,
        _ => false,
    }
}

fn excludes(in_class: bool, a: ModifierKind, b: ModifierKind) -> bool
    ensures { result ≡ spec.excludes in_class a b }
{
    match (a, b) {
        (ModifierKind::Public, ModifierKind::Private) => true,
        (ModifierKind::Abstract, ModifierKind::Final) => true,
        (ModifierKind::Open, ModifierKind::Final) => true,
        (ModifierKind::Private, ModifierKind::Abstract) => in_class,
        (ModifierKind::Private, ModifierKind::Open) => in_class,
        _ => false,
    }
}

fn clashes(in_class: bool, a: ModifierKind, b: ModifierKind) -> bool
    ensures { result ≡ spec.clashes in_class a b }
{
    excludes(in_class, a, b) || excludes(in_class, b, a)
}

fn is_repeated(modifiers: &[Modifier], m: Modifier) -> bool
    ensures { result ≡ spec.is_repeated modifiers.now m }
{
    modifiers.iter().any(|e| is_modifier(e.kind, m.kind) && e.span.start < m.span.start)
}

fn has_clash(form: Modified, modifiers: &[Modifier], kind: ModifierKind) -> bool
    ensures { result ≡ list_any (λ e. spec.clashes (spec.is_in_class form) e.kind kind) modifiers.now }
{
    modifiers
        .iter()
        .any(|e| clashes(is_in_class(form), e.kind, kind))
}

fn is_misplaced(form: Modified, modifiers: &[Modifier], m: Modifier) -> bool
    ensures { result ≡ spec.is_misplaced form modifiers.now m }
{
    !allows(form, m.kind) || is_repeated(modifiers, m) || has_clash(form, modifiers, m.kind)
}

/// Puts in the modifiers that a declaration may not have there.
#[tactic(auto, unfolding(kt_model::specs::MemberRules::modifiers))]
pub(crate) fn at_modifiers(
    form: Modified,
    modifiers: &[Modifier],
    out: &mut Vec<Finding>,
) -> Result<(), NoMemory>
    ensures { OnOk result (out.new.items ≡ out.old.items ++ spec.modifiers form modifiers.now) }
{
    for m in modifiers {
        let misplaced = is_misplaced(form, modifiers, *m);
        push_where(out, misplaced, Rule::Modifier, m.span)?;
    }
    Ok(())
}

pub(crate) fn class_form(keyword: ClassKeyword) -> Modified
    ensures { result ≡ spec.class_form keyword }
{
    match keyword {
        ClassKeyword::Class => Modified::Class,
        ClassKeyword::Interface => Modified::Interface,
    }
}

pub(crate) fn parameter_form(is_var: Option<bool>) -> Modified
    ensures { result ≡ spec.parameter_form is_var }
{
    match is_var {
        None => Modified::Parameter,
        Some(_) => Modified::Property,
    }
}
