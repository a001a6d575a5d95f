//! BODY: bodies that are missing, or stand where none may.
ghost use Rattle.std.specs.Prelude.{◌≡◌, ◌++◌, OnOk};
ghost use Rattle.kt_model.specs.MemberRules as spec;

use kt_decl::{is_among, is_interface_keyword, kind_of_class, push_where, same_type, written_type};
use kt_model::class_table::ClassKind;
use kt_model::finding::{Finding, Rule};
use kt_model::top_names::TopNames;
use kt_tree::NoMemory;
use kt_tree::ast::{
    ClassDecl, FunctionDecl, Getter, Member, Modifier, ModifierKind, PropertyDecl, TypeRef,
};

fn is_abstract_word(modifiers: &[Modifier]) -> bool
    ensures { result ≡ spec.is_abstract_word modifiers.now }
{
    is_among(modifiers, ModifierKind::Abstract)
}

/// Whether a class is neither abstract nor an interface.
pub(crate) fn is_concrete(kind: ClassKind) -> bool
    ensures { result ≡ spec.is_concrete kind }
{
    match kind {
        ClassKind::Final | ClassKind::Open => true,
        _ => false,
    }
}

/// Whether a function lacks a body, or has one that it may not have.
pub(crate) fn misfits_function(in_interface: bool, f: &FunctionDecl) -> bool
    ensures { result ≡ spec.misfits_function in_interface f.now }
{
    let is_abstract = is_abstract_word(f.modifiers.as_slice());
    (f.body.is_none() && !is_abstract && !in_interface) || (is_abstract && f.body.is_some())
}

fn differs(tops: &TopNames, a: &Option<TypeRef>, b: &Option<TypeRef>) -> bool
    ensures { result ≡ spec.differs tops.now a.now b.now }
{
    match (a, b) {
        (Some(a), Some(b)) => !same_type(&written_type(tops, a), &written_type(tops, b)),
        _ => false,
    }
}

fn getter_misfits(tops: &TopNames, p: &PropertyDecl, getter: &Option<Getter>) -> bool
    ensures { result ≡ spec.getter_misfits tops.now p.now getter.now }
{
    match getter {
        Some(g) => p.is_var || p.value.is_some() || differs(tops, &p.written, &g.written),
        None => false,
    }
}

fn misfits_property(tops: &TopNames, in_interface: bool, p: &PropertyDecl) -> bool
    ensures { result ≡ spec.misfits_property tops.now in_interface p.now }
{
    let is_abstract = is_abstract_word(p.modifiers.as_slice());
    (in_interface && p.value.is_some())
        || (is_abstract && (p.value.is_some() || p.getter.is_some()))
        || getter_misfits(tops, p, &p.getter)
}

fn is_stray(c: &ClassDecl, modifiers: &[Modifier]) -> bool
    ensures { result ≡ spec.is_stray c.now modifiers.now }
{
    is_abstract_word(modifiers) && is_concrete(kind_of_class(c))
}

/// Puts in a member whose body does not fit.
pub(crate) fn at_body(
    tops: &TopNames,
    c: &ClassDecl,
    member: &Member,
    out: &mut Vec<Finding>,
) -> Result<(), NoMemory>
    ensures { OnOk result (out.new.items ≡ out.old.items ++ spec.member_body tops.now c.now member.now) }
{
    let in_interface = is_interface_keyword(c.keyword);
    match member {
        Member::Init(_) => push_where(out, in_interface, Rule::Body, c.name.span),
        Member::Function(f) => {
            let misfits = misfits_function(in_interface, f) || is_stray(c, f.modifiers.as_slice());
            push_where(out, misfits, Rule::Body, f.name.span)
        }
        Member::Property(p) => {
            let misfits = misfits_property(tops, in_interface, p)
                || is_stray(c, p.modifiers.as_slice());
            push_where(out, misfits, Rule::Body, p.name.span)
        }
    }
}
