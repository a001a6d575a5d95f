//! Written supertypes: the classes that they name, and those that do not fit.
ghost use Rattle.std.specs.Prelude.{◌≡◌, ◌<◌, ◌+◌, ◌^◌, ◌++◌, ◌∷◌, [], ℕ, IfOk, OnOk, map, length, is_some, slice_get, take};
ghost use Rattle.std.specs.List.{filter_map, cons_option, list_any};
ghost use Rattle.kt_model.specs.TopNames.{built_in_classes, top_names, class_named};
ghost use Rattle.kt_model.specs.Findings.{Adds};
ghost use Rattle.kt_model.specs.DeclarationRules.{where_, same_modifier, has_modifier, kind_by, class_kind, kinds_of, is_interface_kind, is_final_kind, is_interface_word, names_class, names_no_interface, misfits, misfits_named, misfits_behind, supertype_misfits, supers_named, built_in_above, built_in_supers, classes_of, IsOfClass};
ghost use Rattle.kt_decl.specs.Marks.{MarksCycles, class_findings};

use crate::sites::push_where;
use kt_model::class_table::{ClassKind, Numbers};
use kt_model::finding::{Finding, Rule};
use kt_model::top_names::TopNames;
use kt_tree::NoMemory;
use kt_tree::ast::{ClassDecl, ClassKeyword, File, Modifier, ModifierKind, Supertype};
use sqlite_items::Items;
use std::alloc::Global;

/// Whether two modifiers are one word.
pub fn is_modifier(a: ModifierKind, b: ModifierKind) -> bool
    ensures { result ≡ same_modifier a b }
{
    match (a, b) {
        (ModifierKind::Public, ModifierKind::Public) => true,
        (ModifierKind::Private, ModifierKind::Private) => true,
        (ModifierKind::Open, ModifierKind::Open) => true,
        (ModifierKind::Abstract, ModifierKind::Abstract) => true,
        (ModifierKind::Final, ModifierKind::Final) => true,
        (ModifierKind::Override, ModifierKind::Override) => true,
        (ModifierKind::Inline, ModifierKind::Inline) => true,
        _ => false,
    }
}

/// Whether a declaration has the modifier.
pub fn is_among(modifiers: &[Modifier], kind: ModifierKind) -> bool
    ensures { result ≡ has_modifier modifiers.now kind }
{
    modifiers.iter().any(|m| is_modifier(m.kind, kind))
}

/// Whether a class is final, open, abstract or an interface, as it is written.
pub fn kind_of_class(c: &ClassDecl) -> ClassKind
    ensures { result ≡ class_kind c.now }
{
    let modifiers = c.modifiers.as_slice();
    match c.keyword {
        ClassKeyword::Interface => ClassKind::Interface,
        ClassKeyword::Class if is_among(modifiers, ModifierKind::Abstract) => ClassKind::Abstract,
        ClassKeyword::Class if is_among(modifiers, ModifierKind::Open) => ClassKind::Open,
        ClassKeyword::Class => ClassKind::Final,
    }
}

pub(crate) const BUILT_IN_KINDS: [ClassKind; 13] = [
    ClassKind::Open,
    ClassKind::Final,
    ClassKind::Final,
    ClassKind::Final,
    ClassKind::Final,
    ClassKind::Open,
    ClassKind::Open,
    ClassKind::Open,
    ClassKind::Open,
    ClassKind::Open,
    ClassKind::Open,
    ClassKind::Open,
    ClassKind::Open,
];

/// For each class its kind.
pub(crate) fn class_kinds(alloc: Global, file: &File) -> Result<Vec<ClassKind>, NoMemory>
    ensures { IfOk result (λ kinds. kinds.items ≡ kinds_of file.now) }
{
    let mut kinds = Vec::from_array(alloc, BUILT_IN_KINDS)?;
    for c in file.classes.as_slice() {
        kinds.push(kind_of_class(c))?;
    }
    Ok(kinds)
}

fn push_class(out: &mut Numbers, class: Option<u32>) -> Result<(), NoMemory>
    ensures { OnOk result (out.new ≡ out.old ++ cons_option class []) }
{
    if let Some(class) = class {
        out.push(class)?;
    }
    Ok(())
}

/// The classes that the supertypes name, in order.
pub(crate) fn named_supers(
    alloc: Global,
    tops: &TopNames,
    supertypes: &[Supertype],
) -> Result<Numbers, NoMemory>
    ensures { IfOk result (λ supers. supers ≡ supers_named tops.now supertypes.now) }
{
    let mut supers = Items::new(alloc);
    for s in supertypes {
        push_class(&mut supers, tops.class_named(s.name.name))?;
    }
    Ok(supers)
}

pub(crate) const BUILT_IN_ABOVE: [Option<u32>; 13] = [
    None,
    None,
    None,
    None,
    None,
    None,
    Some(5),
    Some(6),
    Some(7),
    Some(7),
    Some(7),
    Some(7),
    Some(7),
];

/// A list of this class, where there is one.
pub(crate) fn only(alloc: Global, class: Option<u32>) -> Result<Numbers, NoMemory>
    ensures { IfOk result (λ supers. supers ≡ cons_option class []) }
{
    let mut supers = Items::new(alloc);
    push_class(&mut supers, class)?;
    Ok(supers)
}

fn supers_built_in(alloc: Global) -> Result<Vec<Numbers>, NoMemory>
    ensures { IfOk result (λ supers. supers.items ≡ built_in_supers) }
{
    let mut supers = Vec::new(alloc);
    for above in &BUILT_IN_ABOVE {
        supers.push(only(alloc, *above)?)?;
    }
    Ok(supers)
}

/// For each class its written supertypes.
pub(crate) fn all_supers(
    alloc: Global,
    tops: &TopNames,
    file: &File,
) -> Result<Vec<Numbers>, NoMemory>
    ensures { IfOk result (λ supers. supers.items ≡ built_in_supers ++ map (λ c. supers_named tops.now c.supertypes) file.now.classes) }
{
    let mut supers = supers_built_in(alloc)?;
    for c in file.classes.as_slice() {
        supers.push(named_supers(alloc, tops, c.supertypes.as_slice())?)?;
    }
    Ok(supers)
}

fn is_interface(kinds: &[ClassKind], class: u32) -> bool
    ensures { result ≡ is_interface_kind (slice_get kinds.now class) }
{
    match kinds.get(class as usize) {
        Some(ClassKind::Interface) => true,
        _ => false,
    }
}

fn is_final(kinds: &[ClassKind], class: u32) -> bool
    ensures { result ≡ is_final_kind (slice_get kinds.now class) }
{
    match kinds.get(class as usize) {
        Some(ClassKind::Final) => true,
        _ => false,
    }
}

fn is_class_named(class: u32, named: Option<u32>) -> bool
    ensures { result ≡ names_class class named }
{
    match named {
        Some(other) => other == class,
        None => false,
    }
}

fn is_no_interface(kinds: &[ClassKind], named: Option<u32>) -> bool
    ensures { result ≡ names_no_interface kinds.now named }
{
    match named {
        Some(class) => !is_interface(kinds, class),
        None => false,
    }
}

fn is_named_before(before: &[Option<u32>], class: u32) -> bool
    ensures { result ≡ list_any (names_class class) before.now }
{
    before.iter().any(|named| is_class_named(class, *named))
}

fn has_class_before(kinds: &[ClassKind], before: &[Option<u32>]) -> bool
    ensures { result ≡ list_any (names_no_interface kinds.now) before.now }
{
    before.iter().any(|named| is_no_interface(kinds, *named))
}

/// Whether the word is `interface`.
pub fn is_interface_keyword(keyword: ClassKeyword) -> bool
    ensures { result ≡ is_interface_word keyword }
{
    match keyword {
        ClassKeyword::Interface => true,
        ClassKeyword::Class => false,
    }
}

/// Whether a class does not fit as a supertype behind those before it.
fn is_misfit(
    kinds: &[ClassKind],
    under: ClassKeyword,
    before: &[Option<u32>],
    has_arguments: bool,
    named: Option<u32>,
) -> bool
    ensures { result ≡ misfits_named kinds.now under before.now has_arguments named }
{
    let Some(class) = named else {
        return false;
    };
    if is_named_before(before, class) {
        return true;
    }
    if is_interface(kinds, class) {
        return has_arguments;
    }
    is_final(kinds, class)
        || !has_arguments
        || is_interface_keyword(under)
        || has_class_before(kinds, before)
}

/// Puts in the supertypes of a class that do not fit.
#[tactic(auto, unfolding(kt_model::specs::DeclarationRules::supertype_misfits))]
fn at_supertypes(
    alloc: Global,
    tops: &TopNames,
    kinds: &[ClassKind],
    c: &ClassDecl,
    out: &mut Vec<Finding>,
) -> Result<(), NoMemory>
    ensures { OnOk result (out.new.items ≡ out.old.items ++ supertype_misfits tops.now kinds.now c.now) }
{
    let mut before = Vec::new(alloc);
    for s in c.supertypes.as_slice() {
        let named = tops.class_named(s.name.name);
        let misfit = is_misfit(kinds, c.keyword, &before, s.arguments.is_some(), named);
        push_where(out, misfit, Rule::Supertype, s.name.span)?;
        before.push(named)?;
    }
    Ok(())
}

/// Puts in what is violated at a class: that it is above itself, else the supertypes that do not fit.
fn at_class_hierarchy(
    alloc: Global,
    tops: &TopNames,
    kinds: &[ClassKind],
    is_on_cycle: bool,
    c: &ClassDecl,
    out: &mut Vec<Finding>,
) -> Result<(), NoMemory>
    ensures { OnOk result (out.new.items ≡ out.old.items ++ class_findings tops.now kinds.now is_on_cycle c.now) }
{
    if is_on_cycle {
        return push_where(out, true, Rule::SupertypeCycle, c.name.span);
    }
    at_supertypes(alloc, tops, kinds, c, out)
}

/// Puts in what is violated at the classes of a file.
pub(crate) fn add_class_findings(
    alloc: Global,
    tops: &TopNames,
    kinds: &[ClassKind],
    cycles: &[bool],
    file: &File,
    out: &mut Vec<Finding>,
) -> Result<(), NoMemory>
    requires tops { tops.now ≡ top_names file.now }
    requires kinds { kinds.now ≡ kinds_of file.now }
    requires marked { MarksCycles (classes_of file.now) cycles.now }
    requires long { length cycles.now ≡ built_in_classes + length file.now.classes }
    ensures { OnOk result (Adds (IsOfClass file.now) out.old.items out.new.items) }
{
    let mut number = 13;
    for c in file.classes.as_slice() {
        at_class_hierarchy(alloc, tops, kinds, cycles[number], c, out)?;
        number += 1;
    }
    Ok(())
}
