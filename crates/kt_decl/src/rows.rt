//! The rows of the class table, before what each class has is settled.
ghost use Rattle.std.specs.Prelude.{◌≡◌, ◌++◌, ◌+◌, ◌<◌, ◌^◌, ◌∷◌, [], IfOk, OnOk, map, length, slice_get, unwrap_or, vec_len, ℕ, Some, None, Option, is_some, true, false};
ghost use Rattle.std.specs.Option.{option_map};
ghost use Rattle.std.specs.List.{filter_map, cons_option};
ghost use Rattle.kt_model.specs.declared.class_table.ClassRow.{ClassRow};
ghost use Rattle.kt_model.specs.declared.class_table.ClassKind.TheVariants as kind;
ghost use Rattle.kt_model.specs.Classes.{outline, outlines, supers, supers_of};
ghost use Rattle.kt_model.specs.TopNames.{top_names, built_in_classes};
ghost use Rattle.kt_model.specs.Sites.{declared_in};
ghost use Rattle.kt_model.specs.DeclarationRules.{has_modifier, is_interface_word, classes_of, built_in_kinds, built_in_above};
ghost use Rattle.kt_model.specs.Outlines as spec;
ghost use Rattle.kt_decl.specs.Marks.{HasAboves};

use crate::outlines::{Around, parameter_types, plain, property_type, result_type, written_type};
use crate::supertypes::{
    BUILT_IN_ABOVE, BUILT_IN_KINDS, is_among, is_interface_keyword, kind_of_class, named_supers,
    only,
};
use crate::words::{class_body, constructor_parameters};
use kt_model::class_table::{ClassKind, ClassRow, MemberKind, MemberRow, Numbers};
use kt_model::kinds::{Head, KtType};
use kt_model::top_names::TopNames;
use kt_tree::NoMemory;
use kt_tree::ast::{
    ClassDecl, ClassParameter, File, FunctionDecl, Member, Modifier, ModifierKind, PropertyDecl,
};
use sqlite_items::Items;
use std::alloc::Global;

/// Whether a class below may override a member with these modifiers.
fn can_be_overridden(modifiers: &[Modifier], in_interface: bool) -> bool
    ensures { result ≡ spec.may_override modifiers.now in_interface }
{
    !is_among(modifiers, ModifierKind::Private)
        && (is_among(modifiers, ModifierKind::Open)
            || is_among(modifiers, ModifierKind::Abstract)
            || (is_among(modifiers, ModifierKind::Override)
                && !is_among(modifiers, ModifierKind::Final))
            || in_interface)
}

/// The member that a parameter of a constructor is, if it is one.
fn parameter_row(alloc: Global, tops: &TopNames, p: &ClassParameter) -> Option<MemberRow>
    ensures { result ≡ spec.parameter_row tops.now p.now }
{
    let modifiers = p.modifiers.as_slice();
    match p.is_var {
        Some(is_var) => Some(MemberRow {
            name: p.name.name,
            kind: MemberKind::Field,
            is_var,
            is_private: is_among(modifiers, ModifierKind::Private),
            may_override: can_be_overridden(modifiers, false),
            params: Items::new(alloc),
            result: Some(written_type(tops, &p.written)),
        }),
        None => None,
    }
}

fn function_kind(in_interface: bool, f: &FunctionDecl) -> MemberKind
    ensures { result ≡ spec.function_kind in_interface f.now }
{
    if is_among(f.modifiers.as_slice(), ModifierKind::Abstract)
        || (in_interface && !f.body.is_some())
    {
        MemberKind::AbstractFunction
    } else {
        MemberKind::Function
    }
}

fn property_kind(in_interface: bool, p: &PropertyDecl) -> MemberKind
    ensures { result ≡ spec.property_kind in_interface p.now }
{
    let has_getter = p.getter.is_some();
    if is_among(p.modifiers.as_slice(), ModifierKind::Abstract) || (in_interface && !has_getter) {
        return MemberKind::AbstractProperty;
    }
    if has_getter {
        return MemberKind::Getter;
    }
    MemberKind::Field
}

fn function_row(
    alloc: Global,
    tops: &TopNames,
    in_interface: bool,
    f: &FunctionDecl,
) -> Result<MemberRow, NoMemory>
    ensures { IfOk result (λ row. row ≡ spec.function_row tops.now in_interface f.now) }
{
    let modifiers = f.modifiers.as_slice();
    Ok(MemberRow {
        name: f.name.name,
        kind: function_kind(in_interface, f),
        is_var: false,
        is_private: is_among(modifiers, ModifierKind::Private),
        may_override: can_be_overridden(modifiers, in_interface),
        params: parameter_types(alloc, tops, f.parameters.as_slice())?,
        result: result_type(tops, f),
    })
}

fn declared_property_row(
    alloc: Global,
    around: &Around,
    in_interface: bool,
    p: &PropertyDecl,
) -> MemberRow
    requires tops { around.now.tops.now ≡ top_names around.now.file.now }
    requires results { around.now.results.now ≡ spec.results_of around.now.file.now }
    ensures { result ≡ spec.declared_property_row (record { file = around.now.file.now; above = around.now.above.now; parameters = around.now.parameters.now }) in_interface p.now }
{
    let modifiers = p.modifiers.as_slice();
    MemberRow {
        name: p.name.name,
        kind: property_kind(in_interface, p),
        is_var: p.is_var,
        is_private: is_among(modifiers, ModifierKind::Private),
        may_override: can_be_overridden(modifiers, in_interface),
        params: Items::new(alloc),
        result: property_type(around, p),
    }
}

fn member_row(
    alloc: Global,
    around: &Around,
    in_interface: bool,
    m: &Member,
) -> Result<Option<MemberRow>, NoMemory>
    requires tops { around.now.tops.now ≡ top_names around.now.file.now }
    requires results { around.now.results.now ≡ spec.results_of around.now.file.now }
    ensures { IfOk result (λ row. row ≡ spec.member_row (record { file = around.now.file.now; above = around.now.above.now; parameters = around.now.parameters.now }) in_interface m.now) }
{
    match m {
        Member::Init(_) => Ok(None),
        Member::Function(f) => Ok(Some(function_row(alloc, around.tops, in_interface, f)?)),
        Member::Property(p) => Ok(Some(declared_property_row(alloc, around, in_interface, p))),
    }
}

fn push_row(out: &mut Items<MemberRow>, row: Option<MemberRow>) -> Result<(), NoMemory>
    ensures { OnOk result (out.new ≡ out.old ++ cons_option row []) }
{
    if let Some(row) = row {
        out.push(row)?;
    }
    Ok(())
}

fn push_parameters(
    alloc: Global,
    tops: &TopNames,
    parameters: &[ClassParameter],
    out: &mut Items<MemberRow>,
) -> Result<(), NoMemory>
    ensures { OnOk result (out.new ≡ out.old ++ filter_map (spec.parameter_row tops.now) parameters.now) }
{
    for p in parameters {
        push_row(out, parameter_row(alloc, tops, p))?;
    }
    Ok(())
}

fn push_declared(
    alloc: Global,
    around: &Around,
    in_interface: bool,
    members: &[Member],
    out: &mut Items<MemberRow>,
) -> Result<(), NoMemory>
    requires tops { around.now.tops.now ≡ top_names around.now.file.now }
    requires results { around.now.results.now ≡ spec.results_of around.now.file.now }
    ensures { OnOk result (out.new ≡ out.old ++ filter_map (spec.member_row (record { file = around.now.file.now; above = around.now.above.now; parameters = around.now.parameters.now }) in_interface) members.now) }
{
    for m in members {
        push_row(out, member_row(alloc, around, in_interface, m)?)?;
    }
    Ok(())
}

/// A class's members: its constructor's properties, then the others in the order of the text.
#[tactic(auto, unfolding(kt_model::specs::Outlines::class_members))]
fn members_of_class(
    alloc: Global,
    file: &File,
    tops: &TopNames,
    results: &[Option<KtType>],
    above: &[u32],
    c: &ClassDecl,
) -> Result<Items<MemberRow>, NoMemory>
    requires tops { tops.now ≡ top_names file.now }
    requires results { results.now ≡ spec.results_of file.now }
    ensures { IfOk result (λ members. members ≡ spec.class_members file.now above.now c.now) }
{
    let parameters = constructor_parameters(c);
    let mut members = Items::new(alloc);
    push_parameters(alloc, tops, parameters, &mut members)?;
    let around = Around {
        file,
        tops,
        results,
        above,
        parameters,
    };
    push_declared(
        alloc,
        &around,
        is_interface_keyword(c.keyword),
        class_body(c),
        &mut members,
    )?;
    Ok(members)
}

/// The row of a class, with nothing settled. `NoMemory` too where its members are too many for their numbers.
pub(crate) fn class_row(
    alloc: Global,
    file: &File,
    tops: &TopNames,
    results: &[Option<KtType>],
    above: &[u32],
    c: &ClassDecl,
) -> Result<ClassRow, NoMemory>
    requires tops { tops.now ≡ top_names file.now }
    requires results { results.now ≡ spec.results_of file.now }
    ensures outline { IfOk result (λ row. outline row ≡ spec.class_outline file.now above.now c.now) }
    ensures above { IfOk result (λ row. row.above ≡ above.now) }
    ensures few { IfOk result (λ row. length row.members < 2 ^ 32) }
{
    let members = members_of_class(alloc, file, tops, results, above, c)?;
    if members.len() > u32::MAX as usize {
        return Err(NoMemory);
    }
    Ok(ClassRow {
        name: c.name.name,
        kind: kind_of_class(c),
        supers: named_supers(alloc, tops, c.supertypes.as_slice())?,
        above: Items::from_slice(alloc, above)?,
        members,
        settled: Items::new(alloc),
    })
}

fn built_in_member(alloc: Global, name: u32, kind: MemberKind, given: KtType) -> MemberRow
    ensures { result ≡ record { name = name; kind = kind; is_var = false; is_private = false; may_override = false; params = []; result = Some given } }
{
    MemberRow {
        name,
        kind,
        is_var: false,
        is_private: false,
        may_override: false,
        params: Items::new(alloc),
        result: Some(given),
    }
}

fn nullable(head: Head) -> KtType
    ensures { result ≡ record { head = head; nullable = true } }
{
    KtType {
        head,
        nullable: true,
    }
}

/// `length`, `toIntOrNull` and `message`.
fn built_in_members(alloc: Global, class: u32) -> Result<Items<MemberRow>, NoMemory>
    ensures { IfOk result (λ members. members ≡ spec.built_in_members class) }
{
    let mut members = Items::new(alloc);
    if class == 4 {
        members.push(built_in_member(alloc, 14, MemberKind::Field, plain(Head::Int)))?;
        members.push(built_in_member(alloc, 15, MemberKind::Function, nullable(Head::Int)))?;
        return Ok(members);
    }
    if class == 5 {
        members.push(built_in_member(alloc, 16, MemberKind::Field, nullable(Head::Str)))?;
    }
    Ok(members)
}

fn built_in_kind(class: u32) -> ClassKind
    ensures { result ≡ unwrap_or (slice_get built_in_kinds class) kind.Open }
{
    match BUILT_IN_KINDS.get(class as usize) {
        Some(kind) => *kind,
        None => ClassKind::Open,
    }
}

fn built_in_super(class: u32) -> Option<u32>
    ensures { result ≡ unwrap_or (slice_get built_in_above class) None }
{
    match BUILT_IN_ABOVE.get(class as usize) {
        Some(above) => *above,
        None => None,
    }
}

pub(crate) fn built_in_row(alloc: Global, class: u32, above: &[u32]) -> Result<ClassRow, NoMemory>
    ensures outline { IfOk result (λ row. outline row ≡ spec.built_in_outline class) }
    ensures above { IfOk result (λ row. row.above ≡ above.now) }
    ensures few { IfOk result (λ row. length row.members < 2 ^ 32) }
{
    let members = built_in_members(alloc, class)?;
    if members.len() > u32::MAX as usize {
        return Err(NoMemory);
    }
    Ok(ClassRow {
        name: class,
        kind: built_in_kind(class),
        supers: only(alloc, built_in_super(class))?,
        above: Items::from_slice(alloc, above)?,
        members,
        settled: Items::new(alloc),
    })
}
