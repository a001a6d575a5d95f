//! What is written of a file's classes, as rows of the class table.
ghost use Rattle.std.specs.Prelude.{◌≡◌, ◌++◌, ◌+◌, [], IfOk, OnOk, map, length, slice_get, option_and_then, None, if◌then◌else◌};
ghost use Rattle.std.specs.Option.{option_map};
ghost use Rattle.std.specs.List.{filter_map, cons_option, list_any};
ghost use Rattle.kt_model.specs.Classes.{outline};
ghost use Rattle.kt_model.specs.TopNames.{top_names, built_in_classes};
ghost use Rattle.kt_model.specs.Sites.{declared_in};
ghost use Rattle.kt_model.specs.DeclarationRules.{is_interface_word};
ghost use Rattle.kt_model.specs.Subtypes.{head_of};
ghost use Rattle.kt_model.specs.Outlines as spec;

use crate::sites::body_gives_unit;
use crate::words::class_body;
use kt_model::class_table::ParamType;
use kt_model::kinds::{Head, KtType, Types};
use kt_model::top_names::TopNames;
use kt_tree::NoMemory;
use kt_tree::ast::{
    ClassParameter, Expr, ExprKind, File, FunctionDecl, Member, Parameter, ParameterType,
    PropertyDecl, TypeRef,
};
use sqlite_items::Items;
use std::alloc::Global;

/// The type that is written. A word that names no type stands for `Any`.
pub fn written_type(tops: &TopNames, w: &TypeRef) -> KtType
    ensures { result ≡ spec.written_type tops.now w.now }
{
    KtType {
        head: tops.head_named(w.name.name).unwrap_or(Head::Any),
        nullable: w.nullable,
    }
}

pub(crate) fn plain(head: Head) -> KtType
    ensures { result ≡ spec.plain head }
{
    KtType {
        head,
        nullable: false,
    }
}

fn written_types(alloc: Global, tops: &TopNames, types: &[TypeRef]) -> Result<Types, NoMemory>
    ensures { IfOk result (λ types'. types' ≡ map (spec.written_type tops.now) types.now) }
{
    let mut out = Items::new(alloc);
    for w in types {
        out.push(written_type(tops, w))?;
    }
    Ok(out)
}

fn parameter_type(
    alloc: Global,
    tops: &TopNames,
    kind: &ParameterType,
) -> Result<ParamType, NoMemory>
    ensures { IfOk result (λ type. type ≡ spec.parameter_type tops.now kind.now) }
{
    match kind {
        ParameterType::Value(w) => Ok(ParamType::Value(written_type(tops, w))),
        ParameterType::Function {
            parameters,
            result: given,
        } => Ok(ParamType::Lambda(
            written_types(alloc, tops, parameters.as_slice())?,
            written_type(tops, given),
        )),
    }
}

pub(crate) fn parameter_types(
    alloc: Global,
    tops: &TopNames,
    parameters: &[Parameter],
) -> Result<Items<ParamType>, NoMemory>
    ensures { IfOk result (λ types. types ≡ map (λ p. spec.parameter_type tops.now p.kind) parameters.now) }
{
    let mut out = Items::new(alloc);
    for p in parameters {
        out.push(parameter_type(alloc, tops, &p.kind)?)?;
    }
    Ok(out)
}

pub(crate) fn result_type(tops: &TopNames, f: &FunctionDecl) -> Option<KtType>
    ensures { result ≡ spec.function_result tops.now f.now }
{
    match &f.result {
        Some(w) => Some(written_type(tops, w)),
        None if body_gives_unit(&f.body) => Some(plain(Head::Unit)),
        None => None,
    }
}

/// For each function its result type.
pub(crate) fn result_types(
    alloc: Global,
    tops: &TopNames,
    functions: &[FunctionDecl],
) -> Result<Vec<Option<KtType>>, NoMemory>
    ensures { IfOk result (λ results. results.items ≡ map (spec.function_result tops.now) functions.now) }
{
    let mut out = Vec::new(alloc);
    for f in functions {
        out.push(result_type(tops, f))?;
    }
    Ok(out)
}

fn is_function_named(name: u32, m: &Member) -> bool
    ensures { result ≡ spec.is_function_of name m.now }
{
    match m {
        Member::Function(f) => f.name.name == name,
        Member::Property(_) => false,
        Member::Init(_) => false,
    }
}

fn has_function_named(members: &[Member], name: u32) -> bool
    ensures { result ≡ list_any (spec.is_function_of name) members.now }
{
    for m in members {
        if is_function_named(name, m) {
            return true;
        }
    }
    false
}

fn declares_function(file: &File, name: u32, class: u32) -> bool
    ensures { result ≡ spec.declares_function file.now name class }
{
    if class < 13 {
        return false;
    }
    match file.classes.as_slice().get(class as usize - 13) {
        Some(c) => has_function_named(class_body(c), name),
        None => false,
    }
}

/// Whether a class has a member function of that name, by the class and those above it.
#[tactic(auto, unfolding(kt_model::specs::Outlines::has_function))]
pub fn has_member_function(file: &File, above: &[u32], name: u32) -> bool
    ensures { result ≡ spec.has_function file.now above.now name }
{
    if name == 13 {
        return true;
    }
    for class in above {
        if declares_function(file, name, *class) {
            return true;
        }
    }
    false
}

/// The type of what a call of a class creates, or of what a function of the file gives.
fn called_type(tops: &TopNames, results: &[Option<KtType>], name: u32) -> Option<KtType>
    ensures { result ≡ spec.called_type tops.now results.now name }
{
    match tops.function_named(name) {
        Some(place) => result_at(results, place),
        None => created_type(tops.class_named(name)),
    }
}

fn result_at(results: &[Option<KtType>], place: usize) -> Option<KtType>
    ensures { result ≡ option_and_then (λ r. r) (slice_get results.now place) }
{
    match results.get(place) {
        Some(found) => *found,
        None => None,
    }
}

fn created_type(class: Option<u32>) -> Option<KtType>
    ensures { result ≡ option_map (λ c. spec.plain (head_of c)) class }
{
    match class {
        Some(class) => Some(plain(Head::of_class(class))),
        None => None,
    }
}

fn parameter_named(tops: &TopNames, parameters: &[ClassParameter], name: u32) -> Option<KtType>
    ensures { result ≡ spec.parameter_named tops.now parameters.now name }
{
    for p in parameters {
        if p.name.name == name {
            return Some(written_type(tops, &p.written));
        }
    }
    None
}

/// What a class's own members are read with: the file, its top, and the classes above the class.
#[derive(Clone, Copy)]
pub(crate) struct Around<'a> {
    pub file: &'a File,
    pub tops: &'a TopNames,
    pub results: &'a [Option<KtType>],
    pub above: &'a [u32],
    pub parameters: &'a [ClassParameter],
}

/// The type that is read off an initialiser.
fn read_off(around: &Around, value: &ExprKind) -> Option<KtType>
    requires tops { around.now.tops.now ≡ top_names around.now.file.now }
    requires results { around.now.results.now ≡ spec.results_of around.now.file.now }
    ensures { result ≡ spec.read_off (record { file = around.now.file.now; above = around.now.above.now; parameters = around.now.parameters.now }) value.now }
{
    match value {
        ExprKind::Int(_) => Some(plain(Head::Int)),
        ExprKind::Bool(_) => Some(plain(Head::Boolean)),
        ExprKind::Null => Some(KtType {
            head: Head::Nothing,
            nullable: true,
        }),
        ExprKind::Template(_) => Some(plain(Head::Str)),
        ExprKind::Call { callee, .. } => call_read_off(around, callee.name),
        ExprKind::Name(name) => parameter_named(around.tops, around.parameters, *name),
        _ => None,
    }
}

fn call_read_off(around: &Around, name: u32) -> Option<KtType>
    ensures { result ≡ (if spec.has_function around.now.file.now around.now.above.now name then None else spec.called_type around.now.tops.now around.now.results.now name) }
{
    if has_member_function(around.file, around.above, name) {
        return None;
    }
    called_type(around.tops, around.results, name)
}

/// The type of a property: the written one, else the one that is read off its initialiser.
pub(crate) fn property_type(around: &Around, p: &PropertyDecl) -> Option<KtType>
    requires tops { around.now.tops.now ≡ top_names around.now.file.now }
    requires results { around.now.results.now ≡ spec.results_of around.now.file.now }
    ensures { result ≡ spec.property_type (record { file = around.now.file.now; above = around.now.above.now; parameters = around.now.parameters.now }) p.now.written p.now.value }
{
    match &p.written {
        Some(w) => Some(written_type(around.tops, w)),
        None => value_type(around, &p.value),
    }
}

fn value_type(around: &Around, value: &Option<Expr>) -> Option<KtType>
    requires tops { around.now.tops.now ≡ top_names around.now.file.now }
    requires results { around.now.results.now ≡ spec.results_of around.now.file.now }
    ensures { result ≡ spec.value_type (record { file = around.now.file.now; above = around.now.above.now; parameters = around.now.parameters.now }) value.now }
{
    match value {
        Some(e) => read_off(around, &e.kind),
        None => None,
    }
}
