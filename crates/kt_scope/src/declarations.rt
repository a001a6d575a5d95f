//! The declarations of what has a name outside of functions, and those of each function's parameters.
ghost use Rattle.std.specs.Prelude.{◌≡◌, ◌++◌, ◌+◌, map, length, IfOk};
ghost use Rattle.std.specs.List.{range_with_len};
ghost use Rattle.kt_model.specs.BuiltIns.{built_in_functions};
ghost use Rattle.kt_model.specs.Outlines.{function_result};
ghost use Rattle.kt_model.specs.DeclarationRules.{gives_unit};
ghost use Rattle.kt_model.specs.Scopes.{built_in_declaration, first_function, function_declaration, function_declarations, is_nothing, declared_count, parameters_from};

use crate::events::{of_function, of_parameters};
use crate::resolver::type_of;
use kt_model::built_ins::{BuiltIn, check, error, print, println, require};
use kt_model::class_table::Numbers;
use kt_model::kinds::{Head, KtType};
use kt_model::name_events::NameEvent;
use kt_model::top_names::TopNames;
use kt_model::uses::{Declaration, DeclarationKind};
use kt_tree::ast::{FunctionBody, FunctionDecl};
use kt_tree::{NoMemory, Span};
use sqlite_items::Items;
use std::alloc::Global;

/// The declaration of a built-in function.
fn built_in(function: BuiltIn) -> Declaration
    ensures { result ≡ built_in_declaration function }
{
    let written = Some(function.result);
    Declaration {
        kind: DeclarationKind::BuiltIn,
        name: function.name,
        span: Span { start: 0, end: 0 },
        is_var: false,
        is_nothing: never_returns(written),
        written,
    }
}

/// The declarations of the built-in functions that are open.
fn built_ins(alloc: Global) -> Result<Vec<Declaration>, NoMemory>
    ensures { IfOk result (λ declared. declared.items ≡ map built_in_declaration built_in_functions) }
{
    let mut declared = Vec::new(alloc);
    declared.push(built_in(println()))?;
    declared.push(built_in(print()))?;
    declared.push(built_in(require()))?;
    declared.push(built_in(check()))?;
    declared.push(built_in(error()))?;
    Ok(declared)
}

/// Whether a function without a written result gives `Unit`.
fn has_unit(body: &Option<FunctionBody>) -> bool
    ensures { result ≡ gives_unit body.now }
{
    match body {
        Some(FunctionBody::Expr(_)) => false,
        _ => true,
    }
}

/// The type of a function's result, where it is written or `Unit`.
fn result_type(tops: &TopNames, f: &FunctionDecl) -> Option<KtType>
    ensures { result ≡ function_result tops.now f.now }
{
    match f.result {
        Some(w) => Some(type_of(tops, w)),
        None if has_unit(&f.body) => Some(KtType {
            head: Head::Unit,
            nullable: false,
        }),
        None => None,
    }
}

/// Whether a function with that result does not return.
fn never_returns(written: Option<KtType>) -> bool
    ensures { result ≡ is_nothing written }
{
    match written {
        Some(
            KtType {
                head: Head::Nothing,
                nullable,
            },
        ) => !nullable,
        _ => false,
    }
}

/// The declaration of a function by its place.
fn function(tops: &TopNames, place: u32, f: &FunctionDecl) -> Declaration
    ensures { result ≡ function_declaration tops.now place f.now }
{
    let written = result_type(tops, f);
    Declaration {
        kind: DeclarationKind::Function(place),
        name: f.name.name,
        span: f.name.span,
        is_var: false,
        is_nothing: never_returns(written),
        written,
    }
}

/// The declarations of the built-in functions and of those of a file. `NoMemory` also where their places would be too large.
pub(crate) fn top_declarations(
    alloc: Global,
    tops: &TopNames,
    functions: &[FunctionDecl],
) -> Result<Vec<Declaration>, NoMemory>
    ensures declared { IfOk result (λ declared. declared.items ≡ map built_in_declaration built_in_functions ++ function_declarations tops.now 0 functions.now) }
    ensures count { IfOk result (λ declared. length declared.items ≡ first_function + length functions.now) }
{
    let mut declared = built_ins(alloc)?;
    let mut place: u32 = 0;
    for f in functions {
        declared.push(function(tops, place, f))?;
        let Some(next) = place.checked_add(1) else {
            return Err(NoMemory);
        };
        place = next;
    }
    Ok(declared)
}

/// How many parameters and locals events declare.
fn count(events: &[NameEvent]) -> usize
    ensures { result ≡ declared_count events.now }
{
    let mut n = 0;
    for event in events {
        match event {
            NameEvent::Parameter { .. } | NameEvent::Local { .. } => n += 1,
            _ => {}
        }
    }
    n
}

/// So many numbers, from the first on. `NoMemory` also where they would be too large.
fn range(alloc: Global, first: usize, len: usize) -> Result<Numbers, NoMemory>
    ensures { IfOk result (λ numbers. numbers ≡ range_with_len first len) }
{
    let mut numbers = Items::new(alloc);
    for i in 0..len {
        match first.checked_add(i) {
            Some(number) if number < 4294967296 => numbers.push(number as u32)?,
            _ => return Err(NoMemory),
        }
    }
    Ok(numbers)
}

/// The declarations of each function's parameters, where the first variable has that number. `NoMemory` also where they would be too large.
pub(crate) fn parameters(
    alloc: Global,
    first: usize,
    functions: &[FunctionDecl],
) -> Result<Items<Numbers>, NoMemory>
    ensures { IfOk result (λ lists. lists ≡ parameters_from first functions.now) }
{
    let mut lists = Items::new(alloc);
    let mut next = first;
    for f in functions {
        let own = of_parameters(alloc, f.parameters.as_slice())?;
        let all = of_function(alloc, f)?;
        lists.push(range(alloc, next, count(&own))?)?;
        let Some(behind) = next.checked_add(count(&all)) else {
            return Err(NoMemory);
        };
        next = behind;
    }
    Ok(lists)
}
