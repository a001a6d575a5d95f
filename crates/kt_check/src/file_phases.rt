//! The phases of a file, one behind another.
ghost use Rattle.std.specs.Prelude.{◌≡◌, Some, IfOk, IfErr, position};
ghost use Rattle.kt_model.specs.declared.finding.Finding.{Finding};
ghost use Rattle.kt_model.specs.DeclarationRules as declarations;
ghost use Rattle.kt_model.specs.DeclarationRules.{is_main};
ghost use Rattle.kt_mean.specs.Programs.{main_of};
ghost use Rattle.kt_check.specs.Phases.{IsClear, Stops};
ghost use Rattle.kt_check.specs.Violations.{IsFileViolated};

use crate::bodies::bodies;
use kt_decl::{classes, is_main_function};
use kt_flow::sizes;
use kt_model::finding::PhaseFault;
use kt_model::top_names::TopNames;
use kt_model::uses::Uses;
use kt_rules::members;
use kt_scope::resolve;
use kt_shape::shapes;
use kt_tree::NoMemory;
use kt_tree::ast::{File, FunctionDecl};
use std::alloc::Global;

/// What the names of a file stand for, where no rule of any phase is violated. Else all that is violated in the first phase in which a rule is; or there is no
/// memory for it.
pub(crate) fn clear_file(alloc: Global, file: &File) -> Result<Uses, PhaseFault>
    ensures clear { IfOk result (IsClear file.now) }
    ensures stops { IfErr result (Stops file.now) }
{
    let table = classes(alloc, file)?;
    members(alloc, file, &table)?;
    let uses = resolve(alloc, file, &table)?;
    shapes(alloc, file)?;
    sizes(alloc, file, &table, &uses)?;
    bodies(alloc, file, &table, &uses)?;
    Ok(uses)
}

/// The first place of a `main` among functions.
fn place_of_main(tops: &TopNames, functions: &[FunctionDecl]) -> Option<usize>
    ensures { result ≡ position (is_main tops.now) functions.now }
{
    functions.iter().position(|f| is_main_function(tops, f))
}

/// The place of `main` among the functions of a file whose declarations violate no rule.
pub(crate) fn main_place(alloc: Global, file: &File) -> Result<u32, NoMemory>
    requires { (f : Finding) → declarations.IsViolated file.now f → ⊥ }
    ensures { IfOk result (λ place. main_of file.now ≡ Some place) }
{
    let tops = TopNames::of_file(alloc, file)?;
    match place_of_main(&tops, file.functions.as_slice()) {
        Some(place) => match u32::try_from(place) {
            Ok(place) => Ok(place),
            Err(_) => Err(NoMemory),
        },
        None => unreachable!(),
    }
}
