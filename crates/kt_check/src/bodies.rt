//! What is violated in the bodies of a file.
ghost use Rattle.std.specs.Prelude.{◌≡◌, ℕ, ◌<◌, length, IfOk, IfErr, OnOk};
ghost use Rattle.kt_model.specs.declared.finding.Finding.{Finding};
ghost use Rattle.kt_model.specs.Bodies.{IsTooLarge, owner_parameters, owner_trees};
ghost use Rattle.kt_model.specs.Classes.{outlines};
ghost use Rattle.kt_model.specs.ControlFlow.{body_nodes};
ghost use Rattle.kt_model.specs.Findings.{AreFindings, IsFault};
ghost use Rattle.kt_paths.specs.FlowRules.{IsSizeViolated};
ghost use Rattle.kt_model.specs.Outlines.{outlines_of};
ghost use Rattle.kt_model.specs.declared.uses.Owner.TheVariants as owner;
ghost use Rattle.kt_check.specs.Phases.{AddsBody, AreBefore, IsViolatedBefore};
ghost use Rattle.kt_check.specs.Verdicts.{IsBodySettled};

use kt_flow::flow;
use kt_infer::type_body;
use kt_model::class_table::ClassTable;
use kt_model::finding::{Finding, Findings, PhaseFault, in_order};
use kt_model::uses::{Body, Owner, Uses};
use kt_tree::NoMemory;
use kt_tree::ast::File;
use std::alloc::Global;

/// Adds what is violated in the body of the function at this place.
fn at_body(
    alloc: Global,
    file: &File,
    table: &ClassTable,
    uses: &Uses,
    place: u32,
    found: &mut Vec<Finding>,
) -> Result<(), NoMemory>
    requires table { outlines table.now ≡ outlines_of file.now }
    requires sized { IsTooLarge (length (body_nodes (owner_parameters uses.now (owner.Function place)) (owner_trees file.now uses.now (owner.Function place)))) 0 (length table.now) → ⊥ }
    ensures { OnOk result (AddsBody file.now uses.now place found.old.items found.new.items) }
{
    let body = Body {
        file,
        table,
        uses,
        owner: Owner::Function(place),
    };
    let along_paths = flow(alloc, &body)?;
    let typed = type_body(alloc, &body, along_paths.left.as_slice())?;
    found.extend_from_slice(typed.findings.as_slice())?;
    found.extend_from_slice(along_paths.findings.as_slice())?;
    Ok(())
}

/// What is violated in all bodies, in order.
fn all_bodies(
    alloc: Global,
    file: &File,
    table: &ClassTable,
    uses: &Uses,
) -> Result<Findings, NoMemory>
    requires table { outlines table.now ≡ outlines_of file.now }
    requires sized { (f : Finding) → IsSizeViolated file.now uses.now (length table.now) f → ⊥ }
    ensures found { IfOk result (AreFindings (IsViolatedBefore file.now uses.now (length file.now.functions))) }
    ensures settled { IfOk result (λ _. (place : ℕ) → place < length file.now.functions → IsBodySettled file.now uses.now place) }
{
    let Ok(count) = u32::try_from(file.functions.len()) else {
        return Err(NoMemory);
    };
    let mut found = Vec::new(alloc);
    for place in 0..count {
        at_body(alloc, file, table, uses, place, &mut found)?;
    }
    Ok(in_order(found))
}

/// Nothing, where no body of the file violates a rule of typing or of paths. Else the fault has exactly what is violated, in order; or there is no
/// memory for it. No limit is passed by a body.
pub(crate) fn bodies(
    alloc: Global,
    file: &File,
    table: &ClassTable,
    uses: &Uses,
) -> Result<(), PhaseFault>
    requires table { outlines table.now ≡ outlines_of file.now }
    requires sized { (f : Finding) → IsSizeViolated file.now uses.now (length table.now) f → ⊥ }
    ensures accepted { IfOk result (λ _. (f : Finding) → IsViolatedBefore file.now uses.now (length file.now.functions) f → ⊥) }
    ensures settled { IfOk result (λ _. (place : ℕ) → place < length file.now.functions → IsBodySettled file.now uses.now place) }
    ensures fault { IfErr result (IsFault (IsViolatedBefore file.now uses.now (length file.now.functions))) }
{
    let found = all_bodies(alloc, file, table, uses)?;
    if found.is_empty() {
        return Ok(());
    }
    Err(PhaseFault::Findings(found))
}
