//! What is violated in the shapes of a file's trees.
ghost use Rattle.std.specs.Prelude.{◌≡◌, IfOk, IfErr};
ghost use Rattle.kt_model.specs.declared.finding.Finding.{Finding};
ghost use Rattle.kt_model.specs.Findings.{AreFindings, IsFault};
ghost use Rattle.kt_shape.specs.ShapeRules.{shape_findings, IsShapeViolated};

use crate::declarations::{in_classes, in_functions};
use kt_model::finding::{Finding, Findings, PhaseFault, in_order};
use kt_tree::NoMemory;
use kt_tree::ast::File;
use std::alloc::Global;

/// All that is violated, in the order of the walk: in the classes, then in the functions.
#[tactic(auto, unfolding(crate::specs::ShapeRules::shape_findings))]
fn all_findings(alloc: Global, file: &File) -> Result<Vec<Finding>, NoMemory>
    ensures { IfOk result (λ found. found.items ≡ shape_findings file.now) }
{
    let mut out = Vec::new(alloc);
    in_classes(file.classes.as_slice(), &mut out)?;
    in_functions(file.functions.as_slice(), &mut out)?;
    Ok(out)
}

/// The same in the order of findings, none twice.
fn found_in_order(alloc: Global, file: &File) -> Result<Findings, NoMemory>
    ensures { IfOk result (AreFindings (IsShapeViolated file.now)) }
{
    let found = all_findings(alloc, file)?;
    Ok(in_order(found))
}

/// Nothing, where no rule on the shapes of trees is violated. Each left side is a name or a member behind `.` (Kotlin specification, "Assignments"; an index
/// is not in the profile). Each `if` and `when` whose value is taken has an `else` ("Conditional expressions", "When expressions"), and no branch of it that
/// stands without braces is an assignment or a loop. Else the fault has exactly what is violated, each at the span of its left side, its `if` or `when`, or its
/// branch's statement, sorted by start, end and code, none twice; or there is no memory for it.
pub fn shapes(alloc: Global, file: &File) -> Result<(), PhaseFault>
    ensures accepted { IfOk result (λ _. (f : Finding) → IsShapeViolated file.now f → ⊥) }
    ensures fault { IfErr result (IsFault (IsShapeViolated file.now)) }
{
    let found = found_in_order(alloc, file)?;
    if found.is_empty() {
        return Ok(());
    }
    Err(PhaseFault::Findings(found))
}
