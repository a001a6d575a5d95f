//! The limits on the graphs of a file's bodies.
ghost use Rattle.std.specs.Prelude.{◌≡◌, ◌<◌, ◌↔◌, ◌++◌, [], length, count_by, IfOk, IfErr, IsTrue, OnOk};
ghost use Rattle.kt_model.specs.Bodies.{owner_parameters};
ghost use Rattle.kt_paths.specs.FlowRules.{most_locals, IsSizeViolated};
ghost use Rattle.kt_model.specs.Findings.{Adds, AreFindings, IsFault};
ghost use Rattle.kt_model.specs.declared.finding.Finding.{Finding};
ghost use Rattle.kt_flow.specs.Sizes.{finding_if, owner_locals, owner_nodes, IsPassed, IsPassedBefore};

use crate::notes::TreeNote;
use crate::walk::notes_of;
use kt_graph::is_too_large;
use kt_model::class_table::ClassTable;
use kt_model::finding::{Finding, Findings, PhaseFault, Rule, in_order};
use kt_model::uses::{Body, Owner, Uses};
use kt_tree::ast::File;
use kt_tree::{NoMemory, Span};
use std::alloc::Global;

/// The most locals of one body, parameters among them.
const MOST_LOCALS: usize = 250;

/// The declarations of an owner's parameters.
fn parameters<'a>(body: &Body<'a>) -> &'a [u32]
    ensures { result.now ≡ owner_parameters body.now.uses.now body.now.owner }
{
    match body.owner {
        Owner::Function(f) => body.uses.parameters(f),
        _ => &[],
    }
}

/// How many of the trees declare a local.
fn declared(notes: &[TreeNote]) -> usize
    ensures { result ≡ count_by (λ n. n.declares) notes.now }
{
    notes.iter().filter(|note| note.declares).count()
}

/// Whether a body has more locals than it may have.
fn has_many_locals(alloc: Global, body: &Body<'_>) -> Result<bool, NoMemory>
    ensures { IfOk result (λ many. IsTrue many ↔ (most_locals < owner_locals body.now.file.now body.now.uses.now body.now.owner)) }
{
    let notes = notes_of(alloc, body)?;
    let declared = declared(notes.as_slice());
    Ok(declared.saturating_add(parameters(body).len()) > MOST_LOCALS)
}

/// Adds the finding of a rule, where it holds.
pub(crate) fn add_if(
    holds: bool,
    rule: Rule,
    span: Span,
    found: &mut Vec<Finding>,
) -> Result<(), NoMemory>
    ensures { OnOk result (found.new.items ≡ found.old.items ++ finding_if holds rule span) }
{
    if holds {
        found.push(Finding { rule, span })?;
    }
    Ok(())
}

/// Adds the limits that a body passes, each at that name.
fn add_passed(
    alloc: Global,
    body: &Body<'_>,
    name: Span,
    found: &mut Vec<Finding>,
) -> Result<(), NoMemory>
    ensures { OnOk result (Adds (IsPassed (owner_locals body.now.file.now body.now.uses.now body.now.owner) (owner_nodes body.now.file.now body.now.uses.now body.now.owner) (length body.now.table.now) name) found.old.items found.new.items) }
{
    let many = has_many_locals(alloc, body)?;
    let large = is_too_large(body);
    add_if(many, Rule::TooManyLocals, name, found)?;
    add_if(large, Rule::FlowTooLarge, name, found)
}

/// All limits that the bodies of a file's functions pass, of which there are so many.
fn all_passed(
    alloc: Global,
    file: &File,
    table: &ClassTable,
    uses: &Uses,
    count: u32,
) -> Result<Vec<Finding>, NoMemory>
    requires { count ≡ length file.now.functions }
    ensures { IfOk result (λ found. Adds (IsSizeViolated file.now uses.now (length table.now)) [] found.items) }
{
    let mut found = Vec::new(alloc);
    let functions = file.functions.as_slice();
    for place in 0..count {
        let body = Body {
            file,
            table,
            uses,
            owner: Owner::Function(place),
        };
        let name = functions[place as usize].name.span;
        add_passed(alloc, &body, name, &mut found)?;
    }
    Ok(found)
}

/// The same in the order of findings, none twice.
fn passed_in_order(
    alloc: Global,
    file: &File,
    table: &ClassTable,
    uses: &Uses,
) -> Result<Findings, NoMemory>
    ensures { IfOk result (AreFindings (IsSizeViolated file.now uses.now (length table.now))) }
{
    let Ok(count) = u32::try_from(file.functions.len()) else {
        return Err(NoMemory);
    };
    let found = all_passed(alloc, file, table, uses, count)?;
    Ok(in_order(found))
}

/// Nothing, where no body of the file passes a limit on its graph: 250 locals, parameters among them (TOO_MANY_LOCALS), or 65,536 nodes (FLOW_TOO_LARGE). Else
/// the fault has exactly what is violated, each at the function's name, sorted by start, end and code, none twice; or there is no memory for it, nor for a
/// file of 2^32 functions.
pub fn sizes(alloc: Global, file: &File, table: &ClassTable, uses: &Uses) -> Result<(), PhaseFault>
    ensures accepted { IfOk result (λ _. (f : Finding) → IsSizeViolated file.now uses.now (length table.now) f → ⊥) }
    ensures fault { IfErr result (IsFault (IsSizeViolated file.now uses.now (length table.now))) }
{
    let found = passed_in_order(alloc, file, table, uses)?;
    if found.is_empty() {
        return Ok(());
    }
    Err(PhaseFault::Findings(found))
}
