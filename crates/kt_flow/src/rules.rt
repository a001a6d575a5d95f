//! The rules along the paths of a body.
ghost use Rattle.std.specs.Prelude.{◌↔◌, ℕ, length, Contains, IfOk, IsTrue};
ghost use Rattle.kt_model.specs.Bodies.{owner_parameters, owner_trees, IsTooLarge};
ghost use Rattle.kt_model.specs.ControlFlow.{body_nodes};
ghost use Rattle.kt_model.specs.Findings.{AreFindings};
ghost use Rattle.kt_paths.specs.FlowRules.{IsPathViolated, SettlesEntered};
ghost use Rattle.kt_typing.specs.Typing.{IsLeft};
ghost use Rattle.kt_init.specs.Statuses.{Analyses};
ghost use Rattle.kt_flow.specs.Notes.{RiseFromZero, AreRising};
ghost use Rattle.kt_flow.specs.Ends.{IsAgainstBody};

use crate::along::Paths;
use crate::left::left_trees;
use crate::notes::TreeNote;
use crate::walk::notes_of;
use kt_graph::graph;
use kt_init::{Init, analyse, is_graph};
use kt_model::finding::{Findings, in_order};
use kt_model::graph::Graph;
use kt_model::uses::Body;
use kt_tree::NoMemory;
use std::alloc::Global;

/// Whether the numbers of the trees rise from above 0.
fn are_numbered(notes: &[TreeNote]) -> bool
    ensures { IsTrue result ↔ RiseFromZero notes.now }
{
    let mut last = 0;
    for note in notes {
        if note.tree <= last {
            return false;
        }
        last = note.tree;
    }
    true
}

/// What is violated along the paths of a body, by its graph, the notes of its trees and the statuses there, in the order of
/// findings, none twice.
fn found_in_order(
    alloc: Global,
    body: &Body<'_>,
    notes: &[TreeNote],
    graph: &Graph,
    init: &Init,
) -> Result<Findings, NoMemory>
    requires rising { AreRising notes.now }
    requires analysed { Analyses graph.now init.now }
    ensures { IfOk result (AreFindings (IsAgainstBody body.now.file.now body.now.uses.now body.now.owner notes.now graph.now)) }
{
    let Ok(end) = u32::try_from(graph.nodes.len()) else {
        return Err(NoMemory);
    };
    let paths = Paths { notes, graph, init };
    let mut found = Vec::new(alloc);
    paths.add_nodes(end, &mut found)?;
    paths.add_end(body, end, &mut found)?;
    Ok(in_order(found))
}

/// What is violated along the paths of a body, and the numbers of the trees out of which a path leads, in the order of the graph's nodes.
#[derive(Drop)]
pub struct PathAnswer {
    pub findings: Findings,
    pub left: Vec<u32>,
}

/// What is violated along the paths of a body whose graph is not too large: exactly the reads of a local that is not assigned
/// along every path to there (UNASSIGNED) and the assignments of a `val` or a parameter that is not unassigned along every path
/// to there (VAL_TWICE), at nodes that are reached (Kotlin specification, "Variable initialization analysis"), and the end of the
/// block of a function whose result is not `Unit`, where a path leads to it (NO_RETURN, at the function's name; "Function
/// declaration"); sorted by start, end and code, none twice. So it is also settled which trees of the body are entered. With them come
/// the trees out of which a path leads, which typing asks for.
/// `NoMemory` where there is none for it; so too for a body the numbers of whose trees do not rise from above 0, or that names a
/// local of another body: no file that was read and resolved has one.
pub fn flow(alloc: Global, body: &Body<'_>) -> Result<PathAnswer, NoMemory>
    requires { IsTooLarge (length (body_nodes (owner_parameters body.now.uses.now body.now.owner) (owner_trees body.now.file.now body.now.uses.now body.now.owner))) 0 (length body.now.table.now) → ⊥ }
    ensures findings { IfOk result (λ it. AreFindings (IsPathViolated body.now.file.now body.now.uses.now body.now.owner) it.findings) }
    ensures entered { IfOk result (λ _. SettlesEntered (owner_parameters body.now.uses.now body.now.owner) (owner_trees body.now.file.now body.now.uses.now body.now.owner)) }
    ensures left { IfOk result (λ it. (tree : ℕ) → Contains it.left.items tree ↔ IsLeft (owner_parameters body.now.uses.now body.now.owner) (owner_trees body.now.file.now body.now.uses.now body.now.owner) tree) }
{
    let notes = notes_of(alloc, body)?;
    if !are_numbered(notes.as_slice()) {
        return Err(NoMemory);
    }
    let Ok(graph) = graph(alloc, body) else {
        return Err(NoMemory);
    };
    if !is_graph(&graph) {
        return Err(NoMemory);
    }
    let init = analyse(alloc, &graph)?;
    let findings = found_in_order(alloc, body, notes.as_slice(), &graph, &init)?;
    let left = left_trees(alloc, &graph, &init)?;
    Ok(PathAnswer { findings, left })
}
