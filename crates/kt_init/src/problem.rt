ghost use Rattle.std.specs.Prelude.{◌≡◌, ℕ, ◌+◌, ◌*◌, ◌^◌, ◌<◌, ◌≤◌, ◌++◌, length, map, IfOk, OnOk};
ghost use Rattle.std.specs.List.{All};
ghost use Rattle.kt_model.specs.NodePaths.{IsEdgeWithin, IsGraph, entry_of};
ghost use Rattle.kt_init.specs.Transfers.{AddsCopies, AddsEffects, AddsMark, AddsNodes, IsOnce, IsProblemOf, SameFrame, change_in, edge_of, transfer_to as says_transfer};

use crate::numbers::{Numbers, number_variables};
use kt_model::graph::{FlowEffect, Graph, Variable};
use kt_solve::{NoMemory, Problem, Transfer};
use std::alloc::Global;

/// Takes over the edges of the graph.
fn add_edges(problem: &mut Problem, g: &Graph) -> Result<(), NoMemory>
    requires { All (IsEdgeWithin problem.old.nodes) g.now.edges }
    ensures { OnOk result (problem.new ≡ record problem.old { edges = problem.old.edges ++ map edge_of g.now.edges }) }
{
    let edges = g.edges.as_slice();
    for edge in edges {
        problem.edge(edge.from, edge.to)?;
    }
    Ok(())
}

/// Keeps, at each node, the state before its effects in the second half of the pairs.
fn add_copies(problem: &mut Problem, nodes: u32, half: u32) -> Result<(), NoMemory>
    requires nodes { nodes ≤ problem.old.nodes }
    requires pairs { half + half ≡ problem.old.pairs }
    ensures frame { OnOk result (SameFrame problem.old problem.new) }
    ensures copies { OnOk result (AddsCopies nodes half problem.old problem.new) }
{
    for node in 0..nodes {
        problem.effect_range(node, half, half, Transfer::CopyFrom(0))?;
    }
    Ok(())
}

fn transfer_to(set: bool) -> Transfer
    ensures { result ≡ says_transfer set }
{
    if set { Transfer::Set } else { Transfer::Clear }
}

/// Notes at a node that a variable is assigned there, or declared.
fn add_mark(
    problem: &mut Problem,
    numbers: &Numbers,
    node: u32,
    variable: Variable,
    assigns: bool,
) -> Result<(), NoMemory>
    requires node { node < problem.old.nodes }
    requires once { IsOnce numbers.now.variables.keys }
    requires pairs { 4 * length numbers.now.variables.keys ≡ problem.old.pairs }
    requires few { problem.old.pairs < 2 ^ 32 }
    ensures frame { OnOk result (SameFrame problem.old problem.new) }
    ensures mark { OnOk result (AddsMark numbers.now.variables.keys node variable assigns problem.old problem.new) }
{
    let count = numbers.len() as u32;
    if let Some(place) = numbers.of(variable) {
        problem.effect(node, place as u32, transfer_to(assigns))?;
        problem.effect(node, count + place as u32, transfer_to(!assigns))?;
    }
    Ok(())
}

/// The variable that an effect speaks of, and whether it is assigned there; None where it changes no variable.
fn change_of(effect: &FlowEffect) -> Option<(Variable, bool)>
    ensures { result ≡ change_in effect.now }
{
    match effect {
        FlowEffect::Declare(variable) => Some((*variable, false)),
        FlowEffect::Assign(variable, _) => Some((*variable, true)),
        FlowEffect::Read(_) | FlowEffect::Assume(_) | FlowEffect::Kill(_) => None,
    }
}

/// Notes what the effects of a node do to variables.
fn add_effects(
    problem: &mut Problem,
    numbers: &Numbers,
    node: u32,
    effects: &[FlowEffect],
) -> Result<(), NoMemory>
    requires node { node < problem.old.nodes }
    requires once { IsOnce numbers.now.variables.keys }
    requires pairs { 4 * length numbers.now.variables.keys ≡ problem.old.pairs }
    requires few { problem.old.pairs < 2 ^ 32 }
    ensures frame { OnOk result (SameFrame problem.old problem.new) }
    ensures effects { OnOk result (AddsEffects numbers.now.variables.keys node effects.now problem.old problem.new) }
{
    for effect in effects {
        if let Some((variable, assigns)) = change_of(effect) {
            add_mark(problem, numbers, node, variable, assigns)?;
        }
    }
    Ok(())
}

/// Notes what each node does to variables.
fn add_nodes(problem: &mut Problem, numbers: &Numbers, g: &Graph) -> Result<(), NoMemory>
    requires small { length g.now.nodes < 2 ^ 32 }
    requires nodes { length g.now.nodes ≤ problem.old.nodes }
    requires numbers { numbers.now.variables.keys ≡ g.now.variables }
    requires once { IsOnce g.now.variables }
    requires pairs { 4 * length g.now.variables ≡ problem.old.pairs }
    requires few { problem.old.pairs < 2 ^ 32 }
    ensures frame { OnOk result (SameFrame problem.old problem.new) }
    ensures nodes { OnOk result (AddsNodes g.now (length g.now.nodes) problem.old problem.new) }
{
    let rows = g.nodes.as_slice();
    for node in 0..rows.len() {
        let row = &rows[node];
        add_effects(problem, numbers, node as u32, row.effects.as_slice())?;
    }
    Ok(())
}

/// The problem whose paths are those of the graph behind a first node.
pub(crate) fn problem_of(
    alloc: Global,
    g: &Graph,
    nodes: u32,
    count: u32,
) -> Result<Problem, NoMemory>
    requires graph { IsGraph g.now }
    requires nodes { nodes ≡ length g.now.nodes }
    requires count { count ≡ length g.now.variables }
    requires few_nodes { nodes + 1 < 2 ^ 32 }
    requires few_pairs { 4 * count < 2 ^ 32 }
    ensures { IfOk result (λ p. IsProblemOf g.now p) }
{
    let numbers = number_variables(alloc, g.variables.as_slice())?;
    let entry = g.order.as_slice()[0];
    let mut problem = Problem::new(alloc, nodes + 1, 4 * count, nodes)?;
    add_edges(&mut problem, g)?;
    problem.edge(nodes, entry)?;
    problem.effect_range(nodes, count, count, Transfer::Set)?;
    add_copies(&mut problem, nodes, 2 * count)?;
    add_nodes(&mut problem, &numbers, g)?;
    Ok(problem)
}
