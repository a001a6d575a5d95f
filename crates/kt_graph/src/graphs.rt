//! The graph of a body.
ghost use Rattle.std.specs.Prelude.{◌≡◌, ◌+◌, ◌↔◌, ◌++◌, ◌∷◌, [], List, map, length, IfOk, IsTrue, OnOk};
ghost use Rattle.std.specs.Option.{option_copied};
ghost use Rattle.std.specs.List.{All, flat_map, range_with_len};
ghost use Rattle.kt_model.specs.NameUses.{named_at};
ghost use Rattle.kt_model.specs.BodyTrees.{Trees};
ghost use Rattle.kt_model.specs.ControlFlow.{bring, body_nodes};
ghost use Rattle.kt_model.specs.Bodies.{IsGraphOf, IsTooLarge, body_trees_of, owner_parameters, owner_trees, variables_of, declared_by};
ghost use Rattle.kt_model.specs.NodeKeys.{AreDistinct, AreNumbered};
ghost use Rattle.kt_model.specs.NodePaths.{IsEdgeWithin};
ghost use Rattle.kt_model.specs.Sweeps.{IsOnward};
ghost use Rattle.kt_graph.specs.Building.{IsBuilt, WalksTrees};
ghost use Rattle.kt_graph.specs.Sizes.{all_size, capped};

use crate::building::{Builder, Exits, FlowContext};
use crate::count;
use crate::leaving::bring;
use kt_model::graph::{FlowEffect, Graph, NodeRow, Tag, Variable};
use kt_model::uses::{Body, Owner, Uses};
use kt_tree::NoMemory;
use kt_tree::ast::FunctionBody;
use sqlite_items::Items;
use std::alloc::{AllocError, Global};

/// Why a body has no graph.
#[derive(Clone, Copy, Debug, PartialEq, Eq)]
pub enum GraphFault {
    /// The graph would have more nodes than 65,536, or more facts about its targets than 2^30.
    TooLarge,
    /// There is no memory for the graph.
    NoMemory,
}

impl From<NoMemory> for GraphFault {
    fn from(_error: NoMemory) -> GraphFault {
        GraphFault::NoMemory
    }
}

impl From<AllocError> for GraphFault {
    fn from(_error: AllocError) -> GraphFault {
        GraphFault::NoMemory
    }
}

/// The written body of an owner, if it has one. The bodies of members, getters and classes are not open yet.
fn written<'a>(body: &Body<'a>) -> Option<&'a FunctionBody>
    ensures { owner_trees body.now.file.now body.now.uses.now body.now.owner ≡ body_trees_of (named_at body.now.uses.now) (option_copied result) }
{
    match body.owner {
        Owner::Function(f) => match body.file.functions.as_slice().get(f as usize) {
            Some(function) => match &function.body {
                Some(written) => Some(written),
                None => None,
            },
            None => None,
        },
        _ => None,
    }
}

/// The declarations of an owner's parameters.
fn parameters<'a>(body: &Body<'a>) -> &'a [u32]
    ensures { result.now ≡ owner_parameters body.now.uses.now body.now.owner }
{
    match body.owner {
        Owner::Function(f) => body.uses.parameters(f),
        _ => &[],
    }
}

/// How many nodes the trees of a body have, up to one past the most.
fn body_count(uses: &Uses, body: Option<&FunctionBody>) -> u32
    ensures { result ≡ capped (all_size (body_trees_of (named_at uses.now) (option_copied body.entry))) }
{
    match body {
        Some(written) => match written {
            FunctionBody::Expr(e) => count::expr(uses, false, e),
            FunctionBody::Block { contract: _, block } => {
                count::statements(uses, block.statements.as_slice())
            }
        },
        None => 0,
    }
}

/// What the node of the parameters does.
fn brought(alloc: Global, parameters: &[u32]) -> Result<Items<FlowEffect>, NoMemory>
    ensures { IfOk result (λ es. es ≡ flat_map bring parameters.now) }
{
    let mut effects = Items::new(alloc);
    for x in parameters {
        bring(&mut effects, alloc, *x)?;
    }
    Ok(effects)
}

impl Builder {
    /// Adds the trees of a body.
    fn body(
        &mut self,
        uses: &Uses,
        context: FlowContext<'_>,
        next: Option<u32>,
        body: Option<&FunctionBody>,
    ) -> Result<Option<u32>, NoMemory>
        ensures { IfOk result (λ n. WalksTrees self.old self.new (body_trees_of (named_at uses.now) (option_copied body.entry)) context.entry next n) }
    {
        match body {
            Some(written) => match written {
                FunctionBody::Expr(e) => {
                    let n = self.expr(uses, context, Exits::Then(next), e)?;
                    Ok(Some(n))
                }
                FunctionBody::Block { contract: _, block } => {
                    let n = self.statements(uses, context, next, block.statements.as_slice())?;
                    Ok(n)
                }
            },
            None => Ok(next),
        }
    }
}

/// All nodes and edges of a body with these parameters, of which the nodes are so many.
fn built(
    alloc: Global,
    uses: &Uses,
    parameters: &[u32],
    body: Option<&FunctionBody>,
    nodes: u32,
) -> Result<Builder, NoMemory>
    requires { nodes ≡ length (body_nodes parameters.now (body_trees_of (named_at uses.now) (option_copied body))) }
    ensures { IfOk result (IsBuilt parameters.now (body_trees_of (named_at uses.now) (option_copied body.entry))) }
{
    let outside = FlowContext {
        returns: None,
        always: &[],
        copy: 0,
    };
    let mut graph = Builder {
        alloc,
        ahead: nodes,
        nodes: Vec::new(alloc),
        edges: Vec::new(alloc),
    };
    let end = graph.bare(outside, Tag::End, None)?;
    let inside = FlowContext {
        returns: Some(end),
        always: &[],
        copy: 0,
    };
    let first = graph.body(uses, inside, Some(end), body)?;
    let effects = brought(alloc, parameters)?;
    let params = graph.step(outside, 0, Tag::Params, effects, first)?;
    graph.bare(outside, Tag::Entry, Some(params))?;
    Ok(graph)
}

/// Adds what an effect declares.
fn declare(variables: &mut Items<Variable>, effect: &FlowEffect) -> Result<(), NoMemory>
    ensures { OnOk result (variables.new ≡ variables.old ++ declared_by (effect.now ∷ [])) }
{
    match effect {
        FlowEffect::Declare(variable) => {
            variables.push(*variable)?;
            Ok(())
        }
        _ => Ok(()),
    }
}

/// Adds what effects declare.
fn declare_all(variables: &mut Items<Variable>, effects: &[FlowEffect]) -> Result<(), NoMemory>
    ensures { OnOk result (variables.new ≡ variables.old ++ declared_by effects.now) }
{
    for effect in effects {
        declare(variables, effect)?;
    }
    Ok(())
}

/// What the nodes declare.
fn variables(alloc: Global, nodes: &[NodeRow]) -> Result<Items<Variable>, NoMemory>
    ensures { IfOk result (λ vs. vs ≡ variables_of nodes.now) }
{
    let mut variables = Items::new(alloc);
    for node in nodes {
        declare_all(&mut variables, node.effects.as_slice())?;
    }
    Ok(variables)
}

/// The numbers below a number.
fn numbers(alloc: Global, end: u32) -> Result<Items<u32>, NoMemory>
    ensures { IfOk result (λ ns. ns ≡ range_with_len 0 end) }
{
    let mut numbers = Items::new(alloc);
    for n in 0..end {
        numbers.push(n)?;
    }
    Ok(numbers)
}

/// The graph of an owner's body, of which the nodes are so many.
fn numbered(alloc: Global, body: &Body<'_>, nodes: u32) -> Result<Graph, NoMemory>
    requires { nodes ≡ length (body_nodes (owner_parameters body.now.uses.now body.now.owner) (owner_trees body.now.file.now body.now.uses.now body.now.owner)) }
    ensures { IfOk result (IsGraphOf (owner_parameters body.now.uses.now body.now.owner) (owner_trees body.now.file.now body.now.uses.now body.now.owner) (length body.now.table.now)) }
{
    let Ok(classes) = u32::try_from(body.table.rows().len()) else {
        return Err(NoMemory);
    };
    let graph = built(alloc, body.uses, parameters(body), written(body), nodes)?;
    let Builder {
        alloc: _,
        ahead: _,
        nodes: mut rows,
        mut edges,
    } = graph;
    rows.reverse();
    edges.reverse();
    let variables = variables(alloc, rows.as_slice())?;
    let order = numbers(alloc, nodes)?;
    Ok(Graph {
        nodes: Items::from_vec(rows),
        edges: Items::from_vec(edges),
        variables,
        targets: Items::new(alloc),
        order,
        classes,
    })
}

/// How many nodes the graph of a body has, up to one past the most.
fn node_count(body: &Body<'_>) -> u32
    ensures { result ≡ capped (length (body_nodes (owner_parameters body.now.uses.now body.now.owner) (owner_trees body.now.file.now body.now.uses.now body.now.owner))) }
{
    let count = body_count(body.uses, written(body));
    count::add(3, count)
}

/// Whether a body is too large for its graph: whether that has more nodes than 65,536. It takes no memory, and time in the size of the body.
pub fn is_too_large(body: &Body<'_>) -> bool
    ensures { IsTrue result ↔ IsTooLarge (length (body_nodes (owner_parameters body.now.uses.now body.now.owner) (owner_trees body.now.file.now body.now.uses.now body.now.owner))) 0 (length body.now.table.now) }
{
    node_count(body) > 65536
}

/// The control-flow graph of a body: exactly the nodes, effects and edges that the trees of the body have by definition, in the order of a sweep along
/// the flow. Each edge joins two of the nodes. Where no two trees of the body have one number and none has 0, no two nodes have one tree, tag and copy, and
/// an edge back leads only to a loop's head or to a hub. `TooLarge` exactly where it has more nodes than 65,536; a graph of which no facts are known has no targets, so the number of its targets and
/// classes counts nothing yet. It is decided before anything is allocated. `NoMemory` where there is none for the graph.
pub fn graph(alloc: Global, body: &Body<'_>) -> Result<Graph, GraphFault>
    ensures graph { IfOk result (IsGraphOf (owner_parameters body.now.uses.now body.now.owner) (owner_trees body.now.file.now body.now.uses.now body.now.owner) (length body.now.table.now)) }
    ensures within { IfOk result (λ g. All (IsEdgeWithin (length g.nodes)) g.edges) }
    ensures distinct { AreNumbered (owner_trees body.now.file.now body.now.uses.now body.now.owner) → IfOk result (λ g. AreDistinct g.nodes) }
    ensures onward { AreNumbered (owner_trees body.now.file.now body.now.uses.now body.now.owner) → IfOk result (λ g. All (IsOnward g) g.edges) }
    ensures too_large { (result ≡ Err GraphFault.TooLarge) ↔ IsTooLarge (length (body_nodes (owner_parameters body.now.uses.now body.now.owner) (owner_trees body.now.file.now body.now.uses.now body.now.owner))) 0 (length body.now.table.now) }
{
    let nodes = node_count(body);
    if nodes > 65536 {
        return Err(GraphFault::TooLarge);
    }
    match numbered(alloc, body, nodes) {
        Ok(graph) => Ok(graph),
        Err(_) => Err(GraphFault::NoMemory),
    }
}
