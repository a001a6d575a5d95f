use crate::graph::is_graph;
use crate::init::analyse;
use kt_model::graph::{EdgeRow, FlowEffect, Graph, Known, NodeRow, Tag, Variable};
use kt_model::status::Status;
use kt_tree::NoMemory;
use sqlite_items::Items;
use std::alloc::Global;
use std::test::Fail;

fn row(alloc: Global, tag: Tag, effect: Option<FlowEffect>) -> Result<NodeRow, NoMemory> {
    let mut effects = Items::new(alloc);
    if let Some(effect) = effect {
        effects.push(effect)?;
    }
    Ok(NodeRow {
        tree: 0,
        tag,
        copy: 0,
        effects,
    })
}

/// A local is declared, and assigned in the body of a loop: entry, its declaration, the loop's head, the assignment,
/// back to the head, what follows the loop, and a node to which no edge leads.
fn loop_with_assignment(alloc: Global) -> Result<Graph, NoMemory> {
    let x = Variable::Local(4);
    let known = Known::Literals(Items::new(alloc));
    let mut nodes = Items::new(alloc);
    nodes.push(row(alloc, Tag::Entry, None)?)?;
    nodes.push(row(alloc, Tag::Out, Some(FlowEffect::Declare(x)))?)?;
    nodes.push(row(alloc, Tag::Head, None)?)?;
    nodes.push(row(alloc, Tag::Out, Some(FlowEffect::Assign(x, known)))?)?;
    nodes.push(row(alloc, Tag::Back, None)?)?;
    nodes.push(row(alloc, Tag::Out, Some(FlowEffect::Read(x)))?)?;
    nodes.push(row(alloc, Tag::In, None)?)?;
    let mut edges = Items::new(alloc);
    for (from, to) in [(0, 1), (1, 2), (2, 3), (3, 4), (4, 2), (2, 5), (6, 5)] {
        edges.push(EdgeRow { from, to })?;
    }
    let mut variables = Items::new(alloc);
    variables.push(x)?;
    let mut order = Items::new(alloc);
    order.push(0u32)?;
    Ok(Graph {
        nodes,
        edges,
        variables,
        targets: Items::new(alloc),
        order,
        classes: 0,
    })
}

/// The status of the first variable at each node, None where the graph isn't one to be analysed.
fn first_statuses(alloc: Global, g: &Graph) -> Result<Option<Vec<Status>>, NoMemory> {
    if !is_graph(g) || g.variables.is_empty() {
        return Ok(None);
    }
    let init = analyse(alloc, g)?;
    let mut statuses = Vec::new(alloc);
    for node in 0..g.nodes.len() {
        if node <= u32::MAX as usize {
            let status = init.status(node as u32, 0);
            statuses.push(status)?;
        }
    }
    Ok(Some(statuses))
}

#[test]
fn a_variable_is_assigned_in_a_loop(rt: HostRuntime) -> Result<(), Fail> {
    use Status::{Assigned, Either, Unassigned, Unreached};
    let g = loop_with_assignment(rt.alloc())?;
    let statuses = first_statuses(rt.alloc(), &g)?.ok_or("no graph")?;
    let expected = [
        Unassigned, Unassigned, Either, Either, Assigned, Either, Unreached,
    ];
    assert_eq!(rt; statuses.as_slice(), expected.as_slice());
    Ok(())
}
