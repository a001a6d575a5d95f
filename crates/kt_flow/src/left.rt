//! The trees out of which a path leads.
ghost use Rattle.std.specs.Prelude.{◌≡◌, ◌<◌, ◌↔◌, ℕ, length, Contains, IfOk, IsTrue, OnOk};
ghost use Rattle.kt_init.specs.Statuses.{Analyses};
ghost use Rattle.kt_flow.specs.Ends.{AddsTrees, IsLeftAt, IsLeftBefore};

use kt_init::Init;
use kt_model::graph::{Graph, Tag};
use kt_tree::NoMemory;
use std::alloc::Global;

/// Whether a node is the `out` of a tree and is reached.
pub(crate) fn leaves(graph: &Graph, init: &Init, tree: u32, node: u32) -> bool
    requires analysed { Analyses graph.now init.now }
    requires within { node < length graph.now.nodes }
    ensures { IsTrue result ↔ IsLeftAt graph.now tree node }
{
    let nodes = graph.nodes.as_slice();
    let row = &nodes[node as usize];
    row.tree == tree && row.tag == Tag::Out && init.reached(node)
}

/// Adds the tree of a node, where a path leads out of the tree there.
fn add_left(graph: &Graph, init: &Init, node: u32, left: &mut Vec<u32>) -> Result<(), NoMemory>
    requires analysed { Analyses graph.now init.now }
    requires within { node < length graph.now.nodes }
    ensures { OnOk result (AddsTrees (λ tree. IsLeftAt graph.now tree node) left.old.items left.new.items) }
{
    let nodes = graph.nodes.as_slice();
    let row = &nodes[node as usize];
    if leaves(graph, init, row.tree, node) {
        left.push(row.tree)?;
    }
    Ok(())
}

/// The numbers of the trees out of which a path leads, in the order of the graph's nodes.
pub(crate) fn left_trees(alloc: Global, graph: &Graph, init: &Init) -> Result<Vec<u32>, NoMemory>
    requires { Analyses graph.now init.now }
    ensures { IfOk result (λ left. (tree : ℕ) → Contains left.items tree ↔ IsLeftBefore graph.now tree (length graph.now.nodes)) }
{
    let Ok(end) = u32::try_from(graph.nodes.len()) else {
        return Err(NoMemory);
    };
    let mut left = Vec::new(alloc);
    for node in 0..end {
        add_left(graph, init, node, &mut left)?;
    }
    Ok(left)
}
