ghost use Rattle.std.specs.Prelude.{◌≡◌, ◌≢◌, ℕ, ◌+◌, ◌<◌, ◌↔◌, IsTrue, length, slice_index_or};
ghost use Rattle.std.specs.List.{All};
ghost use Rattle.kt_model.specs.declared.graph.Variable.TheVariants.{Local};
ghost use Rattle.kt_model.specs.NodePaths.{IsEdgeWithin, IsGraph};
ghost use Rattle.kt_init.specs.Transfers.{IsOnce, var_at};

use kt_model::graph::{EdgeRow, Graph, Variable};

/// Whether all edges join nodes below a number.
fn are_within(edges: &[EdgeRow], nodes: usize) -> bool
    ensures { IsTrue result ↔ All (IsEdgeWithin nodes) edges.now }
{
    edges.iter().all(|edge| (edge.from as usize) < nodes && (edge.to as usize) < nodes)
}

/// Whether a variable stands at none of the first places.
fn is_new(variables: &[Variable], place: usize) -> bool
    requires { place < length variables.now }
    ensures { IsTrue result ↔ ((k : ℕ) → k < place → var_at variables.now k ≢ var_at variables.now place) }
{
    let variable = variables[place];
    for k in 0..place {
        if variables[k] == variable {
            return false;
        }
    }
    true
}

/// Whether each variable stands at one place.
fn are_once(variables: &[Variable]) -> bool
    ensures { IsTrue result ↔ IsOnce variables.now }
{
    for place in 0..variables.len() {
        if !is_new(variables, place) {
            return false;
        }
    }
    true
}

/// Whether a graph's numbers are in range, as `analyse` needs: there is an entry, edges join its nodes, and each
/// variable is listed once. It takes no memory, and as many comparisons as there are pairs of variables.
pub fn is_graph(g: &Graph) -> bool
    ensures { IsTrue result ↔ IsGraph g.now }
{
    let nodes = g.nodes.len();
    match g.order.as_slice() {
        [entry, ..] => (*entry as usize) < nodes
            && are_within(g.edges.as_slice(), nodes)
            && are_once(g.variables.as_slice()),
        [] => false,
    }
}
