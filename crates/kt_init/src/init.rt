ghost use Rattle.std.specs.Prelude.{◌≡◌, ◌+◌, ◌*◌, ◌<◌, length, IfOk, IfSome};
ghost use Rattle.kt_model.specs.NodePaths.{IsGraph};
ghost use Rattle.kt_init.specs.Statuses.{Analyses};

use crate::dead::owned;
use crate::marks::Marks;
use crate::problem::problem_of;
use kt_model::dead::DeadList;
use kt_model::graph::Graph;
use kt_model::status::Status;
use kt_model::uses::Body;
use kt_solve::{Rows, solve};
use kt_tree::NoMemory;
use sqlite_items::Items;
use std::alloc::Global;
use std::marker::Model;

/// The statuses of a graph's variables at its nodes.
#[derive(Drop)]
pub struct Init {
    nodes: u32,
    variables: u32,
    rows: Rows,
}

impl Model for Init {
    ghost use Rattle.kt_init.specs.Statuses.{HasStatuses, Statuses, statuses_of};

    ghost Value = { Statuses };

    ghost view = { λ i. statuses_of i.nodes i.variables i.rows };

    ghost invariant = { λ i. HasStatuses i.nodes i.variables i.rows };
}

impl Init {
    ghost use Rattle.std.specs.Prelude.{◌≡◌, ◌<◌, length, IfOk};
    ghost use Rattle.kt_model.specs.DeadTrees.{AreOutermostDead};
    ghost use Rattle.kt_init.specs.Marks.{AreMarked};
    ghost use Rattle.kt_init.specs.Statuses.{Analyses, reached_at, status_at};

    /// Whether some path ends at the node. It takes no memory.
    pub fn reached(&self, node: u32) -> bool
        requires { node < length self.now.reached }
        ensures { result ≡ reached_at self.now node }
    {
        self.rows.reached(node)
    }

    /// The status of a variable, by its place in the graph's list, before a node's own effects. It takes no memory.
    pub fn status(&self, node: u32, variable: u32) -> Status
        requires node { node < length self.now.reached }
        requires variable { variable < self.now.variables }
        ensures { result ≡ status_at self.now node variable }
    {
        if !self.rows.reached(node) {
            Status::Unreached
        } else if self.rows.holds(node, 2 * self.variables + variable) {
            Status::Assigned
        } else if self.rows.holds(node, 3 * self.variables + variable) {
            Status::Unassigned
        } else {
            Status::Either
        }
    }

    /// Marks which trees of the graph are begun by a node, and which of these are entered.
    fn marks(&self, alloc: Global, g: &Graph) -> Result<Marks, NoMemory>
        requires { Analyses g.now self.now }
        ensures { IfOk result (λ m. AreMarked g.now self.now (length g.now.nodes) m.begun.keys m.entered.keys) }
    {
        let rows = g.nodes.as_slice();
        let mut marks = Marks::new(alloc);
        for node in 0..self.nodes {
            let reached = self.reached(node);
            marks.mark(&rows[node as usize], reached)?;
        }
        Ok(marks)
    }

    /// The outermost dead trees of a body, whose graph this is the analysis of, in the order of the text: those that nodes of the graph begin, at none of
    /// which a path ends, and that lie in no other such tree. NoMemory where there is none for the list and for the trees of the graph.
    pub fn dead(&self, alloc: Global, g: &Graph, body: &Body<'_>) -> Result<DeadList, NoMemory>
        requires { Analyses g.now self.now }
        ensures { IfOk result (λ told. AreOutermostDead g.now body.now.file.now body.now.owner told) }
    {
        let marks = self.marks(alloc, g)?;
        let mut found = Items::new(alloc);
        owned(&marks, &mut found, body.file, body.owner)?;
        Ok(found)
    }
}

/// How many nodes and variables a graph has, None where its problem would have numbers beyond 32 bits.
fn counts_of(g: &Graph) -> Option<(u32, u32)>
    ensures nodes { IfSome result (λ n. n.0 ≡ length g.now.nodes) }
    ensures variables { IfSome result (λ n. n.1 ≡ length g.now.variables) }
    ensures few_nodes { IfSome result (λ n. n.0 + 1 < 4294967296) }
    ensures few_pairs { IfSome result (λ n. 4 * n.1 < 4294967296) }
{
    let nodes = u32::try_from(g.nodes.len()).ok()?;
    let variables = u32::try_from(g.variables.len()).ok()?;
    if nodes == u32::MAX || variables > u32::MAX / 4 {
        return None;
    }
    Some((nodes, variables))
}

/// The status of each variable of a graph at each node, and which nodes are reached: exactly what all paths give.
/// NoMemory where there is none for the rows, which take four bits for each node and variable; so too for a graph of
/// 2^32 nodes or 2^30 variables, which no memory holds.
pub fn analyse(alloc: Global, g: &Graph) -> Result<Init, NoMemory>
    requires { IsGraph g.now }
    ensures { IfOk result (λ i. Analyses g.now i) }
{
    let Some((nodes, variables)) = counts_of(g) else {
        return Err(NoMemory);
    };
    let Ok(problem) = problem_of(alloc, g, nodes, variables) else {
        return Err(NoMemory);
    };
    let Ok(rows) = solve(alloc, &problem) else {
        return Err(NoMemory);
    };
    Ok(Init {
        nodes,
        variables,
        rows,
    })
}
