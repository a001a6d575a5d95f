//! A graph under construction, which grows from the end of a body to its beginning.
ghost use Rattle.std.specs.Prelude.{◌≡◌, ◌++◌, ◌∷◌, [], map, IfOk, OnOk, List};
ghost use Rattle.kt_model.specs.ControlFlow.{lead, on, node};
ghost use Rattle.kt_model.specs.Bodies.{node_at};
ghost use Rattle.kt_graph.specs.Building.{Grows, Enters, StepsTo, place_at, context_at};

use kt_model::graph::{EdgeRow, FlowEffect, NodeRow, Tag};
use kt_tree::NoMemory;
use sqlite_items::Items;
use std::alloc::Global;

/// What follows a tree: one node whatever its value, or one for true and one for false; `None` where nothing follows.
#[derive(Clone, Copy)]
pub enum Exits {
    Then(Option<u32>),
    Branch(Option<u32>, Option<u32>),
}

/// Where a tree stands: where jumps lead, the nodes to which every node inside leads as well, and the copy.
#[derive(Clone, Copy)]
pub struct FlowContext<'a> {
    pub returns: Option<u32>,
    pub always: &'a [u32],
    pub copy: u32,
}

/// Nodes and edges, the last first. A node's number is how many nodes are still to come before it, so that all have their final numbers at once.
#[derive(Drop)]
pub struct Builder {
    pub alloc: Global,
    /// How many nodes are still to come.
    pub ahead: u32,
    pub nodes: Vec<NodeRow>,
    pub edges: Vec<EdgeRow>,
}

impl Builder {
    /// Adds a node, and gives its number.
    pub fn node(
        &mut self,
        tree: u32,
        tag: Tag,
        copy: u32,
        effects: Items<FlowEffect>,
    ) -> Result<u32, NoMemory>
        ensures { IfOk result (λ n. Enters self.old self.new (node tree tag copy effects ∷ []) (λ ns. []) (λ ns. node_at ns n ≡ node tree tag copy effects)) }
    {
        let Some(number) = self.ahead.checked_sub(1) else {
            return Err(NoMemory);
        };
        self.nodes.push(NodeRow {
            tree,
            tag,
            copy,
            effects,
        })?;
        self.ahead = number;
        Ok(number)
    }

    /// Adds edges from a node to each of several.
    pub fn lead(&mut self, from: u32, to: &[u32]) -> Result<(), NoMemory>
        ensures { OnOk result (Grows self.old self.new [] (λ ns. lead (node_at ns from) (map (node_at ns) to.now))) }
    {
        let mut i = to.len();
        while i > 0 {
            i -= 1;
            self.edges.push(EdgeRow { from, to: to[i] })?;
        }
        Ok(())
    }

    /// Adds edges from a node to a place, and to the nodes to which every node leads.
    pub fn on(
        &mut self,
        context: FlowContext<'_>,
        from: u32,
        to: Option<u32>,
    ) -> Result<(), NoMemory>
        ensures { OnOk result (Grows self.old self.new [] (λ ns. on (context_at ns context.entry) (node_at ns from) (place_at ns to))) }
    {
        self.lead(from, context.always)?;
        match to {
            Some(n) => {
                self.edges.push(EdgeRow { from, to: n })?;
                Ok(())
            }
            None => Ok(()),
        }
    }

    /// Adds a node that leads to a place.
    pub fn step(
        &mut self,
        context: FlowContext<'_>,
        tree: u32,
        tag: Tag,
        effects: Items<FlowEffect>,
        to: Option<u32>,
    ) -> Result<u32, NoMemory>
        ensures { IfOk result (StepsTo self.old self.new (node tree tag context.entry.copy effects) context.entry to) }
    {
        let n = self.node(tree, tag, context.copy, effects)?;
        self.on(context, n, to)?;
        Ok(n)
    }
}
