ghost use Rattle.std.specs.Prelude.{◌≡◌, ℕ, ◌+◌, ◌-◌, ◌<◌, ◌≤◌, [], ◌∷◌, ◌++◌, length, IfOk, OnErr};
ghost use Rattle.kt_solve.specs.Chains.{IsLink, edge_at};
ghost use Rattle.kt_solve.specs.Flow.{Flow, IsWithin, TransferFits};

use crate::effect::{Edge, Effect, Transfer};
use crate::steps::Steps;
use std::alloc::{AllocError, AllocFailed, Global};
use std::marker::Model;
use std::sync::ledger::Ledger;

/// There is no memory for the work.
#[derive(Clone, Copy, Debug, PartialEq, Eq)]
pub struct NoMemory;

impl From<AllocError> for NoMemory {
    fn from(_: AllocError) -> NoMemory {
        NoMemory
    }
}

impl<T: Drop> From<AllocFailed<T>> for NoMemory {
    fn from(_: AllocFailed<T>) -> NoMemory {
        NoMemory
    }
}

/// An edge, and the link of the edge that was given before it from the same node. The link of an edge is its number
/// and one; 0 is no edge.
#[derive(Clone, Copy, Debug)]
pub(crate) struct LinkedEdge {
    pub(crate) edge: Edge,
    pub(crate) before: usize,
}

/// A flow problem: nodes and pairs by number from 0, an entry, edges, and what each node does to each pair.
///
/// The edges are kept by node from the start, so that no call sorts them and each is read by one reader alone.
#[derive(Drop)]
pub struct Problem {
    nodes: u32,
    pairs: u32,
    entry: u32,
    edges: Vec<LinkedEdge>,
    last: Vec<usize>,
    effects: Vec<Effect>,
}

impl Model for Problem {
    ghost use Rattle.kt_solve.specs.Flow.{Flow};
    ghost use Rattle.kt_solve.specs.Problems.{flow_of, IsProblem};

    ghost Value = { Flow };

    ghost view = { λ p. flow_of p.nodes p.pairs p.entry p.edges.items p.effects.items };

    ghost invariant = { λ p. IsProblem p.nodes p.pairs p.entry p.edges.items p.last.items p.effects.items };
}

impl Problem {
    /// A problem without edges and effects: every pair is kept at every node.
    pub fn new(alloc: Global, nodes: u32, pairs: u32, entry: u32) -> Result<Problem, NoMemory>
        requires { entry < nodes }
        ensures { IfOk result (λ p. p ≡ record { nodes = nodes; pairs = pairs; entry = entry; edges = []; effects = [] }) }
    {
        let last = vec![in alloc; 0usize; nodes as usize]?;
        Ok(Problem {
            nodes,
            pairs,
            entry,
            edges: Vec::new(alloc),
            last,
            effects: Vec::new(alloc),
        })
    }

    /// Joins `from` to `to`. An edge may be given more than once, and from a node to itself.
    pub fn edge(&mut self, from: u32, to: u32) -> Result<(), NoMemory>
        requires from { from < self.old.nodes }
        requires to { to < self.old.nodes }
        ensures ok { IfOk result (λ _. self.new ≡ record self.old { edges = self.old.edges ++ record { from = from; to = to } ∷ [] }) }
        ensures err { OnErr result (self.new ≡ self.old) }
    {
        let node = from as usize;
        let before = self.last[node];
        let edge = Edge { from, to };
        self.edges.push(LinkedEdge { edge, before })?;
        self.last[node] = self.edges.len();
        Ok(())
    }

    /// Gives a pair of a node its transfer, in place of one that was given before.
    pub fn effect(&mut self, node: u32, pair: u32, t: Transfer) -> Result<(), NoMemory>
        requires node { node < self.old.nodes }
        requires pair { pair < self.old.pairs }
        requires transfer { TransferFits self.old.pairs 1 t }
        ensures ok { IfOk result (λ _. self.new ≡ record self.old { effects = self.old.effects ++ record { node = node; first = pair; count = 1; transfer = t } ∷ [] }) }
        ensures err { OnErr result (self.new ≡ self.old) }
    {
        self.effect_range(node, pair, 1, t)
    }

    /// Gives each of `count` pairs from `pair` on its transfer, in place of those that were given before. With
    /// `CopyFrom` the pair copied from moves along.
    pub fn effect_range(
        &mut self,
        node: u32,
        pair: u32,
        count: u32,
        t: Transfer,
    ) -> Result<(), NoMemory>
        requires node { node < self.old.nodes }
        requires pair { pair + count ≤ self.old.pairs }
        requires transfer { TransferFits self.old.pairs count t }
        ensures ok { IfOk result (λ _. self.new ≡ record self.old { effects = self.old.effects ++ record { node = node; first = pair; count = count; transfer = t } ∷ [] }) }
        ensures err { OnErr result (self.new ≡ self.old) }
    {
        self.effects.push(Effect {
            node,
            first: pair,
            count,
            transfer: t,
        })?;
        Ok(())
    }

    /// How many nodes there are. All numbers of a problem are below its counts.
    pub(crate) fn nodes(&self) -> u32
        ensures count { result ≡ self.now.nodes }
        ensures within { IsWithin self.now }
    {
        self.nodes
    }

    /// How many pairs there are.
    pub(crate) fn pairs(&self) -> u32
        ensures { result ≡ self.now.pairs }
    {
        self.pairs
    }

    /// The node with which every path begins.
    pub(crate) fn entry(&self) -> u32
        ensures { result ≡ self.now.entry }
    {
        self.entry
    }

    /// The effects, in the order in which they were given.
    pub(crate) fn effects(&self) -> &[Effect]
        ensures { result.now ≡ self.now.effects }
    {
        &self.effects
    }

    /// How many edges there are.
    pub(crate) fn edge_count(&self) -> usize
        ensures { result ≡ length self.now.edges }
    {
        self.edges.len()
    }

    /// The link of a node's last edge, 0 where it has none.
    pub(crate) fn last_link(&self, node: u32) -> usize
        requires { node < self.now.nodes }
        ensures { IsLink self.now.edges (length self.now.edges) node result }
    {
        self.last[node as usize]
    }

    /// Reads the edge of a link and counts it. Edges are read here and nowhere else.
    pub(crate) fn read<L: Ledger>(&self, link: usize, steps: &mut Steps<L>) -> LinkedEdge
        requires some { 0 < link }
        requires within { link ≤ length self.now.edges }
        ensures edge { result.edge ≡ edge_at self.now.edges (link - 1) }
        ensures before { IsLink self.now.edges (link - 1) result.edge.from result.before }
        ensures steps { steps.new ≡ steps.old + 1 }
    {
        steps.tick();
        self.edges[link - 1]
    }
}
