ghost use Rattle.std.specs.Prelude.{◌≡◌, ◌<◌, ◌≤◌, ◌+◌, IfOk};
ghost use Rattle.std.specs.Bool.{OnTrue};
ghost use Rattle.kt_solve.specs.Flow.{TransferFits};

use kt_solve::{Edge, Effect, NoMemory, Problem, Transfer};
use std::alloc::{AllocError, AllocFailed, Global};
use std::io;
use std::num::ParseIntError;

/// Why a command gives no answer.
#[derive(Debug, Drop)]
pub enum Fault {
    NoMemory,
    Malformed,
    Io(io::Error),
}

impl From<io::Error> for Fault {
    fn from(error: io::Error) -> Fault {
        Fault::Io(error)
    }
}

impl From<AllocError> for Fault {
    fn from(_: AllocError) -> Fault {
        Fault::NoMemory
    }
}

impl<T: Drop> From<AllocFailed<T>> for Fault {
    fn from(_: AllocFailed<T>) -> Fault {
        Fault::NoMemory
    }
}

impl From<NoMemory> for Fault {
    fn from(_: NoMemory) -> Fault {
        Fault::NoMemory
    }
}

impl From<ParseIntError> for Fault {
    fn from(_: ParseIntError) -> Fault {
        Fault::Malformed
    }
}

/// A graph as it was given, and an order of its nodes.
#[derive(Drop)]
pub struct Given {
    pub name: String,
    pub nodes: u32,
    pub pairs: u32,
    pub entry: u32,
    pub edges: Vec<Edge>,
    pub effects: Vec<Effect>,
    pub order: Vec<u32>,
}

/// Whether the numbers of an effect are below their counts.
fn fits(effect: &Effect, nodes: u32, pairs: u32) -> bool
    ensures node { OnTrue result (effect.now.node < nodes) }
    ensures range { OnTrue result (effect.now.first + effect.now.count ≤ pairs) }
    ensures transfer { OnTrue result (TransferFits pairs effect.now.count effect.now.transfer) }
{
    let count = u64::from(effect.count);
    let is_within = u64::from(effect.first) + count <= u64::from(pairs);
    let is_copied = match effect.transfer {
        Transfer::CopyFrom(source) => u64::from(source) + count <= u64::from(pairs),
        Transfer::Keep | Transfer::Set | Transfer::Clear => true,
    };
    effect.node < nodes && is_within && is_copied
}

impl Given {
    pub fn new(
        alloc: Global,
        name: &str,
        nodes: u32,
        pairs: u32,
        entry: u32,
    ) -> Result<Given, AllocError> {
        Ok(Given {
            name: String::from_str(alloc, name)?,
            nodes,
            pairs,
            entry,
            edges: Vec::new(alloc),
            effects: Vec::new(alloc),
            order: Vec::new(alloc),
        })
    }

    /// Adds an edge between two nodes of the graph.
    pub fn edge(&mut self, from: u32, to: u32) -> Result<(), Fault> {
        if from >= self.nodes || to >= self.nodes {
            return Err(Fault::Malformed);
        }
        self.edges.push(Edge { from, to })?;
        Ok(())
    }

    /// Adds an effect whose numbers are written in decimal.
    pub fn effect(
        &mut self,
        node: &str,
        first: &str,
        count: &str,
        transfer: Transfer,
    ) -> Result<(), Fault> {
        let effect = Effect {
            node: node.parse()?,
            first: first.parse()?,
            count: count.parse()?,
            transfer,
        };
        if !fits(&effect, self.nodes, self.pairs) {
            return Err(Fault::Malformed);
        }
        self.effects.push(effect)?;
        Ok(())
    }

    /// The problem of the graph.
    pub fn problem(&self, alloc: Global) -> Result<Problem, Fault>
        ensures { IfOk result (λ p. (p.nodes ≡ self.now.nodes) × (p.pairs ≡ self.now.pairs)) }
    {
        if self.entry >= self.nodes {
            return Err(Fault::Malformed);
        }
        let mut p = Problem::new(alloc, self.nodes, self.pairs, self.entry)?;
        for edge in &self.edges {
            give_edge(&mut p, self.nodes, edge)?;
        }
        for effect in &self.effects {
            give_effect(&mut p, self.nodes, self.pairs, effect)?;
        }
        Ok(p)
    }

    /// The order that was given, or where none was, the entry and then the other nodes by number.
    pub fn order(&self, alloc: Global) -> Result<Vec<u32>, Fault> {
        let mut order = Vec::new(alloc);
        if !self.order.is_empty() {
            order.extend_from_slice(&self.order)?;
            return Ok(order);
        }
        order.push(self.entry)?;
        for node in 0..self.nodes {
            if node != self.entry {
                order.push(node)?;
            }
        }
        Ok(order)
    }
}

fn give_edge(p: &mut Problem, nodes: u32, edge: &Edge) -> Result<(), Fault>
    requires { p.old.nodes ≡ nodes }
    ensures { IfOk result (λ _. (p.new.nodes ≡ nodes) × (p.new.pairs ≡ p.old.pairs)) }
{
    if edge.from >= nodes || edge.to >= nodes {
        return Err(Fault::Malformed);
    }
    p.edge(edge.from, edge.to)?;
    Ok(())
}

fn give_effect(p: &mut Problem, nodes: u32, pairs: u32, effect: &Effect) -> Result<(), Fault>
    requires nodes { p.old.nodes ≡ nodes }
    requires pairs { p.old.pairs ≡ pairs }
    ensures { IfOk result (λ _. (p.new.nodes ≡ nodes) × (p.new.pairs ≡ pairs)) }
{
    if !fits(effect, nodes, pairs) {
        return Err(Fault::Malformed);
    }
    p.effect_range(effect.node, effect.first, effect.count, effect.transfer)?;
    Ok(())
}
