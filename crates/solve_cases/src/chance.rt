ghost use Rattle.std.specs.Prelude.{◌<◌};

use crate::compare::{compare, solve_given};
use crate::given::{Fault, Given};
use kt_solve::{Edge, Effect, Transfer};
use rand_core::utils::NextWord;
use rand_pcg::Pcg32;
use std::alloc::Global;

/// A number below a bound.
fn below(chance: &mut Pcg32, bound: u32) -> u32
    requires { 0 < bound }
    ensures { result < bound }
{
    chance.next_word() % bound
}

/// An edge between any two nodes, or three times out of four, one onwards.
fn edge(chance: &mut Pcg32, nodes: u32) -> Edge
    requires { 0 < nodes }
{
    let from = below(chance, nodes);
    let to = below(chance, nodes);
    if from > to && below(chance, 4) > 0 {
        Edge { from: to, to: from }
    } else {
        Edge { from, to }
    }
}

/// Any effect on a run of pairs, half of the time that of setting one.
fn effect(chance: &mut Pcg32, nodes: u32, pairs: u32) -> Effect
    requires nodes { 0 < nodes }
    requires pairs { 0 < pairs }
{
    let node = below(chance, nodes);
    let first = below(chance, pairs);
    let most = (pairs - first).min(3);
    let count = below(chance, most + 1);
    let transfer = match below(chance, 6) {
        0 => Transfer::Keep,
        1 => Transfer::Clear,
        2 => Transfer::CopyFrom(below(chance, (pairs - count).saturating_add(1))),
        _ => Transfer::Set,
    };
    Effect {
        node,
        first,
        count,
        transfer,
    }
}

/// A graph of at most so many nodes and pairs.
fn graph(alloc: Global, chance: &mut Pcg32, nodes: u32, pairs: u32) -> Result<Given, Fault> {
    let nodes = 1 + below(chance, nodes.clamp(1, 1000));
    let pairs = 1 + below(chance, pairs.clamp(1, 1000));
    let entry = below(chance, nodes) / 4;
    let mut given = Given::new(alloc, "", nodes, pairs, entry)?;
    for _ in 0..below(chance, 2 * nodes + 1) {
        given.edges.push(edge(chance, nodes))?;
    }
    for _ in 0..below(chance, 2 * nodes + 1) {
        given.effects.push(effect(chance, nodes, pairs))?;
    }
    Ok(given)
}

/// How many random graphs there were, on how many of them `solve_once` ran, and how often rows differed.
#[derive(Clone, Copy, Debug, Default)]
struct Tally {
    once: u64,
    other_once: u64,
    other_paths: u64,
}

impl Tally {
    /// Solves and compares one more graph.
    fn add(&mut self, alloc: Global, given: &Given) -> Result<(), Fault> {
        let (p, rows) = solve_given(alloc, given)?;
        let comparison = compare(alloc, given, &p, &rows)?;
        self.once = self
            .once
            .saturating_add(u64::from(comparison.once.is_some()));
        self.other_once = self
            .other_once
            .saturating_add(u64::from(comparison.once == Some(false)));
        self.other_paths = self
            .other_paths
            .saturating_add(u64::from(comparison.paths != Some(true)));
        Ok(())
    }
}

/// Compares the rows of random graphs; the counts are those of graphs, and the most nodes and pairs.
pub fn compare_random(
    alloc: Global,
    name: &str,
    seed: u64,
    counts: (u32, u32, u32),
) -> Result<String, Fault> {
    let (graphs, nodes, pairs) = counts;
    let mut chance = Pcg32::new(seed, 54);
    let mut tally = Tally::default();
    for _ in 0..graphs {
        let given = graph(alloc, &mut chance, nodes, pairs)?;
        tally.add(alloc, &given)?;
    }
    Ok(format!(in alloc;
        "{name}: {graphs} graphs; other rows along paths {}; solve_once on {}, other rows {}",
        tally.other_paths, tally.once, tally.other_once,
    )?)
}
