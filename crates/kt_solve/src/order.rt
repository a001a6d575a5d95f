ghost use Rattle.std.specs.Prelude.{◌≡◌, ℕ, ◌+◌, ◌-◌, ◌<◌, ◌≤◌, ◌↔◌, IsTrue, List, length, slice_index_or, slice_index, IfOk};
ghost use Rattle.std.specs.List.{All};
ghost use Rattle.kt_solve.specs.declared.effect.Transfer.TheVariants.{Clear};
ghost use Rattle.kt_solve.specs.Chains.{IsChained};
ghost use Rattle.kt_solve.specs.Flow.{HasEdge, IsWithin, transfer_of};
ghost use Rattle.kt_solve.specs.Orders.{CanLose, CanSolveOnce, CopiesNothing, HasLoops, IsLoop, IsOrder, place_of};
ghost use Rattle.kt_solve.specs.Sweeps.{ArePlaces};

use crate::apply::transfer_at;
use crate::chains::{EffectChains, chain_effects};
use crate::effect::Transfer;
use crate::problem::{NoMemory, Problem};
use crate::steps::Steps;
use std::alloc::{AllocError, Global};
use std::marker::Brand;
use std::sync::ledger::{Blank, Ledger};

/// The place of each node in the order, its length for a node that it doesn't list.
pub(crate) fn places_of(alloc: Global, nodes: u32, order: &[u32]) -> Result<Vec<u32>, AllocError>
    requires small { length order.now < 4294967296 }
    requires within { All (λ (n : ℕ). n < nodes) order.now }
    ensures { IfOk result (λ v. ArePlaces order.now v.items nodes) }
{
    let mut places = vec![in alloc; order.len() as u32; nodes as usize]?;
    let mut at = order.len();
    while at > 0 {
        at -= 1;
        places[order[at] as usize] = at as u32;
    }
    Ok(places)
}

/// Whether all numbers are below a limit.
fn all_below(numbers: &[u32], limit: u32) -> bool
    ensures { IsTrue result ↔ All (λ (n : ℕ). n < limit) numbers.now }
{
    numbers.iter().all(|n| *n < limit)
}

/// Whether each place of the order is that of the node there.
fn lists_once(order: &[u32], places: &[u32]) -> bool
    requires small { length order.now < 4294967296 }
    requires within { All (λ (n : ℕ). n < length places.now) order.now }
    ensures { IsTrue result ↔ ((i : ℕ) → i < length order.now → slice_index places.now (slice_index order.now i) ≡ i) }
{
    for at in 0..order.len() {
        if places[order[at] as usize] != at as u32 {
            return false;
        }
    }
    true
}

/// Whether no edge leads from a place before `head` to one after `head` and up to `last`.
fn is_closed<L: Ledger>(
    p: &Problem,
    places: &[u32],
    head: u32,
    last: u32,
    steps: &mut Steps<L>,
) -> bool
    requires within { IsWithin p.now }
    requires places { length places.now ≡ p.now.nodes }
    ensures { IsTrue result ↔ ((a b : ℕ) → HasEdge p.now a b → slice_index places.now a < head → head < slice_index places.now b → slice_index places.now b ≤ last → ⊥) }
{
    for k in 0..p.edge_count() {
        let edge = p.read(k + 1, steps).edge;
        let to = places[edge.to as usize];
        if places[edge.from as usize] < head && head < to && to <= last {
            return false;
        }
    }
    true
}

/// Whether a node copies nothing.
fn copies_nothing(p: &Problem, chains: &EffectChains, node: u32) -> bool
    requires within { IsWithin p.now }
    requires node { node < p.now.nodes }
    requires chains { IsChained p.now.nodes p.now.effects chains.now.first.items chains.now.next.items }
    ensures { IsTrue result ↔ ((pair : ℕ) → pair < p.now.pairs → CopiesNothing (transfer_of p.now node pair)) }
{
    for pair in 0..p.pairs() {
        if let Transfer::CopyFrom(_) = transfer_at(p, chains, node, pair) {
            return false;
        }
    }
    true
}

/// Whether `head` clears each pair that a node clears or copies into.
fn clears_lost(p: &Problem, chains: &EffectChains, node: u32, head: u32) -> bool
    requires within { IsWithin p.now }
    requires node { node < p.now.nodes }
    requires head { head < p.now.nodes }
    requires chains { IsChained p.now.nodes p.now.effects chains.now.first.items chains.now.next.items }
    ensures { IsTrue result ↔ ((pair : ℕ) → pair < p.now.pairs → CanLose (transfer_of p.now node pair) → transfer_of p.now head pair ≡ Clear) }
{
    for pair in 0..p.pairs() {
        if transfer_at(p, chains, node, pair).can_lose()
            && transfer_at(p, chains, head, pair) != Transfer::Clear
        {
            return false;
        }
    }
    true
}

/// Whether `head` clears what each node from its place up to `last` can lose.
fn clears_loop(p: &Problem, chains: &EffectChains, order: &[u32], head: u32, last: u32) -> bool
    requires within { IsWithin p.now }
    requires small { length order.now < 4294967296 }
    requires order { All (λ (n : ℕ). n < p.now.nodes) order.now }
    requires head { head < length order.now }
    requires last { last < length order.now }
    requires chains { IsChained p.now.nodes p.now.effects chains.now.first.items chains.now.next.items }
    ensures { IsTrue result ↔ ((i pair : ℕ) → head ≤ i → i ≤ last → pair < p.now.pairs → CanLose (transfer_of p.now (slice_index order.now i) pair) → transfer_of p.now (slice_index order.now head) pair ≡ Clear) }
{
    for at in head..last + 1 {
        if !clears_lost(p, chains, order[at as usize], order[head as usize]) {
            return false;
        }
    }
    true
}

/// Whether an edge from the place `last` back to the place `head` asks for no second sweep.
fn is_loop<L: Ledger>(
    p: &Problem,
    chains: &EffectChains,
    order: &[u32],
    places: &[u32],
    last: u32,
    head: u32,
    steps: &mut Steps<L>,
) -> bool
    requires within { IsWithin p.now }
    requires order { IsOrder p.now order.now }
    requires places { ArePlaces order.now places.now p.now.nodes }
    requires chains { IsChained p.now.nodes p.now.effects chains.now.first.items chains.now.next.items }
    requires head { head < p.now.nodes }
    requires last { last < p.now.nodes }
    ensures { IsTrue result ↔ IsLoop p.now (place_of order.now) (slice_index order.now last) (slice_index order.now head) }
{
    if !is_closed(p, places, head, last, steps) {
        return false;
    }
    if !copies_nothing(p, chains, order[head as usize]) {
        return false;
    }
    clears_loop(p, chains, order, head, last)
}

/// Whether each edge back in the order asks for no second sweep.
fn has_loops<L: Ledger>(
    p: &Problem,
    chains: &EffectChains,
    order: &[u32],
    places: &[u32],
    steps: &mut Steps<L>,
) -> bool
    requires within { IsWithin p.now }
    requires order { IsOrder p.now order.now }
    requires places { ArePlaces order.now places.now p.now.nodes }
    requires chains { IsChained p.now.nodes p.now.effects chains.now.first.items chains.now.next.items }
    ensures { IsTrue result ↔ HasLoops p.now (place_of order.now) }
{
    for k in 0..p.edge_count() {
        let edge = p.read(k + 1, steps).edge;
        let last = places[edge.from as usize];
        let head = places[edge.to as usize];
        if head <= last && !is_loop(p, chains, order, places, last, head, steps) {
            return false;
        }
    }
    true
}

/// Whether each node has its place once, the entry the first.
fn is_order(p: &Problem, order: &[u32], places: &[u32]) -> bool
    requires within { IsWithin p.now }
    requires len { length order.now ≡ p.now.nodes }
    requires numbers { All (λ (n : ℕ). n < p.now.nodes) order.now }
    requires places { ArePlaces order.now places.now p.now.nodes }
    ensures { IsTrue result ↔ IsOrder p.now order.now }
{
    places[p.entry() as usize] == 0 && all_below(places, p.nodes()) && lists_once(order, places)
}

fn test_order<L: Ledger>(
    alloc: Global,
    p: &Problem,
    order: &[u32],
    blank: Blank,
) -> Result<bool, NoMemory>
    requires name { blank.name ≡ L.name }
    requires parts { blank.parts ≡ L.parts }
    requires some { 0 < blank.parts }
    ensures { IfOk result (λ b. IsTrue b ↔ CanSolveOnce p.now order.now) }
{
    let nodes = p.nodes();
    let mut steps = Steps::<L>::new(blank);
    if order.len() != nodes as usize || !all_below(order, nodes) {
        return Ok(false);
    }
    let places = places_of(alloc, nodes, order)?;
    if !is_order(p, order, &places) {
        return Ok(false);
    }
    let chains = chain_effects(alloc, nodes, p.effects())?;
    Ok(has_loops(p, &chains, order, &places, &mut steps))
}

/// Whether `solve_once` may be called with the order. It takes much longer than `solve_once`: for each edge back it
/// looks at every edge, and at each pair of each node of the loop.
pub fn can_solve_once(alloc: Global, p: &Problem, order: &[u32]) -> Result<bool, NoMemory>
    ensures { IfOk result (λ b. IsTrue b ↔ CanSolveOnce p.now order.now) }
{
    test_order::<Brand>(alloc, p, order, Blank::new(1))
}
