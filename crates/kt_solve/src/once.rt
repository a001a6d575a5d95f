ghost use Rattle.std.specs.Prelude.{◌≡◌, ℕ, ◌+◌, ◌*◌, ◌<◌, ◌≤◌, length, slice_index_or, replicate, IfOk, OnOk, OnErr};
ghost use Rattle.kt_solve.specs.declared.mark.Mark.TheVariants.{Unreached};
ghost use Rattle.kt_solve.specs.Orders.{CanSolveOnce, HasLoops, IsOrder, place_of};
ghost use Rattle.kt_solve.specs.Search.{IsOver};
ghost use Rattle.kt_solve.specs.Sweeps.{ArePlaces, CanPass, IsSettledBelow, IsSweep, edges_from, edges_of};
ghost use Rattle.kt_solve.specs.Table.{Solves, table_of};
ghost use Rattle.kt_solve.specs.Words.{word_bit, row_bit};

use crate::chains::{EffectChains, chain_effects};
use crate::mark::Mark;
use crate::matrix::apply_row;
use crate::order::places_of;
use crate::problem::{NoMemory, Problem};
use crate::rows::Rows;
use crate::steps::Steps;
use crate::worklist::{finish, row_width, spread, start};
use std::alloc::Global;
use std::sync::ledger::Ledger;

/// Reads the edges of a node, and takes its state over those that lead onwards in the order.
fn pass<L: Ledger>(
    p: &Problem,
    places: &[u32],
    node: u32,
    out: &[u64],
    marks: &mut [Mark],
    words: &mut [u64],
    steps: &mut Steps<L>,
)
    requires pass { CanPass p.now (λ n. slice_index_or places.now n 0) node marks.old (row_bit words.old (length out.now)) (word_bit out.now) }
    requires places { length places.now ≡ p.now.nodes }
    requires rows { p.now.nodes * length out.now ≤ length words.old }
    requires wide { p.now.pairs ≤ 64 * length out.now }
    ensures sweep { IsSweep p.now (λ n. slice_index_or places.now n 0) (slice_index_or places.now node 0 + 1) marks.new (row_bit words.new (length out.now)) }
    ensures settled { IsSettledBelow p.now (λ n. slice_index_or places.now n 0) (slice_index_or places.now node 0 + 1) marks.new (row_bit words.new (length out.now)) }
    ensures steps { steps.new ≡ steps.old + edges_from p.now.edges node }
{
    let place = places[node as usize];
    let is_reached = marks[node as usize].is_reached();
    let mut link = p.last_link(node);
    while link > 0 {
        let next = p.read(link, steps);
        let to = next.edge.to;
        if is_reached && places[to as usize] > place {
            let _changed = spread(to, out, marks, words);
        }
        link = next.before;
    }
}

/// Reads the edges of each node, in the order.
fn sweep_once<L: Ledger>(
    p: &Problem,
    chains: &EffectChains,
    order: &[u32],
    places: &[u32],
    marks: &mut [Mark],
    words: &mut [u64],
    out: &mut [u64],
    steps: &mut Steps<L>,
)
    requires over { IsOver p.now chains.now.first.items chains.now.next.items words.old out.old }
    requires order { IsOrder p.now order.now }
    requires places { ArePlaces order.now places.now p.now.nodes }
    requires sweep { IsSweep p.now (λ n. slice_index_or places.now n 0) 0 marks.old (row_bit words.old (length out.old)) }
    ensures sweep { IsSweep p.now (λ n. slice_index_or places.now n 0) p.now.nodes marks.new (row_bit words.new (length out.old)) }
    ensures settled { IsSettledBelow p.now (λ n. slice_index_or places.now n 0) p.now.nodes marks.new (row_bit words.new (length out.old)) }
    ensures steps { steps.new ≡ steps.old + edges_of p.now.edges order.now }
{
    for node in order {
        apply_row(p, chains, *node, words, out);
        pass(p, places, *node, out, marks, words, steps);
    }
}

/// Finds all rows in one sweep, over marks and rows in their first state.
fn search_once<L: Ledger>(
    p: &Problem,
    chains: &EffectChains,
    order: &[u32],
    places: &[u32],
    marks: &mut [Mark],
    words: &mut [u64],
    out: &mut [u64],
    steps: &mut Steps<L>,
)
    requires over { IsOver p.now chains.now.first.items chains.now.next.items words.old out.old }
    requires order { IsOrder p.now order.now }
    requires loops { HasLoops p.now (place_of order.now) }
    requires places { ArePlaces order.now places.now p.now.nodes }
    requires marks { marks.old ≡ replicate p.now.nodes Unreached }
    requires words { words.old ≡ replicate (p.now.nodes * length out.old) 18446744073709551615 }
    requires out { out.old ≡ replicate (length out.old) 0 }
    ensures solves { Solves p.now (table_of p.now.pairs (length out.old) marks.new words.new) }
    ensures steps { steps.new ≡ steps.old + length p.now.edges }
{
    start(p.entry(), out, marks, words);
    sweep_once(p, chains, order, places, marks, words, out, steps);
    finish(p, chains, words, out);
}

/// Solves a problem in one sweep, and gives the same rows as `solve`: reads each edge once, one step each.
///
/// The order lists each node once, the entry first. Of each edge from a node to one at an earlier or the same place it
/// asks that no edge leads from before the loop into it but to its head, that the head copies nothing, and that it
/// clears what the loop can lose; `can_solve_once` tests an order. NoMemory where there is none for the rows; then no edge has been read.
pub fn solve_once<L: Ledger>(
    alloc: Global,
    p: &Problem,
    order: &[u32],
    steps: &mut Steps<L>,
) -> Result<Rows, NoMemory>
    requires { CanSolveOnce p.now order.now }
    ensures rows { IfOk result (λ rows. Solves p.now rows) }
    ensures steps { OnOk result (steps.new ≡ steps.old + length p.now.edges) }
    ensures memory { OnErr result (steps.new ≡ steps.old) }
{
    let nodes = p.nodes() as usize;
    let width = row_width(p.pairs());
    let chains = chain_effects(alloc, p.nodes(), p.effects())?;
    let places = places_of(alloc, p.nodes(), order)?;
    let mut marks = vec![in alloc; Mark::Unreached; nodes]?;
    let mut words = vec![in alloc; u64::MAX; nodes * width]?;
    let mut out = vec![in alloc; 0u64; width]?;
    search_once(
        p, &chains, order, &places, &mut marks, &mut words, &mut out, steps,
    );
    Ok(Rows {
        pairs: p.pairs(),
        width,
        marks,
        words,
    })
}
