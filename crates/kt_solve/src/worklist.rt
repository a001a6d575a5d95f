ghost use Rattle.std.specs.Prelude.{◌≡◌, ◌≢◌, ℕ, ◌+◌, ◌*◌, ◌<◌, ◌≤◌, true, false, length, slice_index, set, replicate, IfOk};
ghost use Rattle.std.specs.List.{All};
ghost use Rattle.kt_solve.specs.declared.mark.Mark.TheVariants.{Unreached, Waiting, Read};
ghost use Rattle.kt_solve.specs.Marks.{is_reached, is_waiting, mark_at};
ghost use Rattle.kt_solve.specs.Search.{Advances, IsAfter, IsDone, IsOver, IsSearch, Spreads};
ghost use Rattle.kt_solve.specs.Table.{Solves, table_of};
ghost use Rattle.kt_solve.specs.Walks.{IsListing};
ghost use Rattle.kt_solve.specs.Words.{word_bit, row_bit};

use crate::chains::{EffectChains, chain_effects};
use crate::mark::Mark;
use crate::matrix::{apply_row, meet_row, put_row};
use crate::postorder::reverse_postorder;
use crate::problem::{NoMemory, Problem};
use crate::rows::Rows;
use crate::steps::Steps;
use std::alloc::{AllocError, Global};
use std::marker::Brand;
use std::sync::ledger::{Blank, Ledger};

/// Takes a state over an edge into the row of its end, and says whether that changed a row or reached a node.
pub(crate) fn spread(to: u32, out: &[u64], marks: &mut [Mark], words: &mut [u64]) -> bool
    requires node { to < length marks.old }
    requires row { to * length out.now + length out.now ≤ length words.old }
    ensures spreads { (pairs : ℕ) → pairs ≤ 64 * length out.now → Spreads pairs (word_bit out.now) to marks.old marks.new (row_bit words.old (length out.now)) (row_bit words.new (length out.now)) result }
    ensures advances { Advances result marks.old marks.new words.old words.new }
    ensures same { result ≡ false → words.new ≡ words.old }
{
    let at = to as usize;
    let fell = meet_row(words, to, out);
    if fell || !marks[at].is_reached() {
        marks[at] = Mark::Waiting;
        true
    } else {
        false
    }
}

/// Reads the edges of a reached node, and says whether that changed a row or reached a node.
fn visit<L: Ledger>(
    p: &Problem,
    chains: &EffectChains,
    node: u32,
    marks: &mut [Mark],
    words: &mut [u64],
    out: &mut [u64],
    steps: &mut Steps<L>,
) -> bool
    requires over { IsOver p.now chains.now.first.items chains.now.next.items words.old out.old }
    requires search { IsSearch p.now marks.old (row_bit words.old (length out.old)) }
    requires node { node < p.now.nodes }
    requires reached { is_reached (mark_at marks.old node) ≡ true }
    ensures search { IsSearch p.now marks.new (row_bit words.new (length out.old)) }
    ensures advances { Advances result marks.old marks.new words.old words.new }
    ensures marks { result ≡ false → marks.new ≡ set marks.old node Read }
{
    marks[node as usize] = Mark::Read;
    apply_row(p, chains, node, words, out);
    let mut changed = false;
    let mut link = p.last_link(node);
    while link > 0 {
        let next = p.read(link, steps);
        if spread(next.edge.to, out, marks, words) {
            changed = true;
        }
        link = next.before;
    }
    changed
}

/// Visits each waiting node in the order, and says whether that changed a row or reached a node.
fn sweep<L: Ledger>(
    p: &Problem,
    chains: &EffectChains,
    order: &[u32],
    marks: &mut [Mark],
    words: &mut [u64],
    out: &mut [u64],
    steps: &mut Steps<L>,
) -> bool
    requires over { IsOver p.now chains.now.first.items chains.now.next.items words.old out.old }
    requires search { IsSearch p.now marks.old (row_bit words.old (length out.old)) }
    requires order { All (λ (n : ℕ). n < p.now.nodes) order.now }
    ensures search { IsSearch p.now marks.new (row_bit words.new (length out.old)) }
    ensures advances { Advances result marks.old marks.new words.old words.new }
    ensures done { result ≡ false → (k : ℕ) → k < length order.now → is_waiting (mark_at marks.new (slice_index order.now k)) ≡ false }
{
    let mut changed = false;
    for node in order {
        if marks[*node as usize].is_waiting() && visit(p, chains, *node, marks, words, out, steps) {
            changed = true;
        }
    }
    changed
}

/// Sweeps until no node waits.
fn run<L: Ledger>(
    p: &Problem,
    chains: &EffectChains,
    order: &[u32],
    marks: &mut [Mark],
    words: &mut [u64],
    out: &mut [u64],
    steps: &mut Steps<L>,
)
    requires over { IsOver p.now chains.now.first.items chains.now.next.items words.old out.old }
    requires search { IsSearch p.now marks.old (row_bit words.old (length out.old)) }
    requires order { IsListing p.now.nodes order.now }
    ensures search { IsSearch p.now marks.new (row_bit words.new (length out.old)) }
    ensures done { IsDone marks.new }
{
    let mut again = true;
    while again {
        again = sweep(p, chains, order, marks, words, out, steps);
    }
}

/// Marks the entry, before which no pair is set.
pub(crate) fn start(entry: u32, nothing: &[u64], marks: &mut [Mark], words: &mut [u64])
    requires node { entry < length marks.old }
    requires row { entry * length nothing.now + length nothing.now ≤ length words.old }
    ensures marks { marks.new ≡ set marks.old entry Waiting }
    ensures others { (n q : ℕ) → n ≢ entry → q < 64 * length nothing.now → row_bit words.new (length nothing.now) n q ≡ row_bit words.old (length nothing.now) n q }
    ensures row { (q : ℕ) → q < 64 * length nothing.now → row_bit words.new (length nothing.now) entry q ≡ word_bit nothing.now q }
{
    marks[entry as usize] = Mark::Waiting;
    put_row(words, entry, nothing);
}

/// Turns each row from the state before its node's effects to the one after them.
pub(crate) fn finish(p: &Problem, chains: &EffectChains, words: &mut [u64], out: &mut [u64])
    requires { IsOver p.now chains.now.first.items chains.now.next.items words.old out.old }
    ensures { (n : ℕ) → n < p.now.nodes → IsAfter p.now n (row_bit words.old (length out.old) n) (row_bit words.new (length out.old) n) }
{
    for node in 0..p.nodes() {
        apply_row(p, chains, node, words, out);
        put_row(words, node, out);
    }
}

/// Finds all rows, over marks and rows in their first state.
fn search<L: Ledger>(
    p: &Problem,
    chains: &EffectChains,
    order: &[u32],
    marks: &mut [Mark],
    words: &mut [u64],
    out: &mut [u64],
    steps: &mut Steps<L>,
)
    requires over { IsOver p.now chains.now.first.items chains.now.next.items words.old out.old }
    requires order { IsListing p.now.nodes order.now }
    requires marks { marks.old ≡ replicate p.now.nodes Unreached }
    requires words { words.old ≡ replicate (p.now.nodes * length out.old) 18446744073709551615 }
    requires out { out.old ≡ replicate (length out.old) 0 }
    ensures { Solves p.now (table_of p.now.pairs (length out.old) marks.new words.new) }
{
    start(p.entry(), out, marks, words);
    run(p, chains, order, marks, words, out, steps);
    finish(p, chains, words, out);
}

/// How many words a row of so many pairs takes.
pub(crate) fn row_width(pairs: u32) -> usize
    ensures wide { pairs ≤ 64 * result }
    ensures small { 64 * result < pairs + 64 }
{
    (pairs as usize).div_ceil(64)
}

/// Solves a problem, and counts the edges that it reads.
fn solve_counted<L: Ledger>(alloc: Global, p: &Problem, blank: Blank) -> Result<Rows, NoMemory>
    requires name { blank.name ≡ L.name }
    requires parts { blank.parts ≡ L.parts }
    requires some { 0 < blank.parts }
    ensures { IfOk result (λ rows. Solves p.now rows) }
{
    let nodes = p.nodes() as usize;
    let mut steps = Steps::<L>::new(blank);
    let width = row_width(p.pairs());
    let chains = chain_effects(alloc, p.nodes(), p.effects())?;
    let order = reverse_postorder(alloc, p, &mut steps)?;
    let mut marks = vec![in alloc; Mark::Unreached; nodes]?;
    let mut words = vec![in alloc; u64::MAX; nodes * width]?;
    let mut out = vec![in alloc; 0u64; width]?;
    search(
        p, &chains, &order, &mut marks, &mut words, &mut out, &mut steps,
    );
    Ok(Rows {
        pairs: p.pairs(),
        width,
        marks,
        words,
    })
}

/// Solves a problem: the meet over all paths. Its rows say which nodes are reached, and which pairs are set along
/// every path to them; both answers are exact. NoMemory where there is none for the rows or the order of the nodes.
pub fn solve(alloc: Global, p: &Problem) -> Result<Rows, NoMemory>
    ensures { IfOk result (λ rows. Solves p.now rows) }
{
    solve_counted::<Brand>(alloc, p, Blank::new(1))
}
