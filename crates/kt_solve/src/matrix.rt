ghost use Rattle.std.specs.Prelude.{◌≡◌, ◌≢◌, ℕ, ◌+◌, ◌*◌, ◌<◌, ◌≤◌, true, false, ◌&&◌, length, sum, IfOk, replicate};
ghost use Rattle.kt_solve.specs.Chains.{IsChained};
ghost use Rattle.kt_solve.specs.Flow.{after, IsWithin};
ghost use Rattle.kt_solve.specs.Words.{word_bit, row_bit};

use crate::apply::apply;
use crate::chains::EffectChains;
use crate::lanes::meet_changes;
use crate::problem::Problem;
use std::alloc::{AllocError, Global};

/// Takes a state into the row of a node, and says whether a bit went. A row has as many words as the state.
pub(crate) fn meet_row(words: &mut [u64], node: u32, state: &[u64]) -> bool
    requires { node * length state.now + length state.now ≤ length words.old }
    ensures others { (n q : ℕ) → n ≢ node → q < 64 * length state.now → row_bit words.new (length state.now) n q ≡ row_bit words.old (length state.now) n q }
    ensures row { (q : ℕ) → q < 64 * length state.now → row_bit words.new (length state.now) node q ≡ (row_bit words.old (length state.now) node q && word_bit state.now q) }
    ensures same { result ≡ false → words.new ≡ words.old }
    ensures fell { result ≡ true → sum words.new < sum words.old }
{
    let width = state.len();
    let start = node as usize * width;
    meet_changes(&mut words[start..start + width], state)
}

/// Writes a state over the row of a node.
pub(crate) fn put_row(words: &mut [u64], node: u32, state: &[u64])
    requires { node * length state.now + length state.now ≤ length words.old }
    ensures others { (n q : ℕ) → n ≢ node → q < 64 * length state.now → row_bit words.new (length state.now) n q ≡ row_bit words.old (length state.now) n q }
    ensures row { (q : ℕ) → q < 64 * length state.now → row_bit words.new (length state.now) node q ≡ word_bit state.now q }
{
    let width = state.len();
    let start = node as usize * width;
    words[start..start + width].copy_from_slice(state);
}

/// Gives the state after a node's effects, from the row of the node.
pub(crate) fn apply_row(
    p: &Problem,
    chains: &EffectChains,
    node: u32,
    words: &[u64],
    out: &mut [u64],
)
    requires within { IsWithin p.now }
    requires node { node < p.now.nodes }
    requires chains { IsChained p.now.nodes p.now.effects chains.now.first.items chains.now.next.items }
    requires row { node * length out.old + length out.old ≤ length words.now }
    requires wide { p.now.pairs ≤ 64 * length out.old }
    ensures { (q : ℕ) → q < p.now.pairs → word_bit out.new q ≡ after p.now node (row_bit words.now (length out.old) node) q }
{
    let width = out.len();
    let start = node as usize * width;
    apply(p, chains, node, &words[start..start + width], out);
}
