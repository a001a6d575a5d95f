ghost use Rattle.std.specs.Prelude.{◌≡◌, ℕ, ◌+◌, ◌-◌, ◌*◌, ◌/◌, ◌%◌, ◌^◌, ◌<◌, ◌≤◌, if◌then◌else◌, length};
ghost use Rattle.kt_solve.specs.Chains.{IsChained};
ghost use Rattle.kt_solve.specs.Flow.{moved, outcome, in_range, after, transfer_of, IsWithin, RangeFits};
ghost use Rattle.kt_solve.specs.Words.{bit_of, word_bit};

use crate::chains::EffectChains;
use crate::effect::{Effect, Transfer};
use crate::problem::Problem;
use crate::words::{bits_between, bits_from, put_bits};

/// The bits that an effect gives to the pairs from `pair` to the end of their word, at their places in that word.
fn bits_given(effect: &Effect, before: &[u64], pair: u32) -> u64
    requires fits { RangeFits 4294967295 effect.now }
    requires first { effect.now.first ≤ pair }
    requires pair { pair < effect.now.first + effect.now.count }
    requires row { pair / 64 < length before.now }
    ensures { (q : ℕ) → pair ≤ q → q / 64 ≡ pair / 64 → bit_of result (q % 64) ≡ outcome (moved effect.now.transfer (q - effect.now.first)) (word_bit before.now) q }
{
    match effect.transfer {
        Transfer::Keep => before[(pair / 64) as usize],
        Transfer::Set => u64::MAX,
        Transfer::Clear => 0,
        Transfer::CopyFrom(source) => bits_from(before, source + (pair - effect.first))
            << (pair % 64),
    }
}

/// Writes the state after one effect over `out`, a word at a time.
fn apply_one(effect: &Effect, before: &[u64], out: &mut [u64])
    requires fits { RangeFits 4294967295 effect.now }
    requires row { effect.now.first + effect.now.count ≤ 64 * length before.now }
    requires lens { length out.old ≡ length before.now }
    ensures { (q : ℕ) → word_bit out.new q ≡ (if in_range effect.now q then outcome (moved effect.now.transfer (q - effect.now.first)) (word_bit before.now) q else word_bit out.old q) }
{
    let end = effect.first + effect.count;
    let mut pair = effect.first;
    while pair < end {
        let low = pair % 64;
        let count = (end - pair).min(64 - low);
        let bits = bits_given(effect, before, pair);
        put_bits(
            out,
            (pair / 64) as usize,
            bits,
            bits_between(low, low + count),
        );
        pair += count;
    }
}

/// Gives the state after a node's effects, from the state before them.
pub(crate) fn apply(p: &Problem, chains: &EffectChains, node: u32, before: &[u64], out: &mut [u64])
    requires within { IsWithin p.now }
    requires node { node < p.now.nodes }
    requires chains { IsChained p.now.nodes p.now.effects chains.now.first.items chains.now.next.items }
    requires row { p.now.pairs ≤ 64 * length before.now }
    requires lens { length out.old ≡ length before.now }
    ensures { (q : ℕ) → word_bit out.new q ≡ after p.now node (word_bit before.now) q }
{
    out.copy_from_slice(before);
    let effects = p.effects();
    let mut at = chains.first[node as usize];
    while at < effects.len() {
        apply_one(&effects[at], before, out);
        at = chains.next[at];
    }
}

/// The transfer of a pair at a node.
pub(crate) fn transfer_at(p: &Problem, chains: &EffectChains, node: u32, pair: u32) -> Transfer
    requires within { IsWithin p.now }
    requires node { node < p.now.nodes }
    requires chains { IsChained p.now.nodes p.now.effects chains.now.first.items chains.now.next.items }
    ensures { result ≡ transfer_of p.now node pair }
{
    let effects = p.effects();
    let mut transfer = Transfer::Keep;
    let mut at = chains.first[node as usize];
    while at < effects.len() {
        let effect = &effects[at];
        if effect.covers(pair) {
            transfer = effect.transfer.moved(pair - effect.first);
        }
        at = chains.next[at];
    }
    transfer
}
