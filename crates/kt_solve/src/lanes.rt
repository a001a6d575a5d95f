ghost use Rattle.std.specs.Prelude.{◌≡◌, ℕ, ◌+◌, ◌<◌, ◌≤◌, ◌↔◌, true, false, IsTrue, length, slice_index, sum, bit_and};

use std::simd::u64x4;

/// Meets the four words from `at` on.
fn meet_four(into: &mut [u64], from: &[u64], at: usize)
    requires lens { length into.old ≡ length from.now }
    requires at { at + 4 ≤ length into.old }
    ensures below { (k : ℕ) → k < at → slice_index into.new k ≡ slice_index into.old k }
    ensures four { (j : ℕ) → j < 4 → slice_index into.new (at + j) ≡ bit_and (slice_index into.old (at + j)) (slice_index from.now (at + j)) }
    ensures above { (k : ℕ) → at + 4 ≤ k → slice_index into.new k ≡ slice_index into.old k }
{
    let both = u64x4::from_slice(&into[at..]) & u64x4::from_slice(&from[at..]);
    both.copy_to_slice(&mut into[at..]);
}

/// Leaves in each word of `into` exactly the bits that both rows have: the intersection, in lanes of four words and
/// then word by word. It takes no memory.
pub fn meet(into: &mut [u64], from: &[u64])
    requires { length into.old ≡ length from.now }
    ensures { (k : ℕ) → slice_index into.new k ≡ bit_and (slice_index into.old k) (slice_index from.now k) }
{
    let mut at = 0;
    'lanes: while into.len() - at >= 4 {
        meet_four(into, from, at);
        at += 4;
    }
    for k in at..into.len() {
        into[k] &= from[k];
    }
}

/// Whether a row has only bits that the other has.
fn is_within(row: &[u64], other: &[u64]) -> bool
    requires { length row.now ≡ length other.now }
    ensures { IsTrue result ↔ ((k : ℕ) → k < length row.now → bit_and (slice_index row.now k) (slice_index other.now k) ≡ slice_index row.now k) }
{
    let mut within = true;
    for k in 0..row.len() {
        if row[k] & other[k] != row[k] {
            within = false;
        }
    }
    within
}

/// Meets a row into another, and says whether a bit went.
pub(crate) fn meet_changes(into: &mut [u64], from: &[u64]) -> bool
    requires { length into.old ≡ length from.now }
    ensures words { (k : ℕ) → slice_index into.new k ≡ bit_and (slice_index into.old k) (slice_index from.now k) }
    ensures same { result ≡ false → into.new ≡ into.old }
    ensures fell { result ≡ true → sum into.new < sum into.old }
{
    if is_within(into, from) {
        return false;
    }
    meet(into, from);
    true
}
