ghost use Rattle.std.specs.Prelude.{◌≡◌, ℕ, ◌+◌, ◌-◌, ◌*◌, ◌/◌, ◌%◌, ◌<◌, ◌≤◌, ◌&&◌, if◌then◌else◌, nat_eq, nat_le, nat_lt, length, slice_index};
ghost use Rattle.kt_solve.specs.Words.{bit_of, word_bit};

/// A word of a row, 0 past its end.
fn word_at(words: &[u64], at: usize) -> u64
    ensures { result ≡ slice_index words.now at }
{
    if at < words.len() { words[at] } else { 0 }
}

/// The bit of a pair.
pub(crate) fn get_bit(words: &[u64], pair: u32) -> bool
    requires { pair / 64 < length words.now }
    ensures { result ≡ word_bit words.now pair }
{
    (words[(pair / 64) as usize] >> (pair % 64)) & 1 == 1
}

/// The bits of the 64 pairs from `pair` on, as one word.
pub(crate) fn bits_from(words: &[u64], pair: u32) -> u64
    ensures { (i : ℕ) → i < 64 → bit_of result i ≡ word_bit words.now (pair + i) }
{
    let at = (pair / 64) as usize;
    let skipped = pair % 64;
    let low = word_at(words, at) >> skipped;
    if skipped == 0 {
        low
    } else {
        low | (word_at(words, at + 1) << (64 - skipped))
    }
}

/// The bits of a word from `low` up to `high`.
pub(crate) fn bits_between(low: u32, high: u32) -> u64
    requires low { low < 64 }
    requires some { 0 < high }
    requires high { high ≤ 64 }
    ensures { (i : ℕ) → i < 64 → bit_of result i ≡ (nat_le low i && nat_lt i high) }
{
    (u64::MAX << low) & (u64::MAX >> (64 - high))
}

/// Writes the bits of `value` that `mask` has into a word.
pub(crate) fn put_bits(words: &mut [u64], at: usize, value: u64, mask: u64)
    requires { at < length words.old }
    ensures { (q : ℕ) → word_bit words.new q ≡ (if nat_eq (q / 64) at && bit_of mask (q % 64) then bit_of value (q % 64) else word_bit words.old q) }
{
    words[at] = (words[at] & !mask) | (value & mask);
}
