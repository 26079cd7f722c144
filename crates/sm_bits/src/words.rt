// The work on whole words, eight at a time.
ghost use Rattle.std.specs.Prelude.{◌≡◌, ℕ, ◌/◌, ◌%◌, ◌^◌, ◌<◌, ◌≤◌, ◌&&◌, ◌||◌, not, length, slice_index, sum_by, count_ones};
ghost use Rattle.sm_bits.specs.Words.{bit, IsNextBit, IsFirstFilled};

use std::simd::prelude::*;

/// How many words are worked on at a time.
const ROW: usize = 8;

/// Sets in `words` each bit that is set in `other`.
pub(crate) fn unite(words: &mut [u64], other: &[u64])
    requires same { length other.now ≡ length words.old }
    requires rows { length words.old % 8 ≡ 0 }
    ensures { (place : ℕ) → place / 64 < length words.old → bit words.new place ≡ (bit words.old place || bit other.now place) }
{
    let mut at = 0;
    while at < words.len() {
        let row = u64x8::from_slice(&words[at..]) | u64x8::from_slice(&other[at..]);
        row.copy_to_slice(&mut words[at..]);
        at += ROW;
    }
}

/// Clears in `words` each bit that is set in `other`.
pub(crate) fn subtract(words: &mut [u64], other: &[u64])
    requires same { length other.now ≡ length words.old }
    requires rows { length words.old % 8 ≡ 0 }
    ensures { (place : ℕ) → place / 64 < length words.old → bit words.new place ≡ (bit words.old place && not (bit other.now place)) }
{
    let mut at = 0;
    while at < words.len() {
        let row = u64x8::from_slice(&words[at..]) & !u64x8::from_slice(&other[at..]);
        row.copy_to_slice(&mut words[at..]);
        at += ROW;
    }
}

/// How many bits are set.
pub(crate) fn count(words: &[u64]) -> u64
    requires short { length words.now < 2 ^ 32 }
    requires rows { length words.now % 8 ≡ 0 }
    ensures total { result ≡ sum_by count_ones words.now }
    ensures fits { (k : ℕ) → slice_index words.now k < 2 ^ 64 }
{
    let mut total = 0;
    let mut at = 0;
    while at < words.len() {
        total += u64x8::from_slice(&words[at..]).count_ones().reduce_sum();
        at += ROW;
    }
    total
}

/// The first word from that place on with a bit set, or the length.
fn first_filled(words: &[u64], from: usize) -> usize
    requires { from ≤ length words.now }
    ensures { IsFirstFilled words.now from result }
{
    let mut at = from;
    while words.len() - at >= ROW {
        let filled = u64x8::from_slice(&words[at..])
            .simd_ne(u64x8::splat(0))
            .to_bitmask();
        if filled != 0 {
            return at + filled.trailing_zeros() as usize;
        }
        at += ROW;
    }
    first_filled_of_few(words, at)
}

/// The same, word by word.
fn first_filled_of_few(words: &[u64], from: usize) -> usize
    requires { from ≤ length words.now }
    ensures { IsFirstFilled words.now from result }
{
    for at in from..words.len() {
        if words[at] != 0 {
            return at;
        }
    }
    words.len()
}

/// The least place from that one on whose bit is set.
pub(crate) fn next_bit(words: &[u64], from: usize) -> Option<usize>
    requires { length words.now < 2 ^ 32 }
    ensures { IsNextBit words.now from result }
{
    let at = from / 64;
    if at >= words.len() {
        return None;
    }
    let rest = words[at] >> (from % 64);
    if rest != 0 {
        return Some(from + rest.trailing_zeros() as usize);
    }
    let next = first_filled(words, at + 1);
    if next == words.len() {
        return None;
    }
    Some(next * 64 + words[next].trailing_zeros() as usize)
}
