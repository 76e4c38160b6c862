//! Words that look random, by SplitMix64: each is found by its number, without those before it.
#![tactic(auto)]

ghost use Rattle.std.specs.Prelude.{◌≡◌};
ghost use Rattle.ss_gen.specs.Word.{seed_of, word_of};

use rand_core::{Rng, SeedableRng};
use rand_xoshiro::SplitMix64;

const STRIDE: u64 = 0x9e37_79b9_7f4a_7c15;

// The state of SplitMix64 before a word.
fn seed(number: u64, n: u64) -> u64
    ensures { result ≡ seed_of number n }
{
    number.wrapping_add(n.wrapping_mul(STRIDE))
}

/// Word `n` of a number: the first word of SplitMix64 that is seeded with the eight little-endian bytes of
/// `number + n * 0x9E3779B97F4A7C15` modulo 2^64. It takes no memory. The numbering is this project's own.
pub fn word(number: u64, n: u64) -> u64
    ensures { result ≡ word_of number n }
{
    SplitMix64::seed_from_u64(seed(number, n)).next_u64()
}

#[cfg(test)]
mod tests;
