// Lists of keys, the digest of fingerprints, and the filter at either width, for the programs that run the filter and compare what they
// print. These functions are proved safe; what they answer is compared, not promised.
#![tactic(auto)]

mod width;

use arith::murmur3::mix;
use arith::splitmix64::seed;
pub use width::Width;

// The digest of no bytes.
const OF_NOTHING: u64 = 14695981039346656037;

// mix64(n * 2^32 + i + 1) for each place i, where n is the number of places.
pub fn of_size(keys: &mut [u64]) {
    let size = keys.len() as u64;
    for (i, key) in keys.iter_mut().enumerate() {
        *key = mix(i as u64 + 1, size << 32);
    }
}

// Keys from 0 on, of which those at places i - 1 and i share their slots in attempt i: so m + 1 of them are stuck in attempts 1 to m.
pub fn chain(keys: &mut [u64]) {
    let mut next = 0;
    for (attempt, key) in (1..).zip(keys) {
        *key = next;
        next = neighbour(next, attempt);
    }
}

// The key whose hash in this attempt is another in bit 32 only, which no slot looks at but by a carry.
fn neighbour(key: u64, attempt: u32) -> u64 {
    of_hash(mix(key, seed(attempt)) ^ 0x1_0000_0000, attempt)
}

// The key that has this hash in this attempt.
pub fn of_hash(hash: u64, attempt: u32) -> u64 {
    unmix64(hash).wrapping_sub(seed(attempt))
}

// `mix64` backwards: each factor is the inverse, modulo 2^64, of the one that `mix64` multiplies by.
fn unmix64(hash: u64) -> u64 {
    let a = (hash ^ (hash >> 33)).wrapping_mul(0x9cb4_b2f8_1293_37db);
    let b = (a ^ (a >> 33)).wrapping_mul(0x4f74_430c_22a5_4005);
    b ^ (b >> 33)
}

// FNV-1a in 64 bits.
pub fn digest<W: Width>(fingerprints: &[W]) -> u64 {
    fingerprints
        .iter()
        .fold(OF_NOTHING, |digest, fingerprint| fingerprint.feed(digest))
}
