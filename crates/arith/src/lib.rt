// The arithmetic of the filter, one file for each of the Rust's: from a key and an attempt to a hash, from a hash to its
// fingerprint and its three slots.
#![tactic(auto)]

pub mod fingerprint;
pub mod murmur3;
pub mod slots;
pub mod splitmix64;
