// MurmurHash3's last mix of 64 bits, and the hash of a key. The notice of the original is in NOTICE.
ghost use Rattle.std.specs.Prelude.{◌≡◌};
ghost use Rattle.arith.specs.Murmur3.{mix64_of, hash_of};

use words::wrapping_mul;

#[tactic(auto, unfolding(crate::specs::Murmur3::mix64_of, crate::specs::Steps::xorshift, crate::specs::Steps::times))]
pub fn mix64(key: u64) -> u64
    ensures { result ≡ mix64_of key }
{
    let a = wrapping_mul(key ^ (key >> 33), 0xff51_afd7_ed55_8ccd);
    let b = wrapping_mul(a ^ (a >> 33), 0xc4ce_b9fe_1a85_ec53);
    b ^ (b >> 33)
}

// The hash of a key under a seed.
#[tactic(auto, unfolding(crate::specs::Murmur3::hash_of))]
pub fn mix(key: u64, seed: u64) -> u64
    ensures { result ≡ hash_of key seed }
{
    mix64(key.wrapping_add(seed))
}
