// The bits that stand for a key in the list, at each width: 8 bits in a u8, 16 in a u16.
ghost use Rattle.std.specs.Prelude.{◌≡◌, ℕ, eqb, bit_xor, map, replicate, length, slice_index, EachIndex, ◌+◌, ◌*◌, ◌^◌, ◌<◌};
ghost use Rattle.arith.specs.Fingerprint.{fingerprint_of};
ghost use Rattle.arith.specs.XorAt.{xor_at};

use std::ops::BitXor;

pub trait Fingerprint: Copy + BitXor<Output = Self> {
    // How many bits.
    ghost width: { ℕ };

    // Their number.
    ghost bits: { Self → ℕ };

    // The fingerprint of a hash.
    fn of_hash(hash: u64) -> Self
        ensures { bits result ≡ fingerprint_of width hash };

    fn zero() -> Self
        ensures { bits result ≡ 0 };

    fn is_zero(self) -> bool
        ensures { result ≡ eqb (bits self) 0 };

    // Any two can be xored, bit by bit.
    ghost xors: { (a b : Self) → Self.can_bitxor a b };

    ghost xor_bits: { (a b r : Self) → Self.bitxor_gives a b r → bits r ≡ bit_xor (bits a) (bits b) };

    // A copy can be had, and is no other.
    ghost copies: { (a : Self) → Self.is_infallible a };

    ghost copy_is: { (a b : Self) → Self.is_clone a b → b ≡ a };
}

impl Fingerprint for u8 {
    ghost width = { 8 };

    ghost bits = { λ x. x };

    ghost xors = { λ a b. tt };

    ghost xor_bits = { λ a b r e. e };

    ghost copies = { λ a. tt };

    ghost copy_is = { λ a b e. e };

    #[tactic(auto, unfolding(crate::specs::Fingerprint::fingerprint_of, crate::specs::Steps::xorshift))]
    fn of_hash(hash: u64) -> u8 {
        ((hash ^ (hash >> 32)) % 256) as u8
    }

    fn zero() -> u8 {
        0
    }

    fn is_zero(self) -> bool {
        self == 0_u8
    }
}

impl Fingerprint for u16 {
    ghost width = { 16 };

    ghost bits = { λ x. x };

    ghost xors = { λ a b. tt };

    ghost xor_bits = { λ a b r e. e };

    ghost copies = { λ a. tt };

    ghost copy_is = { λ a b e. e };

    #[tactic(auto, unfolding(crate::specs::Fingerprint::fingerprint_of, crate::specs::Steps::xorshift))]
    fn of_hash(hash: u64) -> u16 {
        ((hash ^ (hash >> 32)) % 65536) as u16
    }

    fn zero() -> u16 {
        0
    }

    fn is_zero(self) -> bool {
        self == 0_u16
    }
}

pub fn clear<F: Fingerprint>(all: &mut [F])
    ensures { map F.bits all.new ≡ replicate (length all.old) 0 }
{
    all.fill(F::zero());
}

// A fingerprint xor those at three slots: it answers yes where nothing is left over.
pub fn left_over<F: Fingerprint>(own: F, all: &[F], slots: [u32; 3]) -> F
    requires { EachIndex slots (λ k. slice_index slots k < length all.now) }
    ensures { F.bits result ≡ xor_at (F.bits own) slots (map F.bits all.now) }
{
    let [first, second, third] = slots;
    own ^ all[first as usize] ^ all[second as usize] ^ all[third as usize]
}
