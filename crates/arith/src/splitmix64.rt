// splitmix64, and the seeds of the attempts.
ghost use Rattle.std.specs.Prelude.{◌≡◌};
ghost use Rattle.arith.specs.SplitMix64.{output_of, seed_of};

use words::wrapping_mul;

// What the generator puts out at a state.
#[tactic(auto, unfolding(crate::specs::SplitMix64::output_of, crate::specs::Steps::xorshift, crate::specs::Steps::times))]
pub fn output(state: u64) -> u64
    ensures { result ≡ output_of state }
{
    let a = wrapping_mul(state ^ (state >> 30), 0xbf58_476d_1ce4_e5b9);
    let b = wrapping_mul(a ^ (a >> 27), 0x94d0_49bb_1331_11eb);
    b ^ (b >> 31)
}

// The seed of an attempt by its number. Each output adds the same step to the state, so it is reached at once.
pub fn seed(attempt: u32) -> u64
    ensures { result ≡ seed_of attempt }
{
    let steps = wrapping_mul(attempt as u64, 0x9e37_79b9_7f4a_7c15);
    output(steps.wrapping_add(1))
}
