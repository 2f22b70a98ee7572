// Products of 64-bit words, in steps of 64 bits. Each step is a product of two numbers of 32 bits, so none of them overflows.
// They stand in place of the library's `wrapping_mul` and `u128`: docs/DECISIONS.md names this form.
#![tactic(auto)]

ghost use Rattle.std.specs.Prelude.{◌≡◌, ◌*◌, ◌/◌, ◌%◌, ◌^◌};

// a × b, with the carry out of 64 bits dropped.
#[tactic(auto, using(crate::specs::Modulo::low_product))]
pub fn wrapping_mul(a: u64, b: u64) -> u64
    ensures { result ≡ (a * b) % 2 ^ 64 }
{
    let a_low = a % 0x1_0000_0000;
    let a_high = a >> 32;
    let b_low = b % 0x1_0000_0000;
    let b_high = b >> 32;
    let cross = (a_high * b_low).wrapping_add(a_low * b_high);
    (a_low * b_low).wrapping_add(cross << 32)
}

// floor(hash × n / 2^64): 64 by 32 bits in two halves, each product within u64.
#[tactic(auto, using(crate::specs::Modulo::top_product))]
pub fn mul_high(hash: u64, n: u32) -> u32
    ensures { result ≡ hash * n / 2 ^ 64 }
{
    let low = (hash % 0x1_0000_0000) as u32;
    let high = (hash >> 32) as u32;
    let low_product = u64::from(low) * u64::from(n);
    let high_product = u64::from(high) * u64::from(n);
    ((high_product + (low_product >> 32)) >> 32) as u32
}
