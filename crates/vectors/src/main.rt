// Published vectors of the two hashes, computed by our code and held to the file `stdout`, where they stand as published.
#![tactic(auto)]

ghost use Rattle.std.specs.Prelude.{◌≤◌, length};

use arith::murmur3::mix64;
use arith::splitmix64::output;
use std::io;
use words::wrapping_mul;

// The generator's first five outputs from a state, which takes a step before each.
fn five_outputs(rt: &impl Print, start: u64) -> io::Result<()> {
    println!(rt; "splitmix64 from state {start}")?;
    let mut state = start;
    for _ in 0..5 {
        state = state.wrapping_add(0x9e37_79b9_7f4a_7c15);
        println!(rt; "{}", output(state))?;
    }
    Ok(())
}

// MurmurHash3's 128 bits (x64) of a text of at most eight bytes. So short a text is one word, its little-endian number, and two runs
// of fmix64, our `mix64`, finish it. The products are our own `wrapping_mul` too, and not the library's, so that the vectors test it.
fn murmur3(rt: &impl Print, text: &[u8], seed: u64) -> io::Result<()>
    requires { length text.now ≤ 8 }
{
    let size = text.len();
    let mut bytes = [0; 8];
    bytes[..size].copy_from_slice(text);
    let scattered = wrapping_mul(u64::from_le_bytes(bytes), 0x87c3_7b91_1142_53d5);
    let word = wrapping_mul(scattered.rotate_left(31), 0x4cf5_ad43_2745_937f);
    let second = seed ^ size as u64;
    let low = (word ^ second).wrapping_add(second);
    let high = second.wrapping_add(low);
    let high_mixed = mix64(high);
    let first_half = mix64(low).wrapping_add(high_mixed);
    let second_half = high_mixed.wrapping_add(first_half);
    println!(rt; "{first_half:016x} {second_half:016x}")
}

// splitmix64 from state 1234567: Rosetta Code, "Pseudo-random numbers/Splitmix64"; from state 1477776061723855037: the test of `SplitMix64`
// in the Rust crate rand_xoshiro, made with Vigna's C. MurmurHash3: `Murmur3Hash128Test` of Google's Guava.
fn main(rt: HostRuntime) -> io::Result<()> {
    five_outputs(&rt, 1234567)?;
    five_outputs(&rt, 1477776061723855037)?;
    println!(rt;
        "MurmurHash3 of hell, hello, hello_, hello_w, hello_wo (_ is a space), seeds 0 to 4"
    )?;
    murmur3(&rt, b"hell", 0)?;
    murmur3(&rt, b"hello", 1)?;
    murmur3(&rt, b"hello ", 2)?;
    murmur3(&rt, b"hello w", 3)?;
    murmur3(&rt, b"hello wo", 4)
}
