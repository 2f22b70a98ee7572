// Holds `bfuse8::build` and `bfuse16::build` to the Rust's answers where there is no Rust. The lists of keys are made here again and
// built at limit 1,000, and both answers are printed in the words of the Rust's list. That list is the file `stdout`: tools/make-replay
// writes it from the Rust, and nothing ever writes it from what this program prints.
#![tactic(auto)]

mod answer;
mod special;

use capacity::MAX_KEYS;
use std::io;

const MOST_KEYS: usize = MAX_KEYS as usize;

fn head(rt: &impl Print) -> io::Result<()> {
    println!(rt;
        "# Made by tools/make-replay: what try_from of BinaryFuse8 and BinaryFuse16 of the Rust crate xorf 0.13.0 answers, built for release."
    )?;
    println!(rt;
        "# A line is: 0 n, or 1 n and n keys; then for 8 bits, and again for 16: seed, segment length, segment count length, digest."
    )?;
    println!(rt;
        "# After 0 n the keys are mix64(n * 2^32 + i + 1) for i = 0 .. n-1. Four zeros: no attempt from 1 to 1000 is free."
    )?;
    println!(rt;
        "# The digest is that of the fingerprints' bytes, the low byte of each first. It begins as 14695981039346656037;"
    )?;
    println!(rt;
        "# each byte is xored into it, then it is multiplied by 1099511628211 modulo 2^64."
    )
}

fn of_every_size(rt: &impl Print) -> io::Result<()> {
    let mut room = [0; MOST_KEYS];
    for size in 0..=MOST_KEYS {
        let keys = &mut room[..size];
        samples::of_size(keys);
        print!(rt; "0 {size}")?;
        answer::print(rt, keys)?;
    }
    Ok(())
}

fn main(rt: HostRuntime) -> io::Result<()> {
    head(&rt)?;
    of_every_size(&rt)?;
    special::small(&rt)?;
    special::with_hash_zero(&rt)?;
    special::chains(&rt)
}
