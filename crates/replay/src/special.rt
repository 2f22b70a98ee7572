// The lists whose keys are printed: small ones that are stuck at first, keys whose hash is 0, and chains up to the last attempt.
use crate::answer;
use std::io;

fn listed(rt: &impl Print, keys: &[u64]) -> io::Result<()> {
    print!(rt; "1 {}", keys.len())?;
    printing::numbers(rt, keys)?;
    answer::print(rt, keys)
}

pub fn small(rt: &impl Print) -> io::Result<()> {
    for keys in [[2, 4], [26, 76], [327, 461], [2002, 2074], [11039, 22808]] {
        listed(rt, &keys)?;
    }
    for keys in [[7, 13, 0], [51, 559, 0]] {
        listed(rt, &keys)?;
    }
    for keys in [
        [7, 13, 0, 1, 2],
        [18, 413, 0, 1, 2],
        [11173, 11237, 0, 1, 2],
    ] {
        listed(rt, &keys)?;
    }
    Ok(())
}

// The key whose hash is 0 in attempt 1: alone, after a key, and before it and others. The same in attempt 2, with two keys that are stuck
// in attempt 1, and in attempt 3, with three that are stuck in attempts 1 and 2.
pub fn with_hash_zero(rt: &impl Print) -> io::Result<()> {
    let mut stuck = [0; 3];
    samples::chain(&mut stuck);
    let [a, b, c] = stuck;
    let first = samples::of_hash(0, 1);
    listed(rt, &[first])?;
    listed(rt, &[a, first])?;
    listed(rt, &[first, a, 1, 2, 3, 4, 5, 6, 7])?;
    let second = samples::of_hash(0, 2);
    listed(rt, &[second])?;
    listed(rt, &[a, b, second])?;
    listed(rt, &[second, a, b, 1, 2, 3, 4, 5, 6, 7])?;
    let third = samples::of_hash(0, 3);
    listed(rt, &[third])?;
    listed(rt, &[a, b, c, third])?;
    listed(rt, &[third, a, b, c, 1, 2, 3, 4, 5, 6, 7])
}

pub fn chains(rt: &impl Print) -> io::Result<()> {
    let mut keys = [0; 1001];
    samples::chain(&mut keys);
    for size in 2..=9 {
        listed(rt, &keys[..size])?;
    }
    listed(rt, &keys[0..1000])?;
    listed(rt, &keys)
}
