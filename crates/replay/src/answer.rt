// One list built at each width, and its answers printed as the Rust's list has them.
use crate::MOST_KEYS;
use answers::Refusal;
use layout::limits::{MAX_SLOTS, MAX_STARTS};
use plan::Built;
use samples::Width;
use scratch::Scratch;
use std::io;

const LIMIT: u32 = 1000;

// The second build is lent the scratch that the first leaves.
pub fn print(rt: &impl Print, keys: &[u64]) -> io::Result<()> {
    let mut bytes = [0; MAX_SLOTS];
    let mut pairs = [0; MAX_SLOTS];
    let mut scratch = Scratch {
        lone: &mut [0; MAX_SLOTS],
        counts: &mut [0; MAX_SLOTS],
        sums: &mut [0; MAX_SLOTS],
        positions: &mut [0; MOST_KEYS],
        order: &mut [0; MOST_KEYS + 1],
        starts: &mut [0; MAX_STARTS],
    };
    let at_8_bits = bfuse8::build(keys, LIMIT, &mut bytes, &mut scratch);
    let at_16_bits = bfuse16::build(keys, LIMIT, &mut pairs, &mut scratch);
    told(rt, at_8_bits, &bytes)?;
    told(rt, at_16_bits, &pairs)?;
    println!(rt)
}

// No free attempt is told by four zeros. The Rust's list has no other refusal.
fn told<W: Width>(
    rt: &impl Print,
    answer: Result<Built, Refusal>,
    fingerprints: &[W],
) -> io::Result<()> {
    match answer {
        Ok(built) => {
            let d = built.descriptor;
            let slots = (built.slots as usize).min(fingerprints.len());
            let digest = samples::digest(&fingerprints[..slots]);
            print!(rt;
                " {} {} {} {digest}",
                d.seed, d.segment_length, d.segment_count_length
            )
        }
        Err(Refusal::Stuck) => print!(rt; " 0 0 0 0"),
        Err(_) => print!(rt; " refused"),
    }
}
