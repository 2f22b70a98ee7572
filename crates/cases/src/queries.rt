// The query at both widths, a line for each: refusals 7 to 11 at their borders, asked of the bytes and of the record.
use crate::descriptors::{bytes_of, fields, made};
use answers::Refusal;
use descriptor::Descriptor;
use samples::Width;
use std::io;

// Under seed 1 its hash is 0, and so its fingerprint is 0.
const HASH_ZERO: u64 = u64::MAX;
// Under seed 1 its fingerprint is 0 at 8 bits, and at 16 bits `HIGH`, whose low byte is 0.
const LOW_BYTE_ZERO: u64 = 241;

const HIGH: u16 = 34816;
// The most fingerprints that are given.
const MOST: usize = 15;

// L, mask and count length, and how many fingerprints are given.
const ASKED: [([u32; 3], usize); 17] = [
    // Lengths of the fingerprints.
    ([4, 3, 4], 0),
    ([4, 3, 4], 11),
    ([4, 3, 4], 12),
    ([4, 3, 4], 13),
    // Segment lengths.
    ([2, 1, 4], 8),
    ([5, 4, 5], 15),
    ([262144, 262143, 262144], 15),
    ([524288, 524287, 524288], 15),
    // Masks.
    ([4, 2, 4], 12),
    ([4, 4, 4], 12),
    // Count lengths.
    ([4, 3, 0], 8),
    ([4, 3, 5], 13),
    ([4, 3, 2147483636], 13),
    ([4, 3, 2147483640], 13),
    // More than one fault: the first in the order of the numbers is told.
    ([5, 5, 0], 1),
    ([8, 8, 0], 1),
    ([8, 7, 0], 1),
];

fn told(rt: &impl Print, answer: Result<bool, Refusal>) -> io::Result<()> {
    match answer {
        Ok(false) => print!(rt; "no"),
        Ok(true) => print!(rt; "yes"),
        Err(why) => print!(rt; "{why}"),
    }
}

fn by_bytes<W: Width>(
    rt: &impl Print,
    descriptor: &[u8],
    fingerprints: &[W],
    key: u64,
) -> io::Result<()> {
    let heading = W::HEADING;
    let size = descriptor.len();
    let given = fingerprints.len();
    print!(rt; "{heading}query bytes {size} fingerprints {given} key {key}: ")?;
    told(rt, W::contains_bytes(descriptor, fingerprints, key))?;
    let told_to_c = W::contains_told(descriptor, fingerprints, key);
    println!(rt; "; C is told {told_to_c}")
}

fn by_record<W: Width>(rt: &impl Print, d: Descriptor, fingerprints: &[W]) -> io::Result<()> {
    print!(rt; "{}query ", W::HEADING)?;
    fields(rt, d)?;
    print!(rt; " fingerprints {}: ", fingerprints.len())?;
    told(rt, W::contains(d, fingerprints, HASH_ZERO))?;
    println!(rt)
}

// Asked of the bytes at both widths, with this many fingerprints, each 0.
fn bytes_at_both(rt: &impl Print, descriptor: &[u8], size: usize, key: u64) -> io::Result<()> {
    let size = size.min(MOST);
    by_bytes(rt, descriptor, &[0u8; MOST][..size], key)?;
    by_bytes(rt, descriptor, &[0u16; MOST][..size], key)
}

// The same of the record, with the key whose hash is 0.
fn record_at_both(rt: &impl Print, d: Descriptor, size: usize) -> io::Result<()> {
    let size = size.min(MOST);
    by_record(rt, d, &[0u8; MOST][..size])?;
    by_record(rt, d, &[0u16; MOST][..size])
}

// Bytes one fewer than twenty, twenty, and one more.
fn lengths(rt: &impl Print) -> io::Result<()> {
    let bytes = bytes_of(made([4, 3, 4]));
    bytes_at_both(rt, &bytes[..19], 12, HASH_ZERO)?;
    bytes_at_both(rt, &bytes[..20], 12, HASH_ZERO)?;
    bytes_at_both(rt, &bytes, 12, HASH_ZERO)?;
    bytes_at_both(rt, &bytes, 12, 0)?;
    bytes_at_both(rt, &bytes[..19], 13, HASH_ZERO)
}

// Where the low byte answers yes the high one decides.
fn high_bytes(rt: &impl Print) -> io::Result<()> {
    let descriptor = bytes_of(made([4, 3, 4]));
    bytes_at_both(rt, &descriptor, 12, LOW_BYTE_ZERO)?;
    for key in [LOW_BYTE_ZERO, HASH_ZERO] {
        print!(rt; "each fingerprint {HIGH}: ")?;
        by_bytes(rt, &descriptor, &[HIGH; 12], key)?;
    }
    Ok(())
}

pub fn run(rt: &impl Print) -> io::Result<()> {
    lengths(rt)?;
    for (numbers, size) in ASKED {
        let d = made(numbers);
        record_at_both(rt, d, size)?;
        bytes_at_both(rt, &bytes_of(d), size, HASH_ZERO)?;
    }
    high_bytes(rt)
}
