// The build: answers 1 to 6 at their borders, the keys that are easily lost, and what every answer leaves of the lent memory.
use capacity::MAX_KEYS;
use layout::limits::{MAX_SLOTS, MAX_STARTS};
use marked::buffers::{Buffer, Lent};
use marked::call::build;
use std::io;

// What the most keys need is the most that any list needs, of bucket starts too. (With a limit of 4,096 keys half as many were needed.)
const MOST: usize = MAX_KEYS as usize;

fn most_keys(rt: &impl Print) -> io::Result<()> {
    let mut keys = [0; MOST];
    samples::of_size(&mut keys);
    build(rt, &keys, 1000, Lent::longer(MAX_SLOTS, MOST, MAX_STARTS))
}

fn too_many_keys(rt: &impl Print) -> io::Result<()> {
    let mut keys = [0; MOST + 1];
    samples::of_size(&mut keys);
    for limit in [1000, 0] {
        build(
            rt,
            &keys,
            limit,
            Lent::longer(MAX_SLOTS, MOST + 1, MAX_STARTS),
        )?;
    }
    Ok(())
}

fn limits(rt: &impl Print) -> io::Result<()> {
    for limit in [0, 1, 1000, 1001] {
        build(rt, &[5], limit, Lent::longer(12, 1, 2))?;
    }
    Ok(())
}

fn no_keys(rt: &impl Print) -> io::Result<()> {
    build(rt, &[], 1, Lent::longer(12, 0, 2))
}

// Every buffer as long as needed, and then each one element shorter.
fn rooms(rt: &impl Print) -> io::Result<()> {
    let keys = [7, 13, 0, 1, 2];
    print!(rt; "room A: ")?;
    build(rt, &keys, 1000, Lent::exact(24, 5, 4))?;
    for (name, buffer) in [
        ("fingerprints", Buffer::Fingerprints),
        ("lone list", Buffer::Lone),
        ("touch counts", Buffer::Counts),
        ("hash sums", Buffer::Sums),
        ("positions", Buffer::Positions),
        ("order", Buffer::Order),
        ("bucket starts", Buffer::Starts),
    ] {
        print!(rt; "{name} one short: ")?;
        build(rt, &keys, 1000, Lent::longer(24, 5, 4).one_short(buffer))?;
    }
    Ok(())
}

// Of no keys the order still needs one element.
fn rooms_of_no_keys(rt: &impl Print) -> io::Result<()> {
    for (name, buffer) in [
        ("fingerprints", Buffer::Fingerprints),
        ("order", Buffer::Order),
    ] {
        print!(rt; "{name} one short: ")?;
        build(rt, &[], 1, Lent::longer(12, 0, 2).one_short(buffer))?;
    }
    Ok(())
}

fn repeated_keys(rt: &impl Print) -> io::Result<()> {
    for (keys, limit) in [
        ([9, 9, 1, 2, 3], 1000),
        ([1, 9, 9, 2, 3], 1000),
        ([1, 2, 3, 9, 9], 1000),
        ([9, 1, 2, 3, 9], 1000),
        ([9, 1, 2, 3, 9], 1),
    ] {
        build(rt, &keys, limit, Lent::longer(24, 5, 4))?;
    }
    Ok(())
}

// At the last limit at which every attempt is stuck, and at the next.
fn stuck_until(rt: &impl Print, last: u32, keys: &[u64], lent: Lent) -> io::Result<()> {
    build(rt, keys, last, lent)?;
    build(rt, keys, last.saturating_add(1), lent)
}

fn stuck_lists(rt: &impl Print) -> io::Result<()> {
    for (last, keys) in [
        (1, [2, 4]),
        (2, [26, 76]),
        (3, [327, 461]),
        (4, [2002, 2074]),
        (5, [11039, 22808]),
    ] {
        stuck_until(rt, last, &keys, Lent::longer(12, 2, 2))?;
    }
    for (last, keys) in [(1, [7, 13, 0]), (2, [51, 559, 0])] {
        stuck_until(rt, last, &keys, Lent::longer(24, 3, 2))?;
    }
    for (last, keys) in [
        (1, [7, 13, 0, 1, 2]),
        (2, [18, 413, 0, 1, 2]),
        (3, [11173, 11237, 0, 1, 2]),
    ] {
        stuck_until(rt, last, &keys, Lent::longer(24, 5, 4))?;
    }
    Ok(())
}

// 1,000 keys that are stuck in attempts 1 to 999, and with one more in every attempt.
fn chains(rt: &impl Print) -> io::Result<()> {
    let mut keys = [0; 1001];
    samples::chain(&mut keys);
    stuck_until(rt, 999, &keys[0..1000], Lent::longer(1408, 1000, 32))?;
    build(rt, &keys, 1000, Lent::longer(1408, 1001, 32))
}

// The key whose hash is 0 in attempt 1.
fn hash_zero(rt: &impl Print) -> io::Result<()> {
    let zero = samples::of_hash(0, 1);
    build(rt, &[zero], 1, Lent::longer(12, 1, 2))?;
    build(
        rt,
        &[zero, 0, 1, 2, 3, 4, 5, 6, 7],
        1,
        Lent::longer(48, 9, 4),
    )
}

pub fn run(rt: &impl Print) -> io::Result<()> {
    most_keys(rt)?;
    too_many_keys(rt)?;
    limits(rt)?;
    no_keys(rt)?;
    rooms(rt)?;
    rooms_of_no_keys(rt)?;
    repeated_keys(rt)?;
    stuck_lists(rt)?;
    chains(rt)?;
    hash_zero(rt)
}
