// One call at each width on marked buffers, a line for each: what it answers, how many of the keys are listed then, and what it leaves of
// the buffers.
use crate::buffers::{Buffer, LENGTH, Lent, MARK};
use crate::left::Left;
use crate::lines::{Call, answered};
use answers::Refusal;
use plan::Built;
use samples::Width;
use scratch::Scratch;
use std::io;

pub fn build(rt: &impl Print, keys: &[u64], limit: u32, lent: Lent) -> io::Result<()> {
    let call = Call {
        name: "build",
        keys,
        number_name: "limit",
        number: limit,
    };
    at_both_widths(
        rt,
        call,
        lent,
        |list, scratch| bfuse8::build(keys, limit, list, scratch),
        |list, scratch| bfuse16::build(keys, limit, list, scratch),
    )
}

pub fn attempt(rt: &impl Print, keys: &[u64], number: u32, lent: Lent) -> io::Result<()> {
    let call = Call {
        name: "attempt",
        keys,
        number_name: "number",
        number,
    };
    at_both_widths(
        rt,
        call,
        lent,
        |list, scratch| bfuse8::attempt(keys, number, list, scratch),
        |list, scratch| bfuse16::attempt(keys, number, list, scratch),
    )
}

fn at_both_widths<F, G>(
    rt: &impl Print,
    call: Call,
    lent: Lent,
    at_8_bits: F,
    at_16_bits: G,
) -> io::Result<()>
where
    F: FnOnce(&mut [u8], &mut Scratch) -> Result<Built, Refusal>,
    G: FnOnce(&mut [u16], &mut Scratch) -> Result<Built, Refusal>,
    requires at_8_bits { F.IsAlwaysCallable at_8_bits }
    requires at_16_bits { G.IsAlwaysCallable at_16_bits }
{
    on_marked(rt, call, lent, &mut [MARK; LENGTH], at_8_bits)?;
    on_marked(rt, call, lent, &mut [u16::from(MARK); LENGTH], at_16_bits)
}

// The call on the first elements of arrays of marks, of which this one is for the fingerprints.
fn on_marked<W: Width, F>(
    rt: &impl Print,
    call: Call,
    lent: Lent,
    fingerprints: &mut [W; LENGTH],
    run: F,
) -> io::Result<()>
where
    F: FnOnce(&mut [W], &mut Scratch) -> Result<Built, Refusal>,
    requires { F.IsAlwaysCallable run }
{
    let part = &mut fingerprints[..lent.end_of(Buffer::Fingerprints)];
    let (answer, scratch) = on_scratch(lent, |scratch| run(part, scratch));
    print!(rt; "{}{call}: ", W::HEADING)?;
    answered(rt, answer, call.keys, fingerprints)?;
    let list = Left::of(fingerprints, lent.needed_of(Buffer::Fingerprints));
    println!(rt; "; fingerprints {list}, scratch {scratch}")
}

// What a call answers on marked scratch, and what it leaves of it.
fn on_scratch<F>(lent: Lent, run: F) -> (Result<Built, Refusal>, Left)
where
    F: FnOnce(&mut Scratch) -> Result<Built, Refusal>,
    requires { F.IsAlwaysCallable run }
{
    // Slices and not arrays: when part of an array has been lent through a struct, the check wants its length proved anew.
    let lone: &mut [u32] = &mut [u32::from(MARK); LENGTH];
    let counts: &mut [u16] = &mut [u16::from(MARK); LENGTH];
    let sums: &mut [u64] = &mut [u64::from(MARK); LENGTH];
    let positions: &mut [u8] = &mut [MARK; LENGTH];
    let order: &mut [u64] = &mut [u64::from(MARK); LENGTH];
    let starts: &mut [u32] = &mut [u32::from(MARK); LENGTH];
    let mut scratch = Scratch {
        lone: &mut lone[..lent.end_of(Buffer::Lone)],
        counts: &mut counts[..lent.end_of(Buffer::Counts)],
        sums: &mut sums[..lent.end_of(Buffer::Sums)],
        positions: &mut positions[..lent.end_of(Buffer::Positions)],
        order: &mut order[..lent.end_of(Buffer::Order)],
        starts: &mut starts[..lent.end_of(Buffer::Starts)],
    };
    let answer = run(&mut scratch);
    let left = Left::of(lone, lent.needed_of(Buffer::Lone))
        .and(Left::of(counts, lent.needed_of(Buffer::Counts)))
        .and(Left::of(sums, lent.needed_of(Buffer::Sums)))
        .and(Left::of(positions, lent.needed_of(Buffer::Positions)))
        .and(Left::of(order, lent.needed_of(Buffer::Order)))
        .and(Left::of(starts, lent.needed_of(Buffer::Starts)));
    (answer, left)
}
