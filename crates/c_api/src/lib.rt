// The calls of a C program. A slice crosses as a pointer and a count of elements; each call answers with a number.
#![tactic(auto)]

ghost use Rattle.std.specs.Prelude.{◌≡◌};
ghost use Rattle.fuse.specs.Query.{told, contains_bytes_of};
ghost use Rattle.flush.specs.FlushKey.{flush_key_of};
ghost use Rattle.c_api.specs.KeyTold.{key_told, told_key};
ghost use Rattle.fuse.specs.Memory.{memory};
ghost use Rattle.c_api.specs.BuildTold.{build_told, told_build};
ghost use Rattle.c_api.specs.Telling.{CanTell, Tells};
ghost use Rattle.plan.specs.Paper.{paper};

use answers::Refusal;
use descriptor::DESCRIPTOR_SIZE;
use plan::Built;
use scratch::Scratch;

// A refusal by a build is this and its number, so that no attempt number is like one.
const BUILD_REFUSED: u32 = 0x1_0000;
// No room for the descriptor's twenty bytes.
const ROOM_REFUSED: u32 = BUILD_REFUSED + 7;

#[unsafe(no_mangle)]
pub extern "C" fn gp_fuse8_contains(descriptor: &[u8], fingerprints: &[u8], key: u64) -> u32
    ensures { result ≡ told (contains_bytes_of 8 descriptor.now fingerprints.now key) }
{
    contains8::contains_told(descriptor, fingerprints, key)
}

// The same of fingerprints of 16 bits.
#[unsafe(no_mangle)]
pub extern "C" fn gp_fuse16_contains(descriptor: &[u8], fingerprints: &[u16], key: u64) -> u32
    ensures { result ≡ told (contains_bytes_of 16 descriptor.now fingerprints.now key) }
{
    bfuse16::contains_told(descriptor, fingerprints, key)
}

// Writes the key of a flush and answers 0; a refusal leaves `key` as it was.
#[unsafe(no_mangle)]
pub extern "C" fn gp_flush_key(unit: u16, valve: u8, seconds: i64, key: &mut u64) -> u32
    ensures { key_told result key.new ≡ told_key (flush_key_of unit valve seconds) key.old }
{
    match flush::flush_key(unit, valve, seconds) {
        Ok(made) => {
            *key = made;
            0
        }
        Err(why) => why.code(),
    }
}

// The number that C is told of a build's answer. Where a list was built, its descriptor's twenty bytes are written.
fn tell(answer: Result<Built, Refusal>, descriptor: &mut [u8]) -> u32
    requires { CanTell (paper answer) descriptor.old }
    ensures { Tells (paper answer) descriptor.old result descriptor.new }
{
    match answer {
        Ok(built) => {
            descriptor::write(built.descriptor, descriptor).unwrap();
            built.attempt
        }
        Err(why) => BUILD_REFUSED + why.number(),
    }
}

// Packs the keys and answers the attempt number, with the descriptor's twenty bytes written; a refusal leaves that room as it was.
// The C interface lends the scratch as six slices, and has a function for each width.
#[unsafe(no_mangle)]
pub extern "C" fn gp_fuse8_build(
    keys: &[u64],
    limit: u32,
    fingerprints: &mut [u8],
    lone: &mut [u32],
    counts: &mut [u16],
    sums: &mut [u64],
    positions: &mut [u8],
    order: &mut [u64],
    starts: &mut [u32],
    descriptor: &mut [u8],
) -> u32
    ensures { build_told result (memory fingerprints.new lone.new counts.new sums.new positions.new order.new starts.new) descriptor.new ≡ told_build 8 keys.now limit (memory fingerprints.old lone.old counts.old sums.old positions.old order.old starts.old) descriptor.old }
{
    if descriptor.len() < DESCRIPTOR_SIZE {
        return ROOM_REFUSED;
    }
    let mut scratch = Scratch {
        lone,
        counts,
        sums,
        positions,
        order,
        starts,
    };
    let answer = bfuse8::build(keys, limit, fingerprints, &mut scratch);
    tell(answer, descriptor)
}

// The same with fingerprints of 16 bits.
#[unsafe(no_mangle)]
pub extern "C" fn gp_fuse16_build(
    keys: &[u64],
    limit: u32,
    fingerprints: &mut [u16],
    lone: &mut [u32],
    counts: &mut [u16],
    sums: &mut [u64],
    positions: &mut [u8],
    order: &mut [u64],
    starts: &mut [u32],
    descriptor: &mut [u8],
) -> u32
    ensures { build_told result (memory fingerprints.new lone.new counts.new sums.new positions.new order.new starts.new) descriptor.new ≡ told_build 16 keys.now limit (memory fingerprints.old lone.old counts.old sums.old positions.old order.old starts.old) descriptor.old }
{
    if descriptor.len() < DESCRIPTOR_SIZE {
        return ROOM_REFUSED;
    }
    let mut scratch = Scratch {
        lone,
        counts,
        sums,
        positions,
        order,
        starts,
    };
    let answer = bfuse16::build(keys, limit, fingerprints, &mut scratch);
    tell(answer, descriptor)
}
