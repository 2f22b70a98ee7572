// The descriptor of a filter: its checks, and its twenty bytes.
#![tactic(auto)]

ghost use Rattle.std.specs.Prelude.{◌≡◌, ◌++◌, ◌^◌, ◌≤◌, length, drop};
ghost use Rattle.std.specs.Bool.{OnTrue};
ghost use Rattle.answers.specs.Answers.{outcome};
ghost use Rattle.answers.specs.Paper.{paper, passed};
ghost use Rattle.descriptor.specs.Descriptor.{is_length, check_of, descriptor_size, descriptor_of, read_of, encode, write_of};

use answers::Refusal;

pub const DESCRIPTOR_SIZE: usize = 20;

// The shortest and the longest segment length.
pub const SHORTEST_SEGMENT: u32 = 4;

pub const LONGEST_SEGMENT: u32 = 262144;

// The most fingerprints that a descriptor may speak of.
pub const LONGEST: u32 = 0x7fff_ffff;

#[derive(Clone, Copy, Debug, PartialEq, Eq)]
pub struct Descriptor {
    pub seed: u64,
    pub segment_length: u32,
    pub segment_length_mask: u32,
    pub segment_count_length: u32,
}

// Checks 8, 9 and 10.
#[tactic(auto, unfolding(crate::specs::Descriptor::check_of, crate::specs::Descriptor::bad_count))]
pub fn check(d: Descriptor) -> Result<(), Refusal>
    ensures { passed result ≡ check_of d }
{
    let size = d.segment_length;
    let count = d.segment_count_length;
    if !is_length(size) {
        return Err(Refusal::SegmentLength);
    }
    if d.segment_length_mask != size - 1 {
        return Err(Refusal::Mask);
    }
    if count == 0 || !count.is_multiple_of(size) || LONGEST - 2 * size < count {
        return Err(Refusal::CountLength);
    }
    Ok(())
}

// A power of two in 4..262,144.
fn is_length(size: u32) -> bool
    ensures value { result ≡ is_length size }
    ensures range { OnTrue result ((4 ≤ size) × (size ≤ 2 ^ 18)) }
{
    (SHORTEST_SEGMENT..=LONGEST_SEGMENT).contains(&size) && size.is_power_of_two()
}

// The record in the first twenty bytes, if checks 7 to 10 pass it.
pub fn read(bytes: &[u8]) -> Result<Descriptor, Refusal>
    ensures { paper result ≡ read_of bytes.now }
{
    if bytes.len() < DESCRIPTOR_SIZE {
        return Err(Refusal::ShortDescriptor);
    }
    let d = parse(bytes);
    check(d)?;
    Ok(d)
}

// The record in the first twenty bytes.
pub fn parse(bytes: &[u8]) -> Descriptor
    requires { descriptor_size ≤ length bytes.now }
    ensures { result ≡ descriptor_of bytes.now }
{
    Descriptor {
        seed: u64::from_le_bytes(bytes[..8].try_into().unwrap()),
        segment_length: u32::from_le_bytes(bytes[8..12].try_into().unwrap()),
        segment_length_mask: u32::from_le_bytes(bytes[12..16].try_into().unwrap()),
        segment_count_length: u32::from_le_bytes(bytes[16..20].try_into().unwrap()),
    }
}

// The first twenty bytes of the room become the record's, if check 7 passes the room, and 8 to 10 the record.
pub fn write(d: Descriptor, room: &mut [u8]) -> Result<(), Refusal>
    ensures { outcome (passed result) room.new ≡ write_of d room.old }
{
    if room.len() < DESCRIPTOR_SIZE {
        return Err(Refusal::ShortDescriptor);
    }
    check(d)?;
    store(d, room);
    Ok(())
}

// The record's twenty bytes, from the start of the room.
fn store(d: Descriptor, room: &mut [u8])
    requires { descriptor_size ≤ length room.old }
    ensures { room.new ≡ encode d ++ drop descriptor_size room.old }
{
    room[..8].copy_from_slice(&d.seed.to_le_bytes());
    room[8..12].copy_from_slice(&d.segment_length.to_le_bytes());
    room[12..16].copy_from_slice(&d.segment_length_mask.to_le_bytes());
    room[16..20].copy_from_slice(&d.segment_count_length.to_le_bytes());
}
