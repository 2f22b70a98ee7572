// The descriptor: checks 8 to 10 at their borders, 7 and the twenty bytes read and written.
use descriptor::Descriptor;
use std::io;

// L, mask and count length.
const CHECKED: [[u32; 3]; 23] = [
    // Short segments, and long ones.
    [0, 0, 4],
    [2, 1, 4],
    [3, 2, 6],
    [4, 3, 4],
    [5, 4, 5],
    [262143, 262142, 262143],
    [262144, 262143, 262144],
    [262145, 262144, 262145],
    [524288, 524287, 524288],
    // Masks.
    [4, 2, 4],
    [4, 3, 4],
    [4, 4, 4],
    // Short count lengths, and long ones.
    [4, 3, 0],
    [4, 3, 3],
    [4, 3, 4],
    [4, 3, 5],
    [4, 3, 2147483636],
    [4, 3, 2147483640],
    [262144, 262143, 2146697216],
    [262144, 262143, 2146959360],
    [4, 3, 4294967292],
    // More than one fault: the first in the order of the numbers is told.
    [5, 5, 0],
    [8, 8, 0],
];

const DAMAGED: [[u32; 3]; 4] = [[5, 3, 4], [4, 4, 4], [4, 3, 0], [4, 3, 4]];

// Seed 1, with this L, mask and count length, whatever they are.
pub fn made([length, mask, count_length]: [u32; 3]) -> Descriptor {
    Descriptor {
        seed: 1,
        segment_length: length,
        segment_length_mask: mask,
        segment_count_length: count_length,
    }
}

// Its twenty bytes, and one byte more.
pub fn bytes_of(d: Descriptor) -> [u8; 21] {
    let mut bytes = [170; 21];
    bytes[..8].copy_from_slice(&d.seed.to_le_bytes());
    bytes[8..12].copy_from_slice(&d.segment_length.to_le_bytes());
    bytes[12..16].copy_from_slice(&d.segment_length_mask.to_le_bytes());
    bytes[16..20].copy_from_slice(&d.segment_count_length.to_le_bytes());
    bytes
}

pub fn fields(rt: &impl Print, d: Descriptor) -> io::Result<()> {
    print!(rt;
        "L {} mask {} count length {}",
        d.segment_length, d.segment_length_mask, d.segment_count_length
    )
}

fn check(rt: &impl Print, d: Descriptor) -> io::Result<()> {
    print!(rt; "check ")?;
    fields(rt, d)?;
    match descriptor::check(d) {
        Ok(()) => println!(rt; ": good"),
        Err(why) => println!(rt; ": {why}"),
    }
}

fn read(rt: &impl Print, bytes: &[u8]) -> io::Result<()> {
    print!(rt; "read bytes {}: ", bytes.len())?;
    match descriptor::read(bytes) {
        Ok(d) => {
            print!(rt; "seed {} ", d.seed)?;
            fields(rt, d)?;
            println!(rt)
        }
        Err(why) => println!(rt; "{why}"),
    }
}

fn write(rt: &impl Print, d: Descriptor, room: &mut [u8]) -> io::Result<()> {
    print!(rt; "write into")?;
    printing::bytes(rt, room)?;
    match descriptor::write(d, room) {
        Ok(()) => println!(rt; "write: done")?,
        Err(why) => println!(rt; "write: {why}")?,
    }
    print!(rt; "leaves")?;
    printing::bytes(rt, room)
}

fn rooms(rt: &impl Print) -> io::Result<()> {
    let good = made([4, 3, 4]);
    let damaged = made([5, 4, 5]);
    let mut short = [170; 19];
    write(rt, good, &mut short)?;
    write(rt, damaged, &mut short)?;
    read(rt, &short)?;
    let mut exact = [170; 20];
    write(rt, good, &mut exact)?;
    read(rt, &exact)?;
    let mut longer = [170; 21];
    let last_seed = Descriptor {
        seed: u64::MAX,
        ..made([512, 511, 4608])
    };
    write(rt, last_seed, &mut longer)?;
    read(rt, &longer)?;
    let mut long = [170; 25];
    write(rt, damaged, &mut long)?;
    write(rt, good, &mut long)
}

pub fn run(rt: &impl Print) -> io::Result<()> {
    for numbers in CHECKED {
        check(rt, made(numbers))?;
    }
    rooms(rt)?;
    for numbers in DAMAGED {
        read(rt, &bytes_of(made(numbers))[..20])?;
    }
    Ok(())
}
